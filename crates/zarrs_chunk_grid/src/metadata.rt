//! Chunk grids read from metadata, and written to it.
ghost use Rattle.std.specs.Prelude.{◌≡◌, Some, map, option_map, IfOk, IfErr};
ghost use Rattle.serde_json.specs.View.{view};
ghost use Rattle.zarrs_metadata_parts.specs.Extension.{extension_view};
ghost use Rattle.zarrs_metadata_parts.specs.Lists.{list_of, list_data, size_said};
ghost use Rattle.zarrs_metadata_parts.specs.Refusals.{RefusesMeaning};
ghost use Rattle.zarrs_chunk_grid.specs.Configurations.{regular, bounded, rectangular, sizes_view};
ghost use Rattle.zarrs_chunk_grid.specs.Metadata.{grid_said};
ghost use Rattle.zarrs_chunk_grid.specs.Metadata.{sizes_data, sizes_said};
ghost use Rattle.zarrs_chunk_grid.specs.GridView.{configuration_of, GridRead};
ghost use Rattle.zarrs_chunk_grid.specs.Refusals.{KeepsMemory};

use crate::dimension::{ChunkSizes, SizeList};
use crate::error::GridError;
use crate::grid::ChunkGrid;
use crate::rectangular::RectangularChunkGrid;
use crate::regular::{RegularBoundedChunkGrid, RegularChunkGrid};
use crate::traits::ChunkGridTraits;
use serde_json::Value;
use std::alloc::{AllocError, Global};
use zarrs_metadata_parts::{MetadataV3, PluginCreateError, size, sizes, sizes_value};
use zarrs_subset::ArrayShape;

const NO_SIZES: &str = "a `chunk_shape` is a list of sizes, whole numbers from 1 to 2^64 - 1";

impl ChunkGrid {
    /// The grid over an array of that shape that the metadata says: by its name `regular`, `regular_bounded` (also
    /// `zarrs.regular_bounded`) or `rectangular`, and by a configuration of `chunk_shape` alone (Zarr V3 core
    /// specification, "Chunk grids").
    ///
    /// # Errors
    /// `Other` for another name or configuration, a list of another length than the shape, a size that is no whole
    /// number from 1 to 2^64 - 1, and listed sizes whose sum is not the extent. `OutOfMemory` may come at any time.
    pub fn from_metadata(
        alloc: Global,
        metadata: &MetadataV3,
        array_shape: &[u64],
    ) -> Result<ChunkGrid, PluginCreateError>
        ensures read { IfOk result (λ g. grid_said (extension_view metadata.now) array_shape.now
            ≡ Some (configuration_of g)) }
        ensures shape { IfOk result
            (λ g. ⟦<ChunkGrid as ChunkGridTraits>⟧.array_extents g ≡ array_shape.now) }
        ensures refused { IfErr result
            (RefusesMeaning (grid_said (extension_view metadata.now) array_shape.now)) }
    {
        let Some(chunk_shape) = metadata.only_member("chunk_shape") else {
            return Err(PluginCreateError::other(
                alloc,
                "the configuration of a chunk grid is its `chunk_shape`",
            ));
        };
        let shape = Vec::from_slice(alloc, array_shape)?;
        match metadata.name() {
            "regular" => regular_from(alloc, shape, chunk_shape),
            "regular_bounded" | "zarrs.regular_bounded" => bounded_from(alloc, shape, chunk_shape),
            "rectangular" => rectangular_from(alloc, shape, chunk_shape),
            _ => Err(PluginCreateError::other(alloc, "no chunk grid has this name")),
        }
    }
}

fn regular_from(
    alloc: Global,
    array_shape: ArrayShape,
    chunk_shape: &Value,
) -> Result<ChunkGrid, PluginCreateError>
    ensures { GridRead (option_map regular (list_of size_said (view chunk_shape.now)))
        array_shape.items result }
{
    let Some(sizes) = sizes(alloc, chunk_shape)? else {
        return Err(PluginCreateError::other(alloc, NO_SIZES));
    };
    match RegularChunkGrid::new(alloc, array_shape, sizes) {
        Ok(grid) => Ok(ChunkGrid::Regular(grid)),
        Err(error) => Err(refusal(alloc, error)),
    }
}

fn bounded_from(
    alloc: Global,
    array_shape: ArrayShape,
    chunk_shape: &Value,
) -> Result<ChunkGrid, PluginCreateError>
    ensures { GridRead (option_map bounded (list_of size_said (view chunk_shape.now)))
        array_shape.items result }
{
    let Some(sizes) = sizes(alloc, chunk_shape)? else {
        return Err(PluginCreateError::other(alloc, NO_SIZES));
    };
    match RegularBoundedChunkGrid::new(alloc, array_shape, sizes) {
        Ok(grid) => Ok(ChunkGrid::RegularBounded(grid)),
        Err(error) => Err(refusal(alloc, error)),
    }
}

fn rectangular_from(
    alloc: Global,
    array_shape: ArrayShape,
    chunk_shape: &Value,
) -> Result<ChunkGrid, PluginCreateError>
    ensures { GridRead (option_map rectangular (list_of sizes_said (view chunk_shape.now)))
        array_shape.items result }
{
    let Some(dimensions) = dimensions_from(alloc, chunk_shape)? else {
        return Err(PluginCreateError::other(alloc, NO_SIZES));
    };
    match RectangularChunkGrid::new(alloc, array_shape, dimensions) {
        Ok(grid) => Ok(ChunkGrid::Rectangular(grid)),
        Err(error) => Err(refusal(alloc, error)),
    }
}

// The refusal of a grid as one of its metadata.
fn refusal(alloc: Global, error: GridError) -> PluginCreateError
    ensures { KeepsMemory error result }
{
    match error {
        GridError::IncompatibleDimensionality(_) => PluginCreateError::other(
            alloc,
            "the `chunk_shape` has another length than the shape of the array",
        ),
        GridError::UnequalExtent => PluginCreateError::other(
            alloc,
            "the chunk sizes along a dimension do not add up to the extent of the array",
        ),
        GridError::OutOfMemory => PluginCreateError::OutOfMemory,
    }
}

fn dimensions_from(alloc: Global, value: &Value) -> Result<Option<Vec<ChunkSizes>>, AllocError>
    ensures { IfOk result (λ found. option_map (λ dimensions. map sizes_view dimensions.items) found
        ≡ list_of sizes_said (view value.now)) }
{
    let Some(items) = value.as_array() else {
        return Ok(None);
    };
    let mut dimensions = Vec::with_capacity(alloc, items.len())?;
    for item in items {
        match dimension_from(alloc, item)? {
            Some(sizes) => dimensions.push(sizes)?,
            None => return Ok(None),
        }
    }
    Ok(Some(dimensions))
}

// A size, or a list of sizes that end below 2^64.
fn dimension_from(alloc: Global, value: &Value) -> Result<Option<ChunkSizes>, AllocError>
    ensures { IfOk result (λ found. option_map sizes_view found ≡ sizes_said (view value.now)) }
{
    if let Some(size) = size(value) {
        return Ok(Some(ChunkSizes::Size(size)));
    }
    let Some(sizes) = sizes(alloc, value)? else {
        return Ok(None);
    };
    match SizeList::new(alloc, sizes) {
        Ok(list) => Ok(Some(ChunkSizes::Sizes(list))),
        Err(GridError::OutOfMemory) => Err(AllocError),
        Err(_) => Ok(None),
    }
}

/// A size or a list of sizes for each dimension.
pub(crate) fn dimensions_value(
    alloc: Global,
    dimensions: &[ChunkSizes],
) -> Result<Value, AllocError>
    ensures { IfOk result
        (λ value. view value ≡ list_data sizes_data (map sizes_view dimensions.now)) }
{
    let mut values = Vec::with_capacity(alloc, dimensions.len())?;
    for sizes in dimensions {
        values.push(dimension_value(alloc, sizes)?)?;
    }
    Ok(Value::Array(values))
}

fn dimension_value(alloc: Global, sizes: &ChunkSizes) -> Result<Value, AllocError>
    ensures { IfOk result (λ value. view value ≡ sizes_data (sizes_view sizes.now)) }
{
    match sizes {
        ChunkSizes::Size(size) => Ok(Value::from(size.get())),
        ChunkSizes::Sizes(list) => sizes_value(alloc, list.sizes()),
    }
}
