//! Changes of metadata.
ghost use Rattle.std.specs.Prelude.{◌≡◌, length, map, Some, Ok, Err, IfOk, IfErr, OnOk, OnErr, option_map};
ghost use Rattle.zarrs_metadata_parts.specs.Extension.{extension_view};
ghost use Rattle.zarrs_metadata_v3.specs.View.{name_view};
ghost use Rattle.zarrs_metadata.specs.Versions.{metadata_view};
ghost use Rattle.zarrs_metadata_parts.specs.Lists.{sizes_of};
ghost use Rattle.zarrs_chunk_grid.specs.GridView.{configuration_of, array_extents_of};
ghost use Rattle.zarrs_options.specs.Given.{grid_given, regular_extension};
ghost use Rattle.zarrs_options.specs.Refusals.{create_refusal_of, RefusesCreation, chunk_grid};
ghost use Rattle.zarrs_options.specs.Refusals.{unsupported_v2};
ghost use Rattle.zarrs_creation.specs.Changes.{naming, with_names, with_shape, reshaping};
ghost use Rattle.zarrs_creation.specs.Changes.{grid_of_metadata, dimensions_said, chunks_said, regridding};
ghost use Rattle.zarrs_creation.specs.Making.{MakesPart};
ghost use Rattle.zarrs_creation.specs.Meanings.{shape_said};

use crate::parts::{check_names, grid_from};
use std::alloc::{AllocError, Global};
use zarrs_chunk_grid::{ChunkGrid, ChunkShape};
use zarrs_metadata::{ArrayMetadata, DimensionName, MetadataV3, PluginCreateError};
use zarrs_metadata_parts::sizes_value;
use zarrs_options::{ArrayBuilderChunkGridMetadata, ArrayCreateError};

/// Makes the refusal of names of dimensions in V2 metadata.
fn no_names_in_v2(alloc: Global) -> Result<ArrayCreateError, AllocError>
    ensures { IfOk result
        (λ e. RefusesCreation {A = Unit {0}} (Err unsupported_v2) (create_refusal_of e)) }
{
    let text = String::from_str(alloc, "names of dimensions")?;
    Ok(ArrayCreateError::UnsupportedZarrV2Array(text))
}

/// Gives an array with this metadata this shape, of as many extents. This takes no memory, and the grid is not looked at.
pub fn overwrite_shape(metadata: &mut ArrayMetadata, shape: &[u64])
    requires { length shape.now ≡ length (shape_said (metadata_view metadata.old)) }
    ensures { metadata_view metadata.new ≡ with_shape shape.now (metadata_view metadata.old) }
{
    match metadata {
        ArrayMetadata::V3(document) => document.shape.copy_from_slice(shape),
        ArrayMetadata::V2(document) => document.shape.copy_from_slice(shape),
    }
}

/// Gives the dimensions of an array with this metadata these names, or takes their names away.
///
/// # Errors
/// E21 for more or fewer names than dimensions; E25 for names in V2 metadata, which has none. E26 may come for those.
/// The metadata stays then.
pub fn name_dimensions(
    alloc: Global,
    metadata: &mut ArrayMetadata,
    names: Option<Vec<DimensionName>>,
) -> Result<(), ArrayCreateError>
    ensures named { OnOk result (metadata_view metadata.new
        ≡ with_names (option_map (λ n. map name_view n.items) names) (metadata_view metadata.old)) }
    ensures accepted { OnOk result (naming (option_map (λ n. map name_view n.items) names)
        (metadata_view metadata.old) ≡ Ok tt) }
    ensures refused { IfErr result (λ e. RefusesCreation
        (naming (option_map (λ n. map name_view n.items) names) (metadata_view metadata.old))
        (create_refusal_of e)) }
    ensures untouched { OnErr result (metadata_view metadata.new ≡ metadata_view metadata.old) }
{
    match metadata {
        ArrayMetadata::V3(document) => {
            check_names(document.shape.len(), &names)?;
            document.dimension_names = names;
            Ok(())
        }
        ArrayMetadata::V2(_) => {
            if names.is_none() {
                return Ok(());
            }
            Err(no_names_in_v2(alloc)?)
        }
    }
}

/// Returns the metadata of the `regular` grid of chunks of this shape.
fn regular_metadata(alloc: Global, chunk_shape: &ChunkShape) -> Result<MetadataV3, AllocError>
    ensures { IfOk result
        (λ m. extension_view m ≡ regular_extension (sizes_of chunk_shape.now.items)) }
{
    let chunk_shape = sizes_value(alloc, chunk_shape)?;
    MetadataV3::with_one_member(alloc, "regular", "chunk_shape", chunk_shape)
}

/// Returns the grid of an array with this metadata over another shape.
fn grid_over(
    alloc: Global,
    metadata: &ArrayMetadata,
    shape: &[u64],
) -> Result<ChunkGrid, ArrayCreateError>
    ensures said { MakesPart chunk_grid
        (grid_of_metadata (with_shape shape.now (metadata_view metadata.now))) configuration_of
        result }
    ensures shape { IfOk result (λ g. array_extents_of g ≡ shape.now) }
{
    match metadata {
        ArrayMetadata::V3(document) => grid_from(alloc, &document.chunk_grid, shape),
        ArrayMetadata::V2(document) => {
            let metadata = regular_metadata(alloc, &document.chunks)?;
            grid_from(alloc, &metadata, shape)
        }
    }
}

/// Gives an array with this metadata another shape, and returns its grid over that shape.
///
/// # Errors
/// E18 if there is no such grid, so also for another number of dimensions. E26 may come at any time. The metadata
/// stays then.
pub fn reshape(
    alloc: Global,
    metadata: &mut ArrayMetadata,
    shape: Vec<u64>,
) -> Result<ChunkGrid, ArrayCreateError>
    ensures reshaped { OnOk result
        (reshaping shape.items (metadata_view metadata.old) ≡ Ok (metadata_view metadata.new)) }
    ensures grid { IfOk result (λ g. grid_of_metadata (metadata_view metadata.new)
        ≡ Some (configuration_of g)) }
    ensures shape { IfOk result (λ g. array_extents_of g ≡ shape.items) }
    ensures refused { IfErr result (λ e. RefusesCreation
        (reshaping shape.items (metadata_view metadata.old)) (create_refusal_of e)) }
    ensures untouched { OnErr result (metadata.new ≡ metadata.old) }
{
    let grid = grid_over(alloc, metadata, &shape)?;
    match metadata {
        ArrayMetadata::V3(document) => document.shape = shape,
        ArrayMetadata::V2(document) => document.shape = shape,
    }
    Ok(grid)
}

/// Tests whether the shape has as many dimensions as an array with this metadata.
fn check_dimensions(metadata: &ArrayMetadata, shape: &[u64]) -> Result<(), ArrayCreateError>
    ensures said { OnOk result (dimensions_said shape.now (metadata_view metadata.now) ≡ Ok tt) }
    ensures refused { IfErr result (λ e. RefusesCreation
        (dimensions_said shape.now (metadata_view metadata.now)) (create_refusal_of e)) }
{
    let array_shape = match metadata {
        ArrayMetadata::V3(document) => document.shape.as_slice(),
        ArrayMetadata::V2(document) => document.shape.as_slice(),
    };
    let (given, dimensions) = (shape.len(), array_shape.len());
    if given == dimensions {
        return Ok(());
    }
    Err(ArrayCreateError::InvalidChunkGridDimensionality(given, dimensions))
}

/// Makes the refusal of a grid that V2 metadata cannot say.
fn no_grid_in_v2(alloc: Global) -> Result<ArrayCreateError, AllocError>
    ensures { IfOk result
        (λ e. RefusesCreation {A = Unit {0}} (Err chunk_grid) (create_refusal_of e)) }
{
    let text = String::from_str(alloc, "a V2 array has a `regular` grid")?;
    Ok(ArrayCreateError::ChunkGridCreateError(PluginCreateError::Other(text)))
}

/// Returns the shape of each chunk of a `regular` grid, as V2 metadata says it.
fn chunks_of(alloc: Global, grid: &ChunkGrid) -> Result<ChunkShape, ArrayCreateError>
    ensures said { IfOk result (λ chunks.
        chunks_said (configuration_of grid.now) ≡ Ok (sizes_of chunks.items)) }
    ensures refused { IfErr result (λ e. RefusesCreation (chunks_said (configuration_of grid.now))
        (create_refusal_of e)) }
{
    match grid {
        ChunkGrid::Regular(grid) => Ok(Vec::from_slice(alloc, grid.sizes())?),
        _ => Err(no_grid_in_v2(alloc)?),
    }
}

/// Gives an array with this metadata another shape and the grid that is given over that shape, and returns the grid.
///
/// # Errors
/// In this order: E18 for a text that is no metadata; E20 for another number of dimensions; E18 for no chunk grid over
/// the shape, and in V2 metadata for a grid that is not `regular`. E26 may come at any time. The metadata stays then.
pub fn regrid(
    alloc: Global,
    metadata: &mut ArrayMetadata,
    shape: Vec<u64>,
    chunk_grid_metadata: &ArrayBuilderChunkGridMetadata,
) -> Result<ChunkGrid, ArrayCreateError>
    ensures regridded { OnOk result (regridding shape.items (grid_given chunk_grid_metadata.now)
        (metadata_view metadata.old) ≡ Ok (metadata_view metadata.new)) }
    ensures grid { IfOk result (λ g. grid_of_metadata (metadata_view metadata.new)
        ≡ Some (configuration_of g)) }
    ensures shape { IfOk result (λ g. array_extents_of g ≡ shape.items) }
    ensures refused { IfErr result (λ e. RefusesCreation (regridding shape.items
        (grid_given chunk_grid_metadata.now) (metadata_view metadata.old)) (create_refusal_of e)) }
    ensures untouched { OnErr result (metadata.new ≡ metadata.old) }
{
    let chunk_grid = chunk_grid_metadata.to_metadata(alloc)?;
    check_dimensions(metadata, &shape)?;
    let grid = grid_from(alloc, &chunk_grid, &shape)?;
    match metadata {
        ArrayMetadata::V3(document) => {
            document.shape = shape;
            document.chunk_grid = chunk_grid;
        }
        ArrayMetadata::V2(document) => {
            let chunks = chunks_of(alloc, &grid)?;
            document.shape = shape;
            document.chunks = chunks;
        }
    }
    Ok(grid)
}
