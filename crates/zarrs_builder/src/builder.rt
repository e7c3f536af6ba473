//! A builder of arrays.
mod arrays;
mod building;
mod setters;

use crate::data_type::ArrayBuilderDataType;
use crate::fill_value::{ArrayBuilderFillValue, IntoFillValue};
pub use arrays::ToBuilder;
use serde_json::{Map, Value};
use std::alloc::{AllocError, Global};
use zarrs_chunk_grid::{ChunkGrid, ChunkGridTraits};
use zarrs_codec::{ArrayToArrayCodec, ArrayToBytesCodec, CodecSpecificOptions};
use zarrs_data_type::IntoField;
use zarrs_keys::ChunkKeyEncoding;
use zarrs_metadata::{AdditionalFieldsV3, ChunkKeySeparator, DimensionName};
use zarrs_options::ArrayBuilderChunkGridMetadata;
use zarrs_subset::ArrayShape;

/// What a new array is to be: its shape, how it is cut into chunks and they into subchunks, the type of its cells and
/// their fill value, the codecs and their options, the keys of its chunks, attributes, names of dimensions and additional
/// fields.
///
/// A field for which there was no memory remembers it: `build` and `build_metadata` are out of memory then, until the
/// field is set again.
#[derive(Debug, Drop)]
pub struct ArrayBuilder {
    shape: Result<ArrayShape, AllocError>,
    chunk_grid: Result<ArrayBuilderChunkGridMetadata, AllocError>,
    data_type: Result<ArrayBuilderDataType, AllocError>,
    fill_value: Result<ArrayBuilderFillValue, AllocError>,
    dimension_names: Result<Option<Vec<DimensionName>>, AllocError>,
    subchunk_shape: Result<Option<ArrayShape>, AllocError>,
    chunk_key_encoding: ChunkKeyEncoding,
    array_to_array_codecs: Vec<ArrayToArrayCodec>,
    array_to_bytes_codec: Option<ArrayToBytesCodec>,
    attributes: Map<String, Value>,
    additional_fields: AdditionalFieldsV3,
    codec_specific_options: CodecSpecificOptions,
}

impl ArrayBuilder {
    ghost use Rattle.std.specs.Prelude.{IfOk};
    ghost use Rattle.zarrs_builder.specs.Builders.{builder_view, shape_of, chunk_grid_of};
    ghost use Rattle.zarrs_builder.specs.Builders.{data_type_of, fill_value_of, IsNew, HasGrid};

    /// Returns a builder of an array of this shape, chunk grid, data type and fill value, with `default` chunk keys
    /// separated by `/`, the default codec of the data type, the default options, and no subchunks, attributes, names of
    /// dimensions and additional fields.
    pub fn new<
        S: IntoField<ArrayShape>,
        G: IntoField<ArrayBuilderChunkGridMetadata>,
        D: IntoField<ArrayBuilderDataType>,
        F: IntoFillValue,
    >(alloc: Global, shape: S, chunk_grid_metadata: G, data_type: D, fill_value: F) -> ArrayBuilder
        ensures shape { IfOk (shape_of result) (S.gives shape) }
        ensures chunk_grid { IfOk (chunk_grid_of result) (G.gives chunk_grid_metadata) }
        ensures data_type { IfOk (data_type_of result) (D.gives data_type) }
        ensures fill_value { IfOk (fill_value_of result) (F.gives fill_value) }
        ensures plain { IsNew (builder_view result) }
    {
        ArrayBuilder {
            shape: shape.into_field(alloc),
            chunk_grid: chunk_grid_metadata.into_field(alloc),
            data_type: data_type.into_field(alloc),
            fill_value: fill_value.into_fill_value(alloc),
            dimension_names: Ok(None),
            subchunk_shape: Ok(None),
            chunk_key_encoding: ChunkKeyEncoding::Default(ChunkKeySeparator::Slash),
            array_to_array_codecs: Vec::new(alloc),
            array_to_bytes_codec: None,
            attributes: Map::new(alloc),
            additional_fields: Map::new(alloc),
            codec_specific_options: CodecSpecificOptions::default(),
        }
    }

    /// Returns a builder of an array of this chunk grid and its shape, else as `new`.
    pub fn new_with_chunk_grid<
        G: Into<ChunkGrid>,
        D: IntoField<ArrayBuilderDataType>,
        F: IntoFillValue,
    >(alloc: Global, chunk_grid: G, data_type: D, fill_value: F) -> ArrayBuilder
        ensures grid { HasGrid (G.converts chunk_grid) (builder_view result) }
        ensures data_type { IfOk (data_type_of result) (D.gives data_type) }
        ensures fill_value { IfOk (fill_value_of result) (F.gives fill_value) }
        ensures plain { IsNew (builder_view result) }
    {
        let chunk_grid = chunk_grid.into();
        ArrayBuilder {
            shape: Vec::from_slice(alloc, chunk_grid.array_shape()),
            chunk_grid: grid_field(alloc, &chunk_grid),
            ..ArrayBuilder::new(alloc, [0; 0], [0u64; 0], data_type, fill_value)
        }
    }
}

ghost use Rattle.std.specs.Prelude.{◌≡◌, Some, IfOk};
ghost use Rattle.zarrs_chunk_grid.specs.GridView.{configuration_of};
ghost use Rattle.zarrs_chunk_grid.specs.Metadata.{extension_of_grid};
ghost use Rattle.zarrs_options.specs.Given.{grid_given};

/// Returns the metadata of the grid as a field.
fn grid_field(alloc: Global, grid: &ChunkGrid) -> Result<ArrayBuilderChunkGridMetadata, AllocError>
    ensures { IfOk result (λ field. grid_given field
        ≡ Some (extension_of_grid (configuration_of grid.now))) }
{
    grid.metadata(alloc)?.into_field(alloc)
}
