//! The parts of an array that a V3 document says.
ghost use Rattle.std.specs.Prelude.{◌≡◌, map, length, Ok, None, IsSome, IfOk, IfErr, OnOk, option_map};
ghost use Rattle.zarrs_metadata_parts.specs.Extension.{extension_view};
ghost use Rattle.zarrs_metadata_parts.specs.FillValue.{fill_data};
ghost use Rattle.zarrs_metadata_v3.specs.View.{document_view, name_view};
ghost use Rattle.zarrs_chunk_grid.specs.GridView.{configuration_of, array_extents_of};
ghost use Rattle.zarrs_chunk_grid.specs.Metadata.{grid_said};
ghost use Rattle.zarrs_keys.specs.Metadata.{key_encoding_of};
ghost use Rattle.zarrs_data_type.specs.Cell.{fill_cell};
ghost use Rattle.zarrs_data_type.specs.FillMetadata.{fill_said, fill_written};
ghost use Rattle.zarrs_data_type.specs.Kind.{kind};
ghost use Rattle.zarrs_data_type.specs.TypeMetadata.{kind_of};
ghost use Rattle.zarrs_codec.specs.Metadata.{chain_said};
ghost use Rattle.zarrs_codec.specs.Chains.{chain_data};
ghost use Rattle.zarrs_options.specs.Options.{transformers_said};
ghost use Rattle.zarrs_options.specs.Refusals.{create_refusal_of, said_or, RefusesCreation};
ghost use Rattle.zarrs_options.specs.Refusals.{codecs, data_type, chunk_grid, fill_value_metadata};
ghost use Rattle.zarrs_options.specs.Refusals.{storage_transformers, chunk_key_encoding};
ghost use Rattle.zarrs_creation.specs.Making.{MakesPart, MakesParts};
ghost use Rattle.zarrs_creation.specs.Meanings.{names_said, creation_v3};

use std::alloc::{AllocError, Global};
use zarrs_chunk_grid::ChunkGrid;
use zarrs_codec::CodecChain;
use zarrs_data_type::{
    DataType, DataTypeFillValueError, DataTypeFillValueMetadataError, FillValue,
};
use zarrs_keys::ChunkKeyEncoding;
use zarrs_metadata::{
    ArrayMetadataV3, DimensionName, FillValueMetadata, MetadataV3, PluginCreateError,
};
use zarrs_metadata_v3::reasons::{codecs_reason, type_reason, unsupported_codec};
use zarrs_options::{ArrayCreateError, StorageTransformerChain};

/// The parts of an array, beside its path and its store.
#[derive(Debug, Drop)]
pub struct ArrayParts {
    /// How the array is cut into chunks.
    pub grid: ChunkGrid,
    /// How the keys of the chunks are made.
    pub keys: ChunkKeyEncoding,
    /// The codecs that make bytes of the cells of a chunk.
    pub chain: CodecChain,
    /// The type of the cells.
    pub data_type: DataType,
    /// The value of a cell that was never written.
    pub fill_value: FillValue,
}

fn chain_from(alloc: Global, metadatas: &[MetadataV3]) -> Result<CodecChain, ArrayCreateError>
    ensures { MakesPart codecs (chain_said (map extension_view metadatas.now)) chain_data result }
{
    let text = match CodecChain::from_metadata(alloc, metadatas) {
        Ok(chain) => return Ok(chain),
        Err(PluginCreateError::OutOfMemory) => return Err(ArrayCreateError::OutOfMemory),
        Err(PluginCreateError::Other(text)) => codec_reason(alloc, metadatas, text)?,
    };
    Err(ArrayCreateError::CodecsCreateError(PluginCreateError::Other(text)))
}

/// Returns why codecs are refused, as a text for people: that one of them, or of those in a configuration, compresses
/// or checks bytes, or else what was said.
fn codec_reason(
    alloc: Global,
    metadatas: &[MetadataV3],
    said: String,
) -> Result<String, AllocError> {
    for metadata in metadatas {
        let nested = metadata.configuration().and_then(codecs_reason);
        if let Some(reason) = unsupported_codec(metadata.name()).or(nested) {
            return String::from_str(alloc, reason);
        }
    }
    Ok(said)
}

/// Makes the data type that the metadata says.
///
/// # Errors
/// E13 for none. E26 may come at any time.
pub fn data_type_from(alloc: Global, metadata: &MetadataV3) -> Result<DataType, ArrayCreateError>
    ensures { MakesPart data_type (kind_of (extension_view metadata.now)) kind result }
{
    let text = match DataType::from_metadata(alloc, metadata) {
        Ok(data_type) => return Ok(data_type),
        Err(PluginCreateError::OutOfMemory) => return Err(ArrayCreateError::OutOfMemory),
        Err(PluginCreateError::Other(text)) => text,
    };
    let text = type_reason(alloc, Some(metadata.name()))?.unwrap_or(text);
    Err(ArrayCreateError::DataTypeCreateError(PluginCreateError::Other(text)))
}

/// Makes the grid over an array of this shape that the metadata says.
///
/// # Errors
/// E18 for none. E26 may come at any time.
pub fn grid_from(
    alloc: Global,
    metadata: &MetadataV3,
    shape: &[u64],
) -> Result<ChunkGrid, ArrayCreateError>
    ensures said { MakesPart chunk_grid (grid_said (extension_view metadata.now) shape.now)
        configuration_of result }
    ensures shape { IfOk result (λ g. array_extents_of g ≡ shape.now) }
{
    match ChunkGrid::from_metadata(alloc, metadata, shape) {
        Ok(grid) => Ok(grid),
        Err(PluginCreateError::OutOfMemory) => Err(ArrayCreateError::OutOfMemory),
        Err(error) => Err(ArrayCreateError::ChunkGridCreateError(error)),
    }
}

/// Makes the refusal of this as the fill value of the data type of this name.
fn invalid_fill_value(
    alloc: Global,
    name: &str,
    metadata: &FillValueMetadata,
) -> Result<ArrayCreateError, AllocError>
    ensures { IfOk result (λ e. RefusesCreation (said_or {A = Unit {0}}
        (fill_value_metadata name.now (fill_data metadata.now)) None) (create_refusal_of e)) }
{
    Ok(ArrayCreateError::InvalidFillValueMetadata {
        data_type_name: String::from_str(alloc, name)?,
        fill_value_metadata: metadata.try_clone(alloc)?,
    })
}

/// Makes the fill value of the data type of this name that the metadata says.
///
/// # Errors
/// E15 for none. E26 may come at any time.
pub fn fill_value_from(
    alloc: Global,
    data_type: &DataType,
    name: &str,
    metadata: &FillValueMetadata,
) -> Result<FillValue, ArrayCreateError>
    ensures said { MakesPart (fill_value_metadata name.now (fill_data metadata.now))
        (fill_said (kind data_type.now) (fill_data metadata.now)) (λ f. f) result }
    ensures filled { IfOk result (λ f. IsSome (fill_cell (kind data_type.now) f)) }
{
    match data_type.fill_value_v3(alloc, metadata) {
        Ok(fill_value) => Ok(fill_value),
        Err(DataTypeFillValueMetadataError::OutOfMemory) => Err(ArrayCreateError::OutOfMemory),
        Err(DataTypeFillValueMetadataError::Invalid) => {
            Err(invalid_fill_value(alloc, name, metadata)?)
        }
    }
}

/// Returns the metadata of a fill value, which is one of the data type.
///
/// # Errors
/// `AllocError`: out of memory.
pub fn fill_metadata(
    alloc: Global,
    data_type: &DataType,
    fill_value: &FillValue,
) -> Result<FillValueMetadata, AllocError>
    requires { IsSome (fill_cell (kind data_type.now) fill_value.now) }
    ensures { IfOk result (λ m. fill_data m ≡ fill_written (kind data_type.now) fill_value.now) }
{
    match data_type.metadata_fill_value(alloc, fill_value) {
        Ok(metadata) => Ok(metadata),
        Err(DataTypeFillValueError::OutOfMemory) => Err(AllocError),
        Err(DataTypeFillValueError::Invalid) => unreachable!(),
    }
}

fn check_transformers(alloc: Global, metadatas: &[MetadataV3]) -> Result<(), ArrayCreateError>
    ensures { MakesPart storage_transformers (transformers_said (map extension_view metadatas.now))
        (λ none. none) result }
{
    match StorageTransformerChain::from_metadata(alloc, metadatas) {
        Ok(_) => Ok(()),
        Err(PluginCreateError::OutOfMemory) => Err(ArrayCreateError::OutOfMemory),
        Err(error) => Err(ArrayCreateError::StorageTransformersCreateError(error)),
    }
}

fn keys_from(alloc: Global, metadata: &MetadataV3) -> Result<ChunkKeyEncoding, ArrayCreateError>
    ensures { MakesPart chunk_key_encoding (key_encoding_of (extension_view metadata.now))
        (λ keys. keys) result }
{
    match ChunkKeyEncoding::from_metadata(alloc, metadata) {
        Ok(keys) => Ok(keys),
        Err(PluginCreateError::OutOfMemory) => Err(ArrayCreateError::OutOfMemory),
        Err(error) => Err(ArrayCreateError::ChunkKeyEncodingCreateError(error)),
    }
}

/// Checks that there are as many names as dimensions, if there are names.
///
/// # Errors
/// E21 for more or fewer.
pub fn check_names(
    dimensions: usize,
    names: &Option<Vec<DimensionName>>,
) -> Result<(), ArrayCreateError>
    ensures made { OnOk result
        (names_said dimensions (option_map (λ n. map name_view n.items) names.now) ≡ Ok tt) }
    ensures refused { IfErr result (λ e. RefusesCreation
        (names_said dimensions (option_map (λ n. map name_view n.items) names.now))
        (create_refusal_of e)) }
{
    let Some(names) = names else {
        return Ok(());
    };
    if names.len() == dimensions {
        return Ok(());
    }
    Err(ArrayCreateError::InvalidDimensionNames(names.len(), dimensions))
}

/// Makes the parts of an array with this V3 document.
pub(crate) fn parts_of_v3(
    alloc: Global,
    metadata: &ArrayMetadataV3,
) -> Result<ArrayParts, ArrayCreateError>
    ensures { MakesParts (creation_v3 (document_view metadata.now)) result }
{
    let shape = metadata.shape.as_slice();
    let chain = chain_from(alloc, &metadata.codecs)?;
    let data_type = data_type_from(alloc, &metadata.data_type)?;
    let grid = grid_from(alloc, &metadata.chunk_grid, shape)?;
    let fill_value = fill_value_from(
        alloc,
        &data_type,
        metadata.data_type.name(),
        &metadata.fill_value,
    )?;
    check_transformers(alloc, &metadata.storage_transformers)?;
    let keys = keys_from(alloc, &metadata.chunk_key_encoding)?;
    check_names(shape.len(), &metadata.dimension_names)?;
    Ok(ArrayParts {
        grid,
        keys,
        chain,
        data_type,
        fill_value,
    })
}
