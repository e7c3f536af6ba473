//! Metadata and arrays of a builder.
ghost use Rattle.std.specs.Prelude.{◌≡◌, option_map, Some, Ok, IfOk, IfErr, OnOk};
ghost use Rattle.zarrs_creation.specs.Meanings.{path_said};
ghost use Rattle.zarrs_metadata_parts.specs.FillValue.{fill_data};
ghost use Rattle.zarrs_chunk_grid.specs.GridView.{array_extents_of, configuration_of};
ghost use Rattle.zarrs_data_type.specs.FillMetadata.{fill_said};
ghost use Rattle.zarrs_data_type.specs.Kind.{kind};
ghost use Rattle.zarrs_metadata_parts.specs.Lists.{sizes_of};
ghost use Rattle.zarrs_codec.specs.Chains.{chain_data};
ghost use Rattle.zarrs_metadata_v3.specs.View.{document_view};
ghost use Rattle.zarrs_options.specs.Given.{grid_given};
ghost use Rattle.zarrs_options.specs.Refusals.{RefusesCreation, create_refusal_of, said_or};
ghost use Rattle.zarrs_options.specs.Refusals as refusal;
ghost use Rattle.zarrs_builder.specs.Built.{chain_chosen, cut_into, grid_chosen};
ghost use Rattle.zarrs_builder.specs.Built.{fill_stated, sizes_said};

use super::ArrayBuilder;
use crate::data_type::ArrayBuilderDataType;
use crate::fill_value::ArrayBuilderFillValue;
use std::alloc::{AllocError, Global};
use std::num::NonZeroU64;
use zarrs::Array;
use zarrs_chunk_grid::{ChunkGrid, ChunkGridTraits, ChunkShape};
use zarrs_codec::{
    ArrayToBytesCodec, BytesToBytesCodecs, CodecChain, ShardingCodec, ShardingIndexLocation,
    copied_array_codecs, default_array_to_bytes_codec,
};
use zarrs_creation::{check_names, fill_metadata, grid_from};
use zarrs_data_type::{DataType, FillValue};
use zarrs_data_type_kinds::laws::written_fill_value_is_read;
use zarrs_keys::NodePath;
use zarrs_metadata::{ArrayMetadata, ArrayMetadataV3, DimensionName, FillValueMetadata};
use zarrs_metadata_parts::members::copied;
use zarrs_metadata_v3::{copied_dimension_names, copied_fields};
use zarrs_options::{ArrayBuilderChunkGridMetadata, ArrayCreateError};
use zarrs_subset::ArrayShape;

/// The fields that callers' values became, each of which found memory.
#[derive(Drop)]
struct Fields<'a> {
    shape: &'a [u64],
    chunk_grid: &'a ArrayBuilderChunkGridMetadata,
    data_type: &'a ArrayBuilderDataType,
    fill_value: &'a ArrayBuilderFillValue,
    dimension_names: &'a Option<Vec<DimensionName>>,
    subchunk_shape: &'a Option<ArrayShape>,
}

impl ArrayBuilder {
    ghost use Rattle.zarrs_builder.specs.Builders.{builder_view, fields_of, found_fields};
    ghost use Rattle.zarrs_builder.specs.Built.{built, chosen, codecs_chosen, document_of_fields};
    ghost use Rattle.zarrs_builder.specs.Built.{SaysChosen, BuildsArray};

    /// Returns the V3 metadata of the array: the data type, the chunk grid and the codecs by their main names, and the
    /// fill value as the data type writes it.
    ///
    /// # Errors
    /// E26 if a field found no memory. Then in this order: E13 for no data type; E22 for subchunks with an extent 0; E18
    /// for no chunk grid over the shape; E15 for metadata that is no fill value of the data type; E21 for more or fewer
    /// names than dimensions; E14 for bytes that are no fill value of the data type. E26 may come at any time.
    pub fn build_metadata(&self, alloc: Global) -> Result<ArrayMetadataV3, ArrayCreateError>
        ensures made { IfOk result (λ m. built (builder_view self.now) ≡ Ok (document_view m)) }
        ensures refused { IfErr result (λ e. RefusesCreation
            (built (builder_view self.now)) (create_refusal_of e)) }
    {
        self.metadata_of(alloc, &self.fields()?)
    }

    /// Makes the array at the path of the store, with the metadata of `build_metadata`, the builder's options of single
    /// codecs, and else the default options. The store is not asked, and nothing is written.
    ///
    /// # Errors
    /// E26 if a field found no memory. Then in this order: E11 for a path that is no path of a node; as
    /// `build_metadata`; E13 for a raw type of more than 65,536 bytes, which metadata cannot say. E26 may come at any time.
    /// The store is dropped then.
    pub fn build<TStorage: Drop>(
        &self,
        alloc: Global,
        storage: TStorage,
        path: &str,
    ) -> Result<Array<TStorage>, ArrayCreateError>
        ensures { BuildsArray (builder_view self.now) path.now storage result }
    {
        let fields = self.fields()?;
        check_path(alloc, path)?;
        let metadata = self.metadata_of(alloc, &fields)?;
        let array = Array::new_with_metadata(alloc, storage, path, ArrayMetadata::V3(metadata))?;
        Ok(array.with_codec_specific_options(&self.codec_specific_options))
    }

    /// Makes the array as `build` does. No caller shares it, so it is the plain array.
    ///
    /// # Errors
    /// As `build`.
    pub fn build_arc<TStorage: Drop>(
        &self,
        alloc: Global,
        storage: TStorage,
        path: &str,
    ) -> Result<Array<TStorage>, ArrayCreateError>
        ensures { BuildsArray (builder_view self.now) path.now storage result }
    {
        self.build(alloc, storage, path)
    }

    /// Returns the fields, if each found memory.
    fn fields(&self) -> Result<Fields<'_>, ArrayCreateError>
        ensures made { IfOk result
            (λ f. fields_of (builder_view self.now) ≡ Some (found_fields f)) }
        ensures refused { IfErr result (λ e. e ≡ ArrayCreateError.OutOfMemory) }
    {
        Ok(Fields {
            shape: found(&self.shape)?.as_slice(),
            chunk_grid: found(&self.chunk_grid)?,
            data_type: found(&self.data_type)?,
            fill_value: found(&self.fill_value)?,
            dimension_names: found(&self.dimension_names)?,
            subchunk_shape: found(&self.subchunk_shape)?,
        })
    }

    /// Returns the metadata of the fields.
    fn metadata_of(
        &self,
        alloc: Global,
        fields: &Fields<'_>,
    ) -> Result<ArrayMetadataV3, ArrayCreateError>
        ensures made { IfOk result (λ m. document_of_fields (builder_view self.now)
            (found_fields fields.now) ≡ Ok (document_view m)) }
        ensures says { IfOk result (λ m. SaysChosen (builder_view self.now)
            (found_fields fields.now) (document_view m)) }
        ensures refused { IfErr result (λ e. RefusesCreation (chosen (builder_view self.now)
            (found_fields fields.now)) (create_refusal_of e)) }
    {
        let data_type = fields.data_type.to_data_type(alloc)?;
        let chain = self.chain_for(alloc, fields.subchunk_shape, &data_type)?;
        let grid = grid_over(alloc, fields.chunk_grid, fields.shape)?;
        let fill_value = fields.fill_value.to_fill_value(alloc, &data_type)?;
        check_names(fields.shape.len(), fields.dimension_names)?;
        let stated = stated_fill(alloc, &data_type, &fill_value)?;
        Ok(ArrayMetadataV3 {
            shape: Vec::from_slice(alloc, fields.shape)?,
            data_type: data_type.metadata(alloc)?,
            chunk_grid: grid.metadata(alloc)?,
            chunk_key_encoding: self.chunk_key_encoding.metadata(alloc)?,
            fill_value: stated,
            codecs: chain.create_metadatas(alloc)?,
            attributes: copied(&self.attributes)?,
            storage_transformers: Vec::new(alloc),
            dimension_names: copied_dimension_names(alloc, fields.dimension_names)?,
            additional_fields: copied_fields(&self.additional_fields)?,
        })
    }

    /// Returns the chain of the codecs that are set, or of the codec of subchunks that they encode.
    fn chain_for(
        &self,
        alloc: Global,
        subchunk_shape: &Option<ArrayShape>,
        data_type: &DataType,
    ) -> Result<CodecChain, ArrayCreateError>
        ensures made { IfOk result (λ chain. chain_chosen
            (option_map (λ shape. shape.items) subchunk_shape.now)
            (codecs_chosen (builder_view self.now) (kind data_type.now)) ≡ Ok (chain_data chain)) }
        ensures refused { IfErr result (λ e. RefusesCreation (chain_chosen
            (option_map (λ shape. shape.items) subchunk_shape.now)
            (codecs_chosen (builder_view self.now) (kind data_type.now))) (create_refusal_of e)) }
    {
        let codecs = self.codecs_for(alloc, data_type)?;
        match subchunk_shape {
            Some(shape) => Ok(cut_chain(alloc, subchunk_sizes(alloc, shape)?, codecs)?),
            None => Ok(codecs),
        }
    }

    /// Returns the codecs that are set, with the default one of the data type if none makes bytes.
    fn codecs_for(&self, alloc: Global, data_type: &DataType) -> Result<CodecChain, AllocError>
        ensures { IfOk result (λ chain. chain_data chain
            ≡ codecs_chosen (builder_view self.now) (kind data_type.now)) }
    {
        let front = copied_array_codecs(alloc, &self.array_to_array_codecs)?;
        let last = match &self.array_to_bytes_codec {
            Some(codec) => codec.try_clone(alloc)?,
            None => default_array_to_bytes_codec(alloc, data_type)?,
        };
        Ok(CodecChain::new(front, last, BytesToBytesCodecs))
    }
}

/// Returns the field, if it found memory.
fn found<T>(field: &Result<T, AllocError>) -> Result<&T, ArrayCreateError>
    ensures made { IfOk result (λ value. field.now ≡ Ok value.now) }
    ensures refused { IfErr result (λ e. e ≡ ArrayCreateError.OutOfMemory) }
{
    match field {
        Ok(value) => Ok(value),
        Err(_) => Err(ArrayCreateError::OutOfMemory),
    }
}

fn check_path(alloc: Global, path: &str) -> Result<(), ArrayCreateError>
    ensures made { OnOk result (path_said path.now ≡ Ok tt) }
    ensures refused { IfErr result
        (λ e. RefusesCreation (path_said path.now) (create_refusal_of e)) }
{
    drop(NodePath::new(alloc, path)?);
    Ok(())
}

/// Returns the sizes of subchunks of this shape.
fn subchunk_sizes(alloc: Global, shape: &[u64]) -> Result<ChunkShape, ArrayCreateError>
    ensures made { IfOk result (λ sizes. sizes_of sizes.items ≡ shape.now) }
    ensures refused { IfErr result
        (λ e. RefusesCreation (sizes_said shape.now) (create_refusal_of e)) }
{
    let mut sizes = Vec::with_capacity(alloc, shape.len())?;
    for extent in shape {
        let Some(size) = NonZeroU64::new(*extent) else {
            let shape = Vec::from_slice(alloc, shape)?;
            return Err(ArrayCreateError::InvalidSubchunkShape(shape));
        };
        sizes.push(size)?;
    }
    Ok(sizes)
}

/// Returns the chain of the one codec `sharding_indexed`, with subchunks of this shape, which these codecs encode, and
/// its index at the end.
fn cut_chain(
    alloc: Global,
    subchunk_shape: ChunkShape,
    codecs: CodecChain,
) -> Result<CodecChain, AllocError>
    ensures { IfOk result (λ chain. chain_data chain
        ≡ cut_into (sizes_of subchunk_shape.items) (chain_data codecs)) }
{
    let codec = ShardingCodec::new(subchunk_shape, ShardingIndexLocation::End, codecs);
    let codec = ArrayToBytesCodec::Sharding(Box::new(alloc, codec)?);
    Ok(CodecChain::new(Vec::new(alloc), codec, BytesToBytesCodecs))
}

/// Returns the grid over an array of this shape.
fn grid_over(
    alloc: Global,
    given: &ArrayBuilderChunkGridMetadata,
    shape: &[u64],
) -> Result<ChunkGrid, ArrayCreateError>
    ensures made { IfOk result
        (λ g. grid_chosen (grid_given given.now) shape.now ≡ Some (configuration_of g)) }
    ensures over { IfOk result (λ g. array_extents_of g ≡ shape.now) }
    ensures refused { IfErr result (λ e. RefusesCreation (said_or refusal.chunk_grid
        (grid_chosen (grid_given given.now) shape.now)) (create_refusal_of e)) }
{
    let metadata = given.to_metadata(alloc)?;
    grid_from(alloc, &metadata, shape)
}

/// Returns the metadata of the fill value, if its bytes are a value of the data type.
fn stated_fill(
    alloc: Global,
    data_type: &DataType,
    fill_value: &FillValue,
) -> Result<FillValueMetadata, ArrayCreateError>
    ensures made { IfOk result
        (λ m. fill_stated (kind data_type.now) fill_value.now ≡ Ok (fill_data m)) }
    ensures read { IfOk result
        (λ m. fill_said (kind data_type.now) (fill_data m) ≡ Some fill_value.now) }
    ensures refused { IfErr result (λ e. RefusesCreation
        (fill_stated (kind data_type.now) fill_value.now) (create_refusal_of e)) }
{
    if !fill_value.is_value_of(data_type) {
        return Err(ArrayCreateError::InvalidFillValue {
            data_type_name: data_type.name_v3(alloc)?,
            fill_value: fill_value.try_clone(alloc)?,
        });
    }
    written_fill_value_is_read(data_type, fill_value);
    Ok(fill_metadata(alloc, data_type, fill_value)?)
}
