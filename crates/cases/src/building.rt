//! Builders, and conversions of documents.
use crate::setters::names_in;
use cases_answers::{Answer, answered};
use cases_lines::Why;
use cases_lines::call::{CallLine, Part};
use cases_lines::words::{json, numbers};
use serde_json::{Map, Value};
use std::alloc::{AllocError, Global};
use zarrs::{
    AdditionalFieldV3, AdditionalFieldsV3, Array, ArrayBuilderChunkGridMetadata, ArrayCreateError,
    ArrayMetadata, ArrayMetadataV2ToV3Error, ChunkKeyEncoding, CodecChain, FillValue,
    FillValueMetadata, IntoField, MetadataError, MetadataV3, PluginCreateError,
    array_metadata_v2_to_v3,
};
use zarrs_builder::ArrayBuilder;
use zarrs_metadata_v3::members;

/// What the next builder is told beside what its call has.
#[derive(Drop)]
pub(crate) struct Parts<'f> {
    /// Parts, and the words that they are told by.
    pub(crate) told: Vec<(Part, &'f str)>,
    /// The bytes of the fill value.
    pub(crate) fill_value: Option<Vec<u8>>,
}

impl Parts<'_> {
    /// Nothing.
    pub(crate) fn none(alloc: Global) -> Self {
        Parts {
            told: Vec::new(alloc),
            fill_value: None,
        }
    }
}

/// A grid: numbers are a chunk shape, else it is the text that a builder is given.
pub(crate) fn grid_of<'f>(
    alloc: Global,
    grid: &'f str,
) -> Result<ArrayBuilderChunkGridMetadata, Why<'f>> {
    let is_list = grid.bytes().all(|byte| byte.is_ascii_digit() || byte == b',' || byte == b'-');
    let field: Result<ArrayBuilderChunkGridMetadata, AllocError> = if is_list {
        numbers(alloc, grid)?.into_field(alloc)
    } else {
        grid.into_field(alloc)
    };
    Ok(field?)
}

/// The builder of the call.
pub(crate) fn builder_of<'f>(alloc: Global, call: &CallLine<'f>) -> Result<ArrayBuilder, Why<'f>> {
    let shape = call.list.to_vec(alloc)?;
    let grid = grid_of(alloc, call.word)?;
    let fill_value = FillValueMetadata::from_value(json(alloc, call.fill_value)?);
    Ok(ArrayBuilder::new(alloc, shape, grid, call.data_type, fill_value))
}

/// The metadata that the builder of the call makes once it is told these parts.
pub(crate) fn build_metadata<'f>(
    alloc: Global,
    call: &CallLine<'f>,
    parts: &Parts<'f>,
) -> Result<Answer, Why<'f>> {
    let mut builder = builder_of(alloc, call)?;
    tell(alloc, &mut builder, call, parts)?;
    let outcome = builder.build_metadata(alloc);
    drop(builder);
    answered(alloc, &outcome.map(ArrayMetadata::V3))
}

/// The array that the builder makes once it is told these parts.
pub(crate) fn built_by<'f>(
    alloc: Global,
    mut builder: ArrayBuilder,
    call: &CallLine<'f>,
    parts: &Parts<'f>,
) -> Result<Result<Array<()>, ArrayCreateError>, Why<'f>> {
    tell(alloc, &mut builder, call, parts)?;
    let outcome = builder.build(alloc, (), call.path);
    drop(builder);
    Ok(outcome)
}

/// Tells the builder these parts, and the shape of the subchunks that the call has.
fn tell<'f>(
    alloc: Global,
    builder: &mut ArrayBuilder,
    call: &CallLine<'f>,
    parts: &Parts<'f>,
) -> Result<(), Why<'f>> {
    for (part, word) in &parts.told {
        tell_part(alloc, builder, *part, word)?;
    }
    if let Some(bytes) = &parts.fill_value {
        builder.fill_value(alloc, FillValue::new(bytes.to_vec(alloc)?));
    }
    if let Some(sizes) = call.options.subchunks {
        builder.subchunk_shape(alloc, Some(numbers(alloc, sizes)?));
    }
    Ok(())
}

fn tell_part<'f>(
    alloc: Global,
    builder: &mut ArrayBuilder,
    part: Part,
    word: &'f str,
) -> Result<(), Why<'f>> {
    match part {
        Part::ChunkKeyEncoding => {
            builder.chunk_key_encoding(encoding_of(alloc, word)?);
        }
        Part::Codecs => tell_codecs(alloc, builder, word)?,
        Part::Attributes => {
            builder.attributes(object(alloc, word)?);
        }
        Part::AdditionalFields => {
            builder.additional_fields(fields_of(alloc, word)?);
        }
        Part::DimensionNames => {
            builder.dimension_names(alloc, names_in(alloc, word)?);
        }
    }
    Ok(())
}

/// The members of a JSON object.
pub(crate) fn object<'f>(alloc: Global, word: &'f str) -> Result<Map<String, Value>, Why<'f>> {
    match members::object_of(json(alloc, word)?) {
        Some(members) => Ok(members),
        None => Err(Why::Json(word)),
    }
}

/// The additional fields that the members of a JSON object say.
fn fields_of<'f>(alloc: Global, word: &'f str) -> Result<AdditionalFieldsV3, Why<'f>> {
    let members = object(alloc, word)?;
    // `len` tells the proof that the names ascend.
    let _count = members.len();
    let mut fields = Map::new(alloc);
    for (name, value) in members {
        drop(fields.insert(name, AdditionalFieldV3::from_value(value))?);
    }
    Ok(fields)
}

/// The extension that a JSON value says.
fn extension<'f>(value: Value, word: &'f str) -> Result<MetadataV3, Why<'f>> {
    match MetadataV3::from_value(value) {
        Ok(metadata) => Ok(metadata),
        Err(_) => Err(Why::Document(word)),
    }
}

/// What was made of metadata, if it was taken.
fn taken<'f, T>(outcome: Result<T, PluginCreateError>, word: &'f str) -> Result<T, Why<'f>> {
    match outcome {
        Ok(made) => Ok(made),
        Err(PluginCreateError::OutOfMemory) => Err(Why::OutOfMemory),
        Err(PluginCreateError::Other(_)) => Err(Why::Document(word)),
    }
}

/// The encoding of chunk keys that a JSON value says.
fn encoding_of<'f>(alloc: Global, word: &'f str) -> Result<ChunkKeyEncoding, Why<'f>> {
    let metadata = extension(json(alloc, word)?, word)?;
    taken(ChunkKeyEncoding::from_metadata(alloc, &metadata), word)
}

/// The chain of codecs that a JSON list says.
fn chain_of<'f>(alloc: Global, word: &'f str) -> Result<CodecChain, Why<'f>> {
    let Some(items) = members::items_in(Some(json(alloc, word)?)) else {
        return Err(Why::Json(word));
    };
    let mut metadatas = Vec::new(alloc);
    for item in items {
        metadatas.push(extension(item, word)?)?;
    }
    taken(CodecChain::from_metadata(alloc, &metadatas), word)
}

/// Tells the builder the codecs of a JSON list.
fn tell_codecs<'f>(
    alloc: Global,
    builder: &mut ArrayBuilder,
    word: &'f str,
) -> Result<(), Why<'f>> {
    let chain = chain_of(alloc, word)?;
    let codecs = chain.array_to_array_codecs().iter();
    builder.array_to_array_codecs(
        codecs
            .map(|codec| codec.try_clone(alloc))
            .try_collect(alloc)?,
    );
    builder.array_to_bytes_codec(chain.array_to_bytes_codec().try_clone(alloc)?);
    Ok(())
}

/// The metadata of an array that a JSON text says.
pub(crate) fn metadata_of<'f>(alloc: Global, word: &'f str) -> Result<ArrayMetadata, Why<'f>> {
    match ArrayMetadata::from_value(alloc, json(alloc, word)?) {
        Ok(metadata) => Ok(metadata),
        Err(MetadataError::OutOfMemory) => Err(Why::OutOfMemory),
        Err(_) => Err(Why::Document(word)),
    }
}

/// The V3 document of a V2 document.
pub(crate) fn converted<'f>(alloc: Global, word: &'f str) -> Result<Answer, Why<'f>> {
    let ArrayMetadata::V2(document) = metadata_of(alloc, word)? else {
        return Err(Why::Document(word));
    };
    let outcome = array_metadata_v2_to_v3(alloc, &document);
    drop(document);
    match outcome {
        Err(ArrayMetadataV2ToV3Error::OutOfMemory) => Err(Why::OutOfMemory),
        outcome => answered(alloc, &outcome.map(ArrayMetadata::V3)),
    }
}
