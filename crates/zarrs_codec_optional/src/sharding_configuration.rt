//! The metadata of the codec `sharding_indexed`, both ways.
ghost use Rattle.std.specs.Prelude.{◌≡◌, map, option_map, option_and_then, IfOk};
ghost use Rattle.serde_json.specs.View.{view};
ghost use Rattle.zarrs_metadata_parts.specs.Extension.{extension_of, extension_view, settings};
ghost use Rattle.zarrs_metadata_parts.specs.Lists.{list_of, size_said, sizes_of};
ghost use Rattle.zarrs_codec_optional.specs.ShardingMetadata.{location_said, sharding_data};
ghost use Rattle.zarrs_codec_optional.specs.ShardingMetadata.{sharding_extension};
ghost use Rattle.zarrs_codec_optional.specs.ShardingViews.{sharding_view};

use crate::bytes_metadata::{are_little_bytes, list_of_bytes};
use crate::metadata::named;
use serde_json::Value;
use std::alloc::{AllocError, Global};
use std::num::NonZeroU64;
use zarrs_codec_leaf::Endianness;
use zarrs_metadata_parts::{MetadataV3, extensions, extensions_value, sizes, sizes_value};

/// What a configuration of `sharding_indexed` says.
#[derive(Drop)]
pub struct ShardingParts {
    /// The extents of each subchunk.
    pub subchunk_shape: Vec<NonZeroU64>,
    /// Whether the index stands before the subchunks.
    pub at_start: bool,
    /// The chain of the subchunks.
    pub codecs: Vec<MetadataV3>,
}

/// Returns what the configuration says, if it says a codec of shards: `chunk_shape`, a list of whole numbers that are
/// not 0; `codecs`, a list of extension points; `index_codecs`, a list of `bytes`, little endian, alone; and
/// `index_location`, which is `start`, `end` or absent.
///
/// # Errors
/// `AllocError`: out of memory.
pub fn sharding_parts(
    alloc: Global,
    metadata: &MetadataV3,
) -> Result<Option<ShardingParts>, AllocError>
    ensures { IfOk result (λ parts. option_map sharding_view parts
        ≡ sharding_data (settings (extension_view metadata.now))) }
{
    if !metadata.has_only(&["chunk_shape", "codecs", "index_codecs", "index_location"]) {
        return Ok(None);
    }
    if !are_little_bytes(metadata.member("index_codecs"))? {
        return Ok(None);
    }
    let Some(at_start) = location_from(metadata.member("index_location")) else {
        return Ok(None);
    };
    let Some(subchunk_shape) = sizes_from(alloc, metadata.member("chunk_shape"))? else {
        return Ok(None);
    };
    let Some(codecs) = extensions_from(alloc, metadata.member("codecs"))? else {
        return Ok(None);
    };
    Ok(Some(ShardingParts {
        subchunk_shape,
        at_start,
        codecs,
    }))
}

/// Whether the index stands before the subchunks, if the member says so or not.
fn location_from(member: Option<&Value>) -> Option<bool>
    ensures { result ≡ location_said (option_map (λ value. view value.now) member.entry) }
{
    let Some(value) = member else {
        return Some(false);
    };
    match value.as_str()? {
        "start" => Some(true),
        "end" => Some(false),
        _ => None,
    }
}

/// Returns the list of sizes that a member says.
fn sizes_from(alloc: Global, member: Option<&Value>) -> Result<Option<Vec<NonZeroU64>>, AllocError>
    ensures { IfOk result (λ found. option_map (λ sizes. sizes_of sizes.items) found
        ≡ option_and_then (list_of size_said) (option_map (λ value. view value.now) member.entry)) }
{
    match member {
        Some(value) => sizes(alloc, value),
        None => Ok(None),
    }
}

/// Returns the list of extension points that a member says.
fn extensions_from(
    alloc: Global,
    member: Option<&Value>,
) -> Result<Option<Vec<MetadataV3>>, AllocError>
    ensures { IfOk result (λ found. option_map (λ list. map extension_view list.items) found
        ≡ option_and_then (list_of extension_of) (option_map (λ value. view value.now) member.entry)) }
{
    match member {
        Some(value) => extensions(alloc, value.clone()?),
        None => Ok(None),
    }
}

/// Returns the metadata of a codec of shards with these subchunks.
///
/// # Errors
/// `AllocError`: out of memory.
pub fn sharding_metadata(
    alloc: Global,
    subchunk_shape: &[NonZeroU64],
    at_start: bool,
    codecs: &[MetadataV3],
) -> Result<MetadataV3, AllocError>
    ensures { IfOk result (λ m. extension_view m ≡ sharding_extension (record {
      chunk_shape = sizes_of subchunk_shape.now;
      at_start = at_start;
      codecs = map extension_view codecs.now;
    })) }
{
    let location = if at_start { "start" } else { "end" };
    named(alloc, "sharding_indexed")?
        .with_member(alloc, "chunk_shape", sizes_value(alloc, subchunk_shape)?)?
        .with_member(alloc, "codecs", extensions_value(alloc, codecs)?)?
        .with_member(
            alloc,
            "index_codecs",
            list_of_bytes(alloc, Some(Endianness::Little))?,
        )?
        .with_member(
            alloc,
            "index_location",
            Value::try_from_str(alloc, location)?,
        )
}
