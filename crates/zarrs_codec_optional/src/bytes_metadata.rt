//! The metadata of the codec `bytes`, both ways.
ghost use Rattle.std.specs.Prelude.{◌≡◌, Some, codes, option_map, IfOk};
ghost use Rattle.serde_json.specs.Data.{string, put};
ghost use Rattle.serde_json.specs.View.{view};
ghost use Rattle.zarrs_metadata_parts.specs.Extension.{extension_view, settings};
ghost use Rattle.zarrs_codec_optional.specs.BytesMetadata.{are_little_bytes, endian_from, endian_said};
ghost use Rattle.zarrs_codec_optional.specs.BytesMetadata.{extension_of_bytes, is_little_bytes, is_plain_bytes};
ghost use Rattle.zarrs_codec_optional.specs.Sole.{list_of_one};

use crate::metadata::named;
use crate::sole::{list_of_one, sole_codec};
use crate::texts::is_text;
use serde_json::Value;
use std::alloc::{AllocError, Global};
use zarrs_codec_leaf::Endianness;
use zarrs_metadata_parts::MetadataV3;

/// Returns the endian of a configuration that has no other member.
pub fn endian_from(metadata: &MetadataV3) -> Option<Option<Endianness>>
    ensures { result ≡ endian_from (settings (extension_view metadata.now)) }
{
    if !metadata.has_only(&["endian"]) {
        return None;
    }
    endian_said(metadata.member("endian"))
}

fn endian_said(member: Option<&Value>) -> Option<Option<Endianness>>
    ensures { result ≡ endian_said (option_map (λ value. view value.now) member.entry) }
{
    let Some(value) = member else {
        return Some(None);
    };
    match value.as_str()? {
        "little" => Some(Some(Endianness::Little)),
        "big" => Some(Some(Endianness::Big)),
        _ => None,
    }
}

/// Returns whether the member is a list of the codec `bytes` alone, little endian.
pub fn are_little_bytes(member: Option<&Value>) -> Result<bool, AllocError>
    ensures { IfOk result (λ are. are
        ≡ are_little_bytes (option_map (λ value. view value.now) member.entry)) }
{
    Ok(sole_codec(member)?.is_some_and(|codec| is_little_bytes(&codec)))
}

fn is_little_bytes(codec: &MetadataV3) -> bool
    ensures { result ≡ is_little_bytes (extension_view codec.now) }
{
    codec.name() == "bytes"
        && codec.has_only(&["endian"])
        && is_text(codec.member("endian"), "little")
}

/// Returns whether the metadata says the codec `bytes` without configuration.
pub fn is_plain_bytes(codec: &MetadataV3) -> bool
    ensures { result ≡ is_plain_bytes (extension_view codec.now) }
{
    codec.name() == "bytes" && codec.has_only(&[])
}

/// Returns the metadata of the codec of this endian.
pub fn bytes_metadata(alloc: Global, endian: Option<Endianness>) -> Result<MetadataV3, AllocError>
    ensures { IfOk result (λ m. extension_view m ≡ extension_of_bytes endian) }
{
    let metadata = named(alloc, "bytes")?;
    match endian {
        None => Ok(metadata),
        Some(Endianness::Little) => with_endian(alloc, metadata, "little"),
        Some(Endianness::Big) => with_endian(alloc, metadata, "big"),
    }
}

/// Returns the list of the codec of this endian alone.
pub fn list_of_bytes(alloc: Global, endian: Option<Endianness>) -> Result<Value, AllocError>
    ensures { IfOk result (λ v. view v ≡ list_of_one (extension_of_bytes endian)) }
{
    let codec = bytes_metadata(alloc, endian)?;
    list_of_one(alloc, &codec)
}

fn with_endian(alloc: Global, metadata: MetadataV3, endian: &str) -> Result<MetadataV3, AllocError>
    ensures { IfOk result (λ m. extension_view m ≡ record (extension_view metadata) {
      configuration = Some (put (codes "endian") (string endian.now) (settings (extension_view metadata)));
    }) }
{
    metadata.with_member(alloc, "endian", Value::try_from_str(alloc, endian)?)
}
