//! The metadata of the codec `zarrs.vlen`, both ways.
ghost use Rattle.std.specs.Prelude.{◌≡◌, true, option_map, IfOk};
ghost use Rattle.serde_json.specs.View.{view};
ghost use Rattle.zarrs_metadata_parts.specs.Extension.{extension_view, settings};
ghost use Rattle.zarrs_codec_optional.specs.BytesMetadata.{is_plain_bytes};
ghost use Rattle.zarrs_codec_optional.specs.Sole.{sole_codec};
ghost use Rattle.zarrs_codec_optional.specs.Texts.{passes};
ghost use Rattle.zarrs_codec_optional.specs.VlenMetadata.{extension_of_vlen, vlen_said};

use crate::bytes_metadata::{are_little_bytes, is_plain_bytes, list_of_bytes};
use crate::metadata::named;
use crate::sole::sole_codec;
use crate::texts::{is_text, is_text_or_absent};
use serde_json::Value;
use std::alloc::{AllocError, Global};
use zarrs_codec_leaf::Endianness;
use zarrs_metadata_parts::MetadataV3;

/// Returns whether the configuration says the codec `zarrs.vlen`: an index of `uint64` at the start, by the codec
/// `bytes`, little endian, and the data by the codec `bytes` without configuration.
///
/// # Errors
/// `AllocError`: out of memory.
pub fn says_vlen(metadata: &MetadataV3) -> Result<bool, AllocError>
    ensures { IfOk result (λ said. said ≡ vlen_said (settings (extension_view metadata.now))) }
{
    let members = [
        "index_data_type",
        "index_location",
        "index_codecs",
        "data_codecs",
    ];
    Ok(
        metadata.has_only(&members)
            && is_text(metadata.member("index_data_type"), "uint64")
            && is_text_or_absent(metadata.member("index_location"), "start")
            && are_little_bytes(metadata.member("index_codecs"))?
            && are_plain_bytes(metadata.member("data_codecs"))?,
    )
}

/// Returns whether the member is a list of the codec `bytes` alone, without configuration.
fn are_plain_bytes(member: Option<&Value>) -> Result<bool, AllocError>
    ensures { IfOk result (λ are. are ≡ passes is_plain_bytes
        (sole_codec (option_map (λ value. view value.now) member.entry))) }
{
    Ok(sole_codec(member)?.is_some_and(|codec| is_plain_bytes(&codec)))
}

/// Returns the metadata of the codec, without the location of the index.
///
/// # Errors
/// `AllocError`: out of memory.
pub fn vlen_metadata(alloc: Global) -> Result<MetadataV3, AllocError>
    ensures written { IfOk result (λ m. extension_view m ≡ extension_of_vlen) }
    ensures reads_back { IfOk result (λ m. vlen_said (settings (extension_view m)) ≡ true) }
{
    named(alloc, "zarrs.vlen")?
        .with_member(
            alloc,
            "index_data_type",
            Value::try_from_str(alloc, "uint64")?,
        )?
        .with_member(
            alloc,
            "index_codecs",
            list_of_bytes(alloc, Some(Endianness::Little))?,
        )?
        .with_member(alloc, "data_codecs", list_of_bytes(alloc, None)?)
}
