//! Bytes of `.zarray` and `.zattrs`.
ghost use Rattle.std.specs.Prelude.{◌≡◌, Some, option_map, IfOk, IfErr};
ghost use Rattle.serde_json.specs.View.{view, members_view};
ghost use Rattle.zarrs_metadata_v3.specs.Refusals.{RefusesReading};
ghost use Rattle.zarrs_metadata_v2.specs.Document.{plain_members_of, attributes_said, IsAttributesText};

use serde_json::{Map, Value};
use std::alloc::{AllocError, Global};
use zarrs_metadata_parts::MetadataError;
use zarrs_metadata_v3::holds_float;
use zarrs_metadata_v3::members::{copied, object_of, value_from_slice};

fn plain_members(value: Value) -> Option<Map<String, Value>>
    ensures { option_map (λ m. members_view m.entries) result ≡ plain_members_of (view value) }
{
    if holds_float(&value) {
        return None;
    }
    object_of(value)
}

/// Reads the attributes that the bytes of `.zattrs` are.
///
/// # Errors
/// `InvalidShape` for bytes that are not a JSON object, for one that nests deeper than 127, and for
/// one with a number that is not an integer of 64 bits. `OutOfMemory` may come at any time.
pub fn attributes_from_slice(
    alloc: Global,
    bytes: &[u8],
) -> Result<Map<String, Value>, MetadataError>
    ensures read { IfOk result (λ m. attributes_said bytes.now ≡ Some (members_view m.entries)) }
    ensures refused { IfErr result (RefusesReading (attributes_said bytes.now)) }
{
    let value = value_from_slice(alloc, bytes)?;
    plain_members(value).ok_or(MetadataError::InvalidShape)
}

/// Returns an object as bytes, indented.
pub(crate) fn object_text(
    alloc: Global,
    members: &Map<String, Value>,
) -> Result<Vec<u8>, AllocError>
    ensures { IfOk result (λ bytes.
        IsAttributesText (members_view members.now.entries) bytes.items) }
{
    let value = Value::Object(copied(members)?);
    let bytes = value.to_vec_pretty(alloc)?;
    Ok(bytes)
}
