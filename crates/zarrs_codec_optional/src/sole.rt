//! Lists of one codec in the configuration of another.
ghost use Rattle.std.specs.Prelude.{◌≡◌, option_map, IfOk};
ghost use Rattle.serde_json.specs.View.{view};
ghost use Rattle.zarrs_metadata_parts.specs.Extension.{extension_view, extension_of};
ghost use Rattle.zarrs_codec_optional.specs.Sole.{sole_codec, list_of_one};

use serde_json::Value;
use std::alloc::{AllocError, Global};
use zarrs_metadata_parts::{MetadataV3, one_item, sole_item};

/// Returns the only extension point of a list.
pub fn sole_codec(list: Option<&Value>) -> Result<Option<MetadataV3>, AllocError>
    ensures { IfOk result (λ found. option_map extension_view found
        ≡ sole_codec (option_map (λ value. view value.now) list.entry)) }
{
    let Some(items) = list.and_then(|value| value.as_array()) else {
        return Ok(None);
    };
    match sole_item(items) {
        Some(item) => extension_from(item),
        None => Ok(None),
    }
}

/// Returns the extension point that a value says, if it says one.
pub fn extension_from(value: &Value) -> Result<Option<MetadataV3>, AllocError>
    ensures { IfOk result (λ found. option_map extension_view found
        ≡ extension_of (view value.now)) }
{
    let copy = value.clone()?;
    Ok(MetadataV3::from_value(copy).ok())
}

/// Returns the list of this one extension point.
pub fn list_of_one(alloc: Global, codec: &MetadataV3) -> Result<Value, AllocError>
    ensures { IfOk result (λ v. view v ≡ list_of_one (extension_view codec.now)) }
{
    one_item(alloc, codec.to_value(alloc)?)
}
