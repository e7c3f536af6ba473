//! Extension points that texts say.
ghost use Rattle.std.specs.Prelude.{◌≡◌, IfOk, option_and_then, option_map};
ghost use Rattle.serde_json.specs.Read.{read};
ghost use Rattle.zarrs_metadata_parts.specs.Extension.{extension_view, extension_of};
ghost use Rattle.zarrs_options.specs.Given.{extension_of_text};

use serde_json::{Category, Value};
use std::alloc::{AllocError, Global};
use zarrs_metadata_parts::MetadataV3;

/// Returns the extension point that a text says: one that begins with `{` is read as JSON, any other is a name.
/// `None` if it is read as JSON and says none.
///
/// # Errors
/// `AllocError`: out of memory.
pub fn extension_of_text(alloc: Global, text: &str) -> Result<Option<MetadataV3>, AllocError>
    ensures { IfOk result
        (λ found. option_map extension_view found ≡ extension_of_text text.now) }
{
    match text.as_bytes() {
        [b'{', ..] => extension_of_json(alloc, text),
        _ => Ok(Some(MetadataV3::new(String::from_str(alloc, text)?))),
    }
}

fn extension_of_json(alloc: Global, text: &str) -> Result<Option<MetadataV3>, AllocError>
    ensures { IfOk result
        (λ found. option_map extension_view found ≡ option_and_then extension_of (read text.now)) }
{
    match Value::from_str(alloc, text) {
        Ok(value) => Ok(MetadataV3::from_value(value).ok()),
        Err(error) => match error.classify() {
            Category::Memory => Err(AllocError),
            _ => Ok(None),
        },
    }
}
