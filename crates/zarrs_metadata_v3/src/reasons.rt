//! Why stored bytes are no document of a V3 array, as a text for people. It is made only once a document was refused.
ghost use Rattle.std.specs.Prelude.{◌≡◌, false, is_some, unwrap_or, option_map, option_and_then};
ghost use Rattle.std.specs.Prelude.{IfOk, IfErr, IsErr};
ghost use Rattle.std.specs.Result.{result_ok};
ghost use Rattle.serde_json.specs.Find.{as_object};
ghost use Rattle.serde_json.specs.View.{view, items_view, members_view};
ghost use Rattle.serde_json.specs.Written.{members_have_float};
ghost use Rattle.zarrs_metadata_v3.specs.Members.{value_said};
ghost use Rattle.zarrs_metadata_v3.specs.Reasons.{is_unsupported_type, is_unsupported_codec};
ghost use Rattle.zarrs_metadata_v3.specs.Reasons.{names_codec, items_name_codec};
ghost use Rattle.zarrs_metadata_v3.specs.Reasons.{members_name_codec};

use crate::members::member_of;
use crate::numbers::holds_float;
use crate::reading::read_document;
use crate::unread::Unread;
use serde_json::{Category, Map, Value};
use std::alloc::{AllocError, Global};
use zarrs_metadata_parts::members::object_of;

/// Returns why the bytes are no V3 document: where they are no JSON, or the first member that is missing, of another
/// shape, or holds a number that is no integer of 64 bits. A float type is named as such.
///
/// # Errors
/// `AllocError`: out of memory.
pub fn document_reason(alloc: Global, bytes: &[u8]) -> Result<String, AllocError> {
    let members = match members_from_slice(alloc, bytes)? {
        Ok(members) => members,
        Err(reason) => return Ok(reason),
    };
    match float_reason(alloc, &members, named_type(&members))? {
        Some(reason) => Ok(reason),
        None => read_reason(alloc, read_document(alloc, members)),
    }
}

/// Returns why a document was not read.
///
/// # Errors
/// `AllocError`: out of memory.
pub fn read_reason<T: Drop>(alloc: Global, read: Result<T, Unread>) -> Result<String, AllocError>
    ensures { IfErr read (λ e. e ≡ Unread.OutOfMemory → IsErr result) }
{
    match read {
        Err(Unread::OutOfMemory) => Err(AllocError),
        Err(error) => format!(in alloc; "{error}"),
        Ok(_) => String::from_str(alloc, "it is read"),
    }
}

/// Returns the members of the JSON object that the bytes are, or why they are none.
///
/// # Errors
/// `AllocError`: out of memory.
pub fn members_from_slice(
    alloc: Global,
    bytes: &[u8],
) -> Result<Result<Map<String, Value>, String>, AllocError>
    ensures { IfOk result (λ read. option_map (λ m. members_view m.entries) (result_ok read)
        ≡ option_and_then as_object (value_said bytes.now)) }
{
    match Value::from_slice(alloc, bytes) {
        Ok(value) => match object_of(value) {
            Some(members) => Ok(Ok(members)),
            None => Ok(Err(String::from_str(alloc, "it is no JSON object")?)),
        },
        Err(error) => match error.classify() {
            Category::Memory => Err(AllocError),
            _ => Ok(Err(format!(in alloc; "{error}")?)),
        },
    }
}

/// Returns the member that holds a number that is no integer of 64 bits, or in its place the data type, if that is not
/// supported for its numbers.
///
/// # Errors
/// `AllocError`: out of memory.
pub fn float_reason(
    alloc: Global,
    members: &Map<String, Value>,
    data_type: Option<&str>,
) -> Result<Option<String>, AllocError>
    ensures { IfOk result (λ reason. is_some reason
        ≡ members_have_float (members_view members.now.entries)) }
{
    for (name, member) in members.iter() {
        if holds_float(member) {
            if let Some(reason) = type_reason(alloc, data_type)? {
                return Ok(Some(reason));
            }
            let reason = format!(in alloc;
                "`{name}` holds a number that is no integer of 64 bits"
            )?;
            return Ok(Some(reason));
        }
    }
    Ok(None)
}

/// Returns why the data type of this name is not supported, if that is for its numbers.
///
/// # Errors
/// `AllocError`: out of memory.
pub fn type_reason(alloc: Global, name: Option<&str>) -> Result<Option<String>, AllocError>
    ensures { IfOk result (λ reason. is_some reason
        ≡ unwrap_or (option_map (λ text. is_unsupported_type text.now) name.entry) false) }
{
    let Some(name) = name else {
        return Ok(None);
    };
    let Some(numbers) = unsupported_numbers(name) else {
        return Ok(None);
    };
    Ok(Some(format!(in alloc; "`{name}`: {numbers} are not supported")?))
}

/// Returns which numbers the cells of a data type of this name are, in V3 or V2, if they are not whole.
fn unsupported_numbers(name: &str) -> Option<&'static str>
    ensures { is_some result ≡ is_unsupported_type name.now }
{
    let name = name.as_bytes();
    if name.starts_with(b"float") || name.starts_with(b"bfloat") {
        return Some("floats");
    }
    if name.starts_with(b"complex") {
        return Some("complex numbers");
    }
    match name {
        [b'<' | b'>' | b'|', b'f', ..] => Some("floats"),
        [b'<' | b'>' | b'|', b'c', ..] => Some("complex numbers"),
        _ => None,
    }
}

/// Returns the name of the data type of a V3 document, if it has one.
fn named_type(members: &Map<String, Value>) -> Option<&str> {
    let data_type = member_of(members, "data_type")?;
    match data_type {
        Value::String(name) => Some(name.as_str()),
        _ => data_type.get("name")?.as_str(),
    }
}

/// Returns why a codec of this name is not supported, if it is known as one that compresses or checks bytes.
pub fn unsupported_codec(name: &str) -> Option<&'static str>
    ensures { is_some result ≡ is_unsupported_codec name.now }
{
    match name {
        "blosc" => Some("`blosc`: compressors are not supported"),
        "bz2" => Some("`bz2`: compressors are not supported"),
        "gzip" => Some("`gzip`: compressors are not supported"),
        "lz4" => Some("`lz4`: compressors are not supported"),
        "pcodec" => Some("`pcodec`: compressors are not supported"),
        "zfp" => Some("`zfp`: compressors are not supported"),
        "zlib" => Some("`zlib`: compressors are not supported"),
        "zstd" => Some("`zstd`: compressors are not supported"),
        "adler32" => Some("`adler32`: checksums are not supported"),
        "crc32c" => Some("`crc32c`: checksums are not supported"),
        "fletcher32" => Some("`fletcher32`: checksums are not supported"),
        _ => None,
    }
}

/// Returns why codecs are not supported, if one that is named in these members, at any depth, compresses or checks
/// bytes.
#[cycle(codecs)]
pub fn codecs_reason(members: &Map<String, Value>) -> Option<&'static str>
    ensures { is_some result ≡ members_name_codec (members_view members.now.entries) }
{
    for (_name, member) in members.iter() {
        if let Some(reason) = value_reason(member) {
            return Some(reason);
        }
    }
    None
}

#[cycle(codecs)]
fn value_reason(value: &Value) -> Option<&'static str>
    ensures { is_some result ≡ names_codec (view value.now) }
{
    match value {
        Value::String(name) => unsupported_codec(name.as_str()),
        Value::Array(items) => items_reason(items),
        Value::Object(members) => codecs_reason(members),
        _ => None,
    }
}

#[cycle(codecs)]
fn items_reason(items: &Vec<Value>) -> Option<&'static str>
    ensures { is_some result ≡ items_name_codec (items_view items.now.items) }
{
    for item in items {
        if let Some(reason) = value_reason(item) {
            return Some(reason);
        }
    }
    None
}
