//! Steps on the members of an object.
ghost use Rattle.std.specs.Prelude.{◌≡◌, codes, option_map, option_and_then, Some, IfOk, IfErr};
ghost use Rattle.std.specs.Prelude.{OnOk, OnErr, is_none, is_ok, true};
ghost use Rattle.serde_json.specs.Find.{get_member, as_array, as_object};
ghost use Rattle.serde_json.specs.View.{view, items_view, members_view};
ghost use Rattle.zarrs_metadata_parts.specs.Members.{nonempty};
ghost use Rattle.zarrs_metadata_parts.specs.Lists.{numbers_of};
ghost use Rattle.zarrs_metadata_parts.specs.FillValue.{fill_data};
ghost use Rattle.zarrs_metadata_v3.specs.Members.{reads_as_text, reads_as_number, members_in, object_data, put_some, value_said};
ghost use Rattle.zarrs_metadata_v3.specs.Refusals.{Reads, RefusesReading};
ghost use Rattle.zarrs_metadata_v3.specs.Refusals.{IsMissing, IsWrong, IsUnread, IsFault};

use crate::unread::Unread;
use serde_json::{Category, Map, Value};
use std::alloc::{AllocError, Global};
pub use zarrs_metadata_parts::members::{copied, object_of, take_member};
use zarrs_metadata_parts::{FillValueMetadata, MetadataError, numbers};

/// Reads the JSON value that bytes are.
///
/// # Errors
/// `InvalidShape` for bytes that are none, and for one that nests deeper than 127. `OutOfMemory` may come at any time.
pub fn value_from_slice(alloc: Global, bytes: &[u8]) -> Result<Value, MetadataError>
    ensures read { IfOk result (λ value. value_said bytes.now ≡ Some (view value)) }
    ensures refused { IfErr result (RefusesReading (value_said bytes.now)) }
{
    match Value::from_slice(alloc, bytes) {
        Ok(value) => Ok(value),
        Err(error) => match error.classify() {
            Category::Memory => Err(MetadataError::OutOfMemory),
            _ => Err(MetadataError::InvalidShape),
        },
    }
}

/// Returns the member of this name.
pub fn member_of<'a>(members: &'a Map<String, Value>, name: &str) -> Option<&'a Value>
    ensures { option_map (λ value. view value.now) result
        ≡ get_member name.now (members_view members.now.entries) }
{
    members.get(name)
}

/// Puts the member in, if there is one, over a member of that name.
///
/// # Errors
/// `AllocError`: out of memory. The members stay as they were.
pub fn put_member(
    members: &mut Map<String, Value>,
    alloc: Global,
    name: &str,
    value: Option<Value>,
) -> Result<(), AllocError>
    ensures put { OnOk result (members_view members.new.entries
        ≡ put_some name.now (option_map view value) (members_view members.old.entries)) }
    ensures kept { OnErr result (members.new.entries ≡ members.old.entries) }
{
    match value {
        Some(value) => serde_json::put(members, alloc, name, value),
        None => Ok(()),
    }
}

/// Puts the value in, if there is one, over a member of that name.
///
/// # Errors
/// That of the value. `AllocError`: out of memory.
pub fn put_written(
    members: &mut Map<String, Value>,
    alloc: Global,
    name: &str,
    value: Result<Value, AllocError>,
) -> Result<(), AllocError>
    ensures written { OnOk result (is_ok value ≡ true) }
    ensures put { OnOk result (IfOk value (λ v. members_view members.new.entries
        ≡ put_some name.now (Some (view v)) (members_view members.old.entries))) }
{
    serde_json::put(members, alloc, name, value?)
}

/// Returns the items of a list, or `None` for any other value and for an absent one.
pub fn items_in(member: Option<Value>) -> Option<Vec<Value>>
    ensures { option_map (λ v. items_view v.items) result
        ≡ option_and_then as_array (option_map view member) }
{
    match member {
        Some(Value::Array(items)) => Some(items),
        _ => None,
    }
}

/// Returns the member of this name, which must be present.
///
/// # Errors
/// `Missing` if it is not.
pub fn present(member: Option<Value>, name: &'static str) -> Result<Value, Unread>
    ensures read { Reads view (option_map view member) result }
    ensures missing { IfErr result (IsMissing name.now) }
{
    member.ok_or(Unread::Missing(name))
}

/// Returns what is wrong with a member that does not read.
pub fn fault(member: &Option<Value>, name: &'static str, is: &'static str) -> Unread
    ensures { IsFault name.now is.now (option_map view member.now) result }
{
    match member {
        Some(_) => Unread::Wrong(name, is),
        None => Unread::Missing(name),
    }
}

/// Reads the fill value that the member is.
///
/// # Errors
/// `Missing` if there is none.
pub fn fill_value_in(member: Option<Value>) -> Result<FillValueMetadata, Unread>
    ensures read { Reads fill_data (option_map view member) result }
    ensures missing { IfErr result (IsMissing (codes "fill_value")) }
{
    let value = present(member, "fill_value")?;
    Ok(FillValueMetadata::from_value(value))
}

/// Reads the attributes that the member is; absent ones are empty.
///
/// # Errors
/// `Wrong` if it is no object.
pub fn attributes_in(alloc: Global, member: Option<Value>) -> Result<Map<String, Value>, Unread>
    ensures read { Reads (λ m. members_view m.entries) (members_in (option_map view member))
        result }
    ensures wrong { IfErr result (IsWrong (codes "attributes")) }
{
    match member {
        Some(value) => object_of(value).ok_or(Unread::Wrong("attributes", "is no object")),
        None => Ok(Map::new(alloc)),
    }
}

/// Returns whether there is no member.
pub fn is_empty(members: &Map<String, Value>) -> bool
    ensures { result ≡ is_none (nonempty (members_view members.now.entries)) }
{
    members.is_empty()
}

/// Returns an object that has a member, as a value.
///
/// # Errors
/// `AllocError`: out of memory.
pub fn object_value(members: &Map<String, Value>) -> Result<Option<Value>, AllocError>
    ensures { IfOk result (λ v. option_map view v
        ≡ object_data (members_view members.now.entries)) }
{
    if is_empty(members) {
        Ok(None)
    } else {
        Ok(Some(Value::Object(copied(members)?)))
    }
}

/// Returns whether the member is this number.
pub fn reads_as_number(member: &Option<Value>, wanted: u64) -> bool
    ensures { result ≡ reads_as_number wanted (option_map view member.now) }
{
    member.as_ref().and_then(Value::as_u64) == Some(wanted)
}

/// Returns whether the member is this text.
pub fn reads_as_text(member: &Option<Value>, wanted: &str) -> bool
    ensures { result ≡ reads_as_text wanted.now (option_map view member.now) }
{
    member.as_ref().and_then(Value::as_str) == Some(wanted)
}

/// Reads the list of whole numbers below 2^64 that the member of this name is.
///
/// # Errors
/// `Missing`, or `Wrong` for anything else. `OutOfMemory` may come at any time.
pub fn numbers_in(
    alloc: Global,
    member: Option<Value>,
    name: &'static str,
) -> Result<Vec<u64>, Unread>
    ensures read { Reads (λ v. v.items) (option_and_then numbers_of (option_map view member))
        result }
    ensures named { IfErr result (IsUnread name.now (option_map view member)) }
{
    let value = present(member, name)?;
    numbers(alloc, &value)?.ok_or(Unread::Wrong(name, "is no list of whole numbers below 2^64"))
}
