//! Whole numbers, sizes and extension points as JSON values, and lists of them.
ghost use Rattle.std.specs.Prelude.{◌≡◌, map, option_map, Some, IfOk};
ghost use Rattle.std.specs.Int.NonZero.{non_zero_u64_get};
ghost use Rattle.serde_json.specs.Data.{array, item, no_items};
ghost use Rattle.serde_json.specs.View.{view, items_view};
ghost use Rattle.zarrs_metadata_parts.specs.Extension.{extension_data, extension_of, extension_view};
ghost use Rattle.zarrs_metadata_parts.specs.Lists.{all_of, list_of, number_of, numbers_of, numbers_data};
ghost use Rattle.zarrs_metadata_parts.specs.Lists.{list_data, size_said, sizes_of, sole_item};

use crate::extension::MetadataV3;
use serde_json::Value;
use std::alloc::{AllocError, Global};
use std::num::NonZeroU64;

/// Returns the numbers of a list of whole numbers below 2^64, or `None` if the value is not such a
/// list.
///
/// # Errors
/// `AllocError`: out of memory.
pub fn numbers(alloc: Global, value: &Value) -> Result<Option<Vec<u64>>, AllocError>
    ensures { IfOk result (λ found. option_map (λ list. list.items) found
        ≡ numbers_of (view value.now)) }
{
    match value.as_array() {
        Some(items) => all_numbers(alloc, items),
        None => Ok(None),
    }
}

fn all_numbers(alloc: Global, items: &Vec<Value>) -> Result<Option<Vec<u64>>, AllocError>
    ensures { IfOk result (λ found. option_map (λ list. list.items) found
        ≡ all_of number_of (items_view items.now.items)) }
{
    let mut numbers = Vec::with_capacity(alloc, items.len())?;
    for item in items {
        match item.as_u64() {
            Some(number) => numbers.push(number)?,
            None => return Ok(None),
        }
    }
    Ok(Some(numbers))
}

/// Returns the list of these numbers as a value.
///
/// # Errors
/// `AllocError`: out of memory.
pub fn numbers_value(alloc: Global, numbers: &[u64]) -> Result<Value, AllocError>
    ensures written { IfOk result (λ value. view value ≡ numbers_data numbers.now) }
    ensures reads_back { IfOk result (λ value. numbers_of (view value) ≡ Some numbers.now) }
{
    let mut values = Vec::with_capacity(alloc, numbers.len())?;
    for number in numbers {
        values.push(Value::from(*number))?;
    }
    Ok(Value::Array(values))
}

/// Returns the item of a list of one, or `None` of a list with another number of items.
pub fn sole_item(items: &Vec<Value>) -> Option<&Value>
    ensures { option_map (λ value. view value.now) result ≡ sole_item (items_view items.now.items) }
{
    if items.len() == 1 {
        items.first()
    } else {
        None
    }
}

/// Returns the list of this one value.
///
/// # Errors
/// `AllocError`: out of memory.
pub fn one_item(alloc: Global, value: Value) -> Result<Value, AllocError>
    ensures { IfOk result (λ list. view list ≡ array (item (view value) no_items)) }
{
    let mut items = Vec::new(alloc);
    items.push(value)?;
    Ok(Value::Array(items))
}

/// Returns a size, which is a whole number from 1 to 2^64 - 1, or `None` if the value is none.
pub fn size(value: &Value) -> Option<NonZeroU64>
    ensures { option_map non_zero_u64_get result ≡ size_said (view value.now) }
{
    NonZeroU64::new(value.as_u64()?)
}

/// Returns the sizes of a list, or `None` if the value is not a list of sizes.
///
/// # Errors
/// `AllocError`: out of memory.
pub fn sizes(alloc: Global, value: &Value) -> Result<Option<Vec<NonZeroU64>>, AllocError>
    ensures { IfOk result (λ found. option_map (λ sizes. sizes_of sizes.items) found
        ≡ list_of size_said (view value.now)) }
{
    let Some(items) = value.as_array() else {
        return Ok(None);
    };
    let mut sizes = Vec::with_capacity(alloc, items.len())?;
    for item in items {
        match size(item) {
            Some(size) => sizes.push(size)?,
            None => return Ok(None),
        }
    }
    Ok(Some(sizes))
}

/// Returns the list of these sizes as a value.
///
/// # Errors
/// `AllocError`: out of memory.
pub fn sizes_value(alloc: Global, sizes: &[NonZeroU64]) -> Result<Value, AllocError>
    ensures { IfOk result (λ value. view value ≡ numbers_data (sizes_of sizes.now)) }
{
    let mut values = Vec::with_capacity(alloc, sizes.len())?;
    for size in sizes {
        values.push_reserved(Value::from(size.get()));
    }
    Ok(Value::Array(values))
}

/// Returns the extension points of a list, or `None` if the value is not a list of extension points.
///
/// # Errors
/// `AllocError`: out of memory.
pub fn extensions(alloc: Global, value: Value) -> Result<Option<Vec<MetadataV3>>, AllocError>
    ensures { IfOk result (λ found. option_map (λ list. map extension_view list.items) found
        ≡ list_of extension_of (view value)) }
{
    match value {
        Value::Array(items) => all_extensions(alloc, items),
        _ => Ok(None),
    }
}

fn all_extensions(alloc: Global, items: Vec<Value>) -> Result<Option<Vec<MetadataV3>>, AllocError>
    ensures { IfOk result (λ found. option_map (λ list. map extension_view list.items) found
        ≡ all_of extension_of (items_view items.items)) }
{
    let mut extensions = Vec::new(alloc);
    for item in items {
        match MetadataV3::from_value(item) {
            Ok(extension) => extensions.push(extension)?,
            Err(_) => return Ok(None),
        }
    }
    Ok(Some(extensions))
}

/// Returns the list of these extension points as a value.
///
/// # Errors
/// `AllocError`: out of memory.
pub fn extensions_value(alloc: Global, extensions: &[MetadataV3]) -> Result<Value, AllocError>
    ensures { IfOk result (λ value. view value
        ≡ list_data extension_data (map extension_view extensions.now)) }
{
    let mut values = Vec::with_capacity(alloc, extensions.len())?;
    for extension in extensions {
        values.push(extension.to_value(alloc)?)?;
    }
    Ok(Value::Array(values))
}
