//! Fill values as metadata says them, both ways.
ghost use Rattle.std.specs.Prelude.{◌≡◌, [], ◌∷◌, ◌++◌, true, Some, None, nat_lt, length};
ghost use Rattle.std.specs.Prelude.{option_map, if◌then◌else◌, IfOk, IfErr, IfSome, IsSome, OnOk};
ghost use Rattle.std.specs.List.{list_all};
ghost use Rattle.std.specs.Str.{is_utf8};
ghost use Rattle.serde_json.specs.Data.{string};
ghost use Rattle.serde_json.specs.View.{view};
ghost use Rattle.zarrs_metadata_parts.specs.FillValue.{fill_data};
ghost use Rattle.zarrs_metadata_parts.specs.Lists.{numbers_data};
ghost use Rattle.zarrs_data_type_kinds.specs.Cell.{fill_cell, is_element};
ghost use Rattle.zarrs_data_type_kinds.specs.Fills.{RefusesFillMetadata, RefusesFill};
ghost use Rattle.zarrs_data_type_kinds.specs.FillMetadata.{bytes_said, sized_said, element_said};
ghost use Rattle.zarrs_data_type_kinds.specs.FillMetadata.{fill_said, element_data, fill_written};
ghost use Rattle.zarrs_data_type_kinds.specs.Kind.{kind};
ghost use Rattle.zarrs_data_type_kinds.specs.Kind as type;

use crate::data_type::DataType;
use crate::error::{DataTypeFillValueError, DataTypeFillValueMetadataError};
use crate::fill_value::{FillValue, inner_fill};
use serde_json::Value;
use std::alloc::{AllocError, Global};
use zarrs_metadata_parts::{FillValueMetadata, numbers, numbers_value, one_item, sole_item};

/// Returns the bytes in a list, if there are some.
fn listed<const N: usize>(
    alloc: Global,
    bytes: Option<[u8; N]>,
) -> Result<Option<Vec<u8>>, AllocError>
    ensures { IfOk result (λ made. option_map (λ b. b.items) made ≡ bytes.entry) }
{
    match bytes {
        Some(bytes) => Ok(Some(Vec::from_slice(alloc, &bytes)?)),
        None => Ok(None),
    }
}

fn bool_said(value: &Value) -> Option<[u8; 1]>
    ensures { result ≡ element_said type.bool (view value.now) }
{
    Some([u8::from(value.as_bool()?)])
}

fn int8_said(value: &Value) -> Option<[u8; 1]>
    ensures { result ≡ element_said type.int8 (view value.now) }
{
    Some(i8::try_from(value.as_i64()?).ok()?.to_le_bytes())
}

fn int16_said(value: &Value) -> Option<[u8; 2]>
    ensures { result ≡ element_said type.int16 (view value.now) }
{
    Some(i16::try_from(value.as_i64()?).ok()?.to_le_bytes())
}

fn int32_said(value: &Value) -> Option<[u8; 4]>
    ensures { result ≡ element_said type.int32 (view value.now) }
{
    Some(i32::try_from(value.as_i64()?).ok()?.to_le_bytes())
}

fn int64_said(value: &Value) -> Option<[u8; 8]>
    ensures { result ≡ element_said type.int64 (view value.now) }
{
    Some(value.as_i64()?.to_le_bytes())
}

fn uint8_said(value: &Value) -> Option<[u8; 1]>
    ensures { result ≡ element_said type.uint8 (view value.now) }
{
    Some(u8::try_from(value.as_u64()?).ok()?.to_le_bytes())
}

fn uint16_said(value: &Value) -> Option<[u8; 2]>
    ensures { result ≡ element_said type.uint16 (view value.now) }
{
    Some(u16::try_from(value.as_u64()?).ok()?.to_le_bytes())
}

fn uint32_said(value: &Value) -> Option<[u8; 4]>
    ensures { result ≡ element_said type.uint32 (view value.now) }
{
    Some(u32::try_from(value.as_u64()?).ok()?.to_le_bytes())
}

fn uint64_said(value: &Value) -> Option<[u8; 8]>
    ensures { result ≡ element_said type.uint64 (view value.now) }
{
    Some(value.as_u64()?.to_le_bytes())
}

/// Returns the numbers as bytes, if each is one.
fn as_bytes(alloc: Global, numbers: &[u64]) -> Result<Option<Vec<u8>>, AllocError>
    ensures { IfOk result (λ said. option_map (λ b. b.items) said
        ≡ (if list_all (λ x. nat_lt x 256) numbers.now then Some numbers.now else None)) }
{
    let mut bytes = Vec::with_capacity(alloc, numbers.len())?;
    for number in numbers {
        if *number > 255 {
            return Ok(None);
        }
        bytes.push(*number as u8)?;
    }
    Ok(Some(bytes))
}

fn bytes_said(alloc: Global, value: &Value) -> Result<Option<Vec<u8>>, AllocError>
    ensures { IfOk result (λ said. option_map (λ b. b.items) said ≡ bytes_said (view value.now)) }
{
    match numbers(alloc, value)? {
        Some(numbers) => as_bytes(alloc, &numbers),
        None => Ok(None),
    }
}

fn sized_said(alloc: Global, value: &Value, size: usize) -> Result<Option<Vec<u8>>, AllocError>
    ensures { IfOk result (λ said. option_map (λ b. b.items) said
        ≡ sized_said size (view value.now)) }
{
    match bytes_said(alloc, value)? {
        Some(bytes) if bytes.len() == size => Ok(Some(bytes)),
        _ => Ok(None),
    }
}

fn text_said(alloc: Global, value: &Value) -> Result<Option<Vec<u8>>, AllocError>
    ensures said { IfOk result (λ said. option_map (λ b. b.items) said
        ≡ element_said type.string (view value.now)) }
    ensures text { IfOk result (λ said. IfSome said (λ b. is_utf8 b.items ≡ true)) }
{
    match value.as_str() {
        Some(text) => Ok(Some(Vec::from_slice(alloc, text.as_bytes())?)),
        None => Ok(None),
    }
}

/// Returns the bytes of the cell that a value says, of a type that is not optional.
fn element_said(
    alloc: Global,
    data_type: &DataType,
    value: &Value,
) -> Result<Option<Vec<u8>>, AllocError>
    ensures said { IfOk result (λ said. option_map (λ b. b.items) said
        ≡ element_said (kind data_type.now) (view value.now)) }
    ensures text { IfOk result (λ said. kind data_type.now ≡ type.string
        → IfSome said (λ b. is_utf8 b.items ≡ true)) }
{
    match data_type {
        DataType::Bool => listed(alloc, bool_said(value)),
        DataType::Int8 => listed(alloc, int8_said(value)),
        DataType::Int16 => listed(alloc, int16_said(value)),
        DataType::Int32 => listed(alloc, int32_said(value)),
        DataType::Int64 => listed(alloc, int64_said(value)),
        DataType::UInt8 => listed(alloc, uint8_said(value)),
        DataType::UInt16 => listed(alloc, uint16_said(value)),
        DataType::UInt32 => listed(alloc, uint32_said(value)),
        DataType::UInt64 => listed(alloc, uint64_said(value)),
        DataType::Raw(size) => sized_said(alloc, value, size.get()),
        DataType::String => text_said(alloc, value),
        DataType::Bytes => bytes_said(alloc, value),
        DataType::Optional(_) => Ok(None),
    }
}

/// Returns the bytes of some of the cell of these bytes.
fn some_of(bytes: Option<Vec<u8>>) -> Result<Option<Vec<u8>>, AllocError>
    ensures { IfOk result (λ made. option_map (λ b. b.items) made
        ≡ option_map (λ b. b.items ++ 1 ∷ []) bytes) }
{
    match bytes {
        Some(mut bytes) => {
            bytes.push(1)?;
            Ok(Some(bytes))
        }
        None => Ok(None),
    }
}

/// Returns the bytes of the fill value that a JSON value says.
fn fill_said(
    alloc: Global,
    data_type: &DataType,
    value: &Value,
) -> Result<Option<Vec<u8>>, AllocError>
    ensures said { IfOk result (λ said. option_map (λ b. b.items) said
        ≡ fill_said (kind data_type.now) (view value.now)) }
    ensures value { IfOk result (λ said. IfSome said
        (λ b. IsSome (fill_cell (kind data_type.now) b.items))) }
{
    match data_type {
        DataType::Optional(inner) => match value {
            Value::Null => listed(alloc, Some([0])),
            Value::Array(items) => match sole_item(items) {
                Some(item) => some_of(fill_said(alloc, inner, item)?),
                None => Ok(None),
            },
            _ => Ok(None),
        },
        _ => element_said(alloc, data_type, value),
    }
}

/// Returns the bytes as a list of numbers.
fn list_value(alloc: Global, bytes: &[u8]) -> Result<Value, AllocError>
    ensures { IfOk result (λ value. view value ≡ numbers_data bytes.now) }
{
    let mut numbers = Vec::with_capacity(alloc, bytes.len())?;
    for byte in bytes {
        numbers.push(*byte as u64)?;
    }
    let value = numbers_value(alloc, &numbers)?;
    Ok(value)
}

/// Returns the JSON value of a cell of these bytes, of a type that is not optional.
fn element_value(alloc: Global, data_type: &DataType, bytes: &[u8]) -> Result<Value, AllocError>
    requires { is_element (kind data_type.now) bytes.now ≡ true }
    ensures { IfOk result (λ value. view value ≡ element_data (kind data_type.now) bytes.now) }
{
    match data_type {
        DataType::Bool => Ok(Value::Bool(bytes[0] == 1)),
        DataType::Int8 => Ok(Value::from(bytes[0].cast_signed())),
        DataType::Int16 => Ok(Value::from(u16::from_le_bytes(array_of(bytes)).cast_signed())),
        DataType::Int32 => Ok(Value::from(u32::from_le_bytes(array_of(bytes)).cast_signed())),
        DataType::Int64 => Ok(Value::from(u64::from_le_bytes(array_of(bytes)).cast_signed())),
        DataType::UInt8 => Ok(Value::from(bytes[0])),
        DataType::UInt16 => Ok(Value::from(u16::from_le_bytes(array_of(bytes)))),
        DataType::UInt32 => Ok(Value::from(u32::from_le_bytes(array_of(bytes)))),
        DataType::UInt64 => Ok(Value::from(u64::from_le_bytes(array_of(bytes)))),
        DataType::String => text_value(alloc, bytes),
        DataType::Raw(_) | DataType::Bytes => list_value(alloc, bytes),
        DataType::Optional(_) => Ok(Value::Null),
    }
}

/// Returns the bytes as an array of their length.
fn array_of<const N: usize>(bytes: &[u8]) -> [u8; N]
    requires { length bytes.now ≡ N }
    ensures { result ≡ bytes.now }
{
    *bytes.as_array().unwrap()
}

fn text_value(alloc: Global, bytes: &[u8]) -> Result<Value, AllocError>
    requires { is_utf8 bytes.now ≡ true }
    ensures { IfOk result (λ value. view value ≡ string bytes.now) }
{
    match str::from_utf8(bytes) {
        Ok(text) => Value::try_from_str(alloc, text),
        Err(_) => unreachable!(),
    }
}

/// Returns the JSON value of the fill value of these bytes.
fn fill_written(alloc: Global, data_type: &DataType, bytes: &[u8]) -> Result<Value, AllocError>
    requires { IsSome (fill_cell (kind data_type.now) bytes.now) }
    ensures { IfOk result (λ value. view value ≡ fill_written (kind data_type.now) bytes.now) }
{
    match data_type {
        DataType::Optional(inner) => match inner_fill(bytes) {
            Some(front) => one_item(alloc, fill_written(alloc, inner, front)?),
            None => Ok(Value::Null),
        },
        _ => element_value(alloc, data_type, bytes),
    }
}

impl DataType {
    /// Reads the fill value that V3 metadata says (Zarr V3 core specification, "fill_value"): true or false for bool,
    /// a whole number in range for a type of numbers, a list of bytes for a raw type and for bytes, a text for
    /// string; for an optional type null for none, and a list of one value of the inner type for some.
    ///
    /// # Errors
    /// `Invalid` if it says no value of this type. `OutOfMemory` may come at any time.
    pub fn fill_value_v3(
        &self,
        alloc: Global,
        metadata: &FillValueMetadata,
    ) -> Result<FillValue, DataTypeFillValueMetadataError>
        ensures read { IfOk result (λ f. fill_said (kind self.now) (fill_data metadata.now)
            ≡ Some f) }
        ensures value { IfOk result (λ f. IsSome (fill_cell (kind self.now) f)) }
        ensures refused { IfErr result
            (RefusesFillMetadata (fill_said (kind self.now) (fill_data metadata.now))) }
    {
        let value = metadata.to_value(alloc)?;
        match fill_said(alloc, self, &value)? {
            Some(bytes) => Ok(FillValue::new(bytes)),
            None => Err(DataTypeFillValueMetadataError::Invalid),
        }
    }

    /// Returns the metadata of a fill value.
    ///
    /// # Errors
    /// In this order: `Invalid` if it is no value of this type; `OutOfMemory`.
    pub fn metadata_fill_value(
        &self,
        alloc: Global,
        fill_value: &FillValue,
    ) -> Result<FillValueMetadata, DataTypeFillValueError>
        ensures written { IfOk result (λ m.
            fill_data m ≡ fill_written (kind self.now) fill_value.now) }
        ensures value { OnOk result (IsSome (fill_cell (kind self.now) fill_value.now)) }
        ensures refused { IfErr result (RefusesFill (fill_cell (kind self.now) fill_value.now)) }
    {
        if !fill_value.is_value_of(self) {
            return Err(DataTypeFillValueError::Invalid);
        }
        let value = fill_written(alloc, self, fill_value.as_bytes())?;
        Ok(FillValueMetadata::from_value(value))
    }
}
