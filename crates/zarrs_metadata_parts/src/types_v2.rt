//! The data types of Zarr V2 that have a V3 name, and their fill values.
ghost use Rattle.std.specs.Prelude.{◌≡◌, ℕ, ℤ, pos, negsuc, option_map, Some, IfOk};
ghost use Rattle.serde_json.specs.View.{number_view};
ghost use Rattle.zarrs_metadata_parts.specs.FillValue.{fill_data};
ghost use Rattle.zarrs_metadata_parts.specs.TypesV2.{wide_kind, narrow_kind, type_v2, type_name_v3};
ghost use Rattle.zarrs_metadata_parts.specs.TypesV2.{is_text_kind, bool_fill, is_number_within};
ghost use Rattle.zarrs_metadata_parts.specs.TypesV2.{is_up_to, holds_number, number_fill, text_fill, fill_v3};

use crate::fill_value::FillValueMetadata;
use serde_json::Number;
use std::alloc::{AllocError, Global};

/// What the cells of a data type of Zarr V2 are (Zarr V2 storage specification, "Data type encoding").
#[derive(Clone, Copy, Debug, Drop, PartialEq, Eq)]
pub enum KindV2 {
    /// `b1`
    Bool,
    /// `i1`
    Int8,
    /// `i2`
    Int16,
    /// `i4`
    Int32,
    /// `i8`
    Int64,
    /// `u1`
    Uint8,
    /// `u2`
    Uint16,
    /// `u4`
    Uint32,
    /// `u8`
    Uint64,
    /// `O`, of which filters say that the cells are texts.
    Text,
}

/// The order of the bytes of a number.
#[derive(Clone, Copy, Debug, Drop, PartialEq, Eq)]
pub enum EndianV2 {
    /// `<`, the lowest byte first.
    Little,
    /// `>`, the highest byte first.
    Big,
}

/// A data type of Zarr V2: the kind of its cells, and the order of their bytes if they have one.
#[derive(Clone, Copy, Debug, Drop, PartialEq, Eq)]
pub struct TypeV2 {
    /// The kind of the cells.
    pub kind: KindV2,
    /// The order of the bytes of a cell, for numbers of two bytes and more.
    pub endian: Option<EndianV2>,
}

fn wide_kind(text: &[u8]) -> Option<KindV2>
    ensures { result ≡ wide_kind text.now }
{
    match text {
        b"i2" => Some(KindV2::Int16),
        b"i4" => Some(KindV2::Int32),
        b"i8" => Some(KindV2::Int64),
        b"u2" => Some(KindV2::Uint16),
        b"u4" => Some(KindV2::Uint32),
        b"u8" => Some(KindV2::Uint64),
        _ => None,
    }
}

fn narrow_kind(text: &[u8]) -> Option<KindV2>
    ensures { result ≡ narrow_kind text.now }
{
    match text {
        b"b1" => Some(KindV2::Bool),
        b"i1" => Some(KindV2::Int8),
        b"u1" => Some(KindV2::Uint8),
        b"O" => Some(KindV2::Text),
        _ => None,
    }
}

impl TypeV2 {
    /// Returns the type that a text such as `<i4` names, if it has a V3 name.
    pub fn from_text(text: &str) -> Option<TypeV2>
        ensures { result ≡ type_v2 text.now }
    {
        let (kind, endian) = match text.as_bytes() {
            [b'<', rest @ ..] => (wide_kind(rest)?, Some(EndianV2::Little)),
            [b'>', rest @ ..] => (wide_kind(rest)?, Some(EndianV2::Big)),
            [b'|', rest @ ..] => (narrow_kind(rest)?, None),
            _ => return None,
        };
        Some(TypeV2 { kind, endian })
    }
}

impl KindV2 {
    /// Returns the V3 name of the type.
    pub fn name(self) -> &'static str
        ensures { result.now ≡ type_name_v3 self }
    {
        match self {
            KindV2::Bool => "bool",
            KindV2::Int8 => "int8",
            KindV2::Int16 => "int16",
            KindV2::Int32 => "int32",
            KindV2::Int64 => "int64",
            KindV2::Uint8 => "uint8",
            KindV2::Uint16 => "uint16",
            KindV2::Uint32 => "uint32",
            KindV2::Uint64 => "uint64",
            KindV2::Text => "string",
        }
    }

    /// Returns whether the cells are texts.
    pub fn is_text(self) -> bool
        ensures { result ≡ is_text_kind self }
    {
        matches!(self, KindV2::Text)
    }

    /// Returns the fill value of V3 for this one of V2 (Zarr V2 storage specification, "fill_value"), or `None` for a
    /// value that is not of the type.
    ///
    /// # Errors
    /// `AllocError`: out of memory.
    pub fn fill_value(
        self,
        alloc: Global,
        value: &FillValueMetadata,
    ) -> Result<Option<FillValueMetadata>, AllocError>
        ensures { IfOk result (λ o. option_map fill_data o ≡ fill_v3 self (fill_data value.now)) }
    {
        match self {
            KindV2::Bool => Ok(bool_fill(value)),
            KindV2::Text => text_fill(alloc, value),
            _ => Ok(number_fill(self, value)),
        }
    }

    /// Returns whether the number is a value of the type.
    fn holds(self, number: &Number) -> bool
        ensures { result ≡ holds_number self (number_view number.now) }
    {
        match self {
            KindV2::Int8 => is_number_within(number, -128, 127),
            KindV2::Int16 => is_number_within(number, -32768, 32767),
            KindV2::Int32 => is_number_within(number, -2147483648, 2147483647),
            KindV2::Int64 => number.is_i64(),
            KindV2::Uint8 => is_up_to(number, 255),
            KindV2::Uint16 => is_up_to(number, 65535),
            KindV2::Uint32 => is_up_to(number, 4294967295),
            KindV2::Uint64 => number.is_u64(),
            KindV2::Bool | KindV2::Text => false,
        }
    }
}

fn bool_fill(value: &FillValueMetadata) -> Option<FillValueMetadata>
    ensures { option_map fill_data result ≡ bool_fill (fill_data value.now) }
{
    match value {
        FillValueMetadata::Null => Some(FillValueMetadata::Bool(false)),
        FillValueMetadata::Bool(flag) => Some(FillValueMetadata::Bool(*flag)),
        FillValueMetadata::Number(number) => match number.as_u64()? {
            0 => Some(FillValueMetadata::Bool(false)),
            1 => Some(FillValueMetadata::Bool(true)),
            _ => None,
        },
        _ => None,
    }
}

fn is_number_within(found: &Number, low: i64, high: i64) -> bool
    ensures { result ≡ is_number_within low high (number_view found.now) }
{
    matches!(found.as_i64(), Some(number) if low <= number && number <= high)
}

fn is_up_to(found: &Number, high: u64) -> bool
    ensures { result ≡ is_up_to high (number_view found.now) }
{
    matches!(found.as_u64(), Some(number) if number <= high)
}

/// Returns the fill value of a type of whole numbers.
fn number_fill(kind: KindV2, value: &FillValueMetadata) -> Option<FillValueMetadata>
    ensures { option_map fill_data result ≡ number_fill kind (fill_data value.now) }
{
    match value {
        FillValueMetadata::Null => Some(FillValueMetadata::Number(Number::from(0u64))),
        FillValueMetadata::Number(number) if kind.holds(number) => Some(FillValueMetadata::Number(
            *number,
        )),
        _ => None,
    }
}

fn text_fill(
    alloc: Global,
    value: &FillValueMetadata,
) -> Result<Option<FillValueMetadata>, AllocError>
    ensures { IfOk result (λ o. option_map fill_data o ≡ text_fill (fill_data value.now)) }
{
    match value {
        FillValueMetadata::Null => Ok(Some(FillValueMetadata::String(String::new(alloc)))),
        FillValueMetadata::String(text) => Ok(Some(FillValueMetadata::String(text.clone()?))),
        FillValueMetadata::Number(number) if is_up_to(number, 0) => Ok(Some(
            FillValueMetadata::String(String::new(alloc)),
        )),
        _ => Ok(None),
    }
}
