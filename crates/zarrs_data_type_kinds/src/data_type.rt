//! The types of the cells of an array.
ghost use Rattle.std.specs.Prelude.{◌≡◌, ◌↔◌, IfOk, IsSome, IsTrue, is_some, option_map};
ghost use Rattle.zarrs_data_type_kinds.specs.Cell.{is_element, fill_cell, fill_of, held_size, takes_any_bytes};
ghost use Rattle.zarrs_data_type_kinds.specs.Kind.{kind, cell_size, element_size, fixed_size, inner_of, is_variable};
ghost use Rattle.zarrs_data_type_kinds.specs.Kind as type;
ghost use Rattle.zarrs_data_type_kinds.specs.Same.{kind_eq, type_eq, type_eq-laws, type_eq-equivalence};

use crate::fill_value::inner_fill;
use std::alloc::{AllocError, Global};
use std::num::NonZeroUsize;

/// A data type (Zarr V3 core specification, "Data types").
#[derive(Debug, Drop)]
pub enum DataType {
    /// One byte, 0 or 1.
    Bool,
    /// A signed number of 8 bits, little endian in memory.
    Int8,
    /// A signed number of 16 bits, little endian in memory.
    Int16,
    /// A signed number of 32 bits, little endian in memory.
    Int32,
    /// A signed number of 64 bits, little endian in memory.
    Int64,
    /// An unsigned number of 8 bits, little endian in memory.
    UInt8,
    /// An unsigned number of 16 bits, little endian in memory.
    UInt16,
    /// An unsigned number of 32 bits, little endian in memory.
    UInt32,
    /// An unsigned number of 64 bits, little endian in memory.
    UInt64,
    /// This many bytes, kept as they are.
    Raw(NonZeroUsize),
    /// A text in UTF-8.
    String,
    /// Any number of bytes.
    Bytes,
    /// None, or some cell of an inner type.
    Optional(Box<DataType>),
}

impl DataType {
    /// The same type.
    ///
    /// # Errors
    /// `AllocError`: out of memory.
    pub fn try_clone(&self, alloc: Global) -> Result<DataType, AllocError>
        ensures { IfOk result (λ copy. kind copy ≡ kind self.now) }
    {
        match self {
            DataType::Bool => Ok(DataType::Bool),
            DataType::Int8 => Ok(DataType::Int8),
            DataType::Int16 => Ok(DataType::Int16),
            DataType::Int32 => Ok(DataType::Int32),
            DataType::Int64 => Ok(DataType::Int64),
            DataType::UInt8 => Ok(DataType::UInt8),
            DataType::UInt16 => Ok(DataType::UInt16),
            DataType::UInt32 => Ok(DataType::UInt32),
            DataType::UInt64 => Ok(DataType::UInt64),
            DataType::Raw(size) => Ok(DataType::Raw(*size)),
            DataType::String => Ok(DataType::String),
            DataType::Bytes => Ok(DataType::Bytes),
            DataType::Optional(inner) => {
                Ok(DataType::Optional(Box::new(alloc, inner.try_clone(alloc)?)?))
            }
        }
    }

    /// The size in bytes of a cell of a type that is fixed and not optional.
    pub fn element_size(&self) -> Option<usize>
        ensures { result ≡ element_size (kind self.now) }
    {
        match self {
            DataType::Bool | DataType::Int8 | DataType::UInt8 => Some(1),
            DataType::Int16 | DataType::UInt16 => Some(2),
            DataType::Int32 | DataType::UInt32 => Some(4),
            DataType::Int64 | DataType::UInt64 => Some(8),
            DataType::Raw(size) => Some(size.get()),
            DataType::String | DataType::Bytes | DataType::Optional(_) => None,
        }
    }

    /// The size in bytes of a cell of a fixed type; of an optional type that of its inner type.
    pub fn fixed_size(&self) -> Option<usize>
        ensures { result ≡ fixed_size (kind self.now) }
    {
        match self {
            DataType::Optional(inner) => inner.fixed_size(),
            _ => self.element_size(),
        }
    }

    /// The least number of bytes that a cell takes in memory: 1 if its size is not fixed.
    pub fn cell_size(&self) -> usize
        ensures { result ≡ cell_size (kind self.now) }
    {
        self.fixed_size().unwrap_or(1)
    }

    /// The number of bytes that the cell of this fill value takes in memory.
    pub fn held_size(&self, fill: &[u8]) -> usize
        requires { IsSome (fill_cell (kind self.now) fill.now) }
        ensures { result ≡ held_size (kind self.now) (fill_of (kind self.now) fill.now) }
    {
        match self {
            DataType::Optional(inner) => match inner_fill(fill) {
                Some(front) => inner.held_size(front),
                None => inner.cell_size(),
            },
            _ => self.cell_size().max(fill.len()),
        }
    }

    /// Whether the cells of the type, or of its inner type, are of one size.
    pub fn is_fixed(&self) -> bool
        ensures { result ≡ is_some (fixed_size (kind self.now)) }
    {
        self.fixed_size().is_some()
    }

    /// The inner type of an optional type.
    pub fn optional_inner(&self) -> Option<&DataType>
        ensures { option_map (λ inner. kind inner.now) result ≡ inner_of (kind self.now) }
    {
        match self {
            DataType::Optional(inner) => Some(inner),
            _ => None,
        }
    }

    /// Whether the type is string or bytes.
    pub fn is_variable(&self) -> bool
        ensures { result ≡ is_variable (kind self.now) }
    {
        matches!(self, DataType::String | DataType::Bytes)
    }

    /// Whether any bytes of the size of a cell are a cell of this type, or of its inner type.
    pub fn takes_any_bytes(&self) -> bool
        ensures { result ≡ takes_any_bytes (kind self.now) }
    {
        match self {
            DataType::Bool | DataType::String => false,
            DataType::Optional(inner) => inner.takes_any_bytes(),
            _ => true,
        }
    }

    /// Whether these bytes are a cell of this type, which is not optional.
    pub fn is_element(&self, bytes: &[u8]) -> bool
        ensures { result ≡ is_element (kind self.now) bytes.now }
    {
        match self {
            DataType::Bool => bytes.len() == 1 && bytes[0] < 2,
            DataType::String => str::from_utf8(bytes).is_ok(),
            DataType::Bytes => true,
            _ => self.element_size() == Some(bytes.len()),
        }
    }

    /// Whether these are the bytes of a fill value of this type.
    pub fn is_fill(&self, bytes: &[u8]) -> bool
        ensures { result ≡ is_some (fill_cell (kind self.now) bytes.now) }
    {
        match self {
            DataType::Optional(inner) => match inner_fill(bytes) {
                None => bytes == [0].as_slice(),
                Some(front) => inner.is_fill(front),
            },
            _ => self.is_element(bytes),
        }
    }

    fn is_same(&self, other: &DataType) -> bool
        ensures { result ≡ kind_eq (kind self.now) (kind other.now) }
    {
        match (self, other) {
            (DataType::Bool, DataType::Bool)
            | (DataType::Int8, DataType::Int8)
            | (DataType::Int16, DataType::Int16)
            | (DataType::Int32, DataType::Int32)
            | (DataType::Int64, DataType::Int64)
            | (DataType::UInt8, DataType::UInt8)
            | (DataType::UInt16, DataType::UInt16)
            | (DataType::UInt32, DataType::UInt32)
            | (DataType::UInt64, DataType::UInt64)
            | (DataType::String, DataType::String)
            | (DataType::Bytes, DataType::Bytes) => true,
            (DataType::Raw(size), DataType::Raw(other)) => size.get() == other.get(),
            (DataType::Optional(inner), DataType::Optional(other)) => inner.is_same(other),
            _ => false,
        }
    }
}

impl PartialEq for DataType {
    ghost eq = { type_eq };

    ghost laws = { type_eq-laws };

    fn eq(&self, other: &DataType) -> bool
        ensures value { result ≡ type_eq self.now other.now }
        ensures same_type { IsTrue result ↔ (kind self.now ≡ kind other.now) }
    {
        self.is_same(other)
    }
}

impl Eq for DataType {
    ghost laws = { type_eq-equivalence };
}

/// The data type `bool`.
pub fn bool() -> DataType
    ensures { kind result ≡ type.bool }
{
    DataType::Bool
}

/// The data type `int8`.
pub fn int8() -> DataType
    ensures { kind result ≡ type.int8 }
{
    DataType::Int8
}

/// The data type `int16`.
pub fn int16() -> DataType
    ensures { kind result ≡ type.int16 }
{
    DataType::Int16
}

/// The data type `int32`.
pub fn int32() -> DataType
    ensures { kind result ≡ type.int32 }
{
    DataType::Int32
}

/// The data type `int64`.
pub fn int64() -> DataType
    ensures { kind result ≡ type.int64 }
{
    DataType::Int64
}

/// The data type `uint8`.
pub fn uint8() -> DataType
    ensures { kind result ≡ type.uint8 }
{
    DataType::UInt8
}

/// The data type `uint16`.
pub fn uint16() -> DataType
    ensures { kind result ≡ type.uint16 }
{
    DataType::UInt16
}

/// The data type `uint32`.
pub fn uint32() -> DataType
    ensures { kind result ≡ type.uint32 }
{
    DataType::UInt32
}

/// The data type `uint64`.
pub fn uint64() -> DataType
    ensures { kind result ≡ type.uint64 }
{
    DataType::UInt64
}

/// The data type `string`.
pub fn string() -> DataType
    ensures { kind result ≡ type.string }
{
    DataType::String
}

/// The data type `bytes`.
pub fn bytes() -> DataType
    ensures { kind result ≡ type.bytes }
{
    DataType::Bytes
}
