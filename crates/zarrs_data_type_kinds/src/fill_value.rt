//! The value of a cell that was never written.
ghost use Rattle.std.specs.Prelude.{◌≡◌, ◌↔◌, IfOk, IsTrue, is_some, option_map};
ghost use Rattle.std.specs.Str.{bytes_eq};
ghost use Rattle.zarrs_data_type_kinds.specs.Cell.{fill_cell, inner_fill};
ghost use Rattle.zarrs_data_type_kinds.specs.Kind.{kind};
ghost use Rattle.zarrs_data_type_kinds.specs.Same.{bytes_eq-laws, bytes_eq-equivalence};

use crate::data_type::DataType;
use std::alloc::{AllocError, Global};
use std::marker::Model;

/// The bytes of a cell; for an optional type the one byte 0 for none, or the inner bytes and then 1 for some.
/// Numbers are little endian. Contracts see the list of the bytes.
#[derive(Debug, Drop)]
pub struct FillValue {
    bytes: Vec<u8>,
}

impl Model for FillValue {
    ghost use Rattle.std.specs.Prelude.{ℕ, List};

    ghost Value = { List ℕ };

    ghost view = { λ f. f.bytes.items };
}

impl FillValue {
    /// The fill value of these bytes. Whether they are a value of a type is what `is_value_of` tells.
    pub fn new(bytes: Vec<u8>) -> FillValue
        ensures { result ≡ bytes.items }
    {
        FillValue { bytes }
    }

    /// The bytes.
    pub fn as_bytes(&self) -> &[u8]
        ensures { result.now ≡ self.now }
    {
        self.bytes.as_slice()
    }

    /// The same fill value.
    ///
    /// # Errors
    /// `AllocError`: out of memory.
    pub fn try_clone(&self, alloc: Global) -> Result<FillValue, AllocError>
        ensures { IfOk result (λ copy. copy ≡ self.now) }
    {
        Ok(FillValue::new(Vec::from_slice(alloc, &self.bytes)?))
    }

    /// Whether this is a fill value of the type.
    pub fn is_value_of(&self, data_type: &DataType) -> bool
        ensures { result ≡ is_some (fill_cell (kind data_type.now) self.now) }
    {
        data_type.is_fill(&self.bytes)
    }
}

impl PartialEq for FillValue {
    ghost eq = { bytes_eq };

    ghost laws = { bytes_eq-laws };

    fn eq(&self, other: &FillValue) -> bool
        ensures value { result ≡ bytes_eq self.now other.now }
        ensures same_bytes { IsTrue result ↔ (self.now ≡ other.now) }
    {
        self.as_bytes() == other.as_bytes()
    }
}

impl Eq for FillValue {
    ghost laws = { bytes_eq-equivalence };
}

/// The bytes before a last byte 1: in a fill value of an optional type, those of the inner cell.
pub fn inner_fill(bytes: &[u8]) -> Option<&[u8]>
    ensures { option_map (λ front. front.now) result ≡ inner_fill bytes.now }
{
    match bytes {
        [front @ .., 1] => Some(front),
        _ => None,
    }
}
