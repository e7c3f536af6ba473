//! Flags as cells.
ghost use Rattle.std.specs.Prelude.{◌≡◌, [], ◌∷◌, map, Some, None, nat_lt, option_map};
ghost use Rattle.std.specs.Prelude.{if◌then◌else◌, IfOk};
ghost use Rattle.std.specs.Int.{from_bool};
ghost use Rattle.std.specs.List.{list_all};
ghost use Rattle.zarrs_data_type_kinds.specs.Cell.{bytes};
ghost use Rattle.zarrs_data_type_kinds.specs.Kind as type;
ghost use Rattle.zarrs_data_type_kinds.specs.Same.{kind_eq};

use super::copies::copied;
use super::{Element, ElementOwned};
use crate::error::{ElementError, check_served};
use std::alloc::{AllocError, Global};
use std::borrow::CowSlice;
use zarrs_data_type_bytes::{ArrayBytes, are_flags};
use zarrs_data_type_kinds::DataType;

/// A byte for each flag: 0 for false and 1 for true.
fn flag_bytes(alloc: Global, flags: &[bool]) -> Result<Vec<u8>, AllocError>
    ensures { IfOk result (λ made. made.items ≡ map from_bool flags.now) }
{
    let mut bytes = Vec::with_capacity(alloc, flags.len())?;
    for flag in flags {
        bytes.push_reserved(*flag as u8);
    }
    Ok(bytes)
}

/// The flags of the bytes, if each is 0 or 1.
fn flags_of(alloc: Global, bytes: &[u8]) -> Result<Option<Vec<bool>>, AllocError>
    ensures { IfOk result (λ flags. option_map (λ v. map from_bool v.items) flags
        ≡ (if list_all (λ x. nat_lt x 2) bytes.now then Some bytes.now else None)) }
{
    if !are_flags(bytes) {
        return Ok(None);
    }
    let mut flags = Vec::with_capacity(alloc, bytes.len())?;
    for byte in bytes {
        flags.push_reserved(*byte == 1);
    }
    Ok(Some(flags))
}

impl Element for bool {
    ghost cell = { λ flag. bytes (from_bool flag ∷ []) };

    ghost serves = { λ k. kind_eq k type.bool };

    fn serves(data_type: &DataType) -> bool {
        *data_type == DataType::Bool
    }

    fn to_array_bytes<'a>(
        alloc: Global,
        data_type: &DataType,
        elements: &'a [bool],
    ) -> Result<ArrayBytes<'a>, ElementError> {
        check_served(<bool as Element>::serves(data_type))?;
        let bytes = flag_bytes(alloc, elements)?;
        Ok(ArrayBytes::Fixed(CowSlice::Owned(bytes)))
    }

    fn lent_to_array_bytes(
        alloc: Global,
        data_type: &DataType,
        elements: &[&bool],
    ) -> Result<ArrayBytes<'static>, ElementError> {
        let mut flags = copied(alloc, elements)?;
        <bool as Element>::take_array_bytes(alloc, data_type, &mut flags)
    }
}

impl ElementOwned for bool {
    fn from_array_bytes(
        alloc: Global,
        data_type: &DataType,
        array_bytes: ArrayBytes<'_>,
    ) -> Result<Vec<bool>, ElementError> {
        check_served(<bool as Element>::serves(data_type))?;
        let ArrayBytes::Fixed(bytes) = array_bytes else {
            return Err(ElementError::IncompatibleElementType);
        };
        match flags_of(alloc, bytes.as_slice())? {
            Some(flags) => Ok(flags),
            None => Err(ElementError::IncompatibleElementType),
        }
    }
}
