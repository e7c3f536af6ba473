//! The cells at given places.
ghost use Rattle.std.specs.Prelude.{◌≡◌, ◌<◌, ◌*◌, ℕ, [], All, IfOk, map, length, slice_index, slice_index_or};
ghost use Rattle.zarrs_data_type_bytes.specs.ArrayData.{data_of};
ghost use Rattle.zarrs_data_type_bytes.specs.Cells.{CanSelect, IsSelection};
ghost use Rattle.zarrs_data_type_bytes.specs.Present.{TakesPieces};
ghost use Rattle.zarrs_data_type_kinds.specs.Kind.{kind};

use super::ArrayBytes;
use super::validate::fixed_cell;
use crate::variable::{ArrayBytesVariableLength, VariableLengthBuilder};
use std::alloc::{AllocError, Global};
use std::borrow::CowSlice;
use zarrs_data_type_kinds::DataType;

/// The cells of one size at these places, one after another.
pub(super) fn select_fixed(
    alloc: Global,
    bytes: &[u8],
    size: usize,
    places: &[usize],
) -> Result<Vec<u8>, AllocError>
    requires { (n : ℕ) × (length bytes.now ≡ n * size) × All (λ p. p < n) places.now }
    ensures { IfOk result (λ selected. TakesPieces size places.now bytes.now selected.items) }
{
    let mut selected = Vec::with_capacity(alloc, places.len().saturating_mul(size))?;
    for place in places {
        selected.extend_from_slice(fixed_cell(bytes, size, *place))?;
    }
    Ok(selected)
}

/// The byte strings at these places.
fn select_strings(
    alloc: Global,
    strings: &ArrayBytesVariableLength<'_>,
    places: &[usize],
) -> Result<ArrayBytesVariableLength<'static>, AllocError>
    requires { All (λ p. p < length strings.now) places.now }
    ensures { IfOk result (λ selected. selected
        ≡ map (λ p. slice_index_or strings.now p []) places.now) }
{
    let mut builder = VariableLengthBuilder::with_capacity(alloc, places.len(), 0)?;
    for place in places {
        builder.push(strings.get(*place))?;
    }
    Ok(builder.finish())
}

/// The flags at these places.
fn select_flags(alloc: Global, flags: &[u8], places: &[usize]) -> Result<Vec<u8>, AllocError>
    requires mask { All (λ flag. flag < 2) flags.now }
    requires within { All (λ p. p < length flags.now) places.now }
    ensures items { IfOk result (λ selected. selected.items
        ≡ map (λ p. slice_index flags.now p) places.now) }
    ensures mask { IfOk result (λ selected. All (λ flag. flag < 2) selected.items) }
{
    let mut selected = Vec::with_capacity(alloc, places.len())?;
    for place in places {
        selected.push(flags[*place])?;
    }
    Ok(selected)
}

impl<'a> ArrayBytes<'a> {
    /// The cells at these places, in their order, level by level.
    pub(super) fn select(
        &self,
        alloc: Global,
        data_type: &DataType,
        places: &[usize],
    ) -> Result<ArrayBytes<'static>, AllocError>
        requires { CanSelect (kind data_type.now) (data_of self.now) places.now }
        ensures { IfOk result (λ selected. IsSelection (kind data_type.now) (data_of selected)
            (data_of self.now) places.now) }
    {
        match self {
            ArrayBytes::Fixed(bytes) => {
                let size = data_type.element_size().unwrap();
                let selected = select_fixed(alloc, bytes.as_slice(), size, places)?;
                Ok(ArrayBytes::new_flen(selected))
            }
            ArrayBytes::Variable(strings) => {
                let selected = select_strings(alloc, strings, places)?;
                Ok(ArrayBytes::Variable(selected))
            }
            ArrayBytes::Optional(optional) => {
                let inner = data_type.optional_inner().unwrap();
                let flags = select_flags(alloc, optional.mask.as_slice(), places)?;
                let data = optional.data.select(alloc, inner, places)?;
                data.with_optional_mask(alloc, CowSlice::Owned(flags))
            }
        }
    }
}
