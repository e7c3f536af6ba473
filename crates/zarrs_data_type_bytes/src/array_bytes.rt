//! The bytes that stand for a list of cells.
ghost use Rattle.std.specs.Prelude.{◌≡◌, ◌↔◌, ◌<◌, All, IfOk, IsOk, is_ok, length};
ghost use Rattle.std.specs.Cow.{cow_slice_items};
ghost use Rattle.zarrs_data_type_bytes.specs.ArrayData.{data_of, optional_data, mask_of, inner_data, fixed};
ghost use Rattle.zarrs_data_type_bytes.specs.ArrayData.{variable, optional, is_fixed_data, is_variable_data};
ghost use Rattle.zarrs_data_type_bytes.specs.ArrayData.{is_optional_data};
ghost use Rattle.zarrs_data_type_bytes.specs.Offsets.{byte_strings, last_offset};

use crate::error::{
    ExpectedFixedLengthBytesError, ExpectedOptionalBytesError, ExpectedVariableLengthBytesError,
};
use crate::mask::{Mask, are_flags};
use crate::offsets::ArrayBytesOffsets;
use crate::variable::ArrayBytesVariableLength;
use std::alloc::{AllocError, Global};
use std::borrow::CowSlice;

mod extract;
mod fill;
mod fixed;
mod gather;
mod part;
mod present;
mod select;
mod spread;
mod validate;

/// The cells of an array or of a part of it, in row-major order.
#[cycle(array_bytes)]
#[derive(Debug, Drop)]
pub enum ArrayBytes<'a> {
    /// Cells of one size, one after another; numbers are little endian.
    Fixed(CowSlice<'a, u8>),
    /// Cells of any size: texts, or byte strings.
    Variable(ArrayBytesVariableLength<'a>),
    /// Cells of an optional type.
    Optional(ArrayBytesOptional<'a>),
}

/// Cells of an optional type: a mask, which has a byte for each cell, 0 for none and 1 for some, over inner data.
/// What the inner data has under a 0 belongs to no cell.
#[cycle(array_bytes)]
#[derive(Debug, Drop)]
pub struct ArrayBytesOptional<'a> {
    data: Box<ArrayBytes<'a>>,
    mask: Mask<'a>,
}

impl<'a> ArrayBytes<'a> {
    /// Cells of one size, of these bytes.
    pub fn new_flen(bytes: Vec<u8>) -> ArrayBytes<'static>
        ensures { data_of result ≡ fixed bytes.items }
    {
        ArrayBytes::Fixed(CowSlice::Owned(bytes))
    }

    /// Cells of one size, of bytes that are borrowed.
    pub fn from_flen(bytes: &'a [u8]) -> ArrayBytes<'a>
        ensures { data_of result ≡ fixed bytes.now }
    {
        ArrayBytes::Fixed(CowSlice::Borrowed(bytes))
    }

    /// Cells of any size: the byte strings that the offsets cut from the bytes.
    ///
    /// # Errors
    /// `ExpectedVariableLengthBytesError`: the last offset is not the length of the bytes.
    pub fn new_vlen(
        bytes: CowSlice<'a, u8>,
        offsets: ArrayBytesOffsets<'a>,
    ) -> Result<ArrayBytes<'a>, ExpectedVariableLengthBytesError>
        ensures made { IfOk result (λ made. data_of made
            ≡ variable (byte_strings offsets.entry (cow_slice_items bytes.entry))) }
        ensures accepted { IsOk result ↔ (last_offset offsets.entry
            ≡ length (cow_slice_items bytes.entry)) }
    {
        Ok(ArrayBytes::Variable(ArrayBytesVariableLength::new(bytes, offsets)?))
    }

    /// This data under a mask: cells of an optional type. `ArrayBytesOptional::new` is the test of a mask.
    ///
    /// # Errors
    /// `AllocError`: out of memory.
    pub fn with_optional_mask(
        self,
        alloc: Global,
        mask: CowSlice<'a, u8>,
    ) -> Result<ArrayBytes<'a>, AllocError>
        requires { All (λ flag. flag < 2) (cow_slice_items mask) }
        ensures { IfOk result (λ made. data_of made
            ≡ optional (cow_slice_items mask.entry) (data_of self.entry)) }
    {
        Ok(ArrayBytes::Optional(ArrayBytesOptional {
            data: Box::new(alloc, self)?,
            mask: Mask::new(mask),
        }))
    }

    /// The bytes of cells of one size.
    ///
    /// # Errors
    /// `ExpectedFixedLengthBytesError`: the data is not cells of one size.
    pub fn into_fixed(self) -> Result<CowSlice<'a, u8>, ExpectedFixedLengthBytesError>
        ensures bytes { IfOk result (λ bytes. data_of self.entry ≡ fixed (cow_slice_items bytes)) }
        ensures accepted { is_ok result ≡ is_fixed_data (data_of self.entry) }
    {
        match self {
            ArrayBytes::Fixed(bytes) => Ok(bytes),
            _ => Err(ExpectedFixedLengthBytesError),
        }
    }

    /// The byte strings of cells of any size.
    ///
    /// # Errors
    /// `ExpectedVariableLengthBytesError`: the data is not byte strings.
    pub fn into_variable(
        self,
    ) -> Result<ArrayBytesVariableLength<'a>, ExpectedVariableLengthBytesError>
        ensures strings { IfOk result (λ strings. data_of self.entry ≡ variable strings) }
        ensures accepted { is_ok result ≡ is_variable_data (data_of self.entry) }
    {
        match self {
            ArrayBytes::Variable(strings) => Ok(strings),
            _ => Err(ExpectedVariableLengthBytesError),
        }
    }

    /// The mask and the inner data of cells of an optional type.
    ///
    /// # Errors
    /// `ExpectedOptionalBytesError`: the data is not optional.
    pub fn into_optional(self) -> Result<ArrayBytesOptional<'a>, ExpectedOptionalBytesError>
        ensures parts { IfOk result (λ held. data_of self.entry ≡ optional_data held) }
        ensures accepted { is_ok result ≡ is_optional_data (data_of self.entry) }
    {
        match self {
            ArrayBytes::Optional(optional) => Ok(optional),
            _ => Err(ExpectedOptionalBytesError),
        }
    }

    /// The same data, owned.
    ///
    /// # Errors
    /// `AllocError`: out of memory.
    pub fn into_owned<'b>(self, alloc: Global) -> Result<ArrayBytes<'b>, AllocError>
        ensures { IfOk result (λ owned. data_of owned ≡ data_of self.entry) }
    {
        match self {
            ArrayBytes::Fixed(bytes) => {
                Ok(ArrayBytes::Fixed(CowSlice::Owned(owned_bytes(alloc, bytes)?)))
            }
            ArrayBytes::Variable(strings) => Ok(ArrayBytes::Variable(strings.into_owned(alloc)?)),
            ArrayBytes::Optional(optional) => {
                let ArrayBytesOptional { data, mask } = optional;
                let mask = mask.into_owned(alloc)?;
                let data = Box::into_inner(data).into_owned(alloc)?;
                Ok(ArrayBytes::Optional(ArrayBytesOptional {
                    data: Box::new(alloc, data)?,
                    mask,
                }))
            }
        }
    }
}

/// Makes bytes owned. Those that are lent are copied, all at once.
#[inline(always)]
pub fn owned_bytes(alloc: Global, bytes: CowSlice<'_, u8>) -> Result<Vec<u8>, AllocError>
    ensures { IfOk result (λ owned. owned.items ≡ cow_slice_items bytes.entry) }
{
    match bytes {
        CowSlice::Borrowed(lent) => Vec::from_slice(alloc, lent),
        CowSlice::Owned(owned) => Ok(owned),
    }
}

impl<'a> ArrayBytesOptional<'a> {
    /// The inner data under the mask. `ArrayBytes::validate` tests that the mask has a byte for each inner cell.
    ///
    /// # Errors
    /// `ExpectedOptionalBytesError`: a byte of the mask is above 1.
    pub fn new(
        inner: Box<ArrayBytes<'a>>,
        mask: CowSlice<'a, u8>,
    ) -> Result<ArrayBytesOptional<'a>, ExpectedOptionalBytesError>
        ensures made { IfOk result (λ made. optional_data made
            ≡ optional (cow_slice_items mask.entry) (data_of inner.entry.value)) }
        ensures accepted { IsOk result ↔ All (λ flag. flag < 2) (cow_slice_items mask.entry) }
    {
        if !are_flags(mask.as_slice()) {
            return Err(ExpectedOptionalBytesError);
        }
        Ok(ArrayBytesOptional {
            data: inner,
            mask: Mask::new(mask),
        })
    }

    /// The inner data.
    pub fn data(&self) -> &ArrayBytes<'a>
        ensures { data_of result.now ≡ inner_data self.now }
    {
        &self.data
    }

    /// The mask: a byte for each cell, 0 for none and 1 for some.
    pub fn mask(&self) -> &[u8]
        ensures mask { result.now ≡ mask_of self.now }
        ensures flags { All (λ flag. flag < 2) result.now }
    {
        self.mask.as_slice()
    }
}
