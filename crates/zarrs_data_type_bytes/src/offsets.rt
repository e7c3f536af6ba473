//! Offsets that cut bytes into byte strings.
ghost use Rattle.std.specs.Prelude.{◌≡◌, ◌↔◌, IfOk, IsOk, IsTrue};
ghost use Rattle.std.specs.Cow.{cow_slice_items};
ghost use Rattle.zarrs_data_type_bytes.specs.Offsets.{AreOffsets};

use crate::error::ExpectedVariableLengthBytesError;
use std::alloc::{AllocError, Global};
use std::borrow::CowSlice;
use std::marker::Model;

/// Offsets that start at 0 and do not fall. Contracts see their list.
#[derive(Debug, Drop)]
pub struct ArrayBytesOffsets<'a> {
    offsets: CowSlice<'a, usize>,
}

impl<'a> Model for ArrayBytesOffsets<'a> {
    ghost use Rattle.std.specs.Prelude.{ℕ, List};
    ghost use Rattle.std.specs.Cow.{cow_slice_items};
    ghost use Rattle.zarrs_data_type_bytes.specs.Offsets.{AreOffsets};

    ghost Value = { List ℕ };

    ghost view = { λ o. cow_slice_items o.offsets };

    ghost invariant = { λ o. AreOffsets (cow_slice_items o.offsets) };
}

impl<'a> ArrayBytesOffsets<'a> {
    /// These offsets.
    ///
    /// # Errors
    /// `ExpectedVariableLengthBytesError`: there is no offset, the first one is not 0, or one is below the one before
    /// it.
    pub fn new(
        offsets: CowSlice<'a, usize>,
    ) -> Result<ArrayBytesOffsets<'a>, ExpectedVariableLengthBytesError>
        ensures made { IfOk result (λ made. made ≡ cow_slice_items offsets.entry) }
        ensures accepted { IsOk result ↔ AreOffsets (cow_slice_items offsets.entry) }
    {
        if !are_offsets(offsets.as_slice()) {
            return Err(ExpectedVariableLengthBytesError);
        }
        Ok(ArrayBytesOffsets { offsets })
    }

    /// These offsets, which are known to start at 0 and not to fall.
    pub(crate) fn from_checked(offsets: Vec<usize>) -> ArrayBytesOffsets<'static>
        requires { AreOffsets offsets.items }
        ensures { result ≡ offsets.items }
    {
        ArrayBytesOffsets {
            offsets: CowSlice::Owned(offsets),
        }
    }

    /// The offsets.
    pub fn as_slice(&self) -> &[usize]
        ensures offsets { result.now ≡ self.now }
        ensures rising { AreOffsets self.now }
    {
        self.offsets.as_slice()
    }

    /// The same offsets, owned.
    ///
    /// # Errors
    /// `AllocError`: out of memory.
    pub fn into_owned<'b>(self, alloc: Global) -> Result<ArrayBytesOffsets<'b>, AllocError>
        ensures { IfOk result (λ owned. owned ≡ self.entry) }
    {
        Ok(ArrayBytesOffsets {
            offsets: CowSlice::Owned(self.offsets.into_owned(alloc)?),
        })
    }
}

/// Whether the numbers start at 0 and do not fall.
fn are_offsets(numbers: &[usize]) -> bool
    ensures { IsTrue result ↔ AreOffsets numbers.now }
{
    if numbers.is_empty() {
        return false;
    }
    numbers[0] == 0 && numbers.is_sorted()
}
