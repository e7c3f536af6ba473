//! Masks of optional data.
ghost use Rattle.std.specs.Prelude.{◌≡◌, ◌<◌, All, IfOk, length, nat_lt, replicate, slice_index};
ghost use Rattle.std.specs.Cow.{cow_slice_items};
ghost use Rattle.std.specs.List.{list_all};
ghost use Rattle.zarrs_data_type_bytes.specs.Parts.{ExtractsAt, TakesAt};
ghost use Rattle.zarrs_subset.specs.Boxes.{position_count};
ghost use Rattle.zarrs_subset.specs.Regions.{box_of, LiesInBox};

use crate::array_bytes::owned_bytes;
use crate::boxes::{bytes_with_part, extract_bytes};
use std::alloc::{AllocError, Global};
use std::borrow::CowSlice;
use std::marker::Model;
use zarrs_subset::ArraySubset;

/// A byte for each cell: 0 if the cell is none, 1 if it is some. Contracts see the list of the bytes.
#[derive(Debug, Drop)]
pub struct Mask<'a> {
    bytes: CowSlice<'a, u8>,
}

impl<'a> Model for Mask<'a> {
    ghost use Rattle.std.specs.Prelude.{ℕ, ◌<◌, List, All};
    ghost use Rattle.std.specs.Cow.{cow_slice_items};

    ghost Value = { List ℕ };

    ghost view = { λ m. cow_slice_items m.bytes };

    ghost invariant = { λ m. All (λ byte. byte < 2) (cow_slice_items m.bytes) };
}

impl<'a> Mask<'a> {
    /// The mask of these bytes.
    pub(crate) fn new(bytes: CowSlice<'a, u8>) -> Mask<'a>
        requires { All (λ byte. byte < 2) (cow_slice_items bytes) }
        ensures { result ≡ cow_slice_items bytes.entry }
    {
        Mask { bytes }
    }

    /// The flag, `count` times.
    ///
    /// # Errors
    /// `AllocError`: out of memory.
    pub fn repeated(alloc: Global, flag: u8, count: usize) -> Result<Mask<'static>, AllocError>
        requires { flag < 2 }
        ensures { IfOk result (λ made. made ≡ replicate count flag) }
    {
        let bytes = vec![in alloc; flag; count]?;
        Ok(Mask {
            bytes: CowSlice::Owned(bytes),
        })
    }

    /// The bytes.
    pub fn into_bytes(self) -> CowSlice<'a, u8>
        ensures bytes { cow_slice_items result ≡ self.entry }
        ensures flags { All (λ byte. byte < 2) (cow_slice_items result) }
    {
        self.bytes
    }

    pub(crate) fn as_slice(&self) -> &[u8]
        ensures bytes { result.now ≡ self.now }
        ensures flags { All (λ byte. byte < 2) self.now }
    {
        self.bytes.as_slice()
    }

    /// The same mask, owned.
    pub(crate) fn into_owned<'b>(self, alloc: Global) -> Result<Mask<'b>, AllocError>
        ensures { IfOk result (λ owned. owned ≡ self.entry) }
    {
        Ok(Mask {
            bytes: CowSlice::Owned(owned_bytes(alloc, self.bytes)?),
        })
    }

    /// This mask, an array over `held_box`, with the flags of `part` at the positions that both boxes have.
    ///
    /// # Errors
    /// `AllocError`: out of memory.
    pub fn with_part(
        self,
        alloc: Global,
        held_box: &ArraySubset,
        part: &[u8],
        part_box: &ArraySubset,
    ) -> Result<Mask<'static>, AllocError>
        requires dimensions { length (box_of held_box.now).start
            ≡ length (box_of part_box.now).start }
        requires held_len { length self ≡ position_count (box_of held_box.now).shape }
        requires part_len { length part.now ≡ position_count (box_of part_box.now).shape }
        requires flags { All (λ flag. flag < 2) part.now }
        ensures len { IfOk result (λ made. length made
            ≡ position_count (box_of held_box.now).shape) }
        ensures flags { IfOk result (λ made. TakesAt (box_of held_box.now) (box_of part_box.now)
            (slice_index part.now) (slice_index self.entry) (slice_index made)) }
    {
        let bytes = owned_bytes(alloc, self.bytes)?;
        let made = bytes_with_part(bytes, 1, held_box, part, part_box);
        Ok(Mask::new(CowSlice::Owned(made)))
    }

    /// The flags at the positions of `subset`, of a mask that is an array over `held_box`.
    pub(crate) fn extract(
        &self,
        alloc: Global,
        held_box: &ArraySubset,
        subset: &ArraySubset,
    ) -> Result<Mask<'static>, AllocError>
        requires held_len { length self.now ≡ position_count (box_of held_box.now).shape }
        requires inside { LiesInBox (box_of subset.now) (box_of held_box.now) }
        ensures len { IfOk result (λ made. length made ≡ position_count (box_of subset.now).shape) }
        ensures flags { IfOk result (λ made. ExtractsAt (box_of held_box.now) (slice_index self.now)
            (box_of subset.now) (slice_index made)) }
    {
        let made = extract_bytes(alloc, self.as_slice(), 1, held_box, subset)?;
        Ok(Mask::new(CowSlice::Owned(made)))
    }
}

/// Whether each byte is 0 or 1. It never stops early, so that the compiler tests many bytes at a time.
pub fn are_flags(bytes: &[u8]) -> bool
    ensures { result ≡ list_all (λ byte. nat_lt byte 2) bytes.now }
{
    let mut fine = true;
    for byte in bytes {
        fine &= *byte < 2;
    }
    fine
}
