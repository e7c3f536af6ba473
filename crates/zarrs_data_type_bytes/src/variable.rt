//! Byte strings of any length.
ghost use Rattle.std.specs.Prelude.{◌≡◌, ◌↔◌, ◌==◌, ◌<◌, ◌≤◌, ◌+◌, ◌-◌, ◌^◌, [], ◌∷◌, ◌++◌, All};
ghost use Rattle.std.specs.Prelude.{IfOk, OnOk, OnErr, IsOk, length, map, slice_index};
ghost use Rattle.std.specs.Prelude.{slice_index_or, slice_range, sum_by, vec_capacity};
ghost use Rattle.std.specs.Cow.{cow_slice_items};
ghost use Rattle.std.specs.List.{list_all};
ghost use Rattle.std.specs.Str.{is_utf8};
ghost use Rattle.zarrs_data_type_bytes.specs.Offsets.{AreCuts, byte_strings, joined, last_offset, offsets_of};

use crate::array_bytes::owned_bytes;
use crate::error::ExpectedVariableLengthBytesError;
use crate::offsets::ArrayBytesOffsets;
use crate::texts::{are_ascii, is_text};
use std::alloc::{AllocError, Global};
use std::borrow::CowSlice;
use std::marker::Model;

/// Byte strings: one run of bytes, and the offsets that cut it. The last offset is the length of the bytes.
/// Contracts see the list of the byte strings.
#[derive(Debug, Drop)]
pub struct ArrayBytesVariableLength<'a> {
    bytes: CowSlice<'a, u8>,
    offsets: ArrayBytesOffsets<'a>,
}

impl<'a> Model for ArrayBytesVariableLength<'a> {
    ghost use Rattle.std.specs.Prelude.{ℕ, List};
    ghost use Rattle.std.specs.Cow.{cow_slice_items};
    ghost use Rattle.zarrs_data_type_bytes.specs.Offsets.{AreCuts, byte_strings};

    ghost Value = { List (List ℕ) };

    ghost view = { λ v. byte_strings v.offsets (cow_slice_items v.bytes) };

    ghost invariant = { λ v. AreCuts v.offsets (cow_slice_items v.bytes) };
}

impl<'a> ArrayBytesVariableLength<'a> {
    /// The byte strings that the offsets cut from the bytes.
    ///
    /// # Errors
    /// `ExpectedVariableLengthBytesError`: the last offset is not the length of the bytes.
    pub fn new(
        bytes: CowSlice<'a, u8>,
        offsets: ArrayBytesOffsets<'a>,
    ) -> Result<ArrayBytesVariableLength<'a>, ExpectedVariableLengthBytesError>
        ensures made { IfOk result (λ made. made
            ≡ byte_strings offsets.entry (cow_slice_items bytes.entry)) }
        ensures accepted { IsOk result ↔ (last_offset offsets.entry
            ≡ length (cow_slice_items bytes.entry)) }
    {
        let numbers = offsets.as_slice();
        if numbers[numbers.len() - 1] != bytes.as_slice().len() {
            return Err(ExpectedVariableLengthBytesError);
        }
        Ok(ArrayBytesVariableLength { bytes, offsets })
    }

    /// The bytes of all byte strings, one after another.
    pub fn bytes(&self) -> &[u8]
        ensures { result.now ≡ joined self.now }
    {
        self.bytes.as_slice()
    }

    /// Where each byte string starts, and where the last one ends.
    pub fn offsets(&self) -> &ArrayBytesOffsets<'a>
        ensures { result.now ≡ offsets_of self.now }
    {
        &self.offsets
    }

    /// The number of byte strings.
    #[tactic(auto, using(crate::proofs::ByteStrings::length_strings))]
    pub fn len(&self) -> usize
        ensures { result ≡ length self.now }
    {
        self.offsets.as_slice().len() - 1
    }

    /// Whether there is no byte string.
    pub fn is_empty(&self) -> bool
        ensures { result ≡ (length self.now == 0) }
    {
        self.len() == 0
    }

    /// The byte string of this number.
    #[tactic(auto, using(crate::proofs::ByteStrings::length_strings, crate::proofs::ByteStrings::strings_at))]
    pub fn get(&self, index: usize) -> &[u8]
        requires { index < length self.now }
        ensures { result.now ≡ slice_index_or self.now index [] }
    {
        cut(self.offsets.as_slice(), self.bytes.as_slice(), index)
    }

    /// Whether each byte string is UTF-8. If all bytes are ASCII, no byte string is tested by itself.
    pub fn are_utf8(&self) -> bool
        ensures { result ≡ list_all is_utf8 self.now }
    {
        if are_ascii(self.bytes()) {
            return true;
        }
        for index in 0..self.len() {
            if !is_text(self.get(index)) {
                return false;
            }
        }
        true
    }

    /// How many bytes `count` byte strings from number `from` on have.
    #[tactic(auto, using(crate::proofs::ByteStrings::length_strings))]
    pub(crate) fn range_len(&self, from: usize, count: usize) -> usize
        requires { from + count ≤ length self.now }
        ensures { result ≡ sum_by length (slice_range self.now from (from + count)) }
    {
        let cuts = self.offsets.as_slice();
        cuts[from + count] - cuts[from]
    }

    /// The same byte strings, owned.
    ///
    /// # Errors
    /// `AllocError`: out of memory.
    pub fn into_owned<'b>(self, alloc: Global) -> Result<ArrayBytesVariableLength<'b>, AllocError>
        ensures { IfOk result (λ owned. owned ≡ self.entry) }
    {
        let ArrayBytesVariableLength { bytes, offsets } = self;
        let offsets = offsets.into_owned(alloc)?;
        Ok(ArrayBytesVariableLength {
            bytes: CowSlice::Owned(owned_bytes(alloc, bytes)?),
            offsets,
        })
    }
}

/// The bytes between two neighbouring offsets.
fn cut<'b>(offsets: &[usize], bytes: &'b [u8], index: usize) -> &'b [u8]
    requires cuts { AreCuts offsets.now bytes.now }
    requires below { index + 1 < length offsets.now }
    ensures { result.now ≡ slice_range bytes.now (slice_index offsets.now index)
        (slice_index offsets.now (index + 1)) }
{
    &bytes[offsets[index]..offsets[index + 1]]
}

/// Byte strings that are put one after another. Contracts see their list.
#[derive(Debug, Drop)]
pub struct VariableLengthBuilder {
    bytes: Vec<u8>,
    offsets: Vec<usize>,
}

impl Model for VariableLengthBuilder {
    ghost use Rattle.std.specs.Prelude.{ℕ, List};
    ghost use Rattle.zarrs_data_type_bytes.specs.Offsets.{AreCuts, byte_strings};

    ghost Value = { List (List ℕ) };

    ghost view = { λ v. byte_strings v.offsets.items v.bytes.items };

    ghost invariant = { λ v. AreCuts v.offsets.items v.bytes.items };
}

impl VariableLengthBuilder {
    /// No byte strings.
    ///
    /// # Errors
    /// `AllocError`: out of memory.
    pub fn new(alloc: Global) -> Result<VariableLengthBuilder, AllocError>
        ensures { IfOk result (λ builder. builder ≡ []) }
    {
        VariableLengthBuilder::with_capacity(alloc, 0, 0)
    }

    /// No byte strings, with room for `count` of them, of `len` bytes together.
    ///
    /// # Errors
    /// `AllocError`: out of memory.
    pub fn with_capacity(
        alloc: Global,
        count: usize,
        len: usize,
    ) -> Result<VariableLengthBuilder, AllocError>
        ensures { IfOk result (λ builder. builder ≡ []) }
    {
        let bytes = Vec::with_capacity(alloc, len)?;
        let mut offsets = Vec::with_capacity(alloc, count.saturating_add(1))?;
        offsets.push(0)?;
        Ok(VariableLengthBuilder { bytes, offsets })
    }

    /// Appends a byte string.
    ///
    /// # Errors
    /// `AllocError`: out of memory. The builder is then as it was.
    pub fn push(&mut self, string: &[u8]) -> Result<(), AllocError>
        ensures pushed { OnOk result (self.new ≡ self.old ++ string.now ∷ []) }
        ensures kept { OnErr result (self.new ≡ self.old) }
    {
        self.offsets.reserve(1)?;
        self.bytes.extend_from_slice(string)?;
        self.offsets.push_reserved(self.bytes.len());
        Ok(())
    }

    /// Appends `count` byte strings of `strings`, from number `from` on.
    ///
    /// # Errors
    /// `AllocError`: out of memory. The builder is then as it was.
    #[tactic(auto, using(crate::proofs::ByteStrings::length_strings))]
    pub fn push_range(
        &mut self,
        strings: &ArrayBytesVariableLength<'_>,
        from: usize,
        count: usize,
    ) -> Result<(), AllocError>
        requires { from + count ≤ length strings.now }
        ensures pushed { OnOk result (self.new ≡ self.old
            ++ slice_range strings.now from (from + count)) }
        ensures kept { OnErr result (self.new ≡ self.old) }
    {
        let cuts = strings.offsets.as_slice();
        let (first, last) = (cuts[from], cuts[from + count]);
        self.offsets.reserve(count)?;
        let base = self.bytes.len();
        self.bytes
            .extend_from_slice(&strings.bytes.as_slice()[first..last])?;
        push_moved(
            &mut self.offsets,
            &cuts[from + 1..from + count + 1],
            first,
            base,
        );
        Ok(())
    }

    /// The byte strings.
    pub fn finish(self) -> ArrayBytesVariableLength<'static>
        ensures { result ≡ self }
    {
        let VariableLengthBuilder { bytes, offsets } = self;
        ArrayBytesVariableLength {
            bytes: CowSlice::Owned(bytes),
            offsets: ArrayBytesOffsets::from_checked(offsets),
        }
    }
}

/// Appends the numbers, moved so that `from` becomes `to`.
fn push_moved(numbers: &mut Vec<usize>, more: &[usize], from: usize, to: usize)
    requires above { All (λ number. from ≤ number) more.now }
    requires fits { All (λ number. to + (number - from) < 2 ^ 64) more.now }
    requires room { length numbers.old.items + length more.now ≤ vec_capacity numbers.old }
    ensures { numbers.new.items ≡ numbers.old.items ++ map (λ number. to + (number - from)) more.now }
{
    for number in more {
        numbers.push_reserved(to + (*number - from));
    }
}
