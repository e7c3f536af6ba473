//! Byte strings over a box, which lie among bytes that grow.
ghost use Rattle.std.specs.Prelude.{◌≡◌, ◌+◌, ◌<◌, ◌^◌, IfOk, length, map, replicate, sum_by, take};
ghost use Rattle.std.specs.List.{range_with_len};
ghost use Rattle.zarrs_data_type_bytes.specs.Parts.{TakesAt};
ghost use Rattle.zarrs_data_type_bytes.specs.Places.{ArePlaces, offsets_from, placed_strings, string_of};
ghost use Rattle.zarrs_subset.specs.Boxes.{position_count};
ghost use Rattle.zarrs_subset.specs.Regions.{box_of};
ghost use Rattle.zarrs_data_type_bytes.specs.Offsets.{joined};

use crate::numbers::Numbers;
use crate::offsets::ArrayBytesOffsets;
use crate::string_boxes::extract_strings;
use crate::variable::ArrayBytesVariableLength;
use std::alloc::{AllocError, Global};
use std::borrow::CowSlice;
use std::marker::Model;
use zarrs_subset::{ArraySubset, lies_in_box};

/// A byte string for each position of a box, in row-major order: where it starts among the bytes, and its length.
/// Those of a part are put behind the bytes, and no byte moves. Contracts see the list of the byte strings.
#[derive(Debug, Drop)]
pub struct PlacedStrings {
    bytes: Vec<u8>,
    starts: Numbers,
    lens: Numbers,
}

impl Model for PlacedStrings {
    ghost use Rattle.std.specs.Prelude.{ℕ, List};
    ghost use Rattle.zarrs_data_type_bytes.specs.Places.{ArePlaces, placed_strings};

    ghost Value = { List (List ℕ) };

    ghost view = { λ p. placed_strings p.bytes.items p.starts p.lens };

    ghost invariant = { λ p. ArePlaces p.bytes.items p.starts p.lens };
}

impl PlacedStrings {
    /// These byte strings, with room for so many bytes more.
    pub(crate) fn with_room(
        alloc: Global,
        strings: &ArrayBytesVariableLength<'_>,
        room: usize,
    ) -> Result<PlacedStrings, AllocError>
        ensures { IfOk result (λ made. made ≡ strings.now) }
    {
        let given = strings.bytes();
        let mut bytes = Vec::with_capacity(alloc, given.len().saturating_add(room))?;
        bytes.extend_from_slice(given)?;
        let starts = starts_from(alloc, 0, strings)?;
        let lens = lens_of(alloc, strings)?;
        Ok(PlacedStrings {
            bytes,
            starts,
            lens,
        })
    }

    /// The byte string, `count` times.
    ///
    /// # Errors
    /// `AllocError`: out of memory.
    pub fn repeated(alloc: Global, string: &[u8], count: usize) -> Result<PlacedStrings, AllocError>
        ensures { IfOk result (λ made. made ≡ replicate count string.now) }
    {
        let bytes = Vec::from_slice(alloc, string)?;
        let starts = Numbers::repeated(alloc, 0, count)?;
        let lens = Numbers::repeated(alloc, string.len() as u64, count)?;
        Ok(PlacedStrings {
            bytes,
            starts,
            lens,
        })
    }

    /// These byte strings, over `held_box`, with those of `part` at the positions that both boxes have.
    ///
    /// # Errors
    /// `AllocError`: out of memory.
    pub fn with_part(
        self,
        alloc: Global,
        held_box: &ArraySubset,
        part: &ArrayBytesVariableLength<'_>,
        part_box: &ArraySubset,
    ) -> Result<PlacedStrings, AllocError>
        requires dimensions { length (box_of held_box.now).start
            ≡ length (box_of part_box.now).start }
        requires held_len { length self ≡ position_count (box_of held_box.now).shape }
        requires part_len { length part.now ≡ position_count (box_of part_box.now).shape }
        ensures len { IfOk result (λ made. length made
            ≡ position_count (box_of held_box.now).shape) }
        ensures strings { IfOk result (λ made. TakesAt (box_of held_box.now) (box_of part_box.now)
            (string_of part.now) (string_of self) (string_of made)) }
    {
        if lies_in_box(part_box, held_box) {
            return self.with_all(alloc, held_box, part, part_box);
        }
        let shared = held_box.shared_with(alloc, part_box)?;
        if shared.is_empty() {
            return Ok(self);
        }
        let inside = extract_strings(alloc, part, part_box, &shared)?;
        self.with_all(alloc, held_box, &inside, &shared)
    }

    /// The same. The byte strings that the box does not have take memory too.
    fn with_all(
        self,
        alloc: Global,
        held_box: &ArraySubset,
        part: &ArrayBytesVariableLength<'_>,
        part_box: &ArraySubset,
    ) -> Result<PlacedStrings, AllocError>
        requires dimensions { length (box_of held_box.now).start
            ≡ length (box_of part_box.now).start }
        requires held_len { length self ≡ position_count (box_of held_box.now).shape }
        requires part_len { length part.now ≡ position_count (box_of part_box.now).shape }
        ensures len { IfOk result (λ made. length made
            ≡ position_count (box_of held_box.now).shape) }
        ensures strings { IfOk result (λ made. TakesAt (box_of held_box.now) (box_of part_box.now)
            (string_of part.now) (string_of self) (string_of made)) }
    {
        let PlacedStrings {
            mut bytes,
            starts,
            lens,
        } = self;
        let from = bytes.len();
        bytes.extend_from_slice(part.bytes())?;
        let part_starts = starts_from(alloc, from, part)?;
        let part_lens = lens_of(alloc, part)?;
        Ok(PlacedStrings {
            bytes,
            starts: starts.with_part(held_box, &part_starts, part_box),
            lens: lens.with_part(held_box, &part_lens, part_box),
        })
    }

    /// The byte strings, one after another.
    ///
    /// # Errors
    /// `AllocError`: out of memory.
    pub fn into_strings(
        self,
        alloc: Global,
    ) -> Result<ArrayBytesVariableLength<'static>, AllocError>
        ensures { IfOk result (λ made. made ≡ self) }
    {
        let PlacedStrings {
            bytes,
            starts,
            lens,
        } = self;
        let offsets = offsets_from(alloc, &lens)?;
        let made = joined(alloc, bytes.as_slice(), &starts, &lens, offsets[lens.len()])?;
        let Ok(offsets) = ArrayBytesOffsets::new(CowSlice::Owned(offsets)) else {
            unreachable!()
        };
        let Ok(strings) = ArrayBytesVariableLength::new(CowSlice::Owned(made), offsets) else {
            unreachable!()
        };
        Ok(strings)
    }
}

/// Where byte strings of these lengths start if they stand one after another, and where the last one ends.
///
/// # Errors
/// `AllocError`: out of memory, as for more bytes than a `usize` counts.
fn offsets_from(alloc: Global, lens: &Numbers) -> Result<Vec<usize>, AllocError>
    ensures { IfOk result (λ made. made.items ≡ offsets_from lens.now) }
{
    let mut offsets = Vec::with_capacity(alloc, lens.len().saturating_add(1))?;
    offsets.push(0usize)?;
    let mut end = 0usize;
    for index in 0..lens.len() {
        let Some(next) = end.checked_add(lens.get(index) as usize) else {
            return Err(AllocError);
        };
        end = next;
        offsets.push(end)?;
    }
    Ok(offsets)
}

/// The byte strings that lie there among the bytes, put together, with room for `len` bytes. Those that follow each
/// other are one copy.
fn joined(
    alloc: Global,
    bytes: &[u8],
    starts: &Numbers,
    lens: &Numbers,
    len: usize,
) -> Result<Vec<u8>, AllocError>
    requires { ArePlaces bytes.now starts.now lens.now }
    ensures { IfOk result (λ made. made.items
        ≡ joined (placed_strings bytes.now starts.now lens.now)) }
{
    let mut made = Vec::with_capacity(alloc, len)?;
    let mut from = 0usize;
    let mut to = 0usize;
    for index in 0..starts.len() {
        let start = starts.get(index) as usize;
        if start != to {
            made.extend_from_slice(&bytes[from..to])?;
            from = start;
        }
        to = start + lens.get(index) as usize;
    }
    made.extend_from_slice(&bytes[from..to])?;
    Ok(made)
}

/// Where each byte string starts, if the first one starts at `from`.
fn starts_from(
    alloc: Global,
    from: usize,
    strings: &ArrayBytesVariableLength<'_>,
) -> Result<Numbers, AllocError>
    requires { from + sum_by length strings.now < 2 ^ 64 }
    ensures { IfOk result (λ made. made
        ≡ map (λ k. from + sum_by length (take k strings.now))
        (range_with_len 0 (length strings.now))) }
{
    let cuts = strings.offsets().as_slice();
    let count = strings.len();
    let mut starts = Numbers::with_room(alloc, count)?;
    for index in 0..count {
        starts.push((from + cuts[index]) as u64)?;
    }
    Ok(starts)
}

/// The length of each byte string.
fn lens_of(alloc: Global, strings: &ArrayBytesVariableLength<'_>) -> Result<Numbers, AllocError>
    ensures { IfOk result (λ made. made ≡ map length strings.now) }
{
    let cuts = strings.offsets().as_slice();
    let count = strings.len();
    let mut lens = Numbers::with_room(alloc, count)?;
    for index in 0..count {
        lens.push((cuts[index + 1] - cuts[index]) as u64)?;
    }
    Ok(lens)
}
