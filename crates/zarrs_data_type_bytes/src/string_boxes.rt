//! Parts of byte strings that are an array over a box.
ghost use Rattle.std.specs.Prelude.{◌≡◌, ◌<◌, ◌≤◌, ◌+◌, ◌^◌, ◌↔◌, ◌∷◌, ◌++◌, [], IfOk, IsTrue, OnOk};
ghost use Rattle.std.specs.Prelude.{drop, length, map, slice_index_or, Some, None, if◌then◌else◌};
ghost use Rattle.zarrs_data_type_bytes.specs.StringParts.{string_at, string_from};
ghost use Rattle.zarrs_subset.specs.Regions.{LiesInBox, box_from, box_of, in_box, place_in, positions};
ghost use Rattle.zarrs_subset.specs.Boxes.{position_count, positions_from};

use crate::variable::{ArrayBytesVariableLength, VariableLengthBuilder};
use std::alloc::{AllocError, Global};
use zarrs_subset::ArraySubset;

/// The byte strings at the positions of `subset`, of an array over `held_box`.
///
/// # Errors
/// `AllocError`: out of memory.
pub fn extract_strings(
    alloc: Global,
    strings: &ArrayBytesVariableLength<'_>,
    held_box: &ArraySubset,
    subset: &ArraySubset,
) -> Result<ArrayBytesVariableLength<'static>, AllocError>
    requires held_len { length strings.now ≡ position_count (box_of held_box.now).shape }
    requires inside { LiesInBox (box_of subset.now) (box_of held_box.now) }
    ensures { IfOk result (λ made. made
        ≡ map (string_at (box_of held_box.now) strings.now) (positions (box_of subset.now))) }
{
    if subset.is_empty() {
        return Ok(VariableLengthBuilder::new(alloc)?.finish());
    }
    let held = Extents::of(held_box);
    let part = Extents::of(subset);
    let count = strings.len();
    let room = match subset.num_elements() {
        Ok(room) => count.min(room as usize),
        Err(_) => count,
    };
    let len = box_len(strings, held, part, 0, count);
    let mut builder = VariableLengthBuilder::with_capacity(alloc, room, len)?;
    push_box(&mut builder, strings, held, part, 0, count)?;
    Ok(builder.finish())
}

/// A box: its first index and its extent in each dimension.
#[derive(Clone, Copy)]
struct Extents<'b> {
    start: &'b [u64],
    shape: &'b [u64],
}

impl<'b> Extents<'b> {
    fn of(subset: &'b ArraySubset) -> Extents<'b>
        ensures start { result.start.now ≡ (box_of subset.now).start }
        ensures shape { result.shape.now ≡ (box_of subset.now).shape }
        ensures long { length result.start.now ≡ length result.shape.now }
    {
        Extents {
            start: subset.start(),
            shape: subset.shape(),
        }
    }

    /// The dimensions after the first one.
    fn rest(&self) -> Extents<'b>
        requires start { 0 < length self.now.start.now }
        requires shape { 0 < length self.now.shape.now }
        ensures start { result.start.now ≡ drop 1 self.now.start.now }
        ensures shape { result.shape.now ≡ drop 1 self.now.shape.now }
    {
        Extents {
            start: &self.start[1..],
            shape: &self.shape[1..],
        }
    }
}

/// How many bytes the byte strings of a box have, for which room is made. The arguments are those of `push_box`.
fn box_len(
    strings: &ArrayBytesVariableLength<'_>,
    held: Extents<'_>,
    part: Extents<'_>,
    from: usize,
    count: usize,
) -> usize
    requires held_long { length held.start.now ≡ length held.shape.now }
    requires part_long { length part.start.now ≡ length part.shape.now }
    requires inside { LiesInBox (box_from part.start.now part.shape.now)
        (box_from held.start.now held.shape.now) }
    requires count { count ≡ position_count held.shape.now }
    requires room { from + count ≤ length strings.now }
    requires fits { length strings.now < 2 ^ 64 }
{
    if part.shape.is_empty() {
        return strings.range_len(from, 1);
    }
    let extent = part.shape[0] as usize;
    if extent == 0 {
        return 0;
    }
    let first = (part.start[0] - held.start[0]) as usize;
    if part.shape.len() == 1 {
        return strings.range_len(from + first, extent);
    }
    let block = count / held.shape[0] as usize;
    let (inner_held, inner_part) = (held.rest(), part.rest());
    let mut len = 0usize;
    for index in 0..extent {
        let inner_from = from + (first + index) * block;
        len = len.saturating_add(box_len(strings, inner_held, inner_part, inner_from, block));
    }
    len
}

/// Puts the byte strings of a box behind the others, row by row. `held`, in which it lies, has `count` positions, and
/// the byte string at the first of them has the number `from`.
fn push_box(
    builder: &mut VariableLengthBuilder,
    strings: &ArrayBytesVariableLength<'_>,
    held: Extents<'_>,
    part: Extents<'_>,
    from: usize,
    count: usize,
) -> Result<(), AllocError>
    requires held_long { length held.start.now ≡ length held.shape.now }
    requires part_long { length part.start.now ≡ length part.shape.now }
    requires inside { LiesInBox (box_from part.start.now part.shape.now)
        (box_from held.start.now held.shape.now) }
    requires count { count ≡ position_count held.shape.now }
    requires room { from + count ≤ length strings.now }
    requires fits { length strings.now < 2 ^ 64 }
    ensures { OnOk result (builder.new ≡ builder.old
        ++ map (string_from strings.now from held.entry.start.now held.entry.shape.now)
        (positions_from part.entry.start.now part.entry.shape.now)) }
{
    if part.shape.is_empty() {
        return builder.push_range(strings, from, 1);
    }
    let extent = part.shape[0] as usize;
    if extent == 0 {
        return Ok(());
    }
    let first = (part.start[0] - held.start[0]) as usize;
    if part.shape.len() == 1 {
        return builder.push_range(strings, from + first, extent);
    }
    let block = count / held.shape[0] as usize;
    let (inner_held, inner_part) = (held.rest(), part.rest());
    for index in 0..extent {
        let inner_from = from + (first + index) * block;
        push_box(builder, strings, inner_held, inner_part, inner_from, block)?;
    }
    Ok(())
}
