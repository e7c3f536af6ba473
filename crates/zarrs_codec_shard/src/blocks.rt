//! The cells of a box, put behind a list of bytes one block of rows after another.
ghost use Rattle.std.specs.Prelude.{◌≡◌, ℕ, ◌+◌, ◌*◌, ◌<◌, ◌≤◌, ◌++◌, List, IfErr, IfOk, length, slice_index};
ghost use Rattle.zarrs_subset.specs.Regions.{LiesInBox, box_from, box_of, IsLong};
ghost use Rattle.zarrs_subset.specs.Boxes.{position_count};
ghost use Rattle.zarrs_codec_shard.specs.Blocks.{rows_of, AddsCells};

use std::alloc::{AllocError, Global};
use zarrs_subset::{ArraySubset, element_count, place_part};

/// A block has so many bytes at most, or one row, so that its zeros are still in the nearest cache when the cells are
/// written over them.
const BLOCK_LEN: u64 = 8192;

/// Puts the cells of one size at the positions of the box of this shape at `corner`, of an array over `held_box`, behind
/// the bytes.
///
/// # Errors
/// `AllocError`: out of memory; the bytes are as they were.
pub(crate) fn append_cells(
    alloc: Global,
    made: &mut Vec<u8>,
    bytes: &[u8],
    size: usize,
    held_box: &ArraySubset,
    corner: &[u64],
    shape: &[u64],
) -> Result<(), AllocError>
    requires positive { 0 < size }
    requires held_len { length bytes.now ≡ position_count (box_of held_box.now).shape * size }
    requires long { IsLong (box_from corner.now shape.now) }
    requires inside { LiesInBox (box_from corner.now shape.now) (box_of held_box.now) }
    ensures added { IfOk result (λ _. AddsCells size (box_of held_box.now) bytes.now
        (box_from corner.now shape.now) made.old.items made.new.items) }
    ensures refused { IfErr result (λ _. made.new.items ≡ made.old.items) }
{
    if shape.len() != 2 {
        let corner = Vec::from_slice(alloc, corner)?;
        let subset = ArraySubset::new(corner, Vec::from_slice(alloc, shape)?);
        return append_subset(alloc, made, bytes, size, held_box, &subset);
    }
    let len = made.len();
    let appended = append_rows(made, bytes, size, held_box, corner, shape);
    if appended.is_err() {
        made.truncate(len);
    }
    appended
}

/// The same of a box of any number of dimensions.
fn append_subset(
    alloc: Global,
    made: &mut Vec<u8>,
    bytes: &[u8],
    size: usize,
    held_box: &ArraySubset,
    subset: &ArraySubset,
) -> Result<(), AllocError>
    requires positive { 0 < size }
    requires held_len { length bytes.now ≡ position_count (box_of held_box.now).shape * size }
    requires inside { LiesInBox (box_of subset.now) (box_of held_box.now) }
    ensures added { IfOk result (λ _. AddsCells size (box_of held_box.now) bytes.now
        (box_of subset.now) made.old.items made.new.items) }
    ensures refused { IfErr result (λ _. made.new.items ≡ made.old.items) }
{
    if is_one_block(subset.shape(), size) {
        return append_block(made, bytes, size, held_box, subset);
    }
    let len = made.len();
    let appended = append_blocks(alloc, made, bytes, size, held_box, subset);
    if appended.is_err() {
        made.truncate(len);
    }
    appended
}

/// The same of a box of two dimensions, row after row, but after a refusal some of the cells may stand behind the bytes.
fn append_rows(
    made: &mut Vec<u8>,
    bytes: &[u8],
    size: usize,
    held_box: &ArraySubset,
    corner: &[u64],
    shape: &[u64],
) -> Result<(), AllocError>
    requires positive { 0 < size }
    requires held_len { length bytes.now ≡ position_count (box_of held_box.now).shape * size }
    requires long { IsLong (box_from corner.now shape.now) }
    requires inside { LiesInBox (box_from corner.now shape.now) (box_of held_box.now) }
    requires plane { length corner.now ≡ 2 }
    ensures added { IfOk result (λ _. AddsCells size (box_of held_box.now) bytes.now
        (box_from corner.now shape.now) made.old.items made.new.items) }
    ensures refused { IfErr result
        (λ _. (more : List ℕ) × (made.new.items ≡ made.old.items ++ more)) }
{
    let rows = shape[0] as usize;
    // A row of an array without cells may have more bytes than a `usize` counts.
    if rows == 0 {
        return Ok(());
    }
    let held_start = held_box.start();
    let width = held_box.shape()[1];
    let cell = (corner[0] - held_start[0]) * width + (corner[1] - held_start[1]);
    let first = cell as usize * size;
    let stride = width as usize * size;
    let len = shape[1] as usize * size;
    for row in 0..rows {
        let from = first + row * stride;
        made.extend_from_slice(&bytes[from..from + len])?;
    }
    Ok(())
}

/// The same, but after a refusal some of the cells may stand behind the bytes.
fn append_blocks(
    alloc: Global,
    made: &mut Vec<u8>,
    bytes: &[u8],
    size: usize,
    held_box: &ArraySubset,
    subset: &ArraySubset,
) -> Result<(), AllocError>
    requires positive { 0 < size }
    requires held_len { length bytes.now ≡ position_count (box_of held_box.now).shape * size }
    requires inside { LiesInBox (box_of subset.now) (box_of held_box.now) }
    ensures added { IfOk result (λ _. AddsCells size (box_of held_box.now) bytes.now
        (box_of subset.now) made.old.items made.new.items) }
    ensures refused { IfErr result
        (λ _. (more : List ℕ) × (made.new.items ≡ made.old.items ++ more)) }
{
    if subset.shape().is_empty() {
        return append_block(made, bytes, size, held_box, subset);
    }
    let rows = subset.shape()[0];
    let step = rows_in_block(subset.shape(), size);
    let mut done = 0;
    while done < rows {
        let count = step.min(rows - done);
        let block = rows_of(alloc, subset, done, count)?;
        append_block(made, bytes, size, held_box, &block)?;
        done += count;
    }
    Ok(())
}

/// The same of one block, which is filled with zeros first.
fn append_block(
    made: &mut Vec<u8>,
    bytes: &[u8],
    size: usize,
    held_box: &ArraySubset,
    subset: &ArraySubset,
) -> Result<(), AllocError>
    requires positive { 0 < size }
    requires held_len { length bytes.now ≡ position_count (box_of held_box.now).shape * size }
    requires inside { LiesInBox (box_of subset.now) (box_of held_box.now) }
    ensures added { IfOk result (λ _. AddsCells size (box_of held_box.now) bytes.now
        (box_of subset.now) made.old.items made.new.items) }
    ensures refused { IfErr result (λ _. made.new.items ≡ made.old.items) }
{
    let Ok(count) = subset.num_elements() else {
        unreachable!()
    };
    let len = count as usize * size;
    made.try_reserve(len)?;
    let start = made.len();
    made.resize(start + len, 0)?;
    place_part(subset, &mut made[start..], held_box, bytes, size);
    Ok(())
}

/// Whether all cells of a box of this shape are a block.
fn is_one_block(shape: &[u64], size: usize) -> bool {
    let count = element_count(shape).unwrap_or(u64::MAX);
    count.saturating_mul(size as u64) <= BLOCK_LEN
}

/// How many rows a block has, of a box of this shape: one at least.
fn rows_in_block(shape: &[u64], size: usize) -> u64
    requires { 0 < length shape.now }
    ensures { 0 < result }
{
    let row = element_count(&shape[1..]).unwrap_or(u64::MAX);
    let row_len = row.saturating_mul(size as u64);
    (BLOCK_LEN / row_len.max(1)).max(1)
}

/// `count` rows of a box, from row `first` on.
fn rows_of(
    alloc: Global,
    subset: &ArraySubset,
    first: u64,
    count: u64,
) -> Result<ArraySubset, AllocError>
    requires dimensions { 0 < length (box_of subset.now).shape }
    requires within { first + count ≤ slice_index (box_of subset.now).shape 0 }
    ensures { IfOk result (λ rows. box_of rows ≡ rows_of (box_of subset.now) first count) }
{
    let mut start = Vec::from_slice(alloc, subset.start())?;
    let mut shape = Vec::from_slice(alloc, subset.shape())?;
    start[0] += first;
    shape[0] = count;
    Ok(ArraySubset::new(start, shape))
}
