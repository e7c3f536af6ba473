//! Where subchunks start.
ghost use Rattle.std.specs.Prelude.{◌≡◌, ℕ, ◌*◌, ◌<◌, ◌^◌, IfOk, length, slice_index};
ghost use Rattle.zarrs_codec_shard.specs.Subchunks.{corner, quotients};
ghost use Rattle.zarrs_subset.specs.Boxes.{position_count, unravel};

use smallvec::SmallVec;
use std::alloc::{AllocError, Global};
use zarrs_subset::ArrayIndicesTinyVec;

/// Where the subchunk of this number starts, of subchunks of the shape `sub`, of which `grid` lie along each dimension.
/// Nothing is allocated up to four dimensions.
///
/// # Errors
/// `AllocError`: out of memory, at more than four dimensions.
#[inline]
pub(crate) fn tiny_corner(
    alloc: Global,
    sub: &[u64],
    grid: &[u64],
    number: u64,
) -> Result<ArrayIndicesTinyVec, AllocError>
    requires dimensions { length sub.now ≡ length grid.now }
    requires ends { (k : ℕ) → slice_index grid.now k * slice_index sub.now k < 2 ^ 64 }
    requires number { number < position_count grid.now }
    ensures { IfOk result (λ start. start.items ≡ corner sub.now (unravel grid.now number)) }
{
    let mut start = SmallVec::from_slice(alloc, sub)?;
    scale_by_index(start.as_mut_slice(), grid, number);
    Ok(start)
}

/// The same, as a list that may grow.
///
/// # Errors
/// `AllocError`: out of memory.
pub(crate) fn corner_list(
    alloc: Global,
    sub: &[u64],
    grid: &[u64],
    number: u64,
) -> Result<Vec<u64>, AllocError>
    requires dimensions { length sub.now ≡ length grid.now }
    requires ends { (k : ℕ) → slice_index grid.now k * slice_index sub.now k < 2 ^ 64 }
    requires number { number < position_count grid.now }
    ensures { IfOk result (λ start. start.items ≡ corner sub.now (unravel grid.now number)) }
{
    let mut start = Vec::from_slice(alloc, sub)?;
    scale_by_index(&mut start, grid, number);
    Ok(start)
}

/// Multiplies the extents of subchunks, of which `grid` lie along each dimension, by the indices of the one of this
/// number.
#[inline]
fn scale_by_index(extents: &mut [u64], grid: &[u64], number: u64)
    requires dimensions { length extents.old ≡ length grid.now }
    requires ends { (k : ℕ) → slice_index grid.now k * slice_index extents.old k < 2 ^ 64 }
    requires number { number < position_count grid.now }
    ensures { extents.new ≡ corner extents.old (unravel grid.now number) }
{
    let mut rest = number;
    let mut axis = grid.len();
    while axis > 0 {
        axis -= 1;
        extents[axis] *= rest % grid[axis];
        rest /= grid[axis];
    }
}

/// Each number by the extent of a subchunk along its dimension: of a chunk's shape how many subchunks lie along each
/// dimension, of a position the indices of the subchunk that has it. Nothing is allocated up to four dimensions.
///
/// # Errors
/// `AllocError`: out of memory, at more than four dimensions.
#[inline]
pub(crate) fn tiny_quotients(
    alloc: Global,
    numbers: &[u64],
    sub: &[u64],
) -> Result<ArrayIndicesTinyVec, AllocError>
    requires dimensions { length numbers.now ≡ length sub.now }
    requires some { (k : ℕ) → k < length sub.now → 0 < slice_index sub.now k }
    ensures { IfOk result (λ made. made.items ≡ quotients numbers.now sub.now) }
{
    let mut made = SmallVec::with_capacity(alloc, sub.len())?;
    for axis in 0..sub.len() {
        made.push_reserved(numbers[axis] / sub[axis]);
    }
    Ok(made)
}

/// Multiplies each index of a subchunk by the extent of a subchunk along its dimension.
#[inline]
pub(crate) fn scale(indices: &mut [u64], sub: &[u64])
    requires dimensions { length indices.old ≡ length sub.now }
    requires ends { (k : ℕ) → k < length sub.now
        → slice_index indices.old k * slice_index sub.now k < 2 ^ 64 }
    ensures { indices.new ≡ corner sub.now indices.old }
{
    for axis in 0..sub.len() {
        indices[axis] *= sub[axis];
    }
}
