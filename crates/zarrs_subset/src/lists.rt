//! Lists of numbers of two arrays' coordinates, dimension by dimension.

ghost use Rattle.std.specs.Prelude.{◌≡◌, ℕ, ◌+◌, ◌-◌, ◌^◌, ◌<◌, ◌≤◌, ◌↔◌, length};
ghost use Rattle.std.specs.Prelude.{slice_index, IfOk, IsTrue, SomeIndex};
ghost use Rattle.zarrs_subset.specs.Boxes.{zip_with, without_ones};

use crate::{ArrayIndices, ArrayShape};
use std::alloc::{AllocError, Global};

/// Whether some extent is 0.
pub fn has_zero(extents: &[u64]) -> bool
    ensures { IsTrue result ↔ SomeIndex extents.now (λ k. slice_index extents.now k ≡ 0) }
{
    extents.iter().any(|extent| *extent == 0)
}

/// How far each number of `end` is above that of `start`, which is nowhere above it.
pub(crate) fn extents(end: ArrayIndices, start: &[u64]) -> ArrayShape
    requires same_length { length end.items ≡ length start.now }
    requires ordered { (k : ℕ) → k < length start.now → slice_index start.now k ≤ slice_index
        end.items k }
    ensures { result.items ≡ zip_with (λ e s. e - s) end.items start.now }
{
    let mut shape = end;
    for k in 0..start.len() {
        shape[k] -= start[k];
    }
    shape
}

/// The sums of numbers and of others, which fit `u64`.
pub(crate) fn shifted(numbers: ArrayIndices, others: &[u64]) -> ArrayIndices
    requires same_length { length numbers.items ≡ length others.now }
    requires fits { (k : ℕ) → k < length others.now → slice_index numbers.items k + slice_index
        others.now k < 2 ^ 64 }
    ensures { result.items ≡ zip_with (λ s t. s + t) numbers.items others.now }
{
    let mut sums = numbers;
    for k in 0..others.len() {
        sums[k] += others[k];
    }
    sums
}

/// The numbers, one for each dimension of the shape, except those of dimensions of extent 1.
///
/// A walk over an array calls itself once for each dimension that is left. There are fewer than 64 of them if the
/// array has a cell, and its cells can be counted.
///
/// # Errors
/// `AllocError`: out of memory.
pub fn without_ones(alloc: Global, shape: &[u64], numbers: &[u64]) -> Result<Vec<u64>, AllocError>
    requires { length shape.now ≡ length numbers.now }
    ensures { IfOk result (λ made. made.items ≡ without_ones shape.now numbers.now) }
{
    let mut made = Vec::new(alloc);
    for axis in 0..shape.len() {
        if shape[axis] != 1 {
            made.push(numbers[axis])?;
        }
    }
    Ok(made)
}
