//! Positions and their row-major numbers.

ghost use Rattle.std.specs.Prelude.{◌≡◌, ◌<◌, ◌≤◌, ◌^◌, IfOk, MatchOption};
ghost use Rattle.zarrs_subset.specs.Boxes.{position_count, InShape, place};

use crate::ArrayIndices;
use crate::lists::has_zero;
use std::alloc::{AllocError, Global};

/// The number of positions of an array of this shape, the product of its extents, if that fits `u64`.
pub fn element_count(shape: &[u64]) -> Option<u64>
    ensures { MatchOption result (2 ^ 64 ≤ position_count shape.now)
        (λ n. n ≡ position_count shape.now) }
{
    if has_zero(shape) {
        return Some(0);
    }
    let mut count: u64 = 1;
    for extent in shape {
        count = count.checked_mul(*extent)?;
    }
    Some(count)
}

/// The row-major number of a position of an array of this shape.
///
/// `None` if the lists differ in length, if an index is not below its extent, or if the number passes `u64`.
pub fn ravel_indices(indices: &[u64], shape: &[u64]) -> Option<u64>
    ensures { MatchOption result (InShape shape.now indices.now
        → 2 ^ 64 ≤ place shape.now indices.now)
        (λ n. InShape shape.now indices.now × (n ≡ place shape.now indices.now)) }
{
    if indices.len() != shape.len() {
        return None;
    }
    let mut number: u64 = 0;
    for k in 0..shape.len() {
        if indices[k] >= shape[k] {
            return None;
        }
        number = number.checked_mul(shape[k])?.checked_add(indices[k])?;
    }
    Some(number)
}

/// The position of that row-major number of an array of this shape.
///
/// `Some` exactly if no extent is 0 and the number is below the product of the extents, which is 1 with no dimension.
///
/// # Errors
/// `AllocError`: out of memory.
pub fn unravel_index(
    alloc: Global,
    index: u64,
    shape: &[u64],
) -> Result<Option<ArrayIndices>, AllocError>
    ensures { IfOk result (λ r. MatchOption r (position_count shape.now ≤ index)
        (λ p. InShape shape.now p.items × (place shape.now p.items ≡ index))) }
{
    match element_count(shape) {
        Some(count) if index >= count => Ok(None),
        _ => Ok(Some(unravelled(alloc, index, shape)?)),
    }
}

/// The position of that row-major number of an array of this shape, which has it.
///
/// # Errors
/// `AllocError`: out of memory.
pub(crate) fn unravelled(
    alloc: Global,
    index: u64,
    shape: &[u64],
) -> Result<ArrayIndices, AllocError>
    requires { index < position_count shape.now }
    ensures { IfOk result (λ p. InShape shape.now p.items × (place shape.now p.items ≡ index)) }
{
    let mut indices = vec![in alloc; 0u64; shape.len()]?;
    let mut rest = index;
    let mut axis = shape.len();
    while axis > 0 {
        axis -= 1;
        indices[axis] = rest % shape[axis];
        rest /= shape[axis];
    }
    Ok(indices)
}
