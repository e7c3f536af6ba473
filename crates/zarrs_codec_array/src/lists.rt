//! Lists of numbers, one for each dimension.
ghost use Rattle.std.specs.Prelude.{◌≡◌, ℕ, ◌*◌, ◌<◌, ◌^◌, length, slice_index, slice_index_or};
ghost use Rattle.std.specs.Prelude.{true, false, ◌||◌, ◌==◌, ◌↔◌, IsTrue, IfOk};
ghost use Rattle.std.specs.List.{list_all};
ghost use Rattle.zarrs_subset.specs.Boxes.{position_count};
ghost use Rattle.zarrs_codec_array.specs.Orders.{is_order, permuted, inverse, strides, scaled};

use std::alloc::{AllocError, Global};

/// Whether an array of this shape has a cell.
pub(crate) fn has_cell(shape: &[u64]) -> bool
    ensures { IsTrue result ↔ (0 < position_count shape.now) }
{
    for extent in shape {
        if *extent == 0 {
            return false;
        }
    }
    true
}

/// Whether the list is a permutation of the numbers below its length.
pub(crate) fn is_order(alloc: Global, order: &[u64]) -> Result<bool, AllocError>
    ensures { IfOk result (λ answer. answer ≡ is_order order.now) }
{
    let mut found = vec![in alloc; false; order.len()]?;
    for number in order {
        mark(&mut found, *number);
    }
    Ok(are_all(&found))
}

/// Whether each entry is marked.
fn are_all(found: &[bool]) -> bool
    ensures { result ≡ list_all (λ entry. entry) found.now }
{
    found.iter().all(|entry| *entry)
}

/// Marks the entry of this number, if there is one.
fn mark(found: &mut [bool], number: u64)
    ensures len { length found.new ≡ length found.old }
    ensures entries { (j : ℕ) → j < length found.old
        → slice_index_or found.new j false ≡ (slice_index_or found.old j false || (number == j)) }
{
    if number < found.len() as u64 {
        found[number as usize] = true;
    }
}

/// The numbers in another order.
pub(crate) fn permuted(
    alloc: Global,
    order: &[u64],
    numbers: &[u64],
) -> Result<Vec<u64>, AllocError>
    requires { (k : ℕ) → k < length order.now → slice_index order.now k < length numbers.now }
    ensures { IfOk result (λ made. made.items ≡ permuted order.now numbers.now) }
{
    let mut made = Vec::with_capacity(alloc, order.len())?;
    for axis in order {
        made.push(numbers[*axis as usize])?;
    }
    Ok(made)
}

/// The order that undoes this one.
pub(crate) fn inverse(alloc: Global, order: &[u64]) -> Result<Vec<u64>, AllocError>
    requires { is_order order.now ≡ true }
    ensures { IfOk result (λ made. made.items ≡ inverse order.now) }
{
    let mut made = vec![in alloc; 0u64; order.len()]?;
    for k in 0..order.len() {
        made[order[k] as usize] = k as u64;
    }
    Ok(made)
}

/// For each dimension, the distance between two cells whose indices differ by one there: in bytes for cells of `size`
/// bytes, in cells if `size` is 1.
pub(crate) fn strides(alloc: Global, shape: &[u64], size: usize) -> Result<Vec<u64>, AllocError>
    requires some { 0 < position_count shape.now }
    requires fits { position_count shape.now * size < 2 ^ 64 }
    ensures { IfOk result (λ made. made.items ≡ scaled size (strides shape.now)) }
{
    let mut made = vec![in alloc; 0u64; shape.len()]?;
    let mut stride = size as u64;
    let mut axis = shape.len();
    while axis > 0 {
        axis -= 1;
        made[axis] = stride;
        stride *= shape[axis];
    }
    Ok(made)
}
