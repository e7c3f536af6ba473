//! The cells of one size at the places of the flags that are set.
ghost use Rattle.std.specs.Prelude.{◌≡◌, ◌<◌, ◌*◌, All, IfOk, length};
ghost use Rattle.zarrs_data_type_bytes.specs.Present.{ArePlacesSet, TakesSet};

use super::select::select_fixed;
use super::spread::push_cell;
use std::alloc::{AllocError, Global};

/// The places of the flags that are set.
pub(super) fn places_set(alloc: Global, mask: &[u8]) -> Result<Vec<usize>, AllocError>
    ensures places { IfOk result (λ places. ArePlacesSet mask.now places.items) }
    ensures within { IfOk result (λ places. All (λ p. p < length mask.now) places.items) }
{
    let mut places = Vec::with_capacity(alloc, mask.len())?;
    for index in 0..mask.len() {
        if mask[index] != 0 {
            places.push(index)?;
        }
    }
    Ok(places)
}

/// Does what `gather_fixed` says, with cells of `N` bytes.
fn gather_sized<const N: usize>(
    alloc: Global,
    bytes: &[u8],
    mask: &[u8],
) -> Result<Vec<u8>, AllocError>
    requires wide { 0 < N }
    requires small { N < 9 }
    requires cells { length bytes.now ≡ length mask.now * N }
    ensures { IfOk result (λ made. TakesSet N mask.now bytes.now made.items) }
{
    let (cells, _) = bytes.as_chunks::<N>();
    let mut made = Vec::with_capacity(alloc, bytes.len())?;
    for index in 0..mask.len() {
        if mask[index] != 0 {
            push_cell::<N>(&mut made, cells[index]);
        }
    }
    Ok(made)
}

/// The cells of `size` bytes whose flag is set, one after another.
pub(super) fn gather_fixed(
    alloc: Global,
    cells: &[u8],
    size: usize,
    mask: &[u8],
) -> Result<Vec<u8>, AllocError>
    requires { length cells.now ≡ length mask.now * size }
    ensures { IfOk result (λ made. TakesSet size mask.now cells.now made.items) }
{
    match size {
        1 => gather_sized::<1>(alloc, cells, mask),
        2 => gather_sized::<2>(alloc, cells, mask),
        4 => gather_sized::<4>(alloc, cells, mask),
        8 => gather_sized::<8>(alloc, cells, mask),
        _ => {
            let places = places_set(alloc, mask)?;
            select_fixed(alloc, cells, size, places.as_slice())
        }
    }
}
