//! The present cells of optional data at the places of the flags that are set.
ghost use Rattle.std.specs.Prelude.{◌≡◌, ◌<◌, ◌≤◌, ◌+◌, ◌*◌, ◌^◌, ◌++◌, ℕ, true, IfOk, IsTrue};
ghost use Rattle.std.specs.Prelude.{count_by, length, vec_capacity, vec_len};
ghost use Rattle.zarrs_data_type_bytes.specs.ArrayData.{data_of};
ghost use Rattle.zarrs_data_type_bytes.specs.Cells.{fits, HasCells, IsSelection};
ghost use Rattle.zarrs_data_type_bytes.specs.Present.{TakesPieces, flag_set, ranks_set};
ghost use Rattle.zarrs_data_type_kinds.specs.Kind.{kind, cell_size};

use super::ArrayBytes;
use super::select::select_fixed;
use std::alloc::{AllocError, Global};
use std::borrow::CowSlice;
use zarrs_data_type_kinds::DataType;

/// For each flag that is set, how many are set before it; for another one 0.
fn ranks_set(alloc: Global, mask: &[u8]) -> Result<Vec<usize>, AllocError>
    ensures { IfOk result (λ ranks. ranks.items ≡ ranks_set mask.now (length mask.now)) }
{
    let mut ranks = Vec::with_capacity(alloc, mask.len())?;
    let mut count = 0;
    for index in 0..mask.len() {
        if mask[index] == 0 {
            ranks.push(0)?;
        } else {
            ranks.push(count)?;
            count += 1;
        }
    }
    Ok(ranks)
}

/// Appends a cell to bytes that have room for it: byte by byte, since the compiler makes one write of them.
#[inline(always)]
pub(super) fn push_cell<const N: usize>(bytes: &mut Vec<u8>, cell: [u8; N])
    requires { vec_len bytes.old + N ≤ vec_capacity bytes.old }
    ensures items { bytes.new.items ≡ bytes.old.items ++ cell.entry }
    ensures len { vec_len bytes.new ≡ vec_len bytes.old + N }
    ensures capacity { vec_capacity bytes.new ≡ vec_capacity bytes.old }
{
    for index in 0..N {
        bytes.push_reserved(cell[index]);
    }
}

/// Does what `spread_fixed` says, with cells of `N` bytes.
fn spread_sized<const N: usize>(
    alloc: Global,
    bytes: &[u8],
    mask: &[u8],
) -> Result<Vec<u8>, AllocError>
    requires wide { 0 < N }
    requires small { N < 9 }
    requires some { 0 < count_by flag_set mask.now }
    requires cells { length bytes.now ≡ count_by flag_set mask.now * N }
    requires size { length mask.now * N < 2 ^ 64 }
    ensures { IfOk result (λ spread. TakesPieces N (ranks_set mask.now (length mask.now)) bytes.now
        spread.items) }
{
    let (cells, _) = bytes.as_chunks::<N>();
    let mut spread = Vec::with_capacity(alloc, mask.len() * N)?;
    let mut count = 0;
    for index in 0..mask.len() {
        let (rank, next) = if mask[index] == 0 {
            (0, count)
        } else {
            (count, count + 1)
        };
        push_cell::<N>(&mut spread, cells[rank]);
        count = next;
    }
    Ok(spread)
}

/// For each flag that is set the next of the cells, which have `size` bytes; for another one the first of them.
fn spread_fixed(
    alloc: Global,
    cells: &[u8],
    size: usize,
    mask: &[u8],
) -> Result<Vec<u8>, AllocError>
    requires some { 0 < count_by flag_set mask.now }
    requires cells { length cells.now ≡ count_by flag_set mask.now * size }
    requires size { length mask.now * size < 2 ^ 64 }
    ensures { IfOk result (λ spread. TakesPieces size (ranks_set mask.now (length mask.now)) cells.now
        spread.items) }
{
    match size {
        1 => spread_sized::<1>(alloc, cells, mask),
        2 => spread_sized::<2>(alloc, cells, mask),
        4 => spread_sized::<4>(alloc, cells, mask),
        8 => spread_sized::<8>(alloc, cells, mask),
        _ => {
            let ranks = ranks_set(alloc, mask)?;
            select_fixed(alloc, cells, size, ranks.as_slice())
        }
    }
}

impl<'a> ArrayBytes<'a> {
    /// For each flag that is set the next of the cells; for another one any cell.
    pub(super) fn spread<'b>(
        &self,
        alloc: Global,
        data_type: &DataType,
        mask: &[u8],
    ) -> Result<ArrayBytes<'b>, AllocError>
        requires present { HasCells (kind data_type.now) (data_of self.now)
            (count_by flag_set mask.now) }
        requires size { length mask.now * cell_size (kind data_type.now) < 2 ^ 64 }
        ensures kind { IfOk result (λ made. IsTrue (fits (kind data_type.now) (data_of made)
            (length mask.now))) }
        ensures cells { IfOk result (λ made. (n : ℕ)
            → fits (kind data_type.now) (data_of self.now) n ≡ true → 0 < n
            → IsSelection (kind data_type.now) (data_of made) (data_of self.now)
            (ranks_set mask.now (length mask.now))) }
    {
        if self.fits(data_type, 0) {
            let none = ArrayBytes::missing(alloc, data_type, mask.len())?;
            return none.into_owned(alloc);
        }
        if let ArrayBytes::Fixed(cells) = self {
            let size = data_type.element_size().unwrap();
            let spread = spread_fixed(alloc, cells.as_slice(), size, mask)?;
            return Ok(ArrayBytes::Fixed(CowSlice::Owned(spread)));
        }
        let ranks = ranks_set(alloc, mask)?;
        let selected = self.select(alloc, data_type, ranks.as_slice())?;
        selected.into_owned(alloc)
    }
}
