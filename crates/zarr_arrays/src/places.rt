//! Which places of the files of chunks are wanted for a region.
ghost use Rattle.std.specs.Prelude.{◌≡◌, ◌-◌, map, IfOk, IfSome};
ghost use Rattle.zarrs_subset.specs.Regions.{box_of};
ghost use Rattle.zarrs.specs.Arrays.{layout_of_array};
ghost use Rattle.zarr_arrays.specs.Wanted.{HasCells, IsPlain, IsSpan, ServesRegion};

use crate::refusals::Refusal;
use std::alloc::{AllocError, Global};
use zarrs::{Array, ArraySubset};
use zarrs_codec::ArrayToBytesCodec;
use zarrs_directory::Wanted;
use zarrs_subset::{element_count, ravel_indices};

/// The most bytes of a file that is read whole, where some of its places would do.
const SHORT: u64 = 64 * 1024 * 1024;

/// Returns how many bytes a cell has, if the file of a chunk is its cells, one after another.
fn plain_size(array: &Array<()>) -> Option<u64>
    ensures { IfSome result (IsPlain (layout_of_array array.now)) }
{
    let chain = array.codecs();
    if !chain.array_to_array_codecs().is_empty() {
        return None;
    }
    match chain.array_to_bytes_codec() {
        ArrayToBytesCodec::Bytes(_) => Some(array.data_type().element_size()? as u64),
        _ => None,
    }
}

/// Returns one less than each of these numbers, and 0 for a 0.
fn one_less(alloc: Global, numbers: &[u64]) -> Result<Vec<u64>, AllocError>
    ensures { IfOk result (λ made. made.items ≡ map (λ number. number - 1) numbers.now) }
{
    numbers
        .iter()
        .map(|number| number.saturating_sub(1))
        .collect(alloc)
}

/// Returns the places from cell `first` to cell `last`, of `count` cells of `cell` bytes each.
fn span(first: u64, last: u64, count: u64, cell: u64) -> Option<Wanted>
    ensures { IfSome result (IsSpan first last count cell) }
{
    let size = count.checked_mul(cell)?;
    let start = first.checked_mul(cell)?;
    let end = last.checked_add(1)?.checked_mul(cell)?;
    Some(Wanted { size, start, end })
}

/// Returns the places from the first cell of the part of a chunk of this shape to the last one, if its file is long.
fn part_places(
    alloc: Global,
    part: &ArraySubset,
    shape: &[u64],
    cell: u64,
) -> Result<Option<Wanted>, AllocError>
    ensures { IfOk result
        (λ wanted. IfSome wanted (HasCells shape.now cell (box_of part.now))) }
{
    let last = one_less(alloc, &part.end_exc(alloc)?)?;
    let numbers = (
        element_count(shape),
        ravel_indices(part.start(), shape),
        ravel_indices(&last, shape),
    );
    let (Some(count), Some(first), Some(last)) = numbers else {
        return Ok(None);
    };
    match span(first, last, count, cell) {
        Some(wanted) if wanted.size > SHORT => Ok(Some(wanted)),
        _ => Ok(None),
    }
}

/// Returns the places of the file of the chunk with these indices that a read of the region needs: all, or those from the
/// first of its cells to the last one, if the file is long and nothing but cells.
pub(crate) fn wanted_of(
    array: &Array<()>,
    alloc: Global,
    region: &ArraySubset,
    indices: &[u64],
) -> Result<Option<Wanted>, Refusal>
    ensures { IfOk result
        (ServesRegion (layout_of_array array.now) (box_of region.now) indices.now) }
{
    let Some(cell) = plain_size(array) else {
        return Ok(None);
    };
    let chunk = array.chunk_subset(alloc, indices)?;
    let shared = region.overlap(alloc, &chunk)?;
    let part = shared.relative_to(alloc, chunk.start())?;
    Ok(part_places(alloc, &part, chunk.shape(), cell)?)
}
