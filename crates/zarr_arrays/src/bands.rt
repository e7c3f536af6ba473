//! Regions in bands: rows along the first dimension in which there is more than one.
ghost use Rattle.std.specs.Prelude.{◌≡◌, ◌++◌, ◌≤◌, ◌<◌, [], length, max, IfOk, IfSome, MatchOption};
ghost use Rattle.std.specs.Bool.{OnTrue};
ghost use Rattle.std.specs.List.{All};
ghost use Rattle.zarrs_subset.specs.Boxes.{position_count};
ghost use Rattle.zarrs_subset.specs.Regions.{box_of, positions};
ghost use Rattle.zarrs.specs.Arrays.{layout_of_array};
ghost use Rattle.zarr_cells.specs.Rows.{IsCut, IsFull};
ghost use Rattle.zarr_arrays.specs.Sizes.{cell_bytes, most_cells};

use crate::refusals::Refusal;
use std::alloc::{AllocError, Global};
use zarr_cells::{long_axis, split_rows, with_rows};
use zarrs::{Array, ArraySubset, ArraySubsetTraits};

/// The bytes of cells that a band is to have.
const WANTED: u64 = 16 * 1024 * 1024;

/// The bytes of cells of a band that begins or ends inside of chunks, whose values are held beside it.
const CUTTING: u64 = 32 * 1024 * 1024;

/// The most bytes of cells of a band that has more than one cell.
const MOST: u64 = 64 * 1024 * 1024;

/// The bytes that a chunk counts for, however few its cells are: its key, and what is known of its file.
const CHUNK: u64 = 128;

/// The regions that were not cut into bands yet, none of them empty. The last one is next.
#[derive(Debug, Drop)]
pub struct Bands {
    left: Vec<ArraySubset>,
    ghost full: { All (λ region. IsFull (box_of region)) left.items },
}

/// Returns how many bytes a cell has, at least one; a text counts as 16.
fn cell_bytes(array: &Array<()>) -> u64
    ensures value { result ≡ cell_bytes (layout_of_array array.now).kind }
    ensures some { 1 ≤ result }
{
    let size = array.data_type().element_size().unwrap_or(16);
    (size as u64).max(1)
}

/// Returns how many bytes the cells of a row along the axis have.
fn row_bytes(array: &Array<()>, region: &ArraySubset, axis: usize) -> u64
    ensures { 1 ≤ result }
{
    let mut bytes = cell_bytes(array);
    for extent in region.shape().iter().skip(axis.saturating_add(1)) {
        bytes = bytes.saturating_mul(*extent);
    }
    bytes.max(1)
}

/// Returns rows up to the end of a chunk, and those of further chunks as long as there are no more than wanted. If the end is
/// too far, returns as many rows as a band has that ends before it. It is too far sooner where the first row is not the
/// chunk's first one.
fn rows_up_to(to_end: u64, height: u64, wanted: u64, cutting: u64, most: u64) -> u64
    requires { 1 ≤ cutting }
    ensures { 1 ≤ result }
{
    let most = if to_end < height { cutting } else { most };
    if to_end == 0 || to_end > most {
        return cutting;
    }
    if height == 0 {
        return to_end;
    }
    let further = wanted.saturating_sub(to_end) / height;
    to_end.saturating_add(further.saturating_mul(height))
}

/// Returns the first row, along the axis, of the chunks that the row meets, how many rows they have, and for how many bytes a
/// row the chunks count, if it meets any.
fn chunk_rows(
    alloc: Global,
    array: &Array<()>,
    row: &ArraySubset,
    axis: usize,
) -> Result<Option<(u64, u64, u64)>, Refusal> {
    let Some(chunks) = array.chunks_in_array_subset(alloc, row)? else {
        return Ok(None);
    };
    let count = chunks.num_elements().unwrap_or(u64::MAX);
    let chunk = array.chunk_subset(alloc, chunks.start())?;
    let (Some(start), Some(height)) = (chunk.start().get(axis), chunk.shape().get(axis)) else {
        return Ok(None);
    };
    let bytes = count.saturating_mul(CHUNK) / (*height).max(1);
    Ok(Some((*start, *height, bytes)))
}

/// Returns how many rows along the axis the first band of the region has, at least one.
fn first_rows(
    alloc: Global,
    array: &Array<()>,
    region: &ArraySubset,
    axis: usize,
) -> Result<u64, Refusal>
    requires { axis < length (box_of region.now).start }
    ensures { IfOk result (λ rows. 1 ≤ rows) }
{
    let row = row_bytes(array, region, axis);
    let first = region.start()[axis];
    let top = with_rows(alloc, region, axis, first, 1)?;
    let Some((start, height, bytes)) = chunk_rows(alloc, array, &top, axis)? else {
        return Ok((CUTTING / row).max(1));
    };
    let row = row.max(bytes);
    let (wanted, cutting, most) = (WANTED / row, (CUTTING / row).max(1), MOST / row);
    let to_end = start.saturating_add(height).saturating_sub(first);
    Ok(rows_up_to(to_end, height, wanted, cutting, most))
}

/// Returns whether the region has at most this many cells, or one.
fn has_at_most(region: &ArraySubset, cells: u64) -> bool
    ensures { OnTrue result (position_count (box_of region.now).shape ≤ max 1 cells) }
{
    match region.num_elements() {
        Ok(count) => count <= cells.max(1),
        Err(_) => false,
    }
}

/// Returns the axis along which the region is cut, and after how many rows; `None` if it is a band.
fn cut_at(
    alloc: Global,
    array: &Array<()>,
    region: &ArraySubset,
) -> Result<Option<(usize, u64)>, Refusal>
    requires { IsFull (box_of region.now) }
    ensures { IfOk result (λ found. MatchOption found
        (position_count (box_of region.now).shape ≤ most_cells (layout_of_array array.now).kind)
        (λ cut. IsCut (box_of region.now) cut.0 cut.1)) }
{
    let axis = long_axis(region);
    if axis >= region.dimensionality() {
        return Ok(None);
    }
    let extent = region.shape()[axis];
    let rows = first_rows(alloc, array, region, axis)?;
    if rows < extent {
        return Ok(Some((axis, rows)));
    }
    if has_at_most(region, MOST / cell_bytes(array)) {
        return Ok(None);
    }
    Ok(Some((axis, extent - 1)))
}

impl Bands {
    ghost use Rattle.zarr_arrays.specs.Bands.{count_left, places_left};

    /// Makes the bands of the region; an empty one has none.
    ///
    /// # Errors
    /// `AllocError`: out of memory.
    pub fn of(alloc: Global, region: ArraySubset) -> Result<Bands, AllocError>
        ensures { IfOk result (λ bands. places_left bands ≡ positions (box_of region)) }
    {
        let mut left = Vec::new(alloc);
        if region.is_empty() {
            return Ok(Bands { left });
        }
        left.push(region)?;
        Ok(Bands { left })
    }

    /// Cuts the region along the axis after this many rows, and keeps the others.
    fn cut(
        &mut self,
        alloc: Global,
        region: &ArraySubset,
        axis: usize,
        rows: u64,
    ) -> Result<ArraySubset, Refusal>
        requires full { IsFull (box_of region.now) }
        requires cut { IsCut (box_of region.now) axis rows }
        ensures places { IfOk result (λ band. positions (box_of band) ++ places_left self.new
            ≡ positions (box_of region.now) ++ places_left self.old) }
        ensures full { IfOk result (λ band. IsFull (box_of band)) }
        ensures fewer { IfOk result (λ band. length (positions (box_of band))
            < length (positions (box_of region.now))) }
    {
        let (band, rest) = split_rows(alloc, region, axis, rows)?;
        self.left.push(rest)?;
        Ok(band)
    }

    /// Cuts off the next band: whole rows of the chunks of the array where memory holds as many, and at most 64 MiB of
    /// cells, or one cell. The positions of the bands, one after the other, are those of the region.
    ///
    /// # Errors
    /// E3 or E10 for a region that is none of the array's; E9. What is left then is not said.
    pub fn next(&mut self, alloc: Global, array: &Array<()>) -> Result<Option<ArraySubset>, Refusal>
        ensures places { IfOk result (λ found. MatchOption found (places_left self.old ≡ [])
            (λ band. positions (box_of band) ++ places_left self.new ≡ places_left self.old)) }
        ensures fewer { IfOk result
            (λ found. IfSome found (λ _. count_left self.new < count_left self.old)) }
        ensures small { IfOk result (λ found. IfSome found (λ band. position_count (box_of band).shape
            ≤ most_cells (layout_of_array array.now).kind)) }
    {
        let Some(region) = self.left.pop() else {
            return Ok(None);
        };
        let mut band = region;
        'cuts: while let Some((axis, rows)) = cut_at(alloc, array, &band)? {
            band = self.cut(alloc, &band, axis, rows)?;
        }
        Ok(Some(band))
    }
}
