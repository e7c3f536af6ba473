//! Cells taken in another order.
ghost use Rattle.std.specs.Prelude.{◌≡◌, ◌+◌, ◌*◌, ◌<◌, ◌^◌, [], ◌∷◌, ◌++◌, length, map};
ghost use Rattle.std.specs.Prelude.{◌≤◌, slice_index_or, OnOk};
ghost use Rattle.zarrs_subset.specs.Boxes.{position_count};
ghost use Rattle.zarrs_codec_array.specs.Gathered.{IsGathered, AreWithin, AreColumns, walked};

use std::alloc::AllocError;
use zarrs_data_type::{ArrayBytesVariableLength, VariableLengthBuilder};

// Does what `gather` says in one dimension. Where the size is known, the compiler moves a cell as one number.
#[inline(always)]
fn gather_pieces(to: &mut [u8], from: &[u8], size: usize, extent: usize, step: usize, start: usize)
    requires len { length to.old ≡ extent * size }
    requires within { AreWithin size (extent ∷ []) (step ∷ []) start (length from.now) }
    ensures { IsGathered size (extent ∷ []) (step ∷ []) start from.now to.new }
{
    for i in 0..extent {
        let write = i * size;
        let read = start + i * step;
        to[write..write + size].copy_from_slice(&from[read..read + size]);
    }
}

// The same with cells that lie one after another in `from` too.
fn copy_cells(to: &mut [u8], from: &[u8], size: usize, extent: usize, start: usize)
    requires len { length to.old ≡ extent * size }
    requires within { AreWithin size (extent ∷ []) (size ∷ []) start (length from.now) }
    ensures { IsGathered size (extent ∷ []) (size ∷ []) start from.now to.new }
{
    let len = to.len();
    if len > 0 {
        to.copy_from_slice(&from[start..start + len]);
    }
}

// Does what `gather` says in one dimension, of `extent` cells.
fn gather_line(to: &mut [u8], from: &[u8], size: usize, extent: usize, step: usize, start: usize)
    requires len { length to.old ≡ extent * size }
    requires within { AreWithin size (extent ∷ []) (step ∷ []) start (length from.now) }
    ensures { IsGathered size (extent ∷ []) (step ∷ []) start from.now to.new }
{
    if step == size {
        copy_cells(to, from, size, extent, start);
        return;
    }
    match size {
        1 => gather_pieces(to, from, 1, extent, step, start),
        2 => gather_pieces(to, from, 2, extent, step, start),
        4 => gather_pieces(to, from, 4, extent, step, start),
        8 => gather_pieces(to, from, 8, extent, step, start),
        _ => gather_pieces(to, from, size, extent, step, start),
    }
}

// A table of cells to gather: its extents, the steps from row to row and from column to column, and where its first cell
// lies in `from`.
#[derive(Clone, Copy, Drop)]
struct Table {
    rows: usize,
    columns: usize,
    row_step: usize,
    column_step: usize,
    start: usize,
}

// How many columns of a table are gathered at once: the cells of `from` that follow those of one row are read for the
// next rows, while they are near.
const COLUMNS: usize = 32;

// Gathers `count` columns from the column `first` on, the columns before them being gathered.
fn gather_columns(to: &mut [u8], from: &[u8], size: usize, table: Table, first: usize, count: usize)
    requires some { 0 < size }
    requires some_column { 0 < count }
    requires columns { first + count ≤ table.columns }
    requires len { length to.old ≡ table.rows * (table.columns * size) }
    requires within { AreWithin size (table.rows ∷ table.columns ∷ [])
        (table.row_step ∷ table.column_step ∷ []) table.start (length from.now) }
    requires before { AreColumns size table.rows table.columns table.row_step table.column_step
        table.start first from.now to.old }
    ensures { AreColumns size table.rows table.columns table.row_step table.column_step table.start
        (first + count) from.now to.new }
{
    for row in 0..table.rows {
        let write = row * (table.columns * size) + first * size;
        let read = table.start + row * table.row_step + first * table.column_step;
        let cells = &mut to[write..write + count * size];
        gather_line(cells, from, size, count, table.column_step, read);
    }
}

// Does what `gather` says in two dimensions.
fn gather_table(to: &mut [u8], from: &[u8], size: usize, table: Table)
    requires some { 0 < size }
    requires len { length to.old ≡ table.rows * (table.columns * size) }
    requires within { AreWithin size (table.rows ∷ table.columns ∷ [])
        (table.row_step ∷ table.column_step ∷ []) table.start (length from.now) }
    ensures { IsGathered size (table.rows ∷ table.columns ∷ [])
        (table.row_step ∷ table.column_step ∷ []) table.start from.now to.new }
{
    let mut first = 0;
    while first < table.columns {
        let count = COLUMNS.min(table.columns - first);
        gather_columns(to, from, size, table, first, count);
        first += count;
    }
}

// Fills `to`, an array of the shape `extents` of cells of `size` bytes: at each position the cell of `from` that is as
// many steps after `start`.
pub(crate) fn gather(
    to: &mut [u8],
    from: &[u8],
    size: usize,
    extents: &[u64],
    steps: &[u64],
    start: usize,
)
    requires same_length { length extents.now ≡ length steps.now }
    requires len { length to.old ≡ position_count extents.now * size }
    requires within { AreWithin size extents.now steps.now start (length from.now) }
    ensures { IsGathered size extents.now steps.now start from.now to.new }
{
    if to.is_empty() {
        return;
    }
    if extents.is_empty() {
        to.copy_from_slice(&from[start..start + size]);
        return;
    }
    let extent = extents[0] as usize;
    if extents.len() == 1 {
        gather_line(to, from, size, extent, steps[0] as usize, start);
        return;
    }
    if extents.len() == 2 && steps[1] as usize != size {
        let table = Table {
            rows: extent,
            columns: extents[1] as usize,
            row_step: steps[0] as usize,
            column_step: steps[1] as usize,
            start,
        };
        gather_table(to, from, size, table);
        return;
    }
    let block = to.len() / extent;
    for i in 0..extent {
        let write = i * block;
        gather(
            &mut to[write..write + block],
            from,
            size,
            &extents[1..],
            &steps[1..],
            start + i * steps[0] as usize,
        );
    }
}

// Puts the strings of an array of the shape `extents` behind the others: at each position the string that lies its
// steps after `start`.
pub(crate) fn push_strings(
    to: &mut VariableLengthBuilder,
    from: &ArrayBytesVariableLength<'_>,
    extents: &[u64],
    steps: &[u64],
    start: usize,
) -> Result<(), AllocError>
    requires same_length { length extents.now ≡ length steps.now }
    requires some { 0 < position_count extents.now }
    requires fits { length from.now < 2 ^ 64 }
    requires within { AreWithin 1 extents.now steps.now start (length from.now) }
    ensures { OnOk result (to.new ≡ to.old
        ++ map (λ i. slice_index_or from.now i []) (walked extents.now steps.now start)) }
{
    if extents.is_empty() {
        return to.push(from.get(start));
    }
    for i in 0..extents[0] as usize {
        let first = start + i * steps[0] as usize;
        push_strings(to, from, &extents[1..], &steps[1..], first)?;
    }
    Ok(())
}
