//! The cells of a box of an array that stands in a source.
ghost use Rattle.std.specs.Prelude.{◌≡◌, ◌+◌, ◌*◌, ◌<◌, ◌≤◌, ◌^◌, ◌++◌, IfOk, IfErr, OnOk, length};
ghost use Rattle.zarrs_subset.specs.Boxes.{position_count, place, BoxFits, InShape};
ghost use Rattle.zarrs_subset.specs.Regions.{LiesInShape, box_at_origin, box_of};
ghost use Rattle.zarrs_codec_leaf.specs.BoxReads.{CanReadBox, MayReadBox, box_bytes, cells_in, is_run, run_from};
ghost use Rattle.zarrs_codec_leaf.specs.Sources.{IsWindow, MayReadPlaces, RefusesSource, window_bytes};

use crate::source::{ByteSource, Window};
use std::alloc::{AllocError, Global};
use zarrs_storage::StorageError;
use zarrs_subset::{ArraySubset, Corner, copy_box, ravel_indices, without_ones};

/// The cells of a box of an array of this shape whose bytes are those of a window, row-major. A cell has `size` bytes.
///
/// Cells that stand one after another are one read and one copy. Otherwise what the source lends is copied once, in
/// runs of cells that stand together, and of another source each run is one read: one for each row of the box, and
/// fewer if its last dimensions are whole. Nothing is read of a box without cells.
///
/// # Errors
/// What the source says if it refuses; `OutOfMemory`.
pub fn read_box<B: ByteSource>(
    alloc: Global,
    source: &B,
    window: Window,
    shape: &[u64],
    part: &ArraySubset,
    size: u64,
) -> Result<Vec<u8>, StorageError>
    requires window { IsWindow window (B.bytes source.now) }
    requires size { 0 < size }
    requires len { window.len ≡ position_count shape.now * size }
    requires part { BoxFits (box_of part.now).start (box_of part.now).shape shape.now }
    requires may_read { MayReadBox (B.may_read source.now) size shape.now (box_of part.now).start
        (box_of part.now).shape window.offset }
    ensures bytes { IfOk result (λ made. made.items ≡ box_bytes size shape.now
        (box_of part.now).start (box_of part.now).shape (B.bytes source.now) window.offset) }
    ensures refused { IfErr result (RefusesSource (B.refuses source.now)) }
{
    // The bytes of the source are counted, so that no place passes `u64`.
    let _counted = source.size();
    if part.is_empty() {
        return Ok(Vec::new(alloc));
    }
    let Ok(count) = part.num_elements() else {
        unreachable!()
    };
    let len = count * size;
    let start = part.start();
    let extents = part.shape();
    if is_run(shape, extents) {
        let run = run_at(window, shape, start, size, len);
        let bytes = source.read(alloc, run)?;
        return Ok(Vec::from_slice(alloc, bytes.as_slice())?);
    }
    let len = len as usize;
    if let Some(bytes) = source.lent() {
        return Ok(gathered(alloc, window.slice(bytes), shape, part, size as usize, len)?);
    }
    let kept_extents = without_ones(alloc, shape, extents)?;
    let kept_start = without_ones(alloc, shape, start)?;
    let kept_shape = without_ones(alloc, shape, shape)?;
    let mut made = Vec::with_capacity(alloc, len)?;
    read_rows(
        alloc,
        source,
        window,
        &kept_shape,
        &kept_start,
        &kept_extents,
        size,
        &mut made,
    )?;
    Ok(made)
}

/// Whether the cells of a box of these extents stand one after another in an array of this shape.
fn is_run(shape: &[u64], extents: &[u64]) -> bool
    ensures { result ≡ is_run shape.now extents.now }
{
    let mut outer = shape;
    let mut rest = extents;
    while let Some((count, inner_extents)) = rest.split_first() {
        let Some((_, inner)) = outer.split_first() else {
            return true;
        };
        if *count != 1 {
            return inner_extents == inner;
        }
        outer = inner;
        rest = inner_extents;
    }
    true
}

/// The window of `len` bytes from the cell at `start` of the array in this window.
fn run_at(window: Window, shape: &[u64], start: &[u64], size: u64, len: u64) -> Window
    requires start { InShape shape.now start.now }
    requires fits { window.offset + place shape.now start.now * size + len < 2 ^ 64 }
    requires size { 0 < size }
    ensures { result ≡ run_from window size shape.now start.now len }
{
    let Some(first) = ravel_indices(start, shape) else {
        unreachable!()
    };
    Window {
        offset: window.offset + first * size,
        len,
    }
}

/// The first position of an array of few dimensions.
static ORIGIN: [u64; 8] = [0; 8];

/// The cells of a box of an array of this shape, row-major: `len` bytes.
fn gathered(
    alloc: Global,
    array: &[u8],
    shape: &[u64],
    part: &ArraySubset,
    size: usize,
    len: usize,
) -> Result<Vec<u8>, AllocError>
    requires array_len { length array.now ≡ position_count shape.now * size }
    requires part { BoxFits (box_of part.now).start (box_of part.now).shape shape.now }
    requires len { len ≡ position_count (box_of part.now).shape * size }
    ensures { IfOk result (λ made. made.items ≡ cells_in size shape.now (box_of part.now)
        array.now) }
{
    let extents = part.shape();
    if extents.len() <= ORIGIN.len() {
        let origin = &ORIGIN[..extents.len()];
        return gathered_to(alloc, array, shape, part, origin, size, len);
    }
    let origin = vec![in alloc; 0; extents.len()]?;
    gathered_to(alloc, array, shape, part, &origin, size, len)
}

/// The same, with the first position of the box seen as an array of its own.
fn gathered_to(
    alloc: Global,
    array: &[u8],
    shape: &[u64],
    part: &ArraySubset,
    origin: &[u64],
    size: usize,
    len: usize,
) -> Result<Vec<u8>, AllocError>
    requires array_len { length array.now ≡ position_count shape.now * size }
    requires part { BoxFits (box_of part.now).start (box_of part.now).shape shape.now }
    requires origin { origin.now ≡ (box_at_origin (box_of part.now).shape).start }
    requires len { len ≡ position_count (box_of part.now).shape * size }
    ensures { IfOk result (λ made. made.items ≡ cells_in size shape.now (box_of part.now)
        array.now) }
{
    let extents = part.shape();
    let mut made = vec![in alloc; 0; len]?;
    let from = Corner {
        shape,
        start: part.start(),
    };
    let to = Corner {
        shape: extents,
        start: origin,
    };
    copy_box(array, from, &mut made, to, extents, size);
    Ok(made)
}

/// Puts the cells of a box of the array in the window behind the bytes.
fn read_rows<B: ByteSource>(
    alloc: Global,
    source: &B,
    window: Window,
    shape: &[u64],
    start: &[u64],
    extents: &[u64],
    size: u64,
    made: &mut Vec<u8>,
) -> Result<(), StorageError>
    requires { CanReadBox (B.bytes source.now) (B.may_read source.now) size window.offset window.len
        shape.now start.now extents.now }
    ensures bytes { OnOk result (made.new.items ≡ made.old.items
        ++ box_bytes size shape.now start.now extents.now (B.bytes source.now) window.offset) }
    ensures refused { IfErr result (RefusesSource (B.refuses source.now)) }
{
    let Some((extent, inner)) = shape.split_first() else {
        return read_run(alloc, source, window, made);
    };
    let Some((first, inner_start)) = start.split_first() else {
        unreachable!()
    };
    let Some((count, inner_extents)) = extents.split_first() else {
        unreachable!()
    };
    let block = window.len / *extent;
    if inner_extents == inner {
        let run = Window {
            offset: window.offset + *first * block,
            len: *count * block,
        };
        return read_run(alloc, source, run, made);
    }
    for number in 0..*count {
        let row = Window {
            offset: window.offset + (*first + number) * block,
            len: block,
        };
        read_rows(
            alloc,
            source,
            row,
            inner,
            inner_start,
            inner_extents,
            size,
            made,
        )?;
    }
    Ok(())
}

/// Appends the bytes of the window to `made`.
fn read_run<B: ByteSource>(
    alloc: Global,
    source: &B,
    window: Window,
    made: &mut Vec<u8>,
) -> Result<(), StorageError>
    requires window { IsWindow window (B.bytes source.now) }
    requires may_read { MayReadPlaces (B.may_read source.now) window.offset window.len }
    ensures bytes { OnOk result (made.new.items ≡ made.old.items
        ++ window_bytes window (B.bytes source.now)) }
    ensures refused { IfErr result (RefusesSource (B.refuses source.now)) }
{
    let run = source.read(alloc, window)?;
    made.extend_from_slice(run.as_slice())?;
    Ok(())
}
