//! Parts of chunks under the codec `bytes` that are decoded into a box that a caller lends.
ghost use Rattle.std.specs.Prelude.{◌≡◌, ℕ, ◌+◌, ◌*◌, ◌<◌, ◌≤◌, false, true, List, length};
ghost use Rattle.std.specs.Prelude.{IfErr, IsSome, IsTrue, OnOk, map, reverse, slice_index, slice_range};
ghost use Rattle.std.specs.List.{flat_map};
ghost use Rattle.zarrs_codec_leaf.specs.Bytes.{bytes_meaning_of, endian_of, reverses};
ghost use Rattle.zarrs_subset.specs.Boxes.{BoxFits, position_count};
ghost use Rattle.zarrs_subset.specs.Cells.{BoxCopied};
ghost use Rattle.zarrs_subset.specs.Regions.{LiesInShape, box_of};
ghost use Rattle.zarrs_data_type.specs.States.{IsSameTarget, KeepsTarget, data_of_target};
ghost use Rattle.zarrs_data_type.specs.States.{parent_box, target_box};
ghost use Rattle.zarrs_data_type.specs.Targets.{takes_type};
ghost use Rattle.zarrs_data_type.specs.Kind.{kind};
ghost use Rattle.zarrs_codec_chain.specs.BytesInto.{AreCells, IsTurned, PutsPart};
ghost use Rattle.zarrs_codec_chain.specs.Parts.{DecodesPartAt};
ghost use Rattle.zarrs_codec_chain.specs.Places.{cell_places};
ghost use Rattle.zarrs_codec_chain.specs.PartRefusals.{RefusesPartDecoding};
ghost use Rattle.zarrs_codec_chain.specs.Stored.{MayReadOf, bytes_of, refuses_of};

use crate::bytes::{is_length_of, partial_decode_bytes};
use crate::error::PartError;
use crate::stored::Stored;
use std::alloc::Global;
use zarrs_codec_leaf::{ByteSource, BytesCodec, Endianness, LeafCodec};
use zarrs_data_type::{ArrayBytesDecodeIntoTarget, DataType};
use zarrs_subset::{ArraySubset, Corner, copy_box};

/// A part of more dimensions is decoded by way of a list.
const MOST_DIMENSIONS: usize = 64;

/// Decodes a part of a chunk that is stored as these bytes, and has the shape of the target's box, into the box. Every
/// byte outside the box stays; after a refusal the bytes inside may be anything.
///
/// Numbers and raw cells that the source lends go straight to their places, in at most 64 dimensions. Otherwise the
/// cells are read as `partial_decode_bytes` reads them, and then written.
///
/// # Errors
/// Those of `partial_decode_bytes`.
pub fn partial_decode_bytes_into<B: ByteSource>(
    codec: &BytesCodec,
    alloc: Global,
    stored: &Stored<'_, B>,
    part: &ArraySubset,
    data_type: &DataType,
    shape: &[u64],
    target: &mut ArrayBytesDecodeIntoTarget<'_, '_, '_>,
) -> Result<(), PartError>
    requires part { LiesInShape (box_of part.now) shape.now }
    requires may_read { MayReadOf stored.now (cell_places (kind data_type.now) shape.now
        (box_of part.now) (bytes_of stored.now)) }
    requires takes { takes_type target.old.cell_size target.old.depth (kind data_type.now) ≡ true }
    requires same_shape { (target_box target.old).shape ≡ (box_of part.now).shape }
    ensures kept { KeepsTarget target.old target.new }
    ensures cells { OnOk result (DecodesPartAt (kind data_type.now) shape.now (box_of part.now)
        ((bytes_meaning_of (endian_of codec.now)).decoded (kind data_type.now)
        (position_count shape.now) (bytes_of stored.now))
        (parent_box target.old) (target_box target.old) (data_of_target target.new)) }
    ensures whole { (box_of part.now).shape ≡ shape.now → OnOk result (IsSome
        ((bytes_meaning_of (endian_of codec.now)).decoded (kind data_type.now)
        (position_count shape.now) (bytes_of stored.now))) }
    ensures refused { IfErr result (RefusesPartDecoding
        ((bytes_meaning_of (endian_of codec.now)).decoded (kind data_type.now)
        (position_count shape.now) (bytes_of stored.now)) ⊥
        (refuses_of stored.now)) }
{
    if let Some(array) = stored.lent() {
        if has_rows(part) && are_cells(codec, stored.window.len, data_type, shape) {
            put_part(codec, array, shape, part, data_type, target);
            return Ok(());
        }
    }
    let cells = partial_decode_bytes(codec, alloc, stored, part, data_type, shape)?;
    target.write_cells(alloc, &cells)?;
    Ok(())
}

/// Puts the cells of a part of an array of this shape, whose bytes are in the codec's order, into the target's box. Every
/// byte outside the box stays.
fn put_part(
    codec: &BytesCodec,
    array: &[u8],
    shape: &[u64],
    part: &ArraySubset,
    data_type: &DataType,
    target: &mut ArrayBytesDecodeIntoTarget<'_, '_, '_>,
)
    requires part { LiesInShape (box_of part.now) shape.now }
    requires takes { takes_type target.old.cell_size target.old.depth (kind data_type.now) ≡ true }
    requires same_shape { (target_box target.old).shape ≡ (box_of part.now).shape }
    requires array_len { length array.now ≡ position_count shape.now * target.old.cell_size }
    ensures same { IsSameTarget target.old target.new }
    ensures masks { target.new.masks.now ≡ target.old.masks.now }
    ensures put { PutsPart (reverses (endian_of codec.now) (kind data_type.now))
        target.old.cell_size shape.now (box_of part.now) target.old.parent_shape.now
        (target_box target.old) array.now target.old.bytes.now target.new.bytes.now }
{
    match (codec.endian(), data_type) {
        (Some(Endianness::Big), DataType::Int16 | DataType::UInt16) => {
            turn_part::<Turned, 2>(array, shape, part, target);
        }
        (Some(Endianness::Big), DataType::Int32 | DataType::UInt32) => {
            turn_part::<Turned, 4>(array, shape, part, target);
        }
        (Some(Endianness::Big), DataType::Int64 | DataType::UInt64) => {
            turn_part::<Turned, 8>(array, shape, part, target);
        }
        _ => copy_part(array, shape, part, target),
    }
}

/// Copies the cells of a part of an array of this shape into the target's box. Every byte outside the box stays.
fn copy_part(
    array: &[u8],
    shape: &[u64],
    part: &ArraySubset,
    target: &mut ArrayBytesDecodeIntoTarget<'_, '_, '_>,
)
    requires part { LiesInShape (box_of part.now) shape.now }
    requires same_shape { (target_box target.old).shape ≡ (box_of part.now).shape }
    requires array_len { length array.now ≡ position_count shape.now * target.old.cell_size }
    ensures same { IsSameTarget target.old target.new }
    ensures masks { target.new.masks.now ≡ target.old.masks.now }
    ensures put { PutsPart false target.old.cell_size shape.now (box_of part.now)
        target.old.parent_shape.now (target_box target.old) array.now target.old.bytes.now
        target.new.bytes.now }
{
    let from = Corner {
        shape,
        start: part.start(),
    };
    let to = Corner {
        shape: target.parent_shape,
        start: target.region.start(),
    };
    copy_box(
        array,
        from,
        target.bytes,
        to,
        part.shape(),
        target.cell_size,
    );
}

/// Puts the cells of a part of an array of this shape into the target's box, the bytes of each in reverse. Every byte
/// outside the box stays.
fn turn_part<T: Turning<N>, const N: usize>(
    array: &[u8],
    shape: &[u64],
    part: &ArraySubset,
    target: &mut ArrayBytesDecodeIntoTarget<'_, '_, '_>,
)
    requires some { 0 < N }
    requires small { N < 9 }
    requires size { target.old.cell_size ≡ N }
    requires part { LiesInShape (box_of part.now) shape.now }
    requires same_shape { (target_box target.old).shape ≡ (box_of part.now).shape }
    requires array_len { length array.now ≡ position_count shape.now * target.old.cell_size }
    ensures same { IsSameTarget target.old target.new }
    ensures masks { target.new.masks.now ≡ target.old.masks.now }
    ensures put { PutsPart true target.old.cell_size shape.now (box_of part.now)
        target.old.parent_shape.now (target_box target.old) array.now target.old.bytes.now
        target.new.bytes.now }
{
    let from = Corner {
        shape,
        start: part.start(),
    };
    let to = Corner {
        shape: target.parent_shape,
        start: target.region.start(),
    };
    turn_rows::<T, N>(array, from, target.bytes, to, part.shape());
}

/// Whether rows of the part go straight to their places. They are found dimension by dimension, by calls as deep as there
/// are dimensions, so a part of very many goes by a list.
fn has_rows(part: &ArraySubset) -> bool {
    !part.is_empty() && part.dimensionality() <= MOST_DIMENSIONS
}

/// Whether bytes of this length are the cells of a chunk of this shape, whatever they are.
fn are_cells(codec: &BytesCodec, len: u64, data_type: &DataType, shape: &[u64]) -> bool
    ensures { IsTrue result → AreCells (endian_of codec.now) (kind data_type.now)
        (position_count shape.now) len }
{
    match data_type.element_size() {
        Some(size) => {
            data_type.takes_any_bytes() && codec.takes(data_type) && is_length_of(len, shape, size)
        }
        None => false,
    }
}

/// A way to put the bytes of a number in reverse.
trait Turning<const N: usize> {
    /// The bytes in reverse.
    fn turned(cell: &[u8; N]) -> [u8; N]
        ensures { result ≡ reverse cell.now };
}

/// The bytes of a number in reverse.
struct Turned;

impl Turning<2> for Turned {
    fn turned(cell: &[u8; 2]) -> [u8; 2] {
        u16::from_le_bytes(*cell).to_be_bytes()
    }
}

impl Turning<4> for Turned {
    fn turned(cell: &[u8; 4]) -> [u8; 4] {
        u32::from_le_bytes(*cell).to_be_bytes()
    }
}

impl Turning<8> for Turned {
    fn turned(cell: &[u8; 8]) -> [u8; 8] {
        u64::from_le_bytes(*cell).to_be_bytes()
    }
}

/// How many cells are turned at a time, so that the compiler makes vector code.
const GROUP: usize = 16;

/// The cells of a group, the bytes of each in reverse.
#[inline(always)]
fn turned_group<T: Turning<N>, const N: usize>(cells: &[[u8; N]; GROUP]) -> [[u8; N]; GROUP]
    ensures { result ≡ map reverse cells.now }
{
    let mut turned = [[0; N]; GROUP];
    for index in 0..GROUP {
        turned[index] = T::turned(&cells[index]);
    }
    turned
}

/// Puts the cells of groups into `target`, the bytes of each in reverse.
fn turn_groups<T: Turning<N>, const N: usize>(groups: &[[[u8; N]; GROUP]], target: &mut [u8])
    requires some { 0 < N }
    requires small { N < 9 }
    requires target_len { length target.old ≡ length groups.now * (16 * N) }
    ensures { target.new ≡ flat_map (flat_map reverse) groups.now }
{
    let len = GROUP * N;
    for index in 0..groups.len() {
        let at = index * len;
        let turned = turned_group::<T, N>(&groups[index]);
        target[at..at + len].copy_from_slice(turned.as_flattened());
    }
}

/// Puts cells into `target`, the bytes of each in reverse.
fn turn_cells<T: Turning<N>, const N: usize>(cells: &[[u8; N]], target: &mut [u8])
    requires some { 0 < N }
    requires small { N < 9 }
    requires target_len { length target.old ≡ length cells.now * N }
    ensures { target.new ≡ flat_map reverse cells.now }
{
    for index in 0..cells.len() {
        let at = index * N;
        target[at..at + N].copy_from_slice(&T::turned(&cells[index]));
    }
}

/// Puts `count` cells into `target`, the bytes of each in reverse.
fn turn_run<T: Turning<N>, const N: usize>(source: &[u8], target: &mut [u8], count: usize)
    requires some { 0 < N }
    requires small { N < 9 }
    requires source_len { length source.now ≡ count * N }
    requires target_len { length target.old ≡ count * N }
    ensures { (turned : List ℕ) → IsTurned N source.now turned → target.new ≡ turned }
{
    let (cells, _) = source.as_chunks::<N>();
    let (groups, rest) = cells.as_chunks::<GROUP>();
    let end = groups.len() * GROUP * N;
    turn_groups::<T, N>(groups, &mut target[..end]);
    turn_cells::<T, N>(rest, &mut target[end..]);
}

/// Where the first block that a box reaches begins in an array of `len` bytes, and how long a block is: what one index
/// of the first dimension holds.
fn first_block(len: usize, corner: Corner<'_>, extents: &[u64]) -> (usize, usize)
    requires some { 0 < length extents.now }
    requires nonempty { 0 < slice_index extents.now 0 }
    requires fits { BoxFits corner.start.now extents.now corner.shape.now }
    ensures offset { result.0 ≡ slice_index corner.entry.start.now 0 * result.1 }
    ensures room { result.0 + slice_index extents.now 0 * result.1 ≤ len }
    ensures block { (size : ℕ) → len ≡ position_count corner.entry.shape.now * size
        → result.1 ≡ position_count (slice_range corner.entry.shape.now 1
        (length corner.entry.shape.now)) * size }
    ensures shape_some { 0 < length corner.entry.shape.now }
    ensures start_some { 0 < length corner.entry.start.now }
    ensures inner { BoxFits
        (slice_range corner.entry.start.now 1 (length corner.entry.start.now))
        (slice_range extents.now 1 (length extents.now))
        (slice_range corner.entry.shape.now 1 (length corner.entry.shape.now)) }
{
    let block = len / corner.shape[0] as usize;
    (corner.start[0] as usize * block, block)
}

/// Does what `turn_rows` does in one dimension.
fn turn_row<T: Turning<N>, const N: usize>(
    source: &[u8],
    from: Corner<'_>,
    target: &mut [u8],
    to: Corner<'_>,
    extents: &[u64],
)
    requires some { 0 < N }
    requires small { N < 9 }
    requires one_dimension { length extents.now ≡ 1 }
    requires source_fits { BoxFits from.start.now extents.now from.shape.now }
    requires target_fits { BoxFits to.start.now extents.now to.shape.now }
    requires source_len { length source.now ≡ position_count from.shape.now * N }
    requires target_len { length target.old ≡ position_count to.shape.now * N }
    ensures { (turned : List ℕ) → IsTurned N source.now turned
        → BoxCopied N from.entry.shape.now from.entry.start.now to.entry.shape.now
        to.entry.start.now extents.now turned target.old target.new }
{
    let count = extents[0] as usize;
    let read = from.start[0] as usize * N;
    let write = to.start[0] as usize * N;
    let len = count * N;
    turn_run::<T, N>(
        &source[read..read + len],
        &mut target[write..write + len],
        count,
    );
}

/// Does what `turn_rows` does in two dimensions.
fn turn_plane<T: Turning<N>, const N: usize>(
    source: &[u8],
    from: Corner<'_>,
    target: &mut [u8],
    to: Corner<'_>,
    extents: &[u64],
)
    requires some { 0 < N }
    requires small { N < 9 }
    requires two_dimensions { length extents.now ≡ 2 }
    requires source_fits { BoxFits from.start.now extents.now from.shape.now }
    requires target_fits { BoxFits to.start.now extents.now to.shape.now }
    requires source_len { length source.now ≡ position_count from.shape.now * N }
    requires target_len { length target.old ≡ position_count to.shape.now * N }
    ensures { (turned : List ℕ) → IsTurned N source.now turned
        → BoxCopied N from.entry.shape.now from.entry.start.now to.entry.shape.now
        to.entry.start.now extents.now turned target.old target.new }
{
    let extent = extents[0] as usize;
    if extent == 0 {
        return;
    }
    let (first, source_block) = first_block(source.len(), from, extents);
    let (target_first, target_block) = first_block(target.len(), to, extents);
    for row in 0..extent {
        let read = first + row * source_block;
        let write = target_first + row * target_block;
        turn_row::<T, N>(
            &source[read..read + source_block],
            Corner {
                shape: &from.shape[1..],
                start: &from.start[1..],
            },
            &mut target[write..write + target_block],
            Corner {
                shape: &to.shape[1..],
                start: &to.start[1..],
            },
            &extents[1..],
        );
    }
}

/// Puts the cells of a box of the array `source` into a box of the array `target`, the bytes of each in reverse, row by
/// row.
fn turn_rows<T: Turning<N>, const N: usize>(
    source: &[u8],
    from: Corner<'_>,
    target: &mut [u8],
    to: Corner<'_>,
    extents: &[u64],
)
    requires some { 0 < N }
    requires small { N < 9 }
    requires source_fits { BoxFits from.start.now extents.now from.shape.now }
    requires target_fits { BoxFits to.start.now extents.now to.shape.now }
    requires source_len { length source.now ≡ position_count from.shape.now * N }
    requires target_len { length target.old ≡ position_count to.shape.now * N }
    ensures { (turned : List ℕ) → IsTurned N source.now turned
        → BoxCopied N from.entry.shape.now from.entry.start.now to.entry.shape.now
        to.entry.start.now extents.now turned target.old target.new }
{
    match extents.len() {
        0 => return turn_run::<T, N>(source, target, 1),
        1 => return turn_row::<T, N>(source, from, target, to, extents),
        2 => return turn_plane::<T, N>(source, from, target, to, extents),
        _ => {}
    }
    let extent = extents[0] as usize;
    if extent == 0 {
        return;
    }
    let (first, source_block) = first_block(source.len(), from, extents);
    let (target_first, target_block) = first_block(target.len(), to, extents);
    for row in 0..extent {
        let read = first + row * source_block;
        let write = target_first + row * target_block;
        turn_rows::<T, N>(
            &source[read..read + source_block],
            Corner {
                shape: &from.shape[1..],
                start: &from.start[1..],
            },
            &mut target[write..write + target_block],
            Corner {
                shape: &to.shape[1..],
                start: &to.start[1..],
            },
            &extents[1..],
        );
    }
}
