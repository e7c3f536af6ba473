//! The index of a shard, and the writing of shards.
ghost use Rattle.std.specs.Prelude.{◌≡◌, ℕ, ◌*◌, ◌<◌, ◌≤◌, ◌^◌, ◌++◌, [], Some, None, Bool, List, Option};
ghost use Rattle.std.specs.Prelude.{All, IfErr, IfOk, IfSome, IsSome, is_some, length, map, drop, not, option_map};
ghost use Rattle.std.specs.Prelude.{◌+◌, ◌&&◌};
ghost use Rattle.std.specs.Int.{w64, from_le_bytes};
ghost use Rattle.std.specs.List.{flat_map};
ghost use Rattle.zarrs_data_type.specs.ArrayData.{fixed};
ghost use Rattle.zarrs_data_type.specs.Cells.{cells, HasCells};
ghost use Rattle.zarrs_subset.specs.Regions.{LiesInBox, box_from, box_of, IsLong};
ghost use Rattle.zarrs_subset.specs.Boxes.{position_count};
ghost use Rattle.zarrs_subset.specs.Pieces.{piece_at, pieces};
ghost use Rattle.zarrs_data_type.specs.Cell.{fill_cell, fill_of};
ghost use Rattle.zarrs_data_type.specs.Kind.{kind};
ghost use Rattle.zarrs_codec_shard.specs.Blocks.{AddsCells};
ghost use Rattle.zarrs_codec_shard.specs.Sharded.{is_all_fill};
ghost use Rattle.zarrs_codec_shard.specs.ShardIndex.{range_entry, range_part, IsRangeWithin};
ghost use Rattle.zarrs_codec_shard.specs.ShardIndex.{IsComplete, IsSameWriter, IsWriting, PushesPart};
ghost use Rattle.zarrs_codec_shard.specs.CellParts.{PushesExtract};
ghost use Rattle.zarrs_codec_shard.specs.Shards.{entry_bytes, index_in, named_part, shard_bytes, shard_parts};
ghost use Rattle.zarrs_codec_shard.specs.Steps.{all_present};

use crate::blocks::append_cells;
use std::alloc::{AllocError, Global};
use zarrs_data_type::{ArrayBytes, DataType, FillValue};
use zarrs_subset::{ArraySubset, element_count};

/// The length in bytes of an entry of an index: a `u64` offset and a `u64` length.
pub(crate) const ENTRY_LEN: usize = 16;

/// Where the bytes of a subchunk stand in its shard.
#[derive(Clone, Copy, Debug, Drop)]
pub struct SubchunkRange {
    /// The offset of the first byte.
    pub start: usize,
    /// The offset after the last byte.
    pub end: usize,
}

/// Where each of `count` subchunks of a shard stands, in row-major order of subchunks, or `None` for an absent one.
///
/// `None` if the bytes are no shard: they are shorter than the index, or a present range does not lie in the data part.
///
/// # Errors
/// `AllocError`: out of memory.
pub fn read_index(
    alloc: Global,
    encoded: &[u8],
    count: u64,
    at_start: bool,
) -> Result<Option<Vec<Option<SubchunkRange>>>, AllocError>
    ensures parts { IfOk result (λ read. shard_parts at_start count encoded.now
        ≡ option_map (λ ranges. map (range_part encoded.now) ranges.items) read) }
    ensures within { IfOk result (λ read. IfSome read
        (λ ranges. All (IsRangeWithin (length encoded.now)) ranges.items)) }
    ensures entries { IfOk result (λ read. IfSome read
        (λ ranges. index_in at_start count encoded.now ≡ flat_map range_entry ranges.items)) }
{
    if count > (encoded.len() / ENTRY_LEN) as u64 {
        return Ok(None);
    }
    let index_len = count as usize * ENTRY_LEN;
    if at_start {
        let index = &encoded[..index_len];
        return read_entries(alloc, index, count as usize, index_len, encoded.len());
    }
    let end = encoded.len() - index_len;
    read_entries(alloc, &encoded[end..], count as usize, 0, end)
}

/// The ranges that `count` entries of an index name, or `None` if a present one does not lie from `start` to `end`.
///
/// # Errors
/// `AllocError`: out of memory.
fn read_entries(
    alloc: Global,
    index: &[u8],
    count: usize,
    start: usize,
    end: usize,
) -> Result<Option<Vec<Option<SubchunkRange>>>, AllocError>
    requires { length index.now ≡ count * 16 }
    ensures parts { IfOk result (λ read. (shard : List ℕ)
        → all_present (map (named_part shard start end) (pieces 16 count index.now))
        ≡ option_map (λ ranges. map (range_part shard) ranges.items) read) }
    ensures within { IfOk result
        (λ read. IfSome read (λ ranges. All (IsRangeWithin end) ranges.items)) }
    ensures entries { IfOk result
        (λ read. IfSome read (λ ranges. index.now ≡ flat_map range_entry ranges.items)) }
{
    let mut ranges = Vec::with_capacity(alloc, count)?;
    for number in 0..count {
        let entry = &index[number * ENTRY_LEN..number * ENTRY_LEN + ENTRY_LEN];
        match entry_range(entry, start, end) {
            Some(range) => ranges.push_reserved(range),
            None => return Ok(None),
        }
    }
    Ok(Some(ranges))
}

/// Whether each of `count` entries of an index names a range from `start` to `end`, or is that of an absent subchunk.
pub fn are_entries(index: &[u8], count: usize, start: usize, end: usize) -> bool
    requires { length index.now ≡ count * 16 }
    ensures { (shard : List ℕ) → result
        ≡ is_some (all_present (map (named_part shard start end) (pieces 16 count index.now))) }
{
    for number in 0..count {
        let entry = &index[number * ENTRY_LEN..number * ENTRY_LEN + ENTRY_LEN];
        let Some(_) = entry_range(entry, start, end) else {
            return false;
        };
    }
    true
}

/// The range of the subchunk of this number, if its entry in an index names one from `start` to `end`: `Some(None)` for an
/// absent subchunk.
pub fn range_at(
    index: &[u8],
    number: usize,
    start: usize,
    end: usize,
) -> Option<Option<SubchunkRange>>
    requires { number * 16 + 16 ≤ length index.now }
    ensures part { (shard : List ℕ) → named_part shard start end (piece_at 16 index.now number)
        ≡ option_map (range_part shard) result }
    ensures within { IfSome result (IsRangeWithin end) }
    ensures entry { IfSome result (λ range. piece_at 16 index.now number ≡ range_entry range) }
{
    let entry = &index[number * ENTRY_LEN..number * ENTRY_LEN + ENTRY_LEN];
    entry_range(entry, start, end)
}

/// The range that an entry names, if it lies from `start` to `end`: `Some(None)` for an absent subchunk.
pub(crate) fn entry_range(entry: &[u8], start: usize, end: usize) -> Option<Option<SubchunkRange>>
    requires { length entry.now ≡ 16 }
    ensures part { (shard : List ℕ) → named_part shard start end entry.now
        ≡ option_map (range_part shard) result }
    ensures within { IfSome result (IsRangeWithin end) }
    ensures entry { IfSome result (λ range. entry.now ≡ range_entry range) }
{
    let offset = number_of(&entry[..8]);
    let len = number_of(&entry[8..]);
    if offset == u64::MAX && len == u64::MAX {
        return Some(None);
    }
    let past = offset.checked_add(len)?;
    if offset < start as u64 || past > end as u64 {
        return None;
    }
    Some(Some(SubchunkRange {
        start: offset as usize,
        end: past as usize,
    }))
}

/// The number that eight bytes are.
fn number_of(bytes: &[u8]) -> u64
    requires { length bytes.now ≡ 8 }
    ensures { result ≡ from_le_bytes w64 bytes.now }
{
    u64::from_le_bytes(bytes.try_into().unwrap())
}

/// A shard that is being written, subchunk by subchunk in row-major order.
#[derive(Debug, Drop)]
pub struct ShardWriter {
    at_start: bool,
    // How many subchunks the shard has.
    count: usize,
    // The room for an index at the start, and the subchunks.
    encoded: Vec<u8>,
    // The entries of the index.
    entries: Vec<u8>,
}

impl ShardWriter {
    /// A shard of `count` subchunks, none of which is written.
    ///
    /// # Errors
    /// `AllocError`: out of memory.
    pub fn new(alloc: Global, count: usize, at_start: bool) -> Result<ShardWriter, AllocError>
        requires { count * 16 < 2 ^ 64 }
        ensures { IfOk result (λ writer. IsWriting at_start count writer []) }
    {
        let encoded = if at_start {
            vec![in alloc; 0; count * ENTRY_LEN]?
        } else {
            Vec::new(alloc)
        };
        Ok(ShardWriter {
            at_start,
            count,
            encoded,
            entries: Vec::with_capacity(alloc, count * ENTRY_LEN)?,
        })
    }

    /// Leaves out the next subchunk.
    ///
    /// # Errors
    /// `AllocError`: out of memory; the writer is as it was.
    pub fn push_absent(&mut self) -> Result<(), AllocError>
        ensures pushed { IfOk result (λ _. PushesPart self.old self.new None) }
        ensures refused { IfErr result (λ _. IsSameWriter self.old self.new) }
    {
        self.push_entry(u64::MAX, u64::MAX)
    }

    /// Writes the next subchunk, which has these bytes.
    ///
    /// # Errors
    /// `AllocError`: out of memory; the writer is as it was.
    pub fn push(&mut self, part: &[u8]) -> Result<(), AllocError>
        ensures pushed { IfOk result (λ _. PushesPart self.old self.new (Some part.now)) }
        ensures refused { IfErr result (λ _. IsSameWriter self.old self.new) }
    {
        let offset = self.encoded.len() as u64;
        self.make_room(part.len());
        self.encoded.try_reserve(part.len())?;
        self.push_entry(offset, part.len() as u64)?;
        self.encoded.extend_from_slice(part)?;
        Ok(())
    }

    /// Writes the next subchunk, which has these bytes, or leaves it out if there are none.
    ///
    /// # Errors
    /// `AllocError`: out of memory; the writer is as it was.
    pub fn push_part(&mut self, part: &Option<Vec<u8>>) -> Result<(), AllocError>
        ensures pushed { IfOk result (λ _. PushesPart self.old self.new
            (option_map (λ part. part.items) part.now)) }
        ensures refused { IfErr result (λ _. IsSameWriter self.old self.new) }
    {
        match part {
            Some(part) => self.push(part),
            None => self.push_absent(),
        }
    }

    /// Writes the next subchunk: the cells at the positions of the box of this shape at `corner`, as they stand in memory,
    /// of an array over `held_box`. It is left out if each is the fill value's, unless `store_empty` says that it is kept.
    pub(crate) fn push_cells(
        &mut self,
        alloc: Global,
        bytes: &[u8],
        held_box: &ArraySubset,
        corner: &[u64],
        shape: &[u64],
        data_type: &DataType,
        fill_value: &FillValue,
        store_empty: bool,
    ) -> Result<(), AllocError>
        requires long { IsLong (box_from corner.now shape.now) }
        requires inside { LiesInBox (box_from corner.now shape.now) (box_of held_box.now) }
        requires held { HasCells (kind data_type.now) (fixed bytes.now)
            (position_count (box_of held_box.now).shape) }
        requires filled { IsSome (fill_cell (kind data_type.now) fill_value.now) }
        ensures pushed { IfOk result (λ _. PushesExtract (kind data_type.now) store_empty
            (fill_of (kind data_type.now) fill_value.now) (box_of held_box.now) bytes.now
            (box_from corner.now shape.now) self.old self.new) }
        ensures refused { IfErr result (λ _. IsSameWriter self.old self.new) }
    {
        let start = self.encoded.len();
        let size = data_type.element_size().unwrap();
        self.add_cells(alloc, bytes, size, held_box, corner, shape)?;
        if is_left_out(&self.encoded[start..], data_type, fill_value, store_empty) {
            self.encoded.truncate(start);
            return self.push_absent();
        }
        let len = self.encoded.len() - start;
        let pushed = self.push_entry(start as u64, len as u64);
        if pushed.is_err() {
            self.encoded.truncate(start);
        }
        pushed
    }

    /// Puts the cells of one size at the positions of the box of this shape at `corner`, of an array over `held_box`,
    /// behind the subchunks.
    fn add_cells(
        &mut self,
        alloc: Global,
        bytes: &[u8],
        size: usize,
        held_box: &ArraySubset,
        corner: &[u64],
        shape: &[u64],
    ) -> Result<(), AllocError>
        requires positive { 0 < size }
        requires held_len { length bytes.now ≡ position_count (box_of held_box.now).shape * size }
        requires long { IsLong (box_from corner.now shape.now) }
        requires inside { LiesInBox (box_from corner.now shape.now) (box_of held_box.now) }
        ensures added { IfOk result (λ _. AddsCells size (box_of held_box.now) bytes.now
            (box_from corner.now shape.now) self.old.encoded.items self.new.encoded.items) }
        ensures refused { IfErr result (λ _. self.new.encoded.items ≡ self.old.encoded.items) }
        ensures entries { self.new.entries ≡ self.old.entries }
        ensures at_start { self.new.at_start ≡ self.old.at_start }
    {
        let count = element_count(shape).unwrap_or(u64::MAX);
        self.make_room((count as usize).saturating_mul(size));
        append_cells(
            alloc,
            &mut self.encoded,
            bytes,
            size,
            held_box,
            corner,
            shape,
        )
    }

    /// Makes room for each subchunk that is left, as if all had this length, and for the index behind them. It does
    /// nothing if the next one has room, or if there is not as much memory.
    fn make_room(&mut self, len: usize)
        ensures encoded { self.new.encoded.items ≡ self.old.encoded.items }
        ensures entries { self.new.entries ≡ self.old.entries }
        ensures at_start { self.new.at_start ≡ self.old.at_start }
    {
        if len <= self.encoded.capacity() - self.encoded.len() {
            return;
        }
        let left = self.count.saturating_sub(self.entries.len() / ENTRY_LEN);
        let index_len = if self.at_start {
            0
        } else {
            self.count.saturating_mul(ENTRY_LEN)
        };
        let room = left.saturating_mul(len).saturating_add(index_len);
        let _refused = self.encoded.try_reserve(room);
    }

    /// Adds an entry to the index.
    fn push_entry(&mut self, offset: u64, len: u64) -> Result<(), AllocError>
        ensures entries { IfOk result (λ _. self.new.entries.items
            ≡ self.old.entries.items ++ entry_bytes offset len) }
        ensures refused { IfErr result (λ _. self.new.entries.items ≡ self.old.entries.items) }
        ensures encoded { self.new.encoded ≡ self.old.encoded }
        ensures at_start { self.new.at_start ≡ self.old.at_start }
    {
        self.entries.extend_from_slice(&entry_of(offset, len))
    }

    /// The bytes of the shard, if each of its subchunks is written or left out.
    ///
    /// # Errors
    /// `AllocError`: out of memory.
    pub fn finish(self) -> Result<Vec<u8>, AllocError>
        requires { IsComplete self }
        ensures { IfOk result (λ shard. (at_start : Bool) (parts : List (Option (List ℕ)))
            → IsWriting at_start (length parts) self parts → shard.items
            ≡ shard_bytes at_start parts) }
    {
        let ShardWriter {
            at_start,
            count: _,
            encoded,
            entries,
        } = self;
        if at_start {
            return Ok(trimmed(with_front(encoded, &entries)));
        }
        let whole = with_end(encoded, &entries)?;
        Ok(trimmed(whole))
    }
}

/// Whether a subchunk of these cells of one size is left out: each is the fill value's, and empty ones are not stored.
fn is_left_out(
    bytes: &[u8],
    data_type: &DataType,
    fill_value: &FillValue,
    store_empty: bool,
) -> bool
    requires has_cells { IsSome (cells (kind data_type.now) (fixed bytes.now)) }
    requires filled { IsSome (fill_cell (kind data_type.now) fill_value.now) }
    ensures { IfSome (cells (kind data_type.now) (fixed bytes.now)) (λ cs. result
        ≡ (not store_empty && is_all_fill (fill_of (kind data_type.now) fill_value.now) cs)) }
{
    !store_empty && ArrayBytes::from_flen(bytes).is_fill_value(data_type, fill_value)
}

/// An entry of the index.
pub(crate) fn entry_of(offset: u64, len: u64) -> [u8; ENTRY_LEN]
    ensures { result ≡ entry_bytes offset len }
{
    let mut entry = [0; ENTRY_LEN];
    entry[..8].copy_from_slice(&offset.to_le_bytes());
    entry[8..].copy_from_slice(&len.to_le_bytes());
    entry
}

/// The bytes, the first of them replaced by others.
fn with_front(mut bytes: Vec<u8>, front: &[u8]) -> Vec<u8>
    requires { length front.now ≤ length bytes.items }
    ensures { result.items ≡ front.now ++ drop (length front.now) bytes.items }
{
    put_front(&mut bytes, front);
    bytes
}

/// Replaces the first of the bytes by others.
fn put_front(bytes: &mut [u8], front: &[u8])
    requires { length front.now ≤ length bytes.old }
    ensures { bytes.new ≡ front.now ++ drop (length front.now) bytes.old }
{
    bytes[..front.len()].copy_from_slice(front);
}

/// The bytes, without the room behind them if they fill less than half of it all: a list that grows by doubling leaves
/// no more.
fn trimmed(mut bytes: Vec<u8>) -> Vec<u8>
    ensures { result.items ≡ bytes.items }
{
    if bytes.len() < bytes.capacity() / 2 {
        bytes.shrink_to_fit();
    }
    bytes
}

/// The bytes, and more bytes behind them.
pub(crate) fn with_end(mut bytes: Vec<u8>, end: &[u8]) -> Result<Vec<u8>, AllocError>
    ensures { IfOk result (λ whole. whole.items ≡ bytes.items ++ end.now) }
{
    bytes.extend_from_slice(end)?;
    Ok(bytes)
}
