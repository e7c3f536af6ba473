//! Shards without what no cell needs.
ghost use Rattle.std.specs.Prelude.{◌≡◌, ℕ, ◌+◌, ◌*◌, ◌≤◌, ◌<◌, ◌^◌, List, Some, All, IfErr, IfOk, IfSome};
ghost use Rattle.std.specs.Prelude.{MatchOption, None, length, map, option_map, slice_range};
ghost use Rattle.std.specs.Bool.{OnTrue};
ghost use Rattle.zarrs_codec_shard.specs.Refusals.{RefusesShardCompaction};
ghost use Rattle.zarrs_codec_shard.specs.ShardIndex.{range_len, range_part, ranges_len, IsRangeWithin, NamesPacked};
ghost use Rattle.zarrs_codec_shard.specs.Shards.{compaction, shard_bytes};

use crate::error::CompactError;
use crate::shard_index::{ENTRY_LEN, ShardWriter, SubchunkRange, entry_range, read_index};
use std::alloc::{AllocError, Global};

/// The shard of `count` subchunks with the bytes of its present subchunks as they are, in row-major order without gaps.
///
/// `None` if the shard is compact already. Usually the index alone shows that, and then nothing is copied.
///
/// # Errors
/// `CompactError::NoShard`: the bytes are no shard. `TooLong`: the shard would be too long. `OutOfMemory`.
pub fn compact_shard(
    alloc: Global,
    encoded: &[u8],
    count: u64,
    at_start: bool,
) -> Result<Option<Vec<u8>>, CompactError>
    ensures compacted { IfOk result (λ less. compaction at_start count encoded.now
        ≡ Some (option_map (λ made. made.items) less)) }
    ensures refused { IfErr result (RefusesShardCompaction at_start count encoded.now) }
{
    if is_compact(encoded, count, at_start) {
        return Ok(None);
    }
    let Some(ranges) = read_index(alloc, encoded, count, at_start)? else {
        return Err(CompactError::NoShard);
    };
    let Some(_) = rewritten_len(&ranges) else {
        return Err(CompactError::TooLong);
    };
    let made = rewritten(alloc, encoded, &ranges, at_start)?;
    if made.as_slice() == encoded {
        return Ok(None);
    }
    Ok(Some(made))
}

/// Whether the index of a shard of `count` subchunks shows that the shard is compact.
fn is_compact(encoded: &[u8], count: u64, at_start: bool) -> bool
    ensures { OnTrue result (compaction at_start count encoded.now ≡ Some None) }
{
    if count > (encoded.len() / ENTRY_LEN) as u64 {
        return false;
    }
    let index_len = count as usize * ENTRY_LEN;
    if at_start {
        let index = &encoded[..index_len];
        return are_packed(index, count as usize, index_len, encoded.len());
    }
    let end = encoded.len() - index_len;
    are_packed(&encoded[end..], count as usize, 0, end)
}

/// Whether the ranges that the `count` entries name follow one another in order, without gaps, from `start` to `end`.
fn are_packed(index: &[u8], count: usize, start: usize, end: usize) -> bool
    requires { length index.now ≡ count * 16 }
    ensures { OnTrue result (NamesPacked count start end index.now end) }
{
    let mut last = start;
    for number in 0..count {
        let entry = &index[number * ENTRY_LEN..number * ENTRY_LEN + ENTRY_LEN];
        match packed_end(entry, last, start, end) {
            Some(next) => last = next,
            None => return false,
        }
    }
    last == end
}

/// Where the range of an entry ends, if it begins exactly at `last` and lies from `start` to `end`. An absent subchunk
/// ends at `last`.
fn packed_end(entry: &[u8], last: usize, start: usize, end: usize) -> Option<usize>
    requires { length entry.now ≡ 16 }
    ensures { IfSome result (λ next. (number : ℕ) (index : List ℕ) → entry.now
        ≡ slice_range index (number * 16) (number * 16 + 16)
        → NamesPacked number start end index last → NamesPacked (number + 1) start end index next) }
{
    match entry_range(entry, start, end)? {
        None => Some(last),
        Some(range) if range.start == last => Some(range.end),
        Some(_) => None,
    }
}

/// The length of a shard of the subchunks that stand at these ranges, if it fits `u64`.
fn rewritten_len(ranges: &[Option<SubchunkRange>]) -> Option<u64>
    requires within { (len : ℕ) × All (IsRangeWithin len) ranges.now }
    requires count { length ranges.now * 16 < 2 ^ 64 }
    ensures { MatchOption result (2 ^ 64 ≤ ranges_len ranges.now)
        (λ len. len ≡ ranges_len ranges.now) }
{
    let mut len = (ranges.len() * ENTRY_LEN) as u64;
    for range in ranges {
        len = len.checked_add(range_len(range))?;
    }
    Some(len)
}

/// The shard of the subchunks that stand at these ranges.
fn rewritten(
    alloc: Global,
    shard: &[u8],
    ranges: &[Option<SubchunkRange>],
    at_start: bool,
) -> Result<Vec<u8>, AllocError>
    requires within { All (IsRangeWithin (length shard.now)) ranges.now }
    requires count { length ranges.now * 16 < 2 ^ 64 }
    ensures { IfOk result (λ made. made.items
        ≡ shard_bytes at_start (map (range_part shard.now) ranges.now)) }
{
    let mut writer = ShardWriter::new(alloc, ranges.len(), at_start)?;
    for range in ranges {
        match range {
            None => writer.push_absent()?,
            Some(range) => writer.push(&shard[range.start..range.end])?,
        }
    }
    writer.finish()
}

/// How many bytes stand at a range.
fn range_len(range: &Option<SubchunkRange>) -> u64
    requires { (len : ℕ) × IsRangeWithin len range.now }
    ensures { result ≡ range_len range.now }
{
    match range {
        None => 0,
        Some(range) => (range.end - range.start) as u64,
    }
}
