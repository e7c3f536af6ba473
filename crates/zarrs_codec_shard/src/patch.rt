//! Shards some of whose subchunks get other bytes.
ghost use Rattle.std.specs.Prelude.{◌≡◌, ℕ, ◌*◌, ◌<◌, ◌≤◌, ◌^◌, ◌++◌, [], Some, None, Bool, List, Option};
ghost use Rattle.std.specs.Prelude.{All, IfErr, IfOk, IfSome, IsSome, length, map, option_map, unwrap_or, ◌||◌};
ghost use Rattle.zarrs_codec_shard.specs.PartialShards.{stored_parts, write_of};
ghost use Rattle.zarrs_codec_shard.specs.ShardIndex.{range_part, IsRangeWithin};
ghost use Rattle.zarrs_codec_shard.specs.Shards.{entry_bytes};

use crate::shard_index::{ENTRY_LEN, SubchunkRange, entry_of, read_index, with_end};
use std::alloc::{AllocError, Global};

/// What is done with the key of a chunk.
#[derive(Debug, Drop)]
pub enum PartialWrite {
    /// Its bytes from an offset on become these.
    Put(u64, Vec<u8>),
    /// It goes.
    Erase,
}

/// A shard, with its index at the end, some of whose subchunks get other bytes, in row-major order of subchunks.
#[derive(Debug, Drop)]
pub struct ShardPatch {
    // Where the index begins in the old shard.
    base: u64,
    // The old index.
    index: Vec<u8>,
    // The subchunks that have other bytes.
    encoded: Vec<u8>,
    // The new index, as far as the subchunks are pushed.
    entries: Vec<u8>,
    // Whether one of these is present.
    any: bool,
    ghost small: { base < 2 ^ 63 },
}

/// Where each of `count` subchunks stands in the shard at a key, with its index at the end: each is absent if there is
/// no shard.
///
/// `None` if the bytes are no shard.
///
/// # Errors
/// `AllocError`: out of memory.
pub fn stored_ranges(
    alloc: Global,
    stored: Option<&[u8]>,
    count: u64,
) -> Result<Option<Vec<Option<SubchunkRange>>>, AllocError>
    ensures parts { IfOk result (λ read.
        stored_parts count (option_map (λ shard. shard.now) stored.entry)
        ≡ option_map (λ ranges. map (range_part (unwrap_or (option_map (λ shard. shard.now)
        stored.entry) [])) ranges.items) read) }
    ensures within { IfOk result (λ read. IfSome read (λ ranges.
        All (IsRangeWithin (length (unwrap_or (option_map (λ shard. shard.now) stored.entry) [])))
        ranges.items)) }
{
    match stored {
        Some(shard) => read_index(alloc, shard, count, false),
        None => Ok(Some(vec![in alloc; None; count as usize]?)),
    }
}

impl ShardPatch {
    ghost use Rattle.zarrs_codec_shard.specs.ShardPatches.{change_of, HasRoom, IsPatching, IsSamePatch};
    ghost use Rattle.zarrs_codec_shard.specs.ShardPatches.{KeepsParts, PushesChange};

    /// A shard of `count` subchunks, of which none is pushed, over the one that is stored.
    ///
    /// # Errors
    /// `AllocError`: out of memory.
    pub fn new(alloc: Global, stored: Option<&[u8]>, count: u64) -> Result<ShardPatch, AllocError>
        requires few { count * 16 < 2 ^ 64 }
        requires stored { IsSome (stored_parts count (option_map (λ shard. shard.now) stored)) }
        ensures { IfOk result (λ patch. (parts : List (Option (List ℕ)))
            → IsPatching count (option_map (λ shard. shard.now) stored.entry) parts patch []) }
    {
        match stored {
            Some(shard) => ShardPatch::over(alloc, shard, count),
            None => ShardPatch::over_nothing(alloc, count),
        }
    }

    /// The same, over a shard.
    fn over(alloc: Global, shard: &[u8], count: u64) -> Result<ShardPatch, AllocError>
        requires few { count * 16 < 2 ^ 64 }
        requires stored { IsSome (stored_parts count (Some shard.now)) }
        ensures { IfOk result (λ patch. (parts : List (Option (List ℕ)))
            → IsPatching count (Some shard.now) parts patch []) }
    {
        let end = shard.len() - count as usize * ENTRY_LEN;
        Ok(ShardPatch {
            base: end as u64,
            index: Vec::from_slice(alloc, &shard[end..])?,
            encoded: Vec::new(alloc),
            entries: Vec::with_capacity(alloc, count as usize * ENTRY_LEN)?,
            any: false,
        })
    }

    /// The same, where none is stored.
    fn over_nothing(alloc: Global, count: u64) -> Result<ShardPatch, AllocError>
        requires { count * 16 < 2 ^ 64 }
        ensures { IfOk result (λ patch. (parts : List (Option (List ℕ)))
            → IsPatching count None parts patch []) }
    {
        Ok(ShardPatch {
            base: 0,
            index: vec![in alloc; 255u8; count as usize * ENTRY_LEN]?,
            encoded: Vec::new(alloc),
            entries: Vec::with_capacity(alloc, count as usize * ENTRY_LEN)?,
            any: false,
        })
    }

    /// Keeps so many of the next subchunks. `any` says whether one of them is present.
    ///
    /// # Errors
    /// `AllocError`: out of memory; the patch is as it was.
    pub fn keep(&mut self, count: usize, any: bool) -> Result<(), AllocError>
        requires { HasRoom self.old count }
        ensures kept { IfOk result (λ _. KeepsParts self.old self.new count any) }
        ensures refused { IfErr result (λ _. IsSamePatch self.old self.new) }
    {
        let start = self.entries.len();
        let end = start + count * ENTRY_LEN;
        self.entries.extend_from_slice(&self.index[start..end])?;
        self.any = either(self.any, any);
        Ok(())
    }

    /// The next subchunk has these bytes from now on, or is absent.
    ///
    /// # Errors
    /// `AllocError`: out of memory; the patch is as it was.
    pub fn push(&mut self, part: &Option<Vec<u8>>) -> Result<(), AllocError>
        ensures pushed { IfOk result (λ _. PushesChange self.old self.new
            (option_map (λ bytes. bytes.items) part.now)) }
        ensures refused { IfErr result (λ _. IsSamePatch self.old self.new) }
    {
        match part {
            None => self.push_entry(u64::MAX, u64::MAX),
            Some(bytes) => self.push_bytes(bytes),
        }
    }

    /// The next subchunk has these bytes.
    fn push_bytes(&mut self, bytes: &[u8]) -> Result<(), AllocError>
        ensures pushed { IfOk result (λ _. PushesChange self.old self.new (Some bytes.now)) }
        ensures refused { IfErr result (λ _. IsSamePatch self.old self.new) }
    {
        let offset = self.base + self.encoded.len() as u64;
        // The new index gets room behind them too.
        let room = bytes.len().saturating_add(self.index.len());
        self.encoded.try_reserve(room)?;
        self.push_entry(offset, bytes.len() as u64)?;
        self.encoded.extend_from_slice(bytes)?;
        self.any = true;
        Ok(())
    }

    /// Adds an entry to the new index.
    fn push_entry(&mut self, offset: u64, len: u64) -> Result<(), AllocError>
        ensures entries { IfOk result (λ _. self.new.entries.items
            ≡ self.old.entries.items ++ entry_bytes offset len) }
        ensures refused { IfErr result (λ _. self.new.entries.items ≡ self.old.entries.items) }
        ensures base { self.new.base ≡ self.old.base }
        ensures index { self.new.index ≡ self.old.index }
        ensures encoded { self.new.encoded ≡ self.old.encoded }
        ensures any { self.new.any ≡ self.old.any }
    {
        self.entries.extend_from_slice(&entry_of(offset, len))
    }

    /// What is done with the key, if each subchunk is pushed: it goes if each is absent.
    ///
    /// # Errors
    /// `AllocError`: out of memory.
    pub fn finish(self) -> Result<PartialWrite, AllocError>
        ensures { IfOk result (λ made. (count : ℕ) (stored : Option (List ℕ))
            (parts : List (Option (List ℕ))) (changes : List (Option (Option (List ℕ))))
            → length changes ≡ count → stored_parts count stored ≡ Some parts
            → IsPatching count stored parts self changes
            → write_of count stored parts changes ≡ Some (change_of made)) }
    {
        let ShardPatch {
            base,
            index: _,
            encoded,
            entries,
            any,
        } = self;
        if !any {
            return Ok(PartialWrite::Erase);
        }
        let text = with_end(encoded, &entries)?;
        Ok(PartialWrite::Put(base, text))
    }
}

/// Whether one of two is true.
fn either(a: bool, b: bool) -> bool
    ensures { result ≡ (a || b) }
{
    a || b
}
