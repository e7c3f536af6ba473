//! A part that is read of a shard, subchunk by subchunk.
ghost use Rattle.std.specs.Prelude.{◌≡◌, ◌+◌, ◌-◌, ◌*◌, ◌≤◌, ◌<◌, ◌^◌, if◌then◌else◌, is_some, length, true, IfOk};
ghost use Rattle.std.specs.Bool.{OnFalse, OnTrue};
ghost use Rattle.zarrs_codec_leaf.specs.Sources.{bytes_in};
ghost use Rattle.zarrs_codec_shard.specs.Shards.{data_end, data_start, index_in, shard_parts};
ghost use Rattle.zarrs_codec_shard.specs.LentData.{lent_chunk_shape, lent_shape};
ghost use Rattle.zarrs_codec_shard.specs.Subchunks.{subchunk_count};
ghost use Rattle.zarrs_subset.specs.Regions.{LiesInBox, LiesInShape, box_of, seen_from, shifted_box};
ghost use Rattle.zarrs_codec_chain.specs.ShardReads.{part_places, shard_read};
ghost use Rattle.zarrs_codec_chain.specs.Stored.{MayReadOf, bytes_of, refuses_of};

use crate::shard::{common_part, lies_at, met_subchunks, seen_from_corner};
use crate::stored::Stored;
use std::alloc::{AllocError, Global};
use zarrs_codec_leaf::{ByteSource, SourceBytes};
use zarrs_codec_shard::{LentSubchunks, SubchunkRange, are_entries, range_at};
use zarrs_storage::StorageError;
use zarrs_subset::{ArraySubset, ravel_indices};

/// A part that is read of a shard. Each entry of the index was tested.
#[derive(Drop)]
pub struct ShardPart<'s, 'p, B: ByteSource> {
    stored: Stored<'s, B>,
    at_start: bool,
    subchunks: LentSubchunks<'p>,
    /// The part.
    pub part: &'p ArraySubset,
    index: SourceBytes<'s>,
    // Where the data part begins and ends.
    start: usize,
    end: usize,
    ghost lies: { LiesInShape (box_of part.now) (lent_chunk_shape subchunks) },
    ghost index_is: { bytes_in index ≡ index_in at_start
        (subchunk_count (lent_chunk_shape subchunks) (lent_shape subchunks)) (bytes_of stored) },
    ghost start_is: { start ≡ data_start at_start
        (subchunk_count (lent_chunk_shape subchunks) (lent_shape subchunks)) },
    ghost end_is: { end ≡ data_end at_start
        (subchunk_count (lent_chunk_shape subchunks) (lent_shape subchunks))
        (length (bytes_of stored)) },
    ghost tested: { is_some (shard_parts at_start
        (subchunk_count (lent_chunk_shape subchunks) (lent_shape subchunks)) (bytes_of stored))
        ≡ true },
    ghost may_read: { MayReadOf stored (part_places (shard_read at_start (lent_chunk_shape subchunks)
        (lent_shape subchunks) (box_of part.now) (bytes_of stored) (refuses_of stored))) },
}

/// The positions that a part shares with a subchunk.
#[derive(Debug, Drop)]
pub struct Share {
    /// In the shard.
    pub shared: ArraySubset,
    /// Seen from the corner of the subchunk.
    pub own: ArraySubset,
}

/// The one subchunk that has each position of a part.
#[derive(Debug, Drop)]
pub struct SoleSubchunk {
    /// Its number.
    pub number: u64,
    /// The part, seen from the corner of the subchunk.
    pub own: ArraySubset,
}

impl<'s, 'p, B: ByteSource> ShardPart<'s, 'p, B> {
    ghost use Rattle.std.specs.Prelude.{ℕ, List, None, IfErr, IfNone, IfSome, option_map, slice_index_or};
    ghost use Rattle.zarrs_codec_leaf.specs.Sources.{RefusesSource};
    ghost use Rattle.zarrs_codec_shard.specs.ShardIndex.{IsRangeWithin, range_entry, range_part};
    ghost use Rattle.zarrs_codec_shard.specs.Subchunks.{subchunk_box};
    ghost use Rattle.zarrs_codec_chain.specs.OpenShards.{read_of};
    ghost use Rattle.zarrs_codec_chain.specs.Places.{boxes_meet};
    ghost use Rattle.zarrs_codec_chain.specs.ShardParts.{HasOnlyMet, IsNoShard, MeetsPart};
    ghost use Rattle.zarrs_codec_chain.specs.ShardReads.{HasNoSubchunk, HasNone, IsAt, IsShare, IsSole};
    ghost use Rattle.zarrs_codec_chain.specs.ShardReads.{box_at, count_of, entry_of, parts_of};
    ghost use Rattle.zarrs_codec_chain.specs.Stored.{MayReadAll};

    /// A part of a shard of this shape that is cut into subchunks of the shape `sub`, or `None` if the bytes are no such
    /// shard. The index is read.
    ///
    /// # Errors
    /// What the source says if it refuses; `OutOfMemory`.
    pub fn open(
        alloc: Global,
        stored: &Stored<'s, B>,
        part: &'p ArraySubset,
        shape: &'p [u64],
        sub: &'p [u64],
        at_start: bool,
    ) -> Result<Option<ShardPart<'s, 'p, B>>, StorageError>
        requires part { LiesInShape (box_of part.now) shape.now }
        requires may_read { MayReadOf stored.now (part_places (shard_read at_start shape.now sub.now
            (box_of part.now) (bytes_of stored.now) (refuses_of stored.now))) }
        ensures none { IfOk result (λ found. IfNone found (IsNoShard at_start shape.now sub.now
            (bytes_of stored.now))) }
        ensures opened { IfOk result (λ found. IfSome found (λ read. read_of read
            ≡ shard_read at_start shape.now sub.now (box_of part.now) (bytes_of stored.now)
            (refuses_of stored.now))) }
        ensures refused { IfErr result (RefusesSource (refuses_of stored.now)) }
    {
        let Some(subchunks) = LentSubchunks::new(alloc, shape, sub)? else {
            return Ok(None);
        };
        let Some(count) = subchunks.count() else {
            return Ok(None);
        };
        if is_short(stored.window.len, count) {
            return Ok(None);
        }
        let place = index_place(stored.window.len, count * 16, at_start);
        let index = stored.part(place.first, place.last).read(alloc)?;
        if !are_entries(index.as_slice(), count as usize, place.start, place.end) {
            return Ok(None);
        }
        Ok(Some(ShardPart {
            stored: *stored,
            at_start,
            subchunks,
            part,
            index,
            start: place.start,
            end: place.end,
        }))
    }

    /// The shape of each subchunk.
    pub fn subchunk_shape(&self) -> &[u64]
        ensures { result.now ≡ (read_of self.now).sub }
    {
        self.subchunks.shape()
    }

    /// The number of subchunks.
    pub fn count(&self) -> u64
        ensures { result ≡ count_of (read_of self.now) }
    {
        let Some(count) = self.subchunks.count() else {
            unreachable!()
        };
        count
    }

    /// The indices of the subchunks that the part meets, as a box.
    ///
    /// # Errors
    /// `AllocError`: out of memory.
    pub fn met(&self, alloc: Global) -> Result<ArraySubset, AllocError>
        ensures met { IfOk result (λ met. MeetsPart (read_of self.now).sub (read_of self.now).part
            (box_of met)) }
        ensures only { IfOk result (λ met. HasOnlyMet (read_of self.now).sub
            (read_of self.now).part (box_of met)) }
    {
        met_subchunks(
            alloc,
            self.part,
            self.subchunks.chunk_shape(),
            self.subchunks.shape(),
        )
    }

    /// The number of the subchunk with these indices, or `None` if there is none.
    pub fn number(&self, indices: &[u64]) -> Option<u64>
        ensures none { IfNone result (HasNoSubchunk (read_of self.now) indices.now) }
        ensures number { IfSome result (IsAt (read_of self.now) indices.now) }
    {
        let Some(number) = ravel_indices(indices, self.subchunks.grid()) else {
            return None;
        };
        Some(number)
    }

    /// The bytes of the subchunk of this number, or `None` if it is absent.
    pub fn subchunk(&self, number: u64) -> Option<Stored<'s, B>>
        requires { number < count_of (read_of self.now) }
        ensures bytes { slice_index_or (parts_of (read_of self.now)) number None
            ≡ option_map bytes_of result }
        ensures may_read { boxes_meet (read_of self.now).part (box_at (read_of self.now) number)
            ≡ true → IfSome result MayReadAll }
        ensures refuses { IfSome result (λ own. refuses_of own ≡ (read_of self.now).refuses) }
    {
        let range = self.range(number)?;
        Some(self.stored.part(range.start as u64, range.end as u64))
    }

    /// Where they stand in the shard.
    fn range(&self, number: u64) -> Option<SubchunkRange>
        requires { number < count_of (read_of self.now) }
        ensures part { slice_index_or (parts_of (read_of self.now)) number None
            ≡ range_part (read_of self.now).encoded result }
        ensures within { IsRangeWithin (length (read_of self.now).encoded) result }
        ensures entry { entry_of (read_of self.now) number ≡ range_entry result }
    {
        let index = self.index.as_slice();
        let Some(range) = range_at(index, number as usize, self.start, self.end) else {
            unreachable!()
        };
        range
    }

    /// What the part shares with the subchunk of this number, or `None` if that is nothing.
    ///
    /// # Errors
    /// `AllocError`: out of memory.
    pub fn share(&self, alloc: Global, number: u64) -> Result<Option<Share>, AllocError>
        requires { number < count_of (read_of self.now) }
        ensures none { IfOk result (λ found. IfNone found ((i : List ℕ)
            → IsAt (read_of self.now) i number → HasNone (read_of self.now) i)) }
        ensures share { IfOk result (λ found. IfSome found (λ share. (i : List ℕ)
            → IsAt (read_of self.now) i number
            → IsShare (read_of self.now) i number (box_of share.shared) (box_of share.own))) }
    {
        let subset = self.subchunks.subset(alloc, number)?;
        let shared = common_part(alloc, self.part, &subset)?;
        if shared.is_empty() {
            return Ok(None);
        }
        let own = seen_from_corner(alloc, &shared, subset.start())?;
        Ok(Some(Share { shared, own }))
    }

    /// The subchunk that has each position of the part, if there is one. A part without positions has none.
    ///
    /// # Errors
    /// `AllocError`: out of memory.
    pub fn sole(&self, alloc: Global) -> Result<Option<SoleSubchunk>, AllocError>
        ensures { IfOk result (λ found. IfSome found (λ sole. IsSole (read_of self.now) sole.number
            (box_of sole.own))) }
    {
        let first = self.subchunks.indices_at(alloc, self.part.start())?;
        let Some(number) = self.number(&first) else {
            return Ok(None);
        };
        let corner = self.subchunks.corner_of(first);
        if !lies_at(self.part, &corner, self.subchunks.shape()) {
            return Ok(None);
        }
        let own = seen_from_corner(alloc, self.part, &corner)?;
        Ok(Some(SoleSubchunk { number, own }))
    }

    /// The box of the subchunk of this number, where the shard fills this region.
    ///
    /// # Errors
    /// `AllocError`: out of memory.
    pub fn subset_in(
        &self,
        alloc: Global,
        number: u64,
        region: &ArraySubset,
    ) -> Result<ArraySubset, AllocError>
        requires number { number < count_of (read_of self.now) }
        requires shape { (box_of region.now).shape ≡ (read_of self.now).shape }
        ensures { IfOk result (λ own. box_of own ≡ shifted_box (subchunk_box
            (box_of region.now).shape (read_of self.now).sub number) (box_of region.now).start) }
    {
        let subset = self.subchunks.subset(alloc, number)?;
        subset.shifted(alloc, region.start())
    }
}

/// A box that lies in the part, where the part fills this region.
///
/// # Errors
/// `AllocError`: out of memory.
pub fn moved_to(
    alloc: Global,
    shared: &ArraySubset,
    part: &ArraySubset,
    region: &ArraySubset,
) -> Result<ArraySubset, AllocError>
    requires lies { LiesInBox (box_of shared.now) (box_of part.now) }
    requires shape { (box_of region.now).shape ≡ (box_of part.now).shape }
    ensures { IfOk result (λ own. box_of own ≡ shifted_box (seen_from (box_of shared.now)
        (box_of part.now).start) (box_of region.now).start) }
{
    let seen = seen_from_corner(alloc, shared, part.start())?;
    seen.shifted(alloc, region.start())
}

/// Whether so many bytes are shorter than the index of so many subchunks.
fn is_short(len: u64, count: u64) -> bool
    ensures short { OnTrue result (len < count * 16) }
    ensures long { OnFalse result (count * 16 ≤ len) }
{
    count > len / 16
}

/// Where the index of a shard begins and ends, and its data part.
#[derive(Clone, Copy, Drop)]
struct IndexPlace {
    first: u64,
    last: u64,
    start: usize,
    end: usize,
}

/// The place of an index of so many bytes in a shard of `len` bytes.
fn index_place(len: u64, index_len: u64, at_start: bool) -> IndexPlace
    requires { index_len ≤ len }
    ensures first { result.first ≡ (if at_start then 0 else len - index_len) }
    ensures last { result.last ≡ (if at_start then index_len else len) }
    ensures start { result.start ≡ (if at_start then index_len else 0) }
    ensures end { result.end ≡ (if at_start then len else len - index_len) }
{
    let rest = len - index_len;
    if at_start {
        IndexPlace {
            first: 0,
            last: index_len,
            start: index_len as usize,
            end: len as usize,
        }
    } else {
        IndexPlace {
            first: rest,
            last: len,
            start: 0,
            end: rest as usize,
        }
    }
}
