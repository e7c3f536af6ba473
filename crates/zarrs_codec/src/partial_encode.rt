//! Parts of chunks to bytes.
ghost use Rattle.std.specs.Prelude.{◌≡◌, ◌<◌, IfErr, IfOk, IsSome, OnOk, Some, true};
ghost use Rattle.std.specs.Prelude.{is_some, length, option_map};
ghost use Rattle.std.specs.List.{list_any};
ghost use Rattle.zarrs_subset.specs.Boxes.{position_count};
ghost use Rattle.zarrs_subset.specs.Regions.{box_of};
ghost use Rattle.zarrs_data_type.specs.CellTypes.{chunk_kind, kind_of, shape_of};
ghost use Rattle.zarrs_data_type.specs.ArrayData.{data_of};
ghost use Rattle.zarrs_data_type.specs.Cells.{cells, HasCells};
ghost use Rattle.zarrs_codec_shard.specs.ShardIndex.{range_part, IsRangeWithin};
ghost use Rattle.zarrs_codec_shard.specs.ShardPatches.{change_of};
ghost use Rattle.zarrs_codec_chain.specs.Chunks.{RefusesToEncodePart, partial_encoding_as};
ghost use Rattle.zarrs_codec_chain.specs.Options.{stores_empty_chunks};
ghost use Rattle.zarrs_codec.specs.Chains.{chain_meaning, inner_chain_of, sharding_meaning};
ghost use Rattle.zarrs_codec.specs.PartialShardings.{RefusesIndex, RefusesLarge, stored_bytes};
ghost use Rattle.zarrs_codec.specs.ShardUpdates.{DecodesOld, FitsUpdate, IsUpdate, MeetsAt, MeetsDecoded, RefusesChangeOf};
ghost use Rattle.zarrs_codec.specs.ShardUpdates.{RefusesChangesOf, RefusesMetOf, RefusesOld, RefusesOldTest};
ghost use Rattle.zarrs_codec.specs.ShardUpdates.{RefusesUpdate, WritesUpdate, bytes_in, change_in, count_in, old_decoded};

use crate::chain::CodecChain;
use crate::codec::ArrayToBytesCodec;
use crate::sharding::ShardingCodec;
use crate::sizes::is_counted;
use std::alloc::Global;
use zarrs_codec_chain::CodecOptions;
use zarrs_codec_leaf::{CodecError, Misfit};
use zarrs_codec_shard::{PartialWrite, ShardPatch, SubchunkRange, Subchunks, stored_ranges};
use zarrs_data_type::{ArrayBytes, CellType, ChunkType};
use zarrs_subset::ArraySubset;

impl CodecChain {
    /// Whether the cells of a part are written into the bytes of their chunk: the chain is `sharding_indexed` alone, with
    /// its index at the end.
    pub(crate) fn encodes_partly(&self) -> bool
        ensures { result ≡ (chain_meaning self.now).encodes_partly }
    {
        match &self.array_to_bytes {
            ArrayToBytesCodec::Sharding(codec) => {
                self.array_to_array.is_empty() && !codec.index_location().is_at_start()
            }
            _ => false,
        }
    }

    /// What is done with the key of a chunk for the cells of a part.
    pub(crate) fn partial_encode_chunk(
        &self,
        alloc: Global,
        stored: Option<&[u8]>,
        part: &ArraySubset,
        bytes: &ArrayBytes<'_>,
        chunk: &ChunkType<'_>,
        options: &CodecOptions,
    ) -> Result<PartialWrite, CodecError>
        requires supported { (chain_meaning self.now).encodes_partly ≡ true }
        requires dimensions { length (box_of part.now).start ≡ length (shape_of chunk.now) }
        requires cells { HasCells (chunk_kind chunk.now) (data_of bytes.now)
            (position_count (box_of part.now).shape) }
        ensures written { IfOk result (λ write. partial_encoding_as (chain_meaning self.now)
            (stores_empty_chunks options.now) chunk.now (option_map (λ encoded. encoded.now)
            stored.entry) (box_of part.now) (data_of bytes.now) ≡ Some (change_of write)) }
        ensures refused { IfErr result (RefusesToEncodePart (chain_meaning self.now)
            (stores_empty_chunks options.now) chunk.now (option_map (λ encoded. encoded.now)
            stored.entry) (box_of part.now) (data_of bytes.now)) }
    {
        match &self.array_to_bytes {
            ArrayToBytesCodec::Sharding(codec) => codec.partial_encode_shard(
                alloc, stored, part, bytes, chunk, options,
            ),
            _ => unreachable!(),
        }
    }
}

/// The cells of a part, and the shard that they are written into, whose index stands at the end.
#[derive(Drop)]
struct ShardUpdate<'a, 'b> {
    stored: Option<&'a [u8]>,
    // Where each subchunk stands in what is stored.
    ranges: Vec<Option<SubchunkRange>>,
    subchunks: Subchunks,
    part: &'a ArraySubset,
    bytes: &'a ArrayBytes<'b>,
    cell_type: &'a CellType,
    options: &'a CodecOptions,
}

impl ShardingCodec {
    /// What is done with the key of a shard, whose index stands at the end, for the cells of a part.
    fn partial_encode_shard<'a, 'b>(
        &self,
        alloc: Global,
        stored: Option<&'a [u8]>,
        part: &'a ArraySubset,
        bytes: &'a ArrayBytes<'b>,
        chunk: &ChunkType<'a>,
        options: &'a CodecOptions,
    ) -> Result<PartialWrite, CodecError>
        requires supported { (sharding_meaning self.now).encodes_partly ≡ true }
        requires dimensions { length (box_of part.now).start ≡ length (shape_of chunk.now) }
        requires cells { HasCells (chunk_kind chunk.now) (data_of bytes.now)
            (position_count (box_of part.now).shape) }
        ensures written { IfOk result (λ write. partial_encoding_as (sharding_meaning self.now)
            (stores_empty_chunks options.now) chunk.now (option_map (λ encoded. encoded.now)
            stored.entry) (box_of part.now) (data_of bytes.now) ≡ Some (change_of write)) }
        ensures refused { IfErr result (RefusesToEncodePart (sharding_meaning self.now)
            (stores_empty_chunks options.now) chunk.now (option_map (λ encoded. encoded.now)
            stored.entry) (box_of part.now) (data_of bytes.now)) }
    {
        let subchunks = self.subchunks_of(alloc, chunk)?;
        let Some(count) = subchunks.indexed_count() else {
            return Err(refusal_of_index(stored));
        };
        let Some(ranges) = stored_ranges(alloc, stored, count)? else {
            return Err(CodecError::DoesNotFit(Misfit::Bytes));
        };
        let update = ShardUpdate {
            stored,
            ranges,
            subchunks,
            part,
            bytes,
            cell_type: chunk.cell_type,
            options,
        };
        self.patch_shard(alloc, &update)
    }

    /// The same, of the subchunks of a shard that was opened. Where a size is too large, it is told only if what the part
    /// meets decodes.
    fn patch_shard(
        &self,
        alloc: Global,
        update: &ShardUpdate<'_, '_>,
    ) -> Result<PartialWrite, CodecError>
        requires update { IsUpdate update.now }
        requires fits { FitsUpdate (chain_meaning (inner_chain_of self.now)) update.now }
        ensures written { IfOk result (WritesUpdate (chain_meaning (inner_chain_of self.now))
            update.now) }
        ensures refused { IfErr result (RefusesUpdate (chain_meaning (inner_chain_of self.now))
            update.now) }
    {
        match self.patched(alloc, update) {
            Ok(write) => Ok(write),
            Err(CodecError::SizeOverflow) => {
                self.test_met(alloc, update)?;
                Err(CodecError::SizeOverflow)
            }
            Err(e) => Err(e),
        }
    }

    /// Tests that the subchunks that a part meets decode. What is too large to be decoded passes.
    ///
    /// # Errors
    /// `DoesNotFit` if one does not decode; `OutOfMemory` may come at any time.
    fn test_met(&self, alloc: Global, update: &ShardUpdate<'_, '_>) -> Result<(), CodecError>
        requires { IsUpdate update.now }
        ensures decode { OnOk result (MeetsDecoded (chain_meaning (inner_chain_of self.now))
            update.now) }
        ensures refused { IfErr result (RefusesMetOf (chain_meaning (inner_chain_of self.now))
            update.now) }
    {
        for (number, range) in update.ranges.iter().enumerate() {
            let run = update.subchunks.unmet(update.part, number as u64);
            if run > 0 {
                continue;
            }
            self.test_part(alloc, update, *range)?;
        }
        Ok(())
    }

    /// The same of the subchunk that stands at this range of the shard.
    fn test_part(
        &self,
        alloc: Global,
        update: &ShardUpdate<'_, '_>,
        range: Option<SubchunkRange>,
    ) -> Result<(), CodecError>
        requires within { IsRangeWithin (length (bytes_in update.now)) range }
        ensures decode { OnOk result (DecodesOld (chain_meaning (inner_chain_of self.now))
            update.now (range_part (bytes_in update.now) range)) }
        ensures refused { IfErr result (RefusesOldTest (chain_meaning (inner_chain_of self.now))
            update.now (range_part (bytes_in update.now) range)) }
    {
        match self.held_part(alloc, update, range) {
            Ok(_) | Err(CodecError::SizeOverflow) => Ok(()),
            Err(e) => Err(e),
        }
    }

    /// What is done with the key: subchunks that the part does not meet are kept, run by run, and each other one is changed.
    fn patched(
        &self,
        alloc: Global,
        update: &ShardUpdate<'_, '_>,
    ) -> Result<PartialWrite, CodecError>
        requires update { IsUpdate update.now }
        requires fits { FitsUpdate (chain_meaning (inner_chain_of self.now)) update.now }
        ensures written { IfOk result (WritesUpdate (chain_meaning (inner_chain_of self.now))
            update.now) }
        ensures refused { IfErr result (RefusesChangesOf (chain_meaning (inner_chain_of self.now))
            update.now) }
    {
        let count = update.ranges.len() as u64;
        let mut patch = ShardPatch::new(alloc, update.stored, count)?;
        let mut number = 0;
        while number < count {
            let run = update.subchunks.unmet(update.part, number);
            if run > 0 {
                let end = number + run;
                let any = has_present(&update.ranges[number as usize..end as usize]);
                patch.keep(run as usize, any)?;
                number = end;
                continue;
            }
            let range = update.ranges[number as usize];
            let part = self.changed(alloc, update, range, number)?;
            patch.push(&part)?;
            number += 1;
        }
        Ok(patch.finish()?)
    }

    /// The new bytes of the subchunk of this number, which stands at this range of the shard and is met by the part, or
    /// `None` if it is left out.
    fn changed(
        &self,
        alloc: Global,
        update: &ShardUpdate<'_, '_>,
        range: Option<SubchunkRange>,
        number: u64,
    ) -> Result<Option<Vec<u8>>, CodecError>
        requires update { IsUpdate update.now }
        requires fits { FitsUpdate (chain_meaning (inner_chain_of self.now)) update.now }
        requires within { IsRangeWithin (length (bytes_in update.now)) range }
        requires number { number < count_in update.now }
        requires met { MeetsAt update.now number }
        ensures change { IfOk result (λ part. change_in (chain_meaning (inner_chain_of self.now))
            update.now number (range_part (bytes_in update.now) range) ≡ Some (Some (option_map
            (λ bytes. bytes.items) part))) }
        ensures refused { IfErr result (RefusesChangeOf (chain_meaning (inner_chain_of self.now))
            update.now number (range_part (bytes_in update.now) range)) }
    {
        let subchunks = &update.subchunks;
        let cell_type = update.cell_type;
        let held = self.held_part(alloc, update, range)?;
        let (part, bytes) = (update.part, update.bytes);
        let updated = subchunks.update(alloc, held, part, bytes, &cell_type.data_type, number)?;
        let inner = ChunkType {
            cell_type,
            shape: subchunks.shape(),
        };
        self.encode_part(alloc, updated, &inner, update.options)
    }

    /// Why the cells of a subchunk are not decoded that are too large: no bytes are so many cells under `bytes` alone.
    fn refusal_of_large(&self) -> CodecError
        ensures { RefusesLarge (chain_meaning (inner_chain_of self.now)) result }
    {
        if !self.inner.array_to_array.is_empty() {
            return CodecError::SizeOverflow;
        }
        match &self.inner.array_to_bytes {
            ArrayToBytesCodec::Bytes(_) => CodecError::DoesNotFit(Misfit::Bytes),
            _ => CodecError::SizeOverflow,
        }
    }

    /// The cells of the subchunk that stands at this range of the shard.
    fn held_part(
        &self,
        alloc: Global,
        update: &ShardUpdate<'_, '_>,
        range: Option<SubchunkRange>,
    ) -> Result<ArrayBytes<'static>, CodecError>
        requires within { IsRangeWithin (length (bytes_in update.now)) range }
        ensures cells { IfOk result (λ made. cells (kind_of update.now.cell_type.now) (data_of made)
            ≡ old_decoded (chain_meaning (inner_chain_of self.now)) update.now
            (range_part (bytes_in update.now) range)) }
        ensures some { IfOk result (λ made. IsSome (cells (kind_of update.now.cell_type.now)
            (data_of made))) }
        ensures refused { IfErr result (RefusesOld (chain_meaning (inner_chain_of self.now))
            update.now (range_part (bytes_in update.now) range)) }
    {
        let (subchunks, cell_type) = (&update.subchunks, update.cell_type);
        let Some(range) = range else {
            let (data_type, fill_value) = (&cell_type.data_type, &cell_type.fill_value);
            return match subchunks.new_fill_part(alloc, data_type, fill_value)? {
                Some(part) => Ok(part),
                None => Err(CodecError::SizeOverflow),
            };
        };
        let encoded = &bytes_of(update.stored)[range.start..range.end];
        let sub = subchunks.shape();
        if !is_counted(sub, &cell_type.data_type) {
            return Err(self.refusal_of_large());
        }
        let inner = ChunkType {
            cell_type,
            shape: sub,
        };
        let part = self.inner_codecs().decode_chunk(alloc, encoded, &inner)?;
        Ok(part.into_owned(alloc)?)
    }
}

/// Why nothing is written into a shard whose index is too long: no stored bytes have one.
fn refusal_of_index(stored: Option<&[u8]>) -> CodecError
    ensures { RefusesIndex (option_map (λ encoded. encoded.now) stored.entry) result }
{
    match stored {
        Some(_) => CodecError::DoesNotFit(Misfit::Bytes),
        None => CodecError::SizeOverflow,
    }
}

/// Whether one of the subchunks is present.
fn has_present(ranges: &[Option<SubchunkRange>]) -> bool
    ensures { result ≡ list_any is_some ranges.now }
{
    ranges.iter().any(|range| range.is_some())
}

/// The bytes that are stored: none without a key.
fn bytes_of(stored: Option<&[u8]>) -> &[u8]
    ensures { result.now ≡ stored_bytes (option_map (λ encoded. encoded.now) stored.entry) }
{
    match stored {
        Some(encoded) => encoded,
        None => &[],
    }
}
