//! Writes of parts of chunks by themselves.
use super::Engine;
use std::alloc::Global;
use zarrs_chunk_grid::ChunkGridTraits;
use zarrs_codec_chain::{ChainTraits, CodecOptions};
use zarrs_codec_shard::PartialWrite;
use zarrs_data_type::ArrayBytes;
use zarrs_engine_calls::ArrayError;
use zarrs_engine_layout::Chunk;
use zarrs_keys::ChunkKeyEncodingTraits;
use zarrs_storage::{StorageError, StoreKey, WritableStorageTraits};
use zarrs_subset::{ArraySubset, lies_in_box};

impl<
    S: WritableStorageTraits,
    G: ChunkGridTraits,
    K: ChunkKeyEncodingTraits,
    C: ChainTraits,
> Engine<S, G, K, C> {
    ghost use Rattle.std.specs.Prelude.{◌≡◌, true, [], ◌∷◌, ◌&&◌, length, None, Some};
    ghost use Rattle.std.specs.Prelude.{IfOk, IfErr, IsErr, IsTrue, ◌↔◌};
    ghost use Rattle.zarrs_subset.specs.Boxes.{position_count};
    ghost use Rattle.zarrs_subset.specs.Regions.{LiesInBox, LiesInShape, box_of};
    ghost use Rattle.zarrs_chunk_grid.specs.Grids.{box_at, has_box};
    ghost use Rattle.zarrs_data_type.specs.ArrayData.{data_of};
    ghost use Rattle.zarrs_data_type.specs.Cells.{HasCells};
    ghost use Rattle.zarrs_codec_shard.specs.PartialShards.{after};
    ghost use Rattle.zarrs_codec_shard.specs.ShardPatches.{change_of};
    ghost use Rattle.zarrs_codec_chain.specs.Chain.{partial_encoding};
    ghost use Rattle.zarrs_codec_chain.specs.Options.{encodes_partially, stores_empty_chunks};
    ghost use Rattle.zarrs_engine_calls.specs.ArgumentRefusals.{part_refusal};
    ghost use Rattle.zarrs_engine_calls.specs.Content.{value_at};
    ghost use Rattle.zarrs_engine_calls.specs.Patches.{PatchesAll, RefusesPartly};
    ghost use Rattle.zarrs_engine_calls.specs.Patches.{writes_parts};
    ghost use Rattle.zarrs_engine_calls.specs.StateRefusals.{IsPart};
    ghost use Rattle.zarrs_engine_calls.specs.Reach.{MayAskChunk};
    ghost use Rattle.zarrs_engine_calls.specs.Refusals.{refusal_of};
    ghost use Rattle.zarrs_engine_calls.specs.Refusals.{refusal_of_storage};
    ghost use Rattle.zarrs_engine_layout.specs.Chunks.{IsChunk};
    ghost use Rattle.zarrs_engine.specs.Engine.{layout_of, store_of};
    ghost use Rattle.zarrs_engine.specs.Outcomes.{EncodesPartOrRefuses, Writes};
    ghost use Rattle.zarrs_engine.specs.PartStores.{TakesItself};
    ghost use Rattle.zarrs_engine.specs.Patches.{LeavesPartly, LeavesPatch, PatchesChunk, PutsPart};
    ghost use Rattle.zarrs_engine.specs.Patches.{RefusesPutPart, Shares};

    /// Returns whether the chain and the store can write parts by themselves.
    pub(crate) fn encodes_partly(&self) -> bool
        ensures { result ≡ ((layout_of self.now).chain.encodes_partly
            && (store_of S.state self.now).sets_parts) }
    {
        self.layout.encodes_partly() && self.storage.supports_set_partial()
    }

    /// Returns whether a store with these options writes the parts of chunks by themselves.
    pub(crate) fn writes_parts(&self, options: &CodecOptions) -> bool
        ensures { result ≡ writes_parts (encodes_partially options.now) (layout_of self.now)
            (store_of S.state self.now) }
    {
        options.experimental_partial_encoding() && self.encodes_partly()
    }

    /// Returns whether a store with these options over the region writes the part of this chunk by itself: of a chunk that
    /// the region covers it does not.
    pub(crate) fn writes_part(
        &self,
        region: &ArraySubset,
        chunk: &ArraySubset,
        options: &CodecOptions,
    ) -> bool
        ensures { IsTrue result ↔ ((writes_parts (encodes_partially options.now)
            (layout_of self.now) (store_of S.state self.now) ≡ true)
            × (LiesInBox (box_of chunk.now) (box_of region.now) → ⊥)) }
    {
        takes_itself(self.writes_parts(options), region, chunk)
    }

    /// Does what is to be done with a key, by one writing call of the store.
    fn put_part(
        &mut self,
        alloc: Global,
        key: &StoreKey,
        write: PartialWrite,
    ) -> Result<(), StorageError>
        ensures { Writes refusal_of_storage S.state (PutsPart key.now (after (change_of write)
            (value_at (store_of S.state self.old) key.now))) (RefusesPutPart key.now)
            self.old self.new result }
    {
        match write {
            PartialWrite::Put(offset, bytes) => {
                self.storage.set_partial(alloc, key, offset, &bytes)
            }
            PartialWrite::Erase => self.storage.erase(alloc, key),
        }
    }

    /// Returns what is done with the key of a chunk for the cells of a part, seen from the chunk's origin. What was
    /// read of it is let go of.
    fn part_write(
        &self,
        alloc: Global,
        chunk: &Chunk<'_>,
        part: &ArraySubset,
        part_data: &ArrayBytes<'_>,
        options: &CodecOptions,
    ) -> Result<PartialWrite, ArrayError>
        requires supported { (layout_of self.now).chain.encodes_partly ≡ true }
        requires chunk { IsChunk (layout_of self.now) chunk.now }
        requires dimensions { length (box_of part.now).start
            ≡ length (box_of chunk.now.region).shape }
        requires cells { HasCells (layout_of self.now).kind (data_of part_data.now)
            (position_count (box_of part.now).shape) }
        requires ask { MayAskChunk (layout_of self.now) chunk.now.indices.now
            (store_of S.state self.now) }
        ensures written { IfOk result (λ write.
            partial_encoding (layout_of self.now).chain (stores_empty_chunks options.now)
            (layout_of self.now).kind (layout_of self.now).fill
            (box_at (layout_of self.now).grid chunk.now.indices.now).shape
            (value_at (store_of S.state self.now) ((layout_of self.now).key chunk.now.indices.now))
            (box_of part.now) (data_of part_data.now) ≡ Some (change_of write)) }
        ensures refused { IfErr result (λ e. RefusesPartly (layout_of self.now)
            (stores_empty_chunks options.now) chunk.now.indices.now (box_of part.now)
            (data_of part_data.now) 0 (store_of S.state self.now) (refusal_of e)) }
        ensures refusing { (store_of S.state self.now).refuses
            ((layout_of self.now).key chunk.now.indices.now) ≡ true → IsErr result }
    {
        let region = &chunk.region;
        let Some(encoded) = self.stored_at(alloc, chunk.indices, &chunk.key)? else {
            return self
                .layout
                .partial_encode(alloc, region, None, part, part_data, options);
        };
        self.layout
            .partial_encode(alloc, region, Some(&encoded), part, part_data, options)
    }

    /// Stores the cells of a part of a chunk, seen from the chunk's origin, by a partial encode and one writing call.
    pub(crate) fn patch_chunk(
        &mut self,
        alloc: Global,
        chunk: &Chunk<'_>,
        part: &ArraySubset,
        part_data: &ArrayBytes<'_>,
        options: &CodecOptions,
    ) -> Result<(), ArrayError>
        requires supported { (layout_of self.old).chain.encodes_partly ≡ true }
        requires chunk { IsChunk (layout_of self.old) chunk.now }
        requires part { LiesInShape (box_of part.now)
            (box_at (layout_of self.old).grid chunk.now.indices.now).shape }
        requires cells { HasCells (layout_of self.old).kind (data_of part_data.now)
            (position_count (box_of part.now).shape) }
        requires ask { MayAskChunk (layout_of self.old) chunk.now.indices.now
            (store_of S.state self.old) }
        ensures writes { Writes refusal_of S.state (PatchesChunk (layout_of self.old)
            (stores_empty_chunks options.now) chunk.now.indices.now (box_of part.now)
            (data_of part_data.now)) (LeavesPartly (layout_of self.old)
            (stores_empty_chunks options.now) chunk.now.indices.now (box_of part.now)
            (data_of part_data.now)) self.old self.new result }
        ensures refusing { (store_of S.state self.old).refuses
            ((layout_of self.old).key chunk.now.indices.now) ≡ true → IsErr result }
    {
        let write = self.part_write(alloc, chunk, part, part_data, options)?;
        self.put_part(alloc, &chunk.key, write)?;
        Ok(())
    }

    /// Stores the cells over a part of the chunk with these indices, which has a box, by one writing call of the store. The
    /// part is seen from the origin of the chunk. If the chain and the store write parts by themselves, no other cell of the
    /// chunk is looked at; else the chunk is read, changed and stored. The key of the chunk is asked in either case.
    ///
    /// # Errors
    /// In this order: E2 for a part of another number of dimensions, or that passes the chunk; E8 for a part that is the
    /// whole chunk and has more bytes than a `usize` counts; E4 for data that is not one cell for each position, each a
    /// value of the data type. Then, if the chunk is stored whole, E8 for such a chunk; E7 if the store refuses its key; E4
    /// if the chain does not take it, or its bytes do not decode, or E8 if a size is too large; E7 if the store refuses the
    /// write. E9 may come at any time. Nothing is changed then.
    pub fn partial_encode(
        &mut self,
        alloc: Global,
        chunk_indices: &[u64],
        chunk_subset: &ArraySubset,
        chunk_subset_data: &ArrayBytes<'_>,
        options: &CodecOptions,
    ) -> Result<(), ArrayError>
        requires boxed { has_box (layout_of self.old).grid chunk_indices.now ≡ true }
        requires ask { part_refusal (layout_of self.old) chunk_indices.now
            (box_of chunk_subset.now) ≡ None
            → MayAskChunk (layout_of self.old) chunk_indices.now (store_of S.state self.old) }
        ensures { EncodesPartOrRefuses S.state (stores_empty_chunks options.now) chunk_indices.now
            (box_of chunk_subset.now) (data_of chunk_subset_data.now) self.old self.new result }
    {
        let chunk = self.layout.chunk(alloc, chunk_indices)?;
        let region = self
            .layout
            .part_of(alloc, chunk_indices, &chunk.region, chunk_subset)?;
        let whole = region == chunk.region;
        self.layout.check_cells(whole, &region, chunk_subset_data)?;
        if self.encodes_partly() {
            return self.patch_chunk(alloc, &chunk, chunk_subset, chunk_subset_data, options);
        }
        if whole {
            // No cell of the chunk stays, so its bytes are not decoded.
            self.stored_at(alloc, chunk_indices, &chunk.key)?;
        }
        self.store_whole(alloc, &region, chunk_subset_data, &chunk, options)
    }

    /// Stores the part of the region's data that one chunk takes, by itself. The region covers the chunk only in part.
    pub(super) fn patch_part(
        &mut self,
        alloc: Global,
        region: &ArraySubset,
        region_data: &ArrayBytes<'_>,
        chunk: &Chunk<'_>,
        options: &CodecOptions,
    ) -> Result<(), ArrayError>
        requires supported { (layout_of self.old).chain.encodes_partly ≡ true }
        requires chunk { IsChunk (layout_of self.old) chunk.now }
        requires dimensions { length (box_of region.now).start
            ≡ (layout_of self.old).grid.dimensions }
        requires part { IsPart (layout_of self.old) (box_of region.now) chunk.now.indices.now }
        requires meets { Shares (box_of region.now) (box_of chunk.now.region) }
        requires given { HasCells (layout_of self.old).kind (data_of region_data.now)
            (position_count (box_of region.now).shape) }
        requires ask { MayAskChunk (layout_of self.old) chunk.now.indices.now
            (store_of S.state self.old) }
        ensures { Writes refusal_of S.state (PatchesAll (layout_of self.old)
            (stores_empty_chunks options.now) (TakesItself (layout_of self.old) true
            (box_of region.now)) (box_of region.now) (data_of region_data.now)
            (chunk.now.indices.now ∷ [])) (LeavesPatch (layout_of self.old)
            (stores_empty_chunks options.now) (TakesItself (layout_of self.old) true
            (box_of region.now)) (box_of region.now) (data_of region_data.now)
            chunk.now.indices.now) self.old self.new result }
    {
        let shared = region.overlap(alloc, &chunk.region)?;
        let origin = chunk.region.start();
        let part = shared.relative_to(alloc, origin)?;
        let data_type = &self.layout.cell_type.data_type;
        let data = region_data.extract_array_subset(alloc, data_type, region, &shared)?;
        self.patch_chunk(alloc, chunk, &part, &data, options)
    }
}

ghost use Rattle.std.specs.Prelude.{◌≡◌, ◌↔◌, true, IsTrue};
ghost use Rattle.zarrs_subset.specs.Regions.{LiesInBox, box_of};

/// Returns whether a chunk of this box takes its part of the region by itself, where `parts` are written so: one that the
/// region covers does not.
pub(super) fn takes_itself(parts: bool, region: &ArraySubset, chunk: &ArraySubset) -> bool
    ensures { IsTrue result ↔ ((parts ≡ true)
        × (LiesInBox (box_of chunk.now) (box_of region.now) → ⊥)) }
{
    parts && !lies_in_box(chunk, region)
}
