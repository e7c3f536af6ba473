//! Writes of chunks, and compactions.
use super::Engine;
use std::alloc::Global;
use zarrs_chunk_grid::ChunkGridTraits;
use zarrs_codec_chain::{ChainTraits, CodecOptions};
use zarrs_data_type::ArrayBytes;
use zarrs_engine_calls::ArrayError;
use zarrs_keys::ChunkKeyEncodingTraits;
use zarrs_storage::{Bytes, StorageError, StoreKey, WritableStorageTraits};
use zarrs_subset::ArraySubset;

impl<
    S: WritableStorageTraits,
    G: ChunkGridTraits,
    K: ChunkKeyEncodingTraits,
    C: ChainTraits,
> Engine<S, G, K, C> {
    ghost use Rattle.std.specs.Prelude.{◌≡◌, true, Some, IsSome, length, option_map};
    ghost use Rattle.zarrs_chunk_grid.specs.Grids.{box_at, has_box};
    ghost use Rattle.zarrs_engine_calls.specs.Content.{decoded_cells};
    ghost use Rattle.zarrs_subset.specs.Regions.{box_of};
    ghost use Rattle.zarrs_data_type.specs.ArrayData.{data_of};
    ghost use Rattle.zarrs_codec_chain.specs.Options.{stores_empty_chunks};
    ghost use Rattle.zarrs_engine_calls.specs.Refusals.{refusal_of, refusal_of_storage};
    ghost use Rattle.zarrs_engine_calls.specs.Changes.{IsPut};
    ghost use Rattle.zarrs_engine.specs.Engine.{layout_of, store_of};
    ghost use Rattle.zarrs_engine.specs.Outcomes.{StoresChunkOrRefuses, Writes, ErasesChunkOrRefuses};
    ghost use Rattle.zarrs_engine.specs.Outcomes.{ErasesChunksOrRefuses, CompactsChunkOrRefuses};
    ghost use Rattle.zarrs_engine_layout.specs.Steps.{RefusesPut};
    ghost use Rattle.zarrs_engine_calls.specs.Reach.{MayAskChunk};

    /// Sets the value at one key, or erases the key, by one writing call of the store.
    ///
    /// # Errors
    /// If the store refuses, and `OutOfMemory`. No value is changed then.
    #[inline(always)]
    pub(crate) fn put(
        &mut self,
        alloc: Global,
        key: &StoreKey,
        value: Option<Vec<u8>>,
    ) -> Result<(), StorageError>
        ensures { Writes refusal_of_storage S.state
            (IsPut key.now (option_map (λ v. v.items) value)) RefusesPut self.old self.new result }
    {
        match value {
            Some(value) => {
                let value = Bytes::from_vec(value)?;
                self.storage.set(alloc, key, value)
            }
            None => self.storage.erase(alloc, key),
        }
    }

    /// Stores the cells of the chunk with these indices, by one writing call of the store. If the options do not keep
    /// empty chunks and each cell is the fill value's, the key is erased.
    ///
    /// # Errors
    /// In this order: E3 for indices without a chunk; E8 for a chunk of more bytes than a `usize` counts; E4 for data
    /// that is not one cell for each position, each a value of the data type, or that the chain does not take; E8 if
    /// an encoded size overflows; E7 if the store refuses. E9 may come at any time. Nothing is changed then.
    pub fn store_chunk(
        &mut self,
        alloc: Global,
        chunk_indices: &[u64],
        chunk_data: &ArrayBytes<'_>,
        options: &CodecOptions,
    ) -> Result<(), ArrayError>
        ensures { StoresChunkOrRefuses S.state (stores_empty_chunks options.now) chunk_indices.now
            (data_of chunk_data.now) self.old self.new result }
    {
        let key = self.layout.chunk_key(alloc, chunk_indices)?;
        let value = self
            .layout
            .chunk_value(alloc, chunk_indices, chunk_data, options)?;
        self.put(alloc, &key, value)?;
        Ok(())
    }

    /// Stores these bytes as those of the chunk with these indices, by one writing call of the store. The chunk has a
    /// box, and the bytes decode: both are conditions, and are not tested.
    ///
    /// # Errors
    /// E7 if the store refuses. E9 may come at any time. Nothing is changed then.
    pub fn store_encoded_chunk(
        &mut self,
        alloc: Global,
        chunk_indices: &[u64],
        encoded_chunk_bytes: Bytes,
    ) -> Result<(), ArrayError>
        requires chunk { has_box (layout_of self.old).grid chunk_indices.now ≡ true }
        requires decodes { IsSome (decoded_cells (layout_of self.old)
            (box_at (layout_of self.old).grid chunk_indices.now) encoded_chunk_bytes) }
        ensures { Writes refusal_of S.state
            (IsPut ((layout_of self.old).key chunk_indices.now) (Some encoded_chunk_bytes))
            RefusesPut self.old self.new result }
    {
        let key = self.layout.chunk_key(alloc, chunk_indices)?;
        self.storage.set(alloc, &key, encoded_chunk_bytes)?;
        Ok(())
    }

    /// Erases the chunk with these indices, whether it is present or not, by one writing call of the store.
    ///
    /// # Errors
    /// If the store refuses, and `OutOfMemory`. Nothing is changed then.
    pub fn erase_chunk(&mut self, alloc: Global, chunk_indices: &[u64]) -> Result<(), StorageError>
        requires { length chunk_indices.now ≡ (layout_of self.old).grid.dimensions }
        ensures { ErasesChunkOrRefuses S.state chunk_indices.now self.old self.new result }
    {
        let key = self.layout.chunk_key(alloc, chunk_indices)?;
        self.put(alloc, &key, None)
    }

    /// Erases the chunks with the indices in the range, in row-major order, whether they are present or not, each by
    /// one writing call of the store. An empty range asks nothing of the store.
    ///
    /// # Errors
    /// If the store refuses, and `OutOfMemory`. The chunks before that one are gone then, and no later one.
    pub fn erase_chunks(&mut self, alloc: Global, chunks: &ArraySubset) -> Result<(), StorageError>
        requires { length (box_of chunks.now).start ≡ (layout_of self.old).grid.dimensions }
        ensures { ErasesChunksOrRefuses S.state (box_of chunks.now) self.old self.new result }
    {
        let Some(mut walk) = chunks.walk(alloc)? else {
            return Ok(());
        };
        loop {
            self.erase_chunk(alloc, walk.current())?;
            if !walk.advance() {
                return Ok(());
            }
        }
    }

    /// Puts the compaction of the bytes of the chunk with these indices in their place, by one writing call of the store,
    /// and returns true. If the chunk is absent or its bytes are compact, nothing is written, and the answer is false. No
    /// cell changes.
    ///
    /// # Errors
    /// In this order: E7 if the store refuses the key. Then, if the chunk is present, E3 for indices without a chunk; E4
    /// if the chain takes no such bytes; E8 if their compaction passes a size; E7 if the store refuses the writing call.
    /// E9 may come at any time. Nothing is changed then.
    pub fn compact_chunk(
        &mut self,
        alloc: Global,
        chunk_indices: &[u64],
    ) -> Result<bool, ArrayError>
        requires dimensions { length chunk_indices.now ≡ (layout_of self.old).grid.dimensions }
        requires ask { MayAskChunk (layout_of self.old) chunk_indices.now
            (store_of S.state self.old) }
        ensures { CompactsChunkOrRefuses S.state chunk_indices.now self.old self.new result }
    {
        let key = self.layout.chunk_key(alloc, chunk_indices)?;
        let Some(encoded) = self.stored_at(alloc, chunk_indices, &key)? else {
            return Ok(false);
        };
        let Some(less) = self.layout.compact(alloc, chunk_indices, &encoded)? else {
            return Ok(false);
        };
        self.put(alloc, &key, Some(less))?;
        Ok(true)
    }
}
