//! Calls of an array, which pass to its engine.
use super::Array;
use std::alloc::{AllocError, Global};
use zarrs_chunk_grid::ChunkGridTraits;
use zarrs_codec::CodecOptions;
use zarrs_creation::overwrite_shape;
use zarrs_engine::{ArrayError, Call, Reply, replay};
use zarrs_storage::{Bytes, ReadableStorageTraits, StorageError, WritableStorageTraits};
use zarrs_subset::ArraySubsetTraits;

impl<TStorage: ReadableStorageTraits> Array<TStorage> {
    ghost use Rattle.std.specs.Prelude.{◌≡◌, IfOk, IfErr, OnOk};
    ghost use Rattle.std.specs.Prelude.{length, map, option_map};
    ghost use Rattle.zarrs_subset.specs.Regions.{positions};
    ghost use Rattle.zarrs_engine_calls.specs.Reach.{MayAskChunk, MayAskChunks};
    ghost use Rattle.zarrs_engine_calls.specs.Content.{value_at};
    ghost use Rattle.zarrs_engine_calls.specs.Refusals.{refusal_of, key_refusal};
    ghost use Rattle.zarrs_engine.specs.Encoded.{ReadsKeys, RefusesEncoded, stored_values};
    ghost use Rattle.zarrs.specs.Arrays.{layout_of_array, store_of_array};
    ghost use Rattle.zarrs.specs.Queries.{Answers};

    /// Returns the bytes that are stored for the chunk with these indices, of which there is one for each dimension, or
    /// `None` if it is absent.
    ///
    /// # Errors
    /// E7 if the store refuses the key. E9 may come at any time.
    pub fn retrieve_encoded_chunk(
        &self,
        alloc: Global,
        chunk_indices: &[u64],
    ) -> Result<Option<Vec<u8>>, ArrayError>
        requires dimensions { length chunk_indices.now
            ≡ (layout_of_array self.now).grid.dimensions }
        requires ask { MayAskChunk (layout_of_array self.now) chunk_indices.now
            (store_of_array TStorage.state self.now) }
        ensures { Answers (key_refusal (layout_of_array self.now) chunk_indices.now
            (store_of_array TStorage.state self.now)) (λ value. option_map (λ v. v.items) value
            ≡ value_at (store_of_array TStorage.state self.now)
            ((layout_of_array self.now).key chunk_indices.now)) result }
    {
        self.engine.retrieve_encoded_chunk(alloc, chunk_indices)
    }

    /// Returns the bytes that are stored for each chunk of the range, in row-major order, `None` for a chunk that is
    /// absent. The range has as many dimensions as the array. The options choose nothing here.
    ///
    /// # Errors
    /// E8 for more chunks than a `u64` counts; E7 if the store refuses the key of one of them. E9 may come at any time.
    pub fn retrieve_encoded_chunks<R: ArraySubsetTraits>(
        &self,
        alloc: Global,
        chunks: &R,
        _options: &CodecOptions,
    ) -> Result<Vec<Option<Vec<u8>>>, ArrayError>
        requires dimensions { length (R.region chunks.now).start
            ≡ (layout_of_array self.now).grid.dimensions }
        requires ask { MayAskChunks (layout_of_array self.now) (positions (R.region chunks.now))
            (store_of_array TStorage.state self.now) }
        ensures values { IfOk result (λ values. map (option_map (λ v. v.items)) values.items
            ≡ stored_values (layout_of_array self.now) (store_of_array TStorage.state self.now)
            (positions (R.region chunks.now))) }
        ensures accepted { OnOk result (ReadsKeys (layout_of_array self.now)
            (positions (R.region chunks.now)) (store_of_array TStorage.state self.now)) }
        ensures refused { IfErr result (λ e. RefusesEncoded (layout_of_array self.now)
            (positions (R.region chunks.now)) (store_of_array TStorage.state self.now)
            (refusal_of e)) }
    {
        let chunks = chunks.to_array_subset(alloc)?;
        self.engine.retrieve_encoded_chunks(alloc, &chunks)
    }
}

impl<TStorage: WritableStorageTraits> Array<TStorage> {
    ghost use Rattle.std.specs.Prelude.{◌≡◌, true, Some, IsSome, length};
    ghost use Rattle.zarrs_chunk_grid.specs.Grids.{box_at, has_box};
    ghost use Rattle.zarrs_engine_calls.specs.Changes.{IsPut};
    ghost use Rattle.zarrs_engine_calls.specs.Content.{decoded_cells};
    ghost use Rattle.zarrs_engine_calls.specs.Reach.{MayAskCalls};
    ghost use Rattle.zarrs_engine_layout.specs.Steps.{RefusesPut};
    ghost use Rattle.zarrs.specs.Outcomes.{ErasesChunkOrRefuses, ErasesChunksOrRefuses};
    ghost use Rattle.zarrs.specs.Outcomes.{ReplaysCalls, WritesOrRefuses};
    ghost use Rattle.zarrs.specs.Arrays.{layout_of_array, state_of_array};

    /// Stores these bytes as those of the chunk with these indices, by one writing call of the store. The chunk has a
    /// box, and the bytes decode: both are conditions, and are not tested.
    ///
    /// # Errors
    /// E7 if the store refuses. E9 may come at any time. Nothing is changed then.
    pub fn store_encoded_chunk(
        &mut self,
        alloc: Global,
        chunk_indices: &[u64],
        encoded_chunk_bytes: Bytes,
    ) -> Result<(), ArrayError>
        requires chunk { has_box (layout_of_array self.old).grid chunk_indices.now ≡ true }
        requires decodes { IsSome (decoded_cells (layout_of_array self.old)
            (box_at (layout_of_array self.old).grid chunk_indices.now) encoded_chunk_bytes) }
        ensures { WritesOrRefuses TStorage.state
            (IsPut ((layout_of_array self.old).key chunk_indices.now) (Some encoded_chunk_bytes))
            RefusesPut self.old self.new result }
    {
        self.engine
            .store_encoded_chunk(alloc, chunk_indices, encoded_chunk_bytes)
    }

    /// Erases the chunk with these indices, whether it is present or not, by one writing call of the store.
    ///
    /// # Errors
    /// If the store refuses, and `OutOfMemory`. Nothing is changed then.
    pub fn erase_chunk(&mut self, alloc: Global, chunk_indices: &[u64]) -> Result<(), StorageError>
        requires { length chunk_indices.now ≡ (layout_of_array self.old).grid.dimensions }
        ensures { ErasesChunkOrRefuses TStorage.state chunk_indices.now self.old self.new result }
    {
        self.engine.erase_chunk(alloc, chunk_indices)
    }

    /// Erases the chunks with the indices in the range, in row-major order, whether they are present or not, each by
    /// one writing call of the store. An empty range asks nothing of the store.
    ///
    /// # Errors
    /// If the store refuses, and `OutOfMemory`. The chunks before that one are gone then, and no later one.
    pub fn erase_chunks<R: ArraySubsetTraits>(
        &mut self,
        alloc: Global,
        chunks: &R,
    ) -> Result<(), StorageError>
        requires { length (R.region chunks.now).start ≡ (layout_of_array self.old).grid.dimensions }
        ensures { ErasesChunksOrRefuses TStorage.state (R.region chunks.now) self.old self.new
            result }
    {
        let Ok(chunks) = chunks.to_array_subset(alloc) else {
            return Err(StorageError::OutOfMemory);
        };
        self.engine.erase_chunks(alloc, &chunks)
    }

    /// Makes the calls in turn, whether earlier ones were refused or not, and returns the reply to each.
    ///
    /// # Errors
    /// If the list of replies is out of memory. Nothing was called then.
    pub fn replay(
        &mut self,
        alloc: Global,
        calls: &[Call],
        options: &CodecOptions,
    ) -> Result<Vec<Reply>, AllocError>
        requires { MayAskCalls (layout_of_array self.old) calls.now
            (state_of_array TStorage.state self.old) }
        ensures { ReplaysCalls TStorage.state calls.now options.now self.old self.new result }
    {
        let replies = replay(alloc, &mut self.engine, calls, options)?;
        overwrite_shape(&mut self.metadata, self.engine.chunk_grid().array_shape());
        Ok(replies)
    }
}
