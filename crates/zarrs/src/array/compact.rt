//! Compactions of the chunks of an array, which pass to its engine.
use super::Array;
use std::alloc::Global;
use zarrs_codec::CodecOptions;
use zarrs_engine::ArrayError;
use zarrs_storage::WritableStorageTraits;

impl<TStorage: WritableStorageTraits> Array<TStorage> {
    ghost use Rattle.std.specs.Prelude.{◌≡◌, length};
    ghost use Rattle.zarrs.specs.Arrays.{layout_of_array};
    ghost use Rattle.zarrs.specs.Outcomes.{CompactsChunkOrRefuses, MayRetrieveChunk};

    /// Puts the compaction of the bytes of the chunk with these indices, of which there is one for each dimension, in
    /// their place, by one writing call of the store, and returns true. If the chunk is absent or its bytes are
    /// compact, nothing is written, and the answer is false. No cell changes. The options choose nothing here.
    ///
    /// # Errors
    /// In this order: E7 if the store refuses the key. Then, if the chunk is present, E3 for indices without a chunk; E4
    /// if the codecs take no such bytes; E8 if their compaction passes a size; E7 if the store refuses to be written. E9
    /// may come at any time. Nothing is changed then.
    pub fn compact_chunk(
        &mut self,
        alloc: Global,
        chunk_indices: &[u64],
        _options: &CodecOptions,
    ) -> Result<bool, ArrayError>
        requires dimensions { length chunk_indices.now
            ≡ (layout_of_array self.old).grid.dimensions }
        requires ask { MayRetrieveChunk TStorage.state chunk_indices.now self.old }
        ensures { CompactsChunkOrRefuses TStorage.state chunk_indices.now self.old self.new result }
    {
        self.engine.compact_chunk(alloc, chunk_indices)
    }
}
