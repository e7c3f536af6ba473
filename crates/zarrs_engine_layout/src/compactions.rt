//! Compactions of the bytes of chunks.
use crate::array_layout::ArrayLayout;
use std::alloc::Global;
use zarrs_chunk_grid::ChunkGridTraits;
use zarrs_codec_chain::ChainTraits;
use zarrs_engine_calls::ArrayError;
use zarrs_keys::ChunkKeyEncodingTraits;

impl<G: ChunkGridTraits, K: ChunkKeyEncodingTraits, C: ChainTraits> ArrayLayout<G, K, C> {
    ghost use Rattle.std.specs.Prelude.{◌≡◌, Some, option_map};
    ghost use Rattle.zarrs_engine_calls.specs.Compactions.{compacted_bytes, compaction_refusal};
    ghost use Rattle.zarrs_engine_layout.specs.Answers.{Answers};
    ghost use Rattle.zarrs_engine_layout.specs.Layouts.{layout_meaning};

    /// Returns the compaction of the bytes of the chunk with these indices, or `None` if they are compact.
    ///
    /// # Errors
    /// In this order: E3 for indices without a chunk; E4 if the chain takes no such bytes; E8 if their compaction passes
    /// a size. E9 may come at any time.
    pub fn compact(
        &self,
        alloc: Global,
        chunk_indices: &[u64],
        encoded: &[u8],
    ) -> Result<Option<Vec<u8>>, ArrayError>
        ensures { Answers (compaction_refusal (layout_meaning self.now) chunk_indices.now
            (Some encoded.now)) (λ less. compacted_bytes (layout_meaning self.now)
            chunk_indices.now encoded.now ≡ Some (option_map (λ v. v.items) less)) result }
    {
        let shape = self.chunk_shape(alloc, chunk_indices)?;
        Ok(self.chain.compact(alloc, encoded, shape.as_slice())?)
    }
}
