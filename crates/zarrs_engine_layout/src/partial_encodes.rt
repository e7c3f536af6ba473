//! What becomes of the bytes of a chunk of which a part is written by itself.
use crate::array_layout::ArrayLayout;
use std::alloc::Global;
use zarrs_chunk_grid::ChunkGridTraits;
use zarrs_codec_chain::{ChainTraits, CodecOptions};
use zarrs_codec_shard::PartialWrite;
use zarrs_data_type::{ArrayBytes, ChunkType};
use zarrs_engine_calls::ArrayError;
use zarrs_keys::ChunkKeyEncodingTraits;
use zarrs_subset::ArraySubset;

impl<G: ChunkGridTraits, K: ChunkKeyEncodingTraits, C: ChainTraits> ArrayLayout<G, K, C> {
    ghost use Rattle.std.specs.Prelude.{◌≡◌, true, length, Some, IfOk, IfErr, option_map};
    ghost use Rattle.zarrs_subset.specs.Boxes.{position_count};
    ghost use Rattle.zarrs_subset.specs.Regions.{box_of};
    ghost use Rattle.zarrs_data_type.specs.ArrayData.{data_of};
    ghost use Rattle.zarrs_data_type.specs.Cells.{HasCells};
    ghost use Rattle.zarrs_codec_shard.specs.ShardPatches.{change_of};
    ghost use Rattle.zarrs_codec_chain.specs.Chain.{partial_encoding};
    ghost use Rattle.zarrs_codec_chain.specs.Options.{stores_empty_chunks};
    ghost use Rattle.zarrs_engine_calls.specs.Patches.{IsNotEncoded};
    ghost use Rattle.zarrs_engine_calls.specs.Refusals.{refusal_of};
    ghost use Rattle.zarrs_engine_layout.specs.Layouts.{layout_meaning};

    /// Returns whether the cells of a part are written into the bytes of their chunk.
    pub fn encodes_partly(&self) -> bool
        ensures { result ≡ (layout_meaning self.now).chain.encodes_partly }
    {
        self.chain.supports_partial_encode()
    }

    /// Returns what is done with the key of a chunk, so that it has this data at the positions of `part`, seen from the
    /// chunk's origin, and its other cells stay. `stored` has the bytes of the key, or `None` if it is absent.
    ///
    /// # Errors
    /// E4 if the chain does not take the chunk, or its bytes do not decode; E8 if a size is too large. Which comes if both
    /// hold is open. E9 may come at any time.
    pub fn partial_encode(
        &self,
        alloc: Global,
        chunk: &ArraySubset,
        stored: Option<&[u8]>,
        part: &ArraySubset,
        part_data: &ArrayBytes<'_>,
        options: &CodecOptions,
    ) -> Result<PartialWrite, ArrayError>
        requires supported { (layout_meaning self.now).chain.encodes_partly ≡ true }
        requires dimensions { length (box_of part.now).start ≡ length (box_of chunk.now).shape }
        requires cells { HasCells (layout_meaning self.now).kind (data_of part_data.now)
            (position_count (box_of part.now).shape) }
        ensures written { IfOk result (λ write.
            partial_encoding (layout_meaning self.now).chain (stores_empty_chunks options.now)
            (layout_meaning self.now).kind (layout_meaning self.now).fill
            (box_of chunk.now).shape (option_map (λ encoded. encoded.now) stored.entry)
            (box_of part.now) (data_of part_data.now) ≡ Some (change_of write)) }
        ensures refused { IfErr result (λ e. IsNotEncoded (layout_meaning self.now)
            (stores_empty_chunks options.now) (box_of chunk.now).shape
            (option_map (λ encoded. encoded.now) stored.entry) (box_of part.now)
            (data_of part_data.now) (refusal_of e)) }
    {
        let chunk = ChunkType {
            cell_type: &self.cell_type,
            shape: chunk.shape(),
        };
        let write = self
            .chain
            .partial_encode(alloc, stored, part, part_data, &chunk, options)?;
        Ok(write)
    }
}
