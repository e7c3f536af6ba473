//! Writes of the parts of one chunk, one after another.
ghost use Rattle.std.specs.Prelude.{◌≡◌, true};
ghost use Rattle.zarrs_chunk_grid.specs.Grids.{has_box};
ghost use Rattle.zarrs_engine.specs.Engine.{layout_of};

use crate::engine::Engine;
use std::alloc::Global;
use std::fmt;
use zarrs_chunk_grid::ChunkGridTraits;
use zarrs_codec_chain::{ChainTraits, CodecOptions};
use zarrs_data_type::ArrayBytes;
use zarrs_engine_calls::ArrayError;
use zarrs_keys::ChunkKeyEncodingTraits;
use zarrs_storage::WritableStorageTraits;
use zarrs_subset::{ArrayIndices, ArraySubset};

/// A chunk of an array, of which parts are written. It keeps nothing of what it wrote.
#[derive(Drop)]
pub struct ChunkPartialEncoder<
    'a,
    S,
    G: ChunkGridTraits,
    K: ChunkKeyEncodingTraits,
    C: ChainTraits,
> {
    engine: &'a mut Engine<S, G, K, C>,
    chunk_indices: ArrayIndices,
    ghost boxed: { has_box (layout_of engine.now).grid chunk_indices.items ≡ true },
}

impl<S, G: ChunkGridTraits, K: ChunkKeyEncodingTraits, C: ChainTraits> Engine<S, G, K, C> {
    ghost use Rattle.std.specs.Borrow.{sem};
    ghost use Rattle.std.specs.Prelude.{◌≡◌, true, IfOk, IfErr, OnOk};
    ghost use Rattle.zarrs_chunk_grid.specs.Grids.{has_box};
    ghost use Rattle.zarrs_engine_calls.specs.ArgumentRefusals.{chunk_refusal};
    ghost use Rattle.zarrs_engine_calls.specs.Refusals.{RefusesBy, refusal_of};
    ghost use Rattle.zarrs_engine.specs.Engine.{layout_of};
    ghost use Rattle.zarrs_engine.specs.PartialEncoders.{RestsUnlessEncoded, engine_of, indices_of};
    ghost use Rattle.zarrs_engine.specs.PartialEncoders.{loan_of};

    /// Returns the chunk with these indices, to write parts of it. The store is not asked.
    ///
    /// # Errors
    /// E3 for another number of indices than dimensions, or indices without a chunk. E9 may come at any time.
    pub fn partial_encoder(
        &mut self,
        alloc: Global,
        chunk_indices: &[u64],
    ) -> Result<ChunkPartialEncoder<'_, S, G, K, C>, ArrayError>
        ensures* untouched { sem 𝓛 (RestsUnlessEncoded S.row G.row K.row C.row G.ChunkGridTraits
            K.ChunkKeyEncodingTraits C.ChainTraits self.entry result) }
        ensures engine { IfOk result (λ encoder. engine_of encoder ≡ self.old) }
        ensures same_loan { IfOk result (λ encoder. loan_of encoder ≡ self.entry.ghost_name) }
        ensures chunk { IfOk result (λ encoder. indices_of encoder ≡ chunk_indices.now) }
        ensures accepted { OnOk result (has_box (layout_of self.old).grid chunk_indices.now
            ≡ true) }
        ensures refused { IfErr result (λ e. RefusesBy
            (chunk_refusal (layout_of self.old) chunk_indices.now) (refusal_of e)) }
    {
        self.layout().chunk_box(alloc, chunk_indices)?;
        let chunk_indices = chunk_indices.to_vec(alloc)?;
        Ok(ChunkPartialEncoder {
            engine: self,
            chunk_indices,
        })
    }
}

impl<
    S: WritableStorageTraits,
    G: ChunkGridTraits,
    K: ChunkKeyEncodingTraits,
    C: ChainTraits,
> ChunkPartialEncoder<'_, S, G, K, C> {
    ghost use Rattle.std.specs.Prelude.{◌≡◌, ◌&&◌, None};
    ghost use Rattle.zarrs_subset.specs.Regions.{box_of};
    ghost use Rattle.zarrs_data_type.specs.ArrayData.{data_of};
    ghost use Rattle.zarrs_codec_chain.specs.Options.{stores_empty_chunks};
    ghost use Rattle.zarrs_engine_calls.specs.ArgumentRefusals.{part_refusal};
    ghost use Rattle.zarrs_engine_calls.specs.Reach.{MayAskChunk};
    ghost use Rattle.zarrs_engine.specs.Engine.{layout_of, store_of};
    ghost use Rattle.zarrs_engine.specs.Outcomes.{EncodesPartOrRefuses, ErasesEncodedOrRefuses};
    ghost use Rattle.zarrs_engine.specs.PartialEncoders.{engine_of, indices_of, loan_of};

    /// Stores the cells over a part of the chunk, as `Engine::partial_encode` does, by one writing call of the store.
    ///
    /// # Errors
    /// Those of `Engine::partial_encode`. Nothing is changed then.
    pub fn partial_encode(
        &mut self,
        alloc: Global,
        chunk_subset: &ArraySubset,
        bytes: &ArrayBytes<'_>,
        options: &CodecOptions,
    ) -> Result<(), ArrayError>
        requires { part_refusal (layout_of (engine_of self.old)) (indices_of self.old)
            (box_of chunk_subset.now) ≡ None
            → MayAskChunk (layout_of (engine_of self.old)) (indices_of self.old)
            (store_of S.state (engine_of self.old)) }
        ensures encodes { EncodesPartOrRefuses S.state (stores_empty_chunks options.now)
            (indices_of self.old) (box_of chunk_subset.now) (data_of bytes.now)
            (engine_of self.old) (engine_of self.new) result }
        ensures same_loan { loan_of self.new ≡ loan_of self.old }
        ensures chunk { indices_of self.new ≡ indices_of self.old }
    {
        self.engine
            .partial_encode(alloc, &self.chunk_indices, chunk_subset, bytes, options)
    }

    /// Erases the chunk, whether it is present or not, by one writing call of the store.
    ///
    /// # Errors
    /// E7 if the store refuses. E9 may come at any time. Nothing is changed then.
    pub fn erase(&mut self, alloc: Global) -> Result<(), ArrayError>
        ensures erases { ErasesEncodedOrRefuses S.state (indices_of self.old) (engine_of self.old)
            (engine_of self.new) result }
        ensures same_loan { loan_of self.new ≡ loan_of self.old }
        ensures chunk { indices_of self.new ≡ indices_of self.old }
    {
        self.engine.erase_chunk(alloc, &self.chunk_indices)?;
        Ok(())
    }

    /// Returns whether the chain and the store can write parts by themselves.
    pub fn supports_partial_encode(&self) -> bool
        ensures { result ≡ ((layout_of (engine_of self.now)).chain.encodes_partly
            && (store_of S.state (engine_of self.now)).sets_parts) }
    {
        self.engine.encodes_partly()
    }
}

/// Prints the engine and the indices. The store is not printed.
impl<S, G: ChunkGridTraits, K: ChunkKeyEncodingTraits, C: ChainTraits> fmt::Debug
    for ChunkPartialEncoder<'_, S, G, K, C> {
    fn fmt<W: fmt::Write>(&self, f: &mut fmt::Formatter<W>) -> fmt::Result {
        f.debug_struct("ChunkPartialEncoder")
            .field("engine", &*self.engine)
            .field("chunk_indices", &self.chunk_indices)
            .finish()
    }
}
