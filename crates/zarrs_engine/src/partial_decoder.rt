//! Reads of the parts of one chunk, one after another.
ghost use Rattle.std.specs.Prelude.{◌≡◌, true};
ghost use Rattle.zarrs_chunk_grid.specs.Grids.{has_box};
ghost use Rattle.zarrs_engine.specs.Engine.{layout_of};

use crate::engine::Engine;
use std::alloc::Global;
use zarrs_chunk_grid::ChunkGridTraits;
use zarrs_codec_chain::{ChainTraits, CodecOptions};
use zarrs_data_type::{ArrayBytes, ArrayBytesDecodeIntoTarget};
use zarrs_engine_calls::ArrayError;
use zarrs_keys::ChunkKeyEncodingTraits;
use zarrs_storage::ReadableStorageTraits;
use zarrs_subset::{ArrayIndices, ArraySubset};

/// A chunk of an array, of which parts are read. It keeps nothing of what it read.
#[derive(Debug, Drop)]
pub struct ChunkPartialDecoder<
    'a,
    S,
    G: ChunkGridTraits,
    K: ChunkKeyEncodingTraits,
    C: ChainTraits,
> {
    engine: &'a Engine<S, G, K, C>,
    chunk_indices: ArrayIndices,
    ghost boxed: { has_box (layout_of engine.now).grid chunk_indices.items ≡ true },
}

impl<S, G: ChunkGridTraits, K: ChunkKeyEncodingTraits, C: ChainTraits> Engine<S, G, K, C> {
    ghost use Rattle.std.specs.Prelude.{◌≡◌, true, IfOk, IfErr, OnOk};
    ghost use Rattle.zarrs_chunk_grid.specs.Grids.{has_box};
    ghost use Rattle.zarrs_engine_calls.specs.ArgumentRefusals.{chunk_refusal};
    ghost use Rattle.zarrs_engine_calls.specs.Refusals.{RefusesBy, refusal_of};
    ghost use Rattle.zarrs_engine.specs.Engine.{layout_of};
    ghost use Rattle.zarrs_engine.specs.PartialDecoders.{engine_of, indices_of};

    /// Returns the chunk with these indices, to read parts of it. The store is not asked.
    ///
    /// # Errors
    /// E3 for another number of indices than dimensions, or indices without a chunk. E9 may come at any time.
    pub fn partial_decoder(
        &self,
        alloc: Global,
        chunk_indices: &[u64],
    ) -> Result<ChunkPartialDecoder<'_, S, G, K, C>, ArrayError>
        ensures engine { IfOk result (λ decoder. engine_of decoder ≡ self.now) }
        ensures chunk { IfOk result (λ decoder. indices_of decoder ≡ chunk_indices.now) }
        ensures accepted { OnOk result (has_box (layout_of self.now).grid chunk_indices.now
            ≡ true) }
        ensures refused { IfErr result (λ e. RefusesBy
            (chunk_refusal (layout_of self.now) chunk_indices.now) (refusal_of e)) }
    {
        self.layout().chunk_box(alloc, chunk_indices)?;
        Ok(ChunkPartialDecoder {
            engine: self,
            chunk_indices: chunk_indices.to_vec(alloc)?,
        })
    }
}

impl<
    S: ReadableStorageTraits,
    G: ChunkGridTraits,
    K: ChunkKeyEncodingTraits,
    C: ChainTraits,
> ChunkPartialDecoder<'_, S, G, K, C> {
    ghost use Rattle.std.specs.Prelude.{◌≡◌, ◌↔◌, true, IfOk, IfErr, IsTrue};
    ghost use Rattle.zarrs_subset.specs.Regions.{box_of};
    ghost use Rattle.zarrs_engine_calls.specs.ArgumentRefusals.{part_refusal};
    ghost use Rattle.zarrs_engine_calls.specs.Changes.{IsPresent};
    ghost use Rattle.zarrs_engine_calls.specs.Refusals.{RefusesBy, key_refusal, refusal_of};
    ghost use Rattle.zarrs_engine.specs.Engine.{layout_of, state_of, store_of};
    ghost use Rattle.zarrs_engine_layout.specs.Answers.{Answers};
    ghost use Rattle.zarrs_engine.specs.Outcomes.{MayRetrievePart, RetrievesPartOrRefuses};
    ghost use Rattle.zarrs_engine.specs.PartialDecoders.{engine_of, indices_of};
    ghost use Rattle.zarrs_engine.specs.PartialDecoders.{DecodesPartInto, region_of_part};

    /// Returns the cells of a part of the chunk, in row-major order, as `Engine::retrieve_chunk_subset` returns them.
    /// The part is seen from the origin of the chunk. Where the chunk is absent they are fill.
    ///
    /// # Errors
    /// E2 for a part of another number of dimensions, or that passes the chunk. Then as for
    /// `Engine::retrieve_chunk_subset`. E9 may come at any time.
    pub fn partial_decode(
        &self,
        alloc: Global,
        chunk_subset: &ArraySubset,
        _options: &CodecOptions,
    ) -> Result<ArrayBytes<'static>, ArrayError>
        requires { MayRetrievePart S.state (indices_of self.now) (box_of chunk_subset.now)
            (engine_of self.now) }
        ensures { RetrievesPartOrRefuses S.state (indices_of self.now) (box_of chunk_subset.now)
            (engine_of self.now) result }
    {
        self.engine
            .retrieve_chunk_subset(alloc, &self.chunk_indices, chunk_subset)
    }

    /// Reads a part of the chunk into the target's box, where its cells stand in row-major order. The part is seen from
    /// the origin of the chunk. Every byte outside the box stays.
    ///
    /// # Errors
    /// E2 for a part of another number of dimensions, or that passes the chunk. Then as for
    /// `Engine::retrieve_array_subset_into` over the region that the part is in the array: E4 for a target of another
    /// cell size or depth than the data type's, of which a variable type has none; E6 for a box of another shape than
    /// the part's; E7, E8 and E4 as the read of a region has them. E9 may come at any time. What the arguments decide is
    /// refused before a byte is written; after another refusal the inside of the box is open.
    #[tactic(auto, using(zarrs_data_type_region::proofs::Kept::keeps_itself))]
    pub fn partial_decode_into(
        &self,
        alloc: Global,
        chunk_subset: &ArraySubset,
        target: &mut ArrayBytesDecodeIntoTarget<'_, '_, '_>,
        _options: &CodecOptions,
    ) -> Result<(), ArrayError>
        requires { MayRetrievePart S.state (indices_of self.now) (box_of chunk_subset.now)
            (engine_of self.now) }
        ensures { DecodesPartInto (layout_of (engine_of self.now)) (indices_of self.now)
            (box_of chunk_subset.now) (state_of S.state (engine_of self.now)) target.old target.new
            result }
    {
        let region = self.region_of(alloc, chunk_subset)?;
        self.engine
            .retrieve_array_subset_into(alloc, &region, target)
    }

    /// Returns the region of the array that a part of the chunk is.
    ///
    /// # Errors
    /// E2 for a part of another number of dimensions, or that passes the chunk. E9 may come at any time.
    fn region_of(
        &self,
        alloc: Global,
        chunk_subset: &ArraySubset,
    ) -> Result<ArraySubset, ArrayError>
        ensures { Answers (part_refusal (layout_of (engine_of self.now)) (indices_of self.now)
            (box_of chunk_subset.now)) (λ region. box_of region ≡ region_of_part
            (layout_of (engine_of self.now)) (indices_of self.now) (box_of chunk_subset.now))
            result }
    {
        let layout = self.engine.layout();
        let chunk = layout.chunk_box(alloc, &self.chunk_indices)?;
        layout.part_of(alloc, &self.chunk_indices, &chunk, chunk_subset)
    }

    /// Returns whether the chunk is present. None of its bytes is read.
    ///
    /// # Errors
    /// E7 if the store refuses the key. E9 may come at any time.
    pub fn exists(&self, alloc: Global) -> Result<bool, ArrayError>
        requires { (store_of S.state (engine_of self.now)).may_ask
            ((layout_of (engine_of self.now)).key (indices_of self.now)) ≡ true }
        ensures present { IfOk result (λ present. IsTrue present ↔ IsPresent
            (layout_of (engine_of self.now)) (indices_of self.now)
            (store_of S.state (engine_of self.now))) }
        ensures refused { IfErr result (λ e. RefusesBy (key_refusal
            (layout_of (engine_of self.now)) (indices_of self.now)
            (store_of S.state (engine_of self.now))) (refusal_of e)) }
    {
        let key = self.engine.layout().chunk_key(alloc, &self.chunk_indices)?;
        let size = self.engine.storage().size_key(alloc, &key)?;
        Ok(size.is_some())
    }
}
