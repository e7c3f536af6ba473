//! Reads of the parts of one chunk, one after another.
use super::Array;
use std::alloc::Global;
use std::fmt;
use zarrs_chunk_grid::ChunkGrid;
use zarrs_codec::{CodecChain, CodecOptions};
use zarrs_data_type::{ArrayBytes, ArrayBytesDecodeIntoTarget};
use zarrs_engine::ArrayError;
use zarrs_keys::ChunkKeyEncoding;
use zarrs_storage::ReadableStorageTraits;
use zarrs_subset::ArraySubsetTraits;

/// A chunk of an array, of which parts are read. It keeps nothing of what it read.
#[derive(Drop)]
pub struct ArrayPartialDecoder<'a, TStorage> {
    decoder: zarrs_engine::ChunkPartialDecoder<
        'a,
        TStorage,
        ChunkGrid,
        ChunkKeyEncoding,
        CodecChain,
    >,
}

impl<TStorage: ReadableStorageTraits> Array<TStorage> {
    ghost use Rattle.zarrs.specs.PartialEncoders.{DecodesChunk};

    /// Returns the chunk with these indices, to read parts of it. The store is not asked.
    ///
    /// # Errors
    /// E3 for another number of indices than dimensions, or indices without a chunk. E9 may come at any time.
    pub fn partial_decoder(
        &self,
        alloc: Global,
        chunk_indices: &[u64],
    ) -> Result<ArrayPartialDecoder<'_, TStorage>, ArrayError>
        ensures { DecodesChunk TStorage.state chunk_indices.now self.now result }
    {
        self.partial_decoder_opt(alloc, chunk_indices, &CodecOptions::default())
    }

    /// Does what `partial_decoder` does. No option changes what is read.
    ///
    /// # Errors
    /// Those of `partial_decoder`.
    pub fn partial_decoder_opt(
        &self,
        alloc: Global,
        chunk_indices: &[u64],
        _options: &CodecOptions,
    ) -> Result<ArrayPartialDecoder<'_, TStorage>, ArrayError>
        ensures { DecodesChunk TStorage.state chunk_indices.now self.now result }
    {
        let decoder = self.engine.partial_decoder(alloc, chunk_indices)?;
        Ok(ArrayPartialDecoder { decoder })
    }
}

impl<TStorage: ReadableStorageTraits> ArrayPartialDecoder<'_, TStorage> {
    ghost use Rattle.std.specs.Prelude.{◌≡◌, ◌↔◌, true, IfOk, IfErr, IsTrue};
    ghost use Rattle.zarrs_engine_calls.specs.Changes.{IsPresent};
    ghost use Rattle.zarrs_engine_calls.specs.Refusals.{RefusesBy, key_refusal, refusal_of};
    ghost use Rattle.zarrs_engine.specs.PartialDecoders.{DecodesPartInto};
    ghost use Rattle.zarrs.specs.PartialEncoders.{MayDecodeAt, layout_of_decoder, state_of_decoder};
    ghost use Rattle.zarrs.specs.PartialEncoders.{DecodesPart, store_of_decoder};
    ghost use Rattle.zarrs.specs.PartialEncoders.{indices_of_decoder};

    /// Returns the cells of a part of the chunk, in row-major order. The part is seen from the origin of the chunk. If the
    /// chunk is absent, they are fill. No option changes what is read.
    ///
    /// # Errors
    /// E2 for a part of another number of dimensions, or that passes the chunk. Then as for
    /// `Array::retrieve_chunk_subset`. E9 may come at any time.
    pub fn partial_decode<R: ArraySubsetTraits>(
        &self,
        alloc: Global,
        chunk_subset: &R,
        options: &CodecOptions,
    ) -> Result<ArrayBytes<'static>, ArrayError>
        requires { MayDecodeAt TStorage.state (R.region chunk_subset.now) self.now }
        ensures { DecodesPart TStorage.state (R.region chunk_subset.now) self.now result }
    {
        let chunk_subset = chunk_subset.to_array_subset(alloc)?;
        self.decoder.partial_decode(alloc, &chunk_subset, options)
    }

    /// Reads a part of the chunk into the target's box, where its cells are in row-major order. The part is seen from the
    /// origin of the chunk. Every byte outside the box stays. No option changes what is read.
    ///
    /// # Errors
    /// E2 for a part of another number of dimensions, or that passes the chunk. Then as for
    /// `Array::retrieve_array_subset_into` over the region that the part is in the array: E4 for a target of another
    /// cell size or depth than the data type's, of which a variable type has none; E6 for a box of another shape than
    /// the part's; E7, E8 and E4 as the read of a region has them. E9 may come at any time. What the arguments decide is
    /// refused before a byte is written; after another refusal the inside of the box is open.
    pub fn partial_decode_into<R: ArraySubsetTraits>(
        &self,
        alloc: Global,
        chunk_subset: &R,
        target: &mut ArrayBytesDecodeIntoTarget<'_, '_, '_>,
        options: &CodecOptions,
    ) -> Result<(), ArrayError>
        requires { MayDecodeAt TStorage.state (R.region chunk_subset.now) self.now }
        ensures { DecodesPartInto (layout_of_decoder self.now) (indices_of_decoder self.now)
            (R.region chunk_subset.now) (state_of_decoder TStorage.state self.now) target.old
            target.new result }
    {
        let chunk_subset = chunk_subset.to_array_subset(alloc)?;
        self.decoder
            .partial_decode_into(alloc, &chunk_subset, target, options)
    }

    /// Returns whether the chunk is present. None of its bytes is read.
    ///
    /// # Errors
    /// E7 if the store refuses the key. E9 may come at any time.
    pub fn exists(&self, alloc: Global) -> Result<bool, ArrayError>
        requires { (store_of_decoder TStorage.state self.now).may_ask
            ((layout_of_decoder self.now).key (indices_of_decoder self.now)) ≡ true }
        ensures present { IfOk result (λ present. IsTrue present ↔ IsPresent
            (layout_of_decoder self.now) (indices_of_decoder self.now)
            (store_of_decoder TStorage.state self.now)) }
        ensures refused { IfErr result (λ e. RefusesBy (key_refusal (layout_of_decoder self.now)
            (indices_of_decoder self.now) (store_of_decoder TStorage.state self.now))
            (refusal_of e)) }
    {
        self.decoder.exists(alloc)
    }
}

/// Prints its name alone. The store is not printed.
impl<TStorage> fmt::Debug for ArrayPartialDecoder<'_, TStorage> {
    fn fmt<W: fmt::Write>(&self, f: &mut fmt::Formatter<W>) -> fmt::Result {
        f.debug_struct("ArrayPartialDecoder")
            .finish_non_exhaustive()
    }
}
