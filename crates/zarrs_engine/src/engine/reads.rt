//! Reads of one chunk, and of chunks as the bytes that are stored, which are not decoded.
use super::Engine;
use std::alloc::Global;
use zarrs_chunk_grid::ChunkGridTraits;
use zarrs_codec_chain::ChainTraits;
use zarrs_data_type::ArrayBytes;
use zarrs_engine_calls::ArrayError;
use zarrs_engine_layout::{Chunk, invalid_indices};
use zarrs_keys::ChunkKeyEncodingTraits;
use zarrs_storage::{Bytes, ReadableStorageTraits, StoreKey};
use zarrs_subset::ArraySubset;

impl<
    S: ReadableStorageTraits,
    G: ChunkGridTraits,
    K: ChunkKeyEncodingTraits,
    C: ChainTraits,
> Engine<S, G, K, C> {
    ghost use Rattle.std.specs.Prelude.{◌≡◌, true, IfOk, IfErr, OnOk, None, length, map};
    ghost use Rattle.std.specs.Prelude.{option_map};
    ghost use Rattle.zarrs_data_type.specs.ArrayData.{data_of};
    ghost use Rattle.zarrs_engine_calls.specs.Content.{value_at};
    ghost use Rattle.zarrs_engine_calls.specs.Reach.{MayAskChunk, MayAskChunks};
    ghost use Rattle.zarrs_engine_calls.specs.Refusals.{refusal_of, key_refusal, length_refusal};
    ghost use Rattle.zarrs_engine_calls.specs.Changes.{RetrievesChunk};
    ghost use Rattle.zarrs_engine_calls.specs.StateRefusals.{RefusesChunkRead};
    ghost use Rattle.zarrs_engine.specs.Engine.{layout_of, store_of};
    ghost use Rattle.zarrs_engine.specs.Outcomes.{RetrievesChunkOrRefuses, RetrievesIfExistsOrRefuses};
    ghost use Rattle.zarrs_engine_layout.specs.Chunks.{IsChunk};
    ghost use Rattle.zarrs_engine.specs.Encoded.{ReadsKeys, ReadsValue, RefusesEncoded};
    ghost use Rattle.zarrs_engine.specs.Encoded.{stored_values};
    ghost use Rattle.zarrs_subset.specs.Regions.{box_of, positions};
    ghost use Rattle.zarrs_engine_layout.specs.Answers.{Answers};

    /// Returns the bytes that are present at the key of the chunk with these indices.
    #[inline(always)]
    pub(crate) fn stored_bytes(
        &self,
        alloc: Global,
        chunk_indices: &[u64],
    ) -> Result<Option<Bytes>, ArrayError>
        requires { MayAskChunk (layout_of self.now) chunk_indices.now (store_of S.state self.now) }
        ensures { ReadsValue (layout_of self.now) chunk_indices.now (store_of S.state self.now)
            result }
    {
        if chunk_indices.len() != self.layout.grid.dimensionality() {
            return Err(invalid_indices(alloc, chunk_indices));
        }
        let key = self.layout.chunk_key(alloc, chunk_indices)?;
        self.stored_at(alloc, chunk_indices, &key)
    }

    /// Returns the bytes that are present at this key, which is that of the chunk with these indices.
    #[inline(always)]
    pub(crate) fn stored_at(
        &self,
        alloc: Global,
        chunk_indices: &[u64],
        key: &StoreKey,
    ) -> Result<Option<Bytes>, ArrayError>
        requires long { length chunk_indices.now ≡ (layout_of self.now).grid.dimensions }
        requires key { key.now ≡ (layout_of self.now).key chunk_indices.now }
        requires ask { MayAskChunk (layout_of self.now) chunk_indices.now
            (store_of S.state self.now) }
        ensures { ReadsValue (layout_of self.now) chunk_indices.now (store_of S.state self.now)
            result }
    {
        let value = self.storage.get(alloc, key)?;
        Ok(value)
    }

    /// Returns the cells of the chunk with these indices, whose stored value this is. If it is `None`, they are all fill.
    #[inline(always)]
    fn cells_of(
        &self,
        alloc: Global,
        chunk_indices: &[u64],
        stored: Option<Bytes>,
    ) -> Result<ArrayBytes<'static>, ArrayError>
        requires stored { stored ≡ value_at (store_of S.state self.now)
            ((layout_of self.now).key chunk_indices.now) }
        requires long { length chunk_indices.now ≡ (layout_of self.now).grid.dimensions }
        requires asked { key_refusal (layout_of self.now) chunk_indices.now
            (store_of S.state self.now) ≡ None }
        ensures cells { IfOk result (λ made. RetrievesChunk (layout_of self.now)
            chunk_indices.now (data_of made) (store_of S.state self.now)) }
        ensures refused { IfErr result (λ e. RefusesChunkRead (layout_of self.now)
            (length_refusal (layout_of self.now) chunk_indices.now) true chunk_indices.now
            (store_of S.state self.now) (refusal_of e)) }
    {
        match stored {
            Some(encoded) => {
                let data = self.layout.decode(alloc, chunk_indices, &encoded)?;
                Ok(data.into_owned(alloc)?)
            }
            None => self.layout.fill(alloc, chunk_indices),
        }
    }

    /// Returns the cells of this chunk. An absent chunk is all fill value.
    ///
    /// # Errors
    /// Those of `retrieve_chunk`.
    pub(crate) fn chunk_cells(
        &self,
        alloc: Global,
        chunk: &Chunk<'_>,
    ) -> Result<ArrayBytes<'static>, ArrayError>
        requires chunk { IsChunk (layout_of self.now) chunk.now }
        requires ask { MayAskChunk (layout_of self.now) chunk.now.indices.now
            (store_of S.state self.now) }
        ensures { RetrievesChunkOrRefuses S.state chunk.now.indices.now self.now result }
    {
        let stored = self.stored_at(alloc, chunk.indices, &chunk.key)?;
        self.cells_of(alloc, chunk.indices, stored)
    }

    /// Returns the cells of the chunk with these indices, or `None` if it is absent.
    ///
    /// # Errors
    /// In this order: E3 for another number of indices than dimensions; E7 if the store refuses the key. Then, if the
    /// chunk is present, E3 for indices without a chunk, E8 for a chunk of more bytes than a `usize` counts, and E4 if
    /// its bytes do not decode, or E8 if they leave out cells and a chunk of fill has more. E9 may come at any time.
    pub fn retrieve_chunk_if_exists(
        &self,
        alloc: Global,
        chunk_indices: &[u64],
    ) -> Result<Option<ArrayBytes<'static>>, ArrayError>
        requires { MayAskChunk (layout_of self.now) chunk_indices.now (store_of S.state self.now) }
        ensures { RetrievesIfExistsOrRefuses S.state chunk_indices.now self.now result }
    {
        match self.stored_bytes(alloc, chunk_indices)? {
            Some(encoded) => {
                let data = self.layout.decode(alloc, chunk_indices, &encoded)?;
                Ok(Some(data.into_owned(alloc)?))
            }
            None => Ok(None),
        }
    }

    /// Returns the cells of the chunk with these indices. An absent chunk is all fill value.
    ///
    /// # Errors
    /// In this order: E3 for another number of indices than dimensions; E7 if the store refuses the key; E3 for
    /// indices without a chunk; E8 for a chunk of more bytes than a `usize` counts; E4 if its bytes do not decode, or E8
    /// if a chunk of fill has more, which is needed where the chunk is absent or its bytes leave out cells. E9 may come
    /// at any time.
    pub fn retrieve_chunk(
        &self,
        alloc: Global,
        chunk_indices: &[u64],
    ) -> Result<ArrayBytes<'static>, ArrayError>
        requires { MayAskChunk (layout_of self.now) chunk_indices.now (store_of S.state self.now) }
        ensures { RetrievesChunkOrRefuses S.state chunk_indices.now self.now result }
    {
        let stored = self.stored_bytes(alloc, chunk_indices)?;
        self.cells_of(alloc, chunk_indices, stored)
    }

    /// Returns the bytes that are stored for the chunk with these indices, or `None` if it is absent.
    ///
    /// # Errors
    /// E7 if the store refuses the key. E9 may come at any time.
    pub fn retrieve_encoded_chunk(
        &self,
        alloc: Global,
        chunk_indices: &[u64],
    ) -> Result<Option<Vec<u8>>, ArrayError>
        requires dimensions { length chunk_indices.now ≡ (layout_of self.now).grid.dimensions }
        requires ask { MayAskChunk (layout_of self.now) chunk_indices.now
            (store_of S.state self.now) }
        ensures { Answers (key_refusal (layout_of self.now) chunk_indices.now
            (store_of S.state self.now)) (λ value. option_map (λ v. v.items) value
            ≡ value_at (store_of S.state self.now) ((layout_of self.now).key chunk_indices.now))
            result }
    {
        let Some(encoded) = self.stored_bytes(alloc, chunk_indices)? else {
            return Ok(None);
        };
        Ok(Some(encoded.to_vec(alloc)?))
    }

    /// Returns the bytes that are stored for each chunk of the range, in row-major order, `None` for a chunk that is
    /// absent.
    ///
    /// # Errors
    /// E8 for more chunks than a `u64` counts; E7 if the store refuses the key of one of them. E9 may come at any time.
    pub fn retrieve_encoded_chunks(
        &self,
        alloc: Global,
        chunks: &ArraySubset,
    ) -> Result<Vec<Option<Vec<u8>>>, ArrayError>
        requires dimensions { length (box_of chunks.now).start
            ≡ (layout_of self.now).grid.dimensions }
        requires ask { MayAskChunks (layout_of self.now) (positions (box_of chunks.now))
            (store_of S.state self.now) }
        ensures values { IfOk result (λ values. map (option_map (λ v. v.items)) values.items
            ≡ stored_values (layout_of self.now) (store_of S.state self.now)
            (positions (box_of chunks.now))) }
        ensures accepted { OnOk result (ReadsKeys (layout_of self.now)
            (positions (box_of chunks.now)) (store_of S.state self.now)) }
        ensures refused { IfErr result (λ e. RefusesEncoded (layout_of self.now)
            (positions (box_of chunks.now)) (store_of S.state self.now) (refusal_of e)) }
    {
        if chunks.num_elements().is_err() {
            return Err(ArrayError::SizeOverflow);
        }
        let mut values = Vec::new(alloc);
        let Some(mut walk) = chunks.walk(alloc)? else {
            return Ok(values);
        };
        loop {
            let value = self.retrieve_encoded_chunk(alloc, walk.current())?;
            values.push(value)?;
            if !walk.advance() {
                return Ok(values);
            }
        }
    }
}
