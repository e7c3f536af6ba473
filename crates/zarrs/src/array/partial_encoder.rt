//! Writes of the parts of one chunk, one after another.
ghost use Rattle.std.specs.Prelude.{◌≡◌, true};
ghost use Rattle.zarrs_chunk_grid.specs.Grids.{has_box};
ghost use Rattle.zarrs.specs.Arrays.{layout_of_array};

use super::Array;
use std::alloc::Global;
use std::fmt;
use zarrs_codec::CodecOptions;
use zarrs_data_type::ArrayBytes;
use zarrs_engine::ArrayError;
use zarrs_storage::WritableStorageTraits;
use zarrs_subset::{ArrayIndices, ArraySubsetTraits};

/// A chunk of an array, of which parts are written. It keeps nothing of what it wrote.
#[derive(Drop)]
pub struct ArrayPartialEncoder<'a, TStorage> {
    array: &'a mut Array<TStorage>,
    chunk_indices: ArrayIndices,
    ghost boxed: { has_box (layout_of_array array.now).grid chunk_indices.items ≡ true },
}

impl<TStorage> Array<TStorage> {
    ghost use Rattle.std.specs.Borrow.{sem};
    ghost use Rattle.std.specs.Prelude.{◌≡◌, true, IfOk, IfErr, OnOk};
    ghost use Rattle.zarrs_chunk_grid.specs.Grids.{has_box};
    ghost use Rattle.zarrs_engine_calls.specs.ArgumentRefusals.{chunk_refusal};
    ghost use Rattle.zarrs_engine_calls.specs.Refusals.{RefusesBy, refusal_of};
    ghost use Rattle.zarrs.specs.Arrays.{layout_of_array};
    ghost use Rattle.zarrs.specs.PartialEncoders.{array_of_encoder, indices_of_encoder};
    ghost use Rattle.zarrs.specs.PartialEncoders.{loan_of_encoder, RestsUnlessEncoded};

    /// Returns the chunk with these indices, to write parts of it. The store is not asked, and the options choose nothing
    /// here.
    ///
    /// # Errors
    /// E3 for another number of indices than dimensions, or indices without a chunk. E9 may come at any time.
    pub fn partial_encoder(
        &mut self,
        alloc: Global,
        chunk_indices: &[u64],
        _options: &CodecOptions,
    ) -> Result<ArrayPartialEncoder<'_, TStorage>, ArrayError>
        ensures* untouched { sem 𝓛 (RestsUnlessEncoded TStorage.row self.entry result) }
        ensures array { IfOk result (λ encoder. array_of_encoder encoder ≡ self.old) }
        ensures same_loan { IfOk result
            (λ encoder. loan_of_encoder encoder ≡ self.entry.ghost_name) }
        ensures chunk { IfOk result (λ encoder. indices_of_encoder encoder ≡ chunk_indices.now) }
        ensures accepted { OnOk result
            (has_box (layout_of_array self.old).grid chunk_indices.now ≡ true) }
        ensures refused { IfErr result (λ e. RefusesBy
            (chunk_refusal (layout_of_array self.old) chunk_indices.now) (refusal_of e)) }
    {
        self.engine.layout().chunk_box(alloc, chunk_indices)?;
        let chunk_indices = chunk_indices.to_vec(alloc)?;
        Ok(ArrayPartialEncoder {
            array: self,
            chunk_indices,
        })
    }
}

impl<TStorage: WritableStorageTraits> Array<TStorage> {
    ghost use Rattle.std.specs.Prelude.{◌≡◌, ◌&&◌, true, None};
    ghost use Rattle.zarrs_codec.specs.Options.{stores_empty_chunks};
    ghost use Rattle.zarrs_chunk_grid.specs.Grids.{has_box};
    ghost use Rattle.zarrs_engine_calls.specs.ArgumentRefusals.{part_refusal};
    ghost use Rattle.zarrs_data_type.specs.ArrayData.{data_of};
    ghost use Rattle.zarrs.specs.Arrays.{layout_of_array, store_of_array};
    ghost use Rattle.zarrs.specs.Outcomes.{EncodesPartOrRefuses, ErasesEncodedOrRefuses};
    ghost use Rattle.zarrs.specs.Outcomes.{MayRetrieveChunk};

    /// Stores the cells over a part of the chunk with these indices, as `Engine::partial_encode` does.
    ///
    /// # Errors
    /// Those of `Engine::partial_encode`. Nothing is changed then.
    fn encode_part<R: ArraySubsetTraits>(
        &mut self,
        alloc: Global,
        chunk_indices: &[u64],
        chunk_subset: &R,
        bytes: &ArrayBytes<'_>,
        options: &CodecOptions,
    ) -> Result<(), ArrayError>
        requires boxed { has_box (layout_of_array self.old).grid chunk_indices.now ≡ true }
        requires ask { part_refusal (layout_of_array self.old) chunk_indices.now
            (R.region chunk_subset.now) ≡ None
            → MayRetrieveChunk TStorage.state chunk_indices.now self.old }
        ensures { EncodesPartOrRefuses TStorage.state (stores_empty_chunks options.now)
            chunk_indices.now (R.region chunk_subset.now) (data_of bytes.now) self.old self.new
            result }
    {
        let chunk_subset = chunk_subset.to_array_subset(alloc)?;
        self.engine
            .partial_encode(alloc, chunk_indices, &chunk_subset, bytes, options)
    }

    /// Erases the chunk with these indices, whose refusals are those of arrays.
    ///
    /// # Errors
    /// E7 if the store refuses. E9 may come at any time. Nothing is changed then.
    fn erase_encoded(&mut self, alloc: Global, chunk_indices: &[u64]) -> Result<(), ArrayError>
        requires { has_box (layout_of_array self.old).grid chunk_indices.now ≡ true }
        ensures { ErasesEncodedOrRefuses TStorage.state chunk_indices.now self.old self.new
            result }
    {
        self.engine.erase_chunk(alloc, chunk_indices)?;
        Ok(())
    }

    /// Returns whether the chain and the store can write parts by themselves.
    fn encodes_partly(&self) -> bool
        ensures { result ≡ ((layout_of_array self.now).chain.encodes_partly
            && (store_of_array TStorage.state self.now).sets_parts) }
    {
        self.engine.layout().encodes_partly() && self.engine.storage().supports_set_partial()
    }
}

impl<TStorage: WritableStorageTraits> ArrayPartialEncoder<'_, TStorage> {
    ghost use Rattle.std.specs.Prelude.{◌≡◌, ◌&&◌, None};
    ghost use Rattle.zarrs_codec.specs.Options.{stores_empty_chunks};
    ghost use Rattle.zarrs_engine_calls.specs.ArgumentRefusals.{part_refusal};
    ghost use Rattle.zarrs_data_type.specs.ArrayData.{data_of};
    ghost use Rattle.zarrs.specs.Arrays.{layout_of_array, store_of_array};
    ghost use Rattle.zarrs.specs.Outcomes.{EncodesPartOrRefuses, ErasesEncodedOrRefuses};
    ghost use Rattle.zarrs.specs.Outcomes.{MayRetrieveChunk};
    ghost use Rattle.zarrs.specs.PartialEncoders.{array_of_encoder, indices_of_encoder};
    ghost use Rattle.zarrs.specs.PartialEncoders.{loan_of_encoder};

    /// Stores the cells, in row-major order, over a part of the chunk, by one writing call of the store. The part is seen
    /// from the origin of the chunk. If the chain and the store write parts by themselves, no other cell of the chunk is
    /// looked at; else the chunk is read, changed and stored.
    ///
    /// # Errors
    /// In this order: E2 for a part of another number of dimensions, or that passes the chunk; E8 for a part that is the
    /// whole chunk and has more bytes than a `usize` counts; E4 for data that is not one cell for each position, each a
    /// value of the data type. Then, if the chunk is stored whole, E8 for such a chunk; E7 if the store refuses its key; E4
    /// if the chain does not take it, or its bytes do not decode, or E8 if a size is too large; E7 if the store refuses the
    /// write. E9 may come at any time. Nothing is changed then.
    pub fn partial_encode<R: ArraySubsetTraits>(
        &mut self,
        alloc: Global,
        chunk_subset: &R,
        bytes: &ArrayBytes<'_>,
        options: &CodecOptions,
    ) -> Result<(), ArrayError>
        requires { part_refusal (layout_of_array (array_of_encoder self.old))
            (indices_of_encoder self.old) (R.region chunk_subset.now) ≡ None
            → MayRetrieveChunk TStorage.state (indices_of_encoder self.old)
            (array_of_encoder self.old) }
        ensures encodes { EncodesPartOrRefuses TStorage.state (stores_empty_chunks options.now)
            (indices_of_encoder self.old) (R.region chunk_subset.now) (data_of bytes.now)
            (array_of_encoder self.old) (array_of_encoder self.new) result }
        ensures same_loan { loan_of_encoder self.new ≡ loan_of_encoder self.old }
        ensures chunk { indices_of_encoder self.new ≡ indices_of_encoder self.old }
    {
        self.array
            .encode_part(alloc, &self.chunk_indices, chunk_subset, bytes, options)
    }

    /// Erases the chunk, whether it is present or not, by one writing call of the store.
    ///
    /// # Errors
    /// E7 if the store refuses. E9 may come at any time. Nothing is changed then.
    pub fn erase(&mut self, alloc: Global) -> Result<(), ArrayError>
        ensures erases { ErasesEncodedOrRefuses TStorage.state (indices_of_encoder self.old)
            (array_of_encoder self.old) (array_of_encoder self.new) result }
        ensures same_loan { loan_of_encoder self.new ≡ loan_of_encoder self.old }
        ensures chunk { indices_of_encoder self.new ≡ indices_of_encoder self.old }
    {
        self.array.erase_encoded(alloc, &self.chunk_indices)
    }

    /// Returns whether the chain and the store can write parts by themselves.
    pub fn supports_partial_encode(&self) -> bool
        ensures { result ≡ ((layout_of_array (array_of_encoder self.now)).chain.encodes_partly
            && (store_of_array TStorage.state (array_of_encoder self.now)).sets_parts) }
    {
        self.array.encodes_partly()
    }
}

/// Prints the array and the indices. The store is not printed.
impl<TStorage> fmt::Debug for ArrayPartialEncoder<'_, TStorage> {
    fn fmt<W: fmt::Write>(&self, f: &mut fmt::Formatter<W>) -> fmt::Result {
        f.debug_struct("ArrayPartialEncoder")
            .field("array", &*self.array)
            .field("chunk_indices", &self.chunk_indices)
            .finish()
    }
}
