//! Queries: where the chunks of an array lie, and which ones a region meets. They ask nothing of the store.
ghost use Rattle.std.specs.Prelude.{◌≡◌, IfOk};

use super::Array;
use std::alloc::{AllocError, Global};
use zarrs_chunk_grid::{ChunkGridTraits, ChunkShape, GridError};
use zarrs_engine::ArrayError;
use zarrs_engine_layout::invalid_indices;
use zarrs_keys::chunk_key;
use zarrs_storage::StoreKey;
use zarrs_subset::{ArrayIndices, ArraySubset, ArraySubsetTraits, IncompatibleDimensionalityError};

/// Returns the extents as sizes in memory.
fn memory_sizes(alloc: Global, extents: &[u64]) -> Result<Vec<usize>, AllocError>
    ensures { IfOk result (λ sizes. sizes.items ≡ extents.now) }
{
    extents.iter().map(|extent| *extent as usize).collect(alloc)
}

impl<TStorage> Array<TStorage> {
    ghost use Rattle.std.specs.Prelude.{◌≡◌, length, IfOk, IfErr, OnOk, IfSome, IfNone};
    ghost use Rattle.std.specs.Prelude.{map, IsOkUnless};
    ghost use Rattle.zarrs_subset.specs.Regions.{box_of, bound_to, box_at_origin};
    ghost use Rattle.std.specs.Int.NonZero.{non_zero_u64_get};
    ghost use Rattle.zarrs_chunk_grid.specs.Grids.{HasUncovered, IsMet, box_at, chunks_box, met};
    ghost use Rattle.zarrs_engine_calls.specs.ArgumentRefusals.{chunk_refusal};
    ghost use Rattle.zarrs_engine_calls.specs.Refusals.{RefusesBy, refusal_of};
    ghost use Rattle.zarrs_creation.specs.Meanings.{shape_said};
    ghost use Rattle.zarrs.specs.Queries.{query_refusal, chunks_refusal, bounded_chunks_refusal};
    ghost use Rattle.zarrs.specs.Queries.{Answers};
    ghost use Rattle.zarrs.specs.Arrays.{layout_of_array, metadata_of_array};

    /// Returns the key of the chunk with these indices, of which there is one for each dimension.
    ///
    /// # Errors
    /// E9 alone.
    pub fn chunk_key(&self, alloc: Global, chunk_indices: &[u64]) -> Result<StoreKey, ArrayError>
        requires { length chunk_indices.now ≡ (layout_of_array self.now).grid.dimensions }
        ensures key { IfOk result (λ key. key ≡ (layout_of_array self.now).key chunk_indices.now) }
        ensures accepted { IsOkUnless result ArrayError.OutOfMemory }
    {
        match chunk_key(alloc, self.engine.path(), self.engine.keys(), chunk_indices) {
            Ok(key) => Ok(key),
            Err(_) => Err(ArrayError::OutOfMemory),
        }
    }

    /// Returns the box of the chunk with these indices.
    ///
    /// # Errors
    /// E3 for another number of indices than dimensions, or indices without a chunk. E9 may come at any time.
    pub fn chunk_subset(
        &self,
        alloc: Global,
        chunk_indices: &[u64],
    ) -> Result<ArraySubset, ArrayError>
        ensures { Answers (chunk_refusal (layout_of_array self.now) chunk_indices.now)
            (λ b. box_of b ≡ box_at (layout_of_array self.now).grid chunk_indices.now) result }
    {
        self.engine.layout().chunk_box(alloc, chunk_indices)
    }

    /// Returns where the chunk with these indices begins.
    ///
    /// # Errors
    /// As `chunk_subset`.
    pub fn chunk_origin(
        &self,
        alloc: Global,
        chunk_indices: &[u64],
    ) -> Result<ArrayIndices, ArrayError>
        ensures { Answers (chunk_refusal (layout_of_array self.now) chunk_indices.now) (λ origin.
            origin.items ≡
            (box_at (layout_of_array self.now).grid chunk_indices.now).start) result }
    {
        let chunk = self.chunk_subset(alloc, chunk_indices)?;
        Ok(chunk.into_start())
    }

    /// Returns the extents of the chunk with these indices.
    ///
    /// # Errors
    /// As `chunk_subset`.
    pub fn chunk_shape(
        &self,
        alloc: Global,
        chunk_indices: &[u64],
    ) -> Result<ChunkShape, ArrayError>
        ensures { Answers (chunk_refusal (layout_of_array self.now) chunk_indices.now) (λ shape.
            map non_zero_u64_get shape.items
            ≡ (box_at (layout_of_array self.now).grid chunk_indices.now).shape)
            result }
    {
        match self.engine.chunk_grid().chunk_shape(alloc, chunk_indices) {
            Ok(Some(shape)) => Ok(shape),
            Ok(None) => Err(invalid_indices(alloc, chunk_indices)),
            Err(GridError::IncompatibleDimensionality(_)) => {
                Err(invalid_indices(alloc, chunk_indices))
            }
            Err(GridError::UnequalExtent) => unreachable!(),
            Err(GridError::OutOfMemory) => Err(ArrayError::OutOfMemory),
        }
    }

    /// Returns the extents of the chunk with these indices as sizes in memory.
    ///
    /// # Errors
    /// As `chunk_subset`. Each extent is a `usize`, which has 64 bits.
    pub fn chunk_shape_usize(
        &self,
        alloc: Global,
        chunk_indices: &[u64],
    ) -> Result<Vec<usize>, ArrayError>
        ensures { Answers (chunk_refusal (layout_of_array self.now) chunk_indices.now) (λ shape.
            shape.items ≡ (box_at (layout_of_array self.now).grid chunk_indices.now).shape) result }
    {
        let chunk = self.chunk_subset(alloc, chunk_indices)?;
        Ok(memory_sizes(alloc, chunk.shape())?)
    }

    /// Returns the box of the chunk with these indices, cut at the end of the array.
    ///
    /// # Errors
    /// As `chunk_subset`.
    pub fn chunk_subset_bounded(
        &self,
        alloc: Global,
        chunk_indices: &[u64],
    ) -> Result<ArraySubset, ArrayError>
        ensures { Answers (chunk_refusal (layout_of_array self.now) chunk_indices.now) (λ b. box_of
            b ≡ bound_to (box_at (layout_of_array self.now).grid chunk_indices.now)
            (shape_said (metadata_of_array self.now))) result }
    {
        let chunk = self.chunk_subset(alloc, chunk_indices)?;
        match chunk.bound(alloc, self.shape()) {
            Ok(bounded) => Ok(bounded),
            Err(_) => Err(ArrayError::OutOfMemory),
        }
    }

    /// Returns the region that the chunks with the indices in the range fill; of a range without a chunk the empty one.
    ///
    /// # Errors
    /// E3 for a first index that is not that of a chunk, then for such a last one. E9 may come at any time.
    pub fn chunks_subset<R: ArraySubsetTraits>(
        &self,
        alloc: Global,
        chunks: &R,
    ) -> Result<ArraySubset, ArrayError>
        ensures { Answers (chunks_refusal (layout_of_array self.now) (R.region chunks.now))
            (λ b. box_of b ≡ chunks_box (layout_of_array self.now).grid (R.region chunks.now))
            result }
    {
        let chunks = chunks.to_array_subset(alloc)?;
        self.range_subset(alloc, &chunks)
    }

    /// Does what `chunks_subset` does.
    fn range_subset(&self, alloc: Global, chunks: &ArraySubset) -> Result<ArraySubset, ArrayError>
        ensures { Answers (chunks_refusal (layout_of_array self.now) (box_of chunks.now))
            (λ b. box_of b ≡ chunks_box (layout_of_array self.now).grid (box_of chunks.now))
            result }
    {
        if chunks.is_empty() {
            return Ok(ArraySubset::new_empty(alloc, chunks.dimensionality())?);
        }
        if chunks.dimensionality() != self.dimensionality() {
            return Err(invalid_indices(alloc, chunks.start()));
        }
        self.engine.layout().chunks_region(alloc, chunks)
    }

    /// Returns the region that the chunks with the indices in the range fill, cut at the end of the array.
    ///
    /// # Errors
    /// As `chunks_subset`; E10 for a range without a chunk of another number of dimensions.
    pub fn chunks_subset_bounded<R: ArraySubsetTraits>(
        &self,
        alloc: Global,
        chunks: &R,
    ) -> Result<ArraySubset, ArrayError>
        ensures { Answers (bounded_chunks_refusal (layout_of_array self.now) (R.region chunks.now))
            (λ b. box_of b ≡ bound_to
            (chunks_box (layout_of_array self.now).grid (R.region chunks.now))
            (shape_said (metadata_of_array self.now))) result }
    {
        let region = self.chunks_subset(alloc, chunks)?;
        let (got, expected) = (chunks.dimensionality(), self.dimensionality());
        if got != expected {
            return Err(IncompatibleDimensionalityError::new(got, expected).into());
        }
        match region.bound(alloc, self.shape()) {
            Ok(bounded) => Ok(bounded),
            Err(_) => Err(ArrayError::OutOfMemory),
        }
    }

    /// Returns the indices of the chunks that the region meets, or `None` if a position of it is in no chunk.
    ///
    /// # Errors
    /// E10 for another number of dimensions. E9 may come at any time.
    pub fn chunks_in_array_subset<R: ArraySubsetTraits>(
        &self,
        alloc: Global,
        region: &R,
    ) -> Result<Option<ArraySubset>, ArrayError>
        ensures value { IfOk result (λ o. IfSome o (λ chunks.
            box_of chunks ≡ met (layout_of_array self.now).grid (R.region region.now))) }
        ensures some { IfOk result (λ o. IfSome o (λ chunks.
            IsMet (layout_of_array self.now).grid (R.region region.now) (box_of chunks))) }
        ensures none { IfOk result (λ o. IfNone o
            (HasUncovered (layout_of_array self.now).grid (R.region region.now))) }
        ensures long { OnOk result (length (R.region region.now).start
            ≡ (layout_of_array self.now).grid.dimensions) }
        ensures refused { IfErr result (λ e. RefusesBy
            (query_refusal (layout_of_array self.now) (R.region region.now)) (refusal_of e)) }
    {
        match self
            .engine
            .chunk_grid()
            .chunks_in_array_subset(alloc, region)
        {
            Ok(chunks) => Ok(chunks),
            Err(GridError::IncompatibleDimensionality(error)) => Err(error.into()),
            Err(GridError::UnequalExtent) => unreachable!(),
            Err(GridError::OutOfMemory) => Err(ArrayError::OutOfMemory),
        }
    }

    /// Returns the region of all positions of the array.
    ///
    /// # Errors
    /// E9 alone.
    pub fn subset_all(&self, alloc: Global) -> Result<ArraySubset, ArrayError>
        ensures region { IfOk result
            (λ b. box_of b ≡ box_at_origin (shape_said (metadata_of_array self.now))) }
        ensures accepted { IsOkUnless result ArrayError.OutOfMemory }
    {
        Ok(ArraySubset::new_with_shape(alloc, self.shape().to_vec(alloc)?)?)
    }
}
