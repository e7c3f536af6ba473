//! The boxes of chunks, of parts of chunks and of ranges of chunks.
use crate::array_layout::{ArrayLayout, invalid_indices};
use std::alloc::{AllocError, Global};
use zarrs_chunk_grid::{ChunkGridTraits, GridError};
use zarrs_codec_chain::ChainTraits;
use zarrs_engine_calls::ArrayError;
use zarrs_keys::ChunkKeyEncodingTraits;
use zarrs_subset::{ArraySubset, ArraySubsetTraits};

impl<G: ChunkGridTraits, K: ChunkKeyEncodingTraits, C: ChainTraits> ArrayLayout<G, K, C> {
    ghost use Rattle.std.specs.Prelude.{◌≡◌, if◌then◌else◌, false, None};
    ghost use Rattle.std.specs.Option.{option_or};
    ghost use Rattle.zarrs_subset.specs.Regions.{LiesInShape, box_of};
    ghost use Rattle.zarrs_chunk_grid.specs.Grids.{box_at, has_box};
    ghost use Rattle.zarrs_engine_calls.specs.ArgumentRefusals.{chunk_refusal, dimensions_refusal};
    ghost use Rattle.zarrs_engine_calls.specs.ArgumentRefusals.{part_refusal, range_refusal};
    ghost use Rattle.zarrs_engine_calls.specs.ChunkBoxes.{is_empty, last_of, part_box};
    ghost use Rattle.zarrs_engine_calls.specs.Refusals.{RefusesBy, refusal_of};
    ghost use Rattle.zarrs_engine_layout.specs.Layouts.{layout_meaning};
    ghost use Rattle.zarrs_engine_layout.specs.Answers.{Answers};
    ghost use Rattle.zarrs_engine_layout.specs.Covers.{IsFilledBy};

    /// Returns the box of the chunk with these indices.
    ///
    /// # Errors
    /// E3 for another number of indices than dimensions, or indices without a chunk. E9 may come at any time.
    pub fn chunk_box(&self, alloc: Global, chunk_indices: &[u64]) -> Result<ArraySubset, ArrayError>
        ensures { Answers (chunk_refusal (layout_meaning self.now) chunk_indices.now)
            (λ b. box_of b ≡ box_at (G.grid self.now.grid) chunk_indices.now) result }
    {
        match self.grid.subset(alloc, chunk_indices) {
            Ok(Some(chunk)) => Ok(chunk),
            Ok(None) => Err(invalid_indices(alloc, chunk_indices)),
            Err(GridError::IncompatibleDimensionality(_)) => {
                Err(invalid_indices(alloc, chunk_indices))
            }
            Err(GridError::UnequalExtent) => unreachable!(),
            Err(GridError::OutOfMemory) => Err(ArrayError::OutOfMemory),
        }
    }

    /// Accepts a part that lies in the chunk with these indices, which has these extents.
    ///
    /// # Errors
    /// E2 for another number of dimensions, or a part that passes the chunk. E9 may come at any time.
    pub fn check_part(
        &self,
        alloc: Global,
        chunk_indices: &[u64],
        extents: &[u64],
        part: &ArraySubset,
    ) -> Result<(), ArrayError>
        requires { extents.now ≡ (box_at (G.grid self.now.grid) chunk_indices.now).shape }
        ensures { Answers (part_refusal (layout_meaning self.now) chunk_indices.now
            (box_of part.now)) (λ _. LiesInShape (box_of part.now) extents.now) result }
    {
        if !part.inbounds_shape(extents) {
            return Err(invalid_part(alloc, chunk_indices, extents, part));
        }
        Ok(())
    }

    /// Returns a part of the chunk with these indices and this box, as a box seen from the origin of the array.
    ///
    /// # Errors
    /// Those of `check_part`.
    pub fn part_of(
        &self,
        alloc: Global,
        chunk_indices: &[u64],
        chunk: &ArraySubset,
        part: &ArraySubset,
    ) -> Result<ArraySubset, ArrayError>
        requires { box_of chunk.now ≡ box_at (G.grid self.now.grid) chunk_indices.now }
        ensures { Answers (part_refusal (layout_meaning self.now) chunk_indices.now
            (box_of part.now)) (λ b. box_of b ≡ part_box (box_of chunk.now) (box_of part.now))
            result }
    {
        self.check_part(alloc, chunk_indices, chunk.shape(), part)?;
        let region = part.shifted_by(alloc, chunk.start())?;
        Ok(region)
    }

    /// Returns the region that the chunks of a range fill; of a range without a chunk the empty one.
    ///
    /// # Errors
    /// In this order: E1 for another number of dimensions; E3 for a first index without a chunk, then for such a last
    /// one. E9 may come at any time.
    pub fn chunks_region(
        &self,
        alloc: Global,
        chunks: &ArraySubset,
    ) -> Result<ArraySubset, ArrayError>
        ensures { Answers (option_or (dimensions_refusal (layout_meaning self.now)
            (G.array_extents self.now.grid) (box_of chunks.now))
            (if is_empty (box_of chunks.now) then None
            else range_refusal (layout_meaning self.now) (box_of chunks.now)))
            (λ b. IsFilledBy (G.grid self.now.grid) (box_of chunks.now) (box_of b)) result }
    {
        if chunks.dimensionality() != self.grid.dimensionality() {
            return Err(self.invalid_region(alloc, chunks));
        }
        if chunks.is_empty() {
            return Ok(ArraySubset::new_empty(alloc, chunks.dimensionality())?);
        }
        match self.grid.chunks_subset(alloc, chunks) {
            Ok(Some(region)) => Ok(region),
            Ok(None) => Err(self.invalid_range(alloc, chunks)),
            Err(GridError::IncompatibleDimensionality(_)) => unreachable!(),
            Err(GridError::UnequalExtent) => unreachable!(),
            Err(GridError::OutOfMemory) => Err(ArrayError::OutOfMemory),
        }
    }

    /// Returns the refusal of a range of which the last index has no chunk: the first one is named if that has none
    /// either.
    fn invalid_range(&self, alloc: Global, chunks: &ArraySubset) -> ArrayError
        requires { has_box (G.grid self.now.grid) (last_of (box_of chunks.now)) ≡ false }
        ensures { RefusesBy (range_refusal (layout_meaning self.now) (box_of chunks.now))
            (refusal_of result) }
    {
        if let Err(error) = self.chunk_box(alloc, chunks.start()) {
            return error;
        }
        match last_index(alloc, chunks) {
            Ok(last) => ArrayError::InvalidChunkGridIndicesError(last),
            Err(_) => ArrayError::OutOfMemory,
        }
    }
}

ghost use Rattle.std.specs.Prelude.{◌≡◌, ◌-◌, Some, IfOk, map};
ghost use Rattle.zarrs_subset.specs.Regions.{box_of};
ghost use Rattle.zarrs_engine_calls.specs.ChunkBoxes.{last_of};
ghost use Rattle.zarrs_engine_calls.specs.Refusals.{RefusesBy, chunk_subset, refusal_of};

/// Returns the refusal of this part of the chunk with these indices and extents.
fn invalid_part(
    alloc: Global,
    chunk_indices: &[u64],
    extents: &[u64],
    part: &ArraySubset,
) -> ArrayError
    ensures { RefusesBy (Some (chunk_subset (box_of part.now) chunk_indices.now extents.now))
        (refusal_of result) }
{
    let Ok(part) = part.clone() else {
        return ArrayError::OutOfMemory;
    };
    let Ok(indices) = chunk_indices.to_vec(alloc) else {
        return ArrayError::OutOfMemory;
    };
    match extents.to_vec(alloc) {
        Ok(extents) => ArrayError::InvalidChunkSubset(part, indices, extents),
        Err(_) => ArrayError::OutOfMemory,
    }
}

/// Returns the last index of a range.
fn last_index(alloc: Global, chunks: &ArraySubset) -> Result<Vec<u64>, AllocError>
    ensures { IfOk result (λ last. last.items ≡ last_of (box_of chunks.now)) }
{
    let ends = chunks.end_exc(alloc)?;
    one_less(alloc, &ends)
}

/// Returns one less than each of these numbers, and 0 for a 0.
fn one_less(alloc: Global, numbers: &[u64]) -> Result<Vec<u64>, AllocError>
    ensures { IfOk result (λ made. made.items ≡ map (λ number. number - 1) numbers.now) }
{
    numbers
        .iter()
        .map(|number| number.saturating_sub(1))
        .collect(alloc)
}
