//! The cut of a chunk into subchunks, over shapes that are lent.
ghost use Rattle.std.specs.Prelude.{◌≡◌, ℕ, ◌<◌, ◌^◌, true, slice_index};
ghost use Rattle.zarrs_codec_shard.specs.Subchunks.{is_cut_by, quotients};

use crate::corners::{corner_list, scale, tiny_quotients};
use crate::subchunks::is_cut_by;
use std::alloc::{AllocError, Global};
use zarrs_subset::{ArrayIndicesTinyVec, ArraySubset, element_count};

/// How a chunk is cut into subchunks, as `Subchunks` say it, over shapes that are lent. Nothing is allocated up to four
/// dimensions.
#[derive(Debug, Drop)]
pub struct LentSubchunks<'a> {
    chunk_shape: &'a [u64],
    shape: &'a [u64],
    // How many subchunks lie along each dimension.
    grid: ArrayIndicesTinyVec,
    ghost cut: { is_cut_by chunk_shape.now shape.now ≡ true },
    ghost small: { (k : ℕ) → slice_index chunk_shape.now k < 2 ^ 64 },
    ghost grid_is: { grid.items ≡ quotients chunk_shape.now shape.now },
}

impl<'a> LentSubchunks<'a> {
    ghost use Rattle.std.specs.Prelude.{◌≤◌, false, IfOk, IfSome, MatchOption, length};
    ghost use Rattle.zarrs_codec_shard.specs.LentData.{lent_chunk_shape, lent_shape};
    ghost use Rattle.zarrs_codec_shard.specs.Subchunks.{corner, subchunk_box, subchunk_count};
    ghost use Rattle.zarrs_subset.specs.Boxes.{InShape};
    ghost use Rattle.zarrs_subset.specs.Regions.{box_of};

    /// A chunk of the first shape, cut into subchunks of the second, or `None` if that does not divide it.
    ///
    /// # Errors
    /// `AllocError`: out of memory, at more than four dimensions.
    pub fn new(
        alloc: Global,
        shape: &'a [u64],
        sub: &'a [u64],
    ) -> Result<Option<LentSubchunks<'a>>, AllocError>
        ensures cut { IfOk result (λ made. MatchOption made (is_cut_by shape.now sub.now ≡ false)
            (λ _. is_cut_by shape.now sub.now ≡ true)) }
        ensures chunk { IfOk result
            (λ made. IfSome made (λ subchunks. lent_chunk_shape subchunks ≡ shape.now)) }
        ensures subchunk { IfOk result
            (λ made. IfSome made (λ subchunks. lent_shape subchunks ≡ sub.now)) }
    {
        if !is_cut_by(shape, sub) {
            return Ok(None);
        }
        let grid = tiny_quotients(alloc, shape, sub)?;
        Ok(Some(LentSubchunks {
            chunk_shape: shape,
            shape: sub,
            grid,
        }))
    }

    /// The number of subchunks, if it fits `u64`.
    pub fn count(&self) -> Option<u64>
        ensures { MatchOption result
            (2 ^ 64 ≤ subchunk_count (lent_chunk_shape self.now) (lent_shape self.now))
            (λ n. n ≡ subchunk_count (lent_chunk_shape self.now) (lent_shape self.now)) }
    {
        element_count(&self.grid)
    }

    /// How many subchunks lie along each dimension.
    pub fn grid(&self) -> &[u64]
        ensures { result.now ≡ quotients (lent_chunk_shape self.now) (lent_shape self.now) }
    {
        self.grid.as_slice()
    }

    /// The shape of the chunk.
    pub fn chunk_shape(&self) -> &'a [u64]
        ensures { result.now ≡ lent_chunk_shape self.now }
    {
        self.chunk_shape
    }

    /// The extents of each subchunk.
    pub fn shape(&self) -> &'a [u64]
        ensures { result.now ≡ lent_shape self.now }
    {
        self.shape
    }

    /// The indices of the subchunk that would have a position.
    ///
    /// # Errors
    /// `AllocError`: out of memory, at more than four dimensions.
    pub fn indices_at(
        &self,
        alloc: Global,
        position: &[u64],
    ) -> Result<ArrayIndicesTinyVec, AllocError>
        requires { length position.now ≡ length (lent_chunk_shape self.now) }
        ensures { IfOk result (λ made. made.items ≡ quotients position.now (lent_shape self.now)) }
    {
        tiny_quotients(alloc, position, self.shape)
    }

    /// Where the subchunk with these indices starts.
    pub fn corner_of(&self, indices: ArrayIndicesTinyVec) -> ArrayIndicesTinyVec
        requires { InShape (quotients (lent_chunk_shape self.now) (lent_shape self.now))
            indices.items }
        ensures { result.items ≡ corner (lent_shape self.now) indices.items }
    {
        let mut start = indices;
        scale(start.as_mut_slice(), self.shape);
        start
    }

    /// The box of the subchunk of this number.
    ///
    /// # Errors
    /// `AllocError`: out of memory.
    pub fn subset(&self, alloc: Global, number: u64) -> Result<ArraySubset, AllocError>
        requires { number < subchunk_count (lent_chunk_shape self.now) (lent_shape self.now) }
        ensures { IfOk result (λ subset. box_of subset
            ≡ subchunk_box (lent_chunk_shape self.now) (lent_shape self.now) number) }
    {
        let start = corner_list(alloc, self.shape, &self.grid, number)?;
        let shape = Vec::from_slice(alloc, self.shape)?;
        Ok(ArraySubset::new(start, shape))
    }
}
