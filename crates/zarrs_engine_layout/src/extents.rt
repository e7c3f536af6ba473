//! The extents of chunks, for calls that need no origin.
ghost use Rattle.std.specs.Prelude.{◌≡◌};
ghost use Rattle.zarrs_subset.specs.Boxes.{position_count};

use crate::array_layout::{ArrayLayout, invalid_indices};
use smallvec::SmallVec;
use std::alloc::Global;
use zarrs_chunk_grid::ChunkGridTraits;
use zarrs_codec_chain::ChainTraits;
use zarrs_engine_calls::ArrayError;
use zarrs_keys::ChunkKeyEncodingTraits;
use zarrs_subset::element_count;

/// The extents of a chunk, and the number of its cells.
#[derive(Debug, Drop)]
pub struct ChunkExtents {
    /// One extent for each dimension.
    pub shape: SmallVec<u64, 4>,
    /// Their product.
    pub count: u64,
    ghost counted: { count ≡ position_count shape.items },
}

impl<G: ChunkGridTraits, K: ChunkKeyEncodingTraits, C: ChainTraits> ArrayLayout<G, K, C> {
    ghost use Rattle.std.specs.Prelude.{true, false, None, IfSome, IfNone, OnSome};
    ghost use Rattle.zarrs_chunk_grid.specs.Grids.{box_at};
    ghost use Rattle.zarrs_engine_calls.specs.ArgumentRefusals.{chunk_refusal};
    ghost use Rattle.zarrs_engine_calls.specs.Refusals.{box_refusal, is_too_large};
    ghost use Rattle.zarrs_engine_layout.specs.Answers.{Answers};
    ghost use Rattle.zarrs_engine_layout.specs.Layouts.{layout_meaning};

    /// Returns the number of cells of a chunk of this shape, or `None` if they have more bytes than a `usize` counts.
    #[inline(always)]
    pub fn shape_count(&self, shape: &[u64]) -> Option<u64>
        ensures some { IfSome result (λ count. count ≡ position_count shape.now) }
        ensures small { OnSome result (is_too_large (layout_meaning self.now) shape.now ≡ false) }
        ensures large { IfNone result (is_too_large (layout_meaning self.now) shape.now ≡ true) }
    {
        let Some(count) = element_count(shape) else {
            return None;
        };
        let size = self.cell_type.data_type.fixed_size().unwrap_or(1);
        match count.checked_mul(size as u64) {
            Some(_) => Some(count),
            None => None,
        }
    }

    /// Returns the extents of the chunk with these indices, and the number of its cells.
    ///
    /// # Errors
    /// In this order: E3 for indices without a chunk; E8 for a chunk of more bytes than a `usize` counts. E9 may come
    /// at any time.
    #[inline(always)]
    pub fn chunk_extents(
        &self,
        alloc: Global,
        chunk_indices: &[u64],
    ) -> Result<ChunkExtents, ArrayError>
        ensures { Answers (box_refusal (layout_meaning self.now) chunk_indices.now)
            (λ chunk. chunk.shape.items ≡ (box_at (G.grid self.now.grid) chunk_indices.now).shape)
            result }
    {
        let shape = self.chunk_shape(alloc, chunk_indices)?;
        match self.shape_count(shape.as_slice()) {
            Some(count) => Ok(ChunkExtents { shape, count }),
            None => Err(ArrayError::SizeOverflow),
        }
    }

    /// Returns the extents of the chunk with these indices.
    ///
    /// # Errors
    /// E3 for another number of indices than dimensions, or indices without a chunk. E9 may come at any time.
    #[inline(always)]
    pub fn chunk_shape(
        &self,
        alloc: Global,
        chunk_indices: &[u64],
    ) -> Result<SmallVec<u64, 4>, ArrayError>
        ensures { Answers (chunk_refusal (layout_meaning self.now) chunk_indices.now)
            (λ shape. shape.items ≡ (box_at (G.grid self.now.grid) chunk_indices.now).shape)
            result }
    {
        if chunk_indices.len() != self.grid.dimensionality() {
            return Err(invalid_indices(alloc, chunk_indices));
        }
        let mut shape = SmallVec::new(alloc);
        for (dimension, number) in chunk_indices.iter().enumerate() {
            let Some(interval) = self.grid.chunk_interval(dimension, *number) else {
                return Err(invalid_indices(alloc, chunk_indices));
            };
            shape.push(interval.extent.get())?;
        }
        Ok(shape)
    }
}
