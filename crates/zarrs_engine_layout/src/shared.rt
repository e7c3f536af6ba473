//! What a region and a chunk share.
ghost use Rattle.std.specs.Prelude.{◌≡◌, ◌↔◌, true, IfNone, IfOk, IfSome, IsTrue, OnOk, length};
ghost use Rattle.std.specs.Bool.{OnFalse, OnTrue};
ghost use Rattle.zarrs_chunk_grid.specs.Grids.{box_at, has_box};
ghost use Rattle.zarrs_subset.specs.Regions.{LiesInBox, box_of, overlap_of};
ghost use Rattle.zarrs_engine_layout.specs.Shared.{AreApart, AreShared, IsSharedIn};

use std::alloc::{AllocError, Global};
use zarrs_chunk_grid::ChunkGridTraits;
use zarrs_subset::{ArraySubset, ArraySubsetTraits};

/// Returns whether the region covers the chunk with these indices, which has a box.
pub fn covers_chunk<G: ChunkGridTraits>(
    grid: &G,
    region: &ArraySubset,
    chunk_indices: &[u64],
) -> bool
    requires boxed { has_box (G.grid grid.now) chunk_indices.now ≡ true }
    requires dimensions { length (box_of region.now).start ≡ (G.grid grid.now).dimensions }
    ensures { IsTrue result ↔ LiesInBox (box_at (G.grid grid.now) chunk_indices.now)
        (box_of region.now) }
{
    for (dimension, number) in chunk_indices.iter().enumerate() {
        let Some(chunk) = grid.chunk_interval(dimension, *number) else {
            return false;
        };
        let range = region.range(dimension);
        if chunk.start < range.start || range.end < chunk.start + chunk.extent.get() {
            return false;
        }
    }
    true
}

/// What a region shares with one chunk after another. Its boxes are made once for all of them.
#[derive(Debug, Drop)]
pub struct ChunkShare {
    /// The positions as they are seen from the origin of the chunk.
    pub part: ArraySubset,
    /// The same, as they lie in a box of the region's shape: the region's first position lies at its corner.
    pub own: ArraySubset,
}

impl ChunkShare {
    /// Makes the share of no chunk yet.
    pub fn new(alloc: Global) -> ChunkShare {
        ChunkShare {
            part: ArraySubset::new(Vec::new(alloc), Vec::new(alloc)),
            own: ArraySubset::new(Vec::new(alloc), Vec::new(alloc)),
        }
    }

    /// Finds what the region shares with the chunk with these indices, and how that lies in `own`, a box of the
    /// region's shape. Returns whether it is some position.
    ///
    /// # Errors
    /// `AllocError`: out of memory.
    pub fn find<G: ChunkGridTraits>(
        &mut self,
        alloc: Global,
        grid: &G,
        region: &ArraySubset,
        chunk_indices: &[u64],
        own: &ArraySubset,
    ) -> Result<bool, AllocError>
        requires boxed { has_box (G.grid grid.now) chunk_indices.now ≡ true }
        requires dimensions { length (box_of region.now).start ≡ (G.grid grid.now).dimensions }
        requires same_shape { (box_of own.now).shape ≡ (box_of region.now).shape }
        ensures none { IfOk result (λ found. OnFalse found (AreApart (box_of region.now)
            (box_at (G.grid grid.now) chunk_indices.now))) }
        ensures part { IfOk result (λ found. OnTrue found (AreShared (box_of region.now)
            (box_at (G.grid grid.now) chunk_indices.now)
            (overlap_of (box_of region.now) (box_at (G.grid grid.now) chunk_indices.now))
            (box_of self.new.part))) }
        ensures own { IfOk result (λ found. OnTrue found (IsSharedIn (box_of own.now)
            (box_of region.now) (box_at (G.grid grid.now) chunk_indices.now)
            (box_of self.new.own))) }
    {
        self.fit(alloc, chunk_indices.len())?;
        for (dimension, number) in chunk_indices.iter().enumerate() {
            let Some(chunk) = grid.chunk_interval(dimension, *number) else {
                return Ok(false);
            };
            let range = region.range(dimension);
            let first = range.start.max(chunk.start);
            let end = range.end.min(chunk.start + chunk.extent.get());
            if end <= first {
                return Ok(false);
            }
            let seen = first - chunk.start..end - chunk.start;
            self.part.set_range(dimension, &seen);
            let corner = own.start()[dimension];
            let moved = first - range.start + corner..end - range.start + corner;
            self.own.set_range(dimension, &moved);
        }
        Ok(true)
    }

    /// Gives both boxes this number of dimensions.
    #[inline(always)]
    fn fit(&mut self, alloc: Global, dimensionality: usize) -> Result<(), AllocError>
        ensures part { OnOk result (length (box_of self.new.part).start ≡ dimensionality) }
        ensures own { OnOk result (length (box_of self.new.own).start ≡ dimensionality) }
    {
        if self.part.dimensionality() != dimensionality {
            self.part = ArraySubset::new_empty(alloc, dimensionality)?;
        }
        if self.own.dimensionality() != dimensionality {
            self.own = ArraySubset::new_empty(alloc, dimensionality)?;
        }
        Ok(())
    }
}

/// Returns the positions that a region shares with the chunk with these indices, seen from the origin of the chunk.
///
/// # Errors
/// `AllocError`: out of memory.
pub fn part_in_chunk<G: ChunkGridTraits>(
    alloc: Global,
    grid: &G,
    region: &ArraySubset,
    chunk_indices: &[u64],
) -> Result<Option<ArraySubset>, AllocError>
    requires boxed { has_box (G.grid grid.now) chunk_indices.now ≡ true }
    requires dimensions { length (box_of region.now).start ≡ (G.grid grid.now).dimensions }
    ensures none { IfOk result (λ found. IfNone found (AreApart (box_of region.now)
        (box_at (G.grid grid.now) chunk_indices.now))) }
    ensures some { IfOk result (λ found. IfSome found (λ part. AreShared (box_of region.now)
        (box_at (G.grid grid.now) chunk_indices.now)
        (overlap_of (box_of region.now) (box_at (G.grid grid.now) chunk_indices.now))
        (box_of part))) }
{
    let mut start = Vec::with_capacity(alloc, chunk_indices.len())?;
    let mut shape = Vec::with_capacity(alloc, chunk_indices.len())?;
    for (dimension, number) in chunk_indices.iter().enumerate() {
        let Some(chunk) = grid.chunk_interval(dimension, *number) else {
            return Ok(None);
        };
        let range = region.range(dimension);
        let first = range.start.max(chunk.start);
        let end = range.end.min(chunk.start + chunk.extent.get());
        if end <= first {
            return Ok(None);
        }
        start.push(first - chunk.start)?;
        shape.push(end - first)?;
    }
    Ok(Some(ArraySubset::new(start, shape)))
}
