//! Chunks that a change of the array's shape cuts.
use crate::array_layout::ArrayLayout;
use std::alloc::{AllocError, Global};
use zarrs_chunk_grid::ChunkGridTraits;
use zarrs_codec_chain::ChainTraits;
use zarrs_keys::ChunkKeyEncodingTraits;
use zarrs_subset::ArraySubset;

impl<G: ChunkGridTraits, K: ChunkKeyEncodingTraits, C: ChainTraits> ArrayLayout<G, K, C> {
    ghost use Rattle.std.specs.Prelude.{◌≡◌, if◌then◌else◌, length, Some, None};
    ghost use Rattle.zarrs_engine_calls.specs.Cuts.{is_cut, keeps_some};

    /// Returns whether the chunk with these indices has cells below this shape, if it has cells that are not. `None` if
    /// it has no such cell, or if there is no such chunk.
    pub fn cut(&self, chunk_indices: &[u64], shape: &[u64]) -> Option<bool>
        requires indices { length chunk_indices.now ≡ (G.grid self.now.grid).dimensions }
        requires shape { length shape.now ≡ (G.grid self.now.grid).dimensions }
        ensures { result ≡ (if is_cut (G.grid self.now.grid) shape.now chunk_indices.now
            then Some (keeps_some (G.grid self.now.grid) shape.now chunk_indices.now) else None) }
    {
        let mut begins_below = true;
        let mut ends_below = true;
        for (dimension, extent) in shape.iter().enumerate() {
            let chunk = self
                .grid
                .chunk_interval(dimension, chunk_indices[dimension])?;
            begins_below &= chunk.start < *extent;
            ends_below &= chunk.start + chunk.extent.get() <= *extent;
        }
        (!ends_below).then_some(begins_below)
    }
}

ghost use Rattle.std.specs.Prelude.{◌≡◌, ◌<◌, IfOk, length, option_map, slice_index};
ghost use Rattle.zarrs_subset.specs.Regions.{box_of};
ghost use Rattle.zarrs_engine_layout.specs.Beyond.{IsBeyond};

/// Returns the positions of the chunk that are not below the shape along an axis, as a box, if there are such. The chunk
/// begins below it.
pub fn beyond(
    alloc: Global,
    chunk: &ArraySubset,
    shape: &[u64],
    axis: usize,
) -> Result<Option<ArraySubset>, AllocError>
    requires same_length { length shape.now ≡ length (box_of chunk.now).start }
    requires axis { axis < length shape.now }
    requires begins { slice_index (box_of chunk.now).start axis < slice_index shape.now axis }
    ensures { IfOk result (λ gone. IsBeyond (box_of chunk.now) shape.now axis
        (option_map box_of gone)) }
{
    let kept = shape[axis] - chunk.start()[axis];
    let extent = chunk.shape()[axis];
    if extent <= kept {
        return Ok(None);
    }
    let mut start = chunk.start().to_vec(alloc)?;
    let mut extents = chunk.shape().to_vec(alloc)?;
    start[axis] = shape[axis];
    extents[axis] = extent - kept;
    Ok(Some(ArraySubset::new(start, extents)))
}
