//! Walks the chunks of a region.
use crate::make::MemoryEngine;
use anyhow::Result;
use std::alloc::Global;
use std::ops::Range;
use zarrs_chunk_grid::ChunkGridTraits;

/// The sum of the cells of the chunks that the region meets, or `None` if a position of it is in no chunk.
///
/// The region is a range for each dimension. A chunk counts as a whole, also if the region ends inside it.
pub fn sum_of_chunks(
    alloc: Global,
    engine: &MemoryEngine,
    region: &[Range<u64>],
) -> Result<Option<u64>> {
    let grid = engine.chunk_grid();
    let Some(chunks) = grid.chunks_in_array_subset(alloc, &region)? else {
        return Ok(None);
    };
    let mut sum = 0u64;
    for chunk_indices in chunks.indices(alloc) {
        let chunk_indices = chunk_indices?;
        let cells = engine.retrieve_chunk(alloc, &chunk_indices)?.into_fixed()?;
        for cell in cells.as_slice() {
            sum = sum.saturating_add(u64::from(*cell));
        }
    }
    Ok(Some(sum))
}
