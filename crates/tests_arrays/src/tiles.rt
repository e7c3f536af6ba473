//! Chunks that are shards: cut into subchunks, which are found by an index at the end of the chunk.
use anyhow::{Result, bail};
use std::alloc::Global;
use zarrs::{Array, ArrayError, ArraySubset, CodecOptions, DataType, MemoryStore};
use zarrs_builder::ArrayBuilder;

/// 4 by 4 bytes in one chunk, which is cut into subchunks of 2 by 2.
pub fn tiles(alloc: Global) -> Result<Array<MemoryStore>> {
    let mut builder = ArrayBuilder::new(alloc, [4u64, 4], [4u64, 4], DataType::UInt8, 0u8);
    builder.subchunk_shape(alloc, Some([2u64, 2]));
    Ok(builder.build(alloc, MemoryStore::new(alloc), "/tiles")?)
}

/// Stores the first subchunk by itself. The bytes of the others stay where they are.
pub fn store_first_tile(
    alloc: Global,
    array: &mut Array<MemoryStore>,
    tile: [u8; 4],
) -> Result<(), ArrayError> {
    let options = CodecOptions::default().with_experimental_partial_encoding(true);
    array.store_chunk_subset_opt(alloc, &[0, 0], &[0..2, 0..2], tile, &options)
}

/// Compacts the chunk, and returns whether its bytes changed.
pub fn compact(alloc: Global, array: &mut Array<MemoryStore>) -> Result<bool> {
    if array.dimensionality() != 2 {
        bail!("the array has another number of dimensions");
    }
    Ok(array.compact_chunk(alloc, &[0, 0], &CodecOptions::default())?)
}

/// Whether both arrays hold the same bytes for each of these chunks.
pub fn have_equal_chunks(
    alloc: Global,
    one: &Array<MemoryStore>,
    other: &Array<MemoryStore>,
    chunks: &ArraySubset,
) -> Result<bool> {
    let dimensions = chunks.dimensionality();
    if dimensions != one.dimensionality() || dimensions != other.dimensionality() {
        bail!("the arrays have other numbers of dimensions");
    }
    Ok(one.chunks_equal(alloc, other, chunks)?)
}
