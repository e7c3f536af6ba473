//! Makes an array.
use anyhow::Result;
use std::alloc::Global;
use std::num::NonZeroU64;
use zarrs_chunk_grid::RegularChunkGrid;
use zarrs_codec::{ArrayToBytesCodec, BytesCodec, BytesToBytesCodecs, CodecChain};
use zarrs_data_type::{DataType, FillValue};
use zarrs_engine::Engine;
use zarrs_keys::{ChunkKeyEncoding, ChunkKeySeparator, NodePath};
use zarrs_storage::MemoryStore;

/// An array over a store in memory, in chunks of one shape.
pub type MemoryEngine = Engine<MemoryStore, RegularChunkGrid, ChunkKeyEncoding, CodecChain>;

/// An array of bytes of this shape, in chunks of that shape, over a new store in memory. Its cells are 0.
pub fn bytes_array(
    alloc: Global,
    shape: Vec<u64>,
    chunk_shape: Vec<NonZeroU64>,
) -> Result<MemoryEngine> {
    bytes_array_over(alloc, MemoryStore::new(alloc), shape, chunk_shape)
}

/// The same over this store.
pub fn bytes_array_over<S: Drop>(
    alloc: Global,
    storage: S,
    shape: Vec<u64>,
    chunk_shape: Vec<NonZeroU64>,
) -> Result<Engine<S, RegularChunkGrid, ChunkKeyEncoding, CodecChain>> {
    let grid = RegularChunkGrid::new(alloc, shape, chunk_shape)?;
    let path = NodePath::new(alloc, "/climate/rain")?;
    let keys = ChunkKeyEncoding::Default(ChunkKeySeparator::Slash);
    let chain = CodecChain::new(
        Vec::new(alloc),
        ArrayToBytesCodec::Bytes(BytesCodec::little()),
        BytesToBytesCodecs,
    );
    let fill_value = FillValue::new(vec![in alloc; 0]?);
    Ok(Engine::new(
        storage,
        path,
        grid,
        keys,
        chain,
        DataType::UInt8,
        fill_value,
    ))
}
