//! Stores, reads and erases a chunk.
ghost use Rattle.std.specs.Prelude.{◌≡◌, false, IfOk, OnOk};
ghost use Rattle.zarrs_storage.specs.Memory.{open_state};
ghost use Rattle.zarrs_data_type.specs.ArrayData.{data_of, fixed};
ghost use Rattle.zarrs_data_type.specs.Cells.{cells};
ghost use Rattle.zarrs_engine_calls.specs.Step.{StoresChunk, ErasesChunk};
ghost use Rattle.zarrs_engine.specs.Engine.{layout_of, store_of, KeepsLayout};

use crate::make::MemoryEngine;
use std::alloc::Global;
use zarrs_codec::CodecOptions;
use zarrs_data_type::ArrayBytes;
use zarrs_engine::ArrayError;

/// Stores these bytes as the cells of a chunk, in row-major order, and reads the same cells back.
pub fn store_and_read(
    alloc: Global,
    engine: &mut MemoryEngine,
    chunk_indices: &[u64],
    chunk_bytes: &[u8],
) -> Result<ArrayBytes<'static>, ArrayError>
    ensures stored { OnOk result (StoresChunk (layout_of engine.old) false chunk_indices.now
        (fixed chunk_bytes.now) (store_of open_state engine.old) (store_of open_state engine.new)) }
    ensures same { IfOk result (λ read. cells (layout_of engine.old).kind (data_of read)
        ≡ cells (layout_of engine.old).kind (fixed chunk_bytes.now)) }
    ensures layout_kept { KeepsLayout engine.old engine.new }
{
    let chunk_data = ArrayBytes::from_flen(chunk_bytes);
    let options = CodecOptions::default();
    engine.store_chunk(alloc, chunk_indices, &chunk_data, &options)?;
    let read = engine.retrieve_chunk(alloc, chunk_indices)?;
    Ok(read)
}

/// Erases a chunk. What is read there afterwards is the fill value.
pub fn erase(
    alloc: Global,
    engine: &mut MemoryEngine,
    chunk_indices: &[u64],
) -> Result<(), ArrayError>
    ensures erased { OnOk result (ErasesChunk (layout_of engine.old) chunk_indices.now
        (store_of open_state engine.old) (store_of open_state engine.new)) }
    ensures layout_kept { KeepsLayout engine.old engine.new }
{
    if chunk_indices.len() != engine.dimensionality() {
        let indices = chunk_indices.to_vec(alloc)?;
        return Err(ArrayError::InvalidChunkGridIndicesError(indices));
    }
    engine.erase_chunk(alloc, chunk_indices)?;
    Ok(())
}

/// Whether some bytes are present at the key of the chunk.
pub fn is_present(
    alloc: Global,
    engine: &MemoryEngine,
    chunk_indices: &[u64],
) -> Result<bool, ArrayError> {
    let found = engine.retrieve_chunk_if_exists(alloc, chunk_indices)?;
    Ok(found.is_some())
}
