//! Chunks as the bytes that are stored.
ghost use Rattle.std.specs.Prelude.{◌≡◌, true, IfOk, OnOk, IsSome, IfSome};
ghost use Rattle.zarrs_chunk_grid.specs.Grids.{box_at, has_box};
ghost use Rattle.zarrs_engine_calls.specs.Content.{decoded_cells};
ghost use Rattle.zarrs.specs.Arrays.{layout_of_array};

use anyhow::Result;
use std::alloc::Global;
use zarrs::laws::an_array_is_its_metadata;
use zarrs::{Array, ArraySubset, Bytes, MemoryStore};

/// The bytes that are stored for a chunk, which decode, or `None` if it is absent.
fn held_bytes(
    alloc: Global,
    array: &Array<MemoryStore>,
    chunk_indices: &[u64],
) -> Result<Option<Vec<u8>>>
    ensures chunk { OnOk result
        (has_box (layout_of_array array.now).grid chunk_indices.now ≡ true) }
    ensures decodes { IfOk result (λ encoded. IfSome encoded (λ bytes. IsSome
        (decoded_cells (layout_of_array array.now)
        (box_at (layout_of_array array.now).grid chunk_indices.now) bytes.items))) }
{
    an_array_is_its_metadata(array);
    // A chunk without a box is refused here, and one whose bytes do not decode.
    let _cells: Vec<u8> = array.retrieve_chunk(alloc, chunk_indices)?;
    let encoded = array.retrieve_encoded_chunk(alloc, chunk_indices)?;
    Ok(encoded)
}

/// Puts these bytes back as those of the chunk, or erases it if there is none.
fn put_back(
    alloc: Global,
    array: &mut Array<MemoryStore>,
    chunk_indices: &[u64],
    encoded: Option<Vec<u8>>,
) -> Result<()>
    requires chunk { has_box (layout_of_array array.old).grid chunk_indices.now ≡ true }
    requires decodes { IfSome encoded (λ bytes. IsSome (decoded_cells (layout_of_array array.old)
        (box_at (layout_of_array array.old).grid chunk_indices.now) bytes.items)) }
{
    match encoded {
        Some(bytes) => array.store_encoded_chunk(alloc, chunk_indices, Bytes::from_vec(bytes)?)?,
        None => array.erase_chunk(alloc, chunk_indices)?,
    }
    Ok(())
}

/// What the region reads while the chunk has these cells. The chunk is left with the bytes that it had.
pub fn read_while(
    alloc: Global,
    array: &mut Array<MemoryStore>,
    chunk_indices: &[u64],
    cells: &[u8],
    region: &ArraySubset,
) -> Result<Vec<u8>> {
    let encoded = held_bytes(alloc, array, chunk_indices)?;
    array.store_chunk(alloc, chunk_indices, cells)?;
    let numbers: Vec<u8> = array.retrieve_array_subset(alloc, region)?;
    put_back(alloc, array, chunk_indices, encoded)?;
    Ok(numbers)
}
