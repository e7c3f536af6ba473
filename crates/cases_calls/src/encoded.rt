//! Stores of bytes that a chunk's codecs decode.
ghost use Rattle.std.specs.Prelude.{◌≡◌, true, length, IfOk, OnOk, IsSome, IfSome};
ghost use Rattle.zarrs_chunk_grid.specs.Grids.{box_at, has_box};
ghost use Rattle.zarrs_engine_calls.specs.Content.{decoded_cells};
ghost use Rattle.zarrs.specs.Arrays.{layout_of_array};

use crate::CaseArray;
use cases_answers::{Answer, answered};
use cases_lines::Why;
use cases_lines::call::CallLine;
use std::alloc::{AllocError, Global};
use zarrs::laws::an_array_is_its_metadata;
use zarrs::{Array, ArrayBytes, ArrayError, Bytes, MemoryStore, WritableStorageTraits};

/// Stores the bytes as those of the chunk.
pub(crate) fn store_encoded_chunk<'a>(
    alloc: Global,
    array: &mut CaseArray<'_>,
    call: &CallLine<'a>,
) -> Result<Answer, Why<'a>> {
    let encoded = decoding(alloc, array, &call.list, &call.bytes, call.written)?;
    let encoded = Bytes::from_vec(encoded)?;
    answered(
        alloc,
        &array.store_encoded_chunk(alloc, &call.list, encoded),
    )
}

/// The bytes, if they decode. That is known by a read of the chunk over a store that has them alone.
fn decoding<'a>(
    alloc: Global,
    array: &CaseArray<'_>,
    indices: &[u64],
    bytes: &[u8],
    written: &'a str,
) -> Result<Vec<u8>, Why<'a>>
    ensures chunk { OnOk result (has_box (layout_of_array array.now).grid indices.now ≡ true) }
    ensures decodes { IfOk result (λ bytes. IsSome (decoded_cells (layout_of_array array.now)
        (box_at (layout_of_array array.now).grid indices.now) bytes.items)) }
{
    if indices.len() != array.dimensionality() {
        return Err(Why::Dimensions(written));
    }
    let over = over_bytes(alloc, array, indices, bytes)?;
    let held = held_bytes(alloc, &over, indices);
    drop(over);
    match held {
        Ok(Some(bytes)) => Ok(bytes),
        Err(ArrayError::OutOfMemory) => Err(Why::OutOfMemory),
        _ => Err(Why::NotEncoded(written)),
    }
}

/// The array over a store that has these bytes of the chunk alone.
fn over_bytes(
    alloc: Global,
    array: &CaseArray<'_>,
    indices: &[u64],
    bytes: &[u8],
) -> Result<Array<MemoryStore>, AllocError>
    requires { length indices.now ≡ (layout_of_array array.now).grid.dimensions }
    ensures { IfOk result (λ over. layout_of_array over ≡ layout_of_array array.now) }
{
    let Ok(key) = array.chunk_key(alloc, indices) else {
        return Err(AllocError);
    };
    let mut store = MemoryStore::new(alloc);
    let value = Bytes::from_vec(bytes.to_vec(alloc)?)?;
    if store.set(alloc, &key, value).is_err() {
        return Err(AllocError);
    }
    match array.with_storage(alloc, store) {
        Ok(over) => Ok(over),
        Err(_) => Err(AllocError),
    }
}

/// The bytes that are stored for a chunk, which decode, or `None` if it is absent.
fn held_bytes(
    alloc: Global,
    array: &Array<MemoryStore>,
    indices: &[u64],
) -> Result<Option<Vec<u8>>, ArrayError>
    ensures chunk { OnOk result (has_box (layout_of_array array.now).grid indices.now ≡ true) }
    ensures decodes { IfOk result (λ encoded. IfSome encoded (λ bytes. IsSome
        (decoded_cells (layout_of_array array.now)
        (box_at (layout_of_array array.now).grid indices.now) bytes.items))) }
{
    an_array_is_its_metadata(array);
    // A chunk without a box is refused here, and one whose bytes do not decode.
    let _cells: ArrayBytes<'static> = array.retrieve_chunk(alloc, indices)?;
    let encoded = array.retrieve_encoded_chunk(alloc, indices)?;
    Ok(encoded)
}
