//! Changes of what an array is, and a refusal that is handled.
use anyhow::Result;
use std::alloc::Global;
use std::ops::Range;
use zarrs::{Array, ArrayError, CodecOptions, Lent, MemoryStore};

/// Cuts or grows the array to this shape, in its store too.
pub fn resize_and_store(
    alloc: Global,
    array: &mut Array<MemoryStore>,
    shape: Vec<u64>,
) -> Result<()> {
    array.resize(alloc, shape, &CodecOptions::default())?;
    // `resize` stores no metadata.
    array.store_metadata(alloc)?;
    Ok(())
}

/// Turns the array at the path into one of Zarr V3, if it is one of V2. The store stays with the caller.
pub fn upgrade(alloc: Global, storage: &mut MemoryStore, path: &str) -> Result<()> {
    let mut array = Array::open(alloc, Lent::new(storage), path)?;
    let upgraded = array.upgrade_metadata(alloc);
    drop(array);
    Ok(upgraded?)
}

/// The numbers of a region, or `None` if the chunks do not cover it.
pub fn numbers_in(
    alloc: Global,
    array: &Array<MemoryStore>,
    region: &[Range<u64>],
) -> Result<Option<Vec<u8>>, ArrayError> {
    match array.retrieve_array_subset(alloc, &region) {
        Ok(numbers) => Ok(Some(numbers)),
        Err(ArrayError::InvalidArraySubset(_, _)) => Ok(None),
        Err(error) => Err(error),
    }
}
