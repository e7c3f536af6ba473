//! Cells that are texts, and cells that may be missing.
use anyhow::Result;
use std::alloc::Global;
use zarrs::{Array, DataType, FillValueMetadata, MemoryStore};
use zarrs_builder::ArrayBuilder;

/// Four names, of which none is stored: each is the fill value.
pub fn names(alloc: Global) -> Result<Array<MemoryStore>> {
    let builder = ArrayBuilder::new(alloc, [4u64], [2u64], DataType::String, "nobody");
    Ok(builder.build(alloc, MemoryStore::new(alloc), "/names")?)
}

/// Stores two of the names, and reads all.
pub fn store_names(alloc: Global, array: &mut Array<MemoryStore>) -> Result<Vec<String>> {
    array.store_array_subset(alloc, &[1..3], ["Ada", "Grace"])?;
    let names: Vec<String> = array.retrieve_array_subset(alloc, &[0..4])?;
    Ok(names)
}

/// Three ages, of which none is known.
pub fn ages(alloc: Global) -> Result<Array<MemoryStore>> {
    let age = DataType::Optional(Box::new(alloc, DataType::UInt8)?);
    let builder = ArrayBuilder::new(alloc, [3u64], [3u64], age, FillValueMetadata::Null);
    Ok(builder.build(alloc, MemoryStore::new(alloc), "/ages")?)
}

/// Stores one of the ages and one that is missing, and reads all.
pub fn store_ages(alloc: Global, array: &mut Array<MemoryStore>) -> Result<Vec<Option<u8>>> {
    array.store_array_subset(alloc, &[0..2], [Some(36u8), None])?;
    let ages: Vec<Option<u8>> = array.retrieve_array_subset(alloc, &[0..3])?;
    Ok(ages)
}
