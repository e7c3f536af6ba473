//! README's whole program: an array is built, written, opened again and printed.
#![tactic(auto)]

use anyhow::Result;
use zarrs::{Array, DataType, MemoryStore};
use zarrs_builder::ArrayBuilder;

fn main(rt: HostRuntime) -> Result<()> {
    let alloc = rt.alloc();

    // 6 by 4 numbers in chunks of 3 by 2; -1 where nothing was stored.
    let builder = ArrayBuilder::new(alloc, [6u64, 4], [3u64, 2], DataType::Int16, -1i16);
    let mut array = builder.build(alloc, MemoryStore::new(alloc), "/height")?;
    array.store_metadata(alloc)?;
    array.store_array_subset(alloc, &[1..3, 1..3], [10i16, 11, 20, 21])?;

    // The store outlives the array: open it again, and read every cell.
    let array = Array::open(alloc, array.into_storage(), "/height")?;
    let all = array.subset_all(alloc)?;
    let heights: Vec<i16> = array.retrieve_array_subset(alloc, &all)?;
    for row in heights.chunks(4) {
        println!(rt; "{row:?}")?;
    }
    Ok(())
}
