//! Arrays by a builder.
use anyhow::Result;
use serde_json::{Map, Value};
use std::alloc::Global;
use zarrs::{Array, ArraySubset, DataType, MemoryStore};
use zarrs_builder::ArrayBuilder;

/// The attributes that say the unit of the cells.
fn in_unit(alloc: Global, unit: &str) -> Result<Map<String, Value>> {
    let mut attributes = Map::new(alloc);
    serde_json::put(
        &mut attributes,
        alloc,
        "unit",
        Value::try_from_str(alloc, unit)?,
    )?;
    Ok(attributes)
}

/// A builder of 8 by 8 numbers in chunks of 4 by 4, where -1 means that nobody measured.
fn measured_places(alloc: Global, attributes: Map<String, Value>) -> ArrayBuilder {
    let names = ["y", "x"];
    let mut builder = ArrayBuilder::new(alloc, [8u64, 8], [4u64, 4], DataType::Int16, -1i16);
    builder.dimension_names(alloc, Some(names.iter().copied()));
    builder.attributes(attributes);
    builder
}

/// The array that the builder makes. Its metadata is in its store.
fn stored(
    alloc: Global,
    builder: &ArrayBuilder,
    storage: MemoryStore,
    path: &str,
) -> Result<Array<MemoryStore>> {
    let mut array = builder.build(alloc, storage, path)?;
    array.store_metadata(alloc)?;
    Ok(array)
}

/// Rainfall in millimetres at these places.
pub fn rainfall(alloc: Global, storage: MemoryStore, path: &str) -> Result<Array<MemoryStore>> {
    let builder = measured_places(alloc, in_unit(alloc, "mm")?);
    stored(alloc, &builder, storage, path)
}

/// The same rainfall in one chunk, which is cut into subchunks of 4 by 4.
pub fn rainfall_in_a_shard(
    alloc: Global,
    storage: MemoryStore,
    path: &str,
) -> Result<Array<MemoryStore>> {
    let mut builder = measured_places(alloc, in_unit(alloc, "mm")?);
    builder
        .chunk_grid_metadata(alloc, [8u64, 8])
        .subchunk_shape(alloc, Some([4u64, 4]));
    stored(alloc, &builder, storage, path)
}

/// The unit of the cells, if the attributes say one.
pub fn unit_of<S>(array: &Array<S>) -> Option<&str> {
    array.attributes().get("unit").and_then(Value::as_str)
}

/// Stores what was measured in a region, and reads all of the array.
pub fn measure(
    alloc: Global,
    array: &mut Array<MemoryStore>,
    region: &ArraySubset,
    millimetres: &[i16],
) -> Result<Vec<i16>> {
    array.store_array_subset(alloc, region, millimetres)?;
    let all = array.subset_all(alloc)?;
    let numbers: Vec<i16> = array.retrieve_array_subset(alloc, &all)?;
    Ok(numbers)
}
