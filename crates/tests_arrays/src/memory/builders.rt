//! A builder whose fields remember that there was no memory for them.
use crate::checks::{are_y_and_x, must, must_eq, must_want_memory};
use std::alloc::Global;
use std::process::Abort;
use zarrs::{Array, DataType, MemoryStore};
use zarrs_builder::ArrayBuilder;

/// A builder of another array than the test wants.
fn other(alloc: Global) -> ArrayBuilder {
    ArrayBuilder::new(alloc, [5u64], [5u64], DataType::Int16, 1i16)
}

/// Sets each field that needs memory: 9 by 8 bytes in chunks of 4 by 4, which are cut into subchunks of 2 by 2.
fn set_fields(alloc: Global, builder: &mut ArrayBuilder) {
    let names = ["y", "x"];
    builder
        .shape(alloc, [9u64, 8])
        .chunk_grid_metadata(alloc, [4u64, 4])
        .data_type(alloc, "uint8")
        .fill_value(alloc, 7u8)
        .subchunk_shape(alloc, Some([2u64, 2]))
        .dimension_names(alloc, Some(names.iter().copied()));
}

/// The array has what was set.
fn must_be_set(rt: &impl Abort, array: Array<MemoryStore>) {
    must_eq(rt, array.shape(), &[9, 8]);
    must_eq(rt, array.chunk_grid_shape(), &[3, 2]);
    must(rt, *array.data_type() == DataType::UInt8);
    must_eq(rt, array.fill_value().as_bytes(), &[7]);
    must(rt, are_y_and_x(array.dimension_names()));
    drop(array);
}

/// Builds the array, or tells that there was no memory for it.
fn is_built(rt: &impl Abort, alloc: Global, builder: &ArrayBuilder) -> bool {
    match builder.build(alloc, MemoryStore::new(alloc), "/a") {
        Ok(array) => {
            must_be_set(rt, array);
            true
        }
        Err(error) => {
            must_want_memory(rt, error);
            false
        }
    }
}

#[test]
fn a_field_that_found_no_memory_is_set_again(rt: HostRuntime) {
    let alloc = rt.alloc();
    let mut builder = other(alloc);
    set_fields(alloc, &mut builder);
    if !is_built(&rt, alloc, &builder) {
        set_fields(alloc, &mut builder);
        must(&rt, is_built(&rt, alloc, &builder));
    }
    drop(builder);
}
