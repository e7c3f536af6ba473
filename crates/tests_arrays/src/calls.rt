//! Calls of an array that no case file makes, by ranges in place of boxes: 4 by 4 bytes in chunks of 2 by 2, with the fill
//! value 7.
use crate::arrays::{MemoryArray, array};
use crate::checks::{must, must_be_bytes, must_be_done, must_eq};
use crate::made::list_of;
use std::alloc::Global;
use std::process::Abort;

/// A chunk, a part of another one, a range of two, and a region.
fn store_elements(rt: &impl Abort, alloc: Global, array: &mut MemoryArray) {
    must_be_done(
        rt,
        array.store_chunk_elements(alloc, &[0, 0], &[1u8, 2, 3, 4]),
    );
    must_be_done(
        rt,
        array.store_chunk_subset_elements(alloc, &[0, 1], &[1..2, 0..2], &[5u8, 6]),
    );
    must_be_done(
        rt,
        array.store_chunks_elements(alloc, &[1..2, 0..2], &[8u8; 8]),
    );
    must_be_done(
        rt,
        array.store_array_subset_elements(alloc, &[1..3, 1..3], &[9u8; 4]),
    );
}

/// What these stores leave, a row of the array a line.
const WRITTEN: &[u8] = &[
    1, 2, 7, 7, //
    3, 9, 9, 6, //
    8, 9, 9, 8, //
    8, 8, 8, 8,
];

fn must_read_elements(rt: &impl Abort, alloc: Global, array: &MemoryArray) {
    must_be_bytes(
        rt,
        array.retrieve_chunk_elements(alloc, &[0, 0]),
        &[1, 2, 3, 9],
    );
    must_be_bytes(
        rt,
        array.retrieve_chunk_subset_elements(alloc, &[0, 0], &[0..2, 1..2]),
        &[2, 9],
    );
    must_be_bytes(
        rt,
        array.retrieve_chunks_elements(alloc, &[1..2, 0..1]),
        &[8, 9, 8, 8],
    );
    must_be_bytes(
        rt,
        array.retrieve_array_subset_elements(alloc, &[0..4, 0..4]),
        WRITTEN,
    );
    let found = array.retrieve_chunk_elements_if_exists::<u8>(alloc, &[0, 1]);
    must(rt, found.expect(rt, "no refusal").is_some());
}

/// The extents of a chunk, and setters, each of which returns the array.
fn must_set(rt: &impl Abort, alloc: Global, array: &mut MemoryArray) {
    let extents = array
        .chunk_shape_usize(alloc, &[0, 0])
        .expect(rt, "no refusal");
    must_eq(rt, extents.as_slice(), &[2, 2]);
    let set = array.set_shape(alloc, list_of(rt, alloc, &[9, 3]));
    must_eq(rt, set.expect(rt, "no refusal").shape(), &[9, 3]);
    let set = array.set_shape_and_chunk_grid(alloc, list_of(rt, alloc, &[9, 9]), [3u64, 2]);
    must_eq(rt, set.expect(rt, "no refusal").chunk_grid_shape(), &[3, 5]);
    let set = array.set_dimension_names(alloc, None);
    must(rt, set.expect(rt, "no refusal").dimension_names().is_none());
}

#[test]
fn elements_are_stored_and_read_and_parts_are_set(rt: HostRuntime) {
    let alloc = rt.alloc();
    let mut array = array(&rt, alloc);
    store_elements(&rt, alloc, &mut array);
    must_read_elements(&rt, alloc, &array);
    must_set(&rt, alloc, &mut array);
    drop(array);
}
