//! The callers, run.
use crate::changes::{numbers_in, resize_and_store, upgrade};
use crate::checks::must;
use crate::made::{holding, list_of};
use crate::texts::{ages, names, store_ages, store_names};
use crate::tiles::{compact, have_equal_chunks, store_first_tile, tiles};
use std::alloc::Global;
use std::fmt::Debug;
use std::ops::Range;
use std::process::Abort;
use zarrs::{Array, ArraySubset, MemoryStore};

/// Ends the test, except if the array has these numbers in this region.
fn must_read(
    rt: &impl Abort,
    alloc: Global,
    array: &Array<MemoryStore>,
    region: &[Range<u64>],
    wanted: Option<&[u8]>,
) {
    let read = numbers_in(alloc, array, region).expect(rt, "no refusal");
    must(rt, read.as_deref() == wanted);
}

fn store_tile(rt: &impl Abort, alloc: Global, array: &mut Array<MemoryStore>, tile: [u8; 4]) {
    store_first_tile(alloc, array, tile).expect(rt, "no refusal");
}

/// Ends the test, except if a compaction answers so.
fn must_compact(rt: &impl Abort, alloc: Global, array: &mut Array<MemoryStore>, wrote: bool) {
    must(rt, compact(alloc, array).expect(rt, "no refusal") == wrote);
}

fn must_compare(
    rt: &impl Abort,
    alloc: Global,
    one: &Array<MemoryStore>,
    other: &Array<MemoryStore>,
    equal: bool,
) {
    let chunks = ArraySubset::new_with_ranges(alloc, &[0..1, 0..1]).expect(rt, "no refusal");
    let found = have_equal_chunks(alloc, one, other, &chunks).expect(rt, "no refusal");
    drop(chunks);
    must(rt, found == equal);
}

/// A subchunk that is stored twice leaves its old bytes behind, until the chunk is compacted.
#[test]
fn subchunks_are_stored_by_themselves(rt: HostRuntime) {
    let alloc = rt.alloc();
    let mut once = tiles(alloc).expect(&rt, "no refusal");
    let mut twice = tiles(alloc).expect(&rt, "no refusal");
    store_tile(&rt, alloc, &mut once, [1, 2, 3, 4]);
    store_tile(&rt, alloc, &mut twice, [9, 9, 9, 9]);
    store_tile(&rt, alloc, &mut twice, [1, 2, 3, 4]);
    must_compare(&rt, alloc, &once, &twice, false);
    must_compact(&rt, alloc, &mut twice, true);
    must_compare(&rt, alloc, &once, &twice, true);
    must_read(&rt, alloc, &twice, &[1..2, 0..4], Some(&[3, 4, 0, 0]));
    drop(once);
    drop(twice);
}

/// Ends the test, except if the value is printed so.
fn must_print<T: Debug>(rt: &impl Abort, alloc: Global, value: &T, text: &str) {
    let printed = format!(in alloc; "{value:?}").expect(rt, "memory");
    must(rt, printed.as_str() == text);
}

#[test]
fn texts_and_missing_values_are_stored(rt: HostRuntime) {
    let alloc = rt.alloc();
    let mut array = names(alloc).expect(&rt, "no refusal");
    let names = store_names(alloc, &mut array).expect(&rt, "no refusal");
    drop(array);
    must_print(
        &rt,
        alloc,
        &names,
        r#"["nobody", "Ada", "Grace", "nobody"]"#,
    );
    drop(names);
    let mut array = ages(alloc).expect(&rt, "no refusal");
    let ages = store_ages(alloc, &mut array).expect(&rt, "no refusal");
    drop(array);
    must_print(&rt, alloc, &ages, "[Some(36), None, None]");
    drop(ages);
}

/// Cells that were cut away are fill, also after the array has grown again, and when it is opened.
#[test]
fn an_array_is_cut_and_grows(rt: HostRuntime) {
    let alloc = rt.alloc();
    let mut array = tiles(alloc).expect(&rt, "no refusal");
    store_tile(&rt, alloc, &mut array, [1, 2, 3, 4]);
    resize_and_store(alloc, &mut array, list_of(&rt, alloc, &[4, 1])).expect(&rt, "no refusal");
    resize_and_store(alloc, &mut array, list_of(&rt, alloc, &[4, 6])).expect(&rt, "no refusal");
    let opened = Array::open(alloc, array.into_storage(), "/tiles").expect(&rt, "no refusal");
    must(&rt, opened.shape() == [4, 6].as_slice());
    must_read(&rt, alloc, &opened, &[0..2, 0..2], Some(&[1, 0, 3, 0]));
    must_read(&rt, alloc, &opened, &[0..2], None);
    drop(opened);
}

/// The V2 document of 4 bytes in chunks of 2.
const V2_DOCUMENT: &[u8] = br#"{
    "zarr_format": 2,
    "shape": [4],
    "chunks": [2],
    "dtype": "|u1",
    "fill_value": 7,
    "order": "C",
    "filters": null,
    "compressor": null
}"#;

fn must_hold_one_key(rt: &impl Abort, alloc: Global, storage: &MemoryStore, wanted: &str) {
    let keys = storage.keys(alloc).expect(rt, "no refusal");
    must(
        rt,
        matches!(keys.as_slice(), [key] if key.as_str() == wanted),
    );
    drop(keys);
}

#[test]
fn a_v2_array_is_upgraded(rt: HostRuntime) {
    let alloc = rt.alloc();
    let mut storage = holding(&rt, alloc, "old/.zarray", V2_DOCUMENT);
    upgrade(alloc, &mut storage, "/old").expect(&rt, "no refusal");
    must_hold_one_key(&rt, alloc, &storage, "old/zarr.json");
    let array = Array::open(alloc, storage, "/old").expect(&rt, "no refusal");
    must_read(&rt, alloc, &array, &[0..4], Some(&[7, 7, 7, 7]));
    drop(array);
}
