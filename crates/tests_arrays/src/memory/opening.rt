//! An array in a store that the caller keeps.
use crate::checks::{must, must_eq, must_want_memory};
use crate::memory::again::{key, must_have_keys};
use std::alloc::Global;
use std::process::Abort;
use zarrs::{Array, ArrayError, Bytes, Lent, MemoryStore, WritableStorageTraits};

/// 5 bytes in chunks of 2.
const DOCUMENT: &[u8] = br#"{
    "zarr_format": 3,
    "node_type": "array",
    "shape": [5],
    "data_type": "uint8",
    "chunk_grid": {"name": "regular", "configuration": {"chunk_shape": [2]}},
    "chunk_key_encoding": {"name": "default"},
    "fill_value": 7,
    "codecs": ["bytes"],
    "attributes": {"unit": "mm"}
}"#;

const KEYS: &[&str] = &["a/c/0", "a/c/2", "a/zarr.json"];

fn put(rt: &impl Abort, alloc: Global, store: &mut MemoryStore, name: &str, value: &'static [u8]) {
    let key = key(rt, alloc, name);
    if store.set(alloc, &key, Bytes::from_static(value)).is_err() {
        let set = store.set(alloc, &key, Bytes::from_static(value));
        set.expect(rt, "no second refusal");
    }
}

/// A store that holds the array at `/a`.
fn holding(rt: &impl Abort, alloc: Global) -> MemoryStore {
    let mut store = MemoryStore::new(alloc);
    put(rt, alloc, &mut store, "a/zarr.json", DOCUMENT);
    put(rt, alloc, &mut store, "a/c/0", &[1, 2]);
    put(rt, alloc, &mut store, "a/c/2", &[3, 7]);
    store
}

type LentArray<'a> = Array<Lent<'a, MemoryStore>>;

/// The cells are read, or there was no memory for them.
fn are_read(rt: &impl Abort, alloc: Global, array: &LentArray<'_>) -> bool {
    let read: Result<Vec<u8>, ArrayError> = array.retrieve_array_subset(alloc, &[0..5]);
    match read {
        Ok(cells) => {
            must_eq(rt, cells.as_slice(), &[1, 2, 7, 7, 3]);
            true
        }
        Err(ArrayError::OutOfMemory) => false,
        Err(_) => rt.panic("another refusal"),
    }
}

fn must_read(rt: &impl Abort, alloc: Global, array: LentArray<'_>) {
    must(
        rt,
        are_read(rt, alloc, &array) || are_read(rt, alloc, &array),
    );
    drop(array);
}

/// Opens the array and reads it, or tells that there was no memory to open it.
fn is_read(rt: &impl Abort, alloc: Global, store: &mut MemoryStore) -> bool {
    match Array::open(alloc, Lent::new(store), "/a") {
        Ok(array) => {
            must_read(rt, alloc, array);
            true
        }
        Err(error) => {
            must_want_memory(rt, error);
            false
        }
    }
}

#[test]
fn an_array_is_opened_again(rt: HostRuntime) {
    let alloc = rt.alloc();
    let mut store = holding(&rt, alloc);
    if !is_read(&rt, alloc, &mut store) {
        must_have_keys(&rt, alloc, &store, KEYS);
        must(&rt, is_read(&rt, alloc, &mut store));
    }
    must_have_keys(&rt, alloc, &store, KEYS);
    drop(store);
}
