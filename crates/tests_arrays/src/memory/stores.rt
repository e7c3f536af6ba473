//! A store in memory: what is refused changes no value.
use crate::checks::must;
use crate::memory::again::{key, must_have_keys};
use std::alloc::Global;
use std::process::Abort;
use zarrs::{
    Bytes, MemoryStore, ReadableStorageTraits, StorageError, StoreKey, WritableStorageTraits,
};

/// A call that writes.
enum Write {
    Set(&'static [u8]),
    SetPart(u64, &'static [u8]),
    Erase,
}

/// A call at a key, and the value there before it and after it.
struct Row {
    key: &'static str,
    before: Option<&'static [u8]>,
    write: Write,
    after: Option<&'static [u8]>,
}

fn make_write(
    alloc: Global,
    store: &mut MemoryStore,
    key: &StoreKey,
    write: &Write,
) -> Result<(), StorageError> {
    match write {
        Write::Set(value) => store.set(alloc, key, Bytes::from_static(*value)),
        Write::SetPart(offset, bytes) => store.set_partial(alloc, key, *offset, *bytes),
        Write::Erase => store.erase(alloc, key),
    }
}

/// Whether the call found no memory. No other refusal is allowed.
fn wants_memory(rt: &impl Abort, made: &Result<(), StorageError>) -> bool {
    must(rt, matches!(made, Ok(()) | Err(StorageError::OutOfMemory)));
    made.is_err()
}

fn must_hold(rt: &impl Abort, store: &MemoryStore, key: &StoreKey, wanted: Option<&[u8]>) {
    must(rt, store.lend_value(key) == wanted);
}

/// Makes the call. If that finds no memory, the key has the value that it had, and the call is made again.
fn must_write(rt: &impl Abort, alloc: Global, store: &mut MemoryStore, row: &Row) {
    let key = key(rt, alloc, row.key);
    must_hold(rt, store, &key, row.before);
    if wants_memory(rt, &make_write(alloc, store, &key, &row.write)) {
        must_hold(rt, store, &key, row.before);
        must(rt, make_write(alloc, store, &key, &row.write).is_ok());
    }
    must_hold(rt, store, &key, row.after);
}

const ROWS: &[Row] = &[
    Row {
        key: "b",
        before: None,
        write: Write::Set(&[1, 2, 3]),
        after: Some(&[1, 2, 3]),
    },
    Row {
        key: "a",
        before: None,
        write: Write::SetPart(2, &[4]),
        after: Some(&[0, 0, 4]),
    },
    Row {
        key: "b",
        before: Some(&[1, 2, 3]),
        write: Write::SetPart(1, &[5]),
        after: Some(&[1, 5, 3]),
    },
    Row {
        key: "b",
        before: Some(&[1, 5, 3]),
        write: Write::SetPart(2, &[6, 7, 8, 9]),
        after: Some(&[1, 5, 6, 7, 8, 9]),
    },
    Row {
        key: "c",
        before: None,
        write: Write::Set(&[]),
        after: Some(&[]),
    },
    Row {
        key: "a",
        before: Some(&[0, 0, 4]),
        write: Write::Erase,
        after: None,
    },
    Row {
        key: "b",
        before: Some(&[1, 5, 6, 7, 8, 9]),
        write: Write::Set(&[2]),
        after: Some(&[2]),
    },
];

/// The store has counted the calls that were accepted, and at most one that was refused.
fn must_have_counted(rt: &impl Abort, store: &MemoryStore) {
    let counts = (store.calls(), store.failures());
    must(rt, matches!(counts, (7, 0) | (8, 1)));
}

#[test]
fn a_store_keeps_its_values(rt: HostRuntime) {
    let alloc = rt.alloc();
    let mut store = MemoryStore::new(alloc);
    for row in ROWS {
        must_write(&rt, alloc, &mut store, row);
    }
    must_have_keys(&rt, alloc, &store, &["b", "c"]);
    must_have_counted(&rt, &store);
    drop(store);
}
