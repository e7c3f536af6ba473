//! Keys, each made again if there was no memory for it: one request is refused in a run.
use crate::checks::{must, must_eq};
use std::alloc::Global;
use std::process::Abort;
use zarrs::{MemoryStore, StoreKey};

pub(crate) fn key(rt: &impl Abort, alloc: Global, text: &str) -> StoreKey {
    match StoreKey::new(alloc, text) {
        Ok(key) => key,
        Err(_) => StoreKey::new(alloc, text).expect(rt, "no second refusal"),
    }
}

fn keys(rt: &impl Abort, alloc: Global, store: &MemoryStore) -> Vec<StoreKey> {
    match store.keys(alloc) {
        Ok(keys) => keys,
        Err(_) => store.keys(alloc).expect(rt, "no second refusal"),
    }
}

/// The store has these keys, in ascending order.
pub(crate) fn must_have_keys(rt: &impl Abort, alloc: Global, store: &MemoryStore, wanted: &[&str]) {
    let keys = keys(rt, alloc, store);
    must_eq(rt, keys.len(), wanted.len());
    for (key, text) in keys.iter().zip(wanted) {
        must(rt, key.as_str() == *text);
    }
}
