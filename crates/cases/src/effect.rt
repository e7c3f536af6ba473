//! What else holds after a call.
use crate::session::{Outcome, Session};
use cases_answers::{Shown, keys_of};
use cases_lines::call::Found;
use cases_lines::words::{joined, shown_bytes};
use serde_json::Value;
use std::alloc::{AllocError, Global};
use zarrs::{MemoryStore, ReadableStorageTraits, StoreKey};

/// What is found there, as a case file writes it.
pub(crate) fn found(
    alloc: Global,
    session: &Session<'_>,
    outcome: &Outcome,
    place: &Found,
) -> Result<String, AllocError> {
    match place {
        Found::Writes => outcome.writes.to_string(alloc),
        Found::Failed => outcome.failed.to_string(alloc),
        Found::Value(key) => value_at(alloc, &session.store, key, false),
        Found::Json(key) => value_at(alloc, &session.store, key, true),
        Found::Keys => joined(alloc, &session.store.keys(alloc)?, " ", "none"),
        Found::Text => outcome.answer.text.clone(),
        Found::Target => shown_bytes(alloc, &outcome.held.bytes),
        Found::Masks => shown_bytes(alloc, &outcome.held.masks),
        Found::Asked => joined(alloc, &keys_of(alloc, &outcome.asks)?, " ", "none"),
        Found::Shape => shape_of(alloc, session),
        Found::Metadata => metadata_of(alloc, session),
    }
}

/// The bytes at the key, or `gone`; if they are to be JSON, the compact text of the value whose text they are.
fn value_at(
    alloc: Global,
    store: &MemoryStore,
    key: &StoreKey,
    is_json: bool,
) -> Result<String, AllocError> {
    match store.get(alloc, key) {
        Ok(Some(value)) if is_json => json_in(alloc, value.as_slice()),
        Ok(Some(value)) => shown_bytes(alloc, value.as_slice()),
        Ok(None) => String::from_str(alloc, "gone"),
        Err(_) => Err(AllocError),
    }
}

/// The compact text of the JSON value whose text these bytes are; else the bytes.
fn json_in(alloc: Global, bytes: &[u8]) -> Result<String, AllocError> {
    match Value::from_slice(alloc, bytes) {
        Ok(value) => value.to_string(alloc),
        Err(error) if error.is_memory() => Err(AllocError),
        Err(_) => shown_bytes(alloc, bytes),
    }
}

/// The keys and the bytes of the store.
pub(crate) fn shown_store(alloc: Global, store: &MemoryStore) -> Result<String, AllocError> {
    let mut shown = String::from_str(alloc, "a store of")?;
    for key in &store.keys(alloc)? {
        let value = value_at(alloc, store, key, false)?;
        write!(&mut shown, " {key}={value}")?;
    }
    Ok(shown)
}

/// The shape of the array.
pub(crate) fn shape_of(alloc: Global, session: &Session<'_>) -> Result<String, AllocError> {
    match &session.array {
        Some(array) => joined(alloc, array.shape(), ",", "-"),
        None => String::from_str(alloc, "no array"),
    }
}

/// The metadata of the array.
pub(crate) fn metadata_of(alloc: Global, session: &Session<'_>) -> Result<String, AllocError> {
    match &session.array {
        Some(array) => array.metadata().shown(alloc),
        None => String::from_str(alloc, "no array"),
    }
}
