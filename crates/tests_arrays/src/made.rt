//! Small values and builders, and the metadata that they build.
//!
//! A call of `drop` is one step of a proof. At the end of a scope, a builder, an array, a document, a JSON value or a
//! refusal is dropped in many, so each is given to `drop` or to a function that does so.
use crate::checks::must_eq;
use serde_json::Value;
use std::alloc::Global;
use std::process::Abort;
use zarrs::{ArrayMetadataV3, Bytes, DataType, MemoryStore, StoreKey, WritableStorageTraits};
use zarrs_builder::ArrayBuilder;

pub(crate) fn text_of(rt: &impl Abort, alloc: Global, text: &str) -> String {
    String::from_str(alloc, text).expect(rt, "no refusal")
}

pub(crate) fn list_of<T: Copy>(rt: &impl Abort, alloc: Global, items: &[T]) -> Vec<T> {
    items.to_vec(alloc).expect(rt, "no refusal")
}

pub(crate) fn json_of(rt: &impl Abort, alloc: Global, text: &str) -> Value {
    Value::from_str(alloc, text).expect(rt, "no refusal")
}

/// A store that holds this value alone.
pub(crate) fn holding(
    rt: &impl Abort,
    alloc: Global,
    key: &str,
    value: &'static [u8],
) -> MemoryStore {
    let mut storage = MemoryStore::new(alloc);
    let key = StoreKey::new(alloc, key).expect(rt, "no refusal");
    let set = storage.set(alloc, &key, Bytes::from_static(value));
    set.expect(rt, "no refusal");
    storage
}

/// A builder of an array of 8 by 8 bytes in chunks of 4 by 4.
pub(crate) fn bytes(alloc: Global) -> ArrayBuilder {
    ArrayBuilder::new(alloc, [8u64, 8], [4u64, 4], DataType::UInt8, 0u8)
}

/// The metadata of that array.
pub(crate) const BYTES: &str = concat!(
    "{\"chunk_grid\":{\"configuration\":{\"chunk_shape\":[4,4]},\"name\":\"regular\"},",
    "\"chunk_key_encoding\":{\"configuration\":{\"separator\":\"/\"},\"name\":\"default\"},",
    "\"codecs\":[{\"configuration\":{\"endian\":\"little\"},\"name\":\"bytes\"}],",
    "\"data_type\":\"uint8\",\"fill_value\":0,\"node_type\":\"array\",\"shape\":[8,8],",
    "\"zarr_format\":3}"
);

/// The metadata that is built.
fn metadata_of(rt: &impl Abort, alloc: Global, builder: ArrayBuilder) -> ArrayMetadataV3 {
    let metadata = builder.build_metadata(alloc);
    drop(builder);
    metadata.expect(rt, "no refusal")
}

/// The metadata that is built, as a JSON value.
fn said(rt: &impl Abort, alloc: Global, builder: ArrayBuilder) -> Value {
    let metadata = metadata_of(rt, alloc, builder);
    let value = metadata.to_value(alloc);
    drop(metadata);
    value.expect(rt, "no refusal")
}

/// The metadata that is built is this text.
pub(crate) fn must_say(rt: &impl Abort, alloc: Global, builder: ArrayBuilder, text: &str) {
    let value = said(rt, alloc, builder);
    let written = value.to_string(alloc);
    drop(value);
    must_eq(rt, written.expect(rt, "no refusal").as_str(), text);
}

/// Members of the metadata that is built are these texts.
pub(crate) fn must_have(
    rt: &impl Abort,
    alloc: Global,
    builder: ArrayBuilder,
    members: &[(&str, &str)],
) {
    let value = said(rt, alloc, builder);
    for (name, text) in members {
        let member = value.get(*name).expect(rt, "a member").to_string(alloc);
        must_eq(rt, member.expect(rt, "no refusal").as_str(), *text);
    }
    drop(value);
}
