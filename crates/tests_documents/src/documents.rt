//! Documents that are given other parts, and one of neither version.
use crate::checks::{must, must_eq};
use serde_json::{Map, Value};
use std::alloc::Global;
use std::num::NonZeroU64;
use std::process::Abort;
use zarrs_metadata::{
    AdditionalFieldV3, AdditionalFieldsV3, ArrayMetadata, ArrayMetadataV2, ArrayMetadataV2Order,
    ArrayMetadataV3, ChunkKeySeparator, DataTypeMetadataV2, FillValueMetadata, MetadataError,
    MetadataV3,
};

/// The metadata must be written as this text.
fn must_write(rt: &impl Abort, alloc: Global, metadata: ArrayMetadata, text: &str) {
    let value = metadata.to_value(alloc).expect(rt, "no refusal");
    drop(metadata);
    let written = value.to_string(alloc);
    drop(value);
    must_eq(rt, written.expect(rt, "no refusal").as_str(), text);
}

/// Eight truth values in chunks of four, with each other part.
const FULL: &str = concat!(
    "{\"attributes\":{\"unit\":\"m\"},\"chunk_grid\":{\"configuration\":",
    "{\"chunk_shape\":[4]},\"name\":\"regular\"},\"chunk_key_encoding\":\"v2\",",
    "\"codecs\":[\"packbits\"],\"data_type\":\"bool\",\"dimension_names\":[\"x\"],",
    "\"fill_value\":false,\"node_type\":\"array\",\"shape\":[8],",
    "\"storage_transformers\":[\"indirect\"],\"version\":7,\"zarr_format\":3}"
);

/// The same truth values without these parts.
const PLAIN: &str = concat!(
    "{\"chunk_grid\":{\"configuration\":{\"chunk_shape\":[4]},\"name\":\"regular\"},",
    "\"chunk_key_encoding\":\"default\",\"codecs\":[\"packbits\"],\"data_type\":\"bool\",",
    "\"fill_value\":false,\"node_type\":\"array\",\"shape\":[8],\"zarr_format\":3}"
);

fn read(rt: &impl Abort, alloc: Global, text: &str) -> ArrayMetadataV3 {
    ArrayMetadataV3::from_slice(alloc, text.as_bytes()).expect(rt, "no refusal")
}

/// A field under the name of a member, which is not written.
fn shadow(rt: &impl Abort, alloc: Global) -> AdditionalFieldsV3 {
    let name = String::from_str(alloc, "codecs").expect(rt, "no refusal");
    let mut fields = Map::new(alloc);
    let field = AdditionalFieldV3::new(Value::Null, true);
    let replaced: Result<_, _> = fields.insert(name, field);
    drop(replaced.expect(rt, "no refusal"));
    fields
}

fn default_keys(rt: &impl Abort, alloc: Global) -> MetadataV3 {
    MetadataV3::new(String::from_str(alloc, "default").expect(rt, "no refusal"))
}

/// The document without the parts that it may lack.
fn plain(rt: &impl Abort, alloc: Global, document: ArrayMetadataV3) -> ArrayMetadataV3 {
    document
        .with_attributes(Map::new(alloc))
        .with_additional_fields(shadow(rt, alloc))
        .with_chunk_key_encoding(default_keys(rt, alloc))
        .with_dimension_names(None)
        .with_storage_transformers(Vec::new(alloc))
}

#[test]
fn a_v3_document_is_given_other_parts(rt: HostRuntime) {
    let alloc = rt.alloc();
    let full = ArrayMetadata::from(read(&rt, alloc, FULL));
    must_write(&rt, alloc, full, FULL);
    let plain = plain(&rt, alloc, read(&rt, alloc, FULL));
    must_write(&rt, alloc, ArrayMetadata::from(plain), PLAIN);
}

/// Numbers of two bytes, 4 by 2 of them in chunks of 2 by 2.
fn numbers(rt: &impl Abort, alloc: Global) -> ArrayMetadataV2 {
    let two = NonZeroU64::new(2).expect(rt, "not zero");
    let dtype = String::from_str(alloc, "<u2").expect(rt, "no refusal");
    ArrayMetadataV2::new(
        [4, 2].to_vec(alloc).expect(rt, "no refusal"),
        [two, two].to_vec(alloc).expect(rt, "no refusal"),
        DataTypeMetadataV2::new(dtype),
        FillValueMetadata::from_value(Value::from(0u64)),
        Value::Null,
        Value::Null,
    )
}

const NUMBERS: &str = concat!(
    "{\"chunks\":[2,2],\"compressor\":null,\"dimension_separator\":\".\",\"dtype\":\"<u2\",",
    "\"fill_value\":0,\"filters\":null,\"order\":\"C\",\"shape\":[4,2],\"zarr_format\":2}"
);

/// The same numbers in another order and under other keys.
const TURNED: &str = concat!(
    "{\"chunks\":[2,2],\"compressor\":null,\"dimension_separator\":\"/\",\"dtype\":\"<u2\",",
    "\"fill_value\":0,\"filters\":null,\"order\":\"F\",\"shape\":[4,2],\"zarr_format\":2}"
);

#[test]
fn a_v2_document_is_given_other_parts(rt: HostRuntime) {
    let alloc = rt.alloc();
    let plain = ArrayMetadata::from(numbers(&rt, alloc));
    must_write(&rt, alloc, plain, NUMBERS);
    let turned = numbers(&rt, alloc)
        .with_order(ArrayMetadataV2Order::F)
        .with_dimension_separator(ChunkKeySeparator::Slash);
    must_write(&rt, alloc, ArrayMetadata::from(turned), TURNED);
}

/// The text is no metadata of either version.
fn must_be_no_metadata(rt: &impl Abort, alloc: Global, text: &str) {
    let value = Value::from_str(alloc, text).expect(rt, "no refusal");
    let refused = ArrayMetadata::from_value(alloc, value).err();
    must(rt, matches!(refused, Some(MetadataError::InvalidShape)));
}

#[test]
fn a_document_of_neither_version_is_refused(rt: HostRuntime) {
    must_be_no_metadata(&rt, rt.alloc(), "{\"zarr_format\":4}");
}
