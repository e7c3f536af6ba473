//! Options of metadata, and refusals of creation that no case shows.
use crate::checks::{must, must_eq, must_say};
use serde_json::Value;
use std::alloc::AllocError;
use std::num::NonZeroU64;
use std::process::Abort;
use zarrs_keys::NodePathError;
use zarrs_options::{
    AdditionalFieldUnsupportedError, ArrayCreateError, ArrayMetadataOptions,
    MetadataConvertVersion, MetadataEraseVersion, MetadataRetrieveVersion, StorageTransformerChain,
    chunk_shape_to_array_shape,
};
use zarrs_storage::StorageError;

fn must_choose(
    rt: &impl Abort,
    options: &ArrayMetadataOptions,
    version: MetadataConvertVersion,
    include: bool,
    convert: bool,
) {
    must(rt, options.metadata_convert_version() == version);
    must_eq(rt, options.include_zarrs_metadata(), include);
    must_eq(rt, options.convert_aliased_extension_names(), convert);
}

#[test]
fn options_are_set_one_by_one(rt: HostRuntime) {
    let default = ArrayMetadataOptions::default();
    must_choose(&rt, &default, MetadataConvertVersion::Default, true, false);
    let v3 = default.with_metadata_convert_version(MetadataConvertVersion::V3);
    must_choose(&rt, &v3, MetadataConvertVersion::V3, true, false);
    let plain = v3.with_include_zarrs_metadata(false);
    must_choose(&rt, &plain, MetadataConvertVersion::V3, false, false);
    let main = plain.with_convert_aliased_extension_names(true);
    must_choose(&rt, &main, MetadataConvertVersion::V3, false, true);
    let mut options = default;
    options
        .set_metadata_convert_version(MetadataConvertVersion::V3)
        .set_convert_aliased_extension_names(true);
    must_choose(&rt, &options, MetadataConvertVersion::V3, true, true);
    options.set_include_zarrs_metadata(false);
    must_choose(&rt, &options, MetadataConvertVersion::V3, false, true);
}

#[test]
fn versions_by_default(rt: HostRuntime) {
    must(
        &rt,
        MetadataConvertVersion::default() == MetadataConvertVersion::Default,
    );
    must(
        &rt,
        MetadataEraseVersion::default() == MetadataEraseVersion::Default,
    );
    must(
        &rt,
        MetadataRetrieveVersion::default() == MetadataRetrieveVersion::Default,
    );
    must(&rt, MetadataEraseVersion::All != MetadataEraseVersion::V3);
    must(
        &rt,
        MetadataRetrieveVersion::V2 != MetadataRetrieveVersion::V3,
    );
}

#[test]
fn shapes_and_empty_chains(rt: HostRuntime) {
    let alloc = rt.alloc();
    let sizes = [NonZeroU64::MIN, NonZeroU64::MAX];
    let shape = chunk_shape_to_array_shape(alloc, &sizes).expect(&rt, "no refusal");
    must_eq(&rt, shape.as_slice(), [1, u64::MAX].as_slice());
    let none = StorageTransformerChain::from_metadata(alloc, &[]).expect(&rt, "no refusal");
    must(&rt, none == StorageTransformerChain::default());
}

#[test]
fn texts_of_refusals_that_no_call_returns(rt: HostRuntime) {
    let alloc = rt.alloc();
    let shape = [2, 0].to_vec(alloc).expect(&rt, "no refusal");
    const SUBCHUNKS: &str = "invalid subchunk shape [2, 0]: all elements must be non-zero";
    must_say(
        &rt,
        alloc,
        ArrayCreateError::InvalidSubchunkShape(shape),
        SUBCHUNKS,
    );
    const MEMORY: &str = "out of memory";
    let of_store = ArrayCreateError::from(StorageError::OutOfMemory);
    must_say(&rt, alloc, of_store, MEMORY);
    let of_path = ArrayCreateError::from(NodePathError::OutOfMemory);
    must_say(&rt, alloc, of_path, MEMORY);
    must_say(&rt, alloc, ArrayCreateError::from(AllocError), MEMORY);
}

#[test]
fn an_additional_field_has_a_name_and_a_value(rt: HostRuntime) {
    let key = String::from_str(rt.alloc(), "key").expect(&rt, "no refusal");
    let field = AdditionalFieldUnsupportedError::new(key, Value::Null);
    must(&rt, field.name() == "key" && field.value().is_null());
}
