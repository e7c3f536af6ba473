//! Arrays: what their getters return, their options, and arrays that are written and opened.
use crate::checks::{must, must_be_done, must_eq};
use std::alloc::Global;
use std::process::Abort;
use zarrs::laws::{
    calls_leave_metadata, converted_metadata_says_the_same, metadata_calls_leave_content,
    normal_metadata_says_the_same, shown_metadata_says_the_same, written_metadata_opens,
};
use zarrs::{
    Array, ArrayMetadata, ArrayMetadataOptions, ArrayMetadataV3, ArrayToBytesCodec, ChunkGrid,
    ChunkKeyEncoding, ChunkKeySeparator, CodecMetadataOptions, CodecOptions, CodecSpecificOptions,
    DataType, MemoryStore, written_and_opened,
};

pub(crate) type MemoryArray = Array<MemoryStore>;

/// 4 by 4 bytes in chunks of 2 by 2.
const DOCUMENT: &str = concat!(
    r#"{"attributes":{"unit":"mm"},"#,
    r#""chunk_grid":{"configuration":{"chunk_shape":[2,2]},"name":"regular"},"#,
    r#""chunk_key_encoding":{"configuration":{"separator":"/"},"name":"default"},"#,
    r#""codecs":[{"configuration":{"endian":"little"},"name":"bytes"}],"#,
    r#""data_type":"uint8","dimension_names":["y",null],"fill_value":7,"#,
    r#""node_type":"array","shape":[4,4],"zarr_format":3}"#
);

fn metadata(rt: &impl Abort, alloc: Global) -> ArrayMetadata {
    let document = ArrayMetadataV3::from_slice(alloc, DOCUMENT.as_bytes());
    ArrayMetadata::V3(document.expect(rt, "a document"))
}

/// The array of the document at `/a`, over a new store in memory.
pub(crate) fn array(rt: &impl Abort, alloc: Global) -> MemoryArray {
    let storage = MemoryStore::new(alloc);
    let array = Array::new_with_metadata(alloc, storage, "/a", metadata(rt, alloc));
    array.expect(rt, "no refusal")
}

/// The store of the array holds so many keys.
fn must_have_keys(rt: &impl Abort, alloc: Global, array: &MemoryArray, count: usize) {
    let keys = array.storage().keys(alloc).expect(rt, "no refusal");
    must_eq(rt, keys.len(), count);
}

/// The array has the path, the shape, the grid and the names of its document, and so many attributes.
fn must_be_as_written(rt: &impl Abort, array: &MemoryArray, attributes: usize) {
    must_eq(rt, array.path().as_str(), "/a");
    must_eq(rt, array.shape(), &[4, 4]);
    must_eq(rt, array.chunk_grid_shape(), &[2, 2]);
    must_eq(
        rt,
        (array.dimensionality(), array.attributes().len()),
        (2, attributes),
    );
    must(rt, matches!(array.chunk_grid(), ChunkGrid::Regular(_)));
    must(rt, matches!(array.dimension_names(), Some([_, None])));
    must(rt, matches!(array.metadata(), ArrayMetadata::V3(_)));
    let _transformers = array.storage_transformers();
}

fn must_have_cells(rt: &impl Abort, array: &MemoryArray) {
    must(rt, matches!(array.data_type(), DataType::UInt8));
    must_eq(rt, array.fill_value().as_bytes(), &[7]);
    let keys = array.chunk_key_encoding();
    must(
        rt,
        matches!(keys, ChunkKeyEncoding::Default(ChunkKeySeparator::Slash)),
    );
    let codecs = array.codecs();
    must(rt, codecs.array_to_array_codecs().is_empty());
    must(
        rt,
        matches!(codecs.array_to_bytes_codec(), ArrayToBytesCodec::Bytes(_)),
    );
}

/// What is printed of an array has no store.
fn must_be_printed(rt: &impl Abort, alloc: Global, array: &MemoryArray) {
    let text = format!(in alloc; "{array:?}").expect(rt, "no refusal");
    must(rt, text.as_str().starts_with("Array"));
    must(rt, !text.as_str().contains("MemoryStore"));
}

/// The options that keep empty chunks.
fn keeping() -> CodecOptions {
    CodecOptions::default().with_store_empty_chunks(true)
}

/// The options that show metadata without the attribute of this library.
fn plain() -> ArrayMetadataOptions {
    ArrayMetadataOptions::default().with_include_zarrs_metadata(false)
}

fn must_have_options(
    rt: &impl Abort,
    array: &MemoryArray,
    options: CodecOptions,
    of_metadata: ArrayMetadataOptions,
) {
    must(rt, *array.codec_options() == options);
    must(rt, *array.metadata_options() == of_metadata);
}

/// Stores a chunk of fill value under the default options, and under the array's own, which keep it.
fn store_fill(rt: &impl Abort, alloc: Global, array: &mut MemoryArray) {
    must_be_done(rt, array.store_chunk(alloc, &[0, 0], [7u8; 4]));
    must_have_keys(rt, alloc, array, 0);
    let options = *array.codec_options();
    must_be_done(
        rt,
        array.store_chunk_opt(alloc, &[0, 0], [7u8; 4], &options),
    );
    must_have_keys(rt, alloc, array, 1);
}

fn set_default_options(array: &mut MemoryArray) {
    let _ = array
        .set_codec_options(CodecOptions::default())
        .set_codec_specific_options(&CodecSpecificOptions::default())
        .set_metadata_options(ArrayMetadataOptions::default());
}

/// The array of the document, with options that it is given.
fn with_options(rt: &impl Abort, alloc: Global) -> MemoryArray {
    array(rt, alloc)
        .with_codec_options(keeping())
        .with_codec_specific_options(&CodecSpecificOptions::default())
        .with_metadata_options(plain())
}

/// An array has the parts of its document, and the options that it was given. A call without options takes the default ones.
#[test]
fn an_array_has_its_parts_and_its_options(rt: HostRuntime) {
    let alloc = rt.alloc();
    let mut array = with_options(&rt, alloc);
    must_be_as_written(&rt, &array, 1);
    must_have_cells(&rt, &array);
    must_be_printed(&rt, alloc, &array);
    must_have_options(&rt, &array, keeping(), plain());
    store_fill(&rt, alloc, &mut array);
    set_default_options(&mut array);
    must_have_options(
        &rt,
        &array,
        CodecOptions::default(),
        ArrayMetadataOptions::default(),
    );
    drop(array);
}

#[test]
fn options_of_the_metadata_of_codecs(rt: HostRuntime) {
    let mut options = plain().with_codec_metadata_options(CodecMetadataOptions);
    let _ = options.set_codec_metadata_options(CodecMetadataOptions);
    *options.codec_metadata_options_mut() = CodecMetadataOptions;
    must(
        &rt,
        *options.codec_metadata_options() == CodecMetadataOptions,
    );
    must(&rt, options == plain());
}

/// The store of an array that was written and opened by one call.
fn written(rt: &impl Abort, alloc: Global) -> MemoryStore {
    let array = written_and_opened(alloc, array(rt, alloc));
    array.expect(rt, "no refusal").into_storage()
}

/// The attribute of this library is written beside that of the user.
#[test]
fn an_array_is_written_opened_and_erased(rt: HostRuntime) {
    let alloc = rt.alloc();
    let array = Array::open(alloc, written(&rt, alloc), "/a");
    let mut array = array.expect(&rt, "no refusal");
    must_be_as_written(&rt, &array, 2);
    must_have_keys(&rt, alloc, &array, 1);
    array.erase_metadata(alloc).expect(&rt, "no refusal");
    must_have_keys(&rt, alloc, &array, 0);
    must_eq(&rt, array.storage().calls(), 2);
    drop(array);
}

#[test]
fn laws_can_be_called(_rt: HostRuntime) {
    written_metadata_opens();
    normal_metadata_says_the_same();
    converted_metadata_says_the_same();
    shown_metadata_says_the_same();
    metadata_calls_leave_content();
    calls_leave_metadata();
}
