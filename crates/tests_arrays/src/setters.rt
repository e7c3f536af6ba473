//! Setters: each replaces its part and keeps the others.
use crate::made::{BYTES, bytes, json_of, list_of, must_have, must_say, text_of};
use serde_json::{Map, Value};
use std::alloc::{AllocError, Global};
use std::num::NonZeroU64;
use std::process::Abort;
use zarrs::codec::{BytesCodec, SqueezeCodec};
use zarrs::{
    AdditionalFieldV3, AdditionalFieldsV3, ArrayToArrayCodec, ArrayToBytesCodec,
    BytesToBytesCodecs, ChunkGrid, ChunkKeyEncoding, ChunkKeySeparator, CodecSpecificOptions,
    DataType, DimensionName, FillValue, FillValueMetadata, IntoField, MetadataV3,
    RegularBoundedChunkGrid, StorageTransformerChain,
};
use zarrs_builder::{ArrayBuilder, ArrayBuilderChunkGridMetadata, IntoFillValue};

fn set_cells(alloc: Global, builder: &mut ArrayBuilder) {
    builder
        .data_type(alloc, DataType::UInt16)
        .fill_value(alloc, 258u16);
}

fn squeeze(rt: &impl Abort, alloc: Global) -> Vec<ArrayToArrayCodec> {
    vec![in alloc; ArrayToArrayCodec::Squeeze(SqueezeCodec)].expect(rt, "no refusal")
}

fn set_codecs(rt: &impl Abort, alloc: Global, builder: &mut ArrayBuilder) {
    builder
        .chunk_key_encoding(ChunkKeyEncoding::V2(ChunkKeySeparator::Dot))
        .array_to_array_codecs(squeeze(rt, alloc))
        .array_to_bytes_codec(ArrayToBytesCodec::Bytes(BytesCodec::big()))
        .bytes_to_bytes_codecs(BytesToBytesCodecs)
        .subchunk_shape(alloc, Some([2u64, 2]))
        .codec_specific_options(CodecSpecificOptions::default())
        .storage_transformers(StorageTransformerChain);
}

/// Attributes that say a unit.
fn in_millimetres(alloc: Global) -> Result<Map<String, Value>, AllocError> {
    let millimetres = Value::try_from_str(alloc, "mm")?;
    let mut attributes = Map::new(alloc);
    serde_json::put(&mut attributes, alloc, "unit", millimetres)?;
    Ok(attributes)
}

/// The additional field `key`, which need not be understood.
fn one_field(rt: &impl Abort, alloc: Global) -> AdditionalFieldsV3 {
    let field = AdditionalFieldV3::new(json_of(rt, alloc, "{\"a\":1}"), false);
    let mut fields = Map::new(alloc);
    let replaced: Result<_, _> = fields.insert(text_of(rt, alloc, "key"), field);
    drop(replaced.expect(rt, "no refusal"));
    fields
}

/// A name, and a dimension without one.
fn one_name(rt: &impl Abort, alloc: Global) -> Vec<DimensionName> {
    vec![in alloc; Some(text_of(rt, alloc, "y")), None].expect(rt, "no refusal")
}

fn set_members(rt: &impl Abort, alloc: Global, builder: &mut ArrayBuilder) {
    builder
        .attributes(in_millimetres(alloc).expect(rt, "no refusal"))
        .additional_fields(one_field(rt, alloc))
        .dimension_names(alloc, Some(one_name(rt, alloc)));
}

/// Everything but the shape and the grid is set.
fn everything(rt: &impl Abort, alloc: Global) -> ArrayBuilder {
    let mut builder = bytes(alloc);
    set_cells(alloc, &mut builder);
    set_codecs(rt, alloc, &mut builder);
    set_members(rt, alloc, &mut builder);
    builder
}

const EVERYTHING: &str = concat!(
    "{\"attributes\":{\"unit\":\"mm\"},",
    "\"chunk_grid\":{\"configuration\":{\"chunk_shape\":[4,4]},\"name\":\"regular\"},",
    "\"chunk_key_encoding\":{\"configuration\":{\"separator\":\".\"},\"name\":\"v2\"},",
    "\"codecs\":[{\"configuration\":{\"chunk_shape\":[2,2],",
    "\"codecs\":[\"squeeze\",{\"configuration\":{\"endian\":\"big\"},\"name\":\"bytes\"}],",
    "\"index_codecs\":[{\"configuration\":{\"endian\":\"little\"},\"name\":\"bytes\"}],",
    "\"index_location\":\"end\"},\"name\":\"sharding_indexed\"}],",
    "\"data_type\":\"uint16\",\"dimension_names\":[\"y\",null],\"fill_value\":258,",
    "\"key\":{\"a\":1,\"must_understand\":false},\"node_type\":\"array\",\"shape\":[8,8],",
    "\"zarr_format\":3}"
);

/// What was set is taken away again, or set to what a new builder has.
fn taken_back(rt: &impl Abort, alloc: Global) -> ArrayBuilder {
    let mut builder = everything(rt, alloc);
    builder.data_type(alloc, "uint8").fill_value(alloc, 0u8);
    builder
        .chunk_key_encoding_default_separator(ChunkKeySeparator::Slash)
        .array_to_array_codecs(Vec::new(alloc))
        .array_to_bytes_codec(ArrayToBytesCodec::Bytes(BytesCodec::little()))
        .subchunk_shape(alloc, None::<[u64; 0]>);
    builder.attributes_mut().clear();
    builder
        .additional_fields(Map::new(alloc))
        .dimension_names(alloc, None::<[&str; 0]>);
    builder
}

#[test]
fn each_part_is_replaced_and_taken_back(rt: HostRuntime) {
    must_say(&rt, rt.alloc(), everything(&rt, rt.alloc()), EVERYTHING);
    must_say(&rt, rt.alloc(), taken_back(&rt, rt.alloc()), BYTES);
}

const REGULAR: &str = "{\"configuration\":{\"chunk_shape\":[4,4]},\"name\":\"regular\"}";

const BOUNDED: &str = "{\"configuration\":{\"chunk_shape\":[3]},\"name\":\"regular_bounded\"}";

/// 10 by 12 bytes in chunks of 4 by 4.
fn reshaped(alloc: Global) -> ArrayBuilder {
    let mut builder = bytes(alloc);
    builder.shape(alloc, [10u64, 12]);
    builder
}

fn size_of(rt: &impl Abort, size: u64) -> NonZeroU64 {
    NonZeroU64::new(size).expect(rt, "not zero")
}

/// A grid of chunks of 3 over an array of 5.
fn bounded(rt: &impl Abort, alloc: Global) -> ChunkGrid {
    let shape = list_of(rt, alloc, &[5]);
    let chunk_shape = list_of(rt, alloc, &[size_of(rt, 3)]);
    let grid = RegularBoundedChunkGrid::new(alloc, shape, chunk_shape);
    ChunkGrid::RegularBounded(grid.expect(rt, "no refusal"))
}

/// Bytes in chunks of that grid.
fn regridded(alloc: Global, grid: ChunkGrid) -> ArrayBuilder {
    let mut builder = bytes(alloc);
    builder.chunk_grid(alloc, grid);
    builder
}

/// 7 numbers in chunks of that grid.
fn of_grid(alloc: Global, grid: ChunkGrid) -> ArrayBuilder {
    let mut builder = ArrayBuilder::new_with_chunk_grid(alloc, grid, "int8", -1i8);
    builder.shape(alloc, [7u64].as_slice());
    builder
}

#[test]
fn a_shape_keeps_the_grid_and_a_grid_sets_the_shape(rt: HostRuntime) {
    let alloc = rt.alloc();
    let members = [("shape", "[10,12]"), ("chunk_grid", REGULAR)];
    must_have(&rt, alloc, reshaped(alloc), &members);
    let builder = regridded(alloc, bounded(&rt, alloc));
    must_have(
        &rt,
        alloc,
        builder,
        &[("shape", "[5]"), ("chunk_grid", BOUNDED)],
    );
    let builder = of_grid(alloc, bounded(&rt, alloc));
    must_have(
        &rt,
        alloc,
        builder,
        &[("shape", "[7]"), ("chunk_grid", BOUNDED)],
    );
}

/// What is given for a grid of chunks of 4 by 4 keeps the shape.
fn must_be_regular<G: IntoField<ArrayBuilderChunkGridMetadata>>(
    rt: &impl Abort,
    alloc: Global,
    grid: G,
) {
    let mut builder = ArrayBuilder::new(alloc, [8u64, 8], "regular", DataType::UInt8, 0u8);
    builder.chunk_grid_metadata(alloc, grid);
    must_have(
        rt,
        alloc,
        builder,
        &[("shape", "[8,8]"), ("chunk_grid", REGULAR)],
    );
}

fn metadata_of(rt: &impl Abort, alloc: Global, text: &str) -> MetadataV3 {
    MetadataV3::from_value(json_of(rt, alloc, text)).expect(rt, "no refusal")
}

#[test]
fn grids_by_their_sizes_and_by_texts(rt: HostRuntime) {
    let alloc = rt.alloc();
    let sizes: [u64; 2] = [4, 4];
    must_be_regular(&rt, alloc, sizes);
    must_be_regular(&rt, alloc, &sizes);
    must_be_regular(&rt, alloc, sizes.as_slice());
    must_be_regular(&rt, alloc, list_of(&rt, alloc, &sizes));
    let sizes: [NonZeroU64; 2] = [size_of(&rt, 4), size_of(&rt, 4)];
    must_be_regular(&rt, alloc, sizes);
    must_be_regular(&rt, alloc, &sizes);
    must_be_regular(&rt, alloc, sizes.as_slice());
    must_be_regular(&rt, alloc, list_of(&rt, alloc, &sizes));
    must_be_regular(&rt, alloc, REGULAR);
    must_be_regular(&rt, alloc, text_of(&rt, alloc, REGULAR));
    must_be_regular(&rt, alloc, metadata_of(&rt, alloc, REGULAR));
}

/// The fill value of cells of this data type, as it is written.
fn must_fill<F: IntoFillValue>(
    rt: &impl Abort,
    alloc: Global,
    data_type: &str,
    fill_value: F,
    text: &str,
) {
    let builder = ArrayBuilder::new(alloc, [8u64, 8], [2u64, 2], data_type, fill_value);
    must_have(rt, alloc, builder, &[("fill_value", text)]);
}

#[test]
fn fill_values_by_numbers_lists_and_texts(rt: HostRuntime) {
    let alloc = rt.alloc();
    must_fill(&rt, alloc, "int8", 0i16, "0");
    must_fill(&rt, alloc, "int64", i64::MIN, "-9223372036854775808");
    must_fill(&rt, alloc, "uint64", u64::MAX, "18446744073709551615");
    must_fill(&rt, alloc, "int32", -5i32, "-5");
    must_fill(&rt, alloc, "uint32", 5u32, "5");
    must_fill(&rt, alloc, "r16", [1u8, 2], "[1,2]");
    must_fill(&rt, alloc, "r16", [1i64, 2].as_slice(), "[1,2]");
    must_fill(&rt, alloc, "bytes", list_of(&rt, alloc, &[1u16]), "[1]");
    let bytes = FillValue::new(list_of(&rt, alloc, &[1, 2]));
    must_fill(&rt, alloc, "r16", bytes, "[1,2]");
    must_fill(&rt, alloc, "bool", true, "true");
    must_fill(&rt, alloc, "string", "a", "\"a\"");
    must_fill(&rt, alloc, "string", text_of(&rt, alloc, ""), "\"\"");
    must_fill(&rt, alloc, "bool", FillValueMetadata::Bool(false), "false");
}
