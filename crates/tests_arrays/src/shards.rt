//! What a builder is told of shards: by the options of single codecs, and by a codec that was made before.
use crate::arrays::MemoryArray;
use crate::checks::{must, must_eq};
use std::alloc::Global;
use std::num::NonZeroU64;
use std::process::Abort;
use zarrs::codec::{
    ShardingCodec, ShardingCodecBuilder, ShardingCodecOptions, ShardingIndexLocation,
    SubchunkWriteOrder,
};
use zarrs::{ArrayToBytesCodec, CodecSpecificOptions, DataType, MemoryStore};
use zarrs_builder::ArrayBuilder;

/// The codec of shards of the array.
fn sharding_of<'a>(rt: &impl Abort, array: &'a MemoryArray) -> &'a ShardingCodec {
    match array.codecs().array_to_bytes_codec() {
        ArrayToBytesCodec::Sharding(codec) => codec,
        _ => rt.panic("another codec"),
    }
}

/// A builder of 4 by 4 numbers in chunks of 2 by 2.
fn numbers(alloc: Global) -> ArrayBuilder {
    ArrayBuilder::new(alloc, [4u64, 4], [2u64, 2], DataType::Int64, 0i64)
}

fn built(rt: &impl Abort, alloc: Global, builder: ArrayBuilder) -> MemoryArray {
    let built = builder.build(alloc, MemoryStore::new(alloc), "/");
    drop(builder);
    built.expect(rt, "no refusal")
}

/// A builder of shards with these options.
fn with_options(alloc: Global, options: CodecSpecificOptions) -> ArrayBuilder {
    let mut builder = numbers(alloc);
    builder
        .subchunk_shape(alloc, Some([1u64, 1]))
        .codec_specific_options(options);
    builder
}

#[test]
fn options_of_shards_pass_through_a_builder(rt: HostRuntime) {
    let order = ShardingCodecOptions::default().with_subchunk_write_order(SubchunkWriteOrder::C);
    let options = CodecSpecificOptions::default().with_option(order);
    let array = built(&rt, rt.alloc(), with_options(rt.alloc(), options));
    let kept = *array.codec_specific_options();
    must(&rt, kept == options);
    must_eq(
        &rt,
        kept.sharding().subchunk_write_order(),
        SubchunkWriteOrder::C,
    );
    let _codec = sharding_of(&rt, &array);
    drop(array);
}

/// A codec of shards whose subchunks are of one cell, with the index at the start.
fn shards_of_cells(rt: &impl Abort, alloc: Global) -> ShardingCodec {
    let one = NonZeroU64::new(1).expect(rt, "1 is no zero");
    let subchunk_shape = vec![in alloc; one, one].expect(rt, "no refusal");
    let builder = ShardingCodecBuilder::new(alloc, subchunk_shape, &DataType::Int64);
    let mut builder = builder.expect(rt, "no refusal");
    builder.index_location(ShardingIndexLocation::Start);
    builder.build(alloc).expect(rt, "no refusal")
}

/// A builder of shards with this codec and without options.
fn with_codec(rt: &impl Abort, alloc: Global, codec: ShardingCodec) -> ArrayBuilder {
    let mut builder = numbers(alloc);
    let codec = Box::new(alloc, codec).expect(rt, "no refusal");
    builder.array_to_bytes_codec(ArrayToBytesCodec::Sharding(codec));
    builder
}

/// The codec has its subchunks and its index where it had them.
fn must_be_kept(rt: &impl Abort, codec: &ShardingCodec) {
    match codec.subchunk_shape() {
        [height, width] => must(rt, height.get() == 1 && width.get() == 1),
        _ => rt.panic("other subchunks"),
    }
    must(rt, codec.index_location().is_at_start());
}

#[test]
fn a_codec_that_was_made_before_is_kept(rt: HostRuntime) {
    let alloc = rt.alloc();
    let builder = with_codec(&rt, alloc, shards_of_cells(&rt, alloc));
    let array = built(&rt, alloc, builder);
    must_be_kept(&rt, sharding_of(&rt, &array));
    must(
        &rt,
        *array.codec_specific_options() == CodecSpecificOptions::default(),
    );
    drop(array);
}
