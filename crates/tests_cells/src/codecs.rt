//! Single codecs that a program makes, options, and the texts of refusals.
use crate::checks::{must, must_eq, must_for, must_say};
use std::alloc::Global;
use std::num::NonZeroU64;
use std::process::Abort;
use zarrs_codec::{
    ArrayToBytesCodec, BytesCodec, CellsCodec, CodecError, CodecOptions, CodecSpecificOptions,
    Endianness, MaskCodec, Misfit, OptionalCodec, PackBitsCodec, PlainCodec, ReshapeCodec,
    ReshapeExtent, ShardingCodec, ShardingCodecBuilder, ShardingCodecOptions,
    ShardingIndexLocation, SubchunkWriteOrder, TransposeCodec,
};
use zarrs_data_type::DataType;

/// Entries of the size 5, the product of two dimensions, and what is left.
fn entries(rt: &impl Abort, alloc: Global, dimensions: &[u64]) -> Vec<ReshapeExtent> {
    let mut made = Vec::new(alloc);
    let size = ReshapeExtent::Size(NonZeroU64::new(5).expect(rt, "not zero"));
    made.push(size).expect(rt, "no refusal");
    let product = ReshapeExtent::ProductOf(dimensions.to_vec(alloc).expect(rt, "no refusal"));
    made.push(product).expect(rt, "no refusal");
    made.push(ReshapeExtent::Rest).expect(rt, "no refusal");
    made
}

fn must_have_entries(rt: &impl Abort, codec: &ReshapeCodec) {
    let [
        ReshapeExtent::Size(size),
        ReshapeExtent::ProductOf(dimensions),
        ReshapeExtent::Rest,
    ] = codec.entries()
    else {
        return rt.panic("other entries");
    };
    must_eq(rt, size.get(), 5);
    must_eq(rt, dimensions.as_slice(), [1, 0].as_slice());
}

#[test]
fn a_reshape_has_the_entries_that_it_is_given(rt: HostRuntime) {
    let alloc = rt.alloc();
    let made = ReshapeCodec::new(alloc, entries(&rt, alloc, &[1, 0])).expect(&rt, "no refusal");
    let codec = made.expect(&rt, "entries");
    must_have_entries(&rt, &codec);
    must_have_entries(&rt, &codec.try_clone(alloc).expect(&rt, "no refusal"));
    let twice = ReshapeCodec::new(alloc, entries(&rt, alloc, &[0, 0])).expect(&rt, "no refusal");
    must(&rt, twice.is_none());
}

fn must_be_order(rt: &impl Abort, alloc: Global, order: &[u64], is: bool) {
    let given = order.to_vec(alloc).expect(rt, "no refusal");
    match TransposeCodec::new(alloc, given).expect(rt, "no refusal") {
        Some(codec) => {
            must_for(rt, order, is && codec.order() == order);
            let copy = codec.try_clone(alloc).expect(rt, "no refusal");
            must_for(rt, order, copy.order() == order);
        }
        None => must_for(rt, order, !is),
    }
}

#[test]
fn a_transpose_has_the_order_that_it_is_given(rt: HostRuntime) {
    must_be_order(&rt, rt.alloc(), &[2, 0, 1], true);
    must_be_order(&rt, rt.alloc(), &[], true);
    must_be_order(&rt, rt.alloc(), &[0, 2], false);
    must_be_order(&rt, rt.alloc(), &[u64::MAX, 0], false);
}

#[test]
fn codecs_of_bytes_have_the_parts_that_they_are_given(rt: HostRuntime) {
    must(&rt, BytesCodec::big().endian() == Some(Endianness::Big));
    must(
        &rt,
        BytesCodec::little().endian() == Some(Endianness::Little),
    );
    must(&rt, BytesCodec::new(None).endian().is_none());
    let mask = MaskCodec::PackBits(PackBitsCodec);
    let inner = CellsCodec::Plain(PlainCodec::Bytes(BytesCodec::big()));
    let codec = OptionalCodec::new(rt.alloc(), mask, inner).expect(&rt, "no refusal");
    must_eq(&rt, codec.mask_codec(), mask);
    must(
        &rt,
        matches!(codec.data_codec(), CellsCodec::Plain(PlainCodec::Bytes(_))),
    );
}

/// Subchunks of two cells, with a codec of their bytes alone.
fn must_have_parts(rt: &impl Abort, codec: &ShardingCodec, location: ShardingIndexLocation) {
    let [size] = codec.subchunk_shape() else {
        return rt.panic("other subchunks");
    };
    must_eq(rt, size.get(), 2);
    must_eq(rt, codec.index_location(), location);
    must(rt, codec.inner_codecs().array_to_array_codecs().is_empty());
}

#[test]
fn a_codec_of_shards_has_the_parts_that_its_builder_is_told(rt: HostRuntime) {
    let alloc = rt.alloc();
    let two = NonZeroU64::new(2).expect(&rt, "not zero");
    let sizes = vec![in alloc; two].expect(&rt, "no refusal");
    let made = ShardingCodecBuilder::new(alloc, sizes, &DataType::UInt8);
    let mut builder = made.expect(&rt, "no refusal");
    let codec = builder.build(alloc).expect(&rt, "no refusal");
    must_have_parts(&rt, &codec, ShardingIndexLocation::End);
    let last = codec.inner_codecs().array_to_bytes_codec();
    must(&rt, matches!(last, ArrayToBytesCodec::Bytes(_)));
    builder.index_location(ShardingIndexLocation::Start);
    builder.array_to_bytes_codec(ArrayToBytesCodec::PackBits(PackBitsCodec));
    let codec = builder.build(alloc).expect(&rt, "no refusal");
    must_have_parts(&rt, &codec, ShardingIndexLocation::Start);
    let last = codec.inner_codecs().array_to_bytes_codec();
    must(&rt, matches!(last, ArrayToBytesCodec::PackBits(_)));
}

#[test]
fn options_are_what_was_set(rt: HostRuntime) {
    let options = CodecOptions::default();
    must(
        &rt,
        !options.store_empty_chunks() && !options.experimental_partial_encoding(),
    );
    let mut chosen = options.with_store_empty_chunks(true);
    chosen.set_experimental_partial_encoding(true);
    must(
        &rt,
        chosen.store_empty_chunks() && chosen.experimental_partial_encoding(),
    );
    chosen.set_store_empty_chunks(false);
    must_eq(
        &rt,
        chosen,
        options.with_experimental_partial_encoding(true),
    );
}

#[test]
fn subchunks_are_written_in_row_major_order(rt: HostRuntime) {
    let sharding = ShardingCodecOptions::default().with_subchunk_write_order(SubchunkWriteOrder::C);
    must_eq(&rt, sharding.subchunk_write_order(), SubchunkWriteOrder::C);
    let options = CodecSpecificOptions::default().with_option(sharding);
    must_eq(&rt, options.sharding(), ShardingCodecOptions::default());
    must_eq(&rt, options, CodecSpecificOptions::default());
}

#[test]
fn refusals_say_what_is_wrong(rt: HostRuntime) {
    must_say(&rt, rt.alloc(), &CodecError::OutOfMemory, "out of memory");
    must_say(
        &rt,
        rt.alloc(),
        &CodecError::SizeOverflow,
        "size exceeds the number types",
    );
}

#[test]
fn misfits_say_what_does_not_fit(rt: HostRuntime) {
    const COUNT: Misfit = Misfit::CellCount {
        got: 5,
        expected: 6,
    };
    const ROWS: &[(Misfit, &str)] = &[
        (COUNT, "the number of cells is 5, expected 6"),
        (
            Misfit::NoValue,
            "the data is not made of values of the data type",
        ),
        (
            Misfit::TypeOrShape,
            "the codecs do not take this data type or chunk shape",
        ),
        (
            Misfit::Target,
            "the target has cells of another size or depth",
        ),
        (Misfit::Bytes, "the bytes do not decode"),
    ];
    for (misfit, text) in ROWS {
        must_say(&rt, rt.alloc(), &CodecError::DoesNotFit(*misfit), text);
    }
}
