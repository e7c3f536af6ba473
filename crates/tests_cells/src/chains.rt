//! Chains as their trait calls them, with chunks that no array has: those without a cell. The case files show the others.
use crate::checks::{must, must_eq, must_for};
use crate::data::{Cells, data_of, must_be, type_of, zero_of};
use serde_json::Value;
use std::alloc::Global;
use std::process::Abort;
use zarrs_codec::{
    ArrayToArrayCodec, ArrayToBytesCodec, BytesCodec, BytesToBytesCodecs, ChainTraits, CodecChain,
    CodecError, CodecOptions, Misfit, PartialWrite, TransposeCodec, VlenUtf8Codec,
};
use zarrs_codec_array::encoded_shape;
use zarrs_data_type::{ArrayBytes, CellType, ChunkType};
use zarrs_metadata_parts::MetadataV3;
use zarrs_subset::{ArraySubset, element_count};

const LITTLE: &str = r#"[{"name":"bytes","configuration":{"endian":"little"}}]"#;

const BIG: &str = r#"[{"name":"bytes","configuration":{"endian":"big"}}]"#;

const SWAP: &str =
    r#"[{"name":"transpose","configuration":{"order":[1,0]}},{"name":"bytes","configuration":{"endian":"little"}}]"#;

const TURN: &str =
    r#"[{"name":"transpose","configuration":{"order":[1,2,0]}},{"name":"bytes","configuration":{"endian":"big"}}]"#;

const JOIN: &str =
    r#"[{"name":"reshape","configuration":{"shape":[[0,1],[2]]}},{"name":"bytes","configuration":{"endian":"big"}}]"#;

const TEXTS: &str = r#"["vlen-utf8"]"#;

const LISTS: &str = r#"["vlen-bytes"]"#;

const INDEX: &str = r#"[{"name":"zarrs.vlen","configuration":{"index_data_type":"uint64",
        "index_codecs":[{"name":"bytes","configuration":{"endian":"little"}}],"data_codecs":["bytes"]}}]"#;

const OPTIONAL: &str =
    r#"[{"name":"zarrs.optional","configuration":{"mask_codecs":["packbits"],"data_codecs":["bytes"]}}]"#;

/// Subchunks of two, the index at the end.
const SHARDS: &str = r#"[{"name":"sharding_indexed","configuration":{"chunk_shape":[2],
        "codecs":[{"name":"bytes","configuration":{"endian":"little"}}],
        "index_codecs":[{"name":"bytes","configuration":{"endian":"little"}}]}}]"#;

/// The chain of a list of codecs.
fn chain_of(rt: &impl Abort, alloc: Global, text: &str) -> CodecChain {
    let Value::Array(items) = Value::from_str(alloc, text).expect(rt, "no refusal") else {
        return rt.panic("no list");
    };
    let mut metadata = Vec::new(alloc);
    for item in items {
        let codec = MetadataV3::from_value(item).expect(rt, "metadata");
        metadata.push(codec).expect(rt, "no refusal");
    }
    CodecChain::from_metadata(alloc, &metadata).expect(rt, "a chain")
}

/// The codecs, a type, the shape of a chunk, its cells and the bytes that they encode to.
type Row = (
    &'static str,
    &'static str,
    &'static [u64],
    Cells,
    &'static [u8],
);

/// Cells of this type, where zero fills.
fn cells_of(rt: &impl Abort, alloc: Global, name: &str) -> CellType {
    let data_type = type_of(rt, alloc, name);
    let fill_value = zero_of(rt, alloc, &data_type);
    CellType::new(data_type, fill_value).expect(rt, "a fill value")
}

/// The cells of the row encode to its bytes, and back.
fn must_encode(rt: &impl Abort, alloc: Global, row: &Row) {
    let (codecs, name, shape, cells, encoded) = row;
    let (chain, cell_type) = (chain_of(rt, alloc, codecs), cells_of(rt, alloc, name));
    let chunk = ChunkType {
        cell_type: &cell_type,
        shape: *shape,
    };
    must_code(rt, alloc, &chain, &chunk, cells, encoded);
}

/// The cells encode to the bytes, and back.
fn must_code<C: ChainTraits>(
    rt: &impl Abort,
    alloc: Global,
    chain: &C,
    chunk: &ChunkType<'_>,
    cells: &Cells,
    encoded: &[u8],
) {
    let data = data_of(rt, alloc, cells);
    let count = element_count(chunk.shape).expect(rt, "a count");
    must(rt, data.validate(&chunk.cell_type.data_type, count));
    let fits = chain.fits(alloc, &chunk.cell_type.data_type, chunk.shape);
    must(rt, fits.expect(rt, "no refusal"));
    let made = chain.encode(alloc, &data, chunk, &CodecOptions::default());
    must_eq(rt, made.expect(rt, "no refusal").as_slice(), encoded);
    must_decode(rt, alloc, chain, chunk, cells, encoded);
}

/// The bytes decode to the cells, and are compact.
fn must_decode<C: ChainTraits>(
    rt: &impl Abort,
    alloc: Global,
    chain: &C,
    chunk: &ChunkType<'_>,
    cells: &Cells,
    encoded: &[u8],
) {
    let count = element_count(chunk.shape).expect(rt, "a count");
    must(
        rt,
        count < 100 && chunk.cell_type.data_type.cell_size() < 100,
    );
    let back = chain.decode(alloc, encoded, chunk);
    must_be(rt, &back.expect(rt, "no refusal"), cells);
    let less = chain.compact(alloc, encoded, chunk.shape);
    must_for(rt, encoded, less.is_ok_and(|less| less.is_none()));
}

#[test]
fn chains_encode_chunks_with_and_without_cells(rt: HostRuntime) {
    const FOUR: &[u8] = &[2, 1, 4, 3, 6, 5, 8, 7];
    const SWAPPED: &[u8] = &[2, 1, 6, 5, 4, 3, 8, 7];
    const TWO: Cells = Cells::Strings(b"abcd", &[0, 1, 4]);
    const ENCODED: &[u8] = &[2, 0, 0, 0, 1, 0, 0, 0, 97, 3, 0, 0, 0, 98, 99, 100];
    const NONE: Cells = Cells::Numbers(&[]);
    const NO_TEXT: Cells = Cells::Strings(b"", &[0]);
    const ROWS: &[Row] = &[
        (LITTLE, "uint16", &[2, 2], Cells::Numbers(FOUR), FOUR),
        (
            BIG,
            "uint16",
            &[2, 2],
            Cells::Numbers(FOUR),
            &[1, 2, 3, 4, 5, 6, 7, 8],
        ),
        (SWAP, "uint16", &[2, 2], Cells::Numbers(FOUR), SWAPPED),
        (TEXTS, "string", &[2], TWO, ENCODED),
        (
            OPTIONAL,
            "uint8?",
            &[1],
            Cells::Masked(&[1], &[5]),
            &[1, 0, 0, 0, 0, 0, 0, 0, 1, 0, 0, 0, 0, 0, 0, 0, 1, 5],
        ),
        (SHARDS, "uint8", &[4], Cells::Numbers(&[0, 0, 5, 6]), SHARD),
        (LITTLE, "uint64", &[0], NONE, &[]),
        (TURN, "uint8", &[2, 0, 3], NONE, &[]),
        (JOIN, "uint8", &[0, 3, 4], NONE, &[]),
        (r#"["packbits"]"#, "bool", &[0], NONE, &[]),
        (TEXTS, "string", &[2, 0], NO_TEXT, &[0; 4]),
        (LISTS, "bytes", &[0], NO_TEXT, &[0; 4]),
        (
            INDEX,
            "string",
            &[0],
            NO_TEXT,
            &[8, 0, 0, 0, 0, 0, 0, 0, 0, 0, 0, 0, 0, 0, 0, 0],
        ),
        (
            INDEX,
            "bytes",
            &[0],
            NO_TEXT,
            &[8, 0, 0, 0, 0, 0, 0, 0, 0, 0, 0, 0, 0, 0, 0, 0],
        ),
        (OPTIONAL, "uint8?", &[0], Cells::Masked(&[], &[]), &[0; 16]),
    ];
    for row in ROWS {
        must_encode(&rt, rt.alloc(), row);
    }
}

/// The bytes 0, 0, 5 and 6: the subchunk of fill is absent.
const SHARD: &[u8] = &[
    5, 6, 255, 255, 255, 255, 255, 255, 255, 255, 255, 255, 255, 255, 255, 255, 255, 255, 0, 0, 0,
    0, 0, 0, 0, 0, 2, 0, 0, 0, 0, 0, 0, 0,
];

/// The first byte becomes 9. Its subchunk stands where the index was, and the index behind it.
const PUT: &[u8] = &[
    9, 0, 2, 0, 0, 0, 0, 0, 0, 0, 2, 0, 0, 0, 0, 0, 0, 0, 0, 0, 0, 0, 0, 0, 0, 0, 2, 0, 0, 0, 0, 0,
    0, 0,
];

/// The first byte of a chunk of four.
fn first_byte(rt: &impl Abort, alloc: Global) -> ArraySubset {
    ArraySubset::new_with_ranges(alloc, &[0..1]).expect(rt, "no refusal")
}

#[test]
fn a_part_is_put_where_the_index_was(rt: HostRuntime) {
    let alloc = rt.alloc();
    let (chain, cell_type) = (chain_of(&rt, alloc, SHARDS), cells_of(&rt, alloc, "uint8"));
    let (part, data) = (first_byte(&rt, alloc), ArrayBytes::from_flen(&[9]));
    let chunk = ChunkType {
        cell_type: &cell_type,
        shape: &[4],
    };
    must(&rt, chain.supports_partial_encode());
    must(&rt, part.dimensionality() == 1);
    let count = part.num_elements().expect(&rt, "a count");
    must(&rt, data.validate(&cell_type.data_type, count));
    let options = CodecOptions::default();
    let made = chain.partial_encode(alloc, Some(SHARD), &part, &data, &chunk, &options);
    must(
        &rt,
        matches!(&made, Ok(PartialWrite::Put(2, bytes)) if bytes.as_slice() == PUT),
    );
}

fn must_not_decode(rt: &impl Abort, alloc: Global, codecs: &str, name: &str, encoded: &[u8]) {
    let (chain, cell_type) = (chain_of(rt, alloc, codecs), cells_of(rt, alloc, name));
    must(rt, cell_type.data_type.cell_size() < 100);
    let chunk = ChunkType {
        cell_type: &cell_type,
        shape: &[0],
    };
    let made = chain.decode(alloc, encoded, &chunk);
    must_for(
        rt,
        codecs,
        made.is_err_and(|error| error == CodecError::DoesNotFit(Misfit::Bytes)),
    );
}

#[test]
fn other_bytes_are_no_chunk_without_a_cell(rt: HostRuntime) {
    const ROWS: &[(&str, &str, &[u8])] = &[
        (LITTLE, "uint16", &[0, 0]),
        (r#"["packbits"]"#, "bool", &[0]),
        (TEXTS, "string", &[0; 5]),
        (TEXTS, "string", &[0; 3]),
        (TEXTS, "string", &[]),
        (LISTS, "bytes", &[0; 5]),
        (LISTS, "bytes", &[0; 3]),
        (LISTS, "bytes", &[]),
        (INDEX, "string", &[8, 0, 0, 0, 0, 0, 0, 0]),
        (INDEX, "bytes", &[8, 0, 0, 0]),
        (INDEX, "string", &[]),
    ];
    for (codecs, name, encoded) in ROWS {
        must_not_decode(&rt, rt.alloc(), codecs, name, encoded);
    }
}

fn must_have_shape(
    rt: &impl Abort,
    alloc: Global,
    codecs: &str,
    shape: &[u64],
    made: Option<&[u64]>,
) {
    let chain = chain_of(rt, alloc, codecs);
    let found = encoded_shape(alloc, chain.array_to_array_codecs(), shape).expect(rt, "no refusal");
    must_for(rt, shape, found.as_deref() == made);
}

#[test]
fn shapes_go_through_each_codec_of_arrays(rt: HostRuntime) {
    const REST: &str = r#"[{"name":"reshape","configuration":{"shape":[-1]}},"bytes"]"#;
    const SQUEEZE: &str = r#"["squeeze","bytes"]"#;
    const BOTH: &str =
        r#"[{"name":"transpose","configuration":{"order":[2,0,1]}},"squeeze","bytes"]"#;
    const ROWS: &[(&str, &[u64], Option<&[u64]>)] = &[
        (JOIN, &[2, 3, 4], Some(&[6, 4])),
        (JOIN, &[0, 3, 4], Some(&[0, 4])),
        (REST, &[], Some(&[1])),
        (REST, &[1 << 32, 1 << 32], None),
        (SQUEEZE, &[1, 2, 1, 0], Some(&[2, 0])),
        (SQUEEZE, &[1], Some(&[])),
        (BOTH, &[1, 2, 3], Some(&[3, 2])),
        (BOTH, &[1, 2], None),
    ];
    for (codecs, shape, made) in ROWS {
        must_have_shape(&rt, rt.alloc(), codecs, shape, *made);
    }
}

fn must_have_parts(rt: &impl Abort, alloc: Global, chain: &CodecChain) {
    must_eq(rt, chain.array_to_array_codecs().len(), 1);
    must(
        rt,
        matches!(chain.array_to_bytes_codec(), ArrayToBytesCodec::Bytes(_)),
    );
    must_eq(rt, *chain.bytes_to_bytes_codecs(), BytesToBytesCodecs);
    must_eq(
        rt,
        chain.create_metadatas(alloc).expect(rt, "no refusal").len(),
        2,
    );
}

#[test]
fn a_chain_has_its_parts(rt: HostRuntime) {
    let chain = chain_of(&rt, rt.alloc(), SWAP);
    must_have_parts(&rt, rt.alloc(), &chain);
    must_have_parts(
        &rt,
        rt.alloc(),
        &chain.try_clone(rt.alloc()).expect(&rt, "no refusal"),
    );
}

/// How many dimensions the widest arrays of these tests have.
const DIMENSIONS: u64 = 100_000;

/// The codec that turns the dimensions around.
fn turning(rt: &impl Abort, alloc: Global) -> ArrayToArrayCodec {
    let mut order = Vec::new(alloc);
    for axis in 0..DIMENSIONS {
        order.push(DIMENSIONS - 1 - axis).expect(rt, "no refusal");
    }
    let made = TransposeCodec::new(alloc, order).expect(rt, "no refusal");
    ArrayToArrayCodec::Transpose(made.expect(rt, "an order"))
}

/// A shape of two rows, of three columns, and of extents of 1 between them.
fn wide_shape(rt: &impl Abort, alloc: Global) -> Vec<u64> {
    let mut shape = Vec::new(alloc);
    shape.push(2).expect(rt, "no refusal");
    for _ in 2..DIMENSIONS {
        shape.push(1).expect(rt, "no refusal");
    }
    shape.push(3).expect(rt, "no refusal");
    shape
}

/// The cells of a wide array encode to the bytes, turned around, and back.
fn must_turn(
    rt: &impl Abort,
    alloc: Global,
    last: ArrayToBytesCodec,
    name: &str,
    cells: &Cells,
    encoded: &[u8],
) {
    let mut codecs = Vec::new(alloc);
    codecs.push(turning(rt, alloc)).expect(rt, "no refusal");
    let chain = CodecChain::new(codecs, last, BytesToBytesCodecs);
    let (cell_type, shape) = (cells_of(rt, alloc, name), wide_shape(rt, alloc));
    let chunk = ChunkType {
        cell_type: &cell_type,
        shape: &shape,
    };
    must_code(rt, alloc, &chain, &chunk, cells, encoded);
}

#[test]
fn a_transpose_takes_arrays_of_many_dimensions(rt: HostRuntime) {
    const NUMBERS: &Cells = &Cells::Numbers(&[1, 2, 3, 4, 5, 6]);
    const SIX: &Cells = &Cells::Strings(b"abc", &[0, 1, 1, 1, 2, 2, 3]);
    const ENCODED: &[u8] = &[
        6, 0, 0, 0, 1, 0, 0, 0, 97, 1, 0, 0, 0, 98, 0, 0, 0, 0, 0, 0, 0, 0, 0, 0, 0, 0, 1, 0, 0, 0,
        99,
    ];
    let bytes = ArrayToBytesCodec::Bytes(BytesCodec::little());
    let texts = ArrayToBytesCodec::VlenUtf8(VlenUtf8Codec);
    must_turn(
        &rt,
        rt.alloc(),
        bytes,
        "uint8",
        NUMBERS,
        &[1, 4, 2, 5, 3, 6],
    );
    must_turn(&rt, rt.alloc(), texts, "string", SIX, ENCODED);
}
