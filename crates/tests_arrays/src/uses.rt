//! The uses of arrays, run.
use crate::built::{measure, rainfall, rainfall_in_a_shard, unit_of};
use crate::checks::{are_y_and_x, must, must_eq};
use crate::courses::stored_and_read_twice;
use crate::documents::{create_array, read_region_at, v3_text};
use crate::encoded::read_while;
use crate::made::holding;
use anyhow::Result;
use std::alloc::Global;
use std::ops::Range;
use std::process::Abort;
use zarrs::{Array, ArraySubset, MemoryStore};

const PATH: &str = "/climate/rain";

fn region(rt: &impl Abort, alloc: Global, ranges: &[Range<u64>]) -> ArraySubset {
    ArraySubset::new_with_ranges(alloc, ranges).expect(rt, "no refusal")
}

/// The document of an array of 4 by 4 bytes in chunks of 2 by 2, whose cells are 7 where none was written.
const DOCUMENT: &[u8] = br#"{
    "zarr_format": 3,
    "node_type": "array",
    "shape": [4, 4],
    "data_type": "uint8",
    "chunk_grid": {"name": "regular", "configuration": {"chunk_shape": [2, 2]}},
    "chunk_key_encoding": {"name": "default", "configuration": {"separator": "/"}},
    "fill_value": 7,
    "codecs": ["bytes"]
}"#;

/// That array, over a store that has its document.
fn created(rt: &impl Abort, alloc: Global) -> Array<MemoryStore> {
    let created = create_array(alloc, MemoryStore::new(alloc), PATH, DOCUMENT);
    created.expect(rt, "no refusal")
}

/// The array in the store has these cells in its second row.
fn must_read(rt: &impl Abort, alloc: Global, storage: MemoryStore, wanted: &[u8]) {
    let row = region(rt, alloc, &[1..2, 0..4]);
    let read = read_region_at(alloc, storage, PATH, &row);
    drop(row);
    must_eq(rt, read.expect(rt, "no refusal").as_slice(), wanted);
}

#[test]
fn an_array_is_created_and_opened_again(rt: HostRuntime) {
    let alloc = rt.alloc();
    let storage = created(&rt, alloc).into_storage();
    must_read(&rt, alloc, storage, &[7, 7, 7, 7]);
}

/// The V2 document of an array of 6 texts, as zarr-python writes it, and the V3 document that it becomes.
const V2_DOCUMENT: &[u8] = br#"{
    "shape": [6],
    "chunks": [2],
    "dtype": "|O",
    "fill_value": "",
    "order": "C",
    "filters": [{"id": "vlen-utf8"}],
    "dimension_separator": "/",
    "compressor": null,
    "zarr_format": 2
}"#;

const CONVERTED: &str = concat!(
    "{\"attributes\":{\"_zarrs\":{\"description\":\"This array was created with zarrs\",",
    "\"repository\":\"https://github.com/zarrs/zarrs\",\"version\":\"0.23.13\"}},",
    "\"chunk_grid\":{\"configuration\":{\"chunk_shape\":[2]},\"name\":\"regular\"},",
    "\"chunk_key_encoding\":{\"configuration\":{\"separator\":\"/\"},\"name\":\"v2\"},",
    "\"codecs\":[\"vlen-utf8\"],\"data_type\":\"string\",\"fill_value\":\"\",",
    "\"node_type\":\"array\",\"shape\":[6],\"zarr_format\":3}"
);

#[test]
fn a_v2_array_is_shown_in_v3(rt: HostRuntime) {
    let alloc = rt.alloc();
    let storage = holding(&rt, alloc, "names/.zarray", V2_DOCUMENT);
    let text = v3_text(alloc, storage, "/names").expect(&rt, "no refusal");
    must_eq(&rt, text.as_str(), CONVERTED);
}

/// The region reads these numbers while the first chunk has other cells.
fn must_read_while(
    rt: &impl Abort,
    alloc: Global,
    array: &mut Array<MemoryStore>,
    region: &ArraySubset,
    wanted: &[u8],
) {
    let read = read_while(alloc, array, &[0, 0], &[1, 2, 3, 4], region);
    must_eq(rt, read.expect(rt, "no refusal").as_slice(), wanted);
}

/// The cells of the first chunk, if it is present.
fn must_hold(rt: &impl Abort, alloc: Global, array: &Array<MemoryStore>, wanted: Option<&[u8]>) {
    let held = array.retrieve_chunk_if_exists::<Vec<u8>>(alloc, &[0, 0]);
    must(rt, held.expect(rt, "no refusal").as_deref() == wanted);
}

fn store_chunk(rt: &impl Abort, alloc: Global, array: &mut Array<MemoryStore>, cells: &[u8]) {
    let stored = array.store_chunk(alloc, &[0, 0], cells);
    stored.expect(rt, "no refusal");
}

fn must_be_put_back(
    rt: &impl Abort,
    alloc: Global,
    array: &mut Array<MemoryStore>,
    row: &ArraySubset,
) {
    must_read_while(rt, alloc, array, row, &[1, 2, 7, 7]);
    must_hold(rt, alloc, array, None);
    store_chunk(rt, alloc, array, &[5, 6, 7, 8]);
    must_read_while(rt, alloc, array, row, &[1, 2, 7, 7]);
    must_hold(rt, alloc, array, Some(&[5, 6, 7, 8]));
}

fn must_read_twice(
    rt: &impl Abort,
    alloc: Global,
    array: &mut Array<MemoryStore>,
    row: &ArraySubset,
) {
    let read = stored_and_read_twice(alloc, array, row, &[1u8, 2, 3, 4]);
    must_eq(rt, read.expect(rt, "no refusal").as_slice(), &[1, 2, 3, 4]);
}

#[test]
fn a_chunk_is_left_as_it_was_and_values_are_read_twice(rt: HostRuntime) {
    let alloc = rt.alloc();
    let mut array = created(&rt, alloc);
    must_be_put_back(&rt, alloc, &mut array, &region(&rt, alloc, &[0..1, 0..4]));
    must_read_twice(&rt, alloc, &mut array, &region(&rt, alloc, &[1..2, 0..4]));
    drop(array);
}

/// What is known of the first two rows of places after four of them were measured.
const MEASURED: &[i16] = &[
    -1, -1, -1, -1, -1, -1, -1, -1, //
    -1, -1, -1, 12, 0, 7, 31, -1,
];

/// The array has its unit and its names, and keeps what is measured.
fn must_be_measured(rt: &impl Abort, alloc: Global, built: Result<Array<MemoryStore>>) {
    let mut array = built.expect(rt, "no refusal");
    must(rt, unit_of(&array) == Some("mm"));
    must(rt, are_y_and_x(array.dimension_names()));
    let places = region(rt, alloc, &[1..2, 3..7]);
    let measured = measure(alloc, &mut array, &places, &[12, 0, 7, 31]);
    drop(places);
    drop(array);
    let millimetres = measured.expect(rt, "no refusal");
    must_eq(rt, millimetres.len(), 64);
    must(rt, millimetres.starts_with(MEASURED));
}

#[test]
fn an_array_is_built_and_measured_in_chunks_and_in_subchunks(rt: HostRuntime) {
    let alloc = rt.alloc();
    must_be_measured(&rt, alloc, rainfall(alloc, MemoryStore::new(alloc), PATH));
    must_be_measured(
        &rt,
        alloc,
        rainfall_in_a_shard(alloc, MemoryStore::new(alloc), PATH),
    );
}
