//! The uses of the engine, run.
use crate::checks::{must, must_eq};
use crate::chunks::{erase, is_present, store_and_read};
use crate::histories::{count_refused, have_equal_bytes};
use crate::make::MemoryEngine;
use crate::refusals::{advice, other_dimensions};
use crate::regions::{part_of_chunk, store_region};
use crate::steps::{Step, calls, fenced_array, region, small_array};
use crate::walk::sum_of_chunks;
use std::alloc::Global;
use std::process::Abort;
use zarrs_data_type::ArrayBytes;
use zarrs_engine::ArrayError;
use zarrs_storage::MemoryStore;

fn must_hold(rt: &impl Abort, data: &ArrayBytes<'_>, cells: &[u8]) {
    must(
        rt,
        matches!(data, ArrayBytes::Fixed(held) if held.as_slice() == cells),
    );
}

fn must_store_and_read(rt: &impl Abort, alloc: Global, engine: &mut MemoryEngine) {
    let data = store_and_read(alloc, engine, &[1, 0], &[5, 6, 7, 8]).expect(rt, "no refusal");
    must_hold(rt, &data, &[5, 6, 7, 8]);
    drop(data);
}

fn must_be_present(rt: &impl Abort, alloc: Global, engine: &MemoryEngine, is: bool) {
    must_eq(
        rt,
        is_present(alloc, engine, &[1, 0]).expect(rt, "no refusal"),
        is,
    );
}

fn erase_chunk(rt: &impl Abort, alloc: Global, engine: &mut MemoryEngine) {
    erase(alloc, engine, &[1, 0]).expect(rt, "no refusal");
}

/// Stores 1 to 4 in the middle of four chunks.
fn store_across_chunks(rt: &impl Abort, alloc: Global, engine: &mut MemoryEngine) {
    let middle = region(rt, alloc, &[1, 1], &[2, 2]);
    store_region(alloc, engine, &middle, &[1, 2, 3, 4]).expect(rt, "no refusal");
}

/// The first row of the last chunk has the cells 4 and 0.
fn must_read_part(rt: &impl Abort, alloc: Global, engine: &MemoryEngine) {
    let row = region(rt, alloc, &[0, 0], &[1, 2]);
    let data = part_of_chunk(alloc, engine, &[1, 1], &row).expect(rt, "no refusal");
    must_hold(rt, &data, &[4, 0]);
    drop(data);
}

/// The sum of the chunks that meet these columns of the first two rows.
fn must_sum(rt: &impl Abort, alloc: Global, engine: &MemoryEngine, end: u64, sum: Option<u64>) {
    must_eq(
        rt,
        sum_of_chunks(alloc, engine, &[0..2, 1..end]).expect(rt, "no refusal"),
        sum,
    );
}

#[test]
fn chunks_and_regions_are_stored_and_read(rt: HostRuntime) {
    let mut engine = small_array(&rt, rt.alloc());
    must_store_and_read(&rt, rt.alloc(), &mut engine);
    must_be_present(&rt, rt.alloc(), &engine, true);
    erase_chunk(&rt, rt.alloc(), &mut engine);
    must_be_present(&rt, rt.alloc(), &engine, false);
    store_across_chunks(&rt, rt.alloc(), &mut engine);
    must_read_part(&rt, rt.alloc(), &engine);
    must_sum(&rt, rt.alloc(), &engine, 2, Some(1));
    must_sum(&rt, rt.alloc(), &engine, 3, Some(3));
    must_sum(&rt, rt.alloc(), &engine, u64::MAX, None);
    drop(engine);
}

fn must_advise<T>(rt: &impl Abort, got: &Result<T, ArrayError>, text: &str) {
    must(rt, matches!(got, Err(error) if advice(error) == text));
}

/// What is said of a store of these cells in a chunk.
fn must_advise_on_chunk(
    rt: &impl Abort,
    alloc: Global,
    engine: &mut MemoryEngine,
    chunk: &[u64],
    cells: &[u8],
    text: &str,
) {
    let got = store_and_read(alloc, engine, chunk, cells);
    must_advise(rt, &got, text);
    drop(got);
}

/// What is said of a part that passes its chunk.
fn must_advise_on_part(rt: &impl Abort, alloc: Global, engine: &MemoryEngine, text: &str) {
    let part = region(rt, alloc, &[1, 1], &[2, 2]);
    let got = part_of_chunk(alloc, engine, &[1, 1], &part);
    must_advise(rt, &got, text);
    drop(got);
}

/// What is said of a region at the end of the numbers.
fn must_advise_on_region(rt: &impl Abort, alloc: Global, engine: &mut MemoryEngine, text: &str) {
    let far = region(rt, alloc, &[0, u64::MAX - 1], &[1, 1]);
    let got = store_region(alloc, engine, &far, &[1]);
    must_advise(rt, &got, text);
    drop(got);
}

#[test]
fn refusals_are_told_apart(rt: HostRuntime) {
    const NO_CHUNK: &str = "no chunk has these indices: ask the grid";
    const UNFIT: &str = "the cells do not fit, or the bytes in the store are no chunk";
    const PART: &str = "the part does not lie in its chunk";
    const REGION: &str = "the chunks do not cover this region: ask the grid";
    let mut engine = small_array(&rt, rt.alloc());
    must_advise_on_chunk(&rt, rt.alloc(), &mut engine, &[0], &[1, 2, 3, 4], NO_CHUNK);
    must_advise_on_chunk(&rt, rt.alloc(), &mut engine, &[0, 0], &[1, 2, 3], UNFIT);
    must_advise_on_part(&rt, rt.alloc(), &engine, PART);
    must_advise_on_region(&rt, rt.alloc(), &mut engine, REGION);
    drop(engine);
}

/// A region of one dimension is refused over a store of which no key may be asked.
#[test]
fn a_region_of_other_dimensions_asks_nothing(rt: HostRuntime) {
    let mut store = MemoryStore::new(rt.alloc());
    let engine = fenced_array(&rt, rt.alloc(), &mut store);
    let line = region(&rt, rt.alloc(), &[0], &[1]);
    let refused = other_dimensions(rt.alloc(), &engine, &line);
    must(
        &rt,
        matches!(refused, Some(ArrayError::InvalidArraySubset(_, _))),
    );
    drop(refused);
    drop(engine);
}

/// The array after these calls, of which so many are refused.
fn array_after(rt: &impl Abort, alloc: Global, steps: &[Step], refused: usize) -> MemoryEngine {
    let mut engine = small_array(rt, alloc);
    let calls = calls(rt, alloc, steps);
    must_eq(
        rt,
        count_refused(alloc, &mut engine, &calls).expect(rt, "no refusal"),
        refused,
    );
    engine
}

fn must_compare(
    rt: &impl Abort,
    alloc: Global,
    one: &MemoryEngine,
    other: &MemoryEngine,
    equal: bool,
) {
    must_eq(
        rt,
        have_equal_bytes(alloc, one.storage(), other.storage()).expect(rt, "no refusal"),
        equal,
    );
}

/// A chunk that becomes fill is absent, as one that was never stored is.
#[test]
fn equal_arrays_have_equal_bytes(rt: HostRuntime) {
    const ONCE: &[Step] = &[Step::Store(&[0, 0], &[1, 2, 3, 4])];
    const TWICE: &[Step] = &[
        Step::Store(&[0, 0], &[9, 9, 9, 9]),
        Step::Read(&[0]),
        Step::Store(&[1, 1], &[1]),
        Step::Erase(&[1, 1]),
        Step::Store(&[0, 1], &[0, 0, 0, 0]),
        Step::Store(&[0, 0], &[1, 2, 3, 4]),
    ];
    let once = array_after(&rt, rt.alloc(), ONCE, 0);
    let twice = array_after(&rt, rt.alloc(), TWICE, 2);
    let new = array_after(&rt, rt.alloc(), &[], 0);
    must_compare(&rt, rt.alloc(), &once, &twice, true);
    must_compare(&rt, rt.alloc(), &once, &new, false);
    drop(once);
    drop(twice);
    drop(new);
}
