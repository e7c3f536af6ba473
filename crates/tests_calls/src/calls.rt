//! The calls of an engine whose grid is of a type that no array has, in a list; and the parts that it lends.
use crate::checks::{must, must_eq, must_print};
use crate::histories::replayed;
use crate::make::MemoryEngine;
use crate::steps::{Step, calls, region, small_array};
use std::alloc::Global;
use std::process::Abort;
use zarrs_data_type::DataType;
use zarrs_engine::{chunks_equal, layouts_are_lawful};
use zarrs_keys::{ChunkKeyEncoding, ChunkKeySeparator};
use zarrs_storage::{Bytes, MemoryStore, StoreKey, WritableStorageTraits};

/// Makes the calls as one list. The replies are printed so.
fn must_reply(
    rt: &impl Abort,
    alloc: Global,
    engine: &mut MemoryEngine,
    steps: &[Step],
    replies: &str,
) {
    let calls = calls(rt, alloc, steps);
    let got = replayed(alloc, engine, &calls).expect(rt, "no refusal");
    must_print(rt, alloc, &got, replies);
}

#[test]
fn a_list_of_calls_goes_on_after_refusals(rt: HostRuntime) {
    const WRITES: &[Step] = &[
        Step::StoreRegion(&[1, 1], &[2, 2], &[1, 2, 3, 4]),
        Step::StorePart(&[1, 1], &[2, 0], &[1, 1], &[9]),
        Step::StorePart(&[1, 1], &[1, 1], &[1, 1], &[9]),
        Step::StoreRange(&[0, 0], &[1, 2], &[5, 6, 7, 8, 10, 11, 12, 13]),
    ];
    const WRITTEN: &str = "[Done, \
        Refused(InvalidChunkSubset(ArraySubset { start: [2, 0], shape: [1, 1] }, [1, 1], [2, 2])), \
        Done, Done]";
    const READS: &[Step] = &[
        Step::ReadRegion(&[1, 0], &[2, 3]),
        Step::ReadRegion(&[5], &[1]),
        Step::ReadRange(&[1, 0], &[1, 2]),
        Step::ReadPart(&[1, 1], &[0, 0], &[2, 1]),
    ];
    const READ: &str = "[Cells(Fixed([10, 11, 12, 0, 3, 4])), \
        Refused(InvalidArraySubset(ArraySubset { start: [5], shape: [1] }, [4, 4])), \
        Cells(Fixed([0, 3, 4, 0, 0, 0, 0, 9])), Cells(Fixed([4, 0]))]";
    const ERASURES: &[Step] = &[
        Step::Erase(&[0]),
        Step::Erase(&[0, 0]),
        Step::ReadIfPresent(&[0, 0]),
        Step::EraseRange(&[1], &[2]),
        Step::EraseRange(&[0, 1], &[2, 1]),
        Step::Store(&[1, 0], &[1, 2, 3]),
        Step::ReadIfPresent(&[1, 0]),
        Step::Read(&[1, 1]),
    ];
    const ERASED: &str = "[Refused(InvalidChunkGridIndicesError([0])), Done, MaybeCells(None), \
        Refused(InvalidChunkGridIndicesError([1])), Done, \
        Refused(CodecError(DoesNotFit(CellCount { got: 3, expected: 4 }))), \
        MaybeCells(Some(Fixed([0, 3, 0, 0]))), Cells(Fixed([0, 0, 0, 0]))]";
    let mut engine = small_array(&rt, rt.alloc());
    must_reply(&rt, rt.alloc(), &mut engine, WRITES, WRITTEN);
    must_reply(&rt, rt.alloc(), &mut engine, READS, READ);
    must_reply(&rt, rt.alloc(), &mut engine, ERASURES, ERASED);
    drop(engine);
}

/// The chunks of the range are equal, or they are not.
fn must_compare(rt: &impl Abort, alloc: Global, a: &MemoryEngine, b: &MemoryEngine, equal: bool) {
    let range = region(rt, alloc, &[1, 0], &[1, 2]);
    if range.dimensionality() != a.dimensionality()
        || range.dimensionality() != b.dimensionality()
    {
        return rt.panic("another number of dimensions");
    }
    must_eq(
        rt,
        chunks_equal(alloc, a, b, &range).expect(rt, "no refusal"),
        equal,
    );
}

/// The parts are lent as they were given.
fn must_lend(rt: &impl Abort, engine: &MemoryEngine) {
    layouts_are_lawful(engine);
    must_eq(rt, engine.path().as_str(), "/climate/rain");
    must(rt, *engine.data_type() == DataType::UInt8);
    must(
        rt,
        matches!(
            engine.keys(),
            ChunkKeyEncoding::Default(ChunkKeySeparator::Slash)
        ),
    );
    must_eq(rt, engine.fill_value().as_bytes(), [0].as_slice());
    let _grid = engine.chunk_grid();
    let _chain = engine.chain();
}

const LAST: &str = "climate/rain/c/1/1";

/// Sets the bytes of the last chunk, in the store that the engine lends.
fn set_last(rt: &impl Abort, alloc: Global, engine: &mut MemoryEngine) {
    let key = StoreKey::new(alloc, LAST).expect(rt, "no refusal");
    engine
        .storage_mut()
        .set(alloc, &key, Bytes::from_static(&[4, 0, 0, 9]))
        .expect(rt, "no refusal");
}

/// Erases the key of the last chunk there.
fn erase_last(rt: &impl Abort, alloc: Global, engine: &mut MemoryEngine) {
    let key = StoreKey::new(alloc, LAST).expect(rt, "no refusal");
    engine
        .storage_mut()
        .erase(alloc, &key)
        .expect(rt, "no refusal");
}

/// The store has no key, and saw two writing calls.
fn must_be_left(rt: &impl Abort, alloc: Global, store: &MemoryStore) {
    must_eq(rt, store.keys(alloc).expect(rt, "no refusal").len(), 0);
    must_eq(rt, store.calls(), 2);
    must_eq(rt, store.failures(), 0);
}

#[test]
fn parts_are_lent_and_the_store_is_given_back(rt: HostRuntime) {
    const READ: &[Step] = &[Step::Read(&[1, 1])];
    const CELLS: &str = "[Cells(Fixed([4, 0, 0, 9]))]";
    let mut engine = small_array(&rt, rt.alloc());
    let new = small_array(&rt, rt.alloc());
    must_lend(&rt, &engine);
    must_compare(&rt, rt.alloc(), &engine, &new, true);
    set_last(&rt, rt.alloc(), &mut engine);
    must_compare(&rt, rt.alloc(), &engine, &new, false);
    must_reply(&rt, rt.alloc(), &mut engine, READ, CELLS);
    erase_last(&rt, rt.alloc(), &mut engine);
    must_be_left(&rt, rt.alloc(), &engine.into_storage());
    drop(new);
}

#[test]
fn laws_can_be_called(_rt: HostRuntime) {
    zarrs_engine::laws::an_array_is_one_function();
    zarrs_engine::laws::answers_depend_on_the_reach();
    zarrs_engine::laws::content_is_bytes();
    zarrs_engine::laws::canonical_stores_decode();
    zarrs_engine::laws::empty_stores_are_canonical();
    zarrs_engine::laws::courses_keep_canon();
    zarrs_engine::laws::courses_keep_decoding();
    zarrs_engine::laws::courses_keep_reach();
    zarrs_engine::laws::courses_agree();
    zarrs_engine::laws::equal_counts_agree();
    zarrs_engine::laws::read_after_store();
    zarrs_engine::laws::store_after_read();
    zarrs_engine::laws::disjoint_writes_agree();
    zarrs_engine::laws::event_reads_of_decoding_chunks();
    zarrs_engine::laws::parts_make_the_region();
    zarrs_engine::laws::reads_agree();
    zarrs_engine::laws::shards_compact_to_their_encoding();
    zarrs_engine::laws::target_reads_depend_on_places();
}
