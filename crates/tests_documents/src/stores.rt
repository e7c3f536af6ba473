//! Stores: what each call answers over a store that accepts it and over one that refuses it, in tables.
ghost use Rattle.std.specs.Prelude.{◌≡◌, ℕ, true, List, OnOk};
ghost use Rattle.std.specs.FinMap as map;
ghost use Rattle.zarrs_storage.specs.Store.{MayReadWhole};

use crate::checks::{must, must_eq, must_say};
use bytes::Bytes;
use std::alloc::Global;
use std::process::Abort;
use zarrs_storage::{
    Fault, Fence, Lent, MemoryStore, ReadOnly, ReadableStorageTraits, Stop, StorageError, StoreKey,
    WholeRefused, WritableStorageTraits,
};

/// A call that reads.
enum Read {
    Get,
    GetPartial(u64, u64),
    Size,
}

/// A call that writes.
enum Write {
    Set(&'static [u8]),
    SetPartial(u64, &'static [u8]),
    Erase,
}

/// What a call answers.
enum Answer {
    Done,
    Absent,
    Value(&'static [u8]),
    Size(u64),
    /// A refusal with this text.
    Refused(&'static str),
}

/// A call, with its key and its answer.
enum Row {
    Read(&'static str, Read, Answer),
    Write(&'static str, Write, Answer),
}

/// Whether the refusal is the wanted one, by its text.
fn is_refused(rt: &impl Abort, alloc: Global, error: &StorageError, answer: &Answer) -> bool {
    let Answer::Refused(wanted) = answer else {
        return false;
    };
    error.to_string(alloc).expect(rt, "no refusal").as_str() == *wanted
}

fn must_be_value(
    rt: &impl Abort,
    alloc: Global,
    found: &Result<Option<Bytes>, StorageError>,
    answer: &Answer,
) {
    let holds = match (found, answer) {
        (Ok(None), Answer::Absent) => true,
        (Ok(Some(value)), Answer::Value(wanted)) => *value == Bytes::from_static(*wanted),
        (Ok(_), _) => false,
        (Err(error), answer) => is_refused(rt, alloc, error, answer),
    };
    must(rt, holds);
}

fn must_be_size(
    rt: &impl Abort,
    alloc: Global,
    found: &Result<Option<u64>, StorageError>,
    answer: &Answer,
) {
    let holds = match (found, answer) {
        (Ok(None), Answer::Absent) => true,
        (Ok(Some(size)), Answer::Size(wanted)) => *size == *wanted,
        (Ok(_), _) => false,
        (Err(error), answer) => is_refused(rt, alloc, error, answer),
    };
    must(rt, holds);
}

fn must_be_done(rt: &impl Abort, alloc: Global, found: &Result<(), StorageError>, answer: &Answer) {
    let holds = match found {
        Ok(()) => matches!(answer, Answer::Done),
        Err(error) => is_refused(rt, alloc, error, answer),
    };
    must(rt, holds);
}

fn must_read<S: ReadableStorageTraits>(
    rt: &impl Abort,
    alloc: Global,
    store: &S,
    key: &StoreKey,
    read: &Read,
    answer: &Answer,
)
    requires may_ask { (S.state store.now).may_ask key.now ≡ true }
    requires may_read { (place : ℕ) → (S.state store.now).may_read key.now place ≡ true }
{
    match read {
        Read::Get => must_be_value(rt, alloc, &store.get(alloc, key), answer),
        Read::GetPartial(offset, count) => {
            must_be_value(
                rt,
                alloc,
                &store.get_partial(alloc, key, *offset, *count),
                answer,
            );
        }
        Read::Size => must_be_size(rt, alloc, &store.size_key(alloc, key), answer),
    }
}

fn must_write<S: WritableStorageTraits>(
    rt: &impl Abort,
    alloc: Global,
    store: &mut S,
    key: &StoreKey,
    write: &Write,
    answer: &Answer,
) {
    let found = match write {
        Write::Set(value) => store.set(alloc, key, Bytes::from_static(*value)),
        Write::SetPartial(offset, bytes) => store.set_partial(alloc, key, *offset, *bytes),
        Write::Erase => store.erase(alloc, key),
    };
    must_be_done(rt, alloc, &found, answer);
}

/// A store makes this call and gives this answer.
fn must_answer<S: WritableStorageTraits>(rt: &impl Abort, alloc: Global, store: &mut S, row: &Row)
    requires may_ask { (key : List ℕ) → (S.ReadableStorageTraits.state store.old).may_ask key ≡ true }
    requires may_read { (key : List ℕ) (place : ℕ)
        → (S.ReadableStorageTraits.state store.old).may_read key place ≡ true }
{
    match row {
        Row::Read(key, read, answer) => must_read(
            rt,
            alloc,
            store,
            &key_of(rt, alloc, key),
            read,
            answer,
        ),
        Row::Write(key, write, answer) => must_write(
            rt,
            alloc,
            store,
            &key_of(rt, alloc, key),
            write,
            answer,
        ),
    }
}

/// A store of a type that may be asked anything makes these calls and gives these answers.
fn must_hold<S: WritableStorageTraits>(rt: &impl Abort, alloc: Global, store: &mut S, rows: &[Row])
    requires may_ask { (s : S) (key : List ℕ)
        → (S.ReadableStorageTraits.state s).may_ask key ≡ true }
    requires may_read { (s : S) (key : List ℕ) (place : ℕ)
        → (S.ReadableStorageTraits.state s).may_read key place ≡ true }
{
    must(rt, store.supports_set_partial());
    for row in rows {
        must_answer(rt, alloc, store, row);
    }
}

fn key_of(rt: &impl Abort, alloc: Global, text: &str) -> StoreKey {
    StoreKey::new(alloc, text).expect(rt, "no refusal")
}

/// The store below: values in memory, under a fault and a stop.
type Below = Stop<Fault<MemoryStore>>;

/// How the store below is made, and what the stores over it answer.
struct Case {
    /// How many writing calls the store in memory has counted.
    counted: u64,
    /// The key that is not read.
    refused_key: &'static str,
    /// The writing call that is refused.
    refused_write: Option<u64>,
    /// The writing calls after these are refused.
    passed: u64,
    rows: &'static [Row],
    /// The writing calls and the failures that the stop counts, the fault, and the store in memory.
    counts: [(u64, u64); 3],
}

/// Nothing is refused.
const ACCEPTED: Case = Case {
    counted: 0,
    refused_key: "other",
    refused_write: None,
    passed: u64::MAX,
    rows: &[
        Row::Read("a", Read::Get, Answer::Absent),
        Row::Read("a", Read::GetPartial(3, u64::MAX), Answer::Absent),
        Row::Read("a", Read::Size, Answer::Absent),
        Row::Write("a", Write::Set(&[1, 2, 3, 4]), Answer::Done),
        Row::Read("a", Read::Get, Answer::Value(&[1, 2, 3, 4])),
        Row::Read("a", Read::Size, Answer::Size(4)),
        Row::Read("a", Read::GetPartial(0, 4), Answer::Value(&[1, 2, 3, 4])),
        Row::Read("a", Read::GetPartial(1, 2), Answer::Value(&[2, 3])),
        Row::Read("a", Read::GetPartial(4, 0), Answer::Value(&[])),
        Row::Read("a", Read::GetPartial(0, 5), Answer::Refused(PAST)),
        Row::Read("a", Read::GetPartial(4, 1), Answer::Refused(PAST)),
        Row::Read("a", Read::GetPartial(5, 0), Answer::Refused(PAST)),
        Row::Read("a", Read::GetPartial(u64::MAX, 1), Answer::Refused(PAST)),
        Row::Read("a", Read::GetPartial(1, u64::MAX), Answer::Refused(PAST)),
        Row::Write("a", Write::Set(&[3]), Answer::Done),
        Row::Read("a", Read::Get, Answer::Value(&[3])),
        Row::Write("b", Write::Set(&[]), Answer::Done),
        Row::Read("b", Read::Get, Answer::Value(&[])),
        Row::Write("a", Write::Erase, Answer::Done),
        Row::Read("a", Read::Get, Answer::Absent),
        Row::Write("a", Write::Erase, Answer::Done),
    ],
    counts: [(5, 0), (5, 0), (5, 0)],
};

/// Parts are written into a value that is absent, behind its end, and over its end.
const PARTS: Case = Case {
    counted: 0,
    refused_key: "other",
    refused_write: None,
    passed: u64::MAX,
    rows: &[
        Row::Write("a", Write::SetPartial(2, &[7]), Answer::Done),
        Row::Read("a", Read::Get, Answer::Value(&[0, 0, 7])),
        Row::Write("a", Write::SetPartial(1, &[8]), Answer::Done),
        Row::Read("a", Read::Get, Answer::Value(&[0, 8, 7])),
        Row::Write("a", Write::SetPartial(2, &[5, 6]), Answer::Done),
        Row::Read("a", Read::Get, Answer::Value(&[0, 8, 5, 6])),
        Row::Write("a", Write::SetPartial(6, &[]), Answer::Done),
        Row::Read("a", Read::Get, Answer::Value(&[0, 8, 5, 6, 0, 0])),
        Row::Write(
            "b",
            Write::SetPartial(u64::MAX, &[1]),
            Answer::Refused(PAST),
        ),
        Row::Read("b", Read::Get, Answer::Absent),
    ],
    counts: [(5, 1), (5, 1), (5, 1)],
};

/// Each call is refused, and comes to the store below once.
const REFUSED: Case = Case {
    counted: 0,
    refused_key: "a",
    refused_write: None,
    passed: 0,
    rows: &[
        Row::Read("a", Read::Get, Answer::Refused("fault")),
        Row::Read("a", Read::GetPartial(0, 1), Answer::Refused("fault")),
        Row::Read("a", Read::Size, Answer::Refused("fault")),
        Row::Write("a", Write::Set(&[1]), Answer::Refused("stop")),
        Row::Write("a", Write::SetPartial(0, &[1]), Answer::Refused("stop")),
        Row::Write("a", Write::Erase, Answer::Refused("stop")),
        Row::Read("b", Read::Get, Answer::Absent),
    ],
    counts: [(3, 3), (0, 0), (0, 0)],
};

/// The second writing call is refused, and those after the fourth.
const REFUSED_NOW_AND_THEN: Case = Case {
    counted: 5,
    refused_key: "b",
    refused_write: Some(2),
    passed: 4,
    rows: &[
        Row::Write("a", Write::Set(&[1]), Answer::Done),
        Row::Write("a", Write::Erase, Answer::Refused("fault")),
        Row::Read("a", Read::Get, Answer::Value(&[1])),
        Row::Write("a", Write::SetPartial(1, &[2]), Answer::Done),
        Row::Write("b", Write::Set(&[3]), Answer::Done),
        Row::Read("b", Read::Get, Answer::Refused("fault")),
        Row::Write("a", Write::Erase, Answer::Refused("stop")),
        Row::Read("a", Read::Get, Answer::Value(&[1, 2])),
    ],
    counts: [(5, 2), (4, 1), (8, 0)],
};

/// The first writing call is refused: to put a value, or a part of it.
const FIRST_SET_REFUSED: Case = Case {
    counted: 0,
    refused_key: "other",
    refused_write: Some(1),
    passed: u64::MAX,
    rows: &[
        Row::Write("a", Write::Set(&[1]), Answer::Refused("fault")),
        Row::Read("a", Read::Get, Answer::Absent),
        Row::Write("a", Write::Set(&[1]), Answer::Done),
    ],
    counts: [(2, 1), (2, 1), (1, 0)],
};

const FIRST_PART_REFUSED: Case = Case {
    counted: 0,
    refused_key: "other",
    refused_write: Some(1),
    passed: u64::MAX,
    rows: &[
        Row::Write("a", Write::SetPartial(0, &[1]), Answer::Refused("fault")),
        Row::Read("a", Read::Get, Answer::Absent),
        Row::Write("a", Write::SetPartial(0, &[1]), Answer::Done),
    ],
    counts: [(2, 1), (2, 1), (1, 0)],
};

/// One writing call is left.
const EXHAUSTED: Case = Case {
    counted: u64::MAX - 1,
    refused_key: "other",
    refused_write: None,
    passed: u64::MAX,
    rows: &[
        Row::Write("a", Write::Set(&[7]), Answer::Done),
        Row::Write("a", Write::Set(&[8]), Answer::Refused(NONE_LEFT)),
        Row::Write("a", Write::SetPartial(0, &[8]), Answer::Refused(NONE_LEFT)),
        Row::Write("a", Write::Erase, Answer::Refused(NONE_LEFT)),
        Row::Read("a", Read::Get, Answer::Value(&[7])),
    ],
    counts: [(4, 3), (4, 3), (u64::MAX, 0)],
};

const PAST: &str = "a byte range passes its value";

const NONE_LEFT: &str = "the store has no writing call left";

const CASES: &[Case] = &[
    ACCEPTED,
    PARTS,
    REFUSED,
    REFUSED_NOW_AND_THEN,
    FIRST_SET_REFUSED,
    FIRST_PART_REFUSED,
    EXHAUSTED,
];

fn below(rt: &impl Abort, alloc: Global, case: &Case) -> Below {
    let keys = vec![in alloc; key_of(rt, alloc, case.refused_key)].expect(rt, "no refusal");
    let memory = MemoryStore::with_calls(alloc, case.counted);
    Stop::new(Fault::new(memory, keys, case.refused_write), case.passed)
}

/// The stores below have counted what the case says, each for itself.
fn must_have_counted(rt: &impl Abort, store: Below, case: &Case) {
    must(rt, store.supports_set_partial());
    let stop = (store.calls(), store.failures());
    let store = store.into_inner();
    let fault = (store.calls(), store.failures());
    let store = store.into_inner();
    let memory = (store.calls(), store.failures());
    must_eq(rt, [stop, fault, memory], case.counts);
}

fn must_hold_directly(rt: &impl Abort, alloc: Global, case: &Case) {
    let mut store = below(rt, alloc, case);
    must_hold(rt, alloc, &mut store, case.rows);
    must_have_counted(rt, store, case);
}

fn must_hold_over_a_loan(rt: &impl Abort, alloc: Global, case: &Case) {
    let mut store = below(rt, alloc, case);
    must_hold(rt, alloc, &mut Lent::new(&mut store), case.rows);
    must_have_counted(rt, store, case);
}

/// What writes goes to the store itself.
fn must_read_over_a_loan(rt: &impl Abort, alloc: Global, case: &Case) {
    let mut store = below(rt, alloc, case);
    for row in case.rows {
        match row {
            Row::Read(key, read, answer) => {
                let key = key_of(rt, alloc, key);
                must_read(rt, alloc, &ReadOnly::new(&store), &key, read, answer);
            }
            Row::Write(..) => must_answer(rt, alloc, &mut store, row),
        }
    }
    must_have_counted(rt, store, case);
}

fn must_read_over_a_fence(
    rt: &impl Abort,
    alloc: Global,
    store: &mut Below,
    key: &StoreKey,
    read: &Read,
    answer: &Answer,
) {
    let keys = vec![in alloc; key.clone().expect(rt, "no refusal")].expect(rt, "no refusal");
    must_read(rt, alloc, &Fence::new(store, keys), key, read, answer);
}

/// A fence lets any key be written, though it lets none be read.
fn must_write_over_a_fence(
    rt: &impl Abort,
    alloc: Global,
    store: &mut Below,
    key: &StoreKey,
    write: &Write,
    answer: &Answer,
) {
    let mut fence = Fence::new(store, Vec::new(alloc));
    must(rt, fence.supports_set_partial());
    must_write(rt, alloc, &mut fence, key, write, answer);
}

fn must_answer_over_a_fence(rt: &impl Abort, alloc: Global, store: &mut Below, row: &Row) {
    match row {
        Row::Read(key, read, answer) => {
            must_read_over_a_fence(rt, alloc, store, &key_of(rt, alloc, key), read, answer);
        }
        Row::Write(key, write, answer) => {
            must_write_over_a_fence(rt, alloc, store, &key_of(rt, alloc, key), write, answer);
        }
    }
}

fn must_hold_over_a_fence(rt: &impl Abort, alloc: Global, case: &Case) {
    let mut store = below(rt, alloc, case);
    for row in case.rows {
        must_answer_over_a_fence(rt, alloc, &mut store, row);
    }
    must_have_counted(rt, store, case);
}

fn must_hold_over_a_stop(rt: &impl Abort, alloc: Global, case: &Case) {
    let mut store = Stop::new(below(rt, alloc, case), u64::MAX);
    must_hold(rt, alloc, &mut store, case.rows);
    must_have_counted(rt, store.into_inner(), case);
}

fn must_hold_over_a_fault(rt: &impl Abort, alloc: Global, case: &Case) {
    let mut store = Fault::new(below(rt, alloc, case), Vec::new(alloc), None);
    must_hold(rt, alloc, &mut store, case.rows);
    must_have_counted(rt, store.into_inner(), case);
}

fn must_hold_over_refused_values(rt: &impl Abort, alloc: Global, case: &Case) {
    let mut store = WholeRefused::new(below(rt, alloc, case), Vec::new(alloc));
    must_hold(rt, alloc, &mut store, case.rows);
    must_have_counted(rt, store.into_inner(), case);
}

#[test]
fn each_store_passes_on_what_the_one_below_answers(rt: HostRuntime) {
    for case in CASES {
        must_hold_directly(&rt, rt.alloc(), case);
        must_hold_over_a_loan(&rt, rt.alloc(), case);
        must_read_over_a_loan(&rt, rt.alloc(), case);
        must_hold_over_a_fence(&rt, rt.alloc(), case);
        must_hold_over_a_stop(&rt, rt.alloc(), case);
        must_hold_over_a_fault(&rt, rt.alloc(), case);
        must_hold_over_refused_values(&rt, rt.alloc(), case);
    }
}

#[test]
fn values_that_are_not_read_whole(rt: HostRuntime) {
    const ROWS: &[Row] = &[
        Row::Write("a", Write::Set(&[1, 2]), Answer::Done),
        Row::Write("b", Write::SetPartial(0, &[1]), Answer::Done),
        Row::Read("a", Read::Get, Answer::Refused("get")),
        Row::Read("a", Read::GetPartial(1, 1), Answer::Value(&[2])),
        Row::Read("a", Read::Size, Answer::Size(2)),
        Row::Read("b", Read::Get, Answer::Value(&[1])),
        Row::Write("a", Write::Erase, Answer::Done),
        Row::Read("a", Read::Get, Answer::Refused("get")),
    ];
    let alloc = rt.alloc();
    let keys = vec![in alloc; key_of(&rt, alloc, "a")].expect(&rt, "no refusal");
    let mut store = WholeRefused::new(MemoryStore::new(alloc), keys);
    must_hold(&rt, alloc, &mut store, ROWS);
    let store = store.into_inner();
    must_eq(&rt, (store.calls(), store.failures()), (3, 0));
}

/// Tests what a store lends at the key.
fn must_lend<S: ReadableStorageTraits>(
    rt: &impl Abort,
    store: &S,
    key: &StoreKey,
    wanted: Option<&[u8]>,
)
    requires { (S.state store.now).may_ask key.now ≡ true }
{
    must(rt, store.lend_value(key) == wanted);
}

#[test]
fn values_that_are_lent(rt: HostRuntime) {
    let alloc = rt.alloc();
    let (present, absent) = (key_of(&rt, alloc, "a"), key_of(&rt, alloc, "b"));
    let mut store = MemoryStore::new(alloc);
    store
        .set(alloc, &present, Bytes::from_static(&[1, 2]))
        .expect(&rt, "no refusal");
    must_lend(&rt, &store, &present, Some(&[1, 2]));
    must_lend(&rt, &store, &absent, None);
    must_lend(&rt, &ReadOnly::new(&store), &present, Some(&[1, 2]));
    must_lend(&rt, &Lent::new(&mut store), &present, Some(&[1, 2]));
    must_lend(
        &rt,
        &WholeRefused::new(store, Vec::new(alloc)),
        &present,
        None,
    );
}

/// Moves a value, through the bounds alone.
fn rename<S: WritableStorageTraits>(
    store: &mut S,
    alloc: Global,
    from: &StoreKey,
    to: &StoreKey,
) -> Result<(), StorageError>
    requires may_ask { (S.ReadableStorageTraits.state store.old).may_ask from.now ≡ true }
    requires may_read { MayReadWhole (S.ReadableStorageTraits.state store.old) from.now }
{
    if let Some(value) = store.get(alloc, from)? {
        store.set(alloc, to, value)?;
        store.erase(alloc, from)?;
    }
    Ok(())
}

/// Writes through a loan. The caller knows what became of the store.
fn set_lent(
    store: &mut MemoryStore,
    alloc: Global,
    key: &StoreKey,
    value: Bytes,
) -> Result<(), StorageError>
    ensures { OnOk result (store.new.values ≡ map.insert store.old.values key.now value) }
{
    let mut lent = Lent::new(store);
    let outcome = lent.set(alloc, key, value);
    let store = lent.into_inner();
    let _ = store;
    outcome
}

#[test]
fn a_store_behind_its_bound(rt: HostRuntime) {
    let alloc = rt.alloc();
    let mut store = MemoryStore::new(alloc);
    let (old, new) = (key_of(&rt, alloc, "old"), key_of(&rt, alloc, "new"));
    set_lent(&mut store, alloc, &old, Bytes::from_static(&[1, 2])).expect(&rt, "no refusal");
    rename(&mut store, alloc, &old, &new).expect(&rt, "no refusal");
    must_read(
        &rt,
        alloc,
        &store,
        &new,
        &Read::Get,
        &Answer::Value(&[1, 2]),
    );
    must_read(&rt, alloc, &store, &old, &Read::Get, &Answer::Absent);
    must_eq(&rt, (store.calls(), store.failures()), (3, 0));
}

#[test]
fn texts_of_refusals(rt: HostRuntime) {
    let alloc = rt.alloc();
    let said = String::from_str(alloc, "no shape").expect(&rt, "no refusal");
    let invalid = StorageError::InvalidMetadata(key_of(&rt, alloc, "zarr.json"), said);
    const INVALID: &str = "invalid metadata at zarr.json: no shape";
    must_say(&rt, alloc, invalid, INVALID);
    const READ_ONLY: &str = "the store is read only";
    must_say(&rt, alloc, StorageError::ReadOnly, READ_ONLY);
    const MEMORY: &str = "out of memory";
    must_say(&rt, alloc, StorageError::OutOfMemory, MEMORY);
}
