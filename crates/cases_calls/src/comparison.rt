//! The comparison of two arrays.
use crate::CaseArray;
use cases_answers::{Answer, answered};
use cases_lines::Why;
use cases_lines::call::CallLine;
use std::alloc::Global;
use zarrs::{Array, MemoryStore, ReadOnly};

/// An array that was set aside, and its store.
#[derive(Drop)]
pub struct Other {
    pub array: Array<()>,
    pub store: MemoryStore,
}

/// Compares chunks with those of the array that was set aside.
pub(crate) fn chunks_equal<'a>(
    alloc: Global,
    array: &CaseArray<'_>,
    other: Option<&Other>,
    call: &CallLine<'a>,
) -> Result<Answer, Why<'a>> {
    let Some(other) = other else {
        return Err(Why::NoOther);
    };
    let Ok(other) = other.array.with_storage(alloc, ReadOnly::new(&other.store)) else {
        return Err(Why::OutOfMemory);
    };
    let answer = compared(alloc, array, &other, call);
    drop(other);
    answer
}

/// Whether the chunks of both arrays are the same, for a range with an index for each dimension of both.
fn compared<'a>(
    alloc: Global,
    array: &CaseArray<'_>,
    other: &Array<ReadOnly<'_, MemoryStore>>,
    call: &CallLine<'a>,
) -> Result<Answer, Why<'a>> {
    let chunks = &call.region;
    let dimensions = chunks.dimensionality();
    if dimensions != array.dimensionality() || dimensions != other.dimensionality() {
        return Err(Why::Dimensions(call.written));
    }
    answered(alloc, &array.chunks_equal(alloc, other, chunks))
}
