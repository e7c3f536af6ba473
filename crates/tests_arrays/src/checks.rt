//! What tests say of what they find. An assertion in the body of a test takes several steps of its proof, each beside all
//! that the test owns. A call of these takes one.
use std::fmt::Debug;
use std::process::Abort;
use zarrs::{ArrayCreateError, ArrayError, DimensionName};

/// Ends the test, except if this holds.
pub(crate) fn must(rt: &impl Abort, holds: bool) {
    assert!(rt; holds);
}

/// Ends the test and prints the case, except if this holds of it.
pub(crate) fn must_for<C: Copy + Debug>(rt: &impl Abort, case: C, holds: bool) {
    assert!(rt; holds, "{case:?}");
}

/// Ends the test and prints both values, except if they are equal.
pub(crate) fn must_eq<T: Copy + PartialEq + Debug>(rt: &impl Abort, found: T, wanted: T) {
    assert_eq!(rt; found, wanted);
}

/// Ends the test if the call was refused.
pub(crate) fn must_be_done(rt: &impl Abort, outcome: Result<(), ArrayError>) {
    outcome.expect(rt, "no refusal");
}

/// Ends the test, except if these bytes were read.
pub(crate) fn must_be_bytes(rt: &impl Abort, read: Result<Vec<u8>, ArrayError>, bytes: &[u8]) {
    let held = read.expect(rt, "no refusal");
    must(rt, held.as_slice() == bytes);
}

/// Ends the test, except if the array was refused for want of memory.
pub(crate) fn must_want_memory(rt: &impl Abort, error: ArrayCreateError) {
    must(rt, matches!(error, ArrayCreateError::OutOfMemory));
    drop(error);
}

/// Whether the dimensions have the names `y` and `x`.
pub(crate) fn are_y_and_x(names: Option<&[DimensionName]>) -> bool {
    match names {
        Some([Some(first), Some(second)]) => first.as_str() == "y" && second.as_str() == "x",
        _ => false,
    }
}
