//! What tests say of what they find. An assertion in the body of a test takes several steps of its proof, each beside all
//! that the test owns. A call of these takes one.
ghost use Rattle.std.specs.Prelude.{IsTrue};

use std::alloc::Global;
use std::fmt::{Debug, Display};
use std::process::Abort;

/// Ends the test, except if this holds.
pub(crate) fn must(rt: &impl Abort, holds: bool)
    ensures { IsTrue holds }
{
    assert!(rt; holds);
}

/// Ends the test and prints the case, except if this holds of it.
pub(crate) fn must_for<C: Copy + Debug>(rt: &impl Abort, case: C, holds: bool) {
    assert!(rt; holds, "{case:?}");
}

/// Ends the test and prints both values, except if they are equal.
pub(crate) fn must_eq<T: Copy + PartialEq + Debug>(rt: &impl Abort, found: T, wanted: T) {
    assert_eq!(rt; found, wanted);
}

/// Ends the test and prints both texts, except if the value is shown so.
pub(crate) fn must_say<T: Display>(rt: &impl Abort, alloc: Global, value: &T, text: &str) {
    let said = format!(in alloc; "{value}").expect(rt, "no refusal");
    must_eq(rt, said.as_str(), text);
}
