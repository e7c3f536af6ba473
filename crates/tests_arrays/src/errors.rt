//! The texts of refusals that no call returns.
use crate::checks::must_eq;
use crate::made::{list_of, text_of};
use std::alloc::Global;
use std::process::Abort;
use zarrs::ArrayError;

fn must_print(rt: &impl Abort, alloc: Global, error: ArrayError, text: &str) {
    let printed = format!(in alloc; "{error}").expect(rt, "no refusal");
    must_eq(rt, printed.as_str(), text);
}

#[test]
fn refusals_that_no_call_returns_are_printed(rt: HostRuntime) {
    let alloc = rt.alloc();
    let size = ArrayError::UnexpectedChunkDecodedSize(3, 4);
    must_print(&rt, alloc, size, "got chunk decoded size 3, expected 4");
    let size = ArrayError::InvalidBytesInputSize(5, 6);
    must_print(&rt, alloc, size, "got bytes with size 5, expected 6");
    let (got, expected) = (
        list_of(&rt, alloc, &[2u64, 3]),
        list_of(&rt, alloc, &[2u64, 4]),
    );
    let decoded = ArrayError::UnexpectedChunkDecodedShape(got, expected);
    must_print(
        &rt,
        alloc,
        decoded,
        "got chunk decoded shape [2, 3], expected [2, 4]",
    );
    let method = ArrayError::UnsupportedMethod(text_of(&rt, alloc, "retrieve"));
    must_print(&rt, alloc, method, "unsupported array method: retrieve");
    let other = ArrayError::Other(text_of(&rt, alloc, "another reason"));
    must_print(&rt, alloc, other, "another reason");
}
