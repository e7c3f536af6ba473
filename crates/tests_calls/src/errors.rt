//! Errors that no call returns: their texts, and what they become in a layer above.
use crate::checks::{must_eq, must_print};
use std::alloc::Global;
use std::process::Abort;
use zarrs_codec::{CodecError, Misfit};
use zarrs_data_type::ElementError;
use zarrs_engine::ArrayError;
use zarrs_storage::StorageError;

/// The error is this one, as `{:?}` prints it.
fn must_be(rt: &impl Abort, alloc: Global, error: ArrayError, text: &str) {
    must_print(rt, alloc, &error, text);
    drop(error);
}

fn must_say(rt: &impl Abort, alloc: Global, error: ArrayError, text: &str) {
    let said = error.to_string(alloc).expect(rt, "no refusal");
    must_eq(rt, said.as_str(), text);
    drop(error);
}

#[test]
fn errors_keep_their_meaning_and_say_what_was_refused(rt: HostRuntime) {
    let alloc = rt.alloc();
    must_be(&rt, alloc, StorageError::OutOfMemory.into(), "OutOfMemory");
    must_be(&rt, alloc, CodecError::SizeOverflow.into(), "SizeOverflow");
    must_be(
        &rt,
        alloc,
        CodecError::DoesNotFit(Misfit::Bytes).into(),
        "CodecError(DoesNotFit(Bytes))",
    );
    must_be(
        &rt,
        alloc,
        ElementError::IncompatibleElementType.into(),
        "ElementError(IncompatibleElementType)",
    );
    must_say(&rt, alloc, ArrayError::OutOfMemory, "out of memory");
    must_say(
        &rt,
        alloc,
        CodecError::DoesNotFit(Misfit::Bytes).into(),
        "the bytes do not decode",
    );
    must_say(
        &rt,
        alloc,
        StorageError::ReadOnly.into(),
        "the store is read only",
    );
}
