//! Cells in memory: what makes them, and what they are made of.
use crate::checks::{must, must_eq, must_for};
use crate::data::{Cells, box_at, data_of};
use std::alloc::Global;
use std::borrow::CowSlice;
use std::process::Abort;
use zarrs_data_type::{
    ArrayBytes, ArrayBytesOffsets, ArrayBytesOptional, ArrayBytesVariableLength, DataType,
    ExpectedOptionalBytesError, ExpectedVariableLengthBytesError, VariableLengthBuilder,
};
use zarrs_subset::lies_in_box;

fn must_be_offsets(rt: &impl Abort, offsets: &'static [usize], are: bool) {
    let made = ArrayBytesOffsets::new(CowSlice::Borrowed(offsets));
    must_for(rt, offsets, made.is_ok() == are);
}

/// Offsets start at zero and do not fall, up to the end of the bytes; a mask has zeros and ones; and a number of cells
/// whose bytes pass the number types is not that of any data.
#[test]
fn what_makes_no_cells_is_refused(rt: HostRuntime) {
    must_be_offsets(&rt, &[0, 1, 1, 4], true);
    must_be_offsets(&rt, &[0], true);
    must_be_offsets(&rt, &[], false);
    must_be_offsets(&rt, &[1, 2], false);
    must_be_offsets(&rt, &[0, 2, 1], false);
    let late = ArrayBytesOffsets::new(CowSlice::Borrowed(&[0, 9])).expect(&rt, "offsets");
    let refused = ArrayBytesVariableLength::new(CowSlice::Borrowed(b"a"), late);
    must(
        &rt,
        refused.is_err_and(|error| error == ExpectedVariableLengthBytesError),
    );
    let inner = Box::new(rt.alloc(), ArrayBytes::from_flen(&[7])).expect(&rt, "no refusal");
    let refused = ArrayBytesOptional::new(inner, CowSlice::Borrowed(&[2]));
    must(
        &rt,
        refused.is_err_and(|error| error == ExpectedOptionalBytesError),
    );
    must(
        &rt,
        !ArrayBytes::from_flen(&[1, 2, 3, 4]).validate(&DataType::Int64, 0x2000_0000_0000_0001),
    );
}

/// These are the byte strings.
fn must_hold(rt: &impl Abort, strings: &ArrayBytesVariableLength<'_>, expected: &[&[u8]]) {
    must_eq(rt, strings.len(), expected.len());
    must_eq(rt, strings.is_empty(), expected.is_empty());
    for index in 0..strings.len() {
        must(
            rt,
            index < expected.len() && strings.get(index) == expected[index],
        );
    }
}

/// These byte strings are put one behind another.
fn must_join(rt: &impl Abort, alloc: Global, expected: &[&[u8]]) {
    let mut builder = VariableLengthBuilder::new(alloc).expect(rt, "no refusal");
    for string in expected {
        builder.push(string).expect(rt, "no refusal");
    }
    must_hold(rt, &builder.finish(), expected);
}

/// These are the byte strings that the cells are cut into.
fn must_cut(rt: &impl Abort, alloc: Global, cells: &Cells, expected: &[&[u8]]) {
    let held = data_of(rt, alloc, cells)
        .into_variable()
        .expect(rt, "byte strings");
    must_hold(
        rt,
        &held.into_owned(alloc).expect(rt, "no refusal"),
        expected,
    );
}

#[test]
fn byte_strings_lie_between_offsets(rt: HostRuntime) {
    let alloc = rt.alloc();
    must_join(&rt, alloc, &[b"a", b"", b"bcd"]);
    must_join(&rt, alloc, &[]);
    must_cut(
        &rt,
        alloc,
        &Cells::Strings(b"abbccc", &[0, 1, 3, 3, 6]),
        &[b"a", b"bb", b"", b"ccc"],
    );
    must_cut(&rt, alloc, &Cells::Strings(b"", &[0, 0, 0]), &[b"", b""]);
}

#[test]
fn optional_data_lies_under_its_mask(rt: HostRuntime) {
    let inner = Box::new(rt.alloc(), ArrayBytes::from_flen(&[7, 8])).expect(&rt, "no refusal");
    let held = ArrayBytesOptional::new(inner, CowSlice::Borrowed(&[1, 0])).expect(&rt, "a mask");
    let again = ArrayBytes::Optional(held)
        .into_optional()
        .expect(&rt, "optional data");
    must_eq(&rt, again.mask(), [1, 0].as_slice());
    must(&rt, again.data().validate(&DataType::UInt8, 2));
}

/// Where a box starts, and its shape.
type Corner = (&'static [u64], &'static [u64]);

fn must_lie(rt: &impl Abort, alloc: Global, inner: Corner, outer: Corner, lies: bool) {
    let inner = box_at(rt, alloc, inner.0, inner.1);
    let outer = box_at(rt, alloc, outer.0, outer.1);
    must_eq(rt, lies_in_box(&inner, &outer), lies);
}

/// An empty box lies in another up to its end.
#[test]
fn boxes_lie_in_others(rt: HostRuntime) {
    const OUTER: Corner = (&[3, 4], &[2, 3]);
    const ROWS: &[(Corner, Corner, bool)] = &[
        ((&[4, 5], &[1, 2]), OUTER, true),
        (OUTER, OUTER, true),
        ((&[3, 5], &[2, 3]), OUTER, false),
        ((&[2, 4], &[2, 3]), OUTER, false),
        ((&[3], &[2]), OUTER, false),
        ((&[], &[]), (&[], &[]), true),
        ((&[u64::MAX], &[0]), (&[0], &[u64::MAX]), true),
        ((&[4, 5], &[0, 2]), OUTER, true),
        ((&[5, 7], &[0, 0]), OUTER, true),
        ((&[6, 4], &[0, 0]), OUTER, false),
        ((&[2, 4], &[0, 0]), OUTER, false),
    ];
    for (inner, outer, lies) in ROWS {
        must_lie(&rt, rt.alloc(), *inner, *outer, *lies);
    }
}
