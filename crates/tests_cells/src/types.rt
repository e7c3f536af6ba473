//! Types, their values as bytes, and the texts of refusals.
use crate::checks::{must, must_eq, must_for, must_say};
use crate::data::type_of;
use serde_json::Value;
use std::alloc::{AllocError, Global};
use std::process::Abort;
use zarrs_data_type::{
    ArrayBytesFixedDisjointViewCreateError, DataType, DataTypeFillValueError,
    DataTypeFillValueMetadataError, ElementError, ExpectedFixedLengthBytesError,
    ExpectedOptionalBytesError, ExpectedVariableLengthBytesError, FillValue, inner_fill,
};
use zarrs_data_type_kinds::laws::written_fill_value_is_read;
use zarrs_metadata_parts::FillValueMetadata;

fn must_have_sizes(
    rt: &impl Abort,
    data_type: &DataType,
    element: Option<usize>,
    cell: Option<usize>,
) {
    must_eq(rt, data_type.element_size(), element);
    must_eq(rt, data_type.fixed_size(), cell);
    must_eq(rt, data_type.is_fixed(), cell.is_some());
    must_eq(
        rt,
        data_type.is_variable(),
        element.is_none() && data_type.optional_inner().is_none(),
    );
    must_eq(rt, data_type.cell_size(), cell.unwrap_or(1));
}

/// The size of an element and of a cell, and whether any bytes of that size are a cell.
#[test]
fn types_have_sizes(rt: HostRuntime) {
    const ROWS: &[(&str, Option<usize>, Option<usize>, bool)] = &[
        ("bool", Some(1), Some(1), false),
        ("int16", Some(2), Some(2), true),
        ("uint64", Some(8), Some(8), true),
        ("r24", Some(3), Some(3), true),
        ("uint32?", None, Some(4), true),
        ("string?", None, None, false),
        ("string", None, None, false),
        ("bytes", None, None, true),
    ];
    for (name, element, cell, any) in ROWS {
        let data_type = type_of(&rt, rt.alloc(), name);
        must_have_sizes(&rt, &data_type, *element, *cell);
        must_for(&rt, *name, data_type.takes_any_bytes() == *any);
        must(
            &rt,
            data_type.try_clone(rt.alloc()).expect(&rt, "no refusal") == data_type,
        );
    }
}

/// Whether the bytes are an element of the type, and whether they are a fill value of it.
#[test]
fn bytes_are_values_of_a_type(rt: HostRuntime) {
    const ROWS: &[(&str, &[u8], bool, bool)] = &[
        ("bool", &[1], true, true),
        ("bool", &[2], false, false),
        ("bool", &[], false, false),
        ("int32", &[1, 2, 3, 4], true, true),
        ("int32", &[1, 2, 3], false, false),
        ("r24", &[1, 2, 3], true, true),
        ("r24", &[1, 2, 3, 4], false, false),
        ("string", &[0xC3, 0xA4], true, true),
        ("string", &[0xC3], false, false),
        ("bytes", &[0xC3], true, true),
    ];
    for (name, bytes, element, fill) in ROWS {
        let data_type = type_of(&rt, rt.alloc(), name);
        must_for(&rt, *name, data_type.is_element(bytes) == *element);
        must_for(&rt, *name, data_type.is_fill(bytes) == *fill);
    }
    must(&rt, inner_fill(&[7, 1]) == Some([7].as_slice()));
    must(&rt, inner_fill(&[0]).is_none());
}

fn fill_of(rt: &impl Abort, alloc: Global, bytes: &[u8]) -> FillValue {
    FillValue::new(Vec::from_slice(alloc, bytes).expect(rt, "no refusal"))
}

fn must_differ(rt: &impl Abort, alloc: Global, one: &str, other: &str) {
    must_for(
        rt,
        one,
        type_of(rt, alloc, one) != type_of(rt, alloc, other),
    );
}

fn must_be_copied(rt: &impl Abort, alloc: Global, bytes: &[u8], other: &[u8]) {
    let value = fill_of(rt, alloc, bytes);
    must(rt, value == value.try_clone(alloc).expect(rt, "no refusal"));
    must(rt, value != fill_of(rt, alloc, other));
}

#[test]
fn types_and_fill_values_are_compared(rt: HostRuntime) {
    must_differ(&rt, rt.alloc(), "uint32?", "int32?");
    must_differ(&rt, rt.alloc(), "uint32?", "uint32??");
    must_differ(&rt, rt.alloc(), "uint8", "bool");
    must_differ(&rt, rt.alloc(), "r24", "r32");
    must_be_copied(&rt, rt.alloc(), &[7, 1], &[7]);
}

/// The fill value is read from its metadata, or has none.
fn must_be_written(rt: &impl Abort, alloc: Global, name: &str, bytes: &[u8], value: bool) {
    let (data_type, fill_value) = (type_of(rt, alloc, name), fill_of(rt, alloc, bytes));
    match data_type.metadata_fill_value(alloc, &fill_value) {
        Ok(metadata) => {
            let read = data_type.fill_value_v3(alloc, &metadata);
            must_for(rt, name, value && read.is_ok_and(|read| read == fill_value));
        }
        Err(error) => must_for(rt, name, !value && error == DataTypeFillValueError::Invalid),
    }
    if fill_value.is_value_of(&data_type) {
        written_fill_value_is_read(&data_type, &fill_value);
    }
}

#[test]
fn fill_values_are_read_as_they_are_written(rt: HostRuntime) {
    const ROWS: &[(&str, &[u8], bool)] = &[
        ("int8", &[128], true),
        ("string??", &[1, 1, 1], true),
        ("bool", &[2], false),
        ("uint16", &[2], false),
        ("uint8?", &[2], false),
        ("string", &[255], false),
    ];
    for (name, bytes, value) in ROWS {
        must_be_written(&rt, rt.alloc(), name, bytes, *value);
    }
}

/// The metadata is that of a fill value of these bytes in Zarr V2, or of none.
fn must_fill_in_v2(rt: &impl Abort, alloc: Global, name: &str, text: &str, bytes: Option<&[u8]>) {
    let value = Value::from_str(alloc, text).expect(rt, "no refusal");
    let metadata = FillValueMetadata::from_value(value);
    match type_of(rt, alloc, name).fill_value_v2(alloc, &metadata) {
        Ok(fill_value) => must_for(rt, text, bytes == Some(fill_value.as_bytes())),
        Err(error) => {
            must_for(
                rt,
                text,
                bytes.is_none() && error == DataTypeFillValueMetadataError::Invalid,
            );
        }
    }
}

/// Types that Zarr V2 has no name for, and numbers that no document has.
#[test]
fn fill_values_that_no_document_of_zarr_v2_has(rt: HostRuntime) {
    const ROWS: &[(&str, &str, Option<&[u8]>)] = &[
        ("r16", "[1,255]", Some(&[1, 255])),
        ("r16", "null", None),
        ("bytes", "[0,255]", Some(&[0, 255])),
        ("bytes", "null", None),
        ("bool?", "null", Some(&[0])),
        ("bool?", "[true]", Some(&[1, 1])),
        ("bool?", "[1]", None),
        ("uint8??", "[[7]]", Some(&[7, 1, 1])),
        ("int32", "1.5", None),
        ("int64", "-9223372036854775809", None),
        ("uint64", "18446744073709551616", None),
    ];
    for (name, text, bytes) in ROWS {
        must_fill_in_v2(&rt, rt.alloc(), name, text, *bytes);
    }
}

#[test]
fn refusals_say_what_is_wrong(rt: HostRuntime) {
    const MEMORY: &str = "out of memory";
    const METADATA: &str = "the fill value metadata says no value of the data type";
    const FILL: &str = "the fill value is no value of the data type";
    const ELEMENT: &str = "the element type does not match the data type";
    const VIEW: &str = "the view does not lie in its array bytes";
    let alloc = rt.alloc();
    must_say(
        &rt,
        alloc,
        &DataTypeFillValueMetadataError::Invalid,
        METADATA,
    );
    must_say(
        &rt,
        alloc,
        &DataTypeFillValueMetadataError::from(AllocError),
        MEMORY,
    );
    must_say(&rt, alloc, &DataTypeFillValueError::Invalid, FILL);
    must_say(
        &rt,
        alloc,
        &DataTypeFillValueError::from(AllocError),
        MEMORY,
    );
    must_say(&rt, alloc, &ElementError::IncompatibleElementType, ELEMENT);
    must_say(&rt, alloc, &ElementError::from(AllocError), MEMORY);
    must_say(
        &rt,
        alloc,
        &ExpectedFixedLengthBytesError,
        "expected fixed length array bytes",
    );
    must_say(
        &rt,
        alloc,
        &ExpectedVariableLengthBytesError,
        "expected variable length array bytes",
    );
    must_say(
        &rt,
        alloc,
        &ExpectedOptionalBytesError,
        "expected optional array bytes",
    );
    must_say(&rt, alloc, &ArrayBytesFixedDisjointViewCreateError, VIEW);
}
