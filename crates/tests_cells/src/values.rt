//! Values of the language that become cells, shapes, names and fill values, and are read from cells.
ghost use Rattle.std.specs.Prelude.{◌≡◌, ◌%◌, length};

use crate::checks::{must, must_eq, must_for};
use crate::data::{Cells, data_of, type_of};
use std::alloc::Global;
use std::process::Abort;
use zarrs_data_type::{
    ArrayBytes, DataType, Element, ElementError, ElementOwned, FillValue, FromArrayBytes,
    IntoArrayBytes, IntoField, convert_from_bytes_slice, convert_to_bytes_vec,
    transmute_from_bytes_vec, transmute_to_bytes, transmute_to_bytes_vec,
};

fn must_hold(rt: &impl Abort, found: &[u8], bytes: &[u8]) {
    must_eq(rt, found, bytes);
}

fn must_be_numbers(rt: &impl Abort, found: &[i16], numbers: &[i16]) {
    must_eq(rt, found, numbers);
}

fn must_convert(rt: &impl Abort, alloc: Global, bytes: &[u8], numbers: &[i16])
    requires { length bytes.now % 2 ≡ 0 }
{
    let read = convert_from_bytes_slice::<i16>(alloc, bytes).expect(rt, "no refusal");
    must_be_numbers(rt, &read, numbers);
    let given = Vec::from_slice(alloc, bytes).expect(rt, "no refusal");
    let read = transmute_from_bytes_vec::<i16>(alloc, given).expect(rt, "no refusal");
    must_be_numbers(rt, &read, numbers);
    must_hold(
        rt,
        &convert_to_bytes_vec(alloc, numbers).expect(rt, "no refusal"),
        bytes,
    );
    must_hold(
        rt,
        &transmute_to_bytes(alloc, numbers).expect(rt, "no refusal"),
        bytes,
    );
    must_hold(
        rt,
        &transmute_to_bytes_vec(alloc, read).expect(rt, "no refusal"),
        bytes,
    );
}

#[test]
fn numbers_are_little_endian_bytes(rt: HostRuntime) {
    must_convert(&rt, rt.alloc(), &[0xFE, 0xFF, 2, 1], &[-2, 258]);
}

/// The values are what is read from the data that they become.
fn must_return<T: ElementOwned + PartialEq>(
    rt: &impl Abort,
    alloc: Global,
    data_type: &DataType,
    elements: &[T],
) {
    let made = T::to_array_bytes(alloc, data_type, elements).expect(rt, "no refusal");
    let read = <Vec<T> as FromArrayBytes>::from_array_bytes(
        alloc,
        made.into_owned(alloc).expect(rt, "no refusal"),
        &[elements.len() as u64],
        data_type,
    );
    must(rt, read.is_ok_and(|read| read.as_slice() == elements));
}

fn must_not_become<T: Element>(rt: &impl Abort, alloc: Global, name: &str, elements: &[T]) {
    let made = T::to_array_bytes(alloc, &type_of(rt, alloc, name), elements);
    must_for(
        rt,
        name,
        made.is_err_and(|error| error == ElementError::IncompatibleElementType),
    );
}

#[test]
fn optional_values_nest(rt: HostRuntime) {
    let alloc = rt.alloc();
    let nested = [Some(Some(5u8)), None, Some(None), Some(Some(6))];
    must_return(&rt, alloc, &type_of(&rt, alloc, "uint8??"), &nested);
    must_return::<Option<u16>>(&rt, alloc, &type_of(&rt, alloc, "uint16?"), &[]);
    must_not_become(&rt, alloc, "uint8", &[Some(5u8)]);
    must_not_become(&rt, alloc, "uint8?", &[Some(5u16)]);
    must_not_become(&rt, alloc, "uint8?", &[Some(Some(5u8))]);
    must_not_become(&rt, alloc, "uint8?", &[5u8]);
    must_not_become(&rt, alloc, "r8", &[true]);
}

/// The data is read as no values of this type of the language.
fn must_not_be_read<T: ElementOwned>(rt: &impl Abort, alloc: Global, name: &str, cells: &Cells) {
    let data = data_of(rt, alloc, cells);
    let read = <T as ElementOwned>::from_array_bytes(alloc, &type_of(rt, alloc, name), data);
    must_for(
        rt,
        name,
        read.is_err_and(|error| error == ElementError::IncompatibleElementType),
    );
}

/// No array gives such data: it is of another kind than its type's, or no cells of it.
#[test]
fn data_of_another_kind_is_not_read(rt: HostRuntime) {
    let alloc = rt.alloc();
    const FIXED: &Cells = &Cells::Numbers(&[0, 2, 1]);
    const TEXT: &Cells = &Cells::Strings(b"a", &[0, 1]);
    const CUT: &Cells = &Cells::Strings(&[0xC3, 0xA4], &[0, 1, 2]);
    must_not_be_read::<bool>(&rt, alloc, "bool", FIXED);
    must_not_be_read::<bool>(&rt, alloc, "bool", TEXT);
    must_not_be_read::<u8>(&rt, alloc, "uint8", TEXT);
    must_not_be_read::<u16>(&rt, alloc, "uint16", FIXED);
    must_not_be_read::<String>(&rt, alloc, "string", FIXED);
    must_not_be_read::<String>(&rt, alloc, "string", CUT);
    must_not_be_read::<Vec<u8>>(&rt, alloc, "bytes", FIXED);
    must_not_be_read::<Option<u8>>(&rt, alloc, "uint8?", FIXED);
    must_not_be_read::<Option<u8>>(&rt, alloc, "uint8", FIXED);
}

fn must_have_bytes(rt: &impl Abort, data: &ArrayBytes<'_>, bytes: &[u8]) {
    match data {
        ArrayBytes::Fixed(held) => must_eq(rt, held.as_slice(), bytes),
        ArrayBytes::Variable(held) => must_eq(rt, held.bytes(), bytes),
        ArrayBytes::Optional(_) => must_for(rt, bytes, false),
    }
}

/// The list becomes two cells of the type, of these bytes.
fn must_become<'a, L: IntoArrayBytes<'a>>(
    rt: &impl Abort,
    alloc: Global,
    list: L,
    data_type: &DataType,
    bytes: &[u8],
) {
    let made = list
        .into_array_bytes(alloc, data_type)
        .expect(rt, "no refusal");
    must(rt, made.validate(data_type, 2));
    must_have_bytes(rt, &made, bytes);
}

#[test]
fn lists_become_array_bytes(rt: HostRuntime) {
    const PAIR: &[u8] = &[2, 1, 1, 0];
    const NUMBERS: [u16; 2] = [258, 1];
    let alloc = rt.alloc();
    must_become(&rt, alloc, NUMBERS, &DataType::UInt16, PAIR);
    must_become(&rt, alloc, &NUMBERS, &DataType::UInt16, PAIR);
    must_become(&rt, alloc, NUMBERS.as_slice(), &DataType::UInt16, PAIR);
    must_become(&rt, alloc, ["ab", ""], &DataType::String, b"ab");
    must_become(&rt, alloc, [true, false], &DataType::Bool, &[1, 0]);
    must_not_become(&rt, alloc, "bytes", &["ab"]);
}

/// A list of bytes that is lent is lent on as data, and one that is given becomes the data.
#[test]
fn lists_of_bytes_become_array_bytes(rt: HostRuntime) {
    const BYTES: [u8; 2] = [7, 7];
    let alloc = rt.alloc();
    must_become(&rt, alloc, BYTES, &DataType::UInt8, &BYTES);
    must_become(&rt, alloc, &BYTES, &DataType::UInt8, &BYTES);
    must_become(&rt, alloc, BYTES.as_slice(), &DataType::UInt8, &BYTES);
    let given = vec![in alloc; 7u8; 2].expect(&rt, "no refusal");
    must_become(&rt, alloc, given, &DataType::UInt8, &BYTES);
    must_return(&rt, alloc, &DataType::UInt8, &BYTES);
    must_not_become(&rt, alloc, "int8", &BYTES);
    must_not_become(&rt, alloc, "bool", &BYTES);
}

fn must_be_texts(rt: &impl Abort, made: &ArrayBytes<'_>, count: u64) {
    must(rt, made.validate(&DataType::String, count));
}

/// Texts are put one behind another, in time that grows with their number alone.
#[test]
fn a_million_texts_become_cells(rt: HostRuntime) {
    let texts = vec![in rt.alloc(); "ab"; 1_000_000].expect(&rt, "no refusal");
    let made = <&str>::to_array_bytes(rt.alloc(), &DataType::String, &texts);
    must_be_texts(&rt, &made.expect(&rt, "no refusal"), 1_000_000);
}

fn must_fill<V: IntoField<FillValue>>(rt: &impl Abort, alloc: Global, value: V, bytes: &[u8]) {
    let fill_value = value.into_field(alloc).expect(rt, "no refusal");
    must_hold(rt, fill_value.as_bytes(), bytes);
}

fn must_be_shape<S: IntoField<Vec<u64>>>(rt: &impl Abort, alloc: Global, shape: S) {
    let made = shape.into_field(alloc).expect(rt, "no refusal");
    must(rt, made.as_slice() == [3, 4].as_slice());
}

fn must_be_name<N: IntoField<Option<String>>>(
    rt: &impl Abort,
    alloc: Global,
    name: N,
    expected: Option<&str>,
) {
    let made = name.into_field(alloc).expect(rt, "no refusal");
    must(rt, made.as_deref() == expected);
}

#[test]
fn values_become_fields_of_an_array(rt: HostRuntime) {
    const EXTENTS: [u64; 2] = [3, 4];
    let alloc = rt.alloc();
    must_fill(&rt, alloc, true, &[1]);
    must_fill(&rt, alloc, 7u8, &[7]);
    must_fill(&rt, alloc, 258u16, &[2, 1]);
    must_fill(&rt, alloc, 1u32, &[1, 0, 0, 0]);
    must_fill(&rt, alloc, 1u64, &[1, 0, 0, 0, 0, 0, 0, 0]);
    must_fill(&rt, alloc, -1i8, &[255]);
    must_fill(&rt, alloc, -2i16, &[0xFE, 0xFF]);
    must_fill(&rt, alloc, -1i32, &[255; 4]);
    must_fill(&rt, alloc, -1i64, &[255; 8]);
    must_be_shape(&rt, alloc, EXTENTS);
    must_be_shape(&rt, alloc, &EXTENTS);
    must_be_shape(&rt, alloc, EXTENTS.as_slice());
    must_be_name(&rt, alloc, "x", Some("x"));
    must_be_name(&rt, alloc, Some("x"), Some("x"));
    must_be_name(&rt, alloc, None::<&str>, None);
    let name = String::from_str(alloc, "x").expect(&rt, "no refusal");
    must_be_name(&rt, alloc, name, Some("x"));
}
