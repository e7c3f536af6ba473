//! Texts and byte strings as cells.
ghost use Rattle.std.specs.Prelude.{◌≡◌, map, true, Some, None, option_map, string_bytes};
ghost use Rattle.std.specs.Prelude.{if◌then◌else◌, IfErr, IfOk, OnOk};
ghost use Rattle.std.specs.List.{list_all};
ghost use Rattle.std.specs.Str.{is_utf8};
ghost use Rattle.zarrs_data_type_bytes.specs.ArrayData.{data_of};
ghost use Rattle.zarrs_data_type_bytes.specs.Cells.{cells};
ghost use Rattle.zarrs_data_type_elements.specs.Elements.{RefusesElement};
ghost use Rattle.zarrs_data_type_kinds.specs.Cell.{bytes};
ghost use Rattle.zarrs_data_type_kinds.specs.Kind.{kind};
ghost use Rattle.zarrs_data_type_kinds.specs.Kind as type;
ghost use Rattle.zarrs_data_type_kinds.specs.Same.{kind_eq};

use super::{Element, ElementOwned};
use crate::error::{ElementError, check_served};
use std::alloc::{AllocError, Global};
use std::convert::{AsSlice, AsStr};
use zarrs_data_type_bytes::{ArrayBytes, ArrayBytesVariableLength, VariableLengthBuilder};
use zarrs_data_type_kinds::DataType;

/// Data whose cells are these texts.
fn text_data<'a, S: AsStr>(
    alloc: Global,
    data_type: &DataType,
    texts: &[S],
) -> Result<ArrayBytes<'a>, ElementError>
    ensures cells { IfOk result (λ made. cells (kind data_type.now) (data_of made)
        ≡ Some (map (λ text. bytes (S.text text)) texts.now)) }
    ensures served { OnOk result (kind_eq (kind data_type.now) type.string ≡ true) }
    ensures refused { IfErr result (RefusesElement (kind_eq (kind data_type.now) type.string)) }
{
    check_served(<String as Element>::serves(data_type))?;
    let mut strings = VariableLengthBuilder::with_capacity(alloc, texts.len(), 0)?;
    for text in texts {
        strings.push(text.as_str().as_bytes())?;
    }
    Ok(ArrayBytes::Variable(strings.finish()))
}

/// Data whose cells are these byte strings.
fn bytes_data<'a, S: AsSlice<u8>>(
    alloc: Global,
    data_type: &DataType,
    lists: &[S],
) -> Result<ArrayBytes<'a>, ElementError>
    ensures cells { IfOk result (λ made. cells (kind data_type.now) (data_of made)
        ≡ Some (map (λ list. bytes (S.items list)) lists.now)) }
    ensures served { OnOk result (kind_eq (kind data_type.now) type.bytes ≡ true) }
    ensures refused { IfErr result (RefusesElement (kind_eq (kind data_type.now) type.bytes)) }
{
    check_served(<Vec<u8> as Element>::serves(data_type))?;
    let mut strings = VariableLengthBuilder::with_capacity(alloc, lists.len(), 0)?;
    for list in lists {
        strings.push(list.as_slice())?;
    }
    Ok(ArrayBytes::Variable(strings.finish()))
}

/// The texts, if each byte string is one.
fn texts_of(
    alloc: Global,
    strings: &ArrayBytesVariableLength<'_>,
) -> Result<Option<Vec<String>>, AllocError>
    ensures { IfOk result (λ texts. option_map (λ v. map string_bytes v.items) texts
        ≡ (if list_all (λ s. is_utf8 s) strings.now then Some strings.now else None)) }
{
    let mut texts = Vec::with_capacity(alloc, strings.len())?;
    for index in 0..strings.len() {
        let Ok(text) = str::from_utf8(strings.get(index)) else {
            return Ok(None);
        };
        texts.push(String::from_str(alloc, text)?)?;
    }
    Ok(Some(texts))
}

/// The byte strings, each in a list of its own.
fn lists_of(
    alloc: Global,
    strings: &ArrayBytesVariableLength<'_>,
) -> Result<Vec<Vec<u8>>, AllocError>
    ensures { IfOk result (λ lists. map (λ b. b.items) lists.items ≡ strings.now) }
{
    let mut lists = Vec::with_capacity(alloc, strings.len())?;
    for index in 0..strings.len() {
        lists.push(Vec::from_slice(alloc, strings.get(index))?)?;
    }
    Ok(lists)
}

impl Element for String {
    ghost cell = { λ text. bytes (string_bytes text) };

    ghost serves = { λ k. kind_eq k type.string };

    fn serves(data_type: &DataType) -> bool {
        *data_type == DataType::String
    }

    fn to_array_bytes<'a>(
        alloc: Global,
        data_type: &DataType,
        elements: &'a [String],
    ) -> Result<ArrayBytes<'a>, ElementError> {
        text_data(alloc, data_type, elements)
    }

    fn lent_to_array_bytes(
        alloc: Global,
        data_type: &DataType,
        elements: &[&String],
    ) -> Result<ArrayBytes<'static>, ElementError> {
        text_data(alloc, data_type, elements)
    }
}

impl ElementOwned for String {
    fn from_array_bytes(
        alloc: Global,
        data_type: &DataType,
        array_bytes: ArrayBytes<'_>,
    ) -> Result<Vec<String>, ElementError> {
        check_served(<String as Element>::serves(data_type))?;
        let ArrayBytes::Variable(strings) = array_bytes else {
            return Err(ElementError::IncompatibleElementType);
        };
        match texts_of(alloc, &strings)? {
            Some(texts) => Ok(texts),
            None => Err(ElementError::IncompatibleElementType),
        }
    }
}

impl Element for &str {
    ghost cell = { λ text. bytes text.now };

    ghost serves = { λ k. kind_eq k type.string };

    fn serves(data_type: &DataType) -> bool
        ensures { result ≡ kind_eq (kind data_type.now) type.string }
    {
        *data_type == DataType::String
    }

    fn to_array_bytes<'a>(
        alloc: Global,
        data_type: &DataType,
        elements: &'a [&str],
    ) -> Result<ArrayBytes<'a>, ElementError> {
        text_data(alloc, data_type, elements)
    }

    fn lent_to_array_bytes(
        alloc: Global,
        data_type: &DataType,
        elements: &[&&str],
    ) -> Result<ArrayBytes<'static>, ElementError> {
        text_data(alloc, data_type, elements)
    }
}

impl Element for Vec<u8> {
    ghost cell = { λ list. bytes list.items };

    ghost serves = { λ k. kind_eq k type.bytes };

    fn serves(data_type: &DataType) -> bool {
        *data_type == DataType::Bytes
    }

    fn to_array_bytes<'a>(
        alloc: Global,
        data_type: &DataType,
        elements: &'a [Vec<u8>],
    ) -> Result<ArrayBytes<'a>, ElementError> {
        bytes_data(alloc, data_type, elements)
    }

    fn lent_to_array_bytes(
        alloc: Global,
        data_type: &DataType,
        elements: &[&Vec<u8>],
    ) -> Result<ArrayBytes<'static>, ElementError> {
        bytes_data(alloc, data_type, elements)
    }
}

impl ElementOwned for Vec<u8> {
    fn from_array_bytes(
        alloc: Global,
        data_type: &DataType,
        array_bytes: ArrayBytes<'_>,
    ) -> Result<Vec<Vec<u8>>, ElementError> {
        check_served(<Vec<u8> as Element>::serves(data_type))?;
        let ArrayBytes::Variable(strings) = array_bytes else {
            return Err(ElementError::IncompatibleElementType);
        };
        Ok(lists_of(alloc, &strings)?)
    }
}
