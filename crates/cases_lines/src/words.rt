//! Words of a case file: numbers, lists, boxes, bytes and keys, read and shown.
use crate::why::Why;
use hex::FromHexError;
use serde_json::Value;
use std::alloc::{AllocError, Global};
use std::fmt::Display;
use std::ops::Range;
use zarrs_storage::{StorageError, StoreKey};
use zarrs_subset::ArraySubset;

/// A number below 2^64.
pub fn number<'a>(word: &'a str) -> Result<u64, Why<'a>> {
    match word.parse::<u64>() {
        Ok(number) => Ok(number),
        Err(_) => Err(Why::Number(word)),
    }
}

/// Numbers joined by `,`, or none, for `-`.
pub fn numbers<'a>(alloc: Global, word: &'a str) -> Result<Vec<u64>, Why<'a>> {
    let mut found = Vec::new(alloc);
    if word == "-" {
        return Ok(found);
    }
    for part in word.split(',') {
        found.push(number(part)?)?;
    }
    Ok(found)
}

/// A range, as `3..6`.
fn range<'a>(word: &'a str) -> Result<Range<u64>, Why<'a>> {
    let Some((start, end)) = word.split_once("..") else {
        return Err(Why::Region(word));
    };
    let start = number(start)?;
    let end = number(end)?;
    Ok(start..end)
}

/// Ranges joined by `,`, or none, for `-`.
pub(crate) fn ranges<'a>(alloc: Global, word: &'a str) -> Result<Vec<Range<u64>>, Why<'a>> {
    let mut found = Vec::new(alloc);
    if word == "-" {
        return Ok(found);
    }
    for part in word.split(',') {
        found.push(range(part)?)?;
    }
    Ok(found)
}

/// The box of ranges joined by `,`. A reversed range has extent 0.
pub fn region<'a>(alloc: Global, word: &'a str) -> Result<ArraySubset, Why<'a>> {
    let ranges = ranges(alloc, word)?;
    let region = ArraySubset::new_with_ranges(alloc, &ranges)?;
    Ok(region)
}

/// The digits of a group of the word's bytes, and how often they stand there, as 7 times in `00*7`.
pub(crate) fn count_of<'a>(word: &'a str, group: &'a str) -> Result<(&'a str, u64), Why<'a>> {
    let (digits, count) = match group.split_once("*") {
        Some((digits, count)) => (digits, number(count)?),
        None => (group, 1),
    };
    if digits.is_empty() {
        return Err(Why::Bytes(word));
    }
    Ok((digits, count))
}

/// The bytes of hexadecimal digits.
pub(crate) fn decoded<'a>(alloc: Global, digits: &'a str) -> Result<Vec<u8>, Why<'a>> {
    match hex::decode(alloc, digits) {
        Ok(bytes) => Ok(bytes),
        Err(FromHexError::OutOfMemory) => Err(Why::OutOfMemory),
        Err(_) => Err(Why::Bytes(digits)),
    }
}

/// Bytes in hexadecimal, in groups joined by `,`, or none, for `-`; or those of the text of a JSON object.
pub fn bytes<'a>(alloc: Global, word: &'a str) -> Result<Vec<u8>, Why<'a>> {
    let mut found = Vec::new(alloc);
    if word == "-" {
        return Ok(found);
    }
    if word.starts_with('{') {
        found.extend_from_slice(word.as_bytes())?;
        return Ok(found);
    }
    for group in word.split(',') {
        let (digits, count) = count_of(word, group)?;
        let part = decoded(alloc, digits)?;
        for _ in 0..count {
            found.extend_from_slice(&part)?;
        }
    }
    Ok(found)
}

/// A key of a store.
pub fn key<'a>(alloc: Global, word: &'a str) -> Result<StoreKey, Why<'a>> {
    match StoreKey::new(alloc, word) {
        Ok(key) => Ok(key),
        Err(StorageError::OutOfMemory) => Err(Why::OutOfMemory),
        Err(_) => Err(Why::Key(word)),
    }
}

/// A JSON value.
pub fn json<'a>(alloc: Global, word: &'a str) -> Result<Value, Why<'a>> {
    match Value::from_str(alloc, word) {
        Ok(value) => Ok(value),
        Err(error) if error.is_memory() => Err(Why::OutOfMemory),
        Err(_) => Err(Why::Json(word)),
    }
}

/// The items with this text between them, or `none` if there is no item.
pub fn joined<T: Display>(
    alloc: Global,
    items: &[T],
    between: &str,
    none: &str,
) -> Result<String, AllocError> {
    let mut shown = String::new(alloc);
    for item in items {
        if !shown.is_empty() {
            shown.push_str(between)?;
        }
        write!(&mut shown, "{item}")?;
    }
    if shown.is_empty() {
        shown.push_str(none)?;
    }
    Ok(shown)
}

/// The ranges of the box joined by `,`, or `-`.
pub fn shown_region(alloc: Global, region: &ArraySubset) -> Result<String, AllocError> {
    let mut shown = String::new(alloc);
    for (start, extent) in region.start().iter().zip(region.shape()) {
        if !shown.is_empty() {
            shown.push_str(",")?;
        }
        let end = start.saturating_add(*extent);
        write!(&mut shown, "{start}..{end}")?;
    }
    if shown.is_empty() {
        shown.push_str("-")?;
    }
    Ok(shown)
}

/// The bytes in hexadecimal, or `-`.
pub fn shown_bytes(alloc: Global, bytes: &[u8]) -> Result<String, AllocError> {
    if bytes.is_empty() {
        return String::from_str(alloc, "-");
    }
    hex::encode(alloc, bytes)
}
