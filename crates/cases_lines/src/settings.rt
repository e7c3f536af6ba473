//! Lines that say what the next call meets.
use crate::call::{Part, Places, Setting, Step};
use crate::why::Why;
use crate::words::{bytes, key, number, ranges};
use std::alloc::Global;
use std::ops::Range;
use zarrs_storage::StoreKey;

/// What a line without an answer says.
pub(crate) fn setting_of<'a>(alloc: Global, line: &'a str) -> Result<Setting, Why<'a>> {
    let Some((name, words)) = line.split_once(" ") else {
        return match line {
            "aside" => Ok(Setting::Aside),
            _ => Err(Why::NoAnswer(line)),
        };
    };
    match name {
        "set" => value_set(alloc, words),
        "gone" => key(alloc, words).map(|key| Setting::Set(key, None)),
        "refusing" => keys(alloc, words).map(Setting::Refusing),
        "refusing-whole" => keys(alloc, words).map(Setting::RefusingWhole),
        "refusing-write" => number(words).map(Setting::RefusingWrite),
        "stopping" => number(words).map(Setting::Stopping),
        "allowing" if words == "none" => Ok(Setting::Allowing(Vec::new(alloc))),
        "allowing" => keys(alloc, words).map(Setting::Allowing),
        "allowing-places" => places_allowed(alloc, words),
        "calls" => number(words).map(Setting::Calls),
        _ => Err(Why::NoAnswer(name)),
    }
}

/// KEY BYTES.
fn value_set<'a>(alloc: Global, words: &'a str) -> Result<Setting, Why<'a>> {
    let Some((name, value)) = words.split_once(" ") else {
        return Err(Why::Bytes(""));
    };
    let key = key(alloc, name)?;
    Ok(Setting::Set(key, Some(bytes(alloc, value)?)))
}

/// KEY RANGES.
fn places_allowed<'a>(alloc: Global, words: &'a str) -> Result<Setting, Why<'a>> {
    let Some((name, word)) = words.split_once(" ") else {
        return Err(Why::Places(words));
    };
    let key = key(alloc, name)?;
    let ranges = ranges(alloc, word)?;
    if !is_ascending(&ranges) {
        return Err(Why::Places(word));
    }
    Ok(Setting::AllowingPlaces(Places { key, ranges }))
}

/// Whether no range ends before it starts, or starts before the one in front of it ends.
fn is_ascending(ranges: &[Range<u64>]) -> bool {
    let mut end = 0u64;
    for range in ranges {
        if range.start < end || range.end < range.start {
            return false;
        }
        end = range.end;
    }
    true
}

/// Keys with a space between them.
fn keys<'a>(alloc: Global, words: &'a str) -> Result<Vec<StoreKey>, Why<'a>> {
    let mut found = Vec::new(alloc);
    for name in words.split(' ') {
        found.push(key(alloc, name)?)?;
    }
    Ok(found)
}

/// PART WORD.
pub(crate) fn part_of<'a>(alloc: Global, words: &'a str) -> Result<Step<'a>, Why<'a>> {
    let Some((name, word)) = words.split_once(" ") else {
        return Err(Why::Part(words));
    };
    let part = match name {
        "chunk_key_encoding" => Part::ChunkKeyEncoding,
        "codecs" => Part::Codecs,
        "attributes" => Part::Attributes,
        "additional_fields" => Part::AdditionalFields,
        "dimension_names" => Part::DimensionNames,
        "fill_value" => {
            let bytes = bytes(alloc, word)?;
            return Ok(Step::Setting(Setting::WithFillValue(bytes)));
        }
        _ => return Err(Why::Part(name)),
    };
    Ok(Step::With(part, word))
}
