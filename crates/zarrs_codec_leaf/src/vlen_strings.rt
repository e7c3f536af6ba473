//! The codecs `vlen-utf8` and `vlen-bytes`.
ghost use Rattle.std.specs.Prelude.{◌≡◌, ◌++◌, Ok, true, IfOk, option_map};
ghost use Rattle.zarrs_data_type.specs.Kind.{kind};
ghost use Rattle.zarrs_codec_leaf.specs.VlenStrings.{behind_length, counted_strings, first_string};
ghost use Rattle.zarrs_codec_leaf.specs.VlenStrings.{is_bytes, is_short, is_string, strings_of, uncounted};
ghost use Rattle.zarrs_codec_leaf.specs.VlenStringsLaws.{bytes-variable, string-variable};
ghost use Rattle.zarrs_codec_leaf.specs.VlenStringsLaws.{vlen_bytes-lawful, vlen_utf8-lawful};

use crate::strings::StringsCodec;
use std::alloc::{AllocError, Global};
use zarrs_data_type::{ArrayBytesVariableLength, DataType, VariableLengthBuilder};

/// Texts: their number in 4 bytes, little endian, and each text after its length, in 4 bytes too.
#[derive(Clone, Copy, Debug, Default, Drop, PartialEq, Eq)]
pub struct VlenUtf8Codec;

/// Byte strings: their number in 4 bytes, little endian, and each byte string after its
/// length, in 4 bytes too.
#[derive(Clone, Copy, Debug, Default, Drop, PartialEq, Eq)]
pub struct VlenBytesCodec;

impl StringsCodec for VlenUtf8Codec {
    ghost taken = { is_string };

    ghost written = { counted_strings };

    ghost read = { uncounted };

    ghost variable = { string-variable };

    ghost lawful = { vlen_utf8-lawful };

    fn takes_type(data_type: &DataType) -> bool {
        matches!(data_type, DataType::String)
    }

    fn write(
        alloc: Global,
        strings: &ArrayBytesVariableLength<'_>,
    ) -> Result<Option<Vec<u8>>, AllocError> {
        counted_strings(alloc, strings)
    }

    fn read(
        alloc: Global,
        encoded: &[u8],
        count: u64,
    ) -> Result<Option<ArrayBytesVariableLength<'static>>, AllocError> {
        uncounted(alloc, encoded, count)
    }
}

impl StringsCodec for VlenBytesCodec {
    ghost taken = { is_bytes };

    ghost written = { counted_strings };

    ghost read = { uncounted };

    ghost variable = { bytes-variable };

    ghost lawful = { vlen_bytes-lawful };

    fn takes_type(data_type: &DataType) -> bool {
        matches!(data_type, DataType::Bytes)
    }

    fn write(
        alloc: Global,
        strings: &ArrayBytesVariableLength<'_>,
    ) -> Result<Option<Vec<u8>>, AllocError> {
        counted_strings(alloc, strings)
    }

    fn read(
        alloc: Global,
        encoded: &[u8],
        count: u64,
    ) -> Result<Option<ArrayBytesVariableLength<'static>>, AllocError> {
        uncounted(alloc, encoded, count)
    }
}

/// The bytes of byte strings, or `None` if their number or a length does not fit 4 bytes.
fn counted_strings(
    alloc: Global,
    strings: &ArrayBytesVariableLength<'_>,
) -> Result<Option<Vec<u8>>, AllocError>
    ensures { IfOk result (λ made.
        option_map (λ encoded. encoded.items) made ≡ counted_strings strings.now) }
{
    let count = strings.len();
    if count > u32::MAX as usize {
        return Ok(None);
    }
    let room = strings
        .bytes()
        .len()
        .saturating_add(count.saturating_mul(4));
    let mut encoded = Vec::with_capacity(alloc, room.saturating_add(4))?;
    encoded.extend_from_slice(&(count as u32).to_le_bytes())?;
    for index in 0..count {
        let pushed = push_string(&mut encoded, strings.get(index))?;
        if !pushed {
            return Ok(None);
        }
    }
    Ok(Some(encoded))
}

/// Appends the length of a byte string and then the byte string; returns `false` if the length does not fit 4 bytes.
fn push_string(encoded: &mut Vec<u8>, string: &[u8]) -> Result<bool, AllocError>
    ensures fits { IfOk result (λ pushed. pushed ≡ is_short string.now) }
    ensures pushed { result ≡ Ok true
        → encoded.new.items ≡ encoded.old.items ++ behind_length string.now }
{
    if string.len() > u32::MAX as usize {
        return Ok(false);
    }
    encoded.extend_from_slice(&(string.len() as u32).to_le_bytes())?;
    encoded.extend_from_slice(string)?;
    Ok(true)
}

/// The `count` byte strings of the bytes, after their number.
fn uncounted(
    alloc: Global,
    encoded: &[u8],
    count: u64,
) -> Result<Option<ArrayBytesVariableLength<'static>>, AllocError>
    ensures { IfOk result (λ strings. strings ≡ uncounted count encoded.now) }
{
    let Some((head, strings)) = encoded.split_first_chunk::<4>() else {
        return Ok(None);
    };
    if u32::from_le_bytes(*head) as u64 != count {
        return Ok(None);
    }
    strings_of(alloc, strings, count)
}

/// The `count` byte strings of the bytes, if nothing follows them.
fn strings_of(
    alloc: Global,
    bytes: &[u8],
    count: u64,
) -> Result<Option<ArrayBytesVariableLength<'static>>, AllocError>
    ensures { IfOk result (λ strings. strings ≡ strings_of count bytes.now) }
{
    let room = (bytes.len() / 4).min(count as usize);
    let mut builder = VariableLengthBuilder::with_capacity(alloc, room, bytes.len() - 4 * room)?;
    let mut rest = bytes;
    for index in 0..count {
        let Some((string, left)) = first_string(rest) else {
            return Ok(None);
        };
        builder.push(string)?;
        rest = left;
    }
    if !rest.is_empty() {
        return Ok(None);
    }
    Ok(Some(builder.finish()))
}

/// The byte string at the front, and what follows it.
fn first_string(bytes: &[u8]) -> Option<(&[u8], &[u8])>
    ensures { option_map (λ parts. (parts.0.now, parts.1.now)) result ≡ first_string bytes.now }
{
    let (head, rest) = bytes.split_first_chunk::<4>()?;
    let len = u32::from_le_bytes(*head) as usize;
    if len > rest.len() {
        return None;
    }
    Some(rest.split_at(len))
}
