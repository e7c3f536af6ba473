//! The bits of floats that words say.
ghost use Rattle.std.specs.Prelude.{◌≡◌, ◌<◌, ◌^◌, ◌++◌, ◌∷◌, [], MatchOption, IfOk, OnOk, Some, None};
ghost use Rattle.std.specs.Bool.{MatchBool};
ghost use Rattle.std.specs.Io.KnownBytes.{Appends};
ghost use Rattle.zarr_cells.specs.Numbers.{finite_in, hex_in, name_in, unquoted, float_in, WritesBits};

use crate::form::{Form, Width};
use ryu::Buffer;
use serde_json::Value;
use std::io::{self, ErrorKind, Write};
use std::num::{
    f32_from_bits_with_nan, f32_to_bits_with_nan, f64_from_bits_with_nan, f64_to_bits_with_nan,
    nearest_f64_to_f32_with_nan,
};

/// Returns the bits of the float that the number is nearest to, unless that is no finite one.
fn finite_bits(width: Width, word: &[u8]) -> Option<u64>
    ensures { result ≡ finite_in width word.now }
{
    match width {
        Width::Four => {
            let number: f32 = fast_float::parse(word).ok()?;
            if number.is_finite() {
                Some(u64::from(f32_to_bits_with_nan(number)))
            } else {
                None
            }
        }
        Width::Eight => {
            let number: f64 = fast_float::parse(word).ok()?;
            if number.is_finite() {
                Some(f64_to_bits_with_nan(number))
            } else {
                None
            }
        }
    }
}

/// Returns the bits that hexadecimal digits say after `0x`, as many as the float needs.
fn hex_bits(width: Width, name: &[u8]) -> Option<u64>
    ensures { result ≡ hex_in width name.now }
{
    let digits = name.strip_prefix(b"0x")?;
    match width {
        Width::Four => {
            let mut bytes = [0u8; 4];
            hex::decode_to_slice(digits, &mut bytes).ok()?;
            Some(u64::from(u32::from_be_bytes(bytes)))
        }
        Width::Eight => {
            let mut bytes = [0u8; 8];
            hex::decode_to_slice(digits, &mut bytes).ok()?;
            Some(u64::from_be_bytes(bytes))
        }
    }
}

/// Returns the bits that a name says: `NaN`, `Infinity`, `-Infinity`, or hexadecimal digits after `0x`.
fn name_bits(width: Width, name: &[u8]) -> Option<u64>
    ensures { result ≡ name_in width name.now }
{
    if name == b"NaN".as_slice() {
        return Some(width.nan());
    }
    if name == b"Infinity".as_slice() {
        return Some(width.infinity());
    }
    if name == b"-Infinity".as_slice() {
        return Some(width.negative_infinity());
    }
    hex_bits(width, name)
}

/// Returns what stands between the quotes that the word begins and ends with.
fn unquoted(word: &[u8]) -> Option<&[u8]>
    ensures { MatchOption result (unquoted word.now ≡ None) (λ name. unquoted word.now ≡ Some name.now) }
{
    match word {
        [b'"', name @ .., b'"'] => Some(name),
        _ => None,
    }
}

/// Returns the bits of the float that the word says.
pub(crate) fn float_bits(width: Width, word: &[u8]) -> Option<u64>
    ensures { result ≡ float_in width word.now }
{
    match unquoted(word) {
        Some(name) => name_bits(width, name),
        None => finite_bits(width, word),
    }
}

/// Returns the bits of the float that the number is nearest to, unless that is no finite one.
fn number_bits(width: Width, number: f64) -> Option<u64> {
    match width {
        Width::Four => {
            let number = nearest_f64_to_f32_with_nan(number);
            if number.is_finite() {
                Some(u64::from(f32_to_bits_with_nan(number)))
            } else {
                None
            }
        }
        Width::Eight => Some(f64_to_bits_with_nan(number)),
    }
}

/// Returns the bits of the float that a fill value says: a number, or a name.
pub(crate) fn value_bits(width: Width, value: &Value) -> Option<u64> {
    match value.as_str() {
        Some(name) => name_bits(width, name.as_bytes()),
        None => number_bits(width, value.as_f64()?),
    }
}

/// Writes bits as hexadecimal digits after `0x`, between quotes.
fn write_digits<W: Write>(out: &mut W, digits: &[u8]) -> io::Result<()>
    ensures { OnOk result (Appends (W.contents out.old) (W.contents out.new)
        (34 ∷ 48 ∷ 120 ∷ (digits.now ++ 34 ∷ []))) }
{
    out.write_all(b"\"0x".as_slice())?;
    out.write_all(digits)?;
    out.write_all(b"\"".as_slice())
}

/// Writes the bits of a float of four bytes.
fn write_four_bits<W: Write>(out: &mut W, bits: u32) -> io::Result<()>
    ensures { OnOk result (WritesBits (Form.Float Width.Four) bits (W.contents out.old) (W.contents out.new)) }
{
    let mut digits = [0u8; 8];
    let _ = hex::encode_to_slice(bits.to_be_bytes().as_slice(), &mut digits);
    write_digits(out, digits.as_slice())
}

/// Writes the bits of a float of eight bytes.
fn write_eight_bits<W: Write>(out: &mut W, bits: u64) -> io::Result<()>
    ensures { OnOk result (WritesBits (Form.Float Width.Eight) bits (W.contents out.old) (W.contents out.new)) }
{
    let mut digits = [0u8; 16];
    let _ = hex::encode_to_slice(bits.to_be_bytes().as_slice(), &mut digits);
    write_digits(out, digits.as_slice())
}

/// Writes the name of a float that has one: `"NaN"`, `"Infinity"` or `"-Infinity"`. Returns whether it has.
fn write_name<W: Write>(out: &mut W, width: Width, bits: u64) -> io::Result<bool>
    ensures { IfOk result (λ has. MatchBool has
        (WritesBits (Form.Float width) bits (W.contents out.old) (W.contents out.new))
        (out.new ≡ out.old)) }
{
    if bits == width.nan() {
        out.write_all(b"\"NaN\"".as_slice())?;
        return Ok(true);
    }
    if bits == width.infinity() {
        out.write_all(b"\"Infinity\"".as_slice())?;
        return Ok(true);
    }
    if bits == width.negative_infinity() {
        out.write_all(b"\"-Infinity\"".as_slice())?;
        return Ok(true);
    }
    Ok(false)
}

/// Writes the shortest text that reads back as the same float, its name, or its bits.
fn write_four<W: Write>(out: &mut W, bits: u32) -> io::Result<()>
    ensures { OnOk result (WritesBits (Form.Float Width.Four) bits (W.contents out.old) (W.contents out.new)) }
{
    let number = f32_from_bits_with_nan(bits);
    if number.is_finite() {
        return out.write_all(Buffer::new().format_finite(number).as_bytes());
    }
    if write_name(out, Width::Four, u64::from(bits))? {
        return Ok(());
    }
    write_four_bits(out, bits)
}

/// Writes the shortest text that reads back as the same float, its name, or its bits.
fn write_eight<W: Write>(out: &mut W, bits: u64) -> io::Result<()>
    ensures { OnOk result (WritesBits (Form.Float Width.Eight) bits (W.contents out.old) (W.contents out.new)) }
{
    let number = f64_from_bits_with_nan(bits);
    if number.is_finite() {
        return out.write_all(Buffer::new().format_finite(number).as_bytes());
    }
    if write_name(out, Width::Eight, bits)? {
        return Ok(());
    }
    write_eight_bits(out, bits)
}

/// Writes a word that says these bits of a float.
///
/// # Errors
/// `InvalidData` if there are too many bits; what the writer says.
pub(crate) fn write_float<W: Write>(out: &mut W, width: Width, bits: u64) -> io::Result<()>
    ensures { OnOk result (WritesBits (Form.Float width) bits (W.contents out.old) (W.contents out.new)) }
{
    match width {
        Width::Four => match u32::try_from(bits) {
            Ok(bits) => write_four(out, bits),
            Err(_) => Err(io::Error::from(ErrorKind::InvalidData)),
        },
        Width::Eight => write_eight(out, bits),
    }
}
