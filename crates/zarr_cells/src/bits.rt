//! The bits that words say.
ghost use Rattle.std.specs.Prelude.{◌≡◌, ◌≤◌, ◌<◌, ◌^◌, ◌==◌, length, slice_index, string_bytes, take};
ghost use Rattle.std.specs.Prelude.{MatchOption, IfOk, OnOk, Some, None};
ghost use Rattle.std.specs.Int.{w64, from_le_bytes};
ghost use Rattle.zarr_cells.specs.Numbers.{bits_in, bool_in, cell_in, cell_of, is_below_zero, negative_in};
ghost use Rattle.zarr_cells.specs.Numbers.{number_in, signed_in, widened, WritesBits};

use crate::error::CellsError;
use crate::floats::{float_bits, write_float};
use crate::form::Form;
use itoa::Buffer;
use std::alloc::Global;
use std::io::{self, ErrorKind, Write};

/// Returns the number below 2^64 that the digits say.
pub(crate) fn number(word: &[u8]) -> Option<u64>
    ensures { result ≡ number_in word.now }
{
    if begins_with_plus(word) {
        return None;
    }
    fast_float::parse_u64(word).ok()
}

fn begins_with_plus(word: &[u8]) -> bool
    ensures { result ≡ (slice_index word.now 0 == 43) }
{
    match word.first() {
        Some(byte) => *byte == b'+',
        None => false,
    }
}

/// Returns the bits by two's complement of the number that the digits say after a minus.
fn negative(digits: &[u8]) -> Option<u64>
    ensures { result ≡ negative_in digits.now }
{
    let size = number(digits)?;
    if size <= 1 << 63 {
        Some(size.wrapping_neg())
    } else {
        None
    }
}

/// Returns the bits by two's complement of the number that the word says.
fn signed(word: &[u8]) -> Option<u64>
    ensures { result ≡ signed_in word.now }
{
    match word.split_first() {
        Some((b'-', digits)) => negative(digits),
        _ => {
            let number = number(word)?;
            if number < 1 << 63 { Some(number) } else { None }
        }
    }
}

/// Returns the bits of `false` and `true`.
fn bool_bits(word: &[u8]) -> Option<u64>
    ensures { result ≡ bool_in word.now }
{
    if word == b"false".as_slice() {
        Some(0)
    } else if word == b"true".as_slice() {
        Some(1)
    } else {
        None
    }
}

/// Returns the bits that the word says.
pub(crate) fn word_bits(form: Form, word: &[u8]) -> Option<u64>
    ensures { result ≡ bits_in form word.now }
{
    match form {
        Form::Bool => bool_bits(word),
        Form::Unsigned => number(word),
        Form::Signed => signed(word),
        Form::Float(width) => float_bits(width, word),
    }
}

/// Returns whether the cell is a number below 0.
fn is_negative(form: Form, cell: &[u8]) -> bool
    ensures { result ≡ is_below_zero form cell.now }
{
    match form {
        Form::Signed => match cell.last() {
            Some(byte) => *byte > 127,
            None => false,
        },
        _ => false,
    }
}

/// Returns the eight bytes that say the same as the cell.
pub(crate) fn widened(form: Form, cell: &[u8]) -> [u8; 8]
    requires { length cell.now ≤ 8 }
    ensures { result ≡ widened form cell.now }
{
    let mut whole = if is_negative(form, cell) {
        [0xff; 8]
    } else {
        [0; 8]
    };
    whole[..cell.len()].copy_from_slice(cell);
    whole
}

/// Returns the bits that the cell says.
pub(crate) fn cell_bits(form: Form, cell: &[u8]) -> u64
    requires { length cell.now ≤ 8 }
    ensures { result ≡ from_le_bytes w64 (widened form cell.now) }
{
    u64::from_le_bytes(widened(form, cell))
}

/// Returns eight bytes, of which the first ones are the cell with these bits, if there is such a cell.
fn cell_with(form: Form, size: usize, bits: u64) -> Option<[u8; 8]>
    ensures { MatchOption result (cell_of form size bits ≡ None)
        (λ whole. (size ≤ 8) × (cell_of form size bits ≡ Some (take size whole))) }
{
    let whole = bits.to_le_bytes();
    let kept = whole.get(..size)?;
    if widened(form, kept) == whole {
        Some(whole)
    } else {
        None
    }
}

/// Returns eight bytes, of which the first ones are the cell that the word says, if it says one.
pub(crate) fn word_cell(form: Form, size: usize, word: &[u8]) -> Option<[u8; 8]>
    ensures { MatchOption result (cell_in form size word.now ≡ None)
        (λ whole. (size ≤ 8) × (cell_in form size word.now ≡ Some (take size whole))) }
{
    let bits = word_bits(form, word)?;
    cell_with(form, size, bits)
}

/// Writes the digits of the number.
#[tactic(auto, using(crate::proofs::WordLemmas::decimal_says))]
fn write_number<W: Write>(out: &mut W, number: u64) -> io::Result<()>
    ensures { OnOk result
        (WritesBits Form.Unsigned number (W.contents out.old) (W.contents out.new)) }
{
    out.write_all(Buffer::new().format(number).as_bytes())
}

/// Writes the digits of a number of 63 bits.
#[tactic(auto, using(crate::proofs::WordLemmas::positive_says))]
fn write_positive<W: Write>(out: &mut W, number: u64) -> io::Result<()>
    requires { number < 2 ^ 63 }
    ensures { OnOk result
        (WritesBits Form.Signed number (W.contents out.old) (W.contents out.new)) }
{
    out.write_all(Buffer::new().format(number).as_bytes())
}

/// Writes a minus, and the digits of the number below 0 that these bits say by two's complement.
fn write_negative<W: Write>(out: &mut W, bits: u64) -> io::Result<()>
    requires { 2 ^ 63 ≤ bits }
    ensures { OnOk result
        (WritesBits Form.Signed bits (W.contents out.old) (W.contents out.new)) }
{
    let size = u64::MAX - bits + 1;
    out.write_all(b"-".as_slice())?;
    out.write_all(Buffer::new().format(size).as_bytes())
}

/// Writes the number that these bits say by two's complement.
fn write_signed<W: Write>(out: &mut W, bits: u64) -> io::Result<()>
    ensures { OnOk result
        (WritesBits Form.Signed bits (W.contents out.old) (W.contents out.new)) }
{
    if bits < 1 << 63 {
        write_positive(out, bits)
    } else {
        write_negative(out, bits)
    }
}

/// Writes `false` or `true`.
fn write_bool<W: Write>(out: &mut W, bits: u64) -> io::Result<()>
    ensures { OnOk result
        (WritesBits Form.Bool bits (W.contents out.old) (W.contents out.new)) }
{
    match bits {
        0 => out.write_all(b"false".as_slice()),
        1 => out.write_all(b"true".as_slice()),
        _ => Err(io::Error::from(ErrorKind::InvalidData)),
    }
}

/// Writes a word that says these bits.
///
/// # Errors
/// `InvalidData` if none does; what the writer says.
pub(crate) fn write_bits<W: Write>(out: &mut W, form: Form, bits: u64) -> io::Result<()>
    ensures { OnOk result (WritesBits form bits (W.contents out.old) (W.contents out.new)) }
{
    match form {
        Form::Bool => write_bool(out, bits),
        Form::Unsigned => write_number(out, bits),
        Form::Signed => write_signed(out, bits),
        Form::Float(width) => write_float(out, width, bits),
    }
}

/// Returns the word of a cell.
///
/// # Errors
/// No word says the cell, as one of more than 8 bytes; out of memory.
pub fn cell_text(alloc: Global, form: Form, cell: &[u8]) -> Result<String, CellsError>
    ensures { IfOk result
        (λ text. cell_in form (length cell.now) (string_bytes text) ≡ Some cell.now) }
{
    if cell.len() > 8 {
        return Err(CellsError::said(alloc, "a cell has more than 8 bytes"));
    }
    let mut text = Vec::new(alloc);
    write_bits(&mut text, form, cell_bits(form, cell))?;
    match String::from_utf8(text) {
        Ok(text) => Ok(text),
        Err(_) => Err(CellsError::said(alloc, "a cell is no text")),
    }
}
