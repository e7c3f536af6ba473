//! JSON texts in ASCII.
ghost use Rattle.std.specs.Prelude.{◌≡◌, ◌++◌, IfOk, OnOk};
ghost use Rattle.std.specs.Str.{IsAscii, IsUtf8};
ghost use Rattle.zarr_cells.specs.Ascii.{ascii_text, escaped, unit_text};

use std::alloc::{AllocError, Global};
use std::str;

/// Adds a unit of UTF-16, as `\u` and four hexadecimal digits.
fn push_unit(made: &mut Vec<u8>, unit: u16) -> Result<(), AllocError>
    ensures { OnOk result (made.new.items ≡ made.old.items ++ unit_text unit) }
{
    let mut digits = [0u8; 4];
    let _ = hex::encode_to_slice(unit.to_be_bytes().as_slice(), &mut digits);
    made.extend_from_slice(b"\\u")?;
    made.extend_from_slice(&digits)?;
    Ok(())
}

/// Adds a character of a JSON text, outside of ASCII as its units of UTF-16.
fn push_escaped(made: &mut Vec<u8>, character: char) -> Result<(), AllocError>
    ensures { OnOk result (made.new.items ≡ made.old.items ++ escaped character) }
{
    let code = character as u32;
    if code < 0x80 {
        made.push(code as u8)?;
        return Ok(());
    }
    if code < 0x1_0000 {
        return push_unit(made, code as u16);
    }
    let over = code - 0x1_0000;
    push_unit(made, (0xd800 + over / 0x400) as u16)?;
    push_unit(made, (0xdc00 + over % 0x400) as u16)
}

/// Returns the JSON text with each character outside of ASCII escaped.
fn escaped_text(alloc: Global, text: &str) -> Result<Vec<u8>, AllocError>
    ensures written { IfOk result (λ made. made.items ≡ ascii_text text.now) }
    ensures ascii { IfOk result (λ made. IsAscii made.items) }
    ensures same { IfOk result (λ made. IsAscii text.now → made.items ≡ text.now) }
{
    let mut made = Vec::new(alloc);
    for character in text.chars() {
        push_escaped(&mut made, character)?;
    }
    Ok(made)
}

/// Returns the JSON text with each character outside of ASCII as `\uXXXX` (RFC 8259, section 7), above U+FFFF as a pair of
/// them. In a JSON text such characters stand in strings alone, so it is the text of the same value. What is no UTF-8 is
/// returned unchanged.
///
/// # Errors
/// `AllocError`: out of memory.
pub fn ascii_json(alloc: Global, text: &[u8]) -> Result<Vec<u8>, AllocError>
    ensures written { IfOk result (λ made. IsUtf8 text.now → made.items ≡ ascii_text text.now) }
    ensures ascii { IfOk result (λ made. IsUtf8 text.now → IsAscii made.items) }
    ensures same { IfOk result (λ made. IsAscii text.now → made.items ≡ text.now) }
    ensures other { IfOk result (λ made. ¬ (IsUtf8 text.now) → made.items ≡ text.now) }
{
    match str::from_utf8(text) {
        Ok(text) => escaped_text(alloc, text),
        Err(_) => Vec::from_slice(alloc, text),
    }
}
