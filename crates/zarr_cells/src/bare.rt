//! Documents with bare `NaN`, `Infinity` and `-Infinity`, as other programs write them.
ghost use Rattle.std.specs.Prelude.{◌≡◌, ◌<◌, ◌+◌, length, IfSome};

use crate::error::CellsError;
use serde_json::{Category, Value};
use std::alloc::{AllocError, Global};

/// Where a byte of a JSON text stands.
#[derive(Clone, Copy)]
enum Place {
    Outside,
    /// In a string.
    Inside,
    /// In a string, behind a backslash.
    Escaped,
}

/// A document, in which bare words became texts.
#[derive(Drop)]
pub(crate) struct Document {
    pub value: Value,
    /// Whether there were bare words.
    pub has_bare: bool,
}

impl Place {
    /// Returns where the byte behind this one stands.
    fn after(self, byte: u8) -> Place {
        match self {
            Place::Escaped => Place::Inside,
            Place::Inside => match byte {
                b'\\' => Place::Escaped,
                b'"' => Place::Outside,
                _ => Place::Inside,
            },
            Place::Outside => match byte {
                b'"' => Place::Inside,
                _ => Place::Outside,
            },
        }
    }

    /// Returns the bare word that the text begins with, in quotes, and the text behind it.
    fn bare_word(self, text: &[u8]) -> Option<(&'static str, &[u8])>
        ensures { IfSome result (λ found. length found.1.now < length text.now) }
    {
        match self {
            Place::Outside => match text {
                [b'N', b'a', b'N', rest @ ..] => Some(("\"NaN\"", rest)),
                [b'-', rest @ ..] => Some(("\"-Infinity\"", behind_infinity(rest)?)),
                _ => Some(("\"Infinity\"", behind_infinity(text)?)),
            },
            _ => None,
        }
    }
}

/// Returns the text behind the word `Infinity` that it begins with.
fn behind_infinity(text: &[u8]) -> Option<&[u8]>
    ensures { IfSome result (λ rest. length rest.now + 8 ≡ length text.now) }
{
    text.strip_prefix(b"Infinity")
}

/// Returns whether what stands before this text is the name of a member.
fn is_behind_name(text: &[u8]) -> bool {
    matches!(text.trim_ascii_start(), [b':', ..])
}

/// Returns the JSON text with quotes round each bare word that is a value.
fn with_quotes(alloc: Global, text: &[u8]) -> Result<Vec<u8>, AllocError> {
    let mut made = Vec::new(alloc);
    let mut place = Place::Outside;
    let mut rest = text;
    while let [byte, others @ ..] = rest {
        match place.bare_word(rest) {
            Some((word, behind)) if !is_behind_name(behind) => {
                made.extend_from_slice(word.as_bytes())?;
                rest = behind;
            }
            _ => {
                made.push(*byte)?;
                place = place.after(*byte);
                rest = others;
            }
        }
    }
    Ok(made)
}

/// Returns the JSON value that the bytes are, `None` for no JSON.
fn value_of(alloc: Global, bytes: &[u8]) -> Result<Option<Value>, AllocError> {
    match Value::from_slice(alloc, bytes) {
        Ok(value) => Ok(Some(value)),
        Err(error) => match error.classify() {
            Category::Memory => Err(AllocError),
            _ => Ok(None),
        },
    }
}

/// Reads a document, in which bare words stand for floats. Returns `None` if it is no JSON also with quotes round them.
///
/// # Errors
/// Out of memory.
pub(crate) fn read_document(alloc: Global, bytes: &[u8]) -> Result<Option<Document>, CellsError> {
    if let Some(value) = value_of(alloc, bytes)? {
        let has_bare = false;
        return Ok(Some(Document { value, has_bare }));
    }
    let quoted = with_quotes(alloc, bytes)?;
    match value_of(alloc, &quoted)? {
        Some(value) => {
            let has_bare = true;
            Ok(Some(Document { value, has_bare }))
        }
        None => Ok(None),
    }
}
