//! Texts of cells, as JSON lists, one a line.
use crate::error::CellsError;
use serde_json::Value;
use std::alloc::Global;
use std::io::{BufRead, Write};
use std::str;
use zarrs_data_type::{ArrayBytesVariableLength, VariableLengthBuilder};

/// Writes a text as JSON.
fn write_text<W: Write>(alloc: Global, out: &mut W, text: &[u8]) -> Result<(), CellsError> {
    let Ok(text) = str::from_utf8(text) else {
        return Err(CellsError::said(alloc, "byte strings have no text"));
    };
    let text = Value::try_from_str(alloc, text)?.to_string(alloc)?;
    out.write_all(text.as_bytes())?;
    Ok(())
}

/// Writes texts from the column on, in rows of `width`: a list for each row, on a line of its own. Returns the column
/// after them.
///
/// # Errors
/// A cell is no text; what the writer says; out of memory.
pub fn write_texts<W: Write>(
    alloc: Global,
    out: &mut W,
    texts: &ArrayBytesVariableLength<'_>,
    column: u64,
    width: u64,
) -> Result<u64, CellsError> {
    let mut column = column;
    for index in 0..texts.len() {
        if column == 0 {
            out.write_all(b"[".as_slice())?;
        }
        write_text(alloc, out, texts.get(index))?;
        column = column.saturating_add(1);
        if column >= width {
            out.write_all(b"]\n".as_slice())?;
            column = 0;
        } else {
            out.write_all(b",".as_slice())?;
        }
    }
    Ok(column)
}

/// Reads blanks and a mark up to this byte.
///
/// # Errors
/// Something else stands there; what the reader says; out of memory.
fn read_mark<R: BufRead>(
    alloc: Global,
    input: &mut R,
    token: &mut Vec<u8>,
    mark: &[u8],
) -> Result<(), CellsError> {
    token.clear();
    let Some(last) = mark.last() else {
        return Ok(());
    };
    input.read_until(*last, token)?;
    let mut left = mark;
    for byte in token.iter() {
        match left.split_first() {
            Some((first, others)) if byte == first => left = others,
            _ if byte.is_ascii_whitespace() => {}
            _ => return Err(CellsError::said(alloc, "E5: a line is no list of texts")),
        }
    }
    if left.is_empty() {
        return Ok(());
    }
    Err(CellsError::said(alloc, "the input has fewer cells than the region"))
}

/// Returns whether the text ends in a quote that no backslash stands before.
fn is_closed(token: &[u8]) -> bool {
    let Some((b'"', text)) = token.split_last() else {
        return false;
    };
    text.iter().rev().take_while(|byte| **byte == b'\\').count() % 2 == 0
}

/// Reads what stands after a quote, up to the quote that closes it.
fn read_quoted<R: BufRead>(input: &mut R, token: &mut Vec<u8>) -> Result<(), CellsError> {
    token.clear();
    token.push(b'"')?;
    for _ in 0..u64::MAX {
        if input.read_until(b'"', token)? == 0 || is_closed(token.get(1..).unwrap_or(&[])) {
            break;
        }
    }
    Ok(())
}

/// Adds this many texts from the column on, in rows of `width`, that the input begins with. Returns the column after them.
///
/// # Errors
/// E5 for what is no text; fewer cells; what the reader says; out of memory.
pub fn read_texts<R: BufRead>(
    alloc: Global,
    input: &mut R,
    column: u64,
    width: u64,
    count: u64,
    texts: &mut VariableLengthBuilder,
) -> Result<u64, CellsError> {
    let mut token = Vec::new(alloc);
    let mut column = column;
    for _ in 0..count {
        let opening = if column == 0 { "[\"" } else { "\"" };
        read_mark(alloc, input, &mut token, opening.as_bytes())?;
        read_quoted(input, &mut token)?;
        let value = Value::from_slice(alloc, &token);
        let Some(text) = value.as_ref().ok().and_then(Value::as_str) else {
            return Err(CellsError::said(alloc, "E5: a cell of a line is no text"));
        };
        texts.push(text.as_bytes())?;
        column = column.saturating_add(1);
        if column >= width {
            column = 0;
        }
        let closing = if column == 0 { "]" } else { "," };
        read_mark(alloc, input, &mut token, closing.as_bytes())?;
    }
    Ok(column)
}
