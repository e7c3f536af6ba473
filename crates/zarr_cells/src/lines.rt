//! Cells as text: a JSON list for each row, on a line of its own.
ghost use Rattle.std.specs.Prelude.{◌≡◌, ◌==◌, ◌≤◌, ◌<◌, ◌++◌, ℕ, List, length, take, vec_items, if◌then◌else◌};
ghost use Rattle.std.specs.Prelude.{MatchBool, MatchOption, IfOk, OnOk, Some, None};
ghost use Rattle.std.specs.Io.KnownBytes.{Appends};
ghost use Rattle.zarr_cells.specs.Lines.{cell_at, closed, column_after, is_first, is_last, next, opening};
ghost use Rattle.zarr_cells.specs.Lines.{trimmed, unclosed, unopened, word_in, Extends, ReadsCell};
ghost use Rattle.zarr_cells.specs.Lines.{trim_front, PassesBlanks, ReadsCells, ReadsToken};
ghost use Rattle.zarr_cells.specs.Lines.{WritesCell, WritesCells};

use crate::bits::{cell_bits, word_cell, write_bits};
use crate::error::CellsError;
use crate::form::Form;
use std::alloc::Global;
use std::io::{self, BufRead, ErrorKind, Write};
use std::str;

/// Rows of cells.
#[derive(Clone, Copy, Debug)]
pub struct Rows {
    pub form: Form,
    /// How many bytes a cell has.
    pub size: usize,
    /// How many cells a row has.
    pub width: u64,
}

impl Rows {
    /// Returns whether the cell in this column is the last one of its row.
    fn is_last(&self, column: u64) -> bool
        ensures { result ≡ is_last self.now.width column }
    {
        self.width.saturating_sub(column) <= 1
    }

    /// Returns the column of the next cell.
    fn next(&self, column: u64) -> u64
        ensures { result ≡ next self.now.width column }
    {
        if self.is_last(column) { 0 } else { column + 1 }
    }
}

/// Writes what stands before a cell.
fn write_opening<W: Write>(out: &mut W, is_first: bool) -> io::Result<()>
    ensures { OnOk result
        (Appends (W.contents out.old) (W.contents out.new) (opening is_first)) }
{
    let text = if is_first { "[" } else { "" };
    out.write_all(text.as_bytes())
}

/// Writes what stands after a cell.
fn write_closing<W: Write>(out: &mut W, is_last: bool) -> io::Result<()>
    ensures { OnOk result (Appends (W.contents out.old) (W.contents out.new) (closed is_last)) }
{
    let text = if is_last { "]\n" } else { "," };
    out.write_all(text.as_bytes())
}

/// Writes the cell in this column.
fn write_cell<W: Write>(out: &mut W, rows: &Rows, column: u64, cell: &[u8]) -> io::Result<()>
    requires { length cell.now ≤ 8 }
    ensures { OnOk result (WritesCell rows.now.form (length cell.now) rows.now.width column cell.now
        (W.contents out.old) (W.contents out.new)) }
{
    write_opening(out, column == 0)?;
    write_bits(out, rows.form, cell_bits(rows.form, cell))?;
    write_closing(out, rows.is_last(column))
}

/// Writes cells from the column on: a list for each row, on a line of its own. Returns the column after them.
///
/// # Errors
/// `InvalidData` for cells of no byte or more than 8, and for bytes after the last whole cell; what the writer says.
pub fn write_cells<W: Write>(out: &mut W, rows: &Rows, column: u64, bytes: &[u8]) -> io::Result<u64>
    ensures written { IfOk result (λ after. WritesCells rows.now.form rows.now.size rows.now.width
        column after bytes.now (W.contents out.old) (W.contents out.new)) }
    ensures sized { OnOk result ((0 < rows.now.size) × (rows.now.size ≤ 8)) }
{
    if rows.size == 0 || rows.size > 8 {
        return Err(io::Error::from(ErrorKind::InvalidData));
    }
    let mut column = column;
    let mut rest = bytes;
    while rest.len() >= rows.size {
        let (cell, more) = rest.split_at(rows.size);
        write_cell(out, rows, column, cell)?;
        column = rows.next(column);
        rest = more;
    }
    if rest.is_empty() {
        return Ok(column);
    }
    Err(io::Error::from(ErrorKind::InvalidData))
}

/// Returns the text without the blanks that it begins and ends with.
fn trimmed(text: &[u8]) -> &[u8]
    ensures { result.now ≡ trimmed text.now }
{
    text.trim_ascii()
}

/// Returns what stands before the byte that ends a cell's word.
fn unclosed(text: &[u8], is_last: bool) -> Option<&[u8]>
    ensures { MatchOption result (unclosed is_last text.now ≡ None)
        (λ rest. unclosed is_last text.now ≡ Some rest.now) }
{
    if is_last {
        match text {
            [rest @ .., b']'] => Some(rest),
            _ => None,
        }
    } else {
        match text {
            [rest @ .., b','] => Some(rest),
            _ => None,
        }
    }
}

/// Returns what stands after the bracket, if the cell is the first one of its row.
fn unopened(text: &[u8], is_first: bool) -> Option<&[u8]>
    ensures { MatchOption result (unopened is_first text.now ≡ None)
        (λ rest. unopened is_first text.now ≡ Some rest.now) }
{
    if !is_first {
        return Some(text);
    }
    match text {
        [b'[', rest @ ..] => Some(rest),
        _ => None,
    }
}

/// Returns the word of a cell, in what is read for it.
#[tactic(auto, using(crate::proofs::LineLemmas::word_unclosed, crate::proofs::LineLemmas::word_unopened, crate::proofs::LineLemmas::word_found))]
fn word_in(token: &[u8], is_first: bool, is_last: bool) -> Option<&[u8]>
    ensures { MatchOption result (word_in is_first is_last token.now ≡ None)
        (λ word. word_in is_first is_last token.now ≡ Some word.now) }
{
    let token = trimmed(token);
    let Some(rest) = unclosed(token, is_last) else {
        return None;
    };
    match unopened(rest, is_first) {
        Some(word) => Some(trimmed(word)),
        None => None,
    }
}

/// Returns eight bytes, of which the first ones are the cell in this column that is read.
fn token_cell(rows: &Rows, column: u64, token: &[u8]) -> Option<[u8; 8]>
    ensures { MatchOption result
        (cell_at rows.now.form rows.now.size rows.now.width column token.now ≡ None)
        (λ whole. (rows.now.size ≤ 8)
        × (cell_at rows.now.form rows.now.size rows.now.width column token.now
        ≡ Some (take rows.now.size whole))) }
{
    let word = word_in(token, column == 0, rows.is_last(column))?;
    word_cell(rows.form, rows.size, word)
}

/// Returns why nothing is read as a cell.
fn no_cell(alloc: Global, token: &[u8]) -> CellsError {
    let Ok(text) = str::from_utf8(token.trim_ascii()) else {
        return CellsError::said(alloc, "E5: the input is no text");
    };
    if text.is_empty() {
        return CellsError::said(alloc, "the input has fewer cells than the region");
    }
    match format!(in alloc; "E5: no cell of the data type, or a row of another length: `{text}`") {
        Ok(text) => CellsError::Said(text),
        Err(_) => CellsError::OutOfMemory,
    }
}

/// Returns whether the text has nothing but blanks.
fn is_blank(text: &[u8]) -> bool
    ensures { result ≡ (length (trim_front text.now) == 0) }
{
    text.trim_ascii_start().is_empty()
}

/// Reads up to this byte. Returns whether only blanks before a row were read, and more may follow.
fn read_piece<R: BufRead>(
    input: &mut R,
    is_first: bool,
    ending: u8,
    token: &mut Vec<u8>,
) -> io::Result<bool>
    ensures { IfOk result (λ again. MatchBool again
        (PassesBlanks is_first (R.remaining input.old) (R.remaining input.new))
        (ReadsToken is_first ending (R.remaining input.old) (R.remaining input.new) token.new.items)) }
{
    token.clear();
    let count = input.read_until(ending, token)?;
    if count == 0 || !is_first {
        return Ok(false);
    }
    Ok(is_blank(token))
}

/// Reads what stands for a cell, up to the byte that ends it. Blank lines before a row are passed over.
fn read_token<R: BufRead>(
    input: &mut R,
    is_first: bool,
    ending: u8,
    token: &mut Vec<u8>,
) -> io::Result<()>
    ensures { OnOk result (ReadsToken is_first ending (R.remaining input.old) (R.remaining input.new)
        token.new.items) }
{
    for _turn in 0..u64::MAX {
        if !read_piece(input, is_first, ending, token)? {
            return Ok(());
        }
    }
    Err(io::Error::from(ErrorKind::InvalidData))
}

/// Adds the cell in this column that the input begins with.
#[tactic(auto, using(crate::proofs::LineLemmas::extends_by, crate::proofs::LineLemmas::extends_same))]
fn read_cell<R: BufRead>(
    alloc: Global,
    input: &mut R,
    rows: &Rows,
    column: u64,
    token: &mut Vec<u8>,
    bytes: &mut Vec<u8>,
) -> Result<(), CellsError>
    ensures cell { OnOk result (ReadsCell rows.now.form rows.now.size rows.now.width column
        (R.remaining input.old) (R.remaining input.new) bytes.old.items bytes.new.items) }
    ensures kept { Extends bytes.old.items bytes.new.items }
{
    let ending = if rows.is_last(column) { b'\n' } else { b',' };
    read_token(input, column == 0, ending, token)?;
    let Some(cell) = token_cell(rows, column, token) else {
        return Err(no_cell(alloc, token));
    };
    bytes.extend_from_slice(&cell[..rows.size])?;
    Ok(())
}

/// Adds this many cells from the column on that the input begins with: a list for each row, on a line of its own, behind
/// blank lines or none. Returns the column after them. What the bytes had before stays, also if it is refused.
///
/// # Errors
/// E5 for what is no cell; fewer cells; what the reader says; out of memory.
#[tactic(auto, using(crate::proofs::LineLemmas::extends_more))]
pub fn read_cells<R: BufRead>(
    alloc: Global,
    input: &mut R,
    rows: &Rows,
    column: u64,
    count: u64,
    bytes: &mut Vec<u8>,
) -> Result<u64, CellsError>
    ensures column { IfOk result (λ after. after ≡ column_after rows.now.width column count) }
    ensures cells { OnOk result (ReadsCells rows.now.form rows.now.size rows.now.width count column
        (R.remaining input.old) (R.remaining input.new) bytes.old.items bytes.new.items) }
    ensures kept { Extends bytes.old.items bytes.new.items }
{
    let mut token = Vec::new(alloc);
    let mut column = column;
    for _done in 0..count {
        read_cell(alloc, input, rows, column, &mut token, bytes)?;
        column = rows.next(column);
    }
    Ok(column)
}
