//! Numpy's format: a header that says the type and the shape, and then the cells.
ghost use Rattle.std.specs.Prelude.{◌≡◌, ◌⊎◌, ◌<◌, ◌≤◌, ◌%◌, ◌^◌, length, bytes_eq, IfErr, IfOk, OnOk};
ghost use Rattle.std.specs.Int.{w16, to_le_bytes};
ghost use Rattle.std.specs.Io.KnownBytes.{Consumes};
ghost use Rattle.zarr_cells.specs.Npy.{description, extents, letter, order, padded, tuple};
ghost use Rattle.zarr_cells.specs.Npy.{header_bytes, magic, without_blanks, IsHeader, ReadsHeader};

use crate::error::CellsError;
use crate::form::Form;
use itoa::Buffer;
use std::alloc::{AllocError, Global};
use std::io::{self, Read};
use std::str;

/// What a file of this format begins with, up to the length of the header: version 1.0.
const MAGIC: [u8; 8] = [0x93, 0x4e, 0x55, 0x4d, 0x50, 0x59, 1, 0];

/// Returns the letter of numpy for what the cells say.
fn letter(form: Option<Form>) -> u8
    ensures { result ≡ letter form }
{
    match form {
        Some(Form::Bool) => b'b',
        Some(Form::Signed) => b'i',
        Some(Form::Unsigned) => b'u',
        Some(Form::Float(_)) => b'f',
        None => b'V',
    }
}

/// Returns the letter of numpy for the order of the bytes.
fn order(form: Option<Form>, size: usize) -> u8
    ensures { result ≡ order form size }
{
    match form {
        Some(_) if size != 1 => b'<',
        _ => b'|',
    }
}

/// Returns the extents, each with the comma after it.
#[tactic(auto, using(crate::proofs::ListLemmas::extents_push))]
fn extents(alloc: Global, shape: &[u64]) -> Result<Vec<u8>, AllocError>
    ensures { IfOk result (λ text. text.items ≡ extents shape.now) }
{
    let mut text = Vec::new(alloc);
    for extent in shape {
        text.extend_from_slice(Buffer::new().format(*extent).as_bytes())?;
        text.push(b',')?;
    }
    Ok(text)
}

/// Returns the shape as numpy writes it: `2,3`, but `2,` for one extent.
fn tuple(alloc: Global, shape: &[u64]) -> Result<Vec<u8>, AllocError>
    ensures { IfOk result (λ text. text.items ≡ tuple shape.now) }
{
    let mut text = extents(alloc, shape)?;
    if shape.len() != 1 {
        let _ = text.pop();
    }
    Ok(text)
}

/// Returns what a header says, without blanks.
fn description(
    alloc: Global,
    form: Option<Form>,
    size: usize,
    shape: &[u64],
) -> Result<Vec<u8>, AllocError>
    ensures { IfOk result (λ text. text.items ≡ description form size shape.now) }
{
    let shape = tuple(alloc, shape)?;
    let mut text = Vec::from_slice(alloc, b"{'descr':'".as_slice())?;
    text.push(order(form, size))?;
    text.push(letter(form))?;
    text.extend_from_slice(Buffer::new().format(size).as_bytes())?;
    text.extend_from_slice(b"','fortran_order':False,'shape':(".as_slice())?;
    text.extend_from_slice(&shape)?;
    text.extend_from_slice(b"),}".as_slice())?;
    Ok(text)
}

/// Adds blanks and a newline, so that a header with this text is a multiple of 64 bytes.
fn padded(text: Vec<u8>) -> Result<Vec<u8>, AllocError>
    ensures { IfOk result (λ made. made.items ≡ padded text.items) }
{
    let mut made = text;
    for _done in 0..63 - (made.len() % 64 + 10) % 64 {
        made.push(b' ')?;
    }
    made.push(b'\n')?;
    Ok(made)
}

/// Returns the header of a file of cells of this type and shape: what it says, blanks and one newline. Its length is a
/// multiple of 64.
///
/// # Errors
/// Too many dimensions; out of memory.
#[tactic(auto, using(crate::proofs::ListLemmas::padded_bytes_size, crate::proofs::ListLemmas::padded_header))]
pub fn header(
    alloc: Global,
    form: Option<Form>,
    size: usize,
    shape: &[u64],
) -> Result<Vec<u8>, CellsError>
    ensures header { IfOk result (λ bytes. IsHeader (description form size shape.now) bytes.items) }
    ensures exact { IfOk result (λ bytes. bytes.items
        ≡ header_bytes (padded (description form size shape.now))) }
    ensures size { IfOk result (λ bytes. length bytes.items % 64 ≡ 0) }
    ensures refused { IfErr result (λ e. (e ≡ CellsError.OutOfMemory)
        ⊎ (2 ^ 16 ≤ length (padded (description form size shape.now)))) }
{
    let text = padded(description(alloc, form, size, shape)?)?;
    let Ok(length) = u16::try_from(text.len()) else {
        return Err(CellsError::said(alloc, "too many dimensions for numpy's format"));
    };
    let mut bytes = Vec::from_slice(alloc, MAGIC.as_slice())?;
    bytes.extend_from_slice(length.to_le_bytes().as_slice())?;
    bytes.extend_from_slice(&text)?;
    Ok(bytes)
}

/// Returns the bytes that are no blanks.
fn without_blanks(alloc: Global, text: &[u8]) -> Result<Vec<u8>, AllocError>
    ensures { IfOk result (λ kept. kept.items ≡ without_blanks text.now) }
{
    text.iter()
        .copied()
        .filter(|byte| !byte.is_ascii_whitespace())
        .collect(alloc)
}

/// Returns the number that two bytes say.
fn length_in(bytes: &[u8]) -> u16
    requires { length bytes.now ≡ 2 }
    ensures { to_le_bytes w16 result ≡ bytes.now }
{
    u16::from_le_bytes([bytes[0], bytes[1]])
}

/// Reads the length of a header's text.
fn read_length<R: Read>(input: &mut R) -> io::Result<u16>
    ensures { IfOk result (λ length.
        Consumes (R.remaining input.old) (R.remaining input.new) (to_le_bytes w16 length)) }
{
    let mut bytes = [0u8; 2];
    input.read_exact(&mut bytes)?;
    Ok(length_in(bytes.as_slice()))
}

/// Reads this many bytes.
fn read_bytes<R: Read>(alloc: Global, input: &mut R, size: usize) -> Result<Vec<u8>, CellsError>
    ensures { IfOk result (λ bytes. (length bytes.items ≡ size)
        × Consumes (R.remaining input.old) (R.remaining input.new) bytes.items) }
{
    let mut bytes = vec![in alloc; 0u8; size]?;
    input.read_exact(&mut bytes)?;
    Ok(bytes)
}

/// Reads what a file of this format begins with.
///
/// # Errors
/// The input begins with something else; what the reader says.
fn read_magic<R: Read>(alloc: Global, input: &mut R) -> Result<(), CellsError>
    ensures { OnOk result (Consumes (R.remaining input.old) (R.remaining input.new) magic) }
{
    let mut bytes = [0u8; 8];
    input.read_exact(&mut bytes)?;
    if bytes == MAGIC {
        return Ok(());
    }
    Err(CellsError::said(alloc, "the input is no file of numpy's format, version 1.0"))
}

/// Reads the text of a header.
///
/// # Errors
/// The input has no such header; what the reader says; out of memory.
#[tactic(auto, using(crate::proofs::ListLemmas::header_consumed))]
fn read_text<R: Read>(alloc: Global, input: &mut R) -> Result<Vec<u8>, CellsError>
    ensures { IfOk result (λ text. (length text.items < 2 ^ 16)
        × Consumes (R.remaining input.old) (R.remaining input.new) (header_bytes text.items)) }
{
    read_magic(alloc, input)?;
    let length = read_length(input)?;
    let text = read_bytes(alloc, input, usize::from(length))?;
    Ok(text)
}

/// Returns whether two texts are the same but for blanks.
fn is_same(alloc: Global, text: &[u8], other: &[u8]) -> Result<bool, AllocError>
    ensures { IfOk result (λ same.
        same ≡ bytes_eq (without_blanks text.now) (without_blanks other.now)) }
{
    let text = without_blanks(alloc, text)?;
    let other = without_blanks(alloc, other)?;
    Ok(text.as_slice() == other.as_slice())
}

/// Returns why the header is refused.
fn other_header(alloc: Global, text: &[u8], expected: &[u8]) -> CellsError {
    let (Ok(text), Ok(expected)) = (str::from_utf8(text), str::from_utf8(expected)) else {
        return CellsError::said(alloc, "the header is no text");
    };
    if text.contains("'fortran_order': True") {
        return CellsError::said(
            alloc,
            "the file is in Fortran's order: save numpy.ascontiguousarray(..)",
        );
    }
    if text.contains("'descr': '>") {
        return CellsError::said(
            alloc,
            "the cells are big endian: save them with a dtype that is little endian",
        );
    }
    match format!(in alloc; "the input has not the header {expected}") {
        Ok(text) => CellsError::Said(text),
        Err(_) => CellsError::OutOfMemory,
    }
}

/// Reads the header of a file, which has to say this type and this shape.
///
/// # Errors
/// It says another type or shape, big endian or Fortran's order, or is no such header.
#[tactic(auto, using(crate::proofs::ListLemmas::header_is))]
pub fn read_header<R: Read>(
    alloc: Global,
    input: &mut R,
    form: Option<Form>,
    size: usize,
    shape: &[u64],
) -> Result<(), CellsError>
    ensures { OnOk result (ReadsHeader (description form size shape.now)
        (R.remaining input.old) (R.remaining input.new)) }
{
    let expected = description(alloc, form, size, shape)?;
    let text = read_text(alloc, input)?;
    if is_same(alloc, &text, &expected)? {
        return Ok(());
    }
    Err(other_header(alloc, &text, &expected))
}
