//! Prints replies, keys and metadata.
ghost use Rattle.std.specs.Prelude.{◌≡◌, ◌≤◌, ◌++◌, ◌*◌, ◌∷◌, [], codes, decimal, length, IfOk};
ghost use Rattle.std.specs.Prelude.{OnOk, IsSome, Some, false};
ghost use Rattle.serde_json.specs.Written.{has_float};
ghost use Rattle.zarrs_metadata.specs.Versions.{metadata_view, data_of_metadata};
ghost use Rattle.zarrs_data_type.specs.ArrayData.{fixed};
ghost use Rattle.zarrs_data_type.specs.Cells.{cells};
ghost use Rattle.zarrs_engine_calls.specs.Refusals.{refusal_of, refusal_number};
ghost use Rattle.zarrs_script.specs.Parts.{text_of_metadata};
ghost use Rattle.zarrs_script.specs.CellTypes.{kind_of_cells, cell_type_size};
ghost use Rattle.zarrs_script.specs.CellTexts.{value_of, number_text};
ghost use Rattle.zarrs_script.specs.Transcript.{line, refusal, data_text, reply_text, is_refusal};
ghost use Rattle.zarrs_script.specs.Transcript.{bytes_at, key_text, keys_text};
ghost use Rattle.zarrs_script.specs.Sessions.{Puts};

use crate::cell_type::CellType;
use crate::error::Stopped;
use bytes::Bytes;
use itoa::Buffer;
use std::alloc::Global;
use std::io::Write;
use zarrs_codec::CodecError;
use zarrs_data_type::{ArrayBytes, ElementError};
use zarrs_engine::{ArrayError, Reply};
use zarrs_metadata::ArrayMetadata;
use zarrs_storage::{MemoryStore, ReadableStorageTraits, StorageError, StoreKey};

/// The number of bytes that are gathered before they are written.
const PENDING: usize = 8192;

/// Writes what is pending, if it is enough.
///
/// # Errors
/// `Stopped` if the output fails.
pub fn write_pending<W: Write>(writer: &mut W, out: &mut Vec<u8>) -> Result<(), Stopped>
    ensures { OnOk result (Puts (W.contents writer.old) (W.contents writer.new)
        out.old.items out.new.items (λ text. text ≡ [])) }
{
    if out.len() < PENDING {
        return Ok(());
    }
    writer.write_all(out)?;
    out.clear();
    Ok(())
}

/// Prints a line.
///
/// # Errors
/// `Stopped` if out of memory.
pub fn put_line(out: &mut Vec<u8>, text: &[u8]) -> Result<(), Stopped>
    ensures { OnOk result (out.new.items ≡ out.old.items ++ line text.now) }
{
    out.extend_from_slice(text)?;
    out.push(b'\n')?;
    Ok(())
}

/// Prints the line of a refusal, by its number.
///
/// # Errors
/// `Stopped` if out of memory.
pub fn put_refusal(out: &mut Vec<u8>, number: u8) -> Result<(), Stopped>
    ensures { OnOk result (out.new.items ≡ out.old.items ++ refusal number) }
{
    let mut buffer = Buffer::new();
    out.extend_from_slice(b"refused E")?;
    out.extend_from_slice(buffer.format(number).as_bytes())?;
    out.push(b'\n')?;
    Ok(())
}

/// Returns the text for a line, by its number, that is not a command.
///
/// # Errors
/// `Stopped` if out of memory.
pub fn complaint(alloc: Global, number: u64) -> Result<Vec<u8>, Stopped>
    ensures { IfOk result (λ text. text.items
        ≡ line (codes "line " ++ decimal number ++ codes ": not a command")) }
{
    let mut buffer = Buffer::new();
    let mut text = Vec::from_slice(alloc, b"line ")?;
    text.extend_from_slice(buffer.format(number).as_bytes())?;
    text.extend_from_slice(b": not a command\n")?;
    Ok(text)
}

/// Returns the number of these bytes, the lowest first.
fn value_of(bytes: &[u8]) -> u64
    requires { length bytes.now ≤ 8 }
    ensures { result ≡ value_of bytes.now }
{
    let mut value = 0u64;
    for count in 0..bytes.len() {
        value = value * 256 + u64::from(bytes[bytes.len() - 1 - count]);
    }
    value
}

fn put_decimal(out: &mut Vec<u8>, number: u64) -> Result<(), Stopped>
    ensures { OnOk result (out.new.items ≡ out.old.items ++ decimal number) }
{
    let mut buffer = Buffer::new();
    out.extend_from_slice(buffer.format(number).as_bytes())?;
    Ok(())
}

/// Prints a cell.
fn put_number(out: &mut Vec<u8>, cell_type: CellType, cell: &[u8]) -> Result<(), Stopped>
    requires { length cell.now ≡ cell_type_size cell_type }
    ensures { OnOk result (out.new.items ≡ out.old.items ++ number_text cell_type cell.now) }
{
    let value = value_of(cell);
    if cell_type.is_signed() && value > cell_type.greatest() {
        out.push(b'-')?;
        return put_decimal(out, cell_type.greatest() * 2 + 1 - value + 1);
    }
    put_decimal(out, value)
}

/// Prints the cells of these bytes, joined by commas, or `-` for none.
fn put_cells<W: Write>(
    writer: &mut W,
    out: &mut Vec<u8>,
    cell_type: CellType,
    bytes: &[u8],
) -> Result<(), Stopped>
    requires { IsSome (data_text cell_type (fixed bytes.now)) }
    ensures { OnOk result (Puts (W.contents writer.old) (W.contents writer.new)
        out.old.items out.new.items (λ text. data_text cell_type (fixed bytes.now) ≡ Some text)) }
{
    let size = cell_type.size();
    if bytes.len() < size {
        return put_line(out, b"-");
    }
    put_number(out, cell_type, &bytes[..size])?;
    for index in 1..bytes.len() / size {
        out.push(b',')?;
        put_number(out, cell_type, &bytes[index * size..index * size + size])?;
        write_pending(writer, out)?;
    }
    out.push(b'\n')?;
    Ok(())
}

/// Returns the number of a refusal, and 0 for one that no call returns.
fn refusal_number(error: &ArrayError) -> u8
    ensures { result ≡ refusal_number (refusal_of error.now) }
{
    match error {
        ArrayError::InvalidArraySubset(..) => 1,
        ArrayError::InvalidChunkSubset(..) => 2,
        ArrayError::InvalidChunkGridIndicesError(_) => 3,
        ArrayError::CodecError(CodecError::DoesNotFit(_)) => 4,
        ArrayError::ElementError(ElementError::IncompatibleElementType) => 5,
        ArrayError::InvalidDataShape(..) => 6,
        ArrayError::StorageError(StorageError::OutOfMemory) => 0,
        ArrayError::StorageError(_) => 7,
        ArrayError::SizeOverflow => 8,
        ArrayError::OutOfMemory => 9,
        ArrayError::IncompatibleDimensionalityError(_) => 10,
        ArrayError::UnsupportedMethod(_) => 28,
        _ => 0,
    }
}

/// Prints the reply.
///
/// # Errors
/// `Stopped` if the output fails, or out of memory.
pub fn put_reply<W: Write>(
    writer: &mut W,
    out: &mut Vec<u8>,
    cell_type: CellType,
    reply: &Reply,
) -> Result<(), Stopped>
    requires { IsSome (reply_text cell_type reply.now) }
    ensures { OnOk result (Puts (W.contents writer.old) (W.contents writer.new)
        out.old.items out.new.items (λ text. reply_text cell_type reply.now ≡ Some text)) }
{
    match reply {
        Reply::Done | Reply::Compacted(_) => put_line(out, b"ok"),
        Reply::MaybeCells(None) => put_line(out, b"none"),
        Reply::Cells(data) | Reply::MaybeCells(Some(data)) => {
            let ArrayBytes::Fixed(cells) = data else {
                unreachable!();
            };
            put_cells(writer, out, cell_type, cells.as_slice())
        }
        Reply::Refused(error) => put_refusal(out, refusal_number(error)),
    }
}

/// Returns whether the reply is a refusal.
pub fn is_refusal(reply: &Reply) -> bool
    ensures { result ≡ is_refusal reply.now }
{
    matches!(reply, Reply::Refused(_))
}

/// Prints that a line was skipped.
///
/// # Errors
/// `Stopped` if out of memory.
pub fn put_skipped(out: &mut Vec<u8>) -> Result<(), Stopped>
    ensures { OnOk result (out.new.items ≡ out.old.items ++ line (codes "skipped")) }
{
    put_line(out, b"skipped")
}

/// Returns the bytes at a key, or none. A store in memory is refused only if out of memory.
fn value_at(alloc: Global, store: &MemoryStore, key: &StoreKey) -> Result<Bytes, Stopped>
    ensures { IfOk result (λ value. value ≡ bytes_at store.now.values key.now) }
{
    match store.get(alloc, key) {
        Ok(Some(value)) => Ok(value),
        Ok(None) => Ok(Bytes::new()),
        Err(_) => Err(Stopped),
    }
}

/// Prints a key, and its bytes in hexadecimal.
fn put_key(
    alloc: Global,
    out: &mut Vec<u8>,
    store: &MemoryStore,
    key: &StoreKey,
) -> Result<(), Stopped>
    ensures { OnOk result (out.new.items ≡ out.old.items ++ key_text store.now.values key.now) }
{
    out.extend_from_slice(key.as_str().as_bytes())?;
    out.push(b' ')?;
    let value = value_at(alloc, store, key)?;
    let digits = hex::encode(alloc, value.as_slice())?;
    out.extend_from_slice(digits.as_bytes())?;
    out.push(b'\n')?;
    Ok(())
}

/// Prints the keys that are present in ascending order, and their bytes, or that there are none.
///
/// # Errors
/// `Stopped` if the output fails, or out of memory.
pub fn put_keys<W: Write>(
    alloc: Global,
    writer: &mut W,
    out: &mut Vec<u8>,
    store: &MemoryStore,
) -> Result<(), Stopped>
    ensures { OnOk result (Puts (W.contents writer.old) (W.contents writer.new)
        out.old.items out.new.items (λ text. text ≡ keys_text store.now.values)) }
{
    let keys = store.keys(alloc)?;
    if keys.is_empty() {
        return put_line(out, b"none");
    }
    for key in &keys {
        put_key(alloc, out, store, key)?;
        write_pending(writer, out)?;
    }
    Ok(())
}

/// Prints the compact JSON text of the metadata: its members in ascending order of their names, without spaces.
///
/// # Errors
/// `Stopped` if out of memory.
pub fn put_metadata(
    alloc: Global,
    out: &mut Vec<u8>,
    metadata: &ArrayMetadata,
) -> Result<(), Stopped>
    requires { has_float (data_of_metadata (metadata_view metadata.now)) ≡ false }
    ensures { OnOk result
        (out.new.items ≡ out.old.items ++ line (text_of_metadata (metadata_view metadata.now))) }
{
    let value = metadata.to_value(alloc)?;
    let text = value.to_string(alloc)?;
    put_line(out, text.as_bytes())
}
