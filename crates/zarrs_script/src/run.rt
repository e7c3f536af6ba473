//! `run_script`: runs a script, and writes what it prints.
ghost use Rattle.std.specs.Prelude.{◌≡◌, IfOk, OnOk, ◌⊎◌, Some, map};
ghost use Rattle.zarrs_script.specs.Parsed.{order_of_call, order_of_command};
ghost use Rattle.zarrs_script.specs.Transcript.{Opens, ListsContent, Does};
ghost use Rattle.zarrs_script.specs.Answers.{IsAnswer, ReadsAll, WritesText};
ghost use Rattle.zarrs_script.specs.Sessions.{opened, session_of, Prints, Puts, HasRun};

use crate::array::OpenArray;
use crate::command::{Command, Creation};
use crate::error::{CreationError, ScriptError, Stopped};
use crate::parse::commands_of;
use crate::print::{
    complaint, is_refusal, put_keys, put_line, put_metadata, put_refusal, put_reply, put_skipped,
    write_pending,
};
use std::alloc::Global;
use std::io::{Read, Write};
use zarrs::laws::an_array_is_its_metadata;
use zarrs_codec::CodecOptions;
use zarrs_engine::Call;

/// Opens an array if it is accepted, and tells whether it was refused.
fn open(
    alloc: Global,
    out: &mut Vec<u8>,
    creation: Creation,
) -> Result<(Option<OpenArray>, bool), Stopped>
    ensures { IfOk result (λ opening. Prints out.old.items out.new.items
        (λ text. Opens creation.shape.items creation.chunk_shape.items creation.cell_type
        creation.fill.items (record {
          text = text;
          refused = opening.1;
          after = session_of opening.0;
        }))) }
{
    match OpenArray::create(alloc, creation) {
        Ok(array) => {
            put_line(out, b"ok")?;
            Ok((Some(array), false))
        }
        Err(CreationError::NoGrid) => {
            put_refusal(out, 18)?;
            Ok((None, true))
        }
        Err(CreationError::OutOfMemory) => {
            put_refusal(out, 26)?;
            Ok((None, true))
        }
    }
}

/// Makes the call, prints its reply, and tells whether that is a refusal.
fn make_call<W: Write>(
    alloc: Global,
    writer: &mut W,
    out: &mut Vec<u8>,
    array: &mut OpenArray,
    call: Call,
) -> Result<bool, Stopped>
    ensures { IfOk result (λ refused. Puts (W.contents writer.old) (W.contents writer.new)
        out.old.items out.new.items
        (λ text. Does (Some (opened array.old)) (order_of_call call) (record {
          text = text;
          refused = refused;
          after = Some (opened array.new);
        }))) }
{
    an_array_is_its_metadata(&array.array);
    let options = CodecOptions::default();
    let mut replies = array.array.replay(alloc, &[call], &options)?;
    let Some(reply) = replies.pop() else {
        unreachable!();
    };
    put_reply(writer, out, array.cell_type, &reply)?;
    Ok(is_refusal(&reply))
}

/// Prints the key of each chunk that has a cell other than fill, in ascending order, and the bytes of its cells, or that
/// there are none. These are the keys of the store and their values.
fn put_content<W: Write>(
    alloc: Global,
    writer: &mut W,
    out: &mut Vec<u8>,
    array: &OpenArray,
) -> Result<(), Stopped>
    ensures { OnOk result (Puts (W.contents writer.old) (W.contents writer.new)
        out.old.items out.new.items (ListsContent (opened array.now))) }
{
    an_array_is_its_metadata(&array.array);
    put_keys(alloc, writer, out, array.array.storage())
}

/// Runs a command, and tells whether it was refused.
fn run_command<W: Write>(
    alloc: Global,
    writer: &mut W,
    out: &mut Vec<u8>,
    array: &mut Option<OpenArray>,
    command: Command,
) -> Result<bool, Stopped>
    ensures { IfOk result (λ refused. Puts (W.contents writer.old) (W.contents writer.new)
        out.old.items out.new.items
        (λ text. Does (session_of array.old) (order_of_command command) (record {
          text = text;
          refused = refused;
          after = session_of array.new;
        }))) }
{
    match (command, array.as_mut()) {
        (Command::Array(creation), _) => {
            let (opening, refused) = open(alloc, out, creation)?;
            *array = opening;
            Ok(refused)
        }
        (Command::Call(call), Some(array)) => make_call(alloc, writer, out, array, call),
        (Command::Keys, Some(array)) => {
            put_content(alloc, writer, out, array)?;
            Ok(false)
        }
        (Command::Meta, Some(array)) => {
            put_metadata(alloc, out, array.array.metadata())?;
            Ok(false)
        }
        (Command::Call(_), None) => {
            put_skipped(out)?;
            Ok(false)
        }
        (Command::Keys, None) => {
            put_skipped(out)?;
            Ok(false)
        }
        (Command::Meta, None) => {
            put_skipped(out)?;
            Ok(false)
        }
    }
}

/// Runs commands one after another and writes what they print, and tells whether one was refused.
fn run_commands<W: Write>(
    alloc: Global,
    writer: &mut W,
    commands: Vec<Command>,
) -> Result<bool, Stopped>
    ensures { IfOk result (λ refused. WritesText (W.contents writer.old) (W.contents writer.new)
        (λ text. HasRun (map order_of_command commands.items) text refused)) }
{
    let mut array = None;
    let mut refused = false;
    let mut out = Vec::new(alloc);
    for command in commands {
        refused |= run_command(alloc, writer, &mut out, &mut array, command)?;
        write_pending(writer, &mut out)?;
    }
    writer.write_all(&out)?;
    Ok(refused)
}

/// Writes what the script prints, and returns the status, 0 to 2.
fn answer<W: Write>(alloc: Global, writer: &mut W, script: &[u8]) -> Result<u8, Stopped>
    ensures { IfOk result (λ status. WritesText (W.contents writer.old) (W.contents writer.new)
        (λ text. IsAnswer script.now text status)) }
{
    match commands_of(alloc, script) {
        Ok(commands) => {
            let refused = run_commands(alloc, writer, commands)?;
            Ok(u8::from(refused))
        }
        Err(ScriptError::BadLine(number)) => {
            let text = complaint(alloc, number)?;
            writer.write_all(&text)?;
            Ok(2)
        }
        Err(ScriptError::OutOfMemory) => Err(Stopped),
    }
}

/// Reads the whole script, and writes what it prints.
fn read_and_answer<R: Read, W: Write>(
    alloc: Global,
    reader: &mut R,
    writer: &mut W,
) -> Result<u8, Stopped>
    ensures { IfOk result (λ status. ReadsAll (R.remaining reader.old) (R.remaining reader.new)
        (λ script. WritesText (W.contents writer.old) (W.contents writer.new)
        (λ text. IsAnswer script text status))) }
{
    let mut script = Vec::new(alloc);
    reader.read_to_end(&mut script)?;
    let status = answer(alloc, writer, &script)?;
    writer.flush()?;
    Ok(status)
}

/// Runs the script that the reader holds, prints into the writer, and returns the status.
///
/// Each line is a command, empty, or begins with `#`. The words of a command are separated by one space. It is
/// `array SHAPE CHUNKS TYPE FILL`, `chunk INDICES CELLS`, `read INDICES`, `erase INDICES`, `put START SHAPE CELLS`,
/// `get START SHAPE`, `resize SHAPE`, `keys` or `meta`. A list is numbers joined by `,`, or `-`. A region's START and
/// SHAPE have the same length, and each end, their sum, is below 2^64. A type is `bool`, `int8` to `int64` or `uint8` to
/// `uint64`. Its cells are numbers, of a signed type also with `-` before them; of `bool` they are 0 and 1.
///
/// | Status | Meaning |
/// |---|---|
/// | 0 | nothing was refused |
/// | 1 | something was refused, and the script went on |
/// | 2 | a line is not a command: `line N: not a command` is printed for the first one, and nothing else |
/// | 3 | input, output or memory outside a call failed, and nothing more is printed; the contract says nothing here |
pub fn run_script<R: Read, W: Write>(alloc: Global, reader: &mut R, writer: &mut W) -> u8
    ensures { ReadsAll (R.remaining reader.old) (R.remaining reader.new)
        (λ script. WritesText (W.contents writer.old) (W.contents writer.new)
        (λ text. IsAnswer script text result)) ⊎ (result ≡ 3) }
{
    read_and_answer(alloc, reader, writer).unwrap_or(3)
}
