//! Reads the commands of a script.
ghost use Rattle.std.specs.Prelude.{◌≡◌, ◌==◌, position, IfOk, IsSome, Some};
ghost use Rattle.zarrs_subset.specs.Regions.{box_of};
ghost use Rattle.zarrs_data_type.specs.Cell.{fill_cell};
ghost use Rattle.zarrs_script.specs.Words.{number_of, numbers_in_word, region_of};
ghost use Rattle.zarrs_script.specs.CellTypes.{kind_of_cells};
ghost use Rattle.zarrs_script.specs.CellTexts.{cell_of, cells_of, low_bytes, positive, negative};
ghost use Rattle.zarrs_script.specs.Script.{array_order, chunk_order, put_order};
ghost use Rattle.zarrs_script.specs.Script.{get_order, one_list, lone_order, verb_order};
ghost use Rattle.zarrs_script.specs.Script.{order_of, type_after, is_skipped};
ghost use Rattle.zarrs_script.specs.Parsed.{Gives, GivesOrders, Grows, words_in};
ghost use Rattle.zarrs_script.specs.Parsed.{TakesWord, TakesLastWord, order_of_command};

use crate::cell_type::CellType;
use crate::command::{Command, Creation, Verb};
use crate::error::{ParseError, ScriptError};
use std::alloc::Global;
use std::borrow::CowSlice;
use zarrs_data_type::ArrayBytes;
use zarrs_engine::Call;
use zarrs_subset::ArraySubset;

/// Returns the number that the word writes: one decimal digit or more, of a number below 2^64.
fn number_of(word: &[u8]) -> Option<u64>
    ensures { result ≡ number_of word.now }
{
    if word.is_empty() {
        return None;
    }
    let mut number = 0u64;
    for byte in word {
        if !byte.is_ascii_digit() {
            return None;
        }
        number = number
            .checked_mul(10)?
            .checked_add(u64::from(*byte - b'0'))?;
    }
    Some(number)
}

/// Adds the lowest bytes of the number, the lowest first.
fn push_bytes(cells: &mut Vec<u8>, count: usize, number: u64) -> Result<(), ParseError>
    ensures { Grows result cells.old.items cells.new.items (Some (low_bytes count number)) }
{
    let mut rest = number;
    for _ in 0..count {
        cells.push((rest % 256) as u8)?;
        rest /= 256;
    }
    Ok(())
}

/// Adds the bytes of the cell with this number.
fn push_positive(cells: &mut Vec<u8>, cell_type: CellType, number: u64) -> Result<(), ParseError>
    ensures { Grows result cells.old.items cells.new.items (positive cell_type number) }
{
    if number > cell_type.greatest() {
        return Err(ParseError::NotACommand);
    }
    push_bytes(cells, cell_type.size(), number)
}

/// Adds the bytes of the cell with this number below 0.
fn push_negative(cells: &mut Vec<u8>, cell_type: CellType, number: u64) -> Result<(), ParseError>
    ensures { Grows result cells.old.items cells.new.items (negative cell_type number) }
{
    if !cell_type.is_signed() || number > cell_type.greatest() + 1 {
        return Err(ParseError::NotACommand);
    }
    push_bytes(cells, cell_type.size(), 0u64.wrapping_sub(number))
}

/// Adds the bytes of the cell that the word writes.
#[tactic(auto, unfolding(crate::specs::CellTexts::cell_of))]
fn push_cell(cells: &mut Vec<u8>, cell_type: CellType, word: &[u8]) -> Result<(), ParseError>
    ensures { Grows result cells.old.items cells.new.items (cell_of cell_type word.now) }
{
    match word {
        [] => Err(ParseError::NotACommand),
        [b'-', digits @ ..] => match number_of(digits) {
            Some(number) => push_negative(cells, cell_type, number),
            None => Err(ParseError::NotACommand),
        },
        _ => match number_of(word) {
            Some(number) => push_positive(cells, cell_type, number),
            None => Err(ParseError::NotACommand),
        },
    }
}

/// Returns the bytes of the cell that the word writes.
fn cell_of(alloc: Global, cell_type: CellType, word: &[u8]) -> Result<Vec<u8>, ParseError>
    ensures value { Gives (λ cell. cell.items) result (cell_of cell_type word.now) }
    ensures whole { IfOk result (λ cell. IsSome (fill_cell (kind_of_cells cell_type) cell.items)) }
{
    let mut cell = Vec::new(alloc);
    push_cell(&mut cell, cell_type, word)?;
    Ok(cell)
}

/// Returns the numbers of a list: they are joined by commas, or there are none, for `-`.
#[tactic(auto, unfolding(crate::specs::Words::items_of))]
fn numbers_in_word(alloc: Global, word: &[u8]) -> Result<Vec<u64>, ParseError>
    ensures { Gives (λ numbers. numbers.items) result (numbers_in_word word.now) }
{
    let mut numbers = Vec::new(alloc);
    if word == b"-".as_slice() {
        return Ok(numbers);
    }
    for item in word.split(|byte| *byte == b',') {
        let Some(number) = number_of(item) else {
            return Err(ParseError::NotACommand);
        };
        numbers.push(number)?;
    }
    Ok(numbers)
}

/// Returns the bytes of the cells of a list.
#[tactic(auto, unfolding(crate::specs::Words::items_of))]
fn cells_of(alloc: Global, cell_type: CellType, word: &[u8]) -> Result<Vec<u8>, ParseError>
    ensures { Gives (λ cells. cells.items) result (cells_of cell_type word.now) }
{
    let mut cells = Vec::new(alloc);
    if word == b"-".as_slice() {
        return Ok(cells);
    }
    for item in word.split(|byte| *byte == b',') {
        push_cell(&mut cells, cell_type, item)?;
    }
    Ok(cells)
}

/// Returns where the first space is.
fn space_in(text: &[u8]) -> Option<usize>
    ensures { result ≡ position (λ b. b == 32) text.now }
{
    text.iter().position(|byte| *byte == b' ')
}

/// Returns the first of the words, which are separated by one space, and the others if there are any.
///
/// # Errors
/// `NotACommand` if there is no word.
fn next_word(words: Option<&[u8]>) -> Result<(&[u8], Option<&[u8]>), ParseError>
    ensures { TakesWord words.entry result }
{
    let Some(text) = words else {
        return Err(ParseError::NotACommand);
    };
    match space_in(text) {
        Some(place) => Ok((&text[..place], Some(&text[place + 1..]))),
        None => Ok((text, None)),
    }
}

/// Returns the only word that is left.
///
/// # Errors
/// `NotACommand` if there is no word, or more than one.
fn last_word(words: Option<&[u8]>) -> Result<&[u8], ParseError>
    ensures { TakesLastWord words.entry result }
{
    match next_word(words)? {
        (word, None) => Ok(word),
        (_, Some(_)) => Err(ParseError::NotACommand),
    }
}

fn array_command(alloc: Global, words: Option<&[u8]>) -> Result<Command, ParseError>
    ensures { Gives order_of_command result (array_order (words_in words.entry)) }
{
    let (shape, words) = next_word(words)?;
    let (chunk_shape, words) = next_word(words)?;
    let (name, words) = next_word(words)?;
    let fill = last_word(words)?;
    let shape = numbers_in_word(alloc, shape)?;
    let chunk_shape = numbers_in_word(alloc, chunk_shape)?;
    let cell_type = CellType::named(name).ok_or(ParseError::NotACommand)?;
    let fill = cell_of(alloc, cell_type, fill)?;
    Ok(Command::Array(Creation {
        shape,
        chunk_shape,
        cell_type,
        fill,
    }))
}

fn chunk_command(
    alloc: Global,
    cell_type: CellType,
    words: Option<&[u8]>,
) -> Result<Command, ParseError>
    ensures { Gives order_of_command result (chunk_order cell_type (words_in words.entry)) }
{
    let (indices, words) = next_word(words)?;
    let cells = last_word(words)?;
    let chunk_indices = numbers_in_word(alloc, indices)?;
    let cells = cells_of(alloc, cell_type, cells)?;
    let chunk_data = ArrayBytes::Fixed(CowSlice::Owned(cells));
    Ok(Command::Call(Call::StoreChunk(chunk_indices, chunk_data)))
}

/// Returns the region that begins at the indices of one word and has the extents of the other.
fn region_of(alloc: Global, start: &[u8], shape: &[u8]) -> Result<ArraySubset, ParseError>
    ensures { Gives box_of result (region_of start.now shape.now) }
{
    let start = numbers_in_word(alloc, start)?;
    let shape = numbers_in_word(alloc, shape)?;
    match ArraySubset::new_with_start_shape(start, shape) {
        Ok(region) => Ok(region),
        Err(_) => Err(ParseError::NotACommand),
    }
}

fn put_command(
    alloc: Global,
    cell_type: CellType,
    words: Option<&[u8]>,
) -> Result<Command, ParseError>
    ensures { Gives order_of_command result (put_order cell_type (words_in words.entry)) }
{
    let (start, words) = next_word(words)?;
    let (shape, words) = next_word(words)?;
    let cells = last_word(words)?;
    let region = region_of(alloc, start, shape)?;
    let cells = cells_of(alloc, cell_type, cells)?;
    let data = ArrayBytes::Fixed(CowSlice::Owned(cells));
    Ok(Command::Call(Call::StoreArraySubset(region, data)))
}

fn get_command(alloc: Global, words: Option<&[u8]>) -> Result<Command, ParseError>
    ensures { Gives order_of_command result (get_order (words_in words.entry)) }
{
    let (start, words) = next_word(words)?;
    let shape = last_word(words)?;
    let region = region_of(alloc, start, shape)?;
    Ok(Command::Call(Call::RetrieveArraySubset(region)))
}

/// Returns the list of a line that has nothing else.
fn one_list(alloc: Global, words: Option<&[u8]>) -> Result<Vec<u64>, ParseError>
    ensures { Gives (λ numbers. numbers.items) result (one_list (words_in words.entry)) }
{
    let numbers = last_word(words)?;
    numbers_in_word(alloc, numbers)
}

/// Returns the command of a line that has no more words.
fn lone_command(words: Option<&[u8]>, command: Command) -> Result<Command, ParseError>
    ensures { Gives order_of_command result
        (lone_order (order_of_command command) (words_in words.entry)) }
{
    match words {
        None => Ok(command),
        Some(_) => Err(ParseError::NotACommand),
    }
}

/// Returns the command of a line that begins with this verb. The latest array before it has the known type.
fn verb_command(
    alloc: Global,
    verb: Verb,
    known: Option<CellType>,
    words: Option<&[u8]>,
) -> Result<Command, ParseError>
    ensures { Gives order_of_command result (verb_order verb known (words_in words.entry)) }
{
    match (verb, known) {
        (Verb::Array, _) => array_command(alloc, words),
        (_, None) => Err(ParseError::NotACommand),
        (Verb::Chunk, Some(cell_type)) => chunk_command(alloc, cell_type, words),
        (Verb::Read, Some(_)) => Ok(Command::Call(Call::RetrieveChunk(one_list(alloc, words)?))),
        (Verb::Erase, Some(_)) => Ok(Command::Call(Call::EraseChunk(one_list(alloc, words)?))),
        (Verb::Put, Some(cell_type)) => put_command(alloc, cell_type, words),
        (Verb::Get, Some(_)) => get_command(alloc, words),
        (Verb::Resize, Some(_)) => Ok(Command::Call(Call::Resize(one_list(alloc, words)?))),
        (Verb::Keys, Some(_)) => lone_command(words, Command::Keys),
        (Verb::Meta, Some(_)) => lone_command(words, Command::Meta),
    }
}

/// Returns the command of a line, if the latest array before it has the known type.
///
/// # Errors
/// `NotACommand` for a line that is no command. `OutOfMemory` may come at any time.
#[tactic(auto, unfolding(crate::specs::Script::order_of))]
fn command_of(alloc: Global, known: Option<CellType>, line: &[u8]) -> Result<Command, ParseError>
    ensures { Gives order_of_command result (order_of known line.now) }
{
    let (first, words) = next_word(Some(line))?;
    let verb = Verb::named(first).ok_or(ParseError::NotACommand)?;
    verb_command(alloc, verb, known, words)
}

/// Returns the type of the latest array after this command.
fn type_after(known: Option<CellType>, command: &Command) -> Option<CellType>
    ensures { result ≡ type_after known (order_of_command command.now) }
{
    match command {
        Command::Array(creation) => Some(creation.cell_type),
        _ => known,
    }
}

/// Returns whether the line is empty, or begins with `#`.
fn is_skipped(line: &[u8]) -> bool
    ensures { result ≡ is_skipped line.now }
{
    match line {
        [] => true,
        [first, ..] => *first == b'#',
    }
}

/// Returns the commands of a script.
///
/// # Errors
/// `BadLine` for the first line that is neither a command nor skipped. `OutOfMemory` may come at any time.
pub fn commands_of(alloc: Global, script: &[u8]) -> Result<Vec<Command>, ScriptError>
    ensures { GivesOrders script.now result }
{
    let mut commands = Vec::new(alloc);
    let mut known = None;
    let mut number = 0u64;
    for line in script.split(|byte| *byte == b'\n') {
        number += 1;
        if is_skipped(line) {
            continue;
        }
        let command = match command_of(alloc, known, line) {
            Ok(command) => command,
            Err(ParseError::NotACommand) => return Err(ScriptError::BadLine(number)),
            Err(ParseError::OutOfMemory) => return Err(ScriptError::OutOfMemory),
        };
        known = type_after(known, &command);
        let Ok(()) = commands.push(command) else {
            return Err(ScriptError::OutOfMemory);
        };
    }
    Ok(commands)
}
