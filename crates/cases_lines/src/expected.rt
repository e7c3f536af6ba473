//! What a call must answer, and what must hold after it.
use crate::why::Why;
use crate::words::{count_of, decoded, json};
use serde_json::Value;
use std::alloc::{AllocError, Global};

/// What stands for an open cell while the cells are read as JSON: no cell is an object.
const OPEN: &str = "{\"?\":0}";

/// How what is found is written, if it is no JSON.
#[derive(Clone, Copy)]
pub(crate) enum Form {
    Words,
    Number,
    Bytes,
    /// These words alone, whatever they have in them.
    Told,
}

/// What must be found.
#[derive(Drop)]
pub struct Expected<'a> {
    /// As the line has it.
    pub written: &'a str,
    /// Its alternatives. One of them must be found.
    pub(crate) patterns: Vec<Pattern>,
}

/// What may be found, in the form in which answers are shown.
#[derive(Drop)]
pub(crate) enum Pattern {
    /// Anything, for `?`.
    Any,
    /// This text.
    Text(String),
    /// A list of cells with open ones: the texts before, between and behind these.
    Cells(Vec<String>),
    /// Bytes in hexadecimal with open ones, which are `??`.
    Bytes(String),
}

/// What the quotes read so far say of the next letter.
#[derive(Default, Drop)]
pub(crate) struct Quotes {
    open: bool,
    escaped: bool,
}

impl Quotes {
    /// Whether the letter, which is the next one, stands in no JSON text.
    pub(crate) fn are_closed(&mut self, letter: char) -> bool {
        if letter == '"' && !self.escaped {
            self.open = !self.open;
        }
        self.escaped = letter == '\\' && !self.escaped;
        !self.open
    }
}

/// Alternatives, with `|` between them. A `|` in a JSON text is none of these.
pub(crate) fn expectation<'a>(
    alloc: Global,
    form: Form,
    written: &'a str,
) -> Result<Expected<'a>, Why<'a>> {
    let mut patterns = Vec::new(alloc);
    let mut quotes = Quotes::default();
    let is_told = matches!(form, Form::Told);
    for word in written.split(|letter| quotes.are_closed(letter) && letter == '|' && !is_told) {
        patterns.push(pattern_of(alloc, form, word)?)?;
    }
    Ok(Expected { written, patterns })
}

fn pattern_of<'a>(alloc: Global, form: Form, word: &'a str) -> Result<Pattern, Why<'a>> {
    match form {
        Form::Told => text_pattern(alloc, word),
        _ if word == "?" => Ok(Pattern::Any),
        _ if word.starts_with('[') => cells_pattern(alloc, word),
        _ if word.starts_with('{') => object_pattern(alloc, word),
        // A refusal is told where bytes may be told, or that there are none.
        Form::Bytes if word.starts_with('E') => text_pattern(alloc, word),
        Form::Bytes if matches!(word, "gone" | "no array" | "nothing") => text_pattern(alloc, word),
        Form::Bytes => bytes_pattern(alloc, word),
        Form::Number if word.parse::<u64>().is_err() => Err(Why::Number(word)),
        Form::Number | Form::Words => text_pattern(alloc, word),
    }
}

fn text_pattern<'a>(alloc: Global, word: &'a str) -> Result<Pattern, Why<'a>> {
    Ok(Pattern::Text(String::from_str(alloc, word)?))
}

/// A JSON object, in its compact text.
fn object_pattern<'a>(alloc: Global, word: &'a str) -> Result<Pattern, Why<'a>> {
    let value = json(alloc, word)?;
    Ok(Pattern::Text(value.to_string(alloc)?))
}

/// A list of cells, some of which may be `?`.
fn cells_pattern<'a>(alloc: Global, word: &'a str) -> Result<Pattern, Why<'a>> {
    let marked = marked(alloc, word)?;
    let shown = match Value::from_str(alloc, marked.as_str()) {
        Ok(value) => value.to_string(alloc)?,
        Err(error) if error.is_memory() => return Err(Why::OutOfMemory),
        Err(_) => return Err(Why::Json(word)),
    };
    if !shown.as_str().contains(OPEN) {
        return Ok(Pattern::Text(shown));
    }
    let mut pieces = Vec::new(alloc);
    for piece in shown.as_str().split(OPEN) {
        pieces.push(String::from_str(alloc, piece)?)?;
    }
    Ok(Pattern::Cells(pieces))
}

/// The word with an object in place of each `?` that stands in no text.
fn marked(alloc: Global, word: &str) -> Result<String, AllocError> {
    let mut marked = String::new(alloc);
    let mut quotes = Quotes::default();
    for letter in word.chars() {
        if quotes.are_closed(letter) && letter == '?' {
            marked.push_str(OPEN)?;
        } else {
            marked.push(letter)?;
        }
    }
    Ok(marked)
}

/// Bytes or `none`, of each chunk. Some bytes may be `??`.
fn bytes_pattern<'a>(alloc: Global, words: &'a str) -> Result<Pattern, Why<'a>> {
    let mut shown = String::new(alloc);
    for word in words.split(' ') {
        if !shown.is_empty() {
            shown.push_str(" ")?;
        }
        push_bytes(alloc, &mut shown, word)?;
    }
    if shown.as_str().contains("?") {
        return Ok(Pattern::Bytes(shown));
    }
    Ok(Pattern::Text(shown))
}

/// Adds the bytes in hexadecimal, without groups.
fn push_bytes<'a>(alloc: Global, shown: &mut String, word: &'a str) -> Result<(), Why<'a>> {
    if word == "none" || word == "-" {
        shown.push_str(word)?;
        return Ok(());
    }
    for group in word.split(',') {
        let (digits, count) = count_of(word, group)?;
        let part = open_bytes(alloc, digits)?;
        for _ in 0..count {
            shown.push_str(part.as_str())?;
        }
    }
    Ok(())
}

/// The bytes in hexadecimal. Some of them may be `??`.
fn open_bytes<'a>(alloc: Global, digits: &'a str) -> Result<String, Why<'a>> {
    let mut shown = String::new(alloc);
    let mut is_first = true;
    for piece in digits.split("??") {
        if !is_first {
            shown.push_str("??")?;
        }
        is_first = false;
        let part = hex::encode(alloc, &decoded(alloc, piece)?)?;
        shown.push_str(part.as_str())?;
    }
    Ok(shown)
}
