//! Why a case file is not run.
use std::alloc::{AllocError, AllocFailed};
use std::fmt;

/// What is wrong with a line, and the word that is wrong.
#[derive(Clone, Copy)]
pub enum Why<'a> {
    /// The first word names no call, or one that takes more or fewer words.
    Call(&'a str),
    /// An indented line says nothing that can be looked at.
    Effect(&'a str),
    /// The line has no ` => `, and is none that stands before a call.
    NoAnswer(&'a str),
    /// A word in brackets is no option.
    Option(&'a str),
    /// The word behind `with` is no part of a builder.
    Part(&'a str),
    /// A word is no number below 2^64.
    Number(&'a str),
    /// A word is no box, as `3..6,2..7`.
    Region(&'a str),
    /// A word is no ranges of places in ascending order, as `0..2,18..34`.
    Places(&'a str),
    /// A word is no bytes, as `00ff,01*7`.
    Bytes(&'a str),
    /// A word is no key of a store.
    Key(&'a str),
    /// A word is no JSON value.
    Json(&'a str),
    /// A JSON value is no metadata of an array.
    Document(&'a str),
    /// Cells are no values of the array's data type.
    Cells(&'a str),
    /// Data in its raw form is not well-formed.
    RawData(&'a str),
    /// The word of `as:` names no data type.
    Type(&'a str),
    /// No values of the language stand for the cells of the type.
    NoValues(&'a str),
    /// A call asks for as many indices as the array has dimensions.
    Dimensions(&'a str),
    /// The box of a target does not lie in its parent, or its bytes have another length.
    Target(&'a str),
    /// The bytes are none that the chunk's codecs decode.
    NotEncoded(&'a str),
    /// An indented line stands before any call of its block.
    NoCall(&'a str),
    /// Chunks are compared, and there are not two arrays.
    NoOther,
    /// Out of memory.
    OutOfMemory,
}

impl<'a> Why<'a> {
    /// What is wrong, and the word that is, if there is one.
    fn parts(&self) -> (&'static str, &'a str) {
        match self {
            Why::Call(word) => ("no call has this name and so many words", word),
            Why::Effect(word) => ("nothing to look at after a call", word),
            Why::NoAnswer(word) => ("a call has an answer, and nothing else begins so", word),
            Why::Option(word) => ("no option", word),
            Why::Part(word) => ("no part of a builder", word),
            Why::Number(word) => ("no number below 2^64", word),
            Why::Region(word) => ("no box", word),
            Why::Places(word) => ("no places in ascending order", word),
            Why::Bytes(word) => ("no bytes", word),
            Why::Key(word) => ("no key of a store", word),
            Why::Json(word) => ("no JSON value", word),
            Why::Document(word) => ("no metadata of an array", word),
            Why::Cells(word) => ("no cells of the data type", word),
            Why::RawData(word) => ("no raw data", word),
            Why::Type(word) => ("no data type", word),
            Why::NoValues(word) => ("no values of the language", word),
            Why::Dimensions(word) => ("the call takes an index for each dimension", word),
            Why::Target(word) => ("no target", word),
            Why::NotEncoded(word) => ("no bytes that decode", word),
            Why::NoCall(word) => ("no call stands before it", word),
            Why::NoOther => ("no array is open, or none is set aside", ""),
            Why::OutOfMemory => ("out of memory", ""),
        }
    }
}

impl fmt::Display for Why<'_> {
    fn fmt<W: fmt::Write>(&self, f: &mut fmt::Formatter<W>) -> fmt::Result {
        let (wrong, word) = self.parts();
        if word.is_empty() {
            return write!(f, "{wrong}");
        }
        write!(f, "{wrong}: {word}")
    }
}

impl From<AllocError> for Why<'_> {
    fn from(_error: AllocError) -> Self {
        Why::OutOfMemory
    }
}

impl<T: Drop> From<AllocFailed<T>> for Why<'_> {
    fn from(_error: AllocFailed<T>) -> Self {
        Why::OutOfMemory
    }
}

/// A line that is not run, and why.
#[derive(Clone, Copy)]
pub struct CaseError<'a> {
    /// The number of the line, from 1.
    pub line: u64,
    /// What is wrong with it.
    pub why: Why<'a>,
}
