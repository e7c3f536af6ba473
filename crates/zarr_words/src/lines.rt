//! The lines of a session.
use crate::error::WordsError;
use crate::words::refused;
use std::alloc::{AllocError, Global};

/// Returns the word that stands for this one: `<` and `>` name the file that cells come from or go to.
fn meant(word: &str) -> &str {
    match word {
        "<" => "--from",
        ">" => "--to",
        _ => word,
    }
}

/// Adds the words that blanks part.
fn add_words(alloc: Global, words: &mut Vec<String>, part: &str) -> Result<(), AllocError> {
    for word in part.split_ascii_whitespace() {
        words.push(String::from_str(alloc, meant(word))?)?;
    }
    Ok(())
}

/// Returns whether each quote of the line has an end.
fn has_ends(line: &str) -> bool {
    let mut is_outside = false;
    for _ in line.split('\'') {
        is_outside = !is_outside;
    }
    is_outside
}

/// Returns the words of a line whose quotes have ends.
fn words_in(alloc: Global, line: &str) -> Result<Vec<String>, AllocError> {
    let mut words = Vec::new(alloc);
    words.push(String::from_str(alloc, "zarr")?)?;
    let mut is_quoted = false;
    for part in line.split('\'') {
        if is_quoted {
            words.push(String::from_str(alloc, part)?)?;
        } else {
            add_words(alloc, &mut words, part)?;
        }
        is_quoted = !is_quoted;
    }
    Ok(words)
}

/// Returns the words of a line. Blanks stand between words, but not inside `'..'`.
///
/// # Errors
/// A quote without an end; out of memory.
pub fn words_of(alloc: Global, line: &str) -> Result<Vec<String>, WordsError> {
    if !has_ends(line) {
        return Err(refused(alloc, "a quote has no end:", line));
    }
    Ok(words_in(alloc, line)?)
}
