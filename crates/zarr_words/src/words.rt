//! The words of a command line, by their names.
ghost use Rattle.std.specs.Prelude.{◌≡◌, [], is_some, unwrap_or};
ghost use Rattle.std.specs.Option.{option_copied};
ghost use Rattle.zarr_words.specs.Named.{value_given};

use crate::error::WordsError;
use crate::usages::{OptionKind, Usage};
use std::alloc::{AllocError, Global};

/// The words that were given to a command.
#[derive(Debug, Drop)]
pub struct Given<'a> {
    /// How many places are filled.
    places: usize,
    /// Names with their values; an option without a value has an empty one.
    values: Vec<(&'a str, &'a str)>,
}

/// Returns the error that says this of the word.
pub(crate) fn refused(alloc: Global, about: &str, word: &str) -> WordsError {
    match format!(in alloc; "{about} `{word}`") {
        Ok(text) => WordsError::Said(text),
        Err(_) => WordsError::OutOfMemory,
    }
}

/// Returns what stands after the `--` of an option, and its value if one stands after `=`.
fn option_of(word: &str) -> Option<(&str, Option<&str>)> {
    let option = word.strip_prefix("--")?;
    match option.split_once('=') {
        Some((name, value)) => Some((name, Some(value))),
        None => Some((option, None)),
    }
}

impl<'a> Given<'a> {
    fn add(&mut self, name: &'a str, value: &'a str) -> Result<(), AllocError> {
        self.values.push((name, value))?;
        Ok(())
    }

    /// Puts the word into the next place.
    fn take_place(
        &mut self,
        alloc: Global,
        usage: &Usage,
        word: &'a str,
    ) -> Result<(), WordsError> {
        let Some(name) = usage.place(self.places) else {
            return Err(refused(alloc, "nothing is known of the word", word));
        };
        self.places = self.places.saturating_add(1);
        Ok(self.add(name, word)?)
    }

    /// Takes the option. Returns its name, if its value is the next word.
    fn take_option(
        &mut self,
        alloc: Global,
        usage: &Usage,
        name: &'a str,
        value: Option<&'a str>,
    ) -> Result<Option<&'a str>, WordsError> {
        match (usage.option(name), value) {
            (Some((known, _)), _) if self.has(known) => {
                return Err(refused(alloc, "given twice: the option", known));
            }
            (Some((known, OptionKind::Flag)), None) => self.add(known, "")?,
            (None, _) | (Some((_, OptionKind::Flag)), Some(_)) => {
                return Err(refused(alloc, "nothing is known of the option", name));
            }
            (Some((known, _)), Some(value)) => self.add(known, value)?,
            (Some((known, _)), None) => return Ok(Some(known)),
        }
        Ok(None)
    }

    /// Takes the word. Returns the name of the option whose value is the next word, if it is such an option.
    fn take(
        &mut self,
        alloc: Global,
        usage: &Usage,
        word: &'a str,
    ) -> Result<Option<&'a str>, WordsError> {
        match option_of(word) {
            Some((name, value)) => self.take_option(alloc, usage, name, value),
            None => {
                self.take_place(alloc, usage, word)?;
                Ok(None)
            }
        }
    }

    /// Asks that each word is there that has to be.
    fn need_all(&self, alloc: Global, usage: &Usage) -> Result<(), WordsError> {
        if let Some(name) = usage.place_missing(self.places) {
            return Err(refused(alloc, "missing:", name));
        }
        for name in usage.needed(alloc)? {
            if !self.has(name) {
                return Err(refused(alloc, "missing: the option", name));
            }
        }
        Ok(())
    }

    /// Returns the words by their names.
    ///
    /// # Errors
    /// A word too many or too few, an option that is not known, has no value or is there twice.
    pub fn of(alloc: Global, usage: &Usage, words: &'a [String]) -> Result<Given<'a>, WordsError> {
        let mut given = Given {
            places: 0,
            values: Vec::new(alloc),
        };
        let mut awaited = None;
        for word in words {
            awaited = match awaited {
                Some(name) => {
                    given.add(name, word.as_str())?;
                    None
                }
                None => given.take(alloc, usage, word.as_str())?,
            };
        }
        if let Some(name) = awaited {
            return Err(refused(alloc, "no value of the option", name));
        }
        given.need_all(alloc, usage)?;
        Ok(given)
    }

    /// Returns the value of this name, if it was given.
    pub fn get(&self, name: &str) -> Option<&'a str>
        ensures { option_copied result ≡ value_given self.now name.now }
    {
        for (known, value) in &self.values {
            if *known == name {
                return Some(*value);
            }
        }
        None
    }

    /// Returns whether the word of this name was given.
    pub fn has(&self, name: &str) -> bool
        ensures { result ≡ is_some (value_given self.now name.now) }
    {
        self.get(name).is_some()
    }

    /// Returns the value that was given, or an empty one.
    pub fn value(&self, name: &str) -> &'a str
        ensures { result.now ≡ unwrap_or (value_given self.now name.now) [] }
    {
        self.get(name).unwrap_or("")
    }
}
