//! Why the words of a command are refused.
ghost use Rattle.std.specs.Prelude.{◌≡◌};
ghost use Rattle.zarr_words.specs.declared.error.WordsError.TheVariants.{OutOfMemory};

use std::alloc::AllocError;
use std::fmt;

/// Why the words of a command are refused.
#[derive(Debug, Drop)]
pub enum WordsError {
    /// A word too many or too few, an option that is not known, has no value or is there twice, a quote without an end.
    Said(String),
    /// Out of memory.
    OutOfMemory,
}

impl fmt::Display for WordsError {
    fn fmt<W: fmt::Write>(&self, f: &mut fmt::Formatter<W>) -> fmt::Result {
        match self {
            WordsError::Said(text) => f.write_str(text.as_str()),
            WordsError::OutOfMemory => f.write_str("E9: out of memory"),
        }
    }
}

impl From<AllocError> for WordsError {
    ghost from_gives = { λ _ e. e ≡ OutOfMemory };

    fn from(_error: AllocError) -> WordsError {
        WordsError::OutOfMemory
    }
}
