//! What parsing, creating and running refuse.
ghost use Rattle.std.specs.Prelude.{◌≡◌};
ghost use Rattle.zarrs_script.specs.declared.error.ParseError.TheVariants as parse;
ghost use Rattle.zarrs_script.specs.declared.error.CreationError.TheVariants as creation;

use std::alloc::{AllocError, AllocFailed};
use std::io;

/// Why a line is not read.
#[derive(Clone, Copy, Drop)]
pub enum ParseError {
    /// The line is not a command.
    NotACommand,
    /// Out of memory.
    OutOfMemory,
}

/// Why a script has no commands.
#[derive(Clone, Copy, Drop)]
pub enum ScriptError {
    /// The line of this number, from 1, is the first one that is not a command.
    BadLine(u64),
    /// Out of memory.
    OutOfMemory,
}

/// Why an `array` line is refused.
#[derive(Clone, Copy, Drop)]
pub enum CreationError {
    /// The chunk shape has another length than the shape, or an extent 0.
    NoGrid,
    /// Out of memory.
    OutOfMemory,
}

/// Input, output or memory outside a call failed.
#[derive(Drop)]
pub struct Stopped;

impl<T: Drop> From<AllocFailed<T>> for ParseError {
    ghost from_gives = { λ _ e. e ≡ parse.OutOfMemory };

    fn from(_error: AllocFailed<T>) -> ParseError {
        ParseError::OutOfMemory
    }
}

impl From<AllocError> for CreationError {
    ghost from_gives = { λ _ e. e ≡ creation.OutOfMemory };

    fn from(_error: AllocError) -> CreationError {
        CreationError::OutOfMemory
    }
}

impl<T: Drop> From<AllocFailed<T>> for CreationError {
    ghost from_gives = { λ _ e. e ≡ creation.OutOfMemory };

    fn from(_error: AllocFailed<T>) -> CreationError {
        CreationError::OutOfMemory
    }
}

impl From<AllocError> for Stopped {
    fn from(_error: AllocError) -> Stopped {
        Stopped
    }
}

impl<T: Drop> From<AllocFailed<T>> for Stopped {
    fn from(_error: AllocFailed<T>) -> Stopped {
        Stopped
    }
}

impl From<io::Error> for Stopped {
    fn from(_error: io::Error) -> Stopped {
        Stopped
    }
}
