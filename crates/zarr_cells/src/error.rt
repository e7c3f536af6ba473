//! Why words, lines or bytes are refused.
ghost use Rattle.std.specs.Prelude.{◌≡◌};
ghost use Rattle.zarr_cells.specs.declared.error.CellsError.TheVariants as refusal;

use std::alloc::{AllocError, AllocFailed, Global};
use std::{fmt, io};
use zarrs_subset::{ArraySubsetError, SizeOverflow};

/// Why words, lines or bytes are refused.
#[derive(Debug, Drop)]
pub enum CellsError {
    /// A region has another number of extents than starts, or ends past 2^64.
    Subset(ArraySubsetError),
    /// There are more cells or bytes than 64 bits count.
    SizeOverflow,
    /// What the system says of a stream.
    Io(io::Error),
    /// Anything else, as a text.
    Said(String),
    /// Out of memory.
    OutOfMemory,
}

impl CellsError {
    ghost use Rattle.zarr_cells.specs.Refusals.{SaysText};

    /// Makes the error with this text, or `OutOfMemory`.
    pub fn said(alloc: Global, text: &str) -> CellsError
        ensures { SaysText text.now result }
    {
        match String::from_str(alloc, text) {
            Ok(text) => CellsError::Said(text),
            Err(_) => CellsError::OutOfMemory,
        }
    }
}

impl fmt::Display for CellsError {
    fn fmt<W: fmt::Write>(&self, f: &mut fmt::Formatter<W>) -> fmt::Result {
        match self {
            CellsError::Subset(error) => write!(f, "{error}"),
            CellsError::SizeOverflow => f.write_str("E8: size exceeds the number types"),
            CellsError::Io(error) => write!(f, "{error}"),
            CellsError::Said(text) => f.write_str(text.as_str()),
            CellsError::OutOfMemory => f.write_str("E9: out of memory"),
        }
    }
}

impl From<ArraySubsetError> for CellsError {
    ghost from_gives = { λ error e. e ≡ refusal.Subset error };

    fn from(error: ArraySubsetError) -> CellsError {
        CellsError::Subset(error)
    }
}

impl From<SizeOverflow> for CellsError {
    ghost from_gives = { λ _ e. e ≡ refusal.SizeOverflow };

    fn from(_error: SizeOverflow) -> CellsError {
        CellsError::SizeOverflow
    }
}

impl From<io::Error> for CellsError {
    ghost from_gives = { λ error e. e ≡ refusal.Io error };

    fn from(error: io::Error) -> CellsError {
        CellsError::Io(error)
    }
}

impl From<AllocError> for CellsError {
    ghost from_gives = { λ _ e. e ≡ refusal.OutOfMemory };

    fn from(_error: AllocError) -> CellsError {
        CellsError::OutOfMemory
    }
}

impl<T: Drop> From<AllocFailed<T>> for CellsError {
    ghost from_gives = { λ _ e. e ≡ refusal.OutOfMemory };

    fn from(_error: AllocFailed<T>) -> CellsError {
        CellsError::OutOfMemory
    }
}
