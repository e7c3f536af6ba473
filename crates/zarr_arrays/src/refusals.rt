//! Why a command is refused.
use std::alloc::{AllocError, AllocFailed, Global};
use std::{fmt, io};
use zarr_cells::CellsError;
use zarrs::{
    ArrayCreateError, ArrayError, ArraySubsetError, IncompatibleDimensionalityError, SizeOverflow,
    StorageError,
};

/// Why a command is refused. Refusals of the array layer have its numbers.
#[derive(Debug, Drop)]
pub enum Refusal {
    /// A call of an array.
    Call(ArrayError),
    /// The making or the opening of an array.
    Creation(ArrayCreateError),
    /// What the system says of a file, a folder or a stream.
    Io(io::Error),
    /// Anything else, as a text.
    Said(String),
    /// Out of memory.
    OutOfMemory,
}

impl Refusal {
    /// Makes the refusal with this text, or `OutOfMemory`.
    pub fn said(alloc: Global, text: &str) -> Refusal {
        match String::from_str(alloc, text) {
            Ok(text) => Refusal::Said(text),
            Err(_) => Refusal::OutOfMemory,
        }
    }

    /// Returns whether nobody reads the output any more.
    pub fn is_closed_pipe(&self) -> bool {
        match self {
            Refusal::Io(error) => error.kind() == io::ErrorKind::BrokenPipe,
            _ => false,
        }
    }
}

/// Returns the number of a refused call.
fn number_of_call(error: &ArrayError) -> u8 {
    match error {
        ArrayError::InvalidArraySubset(_, _) => 1,
        ArrayError::InvalidChunkSubset(_, _, _) => 2,
        ArrayError::InvalidChunkGridIndicesError(_) => 3,
        ArrayError::CodecError(_) => 4,
        ArrayError::ElementError(_) => 5,
        ArrayError::InvalidDataShape(_, _) => 6,
        ArrayError::StorageError(_) => 7,
        ArrayError::SizeOverflow => 8,
        ArrayError::OutOfMemory => 9,
        ArrayError::IncompatibleDimensionalityError(_) => 10,
        ArrayError::UnsupportedMethod(_) => 28,
        _ => 0,
    }
}

/// Returns the number of a refused creation.
fn number_of_creation(error: &ArrayCreateError) -> u8 {
    match error {
        ArrayCreateError::NodePathError(_) => 11,
        ArrayCreateError::AdditionalFieldUnsupportedError(_) => 12,
        ArrayCreateError::DataTypeCreateError(_) => 13,
        ArrayCreateError::InvalidFillValue { .. } => 14,
        ArrayCreateError::InvalidFillValueMetadata { .. } => 15,
        ArrayCreateError::CodecsCreateError(_) => 16,
        ArrayCreateError::StorageTransformersCreateError(_) => 17,
        ArrayCreateError::ChunkGridCreateError(_) => 18,
        ArrayCreateError::ChunkKeyEncodingCreateError(_) => 19,
        ArrayCreateError::InvalidChunkGridDimensionality(_, _) => 20,
        ArrayCreateError::InvalidDimensionNames(_, _) => 21,
        ArrayCreateError::InvalidSubchunkShape(_) => 22,
        ArrayCreateError::StorageError(_) => 23,
        ArrayCreateError::MissingMetadata => 24,
        ArrayCreateError::UnsupportedZarrV2Array(_) => 25,
        ArrayCreateError::OutOfMemory => 26,
    }
}

impl fmt::Display for Refusal {
    fn fmt<W: fmt::Write>(&self, f: &mut fmt::Formatter<W>) -> fmt::Result {
        match self {
            Refusal::Call(error) => write!(f, "E{}: {error}", number_of_call(error)),
            Refusal::Creation(error) => write!(f, "E{}: {error}", number_of_creation(error)),
            Refusal::Io(error) => write!(f, "{error}"),
            Refusal::Said(text) => f.write_str(text.as_str()),
            Refusal::OutOfMemory => f.write_str("E9: out of memory"),
        }
    }
}

impl From<ArrayError> for Refusal {
    fn from(error: ArrayError) -> Refusal {
        Refusal::Call(error)
    }
}

impl From<ArrayCreateError> for Refusal {
    fn from(error: ArrayCreateError) -> Refusal {
        Refusal::Creation(error)
    }
}

impl From<StorageError> for Refusal {
    fn from(error: StorageError) -> Refusal {
        Refusal::Call(ArrayError::from(error))
    }
}

impl From<SizeOverflow> for Refusal {
    fn from(_error: SizeOverflow) -> Refusal {
        Refusal::Call(ArrayError::SizeOverflow)
    }
}

impl From<ArraySubsetError> for Refusal {
    fn from(error: ArraySubsetError) -> Refusal {
        match error {
            ArraySubsetError::IncompatibleDimensionality(error) => Refusal::from(error),
            ArraySubsetError::OutOfMemory => Refusal::OutOfMemory,
            _ => Refusal::Call(ArrayError::SizeOverflow),
        }
    }
}

impl From<IncompatibleDimensionalityError> for Refusal {
    fn from(error: IncompatibleDimensionalityError) -> Refusal {
        Refusal::Call(ArrayError::IncompatibleDimensionalityError(error))
    }
}

impl From<CellsError> for Refusal {
    fn from(error: CellsError) -> Refusal {
        match error {
            CellsError::Subset(error) => Refusal::from(error),
            CellsError::SizeOverflow => Refusal::Call(ArrayError::SizeOverflow),
            CellsError::Io(error) => Refusal::Io(error),
            CellsError::Said(text) => Refusal::Said(text),
            CellsError::OutOfMemory => Refusal::OutOfMemory,
        }
    }
}

impl From<io::Error> for Refusal {
    fn from(error: io::Error) -> Refusal {
        Refusal::Io(error)
    }
}

impl From<AllocError> for Refusal {
    fn from(_error: AllocError) -> Refusal {
        Refusal::OutOfMemory
    }
}

impl<T: Drop> From<AllocFailed<T>> for Refusal {
    fn from(_error: AllocFailed<T>) -> Refusal {
        Refusal::OutOfMemory
    }
}
