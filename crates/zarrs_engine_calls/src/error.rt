//! What the calls of an array refuse.
ghost use Rattle.std.specs.Prelude.{◌≡◌};
ghost use Rattle.zarrs_engine_calls.specs.declared.error.ArrayError.TheVariants as array;
ghost use Rattle.zarrs_engine_calls.specs.Errors.{error_of_storage, error_of_codec, error_of_element};
ghost use Rattle.zarrs_engine_calls.specs.Errors.{error_of_part, error_of_subset, unfit};

use std::alloc::{AllocError, AllocFailed};
use thiserror::Error;
use zarrs_codec_chain::PartError;
use zarrs_codec_leaf::{CodecError, Misfit};
use zarrs_data_type::{
    ArrayBytesFixedDisjointViewCreateError, ElementError, ExpectedFixedLengthBytesError,
    ExpectedOptionalBytesError, ExpectedVariableLengthBytesError,
};
use zarrs_storage::StorageError;
use zarrs_subset::{
    ArrayIndices, ArrayShape, ArraySubset, ArraySubsetError, IncompatibleDimensionalityError,
};

/// Why a call of an array was refused.
#[derive(Debug, Drop, Error)]
#[non_exhaustive]
pub enum ArrayError {
    /// E1: a region of another number of dimensions, or with a position that no chunk covers.
    #[error("array subset {0} is not compatible with array shape {1:?}")]
    InvalidArraySubset(ArraySubset, ArrayShape),
    /// E2: a part of a chunk that has another number of dimensions, or passes the chunk.
    #[error("chunk subset {0} is not compatible with chunk {1:?} with shape {2:?}")]
    InvalidChunkSubset(ArraySubset, ArrayIndices, ArrayShape),
    /// E3: chunk indices of another length than the array has dimensions, or without a chunk.
    #[error("invalid chunk grid indices: {0:?}")]
    InvalidChunkGridIndicesError(Vec<u64>),
    /// E4: data or bytes that the chain of codecs does not take.
    #[error(transparent)]
    CodecError(CodecError),
    /// E5: values of another type than the array's data type.
    #[error(transparent)]
    ElementError(ElementError),
    /// E6: a target of another shape than the region.
    #[error("data has shape {0:?}, expected {1:?}")]
    InvalidDataShape(Vec<u64>, Vec<u64>),
    /// E7: the store refused.
    #[error(transparent)]
    StorageError(StorageError),
    /// E8: a number of cells, bytes or chunks that no `usize` or `u64` counts.
    #[error("size exceeds the number types")]
    SizeOverflow,
    /// E9: out of memory.
    #[error("out of memory")]
    OutOfMemory,
    /// E10: lists that should have one entry for each dimension differ in length.
    #[error(transparent)]
    IncompatibleDimensionalityError(IncompatibleDimensionalityError),
    /// A decode target that does not lie in its bytes. No call returns it.
    #[error(transparent)]
    ArrayBytesFixedDisjointViewCreateError(ArrayBytesFixedDisjointViewCreateError),
    /// No such box. No call returns it.
    #[error(transparent)]
    ArraySubsetError(ArraySubsetError),
    /// A decoded chunk of another size. No call returns it.
    #[error("got chunk decoded size {0:?}, expected {1:?}")]
    UnexpectedChunkDecodedSize(usize, usize),
    /// Bytes of another size. No call returns it.
    #[error("got bytes with size {0:?}, expected {1:?}")]
    InvalidBytesInputSize(usize, u64),
    /// A decoded chunk of another shape. No call returns it.
    #[error("got chunk decoded shape {0:?}, expected {1:?}")]
    UnexpectedChunkDecodedShape(ArrayShape, ArrayShape),
    /// E28: a change of the shape of an array whose chunk grid is not `regular`.
    #[error("unsupported array method: {0}")]
    UnsupportedMethod(String),
    /// Any other refusal, as a text. No call returns it.
    #[error("{0}")]
    Other(String),
}

impl From<AllocError> for ArrayError {
    ghost from_gives = { λ _ e. e ≡ array.OutOfMemory };

    fn from(_error: AllocError) -> ArrayError {
        ArrayError::OutOfMemory
    }
}

impl<T: Drop> From<AllocFailed<T>> for ArrayError {
    ghost from_gives = { λ _ e. e ≡ array.OutOfMemory };

    fn from(_error: AllocFailed<T>) -> ArrayError {
        ArrayError::OutOfMemory
    }
}

impl From<StorageError> for ArrayError {
    ghost from_gives = { λ s e. e ≡ error_of_storage s };

    fn from(error: StorageError) -> ArrayError {
        match error {
            StorageError::OutOfMemory => ArrayError::OutOfMemory,
            other => ArrayError::StorageError(other),
        }
    }
}

impl From<CodecError> for ArrayError {
    ghost from_gives = { λ c e. e ≡ error_of_codec c };

    fn from(error: CodecError) -> ArrayError {
        match error {
            CodecError::DoesNotFit(misfit) => {
                ArrayError::CodecError(CodecError::DoesNotFit(misfit))
            }
            CodecError::SizeOverflow => ArrayError::SizeOverflow,
            CodecError::OutOfMemory => ArrayError::OutOfMemory,
        }
    }
}

impl From<PartError> for ArrayError {
    ghost from_gives = { λ part e. e ≡ error_of_part part };

    fn from(error: PartError) -> ArrayError {
        match error {
            PartError::Codec(error) => ArrayError::from(error),
            PartError::Source(error) => ArrayError::from(error),
        }
    }
}

impl From<ElementError> for ArrayError {
    ghost from_gives = { λ element e. e ≡ error_of_element element };

    fn from(error: ElementError) -> ArrayError {
        match error {
            ElementError::OutOfMemory => ArrayError::OutOfMemory,
            other => ArrayError::ElementError(other),
        }
    }
}

impl From<ArraySubsetError> for ArrayError {
    ghost from_gives = { λ subset e. e ≡ error_of_subset subset };

    fn from(error: ArraySubsetError) -> ArrayError {
        match error {
            ArraySubsetError::OutOfMemory => ArrayError::OutOfMemory,
            other => ArrayError::ArraySubsetError(other),
        }
    }
}

impl From<IncompatibleDimensionalityError> for ArrayError {
    ghost from_gives = { λ mismatch e. e ≡ array.IncompatibleDimensionalityError mismatch };

    fn from(error: IncompatibleDimensionalityError) -> ArrayError {
        ArrayError::IncompatibleDimensionalityError(error)
    }
}

impl From<ArrayBytesFixedDisjointViewCreateError> for ArrayError {
    ghost from_gives = { λ view e. e ≡ array.ArrayBytesFixedDisjointViewCreateError view };

    fn from(error: ArrayBytesFixedDisjointViewCreateError) -> ArrayError {
        ArrayError::ArrayBytesFixedDisjointViewCreateError(error)
    }
}

impl From<ExpectedFixedLengthBytesError> for ArrayError {
    ghost from_gives = { λ _ e. e ≡ unfit };

    fn from(_error: ExpectedFixedLengthBytesError) -> ArrayError {
        ArrayError::CodecError(CodecError::DoesNotFit(Misfit::NoValue))
    }
}

impl From<ExpectedVariableLengthBytesError> for ArrayError {
    ghost from_gives = { λ _ e. e ≡ unfit };

    fn from(_error: ExpectedVariableLengthBytesError) -> ArrayError {
        ArrayError::CodecError(CodecError::DoesNotFit(Misfit::NoValue))
    }
}

impl From<ExpectedOptionalBytesError> for ArrayError {
    ghost from_gives = { λ _ e. e ≡ unfit };

    fn from(_error: ExpectedOptionalBytesError) -> ArrayError {
        ArrayError::CodecError(CodecError::DoesNotFit(Misfit::NoValue))
    }
}
