//! Why a part of a chunk is not read.
ghost use Rattle.std.specs.Prelude.{◌≡◌};
ghost use Rattle.zarrs_codec_leaf.specs.declared.error.CodecError.TheVariants.{OutOfMemory};
ghost use Rattle.zarrs_codec_chain.specs.PartRefusals.{IsWholeError};
ghost use Rattle.zarrs_codec_chain.specs.declared.error.PartError.TheVariants as part;

use std::alloc::{AllocError, AllocFailed};
use thiserror::Error;
use zarrs_codec_leaf::CodecError;
use zarrs_storage::StorageError;

/// Why a part of a chunk is not read.
#[derive(Debug, Drop, Error)]
pub enum PartError {
    /// The chain refuses.
    #[error("{0}")]
    Codec(CodecError),
    /// The source of the bytes refuses.
    #[error("{0}")]
    Source(StorageError),
}

impl From<CodecError> for PartError {
    ghost from_gives = { λ error e. e ≡ part.Codec error };

    fn from(error: CodecError) -> PartError {
        PartError::Codec(error)
    }
}

impl From<StorageError> for PartError {
    ghost from_gives = { λ error e. e ≡ part.Source error };

    fn from(error: StorageError) -> PartError {
        PartError::Source(error)
    }
}

impl From<AllocError> for PartError {
    ghost from_gives = { λ _ e. e ≡ part.Codec OutOfMemory };

    fn from(_error: AllocError) -> PartError {
        PartError::Codec(CodecError::OutOfMemory)
    }
}

/// Why a chunk in memory is not read, which refuses only out of memory.
pub(crate) fn whole_error(error: PartError) -> CodecError
    ensures { IsWholeError error result }
{
    match error {
        PartError::Codec(error) => error,
        PartError::Source(_) => CodecError::OutOfMemory,
    }
}
