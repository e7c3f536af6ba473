//! What the compaction of a shard refuses.
ghost use Rattle.std.specs.Prelude.{◌≡◌};
ghost use Rattle.zarrs_codec_shard.specs.declared.error.CompactError.TheVariants.{OutOfMemory};

use std::alloc::AllocError;
use thiserror::Error;

/// What the compaction of a shard refuses.
#[derive(Debug, Drop, Error, PartialEq, Eq)]
pub enum CompactError {
    /// The bytes are shorter than the index, or a present subchunk does not lie in the data part.
    #[error("the bytes are no shard")]
    NoShard,
    /// The shard would be too long: subchunks that share bytes get bytes of their own.
    #[error("the length of the compacted shard exceeds u64")]
    TooLong,
    /// Out of memory.
    #[error("out of memory")]
    OutOfMemory,
}

impl From<AllocError> for CompactError {
    ghost from_gives = { λ _ e. e ≡ OutOfMemory };

    fn from(_error: AllocError) -> CompactError {
        CompactError::OutOfMemory
    }
}
