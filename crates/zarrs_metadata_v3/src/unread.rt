//! Why members are no document.
ghost use Rattle.std.specs.Prelude.{◌≡◌};
ghost use Rattle.zarrs_metadata_v3.specs.declared.unread.Unread.TheVariants as unread;
ghost use Rattle.zarrs_metadata_v3.specs.Refusals.{metadata_error_of};

use std::alloc::AllocError;
use thiserror::Error;
use zarrs_metadata_parts::MetadataError;

/// Why members are no document.
#[derive(Debug, Drop, Error)]
pub enum Unread {
    /// There is no member of this name.
    #[error("`{0}` is missing")]
    Missing(&'static str),
    /// What is wrong with the member of this name.
    #[error("`{0}` {1}")]
    Wrong(&'static str, &'static str),
    /// Out of memory.
    #[error("out of memory")]
    OutOfMemory,
}

impl From<AllocError> for Unread {
    ghost from_gives = { λ _ e. e ≡ unread.OutOfMemory };

    fn from(_error: AllocError) -> Unread {
        Unread::OutOfMemory
    }
}

impl From<Unread> for MetadataError {
    ghost from_gives = { λ unread e. e ≡ metadata_error_of unread };

    fn from(error: Unread) -> MetadataError {
        match error {
            Unread::OutOfMemory => MetadataError::OutOfMemory,
            _ => MetadataError::InvalidShape,
        }
    }
}
