//! Why metadata is refused.
ghost use Rattle.std.specs.Prelude.{◌≡◌};
ghost use Rattle.zarrs_metadata_parts.specs.declared.error.PluginCreateError.TheVariants.{OutOfMemory};

use std::alloc::{AllocError, AllocFailed, Global};
use thiserror::Error;

/// Why a JSON value is not metadata.
#[derive(Debug, Drop, Error)]
pub enum MetadataError {
    /// The value has another shape than the metadata.
    #[error("the metadata has another shape")]
    InvalidShape,
    /// Out of memory.
    #[error("out of memory")]
    OutOfMemory,
}

/// Why no grid, key encoding, data type or codec was made from metadata.
#[derive(Debug, Drop, Error)]
pub enum PluginCreateError {
    /// The metadata describes none, for the reason in the text.
    #[error("{0}")]
    Other(String),
    /// Out of memory.
    #[error("out of memory")]
    OutOfMemory,
}

impl From<AllocError> for PluginCreateError {
    ghost from_gives = { λ _ e. e ≡ OutOfMemory };

    fn from(_error: AllocError) -> PluginCreateError {
        PluginCreateError::OutOfMemory
    }
}

impl<T: Drop> From<AllocFailed<T>> for PluginCreateError {
    ghost from_gives = { λ _ e. e ≡ OutOfMemory };

    fn from(_error: AllocFailed<T>) -> PluginCreateError {
        PluginCreateError::OutOfMemory
    }
}

impl PluginCreateError {
    ghost use Rattle.zarrs_metadata_parts.specs.Refusals.{SaysReason};

    /// The refusal with this text, or `OutOfMemory`.
    pub fn other(alloc: Global, text: &str) -> PluginCreateError
        ensures { SaysReason text.now result }
    {
        match String::from_str(alloc, text) {
            Ok(text) => PluginCreateError::Other(text),
            Err(_) => PluginCreateError::OutOfMemory,
        }
    }
}
