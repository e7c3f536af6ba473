//! The separator between the parts of a chunk key.
ghost use Rattle.std.specs.Prelude.{◌≡◌, [], ◌∷◌, Some, IfOk};
ghost use Rattle.serde_json.specs.View.{view};

use serde_json::Value;
use std::alloc::{AllocError, Global};

/// The separator between two parts of a chunk key (Zarr V3 core specification, chunk key encoding).
#[derive(Clone, Copy, Debug, Drop, PartialEq, Eq)]
pub enum ChunkKeySeparator {
    /// `/`
    Slash,
    /// `.`
    Dot,
}

impl ChunkKeySeparator {
    ghost use Rattle.zarrs_metadata_parts.specs.Separator.{separator_byte, separator_data, separator_of};

    /// Returns the separator as a text of one byte.
    pub fn as_str(self) -> &'static str
        ensures { result.now ≡ separator_byte self ∷ [] }
    {
        match self {
            ChunkKeySeparator::Slash => "/",
            ChunkKeySeparator::Dot => ".",
        }
    }

    /// Reads the separator that a JSON value says: the text `/` or `.`.
    pub fn from_value(value: &Value) -> Option<ChunkKeySeparator>
        ensures { result ≡ separator_of (view value.now) }
    {
        match value.as_str()? {
            "/" => Some(ChunkKeySeparator::Slash),
            "." => Some(ChunkKeySeparator::Dot),
            _ => None,
        }
    }

    /// Returns the JSON value of the separator.
    ///
    /// # Errors
    /// `AllocError`: out of memory.
    pub fn to_value(self, alloc: Global) -> Result<Value, AllocError>
        ensures written { IfOk result (λ value. view value ≡ separator_data self) }
        ensures reads_back { IfOk result (λ value. separator_of (view value) ≡ Some self) }
    {
        Value::try_from_str(alloc, self.as_str())
    }
}
