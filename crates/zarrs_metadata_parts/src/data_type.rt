//! Data types of Zarr V2.
ghost use Rattle.std.specs.Prelude.{◌≡◌, option_map, string_bytes, IfOk};
ghost use Rattle.serde_json.specs.Data.{string};
ghost use Rattle.serde_json.specs.Find.{as_str};
ghost use Rattle.serde_json.specs.View.{view};

use serde_json::Value;
use std::alloc::{AllocError, Global};
use std::marker::Model;

/// A data type of Zarr V2 by its text, as `<i4` or `|b1` (Zarr V2 storage specification, "Data type encoding").
/// Structured types are left out. Contracts see the text.
#[derive(Clone, Debug, Drop)]
pub struct DataTypeMetadataV2 {
    text: String,
}

impl Model for DataTypeMetadataV2 {
    ghost use Rattle.std.specs.Prelude.{ℕ, List, string_bytes};

    ghost Value = { List ℕ };

    ghost view = { λ m. string_bytes m.text };
}

impl DataTypeMetadataV2 {
    /// Makes the data type of this text.
    pub fn new(text: String) -> DataTypeMetadataV2
        ensures { result ≡ string_bytes text }
    {
        DataTypeMetadataV2 { text }
    }

    /// Returns the text.
    pub fn as_str(&self) -> &str
        ensures { result.now ≡ self.now }
    {
        self.text.as_str()
    }

    /// Reads the data type that a JSON value says: a text.
    pub fn from_value(value: Value) -> Option<DataTypeMetadataV2>
        ensures { result ≡ as_str (view value) }
    {
        match value {
            Value::String(text) => Some(DataTypeMetadataV2::new(text)),
            _ => None,
        }
    }

    /// Returns the JSON value of this data type.
    ///
    /// # Errors
    /// `AllocError`: out of memory.
    pub fn to_value(&self, alloc: Global) -> Result<Value, AllocError>
        ensures { IfOk result (λ value. view value ≡ string self.now) }
    {
        Value::try_from_str(alloc, self.text.as_str())
    }

    /// Returns a copy.
    ///
    /// # Errors
    /// `AllocError`: out of memory.
    pub fn try_clone(&self, _alloc: Global) -> Result<DataTypeMetadataV2, AllocError>
        ensures { IfOk result (λ copy. copy ≡ self.now) }
    {
        self.clone()
    }
}
