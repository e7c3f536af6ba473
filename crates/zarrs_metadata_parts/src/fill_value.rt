//! Fill values as metadata says them.
ghost use Rattle.std.specs.Prelude.{◌≡◌, IfOk};
ghost use Rattle.serde_json.specs.View.{view};

use serde_json::{Map, Number, Value};
use std::alloc::{AllocError, Global};
use std::fmt;
use std::fmt::Write;

/// The fill value of an array as its metadata says it (Zarr V3 core specification, "fill_value"; Zarr V2 storage
/// specification, "fill_value").
#[derive(Clone, Debug, Drop)]
pub enum FillValueMetadata {
    /// `null`
    Null,
    /// `true` or `false`
    Bool(bool),
    /// A number.
    Number(Number),
    /// A text.
    String(String),
    /// A list of values.
    Array(Vec<Value>),
    /// Values by name.
    Object(Map<String, Value>),
}

impl FillValueMetadata {
    ghost use Rattle.zarrs_metadata_parts.specs.FillValue.{fill_data};

    /// Reads the fill value that a JSON value says. Each says one.
    pub fn from_value(value: Value) -> FillValueMetadata
        ensures { fill_data result ≡ view value }
    {
        match value {
            Value::Null => FillValueMetadata::Null,
            Value::Bool(flag) => FillValueMetadata::Bool(flag),
            Value::Number(number) => FillValueMetadata::Number(number),
            Value::String(text) => FillValueMetadata::String(text),
            Value::Array(items) => FillValueMetadata::Array(items),
            Value::Object(members) => FillValueMetadata::Object(members),
        }
    }

    /// Returns the JSON value of this fill value.
    pub fn into_value(self) -> Value
        ensures { view result ≡ fill_data self }
    {
        match self {
            FillValueMetadata::Null => Value::Null,
            FillValueMetadata::Bool(flag) => Value::Bool(flag),
            FillValueMetadata::Number(number) => Value::Number(number),
            FillValueMetadata::String(text) => Value::String(text),
            FillValueMetadata::Array(items) => Value::Array(items),
            FillValueMetadata::Object(members) => Value::Object(members),
        }
    }

    /// The JSON value of this fill value, which stays.
    ///
    /// # Errors
    /// `AllocError`: out of memory.
    pub fn to_value(&self, alloc: Global) -> Result<Value, AllocError>
        ensures { IfOk result (λ value. view value ≡ fill_data self.now) }
    {
        Ok(self.try_clone(alloc)?.into_value())
    }

    /// Returns a copy.
    ///
    /// # Errors
    /// `AllocError`: out of memory.
    pub fn try_clone(&self, _alloc: Global) -> Result<FillValueMetadata, AllocError>
        ensures { IfOk result (λ copy. fill_data copy ≡ fill_data self.now) }
    {
        self.clone()
    }
}

impl fmt::Display for FillValueMetadata {
    /// Writes the JSON text of the fill value, of which it makes a copy.
    fn fmt<W: Write>(&self, f: &mut fmt::Formatter<W>) -> fmt::Result {
        match self.clone() {
            Ok(copy) => write!(f, "{}", copy.into_value()),
            Err(_) => Err(fmt::Error),
        }
    }
}
