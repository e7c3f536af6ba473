//! The order of cells in a V2 chunk.
ghost use Rattle.std.specs.Prelude.{◌≡◌, IfOk};
ghost use Rattle.serde_json.specs.View.{view};
ghost use Rattle.zarrs_metadata_v2.specs.Document.{chunk_order_of, order_data};

use serde_json::Value;
use std::alloc::{AllocError, Global};

/// The order in which the cells of a chunk lie (Zarr V2 storage specification, `order`).
#[derive(Clone, Copy, Debug, Drop, PartialEq, Eq)]
pub enum ArrayMetadataV2Order {
    /// Row-major: the last dimension varies fastest.
    C,
    /// Column-major: the first dimension varies fastest.
    F,
}

impl ArrayMetadataV2Order {
    /// Reads the order that a JSON value is: the text `C` or `F`.
    pub fn from_value(value: &Value) -> Option<ArrayMetadataV2Order>
        ensures { result ≡ chunk_order_of (view value.now) }
    {
        match value.as_str()? {
            "C" => Some(ArrayMetadataV2Order::C),
            "F" => Some(ArrayMetadataV2Order::F),
            _ => None,
        }
    }

    /// Returns the JSON value of the order.
    ///
    /// # Errors
    /// `AllocError`: out of memory.
    pub fn to_value(self, alloc: Global) -> Result<Value, AllocError>
        ensures { IfOk result (λ value. view value ≡ order_data self) }
    {
        match self {
            ArrayMetadataV2Order::C => Value::try_from_str(alloc, "C"),
            ArrayMetadataV2Order::F => Value::try_from_str(alloc, "F"),
        }
    }
}
