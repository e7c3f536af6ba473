//! Why no array is created.
ghost use Rattle.std.specs.Prelude.{◌≡◌, string_bytes};
ghost use Rattle.serde_json.specs.View.{view};
ghost use Rattle.zarrs_options.specs.declared.error.ArrayCreateError.TheVariants as create;
ghost use Rattle.zarrs_options.specs.Errors.{create_error_of_storage, create_error_of_path};
ghost use Rattle.zarrs_options.specs.Errors.{name_of_field, value_of_field};

use serde_json::Value;
use std::alloc::{AllocError, AllocFailed};
use thiserror::Error;
use zarrs_data_type::FillValue;
use zarrs_keys::NodePathError;
use zarrs_metadata_parts::{FillValueMetadata, PluginCreateError};
use zarrs_storage::StorageError;

/// An additional field of a document that must be understood, and is not.
#[derive(Debug, Drop, Error)]
#[error("unsupported additional field {name} with value {value}")]
pub struct AdditionalFieldUnsupportedError {
    name: String,
    value: Value,
}

impl AdditionalFieldUnsupportedError {
    /// Returns the refusal of the field of this name and this value.
    pub fn new(name: String, value: Value) -> AdditionalFieldUnsupportedError
        ensures name { name_of_field result ≡ string_bytes name }
        ensures value { value_of_field result ≡ view value }
    {
        AdditionalFieldUnsupportedError { name, value }
    }

    /// Returns the name of the field.
    pub fn name(&self) -> &str
        ensures { result.now ≡ name_of_field self.now }
    {
        self.name.as_str()
    }

    /// Returns the value of the field.
    pub fn value(&self) -> &Value
        ensures { view result.now ≡ value_of_field self.now }
    {
        &self.value
    }
}

/// Why no array is created.
#[derive(Debug, Drop, Error)]
pub enum ArrayCreateError {
    /// E11: the path is no path of a node.
    #[error(transparent)]
    NodePathError(NodePathError),
    /// E12: an additional field must be understood.
    #[error(transparent)]
    AdditionalFieldUnsupportedError(AdditionalFieldUnsupportedError),
    /// E13: the metadata names no data type.
    #[error(transparent)]
    DataTypeCreateError(PluginCreateError),
    /// E14: the fill value is no value of the data type.
    #[error("invalid fill value for data type `{data_type_name}`: {:?}", .fill_value.as_bytes())]
    InvalidFillValue {
        /// The data type.
        data_type_name: String,
        /// The fill value.
        fill_value: FillValue,
    },
    /// E15: the metadata has no fill value of the data type.
    #[error("invalid fill value metadata for data type `{data_type_name}`: {fill_value_metadata}")]
    InvalidFillValueMetadata {
        /// The data type.
        data_type_name: String,
        /// What was to be its fill value.
        fill_value_metadata: FillValueMetadata,
    },
    /// E16: the metadata names no chain of codecs.
    #[error(transparent)]
    CodecsCreateError(PluginCreateError),
    /// E17: the metadata has storage transformers.
    #[error(transparent)]
    StorageTransformersCreateError(PluginCreateError),
    /// E18: the metadata names no chunk grid of the shape.
    #[error(transparent)]
    ChunkGridCreateError(PluginCreateError),
    /// E19: the metadata names no chunk key encoding.
    #[error(transparent)]
    ChunkKeyEncodingCreateError(PluginCreateError),
    /// E20: the grid has another number of dimensions than the array.
    #[error("chunk grid dimensionality {0} does not match array dimensionality {1}")]
    InvalidChunkGridDimensionality(usize, usize),
    /// E21: there are more or fewer names than dimensions.
    #[error("the number of dimension names {0} does not match array dimensionality {1}")]
    InvalidDimensionNames(usize, usize),
    /// E22: a subchunk has an extent 0.
    #[error("invalid subchunk shape {0:?}: all elements must be non-zero")]
    InvalidSubchunkShape(Vec<u64>),
    /// E23: the store refused a call, or its metadata reads as none.
    #[error(transparent)]
    StorageError(StorageError),
    /// E24: the path has no metadata.
    #[error("array metadata is missing")]
    MissingMetadata,
    /// E25: the V2 metadata has a compressor, or filters that are not those of its data type.
    #[error("unsupported Zarr V2 array: {0}")]
    UnsupportedZarrV2Array(String),
    /// E26: out of memory.
    #[error("out of memory")]
    OutOfMemory,
}

impl From<AllocError> for ArrayCreateError {
    ghost from_gives = { λ _ e. e ≡ create.OutOfMemory };

    fn from(_error: AllocError) -> ArrayCreateError {
        ArrayCreateError::OutOfMemory
    }
}

impl<T: Drop> From<AllocFailed<T>> for ArrayCreateError {
    ghost from_gives = { λ _ e. e ≡ create.OutOfMemory };

    fn from(_error: AllocFailed<T>) -> ArrayCreateError {
        ArrayCreateError::OutOfMemory
    }
}

impl From<AdditionalFieldUnsupportedError> for ArrayCreateError {
    ghost from_gives = { λ error e. e ≡ create.AdditionalFieldUnsupportedError error };

    fn from(error: AdditionalFieldUnsupportedError) -> ArrayCreateError {
        ArrayCreateError::AdditionalFieldUnsupportedError(error)
    }
}

impl From<StorageError> for ArrayCreateError {
    ghost from_gives = { λ error e. e ≡ create_error_of_storage error };

    fn from(error: StorageError) -> ArrayCreateError {
        match error {
            StorageError::OutOfMemory => ArrayCreateError::OutOfMemory,
            error => ArrayCreateError::StorageError(error),
        }
    }
}

impl From<NodePathError> for ArrayCreateError {
    ghost from_gives = { λ error e. e ≡ create_error_of_path error };

    fn from(error: NodePathError) -> ArrayCreateError {
        match error {
            NodePathError::OutOfMemory => ArrayCreateError::OutOfMemory,
            error => ArrayCreateError::NodePathError(error),
        }
    }
}
