//! Why a fill value or its metadata is refused.
ghost use Rattle.std.specs.Prelude.{◌≡◌};
ghost use Rattle.zarrs_data_type_kinds.specs.declared.error.DataTypeFillValueError.TheVariants as fill;
ghost use Rattle.zarrs_data_type_kinds.specs.declared.error.DataTypeFillValueMetadataError.TheVariants as metadata;

use std::alloc::AllocError;
use thiserror::Error;

/// Why metadata is not that of a fill value.
#[derive(Debug, Drop, Error, PartialEq, Eq)]
pub enum DataTypeFillValueMetadataError {
    /// It says no value of the data type.
    #[error("the fill value metadata says no value of the data type")]
    Invalid,
    /// Out of memory.
    #[error("out of memory")]
    OutOfMemory,
}

impl From<AllocError> for DataTypeFillValueMetadataError {
    ghost from_gives = { λ _ e. e ≡ metadata.OutOfMemory };

    fn from(_error: AllocError) -> DataTypeFillValueMetadataError {
        DataTypeFillValueMetadataError::OutOfMemory
    }
}

/// Why a fill value has no metadata.
#[derive(Debug, Drop, Error, PartialEq, Eq)]
pub enum DataTypeFillValueError {
    /// It is no value of the data type.
    #[error("the fill value is no value of the data type")]
    Invalid,
    /// Out of memory.
    #[error("out of memory")]
    OutOfMemory,
}

impl From<AllocError> for DataTypeFillValueError {
    ghost from_gives = { λ _ e. e ≡ fill.OutOfMemory };

    fn from(_error: AllocError) -> DataTypeFillValueError {
        DataTypeFillValueError::OutOfMemory
    }
}
