//! Why a V2 document is not converted.
ghost use Rattle.std.specs.Prelude.{◌≡◌};
ghost use Rattle.zarrs_metadata.specs.declared.error.ArrayMetadataV2ToV3Error.TheVariants as conversion;

use std::alloc::AllocError;
use thiserror::Error;
use zarrs_metadata_parts::FillValueMetadata;

/// Why a V2 document has no V3 document.
#[derive(Debug, Drop, Error)]
pub enum ArrayMetadataV2ToV3Error {
    /// The data type has no V3 name.
    #[error("unsupported Zarr V2 data type: {0}")]
    UnsupportedDataType(String),
    /// The fill value is no value of the data type.
    #[error("invalid fill value metadata for data type `{data_type_name}`: {fill_value_metadata}")]
    InvalidFillValueMetadata {
        /// The data type, as the V2 document names it.
        data_type_name: String,
        /// What was to be its fill value.
        fill_value_metadata: FillValueMetadata,
    },
    /// The compressor or the filters have no V3 codec.
    #[error("unsupported Zarr V2 array: {0}")]
    UnsupportedZarrV2Array(String),
    /// Out of memory.
    #[error("out of memory")]
    OutOfMemory,
}

impl From<AllocError> for ArrayMetadataV2ToV3Error {
    ghost from_gives = { λ _ e. e ≡ conversion.OutOfMemory };

    fn from(_error: AllocError) -> ArrayMetadataV2ToV3Error {
        ArrayMetadataV2ToV3Error::OutOfMemory
    }
}
