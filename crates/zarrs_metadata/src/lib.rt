//! The face of the crates of metadata: the document of an array of either version, and V2 turned into V3.
//!
//! The layers above use `ArrayMetadata`, a document of either version, and find here the documents and the parts that
//! the crates below show. `array_metadata_v2_to_v3` converts a document, or refuses it by `ArrayMetadataV2ToV3Error`.
//!
//! `metadata_view` of `specs/Versions.antt` gives the `MetadataData` of a value, `metadata_of` that of a JSON value,
//! and `data_of_metadata` writes it. `to_v3` of `specs/Conversion.antt` is the V3 document of a V2 document, or a
//! `ConversionRefusal`. `specs/Refusals.antt` gives the refusal of each error.
#![tactic(auto)]

mod conversion;
mod error;
mod versions;

pub use conversion::array_metadata_v2_to_v3;
pub use error::ArrayMetadataV2ToV3Error;
pub use versions::ArrayMetadata;
pub use zarrs_metadata_parts::{
    ChunkKeySeparator, DataTypeMetadataV2, EndianV2, FillValueMetadata, KindV2, MetadataError,
    MetadataV3, PluginCreateError, TypeV2, numbers, numbers_value,
};
pub use zarrs_metadata_v2::{ArrayMetadataV2, ArrayMetadataV2Order, attributes_from_slice};
pub use zarrs_metadata_v3::{
    AdditionalFieldV3, AdditionalFieldsV3, ArrayMetadataV3, DimensionName, holds_float,
};
