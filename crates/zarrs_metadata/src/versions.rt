//! The metadata of an array of either version.
ghost use Rattle.std.specs.Prelude.{◌≡◌, codes, Some, IfOk, IfErr};
ghost use Rattle.serde_json.specs.Find.{get};
ghost use Rattle.serde_json.specs.View.{view};
ghost use Rattle.zarrs_metadata_v3.specs.Refusals.{RefusesReading};
ghost use Rattle.zarrs_metadata.specs.declared.versions.ArrayMetadata.TheVariants as metadata;
ghost use Rattle.zarrs_metadata_v3.specs.Members.{reads_as_number};
ghost use Rattle.zarrs_metadata.specs.Versions.{metadata_view, metadata_of, data_of_metadata};

use serde_json::Value;
use std::alloc::{AllocError, Global};
use zarrs_metadata_parts::MetadataError;
use zarrs_metadata_v2::ArrayMetadataV2;
use zarrs_metadata_v3::ArrayMetadataV3;

/// The metadata of an array.
#[derive(Debug, Drop)]
pub enum ArrayMetadata {
    /// Of a V3 array.
    V3(ArrayMetadataV3),
    /// Of a V2 array.
    V2(ArrayMetadataV2),
}

impl From<ArrayMetadataV3> for ArrayMetadata {
    ghost from_gives = { λ document m. m ≡ metadata.V3 document };

    fn from(document: ArrayMetadataV3) -> ArrayMetadata {
        ArrayMetadata::V3(document)
    }
}

impl From<ArrayMetadataV2> for ArrayMetadata {
    ghost from_gives = { λ document m. m ≡ metadata.V2 document };

    fn from(document: ArrayMetadataV2) -> ArrayMetadata {
        ArrayMetadata::V2(document)
    }
}

impl ArrayMetadata {
    /// Reads the metadata that a JSON value is: V2 if its `zarr_format` is 2, else V3.
    ///
    /// # Errors
    /// `InvalidShape` for any other value, and for one that holds a number that is not an integer
    /// of 64 bits. `OutOfMemory` may come at any time.
    pub fn from_value(alloc: Global, value: Value) -> Result<ArrayMetadata, MetadataError>
        ensures read { IfOk result (λ m. metadata_of (view value) ≡ Some (metadata_view m)) }
        ensures refused { IfErr result (RefusesReading (metadata_of (view value))) }
    {
        if is_version_2(&value) {
            ArrayMetadataV2::from_value(alloc, value).map(ArrayMetadata::V2)
        } else {
            ArrayMetadataV3::from_value(alloc, value).map(ArrayMetadata::V3)
        }
    }

    /// Returns the JSON value of the metadata, as `to_value` of its version gives it.
    ///
    /// # Errors
    /// `AllocError`: out of memory.
    pub fn to_value(&self, alloc: Global) -> Result<Value, AllocError>
        ensures { IfOk result (λ v. view v ≡ data_of_metadata (metadata_view self.now)) }
    {
        match self {
            ArrayMetadata::V3(document) => document.to_value(alloc),
            ArrayMetadata::V2(document) => document.to_value(alloc),
        }
    }
}

fn is_version_2(value: &Value) -> bool
    ensures { result ≡ reads_as_number 2 (get (codes "zarr_format") (view value.now)) }
{
    value.get("zarr_format").and_then(Value::as_u64) == Some(2)
}
