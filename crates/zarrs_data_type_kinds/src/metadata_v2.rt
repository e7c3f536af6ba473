//! Fill values as the metadata of Zarr V2 says them.
ghost use Rattle.std.specs.Prelude.{◌≡◌, Some, IfOk, IfErr, IsSome};
ghost use Rattle.zarrs_metadata_parts.specs.FillValue.{fill_data};
ghost use Rattle.zarrs_data_type_kinds.specs.Cell.{fill_cell};
ghost use Rattle.zarrs_data_type_kinds.specs.Fills.{RefusesFillMetadata};
ghost use Rattle.zarrs_data_type_kinds.specs.Kind.{kind};
ghost use Rattle.zarrs_data_type_kinds.specs.MetadataV2.{cells_v2, fill_said_v2};

use crate::data_type::DataType;
use crate::error::DataTypeFillValueMetadataError;
use crate::fill_value::FillValue;
use std::alloc::Global;
use zarrs_metadata_parts::{FillValueMetadata, KindV2};

impl DataType {
    /// What the cells of this type are in Zarr V2, if it has them.
    fn cells_v2(&self) -> Option<KindV2>
        ensures { result ≡ cells_v2 (kind self.now) }
    {
        match self {
            DataType::Bool => Some(KindV2::Bool),
            DataType::Int8 => Some(KindV2::Int8),
            DataType::Int16 => Some(KindV2::Int16),
            DataType::Int32 => Some(KindV2::Int32),
            DataType::Int64 => Some(KindV2::Int64),
            DataType::UInt8 => Some(KindV2::Uint8),
            DataType::UInt16 => Some(KindV2::Uint16),
            DataType::UInt32 => Some(KindV2::Uint32),
            DataType::UInt64 => Some(KindV2::Uint64),
            DataType::String => Some(KindV2::Text),
            DataType::Raw(_) | DataType::Bytes | DataType::Optional(_) => None,
        }
    }

    /// Reads the fill value that V2 metadata says (Zarr V2 storage specification, "fill_value"): null is false, 0 or
    /// the empty text; of bool 0 is false and 1 is true; of string 0 is the empty text. Any other value, and each one
    /// of a type that Zarr V2 has no name for, is read as V3 metadata.
    ///
    /// # Errors
    /// `Invalid` if it says no value of this type. `OutOfMemory` may come at any time.
    pub fn fill_value_v2(
        &self,
        alloc: Global,
        metadata: &FillValueMetadata,
    ) -> Result<FillValue, DataTypeFillValueMetadataError>
        ensures read { IfOk result (λ f.
            fill_said_v2 (kind self.now) (fill_data metadata.now) ≡ Some f) }
        ensures value { IfOk result (λ f. IsSome (fill_cell (kind self.now) f)) }
        ensures refused { IfErr result
            (RefusesFillMetadata (fill_said_v2 (kind self.now) (fill_data metadata.now))) }
    {
        let Some(cells) = self.cells_v2() else {
            return self.fill_value_v3(alloc, metadata);
        };
        match cells.fill_value(alloc, metadata)? {
            Some(said) => self.fill_value_v3(alloc, &said),
            None => Err(DataTypeFillValueMetadataError::Invalid),
        }
    }
}
