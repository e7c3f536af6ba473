//! Data types and fill values, and what metadata says of them.
//!
//! The layers above use `DataType`, `FillValue`, the two as a `CellType`, and their errors `DataTypeFillValueError` and
//! `DataTypeFillValueMetadataError`. `from_metadata` reads a type, and `fill_value_v3` a fill value.
//!
//! `kind` of `specs/Kind.antt` gives the `Kind` of a `DataType`. `specs/Cell.antt` has `Cell`, what stands at one
//! position: bytes, none, or some of a cell. There `is_value` says which cells are values of a type, and `fill_cell`
//! which cell a fill value is. `kind_of` of `specs/TypeMetadata.antt` and `fill_said` of `specs/FillMetadata.antt`
//! say what metadata means, and `specs/MetadataV2.antt` does so for fill values of V2. `specs/Same.antt` says which
//! types are equal.
#![tactic(auto)]

mod cell_type;
pub mod data_type;
mod error;
mod fill_metadata;
mod fill_value;
pub mod laws;
mod metadata;
mod metadata_v2;

pub use cell_type::CellType;
pub use data_type::DataType;
pub use error::{DataTypeFillValueError, DataTypeFillValueMetadataError};
pub use fill_value::{FillValue, inner_fill};
