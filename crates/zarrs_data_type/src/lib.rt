//! The face of the crates of data: data types, fill values, array bytes, and values of Rust.
//!
//! The layers above find here `DataType`, `FillValue`, `ArrayBytes`, `Element` and the rest of the crates
//! `zarrs_data_type_*`. Three traits are its own. `FromArrayBytes` and `IntoArrayBytes` let a call return or take
//! array bytes, or a list of values. `IntoField` lets a builder take a field in more than one form. `ChunkType` is a
//! shape with a `CellType`; `specs/CellTypes.antt` has its words.
//!
//! The ghost members `serves`, `reads` and `gives` of these traits say which values stand for which data. Every other
//! meaning stands below, and `specs/Lib.antt` shows it: `Kind` and `Cell` of `zarrs_data_type_kinds`, `ArrayData` and
//! `cells` of `zarrs_data_type_bytes`, and the refusals of `zarrs_data_type_elements`.
#![tactic(auto)]

mod array_lists;
mod chunk_type;
mod into_field;

pub use array_lists::{FromArrayBytes, IntoArrayBytes};
pub use chunk_type::ChunkType;
pub use into_field::IntoField;
pub use zarrs_data_type_bytes::{
    ArrayBytes, ArrayBytesOffsets, ArrayBytesOptional, ArrayBytesVariableLength,
    ExpectedFixedLengthBytesError, ExpectedOptionalBytesError, ExpectedVariableLengthBytesError,
    VariableLengthBuilder, are_flags, owned_bytes,
};
pub use zarrs_data_type_elements::{Element, ElementError, ElementOwned};
pub use zarrs_data_type_kinds::{
    CellType, DataType, DataTypeFillValueError, DataTypeFillValueMetadataError, FillValue,
    data_type, inner_fill,
};
pub use zarrs_data_type_numbers::{
    WholeNumber, Writing, convert_from_bytes_slice, convert_to_bytes_vec, transmute_from_bytes_vec,
    transmute_to_bytes, transmute_to_bytes_vec, written,
};
pub use zarrs_data_type_region::{
    ArrayBytesDecodeIntoTarget, ArrayBytesFixedDisjointViewCreateError, RefusedTarget, RegionCells,
    SubdividedTarget, copy_fill_value_into,
};
