//! Builders of arrays: a shape, a chunk grid, a data type, a fill value, and fields that have defaults.
//!
//! Callers use `ArrayBuilder`: `build` makes an `Array`, and `build_metadata` its metadata. `ToBuilder` makes a
//! builder from an array. `ArrayBuilderDataType` and `ArrayBuilderFillValue` hold a field in any form that a caller
//! gives it; `IntoFillValue` says which forms a fill value has.
//!
//! `builder_view` of `specs/Builders.antt` gives the `BuilderData` of a builder. `built` of `specs/Built.antt` is at
//! once the metadata that it says and the order of refusals. `built_at` there is the parts of the array at a path, or
//! the first refusal. `type_given` and `fill_given` of `specs/Given.antt` are what a caller gave.
#![tactic(auto)]

mod builder;
mod data_type;
mod fill_value;
mod names;

pub use builder::{ArrayBuilder, ToBuilder};
pub use data_type::ArrayBuilderDataType;
pub use fill_value::{ArrayBuilderFillValue, FillScalar, IntoFillValue};
pub use zarrs_options::ArrayBuilderChunkGridMetadata;
