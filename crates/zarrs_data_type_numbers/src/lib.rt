//! Whole numbers as little-endian bytes, and lists of values that are written as bytes.
//!
//! Elements use `WholeNumber`. Codecs use `written`, which writes the bytes of many values, one after another. A type
//! that implements `Writing` says how one value is written. Callers use `convert_from_bytes_slice`,
//! `convert_to_bytes_vec`, `transmute_to_bytes`, `transmute_to_bytes_vec` and `transmute_from_bytes_vec`.
//!
//! The ghost member `le_bytes` of `NumberBytes` has the bytes of a number, the lowest first, and `size` their count.
//! The ghost member `written` of `Writing` has the bytes of a value. `option_bytes` of `specs/Options.antt` has those
//! of a value that may be absent, and `option_flag` whether it is present. This crate stands on no other.
#![tactic(auto)]

mod convert;
mod little_endian;
mod options;
mod whole_number;
mod writing;

pub use convert::{
    convert_from_bytes_slice, convert_to_bytes_vec, transmute_from_bytes_vec, transmute_to_bytes,
    transmute_to_bytes_vec,
};
pub use whole_number::{NumberBytes, WholeNumber};
pub use writing::{Writing, written};
