//! Whole numbers turned into bytes, little endian, and back.

pub use zarrs_data_type::{
    WholeNumber, convert_from_bytes_slice, convert_to_bytes_vec, transmute_from_bytes_vec,
    transmute_to_bytes, transmute_to_bytes_vec,
};
