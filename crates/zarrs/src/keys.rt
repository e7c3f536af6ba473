//! The keys of an array in a store: of its chunks and of its metadata.

pub use zarrs_keys::{chunk_key, data_key, meta_key_v2_array, meta_key_v2_attributes, meta_key_v3};
