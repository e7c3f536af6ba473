//! Regions of arrays in directories, written and stored as lines of text, as bytes and in numpy's format.
//!
//! `write_cells` writes the cells of a region, band by band, and `store_cells` stores those that it reads: what `get` and
//! `put` of the program `zarr` do, over any writer and any reader.
#![tactic(auto)]

pub mod laws;
mod layout;
mod storing;
mod writing;

pub use layout::Layout;
pub use storing::store_cells;
pub use writing::write_cells;
