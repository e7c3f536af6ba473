//! The cells of a region while chunks are put into it, and a box of an array that is lent to be written.
//!
//! Shards, chains of codecs and engines use `RegionCells`: `with_part` puts the cells of one chunk in, and
//! `into_array_bytes` returns the data. Chains, engines and callers use `ArrayBytesDecodeIntoTarget`, a lent box.
//! `write_cells` and `copy_fill_value_into` write all of it; `subdivide` lends a smaller box of it, and `rejoin`
//! takes that back.
//!
//! `region_data` of `specs/RegionData.antt` is the data that a region stands for so far, and `data_of_target` of
//! `specs/States.antt` the data of the whole array. `specs/Targets.antt` says what a write leaves in the box
//! (`TakesLevels`, `FillsBox`), and that every byte outside stays (`KeepsOutside`).
#![tactic(auto)]

mod error;
mod fill;
mod levels;
mod region_cells;
mod target;

pub use error::ArrayBytesFixedDisjointViewCreateError;
pub use fill::copy_fill_value_into;
pub use region_cells::RegionCells;
pub use target::{ArrayBytesDecodeIntoTarget, RefusedTarget, SubdividedTarget};
