//! Arrays in directories, for the commands of the program `zarr`.
//!
//! `open` opens one. `Opened::cells` and `Opened::store_cells` read and store the cells of a region: what a call is going to
//! ask of the files of chunks is read first. The store of the directory answers for that alone, and the prover refuses a call
//! that might ask for more. `Bands` cuts a region into bands, so that memory holds one of them.
#![tactic(auto)]

mod bands;
mod calls;
mod chunks;
mod opened;
mod places;
mod reading;
mod refusals;

pub use bands::Bands;
pub use chunks::{Present, is_chunk, present_chunks};
pub use opened::{METADATA, Opened, open, read_value};
pub use refusals::Refusal;
