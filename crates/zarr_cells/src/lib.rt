//! The cells of arrays as text, as bytes and in numpy's format, and what the array layer sees of foreign documents.
//!
//! A `Form` is what the bytes of a cell say. `seen` shows the layer a foreign document as one that it reads, whose cells
//! are the same bytes; the `Lens` says how it differs. `ascii_json` writes a JSON text in ASCII. `numbers` and `region`
//! read the words of a command line, and `split_rows` cuts the first rows off a region.
#![tactic(auto)]

mod ascii;
mod bare;
mod bits;
mod cells;
mod error;
mod floats;
mod form;
pub mod laws;
mod lens;
mod lines;
pub mod npy;
mod rows;
mod texts;
mod words;

pub use ascii::ascii_json;
pub use bits::cell_text;
pub use cells::{form_of, raw_size, read_raw, write_raw};
pub use error::CellsError;
pub use form::{Form, Width};
pub use lens::{CLEAR, Lens, seen};
pub use lines::{Rows, read_cells, write_cells};
pub use rows::{long_axis, split_rows, with_rows};
pub use texts::{read_texts, write_texts};
pub use words::{numbers, region};
