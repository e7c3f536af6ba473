//! Rust values that stand for cells: whole numbers, flags, texts, byte strings, and options of these.
//!
//! The layers above use `Element`, whose functions make array bytes of a list of values, and `ElementOwned`, whose
//! functions make values of array bytes. `ElementError` says that the values are not those of the data type.
//!
//! The ghost member `cell` of `Element` gives the cell of a value, and `serves` the data types that it is a value of.
//! The data that is made of values has their cells, by `cells` of `zarrs_data_type_bytes`. `specs/Elements.antt` says
//! why values are refused (`RefusesElement`), and why data is (`RefusesCells`). It also has the cell of an option
//! (`option_cell`).
#![tactic(auto)]

mod element;
mod error;

pub use element::{Element, ElementOwned};
pub use error::ElementError;
