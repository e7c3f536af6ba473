//! Array bytes, which stand for a list of cells in memory, and lists of byte strings of any length.
//!
//! The layers above use `ArrayBytes`: cells of one size, a list of byte strings, or a mask over inner array bytes.
//! `validate` tests its cells, `new_fill_value` makes cells of fill, `extract_array_subset` takes a part out, and
//! `update_array_bytes` puts one in. `PlacedStrings` has the byte strings of a box while parts are put into it.
//!
//! `data_of` of `specs/ArrayData.antt` gives the `ArrayData` of array bytes. `cells` of `specs/Cells.antt` is the
//! list of cells that data of a type stands for, or nothing. `specs/Parts.antt` has `TakesCells` and `ExtractsCells`,
//! parts of data over boxes, and `specs/Present.antt` the optional cells that are some. Of byte strings
//! `specs/Offsets.antt` has the list (`byte_strings`), `specs/StringParts.antt` the parts, and `specs/Places.antt` those
//! that lie among bytes.
#![tactic(auto)]

mod array_bytes;
mod boxes;
mod error;
mod mask;
mod numbers;
mod offsets;
mod placed_strings;
mod string_boxes;
mod texts;
mod variable;

pub use array_bytes::{ArrayBytes, ArrayBytesOptional, owned_bytes};
pub use boxes::bytes_with_part;
pub use error::{
    ExpectedFixedLengthBytesError, ExpectedOptionalBytesError, ExpectedVariableLengthBytesError,
};
pub use mask::{Mask, are_flags};
pub use offsets::ArrayBytesOffsets;
pub use placed_strings::PlacedStrings;
pub use string_boxes::extract_strings;
pub use variable::{ArrayBytesVariableLength, VariableLengthBuilder};
