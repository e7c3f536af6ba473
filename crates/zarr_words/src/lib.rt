//! The words of the program `zarr`: its commands, how each is used, and what the words of a command line give it.
//!
//! `usage_of` finds a command by its name, and `Given::of` gives its words their names. `words_of` cuts a line of a session
//! into words.
#![tactic(auto)]

mod error;
mod lines;
mod usages;
mod words;

pub use error::WordsError;
pub use lines::words_of;
pub use usages::{ArrayCommand, Command, Usage, command_help, program_help, usage_of};
pub use words::Given;
