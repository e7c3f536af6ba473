//! Scripts: lines that make an array in memory, call it, list the keys of its store, and show its metadata.
//!
//! The program `zarrs_run` uses `run_script`, which reads a script, writes its transcript, and returns the status.
//! `commands_of` reads its commands, `metadata_of_parts` makes the metadata of its array, and `CellType` is the type of
//! its cells.
//!
//! `orders_of` of `specs/Script.antt` is what the bytes of a script say, or the first line that is no command.
//! `Transcript` of `specs/Transcript.antt` is what is printed: each call is a `Step` of `zarrs_engine_calls`.
//! `IsAnswer` of `specs/Answers.antt` is what a run writes and its status. `document_for` and `text_of_metadata` of
//! `specs/Parts.antt` are the V3 document of parts and the text of metadata. `specs/CellTypes.antt` has the types.
#![tactic(auto)]

mod array;
mod cell_type;
mod command;
mod create;
mod error;
mod names;
mod parse;
mod parts;
mod print;
mod run;

pub use run::run_script;
