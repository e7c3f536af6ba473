//! The lines of case files: calls of arrays, one a line, each with the answer that it must give. See `docs/CASES.md`.
#![tactic(auto)]

pub mod call;
mod calls;
mod effects;
mod expected;
mod lines;
mod matching;
mod options;
mod settings;
mod why;
pub mod words;

pub use expected::Expected;
pub use lines::lines_of;
pub use options::{Form, Options, Through};
pub use why::{CaseError, Why};
