//! The calls of case files, as calls of an array.
#![tactic(auto)]

mod calls;
mod chunks;
mod comparison;
mod encoded;
mod encoders;
mod queries;
mod reads;
mod replay;
mod targets;
mod typed;
mod writes;

pub use calls::answer_of;
use cases_answers::CaseStore;
pub use comparison::Other;
pub use targets::Held;
use zarrs::Array;

/// The array while a call is made.
pub type CaseArray<'s> = Array<CaseStore<'s>>;
