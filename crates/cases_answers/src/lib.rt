//! What the calls of case files take and answer, as texts: cells, values and refusals. And the store of a call: it refuses
//! what the file says, and keeps a record of what it is asked.
#![tactic(auto)]

mod answer;
mod asks;
mod cells;
mod conditions;
mod refusals;
mod store;
mod typed;

pub use answer::{Answer, Shown, answered, data_answered, refused, said, values_answered, word};
pub use asks::{Ask, Asks, keys_of, place_beyond};
pub use cells::{data_of, shown_data};
pub use conditions::Conditions;
pub use refusals::Refusal;
pub use store::{Below, CaseStore, Refusing};
pub use typed::{CellForm, Flag, Maybe, Number, Plain, Text, values_in};
