//! Short uses of the engine, as a caller writes them, and the tests that run them. `README.md` and `docs/CALLING.md` quote
//! the uses.
//!
//! The other tests are those that only code can be: calls over a grid that no array has, the parts that the engine lends,
//! its laws and its errors. What calls answer stands in the case files of `zarrs_cases_run`.
#![tactic(auto)]

#[cfg(test)]
mod calls;
#[cfg(test)]
mod checks;
#[cfg(test)]
mod chunks;
#[cfg(test)]
mod errors;
#[cfg(test)]
mod histories;
#[cfg(test)]
mod lean;
#[cfg(test)]
mod make;
#[cfg(test)]
mod refusals;
#[cfg(test)]
mod regions;
#[cfg(test)]
mod steps;
#[cfg(test)]
mod uses;
#[cfg(test)]
mod walk;
