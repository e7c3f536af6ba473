//! Tests of stores, keys, options and metadata: what no array reads or makes, and what case files do not show. How
//! documents of arrays are read, written and converted is shown by the case files of `zarrs_cases_run`.
#![tactic(auto)]

#[cfg(test)]
mod checks;
#[cfg(test)]
mod documents;
#[cfg(test)]
mod fields;
#[cfg(test)]
mod keys;
#[cfg(test)]
mod options;
#[cfg(test)]
mod stores;
