//! What no case file can say of boxes and grids, of types, cells and values of the language, and of codecs, chains,
//! targets and shards, over the public calls of their crates alone.
#![tactic(auto)]

#[cfg(test)]
mod boxes;
#[cfg(test)]
mod cells;
#[cfg(test)]
mod chains;
#[cfg(test)]
mod checks;
#[cfg(test)]
mod codecs;
#[cfg(test)]
mod data;
#[cfg(test)]
mod grids;
#[cfg(test)]
mod shards;
#[cfg(test)]
mod targets;
#[cfg(test)]
mod types;
#[cfg(test)]
mod values;
