//! Short uses of arrays, by a builder and by their metadata, as a caller writes them: `README.md` and `docs/CALLING.md`
//! quote them, and tests run them. Tests of arrays, of builders and of scripts: what no line of a case file and no file of
//! `data/` can show.
//!
//! The program runs each script of `data/`, and compares its output with the file beside it.
#![tactic(auto)]

#[cfg(test)]
mod arrays;
#[cfg(test)]
mod builders;
#[cfg(test)]
mod built;
#[cfg(test)]
mod callers;
#[cfg(test)]
mod calls;
#[cfg(test)]
mod changes;
#[cfg(test)]
mod checks;
#[cfg(test)]
mod courses;
#[cfg(test)]
mod documents;
#[cfg(test)]
mod encoded;
#[cfg(test)]
mod errors;
#[cfg(test)]
mod histories;
#[cfg(test)]
mod made;
#[cfg(test)]
mod memory;
#[cfg(test)]
mod scripts;
#[cfg(test)]
mod setters;
#[cfg(test)]
mod shards;
#[cfg(test)]
mod texts;
#[cfg(test)]
mod tiles;
#[cfg(test)]
mod upgraded;
#[cfg(test)]
mod uses;

use anyhow::{Result, bail};
use std::alloc::Global;
use std::fs;
use std::rt::Files;
use zarrs_script::run_script;

/// The scripts, and the status that each ends with.
const EXAMPLES: &[(&str, u8)] = &[
    ("first", 0),
    ("few_cells", 0),
    ("empty", 0),
    ("cells", 0),
    ("chunks", 0),
    ("types", 0),
    ("ends_of_types", 0),
    ("no_dimension", 1),
    ("few_refusals", 1),
    ("refusals", 1),
    ("chunk_refusals", 1),
    ("first_refusal", 1),
    ("last_refusal", 1),
    ("regions", 1),
    ("get_and_put", 0),
    ("region_refusals", 1),
    ("metadata", 1),
    ("metadata_of_types", 0),
    ("metadata_of_shapes", 0),
    ("metadata_between_calls", 0),
    ("metadata_refusals", 1),
    ("resize", 0),
    ("resize_and_metadata", 1),
    ("skipped", 1),
    ("limits", 1),
    ("cell_out_of_range", 2),
    ("missing_word", 2),
    ("not_a_command", 2),
];

/// What the script writes, and its status.
fn outcome(alloc: Global, script: &[u8]) -> (Vec<u8>, u8) {
    let mut reader = script;
    let mut text = Vec::new(alloc);
    let status = run_script(alloc, &mut reader, &mut text);
    (text, status)
}

/// Runs the script with this name, and fails if it ends or writes otherwise.
fn run_example<R: Files + Alloc<A = Global> + Print>(rt: &R, name: &str, status: u8) -> Result<()> {
    let alloc = rt.alloc();
    let script = fs::read(rt, format!(in alloc; "{name}.zarrs")?)?;
    let expected = fs::read(rt, format!(in alloc; "{name}.zarrs.stdout")?)?;
    let (text, ended) = outcome(alloc, &script);
    if ended != status || text != expected {
        bail!("{name} ended with status {ended}, or wrote something else than its file");
    }
    println!(rt; "{name}: status {ended}, as expected")?;
    Ok(())
}

fn main(rt: HostRuntime) -> Result<()> {
    for (name, status) in EXAMPLES {
        run_example(&rt, name, *status)?;
    }
    Ok(())
}
