//! Numbers and regions in the words of a command line.
ghost use Rattle.std.specs.Prelude.{◌≡◌, ◌⊎◌, map, Any, IfErr, IfOk, Some, None};
ghost use Rattle.zarrs_subset.specs.Regions.{box_of};
ghost use Rattle.zarr_cells.specs.Numbers.{number_in};
ghost use Rattle.zarr_cells.specs.Words.{parts_between, RefusesRegion, SaysNumbers, SaysNoNumbers};

use crate::bits::number;
use crate::error::CellsError;
use std::alloc::{AllocError, Global};
use zarrs_subset::ArraySubset;

/// Returns the parts of a word between its commas.
fn parts_of(alloc: Global, word: &str) -> Result<Vec<&str>, AllocError>
    ensures { IfOk result (λ parts. map (λ part. part.now) parts.items ≡ parts_between word.now) }
{
    word.split(',').collect(alloc)
}

/// Returns the number that a part says.
fn part_number(alloc: Global, part: &str) -> Result<u64, CellsError>
    ensures said { IfOk result (λ found. number_in part.now ≡ Some found) }
    ensures refused { IfErr result (λ e. (e ≡ CellsError.OutOfMemory)
        ⊎ (number_in part.now ≡ None)) }
{
    match number(part.as_bytes()) {
        Some(number) => Ok(number),
        None => Err(CellsError::said(alloc, "no list of numbers joined by `,`")),
    }
}

/// Returns the numbers that the parts say.
fn part_numbers(alloc: Global, parts: &[&str]) -> Result<Vec<u64>, CellsError>
    ensures said { IfOk result (λ found.
        map (λ number. Some number) found.items
        ≡ map (λ part. number_in part.now) parts.now) }
    ensures refused { IfErr result (λ e. (e ≡ CellsError.OutOfMemory)
        ⊎ Any (λ part. number_in part.now ≡ None) parts.now) }
{
    let mut found = Vec::new(alloc);
    for part in parts {
        let number = part_number(alloc, part)?;
        found.push(number)?;
    }
    Ok(found)
}

/// Returns the numbers that a word has, joined by `,`; none for `-`.
///
/// # Errors
/// A part of it is no number below 2^64; out of memory.
#[tactic(auto, using(crate::proofs::ListLemmas::parts_said))]
pub fn numbers(alloc: Global, word: &str) -> Result<Vec<u64>, CellsError>
    ensures said { IfOk result (λ found. SaysNumbers word.now found.items) }
    ensures refused { IfErr result (λ e. (e ≡ CellsError.OutOfMemory) ⊎ SaysNoNumbers word.now) }
{
    if word == "-" {
        return Ok(Vec::new(alloc));
    }
    let parts = parts_of(alloc, word)?;
    part_numbers(alloc, &parts)
}

/// Returns the region of this start and this shape.
///
/// # Errors
/// As `numbers`; lists of different lengths; an end past 2^64.
pub fn region(alloc: Global, start: &str, shape: &str) -> Result<ArraySubset, CellsError>
    ensures start { IfOk result (λ region. SaysNumbers start.now (box_of region).start) }
    ensures shape { IfOk result (λ region. SaysNumbers shape.now (box_of region).shape) }
    ensures refused { IfErr result (RefusesRegion start.now shape.now) }
{
    let start = numbers(alloc, start)?;
    let shape = numbers(alloc, shape)?;
    Ok(ArraySubset::new_with_start_shape(start, shape)?)
}
