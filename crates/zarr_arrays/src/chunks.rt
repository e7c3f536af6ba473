//! The chunks whose files are there.
ghost use Rattle.std.specs.Prelude.{◌≡◌, length, IfOk, IfSome};
ghost use Rattle.zarrs.specs.Arrays.{layout_of_array};

use crate::refusals::Refusal;
use std::alloc::{AllocError, Global};
use zarrs::Array;
use zarrs_directory::{Found, files_below};

/// A chunk whose file is there.
#[derive(Debug, Drop)]
pub struct Present {
    pub indices: Vec<u64>,
    pub file: Found,
}

/// Returns the first numbers that stand in the text, in order: each run of digits.
fn numbers_in(alloc: Global, text: &str, most: usize) -> Result<Vec<u64>, AllocError> {
    let mut found = Vec::new(alloc);
    for part in text.split(|letter: char| !letter.is_ascii_digit()) {
        if found.len() < most {
            if let Ok(number) = part.parse::<u64>() {
                found.push(number)?;
            }
        }
    }
    Ok(found)
}

/// Returns the indices of the chunk whose key this is, if it is that of a chunk of the array.
fn indices_of(alloc: Global, array: &Array<()>, key: &str) -> Result<Option<Vec<u64>>, Refusal>
    ensures { IfOk result (λ found. IfSome found (λ indices.
        length indices.items ≡ (layout_of_array array.now).grid.dimensions)) }
{
    let indices = numbers_in(alloc, key, array.dimensionality())?;
    if indices.len() != array.dimensionality() {
        return Ok(None);
    }
    let own = array.chunk_key(alloc, &indices)?;
    let mut pairs = indices.iter().zip(array.chunk_grid_shape());
    if own.as_str() == key && pairs.all(|(index, count)| index < count) {
        return Ok(Some(indices));
    }
    Ok(None)
}

/// Returns whether the file is that of a chunk of the array.
///
/// # Errors
/// E9 alone.
pub fn is_chunk(alloc: Global, array: &Array<()>, file: &Found) -> Result<bool, Refusal> {
    Ok(!file.is_odd && indices_of(alloc, array, file.key.as_str())?.is_some())
}

/// Adds the chunk whose file this is, if it is that of a chunk of the array.
fn add_chunk(
    alloc: Global,
    array: &Array<()>,
    file: Found,
    chunks: &mut Vec<Present>,
) -> Result<(), Refusal> {
    if let Some(indices) = indices_of(alloc, array, file.key.as_str())? {
        chunks.push(Present { indices, file })?;
    }
    Ok(())
}

/// Returns the chunks of the array whose files are there, in row-major order.
///
/// # Errors
/// What the system says; E9.
pub fn present_chunks(
    rt: &HostRuntime,
    dir: &str,
    array: &Array<()>,
) -> Result<Vec<Present>, Refusal> {
    let mut chunks = Vec::new(rt.alloc());
    for file in files_below(rt, dir)? {
        add_chunk(rt.alloc(), array, file, &mut chunks)?;
    }
    chunks.sort_by(|one, other| one.indices.cmp(&other.indices))?;
    Ok(chunks)
}
