//! Shapes of chunks as shapes of arrays.
ghost use Rattle.std.specs.Prelude.{◌≡◌, map, IfOk};
ghost use Rattle.std.specs.Int.NonZero.{non_zero_u64_get};

use std::alloc::{AllocError, Global};
use std::num::NonZeroU64;

/// Returns the extents of a chunk as the shape of an array.
///
/// # Errors
/// `AllocError`: out of memory.
pub fn chunk_shape_to_array_shape(
    alloc: Global,
    chunk_shape: &[NonZeroU64],
) -> Result<Vec<u64>, AllocError>
    ensures { IfOk result (λ shape. shape.items ≡ map non_zero_u64_get chunk_shape.now) }
{
    let mut shape = Vec::with_capacity(alloc, chunk_shape.len())?;
    for size in chunk_shape {
        shape.push(size.get())?;
    }
    Ok(shape)
}
