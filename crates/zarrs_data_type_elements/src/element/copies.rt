//! Copies of values that are lent one by one.
ghost use Rattle.std.specs.Prelude.{◌≡◌, map, IfOk};

use std::alloc::{AllocError, Global};

/// The values that are lent.
pub(super) fn copied<T: Copy + Drop>(alloc: Global, lent: &[&T]) -> Result<Vec<T>, AllocError>
    ensures { IfOk result (λ copies. copies.items ≡ map (λ value. value.now) lent.now) }
{
    let mut copies = Vec::with_capacity(alloc, lent.len())?;
    for value in lent {
        copies.push_reserved(**value);
    }
    Ok(copies)
}
