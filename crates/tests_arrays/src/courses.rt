//! Calls of values, which the laws of calls serve too.
ghost use Rattle.std.specs.Prelude.{◌≡◌, map, IfOk, OnOk};
ghost use Rattle.zarrs_storage.specs.Memory.{open_state};
ghost use Rattle.zarrs_engine_calls.specs.Canon.{IsCanonical};
ghost use Rattle.zarrs_engine_calls.specs.Content.{value_at};
ghost use Rattle.zarrs.specs.Arrays.{layout_of_array, store_of_array};

use anyhow::Result;
use std::alloc::Global;
use zarrs::laws::{an_array_is_its_metadata, course_read_after_store, courses_keep_canon};
use zarrs::{Array, ArraySubset, ElementOwned, MemoryStore};

/// Stores the elements over the region, and reads it twice. Whatever the first read returned, the second one returns the
/// cells that were stored, and a canonical store is canonical afterwards.
pub fn stored_and_read_twice<T: ElementOwned>(
    alloc: Global,
    array: &mut Array<MemoryStore>,
    region: &ArraySubset,
    elements: &[T],
) -> Result<Vec<T>>
    ensures cells { IfOk result (λ read. map T.cell read.items ≡ map T.cell elements.now) }
    ensures canonical { OnOk result (IsCanonical (layout_of_array array.old)
        (value_at (store_of_array open_state array.old))
        → IsCanonical (layout_of_array array.old)
        (value_at (store_of_array open_state array.new))) }
{
    an_array_is_its_metadata(array);
    course_read_after_store();
    courses_keep_canon();
    array.store_array_subset(alloc, region, elements)?;
    let _first: Vec<T> = array.retrieve_array_subset(alloc, region)?;
    let second: Vec<T> = array.retrieve_array_subset(alloc, region)?;
    Ok(second)
}
