//! Arrays over new stores, after calls: the premises of the laws of histories are met.
ghost use Rattle.std.specs.Prelude.{◌≡◌, ◌↔◌, IfOk, OnOk};
ghost use Rattle.zarrs_storage.specs.Memory.{open_state};
ghost use Rattle.zarrs_engine_calls.specs.Canon.{HasNoChunk};
ghost use Rattle.zarrs_engine_calls.specs.Headline.{IsOneFunctionThrough};
ghost use Rattle.zarrs_engine_calls.specs.Laws.{HaveEqualBytes, HaveEqualContent};
ghost use Rattle.zarrs_engine_calls.specs.Laws.{IsCourseFromNothing, IsResized, KeepsOutside};
ghost use Rattle.zarrs_engine_calls.specs.Layout.{ArrayState};
ghost use Rattle.zarrs.specs.Arrays.{layout_of_array, state_of_array, store_of_array};

use anyhow::Result;
use std::alloc::{AllocError, Global};
use zarrs::laws::{
    accepted_shape_changes, an_array_is_its_metadata, an_array_is_one_function, runs_are_courses,
    shape_changes_keep_outside,
};
use zarrs::{Array, ArrayMetadata, Call, CodecOptions, MemoryStore, Reply};

/// Makes the calls over a store without a chunk: a course of events from nothing, through which the array is one function.
fn replay_from_nothing(
    alloc: Global,
    array: &mut Array<MemoryStore>,
    calls: &[Call],
) -> Result<Vec<Reply>, AllocError>
    requires { HasNoChunk (layout_of_array array.old) (store_of_array open_state array.old) }
    ensures course { OnOk result (IsCourseFromNothing (layout_of_array array.old)
        (state_of_array open_state array.new)) }
    ensures function { IfOk result (λ replies. IsOneFunctionThrough (layout_of_array array.old)
        calls.now replies.items (state_of_array open_state array.old)
        (state_of_array open_state array.new)) }
    ensures layout { layout_of_array array.new ≡ layout_of_array array.old }
{
    runs_are_courses();
    let options = CodecOptions::default();
    let replies = array.replay(alloc, calls, &options)?;
    Ok(replies)
}

/// The array of this metadata at this path over a new store, after these calls, and what they answered. Through them it is
/// one function from positions to cells.
pub fn after_calls(
    alloc: Global,
    path: &str,
    metadata: ArrayMetadata,
    calls: &[Call],
) -> Result<(Array<MemoryStore>, Vec<Reply>)>
    ensures { IfOk result (λ made. (first : ArrayState)
        × HasNoChunk (layout_of_array made.0) first.store
        × IsOneFunctionThrough (layout_of_array made.0) calls.now made.1.items first
        (state_of_array open_state made.0)) }
{
    let mut array = Array::new_with_metadata(alloc, MemoryStore::new(alloc), path, metadata)?;
    let replies = replay_from_nothing(alloc, &mut array, calls)?;
    Ok((array, replies))
}

/// Two arrays of one layout, each left by calls from a store without a chunk, are equal exactly if the same bytes are
/// present at each chunk key. This does nothing: its contract is the fact.
fn bytes_tell_arrays_apart(one: &Array<MemoryStore>, other: &Array<MemoryStore>)
    requires same_layout { layout_of_array other.now ≡ layout_of_array one.now }
    requires course { IsCourseFromNothing (layout_of_array one.now)
        (state_of_array open_state one.now) }
    requires other_course { IsCourseFromNothing (layout_of_array one.now)
        (state_of_array open_state other.now) }
    ensures { HaveEqualContent (layout_of_array one.now) (store_of_array open_state one.now)
        (store_of_array open_state other.now)
        ↔ HaveEqualBytes (layout_of_array one.now) (store_of_array open_state one.now)
        (store_of_array open_state other.now) }
{
    an_array_is_its_metadata(one);
    an_array_is_one_function();
}

/// Two arrays of this metadata at this path, each over a new store and after its calls. They are equal exactly if the same
/// bytes are present at each chunk key.
pub fn two_after_calls(
    alloc: Global,
    path: &str,
    metadata: ArrayMetadata,
    calls: &[Call],
    other_calls: &[Call],
) -> Result<(Array<MemoryStore>, Array<MemoryStore>)>
    ensures { IfOk result (λ both. HaveEqualContent (layout_of_array both.0)
        (store_of_array open_state both.0) (store_of_array open_state both.1)
        ↔ HaveEqualBytes (layout_of_array both.0) (store_of_array open_state both.0)
        (store_of_array open_state both.1)) }
{
    let mut one = Array::new_with_metadata(alloc, MemoryStore::new(alloc), path, metadata)?;
    let mut other = one.with_storage(alloc, MemoryStore::new(alloc))?;
    replay_from_nothing(alloc, &mut one, calls)?;
    replay_from_nothing(alloc, &mut other, other_calls)?;
    bytes_tell_arrays_apart(&one, &other);
    Ok((one, other))
}

/// Makes the array's shape this one: what is cut away is fill, each other cell is what it was, and no chunk outside the
/// array changes.
fn cut(alloc: Global, array: &mut Array<MemoryStore>, shape: Vec<u64>) -> Result<()>
    ensures cut { OnOk result (IsResized (layout_of_array array.old) shape.items
        (state_of_array open_state array.old) (state_of_array open_state array.new)) }
    ensures outside { OnOk result (KeepsOutside (layout_of_array array.old) shape.items
        (state_of_array open_state array.old) (state_of_array open_state array.new)) }
    ensures layout { layout_of_array array.new ≡ layout_of_array array.old }
{
    an_array_is_its_metadata(array);
    accepted_shape_changes();
    shape_changes_keep_outside();
    let options = CodecOptions::default();
    array.resize(alloc, shape, &options)?;
    Ok(())
}

/// The array of this metadata at this path over a new store, after these calls and a change of its shape to this one. It is
/// the array that the calls left, cut: what is cut away is fill, and no chunk outside that array changed.
pub fn cut_after_calls(
    alloc: Global,
    path: &str,
    metadata: ArrayMetadata,
    calls: &[Call],
    shape: Vec<u64>,
) -> Result<Array<MemoryStore>>
    ensures { IfOk result (λ array. (left : ArrayState)
        × IsCourseFromNothing (layout_of_array array) left
        × IsResized (layout_of_array array) shape.items left (state_of_array open_state array)
        × KeepsOutside (layout_of_array array) shape.items left
        (state_of_array open_state array)) }
{
    let mut array = Array::new_with_metadata(alloc, MemoryStore::new(alloc), path, metadata)?;
    replay_from_nothing(alloc, &mut array, calls)?;
    cut(alloc, &mut array, shape)?;
    Ok(array)
}
