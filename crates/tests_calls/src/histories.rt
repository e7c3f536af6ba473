//! Replays histories of calls.
ghost use Rattle.std.specs.Prelude.{◌≡◌, ◌↔◌};
ghost use Rattle.zarrs_storage.specs.Memory.{open_state};
ghost use Rattle.zarrs_engine_calls.specs.Laws.{HaveEqualBytes, HaveEqualContent, IsCourseFromNothing};
ghost use Rattle.zarrs_engine.specs.Engine.{layout_of, state_of, store_of};

use crate::make::MemoryEngine;
use std::alloc::{AllocError, Global};
use zarrs_codec::CodecOptions;
use zarrs_engine::laws::courses_agree;
use zarrs_engine::{Call, Reply, layouts_are_lawful, replay};
use zarrs_storage::{MemoryStore, ReadableStorageTraits};

/// Makes the calls in turn, and returns the reply to each.
pub fn replayed(
    alloc: Global,
    engine: &mut MemoryEngine,
    calls: &[Call],
) -> Result<Vec<Reply>, AllocError> {
    replay(alloc, engine, calls, &CodecOptions::default())
}

/// Makes the calls in turn, and returns how many were refused.
pub fn count_refused(
    alloc: Global,
    engine: &mut MemoryEngine,
    calls: &[Call],
) -> anyhow::Result<usize> {
    let replies = replayed(alloc, engine, calls)?;
    let refused = replies
        .iter()
        .filter(|reply| matches!(**reply, Reply::Refused(_)));
    Ok(refused.count())
}

/// Whether the two stores have the same keys, and the same bytes at each.
pub fn have_equal_bytes(
    alloc: Global,
    one: &MemoryStore,
    other: &MemoryStore,
) -> anyhow::Result<bool> {
    let keys = one.keys(alloc)?;
    if keys != other.keys(alloc)? {
        return Ok(false);
    }
    for key in &keys {
        if one.get(alloc, key)? != other.get(alloc, key)? {
            return Ok(false);
        }
    }
    Ok(true)
}

/// Two arrays of one layout, each left by calls from a store without a chunk, are equal exactly if the same bytes are
/// present at each chunk key. This does nothing: its contract is the fact.
pub fn bytes_tell_arrays_apart(one: &MemoryEngine, other: &MemoryEngine)
    requires same_layout { layout_of other.now ≡ layout_of one.now }
    requires course { IsCourseFromNothing (layout_of one.now) (state_of open_state one.now) }
    requires other_course { IsCourseFromNothing (layout_of one.now) (state_of open_state other.now) }
    ensures { HaveEqualContent (layout_of one.now) (store_of open_state one.now)
        (store_of open_state other.now)
        ↔ HaveEqualBytes (layout_of one.now) (store_of open_state one.now)
        (store_of open_state other.now) }
{
    layouts_are_lawful(one);
    courses_agree();
}
