//! Calls where there is no memory: what they leave, and how they are made again.
use crate::effect::{metadata_of, shape_of, shown_store};
use crate::session::{Outcome, Session};
use cases_answers::Answer;
use cases_lines::Why;
use cases_lines::call::CallLine;
use std::alloc::{AllocError, Global};
use std::mem;
use zarrs::{Array, MemoryStore, ReadableStorageTraits, WritableStorageTraits};

/// What a call may change.
#[derive(Drop)]
pub(crate) struct Before {
    array: Option<Array<()>>,
    store: MemoryStore,
}

/// What must stand after a call that found no memory, and what stands.
#[derive(Drop)]
pub(crate) struct Left {
    pub(crate) expected: String,
    pub(crate) found: String,
}

/// Whether the call answered that there is no memory.
pub(crate) fn lacks_memory(answer: &Answer) -> bool {
    match answer.shown.as_str() {
        "E9" | "E26" => true,
        _ => answer.text.as_str() == "out of memory",
    }
}

/// A copy of the store, with as many writing calls.
fn copied_store(alloc: Global, store: &MemoryStore) -> Result<MemoryStore, AllocError> {
    let keys = store.keys(alloc)?;
    let calls = store.calls().saturating_sub(keys.len() as u64);
    let mut copy = MemoryStore::with_calls(alloc, calls);
    for key in &keys {
        if let Ok(Some(value)) = store.get(alloc, key) {
            if copy.set(alloc, key, value).is_err() {
                return Err(AllocError);
            }
        }
    }
    Ok(copy)
}

impl Before {
    /// Copies of the array, if there is one, and of the store.
    pub(crate) fn of(
        alloc: Global,
        array: Option<&Array<()>>,
        store: &MemoryStore,
    ) -> Result<Before, AllocError> {
        let store = copied_store(alloc, store)?;
        let array = match array.map(|array| array.with_storage(alloc, ())) {
            Some(Ok(copy)) => Some(copy),
            Some(Err(_)) => return Err(AllocError),
            None => None,
        };
        Ok(Before { array, store })
    }
}

impl<'f> Session<'f> {
    /// Puts back what a call may have changed.
    pub(crate) fn restore(&mut self, alloc: Global, before: &Before) -> Result<(), AllocError> {
        let Before { array, store } = Before::of(alloc, before.array.as_ref(), &before.store)?;
        drop(mem::replace(&mut self.store, store));
        drop(mem::replace(&mut self.array, array));
        Ok(())
    }

    /// The shape and the metadata of the array.
    fn shown_array(&self, alloc: Global) -> Result<String, AllocError> {
        let shape = shape_of(alloc, self)?;
        let metadata = metadata_of(alloc, self)?;
        format!(in alloc; "{shape} {metadata}")
    }

    /// What the call leaves in the store if it is stopped after so many writing calls.
    fn stopped(
        &mut self,
        alloc: Global,
        call: &CallLine<'f>,
        accepted: u64,
    ) -> Result<String, Why<'f>> {
        let passed = self.conditions.passed;
        self.conditions.passed = passed.min(accepted);
        let outcome = self.outcome_of(alloc, call);
        self.conditions.passed = passed;
        drop(outcome?);
        Ok(shown_store(alloc, &self.store)?)
    }

    /// What a call that found no memory left, and what it must leave: the store that the same call leaves if it is
    /// stopped after as many writing calls as were accepted, and the array as it was, except that an array that is not
    /// made is none. All stands as before the call then.
    pub(crate) fn left(
        &mut self,
        alloc: Global,
        call: &CallLine<'f>,
        outcome: &Outcome,
        before: &Before,
    ) -> Result<Left, Why<'f>> {
        let store = shown_store(alloc, &self.store)?;
        let array = self.shown_array(alloc)?;
        let has_array = self.array.is_some();
        self.restore(alloc, before)?;
        let stopped = self.stopped(alloc, call, outcome.writes.saturating_sub(outcome.failed))?;
        self.restore(alloc, before)?;
        let kept = if has_array {
            self.shown_array(alloc)?
        } else {
            String::from_str(alloc, "no array no array")?
        };
        Ok(Left {
            expected: format!(in alloc; "{stopped}, {kept}")?,
            found: format!(in alloc; "{store}, {array}")?,
        })
    }
}
