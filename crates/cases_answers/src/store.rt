//! The store of a call, which may be lent.
ghost use Rattle.cases_answers.specs.State.{opened, state_below};

use crate::asks::{Asks, note};
use std::alloc::Global;
use std::cell::RefCell;
use std::ops::Range;
use zarrs_storage::{
    Bytes, Fault, Lent, MemoryStore, ReadOnly, ReadableStorageTraits, Stop, StorageError, StoreKey,
    WholeRefused, WritableStorageTraits,
};

/// A store in memory that refuses what a case says. It counts the writing calls that a call makes.
pub type Refusing = Stop<Fault<WholeRefused<MemoryStore>>>;

/// How the store of a call goes to the store that refuses.
#[derive(Drop)]
pub enum Below<'a> {
    Own(&'a mut Refusing),
    /// It takes no writing call.
    ReadOnly(ReadOnly<'a, Refusing>),
    Lent(Lent<'a, Refusing>),
}

/// The store of a call. It changes no answer of the store below, and keeps a record of what it is asked.
#[derive(Drop)]
pub struct CaseStore<'a> {
    pub below: Below<'a>,
    /// What it is asked.
    pub asks: &'a RefCell<Asks>,
}

impl CaseStore<'_> {
    fn note(&self, key: &StoreKey, places: Range<u64>) {
        if let Ok(mut asks) = self.asks.try_borrow_mut() {
            note(&mut asks, key, places);
        }
    }
}

impl<'a> ReadableStorageTraits for CaseStore<'a> {
    ghost state = { λ s. opened (state_below ⟦<Refusing as ReadableStorageTraits>⟧.state
        ⟦<ReadOnly<'a, Refusing> as ReadableStorageTraits>⟧.state
        ⟦<Lent<'a, Refusing> as ReadableStorageTraits>⟧.state s.below) };

    fn get(&self, alloc: Global, key: &StoreKey) -> Result<Option<Bytes>, StorageError> {
        let outcome = match &self.below {
            Below::Own(store) => store.get(alloc, key),
            Below::ReadOnly(store) => store.get(alloc, key),
            Below::Lent(store) => store.get(alloc, key),
        };
        let end = match &outcome {
            Ok(Some(value)) => value.len() as u64,
            Ok(None) => 0,
            Err(_) => u64::MAX,
        };
        self.note(key, 0..end);
        outcome
    }

    fn get_partial(
        &self,
        alloc: Global,
        key: &StoreKey,
        offset: u64,
        count: u64,
    ) -> Result<Option<Bytes>, StorageError> {
        self.note(key, offset..offset.saturating_add(count));
        match &self.below {
            Below::Own(store) => store.get_partial(alloc, key, offset, count),
            Below::ReadOnly(store) => store.get_partial(alloc, key, offset, count),
            Below::Lent(store) => store.get_partial(alloc, key, offset, count),
        }
    }

    fn size_key(&self, alloc: Global, key: &StoreKey) -> Result<Option<u64>, StorageError> {
        self.note(key, 0..0);
        match &self.below {
            Below::Own(store) => store.size_key(alloc, key),
            Below::ReadOnly(store) => store.size_key(alloc, key),
            Below::Lent(store) => store.size_key(alloc, key),
        }
    }
}

impl<'a> WritableStorageTraits for CaseStore<'a> {
    fn set(&mut self, alloc: Global, key: &StoreKey, value: Bytes) -> Result<(), StorageError> {
        match &mut self.below {
            Below::Own(store) => store.set(alloc, key, value),
            Below::ReadOnly(_) => Err(StorageError::Exhausted),
            Below::Lent(store) => store.set(alloc, key, value),
        }
    }

    fn erase(&mut self, alloc: Global, key: &StoreKey) -> Result<(), StorageError> {
        match &mut self.below {
            Below::Own(store) => store.erase(alloc, key),
            Below::ReadOnly(_) => Err(StorageError::Exhausted),
            Below::Lent(store) => store.erase(alloc, key),
        }
    }

    fn set_partial(
        &mut self,
        alloc: Global,
        key: &StoreKey,
        offset: u64,
        bytes: &[u8],
    ) -> Result<(), StorageError> {
        match &mut self.below {
            Below::Own(store) => store.set_partial(alloc, key, offset, bytes),
            Below::ReadOnly(_) => Err(StorageError::Exhausted),
            Below::Lent(store) => store.set_partial(alloc, key, offset, bytes),
        }
    }

    fn supports_set_partial(&self) -> bool {
        match &self.below {
            Below::Own(store) => store.supports_set_partial(),
            Below::ReadOnly(_) => false,
            Below::Lent(store) => store.supports_set_partial(),
        }
    }
}
