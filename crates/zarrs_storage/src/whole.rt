//! `WholeRefused`: a store that refuses to read whole values.
ghost use Rattle.std.specs.Prelude.{◌≡◌, true, codes, IfOk, IfErr, IsErr};
ghost use Rattle.std.specs.FinMap as map;
ghost use Rattle.zarrs_storage.specs.Store.{MayReadWhole, MayReadRange};
ghost use Rattle.zarrs_storage.specs.Store.{PassesValue, is_listed, value_range, size_at, with_part};
ghost use Rattle.zarrs_storage.specs.Refusals.{NamesKey, RefusesRead, RefusesRange};
ghost use Rattle.zarrs_storage.specs.Wrappers.{ReadsOver, WholeWrites, whole_value, part_of_value};
ghost use Rattle.zarrs_storage.specs.Wrappers.{with_refused, whole_state, below_whole, whole_keys};

use crate::error::StorageError;
use crate::keys::{StoreKey, lists};
use crate::traits::{ReadableStorageTraits, WritableStorageTraits};
use bytes::Bytes;
use std::alloc::Global;

/// A store that refuses `get` of some keys, with `Other("get")`. Their sizes and ranges pass.
#[derive(Debug, Drop)]
pub struct WholeRefused<S> {
    store: S,
    keys: Vec<StoreKey>,
}

impl<S: ReadableStorageTraits> WholeRefused<S> {
    /// Refuses `get` of these keys.
    pub fn new(store: S, keys: Vec<StoreKey>) -> WholeRefused<S>
        ensures state { whole_state S.state result ≡ with_refused (S.state store) keys.items }
        ensures below { below_whole result ≡ store }
        ensures keys { whole_keys result ≡ keys.items }
    {
        WholeRefused { store, keys }
    }

    /// Returns the store below.
    pub fn into_inner(self) -> S
        ensures { result ≡ below_whole self }
    {
        self.store
    }
}

impl<S: ReadableStorageTraits> ReadableStorageTraits for WholeRefused<S> {
    ghost state = { whole_state S.state };

    fn get(&self, alloc: Global, key: &StoreKey) -> Result<Option<Bytes>, StorageError>
        requires may_ask { (whole_state S.state self.now).may_ask key.now ≡ true }
        requires may_read { MayReadWhole (whole_state S.state self.now) key.now }
        ensures reads { let s = whole_state S.state self.now in
            ReadsOver (map.get s.values key.now) (RefusesRead s key.now)
            (is_listed (whole_keys self.now) key.now) (codes "get") result }
        ensures refusing { (whole_state S.state self.now).refuses key.now ≡ true → IsErr result }
        ensures named { IfErr result (NamesKey key.now) }
    {
        if lists(&self.keys, key) {
            return Err(StorageError::other(alloc, "get"));
        }
        self.store.get(alloc, key)
    }

    fn get_partial(
        &self,
        alloc: Global,
        key: &StoreKey,
        offset: u64,
        count: u64,
    ) -> Result<Option<Bytes>, StorageError>
        requires may_ask { (whole_state S.state self.now).may_ask key.now ≡ true }
        requires may_read { MayReadRange (whole_state S.state self.now) key.now offset count }
        ensures value { IfOk result (λ part. part
            ≡ value_range (whole_state S.state self.now).values key.now offset count) }
        ensures passing { PassesValue (whole_state S.state self.now).values key.now offset count
            → IsErr result }
        ensures refused { IfErr result
            (RefusesRange (S.state (below_whole self.now)) key.now offset count) }
    {
        self.store.get_partial(alloc, key, offset, count)
    }

    fn size_key(&self, alloc: Global, key: &StoreKey) -> Result<Option<u64>, StorageError>
        requires may_ask { (whole_state S.state self.now).may_ask key.now ≡ true }
        ensures value { IfOk result (λ size. size
            ≡ size_at (whole_state S.state self.now).values key.now) }
        ensures refused { IfErr result (RefusesRead (S.state (below_whole self.now)) key.now) }
    {
        self.store.size_key(alloc, key)
    }
}

impl<S: WritableStorageTraits> WritableStorageTraits for WholeRefused<S> {
    fn set(&mut self, alloc: Global, key: &StoreKey, value: Bytes) -> Result<(), StorageError>
        ensures writes { WholeWrites whole_value S.ReadableStorageTraits.state
            (λ values. map.insert values key.now value) self.old self.new result }
        ensures rule { whole_keys self.new ≡ whole_keys self.old }
    {
        self.store.set(alloc, key, value)
    }

    fn erase(&mut self, alloc: Global, key: &StoreKey) -> Result<(), StorageError>
        ensures writes { WholeWrites whole_value S.ReadableStorageTraits.state
            (λ values. map.remove values key.now) self.old self.new result }
        ensures rule { whole_keys self.new ≡ whole_keys self.old }
    {
        self.store.erase(alloc, key)
    }

    fn set_partial(
        &mut self,
        alloc: Global,
        key: &StoreKey,
        offset: u64,
        bytes: &[u8],
    ) -> Result<(), StorageError>
        ensures writes { WholeWrites part_of_value S.ReadableStorageTraits.state
            (λ values. with_part values key.now offset bytes.now) self.old self.new result }
        ensures rule { whole_keys self.new ≡ whole_keys self.old }
    {
        self.store.set_partial(alloc, key, offset, bytes)
    }

    fn supports_set_partial(&self) -> bool {
        self.store.supports_set_partial()
    }
}
