//! `LentDirectory`: a store over a directory and its cache, which are lent.
ghost use Rattle.std.specs.Prelude.{◌≡◌, ◌⊎◌, true, IfErr, IfSome, OnOk, OnErr, IsErr, IsErrOf};
ghost use Rattle.std.specs.Option.{option_copied};
ghost use Rattle.std.specs.FinMap as map;
ghost use Rattle.zarrs_storage.specs.Store.{Accepts, AcceptsPartial, Refuses, RefusesPartial};
ghost use Rattle.zarrs_storage.specs.Store.{LendsValue, last_call, with_part};
ghost use Rattle.zarrs_storage.specs.Wrappers.{lent_state};
ghost use Rattle.zarrs_directory.specs.Directory.{cache_state, lent_cache};
ghost use Rattle.zarrs_directory.specs.Directory.{lent_directory, lent_directory_state, RefusesWriting};

use crate::caching::Cache;
use crate::files::Directory;
use std::alloc::Global;
use std::rt::Files;
use zarrs_storage::{Bytes, ReadableStorageTraits, StorageError, StoreKey, WritableStorageTraits};

/// The parts of a `DirectoryStore`, lent to be read and written. The directory stays, and what is held of it changes.
#[derive(Drop)]
pub struct LentDirectory<'a, 'r, R> {
    directory: &'a Directory<'r, R>,
    cache: &'a mut Cache,
}

impl<'a, 'r, R: Files + AllocGlobal> LentDirectory<'a, 'r, R> {
    /// Lends the directory, and what is held of it.
    pub fn new(directory: &'a Directory<'r, R>, cache: &'a mut Cache) -> LentDirectory<'a, 'r, R>
        ensures state { ⟦<LentDirectory<'a, 'r, R> as ReadableStorageTraits>⟧.state result
            ≡ lent_state cache_state cache.entry }
        ensures cache { lent_cache result ≡ cache.entry }
        ensures directory { lent_directory result ≡ directory.now }
    {
        LentDirectory { directory, cache }
    }

    /// Returns what is held, as it is now.
    pub fn into_inner(self) -> &'a mut Cache
        ensures same_loan { result.ghost_name ≡ (lent_cache self.entry).ghost_name }
        ensures value { result.now ≡ (lent_cache self.entry).now }
    {
        self.cache
    }
}

impl<'a, 'r, R: Files + AllocGlobal> ReadableStorageTraits for LentDirectory<'a, 'r, R> {
    ghost state = { lent_directory_state };

    fn get(&self, _alloc: Global, key: &StoreKey) -> Result<Option<Bytes>, StorageError> {
        Ok(self.cache.get(key)?)
    }

    fn get_partial(
        &self,
        _alloc: Global,
        key: &StoreKey,
        offset: u64,
        count: u64,
    ) -> Result<Option<Bytes>, StorageError> {
        self.cache.get_partial(key, offset, count)
    }

    fn size_key(&self, _alloc: Global, key: &StoreKey) -> Result<Option<u64>, StorageError> {
        Ok(self.cache.size_key(key))
    }

    fn lend_value(&self, key: &StoreKey) -> Option<&[u8]>
        requires may_ask { (lent_directory_state self.now).may_ask key.now ≡ true }
        ensures lends { IfSome result (λ value. LendsValue (lent_directory_state self.now) key.now value.now) }
        ensures value { option_copied result ≡ map.get (lent_directory_state self.now).values key.now }
    {
        self.cache.lend_value(key)
    }
}

impl<'a, 'r, R: Files + AllocGlobal> WritableStorageTraits for LentDirectory<'a, 'r, R> {
    fn set(&mut self, alloc: Global, key: &StoreKey, value: Bytes) -> Result<(), StorageError>
        ensures ok { OnOk result (Accepts (lent_directory_state self.old) (lent_directory_state self.new)
            (map.insert (lent_directory_state self.old).values key.now value)) }
        ensures refused { OnErr result
            (Refuses (lent_directory_state self.old) (lent_directory_state self.new)) }
        ensures exhausted { (lent_directory_state self.old).calls ≡ last_call
            → IsErrOf result StorageError.Exhausted }
        ensures directory { lent_directory self.new ≡ lent_directory self.old }
        ensures reason { IfErr result (RefusesWriting (lent_directory_state self.old) key.now) }
    {
        self.cache.set(self.directory, alloc, key, value)
    }

    fn erase(&mut self, alloc: Global, key: &StoreKey) -> Result<(), StorageError>
        ensures ok { OnOk result (Accepts (lent_directory_state self.old) (lent_directory_state self.new)
            (map.remove (lent_directory_state self.old).values key.now)) }
        ensures refused { OnErr result
            (Refuses (lent_directory_state self.old) (lent_directory_state self.new)) }
        ensures exhausted { (lent_directory_state self.old).calls ≡ last_call
            → IsErrOf result StorageError.Exhausted }
        ensures directory { lent_directory self.new ≡ lent_directory self.old }
        ensures reason { IfErr result (RefusesWriting (lent_directory_state self.old) key.now) }
    {
        self.cache.erase(self.directory, alloc, key)
    }

    /// Writes no part: `supports_set_partial` is false.
    fn set_partial(
        &mut self,
        _alloc: Global,
        _key: &StoreKey,
        _offset: u64,
        _bytes: &[u8],
    ) -> Result<(), StorageError>
        ensures fails { IsErr result }
        ensures ok { OnOk result (AcceptsPartial (lent_directory_state self.old) (lent_directory_state self.new)
            (with_part (lent_directory_state self.old).values _key.now _offset _bytes.now)) }
        ensures refused { OnErr result
            (RefusesPartial (lent_directory_state self.old) (lent_directory_state self.new)) }
        ensures exhausted { (lent_directory_state self.old).calls ≡ last_call
            → IsErrOf result StorageError.Exhausted }
        ensures directory { lent_directory self.new ≡ lent_directory self.old }
        ensures reason { IfErr result (λ e. (e ≡ StorageError.ReadOnly)
            ⊎ ((e ≡ StorageError.Exhausted)
            × ((lent_directory_state self.old).calls ≡ last_call))) }
    {
        self.cache.refuse_partial()
    }

    fn supports_set_partial(&self) -> bool {
        false
    }
}
