//! `DirectoryStore`: a store over what was read of a directory.
ghost use Rattle.std.specs.Prelude.{◌≡◌, ◌⊎◌, ℕ, List, true, false};
ghost use Rattle.std.specs.Prelude.{IfErr, IfOk, IfSome, OnOk, OnErr, IsOk, IsErr, IsErrOf};
ghost use Rattle.std.specs.Option.{option_copied};
ghost use Rattle.std.specs.FinMap as map;
ghost use Rattle.zarrs_storage.specs.Store.{Accepts, AcceptsPartial, Refuses, RefusesPartial};
ghost use Rattle.zarrs_storage.specs.Store.{LendsValue, last_call, with_part};
ghost use Rattle.zarrs_directory.specs.Directory.{directory_of, directory_state, root_of, was_read};
ghost use Rattle.zarrs_directory.specs.Directory.{Forgets, IsNew, ReadsKey, Stays};
ghost use Rattle.zarrs_directory.specs.Directory.{RefusesFile, RefusesWriting};

use crate::caching::Cache;
use crate::excerpt::Excerpt;
use crate::files::Directory;
use std::alloc::{AllocError, Global};
use std::rt::Files;
use zarrs_storage::{Bytes, ReadableStorageTraits, StorageError, StoreKey, WritableStorageTraits};

/// A directory, and what was read of it and written to it. The keys that were read may be asked, and no other; what is
/// written goes to its file at once. `LentDirectory` lends the parts.
#[derive(Drop)]
pub struct DirectoryStore<'r, R> {
    pub directory: Directory<'r, R>,
    pub cache: Cache,
}

impl<'r, R: Files + AllocGlobal> DirectoryStore<'r, R> {
    /// Makes the store over the directory, of which nothing was read.
    ///
    /// # Errors
    /// `AllocError`: out of memory.
    pub fn new(rt: &'r R, root: &str) -> Result<DirectoryStore<'r, R>, AllocError>
        ensures { IfOk result (IsNew root.now) }
    {
        Ok(DirectoryStore {
            directory: Directory::new(rt, root)?,
            cache: Cache::new(rt.alloc()),
        })
    }

    /// Returns the path of the directory.
    pub fn root(&self) -> &str
        ensures { result.now ≡ root_of (directory_of self.now) }
    {
        self.directory.root()
    }

    /// Returns whether the key was read, so that it may be asked.
    pub fn has_read(&self, key: &StoreKey) -> bool
        ensures { result ≡ was_read self.now key.now }
    {
        self.cache.has_read(key)
    }

    /// Reads the file of the key, if it was not read, so that the key may be asked. Other keys stay as they are.
    ///
    /// # Errors
    /// `Other` with the key and the system's text if the file cannot be read; `OutOfMemory`. Nothing is changed then.
    pub fn read(&mut self, alloc: Global, key: &StoreKey) -> Result<(), StorageError>
        ensures asked { OnOk result (was_read self.new key.now ≡ true) }
        ensures others { OnOk result (ReadsKey self.old self.new key.now) }
        ensures again { was_read self.old key.now ≡ true
            → (IsOk result × (self.new ≡ self.old)) }
        ensures refused { OnErr result (Stays self.old self.new) }
        ensures reason { IfErr result (RefusesFile key.now) }
    {
        if self.has_read(key) {
            return Ok(());
        }
        let found = self.directory.read(alloc, key, None)?;
        self.cache.hold(key, found.map(Excerpt::into_bytes))?;
        Ok(())
    }

    /// Forgets what was read and written, so that no key may be asked. The counts stay.
    pub fn forget(&mut self)
        ensures asked { (key : List ℕ) → was_read self.new key ≡ false }
        ensures directory { directory_of self.new ≡ directory_of self.old }
        ensures forgets { Forgets self.old self.new }
    {
        self.cache.forget();
    }
}

impl<'r, R: Files + AllocGlobal> ReadableStorageTraits for DirectoryStore<'r, R> {
    ghost state = { directory_state };

    fn get(&self, _alloc: Global, key: &StoreKey) -> Result<Option<Bytes>, StorageError> {
        Ok(self.cache.get(key)?)
    }

    fn get_partial(
        &self,
        _alloc: Global,
        key: &StoreKey,
        offset: u64,
        count: u64,
    ) -> Result<Option<Bytes>, StorageError> {
        self.cache.get_partial(key, offset, count)
    }

    fn size_key(&self, _alloc: Global, key: &StoreKey) -> Result<Option<u64>, StorageError> {
        Ok(self.cache.size_key(key))
    }

    fn lend_value(&self, key: &StoreKey) -> Option<&[u8]>
        requires may_ask { was_read self.now key.now ≡ true }
        ensures lends { IfSome result (λ value. LendsValue (directory_state self.now) key.now value.now) }
        ensures value { option_copied result ≡ map.get (directory_state self.now).values key.now }
    {
        self.cache.lend_value(key)
    }
}

impl<'r, R: Files + AllocGlobal> WritableStorageTraits for DirectoryStore<'r, R> {
    fn set(&mut self, alloc: Global, key: &StoreKey, value: Bytes) -> Result<(), StorageError>
        ensures ok { OnOk result (Accepts (directory_state self.old) (directory_state self.new)
            (map.insert (directory_state self.old).values key.now value)) }
        ensures refused { OnErr result (Refuses (directory_state self.old) (directory_state self.new)) }
        ensures exhausted { (directory_state self.old).calls ≡ last_call
            → IsErrOf result StorageError.Exhausted }
        ensures directory { directory_of self.new ≡ directory_of self.old }
        ensures reason { IfErr result (RefusesWriting (directory_state self.old) key.now) }
    {
        self.cache.set(&self.directory, alloc, key, value)
    }

    fn erase(&mut self, alloc: Global, key: &StoreKey) -> Result<(), StorageError>
        ensures ok { OnOk result (Accepts (directory_state self.old) (directory_state self.new)
            (map.remove (directory_state self.old).values key.now)) }
        ensures refused { OnErr result (Refuses (directory_state self.old) (directory_state self.new)) }
        ensures exhausted { (directory_state self.old).calls ≡ last_call
            → IsErrOf result StorageError.Exhausted }
        ensures directory { directory_of self.new ≡ directory_of self.old }
        ensures reason { IfErr result (RefusesWriting (directory_state self.old) key.now) }
    {
        self.cache.erase(&self.directory, alloc, key)
    }

    /// Writes no part: `supports_set_partial` is false.
    fn set_partial(
        &mut self,
        _alloc: Global,
        _key: &StoreKey,
        _offset: u64,
        _bytes: &[u8],
    ) -> Result<(), StorageError>
        ensures fails { IsErr result }
        ensures ok { OnOk result (AcceptsPartial (directory_state self.old) (directory_state self.new)
            (with_part (directory_state self.old).values _key.now _offset _bytes.now)) }
        ensures refused { OnErr result
            (RefusesPartial (directory_state self.old) (directory_state self.new)) }
        ensures exhausted { (directory_state self.old).calls ≡ last_call
            → IsErrOf result StorageError.Exhausted }
        ensures directory { directory_of self.new ≡ directory_of self.old }
        ensures reason { IfErr result (λ e. (e ≡ StorageError.ReadOnly)
            ⊎ ((e ≡ StorageError.Exhausted)
            × ((directory_state self.old).calls ≡ last_call))) }
    {
        self.cache.refuse_partial()
    }

    fn supports_set_partial(&self) -> bool {
        false
    }
}
