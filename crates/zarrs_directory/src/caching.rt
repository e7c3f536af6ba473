//! `Cache`: what was read of a directory, and what was written to it since.
ghost use Rattle.std.specs.Prelude.{◌≡◌, ◌⊎◌, ◌+◌, ◌<◌, ◌≤◌, ℕ, List, length, take, drop, true, false, None};
ghost use Rattle.std.specs.Prelude.{IfErr, IfOk, IfSome, OnOk, OnErr, IsErr, IsErrOf};
ghost use Rattle.std.specs.Option.{option_copied};
ghost use Rattle.std.specs.FinMap as map;
ghost use Rattle.zarrs_storage.specs.Store.{Accepts, Refuses, RefusesPartial};
ghost use Rattle.zarrs_storage.specs.Store.{LendsValue, PassesValue, last_call};
ghost use Rattle.zarrs_storage.specs.Store.{size_at, value_range};
ghost use Rattle.zarrs_storage.specs.Refusals.{RefusesRange};
ghost use Rattle.zarrs_storage.specs.Memory.{values_of};
ghost use Rattle.zarrs_directory.specs.Directory.{cache_state, has_noted, RefusesFile, RefusesWriting};
ghost use Rattle.zarrs_directory.specs.Directory.{ForgetsAll, HoldsNothing, HoldsSame, NotesKey};

use crate::files::Directory;
use crate::held::{hold, insert_value, remove_value};
use std::alloc::{AllocError, Global};
use std::collections::{BTreeMap, BTreeSet};
use std::rt::Files;
use zarrs_storage::{Bytes, StorageError, StoreKey, WritingCalls};

/// What was read of a directory, and what was written to it since: the values, the keys that were read, and the counts of
/// the writing calls.
#[derive(Drop)]
pub struct Cache {
    values: BTreeMap<StoreKey, Bytes>,
    read: BTreeSet<StoreKey>,
    counts: WritingCalls,
}

/// Puts a value in the place of a present one, and into its file.
fn put_present<R: Files + AllocGlobal>(
    present: &mut Bytes,
    directory: &Directory<'_, R>,
    alloc: Global,
    key: &StoreKey,
    value: Bytes,
) -> Result<(), StorageError>
    ensures ok { OnOk result (present.new ≡ value) }
    ensures kept { OnErr result (present.new ≡ present.old) }
    ensures reason { IfErr result (RefusesFile key.now) }
{
    directory.replace(alloc, key, value.as_slice())?;
    *present = value;
    Ok(())
}

/// Puts a value where none is, and into its file. The entry is taken first: that memory lacks is told before the file is
/// written.
#[tactic(auto, using(crate::proofs::StoreLemmas::taken_back))]
fn put_absent<R: Files + AllocGlobal>(
    values: &mut BTreeMap<StoreKey, Bytes>,
    directory: &Directory<'_, R>,
    alloc: Global,
    key: &StoreKey,
    value: Bytes,
) -> Result<(), StorageError>
    requires { map.get (values_of values.old) key.now ≡ None }
    ensures ok { OnOk result (values_of values.new
        ≡ map.insert (values_of values.old) key.now value) }
    ensures kept { OnErr result (values_of values.new ≡ values_of values.old) }
    ensures reason { IfErr result (RefusesFile key.now) }
{
    insert_value(values, key, &value)?;
    match directory.replace(alloc, key, value.as_slice()) {
        Ok(()) => Ok(()),
        Err(error) => {
            remove_value(values, key);
            Err(error)
        }
    }
}

/// Puts a value at the key of the map and into its file.
fn put<R: Files + AllocGlobal>(
    values: &mut BTreeMap<StoreKey, Bytes>,
    directory: &Directory<'_, R>,
    alloc: Global,
    key: &StoreKey,
    value: Bytes,
) -> Result<(), StorageError>
    ensures ok { OnOk result (values_of values.new
        ≡ map.insert (values_of values.old) key.now value) }
    ensures kept { OnErr result (values_of values.new ≡ values_of values.old) }
    ensures reason { IfErr result (RefusesFile key.now) }
{
    match values.get_mut(key) {
        Some(present) => Ok(put_present(present, directory, alloc, key, value)?),
        None => put_absent(values, directory, alloc, key, value),
    }
}

/// Returns the range of the value, shared with it.
fn part_of(value: &Bytes, offset: u64, count: u64) -> Result<Bytes, StorageError>
    ensures ok { IfOk result (λ part. part ≡ take count (drop offset value.now)) }
    ensures passing { length value.now < offset + count
        → IsErrOf result StorageError.InvalidByteRange }
    ensures refused { IfErr result (λ e. (e ≡ StorageError.OutOfMemory)
        ⊎ ((e ≡ StorageError.InvalidByteRange) × (length value.now < offset + count))) }
{
    let size = value.len() as u64;
    if offset > size || count > size - offset {
        return Err(StorageError::InvalidByteRange);
    }
    Ok(value.slice(offset as usize..(offset + count) as usize)?)
}

/// Reads: of the values that are held, and of no file.
impl Cache {
    /// Holds nothing.
    pub(crate) fn new(alloc: Global) -> Cache
        ensures { HoldsNothing result }
    {
        Cache {
            values: BTreeMap::new(alloc),
            read: BTreeSet::new(alloc),
            counts: WritingCalls::starting_at(0),
        }
    }

    /// Returns whether the key was read.
    pub(crate) fn has_read(&self, key: &StoreKey) -> bool
        ensures { result ≡ has_noted self.now key.now }
    {
        self.read.contains(key)
    }

    /// Holds what was read at the key, and notes the key, which was not read. Other keys stay as they are.
    ///
    /// # Errors
    /// `AllocError`: out of memory. Nothing is changed then.
    pub(crate) fn hold(&mut self, key: &StoreKey, value: Option<Bytes>) -> Result<(), AllocError>
        requires { has_noted self.old key.now ≡ false }
        ensures noted { OnOk result (has_noted self.new key.now ≡ true) }
        ensures others { OnOk result (NotesKey self.old self.new key.now) }
        ensures kept { OnErr result (HoldsSame self.old self.new) }
    {
        hold(&mut self.values, &mut self.read, key, value)?;
        Ok(())
    }

    /// Forgets what was read and written. The counts stay.
    pub(crate) fn forget(&mut self)
        ensures { ForgetsAll self.old self.new }
    {
        self.values.clear();
        self.read.clear();
    }

    /// Returns the value at the key.
    pub(crate) fn get(&self, key: &StoreKey) -> Result<Option<Bytes>, AllocError>
        ensures { IfOk result (λ value. value ≡ map.get (cache_state self.now).values key.now) }
    {
        match self.values.get(key) {
            Some(value) => Ok(Some(value.clone()?)),
            None => Ok(None),
        }
    }

    /// Returns a range of the value at the key.
    pub(crate) fn get_partial(
        &self,
        key: &StoreKey,
        offset: u64,
        count: u64,
    ) -> Result<Option<Bytes>, StorageError>
        ensures value { IfOk result (λ part. part
            ≡ value_range (cache_state self.now).values key.now offset count) }
        ensures passing { PassesValue (cache_state self.now).values key.now offset count → IsErr result }
        ensures refused { IfErr result (RefusesRange (cache_state self.now) key.now offset count) }
    {
        match self.values.get(key) {
            Some(value) => Ok(Some(part_of(value, offset, count)?)),
            None => Ok(None),
        }
    }

    /// Returns the size of the value at the key.
    pub(crate) fn size_key(&self, key: &StoreKey) -> Option<u64>
        ensures { result ≡ size_at (cache_state self.now).values key.now }
    {
        self.values.get(key).map(|value| value.len() as u64)
    }

    /// Lends the value at the key.
    pub(crate) fn lend_value(&self, key: &StoreKey) -> Option<&[u8]>
        ensures lends { IfSome result (λ value. LendsValue (cache_state self.now) key.now value.now) }
        ensures value { option_copied result ≡ map.get (cache_state self.now).values key.now }
    {
        match self.values.get(key) {
            Some(value) => Some(value.as_slice()),
            None => None,
        }
    }
}

/// Writes: each goes to its file of this directory at once.
impl Cache {
    /// Puts a value at the key.
    pub(crate) fn set<R: Files + AllocGlobal>(
        &mut self,
        directory: &Directory<'_, R>,
        alloc: Global,
        key: &StoreKey,
        value: Bytes,
    ) -> Result<(), StorageError>
        ensures ok { OnOk result (Accepts (cache_state self.old) (cache_state self.new)
            (map.insert (cache_state self.old).values key.now value)) }
        ensures refused { OnErr result (Refuses (cache_state self.old) (cache_state self.new)) }
        ensures exhausted { (cache_state self.old).calls ≡ last_call
            → IsErrOf result StorageError.Exhausted }
        ensures reason { IfErr result (RefusesWriting (cache_state self.old) key.now) }
    {
        self.counts.check()?;
        let outcome = put(&mut self.values, directory, alloc, key, value);
        self.counts.count(outcome.is_err());
        outcome
    }

    /// Removes the value at the key.
    pub(crate) fn erase<R: Files + AllocGlobal>(
        &mut self,
        directory: &Directory<'_, R>,
        alloc: Global,
        key: &StoreKey,
    ) -> Result<(), StorageError>
        ensures ok { OnOk result (Accepts (cache_state self.old) (cache_state self.new)
            (map.remove (cache_state self.old).values key.now)) }
        ensures refused { OnErr result (Refuses (cache_state self.old) (cache_state self.new)) }
        ensures exhausted { (cache_state self.old).calls ≡ last_call
            → IsErrOf result StorageError.Exhausted }
        ensures reason { IfErr result (RefusesWriting (cache_state self.old) key.now) }
    {
        self.counts.check()?;
        match directory.remove(alloc, key) {
            Ok(()) => {
                remove_value(&mut self.values, key);
                self.counts.count(false);
                Ok(())
            }
            Err(error) => {
                self.counts.count(true);
                Err(error)
            }
        }
    }

    /// Refuses to write a part of a value.
    pub(crate) fn refuse_partial(&mut self) -> Result<(), StorageError>
        ensures refused { RefusesPartial (cache_state self.old) (cache_state self.new) }
        ensures is_error { IsErr result }
        ensures exhausted { (cache_state self.old).calls ≡ last_call
            → IsErrOf result StorageError.Exhausted }
        ensures reason { IfErr result (λ e. (e ≡ StorageError.ReadOnly)
            ⊎ ((e ≡ StorageError.Exhausted) × ((cache_state self.old).calls ≡ last_call))) }
    {
        self.counts.check()?;
        self.counts.count_part(true);
        Err(StorageError::ReadOnly)
    }
}
