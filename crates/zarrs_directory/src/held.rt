//! What is held of a directory: values by their keys, and the keys that were read.
ghost use Rattle.std.specs.Prelude.{◌≡◌, ℕ, List, true, false, OnOk, OnErr};
ghost use Rattle.std.specs.FinMap as map;
ghost use Rattle.zarrs_storage.specs.Memory.{values_of};
ghost use Rattle.zarrs_directory.specs.Directory.{has_key, KeepsOtherValues, KeepsKeys};

use std::alloc::AllocError;
use std::collections::{BTreeMap, BTreeSet};
use zarrs_storage::{Bytes, StoreKey};

/// Puts the value at the key.
///
/// # Errors
/// `AllocError`: out of memory. Nothing is changed then.
pub(crate) fn insert_value(
    values: &mut BTreeMap<StoreKey, Bytes>,
    key: &StoreKey,
    value: &Bytes,
) -> Result<(), AllocError>
    ensures ok { OnOk result (values_of values.new
        ≡ map.insert (values_of values.old) key.now value.now) }
    ensures kept { OnErr result (values_of values.new ≡ values_of values.old) }
{
    let key = key.clone()?;
    let value = value.clone()?;
    values.insert(key, value)?;
    Ok(())
}

/// Removes the value at the key.
pub(crate) fn remove_value(values: &mut BTreeMap<StoreKey, Bytes>, key: &StoreKey)
    ensures { values_of values.new ≡ map.remove (values_of values.old) key.now }
{
    drop(values.remove(key));
}

/// Adds the key to those that were read.
///
/// # Errors
/// `AllocError`: out of memory. Nothing is changed then.
pub(crate) fn note(read: &mut BTreeSet<StoreKey>, key: &StoreKey) -> Result<(), AllocError>
    ensures noted { OnOk result (has_key read.new key.now ≡ true) }
    ensures keys { OnOk result (KeepsKeys read.old read.new key.now) }
    ensures kept { OnErr result ((other : List ℕ) → has_key read.new other ≡ has_key read.old other) }
{
    let key = key.clone()?;
    read.insert(key)?;
    Ok(())
}

/// Takes the key away from those that were read.
fn unnote(read: &mut BTreeSet<StoreKey>, key: &StoreKey)
    ensures gone { has_key read.new key.now ≡ false }
    ensures keys { (other : List ℕ) → (other ≡ key.now → ⊥)
        → has_key read.new other ≡ has_key read.old other }
{
    let _ = read.remove(key);
}

/// Puts what was read at the key: a value, or that there is none.
///
/// # Errors
/// `AllocError`: out of memory. Nothing is changed then.
#[tactic(auto, using(crate::proofs::StoreLemmas::other_inserted, crate::proofs::StoreLemmas::other_removed))]
fn put_read(
    values: &mut BTreeMap<StoreKey, Bytes>,
    key: &StoreKey,
    value: Option<Bytes>,
) -> Result<(), AllocError>
    ensures others { OnOk result
        (KeepsOtherValues (values_of values.old) (values_of values.new) key.now) }
    ensures kept { OnErr result (values_of values.new ≡ values_of values.old) }
{
    match value {
        Some(value) => {
            insert_value(values, key, &value)?;
            Ok(())
        }
        None => {
            remove_value(values, key);
            Ok(())
        }
    }
}

/// Holds what was read at the key, and notes the key, which was not read. Other keys stay as they are.
///
/// # Errors
/// `AllocError`: out of memory. Nothing is changed then.
#[tactic(auto, using(crate::proofs::StoreLemmas::unnoted))]
pub(crate) fn hold(
    values: &mut BTreeMap<StoreKey, Bytes>,
    read: &mut BTreeSet<StoreKey>,
    key: &StoreKey,
    value: Option<Bytes>,
) -> Result<(), AllocError>
    requires { has_key read.old key.now ≡ false }
    ensures noted { OnOk result (has_key read.new key.now ≡ true) }
    ensures keys { OnOk result (KeepsKeys read.old read.new key.now) }
    ensures values { OnOk result
        (KeepsOtherValues (values_of values.old) (values_of values.new) key.now) }
    ensures kept_keys { OnErr result
        ((other : List ℕ) → has_key read.new other ≡ has_key read.old other) }
    ensures kept_values { OnErr result (values_of values.new ≡ values_of values.old) }
{
    note(read, key)?;
    match put_read(values, key, value) {
        Ok(()) => Ok(()),
        Err(error) => {
            unnote(read, key);
            Err(error)
        }
    }
}
