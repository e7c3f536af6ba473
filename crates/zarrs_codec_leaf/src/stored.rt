//! The value at a key of a store, as a source.
ghost use Rattle.std.specs.Prelude.{◌≡◌, Some, true};
ghost use Rattle.std.specs.Option.{ForSome};
ghost use Rattle.zarrs_storage.specs.Store.{LendsValue, size_at};

use crate::source::{ByteSource, SourceBytes, Window};
use std::alloc::Global;
use zarrs_storage::{ReadableStorageTraits, StorageError, StoreKey};

/// The value that is present at a key of a store. Its bytes are asked for range by range, unless the store lends them.
#[derive(Debug, Drop)]
pub struct StoredValue<'a, S: ReadableStorageTraits> {
    store: &'a S,
    key: &'a StoreKey,
    size: u64,
    lent: Option<&'a [u8]>,
    ghost asked: { (S.state store.now).may_ask key.now ≡ true },
    ghost sized: { size_at (S.state store.now).values key.now ≡ Some size },
    ghost held: { ForSome lent (λ bytes. LendsValue (S.state store.now) key.now bytes.now) },
}

impl<'a, S: ReadableStorageTraits> StoredValue<'a, S> {
    ghost use Rattle.std.specs.Prelude.{◌≡◌, ◌↔◌, true, IfOk, IfErr, IfSome, IfNone, None};
    ghost use Rattle.std.specs.FinMap as map;
    ghost use Rattle.zarrs_storage.specs.Refusals.{RefusesRead};
    ghost use Rattle.zarrs_codec_leaf.specs.Stored.{state_of_source, key_of_source};

    /// The value at the key, or `None` if it is absent. The store is asked for its size alone, if it does not lend the value.
    ///
    /// # Errors
    /// What the store says if the key refuses; `OutOfMemory`.
    pub fn open(
        alloc: Global,
        store: &'a S,
        key: &'a StoreKey,
    ) -> Result<Option<StoredValue<'a, S>>, StorageError>
        requires { (S.state store.now).may_ask key.now ≡ true }
        ensures absent { IfOk result (λ found. IfNone found
            (map.get (S.state store.now).values key.now ≡ None)) }
        ensures state { IfOk result (λ found. IfSome found
            (λ source. state_of_source source ≡ S.state store.now)) }
        ensures key { IfOk result (λ found. IfSome found
            (λ source. key_of_source source ≡ key.now)) }
        ensures refused { IfErr result (RefusesRead (S.state store.now) key.now) }
    {
        let lent = store.lend_value(key);
        let size = match lent {
            Some(bytes) => Some(bytes.len() as u64),
            None => store.size_key(alloc, key)?,
        };
        let Some(size) = size else {
            return Ok(None);
        };
        Ok(Some(StoredValue {
            store,
            key,
            size,
            lent,
        }))
    }
}

impl<'a, S: ReadableStorageTraits> ByteSource for StoredValue<'a, S> {
    ghost use Rattle.zarrs_codec_leaf.specs.Stored.{state_of_source, key_of_source, value_or_empty};

    ghost bytes = { λ source. value_or_empty (state_of_source source) (key_of_source source) };

    ghost refuses = { λ source. (state_of_source source).refuses (key_of_source source) };

    ghost may_read = { λ source place. (state_of_source source).may_read (key_of_source source) place };

    fn size(&self) -> u64 {
        self.size
    }

    fn lent(&self) -> Option<&[u8]> {
        self.lent
    }

    fn read(&self, alloc: Global, window: Window) -> Result<SourceBytes<'_>, StorageError> {
        if let Some(bytes) = self.lent {
            return Ok(SourceBytes::Lent(window.slice(bytes)));
        }
        match self
            .store
            .get_partial(alloc, self.key, window.offset, window.len)?
        {
            Some(bytes) => Ok(SourceBytes::Shared(bytes)),
            None => unreachable!(),
        }
    }
}
