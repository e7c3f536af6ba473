//! `Excerpts`: what was read of the files of a directory, each whole or in part.
ghost use Rattle.std.specs.Prelude.{◌≡◌, true, None, IfErr, IfSome, MatchOption, OnOk};
ghost use Rattle.std.specs.FinMap as map;
ghost use Rattle.zarrs_storage.specs.Store.{LendsValue};
ghost use Rattle.zarrs_directory.specs.Directory.{has_key, RefusesFile};
ghost use Rattle.zarrs_directory.specs.Excerpts.{excerpt_at, excerpts_of, excerpts_state};
ghost use Rattle.zarrs_directory.specs.Excerpts.{IsNoExcerpt, KeepsOtherExcerpts, ReadsExcerpt, ShowsExcerpt};

use crate::excerpt::{Excerpt, Wanted};
use crate::files::Directory;
use crate::held::note;
use std::alloc::{AllocError, Global};
use std::collections::{BTreeMap, BTreeSet};
use std::rt::Files;
use zarrs_storage::{Bytes, ReadableStorageTraits, StorageError, StoreKey};

/// Puts what was read at the key: an excerpt, or that there is no file.
fn put_excerpt(
    found: &mut BTreeMap<StoreKey, Excerpt>,
    key: &StoreKey,
    excerpt: Option<Excerpt>,
) -> Result<(), AllocError>
    ensures here { OnOk result (excerpt_at found.new key.now ≡ excerpt) }
    ensures others { OnOk result (KeepsOtherExcerpts found.old found.new key.now) }
{
    match excerpt {
        Some(excerpt) => {
            let key = key.clone()?;
            found.insert(key, excerpt)?;
            Ok(())
        }
        None => {
            drop(found.remove(key));
            Ok(())
        }
    }
}

/// What was read of the files of a directory, each whole or in part: a store that is read. The keys that were read may be
/// asked, and of each file the places that were read; the others stand for zeros.
#[derive(Drop)]
pub struct Excerpts<'d, 'r, R> {
    directory: &'d Directory<'r, R>,
    found: BTreeMap<StoreKey, Excerpt>,
    read: BTreeSet<StoreKey>,
}

impl<'d, 'r, R: Files + AllocGlobal> Excerpts<'d, 'r, R> {
    /// Makes the store of the directory, of which nothing was read.
    pub fn new(alloc: Global, directory: &'d Directory<'r, R>) -> Excerpts<'d, 'r, R>
        ensures none { IsNoExcerpt (excerpts_state result) }
        ensures directory { excerpts_of result ≡ directory.now }
    {
        Excerpts {
            directory,
            found: BTreeMap::new(alloc),
            read: BTreeSet::new(alloc),
        }
    }

    /// Returns what was found at the key.
    fn find(&self, key: &StoreKey) -> Option<&Excerpt>
        ensures { MatchOption result (map.get (excerpts_state self.now).values key.now ≡ None)
            (λ excerpt. ShowsExcerpt (excerpts_state self.now) key.now excerpt.now) }
    {
        self.found.get(key)
    }

    /// Reads the file of the key, so that the key may be asked. If the file has as many bytes as wanted says, the places
    /// that are wanted may be asked then, and otherwise all; so they may if the key was read before. Other keys stay as they
    /// are.
    ///
    /// # Errors
    /// `Other` with the key and the system's text if the file cannot be read; `OutOfMemory`. What is held then is not said.
    pub fn read(
        &mut self,
        alloc: Global,
        key: &StoreKey,
        wanted: Option<Wanted>,
    ) -> Result<(), StorageError>
        ensures read { OnOk result
            (ReadsExcerpt (excerpts_state self.old) (excerpts_state self.new) key.now wanted) }
        ensures directory { excerpts_of self.new ≡ excerpts_of self.old }
        ensures reason { IfErr result (RefusesFile key.now) }
    {
        let wanted = if self.read.contains(key) {
            None
        } else {
            wanted
        };
        let excerpt = self.directory.read(alloc, key, wanted)?;
        put_excerpt(&mut self.found, key, excerpt)?;
        note(&mut self.read, key)?;
        Ok(())
    }
}

impl<'d, 'r, R: Files + AllocGlobal> ReadableStorageTraits for Excerpts<'d, 'r, R> {
    ghost state = { excerpts_state };

    fn get(&self, _alloc: Global, key: &StoreKey) -> Result<Option<Bytes>, StorageError> {
        match self.find(key) {
            Some(excerpt) => Ok(Some(excerpt.whole_bytes()?)),
            None => Ok(None),
        }
    }

    fn get_partial(
        &self,
        _alloc: Global,
        key: &StoreKey,
        offset: u64,
        count: u64,
    ) -> Result<Option<Bytes>, StorageError> {
        match self.find(key) {
            Some(excerpt) => Ok(Some(excerpt.range(offset, count)?)),
            None => Ok(None),
        }
    }

    fn size_key(&self, _alloc: Global, key: &StoreKey) -> Result<Option<u64>, StorageError> {
        match self.find(key) {
            Some(excerpt) => Ok(Some(excerpt.size())),
            None => Ok(None),
        }
    }

    fn lend_value(&self, key: &StoreKey) -> Option<&[u8]>
        requires may_ask { has_key self.now.read key.now ≡ true }
        ensures lends { IfSome result (λ value. LendsValue (excerpts_state self.now) key.now value.now) }
    {
        self.find(key)?.lend()
    }
}
