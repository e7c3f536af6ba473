//! Metadata calls: the metadata of an array in its store.
use super::Array;
use std::alloc::Global;
use zarrs_creation::{MetadataPut, erasures_of_metadata, puts_of_metadata, store_refusal};
use zarrs_options::{ArrayMetadataOptions, MetadataEraseVersion};
use zarrs_storage::{StorageError, WritableStorageTraits};

impl<TStorage: WritableStorageTraits> Array<TStorage> {
    ghost use Rattle.std.specs.Prelude.{◌≡◌, map, IfErr, Ok, OnOk};
    ghost use Rattle.zarrs_engine_calls.specs.Changes.{IsPut};
    ghost use Rattle.zarrs_metadata.specs.Versions.{MetadataData};
    ghost use Rattle.zarrs_options.specs.Options.{options_view};
    ghost use Rattle.zarrs_options.specs.declared.versions.MetadataEraseVersion.TheVariants as erase;
    ghost use Rattle.zarrs_engine_calls.specs.Refusals.{refusal_of_storage};
    ghost use Rattle.zarrs_creation.specs.Shown.{shown};
    ghost use Rattle.zarrs_creation.specs.Writing.{put_view};
    ghost use Rattle.zarrs.specs.Counts.{Writes, documents_of, erased_documents};
    ghost use Rattle.zarrs.specs.MetadataCalls.{ErasesDocuments, PutsOrRefuses};
    ghost use Rattle.zarrs.specs.MetadataCalls.{StoresDocuments};
    ghost use Rattle.zarrs.specs.Puts.{ArePut, PutsFront, RefusesCall};
    ghost use Rattle.zarrs.specs.Arrays.{metadata_of_array, metadata_options_of_array};
    ghost use Rattle.zarrs.specs.Arrays.{store_of_array, KeepsArray};

    /// Stores the metadata, as the array's own metadata options show it. See `store_metadata_opt`.
    ///
    /// # Errors
    /// As `store_metadata_opt`.
    pub fn store_metadata(&mut self, alloc: Global) -> Result<(), StorageError>
        ensures stores { StoresDocuments TStorage.state (metadata_options_of_array self.old)
            self.old self.new result }
        ensures count { (m : MetadataData)
            → shown (metadata_options_of_array self.old) (metadata_of_array self.old) ≡ Ok m
            → OnOk result (Writes (documents_of m) (store_of_array TStorage.state self.old)
            (store_of_array TStorage.state self.new)) }
    {
        let options = self.metadata_options;
        self.store_metadata_opt(alloc, &options)
    }

    /// Stores the metadata as these options show it, as indented JSON: of V3 at the key `zarr.json` of the path, by one
    /// writing call of the store; of V2 first the attributes at `.zattrs`, which is erased if there is none, then the
    /// rest at `.zarray`.
    ///
    /// # Errors
    /// If the store refuses, and `OutOfMemory`; no `InvalidMetadata`. No value is changed then, except that the attributes
    /// of a V2 array may be stored. `OutOfMemory` comes before the first call of the store, or is what a call answered.
    pub fn store_metadata_opt(
        &mut self,
        alloc: Global,
        options: &ArrayMetadataOptions,
    ) -> Result<(), StorageError>
        ensures stores { StoresDocuments TStorage.state (options_view options.now) self.old self.new
            result }
        ensures count { (m : MetadataData)
            → shown (options_view options.now) (metadata_of_array self.old) ≡ Ok m
            → OnOk result (Writes (documents_of m) (store_of_array TStorage.state self.old)
            (store_of_array TStorage.state self.new)) }
    {
        let puts = self.shown_puts(alloc, options)?;
        self.put_all(alloc, puts)
    }

    /// Erases the metadata of the array's own version. See `erase_metadata_opt`.
    ///
    /// # Errors
    /// As `erase_metadata_opt`.
    pub fn erase_metadata(&mut self, alloc: Global) -> Result<(), StorageError>
        ensures erases { ErasesDocuments TStorage.state erase.Default self.old self.new result }
        ensures count { OnOk result (Writes (documents_of (metadata_of_array self.old))
            (store_of_array TStorage.state self.old) (store_of_array TStorage.state self.new)) }
    {
        self.erase_metadata_opt(alloc, MetadataEraseVersion::Default)
    }

    /// Erases metadata, whether it is present or not, by one writing call of the store for each key: `zarr.json` for V3,
    /// `.zarray` and `.zattrs` for V2, all three in this order, or by default those of the array's own version.
    ///
    /// # Errors
    /// If the store refuses, and `OutOfMemory`; no `InvalidMetadata`. A front of the keys is erased then. `OutOfMemory`
    /// comes before the first call of the store, or is what a call answered.
    pub fn erase_metadata_opt(
        &mut self,
        alloc: Global,
        version: MetadataEraseVersion,
    ) -> Result<(), StorageError>
        ensures erases { ErasesDocuments TStorage.state version self.old self.new result }
        ensures count { OnOk result
            (Writes (erased_documents version (metadata_of_array self.old))
            (store_of_array TStorage.state self.old) (store_of_array TStorage.state self.new)) }
    {
        let puts = erasures_of_metadata(alloc, self.engine.path(), &self.metadata, version)?;
        self.put_all(alloc, puts)
    }

    /// Puts these values at their keys, one after another.
    pub(super) fn put_all(
        &mut self,
        alloc: Global,
        puts: Vec<MetadataPut>,
    ) -> Result<(), StorageError>
        ensures { PutsOrRefuses TStorage.state (ArePut (map put_view puts.items))
            (PutsFront (map put_view puts.items)) self.old self.new result }
    {
        for put in puts {
            self.put(alloc, put)?;
        }
        Ok(())
    }

    /// Puts the value at its key, or erases the key, by one writing call of the store.
    fn put(&mut self, alloc: Global, put: MetadataPut) -> Result<(), StorageError>
        ensures { PutsOrRefuses TStorage.state (IsPut put.key put.value) RefusesCall self.old
            self.new result }
    {
        match self.call_store(alloc, put) {
            Ok(()) => Ok(()),
            Err(error) => Err(store_refusal(error)),
        }
    }

    /// Makes the writing call that puts the value at its key, or erases the key.
    fn call_store(&mut self, alloc: Global, put: MetadataPut) -> Result<(), StorageError>
        ensures done { OnOk result (IsPut put.key put.value
            (store_of_array TStorage.state self.old) (store_of_array TStorage.state self.new)) }
        ensures refused { IfErr result (λ e. RefusesCall (refusal_of_storage e)
            (store_of_array TStorage.state self.old) (store_of_array TStorage.state self.new)) }
        ensures kept { KeepsArray self.old self.new }
    {
        let MetadataPut { key, value } = put;
        match value {
            Some(value) => self.engine.storage_mut().set(alloc, &key, value),
            None => self.engine.storage_mut().erase(alloc, &key),
        }
    }
}

impl<TStorage> Array<TStorage> {
    ghost use Rattle.std.specs.Prelude.{map, IfOk, IsOkUnless};
    ghost use Rattle.zarrs_options.specs.Options.{options_view};
    ghost use Rattle.zarrs_creation.specs.Writing.{put_view};
    ghost use Rattle.zarrs.specs.Arrays.{metadata_of_array, path_of_array};
    ghost use Rattle.zarrs.specs.Puts.{AreShown};

    /// Returns what puts the metadata into the store, as these options show it.
    pub(super) fn shown_puts(
        &self,
        alloc: Global,
        options: &ArrayMetadataOptions,
    ) -> Result<Vec<MetadataPut>, StorageError>
        ensures shown { IfOk result (λ puts. AreShown (options_view options.now)
            (path_of_array self.now) (metadata_of_array self.now) (map put_view puts.items)) }
        ensures accepted { IsOkUnless result StorageError.OutOfMemory }
    {
        // The metadata of an array has a V3 document, so only memory can run out.
        let Ok(metadata) = self.metadata_opt(alloc, options) else {
            return Err(StorageError::OutOfMemory);
        };
        puts_of_metadata(alloc, self.engine.path(), &metadata)
    }
}
