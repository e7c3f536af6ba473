//! The V2 metadata of an array, turned into V3 metadata in its store.
use super::Array;
use std::alloc::Global;
use zarrs_creation::MetadataPut;
use zarrs_keys::{meta_key_v2_array, meta_key_v2_attributes};
use zarrs_metadata::{ArrayMetadata, array_metadata_v2_to_v3};
use zarrs_options::MetadataConvertVersion;
use zarrs_storage::{StorageError, WritableStorageTraits};

impl<TStorage> Array<TStorage> {
    ghost use Rattle.std.specs.Prelude.{◌≡◌, map, IfOk, IsOkUnless};
    ghost use Rattle.zarrs_metadata_v2.specs.Document.{DocumentV2Data};
    ghost use Rattle.zarrs_metadata.specs.Versions.{v2};
    ghost use Rattle.zarrs_creation.specs.Writing.{put_view};
    ghost use Rattle.zarrs.specs.Arrays.{metadata_of_array, metadata_options_of_array};
    ghost use Rattle.zarrs.specs.Arrays.{path_of_array};
    ghost use Rattle.zarrs.specs.Upgrade.{AreUpgrade};

    /// Returns what is put into the store to turn V2 metadata into V3 metadata.
    fn upgrade_puts(&self, alloc: Global) -> Result<Vec<MetadataPut>, StorageError>
        ensures upgrade { (m : DocumentV2Data) → metadata_of_array self.now ≡ v2 m
            → IfOk result (λ puts. AreUpgrade (metadata_options_of_array self.now)
            (path_of_array self.now) m (map put_view puts.items)) }
        ensures accepted { IsOkUnless result StorageError.OutOfMemory }
    {
        let options = self
            .metadata_options
            .with_metadata_convert_version(MetadataConvertVersion::V3);
        let mut puts = self.shown_puts(alloc, &options)?;
        let path = self.engine.path();
        let array = MetadataPut {
            key: meta_key_v2_array(alloc, path)?,
            value: None,
        };
        puts.push(array)?;
        let attributes = MetadataPut {
            key: meta_key_v2_attributes(alloc, path)?,
            value: None,
        };
        puts.push(attributes)?;
        Ok(puts)
    }
}

impl<TStorage: WritableStorageTraits> Array<TStorage> {
    ghost use Rattle.std.specs.Prelude.{OnOk};
    ghost use Rattle.zarrs_engine_calls.specs.Laws.{HaveEqualContent};
    ghost use Rattle.zarrs.specs.Arrays.{metadata_of_array, metadata_options_of_array};
    ghost use Rattle.zarrs.specs.Arrays.{layout_of_array, meaning_of_array, path_of_array};
    ghost use Rattle.zarrs.specs.Arrays.{store_of_array};
    ghost use Rattle.zarrs.specs.Counts.{Writes, upgrade_writes};
    ghost use Rattle.zarrs.specs.MetadataCalls.{UpgradesDocuments};
    ghost use Rattle.zarrs.specs.Upgrade.{StaysOpen};

    /// Turns the metadata of a V2 array into V3 metadata, by three writing calls of the store: the V3 document, as the
    /// array's own metadata options show it, is stored at the key `zarr.json` of the path; then `.zarray` is erased, and
    /// then `.zattrs`. The array has V3 metadata afterwards, as after `to_v3`, and lies in its store as before: no chunk
    /// and no key of a chunk changes. Of a V3 array nothing is done, and the store is not called.
    ///
    /// # Errors
    /// If the store refuses, and `OutOfMemory`; no `InvalidMetadata`. A front of the three calls is done then, and the
    /// array has the metadata that it had. Accepted or refused, an array of the same parts opens at the path afterwards,
    /// if the store had no `zarr.json` and its V2 documents opened to this array, if the V3 document reads again, and if
    /// the store then refuses no key of the metadata.
    pub fn upgrade_metadata(&mut self, alloc: Global) -> Result<(), StorageError>
        ensures upgrades { UpgradesDocuments TStorage.state self.old self.new result }
        ensures count { OnOk result (Writes (upgrade_writes (metadata_of_array self.old))
            (store_of_array TStorage.state self.old) (store_of_array TStorage.state self.new)) }
        ensures opens { StaysOpen (metadata_options_of_array self.old) (path_of_array self.old)
            (metadata_of_array self.old) (meaning_of_array self.old)
            (store_of_array TStorage.state self.old) (store_of_array TStorage.state self.new) }
        ensures content { HaveEqualContent (layout_of_array self.old)
            (store_of_array TStorage.state self.old) (store_of_array TStorage.state self.new) }
    {
        self.upgrade(alloc)
    }

    /// Does what `upgrade_metadata` does.
    fn upgrade(&mut self, alloc: Global) -> Result<(), StorageError>
        ensures { UpgradesDocuments TStorage.state self.old self.new result }
    {
        let ArrayMetadata::V2(document) = &self.metadata else {
            return Ok(());
        };
        let Ok(upgraded) = array_metadata_v2_to_v3(alloc, document) else {
            return Err(StorageError::OutOfMemory);
        };
        let puts = self.upgrade_puts(alloc)?;
        self.put_all(alloc, puts)?;
        self.metadata = ArrayMetadata::V3(upgraded);
        Ok(())
    }
}
