//! The same array over another store.
ghost use Rattle.std.specs.Prelude.{◌≡◌, IfOk};
ghost use Rattle.zarrs_metadata.specs.Versions.{metadata_view};

use super::Array;
use std::alloc::{AllocError, Global};
use zarrs_creation::ArrayParts;
use zarrs_engine::{ArrayError, Engine};
use zarrs_metadata::ArrayMetadata;
use zarrs_storage::{ReadOnly, ReadableStorageTraits};

/// Returns a copy of the metadata.
fn copied_metadata(alloc: Global, metadata: &ArrayMetadata) -> Result<ArrayMetadata, AllocError>
    ensures { IfOk result (λ copy. metadata_view copy ≡ metadata_view metadata.now) }
{
    match metadata {
        ArrayMetadata::V3(document) => Ok(ArrayMetadata::V3(document.try_clone(alloc)?)),
        ArrayMetadata::V2(document) => Ok(ArrayMetadata::V2(document.try_clone(alloc)?)),
    }
}

impl<TStorage> Array<TStorage> {
    ghost use Rattle.std.specs.Prelude.{◌≡◌, IfOk, IsSome, IsOkUnless};
    ghost use Rattle.zarrs_data_type.specs.Cell.{fill_cell};
    ghost use Rattle.zarrs_data_type.specs.Kind.{kind};
    ghost use Rattle.zarrs_creation.specs.Meanings.{meaning_with};
    ghost use Rattle.zarrs.specs.Arrays.{meaning_of_array, storage_of_array, HasAllButStore};

    /// Returns a copy of the parts beside path and store.
    fn copied_parts(&self, alloc: Global) -> Result<ArrayParts, AllocError>
        ensures parts { IfOk result (λ parts. meaning_with parts.grid parts.keys parts.chain
            parts.data_type parts.fill_value ≡ meaning_of_array self.now) }
        ensures filled { IfOk result
            (λ parts. IsSome (fill_cell (kind parts.data_type) parts.fill_value)) }
    {
        let layout = self.engine.layout();
        let grid = layout.grid.try_clone(alloc)?;
        let keys = layout.keys.clone()?;
        let chain = layout.chain.try_clone(alloc)?;
        let data_type = layout.cell_type.data_type.try_clone(alloc)?;
        let fill_value = layout.cell_type.fill_value.try_clone(alloc)?;
        Ok(ArrayParts {
            grid,
            keys,
            chain,
            data_type,
            fill_value,
        })
    }

    /// Returns the same array over another store: its path, its parts, its metadata and its options. Neither store is
    /// asked.
    ///
    /// # Errors
    /// E9 alone. The store is dropped then.
    pub fn with_storage<TStorage2: Drop>(
        &self,
        alloc: Global,
        storage: TStorage2,
    ) -> Result<Array<TStorage2>, ArrayError>
        ensures copied { IfOk result (HasAllButStore self.now) }
        ensures storage { IfOk result (λ a. storage_of_array a ≡ storage) }
        ensures accepted { IsOkUnless result ArrayError.OutOfMemory }
    {
        let path = self.path().clone()?;
        let metadata = copied_metadata(alloc, &self.metadata)?;
        let parts = self.copied_parts(alloc)?;
        let engine = Engine::new(
            storage,
            path,
            parts.grid,
            parts.keys,
            parts.chain,
            parts.data_type,
            parts.fill_value,
        );
        Ok(Array {
            engine,
            metadata,
            codec_options: self.codec_options,
            codec_specific_options: self.codec_specific_options,
            metadata_options: self.metadata_options,
        })
    }
}

impl<TStorage: ReadableStorageTraits> Array<TStorage> {
    ghost use Rattle.std.specs.Prelude.{◌≡◌, IfOk, IsOkUnless};
    ghost use Rattle.zarrs.specs.Arrays.{store_of_array, HasAllButStore};

    /// Returns the same array over its own store, which is lent to be read.
    ///
    /// # Errors
    /// E9 alone.
    pub fn readable<'a>(
        &'a self,
        alloc: Global,
    ) -> Result<Array<ReadOnly<'a, TStorage>>, ArrayError>
        ensures copied { IfOk result (HasAllButStore self.now) }
        ensures store { IfOk result (λ a.
            store_of_array ⟦<ReadOnly<'a, TStorage> as ReadableStorageTraits>⟧.state a
            ≡ store_of_array TStorage.state self.now) }
        ensures accepted { IsOkUnless result ArrayError.OutOfMemory }
    {
        self.with_storage(alloc, ReadOnly::new(self.storage()))
    }
}
