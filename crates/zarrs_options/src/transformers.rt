//! Storage transformers: none is supported.
ghost use Rattle.std.specs.Prelude.{◌≡◌, map, Some, IfOk, IfErr};
ghost use Rattle.zarrs_metadata_parts.specs.Refusals.{RefusesMeaning};
ghost use Rattle.zarrs_metadata_parts.specs.Extension.{extension_view};
ghost use Rattle.zarrs_options.specs.Options.{transformers_said};

use std::alloc::Global;
use zarrs_metadata_parts::{MetadataV3, PluginCreateError};

/// The empty chain of storage transformers (Zarr V3 core specification, storage transformers).
#[derive(Clone, Copy, Debug, Default, Drop, PartialEq, Eq)]
pub struct StorageTransformerChain;

impl StorageTransformerChain {
    /// Returns the chain of these transformers.
    ///
    /// # Errors
    /// `Other` if there is one. `OutOfMemory` may come at any time.
    pub fn from_metadata(
        alloc: Global,
        transformers: &[MetadataV3],
    ) -> Result<StorageTransformerChain, PluginCreateError>
        ensures read { IfOk result (λ _. transformers_said (map extension_view transformers.now)
            ≡ Some tt) }
        ensures refused { IfErr result (RefusesMeaning
            (transformers_said (map extension_view transformers.now))) }
    {
        match transformers {
            [] => Ok(StorageTransformerChain),
            _ => Err(PluginCreateError::other(alloc, "storage transformers are not supported")),
        }
    }
}
