//! V2 metadata over a new store that becomes V3 metadata.
ghost use Rattle.std.specs.Prelude.{IfOk};
ghost use Rattle.zarrs_storage.specs.Memory.{open_state};
ghost use Rattle.zarrs_metadata_v2.specs.View.{document_v2_view};
ghost use Rattle.zarrs_metadata_v3.specs.Document.{DocumentData};
ghost use Rattle.zarrs_metadata.specs.Versions.{v2};
ghost use Rattle.zarrs_options.specs.Options.{default_options};
ghost use Rattle.zarrs_creation.specs.Shown.{shown_v2};
ghost use Rattle.zarrs.specs.Arrays.{meaning_of_array, path_of_array, store_of_array};
ghost use Rattle.zarrs.specs.Laws.{IsReadAgainV2, IsReadAgainV3};
ghost use Rattle.zarrs.specs.Upgrade.{IsUpgradeOf, OpensAs};

use anyhow::Result;
use std::alloc::Global;
use zarrs::laws::{an_array_is_its_metadata, shown_metadata_says_the_same, written_metadata_opens};
use zarrs::{Array, ArrayMetadata, ArrayMetadataV2, MemoryStore};

/// A V2 array over a new store, whose metadata is stored and then turned into V3 metadata. An array of the same parts opens
/// at its path, if what is written for its documents reads again.
pub fn stored_and_upgraded(
    alloc: Global,
    path: &str,
    document: ArrayMetadataV2,
) -> Result<Array<MemoryStore>>
    ensures { IsReadAgainV2 (shown_v2 default_options (document_v2_view document))
        → ((n : DocumentData) → IsUpgradeOf default_options (v2 (document_v2_view document)) n
        → IsReadAgainV3 n)
        → IfOk result (λ array. OpensAs (store_of_array open_state array) (path_of_array array)
        (meaning_of_array array)) }
{
    let metadata = ArrayMetadata::V2(document);
    let mut array = Array::new_with_metadata(alloc, MemoryStore::new(alloc), path, metadata)?;
    an_array_is_its_metadata(&array);
    written_metadata_opens();
    shown_metadata_says_the_same();
    let _text = array.path().as_str();
    array.store_metadata(alloc)?;
    array.upgrade_metadata(alloc)?;
    Ok(array)
}
