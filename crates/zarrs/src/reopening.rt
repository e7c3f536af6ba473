//! An array that is stored and opened again.
ghost use Rattle.std.specs.Prelude.{◌≡◌, Ok, IfOk, IfErr};
ghost use Rattle.zarrs_metadata.specs.Versions.{MetadataData, metadata_view};
ghost use Rattle.zarrs_creation.specs.Opening.{MayAskEachMetadata};
ghost use Rattle.zarrs_creation.specs.Shown.{shown};
ghost use Rattle.zarrs_options.specs.Refusals.{create_refusal_of, out_of_memory};
ghost use Rattle.zarrs.specs.Laws.{version_of};
ghost use Rattle.zarrs.specs.Arrays.{metadata_of_array, metadata_options_of_array};
ghost use Rattle.zarrs.specs.Arrays.{path_of_array, store_of_array};
ghost use Rattle.zarrs.specs.Puts.{StoresMetadata};
ghost use Rattle.zarrs.specs.Reopening.{RefusesToStore, ReopensArray};

use crate::array::Array;
use std::alloc::Global;
use zarrs_keys::NodePath;
use zarrs_metadata::ArrayMetadata;
use zarrs_options::{ArrayCreateError, MetadataRetrieveVersion};
use zarrs_storage::WritableStorageTraits;

/// Returns the version of the metadata.
fn version_of(metadata: &ArrayMetadata) -> MetadataRetrieveVersion
    ensures { result ≡ version_of (metadata_view metadata.now) }
{
    match metadata {
        ArrayMetadata::V3(_) => MetadataRetrieveVersion::V3,
        ArrayMetadata::V2(_) => MetadataRetrieveVersion::V2,
    }
}

/// Returns where the array lies, and the version of the metadata that its own options show.
fn path_and_version<S>(
    alloc: Global,
    array: &Array<S>,
) -> Result<(NodePath, MetadataRetrieveVersion), ArrayCreateError>
    ensures path { IfOk result (λ found. found.0 ≡ path_of_array array.now) }
    ensures version { (m : MetadataData)
        → shown (metadata_options_of_array array.now) (metadata_of_array array.now) ≡ Ok m
        → IfOk result (λ found. found.1 ≡ version_of m) }
    ensures refused { IfErr result (λ e. create_refusal_of e ≡ out_of_memory) }
{
    let path = array.path().clone()?;
    match array.metadata_opt(alloc, array.metadata_options()) {
        Ok(shown) => Ok((path, version_of(&shown))),
        Err(_) => Err(ArrayCreateError::OutOfMemory),
    }
}

/// Stores the metadata of the array, and returns the store.
fn stored<S: WritableStorageTraits + Drop>(
    alloc: Global,
    array: Array<S>,
) -> Result<S, ArrayCreateError>
    ensures stored { IfOk result (λ storage. StoresMetadata (metadata_options_of_array array)
        (path_of_array array) (metadata_of_array array) (store_of_array S.state array)
        (S.state storage)) }
    ensures refused { IfErr result (λ e. RefusesToStore S.state
        (metadata_options_of_array array) (path_of_array array) (metadata_of_array array)
        (create_refusal_of e) (store_of_array S.state array)) }
{
    let mut array = array;
    array.store_metadata(alloc)?;
    Ok(array.into_storage())
}

/// Stores the metadata of the array, takes the store out and opens the array there again, by the version that was
/// written: what opens is what the store then holds. If what is written for the metadata reads as it, the array that
/// opens has the metadata that was shown up to its normal form, and lies in its store in the same way. It has the
/// default options.
///
/// # Errors
/// E23 if the store refuses, and E26; for metadata that is not read again also E23 and E12. The store is dropped then.
pub fn written_and_opened<S: WritableStorageTraits + Drop>(
    alloc: Global,
    array: Array<S>,
) -> Result<Array<S>, ArrayCreateError>
    requires { MayAskEachMetadata (store_of_array S.state array) (path_of_array array) }
    ensures { ReopensArray S.state array result }
{
    let (path, version) = path_and_version(alloc, &array)?;
    let storage = stored(alloc, array)?;
    let opened = Array::open_opt(alloc, storage, path.as_str(), &version)?;
    Ok(opened)
}
