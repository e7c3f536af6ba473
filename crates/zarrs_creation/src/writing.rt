//! What is put into a store to write metadata there, and to erase it.
ghost use Rattle.std.specs.Prelude.{◌≡◌, [], ◌∷◌, map, None, IfOk, IsOkUnless};
ghost use Rattle.serde_json.specs.View.{members_view};
ghost use Rattle.zarrs_metadata_v3.specs.View.{document_view};
ghost use Rattle.zarrs_metadata_v2.specs.View.{document_v2_view};
ghost use Rattle.zarrs_metadata.specs.Versions.{metadata_view};
ghost use Rattle.zarrs_engine_calls.specs.Refusals.{refusal_of_storage};
ghost use Rattle.zarrs_creation.specs.Opening.{v3_key, v2_array_key, attributes_key};
ghost use Rattle.zarrs_creation.specs.Writing.{put_at, put_view, erasures, IsTextOfAttributes};
ghost use Rattle.zarrs_creation.specs.Writing.{IsWrittenV3, IsWrittenV2, IsWrittenBy};
ghost use Rattle.zarrs_creation.specs.Writing.{NamesNoDocument, without_document};

use std::alloc::Global;
use zarrs_keys::{NodePath, meta_key_v2_array, meta_key_v2_attributes, meta_key_v3};
use zarrs_metadata::{ArrayMetadata, ArrayMetadataV2, ArrayMetadataV3};
use zarrs_metadata_v3::members::is_empty;
use zarrs_options::MetadataEraseVersion;
use zarrs_storage::{Bytes, StorageError, StoreKey};

/// A key of metadata, and the value that is put there.
#[derive(Debug, Drop)]
pub struct MetadataPut {
    /// The key.
    pub key: StoreKey,
    /// The value, or `None` if the key is erased. It is made before the first call of the store, so that memory is not
    /// short between two calls.
    pub value: Option<Bytes>,
}

impl MetadataPut {
    fn new(key: StoreKey, value: Option<Bytes>) -> MetadataPut
        ensures { put_view result ≡ put_at key value }
    {
        MetadataPut { key, value }
    }
}

fn puts_of_v3(
    alloc: Global,
    path: &NodePath,
    metadata: &ArrayMetadataV3,
) -> Result<Vec<MetadataPut>, StorageError>
    ensures written { IfOk result (λ puts. IsWrittenV3 path.now (document_view metadata.now)
        (map put_view puts.items)) }
    ensures accepted { IsOkUnless result StorageError.OutOfMemory }
{
    let key = meta_key_v3(alloc, path)?;
    let text = Bytes::from_vec(metadata.to_vec_pretty(alloc)?)?;
    Ok(vec![in alloc; MetadataPut::new(key, Some(text))]?)
}

fn text_of_attributes(
    alloc: Global,
    metadata: &ArrayMetadataV2,
) -> Result<Option<Bytes>, StorageError>
    ensures written { IfOk result
        (IsTextOfAttributes (members_view metadata.now.attributes.entries)) }
    ensures accepted { IsOkUnless result StorageError.OutOfMemory }
{
    if is_empty(&metadata.attributes) {
        return Ok(None);
    }
    let text = Bytes::from_vec(metadata.attributes_to_vec_pretty(alloc)?)?;
    Ok(Some(text))
}

fn puts_of_v2(
    alloc: Global,
    path: &NodePath,
    metadata: &ArrayMetadataV2,
) -> Result<Vec<MetadataPut>, StorageError>
    ensures written { IfOk result (λ puts. IsWrittenV2 path.now (document_v2_view metadata.now)
        (map put_view puts.items)) }
    ensures accepted { IsOkUnless result StorageError.OutOfMemory }
{
    let attributes = MetadataPut {
        key: meta_key_v2_attributes(alloc, path)?,
        value: text_of_attributes(alloc, metadata)?,
    };
    let array = MetadataPut {
        key: meta_key_v2_array(alloc, path)?,
        value: Some(Bytes::from_vec(metadata.to_vec_pretty(alloc)?)?),
    };
    Ok(vec![in alloc; attributes, array]?)
}

/// Returns what is put into a store to write the metadata of an array at the path: of V3 its document at `zarr.json`; of
/// V2 first its attributes at `.zattrs`, which is erased if there is none, then the rest at `.zarray`.
///
/// # Errors
/// `OutOfMemory` alone.
pub fn puts_of_metadata(
    alloc: Global,
    path: &NodePath,
    metadata: &ArrayMetadata,
) -> Result<Vec<MetadataPut>, StorageError>
    ensures written { IfOk result (λ puts. IsWrittenBy path.now (metadata_view metadata.now)
        (map put_view puts.items)) }
    ensures accepted { IsOkUnless result StorageError.OutOfMemory }
{
    match metadata {
        ArrayMetadata::V3(document) => puts_of_v3(alloc, path, document),
        ArrayMetadata::V2(document) => puts_of_v2(alloc, path, document),
    }
}

fn erase_v3(alloc: Global, path: &NodePath) -> Result<Vec<MetadataPut>, StorageError>
    ensures written { IfOk result (λ puts. map put_view puts.items
        ≡ put_at (v3_key path.now) None ∷ []) }
    ensures accepted { IsOkUnless result StorageError.OutOfMemory }
{
    let key = meta_key_v3(alloc, path)?;
    Ok(vec![in alloc; MetadataPut::new(key, None)]?)
}

fn erase_v2(alloc: Global, path: &NodePath) -> Result<Vec<MetadataPut>, StorageError>
    ensures written { IfOk result (λ puts. map put_view puts.items
        ≡ put_at (v2_array_key path.now) None ∷ put_at (attributes_key path.now) None ∷ []) }
    ensures accepted { IsOkUnless result StorageError.OutOfMemory }
{
    let array = meta_key_v2_array(alloc, path)?;
    let attributes = meta_key_v2_attributes(alloc, path)?;
    Ok(vec![in alloc;
        MetadataPut::new(array, None),
        MetadataPut::new(attributes, None),
    ]?)
}

fn erase_all(alloc: Global, path: &NodePath) -> Result<Vec<MetadataPut>, StorageError>
    ensures written { IfOk result (λ puts. map put_view puts.items
        ≡ put_at (v3_key path.now) None ∷ put_at (v2_array_key path.now) None
        ∷ put_at (attributes_key path.now) None ∷ []) }
    ensures accepted { IsOkUnless result StorageError.OutOfMemory }
{
    let mut puts = erase_v3(alloc, path)?;
    let array = meta_key_v2_array(alloc, path)?;
    let attributes = meta_key_v2_attributes(alloc, path)?;
    puts.push(MetadataPut::new(array, None))?;
    puts.push(MetadataPut::new(attributes, None))?;
    Ok(puts)
}

/// Returns what is put into a store to erase the metadata of an array at the path: that of its own version by default,
/// `zarr.json` for V3, `.zarray` and `.zattrs` for V2, or all of them in this order.
///
/// # Errors
/// `OutOfMemory` alone.
pub fn erasures_of_metadata(
    alloc: Global,
    path: &NodePath,
    metadata: &ArrayMetadata,
    version: MetadataEraseVersion,
) -> Result<Vec<MetadataPut>, StorageError>
    ensures erased { IfOk result (λ puts. map put_view puts.items
        ≡ erasures version path.now (metadata_view metadata.now)) }
    ensures accepted { IsOkUnless result StorageError.OutOfMemory }
{
    match version {
        MetadataEraseVersion::Default => match metadata {
            ArrayMetadata::V3(_) => erase_v3(alloc, path),
            ArrayMetadata::V2(_) => erase_v2(alloc, path),
        },
        MetadataEraseVersion::All => erase_all(alloc, path),
        MetadataEraseVersion::V3 => erase_v3(alloc, path),
        MetadataEraseVersion::V2 => erase_v2(alloc, path),
    }
}

/// Returns the refusal of a call of a store on metadata, by what the store answered. A store reads no document, so none
/// is named: of an `InvalidMetadata` the reason is kept, as `Other`.
pub fn store_refusal(error: StorageError) -> StorageError
    ensures is { result ≡ without_document error }
    ensures named { NamesNoDocument result }
    ensures refusal { refusal_of_storage result ≡ refusal_of_storage error }
    ensures kept { NamesNoDocument error → result ≡ error }
{
    match error {
        StorageError::InvalidMetadata(_, reason) => StorageError::Other(reason),
        error => error,
    }
}
