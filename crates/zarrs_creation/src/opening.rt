//! The metadata that a store holds for an array.
ghost use Rattle.std.specs.Prelude.{◌≡◌, None, Ok, IfErr, OnOk, option_map};
ghost use Rattle.zarrs_metadata_v3.specs.View.{document_view, fields_view};
ghost use Rattle.zarrs_metadata_v2.specs.View.{document_v2_view};
ghost use Rattle.zarrs_metadata.specs.Versions.{metadata_view};
ghost use Rattle.zarrs_options.specs.Refusals.{create_refusal_of, unread, RefusesCreation, said_or};
ghost use Rattle.zarrs_options.specs.declared.versions.MetadataRetrieveVersion.TheVariants as retrieve;
ghost use Rattle.zarrs_creation.specs.Opening.{v3_key, attributes_key, value_asked};
ghost use Rattle.zarrs_creation.specs.Opening.{fields_understood, understood_document, document_v2_read, attributed};
ghost use Rattle.zarrs_creation.specs.Opening.{stored_v3, stored_v2, stored_default, stored_by, stored_metadata};
ghost use Rattle.zarrs_creation.specs.Opening.{MayAskKey, MayAskV2, MayAskMetadata};
ghost use Rattle.zarrs_creation.specs.Opening.{IsV2Key, IsMetadataKey, NamesOneOf, ReadsOrRefuses};

use crate::writing::store_refusal;
use std::alloc::{AllocError, Global};
use zarrs_keys::{NodePath, meta_key_v2_array, meta_key_v2_attributes, meta_key_v3};
use zarrs_metadata::{
    AdditionalFieldsV3, ArrayMetadata, ArrayMetadataV2, ArrayMetadataV3, MetadataError,
    attributes_from_slice,
};
use zarrs_metadata_v2::reasons::{attributes_reason, document_reason as document_v2_reason};
use zarrs_metadata_v3::reasons::document_reason;
use zarrs_options::{AdditionalFieldUnsupportedError, ArrayCreateError, MetadataRetrieveVersion};
use zarrs_storage::{Bytes, ReadableStorageTraits, StorageError, StoreKey};

/// Returns the refusal of a value at the key that is not what was wanted, for this reason.
fn invalid_metadata(key: StoreKey, reason: Result<String, AllocError>) -> ArrayCreateError
    ensures refused { RefusesCreation (said_or {A = Unit {0}} (unread key) None)
        (create_refusal_of result) }
    ensures named { NamesOneOf (λ at. at ≡ key) (create_refusal_of result) }
{
    match reason {
        Ok(reason) => ArrayCreateError::StorageError(StorageError::InvalidMetadata(key, reason)),
        Err(_) => ArrayCreateError::OutOfMemory,
    }
}

/// Checks that no field must be understood. No such field is known.
fn check_fields(alloc: Global, fields: &AdditionalFieldsV3) -> Result<(), ArrayCreateError>
    ensures understood { OnOk result (fields_understood (fields_view fields.now.entries) ≡ Ok tt) }
    ensures refused { IfErr result (λ e. RefusesCreation
        (fields_understood (fields_view fields.now.entries)) (create_refusal_of e)) }
{
    for (name, field) in fields.iter() {
        if field.must_understand() {
            let name = name.clone()?;
            let value = field.as_value().clone()?;
            return Err(AdditionalFieldUnsupportedError::new(name, value).into());
        }
    }
    Ok(())
}

/// Reads the V3 document of these bytes, which are present at the key.
fn document_from(
    alloc: Global,
    key: StoreKey,
    bytes: &[u8],
) -> Result<ArrayMetadataV3, ArrayCreateError>
    ensures { ReadsOrRefuses (λ at. at ≡ key) (understood_document key bytes.now) document_view
        result }
{
    let metadata = match ArrayMetadataV3::from_slice(alloc, bytes) {
        Ok(metadata) => metadata,
        Err(MetadataError::InvalidShape) => {
            return Err(invalid_metadata(key, document_reason(alloc, bytes)));
        }
        Err(MetadataError::OutOfMemory) => return Err(ArrayCreateError::OutOfMemory),
    };
    check_fields(alloc, &metadata.additional_fields)?;
    Ok(metadata)
}

/// Reads the V2 document of these bytes, which are present at the key.
fn document_v2_from(
    alloc: Global,
    key: StoreKey,
    bytes: &[u8],
) -> Result<ArrayMetadataV2, ArrayCreateError>
    ensures { ReadsOrRefuses (λ at. at ≡ key) (document_v2_read key bytes.now) document_v2_view
        result }
{
    match ArrayMetadataV2::from_slice(alloc, bytes) {
        Ok(metadata) => Ok(metadata),
        Err(MetadataError::InvalidShape) => {
            Err(invalid_metadata(key, document_v2_reason(alloc, bytes)))
        }
        Err(MetadataError::OutOfMemory) => Err(ArrayCreateError::OutOfMemory),
    }
}

/// Reads the value at the key.
fn value_asked<S: ReadableStorageTraits>(
    alloc: Global,
    storage: &S,
    key: &StoreKey,
) -> Result<Option<Bytes>, ArrayCreateError>
    requires { MayAskKey (S.state storage.now) key.now }
    ensures { ReadsOrRefuses (λ at. at ≡ key.now) (value_asked (S.state storage.now) key.now)
        (λ value. value) result }
{
    match storage.get(alloc, key) {
        Ok(value) => Ok(value),
        Err(error) => Err(store_refusal(error).into()),
    }
}

/// Reads the V3 document of the array at the path, `None` if it is absent.
fn stored_v3<S: ReadableStorageTraits>(
    alloc: Global,
    storage: &S,
    path: &NodePath,
) -> Result<Option<ArrayMetadata>, ArrayCreateError>
    requires { MayAskKey (S.state storage.now) (v3_key path.now) }
    ensures { ReadsOrRefuses (λ at. at ≡ v3_key path.now) (stored_v3 (S.state storage.now) path.now)
        (option_map metadata_view) result }
{
    let key = meta_key_v3(alloc, path)?;
    let value = value_asked(alloc, storage, &key)?;
    match value {
        None => Ok(None),
        Some(bytes) => {
            let metadata = document_from(alloc, key, &bytes)?;
            Ok(Some(ArrayMetadata::V3(metadata)))
        }
    }
}

/// Returns the V2 document with the attributes that the store holds for the array, if they are present.
fn attributed<S: ReadableStorageTraits>(
    alloc: Global,
    storage: &S,
    path: &NodePath,
    metadata: ArrayMetadataV2,
) -> Result<ArrayMetadataV2, ArrayCreateError>
    requires { MayAskKey (S.state storage.now) (attributes_key path.now) }
    ensures { ReadsOrRefuses (λ at. at ≡ attributes_key path.now)
        (attributed (S.state storage.now) path.now (document_v2_view metadata)) document_v2_view
        result }
{
    let key = meta_key_v2_attributes(alloc, path)?;
    let value = value_asked(alloc, storage, &key)?;
    let bytes = match value {
        Some(bytes) => bytes,
        None => return Ok(metadata),
    };
    match attributes_from_slice(alloc, &bytes) {
        Ok(attributes) => Ok(metadata.with_attributes(attributes)),
        Err(MetadataError::InvalidShape) => {
            Err(invalid_metadata(key, attributes_reason(alloc, &bytes)))
        }
        Err(MetadataError::OutOfMemory) => Err(ArrayCreateError::OutOfMemory),
    }
}

/// Reads the V2 document of the array at the path, with its attributes, `None` if it is absent.
fn stored_v2<S: ReadableStorageTraits>(
    alloc: Global,
    storage: &S,
    path: &NodePath,
) -> Result<Option<ArrayMetadata>, ArrayCreateError>
    requires { MayAskV2 (S.state storage.now) path.now }
    ensures { ReadsOrRefuses (IsV2Key path.now) (stored_v2 (S.state storage.now) path.now)
        (option_map metadata_view) result }
{
    let key = meta_key_v2_array(alloc, path)?;
    let value = value_asked(alloc, storage, &key)?;
    match value {
        None => Ok(None),
        Some(bytes) => {
            let array = document_v2_from(alloc, key, &bytes)?;
            let metadata = attributed(alloc, storage, path, array)?;
            Ok(Some(ArrayMetadata::V2(metadata)))
        }
    }
}

/// Reads the V3 metadata of the array at the path, or its V2 metadata if that is absent, `None` if both are.
fn stored_default<S: ReadableStorageTraits>(
    alloc: Global,
    storage: &S,
    path: &NodePath,
) -> Result<Option<ArrayMetadata>, ArrayCreateError>
    requires v3 { MayAskKey (S.state storage.now) (v3_key path.now) }
    requires v2 { MayAskV2 (S.state storage.now) path.now }
    ensures { ReadsOrRefuses (IsMetadataKey retrieve.Default path.now)
        (stored_default (S.state storage.now) path.now) (option_map metadata_view) result }
{
    let found = stored_v3(alloc, storage, path)?;
    match found {
        Some(metadata) => Ok(Some(metadata)),
        None => stored_v2(alloc, storage, path),
    }
}

/// Reads the metadata of the array at the path that is of this version, `None` if it is absent.
fn stored_by<S: ReadableStorageTraits>(
    alloc: Global,
    storage: &S,
    path: &NodePath,
    version: MetadataRetrieveVersion,
) -> Result<Option<ArrayMetadata>, ArrayCreateError>
    requires { MayAskMetadata version (S.state storage.now) path.now }
    ensures { ReadsOrRefuses (IsMetadataKey version path.now)
        (stored_by version (S.state storage.now) path.now) (option_map metadata_view) result }
{
    match version {
        MetadataRetrieveVersion::Default => stored_default(alloc, storage, path),
        MetadataRetrieveVersion::V3 => stored_v3(alloc, storage, path),
        MetadataRetrieveVersion::V2 => stored_v2(alloc, storage, path),
    }
}

/// Reads the metadata of the array at the path: by default V3, and V2 if that is absent. The attributes at `.zattrs`
/// are those of a V2 array, if they are present.
///
/// # Errors
/// E23 if the store refuses a key that is asked, and, as an `InvalidMetadata` of this key, for a value there that is no
/// such document; E24 if the metadata is absent; E12 for an additional field of a V3 document that must be understood.
/// E26 may come at any time.
pub fn stored_metadata<S: ReadableStorageTraits>(
    alloc: Global,
    storage: &S,
    path: &NodePath,
    version: MetadataRetrieveVersion,
) -> Result<ArrayMetadata, ArrayCreateError>
    requires { MayAskMetadata version (S.state storage.now) path.now }
    ensures { ReadsOrRefuses (IsMetadataKey version path.now)
        (stored_metadata version (S.state storage.now) path.now) metadata_view result }
{
    let found = stored_by(alloc, storage, path, version)?;
    match found {
        Some(metadata) => Ok(metadata),
        None => Err(ArrayCreateError::MissingMetadata),
    }
}
