//! The parts of an array that metadata of either version says.
ghost use Rattle.std.specs.Prelude.{◌≡◌, Ok, IfErr, OnOk};
ghost use Rattle.zarrs_metadata.specs.Conversion.{to_v3};
ghost use Rattle.zarrs_metadata.specs.Refusals.{RefusesConversion};
ghost use Rattle.zarrs_metadata_v2.specs.View.{document_v2_view};
ghost use Rattle.zarrs_metadata.specs.Versions.{metadata_view};
ghost use Rattle.zarrs_options.specs.Refusals.{create_refusal_of, RefusesCreation};
ghost use Rattle.zarrs_creation.specs.Making.{MakesParts};
ghost use Rattle.zarrs_creation.specs.Meanings.{extents_said, creation_v2, creation};

use crate::parts::{ArrayParts, parts_of_v3};
use std::alloc::{AllocError, Global};
use zarrs_metadata::{
    ArrayMetadata, ArrayMetadataV2, ArrayMetadataV2ToV3Error, PluginCreateError,
    array_metadata_v2_to_v3,
};
use zarrs_metadata_v3::reasons::type_reason;
use zarrs_options::ArrayCreateError;

/// Checks that a chunk has as many extents as the array.
fn check_extents(alloc: Global, metadata: &ArrayMetadataV2) -> Result<(), ArrayCreateError>
    ensures said { OnOk result (extents_said (document_v2_view metadata.now) ≡ Ok tt) }
    ensures refused { IfErr result (λ e.
        RefusesCreation (extents_said (document_v2_view metadata.now)) (create_refusal_of e)) }
{
    if metadata.chunks.len() == metadata.shape.len() {
        return Ok(());
    }
    let text = "a chunk has another number of dimensions than the array";
    let text = String::from_str(alloc, text)?;
    Err(ArrayCreateError::ChunkGridCreateError(PluginCreateError::Other(text)))
}

/// Returns why a data type of V2 is not supported, as a text for people.
fn dtype_reason(alloc: Global, dtype: &str) -> Result<String, AllocError> {
    match type_reason(alloc, Some(dtype))? {
        Some(reason) => Ok(reason),
        None => format!(in alloc; "no data type has the Zarr V2 name `{dtype}`"),
    }
}

/// Returns why a V2 document that has no V3 document says no parts of an array.
fn not_converted(
    alloc: Global,
    metadata: &ArrayMetadataV2,
    error: ArrayMetadataV2ToV3Error,
) -> ArrayCreateError
    requires { RefusesConversion (to_v3 (document_v2_view metadata.now)) error }
    ensures { RefusesCreation (creation_v2 (document_v2_view metadata.now))
        (create_refusal_of result) }
{
    match error {
        ArrayMetadataV2ToV3Error::OutOfMemory => ArrayCreateError::OutOfMemory,
        ArrayMetadataV2ToV3Error::UnsupportedDataType(dtype) => {
            match dtype_reason(alloc, dtype.as_str()) {
                Ok(reason) => {
                    ArrayCreateError::DataTypeCreateError(PluginCreateError::Other(reason))
                }
                Err(_) => ArrayCreateError::OutOfMemory,
            }
        }
        ArrayMetadataV2ToV3Error::InvalidFillValueMetadata {
            data_type_name,
            fill_value_metadata,
        } => match check_extents(alloc, metadata) {
            Err(error) => error,
            Ok(()) => ArrayCreateError::InvalidFillValueMetadata {
                data_type_name,
                fill_value_metadata,
            },
        },
        ArrayMetadataV2ToV3Error::UnsupportedZarrV2Array(text) => {
            match check_extents(alloc, metadata) {
                Err(error) => error,
                Ok(()) => ArrayCreateError::UnsupportedZarrV2Array(text),
            }
        }
    }
}

fn parts_of_v2(alloc: Global, metadata: &ArrayMetadataV2) -> Result<ArrayParts, ArrayCreateError>
    ensures { MakesParts (creation_v2 (document_v2_view metadata.now)) result }
{
    match array_metadata_v2_to_v3(alloc, metadata) {
        Ok(document) => { Ok(parts_of_v3(alloc, &document)?) }
        Err(error) => Err(not_converted(alloc, metadata, error)),
    }
}

/// Makes the parts of an array with this metadata.
///
/// # Errors
/// Of a V3 document in this order: E16 for codecs that are no chain; E13 for no data type; E18 for no chunk grid over
/// the shape; E15 for no fill value of the data type; E17 for storage transformers; E19 for no chunk key encoding; E21
/// for more or fewer names than dimensions. Of a V2 document: E13 for a data type without a V3 name; E18 for a chunk of
/// another number of dimensions; E15 for no fill value of the data type; E25 for a compressor, or filters that are not
/// those of the data type. E26 may come at any time.
pub fn parts_said(alloc: Global, metadata: &ArrayMetadata) -> Result<ArrayParts, ArrayCreateError>
    ensures { MakesParts (creation (metadata_view metadata.now)) result }
{
    match metadata {
        ArrayMetadata::V3(document) => parts_of_v3(alloc, document),
        ArrayMetadata::V2(document) => parts_of_v2(alloc, document),
    }
}
