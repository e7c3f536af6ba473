//! Writing a V2 document as a JSON value, member by member.
ghost use Rattle.std.specs.Prelude.{◌≡◌, option_map, IfOk, Some};
ghost use Rattle.serde_json.specs.View.{view};
ghost use Rattle.zarrs_metadata_v2.specs.Document.{document_v2_of, without_attributes, data_v2_with, data_of_v2};
ghost use Rattle.zarrs_metadata_v2.specs.View.{document_v2_view};

use crate::document::ArrayMetadataV2;
use serde_json::{Map, Value};
use std::alloc::{AllocError, Global};
use zarrs_metadata_parts::{numbers_value, sizes_value};
use zarrs_metadata_v3::members::{object_value, put_member, put_written};

/// Returns the JSON value of a document.
pub(crate) fn document_value(alloc: Global, document: &ArrayMetadataV2) -> Result<Value, AllocError>
    ensures written { IfOk result (λ v. view v ≡ data_of_v2 (document_v2_view document.now)) }
    ensures reads_back { IfOk result (λ v. document_v2_of (view v)
        ≡ Some (document_v2_view document.now)) }
{
    let attributes = object_value(&document.attributes)?;
    value_with(alloc, document, attributes)
}

/// Returns the JSON value of a document without its attributes.
pub(crate) fn array_value(alloc: Global, document: &ArrayMetadataV2) -> Result<Value, AllocError>
    ensures written { IfOk result (λ v. view v
        ≡ data_of_v2 (without_attributes (document_v2_view document.now))) }
    ensures reads_back { IfOk result (λ v. document_v2_of (view v)
        ≡ Some (without_attributes (document_v2_view document.now))) }
{
    value_with(alloc, document, None)
}

/// Returns the JSON value of a document with these attributes.
fn value_with(
    alloc: Global,
    document: &ArrayMetadataV2,
    attributes: Option<Value>,
) -> Result<Value, AllocError>
    ensures { IfOk result (λ v. view v
        ≡ data_v2_with (option_map view attributes) (document_v2_view document.now)) }
{
    let mut members = Map::new(alloc);
    put_member(&mut members, alloc, "zarr_format", Some(Value::from(2u64)))?;
    put_written(
        &mut members,
        alloc,
        "shape",
        numbers_value(alloc, document.shape.as_slice()),
    )?;
    put_written(
        &mut members,
        alloc,
        "chunks",
        sizes_value(alloc, document.chunks.as_slice()),
    )?;
    put_written(&mut members, alloc, "dtype", document.dtype.to_value(alloc))?;
    put_written(
        &mut members,
        alloc,
        "compressor",
        document.compressor.clone(),
    )?;
    put_written(
        &mut members,
        alloc,
        "fill_value",
        document.fill_value.to_value(alloc),
    )?;
    put_written(&mut members, alloc, "order", document.order.to_value(alloc))?;
    put_written(&mut members, alloc, "filters", document.filters.clone())?;
    let separator = document.dimension_separator.to_value(alloc);
    put_written(&mut members, alloc, "dimension_separator", separator)?;
    put_member(&mut members, alloc, "attributes", attributes)?;
    Ok(Value::Object(members))
}
