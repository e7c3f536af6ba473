//! Writing a document as a JSON value, member by member.
ghost use Rattle.std.specs.Prelude.{◌≡◌, map, option_map, IfOk};
ghost use Rattle.serde_json.specs.View.{view};
ghost use Rattle.zarrs_metadata_parts.specs.Extension.{extension_view};
ghost use Rattle.zarrs_metadata_parts.specs.Lists.{list_data};
ghost use Rattle.zarrs_metadata_v3.specs.Document.{dimension_name_data, transformers_data, data_of_document};
ghost use Rattle.zarrs_metadata_v3.specs.View.{name_view, document_view};

use crate::document::{ArrayMetadataV3, DimensionName};
use crate::fields::written_fields;
use crate::members::{object_value, put_member, put_written};
use crate::reading::other_members;
use serde_json::Value;
use std::alloc::{AllocError, Global};
use zarrs_metadata_parts::{MetadataV3, extensions_value, numbers_value};

/// Returns the JSON value of a document.
pub(crate) fn document_value(alloc: Global, document: &ArrayMetadataV3) -> Result<Value, AllocError>
    ensures { IfOk result (λ v. view v ≡ data_of_document (document_view document.now)) }
{
    let fields = written_fields(alloc, &document.additional_fields)?;
    let mut members = other_members(fields);
    put_member(&mut members, alloc, "zarr_format", Some(Value::from(3u64)))?;
    let node_type = Value::try_from_str(alloc, "array");
    put_written(&mut members, alloc, "node_type", node_type)?;
    let shape = numbers_value(alloc, document.shape.as_slice());
    put_written(&mut members, alloc, "shape", shape)?;
    let data_type = document.data_type.to_value(alloc);
    put_written(&mut members, alloc, "data_type", data_type)?;
    let chunk_grid = document.chunk_grid.to_value(alloc);
    put_written(&mut members, alloc, "chunk_grid", chunk_grid)?;
    let key_encoding = document.chunk_key_encoding.to_value(alloc);
    put_written(&mut members, alloc, "chunk_key_encoding", key_encoding)?;
    let fill_value = document.fill_value.to_value(alloc);
    put_written(&mut members, alloc, "fill_value", fill_value)?;
    let codecs = extensions_value(alloc, &document.codecs);
    put_written(&mut members, alloc, "codecs", codecs)?;
    let attributes = object_value(&document.attributes)?;
    put_member(&mut members, alloc, "attributes", attributes)?;
    let transformers = transformers_value(alloc, &document.storage_transformers)?;
    put_member(&mut members, alloc, "storage_transformers", transformers)?;
    let names = names_member(alloc, &document.dimension_names)?;
    put_member(&mut members, alloc, "dimension_names", names)?;
    Ok(Value::Object(members))
}

fn name_value(alloc: Global, name: &DimensionName) -> Result<Value, AllocError>
    ensures { IfOk result (λ v. view v ≡ dimension_name_data (name_view name.now)) }
{
    match name {
        Some(name) => Value::try_from_str(alloc, name.as_str()),
        None => Ok(Value::Null),
    }
}

fn names_value(alloc: Global, names: &Vec<DimensionName>) -> Result<Value, AllocError>
    ensures { IfOk result (λ v. view v
        ≡ list_data dimension_name_data (map name_view names.now.items)) }
{
    let mut values = Vec::new(alloc);
    for name in names {
        values.push(name_value(alloc, name)?)?;
    }
    Ok(Value::Array(values))
}

fn names_member(
    alloc: Global,
    names: &Option<Vec<DimensionName>>,
) -> Result<Option<Value>, AllocError>
    ensures { IfOk result (λ v. option_map view v ≡ option_map (list_data dimension_name_data)
        (option_map (λ n. map name_view n.items) names.now)) }
{
    match names {
        Some(names) => Ok(Some(names_value(alloc, names)?)),
        None => Ok(None),
    }
}

fn transformers_value(
    alloc: Global,
    transformers: &Vec<MetadataV3>,
) -> Result<Option<Value>, AllocError>
    ensures { IfOk result (λ v. option_map view v
        ≡ transformers_data (map extension_view transformers.now.items)) }
{
    if transformers.is_empty() {
        Ok(None)
    } else {
        Ok(Some(extensions_value(alloc, transformers)?))
    }
}
