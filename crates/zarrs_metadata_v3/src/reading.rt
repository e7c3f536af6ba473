//! Reading a document from a JSON value, member by member.
ghost use Rattle.std.specs.Prelude.{◌≡◌, map, is_ok, option_map, option_and_then, IfOk};
ghost use Rattle.serde_json.specs.Data.{Members};
ghost use Rattle.serde_json.specs.View.{view, items_view, members_view};
ghost use Rattle.zarrs_metadata_parts.specs.Members.{besides};
ghost use Rattle.zarrs_metadata_parts.specs.Lists.{all_of};
ghost use Rattle.zarrs_metadata_parts.specs.Extension.{extension_of, extension_view};
ghost use Rattle.zarrs_metadata_v3.specs.Members.{list_in};
ghost use Rattle.zarrs_metadata_v3.specs.Document.{dimension_name_of, transformers_in, names_in};
ghost use Rattle.zarrs_metadata_v3.specs.Document.{document_names, is_array, document_in, document_from};
ghost use Rattle.zarrs_metadata_v3.specs.Reading.{AreParts};
ghost use Rattle.zarrs_metadata_v3.specs.Refusals.{Reads};
ghost use Rattle.zarrs_metadata_v3.specs.View.{name_view, document_view};

use crate::document::{ArrayMetadataV3, DimensionName};
use crate::fields::read_fields;
use crate::members::{
    attributes_in, fault, fill_value_in, numbers_in, present, reads_as_number, reads_as_text,
    take_member,
};
use crate::unread::Unread;
use serde_json::{Map, Value};
use std::alloc::{AllocError, Global};
use zarrs_metadata_parts::{MetadataV3, extensions};

/// The members of a document.
#[derive(Drop)]
pub(crate) struct Parts {
    zarr_format: Option<Value>,
    node_type: Option<Value>,
    shape: Option<Value>,
    data_type: Option<Value>,
    chunk_grid: Option<Value>,
    chunk_key_encoding: Option<Value>,
    fill_value: Option<Value>,
    codecs: Option<Value>,
    attributes: Option<Value>,
    storage_transformers: Option<Value>,
    dimension_names: Option<Value>,
}

/// Reads the document that these members are.
///
/// # Errors
/// `Missing` or `Wrong` for the first member that does not read. `OutOfMemory` may come at any time.
pub(crate) fn read_document(
    alloc: Global,
    mut members: Map<String, Value>,
) -> Result<ArrayMetadataV3, Unread>
    ensures { Reads document_view (document_from (members_view members.entries)) result }
{
    let mut parts = Parts::take(&mut members);
    parts.read_array(alloc, members)
}

/// Returns the members under names that a document does not use.
pub(crate) fn other_members(mut members: Map<String, Value>) -> Map<String, Value>
    ensures { members_view result.entries
        ≡ besides document_names (members_view members.entries) }
{
    let _parts = Parts::take(&mut members);
    members
}

impl Parts {
    fn take(members: &mut Map<String, Value>) -> Parts
        ensures taken { AreParts (members_view members.old.entries) result }
        ensures left { members_view members.new.entries
            ≡ besides document_names (members_view members.old.entries) }
    {
        Parts {
            zarr_format: take_member(members, "zarr_format"),
            node_type: take_member(members, "node_type"),
            shape: take_member(members, "shape"),
            data_type: take_member(members, "data_type"),
            chunk_grid: take_member(members, "chunk_grid"),
            chunk_key_encoding: take_member(members, "chunk_key_encoding"),
            fill_value: take_member(members, "fill_value"),
            codecs: take_member(members, "codecs"),
            attributes: take_member(members, "attributes"),
            storage_transformers: take_member(members, "storage_transformers"),
            dimension_names: take_member(members, "dimension_names"),
        }
    }

    /// Tests that the members are those of a V3 array.
    fn check_array(&self) -> Result<(), Unread>
        ensures { (ms : Members) → AreParts ms self.now → is_ok result ≡ is_array ms }
    {
        if !reads_as_number(&self.zarr_format, 3) {
            return Err(fault(&self.zarr_format, "zarr_format", "is not 3"));
        }
        if !reads_as_text(&self.node_type, "array") {
            return Err(fault(&self.node_type, "node_type", "is not `array`"));
        }
        Ok(())
    }

    /// Reads the members, if they are those of a V3 array, and the others as fields.
    fn read_array(
        &mut self,
        alloc: Global,
        others: Map<String, Value>,
    ) -> Result<ArrayMetadataV3, Unread>
        ensures { (ms : Members) → AreParts ms self.old
            → members_view others.entries ≡ besides document_names ms
            → Reads document_view (document_from ms) result }
    {
        self.check_array()?;
        self.read(alloc, others)
    }

    /// Reads the members, and the others as fields.
    fn read(&mut self, alloc: Global, others: Map<String, Value>) -> Result<ArrayMetadataV3, Unread>
        ensures { (ms : Members) → AreParts ms self.old
            → members_view others.entries ≡ besides document_names ms
            → Reads document_view (document_in ms) result }
    {
        Ok(ArrayMetadataV3 {
            shape: numbers_in(alloc, self.shape.take(), "shape")?,
            data_type: extension_in(self.data_type.take(), "data_type")?,
            chunk_grid: extension_in(self.chunk_grid.take(), "chunk_grid")?,
            chunk_key_encoding: extension_in(self.chunk_key_encoding.take(), "chunk_key_encoding")?,
            fill_value: fill_value_in(self.fill_value.take())?,
            codecs: extensions_in(alloc, self.codecs.take(), "codecs")?,
            attributes: attributes_in(alloc, self.attributes.take())?,
            storage_transformers: transformers_in(alloc, self.storage_transformers.take())?,
            dimension_names: names_in(alloc, self.dimension_names.take())?,
            additional_fields: read_fields(alloc, others)?,
        })
    }
}

fn extension_in(member: Option<Value>, name: &'static str) -> Result<MetadataV3, Unread>
    ensures { Reads extension_view (option_and_then extension_of (option_map view member)) result }
{
    let value = present(member, name)?;
    MetadataV3::from_value(value).map_err(|_| Unread::Wrong(name, "is no extension point"))
}

fn extensions_in(
    alloc: Global,
    member: Option<Value>,
    name: &'static str,
) -> Result<Vec<MetadataV3>, Unread>
    ensures { Reads (λ v. map extension_view v.items) (list_in extension_of (option_map view member))
        result }
{
    let value = present(member, name)?;
    extensions(alloc, value)?.ok_or(Unread::Wrong(name, "is no list of extension points"))
}

fn transformers_in(alloc: Global, member: Option<Value>) -> Result<Vec<MetadataV3>, Unread>
    ensures { Reads (λ v. map extension_view v.items) (transformers_in (option_map view member))
        result }
{
    match member {
        None => Ok(Vec::new(alloc)),
        Some(value) => extensions_in(alloc, Some(value), "storage_transformers"),
    }
}

fn dimension_name(value: Value) -> Option<DimensionName>
    ensures { option_map name_view result ≡ dimension_name_of (view value) }
{
    match value {
        Value::Null => Some(None),
        Value::String(name) => Some(Some(name)),
        _ => None,
    }
}

fn all_names(alloc: Global, items: Vec<Value>) -> Result<Option<Vec<DimensionName>>, AllocError>
    ensures { IfOk result (λ o. option_map (λ v. map name_view v.items) o
        ≡ all_of dimension_name_of (items_view items.items)) }
{
    let mut names = Vec::new(alloc);
    for item in items {
        match dimension_name(item) {
            Some(name) => names.push(name)?,
            None => return Ok(None),
        }
    }
    Ok(Some(names))
}

fn names_in(alloc: Global, member: Option<Value>) -> Result<Option<Vec<DimensionName>>, Unread>
    ensures { Reads (option_map (λ v. map name_view v.items)) (names_in (option_map view member))
        result }
{
    let wrong = Unread::Wrong("dimension_names", "is no list of texts and nulls");
    match member {
        None | Some(Value::Null) => Ok(None),
        Some(Value::Array(items)) => Ok(Some(all_names(alloc, items)?.ok_or(wrong)?)),
        Some(_) => Err(wrong),
    }
}
