//! A V2 document as a V3 document.
ghost use Rattle.std.specs.Prelude.{◌≡◌, ◌∷◌, [], map, length, codes, Ok, IfOk, IfErr};
ghost use Rattle.serde_json.specs.Data.{array};
ghost use Rattle.serde_json.specs.Find.{get_member};
ghost use Rattle.serde_json.specs.View.{view, items_view, members_view};
ghost use Rattle.zarrs_metadata_v3.specs.Members.{reads_as_text};
ghost use Rattle.zarrs_metadata_parts.specs.Extension.{extension_view};
ghost use Rattle.zarrs_metadata_parts.specs.FillValue.{fill_data};
ghost use Rattle.zarrs_metadata_v3.specs.View.{document_view};
ghost use Rattle.zarrs_metadata.specs.Conversion.{is_vlen_utf8, has_filters_of, is_uncompressed, endian_name_v2};
ghost use Rattle.zarrs_metadata.specs.Conversion.{bytes_codec, cells_codec, count_down};
ghost use Rattle.zarrs_metadata.specs.Conversion.{order_codecs, converted, to_v3};
ghost use Rattle.zarrs_metadata.specs.Refusals.{RefusesConversion};
ghost use Rattle.zarrs_metadata_v2.specs.View.{document_v2_view};

use crate::error::ArrayMetadataV2ToV3Error;
use serde_json::{Map, Value};
use std::alloc::{AllocError, Global};
use zarrs_metadata_parts::members::have_only;
use zarrs_metadata_parts::{
    EndianV2, FillValueMetadata, KindV2, MetadataV3, TypeV2, numbers_value, sizes_value,
};
use zarrs_metadata_v2::{ArrayMetadataV2, ArrayMetadataV2Order};
use zarrs_metadata_v3::ArrayMetadataV3;
use zarrs_metadata_v3::members::{copied, member_of};

/// Returns why the compressor or the filters have no V3 codec, as a text for people: it names the one that is not
/// supported.
fn coding_reason(alloc: Global, metadata: &ArrayMetadataV2) -> Result<String, AllocError> {
    if !metadata.compressor.is_null() {
        return match coding_id(&metadata.compressor) {
            Some(id) => format!(in alloc; "the compressor `{id}` is not supported"),
            None => String::from_str(alloc, "`compressor` is not null"),
        };
    }
    if let Some(filters) = metadata.filters.as_array() {
        for filter in filters {
            if let Some(id) = coding_id(filter).filter(|id| *id != "vlen-utf8") {
                return format!(in alloc; "the filter `{id}` is not supported");
            }
        }
    }
    let dtype = metadata.dtype.as_str();
    format!(in alloc; "`filters` are not those of the data type `{dtype}`")
}

/// Returns the name of a compressor or a filter, if it has one.
fn coding_id(coding: &Value) -> Option<&str> {
    coding.get("id")?.as_str()
}

/// Returns the V3 document of a V2 document: the same array under the same chunk keys and bytes.
///
/// # Errors
/// In this order: `UnsupportedDataType`, `InvalidFillValueMetadata`, and `UnsupportedZarrV2Array`
/// for a compressor, and for filters that are not those of the data type. `OutOfMemory` may come at
/// any time.
pub fn array_metadata_v2_to_v3(
    alloc: Global,
    metadata: &ArrayMetadataV2,
) -> Result<ArrayMetadataV3, ArrayMetadataV2ToV3Error>
    ensures converted { IfOk result (λ m. to_v3 (document_v2_view metadata.now)
        ≡ Ok (document_view m)) }
    ensures refused { IfErr result (RefusesConversion (to_v3 (document_v2_view metadata.now))) }
{
    let Some(cells) = TypeV2::from_text(metadata.dtype.as_str()) else {
        let dtype = String::from_str(alloc, metadata.dtype.as_str())?;
        return Err(ArrayMetadataV2ToV3Error::UnsupportedDataType(dtype));
    };
    let Some(fill_value) = cells.kind.fill_value(alloc, &metadata.fill_value)? else {
        return Err(ArrayMetadataV2ToV3Error::InvalidFillValueMetadata {
            data_type_name: String::from_str(alloc, metadata.dtype.as_str())?,
            fill_value_metadata: metadata.fill_value.try_clone(alloc)?,
        });
    };
    if !is_uncompressed(cells.kind, metadata) {
        let text = coding_reason(alloc, metadata)?;
        return Err(ArrayMetadataV2ToV3Error::UnsupportedZarrV2Array(text));
    }
    let document = converted(alloc, metadata, cells, fill_value)?;
    Ok(document)
}

fn converted(
    alloc: Global,
    metadata: &ArrayMetadataV2,
    cells: TypeV2,
    fill_value: FillValueMetadata,
) -> Result<ArrayMetadataV3, AllocError>
    ensures { IfOk result (λ m. document_view m
        ≡ converted (document_v2_view metadata.now) cells (fill_data fill_value)) }
{
    let shape = metadata.shape.as_slice().to_vec(alloc)?;
    let chunks = sizes_value(alloc, &metadata.chunks)?;
    let chunk_grid = MetadataV3::with_one_member(alloc, "regular", "chunk_shape", chunks)?;
    let separator = metadata.dimension_separator.to_value(alloc)?;
    let chunk_key_encoding = MetadataV3::with_one_member(alloc, "v2", "separator", separator)?;
    let data_type = MetadataV3::new(String::from_str(alloc, cells.kind.name())?);
    let codecs = codecs_of(alloc, metadata, cells)?;
    let attributes = copied(&metadata.attributes)?;
    Ok(ArrayMetadataV3 {
        shape,
        data_type,
        chunk_grid,
        chunk_key_encoding,
        fill_value,
        codecs,
        attributes,
        storage_transformers: Vec::new(alloc),
        dimension_names: None,
        additional_fields: Map::new(alloc),
    })
}

/// Returns the codecs in the order in which they encode.
fn codecs_of(
    alloc: Global,
    metadata: &ArrayMetadataV2,
    cells: TypeV2,
) -> Result<Vec<MetadataV3>, AllocError>
    ensures { IfOk result (λ codecs. map extension_view codecs.items
        ≡ order_codecs metadata.now.order (length metadata.now.shape.items)
        (cells_codec cells ∷ [])) }
{
    let mut codecs = Vec::new(alloc);
    let shape = metadata.shape.as_slice();
    if let ArrayMetadataV2Order::F = metadata.order {
        let order = count_down(alloc, shape.len() as u64)?;
        let order = numbers_value(alloc, order.as_slice())?;
        codecs.push(MetadataV3::with_one_member(alloc, "transpose", "order", order)?)?;
    }
    codecs.push(cells_codec(alloc, cells)?)?;
    Ok(codecs)
}

/// Returns the numbers below this one, the greatest first.
fn count_down(alloc: Global, count: u64) -> Result<Vec<u64>, AllocError>
    ensures { IfOk result (λ numbers. numbers.items ≡ count_down count) }
{
    let mut numbers = Vec::new(alloc);
    let mut left = count;
    while left > 0 {
        left -= 1;
        numbers.push(left)?;
    }
    Ok(numbers)
}

/// Returns the codec that makes bytes of the cells.
fn cells_codec(alloc: Global, cells: TypeV2) -> Result<MetadataV3, AllocError>
    ensures { IfOk result (λ m. extension_view m ≡ cells_codec cells) }
{
    if cells.kind.is_text() {
        Ok(MetadataV3::new(String::from_str(alloc, "vlen-utf8")?))
    } else {
        bytes_codec(alloc, cells.endian)
    }
}

fn bytes_codec(alloc: Global, endian: Option<EndianV2>) -> Result<MetadataV3, AllocError>
    ensures { IfOk result (λ m. extension_view m ≡ bytes_codec endian) }
{
    match endian {
        None => Ok(MetadataV3::new(String::from_str(alloc, "bytes")?)),
        Some(endian) => {
            let endian = Value::try_from_str(alloc, endian_name_v2(endian))?;
            MetadataV3::with_one_member(alloc, "bytes", "endian", endian)
        }
    }
}

fn endian_name_v2(endian: EndianV2) -> &'static str
    ensures { result.now ≡ endian_name_v2 endian }
{
    match endian {
        EndianV2::Little => "little",
        EndianV2::Big => "big",
    }
}

/// Returns whether there is no compressor, and no filter but the one that the kind needs.
fn is_uncompressed(kind: KindV2, metadata: &ArrayMetadataV2) -> bool
    ensures { result ≡ is_uncompressed kind (document_v2_view metadata.now) }
{
    metadata.compressor.is_null() && has_filters_of(kind, &metadata.filters)
}

fn has_filters_of(kind: KindV2, filters: &Value) -> bool
    ensures { result ≡ has_filters_of kind (view filters.now) }
{
    match filters {
        Value::Null => !kind.is_text(),
        Value::Array(items) => are_filters_of(kind, items.as_slice()),
        _ => false,
    }
}

fn are_filters_of(kind: KindV2, items: &[Value]) -> bool
    ensures { result ≡ has_filters_of kind (array (items_view items.now)) }
{
    match items {
        [] => !kind.is_text(),
        [item] => kind.is_text() && is_vlen_utf8(item),
        _ => false,
    }
}

/// Returns whether the filter is `{"id": "vlen-utf8"}`.
fn is_vlen_utf8(filter: &Value) -> bool
    ensures { result ≡ is_vlen_utf8 (view filter.now) }
{
    match filter.as_object() {
        Some(members) => has_text_id(members) && have_only(members, &["id"]),
        None => false,
    }
}

fn has_text_id(members: &Map<String, Value>) -> bool
    ensures { result ≡ reads_as_text (codes "vlen-utf8")
        (get_member (codes "id") (members_view members.now.entries)) }
{
    member_of(members, "id").and_then(Value::as_str) == Some("vlen-utf8")
}
