//! What the array layer sees of a foreign document: one that it reads, and whose cells are the same bytes.
ghost use Rattle.std.specs.Prelude.{◌≡◌, ◌&&◌, not, is_none, true, IfOk, IsSomeAnd};

use crate::bare::{Document, read_document};
use crate::error::CellsError;
use crate::floats::value_bits;
use crate::form::Width;
use serde_json::{Map, Number, Value};
use std::alloc::Global;
use zarrs_metadata::holds_float;

/// How what is seen differs from what is stored.
#[derive(Clone, Copy, Debug)]
pub struct Lens {
    /// The cells are floats, of which the bits are seen.
    pub floats: Option<Width>,
    /// A document would not be written back as it is: attributes, or the name of the data type, are not seen as they are, a
    /// V2 document has a member that the layer does not keep, or a bare `NaN` or `Infinity` stands in it.
    pub is_partial: bool,
    /// The fill value is null: cells that were not stored may be any.
    pub has_no_fill: bool,
}

/// The lens that shows each document as it is.
pub const CLEAR: Lens = Lens {
    floats: None,
    is_partial: false,
    has_no_fill: false,
};

impl Lens {
    /// Returns whether a document is seen as it is, so that it may be written back.
    pub fn is_clear(&self) -> bool
        ensures { result ≡ (is_none self.now.floats && not self.now.is_partial) }
    {
        self.floats.is_none() && !self.is_partial
    }
}

/// Returns the V2 name of cells of the same bytes that the layer knows, and of what floats they are the bits.
fn seen_v2(dtype: &str) -> Option<(&'static str, Option<Width>)> {
    match dtype {
        "<i1" | ">i1" => Some(("|i1", None)),
        "<u1" | ">u1" => Some(("|u1", None)),
        "<b1" | ">b1" => Some(("|b1", None)),
        "<f4" => Some(("<u4", Some(Width::Four))),
        ">f4" => Some((">u4", Some(Width::Four))),
        "<f8" => Some(("<u8", Some(Width::Eight))),
        ">f8" => Some((">u8", Some(Width::Eight))),
        _ => None,
    }
}

/// Returns the V3 name of cells of the same bytes that the layer knows, and of what floats they are the bits.
fn seen_v3(data_type: &str) -> Option<(&'static str, Option<Width>)> {
    match data_type {
        "float32" => Some(("uint32", Some(Width::Four))),
        "float64" => Some(("uint64", Some(Width::Eight))),
        _ => None,
    }
}

/// Puts the name that is seen in the place of the one at this member, if there is such a name.
fn see_name(
    alloc: Global,
    members: &mut Map<String, Value>,
    name: &str,
    seen: Option<(&'static str, Option<Width>)>,
    lens: &mut Lens,
) -> Result<(), CellsError> {
    if let Some((text, floats)) = seen {
        lens.is_partial = true;
        lens.floats = floats;
        serde_json::put(members, alloc, name, Value::try_from_str(alloc, text)?)?;
    }
    Ok(())
}

/// Puts the bits of the fill value in its place, if it says a float. Null stays: in V2 it is read as 0, and in V3 it is no
/// fill value.
fn see_fill(
    alloc: Global,
    members: &mut Map<String, Value>,
    width: Width,
) -> Result<(), CellsError> {
    let bits = match members.get("fill_value") {
        Some(fill) => value_bits(width, fill),
        None => None,
    };
    if let Some(bits) = bits {
        let bits = Value::Number(Number::from(bits));
        serde_json::put(members, alloc, "fill_value", bits)?;
    }
    Ok(())
}

/// Returns the text at this member.
fn text_at<'m>(members: &'m Map<String, Value>, name: &str) -> Option<&'m str> {
    members.get(name).and_then(Value::as_str)
}

/// Takes the attributes away, if a float is among them, or may be since the document had bare words.
fn hide_attributes(members: &mut Map<String, Value>, has_bare: bool, lens: &mut Lens) {
    let has_floats = match members.get("attributes") {
        Some(attributes) => has_bare || holds_float(attributes),
        None => false,
    };
    if has_floats {
        lens.is_partial = true;
        drop(members.remove("attributes"));
    }
}

/// Returns whether this member is absent or an empty object.
fn is_empty_at(members: &Map<String, Value>, name: &str) -> bool {
    match members.get(name) {
        Some(Value::Object(inner)) => inner.is_empty(),
        Some(_) => false,
        None => true,
    }
}

/// Returns the name of a data type of V3: a text, or an object of a name and an empty configuration at most.
fn type_name(data_type: &Value) -> Option<&str> {
    match data_type {
        Value::Object(members) if is_empty_at(members, "configuration") => text_at(members, "name"),
        _ => data_type.as_str(),
    }
}

/// Returns what is seen of the data type of a V3 document, as `seen_v3` does.
fn type_seen(members: &Map<String, Value>) -> Option<(&'static str, Option<Width>)> {
    let data_type = members.get("data_type")?;
    let name = type_name(data_type)?;
    seen_v3(name)
}

/// Shows the members of a V3 document as the layer reads them.
fn see_v3(
    alloc: Global,
    members: &mut Map<String, Value>,
    lens: &mut Lens,
) -> Result<(), CellsError> {
    let name = type_seen(members);
    see_name(alloc, members, "data_type", name, lens)?;
    if let Some(width) = lens.floats {
        see_fill(alloc, members, width)?;
    }
    Ok(())
}

/// Returns whether the layer writes the member of a V2 document back that has this name. It does not keep others, and
/// `attributes` go to a document of their own.
fn is_kept(name: &str) -> bool {
    matches!(
        name,
        "zarr_format"
            | "shape"
            | "chunks"
            | "dtype"
            | "compressor"
            | "fill_value"
            | "order"
            | "filters"
            | "dimension_separator"
    )
}

/// Returns whether the layer writes each of these members of a V2 document back.
fn are_kept(members: &Map<String, Value>) -> bool {
    for (name, _member) in members.iter() {
        if !is_kept(name.as_str()) {
            return false;
        }
    }
    true
}

/// Shows the members of a V2 document as the layer reads them.
fn see_v2(
    alloc: Global,
    members: &mut Map<String, Value>,
    lens: &mut Lens,
) -> Result<(), CellsError> {
    lens.has_no_fill = matches!(members.get("fill_value"), Some(Value::Null));
    if !are_kept(members) {
        lens.is_partial = true;
    }
    let name = text_at(members, "dtype").and_then(|name| seen_v2(name));
    see_name(alloc, members, "dtype", name, lens)?;
    if let Some(width) = lens.floats {
        see_fill(alloc, members, width)?;
    }
    Ok(())
}

/// Returns the attributes that are seen in place of those of V2, `None` for none.
fn seen_attributes(
    alloc: Global,
    document: &Document,
    bytes: &[u8],
    lens: &mut Lens,
) -> Result<Option<Vec<u8>>, CellsError>
    ensures { IfOk result (λ shown. (is_none lens.new.floats && not lens.new.is_partial) ≡ true
        → IsSomeAnd shown (λ made. made.items ≡ bytes.now)) }
{
    if document.has_bare || holds_float(&document.value) {
        lens.is_partial = true;
        return Ok(None);
    }
    Ok(Some(bytes.to_vec(alloc)?))
}

/// Shows the value of the document at this key, which has the shape of the array, as the layer reads it.
fn see_document(
    alloc: Global,
    name: &str,
    document: &mut Document,
    lens: &mut Lens,
) -> Result<(), CellsError> {
    if document.has_bare {
        lens.is_partial = true;
    }
    if let Some(members) = document.value.as_object_mut() {
        hide_attributes(members, document.has_bare, lens);
        if name == "zarr.json" {
            see_v3(alloc, members, lens)?;
        } else {
            see_v2(alloc, members, lens)?;
        }
    }
    Ok(())
}

/// Returns the document that is seen in place of the one at a metadata key, `None` for none. It is the same where the
/// layer reads it, and byte for byte if the lens is clear then. Of an array that has a `zarr.json` no other document is to
/// be looked at.
pub fn seen(
    alloc: Global,
    name: &str,
    bytes: &[u8],
    lens: &mut Lens,
) -> Result<Option<Vec<u8>>, CellsError>
    ensures { IfOk result (λ shown. (is_none lens.new.floats && not lens.new.is_partial) ≡ true
        → IsSomeAnd shown (λ made. made.items ≡ bytes.now)) }
{
    let Some(mut document) = read_document(alloc, bytes)? else {
        return Ok(Some(bytes.to_vec(alloc)?));
    };
    if name == ".zattrs" {
        return seen_attributes(alloc, &document, bytes, lens);
    }
    see_document(alloc, name, &mut document, lens)?;
    if lens.is_clear() {
        return Ok(Some(bytes.to_vec(alloc)?));
    }
    let text = document.value.to_string(alloc)?;
    Ok(Some(text.as_bytes().to_vec(alloc)?))
}
