//! The metadata of codecs that make an array of an array, both ways.
ghost use Rattle.std.specs.Prelude.{◌≡◌, Some, None, map, option_map, option_and_then, IfOk, IfErr};
ghost use Rattle.std.specs.Prelude.{if◌then◌else◌};
ghost use Rattle.serde_json.specs.View.{view};
ghost use Rattle.serde_json.specs.Find.{as_number, as_i64};
ghost use Rattle.zarrs_metadata_parts.specs.Extension.{extension_view, settings};
ghost use Rattle.zarrs_metadata_parts.specs.Lists.{list_of, list_data};
ghost use Rattle.zarrs_metadata_parts.specs.Refusals.{RefusesMeaning};
ghost use Rattle.zarrs_codec_array.specs.Arrays.{size, rest};
ghost use Rattle.zarrs_codec_array.specs.Extents.{extent_view, extents_view};
ghost use Rattle.zarrs_codec_array.specs.Metadata.{rest_of};
ghost use Rattle.zarrs_codec_array.specs.ArrayCodecs.{array_codec_data};
ghost use Rattle.zarrs_codec_array.specs.Metadata.{extent_said, extent_data, transpose_said};
ghost use Rattle.zarrs_codec_array.specs.Metadata.{reshape_said, squeeze_said, array_codec_said};
ghost use Rattle.zarrs_codec_array.specs.Metadata.{extension_of_array_codec};

use crate::array::ArrayToArrayCodec;
use crate::reshape::{ReshapeCodec, ReshapeExtent};
use crate::squeeze::SqueezeCodec;
use crate::transpose::TransposeCodec;
use serde_json::Value;
use std::alloc::{AllocError, Global};
use zarrs_metadata_parts::{MetadataV3, PluginCreateError, numbers, numbers_value, size};

impl ArrayToArrayCodec {
    /// Reads the codec that metadata says: `transpose` with its `order`, `reshape` (also `zarrs.reshape`) with its
    /// `shape`, or `squeeze` (also `zarrs.squeeze`) without configuration (Zarr V3 core specification, "Codecs").
    ///
    /// # Errors
    /// `Other` if the metadata says none of them: for another name, an `order` that is no order, a `shape` of other
    /// entries or one that names a dimension twice or has a second -1, and a configuration with any other member.
    /// `OutOfMemory` may come at any time.
    pub fn from_metadata(
        alloc: Global,
        metadata: &MetadataV3,
    ) -> Result<ArrayToArrayCodec, PluginCreateError>
        ensures read { IfOk result (λ codec.
            array_codec_said (extension_view metadata.now) ≡ Some (array_codec_data codec)) }
        ensures refused { IfErr result
            (RefusesMeaning (array_codec_said (extension_view metadata.now))) }
    {
        let Some(codec) = codec_from(alloc, metadata)? else {
            let name = metadata.name();
            let text = format!(in alloc;
                "no array-to-array codec `{name}` has this configuration"
            )?;
            return Err(PluginCreateError::Other(text));
        };
        Ok(codec)
    }

    /// Returns the metadata of the codec.
    ///
    /// # Errors
    /// `AllocError`: out of memory.
    pub fn create_metadata(&self, alloc: Global) -> Result<MetadataV3, AllocError>
        ensures written { IfOk result (λ m. extension_view m
            ≡ extension_of_array_codec (array_codec_data self.now)) }
        ensures reads_back { IfOk result (λ m. array_codec_said (extension_view m)
            ≡ Some (array_codec_data self.now)) }
    {
        match self {
            ArrayToArrayCodec::Transpose(codec) => {
                let order = numbers_value(alloc, codec.order())?;
                MetadataV3::with_one_member(alloc, "transpose", "order", order)
            }
            ArrayToArrayCodec::Reshape(codec) => {
                let shape = extents_value(alloc, codec.entries())?;
                MetadataV3::with_one_member(alloc, "reshape", "shape", shape)
            }
            ArrayToArrayCodec::Squeeze(_) => {
                Ok(MetadataV3::new(String::from_str(alloc, "squeeze")?))
            }
        }
    }
}

/// Returns the codec that metadata says, if it says one.
fn codec_from(alloc: Global, metadata: &MetadataV3) -> Result<Option<ArrayToArrayCodec>, AllocError>
    ensures { IfOk result (λ codec. option_map array_codec_data codec
        ≡ array_codec_said (extension_view metadata.now)) }
{
    match metadata.name() {
        "transpose" => transpose_from(alloc, metadata),
        "reshape" | "zarrs.reshape" => reshape_from(alloc, metadata),
        "squeeze" | "zarrs.squeeze" => Ok(squeeze_from(metadata)),
        _ => Ok(None),
    }
}

fn transpose_from(
    alloc: Global,
    metadata: &MetadataV3,
) -> Result<Option<ArrayToArrayCodec>, AllocError>
    ensures { IfOk result (λ codec. option_map array_codec_data codec
        ≡ transpose_said (settings (extension_view metadata.now))) }
{
    let Some(value) = metadata.only_member("order") else {
        return Ok(None);
    };
    let Some(order) = numbers(alloc, value)? else {
        return Ok(None);
    };
    Ok(TransposeCodec::new(alloc, order)?.map(ArrayToArrayCodec::Transpose))
}

fn reshape_from(
    alloc: Global,
    metadata: &MetadataV3,
) -> Result<Option<ArrayToArrayCodec>, AllocError>
    ensures { IfOk result (λ codec. option_map array_codec_data codec
        ≡ reshape_said (settings (extension_view metadata.now))) }
{
    let Some(value) = metadata.only_member("shape") else {
        return Ok(None);
    };
    let Some(entries) = extents_from(alloc, value)? else {
        return Ok(None);
    };
    Ok(ReshapeCodec::new(alloc, entries)?.map(ArrayToArrayCodec::Reshape))
}

fn squeeze_from(metadata: &MetadataV3) -> Option<ArrayToArrayCodec>
    ensures { option_map array_codec_data result
        ≡ squeeze_said (settings (extension_view metadata.now)) }
{
    let codec = ArrayToArrayCodec::Squeeze(SqueezeCodec);
    metadata.has_only(&[]).then_some(codec)
}

fn extents_from(alloc: Global, value: &Value) -> Result<Option<Vec<ReshapeExtent>>, AllocError>
    ensures { IfOk result (λ found. option_map (λ entries. extents_view entries.items) found
        ≡ list_of extent_said (view value.now)) }
{
    let Some(items) = value.as_array() else {
        return Ok(None);
    };
    let mut entries = Vec::with_capacity(alloc, items.len())?;
    for item in items {
        match extent_from(alloc, item)? {
            Some(entry) => entries.push(entry)?,
            None => return Ok(None),
        }
    }
    Ok(Some(entries))
}

/// Returns the entry that a JSON value says: a size above 0, -1, or a list of dimensions.
fn extent_from(alloc: Global, value: &Value) -> Result<Option<ReshapeExtent>, AllocError>
    ensures { IfOk result (λ found. option_map extent_view found ≡ extent_said (view value.now)) }
{
    if let Some(size) = size(value) {
        return Ok(Some(ReshapeExtent::Size(size)));
    }
    if is_minus_one(value) {
        return Ok(Some(ReshapeExtent::Rest));
    }
    Ok(numbers(alloc, value)?.map(ReshapeExtent::ProductOf))
}

fn is_minus_one(value: &Value) -> bool
    ensures { (if result then Some rest else None)
        ≡ option_and_then rest_of (option_and_then as_i64 (as_number (view value.now))) }
{
    value.as_i64() == Some(-1)
}

fn extents_value(alloc: Global, entries: &[ReshapeExtent]) -> Result<Value, AllocError>
    ensures { IfOk result (λ value. view value ≡ list_data extent_data (extents_view entries.now)) }
{
    let mut values = Vec::with_capacity(alloc, entries.len())?;
    for entry in entries {
        values.push(extent_value(alloc, entry)?)?;
    }
    Ok(Value::Array(values))
}

fn extent_value(alloc: Global, entry: &ReshapeExtent) -> Result<Value, AllocError>
    ensures { IfOk result (λ value. view value ≡ extent_data (extent_view entry.now)) }
{
    match entry {
        ReshapeExtent::Size(size) => Ok(Value::from(size.get())),
        ReshapeExtent::ProductOf(dimensions) => numbers_value(alloc, dimensions),
        ReshapeExtent::Rest => Ok(Value::from(-1i64)),
    }
}
