//! The metadata of codecs that look at cells alone, both ways.
ghost use Rattle.std.specs.Prelude.{◌≡◌, option_map, IfOk};
ghost use Rattle.zarrs_metadata_parts.specs.Extension.{extension_view, named, settings};
ghost use Rattle.zarrs_data_type.specs.Kind.{kind};
ghost use Rattle.zarrs_data_type.specs.TypeMetadata.{is_optional_name};
ghost use Rattle.zarrs_codec_optional.specs.CellsCodecs.{mask_codec_data, cells_codec_data};
ghost use Rattle.zarrs_codec_optional.specs.Metadata.{as_mask, cells_codec_said, default_cells_codec};
ghost use Rattle.zarrs_codec_optional.specs.Metadata.{extension_of_cells_codec, mask_codec_said, optional_extension};
ghost use Rattle.zarrs_codec_optional.specs.Metadata.{optional_parts, optional_said, plain_said};
ghost use Rattle.zarrs_codec_optional.specs.PlainCodecs.{plain_codec_data};

use crate::codec::CellsCodec;
use crate::optional::{MaskCodec, OptionalCodec};
use crate::plain::PlainCodec;
use crate::sole::{list_of_one, sole_codec};
use std::alloc::{AllocError, Global};
use zarrs_codec_leaf::PackBitsCodec;
use zarrs_data_type::DataType;
use zarrs_metadata_parts::MetadataV3;

impl CellsCodec {
    /// Returns the metadata of the codec.
    ///
    /// # Errors
    /// `AllocError`: out of memory.
    #[cycle(written)]
    pub fn written(&self, alloc: Global) -> Result<MetadataV3, AllocError>
        ensures { IfOk result (λ m.
            extension_view m ≡ extension_of_cells_codec (cells_codec_data self.now)) }
    {
        match self {
            CellsCodec::Plain(codec) => codec.create_metadata(alloc),
            CellsCodec::Optional(codec) => codec.written(alloc),
        }
    }

    /// The same codec.
    ///
    /// # Errors
    /// `AllocError`: out of memory.
    #[cycle(copied)]
    pub fn try_clone(&self, alloc: Global) -> Result<CellsCodec, AllocError>
        ensures { IfOk result (λ copy. cells_codec_data copy ≡ cells_codec_data self.now) }
    {
        match self {
            CellsCodec::Plain(codec) => Ok(CellsCodec::Plain(*codec)),
            CellsCodec::Optional(codec) => { Ok(CellsCodec::Optional(codec.try_clone(alloc)?)) }
        }
    }
}

/// Returns the codec of a chain that names none: `PlainCodec::default_of` a type that is not optional, and
/// `zarrs.optional` for an optional type, with `packbits` for the mask and the codec of its inner type for the data.
///
/// # Errors
/// `AllocError`: out of memory.
pub fn default_cells_codec(alloc: Global, data_type: &DataType) -> Result<CellsCodec, AllocError>
    ensures { IfOk result (λ codec. cells_codec_data codec ≡ default_cells_codec (kind data_type.now)) }
{
    match data_type {
        DataType::Optional(inner) => {
            let data = default_cells_codec(alloc, inner)?;
            let mask = MaskCodec::PackBits(PackBitsCodec);
            Ok(CellsCodec::Optional(OptionalCodec::new(alloc, mask, data)?))
        }
        _ => Ok(CellsCodec::Plain(PlainCodec::default_of(data_type))),
    }
}

/// Returns the codec that metadata says, if it says one: a codec of plain cells (`PlainCodec::from_metadata`), or
/// `zarrs.optional` (also `optional`) with `mask_codecs`, a list of one of `packbits` and `bytes`, and `data_codecs`, a
/// list of one of these codecs (Zarr V3 core specification, "Codecs").
///
/// # Errors
/// `AllocError`: out of memory.
pub fn codec_of(alloc: Global, metadata: &MetadataV3) -> Result<Option<CellsCodec>, AllocError>
    ensures { IfOk result (λ found. option_map cells_codec_data found
        ≡ cells_codec_said (extension_view metadata.now)) }
{
    if !is_optional_name(metadata.name()) {
        return plain_from(metadata);
    }
    let Some((mask, inner)) = optional_parts(metadata)? else {
        return Ok(None);
    };
    let found = codec_of(alloc, &inner)?;
    let flags = mask_from(&mask)?;
    optional_of(alloc, flags, found)
}

/// Returns the codec of codecs for the mask and for the data, if both are present.
fn optional_of(
    alloc: Global,
    mask: Option<MaskCodec>,
    inner: Option<CellsCodec>,
) -> Result<Option<CellsCodec>, AllocError>
    ensures { IfOk result (λ made. option_map cells_codec_data made
        ≡ optional_said (option_map mask_codec_data mask) (option_map cells_codec_data inner)) }
{
    let (Some(mask), Some(inner)) = (mask, inner) else {
        return Ok(None);
    };
    let codec = OptionalCodec::new(alloc, mask, inner)?;
    Ok(Some(CellsCodec::Optional(codec)))
}

/// Returns the metadata of the codecs for the mask and for the data.
fn optional_parts(metadata: &MetadataV3) -> Result<Option<(MetadataV3, MetadataV3)>, AllocError>
    ensures { IfOk result (λ parts. option_map (λ p. (extension_view p.0, extension_view p.1)) parts
        ≡ optional_parts (settings (extension_view metadata.now))) }
{
    if !metadata.has_only(&["data_codecs", "mask_codecs"]) {
        return Ok(None);
    }
    let Some(mask) = sole_codec(metadata.member("mask_codecs"))? else {
        return Ok(None);
    };
    let Some(inner) = sole_codec(metadata.member("data_codecs"))? else {
        return Ok(None);
    };
    Ok(Some((mask, inner)))
}

fn is_optional_name(name: &str) -> bool
    ensures { result ≡ is_optional_name name.now }
{
    matches!(name, "zarrs.optional" | "optional")
}

/// Returns the codec that metadata says, if it says one of a mask.
fn mask_from(metadata: &MetadataV3) -> Result<Option<MaskCodec>, AllocError>
    ensures { IfOk result (λ mask. option_map mask_codec_data mask
        ≡ mask_codec_said (extension_view metadata.now)) }
{
    Ok(PlainCodec::from_metadata(metadata)?.and_then(as_mask))
}

fn as_mask(codec: PlainCodec) -> Option<MaskCodec>
    ensures { option_map mask_codec_data result ≡ as_mask (plain_codec_data codec) }
{
    match codec {
        PlainCodec::PackBits(codec) => Some(MaskCodec::PackBits(codec)),
        PlainCodec::Bytes(codec) => Some(MaskCodec::Bytes(codec)),
        _ => None,
    }
}

/// Returns the codec that metadata says, if it says one that holds no other codec.
fn plain_from(metadata: &MetadataV3) -> Result<Option<CellsCodec>, AllocError>
    ensures { IfOk result (λ codec. option_map cells_codec_data codec
        ≡ plain_said (extension_view metadata.now)) }
{
    Ok(PlainCodec::from_metadata(metadata)?.map(CellsCodec::Plain))
}

/// Returns the metadata of a codec without configuration.
///
/// # Errors
/// `AllocError`: out of memory.
pub fn named(alloc: Global, name: &str) -> Result<MetadataV3, AllocError>
    ensures { IfOk result (λ m. extension_view m ≡ named name.now) }
{
    Ok(MetadataV3::new(String::from_str(alloc, name)?))
}

/// Returns the metadata of the codec of codecs with this metadata, one for the mask and one for the data.
pub(crate) fn optional_metadata(
    alloc: Global,
    mask: &MetadataV3,
    inner: &MetadataV3,
) -> Result<MetadataV3, AllocError>
    ensures { IfOk result (λ m. extension_view m
        ≡ optional_extension (extension_view mask.now) (extension_view inner.now)) }
{
    let metadata = named(alloc, "zarrs.optional")?;
    let metadata = metadata.with_member(alloc, "data_codecs", list_of_one(alloc, inner)?)?;
    metadata.with_member(alloc, "mask_codecs", list_of_one(alloc, mask)?)
}
