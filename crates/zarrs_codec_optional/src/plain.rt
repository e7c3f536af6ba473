//! The codecs of plain cells: one list of their variants, names and configurations.
ghost use Rattle.std.specs.Prelude.{◌≡◌, Some, option_map, IfOk, IfErr, IsSome};
ghost use Rattle.zarrs_data_type.specs.ArrayData.{data_of};
ghost use Rattle.zarrs_data_type.specs.Cells.{cells};
ghost use Rattle.zarrs_data_type.specs.Kind.{kind};
ghost use Rattle.zarrs_metadata_parts.specs.Extension.{extension_view, settings};
ghost use Rattle.zarrs_codec_leaf.specs.Leaf.{encoding_of};
ghost use Rattle.zarrs_codec_leaf.specs.Refusals.{RefusesEncoding, RefusesDecoding};
ghost use Rattle.zarrs_codec_optional.specs.BytesMetadata.{endian_from};
ghost use Rattle.zarrs_codec_optional.specs.PlainCodecs.{bytes, default_plain_codec, extension_of_plain_codec};
ghost use Rattle.zarrs_codec_optional.specs.PlainCodecs.{meaning_of_plain_codec, plain-lawful, plain_codec_data};
ghost use Rattle.zarrs_codec_optional.specs.PlainCodecs.{plain_codec_named};

use crate::bytes_metadata::{bytes_metadata, endian_from};
use crate::metadata::named;
use crate::packbits_metadata::says_packbits;
use crate::vlen_metadata::{says_vlen, vlen_metadata};
use std::alloc::{AllocError, Global};
use zarrs_codec_leaf::{
    BytesCodec, CodecError, LeafCodec, PackBitsCodec, VlenBytesCodec, VlenCodec, VlenUtf8Codec,
};
use zarrs_data_type::{ArrayBytes, DataType};
use zarrs_metadata_parts::MetadataV3;

/// A codec that makes bytes of cells and holds no other codec.
#[derive(Clone, Copy, Debug, Drop, PartialEq, Eq)]
pub enum PlainCodec {
    /// Elements one after another.
    Bytes(BytesCodec),
    /// Bools, eight to a byte.
    PackBits(PackBitsCodec),
    /// Texts, each after its length.
    VlenUtf8(VlenUtf8Codec),
    /// Byte strings, each after its length.
    VlenBytes(VlenBytesCodec),
    /// Texts or byte strings, after the index of their offsets.
    Vlen(VlenCodec),
}

impl LeafCodec for PlainCodec {
    ghost meaning = { λ codec. meaning_of_plain_codec (plain_codec_data codec) };

    fn takes(&self, data_type: &DataType) -> bool {
        match self {
            PlainCodec::Bytes(codec) => codec.takes(data_type),
            PlainCodec::PackBits(codec) => codec.takes(data_type),
            PlainCodec::VlenUtf8(codec) => codec.takes(data_type),
            PlainCodec::VlenBytes(codec) => codec.takes(data_type),
            PlainCodec::Vlen(codec) => codec.takes(data_type),
        }
    }

    fn encode(
        &self,
        alloc: Global,
        bytes: &ArrayBytes<'_>,
        data_type: &DataType,
    ) -> Result<Vec<u8>, CodecError> {
        match self {
            PlainCodec::Bytes(codec) => codec.encode(alloc, bytes, data_type),
            PlainCodec::PackBits(codec) => codec.encode(alloc, bytes, data_type),
            PlainCodec::VlenUtf8(codec) => codec.encode(alloc, bytes, data_type),
            PlainCodec::VlenBytes(codec) => codec.encode(alloc, bytes, data_type),
            PlainCodec::Vlen(codec) => codec.encode(alloc, bytes, data_type),
        }
    }

    fn decode<'a>(
        &self,
        alloc: Global,
        encoded: &'a [u8],
        data_type: &DataType,
        count: u64,
    ) -> Result<ArrayBytes<'a>, CodecError> {
        match self {
            PlainCodec::Bytes(codec) => codec.decode(alloc, encoded, data_type, count),
            PlainCodec::PackBits(codec) => codec.decode(alloc, encoded, data_type, count),
            PlainCodec::VlenUtf8(codec) => codec.decode(alloc, encoded, data_type, count),
            PlainCodec::VlenBytes(codec) => codec.decode(alloc, encoded, data_type, count),
            PlainCodec::Vlen(codec) => codec.decode(alloc, encoded, data_type, count),
        }
    }

    ghost lawful = { λ codec. plain-lawful (plain_codec_data codec) };
}

impl PlainCodec {
    /// Returns the codec that metadata says, if it says one: `bytes` with its `endian`, which may be absent; `packbits`
    /// with no `padding_encoding` or the text `none`; `vlen-utf8` or `vlen-bytes` without configuration; or `zarrs.vlen`
    /// (also `vlen`) with an index of `uint64` at the start, by the codec `bytes`, little endian, and data by the codec
    /// `bytes` without configuration (Zarr V3 core specification, "Codecs").
    ///
    /// # Errors
    /// `AllocError`: out of memory.
    pub fn from_metadata(metadata: &MetadataV3) -> Result<Option<PlainCodec>, AllocError>
        ensures { IfOk result (λ codec. option_map plain_codec_data codec ≡ plain_codec_named
            (extension_view metadata.now).name (settings (extension_view metadata.now))) }
    {
        let is_bare = metadata.has_only(&[]);
        match metadata.name() {
            "bytes" => Ok(bytes_from(metadata)),
            "packbits" => {
                Ok(says_packbits(metadata).then_some(PlainCodec::PackBits(PackBitsCodec)))
            }
            "vlen-utf8" => Ok(is_bare.then_some(PlainCodec::VlenUtf8(VlenUtf8Codec))),
            "vlen-bytes" => Ok(is_bare.then_some(PlainCodec::VlenBytes(VlenBytesCodec))),
            "zarrs.vlen" | "vlen" => {
                Ok(says_vlen(metadata)?.then_some(PlainCodec::Vlen(VlenCodec)))
            }
            _ => Ok(None),
        }
    }

    /// Returns the metadata of the codec.
    ///
    /// # Errors
    /// `AllocError`: out of memory.
    pub fn create_metadata(&self, alloc: Global) -> Result<MetadataV3, AllocError>
        ensures { IfOk result (λ m.
            extension_view m ≡ extension_of_plain_codec (plain_codec_data self.now)) }
    {
        match self {
            PlainCodec::Bytes(codec) => bytes_metadata(alloc, codec.endian()),
            PlainCodec::PackBits(_) => named(alloc, "packbits"),
            PlainCodec::VlenUtf8(_) => named(alloc, "vlen-utf8"),
            PlainCodec::VlenBytes(_) => named(alloc, "vlen-bytes"),
            PlainCodec::Vlen(_) => vlen_metadata(alloc),
        }
    }

    /// Returns the codec of a type that is not optional, if none is named: `vlen-utf8` for `string`, `vlen-bytes` for
    /// `bytes`, and `bytes`, little endian, for any other.
    pub fn default_of(data_type: &DataType) -> PlainCodec
        ensures { plain_codec_data result ≡ default_plain_codec (kind data_type.now) }
    {
        match data_type {
            DataType::String => PlainCodec::VlenUtf8(VlenUtf8Codec),
            DataType::Bytes => PlainCodec::VlenBytes(VlenBytesCodec),
            _ => PlainCodec::Bytes(BytesCodec::little()),
        }
    }
}

fn bytes_from(metadata: &MetadataV3) -> Option<PlainCodec>
    ensures { option_map plain_codec_data result
        ≡ option_map bytes (endian_from (settings (extension_view metadata.now))) }
{
    Some(PlainCodec::Bytes(BytesCodec::new(endian_from(metadata)?)))
}
