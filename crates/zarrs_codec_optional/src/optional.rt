//! The codec `zarrs.optional`.
ghost use Rattle.std.specs.Prelude.{◌≡◌, ◌*◌, ◌<◌, ◌^◌, All, IfOk, IfErr, IsSome, Some, List, []};
ghost use Rattle.std.specs.Prelude.{length, map, option_map, count_by};
ghost use Rattle.zarrs_data_type.specs.ArrayData.{data_of};
ghost use Rattle.zarrs_data_type.specs.Cells.{cells};
ghost use Rattle.zarrs_data_type.specs.Kind.{kind, cell_size};
ghost use Rattle.zarrs_data_type.specs.Kind as type;
ghost use Rattle.zarrs_data_type.specs.Present.{flag_set};
ghost use Rattle.zarrs_codec_leaf.specs.Leaf.{encoding_of};
ghost use Rattle.zarrs_codec_leaf.specs.PackBits.{flag_cell};
ghost use Rattle.zarrs_codec_leaf.specs.Refusals.{RefusesEncoding, RefusesDecoding};
ghost use Rattle.zarrs_codec_leaf.specs.declared.error.CodecError.TheVariants.{OutOfMemory};
ghost use Rattle.zarrs_metadata_parts.specs.Extension.{extension_view};
ghost use Rattle.zarrs_codec_optional.specs.CellsCodecs.{cells_meaning, mask_meaning, mask_codec_of, data_codec_of};
ghost use Rattle.zarrs_codec_optional.specs.CellsCodecs.{optional_meaning_of, mask_codec_data, optional_codec_data};
ghost use Rattle.zarrs_codec_optional.specs.Metadata.{extension_of_mask_codec, extension_of_cells_codec};
ghost use Rattle.zarrs_codec_optional.specs.Optional.{if_any, behind_lengths, mask_and_data};

use crate::bytes_metadata::bytes_metadata;
use crate::codec::CellsCodec;
use crate::metadata::{named, optional_metadata};
use std::alloc::{AllocError, Global};
use std::borrow::CowSlice;
use zarrs_codec_leaf::{BytesCodec, CodecError, LeafCodec, Misfit, PackBitsCodec};
use zarrs_data_type::{ArrayBytes, DataType, VariableLengthBuilder, owned_bytes};
use zarrs_metadata_parts::MetadataV3;

/// The codec of a mask: a bool for each cell, 1 if the cell is some.
#[derive(Clone, Copy, Debug, Drop, PartialEq, Eq)]
pub enum MaskCodec {
    /// Bools, eight to a byte.
    PackBits(PackBitsCodec),
    /// A byte for each bool.
    Bytes(BytesCodec),
}

/// Cells of an optional type: the length of the mask and that of the inner cells' bytes, 8 bytes each, little endian;
/// then the mask; then the inner cells of those that are some, in their order. Without such cells the last part is
/// empty.
#[cycle(codec)]
#[derive(Debug, Drop)]
pub struct OptionalCodec {
    mask: MaskCodec,
    data: Box<CellsCodec>,
}

/// A mask that was decoded.
#[derive(Drop)]
struct DecodedMask {
    flags: Vec<u8>,
    /// How many of them are set.
    set: u64,
}

impl MaskCodec {
    /// The bytes of the flags.
    fn encode(&self, alloc: Global, flags: &[u8]) -> Result<Vec<u8>, CodecError>
        requires { All (λ flag. flag < 2) flags.now }
        ensures encoded { IfOk result (λ encoded. (mask_meaning self.now).encoded type.bool
            (map flag_cell flags.now) ≡ Some encoded.items) }
        ensures refused { IfErr result (λ error. error ≡ OutOfMemory) }
    {
        let bools = bools_of(flags);
        match self {
            MaskCodec::PackBits(codec) => codec.encode(alloc, &bools, &DataType::Bool),
            MaskCodec::Bytes(codec) => codec.encode(alloc, &bools, &DataType::Bool),
        }
    }

    /// The `count` bools of the bytes.
    fn decode<'a>(
        &self,
        alloc: Global,
        encoded: &'a [u8],
        count: u64,
    ) -> Result<ArrayBytes<'a>, CodecError>
        ensures cells { IfOk result (λ made. cells type.bool (data_of made)
            ≡ (mask_meaning self.now).decoded type.bool count encoded.now) }
        ensures some { IfOk result (λ made. IsSome (cells type.bool (data_of made))) }
        ensures refused { IfErr result (RefusesDecoding (mask_meaning self.now) type.bool count
            encoded.now) }
    {
        match self {
            MaskCodec::PackBits(codec) => codec.decode(alloc, encoded, &DataType::Bool, count),
            MaskCodec::Bytes(codec) => codec.decode(alloc, encoded, &DataType::Bool, count),
        }
    }

    /// The mask of `count` cells of a type whose inner type is `inner`.
    fn decode_mask(
        &self,
        alloc: Global,
        encoded: &[u8],
        inner: &DataType,
        count: u64,
    ) -> Result<DecodedMask, CodecError>
        requires { count * cell_size (kind inner.now) < 2 ^ 64 }
        ensures read { IfOk result (λ mask. (mask_meaning self.now).decoded type.bool count
            encoded.now ≡ Some (map flag_cell mask.flags.items)) }
        ensures flags { IfOk result (λ mask. All (λ flag. flag < 2) mask.flags.items) }
        ensures set { IfOk result (λ mask. mask.set ≡ count_by flag_set mask.flags.items) }
        ensures size { IfOk result (λ mask.
            length mask.flags.items * cell_size (kind inner.now) < 2 ^ 64) }
        ensures set_size { IfOk result (λ mask. mask.set * cell_size (kind inner.now) < 2 ^ 64) }
        ensures refused { IfErr result (RefusesDecoding (mask_meaning self.now) type.bool count
            encoded.now) }
    {
        let bools = self.decode(alloc, encoded, count)?;
        let flags = flags_of(alloc, bools)?;
        let set = count_set(flags.as_slice());
        Ok(DecodedMask { flags, set })
    }
}

impl OptionalCodec {
    /// The codec of a codec for the mask and a codec for the inner cells.
    ///
    /// # Errors
    /// `AllocError`: out of memory.
    pub fn new(
        alloc: Global,
        mask: MaskCodec,
        inner: CellsCodec,
    ) -> Result<OptionalCodec, AllocError>
        ensures mask { IfOk result (λ codec. mask_codec_of codec ≡ mask) }
        ensures inner { IfOk result (λ codec. data_codec_of codec ≡ inner) }
    {
        let data = Box::new(alloc, inner)?;
        Ok(OptionalCodec { mask, data })
    }

    /// The codec of the mask.
    pub fn mask_codec(&self) -> MaskCodec
        ensures { result ≡ mask_codec_of self.now }
    {
        self.mask
    }

    /// The codec of the inner cells.
    pub fn data_codec(&self) -> &CellsCodec
        ensures { result.now ≡ data_codec_of self.now }
    {
        &self.data
    }

    /// Whether the codec takes cells of this type.
    #[cycle(takes)]
    pub fn takes(&self, data_type: &DataType) -> bool
        ensures { result ≡ (optional_meaning_of self.now).takes (kind data_type.now) }
    {
        match data_type.optional_inner() {
            Some(inner) => self.data.takes(inner),
            None => false,
        }
    }

    /// The bytes of the cells.
    #[cycle(encode)]
    pub fn encode(
        &self,
        alloc: Global,
        bytes: &ArrayBytes<'_>,
        data_type: &DataType,
    ) -> Result<Vec<u8>, CodecError>
        requires { IsSome (cells (kind data_type.now) (data_of bytes.now)) }
        ensures encoded { IfOk result (λ encoded.
            encoding_of (optional_meaning_of self.now) (kind data_type.now)
            (data_of bytes.now) ≡ Some encoded.items) }
        ensures refused { IfErr result (RefusesEncoding (optional_meaning_of self.now)
            (kind data_type.now) (data_of bytes.now)) }
    {
        let Some(inner) = data_type.optional_inner() else {
            return Err(CodecError::DoesNotFit(Misfit::TypeOrShape));
        };
        let ArrayBytes::Optional(held) = bytes else {
            unreachable!();
        };
        let mask = self.mask.encode(alloc, held.mask())?;
        let present = held.present(alloc, inner)?;
        let body = self.data.encode_if_any(alloc, &present, inner)?;
        Ok(behind_lengths(alloc, mask.as_slice(), body.as_slice())?)
    }

    /// The `count` cells of the bytes.
    #[cycle(decode)]
    pub fn decode<'a>(
        &self,
        alloc: Global,
        encoded: &'a [u8],
        data_type: &DataType,
        count: u64,
    ) -> Result<ArrayBytes<'a>, CodecError>
        requires size { count * cell_size (kind data_type.now) < 2 ^ 64 }
        ensures cells { IfOk result (λ made. cells (kind data_type.now) (data_of made)
            ≡ (optional_meaning_of self.now).decoded (kind data_type.now) count encoded.now) }
        ensures some { IfOk result (λ made. IsSome (cells (kind data_type.now) (data_of made))) }
        ensures refused { IfErr result (RefusesDecoding (optional_meaning_of self.now)
            (kind data_type.now) count encoded.now) }
    {
        let Some(inner) = data_type.optional_inner() else {
            return Err(CodecError::DoesNotFit(Misfit::TypeOrShape));
        };
        let Some((mask, body)) = mask_and_data(encoded) else {
            return Err(CodecError::DoesNotFit(Misfit::Bytes));
        };
        let DecodedMask { flags, set } = self.mask.decode_mask(alloc, mask, inner, count)?;
        let present = self.data.decode_if_any(alloc, body, inner, set)?;
        let made = ArrayBytes::from_present(alloc, inner, flags, &present)?;
        Ok(made)
    }
}

impl MaskCodec {
    /// Returns the metadata of the codec.
    fn written(&self, alloc: Global) -> Result<MetadataV3, AllocError>
        ensures { IfOk result (λ m. extension_view m
            ≡ extension_of_mask_codec (mask_codec_data self.now)) }
    {
        match self {
            MaskCodec::PackBits(_) => named(alloc, "packbits"),
            MaskCodec::Bytes(codec) => bytes_metadata(alloc, codec.endian()),
        }
    }
}

impl OptionalCodec {
    /// Returns the metadata of the codec.
    #[cycle(written)]
    pub fn written(&self, alloc: Global) -> Result<MetadataV3, AllocError>
        ensures { IfOk result (λ m. extension_view m
            ≡ extension_of_cells_codec (optional_codec_data self.now)) }
    {
        let mask = self.mask.written(alloc)?;
        let inner = self.data.written(alloc)?;
        optional_metadata(alloc, &mask, &inner)
    }

    /// The same codec.
    ///
    /// # Errors
    /// `AllocError`: out of memory.
    #[cycle(copied)]
    pub fn try_clone(&self, alloc: Global) -> Result<OptionalCodec, AllocError>
        ensures { IfOk result (λ copy. optional_codec_data copy ≡ optional_codec_data self.now) }
    {
        OptionalCodec::new(alloc, self.mask, self.data.try_clone(alloc)?)
    }
}

impl CellsCodec {
    /// The bytes of the cells, no byte if there is no cell.
    #[cycle(encode)]
    fn encode_if_any(
        &self,
        alloc: Global,
        bytes: &ArrayBytes<'_>,
        data_type: &DataType,
    ) -> Result<Vec<u8>, CodecError>
        requires { IsSome (cells (kind data_type.now) (data_of bytes.now)) }
        ensures encoded { IfOk result (λ encoded.
            encoding_of (if_any (cells_meaning self.now)) (kind data_type.now)
            (data_of bytes.now) ≡ Some encoded.items) }
        ensures refused { IfErr result (RefusesEncoding (if_any (cells_meaning self.now))
            (kind data_type.now) (data_of bytes.now)) }
    {
        if !bytes.validate(data_type, 0) {
            return self.encode(alloc, bytes, data_type);
        }
        if !self.takes(data_type) {
            return Err(CodecError::DoesNotFit(Misfit::TypeOrShape));
        }
        Ok(Vec::new(alloc))
    }

    /// The `count` cells of the bytes, which are none if there is no cell.
    #[cycle(decode)]
    fn decode_if_any<'a>(
        &self,
        alloc: Global,
        encoded: &'a [u8],
        data_type: &DataType,
        count: u64,
    ) -> Result<ArrayBytes<'a>, CodecError>
        requires size { count * cell_size (kind data_type.now) < 2 ^ 64 }
        ensures cells { IfOk result (λ made. cells (kind data_type.now) (data_of made)
            ≡ (if_any (cells_meaning self.now)).decoded (kind data_type.now) count encoded.now) }
        ensures some { IfOk result (λ made. IsSome (cells (kind data_type.now) (data_of made))) }
        ensures refused { IfErr result (RefusesDecoding (if_any (cells_meaning self.now))
            (kind data_type.now) count encoded.now) }
    {
        if count > 0 {
            return self.decode(alloc, encoded, data_type, count);
        }
        if !self.takes(data_type) {
            return Err(CodecError::DoesNotFit(Misfit::TypeOrShape));
        }
        if !encoded.is_empty() {
            return Err(CodecError::DoesNotFit(Misfit::Bytes));
        }
        Ok(no_cells(alloc, data_type)?)
    }
}

/// The flags as cells of bool.
fn bools_of(flags: &[u8]) -> ArrayBytes<'_>
    requires { All (λ flag. flag < 2) flags.now }
    ensures { cells type.bool (data_of result) ≡ Some (map flag_cell flags.now) }
{
    ArrayBytes::from_flen(flags)
}

/// The flags that are these cells of bool.
fn flags_of(alloc: Global, bools: ArrayBytes<'_>) -> Result<Vec<u8>, AllocError>
    requires { IsSome (cells type.bool (data_of bools)) }
    ensures cells { IfOk result (λ flags. cells type.bool (data_of bools.entry)
        ≡ Some (map flag_cell flags.items)) }
    ensures flags { IfOk result (λ flags. All (λ flag. flag < 2) flags.items) }
{
    let ArrayBytes::Fixed(flags) = bools else {
        unreachable!();
    };
    Ok(owned_bytes(alloc, flags)?)
}

/// How many flags are counted at a time: few enough that one byte holds their number.
const BLOCK: usize = 240;

/// How many of the flags are set.
fn count_set(flags: &[u8]) -> u64
    ensures { result ≡ count_by flag_set flags.now }
{
    let mut left = flags;
    let mut set = 0;
    while !left.is_empty() {
        let (block, rest) = left.split_at(left.len().min(BLOCK));
        set += u64::from(count_few(block));
        left = rest;
    }
    set
}

/// How many of the flags of one block are set.
fn count_few(flags: &[u8]) -> u8
    requires { length flags.now < 256 }
    ensures { result ≡ count_by flag_set flags.now }
{
    let mut set = 0;
    for flag in flags {
        if *flag != 0 {
            set += 1;
        }
    }
    set
}

/// Data of no cell.
fn no_cells<'a>(alloc: Global, data_type: &DataType) -> Result<ArrayBytes<'a>, AllocError>
    ensures { IfOk result (λ made. cells (kind data_type.now) (data_of made) ≡ Some []) }
{
    match data_type {
        DataType::Optional(inner) => {
            let data = no_cells(alloc, inner)?;
            data.with_optional_mask(alloc, CowSlice::Owned(Vec::new(alloc)))
        }
        DataType::String | DataType::Bytes => {
            let none = VariableLengthBuilder::with_capacity(alloc, 0, 0)?.finish();
            Ok(ArrayBytes::Variable(none))
        }
        _ => Ok(ArrayBytes::Fixed(CowSlice::Owned(Vec::new(alloc)))),
    }
}

/// Two byte strings behind their lengths.
fn behind_lengths(alloc: Global, mask: &[u8], body: &[u8]) -> Result<Vec<u8>, AllocError>
    ensures { IfOk result (λ made. behind_lengths mask.now body.now ≡ Some made.items) }
{
    let room = mask.len().saturating_add(body.len()).saturating_add(16);
    let mut made = Vec::with_capacity(alloc, room)?;
    made.extend_from_slice(&(mask.len() as u64).to_le_bytes())?;
    made.extend_from_slice(&(body.len() as u64).to_le_bytes())?;
    made.extend_from_slice(mask)?;
    made.extend_from_slice(body)?;
    Ok(made)
}

/// The two byte strings, if nothing follows them.
fn mask_and_data(encoded: &[u8]) -> Option<(&[u8], &[u8])>
    ensures { option_map (λ parts. (parts.0.now, parts.1.now)) result ≡ mask_and_data encoded.now }
{
    let (mask_len, rest) = encoded.split_first_chunk::<8>()?;
    let (data_len, parts) = rest.split_first_chunk::<8>()?;
    let mask_len = u64::from_le_bytes(*mask_len);
    let data_len = u64::from_le_bytes(*data_len);
    let parts_len = parts.len() as u64;
    if mask_len > parts_len || parts_len - mask_len != data_len {
        return None;
    }
    Some(parts.split_at(mask_len as usize))
}
