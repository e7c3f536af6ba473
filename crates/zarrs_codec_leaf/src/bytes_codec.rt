//! The codec `bytes` (Zarr V3 core specification, "bytes codec").
ghost use Rattle.std.specs.Prelude.{◌≡◌, ◌/◌, ℕ, true, false, Some, IfOk, IfErr, IsSome, length};
ghost use Rattle.std.specs.Prelude.{reverse};
ghost use Rattle.std.specs.Cow.{cow_slice_items};
ghost use Rattle.std.specs.List.{flat_map};
ghost use Rattle.std.specs.Simd.{first_chunks};
ghost use Rattle.zarrs_data_type.specs.ArrayData.{data_of};
ghost use Rattle.zarrs_data_type.specs.Cells.{cells};
ghost use Rattle.zarrs_data_type.specs.Kind.{kind, element_size};
ghost use Rattle.zarrs_codec_leaf.specs.Bytes.{bytes_meaning_of, has_byte_order, reverses, endian_of};
ghost use Rattle.zarrs_codec_leaf.specs.BytesLaws.{bytes-lawful};
ghost use Rattle.zarrs_codec_leaf.specs.declared.bytes_codec.Endianness.TheVariants.{Little, Big};
ghost use Rattle.zarrs_codec_leaf.specs.Refusals.{RefusesEncoding, RefusesDecoding};
ghost use Rattle.zarrs_codec_leaf.specs.Leaf.{encoding_of};

use crate::codec::LeafCodec;
use crate::error::{CodecError, Misfit};
use std::alloc::{AllocError, Global};
use std::borrow::CowSlice;
use zarrs_data_type::{ArrayBytes, DataType, Writing, owned_bytes, written};

/// The order of the bytes of a number.
#[derive(Clone, Copy, Debug, Drop, PartialEq, Eq)]
pub enum Endianness {
    /// The lowest byte first.
    Little,
    /// The highest byte first.
    Big,
}

/// Elements of a type that is fixed and not optional, one after another. Without an endian it takes only types that
/// have no numbers of more than one byte.
#[derive(Clone, Copy, Debug, Drop, PartialEq, Eq)]
pub struct BytesCodec {
    endian: Option<Endianness>,
}

impl BytesCodec {
    /// The codec of this endian, or of none.
    pub fn new(endian: Option<Endianness>) -> BytesCodec
        ensures { endian_of result ≡ endian }
    {
        BytesCodec { endian }
    }

    /// The codec that writes the lowest byte of a number first.
    pub fn little() -> BytesCodec
        ensures { endian_of result ≡ Some Little }
    {
        BytesCodec::new(Some(Endianness::Little))
    }

    /// The codec that writes the highest byte of a number first.
    pub fn big() -> BytesCodec
        ensures { endian_of result ≡ Some Big }
    {
        BytesCodec::new(Some(Endianness::Big))
    }

    /// The endian, if there is one.
    pub fn endian(&self) -> Option<Endianness>
        ensures { result ≡ endian_of self.now }
    {
        self.endian
    }

    /// The bytes of the cells, which are given away. Owned bytes that are in the codec's order already are not copied.
    ///
    /// # Errors
    /// Those of `encode`.
    pub fn encode_owned(
        &self,
        alloc: Global,
        bytes: ArrayBytes<'_>,
        data_type: &DataType,
    ) -> Result<Vec<u8>, CodecError>
        requires { IsSome (cells (kind data_type.now) (data_of bytes)) }
        ensures encoded { IfOk result (λ encoded.
            encoding_of (bytes_meaning_of (endian_of self.now)) (kind data_type.now)
            (data_of bytes.entry) ≡ Some encoded.items) }
        ensures refused { IfErr result (RefusesEncoding (bytes_meaning_of (endian_of self.now))
            (kind data_type.now) (data_of bytes.entry)) }
    {
        if self.reverses(data_type) {
            return self.encode(alloc, &bytes, data_type);
        }
        if !self.takes(data_type) {
            return Err(CodecError::DoesNotFit(Misfit::TypeOrShape));
        }
        let Ok(bytes) = bytes.into_fixed() else {
            return Err(CodecError::DoesNotFit(Misfit::NoValue));
        };
        Ok(owned_bytes(alloc, bytes)?)
    }

    /// The `count` cells of the bytes, which are given away. Bytes that are in the codec's order already are not copied.
    ///
    /// # Errors
    /// Those of `decode`.
    pub fn decode_owned(
        &self,
        alloc: Global,
        encoded: Vec<u8>,
        data_type: &DataType,
        count: u64,
    ) -> Result<ArrayBytes<'static>, CodecError>
        ensures cells { IfOk result (λ made. cells (kind data_type.now) (data_of made)
            ≡ (bytes_meaning_of (endian_of self.now)).decoded (kind data_type.now) count
            encoded.items) }
        ensures some { IfOk result (λ made. IsSome (cells (kind data_type.now) (data_of made))) }
        ensures refused { IfErr result (RefusesDecoding (bytes_meaning_of (endian_of self.now))
            (kind data_type.now) count encoded.items) }
    {
        if self.reverses(data_type) {
            return self.decode_copied(alloc, &encoded, data_type, count);
        }
        if !self.takes(data_type) {
            return Err(CodecError::DoesNotFit(Misfit::TypeOrShape));
        }
        let data = ArrayBytes::new_flen(encoded);
        if !data.validate(data_type, count) {
            return Err(CodecError::DoesNotFit(Misfit::Bytes));
        }
        Ok(data)
    }

    /// The `count` cells of the bytes, owned.
    fn decode_copied(
        &self,
        alloc: Global,
        encoded: &[u8],
        data_type: &DataType,
        count: u64,
    ) -> Result<ArrayBytes<'static>, CodecError>
        ensures cells { IfOk result (λ made. cells (kind data_type.now) (data_of made)
            ≡ (bytes_meaning_of (endian_of self.now)).decoded (kind data_type.now) count
            encoded.now) }
        ensures some { IfOk result (λ made. IsSome (cells (kind data_type.now) (data_of made))) }
        ensures refused { IfErr result (RefusesDecoding (bytes_meaning_of (endian_of self.now))
            (kind data_type.now) count encoded.now) }
    {
        let data = self.decode(alloc, encoded, data_type, count)?;
        Ok(data.into_owned(alloc)?)
    }

    /// Whether the bytes of each cell of a type are put in reverse.
    fn reverses(&self, data_type: &DataType) -> bool
        ensures { result ≡ reverses (endian_of self.now) (kind data_type.now) }
    {
        match self.endian {
            Some(Endianness::Big) => has_byte_order(data_type),
            Some(Endianness::Little) | None => false,
        }
    }

    /// The bytes of cells with those of each number in the codec's order, or back from it.
    fn ordered<'a>(
        &self,
        alloc: Global,
        bytes: &'a [u8],
        data_type: &DataType,
    ) -> Result<CowSlice<'a, u8>, AllocError>
        ensures kept { reverses (endian_of self.now) (kind data_type.now) ≡ false
            → IfOk result (λ ordered. cow_slice_items ordered ≡ bytes.now) }
        ensures reversed { reverses (endian_of self.now) (kind data_type.now) ≡ true
            → (size : ℕ) → element_size (kind data_type.now) ≡ Some size
            → IfOk result (λ ordered. cow_slice_items ordered
            ≡ flat_map reverse (first_chunks size (length bytes.now / size) bytes.now)) }
    {
        let reversed = match (self.endian, data_type) {
            (Some(Endianness::Big), DataType::Int16 | DataType::UInt16) => {
                written::<Reversed, [u8; 2], 2>(alloc, bytes.as_chunks::<2>().0)?
            }
            (Some(Endianness::Big), DataType::Int32 | DataType::UInt32) => {
                written::<Reversed, [u8; 4], 4>(alloc, bytes.as_chunks::<4>().0)?
            }
            (Some(Endianness::Big), DataType::Int64 | DataType::UInt64) => {
                written::<Reversed, [u8; 8], 8>(alloc, bytes.as_chunks::<8>().0)?
            }
            _ => return Ok(CowSlice::Borrowed(bytes)),
        };
        Ok(CowSlice::Owned(reversed))
    }
}

impl LeafCodec for BytesCodec {
    ghost meaning = { λ codec. bytes_meaning_of (endian_of codec) };

    fn takes(&self, data_type: &DataType) -> bool {
        data_type.element_size().is_some() && (self.endian.is_some() || !has_byte_order(data_type))
    }

    fn encode(
        &self,
        alloc: Global,
        bytes: &ArrayBytes<'_>,
        data_type: &DataType,
    ) -> Result<Vec<u8>, CodecError> {
        if !self.takes(data_type) {
            return Err(CodecError::DoesNotFit(Misfit::TypeOrShape));
        }
        match bytes {
            ArrayBytes::Fixed(bytes) => {
                let ordered = self.ordered(alloc, bytes.as_slice(), data_type)?;
                Ok(owned_bytes(alloc, ordered)?)
            }
            ArrayBytes::Variable(_) => Err(CodecError::DoesNotFit(Misfit::NoValue)),
            ArrayBytes::Optional(_) => Err(CodecError::DoesNotFit(Misfit::NoValue)),
        }
    }

    fn decode<'a>(
        &self,
        alloc: Global,
        encoded: &'a [u8],
        data_type: &DataType,
        count: u64,
    ) -> Result<ArrayBytes<'a>, CodecError> {
        if !self.takes(data_type) {
            return Err(CodecError::DoesNotFit(Misfit::TypeOrShape));
        }
        let data = ArrayBytes::from_flen(encoded);
        if !data.validate(data_type, count) {
            return Err(CodecError::DoesNotFit(Misfit::Bytes));
        }
        Ok(ArrayBytes::Fixed(self.ordered(alloc, encoded, data_type)?))
    }

    ghost lawful = { λ codec. bytes-lawful (endian_of codec) };
}

/// Whether the cells of a type are numbers of more than one byte.
fn has_byte_order(data_type: &DataType) -> bool
    ensures { result ≡ has_byte_order (kind data_type.now) }
{
    matches!(
        data_type,
        DataType::Int16
            | DataType::Int32
            | DataType::Int64
            | DataType::UInt16
            | DataType::UInt32
            | DataType::UInt64
    )
}

/// The bytes of a number in reverse.
struct Reversed;

impl Writing<[u8; 2], 2> for Reversed {
    ghost written = { reverse };

    fn write(cell: &[u8; 2]) -> [u8; 2] {
        u16::from_le_bytes(*cell).to_be_bytes()
    }
}

impl Writing<[u8; 4], 4> for Reversed {
    ghost written = { reverse };

    fn write(cell: &[u8; 4]) -> [u8; 4] {
        u32::from_le_bytes(*cell).to_be_bytes()
    }
}

impl Writing<[u8; 8], 8> for Reversed {
    ghost written = { reverse };

    fn write(cell: &[u8; 8]) -> [u8; 8] {
        u64::from_le_bytes(*cell).to_be_bytes()
    }
}
