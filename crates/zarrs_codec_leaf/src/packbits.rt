//! The codec `packbits`.
ghost use Rattle.std.specs.Prelude.{◌≡◌, ◌<◌, ◌^◌, All, Some, IfOk, IfErr, IsSome, length};
ghost use Rattle.zarrs_data_type.specs.ArrayData.{data_of};
ghost use Rattle.zarrs_data_type.specs.Cells.{cells};
ghost use Rattle.zarrs_data_type.specs.Kind.{kind};
ghost use Rattle.zarrs_codec_leaf.specs.PackBits.{are_zero, byte_bits, packbits_meaning, packed, packed_byte};
ghost use Rattle.zarrs_codec_leaf.specs.PackBitsLaws.{packbits-lawful};
ghost use Rattle.zarrs_codec_leaf.specs.Refusals.{RefusesEncoding, RefusesDecoding};
ghost use Rattle.zarrs_codec_leaf.specs.Leaf.{encoding_of};

use crate::codec::LeafCodec;
use crate::error::{CodecError, Misfit};
use std::alloc::{AllocError, Global};
use std::borrow::CowSlice;
use zarrs_data_type::{ArrayBytes, DataType, Writing, written};

/// Bools, eight to a byte, the first in the lowest bit. The bits after the last bool are 0.
#[derive(Clone, Copy, Debug, Default, Drop, PartialEq, Eq)]
pub struct PackBitsCodec;

impl LeafCodec for PackBitsCodec {
    ghost meaning = { λ _. packbits_meaning };

    fn takes(&self, data_type: &DataType) -> bool {
        matches!(data_type, DataType::Bool)
    }

    fn encode(
        &self,
        alloc: Global,
        bytes: &ArrayBytes<'_>,
        data_type: &DataType,
    ) -> Result<Vec<u8>, CodecError> {
        if !self.takes(data_type) {
            return Err(CodecError::DoesNotFit(Misfit::TypeOrShape));
        }
        match bytes {
            ArrayBytes::Fixed(bytes) => Ok(packed(alloc, bytes.as_slice())?),
            ArrayBytes::Variable(_) => Err(CodecError::DoesNotFit(Misfit::NoValue)),
            ArrayBytes::Optional(_) => Err(CodecError::DoesNotFit(Misfit::NoValue)),
        }
    }

    fn decode<'a>(
        &self,
        alloc: Global,
        encoded: &'a [u8],
        data_type: &DataType,
        count: u64,
    ) -> Result<ArrayBytes<'a>, CodecError> {
        if !self.takes(data_type) {
            return Err(CodecError::DoesNotFit(Misfit::TypeOrShape));
        }
        if encoded.len() as u64 != count.div_ceil(8) {
            return Err(CodecError::DoesNotFit(Misfit::Bytes));
        }
        let mut flags = written::<Bits, u8, 8>(alloc, encoded)?;
        let (_, padding) = flags.as_slice().split_at(count as usize);
        if !are_zero(padding) {
            return Err(CodecError::DoesNotFit(Misfit::Bytes));
        }
        flags.truncate(count as usize);
        Ok(ArrayBytes::Fixed(CowSlice::Owned(flags)))
    }

    ghost lawful = { λ _. packbits-lawful };
}

/// The flags, eight to a byte.
fn packed(alloc: Global, flags: &[u8]) -> Result<Vec<u8>, AllocError>
    requires { All (λ flag. flag < 2) flags.now }
    ensures { IfOk result (λ made. made.items ≡ packed flags.now) }
{
    let (whole, rest) = flags.as_chunks::<8>();
    let mut bytes = Vec::with_capacity(alloc, flags.len().div_ceil(8))?;
    for eight in whole {
        bytes.push_reserved(packed_eight(eight));
    }
    if rest.is_empty() {
        return Ok(bytes);
    }
    bytes.push(packed_byte(rest))?;
    Ok(bytes)
}

/// Eight flags, one to a byte of a word, times this have their byte as the highest one.
const GATHERING: u64 = 0x0102_0408_1020_4080;

/// The byte of eight flags.
fn packed_eight(flags: &[u8; 8]) -> u8
    requires { All (λ flag. flag < 2) flags.now }
    ensures { result ≡ packed_byte flags.now }
{
    (u64::from_le_bytes(*flags).wrapping_mul(GATHERING) >> 56) as u8
}

/// The byte of at most eight flags.
fn packed_byte(flags: &[u8]) -> u8
    requires flags { All (λ flag. flag < 2) flags.now }
    requires few { length flags.now < 9 }
    ensures byte { result ≡ packed_byte flags.now }
    ensures small { result < 2 ^ length flags.now }
{
    match flags {
        [] => 0,
        [flag, rest @ ..] => *flag + 2 * packed_byte(rest),
    }
}

/// Seven bits times this are copied to each seventh bit, so that bit `i` is bit `8 * i` too.
const SPREADING: u64 = 0x0002_0408_1020_4081;

/// The lowest bit of each byte.
const LOWEST_BITS: u64 = 0x0101_0101_0101_0101;

/// The bits of a byte, the lowest first.
struct Bits;

impl Writing<u8, 8> for Bits {
    ghost written = { byte_bits };

    fn write(byte: &u8) -> [u8; 8] {
        let byte = *byte as u64;
        let low = (byte % 128) * SPREADING & LOWEST_BITS;
        (low | ((byte / 128) << 56)).to_le_bytes()
    }
}

fn are_zero(bits: &[u8]) -> bool
    ensures { result ≡ are_zero bits.now }
{
    bits.iter().all(|bit| *bit == 0)
}
