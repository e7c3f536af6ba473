//! The codec `zarrs.vlen`.
ghost use Rattle.std.specs.Prelude.{◌≡◌, ◌/◌, ◌<◌, ◌++◌, IfOk, OnOk, length, map, option_map};
ghost use Rattle.std.specs.List.{flat_map};
ghost use Rattle.std.specs.Int.{w64, to_le_bytes, from_le_bytes};
ghost use Rattle.std.specs.Simd.{first_chunks};
ghost use Rattle.zarrs_data_type.specs.Kind.{kind, is_variable};
ghost use Rattle.zarrs_codec_leaf.specs.Vlen.{cut, indexed, split_index, unindexed};
ghost use Rattle.zarrs_codec_leaf.specs.VlenLaws.{vlen-lawful};

use crate::strings::StringsCodec;
use std::alloc::{AllocError, Global};
use std::borrow::CowSlice;
use zarrs_data_type::{ArrayBytesOffsets, ArrayBytesVariableLength, DataType};

/// Texts or byte strings: the length of the index in 8 bytes, little endian, the index, and their bytes one after
/// another. The index has the offset where each of them starts, and where the last one ends, in 8 bytes too.
#[derive(Clone, Copy, Debug, Default, Drop, PartialEq, Eq)]
pub struct VlenCodec;

impl StringsCodec for VlenCodec {
    ghost taken = { is_variable };

    ghost written = { indexed };

    ghost read = { unindexed };

    ghost variable = { λ k is. is };

    ghost lawful = { vlen-lawful };

    fn takes_type(data_type: &DataType) -> bool {
        data_type.is_variable()
    }

    fn write(
        alloc: Global,
        strings: &ArrayBytesVariableLength<'_>,
    ) -> Result<Option<Vec<u8>>, AllocError> {
        let offsets = strings.offsets().as_slice();
        let bytes = strings.bytes();
        let Some(index_len) = offsets.len().checked_mul(8) else {
            return Ok(None);
        };
        let room = index_len.saturating_add(bytes.len()).saturating_add(8);
        let mut encoded = Vec::with_capacity(alloc, room)?;
        encoded.extend_from_slice(&(index_len as u64).to_le_bytes())?;
        push_index(&mut encoded, offsets)?;
        encoded.extend_from_slice(bytes)?;
        Ok(Some(encoded))
    }

    fn read(
        alloc: Global,
        encoded: &[u8],
        count: u64,
    ) -> Result<Option<ArrayBytesVariableLength<'static>>, AllocError> {
        let Some((index, bytes)) = split_index(encoded, count) else {
            return Ok(None);
        };
        cut(alloc, offsets_in(alloc, index)?, bytes)
    }
}

/// Appends the offsets, each in 8 bytes.
fn push_index(encoded: &mut Vec<u8>, offsets: &[usize]) -> Result<(), AllocError>
    ensures { OnOk result (encoded.new.items
        ≡ encoded.old.items ++ flat_map (to_le_bytes w64) offsets.now) }
{
    for offset in offsets {
        encoded.extend_from_slice(&(*offset as u64).to_le_bytes())?;
    }
    Ok(())
}

/// The index of `count` byte strings, and what follows it, if the bytes begin with its length.
fn split_index(encoded: &[u8], count: u64) -> Option<(&[u8], &[u8])>
    ensures { option_map (λ parts. (parts.0.now, parts.1.now)) result
        ≡ split_index count encoded.now }
{
    let (head, rest) = encoded.split_first_chunk::<8>()?;
    let len = u64::from_le_bytes(*head);
    if count >= rest.len() as u64 / 8 || len != 8 * (count + 1) {
        return None;
    }
    Some(rest.split_at(len as usize))
}

/// The offsets of an index.
fn offsets_in(alloc: Global, index: &[u8]) -> Result<Vec<usize>, AllocError>
    ensures { IfOk result (λ offsets. offsets.items
        ≡ map (from_le_bytes w64) (first_chunks 8 (length index.now / 8) index.now)) }
{
    let (cells, _) = index.as_chunks::<8>();
    let mut offsets = Vec::with_capacity(alloc, cells.len())?;
    for cell in cells {
        offsets.push_reserved(u64::from_le_bytes(*cell) as usize);
    }
    Ok(offsets)
}

/// The byte strings that the offsets cut from the bytes.
fn cut(
    alloc: Global,
    offsets: Vec<usize>,
    bytes: &[u8],
) -> Result<Option<ArrayBytesVariableLength<'static>>, AllocError>
    requires { 0 < length offsets.items }
    ensures { IfOk result (λ strings. strings ≡ cut offsets.items bytes.now) }
{
    let Ok(offsets) = ArrayBytesOffsets::new(CowSlice::Owned(offsets)) else {
        return Ok(None);
    };
    let bytes = CowSlice::Owned(Vec::from_slice(alloc, bytes)?);
    Ok(ArrayBytesVariableLength::new(bytes, offsets).ok())
}
