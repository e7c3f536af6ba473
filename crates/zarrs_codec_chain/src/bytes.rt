//! Parts of chunks under the codec `bytes`.
ghost use Rattle.std.specs.Prelude.{◌≡◌, ◌↔◌, ◌*◌, ◌<◌, IfOk, IfErr, IsTrue};
ghost use Rattle.zarrs_data_type.specs.ArrayData.{data_of};
ghost use Rattle.zarrs_data_type.specs.Cells.{cells};
ghost use Rattle.zarrs_codec_leaf.specs.Bytes.{bytes_meaning_of, endian_of};
ghost use Rattle.zarrs_subset.specs.Boxes.{position_count};
ghost use Rattle.zarrs_subset.specs.Regions.{LiesInShape, box_of};
ghost use Rattle.zarrs_data_type.specs.Kind.{kind};
ghost use Rattle.zarrs_codec_chain.specs.Parts.{DecodesPart};
ghost use Rattle.zarrs_codec_chain.specs.Places.{cell_places};
ghost use Rattle.zarrs_codec_chain.specs.PartRefusals.{RefusesPartDecoding};
ghost use Rattle.zarrs_codec_chain.specs.Stored.{MayReadOf, bytes_of, refuses_of};

use crate::error::PartError;
use crate::stored::Stored;
use std::alloc::Global;
use zarrs_codec_leaf::{ByteSource, BytesCodec, CodecError, LeafCodec, Misfit, read_box};
use zarrs_data_type::{ArrayBytes, DataType};
use zarrs_subset::{ArraySubset, element_count};

/// The cells of a part of a chunk that is stored as these bytes.
///
/// If the source does not lend its bytes, one range is read for each run of cells that stand together: a row of the
/// part, or more if its last dimensions are whole. They are copied once, and then turned round if the codec asks it.
///
/// # Errors
/// `DoesNotFit` if the codec does not take the type, if they are not as many as the cells of the chunk take, or if the
/// bytes of the part are no values of the type; what the source says if it refuses. `OutOfMemory` may come at any time.
pub fn partial_decode_bytes<B: ByteSource>(
    codec: &BytesCodec,
    alloc: Global,
    stored: &Stored<'_, B>,
    part: &ArraySubset,
    data_type: &DataType,
    shape: &[u64],
) -> Result<ArrayBytes<'static>, PartError>
    requires part { LiesInShape (box_of part.now) shape.now }
    requires may_read { MayReadOf stored.now (cell_places (kind data_type.now) shape.now
        (box_of part.now) (bytes_of stored.now)) }
    ensures part { IfOk result (λ made. DecodesPart (kind data_type.now) shape.now (box_of part.now)
        ((bytes_meaning_of (endian_of codec.now)).decoded (kind data_type.now)
        (position_count shape.now) (bytes_of stored.now)) (data_of made)) }
    ensures whole { (box_of part.now).shape ≡ shape.now → IfOk result (λ made.
        cells (kind data_type.now) (data_of made) ≡ (bytes_meaning_of (endian_of codec.now)).decoded
        (kind data_type.now) (position_count shape.now)
        (bytes_of stored.now)) }
    ensures refused { IfErr result (RefusesPartDecoding
        ((bytes_meaning_of (endian_of codec.now)).decoded (kind data_type.now)
        (position_count shape.now) (bytes_of stored.now)) ⊥
        (refuses_of stored.now)) }
{
    if !codec.takes(data_type) {
        return Err(PartError::Codec(CodecError::DoesNotFit(Misfit::TypeOrShape)));
    }
    let Some(size) = data_type.element_size() else {
        unreachable!()
    };
    if !is_length_of(stored.window.len, shape, size) {
        return Err(PartError::Codec(CodecError::DoesNotFit(Misfit::Bytes)));
    }
    let Ok(count) = part.num_elements() else {
        unreachable!()
    };
    let encoded = read_box(
        alloc,
        stored.source,
        stored.window,
        shape,
        part,
        size as u64,
    )?;
    Ok(codec.decode_owned(alloc, encoded, data_type, count)?)
}

/// Whether the cells of a chunk of this shape, each of this size, have so many bytes.
pub(crate) fn is_length_of(len: u64, shape: &[u64], size: usize) -> bool
    requires { 0 < size }
    ensures { IsTrue result ↔ (len ≡ position_count shape.now * size) }
{
    match element_count(shape) {
        Some(count) => is_size_of(len, count, size),
        None => false,
    }
}

/// Whether so many cells of this size have so many bytes.
fn is_size_of(len: u64, count: u64, size: usize) -> bool
    ensures { IsTrue result ↔ (len ≡ count * size) }
{
    count.checked_mul(size as u64) == Some(len)
}
