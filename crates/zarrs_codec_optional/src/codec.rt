//! Codecs that look at cells alone.
ghost use Rattle.std.specs.Prelude.{◌≡◌, ◌*◌, ◌<◌, ◌^◌, Some, IfOk, IfErr, IsSome};
ghost use Rattle.zarrs_data_type.specs.Kind.{kind, cell_size};
ghost use Rattle.zarrs_data_type.specs.ArrayData.{data_of};
ghost use Rattle.zarrs_data_type.specs.Cells.{cells};
ghost use Rattle.zarrs_codec_leaf.specs.Leaf.{encoding_of};
ghost use Rattle.zarrs_codec_leaf.specs.Refusals.{RefusesEncoding, RefusesDecoding};
ghost use Rattle.zarrs_codec_optional.specs.CellsCodecs.{cells_meaning};

use crate::optional::OptionalCodec;
use crate::plain::PlainCodec;
use std::alloc::Global;
use zarrs_codec_leaf::{CodecError, LeafCodec};
use zarrs_data_type::{ArrayBytes, DataType};

/// A codec that makes bytes of cells, whatever the shape of the array that they are cells of.
#[cycle(codec)]
#[derive(Debug, Drop)]
pub enum CellsCodec {
    /// A codec that holds no other codec.
    Plain(PlainCodec),
    /// Cells of an optional type: a mask, and the inner cells.
    Optional(OptionalCodec),
}

impl CellsCodec {
    /// Whether the codec takes cells of this type.
    #[cycle(takes)]
    pub(crate) fn takes(&self, data_type: &DataType) -> bool
        ensures { result ≡ (cells_meaning self.now).takes (kind data_type.now) }
    {
        match self {
            CellsCodec::Plain(codec) => codec.takes(data_type),
            CellsCodec::Optional(codec) => codec.takes(data_type),
        }
    }

    /// The bytes of the cells.
    #[cycle(encode)]
    pub(crate) fn encode(
        &self,
        alloc: Global,
        bytes: &ArrayBytes<'_>,
        data_type: &DataType,
    ) -> Result<Vec<u8>, CodecError>
        requires { IsSome (cells (kind data_type.now) (data_of bytes.now)) }
        ensures encoded { IfOk result (λ encoded.
            encoding_of (cells_meaning self.now) (kind data_type.now)
            (data_of bytes.now) ≡ Some encoded.items) }
        ensures refused { IfErr result (RefusesEncoding (cells_meaning self.now) (kind data_type.now)
            (data_of bytes.now)) }
    {
        match self {
            CellsCodec::Plain(codec) => codec.encode(alloc, bytes, data_type),
            CellsCodec::Optional(codec) => codec.encode(alloc, bytes, data_type),
        }
    }

    /// The `count` cells of the bytes.
    #[cycle(decode)]
    pub(crate) fn decode<'a>(
        &self,
        alloc: Global,
        encoded: &'a [u8],
        data_type: &DataType,
        count: u64,
    ) -> Result<ArrayBytes<'a>, CodecError>
        requires size { count * cell_size (kind data_type.now) < 2 ^ 64 }
        ensures cells { IfOk result (λ made. cells (kind data_type.now) (data_of made)
            ≡ (cells_meaning self.now).decoded (kind data_type.now) count encoded.now) }
        ensures some { IfOk result (λ made. IsSome (cells (kind data_type.now) (data_of made))) }
        ensures refused { IfErr result (RefusesDecoding (cells_meaning self.now)
            (kind data_type.now) count encoded.now) }
    {
        match self {
            CellsCodec::Plain(codec) => codec.decode(alloc, encoded, data_type, count),
            CellsCodec::Optional(codec) => codec.decode(alloc, encoded, data_type, count),
        }
    }
}
