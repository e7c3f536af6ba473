//! What a codec is that looks at cells alone.
ghost use Rattle.std.specs.Prelude.{◌≡◌, Some, IfOk, IfErr, IsSome};
ghost use Rattle.zarrs_data_type.specs.ArrayData.{data_of};
ghost use Rattle.zarrs_data_type.specs.Cells.{cells};
ghost use Rattle.zarrs_data_type.specs.Kind.{kind};
ghost use Rattle.zarrs_codec_leaf.specs.Leaf.{IsLawfulLeaf, LeafMeaning, encoding_of};
ghost use Rattle.zarrs_codec_leaf.specs.Refusals.{RefusesDecoding, RefusesEncoding};

use crate::error::CodecError;
use std::alloc::Global;
use zarrs_data_type::{ArrayBytes, DataType};

/// A codec that makes bytes of cells and cells of bytes, whatever the shape of the chunk that the cells are of.
pub trait LeafCodec {
    /// Which bytes stand for which cells.
    ghost meaning: { Self → LeafMeaning };

    /// Whether the codec takes cells of this type.
    fn takes(&self, data_type: &DataType) -> bool
        ensures { result ≡ (meaning self.now).takes (kind data_type.now) };

    /// The bytes of the cells.
    ///
    /// # Errors
    /// In this order: `DoesNotFit` if the codec does not take the type; `SizeOverflow` if a number or a length does not
    /// fit its field. `OutOfMemory` may come at any time.
    fn encode(
        &self,
        alloc: Global,
        bytes: &ArrayBytes<'_>,
        data_type: &DataType,
    ) -> Result<Vec<u8>, CodecError>
        requires { IsSome (cells (kind data_type.now) (data_of bytes.now)) }
        ensures encoded { IfOk result (λ encoded. encoding_of (meaning self.now)
            (kind data_type.now) (data_of bytes.now) ≡ Some encoded.items) }
        ensures refused { IfErr result (RefusesEncoding (meaning self.now) (kind data_type.now)
            (data_of bytes.now)) };

    /// The `count` cells of the bytes. They may be lent by these bytes.
    ///
    /// # Errors
    /// `DoesNotFit` if the codec does not take the type, or if the bytes are not those of `count` cells of it.
    /// `OutOfMemory` may come at any time.
    fn decode<'a>(
        &self,
        alloc: Global,
        encoded: &'a [u8],
        data_type: &DataType,
        count: u64,
    ) -> Result<ArrayBytes<'a>, CodecError>
        ensures cells { IfOk result (λ made. cells (kind data_type.now) (data_of made)
            ≡ (meaning self.now).decoded (kind data_type.now) count encoded.now) }
        ensures some { IfOk result (λ made. IsSome (cells (kind data_type.now) (data_of made))) }
        ensures refused { IfErr result (RefusesDecoding (meaning self.now) (kind data_type.now)
            count encoded.now) };

    /// Decoding returns what was encoded.
    ghost lawful: { (codec : Self) → IsLawfulLeaf (meaning codec) };
}
