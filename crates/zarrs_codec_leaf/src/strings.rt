//! Codecs of texts and byte strings, by what they write for a list of byte strings.
ghost use Rattle.std.specs.Prelude.{◌≡◌, ℕ, Bool, List, Option, Some, true, IfOk, IfErr, IsSome};
ghost use Rattle.std.specs.Prelude.{option_map};
ghost use Rattle.zarrs_data_type.specs.ArrayData.{data_of};
ghost use Rattle.zarrs_data_type.specs.Cells.{cells};
ghost use Rattle.zarrs_data_type.specs.Kind.{Kind, kind, is_variable};
ghost use Rattle.zarrs_codec_leaf.specs.Leaf.{IsLawfulLeaf, encoding_of};
ghost use Rattle.zarrs_codec_leaf.specs.Refusals.{RefusesEncoding, RefusesDecoding};
ghost use Rattle.zarrs_codec_leaf.specs.Strings.{strings_meaning};

use crate::codec::LeafCodec;
use crate::error::{CodecError, Misfit};
use std::alloc::{AllocError, Global};
use zarrs_data_type::{ArrayBytes, ArrayBytesVariableLength, DataType};

/// A codec of texts or byte strings. It is a `LeafCodec` by that.
pub trait StringsCodec {
    /// The types that it takes.
    ghost taken: { Kind → Bool };

    /// The bytes of byte strings, if each size fits its field.
    ghost written: { List (List ℕ) → Option (List ℕ) };

    /// So many byte strings, if the bytes are those of as many.
    ghost read: { ℕ → List ℕ → Option (List (List ℕ)) };

    /// Only texts and byte strings are taken.
    ghost variable: { (k : Kind) → taken k ≡ true → is_variable k ≡ true };

    /// Reading returns what was written.
    ghost lawful: { IsLawfulLeaf (strings_meaning taken written read) };

    /// Whether the codec takes cells of this type.
    fn takes_type(data_type: &DataType) -> bool
        ensures { result ≡ taken (kind data_type.now) };

    /// The bytes of byte strings, or `None` if a size does not fit its field.
    ///
    /// # Errors
    /// `AllocError`: out of memory.
    fn write(
        alloc: Global,
        strings: &ArrayBytesVariableLength<'_>,
    ) -> Result<Option<Vec<u8>>, AllocError>
        ensures { IfOk result (λ made.
            option_map (λ encoded. encoded.items) made ≡ written strings.now) };

    /// The `count` byte strings of the bytes, if they are those of as many.
    ///
    /// # Errors
    /// `AllocError`: out of memory.
    fn read(
        alloc: Global,
        encoded: &[u8],
        count: u64,
    ) -> Result<Option<ArrayBytesVariableLength<'static>>, AllocError>
        ensures { IfOk result (λ strings. strings ≡ read count encoded.now) };
}

impl<C: StringsCodec> LeafCodec for C {
    ghost meaning = { λ _. strings_meaning C.StringsCodec.taken C.StringsCodec.written C.StringsCodec.read };

    fn takes(&self, data_type: &DataType) -> bool {
        C::takes_type(data_type)
    }

    fn encode(
        &self,
        alloc: Global,
        bytes: &ArrayBytes<'_>,
        data_type: &DataType,
    ) -> Result<Vec<u8>, CodecError> {
        if !C::takes_type(data_type) {
            return Err(CodecError::DoesNotFit(Misfit::TypeOrShape));
        }
        match bytes {
            ArrayBytes::Variable(strings) => {
                match C::write(alloc, strings)? {
                    Some(encoded) => Ok(encoded),
                    None => Err(CodecError::SizeOverflow),
                }
            }
            ArrayBytes::Fixed(_) => Err(CodecError::DoesNotFit(Misfit::NoValue)),
            ArrayBytes::Optional(_) => Err(CodecError::DoesNotFit(Misfit::NoValue)),
        }
    }

    fn decode<'a>(
        &self,
        alloc: Global,
        encoded: &'a [u8],
        data_type: &DataType,
        count: u64,
    ) -> Result<ArrayBytes<'a>, CodecError> {
        if !C::takes_type(data_type) {
            return Err(CodecError::DoesNotFit(Misfit::TypeOrShape));
        }
        let Some(strings) = C::read(alloc, encoded, count)? else {
            return Err(CodecError::DoesNotFit(Misfit::Bytes));
        };
        let data = ArrayBytes::Variable(strings);
        if !data.validate(data_type, count) {
            return Err(CodecError::DoesNotFit(Misfit::Bytes));
        }
        Ok(data)
    }

    ghost lawful = { λ _. C.StringsCodec.lawful };
}
