//! Parts of chunks, decoded from sources of bytes.
use crate::array_layout::ArrayLayout;
use std::alloc::Global;
use zarrs_chunk_grid::ChunkGridTraits;
use zarrs_codec_chain::ChainTraits;
use zarrs_codec_leaf::{ByteSource, Window};
use zarrs_data_type::{ArrayBytes, ArrayBytesDecodeIntoTarget, ChunkType};
use zarrs_engine_calls::ArrayError;
use zarrs_keys::ChunkKeyEncodingTraits;
use zarrs_subset::ArraySubset;

impl<G: ChunkGridTraits, K: ChunkKeyEncodingTraits, C: ChainTraits> ArrayLayout<G, K, C> {
    ghost use Rattle.std.specs.Prelude.{◌≡◌, ◌<◌, ℕ, true, false, IfOk, IfErr, IsSome, OnOk};
    ghost use Rattle.zarrs_subset.specs.Regions.{box_at_origin, box_of, LiesInShape};
    ghost use Rattle.zarrs_data_type.specs.ArrayData.{data_of};
    ghost use Rattle.zarrs_data_type.specs.States.{KeepsTarget, data_of_target};
    ghost use Rattle.zarrs_data_type.specs.States.{parent_box, target_box};
    ghost use Rattle.zarrs_data_type.specs.Targets.{takes_type};
    ghost use Rattle.zarrs_codec_chain.specs.Parts.{DecodesPart, DecodesPartAt};
    ghost use Rattle.zarrs_engine_calls.specs.Content.{decoded_cells};
    ghost use Rattle.zarrs_engine_calls.specs.Refusals.{is_too_large, refusal_of};
    ghost use Rattle.zarrs_engine_layout.specs.Layouts.{layout_meaning};
    ghost use Rattle.zarrs_engine_layout.specs.Steps.{RefusesPartBytes};

    /// Returns the cells of a part of a chunk of this shape, whose bytes are those of the source. The part is seen from
    /// the origin of the chunk. No other bytes are read than those that the part needs.
    ///
    /// # Errors
    /// One of these: E4 if the bytes do not decode, though a part smaller than the chunk may still be read; E7 if the
    /// source refuses; E8 if what the chain decodes whole for the part, the chunk or a subchunk that the part meets, has
    /// more bytes than a `usize` counts, or so has its fill where its bytes leave out cells. E9 may come at any time.
    pub fn decode_part<B: ByteSource>(
        &self,
        alloc: Global,
        shape: &[u64],
        source: &B,
        part: &ArraySubset,
    ) -> Result<ArrayBytes<'static>, ArrayError>
        requires size { is_too_large (layout_meaning self.now) (box_of part.now).shape ≡ false }
        requires part { LiesInShape (box_of part.now) shape.now }
        requires may_read { (place : ℕ) → (layout_meaning self.now).chain.places
            (layout_meaning self.now).kind shape.now (box_of part.now)
            (B.bytes source.now) place ≡ true → B.may_read source.now place ≡ true }
        ensures cells { IfOk result (λ made. DecodesPart (layout_meaning self.now).kind
            shape.now (box_of part.now) (decoded_cells (layout_meaning self.now)
            (box_at_origin shape.now) (B.bytes source.now)) (data_of made)) }
        ensures whole { (box_of part.now).shape ≡ shape.now → IfOk result (λ _. IsSome
            (decoded_cells (layout_meaning self.now) (box_at_origin shape.now)
            (B.bytes source.now))) }
        ensures refused { IfErr result (λ e. RefusesPartBytes (layout_meaning self.now)
            (box_at_origin shape.now) (box_of part.now) (B.bytes source.now)
            (B.refuses source.now) (refusal_of e)) }
    {
        let whole = Window {
            offset: 0,
            len: source.size(),
        };
        let chunk = ChunkType {
            cell_type: &self.cell_type,
            shape,
        };
        let data = self
            .chain
            .partial_decode(alloc, source, whole, part, &chunk)?;
        Ok(data)
    }

    /// Decodes a part of a chunk of this shape, whose bytes are those of the source, into the target's box, which has the
    /// part's shape. The part is seen from the origin of the chunk. No other bytes are read than those that the part needs.
    /// Every byte outside the target's box stays; after a refusal the inside is open.
    ///
    /// # Errors
    /// Those of `decode_part`.
    pub fn decode_part_into<B: ByteSource>(
        &self,
        alloc: Global,
        shape: &[u64],
        source: &B,
        part: &ArraySubset,
        target: &mut ArrayBytesDecodeIntoTarget<'_, '_, '_>,
    ) -> Result<(), ArrayError>
        requires part { LiesInShape (box_of part.now) shape.now }
        requires may_read { (place : ℕ) → (layout_meaning self.now).chain.places
            (layout_meaning self.now).kind shape.now (box_of part.now)
            (B.bytes source.now) place ≡ true → B.may_read source.now place ≡ true }
        requires takes { takes_type target.old.cell_size target.old.depth
            (layout_meaning self.now).kind ≡ true }
        requires same_shape { (target_box target.old).shape ≡ (box_of part.now).shape }
        ensures kept { KeepsTarget target.old target.new }
        ensures cells { OnOk result (DecodesPartAt (layout_meaning self.now).kind
            shape.now (box_of part.now) (decoded_cells (layout_meaning self.now)
            (box_at_origin shape.now) (B.bytes source.now)) (parent_box target.old)
            (target_box target.old) (data_of_target target.new)) }
        ensures whole { (box_of part.now).shape ≡ shape.now → OnOk result (IsSome
            (decoded_cells (layout_meaning self.now) (box_at_origin shape.now)
            (B.bytes source.now))) }
        ensures refused { IfErr result (λ e. RefusesPartBytes (layout_meaning self.now)
            (box_at_origin shape.now) (box_of part.now) (B.bytes source.now)
            (B.refuses source.now) (refusal_of e)) }
    {
        let whole = Window {
            offset: 0,
            len: source.size(),
        };
        let chunk = ChunkType {
            cell_type: &self.cell_type,
            shape,
        };
        self.chain
            .partial_decode_into(alloc, source, whole, part, &chunk, target)?;
        Ok(())
    }
}
