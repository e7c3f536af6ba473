//! Reads of regions into boxes that callers lend.
use super::Engine;
use std::alloc::Global;
use zarrs_chunk_grid::ChunkGridTraits;
use zarrs_codec_chain::ChainTraits;
use zarrs_codec_leaf::{CodecError, Misfit, StoredValue};
use zarrs_data_type::{ArrayBytesDecodeIntoTarget, CellType, copy_fill_value_into};
use zarrs_engine_calls::ArrayError;
use zarrs_engine_layout::{ArrayLayout, ChunkShare, covers_chunk};
use zarrs_keys::ChunkKeyEncodingTraits;
use zarrs_storage::ReadableStorageTraits;
use zarrs_subset::ArraySubset;

impl<
    S: ReadableStorageTraits,
    G: ChunkGridTraits,
    K: ChunkKeyEncodingTraits,
    C: ChainTraits,
> Engine<S, G, K, C> {
    ghost use Rattle.std.specs.Prelude.{◌≡◌, [], true, IfErr, None, OnOk, length};
    ghost use Rattle.zarrs_chunk_grid.specs.Grids.{box_at, has_box};
    ghost use Rattle.zarrs_subset.specs.Regions.{LiesInBox, box_of, positions};
    ghost use Rattle.zarrs_engine_calls.specs.Content.{value_at};
    ghost use Rattle.zarrs_engine_calls.specs.Reach.{MayAskChunk, MayDecodePart, MayReadPart};
    ghost use Rattle.zarrs_engine_calls.specs.ChunkBoxes.{chunk_part};
    ghost use Rattle.zarrs_engine_calls.specs.Refusals.{RefusesBy, refusal_of};
    ghost use Rattle.zarrs_engine_calls.specs.StateRefusals.{IsPart, RefusesSomeChunk};
    ghost use Rattle.zarrs_data_type.specs.States.{KeepsTarget, data_of_target};
    ghost use Rattle.zarrs_data_type.specs.States.{parent_box, target_box};
    ghost use Rattle.zarrs_engine.specs.Engine.{layout_of, store_of};
    ghost use Rattle.zarrs_engine.specs.Outcomes.{MayRetrieveRegion};
    ghost use Rattle.zarrs_engine.specs.Into.{RetrievesIntoOrRefuses, target_refusal};
    ghost use Rattle.zarrs_engine.specs.RegionReads.{MayReadOver};
    ghost use Rattle.zarrs_engine.specs.TargetReads.{HasFillElsewhere, HasReadInto, ReadsChunkInto};
    ghost use Rattle.zarrs_engine.specs.TargetReads.{TakesRegion};

    /// Reads the region into the target's box, where its cells stand in row-major order. Every byte outside the box
    /// stays.
    ///
    /// # Errors
    /// In this order: E1 for another number of dimensions; E4 for a target of another cell size or depth than the data
    /// type's, of which a variable type has none; E6 for a box of another shape than the region's; E1 for a position
    /// that no chunk covers; then as `retrieve_array_subset`. E9 may come at any time. What the arguments decide is
    /// refused before a byte is written; after another refusal the inside of the box is open.
    #[tactic(auto, using(zarrs_data_type_region::proofs::Kept::keeps_itself))]
    pub fn retrieve_array_subset_into(
        &self,
        alloc: Global,
        array_subset: &ArraySubset,
        target: &mut ArrayBytesDecodeIntoTarget<'_, '_, '_>,
    ) -> Result<(), ArrayError>
        requires { MayRetrieveRegion S.state (box_of array_subset.now) self.now }
        ensures { RetrievesIntoOrRefuses S.state (box_of array_subset.now) self.now target.old
            target.new result }
    {
        self.check_target(alloc, array_subset, target)?;
        let chunks = self.layout.chunks_met(alloc, array_subset)?;
        self.read_into(alloc, array_subset, &chunks, target, false)
    }

    /// Refuses a region of another number of dimensions, and a target that takes no cells of it.
    ///
    /// # Errors
    /// E1, E4 and E6, in this order. E9 may come at any time.
    fn check_target(
        &self,
        alloc: Global,
        region: &ArraySubset,
        target: &ArrayBytesDecodeIntoTarget<'_, '_, '_>,
    ) -> Result<(), ArrayError>
        ensures dimensions { OnOk result (length (box_of region.now).start
            ≡ (layout_of self.now).grid.dimensions) }
        ensures target { OnOk result (TakesRegion (layout_of self.now) (box_of region.now)
            target.now) }
        ensures refused { IfErr result (λ e. RefusesBy (target_refusal (layout_of self.now)
            (G.array_extents self.now.layout.grid) (box_of region.now) target.now) (refusal_of e)) }
    {
        if region.dimensionality() != self.dimensionality() {
            return Err(self.layout.invalid_region(alloc, region));
        }
        if !target.takes_type(&self.layout.cell_type.data_type) {
            return Err(ArrayError::CodecError(CodecError::DoesNotFit(Misfit::Target)));
        }
        if target.region.shape() != region.shape() {
            let got = target.region.shape().to_vec(alloc)?;
            let expected = region.shape().to_vec(alloc)?;
            return Err(ArrayError::InvalidDataShape(got, expected));
        }
        Ok(())
    }

    /// Reads what these chunks have of the region into the target's box. Every byte outside the box stays. A box that is
    /// `filled` has the fill value everywhere: there an absent chunk is left alone.
    #[tactic(auto, using(zarrs_data_type_region::proofs::Kept::keeps_itself))]
    pub(super) fn read_into(
        &self,
        alloc: Global,
        region: &ArraySubset,
        chunks: &ArraySubset,
        target: &mut ArrayBytesDecodeIntoTarget<'_, '_, '_>,
        filled: bool,
    ) -> Result<(), ArrayError>
        requires over { MayReadOver (layout_of self.now) (box_of region.now)
            (positions (box_of chunks.now)) (store_of S.state self.now) }
        requires target { TakesRegion (layout_of self.now) (box_of region.now) target.old }
        requires filled { filled ≡ true → HasFillElsewhere (layout_of self.now) (box_of region.now)
            [] (parent_box target.old) (target_box target.old) (data_of_target target.old) }
        ensures kept { KeepsTarget target.old target.new }
        ensures read { OnOk result (HasReadInto (layout_of self.now) (box_of region.now)
            (positions (box_of chunks.now)) (store_of S.state self.now) (parent_box target.old)
            (target_box target.old) (data_of_target target.new)) }
        ensures refused { IfErr result (λ e. RefusesSomeChunk (layout_of self.now)
            (box_of region.now) (positions (box_of chunks.now)) (store_of S.state self.now)
            (refusal_of e)) }
    {
        let mut share = ChunkShare::new(alloc);
        let Some(mut walk) = chunks.walk(alloc)? else {
            return Ok(());
        };
        loop {
            self.read_chunk_into(alloc, region, walk.current(), target, &mut share, filled)?;
            if !walk.advance() {
                return Ok(());
            }
        }
    }

    /// Reads what one chunk has of the region into its part of the target's box. Every other byte of the box stays too.
    fn read_chunk_into(
        &self,
        alloc: Global,
        region: &ArraySubset,
        chunk_indices: &[u64],
        target: &mut ArrayBytesDecodeIntoTarget<'_, '_, '_>,
        share: &mut ChunkShare,
        filled: bool,
    ) -> Result<(), ArrayError>
        requires boxed { has_box (layout_of self.now).grid chunk_indices.now ≡ true }
        requires dimensions { length (box_of region.now).start
            ≡ (layout_of self.now).grid.dimensions }
        requires ask { MayReadPart (layout_of self.now) (box_of region.now) chunk_indices.now
            (store_of S.state self.now) }
        requires target { TakesRegion (layout_of self.now) (box_of region.now) target.old }
        ensures { ReadsChunkInto (layout_of self.now) filled (box_of region.now)
            chunk_indices.now (store_of S.state self.now) target.old target.new result }
    {
        if covers_chunk(&self.layout.grid, region, chunk_indices) {
            return self.read_whole_into(alloc, region, chunk_indices, target, share, filled);
        }
        self.read_part_into(alloc, region, chunk_indices, target, share, filled)
    }

    /// The same, of a chunk that the region covers.
    #[tactic(auto, using(zarrs_data_type_region::proofs::Kept::keeps_itself))]
    fn read_whole_into(
        &self,
        alloc: Global,
        region: &ArraySubset,
        chunk_indices: &[u64],
        target: &mut ArrayBytesDecodeIntoTarget<'_, '_, '_>,
        share: &mut ChunkShare,
        filled: bool,
    ) -> Result<(), ArrayError>
        requires boxed { has_box (layout_of self.now).grid chunk_indices.now ≡ true }
        requires dimensions { length (box_of region.now).start
            ≡ (layout_of self.now).grid.dimensions }
        requires covers { LiesInBox (box_at (layout_of self.now).grid chunk_indices.now)
            (box_of region.now) }
        requires ask { MayAskChunk (layout_of self.now) chunk_indices.now
            (store_of S.state self.now) }
        requires target { TakesRegion (layout_of self.now) (box_of region.now) target.old }
        ensures { ReadsChunkInto (layout_of self.now) filled (box_of region.now)
            chunk_indices.now (store_of S.state self.now) target.old target.new result }
    {
        let Some(encoded) = self.stored_bytes(alloc, chunk_indices)? else {
            return self.read_absent_into(alloc, region, chunk_indices, target, share, filled);
        };
        let ArrayLayout {
            grid,
            chain,
            cell_type,
            ..
        } = &self.layout;
        if !share.find(alloc, grid, region, chunk_indices, target.region)? {
            return Ok(());
        }
        let mut part = target.subdivide(&share.own);
        let done = chain.decode_into(alloc, &encoded, cell_type, &mut part.target);
        target.rejoin(part);
        done?;
        Ok(())
    }

    /// The same, of a chunk that the region covers only in part. No other bytes of the chunk are read than those that the
    /// part needs.
    #[tactic(auto, using(zarrs_data_type_region::proofs::Kept::keeps_itself))]
    fn read_part_into(
        &self,
        alloc: Global,
        region: &ArraySubset,
        chunk_indices: &[u64],
        target: &mut ArrayBytesDecodeIntoTarget<'_, '_, '_>,
        share: &mut ChunkShare,
        filled: bool,
    ) -> Result<(), ArrayError>
        requires boxed { has_box (layout_of self.now).grid chunk_indices.now ≡ true }
        requires dimensions { length (box_of region.now).start
            ≡ (layout_of self.now).grid.dimensions }
        requires part { IsPart (layout_of self.now) (box_of region.now) chunk_indices.now }
        requires ask { MayDecodePart (layout_of self.now) (chunk_part (box_of region.now)
            (box_at (layout_of self.now).grid chunk_indices.now)) chunk_indices.now
            (store_of S.state self.now) }
        requires target { TakesRegion (layout_of self.now) (box_of region.now) target.old }
        ensures { ReadsChunkInto (layout_of self.now) filled (box_of region.now)
            chunk_indices.now (store_of S.state self.now) target.old target.new result }
    {
        let key = self.layout.chunk_key(alloc, chunk_indices)?;
        let Some(source) = StoredValue::open(alloc, &self.storage, &key)? else {
            return self.read_absent_into(alloc, region, chunk_indices, target, share, filled);
        };
        let extents = self.layout.chunk_shape(alloc, chunk_indices)?;
        let grid = &self.layout.grid;
        if !share.find(alloc, grid, region, chunk_indices, target.region)? {
            return Ok(());
        }
        let shape = extents.as_slice();
        let mut lent = target.subdivide(&share.own);
        let done = self
            .layout
            .decode_part_into(alloc, shape, &source, &share.part, &mut lent.target);
        target.rejoin(lent);
        done
    }

    /// The same, of a chunk that is absent.
    #[tactic(auto, using(zarrs_data_type_region::proofs::Kept::keeps_itself))]
    fn read_absent_into(
        &self,
        alloc: Global,
        region: &ArraySubset,
        chunk_indices: &[u64],
        target: &mut ArrayBytesDecodeIntoTarget<'_, '_, '_>,
        share: &mut ChunkShare,
        filled: bool,
    ) -> Result<(), ArrayError>
        requires boxed { has_box (layout_of self.now).grid chunk_indices.now ≡ true }
        requires dimensions { length (box_of region.now).start
            ≡ (layout_of self.now).grid.dimensions }
        requires absent { value_at (store_of S.state self.now)
            ((layout_of self.now).key chunk_indices.now) ≡ None }
        requires target { TakesRegion (layout_of self.now) (box_of region.now) target.old }
        ensures { ReadsChunkInto (layout_of self.now) filled (box_of region.now)
            chunk_indices.now (store_of S.state self.now) target.old target.new result }
    {
        if filled {
            return Ok(());
        }
        let grid = &self.layout.grid;
        if !share.find(alloc, grid, region, chunk_indices, target.region)? {
            return Ok(());
        }
        let CellType {
            data_type,
            fill_value,
        } = &self.layout.cell_type;
        let mut part = target.subdivide(&share.own);
        let done = copy_fill_value_into(alloc, data_type, fill_value, &mut part.target);
        target.rejoin(part);
        done?;
        Ok(())
    }
}
