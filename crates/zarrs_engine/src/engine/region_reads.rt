//! Reads of regions, which may cross many chunks, of ranges of chunks and of parts of chunks.
use super::Engine;
use super::region_lists::form_of;
use std::alloc::Global;
use zarrs_chunk_grid::ChunkGridTraits;
use zarrs_codec_chain::ChainTraits;
use zarrs_codec_leaf::StoredValue;
use zarrs_data_type::{ArrayBytes, CellType, RegionCells};
use zarrs_engine_calls::ArrayError;
use zarrs_engine_layout::{ChunkShare, covers_chunk, part_in_chunk};
use zarrs_keys::ChunkKeyEncodingTraits;
use zarrs_storage::ReadableStorageTraits;
use zarrs_subset::ArraySubset;

impl<
    S: ReadableStorageTraits,
    G: ChunkGridTraits,
    K: ChunkKeyEncodingTraits,
    C: ChainTraits,
> Engine<S, G, K, C> {
    ghost use Rattle.std.specs.Prelude.{◌≡◌, ◌<◌, true, false, [], ◌∷◌, Some, None, IfOk, IfErr, IfSome};
    ghost use Rattle.std.specs.Prelude.{IfNone, length};
    ghost use Rattle.zarrs_subset.specs.Boxes.{position_count};
    ghost use Rattle.zarrs_subset.specs.Regions.{Box, LiesInBox, LiesInShape, box_of, positions};
    ghost use Rattle.zarrs_chunk_grid.specs.Grids.{box_at, has_box};
    ghost use Rattle.zarrs_data_type.specs.ArrayData.{data_of};
    ghost use Rattle.zarrs_data_type.specs.Cells.{HasCells};
    ghost use Rattle.zarrs_data_type.specs.RegionData.{region_data};
    ghost use Rattle.zarrs_engine_calls.specs.ArgumentRefusals.{size_refusal};
    ghost use Rattle.zarrs_engine_calls.specs.ChunkBoxes.{is_empty, chunk_part};
    ghost use Rattle.zarrs_engine_calls.specs.Content.{value_at};
    ghost use Rattle.zarrs_engine_calls.specs.Reach.{MayAskChunk, MayDecodePart, MayReadPart};
    ghost use Rattle.zarrs_engine_calls.specs.Refusals.{refusal_of};
    ghost use Rattle.zarrs_engine_calls.specs.StateRefusals.{IsPart, RefusesSomeChunk};
    ghost use Rattle.zarrs_engine.specs.Engine.{layout_of, store_of};
    ghost use Rattle.zarrs_engine.specs.Outcomes.{RetrievesRegionOrRefuses, MayRetrieveRegion};
    ghost use Rattle.zarrs_engine.specs.Outcomes.{RetrievesChunksOrRefuses, MayRetrieveChunks};
    ghost use Rattle.zarrs_engine.specs.Outcomes.{MayRetrievePart, RetrievesPartOrRefuses};
    ghost use Rattle.zarrs_engine_layout.specs.Answers.{Answers};
    ghost use Rattle.zarrs_engine_layout.specs.Covers.{CoverRegion};
    ghost use Rattle.zarrs_engine_layout.specs.Steps.{IsFill};
    ghost use Rattle.zarrs_engine.specs.RegionReads.{DecodesStored, HasRead, IsRegionOf, MayReadOver};
    ghost use Rattle.zarrs_engine.specs.RegionReads.{ReadsChunkOf, ReadsOver, ReadsShare};

    /// Returns as many fill values as the region has positions.
    pub(super) fn region_of_fill(
        &self,
        alloc: Global,
        region: &ArraySubset,
    ) -> Result<RegionCells, ArrayError>
        ensures { Answers (size_refusal (layout_of self.now) (box_of region.now).shape)
            (λ made. IsFill (layout_of self.now) (position_count (box_of region.now).shape)
            (region_data made)) result }
    {
        let count = self.layout.cell_count(region)?;
        let CellType {
            data_type,
            fill_value,
        } = &self.layout.cell_type;
        Ok(RegionCells::new_fill_value(alloc, data_type, count, fill_value)?)
    }

    /// Returns the cells that a chunk of this shape has of a part, seen from the origin of the chunk, or `None` if the
    /// chunk is absent. No other bytes of it are read than those that the part needs.
    pub(super) fn part_of_chunk(
        &self,
        alloc: Global,
        chunk_indices: &[u64],
        shape: &[u64],
        part: &ArraySubset,
    ) -> Result<Option<ArrayBytes<'static>>, ArrayError>
        requires boxed { has_box (layout_of self.now).grid chunk_indices.now ≡ true }
        requires shape { shape.now ≡ (box_at (layout_of self.now).grid chunk_indices.now).shape }
        requires part { LiesInShape (box_of part.now) shape.now }
        requires size { size_refusal (layout_of self.now) (box_of part.now).shape ≡ None }
        requires ask { MayDecodePart (layout_of self.now) (box_of part.now) chunk_indices.now
            (store_of S.state self.now) }
        ensures absent { IfOk result (λ found. IfNone found (value_at (store_of S.state self.now)
            ((layout_of self.now).key chunk_indices.now) ≡ None)) }
        ensures part { IfOk result (λ found. IfSome found (λ made. DecodesStored
            (layout_of self.now) chunk_indices.now (box_of part.now) (store_of S.state self.now)
            (data_of made))) }
        ensures refused { IfErr result (λ e. (region : Box)
            → IsPart (layout_of self.now) region chunk_indices.now
            → box_of part.now ≡ chunk_part region (box_at (layout_of self.now).grid chunk_indices.now)
            → RefusesSomeChunk (layout_of self.now) region (chunk_indices.now ∷ [])
            (store_of S.state self.now) (refusal_of e)) }
    {
        let key = self.layout.chunk_key(alloc, chunk_indices)?;
        let Some(source) = StoredValue::open(alloc, &self.storage, &key)? else {
            return Ok(None);
        };
        let made = self.layout.decode_part(alloc, shape, &source, part)?;
        Ok(Some(made))
    }

    /// Returns the cells that one chunk has of a region, and leaves where they lie in `share.own`; `None` if the chunk is
    /// absent, or has none of the region.
    fn shared_cells(
        &self,
        alloc: Global,
        region: &ArraySubset,
        chunk_indices: &[u64],
        share: &mut ChunkShare,
    ) -> Result<Option<ArrayBytes<'static>>, ArrayError>
        requires boxed { has_box (layout_of self.now).grid chunk_indices.now ≡ true }
        requires dimensions { length (box_of region.now).start
            ≡ (layout_of self.now).grid.dimensions }
        requires size { size_refusal (layout_of self.now) (box_of region.now).shape ≡ None }
        requires ask { MayReadPart (layout_of self.now) (box_of region.now) chunk_indices.now
            (store_of S.state self.now) }
        ensures { ReadsShare (layout_of self.now) (box_of region.now) chunk_indices.now
            (store_of S.state self.now) (box_of share.new.own) result }
    {
        if covers_chunk(&self.layout.grid, region, chunk_indices) {
            return self.shared_chunk(alloc, region, chunk_indices, share);
        }
        self.shared_part(alloc, region, chunk_indices, share)
    }

    /// The same, of a chunk that the region covers.
    fn shared_chunk(
        &self,
        alloc: Global,
        region: &ArraySubset,
        chunk_indices: &[u64],
        share: &mut ChunkShare,
    ) -> Result<Option<ArrayBytes<'static>>, ArrayError>
        requires boxed { has_box (layout_of self.now).grid chunk_indices.now ≡ true }
        requires dimensions { length (box_of region.now).start
            ≡ (layout_of self.now).grid.dimensions }
        requires covers { LiesInBox (box_at (layout_of self.now).grid chunk_indices.now)
            (box_of region.now) }
        requires ask { MayAskChunk (layout_of self.now) chunk_indices.now
            (store_of S.state self.now) }
        ensures { ReadsShare (layout_of self.now) (box_of region.now) chunk_indices.now
            (store_of S.state self.now) (box_of share.new.own) result }
    {
        let Some(encoded) = self.stored_bytes(alloc, chunk_indices)? else {
            return Ok(None);
        };
        let part = self.layout.decode(alloc, chunk_indices, &encoded)?;
        if !share.find(alloc, &self.layout.grid, region, chunk_indices, region)? {
            return Ok(None);
        }
        Ok(Some(part.into_owned(alloc)?))
    }

    /// The same, of a chunk that the region covers only in part. No other bytes of the chunk are read than those that the
    /// part needs.
    fn shared_part(
        &self,
        alloc: Global,
        region: &ArraySubset,
        chunk_indices: &[u64],
        share: &mut ChunkShare,
    ) -> Result<Option<ArrayBytes<'static>>, ArrayError>
        requires boxed { has_box (layout_of self.now).grid chunk_indices.now ≡ true }
        requires dimensions { length (box_of region.now).start
            ≡ (layout_of self.now).grid.dimensions }
        requires part { IsPart (layout_of self.now) (box_of region.now) chunk_indices.now }
        requires size { size_refusal (layout_of self.now) (box_of region.now).shape ≡ None }
        requires ask { MayDecodePart (layout_of self.now) (chunk_part (box_of region.now)
            (box_at (layout_of self.now).grid chunk_indices.now)) chunk_indices.now
            (store_of S.state self.now) }
        ensures { ReadsShare (layout_of self.now) (box_of region.now) chunk_indices.now
            (store_of S.state self.now) (box_of share.new.own) result }
    {
        let extents = self.layout.chunk_shape(alloc, chunk_indices)?;
        if !share.find(alloc, &self.layout.grid, region, chunk_indices, region)? {
            return Ok(None);
        }
        self.part_of_chunk(alloc, chunk_indices, extents.as_slice(), &share.part)
    }

    /// Returns the cells of a region with those that one chunk has of it. An absent chunk changes nothing.
    fn with_chunk(
        &self,
        alloc: Global,
        region: &ArraySubset,
        held: RegionCells,
        chunk_indices: &[u64],
        share: &mut ChunkShare,
    ) -> Result<RegionCells, ArrayError>
        requires boxed { has_box (layout_of self.now).grid chunk_indices.now ≡ true }
        requires dimensions { length (box_of region.now).start
            ≡ (layout_of self.now).grid.dimensions }
        requires size { size_refusal (layout_of self.now) (box_of region.now).shape ≡ None }
        requires held { HasCells (layout_of self.now).kind (region_data held)
            (position_count (box_of region.now).shape) }
        requires ask { MayReadPart (layout_of self.now) (box_of region.now) chunk_indices.now
            (store_of S.state self.now) }
        ensures { ReadsChunkOf (layout_of self.now) (box_of region.now) chunk_indices.now
            (store_of S.state self.now) (region_data held) result }
    {
        let Some(part) = self.shared_cells(alloc, region, chunk_indices, share)? else {
            return Ok(held);
        };
        let data_type = &self.layout.cell_type.data_type;
        let made = held.with_part(alloc, data_type, region, &part, &share.own)?;
        Ok(made)
    }

    /// Returns the cells of a region, all fill at first, with those of these chunks.
    fn read_along(
        &self,
        alloc: Global,
        region: &ArraySubset,
        chunks: &ArraySubset,
        held: RegionCells,
    ) -> Result<RegionCells, ArrayError>
        requires over { MayReadOver (layout_of self.now) (box_of region.now)
            (positions (box_of chunks.now)) (store_of S.state self.now) }
        requires size { size_refusal (layout_of self.now) (box_of region.now).shape ≡ None }
        requires none { HasRead (layout_of self.now) (box_of region.now) []
            (store_of S.state self.now) (region_data held) }
        ensures all { IfOk result (λ made. HasRead (layout_of self.now) (box_of region.now)
            (positions (box_of chunks.now)) (store_of S.state self.now) (region_data made)) }
        ensures refused { IfErr result
            (λ e. RefusesSomeChunk (layout_of self.now) (box_of region.now)
            (positions (box_of chunks.now)) (store_of S.state self.now) (refusal_of e)) }
    {
        let Some(mut walk) = chunks.walk(alloc)? else {
            return Ok(held);
        };
        let mut made = held;
        let mut share = ChunkShare::new(alloc);
        loop {
            made = self.with_chunk(alloc, region, made, walk.current(), &mut share)?;
            if !walk.advance() {
                return Ok(made);
            }
        }
    }

    /// Returns the cells of a region that these chunks cover.
    pub(super) fn read_region(
        &self,
        alloc: Global,
        region: &ArraySubset,
        chunks: &ArraySubset,
    ) -> Result<ArrayBytes<'static>, ArrayError>
        requires { MayReadOver (layout_of self.now) (box_of region.now)
            (positions (box_of chunks.now)) (store_of S.state self.now) }
        ensures { ReadsOver (layout_of self.now) (box_of region.now)
            (positions (box_of chunks.now)) (store_of S.state self.now) result }
    {
        if !region.is_empty() {
            if let Ok(1) = chunks.num_elements() {
                return self.read_in_chunk(alloc, region, chunks.start());
            }
        }
        if let Some(form) = form_of(&self.layout.cell_type.data_type) {
            return self.read_in_list(alloc, region, chunks, form);
        }
        let filled = self.region_of_fill(alloc, region)?;
        let held = self.read_along(alloc, region, chunks, filled)?;
        let made = held.into_array_bytes(alloc)?;
        Ok(made)
    }

    /// Returns the cells of a region that lies in the chunk with these indices, just as they are decoded. They are fill
    /// if the chunk is absent.
    fn read_in_chunk(
        &self,
        alloc: Global,
        region: &ArraySubset,
        chunk_indices: &[u64],
    ) -> Result<ArrayBytes<'static>, ArrayError>
        requires cover { CoverRegion (layout_of self.now).grid (box_of region.now)
            (chunk_indices.now ∷ []) }
        requires some { is_empty (box_of region.now) ≡ false }
        requires ask { MayReadPart (layout_of self.now) (box_of region.now) chunk_indices.now
            (store_of S.state self.now) }
        ensures { ReadsOver (layout_of self.now) (box_of region.now)
            (chunk_indices.now ∷ []) (store_of S.state self.now) result }
    {
        self.layout.cell_count(region)?;
        let extents = self.layout.chunk_shape(alloc, chunk_indices)?;
        let shape = extents.as_slice();
        if region.shape() == shape {
            return self.retrieve_chunk(alloc, chunk_indices);
        }
        match part_in_chunk(alloc, &self.layout.grid, region, chunk_indices)? {
            Some(part) => self.read_part(alloc, chunk_indices, shape, &part),
            None => self.layout.filled(alloc, region),
        }
    }

    /// Returns the cells of a part of the chunk with these indices, which has this shape, just as they are decoded. The
    /// part is seen from the origin of the chunk, and is not all of it. Where the chunk is absent they are fill. No
    /// other bytes of the chunk are read than those that the part needs.
    pub(super) fn read_part(
        &self,
        alloc: Global,
        chunk_indices: &[u64],
        shape: &[u64],
        part: &ArraySubset,
    ) -> Result<ArrayBytes<'static>, ArrayError>
        requires boxed { has_box (layout_of self.now).grid chunk_indices.now ≡ true }
        requires shape { shape.now ≡ (box_at (layout_of self.now).grid chunk_indices.now).shape }
        requires part { LiesInShape (box_of part.now) shape.now }
        requires size { size_refusal (layout_of self.now) (box_of part.now).shape ≡ None }
        requires ask { MayDecodePart (layout_of self.now) (box_of part.now) chunk_indices.now
            (store_of S.state self.now) }
        ensures read { IfOk result (λ made. (region : Box) → IsRegionOf (layout_of self.now)
            chunk_indices.now (box_of part.now) region → HasRead (layout_of self.now) region
            (chunk_indices.now ∷ []) (store_of S.state self.now) (data_of made)) }
        ensures refused { IfErr result (λ e. (region : Box) → IsRegionOf (layout_of self.now)
            chunk_indices.now (box_of part.now) region → RefusesSomeChunk (layout_of self.now)
            region (chunk_indices.now ∷ []) (store_of S.state self.now) (refusal_of e)) }
    {
        if part.is_empty() {
            return self.layout.filled(alloc, part);
        }
        match self.part_of_chunk(alloc, chunk_indices, shape, part)? {
            Some(made) => Ok(made),
            None => self.layout.filled(alloc, part),
        }
    }

    /// Returns the cells of the region, in row-major order. Where a chunk is absent they are fill. The chunks that the
    /// region meets are read one after another in row-major order; an empty region asks nothing of the store.
    ///
    /// # Errors
    /// In this order: E1 for another number of dimensions, or a position that no chunk covers; E8 for cells of more
    /// bytes than a `usize` counts. Then one of these: E7 if the store refuses the key of a chunk that the region meets,
    /// E4 if its bytes do not decode, E8 if what is decoded whole of it (the chunk, or a subchunk that the region meets)
    /// has more bytes than that, or so has its fill where its bytes leave out cells, or if all of the region lies in an
    /// absent chunk and that many fill values have more. E9 may come at any time.
    pub fn retrieve_array_subset(
        &self,
        alloc: Global,
        array_subset: &ArraySubset,
    ) -> Result<ArrayBytes<'static>, ArrayError>
        requires { MayRetrieveRegion S.state (box_of array_subset.now) self.now }
        ensures { RetrievesRegionOrRefuses S.state (box_of array_subset.now) self.now result }
    {
        if let Some(index) = self.layout.only_chunk(alloc, array_subset)? {
            return self.read_in_chunk(alloc, array_subset, index.as_slice());
        }
        let chunks = self.layout.chunks_met(alloc, array_subset)?;
        self.read_region(alloc, array_subset, &chunks)
    }

    /// Returns the cells of the chunks with the indices in the range, in row-major order over all of them. Where a
    /// chunk is absent they are fill. A range without a chunk has no cell, and asks nothing of the store.
    ///
    /// # Errors
    /// In this order: E1 for another number of dimensions; E3 for a first index without a chunk, then for such a last
    /// one; E8 for cells of more bytes than a `usize` counts. Then as for `retrieve_array_subset` over the region of these
    /// chunks. E9 may come at any time.
    pub fn retrieve_chunks(
        &self,
        alloc: Global,
        chunks: &ArraySubset,
    ) -> Result<ArrayBytes<'static>, ArrayError>
        requires { MayRetrieveChunks S.state (box_of chunks.now) self.now }
        ensures { RetrievesChunksOrRefuses S.state (box_of chunks.now) self.now result }
    {
        let region = self.layout.chunks_region(alloc, chunks)?;
        self.read_region(alloc, &region, chunks)
    }

    /// Returns the cells of a part of the chunk with these indices, in row-major order. The part is seen from the
    /// origin of the chunk. Where the chunk is absent they are fill.
    ///
    /// # Errors
    /// In this order: E3 for another number of indices than dimensions, or without a chunk; E2 for a part of another
    /// number of dimensions, or that passes the chunk. Then for the whole chunk the errors of `retrieve_chunk`; for
    /// another part E8 for cells of more bytes than a `usize` counts, and then one of these: E7 if the store refuses the
    /// key, E4 if its bytes do not decode, E8 if what the chain decodes whole of it for the part (the chunk, or a subchunk
    /// that the part meets) has more bytes than that, or so has its fill where its bytes leave out cells, or if the chunk
    /// is absent and the part's fill values have more. E9 may come at any time.
    pub fn retrieve_chunk_subset(
        &self,
        alloc: Global,
        chunk_indices: &[u64],
        chunk_subset: &ArraySubset,
    ) -> Result<ArrayBytes<'static>, ArrayError>
        requires { MayRetrievePart S.state chunk_indices.now (box_of chunk_subset.now) self.now }
        ensures { RetrievesPartOrRefuses S.state chunk_indices.now (box_of chunk_subset.now) self.now
            result }
    {
        let extents = self.layout.chunk_shape(alloc, chunk_indices)?;
        let shape = extents.as_slice();
        self.layout
            .check_part(alloc, chunk_indices, shape, chunk_subset)?;
        if chunk_subset.shape() == shape {
            return self.retrieve_chunk(alloc, chunk_indices);
        }
        self.layout.cell_count(chunk_subset)?;
        self.read_part(alloc, chunk_indices, shape, chunk_subset)
    }
}
