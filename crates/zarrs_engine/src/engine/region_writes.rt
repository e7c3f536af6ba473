//! Writes of parts of chunks, of ranges of chunks and of regions.
use super::Engine;
use super::partial_writes::takes_itself;
use std::alloc::Global;
use zarrs_chunk_grid::ChunkGridTraits;
use zarrs_codec_chain::{ChainTraits, CodecOptions};
use zarrs_data_type::ArrayBytes;
use zarrs_engine_calls::ArrayError;
use zarrs_engine_layout::{Chunk, invalid_indices};
use zarrs_keys::ChunkKeyEncodingTraits;
use zarrs_storage::WritableStorageTraits;
use zarrs_subset::{ArraySubset, IncompatibleDimensionalityError, lies_in_box};

impl<
    S: WritableStorageTraits,
    G: ChunkGridTraits,
    K: ChunkKeyEncodingTraits,
    C: ChainTraits,
> Engine<S, G, K, C> {
    ghost use Rattle.std.specs.Prelude.{◌≡◌, true, false, Bool, [], ◌∷◌, length};
    ghost use Rattle.std.specs.Prelude.{IfOk, IfErr, IsErr};
    ghost use Rattle.zarrs_subset.specs.Boxes.{position_count};
    ghost use Rattle.zarrs_subset.specs.Regions.{box_of, positions};
    ghost use Rattle.zarrs_chunk_grid.specs.Grids.{box_at, has_box};
    ghost use Rattle.zarrs_data_type.specs.ArrayData.{data_of};
    ghost use Rattle.zarrs_data_type.specs.Cells.{HasCells};
    ghost use Rattle.zarrs_codec_chain.specs.Options.{stores_empty_chunks};
    ghost use Rattle.zarrs_engine_calls.specs.Reach.{MayAskParts};
    ghost use Rattle.zarrs_engine_calls.specs.Refusals.{is_too_large, refusal_of};
    ghost use Rattle.zarrs_engine_calls.specs.StateRefusals.{IsPart, RefusesPart};
    ghost use Rattle.zarrs_engine.specs.Outcomes.{StoresRegionAs, MayStoreRegion};
    ghost use Rattle.zarrs_engine.specs.Outcomes.{StoresChunksOrRefuses, Writes};
    ghost use Rattle.zarrs_engine.specs.Outcomes.{StoresPartAs, MayStorePart};
    ghost use Rattle.zarrs_engine_layout.specs.Chunks.{IsChunk};
    ghost use Rattle.zarrs_engine_layout.specs.Covers.{CoverRegion};
    ghost use Rattle.zarrs_engine.specs.Engine.{layout_of, store_of};
    ghost use Rattle.zarrs_engine.specs.PartStores.{MakesPartValue, StoresPartOf, StoresPartsOf};
    ghost use Rattle.zarrs_engine.specs.Patches.{Shares, SharesEach};
    ghost use Rattle.zarrs_engine.specs.RegionWrites.{AreCovered, HasUpdated, LeavesPart};
    ghost use Rattle.zarrs_engine.specs.RegionWrites.{StoresOneMore};

    /// Returns the cells of a chunk after it took its part of the region's data. Unless the region covers the chunk,
    /// the chunk is read first.
    fn updated_chunk(
        &self,
        alloc: Global,
        region: &ArraySubset,
        region_data: &ArrayBytes<'_>,
        chunk: &Chunk<'_>,
    ) -> Result<ArrayBytes<'static>, ArrayError>
        requires chunk { IsChunk (layout_of self.now) chunk.now }
        requires fit { is_too_large (layout_of self.now) (box_of chunk.now.region).shape ≡ false }
        requires dimensions { length (box_of region.now).start
            ≡ (layout_of self.now).grid.dimensions }
        requires given { HasCells (layout_of self.now).kind (data_of region_data.now)
            (position_count (box_of region.now).shape) }
        requires ask { MayAskParts (layout_of self.now) (box_of region.now)
            (chunk.now.indices.now ∷ []) (store_of S.state self.now) }
        ensures updated { IfOk result (λ made. HasUpdated (layout_of self.now) (box_of region.now)
            (data_of region_data.now) chunk.now.indices.now (store_of S.state self.now)
            (data_of made)) }
        ensures refused { (keep : Bool) → IfErr result
            (λ e. RefusesPart (layout_of self.now) keep (box_of region.now)
            (data_of region_data.now) chunk.now.indices.now 0 (store_of S.state self.now)
            (refusal_of e)) }
        ensures refusing { IsPart (layout_of self.now) (box_of region.now) chunk.now.indices.now
            → (store_of S.state self.now).refuses ((layout_of self.now).key
            chunk.now.indices.now) ≡ true → IsErr result }
    {
        let data_type = &self.layout.cell_type.data_type;
        if lies_in_box(&chunk.region, region) {
            let data = region_data.extract_array_subset(alloc, data_type, region, &chunk.region)?;
            return Ok(data);
        }
        let held = self.chunk_cells(alloc, chunk)?;
        let data = held.update_array_bytes(alloc, data_type, &chunk.region, region_data, region)?;
        Ok(data)
    }

    /// Returns what is to be present at the key of a chunk after it took its part of the region's data.
    fn part_value(
        &self,
        alloc: Global,
        region: &ArraySubset,
        region_data: &ArrayBytes<'_>,
        chunk: &Chunk<'_>,
        options: &CodecOptions,
    ) -> Result<Option<Vec<u8>>, ArrayError>
        requires chunk { IsChunk (layout_of self.now) chunk.now }
        requires dimensions { length (box_of region.now).start
            ≡ (layout_of self.now).grid.dimensions }
        requires given { HasCells (layout_of self.now).kind (data_of region_data.now)
            (position_count (box_of region.now).shape) }
        requires ask { MayAskParts (layout_of self.now) (box_of region.now)
            (chunk.now.indices.now ∷ []) (store_of S.state self.now) }
        ensures makes { MakesPartValue (layout_of self.now) (stores_empty_chunks options.now)
            (box_of region.now) (data_of region_data.now) chunk.now.indices.now
            (store_of S.state self.now) result }
        ensures refusing { IsPart (layout_of self.now) (box_of region.now) chunk.now.indices.now
            → (store_of S.state self.now).refuses ((layout_of self.now).key
            chunk.now.indices.now) ≡ true → IsErr result }
    {
        let shape = chunk.region.shape();
        let Some(_) = self.layout.shape_count(shape) else {
            return Err(ArrayError::SizeOverflow);
        };
        if chunk.region == *region {
            return self.layout.value_of(alloc, shape, region_data, options);
        }
        let data = self.updated_chunk(alloc, region, region_data, chunk)?;
        self.layout.value_of_owned(alloc, shape, data, options)
    }

    /// Stores the part of the region's data that one chunk takes, by a value of the whole chunk.
    pub(crate) fn store_whole(
        &mut self,
        alloc: Global,
        region: &ArraySubset,
        region_data: &ArrayBytes<'_>,
        chunk: &Chunk<'_>,
        options: &CodecOptions,
    ) -> Result<(), ArrayError>
        requires chunk { IsChunk (layout_of self.old) chunk.now }
        requires dimensions { length (box_of region.now).start
            ≡ (layout_of self.old).grid.dimensions }
        requires covered { AreCovered (layout_of self.old).grid (box_of region.now) }
        requires given { HasCells (layout_of self.old).kind (data_of region_data.now)
            (position_count (box_of region.now).shape) }
        requires ask { MayAskParts (layout_of self.old) (box_of region.now)
            (chunk.now.indices.now ∷ []) (store_of S.state self.old) }
        ensures writes { Writes refusal_of S.state
            (StoresOneMore (layout_of self.old) (stores_empty_chunks options.now)
            (box_of region.now) (data_of region_data.now) chunk.now.indices.now)
            (LeavesPart (layout_of self.old) (stores_empty_chunks options.now)
            (box_of region.now) (data_of region_data.now) chunk.now.indices.now)
            self.old self.new result }
        ensures refusing { IsPart (layout_of self.old) (box_of region.now) chunk.now.indices.now
            → (store_of S.state self.old).refuses ((layout_of self.old).key
            chunk.now.indices.now) ≡ true → IsErr result }
    {
        let value = self.part_value(alloc, region, region_data, chunk, options)?;
        self.put(alloc, &chunk.key, value)?;
        Ok(())
    }

    /// Stores the part of the region's data that one chunk takes: by itself if `parts` are written so and the region covers
    /// the chunk only in part, else whole.
    fn store_part(
        &mut self,
        alloc: Global,
        region: &ArraySubset,
        region_data: &ArrayBytes<'_>,
        chunk_indices: &[u64],
        parts: bool,
        options: &CodecOptions,
    ) -> Result<(), ArrayError>
        requires supported { parts ≡ true → (layout_of self.old).chain.encodes_partly ≡ true }
        requires boxed { has_box (layout_of self.old).grid chunk_indices.now ≡ true }
        requires dimensions { length (box_of region.now).start
            ≡ (layout_of self.old).grid.dimensions }
        requires covered { AreCovered (layout_of self.old).grid (box_of region.now) }
        requires meets { parts ≡ true → Shares (box_of region.now)
            (box_at (layout_of self.old).grid chunk_indices.now) }
        requires given { HasCells (layout_of self.old).kind (data_of region_data.now)
            (position_count (box_of region.now).shape) }
        requires ask { MayAskParts (layout_of self.old) (box_of region.now)
            (chunk_indices.now ∷ []) (store_of S.state self.old) }
        ensures { StoresPartOf S.state (stores_empty_chunks options.now) parts (box_of region.now)
            (data_of region_data.now) chunk_indices.now self.old self.new result }
    {
        let chunk = self.layout.chunk(alloc, chunk_indices)?;
        if takes_itself(parts, region, &chunk.region) {
            return self.patch_part(alloc, region, region_data, &chunk, options);
        }
        self.store_whole(alloc, region, region_data, &chunk, options)
    }

    /// Stores the region's data in these chunks, one after another. If `parts` are written by themselves, so are those of
    /// chunks that it covers only in part.
    fn store_along(
        &mut self,
        alloc: Global,
        region: &ArraySubset,
        region_data: &ArrayBytes<'_>,
        chunks: &ArraySubset,
        parts: bool,
        options: &CodecOptions,
    ) -> Result<(), ArrayError>
        requires supported { parts ≡ true → (layout_of self.old).chain.encodes_partly ≡ true }
        requires cover { CoverRegion (layout_of self.old).grid (box_of region.now)
            (positions (box_of chunks.now)) }
        requires meets { parts ≡ true → SharesEach (layout_of self.old).grid (box_of region.now)
            (positions (box_of chunks.now)) }
        requires given { HasCells (layout_of self.old).kind (data_of region_data.now)
            (position_count (box_of region.now).shape) }
        requires ask { MayAskParts (layout_of self.old) (box_of region.now)
            (positions (box_of chunks.now)) (store_of S.state self.old) }
        ensures { StoresPartsOf S.state (stores_empty_chunks options.now) parts (box_of region.now)
            (data_of region_data.now) (positions (box_of chunks.now)) self.old self.new result }
    {
        let Some(mut walk) = chunks.walk(alloc)? else {
            return Ok(());
        };
        loop {
            let chunk = walk.current();
            self.store_part(alloc, region, region_data, chunk, parts, options)?;
            if !walk.advance() {
                return Ok(());
            }
        }
    }

    /// Stores the cells, in row-major order, over the chunks with the indices in the range, one chunk after another in
    /// row-major order, each by one writing call of the store. No chunk is read. A range without a chunk takes data
    /// without a cell, and asks nothing of the store.
    ///
    /// # Errors
    /// In this order: E8 for more chunks than a `u64` counts; of a range of one chunk the errors of `store_chunk`; E3
    /// for a first index without a chunk, then for such a last one; E4 for data that is not one cell for each position,
    /// each a value of the data type. Then, at one of the chunks: E8 for a chunk of more bytes than a `usize` counts;
    /// E4 if the chain does not take it; E8 if an encoded size overflows; E7 if the store refuses. E9 may come at any time.
    /// The chunks before that one are stored then, and no later one.
    pub fn store_chunks(
        &mut self,
        alloc: Global,
        chunks: &ArraySubset,
        chunks_data: &ArrayBytes<'_>,
        options: &CodecOptions,
    ) -> Result<(), ArrayError>
        ensures { StoresChunksOrRefuses S.state (stores_empty_chunks options.now)
            (box_of chunks.now) (data_of chunks_data.now) self.old self.new result }
    {
        let Ok(number) = chunks.num_elements() else {
            return Err(ArrayError::SizeOverflow);
        };
        if number == 0 {
            return self.layout.check_cells(false, chunks, chunks_data);
        }
        if chunks.dimensionality() != self.layout.grid.dimensionality() {
            return Err(invalid_indices(alloc, chunks.start()));
        }
        let region = self.layout.chunks_region(alloc, chunks)?;
        self.layout.check_cells(number == 1, &region, chunks_data)?;
        self.store_along(alloc, &region, chunks_data, chunks, false, options)
    }

    /// Stores the cells over a part of the chunk with these indices, by one writing call of the store. The part is seen
    /// from the origin of the chunk. Unless it is the whole chunk, the chunk is read first.
    ///
    /// # Errors
    /// In this order: E10 for another number of indices than dimensions; E3 for indices without a chunk; E2 for a part
    /// of another number of dimensions, or that passes the chunk; if it is the whole chunk, E8 if that has more bytes
    /// than a `usize` counts; E4 for data that is not one cell for each position, each a value of the data type. Then
    /// E8 for such a chunk; of a chunk that is read, E7 if the store refuses its key, and E4 if its bytes do not decode,
    /// or E8 if a chunk of fill has more bytes than a `usize` counts, which is needed where the chunk is absent or its
    /// bytes leave out cells; E4 if the chain does not take it; E8 if an encoded size overflows; E7 if the store refuses
    /// the write. E9 may come at any time. Nothing is changed then.
    pub fn store_chunk_subset(
        &mut self,
        alloc: Global,
        chunk_indices: &[u64],
        chunk_subset: &ArraySubset,
        chunk_subset_data: &ArrayBytes<'_>,
        options: &CodecOptions,
    ) -> Result<(), ArrayError>
        requires { MayStorePart S.state chunk_indices.now (box_of chunk_subset.now) self.old }
        ensures { StoresPartAs S.state options.now chunk_indices.now (box_of chunk_subset.now)
            (data_of chunk_subset_data.now) self.old self.new result }
    {
        let dimensions = self.layout.grid.dimensionality();
        if chunk_indices.len() != dimensions {
            let error = IncompatibleDimensionalityError::new(chunk_indices.len(), dimensions);
            return Err(ArrayError::IncompatibleDimensionalityError(error));
        }
        let chunk = self.layout.chunk(alloc, chunk_indices)?;
        let region = self
            .layout
            .part_of(alloc, chunk_indices, &chunk.region, chunk_subset)?;
        self.layout
            .check_cells(region == chunk.region, &region, chunk_subset_data)?;
        if self.writes_part(&region, &chunk.region, options) {
            return self.patch_chunk(alloc, &chunk, chunk_subset, chunk_subset_data, options);
        }
        self.store_whole(alloc, &region, chunk_subset_data, &chunk, options)
    }

    /// Stores the cells, in row-major order, over the region, one chunk after another in row-major order, each by one
    /// writing call of the store. A chunk that the region covers only in part is read first; its cells outside the region
    /// stay. An empty region asks nothing of the store.
    ///
    /// # Errors
    /// In this order: E1 for another number of dimensions, or a position that no chunk covers; for a region that is one
    /// chunk E8 if it has more bytes than a `usize` counts; E4 for data that is not one cell for each position, each a
    /// value of the data type. Then, at one of the chunks: E8 for a chunk of more bytes than a `usize` counts; of a
    /// chunk that is read, E7 if the store refuses its key, and E4 if its bytes do not decode, or E8 if a chunk of fill
    /// has more bytes than that, which is needed where the chunk is absent or its bytes leave out cells; E4 if the chain
    /// does not take it; E8 if an encoded size overflows; E7 if the store refuses the write. E9 may come at any time. The
    /// chunks before that one are stored then, and no later one.
    pub fn store_array_subset(
        &mut self,
        alloc: Global,
        array_subset: &ArraySubset,
        subset_data: &ArrayBytes<'_>,
        options: &CodecOptions,
    ) -> Result<(), ArrayError>
        requires { MayStoreRegion S.state (box_of array_subset.now) self.old }
        ensures { StoresRegionAs S.state options.now (box_of array_subset.now)
            (data_of subset_data.now) self.old self.new result }
    {
        let chunks = self.layout.chunks_met(alloc, array_subset)?;
        let is_chunk = self.layout.is_one_chunk(alloc, array_subset, &chunks)?;
        self.layout
            .check_cells(is_chunk, array_subset, subset_data)?;
        let parts = self.writes_parts(options);
        self.store_along(alloc, array_subset, subset_data, &chunks, parts, options)
    }
}
