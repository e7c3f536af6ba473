//! Regions of an array: the chunks that they meet, and the data over them.
use crate::array_layout::ArrayLayout;
use smallvec::SmallVec;
use std::alloc::{AllocError, Global};
use zarrs_chunk_grid::{ChunkGridTraits, GridError};
use zarrs_codec_chain::ChainTraits;
use zarrs_codec_leaf::{CodecError, Misfit};
use zarrs_data_type::{ArrayBytes, CellType};
use zarrs_engine_calls::ArrayError;
use zarrs_keys::ChunkKeyEncodingTraits;
use zarrs_subset::{ArraySubset, ArraySubsetTraits};

impl<G: ChunkGridTraits, K: ChunkKeyEncodingTraits, C: ChainTraits> ArrayLayout<G, K, C> {
    ghost use Rattle.std.specs.Prelude.{◌≡◌, ◌↔◌, ◌*◌, ◌<◌, ◌^◌, Some, None, IfOk, IfErr, IfSome, IfNone, IsTrue, OnOk};
    ghost use Rattle.zarrs_subset.specs.Boxes.{position_count};
    ghost use Rattle.zarrs_subset.specs.Regions.{box_of, positions};
    ghost use Rattle.zarrs_chunk_grid.specs.Grids.{met};
    ghost use Rattle.zarrs_data_type.specs.ArrayData.{data_of};
    ghost use Rattle.zarrs_data_type.specs.Kind.{cell_size};
    ghost use Rattle.zarrs_data_type.specs.Cells.{HasCells, count_of};
    ghost use Rattle.zarrs_engine_calls.specs.ArgumentRefusals.{box_data_refusal};
    ghost use Rattle.zarrs_engine_calls.specs.ArgumentRefusals.{region_refusal, size_refusal};
    ghost use Rattle.zarrs_engine_calls.specs.ChunkBoxes.{is_one_chunk};
    ghost use Rattle.zarrs_engine_calls.specs.Refusals.{RefusesBy, array_subset, refusal_of};
    ghost use Rattle.zarrs_engine_layout.specs.Layouts.{layout_meaning};
    ghost use Rattle.zarrs_engine_layout.specs.Answers.{Answers};
    ghost use Rattle.zarrs_engine_layout.specs.Covers.{AreMetBy, CoverRegion, IsInChunk, IsInNoChunk};
    ghost use Rattle.zarrs_engine_layout.specs.Steps.{IsFill, filled_refusal, fills_refusal};

    /// Returns the refusal of this region: E1, or out of memory.
    pub fn invalid_region(&self, alloc: Global, region: &ArraySubset) -> ArrayError
        ensures { RefusesBy (Some (array_subset (box_of region.now)
            (G.array_extents self.now.grid))) (refusal_of result) }
    {
        let Ok(region) = region.clone() else {
            return ArrayError::OutOfMemory;
        };
        match self.grid.array_shape().to_vec(alloc) {
            Ok(shape) => ArrayError::InvalidArraySubset(region, shape),
            Err(_) => ArrayError::OutOfMemory,
        }
    }

    /// Returns the indices of the chunks that the region meets.
    ///
    /// # Errors
    /// E1 for another number of dimensions, or a position that no chunk covers. E9 may come at any time.
    pub fn chunks_met(&self, alloc: Global, region: &ArraySubset) -> Result<ArraySubset, ArrayError>
        ensures { Answers (region_refusal (layout_meaning self.now)
            (G.array_extents self.now.grid) (box_of region.now))
            (λ chunks. AreMetBy (G.grid self.now.grid) (box_of region.now) (box_of chunks))
            result }
    {
        match self.grid.chunks_in_array_subset(alloc, region) {
            Ok(Some(chunks)) => Ok(chunks),
            Ok(None) => Err(self.invalid_region(alloc, region)),
            Err(GridError::IncompatibleDimensionality(_)) => {
                Err(self.invalid_region(alloc, region))
            }
            Err(GridError::UnequalExtent) => unreachable!(),
            Err(GridError::OutOfMemory) => Err(ArrayError::OutOfMemory),
        }
    }

    /// Returns the indices of the chunk that all of the region lies in. `None` if it lies in no single one, or is empty.
    ///
    /// # Errors
    /// `AllocError`: out of memory.
    pub fn only_chunk(
        &self,
        alloc: Global,
        region: &ArraySubset,
    ) -> Result<Option<SmallVec<u64, 4>>, AllocError>
        ensures some { IfOk result (λ found. IfSome found (λ index. IsInChunk (layout_meaning self.now)
            (G.array_extents self.now.grid) (box_of region.now) index.items)) }
        ensures none { IfOk result (λ found. IfNone found (IsInNoChunk (layout_meaning self.now)
            (G.array_extents self.now.grid) (box_of region.now))) }
    {
        let dimensions = self.grid.dimensionality();
        if region.dimensionality() != dimensions {
            return Ok(None);
        }
        if region.is_empty() {
            return Ok(None);
        }
        let mut indices = SmallVec::new(alloc);
        for dimension in 0..dimensions {
            let range = region.range(dimension);
            let Some(numbers) = self
                .grid
                .numbers_met(dimension, range.start, range.end - range.start)
            else {
                return Ok(None);
            };
            if numbers.amount != 1 {
                return Ok(None);
            }
            indices.push(numbers.first)?;
        }
        Ok(Some(indices))
    }

    /// Returns how many cells the region has.
    ///
    /// # Errors
    /// E8 for cells of more bytes than a `usize` counts.
    pub fn cell_count(&self, region: &ArraySubset) -> Result<u64, ArrayError>
        ensures { Answers (size_refusal (layout_meaning self.now) (box_of region.now).shape)
            (λ count. (count ≡ position_count (box_of region.now).shape)
            × (count * cell_size (layout_meaning self.now).kind < 2 ^ 64)) result }
    {
        match self.shape_count(region.shape()) {
            Some(count) => Ok(count),
            None => Err(ArrayError::SizeOverflow),
        }
    }

    /// Returns as many fill values as the region has positions.
    ///
    /// # Errors
    /// E8 if the cells, or that many fill values, have more bytes than a `usize` counts. E9 may come at any time.
    pub fn filled(
        &self,
        alloc: Global,
        region: &ArraySubset,
    ) -> Result<ArrayBytes<'static>, ArrayError>
        ensures { Answers (filled_refusal (layout_meaning self.now) (box_of region.now).shape)
            (λ made. IsFill (layout_meaning self.now) (position_count (box_of region.now).shape)
            (data_of made)) result }
    {
        match self.shape_count(region.shape()) {
            Some(count) => self.fill_cells(alloc, count),
            None => Err(ArrayError::SizeOverflow),
        }
    }

    /// Returns this many fill values.
    ///
    /// # Errors
    /// E8 if they have more bytes than a `usize` counts. E9 may come at any time.
    #[inline(always)]
    pub(crate) fn fill_cells(
        &self,
        alloc: Global,
        count: u64,
    ) -> Result<ArrayBytes<'static>, ArrayError>
        ensures { Answers (fills_refusal (layout_meaning self.now) count)
            (λ made. IsFill (layout_meaning self.now) count (data_of made)) result }
    {
        let CellType {
            data_type,
            fill_value,
        } = &self.cell_type;
        let cell_size = data_type.held_size(fill_value.as_bytes());
        if count.checked_mul(cell_size as u64).is_none() {
            return Err(ArrayError::SizeOverflow);
        }
        Ok(ArrayBytes::new_fill_value(alloc, data_type, count, fill_value)?)
    }

    /// Returns whether the region is the box of one chunk, the first one of those that it meets.
    ///
    /// # Errors
    /// E9 alone: out of memory.
    pub fn is_one_chunk(
        &self,
        alloc: Global,
        region: &ArraySubset,
        chunks: &ArraySubset,
    ) -> Result<bool, ArrayError>
        requires met { box_of chunks.now ≡ met (G.grid self.now.grid) (box_of region.now) }
        requires cover { CoverRegion (G.grid self.now.grid) (box_of region.now)
            (positions (box_of chunks.now)) }
        ensures one { IfOk result (λ one. one ≡ is_one_chunk (G.grid self.now.grid)
            (box_of region.now)) }
        ensures refused { IfErr result (λ e. RefusesBy None (refusal_of e)) }
    {
        if region.is_empty() {
            return Ok(false);
        }
        let chunk = self.chunk_box(alloc, chunks.start())?;
        Ok(*region == chunk)
    }

    /// Returns the number of cells of data of the type's kind.
    fn count_of(&self, region_data: &ArrayBytes<'_>) -> u64
        ensures { result ≡ count_of (layout_meaning self.now).kind (data_of region_data.now) }
    {
        match region_data {
            ArrayBytes::Fixed(bytes) => match self.cell_type.data_type.element_size() {
                Some(size) => (bytes.as_slice().len() / size) as u64,
                None => 0,
            },
            ArrayBytes::Variable(strings) => strings.len() as u64,
            ArrayBytes::Optional(optional) => optional.mask().len() as u64,
        }
    }

    /// Returns whether the data is one cell for each position of the region, each a value of the data type.
    fn has_cells(&self, region: &ArraySubset, region_data: &ArrayBytes<'_>) -> bool
        ensures { IsTrue result ↔ HasCells (layout_meaning self.now).kind (data_of region_data.now)
            (position_count (box_of region.now).shape) }
    {
        let count = self.count_of(region_data);
        match region.num_elements() {
            Ok(wanted) => wanted == count && region_data.validate(&self.cell_type.data_type, count),
            Err(_) => false,
        }
    }

    /// Refuses data that is not one cell for each position of the region.
    ///
    /// # Errors
    /// In this order: E8 if the region is a whole chunk of more bytes than a `usize` counts; E4 for data that is not
    /// one cell for each position, each a value of the data type.
    pub fn check_cells(
        &self,
        is_whole: bool,
        region: &ArraySubset,
        region_data: &ArrayBytes<'_>,
    ) -> Result<(), ArrayError>
        ensures given { OnOk result (HasCells (layout_meaning self.now).kind (data_of region_data.now)
            (position_count (box_of region.now).shape)) }
        ensures accepted { OnOk result (box_data_refusal (layout_meaning self.now) is_whole
            (box_of region.now).shape (data_of region_data.now) ≡ None) }
        ensures refused { IfErr result (λ e. box_data_refusal (layout_meaning self.now) is_whole
            (box_of region.now).shape (data_of region_data.now) ≡ Some (refusal_of e)) }
    {
        if is_whole && self.shape_count(region.shape()).is_none() {
            return Err(ArrayError::SizeOverflow);
        }
        if self.has_cells(region, region_data) {
            return Ok(());
        }
        let expected = region.num_elements().unwrap_or(u64::MAX);
        let misfit = self.misfit_of(region_data, expected);
        Err(ArrayError::CodecError(CodecError::DoesNotFit(misfit)))
    }

    /// Returns why this data is not the expected number of cells, each a value of the data type.
    pub(crate) fn misfit_of(&self, data: &ArrayBytes<'_>, expected: u64) -> Misfit {
        let got = self.count_of(data);
        if got != expected && data.validate(&self.cell_type.data_type, got) {
            return Misfit::CellCount { got, expected };
        }
        Misfit::NoValue
    }
}
