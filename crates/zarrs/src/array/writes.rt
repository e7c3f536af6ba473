//! Stores of an array, which pass to its engine. They take array bytes, or a list of the values of the cells.
ghost use Rattle.zarrs.specs.Queries.{Tests};
ghost use Rattle.zarrs.specs.Typed.{number_refusal};

use super::Array;
use std::alloc::Global;
use zarrs_codec::CodecOptions;
use zarrs_data_type::IntoArrayBytes;
use zarrs_engine::ArrayError;
use zarrs_storage::WritableStorageTraits;
use zarrs_subset::{ArraySubset, ArraySubsetTraits, IncompatibleDimensionalityError};

/// Tests whether a `u64` counts the chunks of a range.
///
/// # Errors
/// E8 if it does not.
fn check_number<R: ArraySubsetTraits>(chunks: &R) -> Result<(), ArrayError>
    ensures { Tests (number_refusal (R.region chunks.now)) result }
{
    match chunks.num_elements() {
        Ok(_) => Ok(()),
        Err(_) => Err(ArrayError::SizeOverflow),
    }
}

impl<TStorage> Array<TStorage> {
    ghost use Rattle.zarrs_subset.specs.Regions.{box_of};
    ghost use Rattle.zarrs.specs.Arrays.{layout_of_array};
    ghost use Rattle.zarrs.specs.Queries.{Tests};
    ghost use Rattle.zarrs.specs.Typed.{place_refusal, chunk_part_refusal};

    /// Tests whether a part lies in the chunk with these indices.
    ///
    /// # Errors
    /// In this order: E10 for another number of indices than dimensions; E3 for indices without a chunk; E2 for a part
    /// of another number of dimensions, or that passes the chunk. E9 may come at any time.
    fn check_part(
        &self,
        alloc: Global,
        chunk_indices: &[u64],
        part: &ArraySubset,
    ) -> Result<(), ArrayError>
        ensures { Tests
            (place_refusal (layout_of_array self.now) chunk_indices.now (box_of part.now)) result }
    {
        let dimensions = self.dimensionality();
        if chunk_indices.len() != dimensions {
            let error = IncompatibleDimensionalityError::new(chunk_indices.len(), dimensions);
            return Err(error.into());
        }
        self.check_part_of_chunk(alloc, chunk_indices, part)
    }

    /// Does the rest of what `check_part` does, once the number of indices was tested.
    ///
    /// # Errors
    /// In this order: E3, then E2, as `check_part`. E9 may come at any time.
    fn check_part_of_chunk(
        &self,
        alloc: Global,
        chunk_indices: &[u64],
        part: &ArraySubset,
    ) -> Result<(), ArrayError>
        ensures { Tests
            (chunk_part_refusal (layout_of_array self.now) chunk_indices.now (box_of part.now))
            result }
    {
        let layout = self.engine.layout();
        let chunk = layout.chunk_box(alloc, chunk_indices)?;
        layout.check_part(alloc, chunk_indices, chunk.shape(), part)
    }

    /// Does what `check_part` does, for whatever stands for the part.
    fn check_place<R: ArraySubsetTraits>(
        &self,
        alloc: Global,
        chunk_indices: &[u64],
        chunk_subset: &R,
    ) -> Result<(), ArrayError>
        ensures { Tests
            (place_refusal (layout_of_array self.now) chunk_indices.now (R.region chunk_subset.now))
            result }
    {
        let part = chunk_subset.to_array_subset(alloc)?;
        self.check_part(alloc, chunk_indices, &part)
    }
}

impl<TStorage: WritableStorageTraits> Array<TStorage> {
    ghost use Rattle.std.specs.Prelude.{false};
    ghost use Rattle.zarrs_codec.specs.Options.{stores_empty_chunks};
    ghost use Rattle.zarrs_engine_calls.specs.ArgumentRefusals.{region_refusal};
    ghost use Rattle.zarrs.specs.Arrays.{layout_of_array, state_of_array};
    ghost use Rattle.zarrs.specs.Queries.{Tests};
    ghost use Rattle.zarrs.specs.Outcomes.{StoresChunkOrRefuses, StoresChunksOrRefuses};
    ghost use Rattle.zarrs.specs.Outcomes.{StoresPartAs, StoresPartOrRefuses, MayStorePart};
    ghost use Rattle.zarrs.specs.Outcomes.{StoresRegionAs, StoresRegionOrRefuses, MayStoreRegion};

    /// Tests whether the chunks of the array cover the region.
    ///
    /// # Errors
    /// E1 for another number of dimensions, or a position that no chunk covers. E9 may come at any time.
    fn check_region<R: ArraySubsetTraits>(
        &self,
        alloc: Global,
        array_subset: &R,
    ) -> Result<(), ArrayError>
        ensures { Tests (region_refusal (layout_of_array self.now)
            (state_of_array TStorage.state self.now).shape (R.region array_subset.now)) result }
    {
        let region = array_subset.to_array_subset(alloc)?;
        let _ = self.engine.layout().chunks_met(alloc, &region)?;
        Ok(())
    }

    /// Stores the cells of the chunk with these indices, by one writing call of the store. If each cell is the fill
    /// value's, the key is erased.
    ///
    /// # Errors
    /// In this order: E5 for values that are not those of the data type; E3 for indices without a chunk; E8 for a chunk
    /// of more bytes than a `usize` counts; E4 for data
    /// that is not one cell for each position, each a value of the data type, or that the chain does not take; E8 if
    /// an encoded size overflows; E7 if the store refuses. E9 may come at any time. Nothing is changed then.
    pub fn store_chunk<'a, D: IntoArrayBytes<'a>>(
        &mut self,
        alloc: Global,
        chunk_indices: &[u64],
        chunk_data: D,
    ) -> Result<(), ArrayError>
        ensures { StoresChunkOrRefuses D.serves (D.gives chunk_data) TStorage.state false
            chunk_indices.now self.old self.new result }
    {
        self.store_chunk_opt(alloc, chunk_indices, chunk_data, &CodecOptions::default())
    }

    /// Does what `store_chunk` does, under these options.
    ///
    /// # Errors
    /// Those of `store_chunk`.
    pub fn store_chunk_opt<'a, D: IntoArrayBytes<'a>>(
        &mut self,
        alloc: Global,
        chunk_indices: &[u64],
        chunk_data: D,
        options: &CodecOptions,
    ) -> Result<(), ArrayError>
        ensures { StoresChunkOrRefuses D.serves (D.gives chunk_data) TStorage.state
            (stores_empty_chunks options.now) chunk_indices.now self.old self.new result }
    {
        let chunk_data = chunk_data.into_array_bytes(alloc, self.engine.data_type())?;
        self.engine
            .store_chunk(alloc, chunk_indices, &chunk_data, options)
    }

    /// Stores the cells, in row-major order, over the chunks with the indices in the range, one chunk after another in
    /// row-major order, each by one writing call of the store. No chunk is read. A range without a chunk takes data
    /// without a cell, and asks nothing of the store.
    ///
    /// # Errors
    /// In this order: E8 for more chunks than a `u64` counts; E5 for values that are not those of the data type; of a
    /// range of one chunk the errors of `store_chunk`; E3
    /// for a first index without a chunk, then for such a last one; E4 for data that is not one cell for each position,
    /// each a value of the data type. Then, at one of the chunks: E8 for a chunk of more bytes than a `usize` counts;
    /// E4 if the chain does not take it; E8 if an encoded size overflows; E7 if the store refuses. E9 may come at any time.
    /// The chunks before that one are stored then, and no later one.
    pub fn store_chunks<'a, D: IntoArrayBytes<'a>, R: ArraySubsetTraits>(
        &mut self,
        alloc: Global,
        chunks: &R,
        chunks_data: D,
    ) -> Result<(), ArrayError>
        ensures { StoresChunksOrRefuses D.serves (D.gives chunks_data) TStorage.state false
            (R.region chunks.now) self.old self.new result }
    {
        self.store_chunks_opt(alloc, chunks, chunks_data, &CodecOptions::default())
    }

    /// Does what `store_chunks` does, under these options.
    ///
    /// # Errors
    /// Those of `store_chunks`.
    pub fn store_chunks_opt<'a, D: IntoArrayBytes<'a>, R: ArraySubsetTraits>(
        &mut self,
        alloc: Global,
        chunks: &R,
        chunks_data: D,
        options: &CodecOptions,
    ) -> Result<(), ArrayError>
        ensures { StoresChunksOrRefuses D.serves (D.gives chunks_data) TStorage.state
            (stores_empty_chunks options.now) (R.region chunks.now) self.old self.new result }
    {
        let chunks_data = match chunks_data.into_array_bytes(alloc, self.engine.data_type()) {
            Ok(chunks_data) => chunks_data,
            Err(error) => {
                check_number(chunks)?;
                return Err(error.into());
            }
        };
        let chunks = chunks.to_array_subset(alloc)?;
        self.engine
            .store_chunks(alloc, &chunks, &chunks_data, options)
    }

    /// Stores the cells over a part of the chunk with these indices, by one writing call of the store. The part is seen
    /// from the origin of the chunk. Unless it is the whole chunk, the chunk is read first.
    ///
    /// # Errors
    /// In this order: E10 for another number of indices than dimensions; E3 for indices without a chunk; E2 for a part
    /// of another number of dimensions, or that passes the chunk; E5 for values that are not those of the data type; if
    /// it is the whole chunk, E8 if that has more bytes than a `usize` counts; E4 for data that is not one cell for
    /// each position, each a value of the data type. Then E8 for such a chunk; of a chunk that is read, E7 if the store
    /// refuses its key, and E4 if its bytes do not decode, or E8 if a chunk of fill has more bytes than a `usize` counts,
    /// which is needed where the chunk is absent or its bytes leave out cells; E4 if the chain does not take it; E8 if
    /// an encoded size overflows; E7 if the store refuses the write. E9 may come at any time. Nothing is changed then.
    pub fn store_chunk_subset<'a, D: IntoArrayBytes<'a>, R: ArraySubsetTraits>(
        &mut self,
        alloc: Global,
        chunk_indices: &[u64],
        chunk_subset: &R,
        chunk_subset_data: D,
    ) -> Result<(), ArrayError>
        requires { MayStorePart TStorage.state chunk_indices.now (R.region chunk_subset.now)
            self.old }
        ensures { StoresPartOrRefuses D.serves (D.gives chunk_subset_data) TStorage.state false
            chunk_indices.now (R.region chunk_subset.now) self.old self.new result }
    {
        self.store_chunk_subset_opt(
            alloc,
            chunk_indices,
            chunk_subset,
            chunk_subset_data,
            &CodecOptions::default(),
        )
    }

    /// Does what `store_chunk_subset` does, under these options. If they ask for it, and the chain and the store can, a
    /// part that is not the whole chunk is written by itself: only what that needs of the chunk is decoded, and its key
    /// holds what a partial encode makes of what stood there.
    ///
    /// # Errors
    /// Those of `store_chunk_subset`.
    pub fn store_chunk_subset_opt<'a, D: IntoArrayBytes<'a>, R: ArraySubsetTraits>(
        &mut self,
        alloc: Global,
        chunk_indices: &[u64],
        chunk_subset: &R,
        chunk_subset_data: D,
        options: &CodecOptions,
    ) -> Result<(), ArrayError>
        requires { MayStorePart TStorage.state chunk_indices.now (R.region chunk_subset.now)
            self.old }
        ensures { StoresPartAs D.serves (D.gives chunk_subset_data) TStorage.state options.now
            chunk_indices.now (R.region chunk_subset.now) self.old self.new result }
    {
        let chunk_subset_data = match chunk_subset_data.into_array_bytes(
            alloc,
            self.engine.data_type(),
        ) {
            Ok(chunk_subset_data) => chunk_subset_data,
            Err(error) => {
                self.check_place(alloc, chunk_indices, chunk_subset)?;
                return Err(error.into());
            }
        };
        let chunk_subset = chunk_subset.to_array_subset(alloc)?;
        self.engine.store_chunk_subset(
            alloc,
            chunk_indices,
            &chunk_subset,
            &chunk_subset_data,
            options,
        )
    }

    /// Stores the cells, in row-major order, over the region, one chunk after another in row-major order, each by one
    /// writing call of the store. A chunk that the region covers only in part is read first; its cells outside the region
    /// stay. An empty region asks nothing of the store.
    ///
    /// # Errors
    /// In this order: E1 for another number of dimensions, or a position that no chunk covers; E5 for values that are
    /// not those of the data type; for a region that is one chunk E8 if it has more bytes than a `usize` counts; E4 for
    /// data that is not one cell for each position, each a value of the data type. Then, at one of the chunks: E8 for a
    /// chunk of more bytes than a `usize` counts; of a chunk that is read, E7 if the store refuses its key, and E4 if
    /// its bytes do not decode, or E8 if a chunk of fill has more bytes than that, which is needed where the chunk is
    /// absent or its bytes leave out cells; E4 if the chain does not take it; E8 if an encoded size overflows; E7 if the
    /// store refuses the write. E9 may come at any time. The chunks before that one are stored then, and no later one.
    pub fn store_array_subset<'a, D: IntoArrayBytes<'a>, R: ArraySubsetTraits>(
        &mut self,
        alloc: Global,
        array_subset: &R,
        subset_data: D,
    ) -> Result<(), ArrayError>
        requires { MayStoreRegion TStorage.state (R.region array_subset.now) self.old }
        ensures { StoresRegionOrRefuses D.serves (D.gives subset_data) TStorage.state false
            (R.region array_subset.now) self.old self.new result }
    {
        self.store_array_subset_opt(alloc, array_subset, subset_data, &CodecOptions::default())
    }

    /// Does what `store_array_subset` does, under these options. If they ask for it, and the chain and the store can, a
    /// chunk that the region covers only in part takes its part by itself: only what that needs of it is decoded, and its
    /// key holds what a partial encode makes of what stood there.
    ///
    /// # Errors
    /// Those of `store_array_subset`.
    pub fn store_array_subset_opt<'a, D: IntoArrayBytes<'a>, R: ArraySubsetTraits>(
        &mut self,
        alloc: Global,
        array_subset: &R,
        subset_data: D,
        options: &CodecOptions,
    ) -> Result<(), ArrayError>
        requires { MayStoreRegion TStorage.state (R.region array_subset.now) self.old }
        ensures { StoresRegionAs D.serves (D.gives subset_data) TStorage.state options.now
            (R.region array_subset.now) self.old self.new result }
    {
        let subset_data = match subset_data.into_array_bytes(alloc, self.engine.data_type()) {
            Ok(subset_data) => subset_data,
            Err(error) => {
                self.check_region(alloc, array_subset)?;
                return Err(error.into());
            }
        };
        let array_subset = array_subset.to_array_subset(alloc)?;
        self.engine
            .store_array_subset(alloc, &array_subset, &subset_data, options)
    }
}
