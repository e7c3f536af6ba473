//! Reads that return lists of elements, and stores that take them, under their older names.
use super::Array;
use std::alloc::Global;
use zarrs_codec::CodecOptions;
use zarrs_data_type::{Element, ElementOwned};
use zarrs_engine::ArrayError;
use zarrs_storage::{ReadableStorageTraits, WritableStorageTraits};
use zarrs_subset::ArraySubsetTraits;

impl<TStorage: ReadableStorageTraits> Array<TStorage> {
    ghost use Rattle.zarrs.specs.Elements.{ReadsElements};
    ghost use Rattle.zarrs.specs.Outcomes.{RetrievesChunkOrRefuses, RetrievesIfExistsOrRefuses};
    ghost use Rattle.zarrs.specs.Outcomes.{MayRetrieveChunk, MayRetrievePart, RetrievesPartOrRefuses};
    ghost use Rattle.zarrs.specs.Outcomes.{RetrievesChunksOrRefuses, MayRetrieveChunks};
    ghost use Rattle.zarrs.specs.Outcomes.{RetrievesRegionOrRefuses, MayRetrieveRegion};

    /// Reads the elements of the chunk with these indices, or returns `None` if it is absent. It is `retrieve_chunk_if_exists` of a list.
    ///
    /// # Errors
    /// Those of `retrieve_chunk_if_exists`.
    #[deprecated(note = "use `retrieve_chunk_if_exists` of a `Vec`")]
    pub fn retrieve_chunk_elements_if_exists<T: ElementOwned>(
        &self,
        alloc: Global,
        chunk_indices: &[u64],
    ) -> Result<Option<Vec<T>>, ArrayError>
        requires { MayRetrieveChunk TStorage.state chunk_indices.now self.now }
        ensures { RetrievesIfExistsOrRefuses T.serves (ReadsElements T.cell) TStorage.state
            chunk_indices.now self.now result }
    {
        self.retrieve_chunk_if_exists(alloc, chunk_indices)
    }

    /// Does what `retrieve_chunk_elements_if_exists` does. No option changes what is read.
    ///
    /// # Errors
    /// Those of `retrieve_chunk_elements_if_exists`.
    #[deprecated(note = "use `retrieve_chunk_if_exists_opt` of a `Vec`")]
    pub fn retrieve_chunk_elements_if_exists_opt<T: ElementOwned>(
        &self,
        alloc: Global,
        chunk_indices: &[u64],
        options: &CodecOptions,
    ) -> Result<Option<Vec<T>>, ArrayError>
        requires { MayRetrieveChunk TStorage.state chunk_indices.now self.now }
        ensures { RetrievesIfExistsOrRefuses T.serves (ReadsElements T.cell) TStorage.state
            chunk_indices.now self.now result }
    {
        self.retrieve_chunk_if_exists_opt(alloc, chunk_indices, options)
    }

    /// Reads the elements of the chunk with these indices. It is `retrieve_chunk` of a list.
    ///
    /// # Errors
    /// Those of `retrieve_chunk`.
    #[deprecated(note = "use `retrieve_chunk` of a `Vec`")]
    pub fn retrieve_chunk_elements<T: ElementOwned>(
        &self,
        alloc: Global,
        chunk_indices: &[u64],
    ) -> Result<Vec<T>, ArrayError>
        requires { MayRetrieveChunk TStorage.state chunk_indices.now self.now }
        ensures { RetrievesChunkOrRefuses T.serves (ReadsElements T.cell) TStorage.state
            chunk_indices.now self.now result }
    {
        self.retrieve_chunk(alloc, chunk_indices)
    }

    /// Does what `retrieve_chunk_elements` does. No option changes what is read.
    ///
    /// # Errors
    /// Those of `retrieve_chunk_elements`.
    #[deprecated(note = "use `retrieve_chunk_opt` of a `Vec`")]
    pub fn retrieve_chunk_elements_opt<T: ElementOwned>(
        &self,
        alloc: Global,
        chunk_indices: &[u64],
        options: &CodecOptions,
    ) -> Result<Vec<T>, ArrayError>
        requires { MayRetrieveChunk TStorage.state chunk_indices.now self.now }
        ensures { RetrievesChunkOrRefuses T.serves (ReadsElements T.cell) TStorage.state
            chunk_indices.now self.now result }
    {
        self.retrieve_chunk_opt(alloc, chunk_indices, options)
    }

    /// Reads the elements of the chunks with the indices in the range. It is `retrieve_chunks` of a list.
    ///
    /// # Errors
    /// Those of `retrieve_chunks`.
    #[deprecated(note = "use `retrieve_chunks` of a `Vec`")]
    pub fn retrieve_chunks_elements<T: ElementOwned, R: ArraySubsetTraits>(
        &self,
        alloc: Global,
        chunks: &R,
    ) -> Result<Vec<T>, ArrayError>
        requires { MayRetrieveChunks TStorage.state (R.region chunks.now) self.now }
        ensures { RetrievesChunksOrRefuses T.serves (ReadsElements T.cell) TStorage.state
            (R.region chunks.now) self.now result }
    {
        self.retrieve_chunks(alloc, chunks)
    }

    /// Does what `retrieve_chunks_elements` does. No option changes what is read.
    ///
    /// # Errors
    /// Those of `retrieve_chunks_elements`.
    #[deprecated(note = "use `retrieve_chunks_opt` of a `Vec`")]
    pub fn retrieve_chunks_elements_opt<T: ElementOwned, R: ArraySubsetTraits>(
        &self,
        alloc: Global,
        chunks: &R,
        options: &CodecOptions,
    ) -> Result<Vec<T>, ArrayError>
        requires { MayRetrieveChunks TStorage.state (R.region chunks.now) self.now }
        ensures { RetrievesChunksOrRefuses T.serves (ReadsElements T.cell) TStorage.state
            (R.region chunks.now) self.now result }
    {
        self.retrieve_chunks_opt(alloc, chunks, options)
    }

    /// Reads the elements of a part of the chunk with these indices. It is `retrieve_chunk_subset` of a list.
    ///
    /// # Errors
    /// Those of `retrieve_chunk_subset`.
    #[deprecated(note = "use `retrieve_chunk_subset` of a `Vec`")]
    pub fn retrieve_chunk_subset_elements<T: ElementOwned, R: ArraySubsetTraits>(
        &self,
        alloc: Global,
        chunk_indices: &[u64],
        chunk_subset: &R,
    ) -> Result<Vec<T>, ArrayError>
        requires { MayRetrievePart TStorage.state chunk_indices.now (R.region chunk_subset.now)
            self.now }
        ensures { RetrievesPartOrRefuses T.serves (ReadsElements T.cell) TStorage.state
            chunk_indices.now (R.region chunk_subset.now) self.now result }
    {
        self.retrieve_chunk_subset(alloc, chunk_indices, chunk_subset)
    }

    /// Does what `retrieve_chunk_subset_elements` does. No option changes what is read.
    ///
    /// # Errors
    /// Those of `retrieve_chunk_subset_elements`.
    #[deprecated(note = "use `retrieve_chunk_subset_opt` of a `Vec`")]
    pub fn retrieve_chunk_subset_elements_opt<T: ElementOwned, R: ArraySubsetTraits>(
        &self,
        alloc: Global,
        chunk_indices: &[u64],
        chunk_subset: &R,
        options: &CodecOptions,
    ) -> Result<Vec<T>, ArrayError>
        requires { MayRetrievePart TStorage.state chunk_indices.now (R.region chunk_subset.now)
            self.now }
        ensures { RetrievesPartOrRefuses T.serves (ReadsElements T.cell) TStorage.state
            chunk_indices.now (R.region chunk_subset.now) self.now result }
    {
        self.retrieve_chunk_subset_opt(alloc, chunk_indices, chunk_subset, options)
    }

    /// Reads the elements of the region. It is `retrieve_array_subset` of a list.
    ///
    /// # Errors
    /// Those of `retrieve_array_subset`.
    #[deprecated(note = "use `retrieve_array_subset` of a `Vec`")]
    pub fn retrieve_array_subset_elements<T: ElementOwned, R: ArraySubsetTraits>(
        &self,
        alloc: Global,
        array_subset: &R,
    ) -> Result<Vec<T>, ArrayError>
        requires { MayRetrieveRegion TStorage.state (R.region array_subset.now) self.now }
        ensures { RetrievesRegionOrRefuses T.serves (ReadsElements T.cell) TStorage.state
            (R.region array_subset.now) self.now result }
    {
        self.retrieve_array_subset(alloc, array_subset)
    }

    /// Does what `retrieve_array_subset_elements` does. No option changes what is read.
    ///
    /// # Errors
    /// Those of `retrieve_array_subset_elements`.
    #[deprecated(note = "use `retrieve_array_subset_opt` of a `Vec`")]
    pub fn retrieve_array_subset_elements_opt<T: ElementOwned, R: ArraySubsetTraits>(
        &self,
        alloc: Global,
        array_subset: &R,
        options: &CodecOptions,
    ) -> Result<Vec<T>, ArrayError>
        requires { MayRetrieveRegion TStorage.state (R.region array_subset.now) self.now }
        ensures { RetrievesRegionOrRefuses T.serves (ReadsElements T.cell) TStorage.state
            (R.region array_subset.now) self.now result }
    {
        self.retrieve_array_subset_opt(alloc, array_subset, options)
    }
}

impl<TStorage: WritableStorageTraits> Array<TStorage> {
    ghost use Rattle.std.specs.Prelude.{false};
    ghost use Rattle.zarrs_codec.specs.Options.{stores_empty_chunks};
    ghost use Rattle.zarrs.specs.Elements.{GivesElements};
    ghost use Rattle.zarrs.specs.Outcomes.{StoresChunkOrRefuses, StoresChunksOrRefuses};
    ghost use Rattle.zarrs.specs.Outcomes.{StoresPartAs, StoresPartOrRefuses, MayStorePart};
    ghost use Rattle.zarrs.specs.Outcomes.{StoresRegionAs, StoresRegionOrRefuses, MayStoreRegion};

    /// Stores the elements as the cells of the chunk with these indices. It is `store_chunk` of a list.
    ///
    /// # Errors
    /// Those of `store_chunk`.
    #[deprecated(note = "use `store_chunk` of a list")]
    pub fn store_chunk_elements<T: Element>(
        &mut self,
        alloc: Global,
        chunk_indices: &[u64],
        chunk_elements: &[T],
    ) -> Result<(), ArrayError>
        ensures { StoresChunkOrRefuses T.serves (GivesElements T.cell chunk_elements.now)
            TStorage.state false chunk_indices.now self.old self.new result }
    {
        self.store_chunk(alloc, chunk_indices, chunk_elements)
    }

    /// Does what `store_chunk_elements` does, under these options.
    ///
    /// # Errors
    /// Those of `store_chunk_elements`.
    #[deprecated(note = "use `store_chunk_opt` of a list")]
    pub fn store_chunk_elements_opt<T: Element>(
        &mut self,
        alloc: Global,
        chunk_indices: &[u64],
        chunk_elements: &[T],
        options: &CodecOptions,
    ) -> Result<(), ArrayError>
        ensures { StoresChunkOrRefuses T.serves (GivesElements T.cell chunk_elements.now)
            TStorage.state (stores_empty_chunks options.now) chunk_indices.now self.old self.new
            result }
    {
        self.store_chunk_opt(alloc, chunk_indices, chunk_elements, options)
    }

    /// Stores the elements over the chunks with the indices in the range. It is `store_chunks` of a list.
    ///
    /// # Errors
    /// Those of `store_chunks`.
    #[deprecated(note = "use `store_chunks` of a list")]
    pub fn store_chunks_elements<T: Element, R: ArraySubsetTraits>(
        &mut self,
        alloc: Global,
        chunks: &R,
        chunks_elements: &[T],
    ) -> Result<(), ArrayError>
        ensures { StoresChunksOrRefuses T.serves (GivesElements T.cell chunks_elements.now)
            TStorage.state false (R.region chunks.now) self.old self.new result }
    {
        self.store_chunks(alloc, chunks, chunks_elements)
    }

    /// Does what `store_chunks_elements` does, under these options.
    ///
    /// # Errors
    /// Those of `store_chunks_elements`.
    #[deprecated(note = "use `store_chunks_opt` of a list")]
    pub fn store_chunks_elements_opt<T: Element, R: ArraySubsetTraits>(
        &mut self,
        alloc: Global,
        chunks: &R,
        chunks_elements: &[T],
        options: &CodecOptions,
    ) -> Result<(), ArrayError>
        ensures { StoresChunksOrRefuses T.serves (GivesElements T.cell chunks_elements.now)
            TStorage.state (stores_empty_chunks options.now) (R.region chunks.now) self.old self.new
            result }
    {
        self.store_chunks_opt(alloc, chunks, chunks_elements, options)
    }

    /// Stores the elements over a part of the chunk with these indices. It is `store_chunk_subset` of a list.
    ///
    /// # Errors
    /// Those of `store_chunk_subset`.
    #[deprecated(note = "use `store_chunk_subset` of a list")]
    pub fn store_chunk_subset_elements<T: Element, R: ArraySubsetTraits>(
        &mut self,
        alloc: Global,
        chunk_indices: &[u64],
        chunk_subset: &R,
        chunk_subset_elements: &[T],
    ) -> Result<(), ArrayError>
        requires { MayStorePart TStorage.state chunk_indices.now (R.region chunk_subset.now)
            self.old }
        ensures { StoresPartOrRefuses T.serves (GivesElements T.cell chunk_subset_elements.now)
            TStorage.state false chunk_indices.now (R.region chunk_subset.now) self.old self.new
            result }
    {
        self.store_chunk_subset(alloc, chunk_indices, chunk_subset, chunk_subset_elements)
    }

    /// Does what `store_chunk_subset_elements` does, under these options.
    ///
    /// # Errors
    /// Those of `store_chunk_subset_elements`.
    #[deprecated(note = "use `store_chunk_subset_opt` of a list")]
    pub fn store_chunk_subset_elements_opt<T: Element, R: ArraySubsetTraits>(
        &mut self,
        alloc: Global,
        chunk_indices: &[u64],
        chunk_subset: &R,
        chunk_subset_elements: &[T],
        options: &CodecOptions,
    ) -> Result<(), ArrayError>
        requires { MayStorePart TStorage.state chunk_indices.now (R.region chunk_subset.now)
            self.old }
        ensures { StoresPartAs T.serves (GivesElements T.cell chunk_subset_elements.now)
            TStorage.state options.now chunk_indices.now (R.region chunk_subset.now) self.old
            self.new result }
    {
        self.store_chunk_subset_opt(
            alloc,
            chunk_indices,
            chunk_subset,
            chunk_subset_elements,
            options,
        )
    }

    /// Stores the elements over the region. It is `store_array_subset` of a list.
    ///
    /// # Errors
    /// Those of `store_array_subset`.
    #[deprecated(note = "use `store_array_subset` of a list")]
    pub fn store_array_subset_elements<T: Element, R: ArraySubsetTraits>(
        &mut self,
        alloc: Global,
        array_subset: &R,
        subset_elements: &[T],
    ) -> Result<(), ArrayError>
        requires { MayStoreRegion TStorage.state (R.region array_subset.now) self.old }
        ensures { StoresRegionOrRefuses T.serves (GivesElements T.cell subset_elements.now)
            TStorage.state false (R.region array_subset.now) self.old self.new result }
    {
        self.store_array_subset(alloc, array_subset, subset_elements)
    }

    /// Does what `store_array_subset_elements` does, under these options.
    ///
    /// # Errors
    /// Those of `store_array_subset_elements`.
    #[deprecated(note = "use `store_array_subset_opt` of a list")]
    pub fn store_array_subset_elements_opt<T: Element, R: ArraySubsetTraits>(
        &mut self,
        alloc: Global,
        array_subset: &R,
        subset_elements: &[T],
        options: &CodecOptions,
    ) -> Result<(), ArrayError>
        requires { MayStoreRegion TStorage.state (R.region array_subset.now) self.old }
        ensures { StoresRegionAs T.serves (GivesElements T.cell subset_elements.now)
            TStorage.state options.now (R.region array_subset.now) self.old self.new result }
    {
        self.store_array_subset_opt(alloc, array_subset, subset_elements, options)
    }
}
