//! The parts of an array beside its store, and what they say of one chunk.
ghost use Rattle.std.specs.Prelude.{◌≡◌};
ghost use Rattle.zarrs_subset.specs.Boxes.{position_count};
ghost use Rattle.zarrs_data_type.specs.Kind.{kind};
ghost use Rattle.zarrs_engine_calls.specs.Layout.{IsLawful, layout_at};
ghost use Rattle.zarrs_engine_layout.specs.Steps.{RefusesIndices};
ghost use Rattle.zarrs_engine_calls.specs.Lawful.{IsLawful-prop};

use std::alloc::Global;
use zarrs_chunk_grid::ChunkGridTraits;
use zarrs_codec_chain::{ChainTraits, CodecOptions};
use zarrs_codec_leaf::CodecError;
use zarrs_data_type::{ArrayBytes, CellType, ChunkType};
use zarrs_engine_calls::ArrayError;
use zarrs_keys::{ChunkKeyEncodingTraits, NodePath, chunk_key};
use zarrs_storage::{StorageError, StoreKey};
use zarrs_subset::ArraySubset;

/// Where an array lies, how it is cut into chunks, and what the bytes of its chunks mean.
#[derive(Debug, Drop)]
pub struct ArrayLayout<G: ChunkGridTraits, K: ChunkKeyEncodingTraits, C: ChainTraits> {
    /// Where the array lies.
    pub path: NodePath,
    /// How it is cut into chunks.
    pub grid: G,
    /// How the keys of chunks are made.
    pub keys: K,
    /// How the cells of a chunk become bytes.
    pub chain: C,
    /// The type of the cells, and the value of a cell that was never written.
    pub cell_type: CellType,
    ghost lawful: { IsLawful (layout_at (G.grid grid) path (K.key keys) (C.meaning chain)
        (kind cell_type.data_type) cell_type.fill_value) } by { IsLawful-prop (layout_at
            (G.grid grid) path (K.key keys) (C.meaning chain) (kind cell_type.data_type)
            cell_type.fill_value) },
}

/// A chunk that a call is about. What is made of its indices is made once.
#[derive(Debug, Drop)]
pub struct Chunk<'a> {
    /// Its indices.
    pub indices: &'a [u64],
    /// The key of its value.
    pub key: StoreKey,
    /// Its box.
    pub region: ArraySubset,
}

impl<G: ChunkGridTraits, K: ChunkKeyEncodingTraits, C: ChainTraits> ArrayLayout<G, K, C> {
    ghost use Rattle.std.specs.Prelude.{◌≡◌, ◌<◌, true, Some, None};
    ghost use Rattle.std.specs.Prelude.{Bool, List, ℕ};
    ghost use Rattle.zarrs_subset.specs.Regions.{box_at_origin};
    ghost use Rattle.std.specs.Prelude.{IfOk, IfErr, OnOk, IsSome, IsSomeAnd};
    ghost use Rattle.std.specs.Prelude.{IsOkUnless};
    ghost use Rattle.zarrs_chunk_grid.specs.Grids.{box_at};
    ghost use Rattle.zarrs_data_type.specs.ArrayData.{data_of};
    ghost use Rattle.zarrs_data_type.specs.Cells.{cells, HasCells};
    ghost use Rattle.zarrs_codec_chain.specs.Options.{stores_empty_chunks};
    ghost use Rattle.zarrs_engine_layout.specs.Answers.{Answers};
    ghost use Rattle.zarrs_engine_layout.specs.Chunks.{IsChunkAt};
    ghost use Rattle.zarrs_engine_layout.specs.Layouts.{layout_meaning};
    ghost use Rattle.zarrs_engine_calls.specs.Content.{decoded_cells};
    ghost use Rattle.zarrs_engine_calls.specs.ArgumentRefusals.{chunk_refusal};
    ghost use Rattle.zarrs_engine_calls.specs.Refusals.{refusal_of};
    ghost use Rattle.zarrs_engine_calls.specs.Refusals.{box_refusal, data_refusal, read_refusal};
    ghost use Rattle.zarrs_engine_calls.specs.Refusals.{is_left_out};
    ghost use Rattle.zarrs_engine_layout.specs.Steps.{IsFill, MakesValue, RefusesBytes};

    /// Returns the key of the chunk with these indices.
    ///
    /// # Errors
    /// Only `OutOfMemory`.
    #[inline(always)]
    pub fn chunk_key(&self, alloc: Global, chunk_indices: &[u64]) -> Result<StoreKey, StorageError>
        ensures key { IfOk result (λ key. key ≡ (layout_meaning self.now).key chunk_indices.now) }
        ensures accepted { IsOkUnless result StorageError.OutOfMemory }
    {
        chunk_key(alloc, &self.path, &self.keys, chunk_indices)
    }

    /// Returns the chunk with these indices.
    ///
    /// # Errors
    /// E3 for another number of indices than dimensions, or indices without a chunk. E9 may come at any time.
    #[inline(always)]
    pub fn chunk<'a>(
        &self,
        alloc: Global,
        chunk_indices: &'a [u64],
    ) -> Result<Chunk<'a>, ArrayError>
        ensures { Answers (chunk_refusal (layout_meaning self.now) chunk_indices.now)
            (IsChunkAt (layout_meaning self.now) chunk_indices.now) result }
    {
        let region = self.chunk_box(alloc, chunk_indices)?;
        let key = self.chunk_key(alloc, chunk_indices)?;
        Ok(Chunk {
            indices: chunk_indices,
            key,
            region,
        })
    }

    /// Returns what `value_of` returns for the chunk with these indices, of data that may be no cells of it.
    ///
    /// # Errors
    /// In this order: E3 for indices without a chunk; E8 for a chunk of more bytes than a `usize` counts; E4 for data that
    /// is not one cell for each position, each a value of the data type; those of `value_of`. E9 may come at any time.
    pub fn chunk_value(
        &self,
        alloc: Global,
        chunk_indices: &[u64],
        chunk_data: &ArrayBytes<'_>,
        options: &CodecOptions,
    ) -> Result<Option<Vec<u8>>, ArrayError>
        ensures { MakesValue (layout_meaning self.now) (stores_empty_chunks options.now)
            (box_refusal (layout_meaning self.now) chunk_indices.now)
            (box_at (G.grid self.now.grid) chunk_indices.now) (data_of chunk_data.now) result }
    {
        let chunk = self.chunk_extents(alloc, chunk_indices)?;
        self.check_count(chunk.count, chunk_data)?;
        self.value_of(alloc, chunk.shape.as_slice(), chunk_data, options)
    }

    /// Returns what is to be present at the key of a chunk of this shape with these cells: their bytes, or nothing if
    /// empty chunks are not kept and each cell is the fill value's.
    ///
    /// # Errors
    /// In this order: E4 if the chain does not take the chunk; E8 if an encoded size overflows. E9 may come at any time.
    #[inline(always)]
    pub fn value_of(
        &self,
        alloc: Global,
        shape: &[u64],
        chunk_data: &ArrayBytes<'_>,
        options: &CodecOptions,
    ) -> Result<Option<Vec<u8>>, ArrayError>
        requires { HasCells (layout_meaning self.now).kind (data_of chunk_data.now)
            (position_count shape.now) }
        ensures { MakesValue (layout_meaning self.now) (stores_empty_chunks options.now) None
            (box_at_origin shape.now) (data_of chunk_data.now) result }
    {
        if self.leaves_out(chunk_data, options) {
            return Ok(None);
        }
        let chunk = ChunkType {
            cell_type: &self.cell_type,
            shape,
        };
        let encoded = self.chain.encode(alloc, chunk_data, &chunk, options)?;
        Ok(Some(encoded))
    }

    /// Returns what `value_of` returns, of data that is given away: a chain that would put owned bytes down as they are
    /// copies none.
    ///
    /// # Errors
    /// Those of `value_of`.
    pub fn value_of_owned(
        &self,
        alloc: Global,
        shape: &[u64],
        chunk_data: ArrayBytes<'_>,
        options: &CodecOptions,
    ) -> Result<Option<Vec<u8>>, ArrayError>
        requires { HasCells (layout_meaning self.now).kind (data_of chunk_data)
            (position_count shape.now) }
        ensures { MakesValue (layout_meaning self.now) (stores_empty_chunks options.now) None
            (box_at_origin shape.now) (data_of chunk_data.entry) result }
    {
        if self.leaves_out(&chunk_data, options) {
            return Ok(None);
        }
        let chunk = ChunkType {
            cell_type: &self.cell_type,
            shape,
        };
        let encoded = self.chain.encode_owned(alloc, chunk_data, &chunk, options)?;
        Ok(Some(encoded))
    }

    /// Refuses data that is not this many cells, each a value of the data type.
    ///
    /// # Errors
    /// E4 for such data.
    #[inline(always)]
    fn check_count(&self, count: u64, chunk_data: &ArrayBytes<'_>) -> Result<(), ArrayError>
        ensures cells { OnOk result (HasCells (layout_meaning self.now).kind (data_of chunk_data.now)
            count) }
        ensures refused { IfErr result (λ e. (keep : Bool) (shape : List ℕ)
            → position_count shape ≡ count → data_refusal (layout_meaning self.now) keep shape
            (cells (layout_meaning self.now).kind (data_of chunk_data.now)) ≡ Some (refusal_of e)) }
    {
        if !chunk_data.validate(&self.cell_type.data_type, count) {
            let misfit = self.misfit_of(chunk_data, count);
            return Err(ArrayError::CodecError(CodecError::DoesNotFit(misfit)));
        }
        Ok(())
    }

    /// Returns whether nothing is to be present at the key of a chunk with these cells: empty chunks are not kept, and
    /// each cell is the fill value's.
    #[inline(always)]
    fn leaves_out(&self, chunk_data: &ArrayBytes<'_>, options: &CodecOptions) -> bool
        requires { IsSome (cells (layout_meaning self.now).kind (data_of chunk_data.now)) }
        ensures { IsSomeAnd (cells (layout_meaning self.now).kind (data_of chunk_data.now))
            (λ cs. result ≡ is_left_out (layout_meaning self.now)
            (stores_empty_chunks options.now) cs) }
    {
        let CellType {
            data_type,
            fill_value,
        } = &self.cell_type;
        !options.store_empty_chunks() && chunk_data.is_fill_value(data_type, fill_value)
    }

    /// Returns the cells of the bytes of the chunk with these indices. They may be lent by these bytes.
    ///
    /// # Errors
    /// In this order: those of `chunk_extents`; E4 if the bytes do not decode, E8 if they leave out cells and as many fill values
    /// as the chunk has cells have more bytes than a `usize` counts; which comes if both hold is open. E9 may come at any
    /// time.
    #[inline(always)]
    pub fn decode<'a>(
        &self,
        alloc: Global,
        chunk_indices: &[u64],
        encoded: &'a [u8],
    ) -> Result<ArrayBytes<'a>, ArrayError>
        ensures cells { IfOk result (λ made. cells (layout_meaning self.now).kind (data_of made)
            ≡ decoded_cells (layout_meaning self.now)
            (box_at (G.grid self.now.grid) chunk_indices.now) encoded.now) }
        ensures accepted { OnOk result
            (read_refusal (layout_meaning self.now) true chunk_indices.now (Some encoded.now)
            ≡ None) }
        ensures refused { IfErr result
            (λ e. RefusesBytes (layout_meaning self.now) chunk_indices.now encoded.now
            (refusal_of e)) }
    {
        let extents = self.chunk_extents(alloc, chunk_indices)?;
        let chunk = ChunkType {
            cell_type: &self.cell_type,
            shape: extents.shape.as_slice(),
        };
        Ok(self.chain.decode(alloc, encoded, &chunk)?)
    }

    /// Returns the cells of the chunk with these indices if it is absent.
    ///
    /// # Errors
    /// In this order: those of `chunk_extents`; E8 if that many fill values have more bytes than a `usize` counts. E9 may come
    /// at any time.
    pub fn fill(
        &self,
        alloc: Global,
        chunk_indices: &[u64],
    ) -> Result<ArrayBytes<'static>, ArrayError>
        ensures { Answers (read_refusal (layout_meaning self.now) true chunk_indices.now None)
            (λ made. IsFill (layout_meaning self.now)
            (position_count (box_at (G.grid self.now.grid) chunk_indices.now).shape)
            (data_of made)) result }
    {
        let chunk = self.chunk_extents(alloc, chunk_indices)?;
        self.fill_cells(alloc, chunk.count)
    }
}

/// Returns the refusal of these chunk indices.
pub fn invalid_indices(alloc: Global, chunk_indices: &[u64]) -> ArrayError
    ensures { RefusesIndices chunk_indices.now result }
{
    match chunk_indices.to_vec(alloc) {
        Ok(indices) => ArrayError::InvalidChunkGridIndicesError(indices),
        Err(_) => ArrayError::OutOfMemory,
    }
}
