//! Changes of the array's shape.
use super::Engine;
use std::alloc::Global;
use zarrs_chunk_grid::ChunkGridTraits;
use zarrs_codec_chain::{ChainTraits, CodecOptions};
use zarrs_data_type::ArrayBytes;
use zarrs_engine_calls::ArrayError;
use zarrs_engine_layout::{Chunk, beyond};
use zarrs_keys::ChunkKeyEncodingTraits;
use zarrs_storage::WritableStorageTraits;
use zarrs_subset::{ArrayShape, ArraySubset, IncompatibleDimensionalityError};

impl<
    S: WritableStorageTraits,
    G: ChunkGridTraits,
    K: ChunkKeyEncodingTraits,
    C: ChainTraits,
> Engine<S, G, K, C> {
    ghost use Rattle.std.specs.Prelude.{◌≡◌, ◌<◌, ◌+◌, true, false, Option, None, [], ◌∷◌};
    ghost use Rattle.std.specs.Prelude.{length, slice_index};
    ghost use Rattle.std.specs.Prelude.{IfOk, IfErr, OnOk};
    ghost use Rattle.zarrs_subset.specs.Regions.{box_of};
    ghost use Rattle.zarrs_data_type.specs.ArrayData.{data_of};
    ghost use Rattle.zarrs_codec_chain.specs.Options.{stores_empty_chunks};
    ghost use Rattle.zarrs_engine_calls.specs.Cuts.{cut_chunks, is_cut, keeps_some};
    ghost use Rattle.zarrs_engine_calls.specs.Reach.{MayAskChunk, MayAskKept};
    ghost use Rattle.zarrs_engine_calls.specs.Refusals.{Refusal, is_too_large, refusal_of};
    ghost use Rattle.zarrs_engine_layout.specs.Chunks.{IsChunk};
    ghost use Rattle.zarrs_engine.specs.Engine.{layout_of, state_of, store_of, KeepsLayout};
    ghost use Rattle.zarrs_engine.specs.Outcomes.{Writes};
    ghost use Rattle.zarrs_engine.specs.Resizes.{HasCut, HasFilled, LeavesCut, LeavesFront};
    ghost use Rattle.zarrs_engine.specs.Resizes.{MakesCutValue, PassesChunk, RefusesFilling};

    /// Returns the cells of a chunk that begins below the shape, after those that are not below it along an axis became
    /// fill.
    fn fill_beyond(
        &self,
        alloc: Global,
        held: ArrayBytes<'static>,
        chunk: &ArraySubset,
        shape: &[u64],
        axis: usize,
    ) -> Result<ArrayBytes<'static>, ArrayError>
        requires fit { is_too_large (layout_of self.now) (box_of chunk.now).shape ≡ false }
        requires dimensions { length shape.now ≡ length (box_of chunk.now).start }
        requires axis { axis < length shape.now }
        requires begins { slice_index (box_of chunk.now).start axis < slice_index shape.now axis }
        requires held { HasFilled (layout_of self.now) shape.now (box_of chunk.now)
            (store_of S.state self.now) axis (data_of held) }
        ensures filled { IfOk result (λ made. HasFilled (layout_of self.now) shape.now
            (box_of chunk.now) (store_of S.state self.now) (axis + 1) (data_of made)) }
        ensures refused { IfErr result (λ e. RefusesFilling (layout_of self.now) shape.now
            (box_of chunk.now) (refusal_of e)) }
    {
        let Some(gone) = beyond(alloc, chunk, shape, axis)? else {
            return Ok(held);
        };
        let filled = self.layout.filled(alloc, &gone)?;
        let data_type = &self.layout.cell_type.data_type;
        let made = held.update_array_bytes(alloc, data_type, chunk, &filled, &gone)?;
        Ok(made)
    }

    /// Returns what is to be present at the key of a chunk that has cells below the shape, after the others became fill.
    /// The chunk is read.
    fn cut_value(
        &self,
        alloc: Global,
        chunk: &Chunk<'_>,
        shape: &[u64],
        options: &CodecOptions,
    ) -> Result<Option<Vec<u8>>, ArrayError>
        requires chunk { IsChunk (layout_of self.now) chunk.now }
        requires dimensions { length shape.now ≡ (layout_of self.now).grid.dimensions }
        requires kept { keeps_some (layout_of self.now).grid shape.now chunk.now.indices.now ≡ true }
        requires ask { MayAskChunk (layout_of self.now) chunk.now.indices.now
            (store_of S.state self.now) }
        ensures { MakesCutValue (layout_of self.now) (stores_empty_chunks options.now) shape.now
            chunk.now.indices.now (store_of S.state self.now) result }
    {
        let extents = chunk.region.shape();
        let Some(_) = self.layout.shape_count(extents) else {
            return Err(ArrayError::SizeOverflow);
        };
        let mut made = self.chunk_cells(alloc, chunk)?;
        for axis in 0..shape.len() {
            made = self.fill_beyond(alloc, made, &chunk.region, shape, axis)?;
        }
        let value = self.layout.value_of_owned(alloc, extents, made, options)?;
        Ok(value)
    }

    /// Cuts a chunk to the shape if it has a cell that is not below it, by one writing call.
    fn cut_chunk(
        &mut self,
        alloc: Global,
        chunk_indices: &[u64],
        shape: &[u64],
        options: &CodecOptions,
    ) -> Result<(), ArrayError>
        requires indices { length chunk_indices.now ≡ (layout_of self.old).grid.dimensions }
        requires dimensions { length shape.now ≡ (layout_of self.old).grid.dimensions }
        requires ask { is_cut (layout_of self.old).grid shape.now chunk_indices.now ≡ true
            → MayAskKept (layout_of self.old) shape.now (chunk_indices.now ∷ [])
            (store_of S.state self.old) }
        ensures { Writes refusal_of S.state (PassesChunk (layout_of self.old)
            (stores_empty_chunks options.now) shape.now chunk_indices.now)
            (LeavesCut (layout_of self.old) (stores_empty_chunks options.now) shape.now
            chunk_indices.now) self.old self.new result }
    {
        let Some(keeps) = self.layout.cut(chunk_indices, shape) else {
            return Ok(());
        };
        if !keeps {
            let key = self.layout.chunk_key(alloc, chunk_indices)?;
            self.put(alloc, &key, None)?;
            return Ok(());
        }
        let chunk = self.layout.chunk(alloc, chunk_indices)?;
        let value = self.cut_value(alloc, &chunk, shape, options)?;
        self.put(alloc, &chunk.key, value)?;
        Ok(())
    }

    /// Cuts the chunks of the array that a change of its shape to this one cuts, one after another.
    fn cut_along(
        &mut self,
        alloc: Global,
        shape: &[u64],
        options: &CodecOptions,
    ) -> Result<(), ArrayError>
        requires dimensions { length shape.now ≡ (layout_of self.old).grid.dimensions }
        requires ask { MayAskKept (layout_of self.old) shape.now (cut_chunks
            (layout_of self.old).grid (state_of S.state self.old).shape shape.now)
            (store_of S.state self.old) }
        ensures done { OnOk result (HasCut (layout_of self.old) (stores_empty_chunks options.now)
            shape.now (cut_chunks (layout_of self.old).grid (state_of S.state self.old).shape
            shape.now) (store_of S.state self.old) (store_of S.state self.new)) }
        ensures refused { (first : Option Refusal) → first ≡ None → IfErr result
            (λ e. LeavesFront (layout_of self.old) (stores_empty_chunks options.now) shape.now
            (cut_chunks (layout_of self.old).grid (state_of S.state self.old).shape shape.now)
            first (refusal_of e) (store_of S.state self.old) (store_of S.state self.new)) }
        ensures layout_kept { KeepsLayout self.old self.new }
    {
        let Some(mut walk) = self.layout.cut_walk(alloc, shape)? else {
            return Ok(());
        };
        loop {
            self.cut_chunk(alloc, walk.current(), shape, options)?;
            if !walk.advance() {
                return Ok(());
            }
        }
    }
}

impl<
    S: WritableStorageTraits,
    G: ChunkGridTraits + Drop,
    K: ChunkKeyEncodingTraits,
    C: ChainTraits,
> Engine<S, G, K, C> {
    ghost use Rattle.std.specs.Prelude.{◌≡◌, None};
    ghost use Rattle.zarrs_codec_chain.specs.Options.{stores_empty_chunks};
    ghost use Rattle.zarrs_engine_calls.specs.ArgumentRefusals.{resize_refusal};
    ghost use Rattle.zarrs_engine_calls.specs.Cuts.{cut_chunks};
    ghost use Rattle.zarrs_engine_calls.specs.Reach.{MayAskKept};
    ghost use Rattle.zarrs_engine.specs.Engine.{layout_of, state_of, store_of};
    ghost use Rattle.zarrs_engine.specs.Outcomes.{ResizesOrRefuses};

    /// Makes the array's shape this one. Of the chunks of the array as it was, in row-major order, each that has a cell
    /// which is not below the new shape is cut, by one writing call: it is erased if it has no cell below it, else it is
    /// read, and stored with fill in place of what is cut away. Other chunks are not touched. No metadata is written.
    ///
    /// # Errors
    /// In this order: E10 for another number of dimensions; E28 for a grid whose boxes depend on the array's shape. Then,
    /// at one of the chunks: E8 for a chunk of more bytes than a `usize` counts; E7 if the store refuses its key; E4 if
    /// its bytes do not decode, or E8 if a chunk of fill has more bytes than that, which is needed where the chunk is absent
    /// or its bytes leave out cells; E8 if the fill in place of what is cut away has; E4 if the chain does not take it; E8 if
    /// an encoded size overflows; E7 if the store refuses the write. E9 may come at any time before the last chunk is cut.
    /// The chunks before that one are cut then, and no later one, and the array has the shape that it had.
    pub fn resize(
        &mut self,
        alloc: Global,
        shape: ArrayShape,
        options: &CodecOptions,
    ) -> Result<(), ArrayError>
        requires { resize_refusal (layout_of self.old) shape.items ≡ None
            → MayAskKept (layout_of self.old) shape.items (cut_chunks
            (layout_of self.old).grid (state_of S.state self.old).shape shape.items)
            (store_of S.state self.old) }
        ensures { ResizesOrRefuses S.state (stores_empty_chunks options.now) shape.items self.old
            self.new result }
    {
        let dimensions = self.layout.grid.dimensionality();
        if shape.len() != dimensions {
            let error = IncompatibleDimensionalityError::new(shape.len(), dimensions);
            return Err(ArrayError::IncompatibleDimensionalityError(error));
        }
        let Some(grid) = self.layout.grid.resized(alloc, shape)? else {
            return Err(unsupported_resize(alloc));
        };
        self.cut_along(alloc, grid.array_shape(), options)?;
        self.set_chunk_grid(grid);
        Ok(())
    }
}

ghost use Rattle.std.specs.Prelude.{Some};
ghost use Rattle.zarrs_engine_calls.specs.Refusals.{RefusesBy, refusal_of, unsupported};

/// Returns the refusal of a change of the shape of an array whose grid's boxes depend on it.
fn unsupported_resize(alloc: Global) -> ArrayError
    ensures { RefusesBy (Some unsupported) (refusal_of result) }
{
    match String::from_str(alloc, "resize") {
        Ok(method) => ArrayError::UnsupportedMethod(method),
        Err(_) => ArrayError::OutOfMemory,
    }
}
