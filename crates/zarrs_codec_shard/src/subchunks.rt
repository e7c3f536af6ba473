//! The subchunks of a chunk.
ghost use Rattle.std.specs.Prelude.{◌≡◌, ◌+◌, ◌*◌, ◌/◌, ◌<◌, ◌≤◌, ◌^◌, true, false, Some, ℕ};
ghost use Rattle.std.specs.Prelude.{IfErr, IfOk, IfSome, IsSome, MatchOption, length, replicate};
ghost use Rattle.std.specs.Prelude.{slice_index};
ghost use Rattle.zarrs_data_type.specs.ArrayData.{data_of, fixed};
ghost use Rattle.zarrs_data_type.specs.Cells.{cells, HasCells};
ghost use Rattle.zarrs_data_type.specs.Parts.{ExtractsAt};
ghost use Rattle.zarrs_codec_shard.specs.PartialShards.{is_met};
ghost use Rattle.zarrs_codec_shard.specs.Blank.{blank_bytes};
ghost use Rattle.zarrs_codec_shard.specs.ShardIndex.{IsSameWriter};
ghost use Rattle.zarrs_data_type.specs.RegionData.{region_data};
ghost use Rattle.zarrs_codec_shard.specs.Subchunks.{corner, is_cut_by, quotients, subchunk_box, subchunk_count};
ghost use Rattle.zarrs_subset.specs.Boxes.{position_count, unravel};
ghost use Rattle.zarrs_subset.specs.Pieces.{piece_at};
ghost use Rattle.zarrs_subset.specs.Regions.{box_at_origin, box_of, LiesInBox};
ghost use Rattle.zarrs_data_type.specs.Cell.{Cell, fill_cell, fill_of, held_size};
ghost use Rattle.zarrs_data_type.specs.Kind.{kind, cell_size};

use crate::corners::tiny_corner;
use crate::shard_index::ShardWriter;
use crate::unmet::unmet_run;
use std::alloc::{AllocError, Global};
use zarrs_data_type::{ArrayBytes, DataType, FillValue, RegionCells};
use zarrs_subset::{
    ArrayIndicesTinyVec, ArrayShape, ArraySubset, Corner, copy_box, element_count, place_part,
};

/// How a chunk is cut into subchunks of one shape, which divides the chunk's. They are numbered in row-major order.
#[derive(Debug, Drop)]
pub struct Subchunks {
    chunk_box: ArraySubset,
    shape: ArrayShape,
    // How many subchunks lie along each dimension.
    grid: ArrayShape,
    ghost at_origin: { box_of chunk_box ≡ box_at_origin (box_of chunk_box).shape },
    ghost cut: { is_cut_by (box_of chunk_box).shape shape.items ≡ true },
    ghost grid_is: { grid.items ≡ quotients (box_of chunk_box).shape shape.items },
}

impl Subchunks {
    ghost use Rattle.zarrs_codec_shard.specs.CellParts.{PushesSubchunk};
    ghost use Rattle.zarrs_codec_shard.specs.SubchunkData.{chunk_shape, subchunk_shape, ExtractsSubchunk};
    ghost use Rattle.zarrs_codec_shard.specs.SubchunkData.{PutsSubchunk, StartsChunk, UpdatesSubchunk};

    /// A chunk of the first shape, cut into subchunks of the second, or `None` if that does not divide it.
    ///
    /// # Errors
    /// `AllocError`: out of memory.
    pub fn new(alloc: Global, shape: &[u64], sub: &[u64]) -> Result<Option<Subchunks>, AllocError>
        ensures cut { IfOk result (λ made. MatchOption made (is_cut_by shape.now sub.now ≡ false)
            (λ _. is_cut_by shape.now sub.now ≡ true)) }
        ensures chunk { IfOk result
            (λ made. IfSome made (λ subchunks. chunk_shape subchunks ≡ shape.now)) }
        ensures subchunk { IfOk result
            (λ made. IfSome made (λ subchunks. subchunk_shape subchunks ≡ sub.now)) }
    {
        if !is_cut_by(shape, sub) {
            return Ok(None);
        }
        let chunk_box = ArraySubset::new_with_shape(alloc, Vec::from_slice(alloc, shape)?)?;
        Ok(Some(Subchunks {
            chunk_box,
            shape: Vec::from_slice(alloc, sub)?,
            grid: grid_of(alloc, shape, sub)?,
        }))
    }

    /// The number of subchunks, if it fits `u64`.
    pub fn count(&self) -> Option<u64>
        ensures { MatchOption result
            (2 ^ 64 ≤ subchunk_count (chunk_shape self.now) (subchunk_shape self.now))
            (λ n. n ≡ subchunk_count (chunk_shape self.now) (subchunk_shape self.now)) }
    {
        element_count(&self.grid)
    }

    /// How many subchunks lie along each dimension.
    pub fn grid(&self) -> &[u64]
        ensures { result.now ≡ quotients (chunk_shape self.now) (subchunk_shape self.now) }
    {
        self.grid.as_slice()
    }

    /// The number of subchunks, if the length of their index fits `u64`.
    pub fn indexed_count(&self) -> Option<u64>
        ensures none { MatchOption result
            (2 ^ 64 ≤ subchunk_count (chunk_shape self.now) (subchunk_shape self.now) * 16)
            (λ n. n ≡ subchunk_count (chunk_shape self.now) (subchunk_shape self.now)) }
        ensures few { IfSome result (λ n. n * 16 < 2 ^ 64) }
    {
        let count = self.count()?;
        if count > u64::MAX / 16 {
            return None;
        }
        Some(count)
    }

    /// A chunk into which subchunks are put. Its cells are all fill, or, if `is_whole` says that none of them is left
    /// out, blank ones of the type.
    ///
    /// `None` if one may be left out, and the bytes of a chunk of fill pass `u64`.
    ///
    /// # Errors
    /// `AllocError`: out of memory.
    pub fn new_chunk(
        &self,
        alloc: Global,
        data_type: &DataType,
        fill_value: &FillValue,
        is_whole: bool,
    ) -> Result<Option<RegionCells>, AllocError>
        requires filled { IsSome (fill_cell (kind data_type.now) fill_value.now) }
        requires size { position_count (chunk_shape self.now) * cell_size (kind data_type.now)
            < 2 ^ 64 }
        ensures { IfOk result (λ made. MatchOption made
            ((is_whole ≡ false) × (2 ^ 64 ≤ position_count (chunk_shape self.now)
            * held_size (kind data_type.now) (fill_of (kind data_type.now) fill_value.now)))
            (λ chunk. StartsChunk (kind data_type.now)
            (fill_of (kind data_type.now) fill_value.now) (chunk_shape self.now) is_whole
            (region_data chunk))) }
    {
        if is_whole {
            let chunk = new_blank(alloc, self.chunk_box.shape(), data_type)?;
            return Ok(Some(chunk));
        }
        let Some(count) = fill_count(self.chunk_box.shape(), data_type, fill_value) else {
            return Ok(None);
        };
        let chunk = RegionCells::new_fill_value(alloc, data_type, count, fill_value)?;
        Ok(Some(chunk))
    }

    /// A subchunk whose cells are all fill, or `None` if its bytes pass `u64`.
    ///
    /// # Errors
    /// `AllocError`: out of memory.
    pub fn new_fill_part(
        &self,
        alloc: Global,
        data_type: &DataType,
        fill_value: &FillValue,
    ) -> Result<Option<ArrayBytes<'static>>, AllocError>
        requires { IsSome (fill_cell (kind data_type.now) fill_value.now) }
        ensures { IfOk result (λ made. MatchOption made
            (2 ^ 64 ≤ position_count (subchunk_shape self.now)
            * held_size (kind data_type.now) (fill_of (kind data_type.now) fill_value.now))
            (λ part. cells (kind data_type.now) (data_of part)
            ≡ Some (replicate (position_count (subchunk_shape self.now))
            (fill_of (kind data_type.now) fill_value.now)))) }
    {
        let Some(count) = fill_count(&self.shape, data_type, fill_value) else {
            return Ok(None);
        };
        let part = ArrayBytes::new_fill_value(alloc, data_type, count, fill_value)?;
        Ok(Some(part))
    }

    /// The shape of the chunk.
    pub fn chunk_shape(&self) -> &[u64]
        ensures { result.now ≡ chunk_shape self.now }
    {
        self.chunk_box.shape()
    }

    /// The extents of each subchunk.
    pub fn shape(&self) -> &[u64]
        ensures { result.now ≡ subchunk_shape self.now }
    {
        self.shape.as_slice()
    }

    /// The box of the subchunk of this number.
    ///
    /// # Errors
    /// `AllocError`: out of memory.
    pub fn subset(&self, alloc: Global, number: u64) -> Result<ArraySubset, AllocError>
        requires { number < subchunk_count (chunk_shape self.now) (subchunk_shape self.now) }
        ensures { IfOk result (λ subset. box_of subset
            ≡ subchunk_box (chunk_shape self.now) (subchunk_shape self.now) number) }
    {
        let start = Vec::from_slice(alloc, self.start_of(alloc, number)?.as_slice())?;
        let shape = Vec::from_slice(alloc, &self.shape)?;
        Ok(ArraySubset::new(start, shape))
    }

    /// The cells of the subchunk of this number, of those of its chunk. The memory of `room` is used again.
    ///
    /// # Errors
    /// `AllocError`: out of memory.
    pub fn extract(
        &self,
        alloc: Global,
        chunk: &ArrayBytes<'_>,
        data_type: &DataType,
        number: u64,
        room: Vec<u8>,
    ) -> Result<ArrayBytes<'static>, AllocError>
        requires number { number < subchunk_count (chunk_shape self.now) (subchunk_shape self.now) }
        requires held { HasCells (kind data_type.now) (data_of chunk.now)
            (position_count (chunk_shape self.now)) }
        ensures { IfOk result (λ made. ExtractsSubchunk (kind data_type.now) (chunk_shape self.now)
            (subchunk_shape self.now) number (data_of chunk.now) (data_of made)) }
    {
        let subset = self.subset(alloc, number)?;
        match (chunk, data_type.element_size()) {
            (ArrayBytes::Fixed(bytes), Some(size)) => {
                let made = extract_bytes(bytes.as_slice(), size, &self.chunk_box, &subset, room)?;
                Ok(ArrayBytes::new_flen(made))
            }
            _ => chunk.extract_array_subset(alloc, data_type, &self.chunk_box, &subset),
        }
    }

    /// Writes the cells of the subchunk of this number, of those of its chunk, into a shard, as they stand in memory.
    /// The subchunk is left out if each is the fill value's, unless `store_empty` says that it is kept.
    ///
    /// # Errors
    /// `AllocError`: out of memory; the writer is as it was.
    pub fn push_cells(
        &self,
        alloc: Global,
        bytes: &[u8],
        data_type: &DataType,
        fill_value: &FillValue,
        store_empty: bool,
        number: u64,
        writer: &mut ShardWriter,
    ) -> Result<(), AllocError>
        requires number { number < subchunk_count (chunk_shape self.now) (subchunk_shape self.now) }
        requires held { HasCells (kind data_type.now) (fixed bytes.now)
            (position_count (chunk_shape self.now)) }
        requires filled { IsSome (fill_cell (kind data_type.now) fill_value.now) }
        ensures pushed { IfOk result (λ _. PushesSubchunk (kind data_type.now) store_empty
            (fill_of (kind data_type.now) fill_value.now) (chunk_shape self.now)
            (subchunk_shape self.now) number bytes.now writer.old writer.new) }
        ensures refused { IfErr result (λ _. IsSameWriter writer.old writer.new) }
    {
        let corner = self.start_of(alloc, number)?;
        writer.push_cells(
            alloc,
            bytes,
            &self.chunk_box,
            corner.as_slice(),
            &self.shape,
            data_type,
            fill_value,
            store_empty,
        )
    }

    /// A number of subchunks, from this one on, none of which shares a position with the part. It is 0 only if the part
    /// meets the first of them.
    pub fn unmet(&self, part: &ArraySubset, number: u64) -> u64
        requires number { number < subchunk_count (chunk_shape self.now) (subchunk_shape self.now) }
        requires counted { subchunk_count (chunk_shape self.now) (subchunk_shape self.now) < 2 ^ 64 }
        requires dimensions { length (box_of part.now).start ≡ length (chunk_shape self.now) }
        ensures within { number + result
            ≤ subchunk_count (chunk_shape self.now) (subchunk_shape self.now) }
        ensures unmet { (j : ℕ) → number ≤ j → j < number + result → is_met (chunk_shape self.now)
            (subchunk_shape self.now) (box_of part.now) j ≡ false }
        ensures met { result ≡ 0 → is_met (chunk_shape self.now) (subchunk_shape self.now)
            (box_of part.now) number ≡ true }
    {
        unmet_run(part, &self.shape, &self.grid, number)
    }

    /// The cells of the subchunk of this number, those of the part where it has the position.
    ///
    /// # Errors
    /// `AllocError`: out of memory.
    pub fn update(
        &self,
        alloc: Global,
        held: ArrayBytes<'static>,
        part: &ArraySubset,
        bytes: &ArrayBytes<'_>,
        data_type: &DataType,
        number: u64,
    ) -> Result<ArrayBytes<'static>, AllocError>
        requires number { number < subchunk_count (chunk_shape self.now) (subchunk_shape self.now) }
        requires dimensions { length (box_of part.now).start ≡ length (chunk_shape self.now) }
        requires held { HasCells (kind data_type.now) (data_of held)
            (position_count (subchunk_shape self.now)) }
        requires given { HasCells (kind data_type.now) (data_of bytes.now)
            (position_count (box_of part.now).shape) }
        ensures { IfOk result (λ made. UpdatesSubchunk (kind data_type.now) (chunk_shape self.now)
            (subchunk_shape self.now) (box_of part.now) number (data_of bytes.now)
            (data_of held.entry) (data_of made)) }
    {
        let subset = self.subset(alloc, number)?;
        held.update_array_bytes(alloc, data_type, &subset, bytes, part)
    }

    /// The cells of a chunk, with these in the subchunk of this number.
    ///
    /// # Errors
    /// `AllocError`: out of memory.
    pub fn put(
        &self,
        alloc: Global,
        chunk: RegionCells,
        part: &ArrayBytes<'_>,
        data_type: &DataType,
        number: u64,
    ) -> Result<RegionCells, AllocError>
        requires number { number < subchunk_count (chunk_shape self.now) (subchunk_shape self.now) }
        requires held { HasCells (kind data_type.now) (region_data chunk)
            (position_count (chunk_shape self.now)) }
        requires part { HasCells (kind data_type.now) (data_of part.now)
            (position_count (subchunk_shape self.now)) }
        ensures { IfOk result (λ made. PutsSubchunk (kind data_type.now) (chunk_shape self.now)
            (subchunk_shape self.now) number (data_of part.now) (region_data chunk)
            (region_data made)) }
    {
        let subset = self.subset(alloc, number)?;
        chunk.with_part(alloc, data_type, &self.chunk_box, part, &subset)
    }

    /// Writes the cells of one size of a subchunk, as they stand in memory, over those of the subchunk of this number of
    /// a chunk. Nothing is allocated up to four dimensions.
    ///
    /// # Errors
    /// `AllocError`: out of memory; the cells of the chunk are as they were.
    pub fn put_cells(
        &self,
        alloc: Global,
        chunk: &mut [u8],
        part: &[u8],
        data_type: &DataType,
        number: u64,
    ) -> Result<(), AllocError>
        requires number { number < subchunk_count (chunk_shape self.now) (subchunk_shape self.now) }
        requires held { HasCells (kind data_type.now) (fixed chunk.old)
            (position_count (chunk_shape self.now)) }
        requires part { HasCells (kind data_type.now) (fixed part.now)
            (position_count (subchunk_shape self.now)) }
        ensures put { IfOk result (λ _. PutsSubchunk (kind data_type.now) (chunk_shape self.now)
            (subchunk_shape self.now) number (fixed part.now) (fixed chunk.old)
            (fixed chunk.new)) }
        ensures refused { IfErr result (λ _. chunk.new ≡ chunk.old) }
    {
        let size = data_type.element_size().unwrap();
        let start = self.start_of(alloc, number)?;
        let (sub, origin) = (self.shape.as_slice(), self.chunk_box.start());
        let from = Corner {
            shape: sub,
            start: origin,
        };
        let to = Corner {
            shape: self.chunk_box.shape(),
            start: start.as_slice(),
        };
        copy_box(part, from, chunk, to, sub, size);
        Ok(())
    }

    /// Where the subchunk of this number starts.
    #[inline]
    fn start_of(&self, alloc: Global, number: u64) -> Result<ArrayIndicesTinyVec, AllocError>
        requires { number < subchunk_count (chunk_shape self.now) (subchunk_shape self.now) }
        ensures { IfOk result (λ start. start.items ≡ corner (subchunk_shape self.now)
            (unravel (quotients (chunk_shape self.now) (subchunk_shape self.now)) number)) }
    {
        tiny_corner(alloc, &self.shape, &self.grid, number)
    }
}

/// The cells of one size at the positions of `subset`, of an array over `held_box`, in the memory of `room`.
fn extract_bytes(
    bytes: &[u8],
    size: usize,
    held_box: &ArraySubset,
    subset: &ArraySubset,
    room: Vec<u8>,
) -> Result<Vec<u8>, AllocError>
    requires positive { 0 < size }
    requires held_len { length bytes.now ≡ position_count (box_of held_box.now).shape * size }
    requires inside { LiesInBox (box_of subset.now) (box_of held_box.now) }
    ensures len { IfOk result (λ made. length made.items
        ≡ position_count (box_of subset.now).shape * size) }
    ensures cells { IfOk result (λ made. ExtractsAt (box_of held_box.now) (piece_at size bytes.now)
        (box_of subset.now) (piece_at size made.items)) }
{
    let Ok(count) = subset.num_elements() else {
        unreachable!()
    };
    let mut made = room;
    made.resize(count as usize * size, 0)?;
    place_part(subset, &mut made, held_box, bytes, size);
    Ok(made)
}

/// The number of the cells of this shape, or `None` if the bytes of as many fill values pass `u64`.
fn fill_count(shape: &[u64], data_type: &DataType, fill_value: &FillValue) -> Option<u64>
    requires { IsSome (fill_cell (kind data_type.now) fill_value.now) }
    ensures count { MatchOption result
        (2 ^ 64 ≤ position_count shape.now
        * held_size (kind data_type.now) (fill_of (kind data_type.now) fill_value.now))
        (λ count. count ≡ position_count shape.now) }
    ensures size { IfSome result (λ count. count
        * held_size (kind data_type.now) (fill_of (kind data_type.now) fill_value.now) < 2 ^ 64) }
{
    let Some(count) = element_count(shape) else {
        return None;
    };
    let cell_size = data_type.held_size(fill_value.as_bytes());
    count.checked_mul(cell_size as u64)?;
    Some(count)
}

/// A chunk of this shape whose cells are all blank.
fn new_blank(alloc: Global, shape: &[u64], data_type: &DataType) -> Result<RegionCells, AllocError>
    requires { position_count shape.now * cell_size (kind data_type.now) < 2 ^ 64 }
    ensures { IfOk result (λ chunk. (filler : Cell) × (cells (kind data_type.now)
        (region_data chunk) ≡ Some (replicate (position_count shape.now) filler))) }
{
    let blank = blank_of(alloc, data_type)?;
    let Some(count) = fill_count(shape, data_type, &blank) else {
        unreachable!();
    };
    RegionCells::new_fill_value(alloc, data_type, count, &blank)
}

/// A blank fill value of the type: zeros, an empty text, or none. No other takes less memory.
fn blank_of(alloc: Global, data_type: &DataType) -> Result<FillValue, AllocError>
    ensures { IfOk result (λ blank. blank ≡ blank_bytes (kind data_type.now)) }
{
    let len = blank_len(data_type);
    Ok(FillValue::new(vec![in alloc; 0; len]?))
}

/// The number of its bytes.
fn blank_len(data_type: &DataType) -> usize
    ensures { result ≡ length (blank_bytes (kind data_type.now)) }
{
    match data_type.optional_inner() {
        Some(_) => 1,
        None => data_type.element_size().unwrap_or(0),
    }
}

/// Whether a chunk of the first shape is cut into whole subchunks of the second.
pub fn is_cut_by(shape: &[u64], sub: &[u64]) -> bool
    ensures { result ≡ is_cut_by shape.now sub.now }
{
    if shape.len() != sub.len() {
        return false;
    }
    for axis in 0..shape.len() {
        if sub[axis] == 0 || shape[axis] % sub[axis] != 0 {
            return false;
        }
    }
    true
}

/// How many subchunks lie along each dimension.
fn grid_of(alloc: Global, shape: &[u64], sub: &[u64]) -> Result<ArrayShape, AllocError>
    requires { is_cut_by shape.now sub.now ≡ true }
    ensures { IfOk result (λ grid. grid.items ≡ quotients shape.now sub.now) }
{
    let mut grid = Vec::with_capacity(alloc, shape.len())?;
    for axis in 0..shape.len() {
        grid.push(shape[axis] / sub[axis])?;
    }
    Ok(grid)
}
