//! Bytes to chunks.
ghost use Rattle.std.specs.Prelude.{◌≡◌, ℕ, ◌*◌, ◌<◌, ◌^◌, All, List, Some, IfOk, IfErr, IsSome, is_some, length, map};
ghost use Rattle.std.specs.Bool.{OnTrue};
ghost use Rattle.std.specs.List.{list_all};
ghost use Rattle.zarrs_subset.specs.Boxes.{position_count};
ghost use Rattle.zarrs_data_type.specs.Kind.{kind, cell_size, element_size};
ghost use Rattle.zarrs_data_type.specs.Cell.{Cell};
ghost use Rattle.zarrs_data_type.specs.CellTypes.{chunk_kind, filling, kind_of, shape_of};
ghost use Rattle.zarrs_data_type.specs.ArrayData.{data_of, fixed};
ghost use Rattle.zarrs_data_type.specs.Cells.{cells, HasCells};
ghost use Rattle.zarrs_data_type.specs.RegionData.{region_data};
ghost use Rattle.zarrs_codec_shard.specs.ShardIndex.{range_part, IsRangeWithin};
ghost use Rattle.zarrs_codec_shard.specs.SubchunkData.{chunk_shape, subchunk_shape, PutsSubchunk};
ghost use Rattle.zarrs_codec_shard.specs.Subchunks.{subchunk_count};
ghost use Rattle.zarrs_codec.specs.Chains.{behind, chain_meaning, inner_chain_of, sharding_meaning};
ghost use Rattle.zarrs_codec.specs.Shardings.{decoded_parts, PutsPart, RefusesCells};
ghost use Rattle.zarrs_codec.specs.KeptCells.{WritesCells};
ghost use Rattle.zarrs_codec.specs.Shardings.{CopiesParts, ReadsCells, RefusesCopies, RefusesCopy};
ghost use Rattle.zarrs_codec_chain.specs.Chunks.{RefusesToDecode, decoded_of};
ghost use Rattle.zarrs_codec_chain.specs.Refusals.{RefusesChunkDecoding};

use crate::chain::CodecChain;
use crate::codec::ArrayToBytesCodec;
use crate::sharding::ShardingCodec;
use std::alloc::Global;
use zarrs_codec_array::{ArrayToArrayCodec, decode_array, encoded_shape};
use zarrs_codec_leaf::{CodecError, Misfit};
use zarrs_codec_shard::{SubchunkRange, Subchunks, read_index};
use zarrs_data_type::{ArrayBytes, CellType, ChunkType, DataType, RegionCells};
use zarrs_subset::element_count;

impl CodecChain {
    /// The cells of a chunk's bytes.
    #[cycle(decode)]
    pub(crate) fn decode_chunk<'a>(
        &self,
        alloc: Global,
        encoded: &'a [u8],
        chunk: &ChunkType<'_>,
    ) -> Result<ArrayBytes<'a>, CodecError>
        requires size { position_count (shape_of chunk.now) * cell_size (chunk_kind chunk.now)
            < 2 ^ 64 }
        ensures cells { IfOk result (λ made. cells (chunk_kind chunk.now) (data_of made)
            ≡ decoded_of (chain_meaning self.now) chunk.now encoded.now) }
        ensures some { IfOk result (λ made. IsSome (cells (chunk_kind chunk.now) (data_of made))) }
        ensures refused { IfErr result (RefusesToDecode (chain_meaning self.now) chunk.now
            encoded.now) }
    {
        if self.reads_cells(&chunk.cell_type.data_type) {
            return lent_cells(encoded, chunk);
        }
        match &self.array_to_bytes {
            ArrayToBytesCodec::Sharding(codec) => {
                let codecs = &self.array_to_array;
                codec.decode_behind(alloc, codecs, encoded, chunk)
            }
            _ => self.decode_cells(alloc, encoded, chunk),
        }
    }

    /// Whether the bytes of a chunk of this type are its cells as they stand in memory.
    pub(crate) fn reads_cells(&self, data_type: &DataType) -> bool
        ensures reads { OnTrue result ((fill : Cell) (shape : List ℕ) → ReadsCells
            (chain_meaning self.now) (kind data_type.now) fill shape) }
        ensures writes { OnTrue result (WritesCells (chain_meaning self.now) (kind data_type.now)) }
        ensures sized { OnTrue result (IsSome (element_size (kind data_type.now))) }
    {
        self.keeps_cells() && self.array_to_bytes.takes(data_type)
    }
}

impl ShardingCodec {
    /// The cells of a chunk, of the shard of what these codecs make of it.
    #[cycle(decode)]
    fn decode_behind<'a>(
        &self,
        alloc: Global,
        codecs: &[ArrayToArrayCodec],
        encoded: &'a [u8],
        chunk: &ChunkType<'_>,
    ) -> Result<ArrayBytes<'a>, CodecError>
        requires size { position_count (shape_of chunk.now) * cell_size (chunk_kind chunk.now)
            < 2 ^ 64 }
        ensures cells { IfOk result (λ made. cells (chunk_kind chunk.now) (data_of made)
            ≡ decoded_of (behind codecs.now (sharding_meaning self.now)) chunk.now encoded.now) }
        ensures some { IfOk result (λ made. IsSome (cells (chunk_kind chunk.now) (data_of made))) }
        ensures refused { IfErr result (RefusesToDecode
            (behind codecs.now (sharding_meaning self.now)) chunk.now encoded.now) }
    {
        let Some(inner) = encoded_shape(alloc, codecs, chunk.shape)? else {
            return Err(CodecError::DoesNotFit(Misfit::TypeOrShape));
        };
        let cell_type = chunk.cell_type;
        let made = ChunkType {
            cell_type,
            shape: &inner,
        };
        let array = self.decode_shard(alloc, encoded, &made)?;
        // It is owned, and is not copied.
        let array = array.into_owned(alloc)?;
        Ok(decode_array(alloc, codecs, array, &cell_type.data_type, chunk.shape)?)
    }

    /// The cells of a shard.
    #[cycle(decode)]
    fn decode_shard(
        &self,
        alloc: Global,
        encoded: &[u8],
        chunk: &ChunkType<'_>,
    ) -> Result<ArrayBytes<'static>, CodecError>
        requires size { position_count (shape_of chunk.now) * cell_size (chunk_kind chunk.now)
            < 2 ^ 64 }
        ensures cells { IfOk result (λ made. cells (chunk_kind chunk.now) (data_of made)
            ≡ decoded_of (sharding_meaning self.now) chunk.now encoded.now) }
        ensures some { IfOk result (λ made. IsSome (cells (chunk_kind chunk.now) (data_of made))) }
        ensures refused { IfErr result (RefusesToDecode (sharding_meaning self.now) chunk.now
            encoded.now) }
    {
        let subchunks = self.subchunks_of(alloc, chunk)?;
        let Some(count) = subchunks.count() else {
            return Err(CodecError::DoesNotFit(Misfit::Bytes));
        };
        let at_start = self.index_location().is_at_start();
        let Some(ranges) = read_index(alloc, encoded, count, at_start)? else {
            return Err(CodecError::DoesNotFit(Misfit::Bytes));
        };
        self.decode_parts(alloc, encoded, &ranges, &subchunks, chunk.cell_type)
    }

    /// The cells of the subchunks of an array, which stand at these ranges of its shard.
    #[cycle(decode)]
    fn decode_parts(
        &self,
        alloc: Global,
        encoded: &[u8],
        ranges: &[Option<SubchunkRange>],
        subchunks: &Subchunks,
        cell_type: &CellType,
    ) -> Result<ArrayBytes<'static>, CodecError>
        requires size { position_count (chunk_shape subchunks.now) * cell_size
            (kind_of cell_type.now) < 2 ^ 64 }
        requires within { All (IsRangeWithin (length encoded.now)) ranges.now }
        requires count { length ranges.now ≡ subchunk_count (chunk_shape subchunks.now)
            (subchunk_shape subchunks.now) }
        ensures cells { IfOk result (λ made. cells (kind_of cell_type.now) (data_of made)
            ≡ decoded_parts (chain_meaning (inner_chain_of self.now)) (kind_of cell_type.now)
            (filling cell_type.now) (chunk_shape subchunks.now) (subchunk_shape subchunks.now)
            (map (range_part encoded.now) ranges.now)) }
        ensures some { IfOk result (λ made. IsSome (cells (kind_of cell_type.now) (data_of made))) }
        ensures refused { IfErr result (RefusesCells (chain_meaning (inner_chain_of self.now))
            (kind_of cell_type.now) (filling cell_type.now) (chunk_shape subchunks.now)
            (subchunk_shape subchunks.now) (map (range_part encoded.now) ranges.now)) }
    {
        let is_whole = are_present(ranges);
        let data_type = &cell_type.data_type;
        let filled = subchunks.new_chunk(alloc, data_type, &cell_type.fill_value, is_whole)?;
        let Some(mut chunk) = filled else {
            return Err(CodecError::SizeOverflow);
        };
        if self.inner_codecs().reads_cells(data_type) {
            return with_parts(alloc, encoded, ranges, subchunks, chunk, data_type);
        }
        for (number, range) in ranges.iter().enumerate() {
            let Some(range) = range else {
                continue;
            };
            chunk = self.decode_part(
                alloc,
                &encoded[range.start..range.end],
                subchunks,
                chunk,
                cell_type,
                number as u64,
            )?;
        }
        Ok(chunk.into_array_bytes(alloc)?)
    }

    /// The chunk with the cells of one more subchunk, which has these bytes.
    #[cycle(decode)]
    fn decode_part(
        &self,
        alloc: Global,
        encoded: &[u8],
        subchunks: &Subchunks,
        chunk: RegionCells,
        cell_type: &CellType,
        number: u64,
    ) -> Result<RegionCells, CodecError>
        requires size { position_count (subchunk_shape subchunks.now) * cell_size
            (kind_of cell_type.now) < 2 ^ 64 }
        requires number { number < subchunk_count (chunk_shape subchunks.now)
            (subchunk_shape subchunks.now) }
        requires held { HasCells (kind_of cell_type.now) (region_data chunk)
            (position_count (chunk_shape subchunks.now)) }
        ensures put { IfOk result (λ made. PutsPart (chain_meaning (inner_chain_of self.now))
            (kind_of cell_type.now) (filling cell_type.now) (chunk_shape subchunks.now)
            (subchunk_shape subchunks.now) number encoded.now (region_data chunk)
            (region_data made)) }
        ensures refused { IfErr result (RefusesChunkDecoding
            (chain_meaning (inner_chain_of self.now)) (kind_of cell_type.now)
            (filling cell_type.now) (subchunk_shape subchunks.now) encoded.now) }
    {
        let inner = ChunkType {
            cell_type,
            shape: subchunks.shape(),
        };
        let part = self.inner_codecs().decode_chunk(alloc, encoded, &inner)?;
        Ok(subchunks.put(alloc, chunk, &part, &cell_type.data_type, number)?)
    }
}

/// The cells of a chunk whose bytes are its cells as they stand in memory. They are lent.
#[inline(always)]
fn lent_cells<'a>(encoded: &'a [u8], chunk: &ChunkType<'_>) -> Result<ArrayBytes<'a>, CodecError>
    requires { position_count (shape_of chunk.now) * cell_size (chunk_kind chunk.now) < 2 ^ 64 }
    ensures lent { IfOk result (λ made. data_of made ≡ fixed encoded.now) }
    ensures has_cells { IfOk result (λ _. HasCells (chunk_kind chunk.now) (fixed encoded.now)
        (position_count (shape_of chunk.now))) }
    ensures refused { IfErr result (RefusesCopy (chunk_kind chunk.now) (shape_of chunk.now)
        encoded.now) }
{
    let data = ArrayBytes::from_flen(encoded);
    let count = element_count(chunk.shape).unwrap();
    if !data.validate(&chunk.cell_type.data_type, count) {
        return Err(CodecError::DoesNotFit(Misfit::Bytes));
    }
    Ok(data)
}

/// Whether each subchunk is present.
fn are_present(ranges: &[Option<SubchunkRange>]) -> bool
    ensures { result ≡ list_all is_some ranges.now }
{
    ranges.iter().all(|range| range.is_some())
}

/// The cells of a chunk, with those of the subchunks that stand at these ranges of its shard as they are in memory.
fn with_parts(
    alloc: Global,
    encoded: &[u8],
    ranges: &[Option<SubchunkRange>],
    subchunks: &Subchunks,
    chunk: RegionCells,
    data_type: &DataType,
) -> Result<ArrayBytes<'static>, CodecError>
    requires sized { IsSome (element_size (kind data_type.now)) }
    requires size { position_count (chunk_shape subchunks.now) * cell_size (kind data_type.now)
        < 2 ^ 64 }
    requires within { All (IsRangeWithin (length encoded.now)) ranges.now }
    requires count { length ranges.now ≡ subchunk_count (chunk_shape subchunks.now)
        (subchunk_shape subchunks.now) }
    requires held { HasCells (kind data_type.now) (region_data chunk)
        (position_count (chunk_shape subchunks.now)) }
    ensures copied { IfOk result (λ made. CopiesParts (kind data_type.now)
        (chunk_shape subchunks.now) (subchunk_shape subchunks.now)
        (map (range_part encoded.now) ranges.now) (region_data chunk) (data_of made)) }
    ensures refused { IfErr result (RefusesCopies (kind data_type.now) (chunk_shape subchunks.now)
        (subchunk_shape subchunks.now) (map (range_part encoded.now) ranges.now)) }
{
    let ArrayBytes::Fixed(bytes) = chunk.into_array_bytes(alloc)? else {
        unreachable!();
    };
    // They are owned, and are not copied.
    let mut cells = bytes.into_owned(alloc)?;
    copy_parts(alloc, encoded, ranges, subchunks, &mut cells, data_type)?;
    Ok(ArrayBytes::new_flen(cells))
}

/// Writes the cells of the subchunks that stand at these ranges of a shard, as they are in memory, over those of the
/// chunk.
fn copy_parts(
    alloc: Global,
    encoded: &[u8],
    ranges: &[Option<SubchunkRange>],
    subchunks: &Subchunks,
    chunk: &mut [u8],
    data_type: &DataType,
) -> Result<(), CodecError>
    requires size { position_count (chunk_shape subchunks.now) * cell_size (kind data_type.now)
        < 2 ^ 64 }
    requires within { All (IsRangeWithin (length encoded.now)) ranges.now }
    requires count { length ranges.now ≡ subchunk_count (chunk_shape subchunks.now)
        (subchunk_shape subchunks.now) }
    requires held { HasCells (kind data_type.now) (fixed chunk.old)
        (position_count (chunk_shape subchunks.now)) }
    ensures copied { IfOk result (λ _. CopiesParts (kind data_type.now) (chunk_shape subchunks.now)
        (subchunk_shape subchunks.now) (map (range_part encoded.now) ranges.now) (fixed chunk.old)
        (fixed chunk.new)) }
    ensures refused { IfErr result (RefusesCopies (kind data_type.now) (chunk_shape subchunks.now)
        (subchunk_shape subchunks.now) (map (range_part encoded.now) ranges.now)) }
{
    for (number, range) in ranges.iter().enumerate() {
        let Some(range) = range else {
            continue;
        };
        let part = &encoded[range.start..range.end];
        copy_part(alloc, part, subchunks, chunk, data_type, number as u64)?;
    }
    Ok(())
}

/// Writes the cells that these bytes are in memory over those of the subchunk of this number of a chunk.
fn copy_part(
    alloc: Global,
    part: &[u8],
    subchunks: &Subchunks,
    chunk: &mut [u8],
    data_type: &DataType,
    number: u64,
) -> Result<(), CodecError>
    requires size { position_count (subchunk_shape subchunks.now) * cell_size (kind data_type.now)
        < 2 ^ 64 }
    requires number { number < subchunk_count (chunk_shape subchunks.now)
        (subchunk_shape subchunks.now) }
    requires held { HasCells (kind data_type.now) (fixed chunk.old)
        (position_count (chunk_shape subchunks.now)) }
    ensures has_cells { IfOk result (λ _. HasCells (kind data_type.now) (fixed part.now)
        (position_count (subchunk_shape subchunks.now))) }
    ensures put { IfOk result (λ _. PutsSubchunk (kind data_type.now) (chunk_shape subchunks.now)
        (subchunk_shape subchunks.now) number (fixed part.now) (fixed chunk.old) (fixed
        chunk.new)) }
    ensures refused { IfErr result (RefusesCopy (kind data_type.now) (subchunk_shape subchunks.now)
        part.now) }
{
    let count = element_count(subchunks.shape()).unwrap();
    if !ArrayBytes::from_flen(part).validate(data_type, count) {
        return Err(CodecError::DoesNotFit(Misfit::Bytes));
    }
    Ok(subchunks.put_cells(alloc, chunk, part, data_type, number)?)
}
