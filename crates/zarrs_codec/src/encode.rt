//! Chunks to bytes.
ghost use Rattle.std.specs.Prelude.{◌≡◌, ◌<◌, true, Some, IfOk, IfErr, IfSome, option_map};
ghost use Rattle.zarrs_subset.specs.Boxes.{position_count};
ghost use Rattle.zarrs_data_type.specs.CellTypes.{chunk_fill, chunk_kind, filling, kind_of, shape_of};
ghost use Rattle.zarrs_data_type.specs.ArrayData.{data_of, fixed};
ghost use Rattle.zarrs_data_type.specs.Kind.{kind};
ghost use Rattle.zarrs_data_type.specs.Cells.{HasCells};
ghost use Rattle.zarrs_codec_shard.specs.Sharded.{part_of, sharded_encoded};
ghost use Rattle.zarrs_codec_shard.specs.SubchunkData.{chunk_shape, subchunk_shape};
ghost use Rattle.zarrs_codec_shard.specs.Subchunks.{subchunk_at, subchunk_count};
ghost use Rattle.zarrs_codec_chain.specs.Chunks.{RefusesToEncode, encoding_as};
ghost use Rattle.zarrs_codec.specs.Chains.{behind, chain_meaning, inner_chain_of, is_at_start};
ghost use Rattle.zarrs_codec.specs.Chains.{keeps_cells, location_of, sharding_meaning};
ghost use Rattle.zarrs_codec.specs.KeptCells.{WritesCells};
ghost use Rattle.zarrs_codec.specs.Shardings.{cells_of, subchunk_meaning, PushesCells, RefusesPart, RefusesParts};
ghost use Rattle.zarrs_codec_chain.specs.Options.{stores_empty_chunks};

use crate::chain::CodecChain;
use crate::codec::ArrayToBytesCodec;
use crate::sharding::ShardingCodec;
use std::alloc::Global;
use zarrs_codec_array::{ArrayToArrayCodec, encode_array, encoded_shape};
use zarrs_codec_chain::CodecOptions;
use zarrs_codec_leaf::{CodecError, Endianness, Misfit};
use zarrs_codec_shard::{ShardWriter, Subchunks};
use zarrs_data_type::{ArrayBytes, CellType, ChunkType, DataType};

impl CodecChain {
    /// Whether the bytes of a chunk are its cells as they stand in memory.
    pub(crate) fn keeps_cells(&self) -> bool
        ensures { result ≡ keeps_cells self.now }
    {
        match &self.array_to_bytes {
            ArrayToBytesCodec::Bytes(codec) => {
                self.array_to_array.is_empty() && !matches!(codec.endian(), Some(Endianness::Big))
            }
            _ => false,
        }
    }

    /// The cells of a chunk in memory, if its bytes are these.
    #[inline(always)]
    fn kept_cells<'b>(&self, bytes: &'b ArrayBytes<'_>, data_type: &DataType) -> Option<&'b [u8]>
        ensures same { IfSome result (λ cells. data_of bytes.now ≡ fixed cells.now) }
        ensures writes { IfSome result (λ _. WritesCells (chain_meaning self.now)
            (kind data_type.now)) }
    {
        match bytes {
            ArrayBytes::Fixed(cells) if self.reads_cells(data_type) => Some(cells.as_slice()),
            _ => None,
        }
    }

    /// The bytes of a chunk's cells.
    pub(crate) fn encode_chunk(
        &self,
        alloc: Global,
        bytes: &ArrayBytes<'_>,
        chunk: &ChunkType<'_>,
        options: &CodecOptions,
    ) -> Result<Vec<u8>, CodecError>
        requires cells { HasCells (chunk_kind chunk.now) (data_of bytes.now)
            (position_count (shape_of chunk.now)) }
        ensures encoded { IfOk result (λ encoded. encoding_as (chain_meaning self.now)
            (stores_empty_chunks options.now) chunk.now (data_of bytes.now) ≡ Some encoded.items) }
        ensures refused { IfErr result (RefusesToEncode (chain_meaning self.now)
            (stores_empty_chunks options.now) chunk.now (data_of bytes.now)) }
    {
        if let Some(cells) = self.kept_cells(bytes, &chunk.cell_type.data_type) {
            return Ok(Vec::from_slice(alloc, cells)?);
        }
        match &self.array_to_bytes {
            ArrayToBytesCodec::Sharding(codec) => {
                let arrays = &self.array_to_array;
                codec.encode_behind(alloc, arrays, bytes, chunk, options)
            }
            _ => self.encode_cells(alloc, bytes, chunk, options),
        }
    }

    /// The bytes of a chunk's cells, which are given away.
    #[cycle(encode)]
    pub(crate) fn encode_owned_chunk(
        &self,
        alloc: Global,
        bytes: ArrayBytes<'_>,
        chunk: &ChunkType<'_>,
        options: &CodecOptions,
    ) -> Result<Vec<u8>, CodecError>
        requires cells { HasCells (chunk_kind chunk.now) (data_of bytes)
            (position_count (shape_of chunk.now)) }
        ensures encoded { IfOk result (λ encoded. encoding_as (chain_meaning self.now)
            (stores_empty_chunks options.now) chunk.now (data_of bytes.entry) ≡ Some
            encoded.items) }
        ensures refused { IfErr result (RefusesToEncode (chain_meaning self.now)
            (stores_empty_chunks options.now) chunk.now (data_of bytes.entry)) }
    {
        match &self.array_to_bytes {
            ArrayToBytesCodec::Sharding(codec) => {
                let arrays = &self.array_to_array;
                codec.encode_behind(alloc, arrays, &bytes, chunk, options)
            }
            _ => self.encode_owned_cells(alloc, bytes, chunk, options),
        }
    }
}

impl ShardingCodec {
    /// The shard of what the codecs make of a chunk's cells.
    #[cycle(encode)]
    fn encode_behind(
        &self,
        alloc: Global,
        codecs: &[ArrayToArrayCodec],
        bytes: &ArrayBytes<'_>,
        chunk: &ChunkType<'_>,
        options: &CodecOptions,
    ) -> Result<Vec<u8>, CodecError>
        requires cells { HasCells (chunk_kind chunk.now) (data_of bytes.now)
            (position_count (shape_of chunk.now)) }
        ensures encoded { IfOk result (λ encoded. encoding_as
            (behind codecs.now (sharding_meaning self.now)) (stores_empty_chunks options.now)
            chunk.now (data_of bytes.now) ≡ Some encoded.items) }
        ensures refused { IfErr result (RefusesToEncode
            (behind codecs.now (sharding_meaning self.now)) (stores_empty_chunks options.now)
            chunk.now (data_of bytes.now)) }
    {
        let Some(inner) = encoded_shape(alloc, codecs, chunk.shape)? else {
            return Err(CodecError::DoesNotFit(Misfit::TypeOrShape));
        };
        let cell_type = chunk.cell_type;
        let array = ChunkType {
            cell_type,
            shape: &inner,
        };
        match encode_array(alloc, codecs, bytes, &cell_type.data_type, chunk.shape)? {
            Some(made) => self.encode_shard(alloc, &made, &array, options),
            None => self.encode_shard(alloc, bytes, &array, options),
        }
    }

    /// The shard of an array's cells.
    #[cycle(encode)]
    fn encode_shard(
        &self,
        alloc: Global,
        bytes: &ArrayBytes<'_>,
        chunk: &ChunkType<'_>,
        options: &CodecOptions,
    ) -> Result<Vec<u8>, CodecError>
        requires cells { HasCells (chunk_kind chunk.now) (data_of bytes.now)
            (position_count (shape_of chunk.now)) }
        ensures encoded { IfOk result (λ encoded. encoding_as (sharding_meaning self.now)
            (stores_empty_chunks options.now) chunk.now (data_of bytes.now) ≡ Some encoded.items) }
        ensures refused { IfErr result (RefusesToEncode (sharding_meaning self.now)
            (stores_empty_chunks options.now) chunk.now (data_of bytes.now)) }
    {
        let subchunks = self.subchunks_of(alloc, chunk)?;
        self.encode_parts(alloc, bytes, chunk.cell_type, &subchunks, options)
    }

    /// The shard of the subchunks of an array.
    #[cycle(encode)]
    fn encode_parts(
        &self,
        alloc: Global,
        bytes: &ArrayBytes<'_>,
        cell_type: &CellType,
        subchunks: &Subchunks,
        options: &CodecOptions,
    ) -> Result<Vec<u8>, CodecError>
        requires cells { HasCells (kind_of cell_type.now) (data_of bytes.now)
            (position_count (chunk_shape subchunks.now)) }
        requires fits { (chain_meaning (inner_chain_of self.now)).fits (kind_of cell_type.now)
            (subchunk_shape subchunks.now) ≡ true }
        ensures encoded { IfOk result (λ encoded. sharded_encoded (subchunk_meaning
            (chain_meaning (inner_chain_of self.now)) (stores_empty_chunks options.now)
            (kind_of cell_type.now) (filling cell_type.now) (subchunk_shape subchunks.now))
            (is_at_start (location_of self.now)) (stores_empty_chunks options.now)
            (filling cell_type.now) (chunk_shape subchunks.now) (subchunk_shape subchunks.now)
            (cells_of (kind_of cell_type.now) (data_of bytes.now)) ≡ Some encoded.items) }
        ensures refused { IfErr result (RefusesParts (subchunk_meaning
            (chain_meaning (inner_chain_of self.now)) (stores_empty_chunks options.now)
            (kind_of cell_type.now) (filling cell_type.now) (subchunk_shape subchunks.now))
            (is_at_start (location_of self.now)) (stores_empty_chunks options.now)
            (filling cell_type.now) (chunk_shape subchunks.now) (subchunk_shape subchunks.now)
            (cells_of (kind_of cell_type.now) (data_of bytes.now))) }
    {
        let Some(count) = subchunks.indexed_count() else {
            return Err(CodecError::SizeOverflow);
        };
        let at_start = self.index_location().is_at_start();
        let mut writer = ShardWriter::new(alloc, count as usize, at_start)?;
        let mut room = Vec::new(alloc);
        for number in 0..count {
            room = self.push_subchunk(
                alloc,
                bytes,
                cell_type,
                subchunks,
                number,
                options,
                room,
                &mut writer,
            )?;
        }
        Ok(writer.finish()?)
    }

    /// Writes the subchunk of this number of an array into its shard, or leaves it out. The memory of `room` may be used,
    /// and memory for the next subchunk is given back.
    #[cycle(encode)]
    fn push_subchunk(
        &self,
        alloc: Global,
        bytes: &ArrayBytes<'_>,
        cell_type: &CellType,
        subchunks: &Subchunks,
        number: u64,
        options: &CodecOptions,
        room: Vec<u8>,
        writer: &mut ShardWriter,
    ) -> Result<Vec<u8>, CodecError>
        requires cells { HasCells (kind_of cell_type.now) (data_of bytes.now)
            (position_count (chunk_shape subchunks.now)) }
        requires fits { (chain_meaning (inner_chain_of self.now)).fits (kind_of cell_type.now)
            (subchunk_shape subchunks.now) ≡ true }
        requires number { number < subchunk_count (chunk_shape subchunks.now)
            (subchunk_shape subchunks.now) }
        ensures pushed { IfOk result (λ _. PushesCells (subchunk_meaning
            (chain_meaning (inner_chain_of self.now)) (stores_empty_chunks options.now)
            (kind_of cell_type.now) (filling cell_type.now) (subchunk_shape subchunks.now))
            (stores_empty_chunks options.now) (filling cell_type.now) (subchunk_at
            (chunk_shape subchunks.now) (subchunk_shape subchunks.now) (cells_of
            (kind_of cell_type.now) (data_of bytes.now)) number) writer.old writer.new) }
        ensures refused { IfErr result (RefusesPart (subchunk_meaning
            (chain_meaning (inner_chain_of self.now)) (stores_empty_chunks options.now)
            (kind_of cell_type.now) (filling cell_type.now) (subchunk_shape subchunks.now))
            (stores_empty_chunks options.now) (filling cell_type.now) (subchunk_at
            (chunk_shape subchunks.now) (subchunk_shape subchunks.now) (cells_of
            (kind_of cell_type.now) (data_of bytes.now)) number)) }
    {
        match (bytes, self.inner.keeps_cells()) {
            (ArrayBytes::Fixed(cells), true) => {
                let empty = options.store_empty_chunks();
                let cells = cells.as_slice();
                subchunks.push_cells(
                    alloc,
                    cells,
                    &cell_type.data_type,
                    &cell_type.fill_value,
                    empty,
                    number,
                    writer,
                )?;
                Ok(room)
            }
            _ => {
                let part = subchunks.extract(alloc, bytes, &cell_type.data_type, number, room)?;
                let inner = ChunkType {
                    cell_type,
                    shape: subchunks.shape(),
                };
                let encoded = self.encode_part(alloc, part, &inner, options)?;
                writer.push_part(&encoded)?;
                Ok(encoded.unwrap_or(Vec::new(alloc)))
            }
        }
    }

    /// The bytes of a subchunk's cells, which are given away, or `None` if it is left out.
    #[cycle(encode)]
    pub(crate) fn encode_part(
        &self,
        alloc: Global,
        bytes: ArrayBytes<'static>,
        chunk: &ChunkType<'_>,
        options: &CodecOptions,
    ) -> Result<Option<Vec<u8>>, CodecError>
        requires cells { HasCells (chunk_kind chunk.now) (data_of bytes)
            (position_count (shape_of chunk.now)) }
        ensures part { IfOk result (λ part. part_of (subchunk_meaning
            (chain_meaning (inner_chain_of self.now)) (stores_empty_chunks options.now)
            (chunk_kind chunk.now) (chunk_fill chunk.now) (shape_of chunk.now))
            (stores_empty_chunks options.now) (chunk_fill chunk.now) (cells_of
            (chunk_kind chunk.now) (data_of bytes.entry)) ≡ Some
            (option_map (λ encoded. encoded.items) part)) }
        ensures refused { IfErr result (RefusesPart (subchunk_meaning
            (chain_meaning (inner_chain_of self.now)) (stores_empty_chunks options.now)
            (chunk_kind chunk.now) (chunk_fill chunk.now) (shape_of chunk.now))
            (stores_empty_chunks options.now) (chunk_fill chunk.now) (cells_of
            (chunk_kind chunk.now) (data_of bytes.entry))) }
    {
        let cell_type = chunk.cell_type;
        if !options.store_empty_chunks()
            && bytes.is_fill_value(&cell_type.data_type, &cell_type.fill_value)
        {
            return Ok(None);
        }
        let inner = self.inner_codecs();
        let encoded = inner.encode_owned_chunk(alloc, bytes, chunk, options)?;
        Ok(Some(encoded))
    }
}
