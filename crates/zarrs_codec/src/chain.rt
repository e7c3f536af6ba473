//! Chains of codecs.
ghost use Rattle.std.specs.Prelude.{◌≡◌, ◌*◌, ◌<◌, ◌^◌, Some, IfOk, IfErr, IsSome};
ghost use Rattle.zarrs_subset.specs.Boxes.{position_count};
ghost use Rattle.zarrs_data_type.specs.CellTypes.{chunk_kind, shape_of};
ghost use Rattle.zarrs_data_type.specs.Kind.{cell_size};
ghost use Rattle.zarrs_data_type.specs.ArrayData.{data_of};
ghost use Rattle.zarrs_data_type.specs.Cells.{cells, HasCells};
ghost use Rattle.zarrs_codec_array.specs.ArrayCodecs.{arrays_meaning};
ghost use Rattle.zarrs_codec_chain.specs.Chunks.{RefusesToDecode, RefusesToEncode, decoded_of, encoding_as};
ghost use Rattle.zarrs_codec.specs.Chains.{array_to_array_of, array_to_bytes_of, bytes_to_bytes_of};
ghost use Rattle.zarrs_codec.specs.Chains.{behind, codec_meaning, chain_meaning, cells_chain_meaning};
ghost use Rattle.zarrs_codec.specs.ChainLaws.{chain-lawful};
ghost use Rattle.zarrs_codec_chain.specs.Options.{stores_empty_chunks};

use crate::codec::ArrayToBytesCodec;
use std::alloc::{AllocError, Global};
use zarrs_codec_array::{ArrayToArrayCodec, decode_array, encode_array, encoded_shape};
use zarrs_codec_chain::{ChainTraits, CodecOptions, PartError, Stored};
use zarrs_codec_leaf::{ByteSource, CodecError, Misfit, Window};
use zarrs_codec_shard::PartialWrite;
use zarrs_data_type::{ArrayBytes, ArrayBytesDecodeIntoTarget, ChunkType, DataType};
use zarrs_subset::{ArraySubset, element_count};

/// The codecs that make bytes of bytes: there is none.
#[derive(Clone, Copy, Debug, Drop, PartialEq, Eq)]
pub struct BytesToBytesCodecs;

/// A chain of codecs: those that make an array of an array, the first one first, then the one that makes bytes.
#[cycle(codec)]
#[derive(Debug, Drop)]
pub struct CodecChain {
    pub(crate) array_to_array: Vec<ArrayToArrayCodec>,
    pub(crate) array_to_bytes: ArrayToBytesCodec,
    bytes_to_bytes: BytesToBytesCodecs,
}

impl CodecChain {
    /// The chain of these codecs.
    pub fn new(
        array_to_array: Vec<ArrayToArrayCodec>,
        array_to_bytes: ArrayToBytesCodec,
        bytes_to_bytes: BytesToBytesCodecs,
    ) -> CodecChain
        ensures meaning { chain_meaning result ≡ behind array_to_array.items
            (codec_meaning array_to_bytes) }
        ensures array_to_array { array_to_array_of result ≡ array_to_array.items }
        ensures array_to_bytes { array_to_bytes_of result ≡ array_to_bytes }
        ensures bytes_to_bytes { bytes_to_bytes_of result ≡ bytes_to_bytes }
    {
        CodecChain {
            array_to_array,
            array_to_bytes,
            bytes_to_bytes,
        }
    }

    /// The codecs that make an array of an array, the first one first.
    pub fn array_to_array_codecs(&self) -> &[ArrayToArrayCodec]
        ensures { result.now ≡ array_to_array_of self.now }
    {
        &self.array_to_array
    }

    /// The codec that makes bytes of cells.
    pub fn array_to_bytes_codec(&self) -> &ArrayToBytesCodec
        ensures { result.now ≡ array_to_bytes_of self.now }
    {
        &self.array_to_bytes
    }

    /// The codecs that make bytes of bytes.
    pub fn bytes_to_bytes_codecs(&self) -> &BytesToBytesCodecs
        ensures { result.now ≡ bytes_to_bytes_of self.now }
    {
        &self.bytes_to_bytes
    }

    /// Whether the codecs that make an array of an array take this shape.
    pub(crate) fn takes_shape(&self, alloc: Global, shape: &[u64]) -> Result<bool, AllocError>
        ensures { IfOk result (λ takes. takes ≡ (arrays_meaning (array_to_array_of self.now)).fits
            shape.now) }
    {
        if self.array_to_array.is_empty() {
            return Ok(true);
        }
        Ok(encoded_shape(alloc, &self.array_to_array, shape)?.is_some())
    }
}

// What a chain does whose last codec looks at cells alone.
impl CodecChain {
    /// The bytes of a chunk's cells.
    pub(crate) fn encode_cells(
        &self,
        alloc: Global,
        bytes: &ArrayBytes<'_>,
        chunk: &ChunkType<'_>,
        options: &CodecOptions,
    ) -> Result<Vec<u8>, CodecError>
        requires cells { HasCells (chunk_kind chunk.now) (data_of bytes.now)
            (position_count (shape_of chunk.now)) }
        ensures encoded { IfOk result (λ encoded. encoding_as (cells_chain_meaning self.now)
            (stores_empty_chunks options.now) chunk.now (data_of bytes.now) ≡ Some encoded.items) }
        ensures refused { IfErr result (RefusesToEncode (cells_chain_meaning self.now)
            (stores_empty_chunks options.now) chunk.now (data_of bytes.now)) }
    {
        if !self.takes_shape(alloc, chunk.shape)? {
            return Err(CodecError::DoesNotFit(Misfit::TypeOrShape));
        }
        let data_type = &chunk.cell_type.data_type;
        let made = encode_array(alloc, &self.array_to_array, bytes, data_type, chunk.shape)?;
        self.array_to_bytes.encode(alloc, &made, bytes, data_type)
    }

    /// The bytes of a chunk's cells, which are given away.
    pub(crate) fn encode_owned_cells(
        &self,
        alloc: Global,
        bytes: ArrayBytes<'_>,
        chunk: &ChunkType<'_>,
        options: &CodecOptions,
    ) -> Result<Vec<u8>, CodecError>
        requires cells { HasCells (chunk_kind chunk.now) (data_of bytes)
            (position_count (shape_of chunk.now)) }
        ensures encoded { IfOk result (λ encoded. encoding_as (cells_chain_meaning self.now)
            (stores_empty_chunks options.now) chunk.now (data_of bytes.entry) ≡ Some
            encoded.items) }
        ensures refused { IfErr result (RefusesToEncode (cells_chain_meaning self.now)
            (stores_empty_chunks options.now) chunk.now (data_of bytes.entry)) }
    {
        if !self.takes_shape(alloc, chunk.shape)? {
            return Err(CodecError::DoesNotFit(Misfit::TypeOrShape));
        }
        let data_type = &chunk.cell_type.data_type;
        let made = encode_array(alloc, &self.array_to_array, &bytes, data_type, chunk.shape)?;
        self.array_to_bytes
            .encode_owned(alloc, made, bytes, data_type)
    }

    /// The cells of a chunk's bytes.
    pub(crate) fn decode_cells<'a>(
        &self,
        alloc: Global,
        encoded: &'a [u8],
        chunk: &ChunkType<'_>,
    ) -> Result<ArrayBytes<'a>, CodecError>
        requires size { position_count (shape_of chunk.now) * cell_size (chunk_kind chunk.now)
            < 2 ^ 64 }
        ensures cells { IfOk result (λ made. cells (chunk_kind chunk.now) (data_of made)
            ≡ decoded_of (cells_chain_meaning self.now) chunk.now encoded.now) }
        ensures some { IfOk result (λ made. IsSome (cells (chunk_kind chunk.now) (data_of made))) }
        ensures refused { IfErr result (RefusesToDecode (cells_chain_meaning self.now) chunk.now
            encoded.now) }
    {
        if !self.takes_shape(alloc, chunk.shape)? {
            return Err(CodecError::DoesNotFit(Misfit::TypeOrShape));
        }
        let count = element_count(chunk.shape).unwrap();
        let data_type = &chunk.cell_type.data_type;
        let array = self
            .array_to_bytes
            .decode(alloc, encoded, data_type, count)?;
        Ok(decode_array(alloc, &self.array_to_array, array, data_type, chunk.shape)?)
    }
}

impl ChainTraits for CodecChain {
    ghost meaning = { chain_meaning };

    fn fits(&self, alloc: Global, data_type: &DataType, shape: &[u64]) -> Result<bool, AllocError> {
        self.fits_chunk(alloc, data_type, shape)
    }

    fn encode(
        &self,
        alloc: Global,
        bytes: &ArrayBytes<'_>,
        chunk: &ChunkType<'_>,
        options: &CodecOptions,
    ) -> Result<Vec<u8>, CodecError> {
        self.encode_chunk(alloc, bytes, chunk, options)
    }

    fn encode_owned(
        &self,
        alloc: Global,
        bytes: ArrayBytes<'_>,
        chunk: &ChunkType<'_>,
        options: &CodecOptions,
    ) -> Result<Vec<u8>, CodecError> {
        self.encode_owned_chunk(alloc, bytes, chunk, options)
    }

    fn decode<'a>(
        &self,
        alloc: Global,
        encoded: &'a [u8],
        chunk: &ChunkType<'_>,
    ) -> Result<ArrayBytes<'a>, CodecError> {
        self.decode_chunk(alloc, encoded, chunk)
    }

    fn partial_decode<B: ByteSource>(
        &self,
        alloc: Global,
        source: &B,
        window: Window,
        part: &ArraySubset,
        chunk: &ChunkType<'_>,
    ) -> Result<ArrayBytes<'static>, PartError> {
        self.partial_decode_chunk(alloc, &Stored::new(source, window), part, chunk)
    }

    fn partial_decode_into<B: ByteSource>(
        &self,
        alloc: Global,
        source: &B,
        window: Window,
        part: &ArraySubset,
        chunk: &ChunkType<'_>,
        target: &mut ArrayBytesDecodeIntoTarget<'_, '_, '_>,
    ) -> Result<(), PartError> {
        let stored = Stored::new(source, window);
        self.partial_decode_chunk_into(alloc, &stored, part, chunk, target)
    }

    fn compact(
        &self,
        alloc: Global,
        encoded: &[u8],
        shape: &[u64],
    ) -> Result<Option<Vec<u8>>, CodecError> {
        self.compact_chunk(alloc, encoded, shape)
    }

    fn supports_partial_encode(&self) -> bool {
        self.encodes_partly()
    }

    fn partial_encode(
        &self,
        alloc: Global,
        stored: Option<&[u8]>,
        part: &ArraySubset,
        bytes: &ArrayBytes<'_>,
        chunk: &ChunkType<'_>,
        options: &CodecOptions,
    ) -> Result<PartialWrite, CodecError> {
        self.partial_encode_chunk(alloc, stored, part, bytes, chunk, options)
    }

    ghost lawful = { chain-lawful };
}
