//! What a codec chain does.
ghost use Rattle.std.specs.Prelude.{◌≡◌, ◌*◌, ◌<◌, ◌^◌, true, Some, IfOk, IfErr, IsSome};
ghost use Rattle.std.specs.Prelude.{length, option_map, OnOk};
ghost use Rattle.zarrs_subset.specs.Boxes.{position_count};
ghost use Rattle.zarrs_subset.specs.Regions.{box_of, LiesInShape};
ghost use Rattle.zarrs_codec_leaf.specs.Sources.{IsWindow, MayRead, window_bytes};
ghost use Rattle.zarrs_data_type.specs.States.{KeepsTarget, target_box};
ghost use Rattle.zarrs_data_type.specs.Targets.{takes_type};
ghost use Rattle.zarrs_codec_chain.specs.PartRefusals.{RefusesIntoDecoding};
ghost use Rattle.zarrs_codec_shard.specs.ShardPatches.{change_of};
ghost use Rattle.zarrs_data_type.specs.CellTypes.{kind_of, chunk_kind, shape_of};
ghost use Rattle.zarrs_data_type.specs.Kind.{kind, cell_size};
ghost use Rattle.zarrs_data_type.specs.ArrayData.{data_of};
ghost use Rattle.zarrs_data_type.specs.Cells.{cells, HasCells};
ghost use Rattle.zarrs_codec_chain.specs.Chain.{ChainMeaning, IsLawfulChain};
ghost use Rattle.zarrs_codec_chain.specs.Chunks.{decoded_in, decoded_of, encoding_as, partial_encoding_as};
ghost use Rattle.zarrs_codec_chain.specs.Chunks.{HoldsChunk, HoldsPart, HoldsPartAt, RefusesToDecode};
ghost use Rattle.zarrs_codec_chain.specs.Chunks.{RefusesToDecodePart, RefusesToEncode, RefusesToEncodePart};
ghost use Rattle.zarrs_codec_chain.specs.Refusals.{RefusesCompaction};
ghost use Rattle.zarrs_codec_chain.specs.Options.{stores_empty_chunks};

use crate::error::{PartError, whole_error};
use crate::options::CodecOptions;
use std::alloc::{AllocError, Global};
use zarrs_codec_leaf::{ByteSource, CodecError, SliceSource, Window};
use zarrs_codec_shard::PartialWrite;
use zarrs_data_type::{ArrayBytes, ArrayBytesDecodeIntoTarget, CellType, ChunkType, DataType};
use zarrs_subset::ArraySubset;

/// A chain of codecs, which turns the cells of a chunk into bytes and back (Zarr V3 core specification, "Codecs").
pub trait ChainTraits {
    /// Which bytes stand for which cells.
    ghost meaning: { Self → ChainMeaning };

    /// Whether the chain takes this type in chunks of this shape.
    ///
    /// # Errors
    /// `AllocError`: out of memory.
    fn fits(&self, alloc: Global, data_type: &DataType, shape: &[u64]) -> Result<bool, AllocError>
        ensures { IfOk result (λ fits. fits ≡ (meaning self.now).fits (kind data_type.now)
            shape.now) };

    /// The bytes of a chunk's cells, which `bytes` has in row-major order.
    ///
    /// # Errors
    /// In this order: `DoesNotFit` if the chain does not take the type and the shape; `SizeOverflow` if a size is too
    /// large. `OutOfMemory` may come at any time.
    fn encode(
        &self,
        alloc: Global,
        bytes: &ArrayBytes<'_>,
        chunk: &ChunkType<'_>,
        options: &CodecOptions,
    ) -> Result<Vec<u8>, CodecError>
        requires { HasCells (chunk_kind chunk.now) (data_of bytes.now)
            (position_count (shape_of chunk.now)) }
        ensures encoded { IfOk result (λ encoded. encoding_as (meaning self.now)
            (stores_empty_chunks options.now) chunk.now (data_of bytes.now) ≡ Some encoded.items) }
        ensures refused { IfErr result (RefusesToEncode (meaning self.now)
            (stores_empty_chunks options.now) chunk.now (data_of bytes.now)) };

    /// The bytes of a chunk's cells, which are given away: a chain that would put owned bytes down as they are takes
    /// them, and copies none.
    ///
    /// # Errors
    /// Those of `encode`.
    fn encode_owned(
        &self,
        alloc: Global,
        bytes: ArrayBytes<'_>,
        chunk: &ChunkType<'_>,
        options: &CodecOptions,
    ) -> Result<Vec<u8>, CodecError>
        requires { HasCells (chunk_kind chunk.now) (data_of bytes)
            (position_count (shape_of chunk.now)) }
        ensures encoded { IfOk result (λ encoded. encoding_as (meaning self.now)
            (stores_empty_chunks options.now) chunk.now (data_of bytes.entry) ≡ Some encoded.items) }
        ensures refused { IfErr result (RefusesToEncode (meaning self.now)
            (stores_empty_chunks options.now) chunk.now (data_of bytes.entry)) };

    /// The cells of a chunk's bytes. They may be lent by these bytes, so that a caller who takes a part of them copies
    /// that part alone.
    ///
    /// # Errors
    /// `DoesNotFit` if the bytes do not decode; `SizeOverflow` if they leave out cells, and a chunk of fill is too large.
    /// If both hold, either may come. `OutOfMemory` may come at any time.
    fn decode<'a>(
        &self,
        alloc: Global,
        encoded: &'a [u8],
        chunk: &ChunkType<'_>,
    ) -> Result<ArrayBytes<'a>, CodecError>
        requires size { position_count (shape_of chunk.now) * cell_size (chunk_kind chunk.now)
            < 2 ^ 64 }
        ensures cells { IfOk result (λ made. cells (chunk_kind chunk.now) (data_of made)
            ≡ decoded_of (meaning self.now) chunk.now encoded.now) }
        ensures some { IfOk result (λ made. IsSome (cells (chunk_kind chunk.now) (data_of made))) }
        ensures refused { IfErr result (RefusesToDecode (meaning self.now) chunk.now encoded.now) };

    /// The cells of a part of a chunk whose bytes are those of a window of a source. No other bytes are read than those
    /// that the part needs.
    ///
    /// # Errors
    /// `Codec(DoesNotFit)` if the bytes do not decode, though a part of them may, unless it is the whole chunk;
    /// `Codec(SizeOverflow)` if what the chain decodes whole for this part is too large, the chunk or a subchunk that the
    /// part meets: its cells, or its fill if its bytes leave out cells; `Source` if the source refuses. If several hold,
    /// any of them may come. `Codec(OutOfMemory)` may come at any time.
    fn partial_decode<B: ByteSource>(
        &self,
        alloc: Global,
        source: &B,
        window: Window,
        part: &ArraySubset,
        chunk: &ChunkType<'_>,
    ) -> Result<ArrayBytes<'static>, PartError>
        requires size { position_count (box_of part.now).shape * cell_size (chunk_kind chunk.now)
            < 2 ^ 64 }
        requires part { LiesInShape (box_of part.now) (shape_of chunk.now) }
        requires window { IsWindow window (B.bytes source.now) }
        requires may_read { MayRead (B.may_read source.now) window ((meaning self.now).places
            (chunk_kind chunk.now) (shape_of chunk.now) (box_of part.now)
            (window_bytes window (B.bytes source.now))) }
        ensures cells { IfOk result (λ made. HoldsPart (meaning self.now) chunk.now
            (box_of part.now) (window_bytes window (B.bytes source.now)) (data_of made)) }
        ensures whole { (box_of part.now).shape ≡ shape_of chunk.now → IfOk result (λ _. IsSome
            (decoded_of (meaning self.now) chunk.now (window_bytes window (B.bytes source.now)))) }
        ensures refused { IfErr result (RefusesToDecodePart (meaning self.now) chunk.now
            (box_of part.now) (window_bytes window (B.bytes source.now)) (B.refuses source.now)) };

    /// Decodes a part of a chunk, which has the shape of the target's box, into the box. The chunk's bytes are those of
    /// a window of a source. No other bytes are read than those that the part needs. Every byte outside the box stays;
    /// after a refusal the bytes inside may be anything.
    ///
    /// # Errors
    /// Those of `partial_decode`.
    fn partial_decode_into<B: ByteSource>(
        &self,
        alloc: Global,
        source: &B,
        window: Window,
        part: &ArraySubset,
        chunk: &ChunkType<'_>,
        target: &mut ArrayBytesDecodeIntoTarget<'_, '_, '_>,
    ) -> Result<(), PartError>
        requires part { LiesInShape (box_of part.now) (shape_of chunk.now) }
        requires window { IsWindow window (B.bytes source.now) }
        requires may_read { MayRead (B.may_read source.now) window ((meaning self.now).places
            (chunk_kind chunk.now) (shape_of chunk.now) (box_of part.now)
            (window_bytes window (B.bytes source.now))) }
        requires takes { takes_type target.old.cell_size target.old.depth (chunk_kind chunk.now)
            ≡ true }
        requires same_shape { (target_box target.old).shape ≡ (box_of part.now).shape }
        ensures kept { KeepsTarget target.old target.new }
        ensures cells { OnOk result (HoldsPartAt (meaning self.now) chunk.now (box_of part.now)
            (window_bytes window (B.bytes source.now)) target.old target.new) }
        ensures whole { (box_of part.now).shape ≡ shape_of chunk.now → OnOk result (IsSome
            (decoded_of (meaning self.now) chunk.now (window_bytes window (B.bytes source.now)))) }
        ensures refused { IfErr result (RefusesToDecodePart (meaning self.now) chunk.now
            (box_of part.now) (window_bytes window (B.bytes source.now)) (B.refuses source.now)) };

    /// Decodes a chunk, which has the shape of the target's box, into the box. Every byte outside the box stays; after a
    /// refusal the bytes inside may be anything.
    ///
    /// # Errors
    /// `DoesNotFit` if the bytes do not decode. `OutOfMemory` may come at any time.
    fn decode_into(
        &self,
        alloc: Global,
        encoded: &[u8],
        cell_type: &CellType,
        target: &mut ArrayBytesDecodeIntoTarget<'_, '_, '_>,
    ) -> Result<(), CodecError>
        requires takes { takes_type target.old.cell_size target.old.depth (kind_of cell_type.now)
            ≡ true }
        ensures kept { KeepsTarget target.old target.new }
        ensures cells { OnOk result (HoldsChunk (meaning self.now) cell_type.now encoded.now
            target.old target.new) }
        ensures refused { IfErr result (RefusesIntoDecoding
            (decoded_in (meaning self.now) cell_type.now target.old encoded.now)) }
    {
        let shape = target.region.shape();
        let chunk = ChunkType { cell_type, shape };
        let whole = ArraySubset::new_with_shape(alloc, Vec::from_slice(alloc, shape)?)?;
        let source = SliceSource { bytes: encoded };
        let window = Window {
            offset: 0,
            len: encoded.len() as u64,
        };
        match self.partial_decode_into(alloc, &source, window, &whole, &chunk, target) {
            Ok(()) => Ok(()),
            Err(error) => Err(whole_error(error)),
        }
    }

    /// The bytes of the same cells without what no cell needs, or `None` if those are the same bytes.
    ///
    /// # Errors
    /// `DoesNotFit` if the bytes do not decode; `SizeOverflow` if those bytes are too many. `OutOfMemory` may come at any
    /// time.
    fn compact(
        &self,
        alloc: Global,
        encoded: &[u8],
        shape: &[u64],
    ) -> Result<Option<Vec<u8>>, CodecError>
        ensures less { IfOk result (λ less. (meaning self.now).compacted shape.now encoded.now
            ≡ Some (option_map (λ encoded. encoded.items) less)) }
        ensures refused { IfErr result (RefusesCompaction (meaning self.now) shape.now
            encoded.now) };

    /// Whether the cells of a part are written into the bytes of their chunk.
    fn supports_partial_encode(&self) -> bool
        ensures { result ≡ (meaning self.now).encodes_partly };

    /// What is done with the key of a chunk, so that it has the cells `bytes` at the positions of `part` and its other
    /// cells stay. `stored` has the bytes of the key, or `None` if it is absent.
    ///
    /// # Errors
    /// In this order: `DoesNotFit` if the chain does not take the type and the shape, or if the stored bytes do not decode
    /// where the part reads them; `SizeOverflow` if a size is too large: of what is written, or of a subchunk that the part
    /// meets, be it of its fill where the stored bytes leave out cells. For a subchunk that is too large and does not
    /// decode, either may come. `OutOfMemory` may come at any time.
    fn partial_encode(
        &self,
        alloc: Global,
        stored: Option<&[u8]>,
        part: &ArraySubset,
        bytes: &ArrayBytes<'_>,
        chunk: &ChunkType<'_>,
        options: &CodecOptions,
    ) -> Result<PartialWrite, CodecError>
        requires supported { (meaning self.now).encodes_partly ≡ true }
        requires dimensions { length (box_of part.now).start ≡ length (shape_of chunk.now) }
        requires cells { HasCells (chunk_kind chunk.now) (data_of bytes.now)
            (position_count (box_of part.now).shape) }
        ensures written { IfOk result (λ write. partial_encoding_as (meaning self.now)
            (stores_empty_chunks options.now) chunk.now
            (option_map (λ encoded. encoded.now) stored.entry) (box_of part.now)
            (data_of bytes.now) ≡ Some (change_of write)) }
        ensures refused { IfErr result (RefusesToEncodePart (meaning self.now)
            (stores_empty_chunks options.now) chunk.now
            (option_map (λ encoded. encoded.now) stored.entry) (box_of part.now)
            (data_of bytes.now)) };

    /// Decoding returns what was encoded, what was encoded is compact, and what a partial encode leaves decodes to the
    /// updated cells.
    ghost lawful: { (chain : Self) → IsLawfulChain (meaning chain) };
}
