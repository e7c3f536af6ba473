//! Parts of chunks, of ranges of their bytes.
ghost use Rattle.std.specs.Prelude.{◌≡◌, ◌*◌, ◌<◌, ◌^◌, IfOk, IfErr, IfNone, IfSome, IsSome};
ghost use Rattle.zarrs_subset.specs.Boxes.{position_count};
ghost use Rattle.zarrs_subset.specs.Regions.{LiesInShape, box_of};
ghost use Rattle.zarrs_data_type.specs.CellTypes.{chunk_kind, kind_of, shape_of};
ghost use Rattle.zarrs_data_type.specs.Kind.{cell_size};
ghost use Rattle.zarrs_data_type.specs.ArrayData.{data_of};
ghost use Rattle.zarrs_data_type.specs.Cells.{HasCells};
ghost use Rattle.zarrs_data_type.specs.RegionData.{region_data};
ghost use Rattle.zarrs_codec_chain.specs.Chunks.{HoldsPart, RefusesToDecodePart, decoded_of};
ghost use Rattle.zarrs_codec_chain.specs.OpenShards.{read_of};
ghost use Rattle.zarrs_codec_chain.specs.Places.{all_places};
ghost use Rattle.zarrs_codec_chain.specs.ShardParts.{MeetsPart};
ghost use Rattle.zarrs_codec_chain.specs.ShardReads.{IsSole};
ghost use Rattle.zarrs_codec_chain.specs.Stored.{MayReadOf, bytes_of, refuses_of};
ghost use Rattle.zarrs_codec.specs.Chains.{chain_meaning, inner_chain_of, sharding_meaning};
ghost use Rattle.zarrs_codec.specs.ShardChunks.{DecodesEach, DecodesOne, DecodesWhole, HasParts};
ghost use Rattle.zarrs_codec.specs.ShardChunks.{HasNoPieceOf, HasPieceOf, IsCounted, ReadsOne};
ghost use Rattle.zarrs_codec.specs.ShardChunks.{RefusesReads, RefusesShard, shard_decoded};

use crate::chain::CodecChain;
use crate::codec::ArrayToBytesCodec;
use crate::sharding::ShardingCodec;
use crate::sizes::is_counted;
use std::alloc::Global;
use zarrs_codec_chain::{
    PartError, ShardPart, SoleSubchunk, Stored, part_of_whole, partial_decode_bytes,
};
use zarrs_codec_leaf::{ByteSource, CodecError, Misfit};
use zarrs_data_type::{ArrayBytes, CellType, ChunkType, RegionCells};
use zarrs_subset::ArraySubset;

impl CodecChain {
    /// The cells of a part of a chunk that is stored as these bytes.
    #[cycle(partial_decode)]
    pub(crate) fn partial_decode_chunk<B: ByteSource>(
        &self,
        alloc: Global,
        stored: &Stored<'_, B>,
        part: &ArraySubset,
        chunk: &ChunkType<'_>,
    ) -> Result<ArrayBytes<'static>, PartError>
        requires size { position_count (box_of part.now).shape * cell_size (chunk_kind chunk.now)
            < 2 ^ 64 }
        requires part { LiesInShape (box_of part.now) (shape_of chunk.now) }
        requires may_read { MayReadOf stored.now ((chain_meaning self.now).places
            (chunk_kind chunk.now) (shape_of chunk.now) (box_of part.now) (bytes_of stored.now)) }
        ensures cells { IfOk result (λ made. HoldsPart (chain_meaning self.now) chunk.now
            (box_of part.now) (bytes_of stored.now) (data_of made)) }
        ensures whole { (box_of part.now).shape ≡ shape_of chunk.now → IfOk result (λ _. IsSome
            (decoded_of (chain_meaning self.now) chunk.now (bytes_of stored.now))) }
        ensures refused { IfErr result (RefusesToDecodePart (chain_meaning self.now) chunk.now
            (box_of part.now) (bytes_of stored.now) (refuses_of stored.now)) }
    {
        if !self.array_to_array.is_empty() {
            return self.part_of_decoded(alloc, stored, part, chunk);
        }
        match &self.array_to_bytes {
            ArrayToBytesCodec::Bytes(codec) => {
                let data_type = &chunk.cell_type.data_type;
                partial_decode_bytes(codec, alloc, stored, part, data_type, chunk.shape)
            }
            ArrayToBytesCodec::Sharding(codec) => codec.partial_decode_shard(
                alloc, stored, part, chunk,
            ),
            _ => self.part_of_decoded(alloc, stored, part, chunk),
        }
    }

    /// The same, of the cells of the whole chunk.
    pub(crate) fn part_of_decoded<B: ByteSource>(
        &self,
        alloc: Global,
        stored: &Stored<'_, B>,
        part: &ArraySubset,
        chunk: &ChunkType<'_>,
    ) -> Result<ArrayBytes<'static>, PartError>
        requires whole { DecodesWhole (chain_meaning self.now) }
        requires part { LiesInShape (box_of part.now) (shape_of chunk.now) }
        requires may_read { MayReadOf stored.now (all_places (chunk_kind chunk.now)
            (shape_of chunk.now) (box_of part.now) (bytes_of stored.now)) }
        ensures cells { IfOk result (λ made. HoldsPart (chain_meaning self.now) chunk.now
            (box_of part.now) (bytes_of stored.now) (data_of made)) }
        ensures decodes { IfOk result (λ _. IsSome (decoded_of (chain_meaning self.now) chunk.now
            (bytes_of stored.now))) }
        ensures refused { IfErr result (RefusesToDecodePart (chain_meaning self.now) chunk.now
            (box_of part.now) (bytes_of stored.now) (refuses_of stored.now)) }
    {
        if !is_counted(chunk.shape, &chunk.cell_type.data_type) {
            return Err(PartError::Codec(CodecError::SizeOverflow));
        }
        let encoded = stored.read(alloc)?;
        let whole = self.decode_chunk(alloc, encoded.as_slice(), chunk)?;
        let made = part_of_whole(alloc, whole, &chunk.cell_type.data_type, chunk.shape, part)?;
        Ok(made)
    }
}

/// The cells that a subchunk has of a part of its shard, over the box of their positions.
#[derive(Drop)]
struct Piece {
    shared: ArraySubset,
    cells: ArrayBytes<'static>,
}

impl ShardingCodec {
    /// The cells of a part of a shard that is stored as these bytes. The index is read first, then each present subchunk
    /// that the part meets.
    #[cycle(partial_decode)]
    fn partial_decode_shard<B: ByteSource>(
        &self,
        alloc: Global,
        stored: &Stored<'_, B>,
        part: &ArraySubset,
        chunk: &ChunkType<'_>,
    ) -> Result<ArrayBytes<'static>, PartError>
        requires size { position_count (box_of part.now).shape * cell_size (chunk_kind chunk.now)
            < 2 ^ 64 }
        requires part { LiesInShape (box_of part.now) (shape_of chunk.now) }
        requires may_read { MayReadOf stored.now ((sharding_meaning self.now).places
            (chunk_kind chunk.now) (shape_of chunk.now) (box_of part.now) (bytes_of stored.now)) }
        ensures cells { IfOk result (λ made. HoldsPart (sharding_meaning self.now) chunk.now
            (box_of part.now) (bytes_of stored.now) (data_of made)) }
        ensures whole { (box_of part.now).shape ≡ shape_of chunk.now → IfOk result (λ _. IsSome
            (decoded_of (sharding_meaning self.now) chunk.now (bytes_of stored.now))) }
        ensures refused { IfErr result (RefusesToDecodePart (sharding_meaning self.now) chunk.now
            (box_of part.now) (bytes_of stored.now) (refuses_of stored.now)) }
    {
        let sub = self.extents(alloc)?;
        let at_start = self.index_location().is_at_start();
        let Some(read) = ShardPart::open(alloc, stored, part, chunk.shape, &sub, at_start)? else {
            return Err(PartError::Codec(CodecError::DoesNotFit(Misfit::Bytes)));
        };
        if part.shape() == chunk.shape {
            return self.read_all(alloc, &read, chunk.cell_type);
        }
        self.read_part(alloc, &read, chunk.cell_type)
    }

    /// The cells of a whole shard whose index was read. Its bytes have to decode.
    #[cycle(partial_decode)]
    fn read_all<B: ByteSource>(
        &self,
        alloc: Global,
        read: &ShardPart<'_, '_, B>,
        cell_type: &CellType,
    ) -> Result<ArrayBytes<'static>, PartError>
        requires size { IsCounted cell_type.now (read_of read.now) }
        requires whole { (read_of read.now).part.shape ≡ (read_of read.now).shape }
        ensures all { IfOk result (λ made. HasParts self.now cell_type.now (read_of read.now)
            (data_of made)) }
        ensures decodes { IfOk result (λ _. IsSome (shard_decoded self.now cell_type.now
            (read_of read.now))) }
        ensures refused { IfErr result (RefusesShard self.now cell_type.now (read_of read.now)) }
    {
        let shape = read.subchunk_shape();
        if !self.inner.fits_chunk(alloc, &cell_type.data_type, shape)? {
            return Err(PartError::Codec(CodecError::DoesNotFit(Misfit::TypeOrShape)));
        }
        self.read_part(alloc, read, cell_type)
    }

    /// The cells of a part of a shard whose index was read. If the part is the whole shard, each subchunk has to decode.
    #[cycle(partial_decode)]
    fn read_part<B: ByteSource>(
        &self,
        alloc: Global,
        read: &ShardPart<'_, '_, B>,
        cell_type: &CellType,
    ) -> Result<ArrayBytes<'static>, PartError>
        requires { IsCounted cell_type.now (read_of read.now) }
        ensures all { IfOk result (λ made. HasParts self.now cell_type.now (read_of read.now)
            (data_of made)) }
        ensures whole { (read_of read.now).part.shape ≡ (read_of read.now).shape → IfOk result
            (λ _. DecodesEach self.now cell_type.now (read_of read.now)) }
        ensures refused { IfErr result (RefusesReads self.now cell_type.now (read_of read.now)) }
    {
        // The cells of a part that lies in one subchunk are put into no other data.
        if let Some(sole) = read.sole(alloc)? {
            if let Some(cells) = self.decode_sole(alloc, read, cell_type, &sole)? {
                return Ok(cells);
            }
        }
        let met = read.met(alloc)?;
        self.read_subchunks(alloc, read, cell_type, &met)
    }

    /// The cells of a part of a shard that lies in one subchunk, or `None` if that is absent.
    #[cycle(partial_decode)]
    fn decode_sole<B: ByteSource>(
        &self,
        alloc: Global,
        read: &ShardPart<'_, '_, B>,
        cell_type: &CellType,
        sole: &SoleSubchunk,
    ) -> Result<Option<ArrayBytes<'static>>, PartError>
        requires size { IsCounted cell_type.now (read_of read.now) }
        requires sole { IsSole (read_of read.now) sole.now.number (box_of sole.now.own) }
        ensures all { IfOk result (λ made. IfSome made (λ cells. HasParts self.now cell_type.now
            (read_of read.now) (data_of cells))) }
        ensures whole { (read_of read.now).part.shape ≡ (read_of read.now).shape → IfOk result
            (λ made. IfSome made (λ _. DecodesEach self.now cell_type.now (read_of read.now))) }
        ensures refused { IfErr result (RefusesReads self.now cell_type.now (read_of read.now)) }
    {
        let Some(stored) = read.subchunk(sole.number) else {
            return Ok(None);
        };
        let inner = ChunkType {
            cell_type,
            shape: read.subchunk_shape(),
        };
        let cells = self.partial_decode_inner(alloc, &stored, &sole.own, &inner)?;
        Ok(Some(cells))
    }

    /// The cells of the subchunks that a part of a shard meets, put into data of the part that is all fill. `met` is the
    /// box of the indices of these subchunks.
    #[cycle(partial_decode)]
    fn read_subchunks<B: ByteSource>(
        &self,
        alloc: Global,
        read: &ShardPart<'_, '_, B>,
        cell_type: &CellType,
        met: &ArraySubset,
    ) -> Result<ArrayBytes<'static>, PartError>
        requires size { IsCounted cell_type.now (read_of read.now) }
        requires met { MeetsPart (read_of read.now).sub (read_of read.now).part (box_of met.now) }
        ensures all { IfOk result (λ made. HasParts self.now cell_type.now (read_of read.now)
            (data_of made)) }
        ensures whole { (read_of read.now).part.shape ≡ (read_of read.now).shape → IfOk result
            (λ _. DecodesEach self.now cell_type.now (read_of read.now)) }
        ensures refused { IfErr result (RefusesReads self.now cell_type.now (read_of read.now)) }
    {
        let Ok(count) = read.part.num_elements() else {
            unreachable!()
        };
        let held = RegionCells::new_fill_value(
            alloc,
            &cell_type.data_type,
            count,
            &cell_type.fill_value,
        )?;
        let Some(mut walk) = met.walk(alloc)? else {
            return Ok(held.into_array_bytes(alloc)?);
        };
        let mut made = held;
        loop {
            made = self.read_subchunk(alloc, read, cell_type, made, walk.current())?;
            if !walk.advance() {
                return Ok(made.into_array_bytes(alloc)?);
            }
        }
    }

    /// The data of a part of a shard with the cells that the subchunk with these indices has of it. An absent subchunk
    /// changes nothing.
    #[cycle(partial_decode)]
    fn read_subchunk<B: ByteSource>(
        &self,
        alloc: Global,
        read: &ShardPart<'_, '_, B>,
        cell_type: &CellType,
        held: RegionCells,
        indices: &[u64],
    ) -> Result<RegionCells, PartError>
        requires size { IsCounted cell_type.now (read_of read.now) }
        requires held { HasCells (kind_of cell_type.now) (region_data held)
            (position_count (read_of read.now).part.shape) }
        ensures read { IfOk result (λ made. ReadsOne self.now cell_type.now (read_of read.now)
            indices.now (region_data held) (region_data made)) }
        ensures whole { (read_of read.now).part.shape ≡ (read_of read.now).shape → IfOk result
            (λ _. DecodesOne self.now cell_type.now (read_of read.now) indices.now) }
        ensures refused { IfErr result (RefusesReads self.now cell_type.now (read_of read.now)) }
    {
        let Some(piece) = self.decode_piece(alloc, read, cell_type, indices)? else {
            return Ok(held);
        };
        let Piece { shared, cells } = piece;
        let data_type = &cell_type.data_type;
        Ok(held.with_owned_part(alloc, data_type, read.part, cells, &shared)?)
    }

    /// The cells that the subchunk with these indices has of a part of its shard, or `None` if the subchunk is absent or
    /// has none of them.
    #[cycle(partial_decode)]
    fn decode_piece<B: ByteSource>(
        &self,
        alloc: Global,
        read: &ShardPart<'_, '_, B>,
        cell_type: &CellType,
        indices: &[u64],
    ) -> Result<Option<Piece>, PartError>
        requires { IsCounted cell_type.now (read_of read.now) }
        ensures none { IfOk result (λ made. IfNone made (HasNoPieceOf self.now cell_type.now
            (read_of read.now) indices.now)) }
        ensures piece { IfOk result (λ made. IfSome made (λ piece. HasPieceOf self.now cell_type.now
            (read_of read.now) indices.now (box_of piece.shared) (data_of piece.cells))) }
        ensures whole { (read_of read.now).part.shape ≡ (read_of read.now).shape → IfOk result
            (λ _. DecodesOne self.now cell_type.now (read_of read.now) indices.now) }
        ensures refused { IfErr result (RefusesReads self.now cell_type.now (read_of read.now)) }
    {
        let Some(number) = read.number(indices) else {
            return Ok(None);
        };
        let Some(stored) = read.subchunk(number) else {
            return Ok(None);
        };
        let Some(share) = read.share(alloc, number)? else {
            return Ok(None);
        };
        let inner = ChunkType {
            cell_type,
            shape: read.subchunk_shape(),
        };
        let cells = self.partial_decode_inner(alloc, &stored, &share.own, &inner)?;
        Ok(Some(Piece {
            shared: share.shared,
            cells,
        }))
    }

    /// The cells of a part of a subchunk that is stored as these bytes.
    #[cycle(partial_decode)]
    fn partial_decode_inner<B: ByteSource>(
        &self,
        alloc: Global,
        stored: &Stored<'_, B>,
        part: &ArraySubset,
        chunk: &ChunkType<'_>,
    ) -> Result<ArrayBytes<'static>, PartError>
        requires size { position_count (box_of part.now).shape * cell_size (chunk_kind chunk.now)
            < 2 ^ 64 }
        requires part { LiesInShape (box_of part.now) (shape_of chunk.now) }
        requires may_read { MayReadOf stored.now ((chain_meaning (inner_chain_of self.now)).places
            (chunk_kind chunk.now) (shape_of chunk.now) (box_of part.now) (bytes_of stored.now)) }
        ensures cells { IfOk result (λ made. HoldsPart (chain_meaning (inner_chain_of self.now))
            chunk.now (box_of part.now) (bytes_of stored.now) (data_of made)) }
        ensures whole { (box_of part.now).shape ≡ shape_of chunk.now → IfOk result (λ _. IsSome
            (decoded_of (chain_meaning (inner_chain_of self.now)) chunk.now
            (bytes_of stored.now))) }
        ensures refused { IfErr result (RefusesToDecodePart
            (chain_meaning (inner_chain_of self.now)) chunk.now (box_of part.now)
            (bytes_of stored.now) (refuses_of stored.now)) }
    {
        self.inner.partial_decode_chunk(alloc, stored, part, chunk)
    }
}
