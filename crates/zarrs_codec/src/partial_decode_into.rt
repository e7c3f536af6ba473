//! Parts of chunks that are decoded into a box that a caller lends.
ghost use Rattle.std.specs.Prelude.{◌≡◌, true, IfErr, IfSome, IsSome, OnOk};
ghost use Rattle.zarrs_subset.specs.Regions.{LiesInShape, box_of, LiesInBox};
ghost use Rattle.zarrs_data_type.specs.CellTypes.{chunk_kind, kind_of, shape_of};
ghost use Rattle.zarrs_data_type.specs.States.{KeepsBut, KeepsTarget, data_of_target};
ghost use Rattle.zarrs_data_type.specs.States.{parent_box, target_box};
ghost use Rattle.zarrs_data_type.specs.Targets.{takes_type};
ghost use Rattle.zarrs_codec_chain.specs.Chunks.{HoldsPartAt, RefusesToDecodePart, decoded_of};
ghost use Rattle.zarrs_codec_chain.specs.OpenShards.{read_of};
ghost use Rattle.zarrs_codec_chain.specs.Parts.{DecodesInto};
ghost use Rattle.zarrs_codec_chain.specs.Places.{all_places};
ghost use Rattle.zarrs_codec_chain.specs.Stored.{MayReadAll, MayReadOf, bytes_of, refuses_of};
ghost use Rattle.zarrs_codec.specs.Chains.{chain_meaning, inner_chain_of, sharding_meaning};
ghost use Rattle.zarrs_codec.specs.ShardChunks.{DecodesWhole, HasPartsAt, ReadsOneAt, RefusesShard};
ghost use Rattle.zarrs_codec.specs.ShardChunks.{RefusesReads, shard_decoded};
ghost use Rattle.zarrs_codec.specs.ShardPartsInto.{HoldsPieceAt, RefusesPieceOf};

use crate::chain::CodecChain;
use crate::codec::ArrayToBytesCodec;
use crate::sharding::ShardingCodec;
use std::alloc::Global;
use zarrs_codec_chain::{PartError, ShardPart, Stored, moved_to, partial_decode_bytes_into};
use zarrs_codec_leaf::{ByteSource, CodecError, Misfit};
use zarrs_data_type::{ArrayBytesDecodeIntoTarget, CellType, ChunkType, copy_fill_value_into};
use zarrs_subset::ArraySubset;

impl CodecChain {
    /// Decodes a part of a chunk that is stored as these bytes, and has the shape of the target's box, into the box.
    /// Every byte outside the box stays; after a refusal the bytes inside may be anything.
    #[cycle(partial_decode_into)]
    pub(crate) fn partial_decode_chunk_into<B: ByteSource>(
        &self,
        alloc: Global,
        stored: &Stored<'_, B>,
        part: &ArraySubset,
        chunk: &ChunkType<'_>,
        target: &mut ArrayBytesDecodeIntoTarget<'_, '_, '_>,
    ) -> Result<(), PartError>
        requires part { LiesInShape (box_of part.now) (shape_of chunk.now) }
        requires may_read { MayReadOf stored.now ((chain_meaning self.now).places
            (chunk_kind chunk.now) (shape_of chunk.now) (box_of part.now) (bytes_of stored.now)) }
        requires takes { takes_type target.old.cell_size target.old.depth (chunk_kind chunk.now)
            ≡ true }
        requires same_shape { (target_box target.old).shape ≡ (box_of part.now).shape }
        ensures kept { KeepsTarget target.old target.new }
        ensures cells { OnOk result (HoldsPartAt (chain_meaning self.now) chunk.now
            (box_of part.now) (bytes_of stored.now) target.old target.new) }
        ensures whole { (box_of part.now).shape ≡ shape_of chunk.now → OnOk result (IsSome
            (decoded_of (chain_meaning self.now) chunk.now (bytes_of stored.now))) }
        ensures refused { IfErr result (RefusesToDecodePart (chain_meaning self.now) chunk.now
            (box_of part.now) (bytes_of stored.now) (refuses_of stored.now)) }
    {
        if !self.array_to_array.is_empty() {
            return self.write_part(alloc, stored, part, chunk, target);
        }
        match &self.array_to_bytes {
            ArrayToBytesCodec::Bytes(codec) => {
                let data_type = &chunk.cell_type.data_type;
                partial_decode_bytes_into(
                    codec,
                    alloc,
                    stored,
                    part,
                    data_type,
                    chunk.shape,
                    target,
                )
            }
            ArrayToBytesCodec::Sharding(codec) => codec.partial_decode_shard_into(
                alloc, stored, part, chunk, target,
            ),
            _ => self.write_part(alloc, stored, part, chunk, target),
        }
    }

    /// The same, of the cells of the part as a list of their own.
    #[tactic(auto, using(zarrs_data_type_region::proofs::Kept::keeps_itself))]
    fn write_part<B: ByteSource>(
        &self,
        alloc: Global,
        stored: &Stored<'_, B>,
        part: &ArraySubset,
        chunk: &ChunkType<'_>,
        target: &mut ArrayBytesDecodeIntoTarget<'_, '_, '_>,
    ) -> Result<(), PartError>
        requires whole { DecodesWhole (chain_meaning self.now) }
        requires part { LiesInShape (box_of part.now) (shape_of chunk.now) }
        requires may_read { MayReadOf stored.now (all_places (chunk_kind chunk.now)
            (shape_of chunk.now) (box_of part.now) (bytes_of stored.now)) }
        requires takes { takes_type target.old.cell_size target.old.depth (chunk_kind chunk.now)
            ≡ true }
        requires same_shape { (target_box target.old).shape ≡ (box_of part.now).shape }
        ensures kept { KeepsTarget target.old target.new }
        ensures cells { OnOk result (HoldsPartAt (chain_meaning self.now) chunk.now
            (box_of part.now) (bytes_of stored.now) target.old target.new) }
        ensures decodes { OnOk result (IsSome (decoded_of (chain_meaning self.now) chunk.now
            (bytes_of stored.now))) }
        ensures refused { IfErr result (RefusesToDecodePart (chain_meaning self.now) chunk.now
            (box_of part.now) (bytes_of stored.now) (refuses_of stored.now)) }
    {
        let cells = self.part_of_decoded(alloc, stored, part, chunk)?;
        target.write_cells(alloc, &cells)?;
        Ok(())
    }
}

impl ShardingCodec {
    /// Decodes a part of a shard into the target's box. The index is read first, then each present subchunk that the part
    /// meets, into its share of the box.
    #[cycle(partial_decode_into)]
    #[tactic(auto, using(zarrs_data_type_region::proofs::Kept::keeps_itself))]
    fn partial_decode_shard_into<B: ByteSource>(
        &self,
        alloc: Global,
        stored: &Stored<'_, B>,
        part: &ArraySubset,
        chunk: &ChunkType<'_>,
        target: &mut ArrayBytesDecodeIntoTarget<'_, '_, '_>,
    ) -> Result<(), PartError>
        requires part { LiesInShape (box_of part.now) (shape_of chunk.now) }
        requires may_read { MayReadOf stored.now ((sharding_meaning self.now).places
            (chunk_kind chunk.now) (shape_of chunk.now) (box_of part.now) (bytes_of stored.now)) }
        requires takes { takes_type target.old.cell_size target.old.depth (chunk_kind chunk.now)
            ≡ true }
        requires same_shape { (target_box target.old).shape ≡ (box_of part.now).shape }
        ensures kept { KeepsTarget target.old target.new }
        ensures cells { OnOk result (HoldsPartAt (sharding_meaning self.now) chunk.now
            (box_of part.now) (bytes_of stored.now) target.old target.new) }
        ensures whole { (box_of part.now).shape ≡ shape_of chunk.now → OnOk result (IsSome
            (decoded_of (sharding_meaning self.now) chunk.now (bytes_of stored.now))) }
        ensures refused { IfErr result (RefusesToDecodePart (sharding_meaning self.now) chunk.now
            (box_of part.now) (bytes_of stored.now) (refuses_of stored.now)) }
    {
        let sub = self.extents(alloc)?;
        let at_start = self.index_location().is_at_start();
        let Some(read) = ShardPart::open(alloc, stored, part, chunk.shape, &sub, at_start)? else {
            return Err(PartError::Codec(CodecError::DoesNotFit(Misfit::Bytes)));
        };
        if part.shape() == chunk.shape {
            return self.read_all_into(alloc, &read, chunk.cell_type, target);
        }
        self.read_subchunks_into(alloc, &read, chunk.cell_type, target)
    }

    /// Decodes each subchunk of a shard into its share of the target's box.
    #[cycle(partial_decode_into)]
    #[tactic(auto, using(zarrs_data_type_region::proofs::Kept::keeps_itself))]
    fn read_all_into<B: ByteSource>(
        &self,
        alloc: Global,
        read: &ShardPart<'_, '_, B>,
        cell_type: &CellType,
        target: &mut ArrayBytesDecodeIntoTarget<'_, '_, '_>,
    ) -> Result<(), PartError>
        requires whole { (read_of read.now).part.shape ≡ (read_of read.now).shape }
        requires takes { takes_type target.old.cell_size target.old.depth (kind_of cell_type.now)
            ≡ true }
        requires same_shape { (target_box target.old).shape ≡ (read_of read.now).part.shape }
        ensures kept { KeepsTarget target.old target.new }
        ensures cells { OnOk result (DecodesInto (kind_of cell_type.now) (parent_box target.old)
            (target_box target.old) (shard_decoded self.now cell_type.now (read_of read.now))
            (data_of_target target.new)) }
        ensures refused { IfErr result (RefusesShard self.now cell_type.now (read_of read.now)) }
    {
        let shape = read.subchunk_shape();
        if !self.inner.fits_chunk(alloc, &cell_type.data_type, shape)? {
            return Err(PartError::Codec(CodecError::DoesNotFit(Misfit::TypeOrShape)));
        }
        let inner = ChunkType { cell_type, shape };
        let piece = ArraySubset::new_with_shape(alloc, Vec::from_slice(alloc, shape)?)?;
        let region = target.region;
        for number in 0..read.count() {
            let own = read.subset_in(alloc, number, region)?;
            let stored = read.subchunk(number);
            self.read_piece(alloc, &stored, &piece, &own, &inner, target)?;
        }
        Ok(())
    }

    /// Decodes what the subchunks that a part of a shard meets have of it into the target's box.
    #[cycle(partial_decode_into)]
    #[tactic(auto, using(zarrs_data_type_region::proofs::Kept::keeps_itself))]
    fn read_subchunks_into<B: ByteSource>(
        &self,
        alloc: Global,
        read: &ShardPart<'_, '_, B>,
        cell_type: &CellType,
        target: &mut ArrayBytesDecodeIntoTarget<'_, '_, '_>,
    ) -> Result<(), PartError>
        requires takes { takes_type target.old.cell_size target.old.depth (kind_of cell_type.now)
            ≡ true }
        requires same_shape { (target_box target.old).shape ≡ (read_of read.now).part.shape }
        ensures kept { KeepsTarget target.old target.new }
        ensures all { OnOk result (HasPartsAt self.now cell_type.now (read_of read.now) target.old
            target.new) }
        ensures refused { IfErr result (RefusesReads self.now cell_type.now (read_of read.now)) }
    {
        let met = read.met(alloc)?;
        let Some(mut walk) = met.walk(alloc)? else {
            return Ok(());
        };
        loop {
            self.read_subchunk_into(alloc, read, cell_type, walk.current(), target)?;
            if !walk.advance() {
                return Ok(());
            }
        }
    }

    /// Decodes what the subchunk with these indices has of a part of a shard into its share of the target's box. Every
    /// other byte of the box stays too.
    #[cycle(partial_decode_into)]
    #[tactic(auto, using(zarrs_data_type_region::proofs::Kept::keeps_itself))]
    fn read_subchunk_into<B: ByteSource>(
        &self,
        alloc: Global,
        read: &ShardPart<'_, '_, B>,
        cell_type: &CellType,
        indices: &[u64],
        target: &mut ArrayBytesDecodeIntoTarget<'_, '_, '_>,
    ) -> Result<(), PartError>
        requires takes { takes_type target.old.cell_size target.old.depth (kind_of cell_type.now)
            ≡ true }
        requires same_shape { (target_box target.old).shape ≡ (read_of read.now).part.shape }
        ensures kept { KeepsTarget target.old target.new }
        ensures read { OnOk result (ReadsOneAt self.now cell_type.now (read_of read.now) indices.now
            target.old target.new) }
        ensures refused { IfErr result (RefusesReads self.now cell_type.now (read_of read.now)) }
    {
        let Some(number) = read.number(indices) else {
            return Ok(());
        };
        let Some(share) = read.share(alloc, number)? else {
            return Ok(());
        };
        let own = moved_to(alloc, &share.shared, read.part, target.region)?;
        let inner = ChunkType {
            cell_type,
            shape: read.subchunk_shape(),
        };
        let stored = read.subchunk(number);
        self.read_piece(alloc, &stored, &share.own, &own, &inner, target)
    }

    /// Decodes a piece of a subchunk that is stored as these bytes into a box that lies in the target's box, or fills that
    /// box if the subchunk is absent. Every byte outside of it stays.
    #[cycle(partial_decode_into)]
    fn read_piece<B: ByteSource>(
        &self,
        alloc: Global,
        stored: &Option<Stored<'_, B>>,
        piece: &ArraySubset,
        own: &ArraySubset,
        chunk: &ChunkType<'_>,
        target: &mut ArrayBytesDecodeIntoTarget<'_, '_, '_>,
    ) -> Result<(), PartError>
        requires piece { LiesInShape (box_of piece.now) (shape_of chunk.now) }
        requires may_read { IfSome stored.now MayReadAll }
        requires takes { takes_type target.old.cell_size target.old.depth (chunk_kind chunk.now)
            ≡ true }
        requires inside { LiesInBox (box_of own.now) (target_box target.old) }
        requires same_shape { (box_of own.now).shape ≡ (box_of piece.now).shape }
        ensures kept { KeepsBut (box_of own.now) target.old target.new }
        ensures cells { OnOk result (HoldsPieceAt (chain_meaning (inner_chain_of self.now)) chunk.now
            (box_of piece.now) stored.now (box_of own.now) target.old target.new) }
        ensures whole { (box_of piece.now).shape ≡ shape_of chunk.now → OnOk result (IfSome
            stored.now (λ own. IsSome (decoded_of (chain_meaning (inner_chain_of self.now))
            chunk.now (bytes_of own)))) }
        ensures refused { IfErr result (RefusesPieceOf (chain_meaning (inner_chain_of self.now))
            chunk.now (box_of piece.now) stored.now) }
    {
        let mut part = target.subdivide(own);
        let done = self.read_piece_into(alloc, stored, piece, chunk, &mut part.target);
        target.rejoin(part);
        done
    }

    /// Decodes a piece of a subchunk, which has the shape of the target's box, into the box, or fills the box if the
    /// subchunk is absent.
    #[cycle(partial_decode_into)]
    fn read_piece_into<B: ByteSource>(
        &self,
        alloc: Global,
        stored: &Option<Stored<'_, B>>,
        piece: &ArraySubset,
        chunk: &ChunkType<'_>,
        target: &mut ArrayBytesDecodeIntoTarget<'_, '_, '_>,
    ) -> Result<(), PartError>
        requires piece { LiesInShape (box_of piece.now) (shape_of chunk.now) }
        requires may_read { IfSome stored.now MayReadAll }
        requires takes { takes_type target.old.cell_size target.old.depth (chunk_kind chunk.now)
            ≡ true }
        requires same_shape { (target_box target.old).shape ≡ (box_of piece.now).shape }
        ensures kept { KeepsTarget target.old target.new }
        ensures cells { OnOk result (HoldsPieceAt (chain_meaning (inner_chain_of self.now)) chunk.now
            (box_of piece.now) stored.now (target_box target.old) target.old target.new) }
        ensures whole { (box_of piece.now).shape ≡ shape_of chunk.now → OnOk result (IfSome
            stored.now (λ own. IsSome (decoded_of (chain_meaning (inner_chain_of self.now))
            chunk.now (bytes_of own)))) }
        ensures refused { IfErr result (RefusesPieceOf (chain_meaning (inner_chain_of self.now))
            chunk.now (box_of piece.now) stored.now) }
    {
        let Some(stored) = stored else {
            let cell_type = chunk.cell_type;
            return Ok(copy_fill_value_into(
                alloc,
                &cell_type.data_type,
                &cell_type.fill_value,
                target,
            )?);
        };
        self.partial_decode_inner_into(alloc, stored, piece, chunk, target)
    }

    /// Decodes a part of a subchunk that is stored as these bytes into the target's box.
    #[cycle(partial_decode_into)]
    fn partial_decode_inner_into<B: ByteSource>(
        &self,
        alloc: Global,
        stored: &Stored<'_, B>,
        part: &ArraySubset,
        chunk: &ChunkType<'_>,
        target: &mut ArrayBytesDecodeIntoTarget<'_, '_, '_>,
    ) -> Result<(), PartError>
        requires part { LiesInShape (box_of part.now) (shape_of chunk.now) }
        requires may_read { MayReadOf stored.now ((chain_meaning (inner_chain_of self.now)).places
            (chunk_kind chunk.now) (shape_of chunk.now) (box_of part.now) (bytes_of stored.now)) }
        requires takes { takes_type target.old.cell_size target.old.depth (chunk_kind chunk.now)
            ≡ true }
        requires same_shape { (target_box target.old).shape ≡ (box_of part.now).shape }
        ensures kept { KeepsTarget target.old target.new }
        ensures cells { OnOk result (HoldsPartAt (chain_meaning (inner_chain_of self.now)) chunk.now
            (box_of part.now) (bytes_of stored.now) target.old target.new) }
        ensures whole { (box_of part.now).shape ≡ shape_of chunk.now → OnOk result (IsSome
            (decoded_of (chain_meaning (inner_chain_of self.now)) chunk.now
            (bytes_of stored.now))) }
        ensures refused { IfErr result (RefusesToDecodePart
            (chain_meaning (inner_chain_of self.now)) chunk.now (box_of part.now)
            (bytes_of stored.now) (refuses_of stored.now)) }
    {
        self.inner
            .partial_decode_chunk_into(alloc, stored, part, chunk, target)
    }
}
