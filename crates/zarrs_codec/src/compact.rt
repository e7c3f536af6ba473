//! Chunks without what no cell needs.
ghost use Rattle.std.specs.Prelude.{◌≡◌, Some, IfOk, IfErr, option_map};
ghost use Rattle.zarrs_codec.specs.Chains.{chain_meaning, sharding_meaning};
ghost use Rattle.zarrs_codec_chain.specs.Refusals.{RefusesCompaction};

use crate::chain::CodecChain;
use crate::codec::ArrayToBytesCodec;
use crate::sharding::ShardingCodec;
use std::alloc::Global;
use zarrs_codec_array::encoded_shape;
use zarrs_codec_leaf::{CodecError, Misfit};
use zarrs_codec_shard::{CompactError, LentSubchunks, compact_shard};

impl CodecChain {
    /// The bytes of the same cells without what no cell needs, or `None` if those are the same bytes.
    pub(crate) fn compact_chunk(
        &self,
        alloc: Global,
        encoded: &[u8],
        shape: &[u64],
    ) -> Result<Option<Vec<u8>>, CodecError>
        ensures less { IfOk result (λ less. (chain_meaning self.now).compacted shape.now encoded.now
            ≡ Some (option_map (λ encoded. encoded.items) less)) }
        ensures refused { IfErr result (RefusesCompaction (chain_meaning self.now) shape.now
            encoded.now) }
    {
        match &self.array_to_bytes {
            ArrayToBytesCodec::Sharding(codec) => {
                match encoded_shape(alloc, &self.array_to_array, shape)? {
                    Some(shape) => codec.compact_chunk(alloc, encoded, &shape),
                    None => Err(CodecError::DoesNotFit(Misfit::TypeOrShape)),
                }
            }
            _ => Ok(None),
        }
    }
}

impl ShardingCodec {
    fn compact_chunk(
        &self,
        alloc: Global,
        encoded: &[u8],
        shape: &[u64],
    ) -> Result<Option<Vec<u8>>, CodecError>
        ensures less { IfOk result (λ less. (sharding_meaning self.now).compacted shape.now
            encoded.now ≡ Some (option_map (λ encoded. encoded.items) less)) }
        ensures refused { IfErr result (RefusesCompaction (sharding_meaning self.now) shape.now
            encoded.now) }
    {
        let sub = self.extents(alloc)?;
        let Some(subchunks) = LentSubchunks::new(alloc, shape, &sub)? else {
            return Err(CodecError::DoesNotFit(Misfit::TypeOrShape));
        };
        let Some(count) = subchunks.count() else {
            return Err(CodecError::DoesNotFit(Misfit::Bytes));
        };
        let at_start = self.index_location().is_at_start();
        match compact_shard(alloc, encoded, count, at_start) {
            Ok(less) => Ok(less),
            Err(CompactError::OutOfMemory) => Err(CodecError::OutOfMemory),
            Err(CompactError::NoShard) => Err(CodecError::DoesNotFit(Misfit::Bytes)),
            Err(CompactError::TooLong) => Err(CodecError::SizeOverflow),
        }
    }
}
