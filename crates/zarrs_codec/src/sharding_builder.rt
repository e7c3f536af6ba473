//! The builder of the codec `sharding_indexed`.
ghost use Rattle.std.specs.Prelude.{◌≡◌, [], map, IfOk};
ghost use Rattle.zarrs_data_type.specs.Kind.{kind};
ghost use Rattle.zarrs_codec_array.specs.ArrayCodecs.{array_codec_data};
ghost use Rattle.zarrs_metadata_parts.specs.Lists.{sizes_of};
ghost use Rattle.zarrs_codec.specs.Chains.{is_at_start, bytes_codec_data, sharding_data_of};
ghost use Rattle.zarrs_codec.specs.Metadata.{default_codec};
ghost use Rattle.zarrs_codec.specs.ShardingBuilders.{built_data, builder_view};
ghost use Rattle.zarrs_codec.specs.declared.sharding.ShardingIndexLocation.TheVariants.{End};

use crate::chain::{BytesToBytesCodecs, CodecChain};
use crate::codec::ArrayToBytesCodec;
use crate::metadata::{copied_array_codecs, default_array_to_bytes_codec};
use crate::sharding::{ShardingCodec, ShardingIndexLocation};
use std::alloc::{AllocError, Global};
use std::num::NonZeroU64;
use zarrs_codec_array::ArrayToArrayCodec;
use zarrs_data_type::DataType;

/// A builder of the codec of shards. The chain of the subchunks is the default codec of the data type alone, and the
/// index stands at the end, if nothing else is set.
#[derive(Debug, Drop)]
pub struct ShardingCodecBuilder {
    subchunk_shape: Vec<NonZeroU64>,
    index_location: ShardingIndexLocation,
    array_to_array_codecs: Vec<ArrayToArrayCodec>,
    array_to_bytes_codec: ArrayToBytesCodec,
    bytes_to_bytes_codecs: BytesToBytesCodecs,
}

impl ShardingCodecBuilder {
    /// A builder of the codec of subchunks of this shape, of this type.
    ///
    /// # Errors
    /// `AllocError`: out of memory.
    pub fn new(
        alloc: Global,
        subchunk_shape: Vec<NonZeroU64>,
        data_type: &DataType,
    ) -> Result<ShardingCodecBuilder, AllocError>
        ensures { IfOk result (λ builder. builder_view builder ≡ record {
          chunk_shape = sizes_of subchunk_shape.items;
          at_start = is_at_start End;
          array_to_array = [];
          array_to_bytes = default_codec (kind data_type.now);
        }) }
    {
        Ok(ShardingCodecBuilder {
            subchunk_shape,
            index_location: ShardingIndexLocation::End,
            array_to_array_codecs: Vec::new(alloc),
            array_to_bytes_codec: default_array_to_bytes_codec(alloc, data_type)?,
            bytes_to_bytes_codecs: BytesToBytesCodecs,
        })
    }

    /// Sets where the index stands.
    pub fn index_location(&mut self, index_location: ShardingIndexLocation) -> &mut Self
        ensures same_loan { result.ghost_name ≡ self.entry.ghost_name }
        ensures set { builder_view result.now ≡ record (builder_view self.old) {
          at_start = is_at_start index_location;
        } }
    {
        self.index_location = index_location;
        self
    }

    /// Sets the codecs of the subchunks that make an array of an array, the first one first.
    pub fn array_to_array_codecs(
        &mut self,
        array_to_array_codecs: Vec<ArrayToArrayCodec>,
    ) -> &mut Self
        ensures same_loan { result.ghost_name ≡ self.entry.ghost_name }
        ensures set { builder_view result.now ≡ record (builder_view self.old) {
          array_to_array = map array_codec_data array_to_array_codecs.items;
        } }
    {
        self.array_to_array_codecs = array_to_array_codecs;
        self
    }

    /// Sets the codec of the subchunks that makes bytes of cells.
    pub fn array_to_bytes_codec(&mut self, array_to_bytes_codec: ArrayToBytesCodec) -> &mut Self
        ensures same_loan { result.ghost_name ≡ self.entry.ghost_name }
        ensures set { builder_view result.now ≡ record (builder_view self.old) {
          array_to_bytes = bytes_codec_data array_to_bytes_codec;
        } }
    {
        self.array_to_bytes_codec = array_to_bytes_codec;
        self
    }

    /// Sets the codecs of the subchunks that make bytes of bytes: there is none.
    pub fn bytes_to_bytes_codecs(&mut self, bytes_to_bytes_codecs: BytesToBytesCodecs) -> &mut Self
        ensures same_loan { result.ghost_name ≡ self.entry.ghost_name }
        ensures kept { builder_view result.now ≡ builder_view self.old }
    {
        self.bytes_to_bytes_codecs = bytes_to_bytes_codecs;
        self
    }

    /// The codec.
    ///
    /// # Errors
    /// `AllocError`: out of memory.
    pub fn build(&self, alloc: Global) -> Result<ShardingCodec, AllocError>
        ensures { IfOk result (λ codec. sharding_data_of codec
            ≡ built_data (builder_view self.now)) }
    {
        let shape = Vec::from_slice(alloc, &self.subchunk_shape)?;
        let front = copied_array_codecs(alloc, &self.array_to_array_codecs)?;
        let last = self.array_to_bytes_codec.try_clone(alloc)?;
        let inner = CodecChain::new(front, last, self.bytes_to_bytes_codecs);
        Ok(ShardingCodec::new(shape, self.index_location, inner))
    }
}
