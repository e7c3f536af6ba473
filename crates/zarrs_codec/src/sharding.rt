//! The codec `sharding_indexed`.
ghost use Rattle.std.specs.Prelude.{◌≡◌, IfOk};
ghost use Rattle.zarrs_codec.specs.Chains.{inner_chain_of, is_at_start, location_of, subchunk_sizes_of};
ghost use Rattle.zarrs_metadata_parts.specs.Lists.{sizes_of};

use crate::chain::CodecChain;
use std::alloc::{AllocError, Global};
use std::num::NonZeroU64;
use zarrs_subset::ArrayIndicesTinyVec;

/// Where the index of a shard stands.
#[derive(Clone, Copy, Debug, Drop, PartialEq, Eq)]
pub enum ShardingIndexLocation {
    /// Before the subchunks.
    Start,
    /// After the subchunks.
    End,
}

/// Subchunks of one shape, each encoded by a chain of its own, and an index that says where each of them stands.
#[cycle(codec)]
#[derive(Debug, Drop)]
pub struct ShardingCodec {
    subchunk_shape: Vec<NonZeroU64>,
    index_location: ShardingIndexLocation,
    pub(crate) inner: CodecChain,
}

impl ShardingIndexLocation {
    /// Whether the index stands before the subchunks.
    pub fn is_at_start(self) -> bool
        ensures { result ≡ is_at_start self }
    {
        matches!(self, ShardingIndexLocation::Start)
    }
}

impl ShardingCodec {
    /// The codec of subchunks of this shape, encoded by this chain.
    pub fn new(
        subchunk_shape: Vec<NonZeroU64>,
        index_location: ShardingIndexLocation,
        inner: CodecChain,
    ) -> ShardingCodec
        ensures shape { subchunk_sizes_of result ≡ subchunk_shape.items }
        ensures location { location_of result ≡ index_location }
        ensures inner { inner_chain_of result ≡ inner }
    {
        ShardingCodec {
            subchunk_shape,
            index_location,
            inner,
        }
    }

    /// The extents of each subchunk.
    pub fn subchunk_shape(&self) -> &[NonZeroU64]
        ensures { result.now ≡ subchunk_sizes_of self.now }
    {
        &self.subchunk_shape
    }

    /// Where the index stands.
    pub fn index_location(&self) -> ShardingIndexLocation
        ensures { result ≡ location_of self.now }
    {
        self.index_location
    }

    /// The chain of the subchunks.
    pub fn inner_codecs(&self) -> &CodecChain
        ensures { result.now ≡ inner_chain_of self.now }
    {
        &self.inner
    }

    /// The extents of each subchunk as numbers. Nothing is allocated up to four dimensions.
    pub(crate) fn extents(&self, alloc: Global) -> Result<ArrayIndicesTinyVec, AllocError>
        ensures { IfOk result (λ extents. extents.items ≡ sizes_of (subchunk_sizes_of self.now)) }
    {
        self.subchunk_shape
            .iter()
            .map(|size| size.get())
            .collect(alloc)
    }
}
