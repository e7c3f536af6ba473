//! The face of the crates of codecs: every codec, the shards, and the chains that are made of them.
//!
//! The layers above use `CodecChain`, `ArrayToBytesCodec`, `ShardingCodec` and `ShardingCodecBuilder`, and find here
//! what the crates below show: `ChainTraits`, `CodecOptions`, `CodecError` and each codec.
//!
//! `CodecChain` implements `ChainTraits`: its ghost member `meaning` is `chain_meaning` of `specs/Chains.antt`, and
//! `specs/ChainLaws.antt` has its law. It is the meaning of its configuration (`chain_data`), by `meaning_of_chain`
//! of `specs/Configurations.antt`. `chain_said` of `specs/Metadata.antt` is the chain that metadata says.
//! `specs/Shardings.antt` has chains of shards (`sharded`), and `specs/Through.antt` chains behind codecs that make
//! an array of an array.
#![tactic(auto)]

mod chain;
mod codec;
mod compact;
mod decode;
mod encode;
mod fits;
pub mod laws;
mod metadata;
mod partial_decode;
mod partial_decode_into;
mod partial_encode;
mod sharding;
mod sharding_builder;
mod sizes;

pub use chain::{BytesToBytesCodecs, CodecChain};
pub use codec::ArrayToBytesCodec;
pub use metadata::{copied_array_codecs, default_array_to_bytes_codec};
pub use sharding::{ShardingCodec, ShardingIndexLocation};
pub use sharding_builder::ShardingCodecBuilder;
pub use zarrs_codec_array::{
    ArrayToArrayCodec, ReshapeCodec, ReshapeExtent, SqueezeCodec, TransposeCodec,
};
pub use zarrs_codec_chain::{
    ChainTraits, CodecMetadataOptions, CodecOptions, CodecSpecificOptions, ShardingCodecOptions,
    SubchunkWriteOrder,
};
pub use zarrs_codec_leaf::{
    ByteSource, BytesCodec, CodecError, Endianness, LeafCodec, Misfit, PackBitsCodec, SliceSource,
    SourceBytes, StoredValue, VlenBytesCodec, VlenCodec, VlenUtf8Codec, Window,
};
pub use zarrs_codec_optional::{CellsCodec, MaskCodec, OptionalCodec, PlainCodec, codec_of, named};
pub use zarrs_codec_shard::PartialWrite;
