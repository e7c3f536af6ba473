//! The trait of chains of codecs, and the parts of chunks that a chain reads by themselves.
//!
//! Layouts and engines use `ChainTraits` and name no codec. It has `encode`, `decode`, `compact`, `partial_decode`,
//! `partial_encode`, and `decode_into` a target. `CodecOptions` has what a caller chooses for a call. `zarrs_codec`
//! uses `partial_decode_bytes`, `ShardPart` and `part_of_whole`, which read the parts of chunks from `Stored` bytes.
//!
//! The ghost member `meaning` of `ChainTraits` is a `ChainMeaning` of `specs/Chain.antt`, and its law is
//! `IsLawfulChain`. `encoded` and `decoded` are the bytes of cells and the cells of bytes. `places` says which bytes
//! a read of a part needs, and `specs/Places.antt` defines it; `reads_too_large` says whether it decodes too much.
//! `specs/Parts.antt` says what such a read returns (`DecodesPart`), and what it leaves in a target (`DecodesInto`,
//! `DecodesPartAt`). `specs/Chunks.antt` has the words of a chain and a chunk, as `decoded_of` and `RefusesToDecode`.
#![tactic(auto)]

mod bytes;
mod bytes_into;
mod error;
mod options;
mod shard;
mod shard_part;
mod stored;
mod traits;
mod whole;

pub use bytes::partial_decode_bytes;
pub use bytes_into::partial_decode_bytes_into;
pub use error::PartError;
pub use options::{
    CodecMetadataOptions, CodecOptions, CodecSpecificOptions, ShardingCodecOptions,
    SubchunkWriteOrder,
};
pub use shard_part::{ShardPart, Share, SoleSubchunk, moved_to};
pub use stored::Stored;
pub use traits::ChainTraits;
pub use whole::part_of_whole;
