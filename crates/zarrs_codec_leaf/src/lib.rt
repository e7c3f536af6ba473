//! Codecs of plain cells, and sources of bytes that are read range by range.
//!
//! Chains use the trait `LeafCodec`, and the codecs `BytesCodec`, `PackBitsCodec`, `VlenCodec`, `VlenUtf8Codec` and
//! `VlenBytesCodec`. They read a part of a chunk from a `ByteSource`, which is a slice (`SliceSource`) or the value
//! at a key of a store (`StoredValue`). `read_box` reads the cells of a box.
//!
//! The ghost member `meaning` of `LeafCodec` is a `LeafMeaning` of `specs/Leaf.antt`: the types taken, the bytes of
//! cells, and the cells of bytes. Its law is `IsLawfulLeaf`. `specs/Bytes.antt`, `specs/PackBits.antt`,
//! `specs/Vlen.antt` and `specs/VlenStrings.antt` have the codecs. The ghost members `bytes`, `refuses` and
//! `may_read` say what a source is. `specs/Sources.antt`, `specs/Stored.antt` and `specs/BoxReads.antt` have the
//! reads.
#![tactic(auto)]

mod bytes_codec;
mod codec;
mod error;
mod packbits;
mod rows;
mod source;
mod stored;
mod strings;
mod vlen;
mod vlen_strings;

pub use bytes_codec::{BytesCodec, Endianness};
pub use codec::LeafCodec;
pub use error::{CodecError, Misfit};
pub use packbits::PackBitsCodec;
pub use rows::read_box;
pub use source::{ByteSource, SliceSource, SourceBytes, Window};
pub use stored::StoredValue;
pub use vlen::VlenCodec;
pub use vlen_strings::{VlenBytesCodec, VlenUtf8Codec};
pub use zarrs_codec_array::{ArrayToArrayCodec, ReshapeCodec, SqueezeCodec, TransposeCodec};
