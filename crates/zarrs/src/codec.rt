//! The codecs that a chain is made of, and the sources of bytes that chains read parts of chunks from.

pub use zarrs_codec::{
    ByteSource, BytesCodec, CellsCodec, Endianness, LeafCodec, MaskCodec, OptionalCodec,
    PackBitsCodec, PlainCodec, ReshapeCodec, ReshapeExtent, ShardingCodec, ShardingCodecBuilder,
    ShardingCodecOptions, ShardingIndexLocation, SliceSource, SourceBytes, SqueezeCodec,
    SubchunkWriteOrder, TransposeCodec, VlenBytesCodec, VlenCodec, VlenUtf8Codec, Window,
    default_array_to_bytes_codec,
};
