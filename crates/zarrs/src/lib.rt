//! Arrays in stores: made from their metadata, opened, read, written and changed.
//!
//! Users and builders use `Array`, and find here each type that its calls take or return. It is an engine, the
//! metadata that says its parts, and its options. Its calls are those of `Engine`, by array bytes or by values.
//!
//! The ghost field `agrees` of each array is `Agrees` of `specs/Agreement.antt`: its metadata says the parts of its
//! engine. `specs/Arrays.antt` has what contracts show of an array, as `layout_of_array` and `store_of_array`.
//! `specs/Outcomes.antt` says what each call ends in. `specs/Puts.antt` says what a call on metadata puts (`ArePut`),
//! `specs/Upgrade.antt` what an upgrade does, and `specs/Setters.antt` what a setter does. `specs/Laws.antt` states
//! the laws of metadata, which `laws` shows.
#![tactic(auto)]

mod array;

pub use array::{Array, ArrayPartialDecoder, ArrayPartialEncoder};

pub mod codec;
pub mod convert;
pub mod keys;
pub mod laws;
pub mod parts;
mod reopening;

pub use reopening::written_and_opened;
pub use zarrs_chunk_grid::{
    ChunkGrid, ChunkGridTraits, ChunkShape, ChunkSizes, GridError, RectangularChunkGrid,
    RegularBoundedChunkGrid, RegularChunkGrid, SizeList,
};
pub use zarrs_codec::{
    ArrayToArrayCodec, ArrayToBytesCodec, BytesToBytesCodecs, ChainTraits, CodecChain, CodecError,
    CodecMetadataOptions, CodecOptions, CodecSpecificOptions, Misfit, PartialWrite,
};
pub use zarrs_data_type::{
    ArrayBytes, ArrayBytesDecodeIntoTarget, ArrayBytesFixedDisjointViewCreateError,
    ArrayBytesOffsets, ArrayBytesOptional, ArrayBytesVariableLength, DataType,
    DataTypeFillValueError, DataTypeFillValueMetadataError, Element, ElementError, ElementOwned,
    ExpectedFixedLengthBytesError, ExpectedOptionalBytesError, ExpectedVariableLengthBytesError,
    FillValue, FromArrayBytes, IntoArrayBytes, IntoField, RefusedTarget, SubdividedTarget,
    copy_fill_value_into, data_type,
};
pub use zarrs_engine::{ArrayError, Call, Engine, Reply};
pub use zarrs_keys::{
    ChunkKeyEncoding, ChunkKeyEncodingTraits, ChunkKeySeparator, KeySuffix, KeySuffixError,
    NodePath, NodePathError,
};
pub use zarrs_metadata::{
    AdditionalFieldV3, AdditionalFieldsV3, ArrayMetadata, ArrayMetadataV2, ArrayMetadataV2Order,
    ArrayMetadataV2ToV3Error, ArrayMetadataV3, DataTypeMetadataV2, DimensionName,
    FillValueMetadata, MetadataError, MetadataV3, PluginCreateError, array_metadata_v2_to_v3,
};
pub use zarrs_options::{
    AdditionalFieldUnsupportedError, ArrayBuilderChunkGridMetadata, ArrayCreateError,
    ArrayMetadataOptions, MetadataConvertVersion, MetadataEraseVersion, MetadataRetrieveVersion,
    StorageTransformerChain, chunk_shape_to_array_shape,
};
pub use zarrs_storage::{
    Bytes, Fault, Fence, Lent, MemoryStore, ReadOnly, ReadableStorageTraits, Stop, StorageError,
    StoreKey, WholeRefused, WritableStorageTraits,
};
pub use zarrs_subset::{
    ArrayIndices, ArrayIndicesTinyVec, ArrayShape, ArraySubset, ArraySubsetError,
    ArraySubsetTraits, IncompatibleDimensionalityError, SizeOverflow, ravel_indices, unravel_index,
};
