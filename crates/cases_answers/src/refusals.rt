//! The numbers of refusals.
use std::fmt::Display;
use zarrs_engine_calls::ArrayError;
use zarrs_metadata::ArrayMetadataV2ToV3Error;
use zarrs_options::ArrayCreateError;
use zarrs_storage::StorageError;

/// A refusal, which has a number.
pub trait Refusal: Display {
    /// The number, 0 for a refusal that no call returns.
    fn number(&self) -> u8;
}

/// The refusal of a call.
impl Refusal for ArrayError {
    fn number(&self) -> u8 {
        match self {
            ArrayError::InvalidArraySubset(_, _) => 1,
            ArrayError::InvalidChunkSubset(_, _, _) => 2,
            ArrayError::InvalidChunkGridIndicesError(_) => 3,
            ArrayError::CodecError(_) => 4,
            ArrayError::ElementError(_) => 5,
            ArrayError::InvalidDataShape(_, _) => 6,
            ArrayError::StorageError(_) => 7,
            ArrayError::SizeOverflow => 8,
            ArrayError::OutOfMemory => 9,
            ArrayError::IncompatibleDimensionalityError(_) => 10,
            ArrayError::UnsupportedMethod(_) => 28,
            _ => 0,
        }
    }
}

/// The refusal of a store.
impl Refusal for StorageError {
    fn number(&self) -> u8 {
        match self {
            StorageError::OutOfMemory => 9,
            _ => 7,
        }
    }
}

/// The refusal of an array that is made or opened, and of a setter.
impl Refusal for ArrayCreateError {
    fn number(&self) -> u8 {
        match self {
            ArrayCreateError::NodePathError(_) => 11,
            ArrayCreateError::AdditionalFieldUnsupportedError(_) => 12,
            ArrayCreateError::DataTypeCreateError(_) => 13,
            ArrayCreateError::InvalidFillValue { .. } => 14,
            ArrayCreateError::InvalidFillValueMetadata { .. } => 15,
            ArrayCreateError::CodecsCreateError(_) => 16,
            ArrayCreateError::StorageTransformersCreateError(_) => 17,
            ArrayCreateError::ChunkGridCreateError(_) => 18,
            ArrayCreateError::ChunkKeyEncodingCreateError(_) => 19,
            ArrayCreateError::InvalidChunkGridDimensionality(_, _) => 20,
            ArrayCreateError::InvalidDimensionNames(_, _) => 21,
            ArrayCreateError::InvalidSubchunkShape(_) => 22,
            ArrayCreateError::StorageError(_) => 23,
            ArrayCreateError::MissingMetadata => 24,
            ArrayCreateError::UnsupportedZarrV2Array(_) => 25,
            ArrayCreateError::OutOfMemory => 26,
        }
    }
}

/// The refusal of a conversion. What finds no memory is made again, so it has no number.
impl Refusal for ArrayMetadataV2ToV3Error {
    fn number(&self) -> u8 {
        match self {
            ArrayMetadataV2ToV3Error::OutOfMemory => 0,
            _ => 27,
        }
    }
}
