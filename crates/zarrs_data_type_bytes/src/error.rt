//! Why cells in memory are refused.
use thiserror::Error;

/// Array bytes that are not of fixed length.
#[derive(Debug, Drop, Error, PartialEq, Eq)]
#[error("expected fixed length array bytes")]
pub struct ExpectedFixedLengthBytesError;

/// Array bytes that are not optional, or a mask with a byte above 1.
#[derive(Debug, Drop, Error, PartialEq, Eq)]
#[error("expected optional array bytes")]
pub struct ExpectedOptionalBytesError;

/// Array bytes that are not of variable length, offsets that fall or do not start at 0, or a last offset that is not
/// the length of the bytes.
#[derive(Debug, Drop, Error, PartialEq, Eq)]
#[error("expected variable length array bytes")]
pub struct ExpectedVariableLengthBytesError;
