//! Why boxes are not made, and sizes not counted.

ghost use Rattle.std.specs.Prelude.{◌≡◌, IfErr, OnOk};
ghost use Rattle.zarrs_subset.specs.Refusals.{IsMismatch};

use std::alloc::AllocError;
use thiserror::Error;

/// Two lists that should have one entry for each dimension differ in length.
#[derive(Clone, Copy, Debug, PartialEq, Eq, Drop, Error)]
#[error("incompatible dimensionality {got}, expected {expected}")]
pub struct IncompatibleDimensionalityError {
    /// The length that came.
    pub got: usize,
    /// The length that was wanted.
    pub expected: usize,
}

impl IncompatibleDimensionalityError {
    /// A list of length `got` came; one of length `expected` was wanted.
    pub fn new(got: usize, expected: usize) -> Self
        ensures got { result.got ≡ got }
        ensures expected { result.expected ≡ expected }
    {
        IncompatibleDimensionalityError { got, expected }
    }

    /// The number of dimensions that came.
    pub fn got(&self) -> usize
        ensures { result ≡ self.now.got }
    {
        self.got
    }

    /// The number of dimensions that was wanted.
    pub fn expected(&self) -> usize
        ensures { result ≡ self.now.expected }
    {
        self.expected
    }
}

/// Refuses a list of another length than is wanted.
///
/// # Errors
/// `IncompatibleDimensionalityError`: the lengths differ.
pub fn check_length(got: usize, expected: usize) -> Result<(), IncompatibleDimensionalityError>
    ensures ok { OnOk result (got ≡ expected) }
    ensures refused { IfErr result (IsMismatch got expected) }
{
    if got == expected {
        Ok(())
    } else {
        Err(IncompatibleDimensionalityError::new(got, expected))
    }
}

/// Why there is no such box.
#[derive(Clone, Copy, Debug, PartialEq, Eq, Drop, Error)]
pub enum ArraySubsetError {
    /// The lists differ in length.
    #[error("{0}")]
    IncompatibleDimensionality(IncompatibleDimensionalityError),
    /// In some dimension the start and the extent add up past `u64`.
    #[error("the end of the array subset exceeds the number types")]
    EndOverflow,
    /// In some dimension the end lies below the start.
    #[error("the end of the array subset lies below its start")]
    EndBelowStart,
    /// In some dimension the start lies below the offset.
    #[error("the start of the array subset lies below the offset")]
    StartBelowOffset,
    /// Out of memory.
    #[error("out of memory")]
    OutOfMemory,
}

impl From<AllocError> for ArraySubsetError {
    ghost use Rattle.zarrs_subset.specs.declared.error.ArraySubsetError.TheVariants.{OutOfMemory};

    ghost from_gives = { λ _ error. error ≡ OutOfMemory };

    fn from(_: AllocError) -> Self {
        ArraySubsetError::OutOfMemory
    }
}

impl From<IncompatibleDimensionalityError> for ArraySubsetError {
    ghost use Rattle.zarrs_subset.specs.declared.error.ArraySubsetError.TheVariants.{IncompatibleDimensionality};

    ghost from_gives = { λ mismatch error. error ≡ IncompatibleDimensionality mismatch };

    fn from(error: IncompatibleDimensionalityError) -> Self {
        ArraySubsetError::IncompatibleDimensionality(error)
    }
}

/// A number of positions past `u64`.
#[derive(Clone, Copy, Debug, PartialEq, Eq, Drop, Error)]
#[error("size exceeds the number types")]
pub struct SizeOverflow;
