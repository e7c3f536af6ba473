//! Why a target is refused.

use thiserror::Error;

/// Why a target is refused: its box does not lie in the parent, its bytes or masks are of another length than the parent
/// asks, or the parent has more positions than a `u64` counts.
#[derive(Debug, Drop, Error, PartialEq, Eq)]
#[error("the view does not lie in its array bytes")]
pub struct ArrayBytesFixedDisjointViewCreateError;
