//! Why lists of values are refused.
ghost use Rattle.std.specs.Prelude.{◌≡◌, true, IfErr, OnOk};
ghost use Rattle.zarrs_data_type_elements.specs.Elements.{RefusesElement};
ghost use Rattle.zarrs_data_type_elements.specs.declared.error.ElementError.TheVariants as element;

use std::alloc::{AllocError, AllocFailed};
use thiserror::Error;

/// Why a list of Rust values is refused.
#[derive(Debug, Drop, Error, PartialEq, Eq)]
pub enum ElementError {
    /// The element type is not the data type's.
    #[error("the element type does not match the data type")]
    IncompatibleElementType,
    /// Out of memory.
    #[error("out of memory")]
    OutOfMemory,
}

/// Refuses values that are not those of the data type.
pub(crate) fn check_served(serves: bool) -> Result<(), ElementError>
    ensures served { OnOk result (serves ≡ true) }
    ensures refused { IfErr result (RefusesElement serves) }
{
    if !serves {
        return Err(ElementError::IncompatibleElementType);
    }
    Ok(())
}

impl From<AllocError> for ElementError {
    ghost from_gives = { λ _ e. e ≡ element.OutOfMemory };

    fn from(_error: AllocError) -> ElementError {
        ElementError::OutOfMemory
    }
}

impl<T: Drop> From<AllocFailed<T>> for ElementError {
    ghost from_gives = { λ _ e. e ≡ element.OutOfMemory };

    fn from(_error: AllocFailed<T>) -> ElementError {
        ElementError::OutOfMemory
    }
}
