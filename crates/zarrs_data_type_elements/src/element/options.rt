//! Optional values as cells.
ghost use Rattle.std.specs.Prelude.{◌≡◌, ◌<◌, false, map, is_some, count_by, Some, All, IfOk, IfSome};
ghost use Rattle.std.specs.Int.{from_bool};
ghost use Rattle.std.specs.List.{filter_map};
ghost use Rattle.std.specs.Option.{option_map_or};
ghost use Rattle.zarrs_data_type_bytes.specs.ArrayData.{data_of};
ghost use Rattle.zarrs_data_type_bytes.specs.Cells.{cells, HasCells};
ghost use Rattle.zarrs_data_type_bytes.specs.Present.{flag_set, spread_cells};
ghost use Rattle.zarrs_data_type_kinds.specs.Kind.{kind, inner_of, optional};
ghost use Rattle.zarrs_data_type_elements.specs.Elements.{option_cell};

use super::{Element, ElementOwned};
use crate::error::ElementError;
use std::alloc::{AllocError, Global};
use zarrs_data_type_bytes::ArrayBytes;
use zarrs_data_type_kinds::DataType;

/// The values, lent one by one.
pub(super) fn lent<T>(alloc: Global, elements: &[T]) -> Result<Vec<&T>, AllocError>
    ensures { IfOk result (λ lent. map (λ element. element.now) lent.items ≡ elements.now) }
{
    let mut lent = Vec::with_capacity(alloc, elements.len())?;
    for element in elements {
        lent.push(element)?;
    }
    Ok(lent)
}

/// A flag for each: 1 for a value and 0 for none.
pub(super) fn flags<T>(alloc: Global, elements: &[&Option<T>]) -> Result<Vec<u8>, AllocError>
    ensures { IfOk result (λ mask. mask.items
        ≡ map (λ element. from_bool (is_some element.now)) elements.now) }
{
    let mut mask = Vec::with_capacity(alloc, elements.len())?;
    for element in elements {
        mask.push(u8::from(element.is_some()))?;
    }
    Ok(mask)
}

/// The values without the nones.
pub(super) fn present_values<'e, T>(
    alloc: Global,
    elements: &[&'e Option<T>],
) -> Result<Vec<&'e T>, AllocError>
    ensures { IfOk result (λ values. map (λ value. value.now) values.items
        ≡ filter_map (λ element. element.now) elements.now) }
{
    let mut values = Vec::new(alloc);
    for element in elements {
        if let Some(value) = element {
            values.push(value)?;
        }
    }
    Ok(values)
}

/// None for each flag that is 0, and for another one the next value.
pub(super) fn spread_values<T: Element>(
    alloc: Global,
    mask: &[u8],
    values: Vec<T>,
) -> Result<Vec<Option<T>>, AllocError>
    ensures { IfOk result (λ elements. map (option_cell T.cell) elements.items
        ≡ spread_cells mask.now (map T.cell values.items)) }
{
    let mut elements = Vec::with_capacity(alloc, mask.len())?;
    let mut rest = values.into_iter();
    for flag in mask {
        elements.push(if *flag == 0 { None } else { rest.next() })?;
    }
    Ok(elements)
}

/// The present values under a mask of these flags.
pub(super) fn under_flags(
    alloc: Global,
    inner: &DataType,
    mask: Vec<u8>,
    present: &ArrayBytes<'_>,
) -> Result<ArrayBytes<'static>, AllocError>
    requires flags { All (λ flag. flag < 2) mask.items }
    requires present { HasCells (kind inner.now) (data_of present.now)
        (count_by flag_set mask.items) }
    ensures { IfOk result (λ made. IfSome (cells (kind inner.now) (data_of present.now))
        (λ ds. cells (optional (kind inner.now)) (data_of made)
        ≡ Some (spread_cells mask.items ds))) }
{
    // More bytes than a `usize` counts fit in no memory.
    if mask.len().checked_mul(inner.cell_size()).is_none() {
        return Err(AllocError);
    }
    ArrayBytes::from_present(alloc, inner, mask, present)
}

impl<T: Element> Element for Option<T> {
    ghost cell = { option_cell T.cell };

    ghost serves = { λ k. option_map_or T.serves (inner_of k) false };

    fn serves(data_type: &DataType) -> bool {
        match data_type.optional_inner() {
            Some(inner) => T::serves(inner),
            None => false,
        }
    }

    fn to_array_bytes<'a>(
        alloc: Global,
        data_type: &DataType,
        elements: &'a [Option<T>],
    ) -> Result<ArrayBytes<'a>, ElementError> {
        let made = T::options_to_array_bytes(alloc, data_type, elements)?;
        Ok(made.into_owned(alloc)?)
    }

    fn lent_to_array_bytes(
        alloc: Global,
        data_type: &DataType,
        elements: &[&Option<T>],
    ) -> Result<ArrayBytes<'static>, ElementError> {
        let Some(inner) = data_type.optional_inner() else {
            return Err(ElementError::IncompatibleElementType);
        };
        let values = present_values(alloc, elements)?;
        let present = T::lent_to_array_bytes(alloc, inner, &values)?;
        let mask = flags(alloc, elements)?;
        Ok(under_flags(alloc, inner, mask, &present)?)
    }
}

impl<T: ElementOwned> ElementOwned for Option<T> {
    fn from_array_bytes(
        alloc: Global,
        data_type: &DataType,
        array_bytes: ArrayBytes<'_>,
    ) -> Result<Vec<Option<T>>, ElementError> {
        T::options_from_array_bytes(alloc, data_type, &array_bytes)
    }
}
