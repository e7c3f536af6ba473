//! Rust values that stand for cells.
ghost use Rattle.std.specs.Prelude.{◌≡◌, Bool, true, false, map, Some, IfOk, IfErr, OnOk};
ghost use Rattle.std.specs.Option.{option_map_or};
ghost use Rattle.zarrs_data_type_bytes.specs.ArrayData.{data_of};
ghost use Rattle.zarrs_data_type_bytes.specs.Cells.{cells};
ghost use Rattle.zarrs_data_type_kinds.specs.Cell.{Cell};
ghost use Rattle.zarrs_data_type_kinds.specs.Kind.{Kind, kind, inner_of};
ghost use Rattle.zarrs_data_type_elements.specs.Elements.{RefusesElement, RefusesCells, option_cell};

use crate::error::ElementError;
use std::alloc::Global;
use zarrs_data_type_bytes::ArrayBytes;
use zarrs_data_type_kinds::DataType;

mod copies;
mod flags;
mod numbers;
mod options;
mod strings;

use options::{flags, lent, present_values, spread_values, under_flags};

/// A Rust value that stands for a cell.
pub trait Element: Drop {
    // The cell.
    ghost cell: { Self → Cell };

    // Whether these values are those of a data type.
    ghost serves: { Kind → Bool };

    /// Whether these values are those of the data type.
    fn serves(data_type: &DataType) -> bool
        ensures { result ≡ serves (kind data_type.now) };

    /// Data whose cells are these values. Values that are bytes are lent, not copied.
    ///
    /// # Errors
    /// `IncompatibleElementType`: the values are not those of the data type. `OutOfMemory` may come at any time.
    fn to_array_bytes<'a>(
        alloc: Global,
        data_type: &DataType,
        elements: &'a [Self],
    ) -> Result<ArrayBytes<'a>, ElementError>
        ensures cells { IfOk result (λ made. cells (kind data_type.now) (data_of made)
            ≡ Some (map cell elements.now)) }
        ensures served { OnOk result (serves (kind data_type.now) ≡ true) }
        ensures refused { IfErr result (RefusesElement (serves (kind data_type.now))) };

    /// Data whose cells are these values. A list of bytes becomes the data and is not copied: what is left of it is no
    /// list of the values.
    ///
    /// # Errors
    /// `IncompatibleElementType`: the values are not those of the data type. `OutOfMemory` may come at any time.
    fn take_array_bytes(
        alloc: Global,
        data_type: &DataType,
        elements: &mut Vec<Self>,
    ) -> Result<ArrayBytes<'static>, ElementError>
        ensures cells { IfOk result (λ made. cells (kind data_type.now) (data_of made)
            ≡ Some (map cell elements.old.items)) }
        ensures served { OnOk result (serves (kind data_type.now) ≡ true) }
        ensures kept { serves (kind data_type.now) ≡ false
            → elements.new.items ≡ elements.old.items }
        ensures refused { IfErr result (RefusesElement (serves (kind data_type.now))) }
    {
        let made = Self::to_array_bytes(alloc, data_type, elements)?;
        Ok(made.into_owned(alloc)?)
    }

    /// Data whose cells are these values, which are lent one by one.
    ///
    /// # Errors
    /// `IncompatibleElementType`: the values are not those of the data type. `OutOfMemory` may come at any time.
    fn lent_to_array_bytes(
        alloc: Global,
        data_type: &DataType,
        elements: &[&Self],
    ) -> Result<ArrayBytes<'static>, ElementError>
        ensures cells { IfOk result (λ made. cells (kind data_type.now) (data_of made)
            ≡ Some (map cell (map (λ element. element.now) elements.now))) }
        ensures served { OnOk result (serves (kind data_type.now) ≡ true) }
        ensures refused { IfErr result (RefusesElement (serves (kind data_type.now))) };

    /// Data whose cells are these options of values, of an optional type.
    ///
    /// # Errors
    /// `IncompatibleElementType`: the values are not those of the type's inner type. `OutOfMemory` may come at any
    /// time.
    fn options_to_array_bytes(
        alloc: Global,
        data_type: &DataType,
        options: &[Option<Self>],
    ) -> Result<ArrayBytes<'static>, ElementError>
        ensures cells { IfOk result (λ made. cells (kind data_type.now) (data_of made)
            ≡ Some (map (option_cell cell) options.now)) }
        ensures served { OnOk result (option_map_or serves (inner_of (kind data_type.now)) false
            ≡ true) }
        ensures refused { IfErr result (RefusesElement
            (option_map_or serves (inner_of (kind data_type.now)) false)) }
    {
        let Some(inner) = data_type.optional_inner() else {
            return Err(ElementError::IncompatibleElementType);
        };
        let lent = lent(alloc, options)?;
        let elements = lent.as_slice();
        let values = present_values(alloc, elements)?;
        let present = Self::lent_to_array_bytes(alloc, inner, &values)?;
        let mask = flags(alloc, elements)?;
        Ok(under_flags(alloc, inner, mask, &present)?)
    }
}

/// A Rust value that is read from a cell.
pub trait ElementOwned: Element {
    /// The values of the cells of the data.
    ///
    /// # Errors
    /// `IncompatibleElementType`: the values are not those of the data type, or the data is no list of its cells.
    /// `OutOfMemory` may come at any time.
    fn from_array_bytes(
        alloc: Global,
        data_type: &DataType,
        array_bytes: ArrayBytes<'_>,
    ) -> Result<Vec<Self>, ElementError>
        ensures cells { IfOk result
            (λ elements. cells (kind data_type.now) (data_of array_bytes.entry)
            ≡ Some (map Self.cell elements.items)) }
        ensures served { OnOk result (Self.serves (kind data_type.now) ≡ true) }
        ensures refused { IfErr result (RefusesCells (Self.serves (kind data_type.now)) (cells
            (kind data_type.now) (data_of array_bytes.entry))) };

    /// The options of values of the cells of the data, of an optional type.
    ///
    /// # Errors
    /// `IncompatibleElementType`: the values are not those of the type's inner type, or the data is no list of its
    /// cells. `OutOfMemory` may come at any time.
    fn options_from_array_bytes(
        alloc: Global,
        data_type: &DataType,
        array_bytes: &ArrayBytes<'_>,
    ) -> Result<Vec<Option<Self>>, ElementError>
        ensures cells { IfOk result
            (λ options. cells (kind data_type.now) (data_of array_bytes.now)
            ≡ Some (map (option_cell Self.cell) options.items)) }
        ensures served { OnOk result (option_map_or Self.serves (inner_of (kind data_type.now)) false
            ≡ true) }
        ensures refused { IfErr result (RefusesCells
            (option_map_or Self.serves (inner_of (kind data_type.now)) false) (cells
            (kind data_type.now) (data_of array_bytes.now))) }
    {
        let Some(inner) = data_type.optional_inner() else {
            return Err(ElementError::IncompatibleElementType);
        };
        let ArrayBytes::Optional(optional) = array_bytes else {
            return Err(ElementError::IncompatibleElementType);
        };
        let mask = optional.mask();
        if !array_bytes.validate(data_type, mask.len() as u64) {
            return Err(ElementError::IncompatibleElementType);
        }
        let present = optional.present(alloc, inner)?;
        let values = Self::from_array_bytes(alloc, inner, present)?;
        Ok(spread_values(alloc, mask, values)?)
    }
}
