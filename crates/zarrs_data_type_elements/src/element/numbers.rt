//! Whole numbers as cells.
ghost use Rattle.std.specs.Prelude.{◌≡◌, ◌%◌, false, true, length, map, refl, Some, IfOk, IfErr};
ghost use Rattle.std.specs.Cow.{cow_slice_items};
ghost use Rattle.std.specs.List.{flat_map};
ghost use Rattle.std.specs.Option.{option_map_or};
ghost use Rattle.zarrs_data_type_bytes.specs.ArrayData.{data_of};
ghost use Rattle.zarrs_data_type_bytes.specs.Cells.{cells};
ghost use Rattle.zarrs_data_type_numbers.specs.Options.{option_flag};
ghost use Rattle.zarrs_data_type_kinds.specs.Cell.{bytes, takes_any_bytes};
ghost use Rattle.zarrs_data_type_kinds.specs.Kind.{Kind, kind, element_size, inner_of};
ghost use Rattle.zarrs_data_type_kinds.specs.Kind as type;
ghost use Rattle.zarrs_data_type_kinds.specs.Same.{kind_eq};
ghost use Rattle.zarrs_data_type_elements.specs.Elements.{HoldsOptions, RefusesCells, option_cell};

use super::copies::copied;
use super::{Element, ElementOwned};
use crate::error::{ElementError, check_served};
use std::alloc::{AllocError, Global};
use std::borrow::CowSlice;
use std::mem;
use zarrs_data_type_bytes::{ArrayBytes, owned_bytes};
use zarrs_data_type_kinds::DataType;
use zarrs_data_type_numbers::{NumberBytes, WholeNumber};

/// A whole number that is the value of a cell.
pub trait Number: WholeNumber {
    // The data type of such cells.
    ghost number_kind: { Kind };

    /// Whether the numbers are the values of this data type.
    fn is_number_of(data_type: &DataType) -> bool
        ensures { result ≡ kind_eq (kind data_type.now) number_kind };

    /// The bytes of the numbers. Numbers that are bytes are lent, not copied.
    ///
    /// # Errors
    /// `AllocError`: out of memory.
    fn lend_bytes<'a>(alloc: Global, numbers: &'a [Self]) -> Result<CowSlice<'a, u8>, AllocError>
        ensures { IfOk result (λ made. cow_slice_items made
            ≡ flat_map Self.Bytes.le_bytes numbers.now) }
    {
        Ok(CowSlice::Owned(Self::Bytes::to_bytes(alloc, numbers)?))
    }

    /// The bytes of the numbers. Numbers that are bytes are taken, not copied.
    ///
    /// # Errors
    /// `AllocError`: out of memory.
    fn take_bytes(alloc: Global, numbers: &mut Vec<Self>) -> Result<Vec<u8>, AllocError>
        ensures { IfOk result (λ made. made.items
            ≡ flat_map Self.Bytes.le_bytes numbers.old.items) }
    {
        Self::Bytes::to_bytes(alloc, numbers.as_slice())
    }

    /// The numbers of the bytes. Bytes that are owned become numbers without a copy.
    ///
    /// # Errors
    /// `AllocError`: out of memory.
    fn own_bytes(alloc: Global, bytes: CowSlice<'_, u8>) -> Result<Vec<Self>, AllocError>
        requires { length (cow_slice_items bytes) % Self.Bytes.size ≡ 0 }
        ensures { IfOk result (λ made. flat_map Self.Bytes.le_bytes made.items
            ≡ cow_slice_items bytes.entry) }
    {
        Self::Bytes::from_bytes(alloc, bytes.as_slice())
    }

    // Such cells are any bytes of the number's size.
    ghost number_cells: { (element_size number_kind ≡ Some Self.Bytes.size)
        × (takes_any_bytes number_kind ≡ true) };
}

impl Number for u8 {
    ghost number_kind = { type.uint8 };

    ghost number_cells = { (refl, refl) };

    fn is_number_of(data_type: &DataType) -> bool {
        *data_type == DataType::UInt8
    }

    fn lend_bytes<'a>(_alloc: Global, numbers: &'a [u8]) -> Result<CowSlice<'a, u8>, AllocError> {
        Ok(CowSlice::Borrowed(numbers))
    }

    fn take_bytes(alloc: Global, numbers: &mut Vec<u8>) -> Result<Vec<u8>, AllocError> {
        Ok(mem::replace(numbers, Vec::new(alloc)))
    }

    fn own_bytes(alloc: Global, bytes: CowSlice<'_, u8>) -> Result<Vec<u8>, AllocError> {
        owned_bytes(alloc, bytes)
    }
}

impl Number for u16 {
    ghost number_kind = { type.uint16 };

    ghost number_cells = { (refl, refl) };

    fn is_number_of(data_type: &DataType) -> bool {
        *data_type == DataType::UInt16
    }
}

impl Number for u32 {
    ghost number_kind = { type.uint32 };

    ghost number_cells = { (refl, refl) };

    fn is_number_of(data_type: &DataType) -> bool {
        *data_type == DataType::UInt32
    }
}

impl Number for u64 {
    ghost number_kind = { type.uint64 };

    ghost number_cells = { (refl, refl) };

    fn is_number_of(data_type: &DataType) -> bool {
        *data_type == DataType::UInt64
    }
}

impl Number for i8 {
    ghost number_kind = { type.int8 };

    ghost number_cells = { (refl, refl) };

    fn is_number_of(data_type: &DataType) -> bool {
        *data_type == DataType::Int8
    }
}

impl Number for i16 {
    ghost number_kind = { type.int16 };

    ghost number_cells = { (refl, refl) };

    fn is_number_of(data_type: &DataType) -> bool {
        *data_type == DataType::Int16
    }
}

impl Number for i32 {
    ghost number_kind = { type.int32 };

    ghost number_cells = { (refl, refl) };

    fn is_number_of(data_type: &DataType) -> bool {
        *data_type == DataType::Int32
    }
}

impl Number for i64 {
    ghost number_kind = { type.int64 };

    ghost number_cells = { (refl, refl) };

    fn is_number_of(data_type: &DataType) -> bool {
        *data_type == DataType::Int64
    }
}

impl<T: Number> Element for T {
    ghost cell = { λ x. bytes (T.Bytes.le_bytes x) };

    ghost serves = { λ k. kind_eq k T.number_kind };

    fn serves(data_type: &DataType) -> bool {
        T::is_number_of(data_type)
    }

    fn to_array_bytes<'a>(
        alloc: Global,
        data_type: &DataType,
        elements: &'a [T],
    ) -> Result<ArrayBytes<'a>, ElementError> {
        check_served(T::is_number_of(data_type))?;
        Ok(ArrayBytes::Fixed(T::lend_bytes(alloc, elements)?))
    }

    fn take_array_bytes(
        alloc: Global,
        data_type: &DataType,
        elements: &mut Vec<T>,
    ) -> Result<ArrayBytes<'static>, ElementError> {
        check_served(T::is_number_of(data_type))?;
        Ok(ArrayBytes::new_flen(T::take_bytes(alloc, elements)?))
    }

    fn lent_to_array_bytes(
        alloc: Global,
        data_type: &DataType,
        elements: &[&T],
    ) -> Result<ArrayBytes<'static>, ElementError> {
        let mut numbers = copied(alloc, elements)?;
        <T as Element>::take_array_bytes(alloc, data_type, &mut numbers)
    }

    fn options_to_array_bytes(
        alloc: Global,
        data_type: &DataType,
        options: &[Option<T>],
    ) -> Result<ArrayBytes<'static>, ElementError> {
        check_served(is_option_of::<T>(data_type))?;
        Ok(number_option_data(alloc, data_type, options)?)
    }
}

impl<T: Number> ElementOwned for T {
    fn from_array_bytes(
        alloc: Global,
        data_type: &DataType,
        array_bytes: ArrayBytes<'_>,
    ) -> Result<Vec<T>, ElementError> {
        check_served(T::is_number_of(data_type))?;
        let ArrayBytes::Fixed(bytes) = array_bytes else {
            return Err(ElementError::IncompatibleElementType);
        };
        let size = data_type.element_size().unwrap();
        if bytes.as_slice().len() % size != 0 {
            return Err(ElementError::IncompatibleElementType);
        }
        Ok(T::own_bytes(alloc, bytes)?)
    }

    fn options_from_array_bytes(
        alloc: Global,
        data_type: &DataType,
        array_bytes: &ArrayBytes<'_>,
    ) -> Result<Vec<Option<T>>, ElementError> {
        check_served(is_option_of::<T>(data_type))?;
        number_options(alloc, data_type, array_bytes)
    }
}

/// Whether options of the numbers are the values of this data type.
fn is_option_of<T: Number>(data_type: &DataType) -> bool
    ensures { result ≡ option_map_or (λ k. kind_eq k T.number_kind) (inner_of (kind data_type.now))
        false }
{
    match data_type.optional_inner() {
        Some(inner) => T::is_number_of(inner),
        None => false,
    }
}

/// A flag for each: 1 for a number and 0 for none.
fn option_flags<T: WholeNumber>(alloc: Global, options: &[Option<T>]) -> Result<Vec<u8>, AllocError>
    ensures { IfOk result (λ flags. flags.items ≡ map option_flag options.now) }
{
    let mut flags = Vec::with_capacity(alloc, options.len())?;
    for option in options {
        flags.push_reserved(u8::from(option.is_some()));
    }
    Ok(flags)
}

/// Data whose cells are these options of numbers: a mask, and the bytes of the numbers with zeros for none.
pub(super) fn number_option_data<T: WholeNumber>(
    alloc: Global,
    data_type: &DataType,
    options: &[Option<T>],
) -> Result<ArrayBytes<'static>, AllocError>
    requires { HoldsOptions (kind data_type.now) T.Bytes.size }
    ensures { IfOk result (λ made. cells (kind data_type.now) (data_of made)
        ≡ Some (map (option_cell (λ x. bytes (T.Bytes.le_bytes x))) options.now)) }
{
    let _ = data_type;
    let flags = option_flags(alloc, options)?;
    let bytes = T::Bytes::options_to_bytes(alloc, options)?;
    let data = ArrayBytes::new_flen(bytes);
    data.with_optional_mask(alloc, CowSlice::Owned(flags))
}

/// The options of numbers of the cells of the data.
pub(super) fn number_options<T: WholeNumber>(
    alloc: Global,
    data_type: &DataType,
    array_bytes: &ArrayBytes<'_>,
) -> Result<Vec<Option<T>>, ElementError>
    requires { HoldsOptions (kind data_type.now) T.Bytes.size }
    ensures cells { IfOk result (λ options. cells (kind data_type.now) (data_of array_bytes.now)
        ≡ Some (map (option_cell (λ x. bytes (T.Bytes.le_bytes x))) options.items)) }
    ensures refused { IfErr result (RefusesCells true (cells (kind data_type.now)
        (data_of array_bytes.now))) }
{
    let ArrayBytes::Optional(optional) = array_bytes else {
        return Err(ElementError::IncompatibleElementType);
    };
    let flags = optional.mask();
    if !array_bytes.validate(data_type, flags.len() as u64) {
        return Err(ElementError::IncompatibleElementType);
    }
    match optional.data() {
        ArrayBytes::Fixed(bytes) => Ok(T::Bytes::options_from_bytes(
            alloc,
            flags,
            bytes.as_slice(),
        )?),
        _ => Err(ElementError::IncompatibleElementType),
    }
}
