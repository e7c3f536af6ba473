//! Lists of values and array bytes, which stand for the same cells.
ghost use Rattle.std.specs.Prelude.{◌≡◌, Bool, true, map, Some, IfOk, IfErr, OnOk};
ghost use Rattle.zarrs_data_type_bytes.specs.ArrayData.{ArrayData, data_of};
ghost use Rattle.zarrs_data_type_bytes.specs.Cells.{cells};
ghost use Rattle.zarrs_data_type_kinds.specs.Kind.{Kind, kind};
ghost use Rattle.zarrs_data_type_elements.specs.Elements.{RefusesElement, RefusesCells};

use std::alloc::Global;
use zarrs_data_type_bytes::ArrayBytes;
use zarrs_data_type_elements::{Element, ElementError, ElementOwned};
use zarrs_data_type_kinds::DataType;

/// What a read returns: array bytes as they are, or the values of their cells.
pub trait FromArrayBytes: Sized {
    // Whether the values are those of a data type.
    ghost serves: { Kind → Bool };

    // Whether this is made of data of the type.
    ghost reads: { Kind → ArrayData → Self → Type 0 };

    /// The value of this data, of the cells of a box of this shape.
    ///
    /// # Errors
    /// `IncompatibleElementType`: the values are not those of the data type, or the data is no list of its cells.
    /// `OutOfMemory` may come at any time.
    fn from_array_bytes(
        alloc: Global,
        array_bytes: ArrayBytes<'static>,
        shape: &[u64],
        data_type: &DataType,
    ) -> Result<Self, ElementError>
        ensures read { IfOk result (reads (kind data_type.now) (data_of array_bytes.entry)) }
        ensures served { OnOk result (serves (kind data_type.now) ≡ true) }
        ensures refused { IfErr result (RefusesCells (serves (kind data_type.now))
            (cells (kind data_type.now) (data_of array_bytes.entry))) };
}

impl FromArrayBytes for ArrayBytes<'static> {
    ghost serves = { λ k. true };

    ghost reads = { λ k d made. data_of made ≡ d };

    fn from_array_bytes(
        _alloc: Global,
        array_bytes: ArrayBytes<'static>,
        _shape: &[u64],
        _data_type: &DataType,
    ) -> Result<ArrayBytes<'static>, ElementError>
        ensures { result ≡ Ok array_bytes.entry }
    {
        Ok(array_bytes)
    }
}

impl<T: ElementOwned> FromArrayBytes for Vec<T> {
    ghost serves = { T.serves };

    ghost reads = { λ k d list. cells k d ≡ Some (map T.cell list.items) };

    fn from_array_bytes(
        alloc: Global,
        array_bytes: ArrayBytes<'static>,
        _shape: &[u64],
        data_type: &DataType,
    ) -> Result<Vec<T>, ElementError> {
        T::from_array_bytes(alloc, data_type, array_bytes)
    }
}

/// What a write takes: array bytes as they are, or the values of their cells.
pub trait IntoArrayBytes<'a>: Sized {
    // Whether the values are those of a data type.
    ghost serves: { Kind → Bool };

    // Whether data of the type is made of this.
    ghost gives: { Self → Kind → ArrayData → Type 0 };

    /// Data of these cells.
    ///
    /// # Errors
    /// `IncompatibleElementType`: the values are not those of the data type. `OutOfMemory` may come at any time.
    fn into_array_bytes(
        self,
        alloc: Global,
        data_type: &DataType,
    ) -> Result<ArrayBytes<'a>, ElementError>
        ensures given { IfOk result (λ made. gives self (kind data_type.now) (data_of made)) }
        ensures served { OnOk result (serves (kind data_type.now) ≡ true) }
        ensures refused { IfErr result (RefusesElement (serves (kind data_type.now))) };
}

impl<'a> IntoArrayBytes<'a> for ArrayBytes<'a> {
    ghost serves = { λ k. true };

    ghost gives = { λ array_bytes k d. d ≡ data_of array_bytes };

    fn into_array_bytes(
        self,
        _alloc: Global,
        _data_type: &DataType,
    ) -> Result<ArrayBytes<'a>, ElementError>
        ensures answered { result ≡ Ok self.entry }
        ensures given { IfOk result (λ made. data_of made ≡ data_of self.entry) }
        ensures served { OnOk result (true ≡ true) }
        ensures refused { IfErr result (RefusesElement true) }
    {
        Ok(self)
    }
}

impl<'a, T: Element> IntoArrayBytes<'a> for Vec<T> {
    ghost serves = { T.serves };

    ghost gives = { λ list k d. cells k d ≡ Some (map T.cell list.items) };

    fn into_array_bytes(
        self,
        alloc: Global,
        data_type: &DataType,
    ) -> Result<ArrayBytes<'a>, ElementError> {
        let mut elements = self;
        let made = T::take_array_bytes(alloc, data_type, &mut elements)?;
        Ok(made.into_owned(alloc)?)
    }
}

impl<'a, T: Element, const N: usize> IntoArrayBytes<'a> for [T; N] {
    ghost serves = { T.serves };

    ghost gives = { λ list k d. cells k d ≡ Some (map T.cell list) };

    fn into_array_bytes(
        self,
        alloc: Global,
        data_type: &DataType,
    ) -> Result<ArrayBytes<'a>, ElementError> {
        let made = T::to_array_bytes(alloc, data_type, &self)?;
        Ok(made.into_owned(alloc)?)
    }
}

impl<'a, T: Element, const N: usize> IntoArrayBytes<'a> for &'a [T; N] {
    ghost serves = { T.serves };

    ghost gives = { λ list k d. cells k d ≡ Some (map T.cell list.now) };

    fn into_array_bytes(
        self,
        alloc: Global,
        data_type: &DataType,
    ) -> Result<ArrayBytes<'a>, ElementError> {
        T::to_array_bytes(alloc, data_type, self)
    }
}

impl<'a, T: Element> IntoArrayBytes<'a> for &'a [T] {
    ghost serves = { T.serves };

    ghost gives = { λ list k d. cells k d ≡ Some (map T.cell list.now) };

    fn into_array_bytes(
        self,
        alloc: Global,
        data_type: &DataType,
    ) -> Result<ArrayBytes<'a>, ElementError> {
        T::to_array_bytes(alloc, data_type, self)
    }
}
