//! The fill value of a builder, as a caller may give it.
ghost use Rattle.std.specs.Prelude.{◌≡◌, Ok, IfOk, IfErr, IsOk};
ghost use Rattle.serde_json.specs.Data.{string};
ghost use Rattle.serde_json.specs.View.{view};
ghost use Rattle.zarrs_metadata_parts.specs.FillValue.{fill_data};
ghost use Rattle.zarrs_data_type.specs.Kind.{kind};
ghost use Rattle.zarrs_options.specs.Refusals.{RefusesCreation, create_refusal_of};
ghost use Rattle.zarrs_builder.specs.Given.{fill_chosen, by_bytes, by_metadata, fill_given};
ghost use Rattle.zarrs_builder.specs.Given.{SaysJson, SaysList};
ghost use Rattle.zarrs_builder.specs.declared.fill_value.ArrayBuilderFillValue.{ArrayBuilderFillValue};

use serde_json::Value;
use std::alloc::{AllocError, Global};
use zarrs_creation::fill_value_from;
use zarrs_data_type::{DataType, FillValue};
use zarrs_metadata::FillValueMetadata;
use zarrs_options::ArrayCreateError;

#[derive(Debug, Drop)]
enum GivenFill {
    /// The bytes of a cell.
    FillValue(FillValue),
    /// What metadata says.
    Metadata(FillValueMetadata),
}

/// What says a fill value: its bytes, or metadata as the data type reads it. A bool, a whole number, a text and a list
/// of whole numbers are metadata.
#[derive(Debug, Drop)]
pub struct ArrayBuilderFillValue(GivenFill);

impl ArrayBuilderFillValue {
    /// Returns the fill value of this data type. Bytes are not tested.
    ///
    /// # Errors
    /// E15 for metadata that says no value of the data type. E26.
    pub fn to_fill_value(
        &self,
        alloc: Global,
        data_type: &DataType,
    ) -> Result<FillValue, ArrayCreateError>
        ensures made { IfOk result
            (λ f. fill_chosen (kind data_type.now) (fill_given self.now) ≡ Ok f) }
        ensures refused { IfErr result (λ e. RefusesCreation
            (fill_chosen (kind data_type.now) (fill_given self.now)) (create_refusal_of e)) }
    {
        match &self.0 {
            GivenFill::FillValue(fill_value) => Ok(fill_value.try_clone(alloc)?),
            GivenFill::Metadata(metadata) => {
                let name = data_type.name_v3(alloc)?;
                fill_value_from(alloc, data_type, name.as_str(), metadata)
            }
        }
    }

    fn of_value(value: Value) -> ArrayBuilderFillValue
        ensures { fill_given result ≡ by_metadata (view value) }
    {
        ArrayBuilderFillValue(GivenFill::Metadata(FillValueMetadata::from_value(value)))
    }

    fn of_list<T: FillScalar + Copy>(
        alloc: Global,
        items: &[T],
    ) -> Result<ArrayBuilderFillValue, AllocError>
        ensures { IfOk result (SaysList T.converts items.now) }
    {
        let mut values = Vec::with_capacity(alloc, items.len())?;
        for item in items {
            values.push((*item).into())?;
        }
        Ok(ArrayBuilderFillValue::of_value(Value::Array(values)))
    }
}

/// A value that becomes the fill value of a builder, in memory of the allocator.
pub trait IntoFillValue {
    // Holds of a value and each fill value that it may become.
    ghost gives: { Self → ArrayBuilderFillValue → Type 0 };

    /// Returns the fill value.
    ///
    /// # Errors
    /// `AllocError`: out of memory.
    fn into_fill_value(self, alloc: Global) -> Result<ArrayBuilderFillValue, AllocError>
        ensures { IfOk result (gives self) };
}

impl IntoFillValue for ArrayBuilderFillValue {
    ghost gives = { λ value field. fill_given field ≡ fill_given value };

    fn into_fill_value(self, _alloc: Global) -> Result<ArrayBuilderFillValue, AllocError>
        ensures { result ≡ Ok self }
    {
        Ok(self)
    }
}

impl IntoFillValue for FillValue {
    ghost gives = { λ value field. fill_given field ≡ by_bytes value };

    fn into_fill_value(self, _alloc: Global) -> Result<ArrayBuilderFillValue, AllocError>
        ensures given { IfOk result (λ field. fill_given field ≡ by_bytes self) }
        ensures made { IsOk result }
    {
        Ok(ArrayBuilderFillValue(GivenFill::FillValue(self)))
    }
}

impl IntoFillValue for FillValueMetadata {
    ghost gives = { λ metadata field. fill_given field ≡ by_metadata (fill_data metadata) };

    fn into_fill_value(self, _alloc: Global) -> Result<ArrayBuilderFillValue, AllocError>
        ensures given { IfOk result (λ field. fill_given field ≡ by_metadata (fill_data self)) }
        ensures made { IsOk result }
    {
        Ok(ArrayBuilderFillValue(GivenFill::Metadata(self)))
    }
}

impl IntoFillValue for &str {
    ghost gives = { λ text field. fill_given field ≡ by_metadata (string text.now) };

    fn into_fill_value(self, alloc: Global) -> Result<ArrayBuilderFillValue, AllocError> {
        Ok(ArrayBuilderFillValue::of_value(Value::try_from_str(alloc, self)?))
    }
}

/// A value that becomes a JSON value without memory, which may be a fill value. Those that are copied may be in a list
/// that is one.
pub trait FillScalar: Into<Value> {}

impl FillScalar for bool {}

impl FillScalar for String {}

impl FillScalar for u8 {}

impl FillScalar for u16 {}

impl FillScalar for u32 {}

impl FillScalar for u64 {}

impl FillScalar for i8 {}

impl FillScalar for i16 {}

impl FillScalar for i32 {}

impl FillScalar for i64 {}

impl<T: FillScalar> IntoFillValue for T {
    ghost gives = { λ value field. SaysJson (T.converts value) field };

    fn into_fill_value(self, _alloc: Global) -> Result<ArrayBuilderFillValue, AllocError>
        ensures given { IfOk result (SaysJson (T.converts self)) }
        ensures made { IsOk result }
    {
        Ok(ArrayBuilderFillValue::of_value(self.into()))
    }
}

impl<T: FillScalar + Copy> IntoFillValue for Vec<T> {
    ghost gives = { λ items field. SaysList T.converts items.items field };

    fn into_fill_value(self, alloc: Global) -> Result<ArrayBuilderFillValue, AllocError> {
        ArrayBuilderFillValue::of_list(alloc, &self)
    }
}

impl<T: FillScalar + Copy> IntoFillValue for &[T] {
    ghost gives = { λ items field. SaysList T.converts items.now field };

    fn into_fill_value(self, alloc: Global) -> Result<ArrayBuilderFillValue, AllocError> {
        ArrayBuilderFillValue::of_list(alloc, self)
    }
}

impl<T: FillScalar + Copy, const N: usize> IntoFillValue for [T; N] {
    ghost gives = { λ items field. SaysList T.converts items field };

    fn into_fill_value(self, alloc: Global) -> Result<ArrayBuilderFillValue, AllocError> {
        ArrayBuilderFillValue::of_list(alloc, &self)
    }
}

impl<T: FillScalar + Copy, const N: usize> IntoFillValue for &[T; N] {
    ghost gives = { λ items field. SaysList T.converts items.now field };

    fn into_fill_value(self, alloc: Global) -> Result<ArrayBuilderFillValue, AllocError> {
        ArrayBuilderFillValue::of_list(alloc, self)
    }
}
