//! The data type of a builder, as a caller may give it.
ghost use Rattle.std.specs.Prelude.{◌≡◌, Some, None, Ok, IfOk, IfErr, IsOk};
ghost use Rattle.std.specs.Prelude.{option_and_then, string_bytes};
ghost use Rattle.zarrs_metadata_parts.specs.Extension.{extension_view};
ghost use Rattle.zarrs_data_type.specs.Kind.{kind};
ghost use Rattle.zarrs_data_type.specs.TypeMetadata.{kind_of};
ghost use Rattle.zarrs_options.specs.Given.{extension_of_text};
ghost use Rattle.zarrs_options.specs.Refusals.{RefusesCreation, create_refusal_of, said_or};
ghost use Rattle.zarrs_options.specs.Refusals as refusal;
ghost use Rattle.zarrs_builder.specs.Given.{type_given};

use std::alloc::{AllocError, Global};
use zarrs_creation::data_type_from;
use zarrs_data_type::{DataType, IntoField};
use zarrs_metadata::{MetadataV3, PluginCreateError};
use zarrs_options::{ArrayCreateError, extension_of_text};

#[derive(Debug, Drop)]
enum GivenType {
    /// A data type.
    DataType(DataType),
    /// Its metadata.
    Metadata(MetadataV3),
    /// A text that is to say its metadata.
    Text(String),
}

/// What says a data type: the data type, its metadata, or a text that is its name or its metadata in JSON.
#[derive(Debug, Drop)]
pub struct ArrayBuilderDataType(GivenType);

impl ArrayBuilderDataType {
    /// Returns the data type.
    ///
    /// # Errors
    /// E13 for metadata that says no data type, and for a text that begins with `{` and is no metadata in JSON. E26.
    pub fn to_data_type(&self, alloc: Global) -> Result<DataType, ArrayCreateError>
        ensures made { IfOk result (λ t. type_given self.now ≡ Some (kind t)) }
        ensures refused { IfErr result (λ e. RefusesCreation
            (said_or refusal.data_type (type_given self.now)) (create_refusal_of e)) }
    {
        match &self.0 {
            GivenType::DataType(data_type) => Ok(data_type.try_clone(alloc)?),
            GivenType::Metadata(metadata) => data_type_from(alloc, metadata),
            GivenType::Text(text) => match extension_of_text(alloc, text.as_str())? {
                Some(metadata) => data_type_from(alloc, &metadata),
                None => {
                    let text = String::from_str(alloc, "the text is no metadata of a data type")?;
                    Err(ArrayCreateError::DataTypeCreateError(PluginCreateError::Other(text)))
                }
            },
        }
    }
}

impl IntoField<ArrayBuilderDataType> for ArrayBuilderDataType {
    ghost gives = { λ value field. type_given field ≡ type_given value };

    fn into_field(self, _alloc: Global) -> Result<ArrayBuilderDataType, AllocError>
        ensures { result ≡ Ok self }
    {
        Ok(self)
    }
}

impl IntoField<ArrayBuilderDataType> for DataType {
    ghost gives = { λ data_type field. type_given field ≡ Some (kind data_type) };

    fn into_field(self, _alloc: Global) -> Result<ArrayBuilderDataType, AllocError>
        ensures field { IfOk result (λ field. type_given field ≡ Some (kind self)) }
        ensures made { IsOk result }
    {
        Ok(ArrayBuilderDataType(GivenType::DataType(self)))
    }
}

impl IntoField<ArrayBuilderDataType> for MetadataV3 {
    ghost gives = { λ metadata field. type_given field ≡ kind_of (extension_view metadata) };

    fn into_field(self, _alloc: Global) -> Result<ArrayBuilderDataType, AllocError>
        ensures field { IfOk result (λ field. type_given field ≡ kind_of (extension_view self)) }
        ensures made { IsOk result }
    {
        Ok(ArrayBuilderDataType(GivenType::Metadata(self)))
    }
}

impl IntoField<ArrayBuilderDataType> for String {
    ghost gives = { λ text field. type_given field
        ≡ option_and_then kind_of (extension_of_text (string_bytes text)) };

    fn into_field(self, _alloc: Global) -> Result<ArrayBuilderDataType, AllocError>
        ensures field { IfOk result (λ field. type_given field
            ≡ option_and_then kind_of (extension_of_text (string_bytes self))) }
        ensures made { IsOk result }
    {
        Ok(ArrayBuilderDataType(GivenType::Text(self)))
    }
}

impl IntoField<ArrayBuilderDataType> for &str {
    ghost gives = { λ text field. type_given field
        ≡ option_and_then kind_of (extension_of_text text.now) };

    fn into_field(self, alloc: Global) -> Result<ArrayBuilderDataType, AllocError> {
        String::from_str(alloc, self)?.into_field(alloc)
    }
}
