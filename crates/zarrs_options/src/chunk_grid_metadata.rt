//! The metadata of a chunk grid, as a caller may give it.
ghost use Rattle.std.specs.Prelude.{◌≡◌, Some, IsOk, map, string_bytes};
ghost use Rattle.std.specs.Int.NonZero.{non_zero_u64_get};
ghost use Rattle.zarrs_metadata_parts.specs.Extension.{extension_view};

use crate::error::ArrayCreateError;
use crate::shapes::chunk_shape_to_array_shape;
use crate::texts::extension_of_text;
use std::alloc::{AllocError, Global};
use std::num::NonZeroU64;
use zarrs_data_type::IntoField;
use zarrs_metadata_parts::{MetadataV3, PluginCreateError, numbers_value};

#[derive(Debug, Drop)]
enum Given {
    /// An extension point.
    Metadata(MetadataV3),
    /// A text that is to say one.
    Text(String),
    /// The shape of each chunk of a `regular` grid.
    Sizes(Vec<u64>),
}

/// What says the metadata of a chunk grid: an extension point, a text that is its name or its JSON, or the shape of
/// each chunk of a `regular` grid.
#[derive(Debug, Drop)]
pub struct ArrayBuilderChunkGridMetadata(Given);

impl ArrayBuilderChunkGridMetadata {
    ghost use Rattle.std.specs.Prelude.{IfOk, IfErr};
    ghost use Rattle.zarrs_options.specs.Given.{grid_given};
    ghost use Rattle.zarrs_options.specs.Refusals.{RefusesCreation, chunk_grid, create_refusal_of};
    ghost use Rattle.zarrs_options.specs.Refusals.{said_or};

    /// Returns the extension point.
    ///
    /// # Errors
    /// E18 for a text that begins with `{` and is no extension point in JSON. E26.
    pub fn to_metadata(&self, alloc: Global) -> Result<MetadataV3, ArrayCreateError>
        ensures made { IfOk result (λ m. grid_given self.now ≡ Some (extension_view m)) }
        ensures refused { IfErr result (λ e. RefusesCreation
            (said_or chunk_grid (grid_given self.now)) (create_refusal_of e)) }
    {
        match &self.0 {
            Given::Metadata(metadata) => Ok(metadata.try_clone()?),
            Given::Text(text) => match extension_of_text(alloc, text.as_str())? {
                Some(metadata) => Ok(metadata),
                None => Err(no_metadata(alloc)?),
            },
            Given::Sizes(sizes) => Ok(regular_metadata(alloc, sizes)?),
        }
    }
}

ghost use Rattle.std.specs.Prelude.{None, IfOk};
ghost use Rattle.zarrs_options.specs.Given.{grid_given, extension_of_text, regular_extension};
ghost use Rattle.zarrs_options.specs.Refusals.{RefusesCreation, chunk_grid, create_refusal_of, said_or};

fn no_metadata(alloc: Global) -> Result<ArrayCreateError, AllocError>
    ensures { IfOk result (λ e. RefusesCreation (said_or {A = Unit {0}} chunk_grid None)
        (create_refusal_of e)) }
{
    let text = String::from_str(alloc, "the text is no metadata of a chunk grid")?;
    Ok(ArrayCreateError::ChunkGridCreateError(PluginCreateError::Other(text)))
}

fn regular_metadata(alloc: Global, sizes: &[u64]) -> Result<MetadataV3, AllocError>
    ensures { IfOk result (λ m. extension_view m ≡ regular_extension sizes.now) }
{
    let chunk_shape = numbers_value(alloc, sizes)?;
    MetadataV3::with_one_member(alloc, "regular", "chunk_shape", chunk_shape)
}

impl IntoField<ArrayBuilderChunkGridMetadata> for ArrayBuilderChunkGridMetadata {
    ghost gives = { λ value field. grid_given field ≡ grid_given value };

    fn into_field(self, _alloc: Global) -> Result<ArrayBuilderChunkGridMetadata, AllocError>
        ensures { result ≡ Ok self }
    {
        Ok(self)
    }
}

impl IntoField<ArrayBuilderChunkGridMetadata> for MetadataV3 {
    ghost gives = { λ metadata field. grid_given field ≡ Some (extension_view metadata) };

    fn into_field(self, _alloc: Global) -> Result<ArrayBuilderChunkGridMetadata, AllocError>
        ensures field { IfOk result (λ field. grid_given field ≡ Some (extension_view self)) }
        ensures made { IsOk result }
    {
        Ok(ArrayBuilderChunkGridMetadata(Given::Metadata(self)))
    }
}

impl IntoField<ArrayBuilderChunkGridMetadata> for String {
    ghost gives = { λ text field. grid_given field ≡ extension_of_text (string_bytes text) };

    fn into_field(self, _alloc: Global) -> Result<ArrayBuilderChunkGridMetadata, AllocError>
        ensures field { IfOk result
            (λ field. grid_given field ≡ extension_of_text (string_bytes self)) }
        ensures made { IsOk result }
    {
        Ok(ArrayBuilderChunkGridMetadata(Given::Text(self)))
    }
}

impl IntoField<ArrayBuilderChunkGridMetadata> for &str {
    ghost gives = { λ text field. grid_given field ≡ extension_of_text text.now };

    fn into_field(self, alloc: Global) -> Result<ArrayBuilderChunkGridMetadata, AllocError> {
        String::from_str(alloc, self)?.into_field(alloc)
    }
}

impl IntoField<ArrayBuilderChunkGridMetadata> for Vec<u64> {
    ghost gives = { λ sizes field. grid_given field ≡ Some (regular_extension sizes.items) };

    fn into_field(self, _alloc: Global) -> Result<ArrayBuilderChunkGridMetadata, AllocError>
        ensures field { IfOk result
            (λ field. grid_given field ≡ Some (regular_extension self.items)) }
        ensures made { IsOk result }
    {
        Ok(ArrayBuilderChunkGridMetadata(Given::Sizes(self)))
    }
}

impl IntoField<ArrayBuilderChunkGridMetadata> for &[u64] {
    ghost gives = { λ sizes field. grid_given field ≡ Some (regular_extension sizes.now) };

    fn into_field(self, alloc: Global) -> Result<ArrayBuilderChunkGridMetadata, AllocError> {
        Vec::from_slice(alloc, self)?.into_field(alloc)
    }
}

impl<const N: usize> IntoField<ArrayBuilderChunkGridMetadata> for [u64; N] {
    ghost gives = { λ sizes field. grid_given field ≡ Some (regular_extension sizes) };

    fn into_field(self, alloc: Global) -> Result<ArrayBuilderChunkGridMetadata, AllocError> {
        Vec::from_slice(alloc, &self)?.into_field(alloc)
    }
}

impl<const N: usize> IntoField<ArrayBuilderChunkGridMetadata> for &[u64; N] {
    ghost gives = { λ sizes field. grid_given field ≡ Some (regular_extension sizes.now) };

    fn into_field(self, alloc: Global) -> Result<ArrayBuilderChunkGridMetadata, AllocError> {
        Vec::from_slice(alloc, self)?.into_field(alloc)
    }
}

impl IntoField<ArrayBuilderChunkGridMetadata> for Vec<NonZeroU64> {
    ghost gives = { λ sizes field. grid_given field
        ≡ Some (regular_extension (map non_zero_u64_get sizes.items)) };

    fn into_field(self, alloc: Global) -> Result<ArrayBuilderChunkGridMetadata, AllocError> {
        chunk_shape_to_array_shape(alloc, &self)?.into_field(alloc)
    }
}

impl IntoField<ArrayBuilderChunkGridMetadata> for &[NonZeroU64] {
    ghost gives = { λ sizes field. grid_given field
        ≡ Some (regular_extension (map non_zero_u64_get sizes.now)) };

    fn into_field(self, alloc: Global) -> Result<ArrayBuilderChunkGridMetadata, AllocError> {
        chunk_shape_to_array_shape(alloc, self)?.into_field(alloc)
    }
}

impl<const N: usize> IntoField<ArrayBuilderChunkGridMetadata> for [NonZeroU64; N] {
    ghost gives = { λ sizes field. grid_given field
        ≡ Some (regular_extension (map non_zero_u64_get sizes)) };

    fn into_field(self, alloc: Global) -> Result<ArrayBuilderChunkGridMetadata, AllocError> {
        chunk_shape_to_array_shape(alloc, &self)?.into_field(alloc)
    }
}

impl<const N: usize> IntoField<ArrayBuilderChunkGridMetadata> for &[NonZeroU64; N] {
    ghost gives = { λ sizes field. grid_given field
        ≡ Some (regular_extension (map non_zero_u64_get sizes.now)) };

    fn into_field(self, alloc: Global) -> Result<ArrayBuilderChunkGridMetadata, AllocError> {
        chunk_shape_to_array_shape(alloc, self)?.into_field(alloc)
    }
}
