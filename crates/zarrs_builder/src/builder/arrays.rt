//! Builders of arrays that there are.
ghost use Rattle.std.specs.Prelude.{◌≡◌, map, option_map, IfOk, IsOkUnless};
ghost use Rattle.zarrs_metadata_v3.specs.View.{fields_view, name_view};
ghost use Rattle.zarrs_metadata.specs.Versions.{metadata_view};
ghost use Rattle.zarrs_creation.specs.Meanings.{dimension_names_of};
ghost use Rattle.zarrs_builder.specs.Builders.{additional_fields_of};
ghost use Rattle.zarrs_builder.specs.declared.builder.ArrayBuilder.{ArrayBuilder};

use super::{ArrayBuilder, grid_field};
use crate::fill_value::IntoFillValue;
use serde_json::Map;
use std::alloc::{AllocError, Global};
use zarrs::Array;
use zarrs_codec::{CodecSpecificOptions, copied_array_codecs};
use zarrs_creation::fill_metadata;
use zarrs_data_type::IntoField;
use zarrs_metadata::{AdditionalFieldsV3, ArrayMetadata, DimensionName};
use zarrs_metadata_parts::members::copied;
use zarrs_metadata_v3::{copied_dimension_names, copied_fields};
use zarrs_options::ArrayCreateError;

impl ArrayBuilder {
    ghost use Rattle.zarrs.specs.Arrays.{metadata_of_array, meaning_of_array};
    ghost use Rattle.zarrs_builder.specs.Builders.{builder_view, builder_of};

    /// Returns a builder of an array with the shape, the chunk grid, the data type, the fill value, the codecs, the
    /// chunk keys, the attributes and the names of dimensions of this one, and of V3 the additional fields, and with the
    /// default options. The fill value is metadata, so a data type that is set later reads it. Subchunks of the
    /// array are in its codecs, and not set apart from them.
    ///
    /// # Errors
    /// E26 alone.
    pub fn from_array<TStorage>(
        alloc: Global,
        array: &Array<TStorage>,
    ) -> Result<ArrayBuilder, ArrayCreateError>
        ensures made { IfOk result (λ b. builder_view b
            ≡ builder_of (metadata_of_array array.now) (meaning_of_array array.now)) }
        ensures accepted { IsOkUnless result ArrayCreateError.OutOfMemory }
    {
        let (dimension_names, additional_fields) = copied_v3_members(alloc, array.metadata())?;
        let fill_value = fill_metadata(alloc, array.data_type(), array.fill_value())?;
        let codecs = array.codecs();
        Ok(ArrayBuilder {
            shape: Ok(Vec::from_slice(alloc, array.shape())?),
            chunk_grid: Ok(grid_field(alloc, array.chunk_grid())?),
            data_type: Ok(array.data_type().try_clone(alloc)?.into_field(alloc)?),
            fill_value: Ok(fill_value.into_fill_value(alloc)?),
            dimension_names: Ok(dimension_names),
            subchunk_shape: Ok(None),
            chunk_key_encoding: array.chunk_key_encoding().clone()?,
            array_to_array_codecs: copied_array_codecs(alloc, codecs.array_to_array_codecs())?,
            array_to_bytes_codec: Some(codecs.array_to_bytes_codec().try_clone(alloc)?),
            attributes: copied(array.attributes())?,
            additional_fields,
            codec_specific_options: CodecSpecificOptions::default(),
        })
    }
}

/// Returns copies of the names of dimensions and of the additional fields. V2 metadata has neither.
fn copied_v3_members(
    alloc: Global,
    metadata: &ArrayMetadata,
) -> Result<(Option<Vec<DimensionName>>, AdditionalFieldsV3), AllocError>
    ensures names { IfOk result (λ copies. option_map (λ n. map name_view n.items) copies.0
        ≡ dimension_names_of (metadata_view metadata.now)) }
    ensures fields { IfOk result (λ copies. fields_view copies.1.entries
        ≡ additional_fields_of (metadata_view metadata.now)) }
{
    match metadata {
        ArrayMetadata::V3(document) => Ok((
            copied_dimension_names(alloc, &document.dimension_names)?,
            copied_fields(&document.additional_fields)?,
        )),
        ArrayMetadata::V2(_) => Ok((None, Map::new(alloc))),
    }
}

/// What has a builder of another one like it.
pub trait ToBuilder {
    // Holds of a value and each builder that it may return.
    ghost builds: { Self → ArrayBuilder → Type 0 };

    /// Returns a builder of another one like this.
    ///
    /// # Errors
    /// E26 alone.
    fn builder(&self, alloc: Global) -> Result<ArrayBuilder, ArrayCreateError>
        ensures made { IfOk result (builds self.now) }
        ensures accepted { IsOkUnless result ArrayCreateError.OutOfMemory };
}

impl<TStorage> ToBuilder for Array<TStorage> {
    ghost use Rattle.zarrs.specs.Arrays.{metadata_of_array, meaning_of_array};
    ghost use Rattle.zarrs_builder.specs.Builders.{builder_view, builder_of};

    ghost builds = { λ array builder. builder_view builder
        ≡ builder_of (metadata_of_array array) (meaning_of_array array) };

    fn builder(&self, alloc: Global) -> Result<ArrayBuilder, ArrayCreateError> {
        ArrayBuilder::from_array(alloc, self)
    }
}
