//! The V3 document of an array.
ghost use Rattle.std.specs.Prelude.{◌≡◌, Some, None, map, option_map, IfOk, IfErr};
ghost use Rattle.serde_json.specs.View.{view, members_view};
ghost use Rattle.zarrs_metadata_parts.specs.Extension.{extension_view};
ghost use Rattle.zarrs_metadata_parts.specs.FillValue.{fill_data};
ghost use Rattle.zarrs_metadata_v3.specs.Document.{document_of, plain_document_of, document_said};
ghost use Rattle.zarrs_metadata_v3.specs.Document.{plain_document, data_of_document, normal_document, IsDocumentText};
ghost use Rattle.zarrs_metadata_v3.specs.Refusals.{RefusesReading};
ghost use Rattle.zarrs_metadata_v3.specs.View.{name_view, fields_view, document_view};

use crate::copying::{copied_dimension_names, copied_extensions};
use crate::fields::{AdditionalFieldsV3, copied_fields};
use crate::members::{copied, object_of, value_from_slice};
use crate::numbers::holds_float;
use crate::reading::read_document;
use crate::writing::document_value;
use serde_json::{Map, Value};
use std::alloc::{AllocError, Global};
use zarrs_metadata_parts::{ChunkKeySeparator, FillValueMetadata, MetadataError, MetadataV3};

/// The name of a dimension, or `None` for a dimension without a name.
pub type DimensionName = Option<String>;

/// The metadata of a V3 array, as `zarr.json` holds it (Zarr V3 core specification, array
/// metadata).
#[derive(Debug, Drop)]
pub struct ArrayMetadataV3 {
    /// The extent of each dimension.
    pub shape: Vec<u64>,
    /// The data type.
    pub data_type: MetadataV3,
    /// The chunk grid.
    pub chunk_grid: MetadataV3,
    /// The chunk key encoding.
    pub chunk_key_encoding: MetadataV3,
    /// The fill value, as the data type reads it.
    pub fill_value: FillValueMetadata,
    /// The codecs, in the order in which they encode.
    pub codecs: Vec<MetadataV3>,
    /// The attributes of the user.
    pub attributes: Map<String, Value>,
    /// The storage transformers.
    pub storage_transformers: Vec<MetadataV3>,
    /// The names of the dimensions, if there are any.
    pub dimension_names: Option<Vec<DimensionName>>,
    /// The members under other names.
    pub additional_fields: AdditionalFieldsV3,
}

impl ArrayMetadataV3 {
    /// Returns the metadata of these parts, with `default` chunk keys separated by `/`, and without
    /// attributes, storage transformers, dimension names and additional fields.
    ///
    /// # Errors
    /// `AllocError`: out of memory.
    pub fn new(
        alloc: Global,
        shape: Vec<u64>,
        chunk_grid: MetadataV3,
        data_type: MetadataV3,
        fill_value: FillValueMetadata,
        codecs: Vec<MetadataV3>,
    ) -> Result<ArrayMetadataV3, AllocError>
        ensures { IfOk result (λ m. document_view m
            ≡ plain_document shape.items (extension_view chunk_grid) (extension_view data_type)
            (fill_data fill_value) (map extension_view codecs.items)) }
    {
        let separator = ChunkKeySeparator::Slash.to_value(alloc)?;
        let chunk_key_encoding = MetadataV3::with_one_member(
            alloc,
            "default",
            "separator",
            separator,
        )?;
        Ok(ArrayMetadataV3 {
            shape,
            data_type,
            chunk_grid,
            chunk_key_encoding,
            fill_value,
            codecs,
            attributes: Map::new(alloc),
            storage_transformers: Vec::new(alloc),
            dimension_names: None,
            additional_fields: Map::new(alloc),
        })
    }

    /// Returns a copy.
    ///
    /// # Errors
    /// `AllocError`: out of memory.
    pub fn try_clone(&self, alloc: Global) -> Result<ArrayMetadataV3, AllocError>
        ensures { IfOk result (λ copy. document_view copy ≡ document_view self.now) }
    {
        Ok(ArrayMetadataV3 {
            shape: Vec::from_slice(alloc, self.shape.as_slice())?,
            data_type: self.data_type.try_clone()?,
            chunk_grid: self.chunk_grid.try_clone()?,
            chunk_key_encoding: self.chunk_key_encoding.try_clone()?,
            fill_value: self.fill_value.try_clone(alloc)?,
            codecs: copied_extensions(&self.codecs)?,
            attributes: copied(&self.attributes)?,
            storage_transformers: copied_extensions(&self.storage_transformers)?,
            dimension_names: copied_dimension_names(alloc, &self.dimension_names)?,
            additional_fields: copied_fields(&self.additional_fields)?,
        })
    }

    /// Returns the metadata with these attributes.
    pub fn with_attributes(self, attributes: Map<String, Value>) -> Self
        ensures { document_view result
            ≡ record (document_view self) { attributes = members_view attributes.entries } }
    {
        ArrayMetadataV3 { attributes, ..self }
    }

    /// Returns the metadata with these additional fields. A field under the name of a member of
    /// this document is not written.
    pub fn with_additional_fields(mut self, additional_fields: AdditionalFieldsV3) -> Self
        ensures { document_view result ≡ record (document_view self) {
          additional_fields = fields_view additional_fields.entries;
        } }
    {
        self.additional_fields = additional_fields;
        self
    }

    /// Returns the metadata with this chunk key encoding.
    pub fn with_chunk_key_encoding(mut self, chunk_key_encoding: MetadataV3) -> Self
        ensures { document_view result ≡ record (document_view self) {
          chunk_key_encoding = extension_view chunk_key_encoding;
        } }
    {
        self.chunk_key_encoding = chunk_key_encoding;
        self
    }

    /// Returns the metadata with these names of dimensions.
    pub fn with_dimension_names(mut self, dimension_names: Option<Vec<DimensionName>>) -> Self
        ensures { document_view result ≡ record (document_view self) {
          dimension_names = option_map (λ names. map name_view names.items) dimension_names;
        } }
    {
        self.dimension_names = dimension_names;
        self
    }

    /// Returns the metadata with these storage transformers.
    pub fn with_storage_transformers(mut self, storage_transformers: Vec<MetadataV3>) -> Self
        ensures { document_view result ≡ record (document_view self) {
          storage_transformers = map extension_view storage_transformers.items;
        } }
    {
        self.storage_transformers = storage_transformers;
        self
    }

    /// Reads the document that a JSON value is.
    ///
    /// # Errors
    /// `InvalidShape` for any other value, and for one that holds a number that is not an integer
    /// of 64 bits. `OutOfMemory` may come at any time.
    pub fn from_value(alloc: Global, value: Value) -> Result<ArrayMetadataV3, MetadataError>
        ensures read { IfOk result (λ m. plain_document_of (view value) ≡ Some (document_view m)) }
        // It is read again as it is: it has no empty configuration.
        ensures normal { IfOk result (λ m. normal_document (document_view m) ≡ document_view m) }
        ensures refused { IfErr result (RefusesReading (plain_document_of (view value))) }
    {
        if holds_float(&value) {
            return Err(MetadataError::InvalidShape);
        }
        let members = object_of(value).ok_or(MetadataError::InvalidShape)?;
        Ok(read_document(alloc, members)?)
    }

    /// Returns the JSON value of this document. Empty attributes, empty storage transformers,
    /// absent names and additional fields under a name of another member are not written.
    ///
    /// # Errors
    /// `AllocError`: out of memory.
    pub fn to_value(&self, alloc: Global) -> Result<Value, AllocError>
        ensures written { IfOk result (λ v. view v ≡ data_of_document (document_view self.now)) }
        ensures reads_back { IfOk result (λ v. document_of (view v)
            ≡ Some (normal_document (document_view self.now))) }
    {
        document_value(alloc, self)
    }

    /// Reads the document that bytes are: UTF-8, JSON that nests at most 127 deep, without a number
    /// that is not an integer of 64 bits, and a document.
    ///
    /// # Errors
    /// `InvalidShape` for any other bytes. `OutOfMemory` may come at any time.
    #[tactic(auto, unfolding(crate::specs::Document::document_said))]
    pub fn from_slice(alloc: Global, bytes: &[u8]) -> Result<ArrayMetadataV3, MetadataError>
        ensures read { IfOk result (λ m. document_said bytes.now ≡ Some (document_view m)) }
        ensures normal { IfOk result (λ m. normal_document (document_view m) ≡ document_view m) }
        ensures refused { IfErr result (RefusesReading (document_said bytes.now)) }
    {
        let value = value_from_slice(alloc, bytes)?;
        ArrayMetadataV3::from_value(alloc, value)
    }

    /// Returns the bytes that are stored for the document: its JSON value, indented.
    ///
    /// # Errors
    /// `AllocError`: out of memory.
    pub fn to_vec_pretty(&self, alloc: Global) -> Result<Vec<u8>, AllocError>
        ensures { IfOk result (λ bytes. IsDocumentText (document_view self.now) bytes.items) }
    {
        let value = self.to_value(alloc)?;
        let bytes = value.to_vec_pretty(alloc)?;
        Ok(bytes)
    }
}
