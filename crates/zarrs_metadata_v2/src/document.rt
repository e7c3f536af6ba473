//! The V2 document of an array.
ghost use Rattle.std.specs.Prelude.{◌≡◌, Some, map, IfOk, IfErr};
ghost use Rattle.std.specs.Int.NonZero.{non_zero_u64_get};
ghost use Rattle.serde_json.specs.View.{view, members_view};
ghost use Rattle.zarrs_metadata_parts.specs.FillValue.{fill_data};
ghost use Rattle.zarrs_metadata_v3.specs.Refusals.{RefusesReading};
ghost use Rattle.zarrs_metadata_v2.specs.Document.{document_v2_of, plain_document_v2_of};
ghost use Rattle.zarrs_metadata_v2.specs.Document.{document_v2_said, plain_document_v2};
ghost use Rattle.zarrs_metadata_v2.specs.Document.{without_attributes, data_of_v2};
ghost use Rattle.zarrs_metadata_v2.specs.Document.{IsDocumentV2Text, IsAttributesText};
ghost use Rattle.zarrs_metadata_v2.specs.View.{document_v2_view};

use crate::order::ArrayMetadataV2Order;
use crate::reading::read_document;
use crate::text::object_text;
use crate::writing::{array_value, document_value};
use serde_json::{Map, Value};
use std::alloc::{AllocError, Global};
use std::num::NonZeroU64;
use zarrs_metadata_parts::{
    ChunkKeySeparator, DataTypeMetadataV2, FillValueMetadata, MetadataError,
};
use zarrs_metadata_v3::holds_float;
use zarrs_metadata_v3::members::{copied, object_of, value_from_slice};

/// The metadata of a V2 array, as `.zarray` and `.zattrs` hold it (Zarr V2 storage specification).
#[derive(Debug, Drop)]
pub struct ArrayMetadataV2 {
    /// The extent of each dimension.
    pub shape: Vec<u64>,
    /// The extent of a chunk in each dimension.
    pub chunks: Vec<NonZeroU64>,
    /// The data type.
    pub dtype: DataTypeMetadataV2,
    /// The compressor, or null.
    pub compressor: Value,
    /// The fill value, or null.
    pub fill_value: FillValueMetadata,
    /// The order of the cells in a chunk.
    pub order: ArrayMetadataV2Order,
    /// The list of filters, or null.
    pub filters: Value,
    /// The separator between the numbers of a chunk key.
    pub dimension_separator: ChunkKeySeparator,
    /// The attributes of the user.
    pub attributes: Map<String, Value>,
}

impl ArrayMetadataV2 {
    /// Returns the metadata of these parts, in order C, with `.` in its chunk keys and without
    /// attributes.
    pub fn new(
        shape: Vec<u64>,
        chunks: Vec<NonZeroU64>,
        dtype: DataTypeMetadataV2,
        fill_value: FillValueMetadata,
        compressor: Value,
        filters: Value,
    ) -> ArrayMetadataV2
        ensures { document_v2_view result ≡ plain_document_v2 shape.items
            (map non_zero_u64_get chunks.items) dtype (fill_data fill_value)
            (view compressor) (view filters) }
    {
        let alloc = *shape.allocator();
        ArrayMetadataV2 {
            shape,
            chunks,
            dtype,
            compressor,
            fill_value,
            order: ArrayMetadataV2Order::C,
            filters,
            dimension_separator: ChunkKeySeparator::Dot,
            attributes: Map::new(alloc),
        }
    }

    /// Returns a copy.
    ///
    /// # Errors
    /// `AllocError`: out of memory.
    pub fn try_clone(&self, alloc: Global) -> Result<ArrayMetadataV2, AllocError>
        ensures { IfOk result (λ copy. document_v2_view copy ≡ document_v2_view self.now) }
    {
        Ok(ArrayMetadataV2 {
            shape: Vec::from_slice(alloc, self.shape.as_slice())?,
            chunks: Vec::from_slice(alloc, self.chunks.as_slice())?,
            dtype: self.dtype.try_clone(alloc)?,
            compressor: self.compressor.clone()?,
            fill_value: self.fill_value.try_clone(alloc)?,
            order: self.order,
            filters: self.filters.clone()?,
            dimension_separator: self.dimension_separator,
            attributes: copied(&self.attributes)?,
        })
    }

    /// Returns the metadata with this order of the cells in a chunk.
    pub fn with_order(self, order: ArrayMetadataV2Order) -> Self
        ensures { document_v2_view result ≡ record (document_v2_view self) { order = order } }
    {
        ArrayMetadataV2 { order, ..self }
    }

    /// Returns the metadata with this separator in its chunk keys.
    pub fn with_dimension_separator(mut self, separator: ChunkKeySeparator) -> Self
        ensures { document_v2_view result
            ≡ record (document_v2_view self) { dimension_separator = separator } }
    {
        self.dimension_separator = separator;
        self
    }

    /// Returns the metadata with these attributes.
    pub fn with_attributes(self, attributes: Map<String, Value>) -> Self
        ensures { document_v2_view result
            ≡ record (document_v2_view self) { attributes = members_view attributes.entries } }
    {
        ArrayMetadataV2 { attributes, ..self }
    }

    /// Reads the document that a JSON value is. An object `attributes` is taken as the attributes;
    /// members under other names are ignored.
    ///
    /// # Errors
    /// `InvalidShape` for any other value, and for one that holds a number that is not an integer
    /// of 64 bits. `OutOfMemory` may come at any time.
    pub fn from_value(alloc: Global, value: Value) -> Result<ArrayMetadataV2, MetadataError>
        ensures read { IfOk result (λ m. plain_document_v2_of (view value)
            ≡ Some (document_v2_view m)) }
        ensures refused { IfErr result (RefusesReading (plain_document_v2_of (view value))) }
    {
        if holds_float(&value) {
            return Err(MetadataError::InvalidShape);
        }
        let members = object_of(value).ok_or(MetadataError::InvalidShape)?;
        Ok(read_document(alloc, members)?)
    }

    /// Returns the JSON value of this document. Empty attributes are not written.
    ///
    /// # Errors
    /// `AllocError`: out of memory.
    pub fn to_value(&self, alloc: Global) -> Result<Value, AllocError>
        ensures written { IfOk result (λ v. view v ≡ data_of_v2 (document_v2_view self.now)) }
        ensures reads_back { IfOk result (λ v. document_v2_of (view v)
            ≡ Some (document_v2_view self.now)) }
    {
        document_value(alloc, self)
    }

    /// Reads the document that the bytes of `.zarray` are: UTF-8, JSON that nests at most 127 deep,
    /// without a number that is not an integer of 64 bits, and a document.
    ///
    /// # Errors
    /// `InvalidShape` for any other bytes. `OutOfMemory` may come at any time.
    pub fn from_slice(alloc: Global, bytes: &[u8]) -> Result<ArrayMetadataV2, MetadataError>
        ensures read { IfOk result (λ m. document_v2_said bytes.now ≡ Some (document_v2_view m)) }
        ensures refused { IfErr result (RefusesReading (document_v2_said bytes.now)) }
    {
        let value = value_from_slice(alloc, bytes)?;
        ArrayMetadataV2::from_value(alloc, value)
    }

    /// Returns the bytes that are stored as `.zarray`: the document without its attributes,
    /// indented.
    ///
    /// # Errors
    /// `AllocError`: out of memory.
    pub fn to_vec_pretty(&self, alloc: Global) -> Result<Vec<u8>, AllocError>
        ensures { IfOk result (λ bytes.
            IsDocumentV2Text (without_attributes (document_v2_view self.now)) bytes.items) }
    {
        let value = array_value(alloc, self)?;
        let bytes = value.to_vec_pretty(alloc)?;
        Ok(bytes)
    }

    /// Returns the bytes that are stored as `.zattrs`: the attributes, indented.
    ///
    /// # Errors
    /// `AllocError`: out of memory.
    pub fn attributes_to_vec_pretty(&self, alloc: Global) -> Result<Vec<u8>, AllocError>
        ensures { IfOk result (λ bytes.
            IsAttributesText (members_view self.now.attributes.entries) bytes.items) }
    {
        object_text(alloc, &self.attributes)
    }
}
