//! An array: an engine, and the metadata that says its parts.
mod calls;
mod compact;
mod comparison;
mod copies;
mod elements;
mod into;
mod lending;
mod metadata;
mod options;
mod part_reads;
mod partial_encoder;
mod printing;
mod queries;
mod reads;
mod resize;
mod setters;
mod upgrade;
mod versions;
mod writes;

ghost use Rattle.zarrs.specs.Agreement.{Agrees, Agrees-prop};

pub use part_reads::ArrayPartialDecoder;
pub use partial_encoder::ArrayPartialEncoder;
use serde_json::{Map, Value};
use std::alloc::Global;
use zarrs_chunk_grid::{ChunkGrid, ChunkGridTraits};
use zarrs_codec::{CodecChain, CodecOptions, CodecSpecificOptions};
use zarrs_creation::{parts_said, stored_metadata};
use zarrs_data_type::{DataType, FillValue};
use zarrs_engine::Engine;
use zarrs_keys::{ChunkKeyEncoding, NodePath};
use zarrs_metadata::{ArrayMetadata, DimensionName};
use zarrs_options::{
    ArrayCreateError, ArrayMetadataOptions, MetadataRetrieveVersion, StorageTransformerChain,
};
use zarrs_storage::ReadableStorageTraits;

/// An array in a store.
///
/// Its parts are those that its metadata says: the grid of its chunks, their keys, the codecs, the data type and the
/// fill value (Zarr V3 core specification, array metadata; Zarr V2 storage specification, metadata).
#[derive(Drop)]
pub struct Array<TStorage> {
    engine: Engine<TStorage, ChunkGrid, ChunkKeyEncoding, CodecChain>,
    metadata: ArrayMetadata,
    codec_options: CodecOptions,
    codec_specific_options: CodecSpecificOptions,
    metadata_options: ArrayMetadataOptions,
    ghost agrees: { Agrees engine metadata } by { Agrees-prop engine metadata },
}

impl<TStorage> Array<TStorage> {
    ghost use Rattle.std.specs.Prelude.{◌≡◌, map, option_map};
    ghost use Rattle.serde_json.specs.View.{members_view};
    ghost use Rattle.zarrs_metadata_v3.specs.View.{name_view};
    ghost use Rattle.zarrs_metadata.specs.Versions.{metadata_view};
    ghost use Rattle.zarrs_chunk_grid.specs.Configurations.{counts_of};
    ghost use Rattle.zarrs_chunk_grid.specs.GridView.{configuration_of};
    ghost use Rattle.zarrs_data_type.specs.Kind.{kind};
    ghost use Rattle.zarrs_codec.specs.Chains.{chain_data};
    ghost use Rattle.zarrs_creation.specs.Meanings.{shape_said, attributes_of};
    ghost use Rattle.zarrs_creation.specs.Meanings.{dimension_names_of};
    ghost use Rattle.zarrs.specs.Arrays.{metadata_of_array, meaning_of_array, layout_of_array};
    ghost use Rattle.zarrs.specs.Arrays.{path_of_array, storage_of_array};

    /// Returns the store.
    pub fn storage(&self) -> &TStorage
        ensures { result.now ≡ storage_of_array self.now }
    {
        self.engine.storage()
    }

    /// Returns where the array lies.
    pub fn path(&self) -> &NodePath
        ensures { result.now ≡ path_of_array self.now }
    {
        self.engine.path()
    }

    /// Returns its metadata.
    pub fn metadata(&self) -> &ArrayMetadata
        ensures { metadata_view result.now ≡ metadata_of_array self.now }
    {
        &self.metadata
    }

    /// Returns the extent of each dimension.
    pub fn shape(&self) -> &[u64]
        ensures { result.now ≡ shape_said (metadata_of_array self.now) }
    {
        match &self.metadata {
            ArrayMetadata::V3(document) => document.shape.as_slice(),
            ArrayMetadata::V2(document) => document.shape.as_slice(),
        }
    }

    /// Returns the number of dimensions, which is the length of an index list.
    pub fn dimensionality(&self) -> usize
        ensures { result ≡ (layout_of_array self.now).grid.dimensions }
    {
        self.engine.dimensionality()
    }

    /// Returns the type of the cells.
    pub fn data_type(&self) -> &DataType
        ensures { kind result.now ≡ (meaning_of_array self.now).kind }
    {
        self.engine.data_type()
    }

    /// Returns the value of a cell that was never written.
    pub fn fill_value(&self) -> &FillValue
        ensures { result.now ≡ (meaning_of_array self.now).fill }
    {
        self.engine.fill_value()
    }

    /// Returns the codecs that make bytes of the cells of a chunk.
    pub fn codecs(&self) -> &CodecChain
        ensures { chain_data result.now ≡ (meaning_of_array self.now).chain }
    {
        self.engine.chain()
    }

    /// Returns how the array is cut into chunks.
    pub fn chunk_grid(&self) -> &ChunkGrid
        ensures { configuration_of result.now ≡ (meaning_of_array self.now).grid }
    {
        self.engine.chunk_grid()
    }

    /// Returns how many chunks the array takes along each dimension. The last one may have no box.
    pub fn chunk_grid_shape(&self) -> &[u64]
        ensures { result.now ≡ counts_of (meaning_of_array self.now).grid
            (meaning_of_array self.now).shape }
    {
        self.engine.chunk_grid().grid_shape()
    }

    /// Returns how the keys of the chunks are made.
    pub fn chunk_key_encoding(&self) -> &ChunkKeyEncoding
        ensures { result.now ≡ (meaning_of_array self.now).keys }
    {
        self.engine.keys()
    }

    /// Returns the chain of its storage transformers, which is empty.
    pub fn storage_transformers(&self) -> StorageTransformerChain {
        StorageTransformerChain
    }

    /// Returns the names of the dimensions, if there are any. A V2 array has none.
    pub fn dimension_names(&self) -> Option<&[DimensionName]>
        ensures { option_map (λ names. map name_view names.now) result
            ≡ dimension_names_of (metadata_of_array self.now) }
    {
        match &self.metadata {
            ArrayMetadata::V3(document) => document.dimension_names.as_deref(),
            ArrayMetadata::V2(_) => None,
        }
    }

    /// Returns the user attributes.
    pub fn attributes(&self) -> &Map<String, Value>
        ensures { members_view result.now.entries ≡ attributes_of (metadata_of_array self.now) }
    {
        match &self.metadata {
            ArrayMetadata::V3(document) => &document.attributes,
            ArrayMetadata::V2(document) => &document.attributes,
        }
    }

    /// Returns the store, which is all that is kept.
    pub fn into_storage(self) -> TStorage
        ensures { result ≡ storage_of_array self }
    {
        self.engine.into_storage()
    }
}

impl<TStorage: Drop> Array<TStorage> {
    ghost use Rattle.zarrs_metadata.specs.Versions.{metadata_view};
    ghost use Rattle.zarrs_options.specs.Refusals.{RefusesCreation};
    ghost use Rattle.zarrs_creation.specs.Meanings.{creation, created};
    ghost use Rattle.zarrs.specs.Openings.{MakesArray};

    /// Makes the array at the path with this metadata and the default options. The store is not asked, and additional
    /// fields are not looked at.
    ///
    /// # Errors
    /// E11 for a path that is no path of a node. Then of V3 metadata in this order: E16 for codecs that are no chain;
    /// E13 for no data type; E18 for no chunk grid over the shape; E15 for no fill value of the data type; E17 for
    /// storage transformers; E19 for no chunk key encoding; E21 for more or fewer names than dimensions. Of V2 metadata:
    /// E13 for a data type without a V3 name; E18 for a chunk of another number of dimensions; E15 for no fill value of
    /// the data type; E25 for a compressor, or filters that are not those of the data type. E26 may come at any time.
    /// The store is dropped then.
    pub fn new_with_metadata(
        alloc: Global,
        storage: TStorage,
        path: &str,
        metadata: ArrayMetadata,
    ) -> Result<Array<TStorage>, ArrayCreateError>
        ensures { MakesArray path.now storage (metadata_view metadata)
            (RefusesCreation (created path.now (metadata_view metadata))) result }
    {
        let path = NodePath::new(alloc, path)?;
        let array = Array::with_metadata(alloc, storage, path, metadata)?;
        Ok(array)
    }

    fn with_metadata(
        alloc: Global,
        storage: TStorage,
        path: NodePath,
        metadata: ArrayMetadata,
    ) -> Result<Array<TStorage>, ArrayCreateError>
        ensures { MakesArray path storage (metadata_view metadata)
            (RefusesCreation (creation (metadata_view metadata))) result }
    {
        let parts = parts_said(alloc, &metadata)?;
        let engine = Engine::new(
            storage,
            path,
            parts.grid,
            parts.keys,
            parts.chain,
            parts.data_type,
            parts.fill_value,
        );
        Ok(Array {
            engine,
            metadata,
            codec_options: CodecOptions::default(),
            codec_specific_options: CodecSpecificOptions::default(),
            metadata_options: ArrayMetadataOptions::default(),
        })
    }
}

impl<TStorage: ReadableStorageTraits + Drop> Array<TStorage> {
    ghost use Rattle.zarrs_options.specs.declared.versions.MetadataRetrieveVersion.TheVariants as retrieve;
    ghost use Rattle.zarrs_creation.specs.Opening.{MayAskMetadata};
    ghost use Rattle.zarrs.specs.Openings.{OpensArray};

    /// Opens the array at the path by its V3 metadata, or by its V2 metadata if there is no `zarr.json`, with the default
    /// options.
    ///
    /// # Errors
    /// As `open_opt`.
    pub fn open(
        alloc: Global,
        storage: TStorage,
        path: &str,
    ) -> Result<Array<TStorage>, ArrayCreateError>
        requires { MayAskMetadata retrieve.Default (TStorage.state storage) path.now }
        ensures { OpensArray retrieve.Default TStorage.state path.now storage result }
    {
        Array::open_opt(alloc, storage, path, &MetadataRetrieveVersion::Default)
    }

    /// Opens the array at the path: makes it of the metadata that the store holds there, of this version, with the
    /// default options.
    ///
    /// The document is that at the key `zarr.json` of the path, or at `.zarray`, whose attributes are those at
    /// `.zattrs` if that is present.
    ///
    /// # Errors
    /// In this order: E11 for a path that is no path of a node; E23 if the store refuses a key that is asked, and, as an
    /// `InvalidMetadata` of this key, for a value there that is no such document; E24 if the metadata is absent; E12 for
    /// an additional field of a V3 document that must be understood. Then as `new_with_metadata`. E26 may come at any
    /// time. The store is dropped then.
    pub fn open_opt(
        alloc: Global,
        storage: TStorage,
        path: &str,
        version: &MetadataRetrieveVersion,
    ) -> Result<Array<TStorage>, ArrayCreateError>
        requires { MayAskMetadata version.now (TStorage.state storage) path.now }
        ensures { OpensArray version.now TStorage.state path.now storage result }
    {
        let node_path = NodePath::new(alloc, path)?;
        let metadata = stored_metadata(alloc, &storage, &node_path, *version)?;
        let array = Array::with_metadata(alloc, storage, node_path, metadata)?;
        Ok(array)
    }
}
