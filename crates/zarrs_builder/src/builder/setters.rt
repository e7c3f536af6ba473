//! Setters of a builder: each replaces its part and keeps the others.
use super::{ArrayBuilder, grid_field};
use crate::data_type::ArrayBuilderDataType;
use crate::fill_value::IntoFillValue;
use crate::names::given_names;
use serde_json::{Map, Value};
use std::alloc::Global;
use zarrs_chunk_grid::{ChunkGrid, ChunkGridTraits};
use zarrs_codec::{ArrayToArrayCodec, ArrayToBytesCodec, BytesToBytesCodecs, CodecSpecificOptions};
use zarrs_data_type::IntoField;
use zarrs_keys::ChunkKeyEncoding;
use zarrs_metadata::{AdditionalFieldsV3, ChunkKeySeparator, DimensionName};
use zarrs_options::{ArrayBuilderChunkGridMetadata, StorageTransformerChain};
use zarrs_subset::ArrayShape;

impl ArrayBuilder {
    ghost use Rattle.std.specs.Prelude.{◌≡◌, Some, map, IfOk, IfSome, IsSome, MatchOption, None};
    ghost use Rattle.std.specs.Iterator.{IsFinite};
    ghost use Rattle.std.specs.Borrow.{sem};
    ghost use Rattle.serde_json.specs.View.{members_view};
    ghost use Rattle.zarrs_keys.specs.declared.encodings.ChunkKeyEncoding.TheVariants as keys;
    ghost use Rattle.zarrs_codec_array.specs.ArrayCodecs.{array_codec_data};
    ghost use Rattle.zarrs_codec.specs.Chains.{bytes_codec_data};
    ghost use Rattle.zarrs_metadata_v3.specs.View.{fields_view};
    ghost use Rattle.zarrs_builder.specs.Given.{AreGiven};
    ghost use Rattle.zarrs_builder.specs.Builders.{builder_view, shape_of, chunk_grid_of};
    ghost use Rattle.zarrs_builder.specs.Builders.{data_type_of, fill_value_of, HasGrid};
    ghost use Rattle.zarrs_builder.specs.Builders.{dimension_names_in, subchunk_shape_in};
    ghost use Rattle.zarrs_builder.specs.Lending.{LendsBuilderAttributes};

    /// Sets the shape. The metadata of the chunk grid stays.
    pub fn shape<S: IntoField<ArrayShape>>(&mut self, alloc: Global, shape: S) -> &mut Self
        ensures same_loan { result.ghost_name ≡ self.entry.ghost_name }
        ensures set { IfOk (shape_of result.now) (S.gives shape) }
        ensures kept { builder_view result.now ≡ record (builder_view self.old) {
          shape = (builder_view result.now).shape;
        } }
    {
        self.shape = shape.into_field(alloc);
        self
    }

    /// Sets the data type.
    pub fn data_type<D: IntoField<ArrayBuilderDataType>>(
        &mut self,
        alloc: Global,
        data_type: D,
    ) -> &mut Self
        ensures same_loan { result.ghost_name ≡ self.entry.ghost_name }
        ensures set { IfOk (data_type_of result.now) (D.gives data_type) }
        ensures kept { builder_view result.now ≡ record (builder_view self.old) {
          data_type = (builder_view result.now).data_type;
        } }
    {
        self.data_type = data_type.into_field(alloc);
        self
    }

    /// Sets the metadata of the chunk grid. The shape stays.
    pub fn chunk_grid_metadata<G: IntoField<ArrayBuilderChunkGridMetadata>>(
        &mut self,
        alloc: Global,
        chunk_grid_metadata: G,
    ) -> &mut Self
        ensures same_loan { result.ghost_name ≡ self.entry.ghost_name }
        ensures set { IfOk (chunk_grid_of result.now) (G.gives chunk_grid_metadata) }
        ensures kept { builder_view result.now ≡ record (builder_view self.old) {
          chunk_grid = (builder_view result.now).chunk_grid;
        } }
    {
        self.chunk_grid = chunk_grid_metadata.into_field(alloc);
        self
    }

    /// Sets the chunk grid, and the shape to that of its array.
    pub fn chunk_grid<G: Into<ChunkGrid>>(&mut self, alloc: Global, chunk_grid: G) -> &mut Self
        ensures same_loan { result.ghost_name ≡ self.entry.ghost_name }
        ensures set { HasGrid (G.converts chunk_grid) (builder_view result.now) }
        ensures kept { builder_view result.now ≡ record (builder_view self.old) {
          shape = (builder_view result.now).shape;
          chunk_grid = (builder_view result.now).chunk_grid;
        } }
    {
        let chunk_grid = chunk_grid.into();
        self.shape = Vec::from_slice(alloc, chunk_grid.array_shape());
        self.chunk_grid = grid_field(alloc, &chunk_grid);
        self
    }

    /// Sets the fill value.
    pub fn fill_value<F: IntoFillValue>(&mut self, alloc: Global, fill_value: F) -> &mut Self
        ensures same_loan { result.ghost_name ≡ self.entry.ghost_name }
        ensures set { IfOk (fill_value_of result.now) (F.gives fill_value) }
        ensures kept { builder_view result.now ≡ record (builder_view self.old) {
          fill_value = (builder_view result.now).fill_value;
        } }
    {
        self.fill_value = fill_value.into_fill_value(alloc);
        self
    }

    /// Sets how the keys of the chunks are made.
    pub fn chunk_key_encoding(&mut self, chunk_key_encoding: ChunkKeyEncoding) -> &mut Self
        ensures same_loan { result.ghost_name ≡ self.entry.ghost_name }
        ensures set { builder_view result.now ≡ record (builder_view self.old) {
          chunk_key_encoding = chunk_key_encoding;
        } }
    {
        self.chunk_key_encoding = chunk_key_encoding;
        self
    }

    /// Sets `default` chunk keys with this separator.
    pub fn chunk_key_encoding_default_separator(
        &mut self,
        separator: ChunkKeySeparator,
    ) -> &mut Self
        ensures same_loan { result.ghost_name ≡ self.entry.ghost_name }
        ensures set { builder_view result.now ≡ record (builder_view self.old) {
          chunk_key_encoding = keys.Default separator;
        } }
    {
        self.chunk_key_encoding(ChunkKeyEncoding::Default(separator))
    }

    /// Sets the codecs that make an array of an array, the first one first.
    pub fn array_to_array_codecs(&mut self, codecs: Vec<ArrayToArrayCodec>) -> &mut Self
        ensures same_loan { result.ghost_name ≡ self.entry.ghost_name }
        ensures set { builder_view result.now ≡ record (builder_view self.old) {
          array_to_array = map array_codec_data codecs.items;
        } }
    {
        self.array_to_array_codecs = codecs;
        self
    }

    /// Sets the codec that makes bytes of cells, in place of the default one of the data type.
    pub fn array_to_bytes_codec(&mut self, array_to_bytes_codec: ArrayToBytesCodec) -> &mut Self
        ensures same_loan { result.ghost_name ≡ self.entry.ghost_name }
        ensures set { builder_view result.now ≡ record (builder_view self.old) {
          array_to_bytes = Some (bytes_codec_data array_to_bytes_codec);
        } }
    {
        self.array_to_bytes_codec = Some(array_to_bytes_codec);
        self
    }

    /// Sets the codecs that make bytes of bytes: there are none.
    pub fn bytes_to_bytes_codecs(&mut self, _codecs: BytesToBytesCodecs) -> &mut Self
        ensures same_loan { result.ghost_name ≡ self.entry.ghost_name }
        ensures kept { builder_view result.now ≡ builder_view self.old }
    {
        self
    }

    /// Sets the shape of the subchunks that each chunk is cut into, or takes it away. The codecs that are set are then
    /// those of the subchunks, and `sharding_indexed` around them, with its index at the end, is the one codec of the
    /// chunks. Subchunks that do not divide their chunk are taken too. Then the first store of cells that are not all fill
    /// is refused (E4).
    pub fn subchunk_shape<S: IntoField<ArrayShape>>(
        &mut self,
        alloc: Global,
        subchunk_shape: Option<S>,
    ) -> &mut Self
        ensures same_loan { result.ghost_name ≡ self.entry.ghost_name }
        ensures set { IfOk (subchunk_shape_in result.now) (λ field.
            MatchOption subchunk_shape (field ≡ None) (λ shape. IsSome field
            × IfSome field (S.gives shape))) }
        ensures kept { builder_view result.now ≡ record (builder_view self.old) {
          subchunk_shape = (builder_view result.now).subchunk_shape;
        } }
    {
        self.subchunk_shape = match subchunk_shape {
            Some(shape) => shape.into_field(alloc).map(Some),
            None => Ok(None),
        };
        self
    }

    /// Sets the options of single codecs, which the array is built with.
    pub fn codec_specific_options(&mut self, options: CodecSpecificOptions) -> &mut Self
        ensures same_loan { result.ghost_name ≡ self.entry.ghost_name }
        ensures set { builder_view result.now ≡ record (builder_view self.old) {
          codec_specific_options = options;
        } }
    {
        self.codec_specific_options = options;
        self
    }

    /// Sets the user attributes.
    pub fn attributes(&mut self, attributes: Map<String, Value>) -> &mut Self
        ensures same_loan { result.ghost_name ≡ self.entry.ghost_name }
        ensures set { builder_view result.now ≡ record (builder_view self.old) {
          attributes = members_view attributes.entries;
        } }
    {
        self.attributes = attributes;
        self
    }

    /// Lends the user attributes, for a caller that changes them.
    pub fn attributes_mut(&mut self) -> &mut Map<String, Value>
        ensures* writes_back { sem 𝓛 (LendsBuilderAttributes self.entry result) }
        ensures value { members_view result.now.entries ≡ (builder_view self.old).attributes }
    {
        &mut self.attributes
    }

    /// Sets the additional fields. A field under the name of a member of a V3 document is not written.
    pub fn additional_fields(&mut self, additional_fields: AdditionalFieldsV3) -> &mut Self
        ensures same_loan { result.ghost_name ≡ self.entry.ghost_name }
        ensures set { builder_view result.now ≡ record (builder_view self.old) {
          additional_fields = fields_view additional_fields.entries;
        } }
    {
        self.additional_fields = additional_fields;
        self
    }

    /// Sets the names of the dimensions, one for each item, or takes them away.
    pub fn dimension_names<I: IntoIterator<Item = D>, D: IntoField<DimensionName>>(
        &mut self,
        alloc: Global,
        dimension_names: Option<I>,
    ) -> &mut Self
        requires { IfSome dimension_names (λ names. (it : I.IntoIter)
            → I.into_iter_gives names it
            → I.IntoIter.can_next it × IsFinite (I.IntoIter.remaining it)) }
        ensures same_loan { result.ghost_name ≡ self.entry.ghost_name }
        ensures set { IfOk (dimension_names_in result.now) (λ fields.
            MatchOption dimension_names (fields ≡ None) (λ names. IsSome fields
            × IfSome fields (λ list.
            AreGiven I.into_iter_gives I.IntoIter.next_gives D.gives names list.items))) }
        ensures kept { builder_view result.now ≡ record (builder_view self.old) {
          dimension_names = (builder_view result.now).dimension_names;
        } }
    {
        self.dimension_names = match dimension_names {
            Some(names) => given_names(alloc, names).map(Some),
            None => Ok(None),
        };
        self
    }

    /// Sets the storage transformers: there are none.
    pub fn storage_transformers(&mut self, _transformers: StorageTransformerChain) -> &mut Self
        ensures same_loan { result.ghost_name ≡ self.entry.ghost_name }
        ensures kept { builder_view result.now ≡ builder_view self.old }
    {
        self
    }
}
