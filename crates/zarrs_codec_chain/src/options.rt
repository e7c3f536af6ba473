//! What a caller chooses for a call.
ghost use Rattle.std.specs.Prelude.{◌≡◌, false};
ghost use Rattle.zarrs_codec_chain.specs.Options.{stores_empty_chunks, encodes_partially, sharding_options_of};
ghost use Rattle.zarrs_codec_chain.specs.declared.options.SubchunkWriteOrder.TheVariants.{C};

/// Options of a call; by default none is set.
#[derive(Clone, Copy, Debug, Drop, PartialEq, Eq)]
pub struct CodecOptions {
    store_empty_chunks: bool,
    experimental_partial_encoding: bool,
}

/// Options of the metadata of codecs: there is none.
#[derive(Clone, Copy, Debug, Default, Drop, PartialEq, Eq)]
pub struct CodecMetadataOptions;

/// The order in which the subchunks of a shard are written.
#[derive(Clone, Copy, Debug, Default, Drop, PartialEq, Eq)]
pub enum SubchunkWriteOrder {
    /// Row-major.
    #[default]
    C,
}

/// Options that the codec of shards takes once, for all calls.
#[derive(Clone, Copy, Debug, Default, Drop, PartialEq, Eq)]
pub struct ShardingCodecOptions {
    subchunk_write_order: SubchunkWriteOrder,
}

/// Options that single codecs take once, for all calls.
#[derive(Clone, Copy, Debug, Default, Drop, PartialEq, Eq)]
pub struct CodecSpecificOptions {
    sharding: ShardingCodecOptions,
}

impl ShardingCodecOptions {
    /// The order in which the subchunks of a shard are written.
    pub fn subchunk_write_order(&self) -> SubchunkWriteOrder
        ensures { result ≡ C }
    {
        self.subchunk_write_order
    }

    /// The options with this order of the subchunks.
    pub fn with_subchunk_write_order(
        self,
        subchunk_write_order: SubchunkWriteOrder,
    ) -> ShardingCodecOptions {
        ShardingCodecOptions {
            subchunk_write_order,
        }
    }
}

impl CodecSpecificOptions {
    /// The options with this one for the codec of shards.
    pub fn with_option(self, sharding: ShardingCodecOptions) -> CodecSpecificOptions
        ensures { sharding_options_of result ≡ sharding }
    {
        CodecSpecificOptions { sharding }
    }

    /// The option for the codec of shards.
    pub fn sharding(&self) -> ShardingCodecOptions
        ensures { result ≡ sharding_options_of self.now }
    {
        self.sharding
    }
}

impl Default for CodecOptions {
    ghost is_default = { λ options. (stores_empty_chunks options ≡ false)
        × (encodes_partially options ≡ false) };

    fn default() -> CodecOptions {
        CodecOptions {
            store_empty_chunks: false,
            experimental_partial_encoding: false,
        }
    }
}

impl CodecOptions {
    /// Whether a chunk whose cells are all fill is stored, in place of being erased.
    pub fn store_empty_chunks(&self) -> bool
        ensures { result ≡ stores_empty_chunks self.now }
    {
        self.store_empty_chunks
    }

    /// The options with this choice of whether empty chunks are stored.
    pub fn with_store_empty_chunks(self, store_empty_chunks: bool) -> CodecOptions
        ensures set { stores_empty_chunks result ≡ store_empty_chunks }
        ensures kept { encodes_partially result ≡ encodes_partially self }
    {
        CodecOptions {
            store_empty_chunks,
            ..self
        }
    }

    /// Sets whether empty chunks are stored.
    pub fn set_store_empty_chunks(&mut self, store_empty_chunks: bool) -> &mut Self
        ensures same_loan { result.ghost_name ≡ self.entry.ghost_name }
        ensures set { stores_empty_chunks result.now ≡ store_empty_chunks }
        ensures kept { encodes_partially result.now ≡ encodes_partially self.entry.now }
    {
        self.store_empty_chunks = store_empty_chunks;
        self
    }

    /// Whether a part of a chunk is written by itself, if the store and the codecs can: no cell beside the part's
    /// subchunks is decoded or encoded then.
    pub fn experimental_partial_encoding(&self) -> bool
        ensures { result ≡ encodes_partially self.now }
    {
        self.experimental_partial_encoding
    }

    /// The options with this choice of whether parts are written by themselves.
    pub fn with_experimental_partial_encoding(
        self,
        experimental_partial_encoding: bool,
    ) -> CodecOptions
        ensures set { encodes_partially result ≡ experimental_partial_encoding }
        ensures kept { stores_empty_chunks result ≡ stores_empty_chunks self }
    {
        CodecOptions {
            experimental_partial_encoding,
            ..self
        }
    }

    /// Sets whether parts are written by themselves.
    pub fn set_experimental_partial_encoding(
        &mut self,
        experimental_partial_encoding: bool,
    ) -> &mut Self
        ensures same_loan { result.ghost_name ≡ self.entry.ghost_name }
        ensures set { encodes_partially result.now ≡ experimental_partial_encoding }
        ensures kept { stores_empty_chunks result.now ≡ stores_empty_chunks self.entry.now }
    {
        self.experimental_partial_encoding = experimental_partial_encoding;
        self
    }
}
