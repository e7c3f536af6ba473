//! Options of an array's metadata.
ghost use Rattle.std.specs.Prelude.{◌≡◌};
ghost use Rattle.zarrs_options.specs.Options.{options_view, default_options};

use crate::versions::MetadataConvertVersion;
use zarrs_codec_chain::CodecMetadataOptions;

/// How the metadata of an array is shown and written. By default it is that of the array's own
/// version, with the attribute `_zarrs`, and with names of extensions as they are.
#[derive(Clone, Copy, Debug, Drop, PartialEq, Eq)]
pub struct ArrayMetadataOptions {
    codec_metadata_options: CodecMetadataOptions,
    convert_version: MetadataConvertVersion,
    include_zarrs_metadata: bool,
    convert_aliased_extension_names: bool,
}

impl Default for ArrayMetadataOptions {
    ghost is_default = { λ options. options_view options ≡ default_options };

    fn default() -> ArrayMetadataOptions {
        ArrayMetadataOptions {
            codec_metadata_options: CodecMetadataOptions,
            convert_version: MetadataConvertVersion::Default,
            include_zarrs_metadata: true,
            convert_aliased_extension_names: false,
        }
    }
}

impl ArrayMetadataOptions {
    ghost use Rattle.std.specs.Borrow.{sem};
    ghost use Rattle.zarrs_options.specs.Lending.{LendsCodecOptions};
    ghost use Rattle.zarrs_options.specs.Options.{codec_metadata_options_of};

    /// Returns the options of the metadata of its codecs.
    pub fn codec_metadata_options(&self) -> &CodecMetadataOptions
        ensures { result.now ≡ codec_metadata_options_of self.now }
    {
        &self.codec_metadata_options
    }

    /// Lends the options of the metadata of its codecs, for a caller that changes them.
    pub fn codec_metadata_options_mut(&mut self) -> &mut CodecMetadataOptions
        ensures* writes_back { sem 𝓛 (LendsCodecOptions self.entry result) }
        ensures value { result.now ≡ codec_metadata_options_of self.old }
    {
        &mut self.codec_metadata_options
    }

    /// Returns the options with these ones of the metadata of the codecs.
    pub fn with_codec_metadata_options(mut self, options: CodecMetadataOptions) -> Self
        ensures set { codec_metadata_options_of result ≡ options }
        ensures kept { options_view result ≡ options_view self }
    {
        self.codec_metadata_options = options;
        self
    }

    /// Sets the options of the metadata of the codecs.
    pub fn set_codec_metadata_options(&mut self, options: CodecMetadataOptions) -> &mut Self
        ensures same_loan { result.ghost_name ≡ self.entry.ghost_name }
        ensures set { codec_metadata_options_of result.now ≡ options }
        ensures kept { options_view result.now ≡ options_view self.old }
    {
        self.codec_metadata_options = options;
        self
    }

    /// Returns which version is written.
    pub fn metadata_convert_version(&self) -> MetadataConvertVersion
        ensures { result ≡ (options_view self.now).convert_version }
    {
        self.convert_version
    }

    /// Returns the options with this version.
    pub fn with_metadata_convert_version(mut self, version: MetadataConvertVersion) -> Self
        ensures { options_view result
            ≡ record (options_view self) { convert_version = version } }
    {
        self.convert_version = version;
        self
    }

    /// Sets the version.
    pub fn set_metadata_convert_version(&mut self, version: MetadataConvertVersion) -> &mut Self
        ensures same_loan { result.ghost_name ≡ self.entry.ghost_name }
        ensures set { options_view result.now
            ≡ record (options_view self.old) { convert_version = version } }
    {
        self.convert_version = version;
        self
    }

    /// Returns whether the attribute `_zarrs` is written.
    pub fn include_zarrs_metadata(&self) -> bool
        ensures { result ≡ (options_view self.now).include_zarrs_metadata }
    {
        self.include_zarrs_metadata
    }

    /// Returns the options with this choice of whether `_zarrs` is written.
    pub fn with_include_zarrs_metadata(mut self, include_zarrs_metadata: bool) -> Self
        ensures { options_view result
            ≡ record (options_view self) { include_zarrs_metadata = include_zarrs_metadata } }
    {
        self.include_zarrs_metadata = include_zarrs_metadata;
        self
    }

    /// Sets whether `_zarrs` is written.
    pub fn set_include_zarrs_metadata(&mut self, include_zarrs_metadata: bool) -> &mut Self
        ensures same_loan { result.ghost_name ≡ self.entry.ghost_name }
        ensures set { options_view result.now ≡ record (options_view self.old) {
          include_zarrs_metadata = include_zarrs_metadata;
        } }
    {
        self.include_zarrs_metadata = include_zarrs_metadata;
        self
    }

    /// Returns whether aliases of extensions are written as main names.
    pub fn convert_aliased_extension_names(&self) -> bool
        ensures { result ≡ (options_view self.now).convert_aliased_extension_names }
    {
        self.convert_aliased_extension_names
    }

    /// Returns the options with this choice of whether aliases are written as main names.
    pub fn with_convert_aliased_extension_names(mut self, is_converted: bool) -> Self
        ensures { options_view result
            ≡ record (options_view self) { convert_aliased_extension_names = is_converted } }
    {
        self.convert_aliased_extension_names = is_converted;
        self
    }

    /// Sets whether aliases are written as main names.
    pub fn set_convert_aliased_extension_names(&mut self, is_converted: bool) -> &mut Self
        ensures same_loan { result.ghost_name ≡ self.entry.ghost_name }
        ensures set { options_view result.now
            ≡ record (options_view self.old) { convert_aliased_extension_names = is_converted } }
    {
        self.convert_aliased_extension_names = is_converted;
        self
    }
}
