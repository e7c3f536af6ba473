//! The words in brackets before a call.
use crate::call::Name;
use crate::why::Why;
use zarrs_codec::CodecOptions;
use zarrs_options::{
    ArrayMetadataOptions, MetadataConvertVersion, MetadataEraseVersion, MetadataRetrieveVersion,
};

/// In which form data is given and returned.
#[derive(Clone, Copy)]
pub enum Form<'a> {
    /// Array bytes.
    Bytes,
    /// `[typed]`: a list of values for the array's data type.
    Typed,
    /// `[as:TYPE]`: a list of values for this type.
    As(&'a str),
}

/// By which array a call goes.
#[derive(Clone, Copy)]
pub enum Through {
    /// The array over its store.
    Own,
    /// `[read-only]`: an array over a `ReadOnly` of its store.
    ReadOnly,
    /// `[lent]`: an array over a `Lent` of its store.
    Lent,
}

/// The words in brackets before a call.
#[derive(Clone, Copy)]
pub struct Options<'a> {
    pub form: Form<'a>,
    /// `[elements]`: by the deprecated `_elements` form of the call.
    pub elements: bool,
    /// `[replay]`: by `replay`, with a list of this call alone.
    pub replay: bool,
    pub through: Through,
    /// `[keep-empty]`: chunks of fill value alone are stored.
    pub keep_empty: bool,
    /// `[partial]`: the parts of chunks are written by themselves, if the store and the codecs can.
    pub partial: bool,
    /// `[v3]`
    pub v3: bool,
    /// `[v2]`
    pub v2: bool,
    /// `[all]`: metadata of both versions is erased.
    pub all: bool,
    /// `[without-zarrs]`: metadata does not say what made it.
    pub without_zarrs: bool,
    /// `[main-names]`: metadata has the main names of extensions.
    pub main_names: bool,
    /// `[subchunks:LIST]`: the builder is told this shape of subchunks.
    pub subchunks: Option<&'a str>,
}

/// The options in brackets, joined by `,`.
pub(crate) fn options_of<'a>(word: &'a str) -> Result<Options<'a>, Why<'a>> {
    let names = word
        .strip_prefix("[")
        .and_then(|names| names.strip_suffix("]"));
    let Some(names) = names else {
        return Err(Why::Option(word));
    };
    let mut options = Options::NONE;
    if let Some(sizes) = names.strip_prefix("subchunks:") {
        options.subchunks = Some(sizes);
        return Ok(options);
    }
    for name in names.split(',') {
        if let Some(data_type) = name.strip_prefix("as:") {
            options.form = Form::As(data_type);
        } else if !options.turn_on(name) {
            return Err(Why::Option(name));
        }
    }
    Ok(options)
}

impl<'a> Options<'a> {
    /// No word in brackets.
    pub const NONE: Options<'static> = Options {
        form: Form::Bytes,
        elements: false,
        replay: false,
        through: Through::Own,
        keep_empty: false,
        partial: false,
        v3: false,
        v2: false,
        all: false,
        without_zarrs: false,
        main_names: false,
        subchunks: None,
    };

    /// Turns on the option of this name, if there is one.
    fn turn_on(&mut self, name: &str) -> bool {
        match name {
            "typed" => self.form = Form::Typed,
            "elements" => self.elements = true,
            "replay" => self.replay = true,
            "read-only" => self.through = Through::ReadOnly,
            "lent" => self.through = Through::Lent,
            "keep-empty" => self.keep_empty = true,
            "partial" => self.partial = true,
            "v3" => self.v3 = true,
            "v2" => self.v2 = true,
            "all" => self.all = true,
            "without-zarrs" => self.without_zarrs = true,
            "main-names" => self.main_names = true,
            _ => return false,
        }
        true
    }

    /// Whether the call, if there is one, takes the options of metadata, of chunks and of builders that are on.
    pub(crate) fn are_taken(&self, name: Option<Name>) -> bool {
        let of_codecs = self.keep_empty || self.partial;
        let of_metadata = self.v3 || self.v2 || self.all || self.without_zarrs || self.main_names;
        let takes_subchunks = match name {
            Some(Name::Build | Name::BuildMetadata | Name::Builder) => true,
            _ => false,
        };
        if self.subchunks.is_some() {
            return takes_subchunks;
        }
        match name {
            Some(
                Name::StoreChunk
                | Name::StoreChunks
                | Name::StoreChunkSubset
                | Name::StoreArraySubset
                | Name::PartialEncode
                | Name::Resize,
            ) => !of_metadata,
            Some(
                Name::Open
                | Name::MetadataOpt
                | Name::StoreMetadataOpt
                | Name::EraseMetadata
                | Name::SetMetadataOptions,
            ) => !of_codecs,
            _ => !of_codecs && !of_metadata,
        }
    }

    /// The word that says that a call goes by values of the language, if one does.
    pub fn of_values(&self) -> Option<&'a str> {
        match self.form {
            Form::Bytes if self.elements => Some("elements"),
            Form::Bytes => None,
            Form::Typed => Some("typed"),
            Form::As(word) => Some(word),
        }
    }

    pub fn of_codecs(&self) -> CodecOptions {
        CodecOptions::default()
            .with_store_empty_chunks(self.keep_empty)
            .with_experimental_partial_encoding(self.partial)
    }

    pub fn of_metadata(&self) -> ArrayMetadataOptions {
        let version = if self.v3 {
            MetadataConvertVersion::V3
        } else {
            MetadataConvertVersion::Default
        };
        ArrayMetadataOptions::default()
            .with_metadata_convert_version(version)
            .with_include_zarrs_metadata(!self.without_zarrs)
            .with_convert_aliased_extension_names(self.main_names)
    }

    pub fn of_opening(&self) -> MetadataRetrieveVersion {
        match (self.v3, self.v2) {
            (true, _) => MetadataRetrieveVersion::V3,
            (false, true) => MetadataRetrieveVersion::V2,
            (false, false) => MetadataRetrieveVersion::Default,
        }
    }

    pub fn of_erasing(&self) -> MetadataEraseVersion {
        match (self.all, self.v3, self.v2) {
            (true, _, _) => MetadataEraseVersion::All,
            (false, true, _) => MetadataEraseVersion::V3,
            (false, false, true) => MetadataEraseVersion::V2,
            (false, false, false) => MetadataEraseVersion::Default,
        }
    }
}
