//! The metadata of chunk key encodings, both ways.
ghost use Rattle.std.specs.Prelude.{◌≡◌, Some, IfOk, IfErr};
ghost use Rattle.serde_json.specs.Data.{no_members};
ghost use Rattle.zarrs_metadata_parts.specs.Extension.{settings, extension_view};
ghost use Rattle.zarrs_metadata_parts.specs.Refusals.{RefusesMeaning};
ghost use Rattle.zarrs_keys.specs.Metadata.{separator_alone, separator_in, suffix_named, suffix_in};
ghost use Rattle.zarrs_keys.specs.Metadata.{default_suffix_of, key_encoding_of, configured};
ghost use Rattle.zarrs_keys.specs.Metadata.{separator_member, extension_of_encoding};

use crate::encodings::ChunkKeyEncoding;
use crate::error::KeySuffixError;
use crate::suffixes::KeySuffix;
use serde_json::Value;
use std::alloc::{AllocError, Global};
use zarrs_metadata_parts::{ChunkKeySeparator, MetadataV3, PluginCreateError};

/// Returns the separator of a configuration, or `absent` if it has none.
fn separator_in(absent: ChunkKeySeparator, metadata: &MetadataV3) -> Option<ChunkKeySeparator>
    ensures { result ≡ separator_in absent (settings (extension_view metadata.now)) }
{
    match metadata.member("separator") {
        None => Some(absent),
        Some(value) => ChunkKeySeparator::from_value(value),
    }
}

/// Returns the suffix with this text, or `None` if it is not a suffix.
fn suffix_named(alloc: Global, text: &str) -> Result<Option<KeySuffix>, AllocError>
    ensures { IfOk result (λ suffix. suffix ≡ suffix_named text.now) }
{
    match KeySuffix::new(alloc, text) {
        Ok(suffix) => Ok(Some(suffix)),
        Err(KeySuffixError::Invalid) => Ok(None),
        Err(KeySuffixError::OutOfMemory) => Err(AllocError),
    }
}

/// Returns the suffix of a configuration.
fn suffix_in(alloc: Global, metadata: &MetadataV3) -> Result<Option<KeySuffix>, AllocError>
    ensures { IfOk result (λ suffix. suffix ≡ suffix_in (settings (extension_view metadata.now))) }
{
    match metadata.member("suffix").and_then(Value::as_str) {
        Some(text) => suffix_named(alloc, text),
        None => Ok(None),
    }
}

/// Returns the separator of a configuration that has no other member, or `absent` if it has none.
fn separator_alone(absent: ChunkKeySeparator, metadata: &MetadataV3) -> Option<ChunkKeySeparator>
    ensures { result ≡ separator_alone absent (settings (extension_view metadata.now)) }
{
    if !metadata.has_only(&["separator"]) {
        return None;
    }
    separator_in(absent, metadata)
}

/// Returns the `default_suffix` encoding with this configuration, if it is one of it.
fn default_suffix_of(
    alloc: Global,
    metadata: &MetadataV3,
) -> Result<Option<ChunkKeyEncoding>, AllocError>
    ensures { IfOk result (λ encoding. encoding
        ≡ default_suffix_of (settings (extension_view metadata.now))) }
{
    if !metadata.has_only(&["separator", "suffix"]) {
        return Ok(None);
    }
    let Some(separator) = separator_in(ChunkKeySeparator::Slash, metadata) else {
        return Ok(None);
    };
    match suffix_in(alloc, metadata)? {
        Some(suffix) => Ok(Some(ChunkKeyEncoding::DefaultSuffix(separator, suffix))),
        None => Ok(None),
    }
}

/// Returns the encoding that metadata says, if it says one.
fn encoding_of(alloc: Global, metadata: &MetadataV3) -> Result<Option<ChunkKeyEncoding>, AllocError>
    ensures { IfOk result (λ encoding. encoding ≡ key_encoding_of (extension_view metadata.now)) }
{
    match metadata.name() {
        "default" => {
            let separator = separator_alone(ChunkKeySeparator::Slash, metadata);
            Ok(separator.map(ChunkKeyEncoding::Default))
        }
        "v2" => {
            let separator = separator_alone(ChunkKeySeparator::Dot, metadata);
            Ok(separator.map(ChunkKeyEncoding::V2))
        }
        "default_suffix" | "zarrs.default_suffix" => default_suffix_of(alloc, metadata),
        _ => Ok(None),
    }
}

/// Returns the metadata of this name, with the separator as its configuration.
fn with_separator(
    alloc: Global,
    name: &str,
    separator: ChunkKeySeparator,
) -> Result<MetadataV3, AllocError>
    ensures { IfOk result (λ m. extension_view m
        ≡ configured name.now (separator_member separator no_members)) }
{
    let name = String::from_str(alloc, name)?;
    let separator = separator.to_value(alloc)?;
    MetadataV3::new(name).with_member(alloc, "separator", separator)
}

impl ChunkKeyEncoding {
    /// Reads the encoding that metadata says: `default`, `v2` or `default_suffix` (also under the name
    /// `zarrs.default_suffix`), with a `separator` of `/` or `.` and, for the last, a `suffix`.
    /// If it has no `separator`, the one of `default` and `default_suffix` is `/`, that of `v2` is `.`
    /// (Zarr V3 core specification, chunk key encoding).
    ///
    /// # Errors
    /// `Other` if the metadata says none of them: for another name, a member of another shape,
    /// and a configuration with any other member. `OutOfMemory` may come at any time.
    pub fn from_metadata(
        alloc: Global,
        metadata: &MetadataV3,
    ) -> Result<ChunkKeyEncoding, PluginCreateError>
        ensures read { IfOk result (λ encoding.
            key_encoding_of (extension_view metadata.now) ≡ Some encoding) }
        ensures refused { IfErr result
            (RefusesMeaning (key_encoding_of (extension_view metadata.now))) }
    {
        let Some(encoding) = encoding_of(alloc, metadata)? else {
            let name = metadata.name();
            let text = format!(in alloc; "no chunk key encoding `{name}` has this configuration")?;
            return Err(PluginCreateError::Other(text));
        };
        Ok(encoding)
    }

    /// Returns the metadata of the encoding. The separator is always written.
    ///
    /// # Errors
    /// `AllocError`: out of memory.
    pub fn metadata(&self, alloc: Global) -> Result<MetadataV3, AllocError>
        ensures written { IfOk result (λ m. extension_view m ≡ extension_of_encoding self.now) }
        ensures reads_back { IfOk result (λ m. key_encoding_of (extension_view m) ≡ Some self.now) }
    {
        match self {
            ChunkKeyEncoding::Default(separator) => with_separator(alloc, "default", *separator),
            ChunkKeyEncoding::V2(separator) => with_separator(alloc, "v2", *separator),
            ChunkKeyEncoding::DefaultSuffix(separator, suffix) => {
                let suffix = Value::try_from_str(alloc, suffix.as_str())?;
                with_separator(alloc, "default_suffix", *separator)?.with_member(
                    alloc, "suffix", suffix,
                )
            }
        }
    }
}
