//! The metadata of data types, both ways.
ghost use Rattle.std.specs.Prelude.{◌≡◌, ◌*◌, [], ◌∷◌, None, option_and_then, if◌then◌else◌, Some};
ghost use Rattle.std.specs.Prelude.{option_map, string_bytes, true, decimal, IfOk, IfErr};
ghost use Rattle.std.specs.Int.NonZero.{non_zero_usize_get};
ghost use Rattle.serde_json.specs.Data.{no_members};
ghost use Rattle.zarrs_metadata_parts.specs.Extension.{extension_view, settings};
ghost use Rattle.zarrs_metadata_parts.specs.Refusals.{RefusesMeaning};
ghost use Rattle.zarrs_data_type_kinds.specs.Kind.{kind, optional};
ghost use Rattle.zarrs_metadata_parts.specs.Members.{has_only};
ghost use Rattle.zarrs_data_type_kinds.specs.TypeMetadata.{is_optional_name, inner_members, number_said};
ghost use Rattle.zarrs_data_type_kinds.specs.TypeMetadata.{size_of_bits, raw_size, plain_kind};
ghost use Rattle.zarrs_data_type_kinds.specs.TypeMetadata.{inner_extension, kind_of, kind_name};
ghost use Rattle.zarrs_data_type_kinds.specs.TypeMetadata.{kind_extension, is_readable};

use crate::data_type::DataType;
use itoa::Buffer;
use serde_json::Value;
use std::alloc::{AllocError, Global};
use std::num::NonZeroUsize;
use zarrs_metadata_parts::members::copied;
use zarrs_metadata_parts::{MetadataV3, PluginCreateError};

/// Returns the number that has this text as its decimal.
fn number_said(text: &str) -> Option<u32>
    ensures { result ≡ number_said text.now }
{
    let Ok(number) = text.parse::<u32>() else {
        return None;
    };
    if Buffer::new().format(number) == text {
        Some(number)
    } else {
        None
    }
}

/// Returns the size in bytes of this number of bits, if a raw type may have it.
fn size_of_bits(bits: u32) -> Option<NonZeroUsize>
    ensures { option_map non_zero_usize_get result ≡ size_of_bits bits }
{
    if bits % 8 == 0 && 0 < bits && bits <= 524_288 {
        NonZeroUsize::new(bits as usize / 8)
    } else {
        None
    }
}

/// Returns the size in bytes of a raw type whose bits are the number of these digits.
fn size_said(digits: &[u8]) -> Option<NonZeroUsize>
    ensures { option_map non_zero_usize_get result
        ≡ option_and_then size_of_bits (number_said digits.now) }
{
    match str::from_utf8(digits) {
        Ok(digits) => size_of_bits(number_said(digits)?),
        Err(_) => None,
    }
}

/// Returns the size in bytes of the raw type of this name.
fn raw_size(name: &str) -> Option<NonZeroUsize>
    ensures { option_map non_zero_usize_get result ≡ raw_size name.now }
{
    match name.as_bytes() {
        [b'r', digits @ ..] => size_said(digits),
        _ => None,
    }
}

/// Returns the type of this name, if it is not optional.
fn plain_type(name: &str) -> Option<DataType>
    ensures { option_map kind result ≡ plain_kind name.now }
{
    match name {
        "bool" => Some(DataType::Bool),
        "int8" => Some(DataType::Int8),
        "int16" => Some(DataType::Int16),
        "int32" => Some(DataType::Int32),
        "int64" => Some(DataType::Int64),
        "uint8" => Some(DataType::UInt8),
        "uint16" => Some(DataType::UInt16),
        "uint32" => Some(DataType::UInt32),
        "uint64" => Some(DataType::UInt64),
        "string" => Some(DataType::String),
        "bytes" | "variable_length_bytes" => Some(DataType::Bytes),
        _ => Some(DataType::Raw(raw_size(name)?)),
    }
}

/// Returns the metadata of the inner type, which is the configuration of an optional type.
fn inner_metadata(alloc: Global, metadata: &MetadataV3) -> Result<Option<MetadataV3>, AllocError>
    ensures { IfOk result (λ inner. option_map extension_view inner
        ≡ inner_extension (settings (extension_view metadata.now))) }
{
    if !metadata.has_only(&["name", "configuration"]) {
        return Ok(None);
    }
    let Some(name) = metadata.member("name").and_then(Value::as_str) else {
        return Ok(None);
    };
    let name = String::from_str(alloc, name)?;
    match metadata.member("configuration") {
        None => Ok(Some(MetadataV3::new(name))),
        Some(Value::Object(members)) => {
            Ok(Some(MetadataV3::new_with_configuration(name, copied(members)?)))
        }
        Some(_) => Ok(None),
    }
}

fn is_optional_name(name: &str) -> bool
    ensures { result ≡ is_optional_name name.now }
{
    matches!(name, "zarrs.optional" | "optional")
}

/// Returns the type of this metadata, which is not that of an optional type.
fn plain_type_of(metadata: &MetadataV3) -> Option<DataType>
    ensures { option_map kind result ≡ (if has_only [] (settings (extension_view metadata.now))
        then plain_kind (extension_view metadata.now).name else None) }
{
    if metadata.has_only(&[]) {
        plain_type(metadata.name())
    } else {
        None
    }
}

/// Returns the optional type of this inner type.
fn optional_of(alloc: Global, inner: Option<DataType>) -> Result<Option<DataType>, AllocError>
    ensures { IfOk result (λ made.
        option_map kind made ≡ option_map optional (option_map kind inner)) }
{
    match inner {
        Some(inner) => Ok(Some(DataType::Optional(Box::new(alloc, inner)?))),
        None => Ok(None),
    }
}

/// Returns the data type that metadata says, if it says one.
fn type_of(alloc: Global, metadata: &MetadataV3) -> Result<Option<DataType>, AllocError>
    ensures { IfOk result (λ found. option_map kind found ≡ kind_of (extension_view metadata.now)) }
{
    if !is_optional_name(metadata.name()) {
        return Ok(plain_type_of(metadata));
    }
    let Some(inner) = inner_metadata(alloc, metadata)? else {
        return Ok(None);
    };
    let found = type_of(alloc, &inner)?;
    optional_of(alloc, found)
}

impl DataType {
    /// Reads the data type that metadata says: by its name, and for `zarrs.optional` by the inner type in its
    /// configuration (Zarr V3 core specification, data types). The other names of `zarrs.optional` and `bytes` are
    /// `optional` and `variable_length_bytes`.
    ///
    /// # Errors
    /// `Other` if the metadata says none of them: for another name, a raw type whose bits are not written as a plain
    /// decimal multiple of 8 from 8 to 524,288, and a configuration with any other member. `OutOfMemory` may come at any
    /// time.
    pub fn from_metadata(
        alloc: Global,
        metadata: &MetadataV3,
    ) -> Result<DataType, PluginCreateError>
        ensures read { IfOk result (λ t. kind_of (extension_view metadata.now) ≡ Some (kind t)) }
        ensures refused { IfErr result (RefusesMeaning (kind_of (extension_view metadata.now))) }
    {
        let Some(data_type) = type_of(alloc, metadata)? else {
            let name = metadata.name();
            let text = format!(in alloc; "no data type `{name}` has this configuration")?;
            return Err(PluginCreateError::Other(text));
        };
        Ok(data_type)
    }

    /// Returns its V3 name, as `uint8`, `r16` or `zarrs.optional`.
    ///
    /// # Errors
    /// `AllocError`: out of memory.
    pub fn name_v3(&self, alloc: Global) -> Result<String, AllocError>
        ensures { IfOk result (λ name. string_bytes name ≡ kind_name (kind self.now)) }
    {
        match self {
            DataType::Bool => String::from_str(alloc, "bool"),
            DataType::Int8 => String::from_str(alloc, "int8"),
            DataType::Int16 => String::from_str(alloc, "int16"),
            DataType::Int32 => String::from_str(alloc, "int32"),
            DataType::Int64 => String::from_str(alloc, "int64"),
            DataType::UInt8 => String::from_str(alloc, "uint8"),
            DataType::UInt16 => String::from_str(alloc, "uint16"),
            DataType::UInt32 => String::from_str(alloc, "uint32"),
            DataType::UInt64 => String::from_str(alloc, "uint64"),
            DataType::Raw(size) => raw_name(alloc, size.get()),
            DataType::String => String::from_str(alloc, "string"),
            DataType::Bytes => String::from_str(alloc, "bytes"),
            DataType::Optional(_) => String::from_str(alloc, "zarrs.optional"),
        }
    }

    /// Returns its metadata. It reads as this type again, unless it is or holds a raw type of more than 65,536 bytes.
    ///
    /// # Errors
    /// `AllocError`: out of memory.
    pub fn metadata(&self, alloc: Global) -> Result<MetadataV3, AllocError>
        ensures written { IfOk result (λ m. extension_view m ≡ kind_extension (kind self.now)) }
        ensures reads_back { is_readable (kind self.now) ≡ true
            → IfOk result (λ m. kind_of (extension_view m) ≡ Some (kind self.now)) }
    {
        let metadata = self.written(alloc)?;
        Ok(metadata)
    }

    fn written(&self, alloc: Global) -> Result<MetadataV3, AllocError>
        ensures { IfOk result (λ m. extension_view m ≡ kind_extension (kind self.now)) }
    {
        let metadata = MetadataV3::new(self.name_v3(alloc)?);
        match self {
            DataType::Optional(inner) => with_inner(alloc, metadata, &inner.written(alloc)?),
            _ => Ok(metadata),
        }
    }
}

/// Returns the name of the raw type of this size in bytes.
fn raw_name(alloc: Global, size: usize) -> Result<String, AllocError>
    ensures { IfOk result (λ name. string_bytes name ≡ 114 ∷ decimal (size * 8)) }
{
    let bits = size as u128 * 8;
    format!(in alloc; "r{bits}")
}

/// Returns the metadata with the inner type as its configuration.
fn with_inner(
    alloc: Global,
    metadata: MetadataV3,
    inner: &MetadataV3,
) -> Result<MetadataV3, AllocError>
    requires { settings (extension_view metadata) ≡ no_members }
    ensures { IfOk result (λ m. extension_view m ≡ record (extension_view metadata) {
      configuration = Some (inner_members (extension_view inner.now));
    }) }
{
    let name = Value::try_from_str(alloc, inner.name())?;
    let metadata = metadata.with_member(alloc, "name", name)?;
    match inner.configuration() {
        Some(members) => {
            metadata.with_member(alloc, "configuration", Value::Object(copied(members)?))
        }
        None => Ok(metadata),
    }
}
