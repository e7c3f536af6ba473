//! The small parts that documents of arrays are made of, read from and written to JSON values.
//!
//! The layers above use `MetadataV3`, an extension point: a name, a configuration, and whether it must be understood.
//! They also use `FillValueMetadata`, `DataTypeMetadataV2` and `ChunkKeySeparator`, and functions over JSON lists of
//! numbers, sizes and extension points. `MetadataError` says why a JSON value is not metadata, and `PluginCreateError`
//! why no part of an array was made from metadata.
//!
//! `specs/Extension.antt` has `ExtensionData`: `extension_view` gives that of a `MetadataV3`, `extension_of` that of
//! a JSON value, and `extension_data` writes it. `specs/FillValue.antt`, `specs/TypesV2.antt`,
//! `specs/Separator.antt`, `specs/Lists.antt` and `specs/Members.antt` have the other parts, and
//! `specs/Refusals.antt` the refusals.
#![tactic(auto)]

mod data_type;
mod error;
mod extension;
mod fill_value;
mod lists;
pub mod members;
mod separators;
mod types_v2;

pub use data_type::DataTypeMetadataV2;
pub use error::{MetadataError, PluginCreateError};
pub use extension::MetadataV3;
pub use fill_value::FillValueMetadata;
pub use lists::{
    extensions, extensions_value, numbers, numbers_value, one_item, size, sizes, sizes_value,
    sole_item,
};
pub use separators::ChunkKeySeparator;
pub use types_v2::{EndianV2, KindV2, TypeV2};
