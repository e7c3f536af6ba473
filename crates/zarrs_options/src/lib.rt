//! Options of the metadata of an array, and the errors of making and opening one.
//!
//! The layers above use `ArrayMetadataOptions` and the versions `MetadataConvertVersion`, `MetadataEraseVersion` and
//! `MetadataRetrieveVersion`. `ArrayCreateError` says why no array is made. `ArrayBuilderChunkGridMetadata` is a
//! chunk grid as a caller gives it.
//!
//! `options_view` of `specs/Options.antt` gives the `MetadataOptionsData` of options. `specs/Refusals.antt` has
//! `CreateRefusal`, the refusals E11 to E26, and `create_refusal_of`, that of an `ArrayCreateError`.
//! `specs/Errors.antt` says what the refusals of lower layers become. `grid_given` of `specs/Given.antt` is the
//! metadata of a chunk grid that is given.
#![tactic(auto)]

mod chunk_grid_metadata;
mod error;
mod options;
mod shapes;
mod texts;
mod transformers;
mod versions;

pub use chunk_grid_metadata::ArrayBuilderChunkGridMetadata;
pub use error::{AdditionalFieldUnsupportedError, ArrayCreateError};
pub use options::ArrayMetadataOptions;
pub use shapes::chunk_shape_to_array_shape;
pub use texts::extension_of_text;
pub use transformers::StorageTransformerChain;
pub use versions::{MetadataConvertVersion, MetadataEraseVersion, MetadataRetrieveVersion};
