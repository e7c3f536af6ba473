//! The V3 document of an array (Zarr V3 core specification, array metadata), from and to stored bytes.
//!
//! The layers above use `ArrayMetadataV3`, the names of its dimensions (`DimensionName`), and its additional fields
//! (`AdditionalFieldV3`); `copied_dimension_names` and `copied_fields` copy these two. `zarrs_metadata_v2` and
//! `zarrs_metadata` use `members`, which reads and writes members of objects by name. `reasons` says why bytes were
//! refused, and what is known and not supported.
//!
//! `document_view` of `specs/View.antt` gives the `DocumentData` of a document. `specs/Document.antt` has that
//! record, the JSON values that read as one (`document_of`), and the bytes that are written for one
//! (`IsDocumentText`). What is written reads as the same document, in its normal form (`normal_document`).
//! `specs/Fields.antt` has the additional fields, `specs/Members.antt` the members, and `specs/Refusals.antt` says
//! why a document is refused.
#![tactic(auto)]

mod copying;
mod document;
mod fields;
pub mod members;
mod numbers;
mod reading;
pub mod reasons;
mod unread;
mod writing;

pub use copying::copied_dimension_names;
pub use document::{ArrayMetadataV3, DimensionName};
pub use fields::{AdditionalFieldV3, AdditionalFieldsV3, copied_fields};
pub use numbers::holds_float;
pub use unread::Unread;
