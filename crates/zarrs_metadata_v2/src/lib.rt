//! The V2 document of an array (Zarr V2 storage specification), from and to stored bytes.
//!
//! The layers above use `ArrayMetadataV2`, the order of its cells (`ArrayMetadataV2Order`), and
//! `attributes_from_slice`, since V2 stores attributes at a key of their own. `reasons` says why bytes were refused.
//!
//! `document_v2_view` of `specs/View.antt` gives the `DocumentV2Data` of a document. `specs/Document.antt` has that
//! record, the JSON values that read as one (`document_v2_of`), and the bytes that are written for one
//! (`IsDocumentV2Text`). Attributes have bytes of their own (`IsAttributesText`).
#![tactic(auto)]

mod document;
mod order;
mod reading;
pub mod reasons;
mod text;
mod writing;

pub use document::ArrayMetadataV2;
pub use order::ArrayMetadataV2Order;
pub use text::attributes_from_slice;
pub use zarrs_metadata_parts::DataTypeMetadataV2;
