//! Why stored bytes are no document of a V2 array, or no attributes of one, as a text for people. It is made only once
//! they were refused.
use crate::reading::read_document;
use serde_json::{Map, Value};
use std::alloc::{AllocError, Global};
use zarrs_metadata_v3::members::member_of;
use zarrs_metadata_v3::reasons::{float_reason, members_from_slice, read_reason};

/// Returns why the bytes of `.zarray` are no V2 document: where they are no JSON, or the first member that is missing,
/// of another shape, or holds a number that is no integer of 64 bits. A float type is named as such.
///
/// # Errors
/// `AllocError`: out of memory.
pub fn document_reason(alloc: Global, bytes: &[u8]) -> Result<String, AllocError> {
    let members = match members_from_slice(alloc, bytes)? {
        Ok(members) => members,
        Err(reason) => return Ok(reason),
    };
    match float_reason(alloc, &members, named_type(&members))? {
        Some(reason) => Ok(reason),
        None => read_reason(alloc, read_document(alloc, members)),
    }
}

/// Returns why the bytes of `.zattrs` are no attributes.
///
/// # Errors
/// `AllocError`: out of memory.
pub fn attributes_reason(alloc: Global, bytes: &[u8]) -> Result<String, AllocError> {
    let members = match members_from_slice(alloc, bytes)? {
        Ok(members) => members,
        Err(reason) => return Ok(reason),
    };
    match float_reason(alloc, &members, None)? {
        Some(reason) => Ok(reason),
        None => String::from_str(alloc, "they are no attributes of a Zarr V2 array"),
    }
}

/// Returns the text of the data type, if it is one.
fn named_type(members: &Map<String, Value>) -> Option<&str> {
    member_of(members, "dtype")?.as_str()
}
