//! Additional fields: members of a document under names that the standard does not know.
ghost use Rattle.std.specs.Prelude.{◌≡◌, codes, false, IfOk};
ghost use Rattle.serde_json.specs.Data.{object, boolean, put as with_member};
ghost use Rattle.serde_json.specs.View.{view, members_view};
ghost use Rattle.zarrs_metadata_v3.specs.Fields.{field_of, data_of_field, fields_of, fields_data};
ghost use Rattle.zarrs_metadata_v3.specs.Fields.{is_unneeded, without_flag, with_flag};
ghost use Rattle.zarrs_metadata_v3.specs.View.{field_view, fields_view};

use crate::members::take_member;
use serde_json::{Map, Value};
use std::alloc::{AllocError, Global};

/// A member of a document under a name that the standard does not know (Zarr V3 core
/// specification, array metadata, extensions). A reader must understand it unless it is an object
/// with `"must_understand": false`; that flag is no part of its value.
#[derive(Debug, Drop)]
pub struct AdditionalFieldV3 {
    value: Value,
    must_understand: bool,
}

/// The additional fields of a document, by name.
pub type AdditionalFieldsV3 = Map<String, AdditionalFieldV3>;

impl Clone for AdditionalFieldV3 {
    ghost is_clone = { λ field copy. field_view copy ≡ field_view field };

    fn clone(&self) -> Result<AdditionalFieldV3, AllocError> {
        Ok(AdditionalFieldV3 {
            value: self.value.clone()?,
            must_understand: self.must_understand,
        })
    }
}

impl AdditionalFieldV3 {
    /// Returns the field of this value, which is without its flag, and of this flag. Only an object
    /// is written with a flag: any other value is read again as one that must be understood.
    pub fn new(value: Value, must_understand: bool) -> AdditionalFieldV3
        ensures { field_view result
            ≡ record { value = view value; must_understand = must_understand } }
    {
        AdditionalFieldV3 {
            value,
            must_understand,
        }
    }

    /// Returns its value without the flag.
    pub fn as_value(&self) -> &Value
        ensures { view result.now ≡ (field_view self.now).value }
    {
        &self.value
    }

    /// Returns whether a reader must understand it.
    pub fn must_understand(&self) -> bool
        ensures { result ≡ (field_view self.now).must_understand }
    {
        self.must_understand
    }

    /// Reads the field that a JSON value is.
    pub fn from_value(value: Value) -> AdditionalFieldV3
        ensures { field_view result ≡ field_of (view value) }
    {
        if is_unneeded(&value) {
            AdditionalFieldV3::new(without_flag(value), false)
        } else {
            AdditionalFieldV3::new(value, true)
        }
    }

    /// Returns the JSON value of this field; an object gets its flag if that is false.
    ///
    /// # Errors
    /// `AllocError`: out of memory.
    pub fn to_value(&self, alloc: Global) -> Result<Value, AllocError>
        ensures { IfOk result (λ v. view v ≡ data_of_field (field_view self.now)) }
    {
        let value = self.value.clone()?;
        if self.must_understand {
            Ok(value)
        } else {
            with_flag(alloc, value)
        }
    }
}

fn is_unneeded(value: &Value) -> bool
    ensures { result ≡ is_unneeded (view value.now) }
{
    value.get("must_understand").and_then(Value::as_bool) == Some(false)
}

fn without_flag(value: Value) -> Value
    ensures { view result ≡ without_flag (view value) }
{
    match value {
        Value::Object(mut members) => {
            drop(take_member(&mut members, "must_understand"));
            Value::Object(members)
        }
        other => other,
    }
}

fn with_flag(alloc: Global, value: Value) -> Result<Value, AllocError>
    ensures { IfOk result (λ v. view v ≡ with_flag (view value)) }
{
    match value {
        Value::Object(members) => flagged(alloc, members),
        other => Ok(other),
    }
}

fn flagged(alloc: Global, mut members: Map<String, Value>) -> Result<Value, AllocError>
    ensures { IfOk result (λ v. view v ≡ object
        (with_member (codes "must_understand") (boolean false) (members_view members.entries))) }
{
    serde_json::put(&mut members, alloc, "must_understand", Value::Bool(false))?;
    Ok(Value::Object(members))
}

/// Reads the fields that these members are.
pub(crate) fn read_fields(
    alloc: Global,
    members: Map<String, Value>,
) -> Result<AdditionalFieldsV3, AllocError>
    ensures { IfOk result (λ fields. fields_view fields.entries
        ≡ fields_of (members_view members.entries)) }
{
    // `len` tells the proof that the names ascend.
    let _count = members.len();
    let mut fields = Map::new(alloc);
    for (name, value) in members {
        drop(fields.insert(name, AdditionalFieldV3::from_value(value))?);
    }
    Ok(fields)
}

/// Returns the members that are written for these fields.
pub(crate) fn written_fields(
    alloc: Global,
    fields: &AdditionalFieldsV3,
) -> Result<Map<String, Value>, AllocError>
    ensures { IfOk result (λ members. members_view members.entries
        ≡ fields_data (fields_view fields.now.entries)) }
{
    let mut members = Map::new(alloc);
    for (name, field) in fields.iter() {
        let value = field.to_value(alloc)?;
        drop(members.insert(name.clone()?, value)?);
    }
    Ok(members)
}

/// Returns a copy of the fields.
///
/// # Errors
/// `AllocError`: out of memory.
pub fn copied_fields(fields: &AdditionalFieldsV3) -> Result<AdditionalFieldsV3, AllocError>
    ensures { IfOk result (λ copy. fields_view copy.entries ≡ fields_view fields.now.entries) }
{
    fields.clone()
}
