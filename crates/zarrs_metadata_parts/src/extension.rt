//! Extension points: a name, a configuration, and whether it must be understood.
ghost use Rattle.std.specs.Prelude.{◌≡◌, map, option_map, string_bytes, IfOk, IfErr, Some, None};
ghost use Rattle.std.specs.Prelude.{option_and_then, true};
ghost use Rattle.serde_json.specs.Data.{object, put};
ghost use Rattle.serde_json.specs.View.{view, members_view};
ghost use Rattle.serde_json.specs.Find.{as_str, get_member};
ghost use Rattle.zarrs_metadata_parts.specs.Members.{has_only, nonempty};
ghost use Rattle.zarrs_metadata_parts.specs.Extension.{named, settings, extension_of, extension_from};
ghost use Rattle.zarrs_metadata_parts.specs.Extension.{extension_data, normal, configuration_from};
ghost use Rattle.zarrs_metadata_parts.specs.Extension.{must_understand_from, extension_with_member};

use crate::error::MetadataError;
use crate::members::{copied, have_only, kept, object_of, take_member};
use serde_json::{Map, Value};
use std::alloc::{AllocError, Global};

/// An extension point of a V3 document: a data type, a chunk grid, a chunk key encoding, a codec or
/// a storage transformer, by its name and its configuration (Zarr V3 core specification, extension
/// points).
#[derive(Debug, Drop)]
pub struct MetadataV3 {
    name: String,
    configuration: Option<Map<String, Value>>,
    must_understand: bool,
}

impl MetadataV3 {
    ghost use Rattle.zarrs_metadata_parts.specs.Extension.{extension_view, only_member};

    /// Makes an extension without configuration, which must be understood.
    pub fn new(name: String) -> MetadataV3
        ensures { extension_view result ≡ named (string_bytes name) }
    {
        MetadataV3 {
            name,
            configuration: None,
            must_understand: true,
        }
    }

    /// Makes an extension with a configuration, which must be understood.
    pub fn new_with_configuration(name: String, configuration: Map<String, Value>) -> MetadataV3
        ensures { extension_view result ≡ record {
          name = string_bytes name;
          configuration = Some (members_view configuration.entries);
          must_understand = true;
        } }
    {
        MetadataV3 {
            configuration: Some(configuration),
            ..MetadataV3::new(name)
        }
    }

    /// Returns the extension of this name with this one member in its configuration, which must be understood.
    ///
    /// # Errors
    /// `AllocError`: out of memory.
    pub fn with_one_member(
        alloc: Global,
        name: &str,
        key: &str,
        value: Value,
    ) -> Result<MetadataV3, AllocError>
        ensures { IfOk result (λ m. extension_view m
            ≡ extension_with_member name.now key.now (view value)) }
    {
        MetadataV3::new(String::from_str(alloc, name)?).with_member(alloc, key, value)
    }

    /// Returns its name.
    pub fn name(&self) -> &str
        ensures { result.now ≡ (extension_view self.now).name }
    {
        self.name.as_str()
    }

    /// Returns its configuration, by name of the member.
    pub fn configuration(&self) -> Option<&Map<String, Value>>
        ensures { option_map (λ c. members_view c.now.entries) result
            ≡ (extension_view self.now).configuration }
    {
        self.configuration.as_ref()
    }

    /// Returns whether a reader must understand it (Zarr V3 core specification, extension points).
    pub fn must_understand(&self) -> bool
        ensures { result ≡ (extension_view self.now).must_understand }
    {
        self.must_understand
    }

    /// Returns the member of this name of the configuration.
    pub fn member(&self, name: &str) -> Option<&Value>
        ensures { option_map (λ value. view value.now) result
            ≡ get_member name.now (settings (extension_view self.now)) }
    {
        self.configuration.as_ref()?.get(name)
    }

    /// Returns whether each member of the configuration has one of these names.
    pub fn has_only(&self, names: &[&str]) -> bool
        ensures { result ≡ has_only (map (λ name. name.now) names.now)
            (settings (extension_view self.now)) }
    {
        match self.configuration.as_ref() {
            Some(members) => have_only(members, names),
            None => true,
        }
    }

    /// Returns the one member of the configuration, if it has this name.
    pub fn only_member(&self, name: &str) -> Option<&Value>
        ensures { option_map (λ value. view value.now) result
            ≡ only_member name.now (settings (extension_view self.now)) }
    {
        if !self.has_only(&[name]) {
            return None;
        }
        self.member(name)
    }

    /// Puts the member into the configuration, in place of a present one of that name.
    ///
    /// # Errors
    /// `AllocError`: out of memory.
    pub fn with_member(
        self,
        alloc: Global,
        name: &str,
        value: Value,
    ) -> Result<MetadataV3, AllocError>
        ensures { IfOk result (λ m. extension_view m ≡ record (extension_view self) {
          configuration = Some (put name.now (view value) (settings (extension_view self)));
        }) }
    {
        let mut members = self.configuration.unwrap_or(Map::new(alloc));
        serde_json::put(&mut members, alloc, name, value)?;
        Ok(MetadataV3 {
            name: self.name,
            configuration: Some(members),
            must_understand: self.must_understand,
        })
    }

    /// Returns a copy.
    ///
    /// # Errors
    /// `AllocError`: out of memory.
    pub fn try_clone(&self) -> Result<MetadataV3, AllocError>
        ensures { IfOk result (λ copy. extension_view copy ≡ extension_view self.now) }
    {
        let name = self.name.clone()?;
        let configuration = match self.configuration.as_ref() {
            Some(members) => Some(copied(members)?),
            None => None,
        };
        Ok(MetadataV3 {
            name,
            configuration,
            must_understand: self.must_understand,
        })
    }

    /// Gives it another name.
    pub fn set_name(&mut self, name: String)
        ensures { extension_view self.new
            ≡ record (extension_view self.old) { name = string_bytes name } }
    {
        self.name = name;
    }

    /// Reads the extension point that a JSON value says: a text, its name, or an object of `name`, an
    /// optional `configuration` and an optional `must_understand`, and nothing else. An empty
    /// configuration counts as none. It allocates nothing.
    ///
    /// # Errors
    /// `InvalidShape` for any other value.
    pub fn from_value(value: Value) -> Result<MetadataV3, MetadataError>
        ensures read { IfOk result (λ m. extension_of (view value) ≡ Some (extension_view m)) }
        ensures refused { IfErr result (λ e. (e ≡ MetadataError.InvalidShape)
            × (extension_of (view value) ≡ None)) }
    {
        MetadataV3::from_data(value).ok_or(MetadataError::InvalidShape)
    }

    fn from_data(value: Value) -> Option<MetadataV3>
        ensures { option_map extension_view result ≡ extension_of (view value) }
    {
        match value {
            Value::String(name) => Some(MetadataV3::new(name)),
            Value::Object(members) => MetadataV3::from_members(members),
            _ => None,
        }
    }

    fn from_members(mut members: Map<String, Value>) -> Option<MetadataV3>
        ensures { option_map extension_view result
            ≡ extension_of (object (members_view members.entries)) }
    {
        let name = take_member(&mut members, "name");
        let configuration = take_member(&mut members, "configuration");
        let must_understand = take_member(&mut members, "must_understand");
        MetadataV3::from_parts(name, configuration, must_understand, members.is_empty())
    }

    fn from_parts(
        name: Option<Value>,
        configuration: Option<Value>,
        must_understand: Option<Value>,
        is_all: bool,
    ) -> Option<MetadataV3>
        ensures { option_map extension_view result ≡ extension_from (option_map view name)
            (option_map view configuration) (option_map view must_understand) is_all }
    {
        let name = text_of(name)?;
        let configuration = configuration_of(configuration)?;
        let must_understand = must_understand_of(must_understand)?;
        if !is_all {
            return None;
        }
        Some(MetadataV3 {
            name,
            configuration,
            must_understand,
        })
    }

    /// Returns the JSON value of this extension point: its name as a text if it has no configuration
    /// and must be understood, else an object. An empty configuration counts as none.
    ///
    /// # Errors
    /// `AllocError`: out of memory.
    pub fn to_value(&self, alloc: Global) -> Result<Value, AllocError>
        ensures written { IfOk result (λ v. view v ≡ extension_data (extension_view self.now)) }
        ensures reads_back { IfOk result (λ v. extension_of (view v)
            ≡ Some (normal (extension_view self.now))) }
    {
        let name = Value::try_from_str(alloc, self.name.as_str())?;
        let configuration = written_configuration(self.configuration.as_ref())?;
        if configuration.is_none() && self.must_understand {
            return Ok(name);
        }
        let mut members = Map::new(alloc);
        if let Some(configuration) = configuration {
            serde_json::put(&mut members, alloc, "configuration", configuration)?;
        }
        if !self.must_understand {
            serde_json::put(&mut members, alloc, "must_understand", Value::Bool(false))?;
        }
        serde_json::put(&mut members, alloc, "name", name)?;
        Ok(Value::Object(members))
    }
}

impl Clone for MetadataV3 {
    ghost use Rattle.zarrs_metadata_parts.specs.Extension.{extension_view};

    ghost is_clone = { λ metadata copy. extension_view copy ≡ extension_view metadata };

    fn clone(&self) -> Result<MetadataV3, AllocError> {
        self.try_clone()
    }
}

fn text_of(member: Option<Value>) -> Option<String>
    ensures { option_map string_bytes result ≡ option_and_then as_str (option_map view member) }
{
    match member {
        Some(Value::String(text)) => Some(text),
        _ => None,
    }
}

fn configuration_of(member: Option<Value>) -> Option<Option<Map<String, Value>>>
    ensures { option_map (option_map (λ c. members_view c.entries)) result
        ≡ configuration_from (option_map view member) }
{
    match member {
        None => Some(None),
        Some(value) => Some(kept(object_of(value)?)),
    }
}

fn must_understand_of(member: Option<Value>) -> Option<bool>
    ensures { result ≡ must_understand_from (option_map view member) }
{
    match member {
        None => Some(true),
        Some(Value::Bool(flag)) => Some(flag),
        Some(_) => None,
    }
}

/// Returns a configuration that has a member, as a value.
fn written_configuration(
    configuration: Option<&Map<String, Value>>,
) -> Result<Option<Value>, AllocError>
    ensures { IfOk result (λ v. option_map view v
        ≡ option_map object (option_and_then (λ c. nonempty (members_view c.now.entries))
        configuration.entry)) }
{
    match configuration {
        Some(members) if !members.is_empty() => Ok(Some(Value::Object(members.clone()?))),
        _ => Ok(None),
    }
}
