//! The members of an object, by name.
ghost use Rattle.std.specs.Prelude.{◌≡◌, [], ◌∷◌, map, option_map, IfOk};
ghost use Rattle.std.specs.Ordering.{nat_cmp, is_eq};
ghost use Rattle.std.specs.Cmp.Lexicographic.{slice_cmp};
ghost use Rattle.serde_json.specs.Find.{get_member, as_object};
ghost use Rattle.serde_json.specs.View.{view, members_view};
ghost use Rattle.zarrs_metadata_parts.specs.Members.{besides, is_named, has_only, nonempty};

use serde_json::{Map, Value};
use std::alloc::AllocError;

/// Removes the member of this name, and returns it.
pub fn take_member(members: &mut Map<String, Value>, name: &str) -> Option<Value>
    ensures found { option_map view result
        ≡ get_member name.now (members_view members.old.entries) }
    ensures left { members_view members.new.entries
        ≡ besides (name.now ∷ []) (members_view members.old.entries) }
{
    // `len` tells the proof that the names ascend.
    let _count = members.len();
    members.remove(name)
}

/// Returns a copy of the members.
///
/// # Errors
/// `AllocError`: out of memory.
pub fn copied(members: &Map<String, Value>) -> Result<Map<String, Value>, AllocError>
    ensures { IfOk result (λ m. members_view m.entries ≡ members_view members.now.entries) }
{
    members.clone()
}

/// Returns the members, if there is one.
pub(crate) fn kept(members: Map<String, Value>) -> Option<Map<String, Value>>
    ensures { option_map (λ m. members_view m.entries) result
        ≡ nonempty (members_view members.entries) }
{
    if members.is_empty() {
        None
    } else {
        Some(members)
    }
}

/// Returns the members of an object, or `None` for any other value.
pub fn object_of(value: Value) -> Option<Map<String, Value>>
    ensures { option_map (λ m. members_view m.entries) result ≡ as_object (view value) }
{
    match value {
        Value::Object(members) => Some(members),
        _ => None,
    }
}

fn is_same(name: &str, key: &str) -> bool
    ensures { result ≡ is_eq (slice_cmp nat_cmp name.now key.now) }
{
    name == key
}

fn is_one_of(names: &[&str], key: &str) -> bool
    ensures { result ≡ is_named (map (λ name. name.now) names.now) key.now }
{
    for name in names {
        if is_same(name, key) {
            return true;
        }
    }
    false
}

/// Returns whether each member has one of these names.
pub fn have_only(members: &Map<String, Value>, names: &[&str]) -> bool
    ensures { result ≡ has_only (map (λ name. name.now) names.now)
        (members_view members.now.entries) }
{
    for (key, _member) in members.iter() {
        if !is_one_of(names, key.as_str()) {
            return false;
        }
    }
    true
}
