//! The parts of an array's metadata that are named: the type, the grid, the encoding of the keys, the codec.
ghost use Rattle.std.specs.Prelude.{◌≡◌, ◌&&◌, codes, option_map, option_and_then};
ghost use Rattle.serde_json.specs.Find.{get, as_object};
ghost use Rattle.serde_json.specs.View.{view, members_view};
ghost use Rattle.cu_json.specs.Form.{each_member};
ghost use Rattle.cu_meta.specs.Part.{is_part_member, is_part, part_name, has_name, configuration_member, sets_at_most, sets_nothing, is_part_of};

use cu_json::{each_named, is_object_of};
use serde_json::{Map, Value};

/// Whether an object that names a part may hold this member.
fn is_part_member(key: &str, value: &Value) -> bool
    ensures { result ≡ is_part_member key.now (view value.now) }
{
    (key == "name" && value.is_string())
        || (key == "configuration" && value.is_object())
        || (key == "must_understand" && value.is_boolean())
}

fn are_part_members(members: &Map<String, Value>) -> bool
    ensures { result ≡ each_member is_part_member (members_view members.now.entries) }
{
    for (key, value) in members.iter() {
        if !is_part_member(key.as_str(), value) {
            return false;
        }
    }
    true
}

fn is_part(value: &Value) -> bool
    ensures { result ≡ is_part (view value.now) }
{
    match value.as_object() {
        Some(members) => are_part_members(members),
        None => value.is_string(),
    }
}

/// The name of a part.
pub(crate) fn part_name(value: &Value) -> Option<&str>
    ensures { option_map (λ s. s.now) result ≡ part_name (view value.now) }
{
    match value.as_str() {
        Some(name) => Some(name),
        None => value.get("name")?.as_str(),
    }
}

fn has_name(value: &Value, name: &str) -> bool
    ensures { result ≡ has_name name.now (view value.now) }
{
    match part_name(value) {
        Some(found) => found == name,
        None => false,
    }
}

/// A member of a part's configuration.
pub(crate) fn setting<'v>(value: &'v Value, key: &str) -> Option<&'v Value>
    ensures { option_map (λ v. view v.now) result ≡ configuration_member key.now (view value.now) }
{
    value.get("configuration")?.get(key)
}

fn configuration(value: &Value) -> Option<&Map<String, Value>>
    ensures { option_map (λ m. members_view m.now.entries) result ≡ option_and_then as_object (get (codes "configuration") (view value.now)) }
{
    value.get("configuration")?.as_object()
}

fn sets_at_most(value: &Value, key: &str) -> bool
    ensures { result ≡ sets_at_most key.now (view value.now) }
{
    match configuration(value) {
        Some(members) => each_named(members, key),
        None => true,
    }
}

fn sets_nothing(value: &Value) -> bool
    ensures { result ≡ sets_nothing (view value.now) }
{
    match value.get("configuration") {
        Some(members) => !members.is_object() || is_object_of(members, 0),
        None => true,
    }
}

/// Whether the value is a part that sets nothing.
pub(crate) fn is_plain_part(value: &Value) -> bool
    ensures { result ≡ is_part (view value.now) && sets_nothing (view value.now) }
{
    is_part(value) && sets_nothing(value)
}

/// Whether the value is the part of this name, with at most this one setting.
pub(crate) fn is_part_of(value: &Value, name: &str, key: &str) -> bool
    ensures { result ≡ is_part_of name.now key.now (view value.now) }
{
    is_part(value) && has_name(value, name) && sets_at_most(value, key)
}
