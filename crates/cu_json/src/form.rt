//! Tests of a value.
ghost use Rattle.std.specs.Prelude.{◌≡◌};
ghost use Rattle.serde_json.specs.View.{view, members_view};
ghost use Rattle.cu_json.specs.Form.{is_text, is_number, is_list_of, is_object_of, each_named};
ghost use Rattle.std.specs.Prelude.{option_map};

use serde_json::{Map, Value};

/// Whether the value is there and is this text.
pub fn is_text(value: Option<&Value>, text: &str) -> bool
    ensures { result ≡ is_text text.now (option_map (λ v. view v.now) value.entry) }
{
    match value {
        Some(found) => found.as_str() == Some(text),
        None => false,
    }
}

/// Whether the value is there and is this number, written with no point and no exponent.
pub fn is_number(value: Option<&Value>, number: u64) -> bool
    ensures { result ≡ is_number number (option_map (λ v. view v.now) value.entry) }
{
    match value {
        Some(found) => found.as_u64() == Some(number),
        None => false,
    }
}

/// Whether the value is a list of so many items.
pub fn is_list_of(value: &Value, count: usize) -> bool
    ensures { result ≡ is_list_of count (view value.now) }
{
    match value.as_array() {
        Some(items) => items.as_slice().len() == count,
        None => false,
    }
}

/// Whether the value is an object of so many members.
pub fn is_object_of(value: &Value, count: usize) -> bool
    ensures { result ≡ is_object_of count (view value.now) }
{
    match value.as_object() {
        Some(members) => members.len() == count,
        None => false,
    }
}

/// Whether each member has this name.
pub fn each_named(members: &Map<String, Value>, name: &str) -> bool
    ensures { result ≡ each_named name.now (members_view members.now.entries) }
{
    for (key, _value) in members.iter() {
        if key.as_str() != name {
            return false;
        }
    }
    true
}
