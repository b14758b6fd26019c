//! What the rows of operators are made of: members, of which a wrong one is a fault of the node's form.
ghost use Rattle.std.specs.Prelude.{◌≡◌, None, false};
ghost use Rattle.std.specs.Result.{result_map_both};
ghost use Rattle.serde_json.specs.Find.{as_bool, as_array, as_str};
ghost use Rattle.serde_json.specs.View.{view, items_view};
ghost use Rattle.cu_form.specs.Form.{is_group_count};
ghost use Rattle.cu_node.specs.NewShape.{is_size};
ghost use Rattle.cu_read.specs.Members.{integer_of, written_of, literal_of, natural_of, dtype_of, name_of, or_null};
ghost use Rattle.cu_read.specs.Rows.{has_members, required, optional};

use crate::faults::NodeCode;
use crate::members::{dtype_of, group_count_of, literal_of, name_of, size_of, written_of};
use cu_form::Literal;
use cu_json::is_object_of;
use cu_name::IdText;
use cu_num::Dtype;
use serde_json::Value;

/// Refuses a node that hasn't so many members.
pub(crate) fn has_members(value: &Value, count: usize) -> Result<(), NodeCode>
    ensures { result ≡ has_members count (view value.now) }
{
    if is_object_of(value, count) {
        Ok(())
    } else {
        Err(NodeCode::Form)
    }
}

/// The text at a member.
pub(crate) fn text<'v>(value: &'v Value, name: &str) -> Result<&'v str, NodeCode>
    ensures { result_map_both (λ s. s.now) (λ e. e) result ≡ required as_str name.now (view value.now) }
{
    match value.get(name) {
        Some(found) => found.as_str().ok_or(NodeCode::Form),
        None => Err(NodeCode::Form),
    }
}

/// The list at a member.
pub(crate) fn list<'v>(value: &'v Value, name: &str) -> Result<&'v Vec<Value>, NodeCode>
    ensures { result_map_both (λ v. items_view v.now.items) (λ e. e) result ≡ required as_array name.now (view value.now) }
{
    match value.get(name) {
        Some(found) => found.as_array().ok_or(NodeCode::Form),
        None => Err(NodeCode::Form),
    }
}

/// The integer from -2^63 to 2^63 - 1 at a member.
pub(crate) fn integer(value: &Value, name: &str) -> Result<i64, NodeCode>
    ensures { result ≡ required integer_of name.now (view value.now) }
{
    match value.get(name) {
        Some(found) => found.as_i64().ok_or(NodeCode::Form),
        None => Err(NodeCode::Form),
    }
}

/// The size of an axis at a member.
pub(crate) fn size(value: &Value, name: &str) -> Result<u64, NodeCode>
    ensures { result ≡ required (natural_of is_size) name.now (view value.now) }
{
    match value.get(name) {
        Some(found) => size_of(found).ok_or(NodeCode::Form),
        None => Err(NodeCode::Form),
    }
}

/// The integer from -2^63 to 2^64 - 1 at a member.
pub(crate) fn written(value: &Value, name: &str) -> Result<i128, NodeCode>
    ensures { result ≡ required written_of name.now (view value.now) }
{
    match value.get(name) {
        Some(found) => written_of(found).ok_or(NodeCode::Form),
        None => Err(NodeCode::Form),
    }
}

/// How many groups labels may name, at a member.
pub(crate) fn group_count(value: &Value, name: &str) -> Result<u32, NodeCode>
    ensures { result ≡ required (natural_of is_group_count) name.now (view value.now) }
{
    match value.get(name) {
        Some(found) => group_count_of(found).ok_or(NodeCode::Form),
        None => Err(NodeCode::Form),
    }
}

/// The integer or truth value at a member.
pub(crate) fn literal(value: &Value, name: &str) -> Result<Literal, NodeCode>
    ensures { result ≡ required literal_of name.now (view value.now) }
{
    match value.get(name) {
        Some(found) => literal_of(found).ok_or(NodeCode::Form),
        None => Err(NodeCode::Form),
    }
}

/// The type at a member.
pub(crate) fn dtype(value: &Value, name: &str) -> Result<Dtype, NodeCode>
    ensures { result ≡ required dtype_of name.now (view value.now) }
{
    match value.get(name) {
        Some(found) => dtype_of(found).ok_or(NodeCode::Form),
        None => Err(NodeCode::Form),
    }
}

/// The name of an array at a member.
pub(crate) fn array_name(value: &Value, name: &str) -> Result<IdText, NodeCode>
    ensures { result ≡ required name_of name.now (view value.now) }
{
    match value.get(name) {
        Some(found) => name_of(found).ok_or(NodeCode::Form),
        None => Err(NodeCode::Form),
    }
}

/// The integer at a member; none where the member is absent or null.
pub(crate) fn integer_or_null(value: &Value, name: &str) -> Result<Option<i64>, NodeCode>
    ensures { result ≡ optional None (or_null integer_of) name.now (view value.now) }
{
    let Some(found) = value.get(name) else {
        return Ok(None);
    };
    if found.is_null() {
        return Ok(None);
    }
    match found.as_i64() {
        Some(integer) => Ok(Some(integer)),
        None => Err(NodeCode::Form),
    }
}

/// The truth value at a member; false where the member is absent.
pub(crate) fn truth_or_false(value: &Value, name: &str) -> Result<bool, NodeCode>
    ensures { result ≡ optional false as_bool name.now (view value.now) }
{
    match value.get(name) {
        Some(found) => found.as_bool().ok_or(NodeCode::Form),
        None => Ok(false),
    }
}
