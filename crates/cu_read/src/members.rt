//! The values that a member of a node may have.
ghost use Rattle.std.specs.Prelude.{◌≡◌};
ghost use Rattle.serde_json.specs.View.{view};
ghost use Rattle.cu_name.specs.Name.{is_name};
ghost use Rattle.cu_node.specs.NewShape.{is_size};
ghost use Rattle.cu_form.specs.Form.{is_written, is_chunk_size, is_group_count};
ghost use Rattle.cu_read.specs.Members.{passing, written_of, literal_of, natural_of, dtype_of, name_of, present};

use cu_form::Literal;
use cu_name::{IdText, is_name};
use cu_num::{Dtype, dtype_named};
use serde_json::Value;

/// The most elements on an axis.
const MOST_ELEMENTS: u64 = 0x100_0000_0000;

/// The most groups that labels may name.
const MOST_GROUPS: u64 = 65_536;

fn is_written(x: i128) -> bool
    ensures { result ≡ is_written x }
{
    !(x < i64::MIN as i128) && !((u64::MAX as i128) < x)
}

/// An integer from -2^63 to 2^64 - 1.
pub(crate) fn written_of(value: &Value) -> Option<i128>
    ensures { result ≡ written_of (view value.now) }
{
    let x = value.as_number()?.as_i128()?;
    if is_written(x) { Some(x) } else { None }
}

/// Such an integer, or a truth value.
pub(crate) fn literal_of(value: &Value) -> Option<Literal>
    ensures { result ≡ literal_of (view value.now) }
{
    match value.as_bool() {
        Some(truth) => Some(Literal::Truth(truth)),
        None => Some(Literal::Int(written_of(value)?)),
    }
}

/// A size of an axis.
pub(crate) fn size_of(value: &Value) -> Option<u64>
    ensures { result ≡ natural_of is_size (view value.now) }
{
    let size = value.as_u64()?;
    if size <= MOST_ELEMENTS {
        Some(size)
    } else {
        None
    }
}

fn is_chunk_size(size: u64) -> bool
    ensures { result ≡ is_chunk_size size }
{
    1 <= size && size <= MOST_ELEMENTS
}

/// A size of a chunk on an axis.
pub(crate) fn chunk_size_of(value: &Value) -> Option<u64>
    ensures { result ≡ natural_of is_chunk_size (view value.now) }
{
    let size = value.as_u64()?;
    if is_chunk_size(size) {
        Some(size)
    } else {
        None
    }
}

fn is_group_count(count: u64) -> bool
    ensures { result ≡ is_group_count count }
{
    1 <= count && count <= MOST_GROUPS
}

/// How many groups labels may name.
pub(crate) fn group_count_of(value: &Value) -> Option<u32>
    ensures { result ≡ natural_of is_group_count (view value.now) }
{
    let count = value.as_u64()?;
    if is_group_count(count) {
        Some(count as u32)
    } else {
        None
    }
}

/// The type with this name.
pub(crate) fn dtype_of(value: &Value) -> Option<Dtype>
    ensures { result ≡ dtype_of (view value.now) }
{
    dtype_named(value.as_str()?)
}

/// The text, where it is a name.
pub(crate) fn named(text: &str) -> Option<IdText>
    ensures { result ≡ passing is_name text.now }
{
    if is_name(text) {
        IdText::make(text)
    } else {
        None
    }
}

/// The name of an array.
pub(crate) fn name_of(value: &Value) -> Option<IdText>
    ensures { result ≡ name_of (view value.now) }
{
    named(value.as_str()?)
}

/// 1 where the member is there, else 0.
pub(crate) fn present(value: &Value, name: &str) -> usize
    ensures { result ≡ present name.now (view value.now) }
{
    if value.get(name).is_some() { 1 } else { 0 }
}
