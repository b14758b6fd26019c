//! Lists at a member of a node.
ghost use Rattle.std.specs.Prelude.{◌≡◌, [], None, pos, int_lt, count_by};
ghost use Rattle.std.specs.List.{list_all};
ghost use Rattle.cu_node.specs.NewShape.{is_size, is_new_size, are_new_sizes};
ghost use Rattle.cu_form.specs.Form.{is_chunk_size};
ghost use Rattle.cu_result.specs.Results.{need};
ghost use Rattle.serde_json.specs.View.{view, items_view};
ghost use Rattle.cu_read.specs.Lists.{entries_after};
ghost use Rattle.cu_read.specs.Faults.{Gives};
ghost use Rattle.cu_read.specs.Members.{integer_of, integers_of, natural_of, sizes_of, chunk_sizes_of, new_sizes_of, or_null};
ghost use Rattle.cu_read.specs.Rows.{required, optional};

use crate::faults::{NodeCode, NodeRefused};
use crate::members::{chunk_size_of, size_of};
use crate::rows::list;
use cu_form::Items;
use serde_json::Value;
use std::alloc::Global;

/// The most elements on an axis of `reshape`.
const MOST_NEW_SIZE: i64 = 0x100_0000_0000;

fn integers_in(alloc: Global, items: &Vec<Value>) -> Result<Items<i64>, NodeRefused>
    ensures { Gives result (need (entries_after integer_of [] (items_view items.now.items)) NodeCode.Form) }
{
    let mut integers = Vec::new(alloc);
    for item in items {
        let Some(integer) = item.as_i64() else {
            return Err(NodeRefused::Code(NodeCode::Form));
        };
        if integers.push(integer).is_err() {
            return Err(NodeRefused::NoMemory);
        }
    }
    Ok(Items::make(integers))
}

fn sizes_in(alloc: Global, items: &Vec<Value>) -> Result<Items<u64>, NodeRefused>
    ensures { Gives result (need (entries_after (natural_of is_size) [] (items_view items.now.items)) NodeCode.Form) }
{
    let mut sizes = Vec::new(alloc);
    for item in items {
        let Some(size) = size_of(item) else {
            return Err(NodeRefused::Code(NodeCode::Form));
        };
        if sizes.push(size).is_err() {
            return Err(NodeRefused::NoMemory);
        }
    }
    Ok(Items::make(sizes))
}

fn chunk_sizes_in(alloc: Global, items: &Vec<Value>) -> Result<Items<u64>, NodeRefused>
    ensures { Gives result (need (entries_after (natural_of is_chunk_size) [] (items_view items.now.items)) NodeCode.Form) }
{
    let mut sizes = Vec::new(alloc);
    for item in items {
        let Some(size) = chunk_size_of(item) else {
            return Err(NodeRefused::Code(NodeCode::Form));
        };
        if sizes.push(size).is_err() {
            return Err(NodeRefused::NoMemory);
        }
    }
    Ok(Items::make(sizes))
}

/// The integers of the list at a member.
pub(crate) fn integers(alloc: Global, value: &Value, name: &str) -> Result<Items<i64>, NodeRefused>
    ensures { Gives result (required integers_of name.now (view value.now)) }
{
    integers_in(alloc, list(value, name)?)
}

/// The sizes of an array at a member.
pub(crate) fn sizes(alloc: Global, value: &Value, name: &str) -> Result<Items<u64>, NodeRefused>
    ensures { Gives result (required sizes_of name.now (view value.now)) }
{
    sizes_in(alloc, list(value, name)?)
}

/// The sizes of a chunk at a member.
pub(crate) fn chunk_sizes(
    alloc: Global,
    value: &Value,
    name: &str,
) -> Result<Items<u64>, NodeRefused>
    ensures { Gives result (required chunk_sizes_of name.now (view value.now)) }
{
    chunk_sizes_in(alloc, list(value, name)?)
}

fn is_new_size(size: i64) -> bool
    ensures { result ≡ is_new_size size }
{
    size == -1 || (size >= 0 && size <= MOST_NEW_SIZE)
}

fn each_new_size(shape: &[i64]) -> bool
    ensures { result ≡ list_all is_new_size shape.now }
{
    shape.iter().all(|size| is_new_size(*size))
}

fn left_sizes(shape: &[i64]) -> usize
    ensures { result ≡ count_by (λ x. int_lt x (pos 0)) shape.now }
{
    shape.iter().filter(|size| **size < 0).count()
}

fn are_new_sizes(shape: &[i64]) -> bool
    ensures { result ≡ are_new_sizes shape.now }
{
    each_new_size(shape) && left_sizes(shape) <= 1
}

/// The sizes of `reshape` at a member, of which one may be -1.
pub(crate) fn new_sizes(alloc: Global, value: &Value, name: &str) -> Result<Items<i64>, NodeRefused>
    ensures { Gives result (required new_sizes_of name.now (view value.now)) }
{
    let shape = integers_in(alloc, list(value, name)?)?;
    if are_new_sizes(shape.as_slice()) {
        Ok(shape)
    } else {
        Err(NodeRefused::Code(NodeCode::Form))
    }
}

/// The integers of the list at a member; none where the member is absent or null.
pub(crate) fn integers_or_null(
    alloc: Global,
    value: &Value,
    name: &str,
) -> Result<Option<Items<i64>>, NodeRefused>
    ensures { Gives result (optional None (or_null integers_of) name.now (view value.now)) }
{
    let Some(found) = value.get(name) else {
        return Ok(None);
    };
    if found.is_null() {
        return Ok(None);
    }
    let Some(items) = found.as_array() else {
        return Err(NodeRefused::Code(NodeCode::Form));
    };
    let integers = integers_in(alloc, items)?;
    Ok(Some(integers))
}
