//! The entries of an index.
ghost use Rattle.std.specs.Prelude.{◌≡◌, []};
ghost use Rattle.cu_result.specs.Results.{need};
ghost use Rattle.serde_json.specs.View.{view, items_view};
ghost use Rattle.cu_read.specs.Lists.{entries_after, entries_of};
ghost use Rattle.cu_read.specs.Faults.{Gives};
ghost use Rattle.cu_read.specs.IndexItem.{index_word, slice_part, slice_of, index_item_of};
ghost use Rattle.cu_read.specs.Rows.{required};

use crate::faults::{NodeCode, NodeRefused};
use crate::members::present;
use crate::rows::list;
use cu_form::{IndexItem, Items};
use cu_json::is_object_of;
use serde_json::Value;
use std::alloc::Global;

fn index_word(text: &str) -> Option<IndexItem>
    ensures { result ≡ index_word text.now }
{
    match text {
        "new" => Some(IndexItem::New),
        "..." => Some(IndexItem::Ellipsis),
        _ => None,
    }
}

/// A bound or the step of a slice, which may be absent or null.
fn slice_part(value: &Value, name: &str) -> Option<Option<i64>>
    ensures { result ≡ slice_part name.now (view value.now) }
{
    let Some(found) = value.get(name) else {
        return Some(None);
    };
    if found.is_null() {
        return Some(None);
    }
    Some(Some(found.as_i64()?))
}

fn slice_of(value: &Value) -> Option<IndexItem>
    ensures { result ≡ slice_of (view value.now) }
{
    let count = present(value, "start") + present(value, "stop") + present(value, "step");
    if !is_object_of(value, count) {
        return None;
    }
    let start = slice_part(value, "start")?;
    let stop = slice_part(value, "stop")?;
    let step = slice_part(value, "step")?;
    Some(IndexItem::Slice { start, stop, step })
}

fn index_item_of(value: &Value) -> Option<IndexItem>
    ensures { result ≡ index_item_of (view value.now) }
{
    if let Some(place) = value.as_i64() {
        return Some(IndexItem::At(place));
    }
    if let Some(text) = value.as_str() {
        return index_word(text);
    }
    slice_of(value)
}

fn index_items_in(alloc: Global, items: &Vec<Value>) -> Result<Items<IndexItem>, NodeRefused>
    ensures { Gives result (need (entries_after index_item_of [] (items_view items.now.items)) NodeCode.Form) }
{
    let mut entries = Vec::new(alloc);
    for item in items {
        let Some(entry) = index_item_of(item) else {
            return Err(NodeRefused::Code(NodeCode::Form));
        };
        if entries.push(entry).is_err() {
            return Err(NodeRefused::NoMemory);
        }
    }
    Ok(Items::make(entries))
}

/// The entries of the index at a member.
pub(crate) fn index_items(
    alloc: Global,
    value: &Value,
    name: &str,
) -> Result<Items<IndexItem>, NodeRefused>
    ensures { Gives result (required (entries_of index_item_of) name.now (view value.now)) }
{
    index_items_in(alloc, list(value, name)?)
}
