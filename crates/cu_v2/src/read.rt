//! Reading a `.zarray`.
ghost use Rattle.std.specs.Prelude.{◌≡◌, ◌≤◌, Ok, Err, IfOk, IfErr, Some, None, option_map, length};
ghost use Rattle.std.specs.Result.{result_map_both};
ghost use Rattle.serde_json.specs.Read.{read};
ghost use Rattle.serde_json.specs.View.{view};
ghost use Rattle.cu_op.specs.Layout.{layout_view};
ghost use Rattle.cu_v2.specs.Fault.{v2_view, no_member, IfV2Fault};
ghost use Rattle.cu_v2.specs.ReadSteps.{held_view, held_members, held_layout, zarray_by_steps};
ghost use Rattle.cu_v2.specs.Zarray.{held_member, zarray_layout};

use crate::fault::{V2Fault, V2Refused};
use crate::members::{element_in, fill_or_null, grid_in, is_uncoded};
use arrayvec::ArrayString;
use cu_json::{is_number, is_text};
use cu_meta_members::separator_in;
use cu_num::{Encoding, Sep};
use cu_op::Layout;
use serde_json::Value;
use std::alloc::Global;
use std::str;

/// The most bytes of the text.
const TEXT_BYTES: usize = 1_048_576;

/// The layout of a stored array of Zarr version 2, from the text of its `.zarray`, or the first fault.
pub fn read_zarray(alloc: Global, bytes: &[u8]) -> Result<Layout, V2Refused>
    ensures ok { IfOk result (λ l. zarray_layout bytes.now ≡ Ok (layout_view l)) }
    ensures fault { IfErr result (λ e. IfV2Fault e (λ f. zarray_layout bytes.now ≡ Err (v2_view f))) }
{
    if bytes.len() > TEXT_BYTES {
        return Err(V2Refused::Fault(V2Fault::TooLong));
    }
    let Ok(text) = str::from_utf8(bytes) else {
        return Err(V2Refused::Fault(V2Fault::Json));
    };
    let value = value_in(alloc, text)?;
    refused(layout_in(&value))
}

/// The same answer, with its fault as a refusal.
fn refused(answer: Result<Layout, V2Fault>) -> Result<Layout, V2Refused>
    ensures { result ≡ result_map_both (λ l. l) (λ f. V2Refused.Fault f) answer }
{
    match answer {
        Ok(layout) => Ok(layout),
        Err(fault) => Err(V2Refused::Fault(fault)),
    }
}

fn value_in(alloc: Global, text: &str) -> Result<Value, V2Refused>
    ensures ok { IfOk result (λ v. read text.now ≡ Some (view v)) }
    ensures fault { IfErr result (λ e. IfV2Fault e (λ f. (f ≡ V2Fault.Json) × (read text.now ≡ None))) }
{
    match Value::from_str(alloc, text) {
        Ok(value) => Ok(value),
        Err(e) if e.is_memory() => Err(V2Refused::NoMemory),
        Err(_) => Err(V2Refused::Fault(V2Fault::Json)),
    }
}

/// The fault of an absent member with this name.
fn fault_of(name: &str) -> V2Fault
    requires { length name.now ≤ 24 }
    ensures { v2_view result ≡ no_member name.now }
{
    match ArrayString::<24>::from(name) {
        Ok(name) => V2Fault::Field(name),
        Err(_) => unreachable!(),
    }
}

/// A member that has to be there.
fn member<'v>(value: &'v Value, name: &str) -> Result<&'v Value, V2Fault>
    requires { length name.now ≤ 24 }
    ensures { result_map_both (λ v. view v.now) v2_view result ≡ held_member name.now (view value.now) }
{
    match value.get(name) {
        Some(found) => Ok(found),
        None => Err(fault_of(name)),
    }
}

/// The members that have to be there.
#[derive(Clone, Copy)]
struct HeldMembers<'v> {
    shape: &'v Value,
    chunks: &'v Value,
    dtype: &'v Value,
    compressor: &'v Value,
    fill_value: &'v Value,
    order: &'v Value,
    filters: &'v Value,
}

fn held_in<'v>(value: &'v Value) -> Result<HeldMembers<'v>, V2Fault>
    ensures { result_map_both held_view v2_view result ≡ held_members (view value.now) }
{
    let shape = member(value, "shape")?;
    let chunks = member(value, "chunks")?;
    let dtype = member(value, "dtype")?;
    let compressor = member(value, "compressor")?;
    let fill_value = member(value, "fill_value")?;
    let order = member(value, "order")?;
    let filters = member(value, "filters")?;
    Ok(HeldMembers {
        shape,
        chunks,
        dtype,
        compressor,
        fill_value,
        order,
        filters,
    })
}

/// The layout that the members say, with this separator beside them.
fn held_layout(members: &HeldMembers<'_>, separator: Option<&Value>) -> Result<Layout, V2Fault>
    ensures { result_map_both layout_view v2_view result ≡ held_layout (held_view members.now) (option_map (λ v. view v.now) separator.entry) }
{
    let (dtype, endian) = element_in(members.dtype).ok_or(V2Fault::BadDtype)?;
    let grid = grid_in(dtype, members.shape, members.chunks).ok_or(V2Fault::BadGrid)?;
    if !is_uncoded(members.compressor, members.filters) {
        return Err(V2Fault::Coded);
    }
    if !is_text(Some(members.order), "C") {
        return Err(V2Fault::Order);
    }
    let fill = fill_or_null(dtype, members.fill_value).ok_or(V2Fault::Fill)?;
    let sep = separator_in(Sep::Dot, separator).ok_or(V2Fault::Separator)?;
    Ok(Layout {
        dtype,
        grid,
        encoding: Encoding::V2(sep),
        endian,
        fill,
    })
}

fn layout_in(value: &Value) -> Result<Layout, V2Fault>
    ensures { result_map_both layout_view v2_view result ≡ zarray_by_steps (view value.now) }
{
    if !value.is_object() {
        return Err(V2Fault::Json);
    }
    if !is_number(value.get("zarr_format"), 2) {
        return Err(V2Fault::Format);
    }
    held_layout(&held_in(value)?, value.get("dimension_separator"))
}
