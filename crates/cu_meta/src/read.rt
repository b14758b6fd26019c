//! Reading the metadata of an array.
ghost use Rattle.std.specs.Prelude.{◌≡◌, ◌≤◌, ◌&&◌, codes, Ok, Err, IfOk, IfErr, Some, None, length};
ghost use Rattle.std.specs.Result.{result_map_both};
ghost use Rattle.cu_json.specs.Form.{is_number, is_text};
ghost use Rattle.serde_json.specs.Find.{get};
ghost use Rattle.serde_json.specs.Read.{read};
ghost use Rattle.serde_json.specs.View.{view, members_view};
ghost use Rattle.cu_op.specs.Layout.{layout_view};
ghost use Rattle.cu_meta.specs.Fault.{fault_view, field, IfMetaFault};
ghost use Rattle.cu_meta.specs.Metadata.{required_member, read_metadata};
ghost use Rattle.cu_meta.specs.ReadSteps.{required_view, required_members, said_layout, optional_members, layout_by_steps};

use crate::fault::{MetaFault, MetaRefused};
use crate::members::{
    are_attributes, are_dimension_names, are_no_transformers, are_understood, dtype_in,
    encoding_in, endian_in, grid_in,
};
use arrayvec::ArrayString;
use cu_json::{is_number, is_text};
use cu_meta_members::fill_in;
use cu_op::Layout;
use serde_json::{Map, Value};
use std::alloc::Global;
use std::str;

/// The most bytes of the text.
const TEXT_BYTES: usize = 1_048_576;

/// The layout of a stored array, from the text of its `zarr.json`, or the first fault.
pub fn read_meta(alloc: Global, bytes: &[u8]) -> Result<Layout, MetaRefused>
    ensures ok { IfOk result (λ l. read_metadata bytes.now ≡ Ok (layout_view l)) }
    ensures fault { IfErr result (λ e. IfMetaFault e (λ f. read_metadata bytes.now ≡ Err (fault_view f))) }
{
    if bytes.len() > TEXT_BYTES {
        return Err(MetaRefused::Fault(MetaFault::TooLong));
    }
    let Ok(text) = str::from_utf8(bytes) else {
        return Err(MetaRefused::Fault(MetaFault::Json));
    };
    let value = value_in(alloc, text)?;
    refused(layout_in(&value))
}

/// The same answer, with its fault as a refusal.
fn refused(answer: Result<Layout, MetaFault>) -> Result<Layout, MetaRefused>
    ensures { result ≡ result_map_both (λ l. l) (λ f. MetaRefused.Fault f) answer }
{
    match answer {
        Ok(layout) => Ok(layout),
        Err(fault) => Err(MetaRefused::Fault(fault)),
    }
}

fn value_in(alloc: Global, text: &str) -> Result<Value, MetaRefused>
    ensures ok { IfOk result (λ v. read text.now ≡ Some (view v)) }
    ensures fault { IfErr result (λ e. IfMetaFault e (λ f. (f ≡ MetaFault.Json) × (read text.now ≡ None))) }
{
    match Value::from_str(alloc, text) {
        Ok(value) => Ok(value),
        Err(e) if e.is_memory() => Err(MetaRefused::NoMemory),
        Err(_) => Err(MetaRefused::Fault(MetaFault::Json)),
    }
}

/// The fault of a member with this name.
fn fault_of(name: &str) -> MetaFault
    requires { length name.now ≤ 24 }
    ensures { fault_view result ≡ field name.now }
{
    match ArrayString::<24>::from(name) {
        Ok(name) => MetaFault::Field(name),
        Err(_) => MetaFault::Other,
    }
}

/// A member that has to be there.
fn member<'v>(value: &'v Value, name: &str) -> Result<&'v Value, MetaFault>
    requires { length name.now ≤ 24 }
    ensures { result_map_both (λ v. view v.now) fault_view result ≡ required_member name.now (view value.now) }
{
    match value.get(name) {
        Some(found) => Ok(found),
        None => Err(fault_of(name)),
    }
}

fn is_of_an_array(value: &Value) -> bool
    ensures { result ≡ is_number 3 (get (codes "zarr_format") (view value.now)) && is_text (codes "array") (get (codes "node_type") (view value.now)) }
{
    is_number(value.get("zarr_format"), 3) && is_text(value.get("node_type"), "array")
}

/// The members that have to be there.
#[derive(Clone, Copy)]
struct Required<'v> {
    shape: &'v Value,
    data_type: &'v Value,
    chunk_grid: &'v Value,
    chunk_key_encoding: &'v Value,
    fill_value: &'v Value,
    codecs: &'v Value,
}

fn required_in<'v>(value: &'v Value) -> Result<Required<'v>, MetaFault>
    ensures { result_map_both required_view fault_view result ≡ required_members (view value.now) }
{
    let shape = member(value, "shape")?;
    let data_type = member(value, "data_type")?;
    let chunk_grid = member(value, "chunk_grid")?;
    let chunk_key_encoding = member(value, "chunk_key_encoding")?;
    let fill_value = member(value, "fill_value")?;
    let codecs = member(value, "codecs")?;
    Ok(Required {
        shape,
        data_type,
        chunk_grid,
        chunk_key_encoding,
        fill_value,
        codecs,
    })
}

/// The layout that the members say.
fn said_layout(members: &Required<'_>) -> Result<Layout, MetaFault>
    ensures { result_map_both layout_view fault_view result ≡ said_layout (required_view members.now) }
{
    let dtype = dtype_in(members.data_type).ok_or(MetaFault::BadDtype)?;
    let grid = grid_in(dtype, members.shape, members.chunk_grid).ok_or(MetaFault::BadGrid)?;
    let encoding = encoding_in(members.chunk_key_encoding).ok_or(MetaFault::KeyEncoding)?;
    let fill = fill_in(dtype, members.fill_value).ok_or(MetaFault::Fill)?;
    let endian = endian_in(dtype, members.codecs).ok_or(MetaFault::Codec)?;
    Ok(Layout {
        dtype,
        grid,
        encoding,
        endian,
        fill,
    })
}

/// The members that may be there, at an array of so many axes.
fn check_optional(rank: u32, value: &Value, members: &Map<String, Value>) -> Result<(), MetaFault>
    ensures { result_map_both (λ u. u) fault_view result ≡ optional_members rank (view value.now) (members_view members.now.entries) }
{
    if !are_attributes(value.get("attributes")) {
        return Err(fault_of("attributes"));
    }
    if !are_dimension_names(rank, value.get("dimension_names")) {
        return Err(fault_of("dimension_names"));
    }
    if !are_no_transformers(value.get("storage_transformers")) {
        return Err(fault_of("storage_transformers"));
    }
    if !are_understood(members) {
        return Err(MetaFault::Unknown);
    }
    Ok(())
}

fn layout_in(value: &Value) -> Result<Layout, MetaFault>
    ensures { result_map_both layout_view fault_view result ≡ layout_by_steps (view value.now) }
{
    let members = value.as_object().ok_or(MetaFault::Json)?;
    if !is_of_an_array(value) {
        return Err(MetaFault::Format);
    }
    let layout = said_layout(&required_in(value)?)?;
    check_optional(layout.grid.shape().rank(), value, members)?;
    Ok(layout)
}
