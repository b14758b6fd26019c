//! The members of an array's metadata, each by itself.
ghost use Rattle.std.specs.Prelude.{◌≡◌, ◌<◌, ◌&&◌, false, option_map, unwrap_or};
ghost use Rattle.serde_json.specs.Find.{as_array};
ghost use Rattle.serde_json.specs.View.{view, items_view, members_view};
ghost use Rattle.cu_num.specs.Dtype.{size_of};
ghost use Rattle.cu_json.specs.Form.{each_item, is_list_of};
ghost use Rattle.cu_meta.specs.Members.{data_type_of, chunk_grid_of, encoding_of, endian_set, endian_of, are_attributes, is_text_or_null, are_dimension_names, are_no_transformers, names_array, names_chunks, names_optional, is_known, may_be_passed_over, are_understood};

use crate::part::{is_part_of, is_plain_part, part_name, setting};
use cu_grid::Grid;
use cu_json::{is_list_of, is_text};
use cu_meta_members::{separator_in, sizes_in};
use cu_num::{Dtype, Encoding, Endian, Sep, dtype_named, size};
use serde_json::{Map, Value};

/// The type that `data_type` names.
pub(crate) fn dtype_in(value: &Value) -> Option<Dtype>
    ensures { result ≡ data_type_of (view value.now) }
{
    if !is_plain_part(value) {
        return None;
    }
    dtype_named(part_name(value)?)
}

/// The grid that `shape` and `chunk_grid` say.
pub(crate) fn grid_in(dtype: Dtype, shape: &Value, part: &Value) -> Option<Grid>
    ensures { result ≡ chunk_grid_of dtype (view shape.now) (view part.now) }
{
    let sizes = sizes_in(shape)?;
    if !is_part_of(part, "regular", "chunk_shape") {
        return None;
    }
    let chunk = sizes_in(setting(part, "chunk_shape")?)?;
    Grid::make(sizes, chunk, item_size(dtype)).ok()
}

fn item_size(dtype: Dtype) -> u64
    ensures value { result ≡ size_of dtype }
    ensures positive { 0 < result }
{
    size(dtype)
}

/// The encoding that `chunk_key_encoding` names.
pub(crate) fn encoding_in(part: &Value) -> Option<Encoding>
    ensures { result ≡ encoding_of (view part.now) }
{
    if is_part_of(part, "default", "separator") {
        let sep = separator_in(Sep::Slash, setting(part, "separator"))?;
        return Some(Encoding::Plain(sep));
    }
    if is_part_of(part, "v2", "separator") {
        let sep = separator_in(Sep::Dot, setting(part, "separator"))?;
        return Some(Encoding::V2(sep));
    }
    None
}

fn endian_set(dtype: Dtype, value: Option<&Value>) -> Option<Endian>
    ensures { result ≡ endian_set dtype (option_map (λ v. view v.now) value.entry) }
{
    if value.is_none() {
        return if size(dtype) == 1 {
            Some(Endian::Little)
        } else {
            None
        };
    }
    if is_text(value, "little") {
        return Some(Endian::Little);
    }
    if is_text(value, "big") {
        return Some(if size(dtype) == 1 {
            Endian::Little
        } else {
            Endian::Big
        });
    }
    None
}

/// The byte order that `codecs` say.
pub(crate) fn endian_in(dtype: Dtype, codecs: &Value) -> Option<Endian>
    ensures { result ≡ endian_of dtype (view codecs.now) }
{
    if !is_list_of(codecs, 1) {
        return None;
    }
    let codec = codecs.get(0)?;
    if !is_part_of(codec, "bytes", "endian") {
        return None;
    }
    endian_set(dtype, setting(codec, "endian"))
}

/// Whether `attributes` are absent or an object.
pub(crate) fn are_attributes(value: Option<&Value>) -> bool
    ensures { result ≡ are_attributes (option_map (λ v. view v.now) value.entry) }
{
    match value {
        Some(found) => found.is_object(),
        None => true,
    }
}

fn is_text_or_null(value: &Value) -> bool
    ensures { result ≡ is_text_or_null (view value.now) }
{
    value.is_string() || value.is_null()
}

fn are_texts_or_nulls(items: &Vec<Value>) -> bool
    ensures { result ≡ each_item is_text_or_null (items_view items.now.items) }
{
    for item in items {
        if !is_text_or_null(item) {
            return false;
        }
    }
    true
}

fn is_list_of_names(rank: u32, value: &Value) -> bool
    ensures { result ≡ is_list_of rank (view value.now) && unwrap_or (option_map (each_item is_text_or_null) (as_array (view value.now))) false }
{
    if !is_list_of(value, rank as usize) {
        return false;
    }
    match value.as_array() {
        Some(items) => are_texts_or_nulls(items),
        None => false,
    }
}

/// Whether `dimension_names` are absent, null, or a text or null for each axis.
pub(crate) fn are_dimension_names(rank: u32, value: Option<&Value>) -> bool
    ensures { result ≡ are_dimension_names rank (option_map (λ v. view v.now) value.entry) }
{
    match value {
        Some(found) => found.is_null() || is_list_of_names(rank, found),
        None => true,
    }
}

/// Whether `storage_transformers` are absent or an empty list.
pub(crate) fn are_no_transformers(value: Option<&Value>) -> bool
    ensures { result ≡ are_no_transformers (option_map (λ v. view v.now) value.entry) }
{
    match value {
        Some(found) => is_list_of(found, 0),
        None => true,
    }
}

/// Whether this is the name of a member that says what the array is.
fn names_array(key: &str) -> bool
    ensures { result ≡ names_array key.now }
{
    key == "zarr_format" || key == "node_type" || key == "shape" || key == "data_type"
}

/// Whether this is the name of a member that says how the chunks are stored.
fn names_chunks(key: &str) -> bool
    ensures { result ≡ names_chunks key.now }
{
    key == "chunk_grid" || key == "chunk_key_encoding" || key == "fill_value" || key == "codecs"
}

/// Whether this is the name of a member that may be absent.
fn names_optional(key: &str) -> bool
    ensures { result ≡ names_optional key.now }
{
    key == "attributes" || key == "dimension_names" || key == "storage_transformers"
}

/// Whether this is the name of one of the eleven members.
#[tactic(auto, using(crate::proofs::KnownMembers::by_groups))]
fn is_known(key: &str) -> bool
    ensures { result ≡ is_known key.now }
{
    names_array(key) || names_chunks(key) || names_optional(key)
}

fn may_be_passed_over(value: &Value) -> bool
    ensures { result ≡ may_be_passed_over (view value.now) }
{
    match value.get("must_understand") {
        Some(found) => found.as_bool() == Some(false),
        None => false,
    }
}

/// Whether each member is one of the eleven, or may be passed over.
pub(crate) fn are_understood(members: &Map<String, Value>) -> bool
    ensures { result ≡ are_understood (members_view members.now.entries) }
{
    for (key, value) in members.iter() {
        if !is_known(key.as_str()) && !may_be_passed_over(value) {
            return false;
        }
    }
    true
}
