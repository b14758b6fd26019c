//! The load form: the JSON text by which one array is given.
ghost use Rattle.std.specs.Prelude.{◌≡◌, ◌≤◌, ◌<◌, ◌^◌, ◌==◌, [], codes, Ok, Err, Some, None, IfOk, IfErr, IfSome, option_map, option_and_then, if◌then◌else◌, is_none};
ghost use Rattle.std.specs.Result.{result_map_both};
ghost use Rattle.serde_json.specs.Find.{get};
ghost use Rattle.serde_json.specs.Read.{read};
ghost use Rattle.serde_json.specs.View.{view, items_view};
ghost use Rattle.cu_num.specs.Dtype.{size_of};
ghost use Rattle.cu_shape.specs.Index.{product};
ghost use Rattle.cu_grid.specs.Limits.{first_fault};
ghost use Rattle.cu_num.specs.TypeName.{dtype_named};
ghost use Rattle.cu_load.specs.Name.{name_in};
ghost use Rattle.cu_load.specs.LoadForm.{head_view, given_by, IfCode, text_member, list_member, has_form, sizes_at, elements_after, head_in, array_in, load_of, IsGivenArray};

use cu_grid::Grid;
use cu_json::is_object_of;
use cu_meta_members::{fill_in, sizes_in};
use cu_name::{IdText, is_name};
use cu_num::{Dtype, Encoding, Endian, Sep, dtype_named, size};
use cu_op::Layout;
use cu_shape::Dims;
use serde_json::Value;
use std::alloc::Global;
use std::str;

/// The most bytes of the text.
const TEXT_BYTES: usize = 1_048_576;

/// The code of a text that is no JSON value.
const NO_VALUE: u8 = 1;

/// The code of a value that isn't an object of the five members, two texts and three lists.
const NO_FORM: u8 = 2;

/// The code of a name that isn't one.
const NO_NAME: u8 = 3;

/// The code of a type that isn't one of the nine.
const NO_TYPE: u8 = 4;

/// The code of a shape and a chunk shape that aren't a grid.
const NO_GRID: u8 = 5;

/// The code of a count of elements that isn't the shape's.
const NO_COUNT: u8 = 6;

/// The code of an element that isn't one of the type.
const NO_ELEMENT: u8 = 7;

/// The code of a text of more than 1,048,576 bytes.
const TOO_LONG: u8 = 8;

/// The name and the layout of an array.
#[derive(Clone, Copy)]
struct Head {
    name: IdText,
    layout: Layout,
}

/// An array that is given by a text, or else made to be stored.
#[derive(Drop)]
pub struct LoadForm {
    /// The name under which the array is stored.
    pub name: IdText,
    /// How it is stored: keys as `c/0`, the lower bytes first, and fill value 0.
    pub layout: Layout,
    /// Its elements in row-major order.
    pub elements: Vec<i128>,
}

/// Why a text gave no array.
#[derive(Clone, Copy, Debug, PartialEq, Eq)]
pub(crate) enum LoadRefused {
    /// The text isn't an array's: the first of 8 longer than 1,048,576 bytes, 1 no JSON value, 2 another form, 3 the name,
    /// 4 the type, 5 the grid, 6 the count of the elements, 7 an element of another kind or out of the type's range.
    Code(u8),
    /// Memory was wanted and not had.
    NoMemory,
}

/// The array that a text says. The text is a JSON object such as
/// `{"name":"a","data_type":"int32","shape":[6],"chunk_shape":[4],"elements":[1,2,3,4,5,6]}`, with exactly these members;
/// the elements are in row-major order, and are `true` or `false` for bool.
pub(crate) fn read_load(alloc: Global, text: &[u8]) -> Result<LoadForm, LoadRefused>
    ensures ok { IfOk result (λ f. load_of text.now ≡ Ok (given_by f)) }
    ensures code { IfErr result (λ e. IfCode e (λ code. load_of text.now ≡ Err code)) }
    ensures given { IfOk result (λ f. IsGivenArray (given_by f)) }
{
    if text.len() > TEXT_BYTES {
        return Err(LoadRefused::Code(TOO_LONG));
    }
    let Ok(text) = str::from_utf8(text) else {
        return Err(LoadRefused::Code(NO_VALUE));
    };
    let value = value_in(alloc, text)?;
    array_in(alloc, &value)
}

fn value_in(alloc: Global, text: &str) -> Result<Value, LoadRefused>
    ensures ok { IfOk result (λ v. read text.now ≡ Some (view v)) }
    ensures code { IfErr result (λ e. IfCode e (λ code. (code ≡ 1) × (read text.now ≡ None))) }
{
    match Value::from_str(alloc, text) {
        Ok(value) => Ok(value),
        Err(e) if e.is_memory() => Err(LoadRefused::NoMemory),
        Err(_) => Err(LoadRefused::Code(NO_VALUE)),
    }
}

fn array_in(alloc: Global, value: &Value) -> Result<LoadForm, LoadRefused>
    ensures ok { IfOk result (λ f. array_in (view value.now) ≡ Ok (given_by f)) }
    ensures code { IfErr result (λ e. IfCode e (λ code. array_in (view value.now) ≡ Err code)) }
{
    let Head { name, layout } = match head_in(value) {
        Ok(head) => head,
        Err(code) => return Err(LoadRefused::Code(code)),
    };
    let Some(items) = list_member(value, "elements") else {
        return Err(LoadRefused::Code(NO_FORM));
    };
    if !is_count_of(&layout.grid, items.len()) {
        return Err(LoadRefused::Code(NO_COUNT));
    }
    let elements = elements_in(alloc, layout.dtype, items)?;
    Ok(LoadForm {
        name,
        layout,
        elements,
    })
}

/// The name that stands at a member of a value.
fn name_at(value: &Value, key: &str) -> Option<IdText>
    ensures { result ≡ name_in (get key.now (view value.now)) }
{
    let text = value.get(key)?.as_str()?;
    if !is_name(text) {
        return None;
    }
    IdText::make(text)
}

/// The name and the layout, or the first code.
fn head_in(value: &Value) -> Result<Head, u8>
    ensures head { result_map_both head_view (λ code. code) result ≡ head_in (view value.now) }
    ensures small { IfOk result (λ h. product h.layout.grid.shape ≤ 2 ^ 40) }
{
    if !has_form(value) {
        return Err(NO_FORM);
    }
    let name = name_at(value, "name").ok_or(NO_NAME)?;
    let dtype = dtype_at(value).ok_or(NO_TYPE)?;
    let shape = sizes_at(value, "shape").ok_or(NO_GRID)?;
    let chunk = sizes_at(value, "chunk_shape").ok_or(NO_GRID)?;
    let grid = grid_of(dtype, shape, chunk).ok_or(NO_GRID)?;
    let layout = Layout {
        dtype,
        grid,
        encoding: Encoding::Plain(Sep::Slash),
        endian: Endian::Little,
        fill: 0,
    };
    Ok(Head { name, layout })
}

/// Whether the value has exactly the five members, two texts and three lists.
fn has_form(value: &Value) -> bool
    ensures { result ≡ has_form (view value.now) }
{
    is_object_of(value, 5)
        && text_member(value, "name").is_some()
        && text_member(value, "data_type").is_some()
        && list_member(value, "shape").is_some()
        && list_member(value, "chunk_shape").is_some()
        && list_member(value, "elements").is_some()
}

fn text_member<'v>(value: &'v Value, name: &str) -> Option<&'v str>
    ensures { option_map (λ s. s.now) result ≡ text_member name.now (view value.now) }
{
    value.get(name)?.as_str()
}

fn list_member<'v>(value: &'v Value, name: &str) -> Option<&'v Vec<Value>>
    ensures { option_map (λ v. items_view v.now.items) result ≡ list_member name.now (view value.now) }
{
    value.get(name)?.as_array()
}

/// The type that the member `data_type` names.
fn dtype_at(value: &Value) -> Option<Dtype>
    ensures { result ≡ option_and_then dtype_named (text_member (codes "data_type") (view value.now)) }
{
    dtype_named(text_member(value, "data_type")?)
}

/// The sizes of at most six axes that stand at a member.
fn sizes_at(value: &Value, name: &str) -> Option<Dims>
    ensures { result ≡ sizes_at name.now (view value.now) }
{
    sizes_in(value.get(name)?)
}

fn grid_of(dtype: Dtype, shape: Dims, chunk: Dims) -> Option<Grid>
    ensures grid { result ≡ (if is_none (first_fault shape chunk (size_of dtype)) then Some (record { shape = shape; chunk = chunk }) else None) }
    ensures small { IfSome result (λ g. product g.shape ≤ 2 ^ 40) }
{
    Grid::make(shape, chunk, item_size(dtype)).ok()
}

/// The bytes of an element.
fn item_size(dtype: Dtype) -> u64
    ensures value { result ≡ size_of dtype }
    ensures positive { 0 < result }
{
    size(dtype)
}

/// Whether the array has so many elements.
fn is_count_of(grid: &Grid, count: usize) -> bool
    requires { product grid.now.shape ≤ 2 ^ 40 }
    ensures { result ≡ (count == product grid.now.shape) }
{
    match grid.shape().elements() {
        Some(elements) => count as u64 == elements,
        None => false,
    }
}

/// The elements of a list.
fn elements_in(alloc: Global, dtype: Dtype, items: &Vec<Value>) -> Result<Vec<i128>, LoadRefused>
    ensures ok { IfOk result (λ xs. elements_after dtype [] (items_view items.now.items) ≡ Some xs.items) }
    ensures code { IfErr result (λ e. IfCode e (λ code. (code ≡ 7) × (elements_after dtype [] (items_view items.now.items) ≡ None))) }
{
    let mut elements = Vec::new(alloc);
    for item in items {
        let Some(element) = fill_in(dtype, item) else {
            return Err(LoadRefused::Code(NO_ELEMENT));
        };
        if elements.push(element).is_err() {
            return Err(LoadRefused::NoMemory);
        }
    }
    Ok(elements)
}
