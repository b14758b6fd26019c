//! The members of an array's metadata that both versions have, each by itself.
ghost use Rattle.std.specs.Prelude.{◌≡◌, ◌≤◌, [], option_map, length};
ghost use Rattle.serde_json.specs.View.{view, items_view};
ghost use Rattle.cu_json.specs.Form.{naturals_of, naturals_after};
ghost use Rattle.cu_meta_members.specs.Members.{separator_of, within, whole_of, fill_of};

use arrayvec::ArrayVec;
use cu_json::is_text;
use cu_num::{Dtype, Sep, greatest, least};
use cu_shape::Dims;
use serde_json::Value;

/// The most axes of an array.
const MOST_AXES: usize = 6;

/// The numbers of a list of at most six.
pub fn sizes_in(value: &Value) -> Option<Dims>
    ensures { result ≡ naturals_of 6 (view value.now) }
{
    let Some(items) = value.as_array() else {
        return None;
    };
    if items.len() > MOST_AXES {
        return None;
    }
    naturals(items)
}

fn naturals(items: &Vec<Value>) -> Option<Dims>
    requires { length items.now.items ≤ 6 }
    ensures { result ≡ naturals_after [] (items_view items.now.items) }
{
    let mut numbers = ArrayVec::<u64, 6>::new();
    for item in items {
        numbers.try_push(item.as_u64()?).ok()?;
    }
    Dims::make(numbers.as_slice()).ok()
}

/// The separator of the keys of chunks that a member says, and the usual one if it is absent.
pub fn separator_in(usual: Sep, value: Option<&Value>) -> Option<Sep>
    ensures { result ≡ separator_of usual (option_map (λ v. view v.now) value.entry) }
{
    if value.is_none() {
        return Some(usual);
    }
    if is_text(value, "/") {
        return Some(Sep::Slash);
    }
    if is_text(value, ".") {
        return Some(Sep::Dot);
    }
    None
}

fn is_within(dtype: Dtype, x: i128) -> bool
    ensures { result ≡ within dtype x }
{
    !(x < least(dtype)) && !(greatest(dtype) < x)
}

/// The number of the type that an integer says.
pub fn whole_in(dtype: Dtype, value: &Value) -> Option<i128>
    ensures { result ≡ whole_of dtype (view value.now) }
{
    let x = value.as_number()?.as_i128()?;
    if is_within(dtype, x) { Some(x) } else { None }
}

/// The element that `fill_value` says.
pub fn fill_in(dtype: Dtype, value: &Value) -> Option<i128>
    ensures { result ≡ fill_of dtype (view value.now) }
{
    match dtype {
        Dtype::Bool => match value.as_bool()? {
            true => Some(1),
            false => Some(0),
        },
        _ => whole_in(dtype, value),
    }
}
