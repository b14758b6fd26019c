//! Prefix sums at an index of the result.
ghost use Rattle.std.specs.Prelude.{◌≡◌, ◌<◌, length};
ghost use Rattle.cu_num.specs.Dtype.{IsInteger};
ghost use Rattle.cu_num.specs.Wrap.{wrapped};
ghost use Rattle.cu_semantics.specs.Along.{line_axis, along, sum_up_to};
ghost use Rattle.cu_mean.specs.Reading.{named_element};

use crate::axes::axis_in;
use crate::reading::{NamedArrays, source};
use crate::reductions::sum_with;
use cu_num::Dtype;
use cu_shape::Dims;

/// The axis along which is summed: the one that is named, or the first.
pub(crate) fn line_axis(rank: u32, axis: Option<i64>) -> u32
    ensures { result ≡ line_axis rank axis }
{
    match axis {
        Some(number) => axis_in(rank, number),
        None => 0,
    }
}

/// The element at a place of the line through an index.
pub(crate) fn element_on(arrays: &NamedArrays<'_>, axis: u32, idx: &Dims, place: u64) -> i128
    requires { axis < length idx.now }
    ensures { result ≡ along (named_element arrays.now 0) axis idx.now place }
{
    source(arrays.plains, arrays.args, 0, &idx.changed(axis, place))
}

/// The sum of the elements of the line through an index, up to it, wrapped to the type.
pub(crate) fn sum_up_to(t: Dtype, arrays: &NamedArrays<'_>, axis: u32, idx: &Dims) -> i128
    requires integer { IsInteger t }
    requires axis { axis < length idx.now }
    ensures { result ≡ wrapped t (sum_up_to (named_element arrays.now 0) axis idx.now) }
{
    let last = idx.at(axis);
    let mut total = 0;
    for place in 0..last {
        let x = element_on(arrays, axis, idx, place);
        total = sum_with(t, x, total);
    }
    sum_with(t, element_on(arrays, axis, idx, last), total)
}
