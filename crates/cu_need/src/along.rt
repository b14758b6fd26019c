//! The axes and labels of prefix sums and of groups by labels.

ghost use Rattle.std.specs.Prelude.{◌≡◌};
ghost use Rattle.cu_need.specs.Along.{sum_axis, group_axis, labels_wanted};

use cu_copy::Rechunk;
use cu_node::{NodeInfo, axis_of, grown, size_at};
use cu_shape::Dims;
use cu_typing::summed_axis;

/// The axis along which is summed; 0 where there is none.
pub fn sum_axis(source: &NodeInfo, axis: Option<i64>) -> u32
    ensures { result ≡ sum_axis source.now axis }
{
    summed_axis(axis, source.dims.rank()).unwrap_or(0)
}

/// The axis on which the groups are; 0 where there is none.
pub fn group_axis(source: &NodeInfo, number: i64) -> u32
    ensures { result ≡ group_axis source.now number }
{
    axis_of(number, source.dims.rank()).unwrap_or(0)
}

/// The labels in the chunks of the array on the axis.
pub fn labels_wanted(source: &NodeInfo, number: i64, labels: &NodeInfo) -> Rechunk
    ensures { result ≡ labels_wanted source.now number labels.now }
{
    let axis = group_axis(source, number);
    Rechunk {
        source: *labels,
        chunk: grown(&Dims::default(), size_at(&source.chunk, axis)),
    }
}
