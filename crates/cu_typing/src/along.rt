//! Prefix sums and groups by labels, along one axis.
ghost use Rattle.std.specs.Prelude.{◌≡◌, ◌<◌, IfOk, IfSome, length};
ghost use Rattle.cu_node.specs.Info.{IsInfo};
ghost use Rattle.cu_typing.specs.Along.{summed_axis, typed_cumulative, are_labels, grouped_array, typed_groups};

use cu_node::{
    FaultCode, NodeFault, NodeInfo, axis_of, fault, fault_at, grown, is_chunk_within, is_integer,
    size_at, within_limits,
};
use cu_num::{FoldKind, fold_type};
use cu_shape::Dims;

/// The axis along which is summed: the one that is named, or the only one there is.
pub fn summed_axis(axis: Option<i64>, rank: u32) -> Option<u32>
    ensures axis { result ≡ summed_axis rank axis }
    ensures inside { IfSome result (λ a. a < rank) }
{
    match axis {
        Some(number) => axis_of(number, rank),
        None => if rank == 1 { Some(0) } else { None },
    }
}

/// The array that `cumulative_sum` gives, with the shape and the chunk of its argument; or the
/// node's first fault: Kind for bool, Axis where no axis is named and there isn't just one, or where
/// the number names none, Limit.
pub fn type_cumulative(axis: Option<i64>, i: &NodeInfo) -> Result<NodeInfo, NodeFault>
    requires { IsInfo i.now }
    ensures value { result ≡ typed_cumulative axis i.now }
    ensures kept { IfOk result IsInfo }
{
    if !is_integer(i.dtype) {
        return Err(fault(FaultCode::Kind));
    }
    if summed_axis(axis, i.dims.rank()).is_none() {
        return Err(fault(FaultCode::Axis));
    }
    within_limits(true, fold_type(FoldKind::Sum, i.dtype), i.dims, i.chunk)
}

/// Whether there is a label for each place of the axis.
fn are_labels(i: &NodeInfo, axis: u32, labels: &NodeInfo) -> bool
    ensures { result ≡ are_labels i.now axis labels.now }
{
    labels.dims.rank() == 1 && size_at(&labels.dims, 0) == size_at(&i.dims, axis)
}

/// The array of so many groups along the axis, where it has at most 5 axes and keeps the limits.
fn grouped_array(
    kind: FoldKind,
    groups: u32,
    axis: u32,
    i: &NodeInfo,
    labels: &NodeInfo,
) -> Result<NodeInfo, NodeFault>
    requires groups { 0 < groups }
    requires axis { axis < length i.now.dims }
    requires first { IsInfo i.now }
    ensures value { result ≡ grouped_array kind groups axis i.now labels.now }
    ensures kept { IfOk result IsInfo }
{
    if i.dims.rank() > 5 {
        return Err(fault_at(FaultCode::Limit, 1));
    }
    let aligned = grown(&Dims::default(), size_at(&i.chunk, axis));
    within_limits(
        is_chunk_within(labels.dtype, &aligned),
        fold_type(kind, i.dtype),
        i.dims.changed(axis, groups as u64),
        i.chunk.changed(axis, groups as u64),
    )
}

/// The array that a reduction by labels gives, with so many groups in place of the axis; or the
/// node's first fault: Kind for bool, Axis, Shape with the axis where there isn't a label for each
/// of its places, Limit; the result has at most 5 axes.
pub fn type_groups(
    kind: FoldKind,
    number: i64,
    groups: u32,
    i: &NodeInfo,
    labels: &NodeInfo,
) -> Result<NodeInfo, NodeFault>
    requires groups { 0 < groups }
    requires first { IsInfo i.now }
    ensures value { result ≡ typed_groups kind number groups i.now labels.now }
    ensures kept { IfOk result IsInfo }
{
    if !is_integer(i.dtype) || !is_integer(labels.dtype) {
        return Err(fault(FaultCode::Kind));
    }
    let axis = axis_of(number, i.dims.rank()).ok_or(fault(FaultCode::Axis))?;
    if !are_labels(i, axis, labels) {
        return Err(fault_at(FaultCode::Shape, axis));
    }
    grouped_array(kind, groups, axis, i, labels)
}
