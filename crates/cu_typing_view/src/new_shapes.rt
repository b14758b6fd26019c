//! Views that have as many elements in another shape.
ghost use Rattle.std.specs.Prelude.{◌≡◌, ◌==◌, ◌||◌, not, ◌+◌, ◌<◌, ◌≤◌, ◌++◌, IfOk, length};
ghost use Rattle.cu_node.specs.Info.{IsInfo};
ghost use Rattle.cu_typing_view.specs.NewShapes.{are_single, unless_marked, unmarked, typed_expand, typed_squeeze, typed_new_shape};

use crate::reshaped::type_reshape;
use cu_node::{
    FaultCode, NewShape, NodeFault, NodeInfo, axis_of, fault, fault_at, named_axes, within_limits,
};
use cu_shape::Dims;

/// The same elements in row-major order in another shape: that of `reshape`, `expand_dims` or `squeeze`, or the first fault of each.
pub fn type_new_shape(array: &NodeInfo, shape: &NewShape) -> Result<NodeInfo, NodeFault>
    requires { IsInfo array.now }
    ensures value { result ≡ typed_new_shape array.now shape.now }
    ensures kept { IfOk result IsInfo }
{
    match shape {
        NewShape::Sizes(sizes) => type_reshape(array, sizes.as_slice()),
        NewShape::Expanded(axis) => type_expand(array, *axis),
        NewShape::Squeezed(axes) => type_squeeze(array, axes.as_slice()),
    }
}

/// An axis of size 1 put in, in chunks of size 1 along it. The first of these faults is answered: Axis where the number names
/// no place for an axis, Limit.
fn type_expand(array: &NodeInfo, axis: i64) -> Result<NodeInfo, NodeFault>
    requires { IsInfo array.now }
    ensures value { result ≡ typed_expand array.now axis }
    ensures kept { IfOk result IsInfo }
{
    let rank = array.dims.rank();
    let axis = axis_of(axis, rank + 1).ok_or(fault(FaultCode::Axis))?;
    if rank == 6 {
        return Err(fault_at(FaultCode::Limit, 1));
    }
    within_limits(
        true,
        array.dtype,
        array.dims.inserted(axis, 1),
        array.chunk.inserted(axis, 1),
    )
}

/// Axes of size 1 taken out. The first of these faults is answered: Axis where one is no axis, is named twice or has another
/// size, Limit.
fn type_squeeze(array: &NodeInfo, axes: &[i64]) -> Result<NodeInfo, NodeFault>
    requires { IsInfo array.now }
    ensures value { result ≡ typed_squeeze array.now axes.now }
    ensures kept { IfOk result IsInfo }
{
    let marks = named_axes(axes, array.dims.rank()).ok_or(fault(FaultCode::Axis))?;
    if !are_single(&marks, &array.dims) {
        return Err(fault(FaultCode::Axis));
    }
    within_limits(
        true,
        array.dtype,
        unmarked(&marks, &array.dims),
        unmarked(&marks, &array.chunk),
    )
}

/// The numbers and one more, where it is not marked.
fn with_unmarked(left: &Dims, mark: bool, number: u64) -> Dims
    requires { length left.now < 6 }
    ensures more { result ≡ left.now ++ unless_marked mark number }
    ensures short { length result ≤ length left.now + 1 }
{
    if mark {
        return *left;
    }
    let mut more = *left;
    more.push(number);
    more
}

/// The numbers on the axes that are not marked.
fn unmarked(marks: &[bool; 6], numbers: &Dims) -> Dims
    ensures { result ≡ unmarked numbers.now marks.now }
{
    let mut left = Dims::default();
    for axis in 0..numbers.rank() {
        left = with_unmarked(&left, marks[axis as usize], numbers.at(axis));
    }
    left
}

/// Whether an axis is not marked or has size 1.
fn is_single(mark: bool, size: u64) -> bool
    ensures { result ≡ (not mark || size == 1) }
{
    !mark || size == 1
}

/// Whether each marked axis has size 1.
fn are_single(marks: &[bool; 6], sizes: &Dims) -> bool
    ensures { result ≡ are_single sizes.now marks.now }
{
    for axis in 0..sizes.rank() {
        if !is_single(marks[axis as usize], sizes.at(axis)) {
            return false;
        }
    }
    true
}
