//! Views whose axes are moved or turned.
ghost use Rattle.std.specs.List.{list_all};
ghost use Rattle.std.specs.Prelude.{◌≡◌, int_le, pos, ◌≤◌, IfOk, length, slice_index, option_map};
ghost use Rattle.cu_shape.specs.Slice.{at_least_zero};
ghost use Rattle.cu_node.specs.Info.{IsInfo};
ghost use Rattle.cu_typing_view.specs.Rearranged.{are_axes, is_permutation, permuted_sizes, typed_same, typed_triangle, typed_permute, typed_flip, typed_roll};

use cu_node::{FaultCode, NodeFault, NodeInfo, fault, named_axes, within_limits};
use cu_shape::Dims;

/// The lower or upper triangle of the last two axes, and 0 elsewhere. The first of these faults is answered: Axis where there
/// are fewer than two axes, Limit.
pub fn type_triangle(array: &NodeInfo) -> Result<NodeInfo, NodeFault>
    requires { IsInfo array.now }
    ensures value { result ≡ typed_triangle array.now }
    ensures kept { IfOk result IsInfo }
{
    if array.dims.rank() < 2 {
        return Err(fault(FaultCode::Axis));
    }
    type_same(array)
}

/// The axes in another order, which names each once from 0 on. The first of these faults is answered: Axis, Limit.
pub fn type_permute(array: &NodeInfo, axes: &[i64]) -> Result<NodeInfo, NodeFault>
    requires { IsInfo array.now }
    ensures value { result ≡ typed_permute array.now axes.now }
    ensures kept { IfOk result IsInfo }
{
    if !is_permutation(array.dims.rank(), axes) {
        return Err(fault(FaultCode::Axis));
    }
    within_limits(
        true,
        array.dtype,
        permuted(axes, &array.dims),
        permuted(axes, &array.chunk),
    )
}

/// The elements in the other order along these axes, or along all. The first of these faults is answered: Axis where one is no
/// axis or is named twice, Limit.
pub fn type_flip(array: &NodeInfo, axes: Option<&[i64]>) -> Result<NodeInfo, NodeFault>
    requires { IsInfo array.now }
    ensures value { result ≡ typed_flip array.now (option_map (λ a. a.now) axes.entry) }
    ensures kept { IfOk result IsInfo }
{
    if !are_axes(array.dims.rank(), axes) {
        return Err(fault(FaultCode::Axis));
    }
    type_same(array)
}

/// The elements moved along axes by as many places as the shifts say. The first of these faults is answered: Axis where there
/// is not a shift for each axis, or one is no axis or is named twice, Limit.
pub fn type_roll(array: &NodeInfo, shifts: &[i64], axes: &[i64]) -> Result<NodeInfo, NodeFault>
    requires { IsInfo array.now }
    ensures value { result ≡ typed_roll array.now shifts.now axes.now }
    ensures kept { IfOk result IsInfo }
{
    if shifts.len() != axes.len() {
        return Err(fault(FaultCode::Axis));
    }
    if named_axes(axes, array.dims.rank()).is_none() {
        return Err(fault(FaultCode::Axis));
    }
    type_same(array)
}

/// An array with the type, shape and chunk shape of another.
fn type_same(array: &NodeInfo) -> Result<NodeInfo, NodeFault>
    requires { IsInfo array.now }
    ensures value { result ≡ typed_same array.now }
    ensures kept { IfOk result IsInfo }
{
    within_limits(true, array.dtype, array.dims, array.chunk)
}

/// Whether a list names distinct axes of an array of this rank; no list stands for all axes.
fn are_axes(rank: u32, axes: Option<&[i64]>) -> bool
    requires { rank ≤ 6 }
    ensures { result ≡ are_axes rank (option_map (λ a. a.now) axes.entry) }
{
    match axes {
        Some(numbers) => named_axes(numbers, rank).is_some(),
        None => true,
    }
}

/// Whether a list names each axis of an array of this rank once, from 0 on.
fn is_permutation(rank: u32, axes: &[i64]) -> bool
    requires { rank ≤ 6 }
    ensures { result ≡ is_permutation rank axes.now }
{
    if axes.len() != rank as usize {
        return false;
    }
    if !are_from_zero(axes) {
        return false;
    }
    named_axes(axes, rank).is_some()
}

/// Whether no number is negative.
fn are_from_zero(axes: &[i64]) -> bool
    ensures { result ≡ list_all (λ d. int_le (pos 0) d) axes.now }
{
    axes.iter().all(|axis| 0 <= *axis)
}

/// The number on an axis, 0 on one that is not there.
fn number_on(axis: i64, numbers: &Dims) -> u64
    ensures { result ≡ slice_index numbers.now (at_least_zero axis) }
{
    let axis = axis.max(0);
    if axis < numbers.rank() as i64 {
        numbers.at(axis as u32)
    } else {
        0
    }
}

/// The numbers on these axes, in their order.
fn permuted(axes: &[i64], numbers: &Dims) -> Dims
    requires { length axes.now ≤ 6 }
    ensures { result ≡ permuted_sizes axes.now numbers.now }
{
    let mut moved = Dims::default();
    for axis in axes {
        moved.push(number_on(*axis, numbers));
    }
    moved
}
