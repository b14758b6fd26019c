//! Arrays that are joined along an axis.
ghost use Rattle.std.specs.Prelude.{◌≡◌, ◌<◌, ◌≤◌, All, IfOk, length, sum_by, slice_index};
ghost use Rattle.std.specs.List.{list_all};
ghost use Rattle.cu_node.specs.Info.{IsInfo, info_at};
ghost use Rattle.cu_typing_view.specs.Pieces.{promoted, same_shape, same_off, concat_along, stack_along, typed_concat, typed_stack};

use cu_node::{
    FaultCode, NodeFault, NodeInfo, axis_of, fault, fault_at, info_at, size_at, within_limits,
};
use cu_num::{Dtype, promote};
use cu_shape::Dims;

/// From one to eight arrays, one behind the other along an axis, in chunks as the first has them. The first of these faults is
/// answered: Promote where the types have no common type, Axis where the number names no axis of the first array, Shape where
/// the ranks differ or the sizes on another axis, Limit.
pub fn type_concat(args: &[NodeInfo], axis: i64) -> Result<NodeInfo, NodeFault>
    requires some { 0 < length args.now }
    requires few { length args.now ≤ 8 }
    requires kept { All IsInfo args.now }
    ensures value { result ≡ typed_concat args.now axis }
    ensures kept { IfOk result IsInfo }
{
    let first = first_of(args);
    let t = promoted(args).ok_or(fault(FaultCode::Promote))?;
    let axis = axis_of(axis, first.dims.rank()).ok_or(fault(FaultCode::Axis))?;
    concat_along(t, axis, args)
}

/// The arrays one behind the other along an axis, as arrays of this type.
fn concat_along(t: Dtype, axis: u32, args: &[NodeInfo]) -> Result<NodeInfo, NodeFault>
    requires some { 0 < length args.now }
    requires few { length args.now ≤ 8 }
    requires kept { All IsInfo args.now }
    requires axis { axis < length (info_at args.now 0).dims }
    ensures value { result ≡ concat_along t axis args.now }
    ensures kept { IfOk result IsInfo }
{
    let first = first_of(args);
    if !are_same_off(axis, &first.dims, args) {
        return Err(fault(FaultCode::Shape));
    }
    let shape = first.dims.changed(axis, sum_on(axis, args));
    within_limits(true, t, shape, first.chunk)
}

/// From one to eight arrays, one behind the other along a new axis, in chunks as the first has them and of one array each. The
/// first of these faults is answered: Promote where the types have no common type, Axis where the number names no place for an
/// axis, Shape where the shapes differ, Limit.
pub fn type_stack(args: &[NodeInfo], axis: i64) -> Result<NodeInfo, NodeFault>
    requires some { 0 < length args.now }
    requires few { length args.now ≤ 8 }
    requires kept { All IsInfo args.now }
    ensures value { result ≡ typed_stack args.now axis }
    ensures kept { IfOk result IsInfo }
{
    let first = first_of(args);
    let t = promoted(args).ok_or(fault(FaultCode::Promote))?;
    let axis = axis_of(axis, first.dims.rank() + 1).ok_or(fault(FaultCode::Axis))?;
    stack_along(t, axis, args)
}

/// The arrays one behind the other along a new axis, as arrays of this type.
fn stack_along(t: Dtype, axis: u32, args: &[NodeInfo]) -> Result<NodeInfo, NodeFault>
    requires some { 0 < length args.now }
    requires few { length args.now ≤ 8 }
    requires kept { All IsInfo args.now }
    requires axis { axis ≤ length (info_at args.now 0).dims }
    ensures value { result ≡ stack_along t axis args.now }
    ensures kept { IfOk result IsInfo }
{
    let first = first_of(args);
    if !are_same(&first.dims, args) {
        return Err(fault(FaultCode::Shape));
    }
    if first.dims.rank() == 6 {
        return Err(fault_at(FaultCode::Limit, 1));
    }
    let shape = first.dims.inserted(axis, args.len() as u64);
    within_limits(true, t, shape, first.chunk.inserted(axis, 1))
}

/// The first of the arrays.
fn first_of(args: &[NodeInfo]) -> NodeInfo
    requires some { 0 < length args.now }
    requires kept { All IsInfo args.now }
    ensures value { result ≡ info_at args.now 0 }
    ensures kept { IsInfo result }
{
    info_at(args, 0)
}

/// The type to which the arrays are promoted, from the left.
fn promoted(args: &[NodeInfo]) -> Option<Dtype>
    ensures { result ≡ promoted args.now }
{
    let mut t = info_at(args, 0).dtype;
    for arg in args {
        t = promote(t, arg.dtype)?;
    }
    Some(t)
}

/// Whether two shapes are equal.
fn same_shape(a: &Dims, b: &Dims) -> bool
    ensures { result ≡ same_shape a.now b.now }
{
    a.is(b)
}

/// Whether each array has this shape.
fn are_same(shape: &Dims, args: &[NodeInfo]) -> bool
    ensures { result ≡ list_all (λ i. same_shape shape.now i.dims) args.now }
{
    args.iter().all(|arg| same_shape(shape, &arg.dims))
}

/// Whether two shapes have one rank and equal sizes on each axis but this.
fn same_off(axis: u32, a: &Dims, b: &Dims) -> bool
    requires { axis < length a.now }
    ensures { result ≡ same_off axis a.now b.now }
{
    if b.rank() != a.rank() {
        return false;
    }
    same_shape(&a.changed(axis, 0), &b.changed(axis, 0))
}

/// Whether each array has the rank of this shape and its sizes on each axis but this.
fn are_same_off(axis: u32, shape: &Dims, args: &[NodeInfo]) -> bool
    requires { axis < length shape.now }
    ensures { result ≡ list_all (λ i. same_off axis shape.now i.dims) args.now }
{
    args.iter().all(|arg| same_off(axis, shape, &arg.dims))
}

/// The sum of the sizes on an axis.
fn sum_on(axis: u32, args: &[NodeInfo]) -> u64
    requires few { length args.now ≤ 8 }
    requires kept { All IsInfo args.now }
    ensures { result ≡ sum_by (λ i. slice_index i.dims axis) args.now }
{
    let mut sum = 0;
    for arg in args {
        sum += small_size(axis, arg);
    }
    sum
}

/// The size on an axis, 0 on one that is not there.
fn small_size(axis: u32, arg: &NodeInfo) -> u64
    requires { IsInfo arg.now }
    ensures value { result ≡ slice_index arg.now.dims axis }
    ensures small { result ≤ 1099511627776 }
{
    size_at(&arg.dims, axis)
}
