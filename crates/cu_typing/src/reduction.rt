ghost use Rattle.std.specs.Prelude.{◌≡◌, ◌<◌, ◌≤◌, ◌+◌, ◌==◌, ◌&&◌, IfOk, length, option_map, ◌++◌};
ghost use Rattle.cu_shape.specs.Index.{product};
ghost use Rattle.cu_node.specs.Info.{IsInfo};
ghost use Rattle.cu_typing.specs.Reduction.{needs_element, marks_of, reduced_sizes, kept_size, kept_sizes, reduced, typed_reduction, typed_arg_place};

use cu_node::{
    FaultCode, NodeFault, NodeInfo, all_axes, fault, grown, is_integer, named_axes, within_limits,
};
use cu_num::{Dtype, FoldKind, fold_accepts, fold_type};
use cu_shape::Dims;

/// What a reduction does with types and elements: whether it accepts the type, which it gives, and whether it wants an
/// element.
#[derive(Clone, Copy)]
struct ReductionRule {
    accepts: bool,
    dtype: Dtype,
    needs_element: bool,
}

fn wants_element(kind: FoldKind) -> bool
    ensures { result ≡ needs_element kind }
{
    matches!(kind, FoldKind::Min | FoldKind::Max)
}

/// The axes that a list names; no list stands for all axes.
fn marks(axes: Option<&[i64]>, rank: u32) -> Option<[bool; 6]>
    requires { rank ≤ 6 }
    ensures { result ≡ marks_of rank (option_map (λ a. a.now) axes.entry) }
{
    match axes {
        Some(numbers) => named_axes(numbers, rank),
        None => Some(all_axes()),
    }
}

/// Whether a reduction goes over an axis of size 0.
fn is_emptied(is_reduced: bool, size: u64) -> bool
    ensures { result ≡ (is_reduced && size == 0) }
{
    is_reduced && size == 0
}

/// Whether the sizes of the marked axes multiply to 0.
fn is_empty_along(marks: &[bool; 6], dims: &Dims) -> bool
    ensures { result ≡ (product (reduced_sizes dims.now marks.now) == 0) }
{
    for axis in 0..dims.rank() {
        if is_emptied(marks[axis as usize], dims.at(axis)) {
            return true;
        }
    }
    false
}

/// These sizes with that of one more axis behind, which a reduction takes out or gives the size 1.
fn with_kept(front: &Dims, keepdims: bool, is_reduced: bool, size: u64) -> Dims
    requires { length front.now < 6 }
    ensures sizes { result ≡ front.now ++ kept_size keepdims is_reduced size }
    ensures short { length result ≤ length front.now + 1 }
{
    match (is_reduced, keepdims) {
        (false, _) => grown(front, size),
        (true, true) => grown(front, 1),
        (true, false) => *front,
    }
}

/// The sizes without those of the marked axes, or with 1 in their place.
fn kept(keepdims: bool, marks: &[bool; 6], sizes: &Dims) -> Dims
    ensures { result ≡ kept_sizes keepdims sizes.now marks.now }
{
    let mut kept = Dims::make(&[]).unwrap();
    for axis in 0..sizes.rank() {
        kept = with_kept(&kept, keepdims, marks[axis as usize], sizes.at(axis));
    }
    kept
}

/// The array that a reduction by this rule gives, or the first fault.
fn reduce(
    rule: ReductionRule,
    axes: Option<&[i64]>,
    keepdims: bool,
    i: &NodeInfo,
) -> Result<NodeInfo, NodeFault>
    requires { IsInfo i.now }
    ensures value { result ≡ reduced (record { accepts = rule.accepts; dtype = rule.dtype; needs_element = rule.needs_element }) (option_map (λ a. a.now) axes.entry) keepdims i.now }
    ensures kept { IfOk result IsInfo }
{
    if !rule.accepts {
        return Err(fault(FaultCode::Kind));
    }
    let marks = marks(axes, i.dims.rank()).ok_or(fault(FaultCode::Axis))?;
    if rule.needs_element && is_empty_along(&marks, &i.dims) {
        return Err(fault(FaultCode::EmptyReduce));
    }
    within_limits(
        true,
        rule.dtype,
        kept(keepdims, &marks, &i.dims),
        kept(keepdims, &marks, &i.chunk),
    )
}

/// The array that `sum`, `prod`, `min`, `max`, `any` or `all` gives over these axes, or over all where there is no list; or the
/// node's first fault: Kind where a type is refused (`any` and `all` take every type, the others the integer types), Axis,
/// EmptyReduce where the least or greatest of no elements is asked for, Limit.
pub fn type_reduction(
    kind: FoldKind,
    axes: Option<&[i64]>,
    keepdims: bool,
    i: &NodeInfo,
) -> Result<NodeInfo, NodeFault>
    requires { IsInfo i.now }
    ensures value { result ≡ typed_reduction kind (option_map (λ a. a.now) axes.entry) keepdims i.now }
    ensures kept { IfOk result IsInfo }
{
    let rule = ReductionRule {
        accepts: fold_accepts(kind, i.dtype),
        dtype: fold_type(kind, i.dtype),
        needs_element: wants_element(kind),
    };
    reduce(rule, axes, keepdims, i)
}

/// The array of the places that `argmin` or `argmax` gives along an axis, or over the whole array; or the node's first fault:
/// Kind for bool, Axis, EmptyReduce, Limit.
pub fn type_arg_place(
    axis: Option<i64>,
    keepdims: bool,
    i: &NodeInfo,
) -> Result<NodeInfo, NodeFault>
    requires { IsInfo i.now }
    ensures value { result ≡ typed_arg_place axis keepdims i.now }
    ensures kept { IfOk result IsInfo }
{
    let rule = ReductionRule {
        accepts: is_integer(i.dtype),
        dtype: Dtype::Int64,
        needs_element: true,
    };
    match axis {
        Some(number) => reduce(rule, Some(&[number]), keepdims, i),
        None => reduce(rule, None, keepdims, i),
    }
}
