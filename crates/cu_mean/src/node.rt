//! The element of a node at an index, by its form: a function for each operator, and their choice.
ghost use Rattle.std.specs.Prelude.{◌≡◌, pos, All};
ghost use Rattle.cu_shape.specs.Index.{IsInside, product};
ghost use Rattle.cu_form.specs.declared.form.Form.{Form};
ghost use Rattle.cu_node.specs.Info.{IsInfo};
ghost use Rattle.cu_semantics.specs.Argument.{source_at, source_shape};
ghost use Rattle.cu_semantics.specs.Reduction.{reduced_elements};
ghost use Rattle.cu_reduce.specs.Places.{best_place};
ghost use Rattle.cu_semantics.specs.View.{same_place};
ghost use Rattle.cu_mean.specs.Axes.{axes_in};
ghost use Rattle.cu_mean.specs.Node.{is_input, IsReadyAt, IsElementAt};
ghost use Rattle.cu_mean.specs.Reading.{elements_in};

use crate::axes::{NamedAxes, axes_listed, axis_in};
use crate::creation::{arange_at, eye_at, literal_number};
use crate::elementwise::function_at;
use crate::grouped::group_at;
use crate::indexing::indexed;
use crate::pieces::{concat_at, stack_at};
use crate::places::best_place;
use crate::products::matmul_at;
use crate::reading::{NamedArrays, source, source_dims};
use crate::reductions::{reduced, reduced_box, reduced_start};
use crate::scope::Scope;
use crate::summed::{line_axis, sum_up_to};
use crate::views::{flipped, is_in_triangle, permuted, rolled, same_place};
use cu_form::{Arg, ElementOp, Form, IndexItem, Items, group_kind};
use cu_node::{NewShape, size_at};
use cu_num::FoldKind;
use cu_shape::back;

/// An elementwise function.
fn elementwise_at(op: ElementOp, args: &Items<Arg>, scope: &Scope<'_>) -> i128
    requires { IsReadyAt (Form.Elementwise op args.now) scope.now }
    ensures { IsElementAt (Form.Elementwise op args.now) scope.now result }
{
    let args = args.as_slice();
    function_at(op, scope.info.dtype, args, scope)
}

/// A reduction.
fn reduced_at(
    kind: FoldKind,
    args: &Items<Arg>,
    axes: &Option<Items<i64>>,
    keepdims: bool,
    scope: &Scope<'_>,
) -> i128
    requires { IsReadyAt (Form.Reduce kind args.now axes.now keepdims) scope.now }
    ensures { IsElementAt (Form.Reduce kind args.now axes.now keepdims) scope.now result }
{
    let axes = axes_listed(axes);
    let args = args.as_slice();
    let shape = source_dims(scope.infos, args, 0);
    let start = reduced_start(&axes, keepdims, shape.rank(), scope.idx);
    let sizes = reduced_box(&axes, &shape);
    let arrays = NamedArrays {
        plains: scope.plains,
        args,
    };
    reduced(kind, scope.info.dtype, &arrays, &start, &sizes)
}

/// A matrix product.
fn product_at(args: &Items<Arg>, scope: &Scope<'_>) -> i128
    requires { IsReadyAt (Form.Matmul args.now) scope.now }
    ensures { IsElementAt (Form.Matmul args.now) scope.now result }
{
    let args = args.as_slice();
    let a = source_dims(scope.infos, args, 0);
    let b = source_dims(scope.infos, args, 1);
    let arrays = NamedArrays {
        plains: scope.plains,
        args,
    };
    matmul_at(scope.info.dtype, &arrays, &a, &b, scope.idx)
}

/// A prefix sum.
fn cumulative_node(args: &Items<Arg>, axis: Option<i64>, scope: &Scope<'_>) -> i128
    requires { IsReadyAt (Form.CumulativeSum args.now axis) scope.now }
    ensures { IsElementAt (Form.CumulativeSum args.now axis) scope.now result }
{
    let args = args.as_slice();
    let arrays = NamedArrays {
        plains: scope.plains,
        args,
    };
    let along = line_axis(scope.idx.rank(), axis);
    sum_up_to(scope.info.dtype, &arrays, along, scope.idx)
}

/// A reduction by labels.
fn grouped_node(least: bool, args: &Items<Arg>, axis: i64, groups: u32, scope: &Scope<'_>) -> i128
    requires { IsReadyAt (Form.GroupBy least args.now axis groups) scope.now }
    ensures { IsElementAt (Form.GroupBy least args.now axis groups) scope.now result }
{
    let args = args.as_slice();
    let shape = source_dims(scope.infos, args, 0);
    let arrays = NamedArrays {
        plains: scope.plains,
        args,
    };
    let along = axis_in(scope.idx.rank(), axis);
    let count = size_at(&shape, along);
    group_at(
        group_kind(least),
        scope.info.dtype,
        &arrays,
        along,
        count,
        scope.idx,
    )
}

/// The place of a least or of a greatest element.
fn place_at(
    least: bool,
    args: &[Arg],
    axes: &NamedAxes<'_>,
    keepdims: bool,
    scope: &Scope<'_>,
) -> i128
    requires { All IsInfo scope.now.infos.now }
    ensures { result ≡ pos (best_place least (reduced_elements (source_at (elements_in scope.now.plains.now) args.now 0) (axes_in axes.now) keepdims (source_shape scope.now.infos.now args.now 0) scope.now.idx.now)) }
{
    let shape = source_dims(scope.infos, args, 0);
    let start = reduced_start(axes, keepdims, shape.rank(), scope.idx);
    let sizes = reduced_box(axes, &shape);
    let arrays = NamedArrays {
        plains: scope.plains,
        args,
    };
    best_place(least, &arrays, &start, &sizes) as i128
}

/// `argmin` and `argmax`.
fn arg_place_at(
    least: bool,
    args: &Items<Arg>,
    axis: Option<i64>,
    keepdims: bool,
    scope: &Scope<'_>,
) -> i128
    requires { IsReadyAt (Form.ArgPlace least args.now axis keepdims) scope.now }
    ensures { IsElementAt (Form.ArgPlace least args.now axis keepdims) scope.now result }
{
    let args = args.as_slice();
    match axis {
        Some(number) => {
            let axes = NamedAxes {
                all: false,
                numbers: &[number],
            };
            place_at(least, args, &axes, keepdims, scope)
        }
        None => {
            let axes = NamedAxes {
                all: true,
                numbers: &[],
            };
            place_at(least, args, &axes, keepdims, scope)
        }
    }
}

/// The element at the same place in row-major order of an array with as many elements.
fn replaced_at(args: &Items<Arg>, scope: &Scope<'_>) -> i128
    requires own { IsInfo scope.now.info.now }
    requires inside { IsInside scope.now.info.now.dims scope.now.idx.now }
    requires count { product (source_shape scope.now.infos.now args.now 0) ≡ product scope.now.info.now.dims }
    ensures { result ≡ source_at (elements_in scope.now.plains.now) args.now 0
        (same_place (source_shape scope.now.infos.now args.now 0) scope.now.info.now.dims scope.now.idx.now) }
{
    let args = args.as_slice();
    let shape = source_dims(scope.infos, args, 0);
    source(
        scope.plains,
        args,
        0,
        &same_place(&shape, &scope.info.dims, scope.idx),
    )
}

/// Arrays one behind the other.
fn concat_node(args: &Items<Arg>, axis: i64, scope: &Scope<'_>) -> i128
    requires { IsReadyAt (Form.Concat args.now axis) scope.now }
    ensures { IsElementAt (Form.Concat args.now axis) scope.now result }
{
    let args = args.as_slice();
    concat_at(
        scope.infos,
        scope.plains,
        args,
        axis_in(scope.idx.rank(), axis),
        scope.idx,
    )
}

/// Arrays on a new axis.
fn stack_node(args: &Items<Arg>, axis: i64, scope: &Scope<'_>) -> i128
    requires { IsReadyAt (Form.Stack args.now axis) scope.now }
    ensures { IsElementAt (Form.Stack args.now axis) scope.now result }
{
    let args = args.as_slice();
    stack_at(
        scope.plains,
        args,
        axis_in(scope.idx.rank(), axis),
        scope.idx,
    )
}

/// An array whose axes are moved.
fn permuted_node(args: &Items<Arg>, axes: &Items<i64>, scope: &Scope<'_>) -> i128
    requires { IsReadyAt (Form.PermuteDims args.now axes.now) scope.now }
    ensures { IsElementAt (Form.PermuteDims args.now axes.now) scope.now result }
{
    let read = permuted(axes.as_slice(), scope.idx);
    source(scope.plains, args.as_slice(), 0, &read)
}

/// An array in another shape.
fn reshaped_node(args: &Items<Arg>, shape: &NewShape, scope: &Scope<'_>) -> i128
    requires { IsReadyAt (Form.Reshape args.now shape.now) scope.now }
    ensures { IsElementAt (Form.Reshape args.now shape.now) scope.now result }
{
    replaced_at(args, scope)
}

/// An array that is stretched.
fn stretched_node(
    args: &Items<Arg>,
    shape: &Items<u64>,
    chunk: &Items<u64>,
    scope: &Scope<'_>,
) -> i128
    requires { IsReadyAt (Form.BroadcastTo args.now shape.now chunk.now) scope.now }
    ensures { IsElementAt (Form.BroadcastTo args.now shape.now chunk.now) scope.now result }
{
    let args = args.as_slice();
    let read = back(&source_dims(scope.infos, args, 0), scope.idx);
    source(scope.plains, args, 0, &read)
}

/// An array that is turned round along axes.
fn flipped_node(args: &Items<Arg>, axes: &Option<Items<i64>>, scope: &Scope<'_>) -> i128
    requires { IsReadyAt (Form.Flip args.now axes.now) scope.now }
    ensures { IsElementAt (Form.Flip args.now axes.now) scope.now result }
{
    let read = flipped(axes, &scope.info.dims, scope.idx);
    source(scope.plains, args.as_slice(), 0, &read)
}

/// An array whose elements are moved along axes.
fn rolled_node(args: &Items<Arg>, shifts: &Items<i64>, axes: &Items<i64>, scope: &Scope<'_>) -> i128
    requires { IsReadyAt (Form.Roll args.now shifts.now axes.now) scope.now }
    ensures { IsElementAt (Form.Roll args.now shifts.now axes.now) scope.now result }
{
    let read = rolled(
        shifts.as_slice(),
        axes.as_slice(),
        &scope.info.dims,
        scope.idx,
    );
    source(scope.plains, args.as_slice(), 0, &read)
}

/// A triangle of an array.
fn triangle_node(args: &Items<Arg>, lower: bool, k: i64, scope: &Scope<'_>) -> i128
    requires { IsReadyAt (Form.Triangle lower args.now k) scope.now }
    ensures { IsElementAt (Form.Triangle lower args.now k) scope.now result }
{
    if is_in_triangle(lower, k, scope.idx) {
        source(scope.plains, args.as_slice(), 0, scope.idx)
    } else {
        0
    }
}

/// An array in other chunks.
fn rechunked_node(args: &Items<Arg>, chunk: &Items<u64>, scope: &Scope<'_>) -> i128
    requires { IsReadyAt (Form.Rechunk args.now chunk.now) scope.now }
    ensures { IsElementAt (Form.Rechunk args.now chunk.now) scope.now result }
{
    source(scope.plains, args.as_slice(), 0, scope.idx)
}

/// An array that is indexed.
fn indexed_node(args: &Items<Arg>, items: &Items<IndexItem>, scope: &Scope<'_>) -> i128
    requires { IsReadyAt (Form.Index args.now items.now) scope.now }
    ensures { IsElementAt (Form.Index args.now items.now) scope.now result }
{
    let args = args.as_slice();
    let shape = source_dims(scope.infos, args, 0);
    match indexed(items.as_slice(), &shape, scope.idx) {
        Some(read) => source(scope.plains, args, 0, &read),
        None => 0,
    }
}

/// Whether a node is an input.
pub(crate) fn is_input(form: &Form) -> bool
    ensures { result ≡ is_input form.now }
{
    matches!(form, Form::Input { .. })
}

/// The element of a node other than an input at an index of its array.
pub(crate) fn element_at(form: &Form, scope: &Scope<'_>) -> i128
    requires { IsReadyAt form.now scope.now }
    ensures { IsElementAt form.now scope.now result }
{
    match form {
        Form::Input { .. } => 0,
        Form::Elementwise { op, args } => elementwise_at(*op, args, scope),
        Form::Full { value, .. } => literal_number(*value),
        Form::Arange { start, step, .. } => arange_at(*start, *step, scope.idx),
        Form::Eye { k, .. } => eye_at(*k, scope.idx),
        Form::Triangle { lower, args, k } => triangle_node(args, *lower, *k, scope),
        Form::Index { args, items } => indexed_node(args, items, scope),
        Form::Concat { args, axis } => concat_node(args, *axis, scope),
        Form::Stack { args, axis } => stack_node(args, *axis, scope),
        Form::PermuteDims { args, axes } => permuted_node(args, axes, scope),
        Form::Reshape { args, shape } => reshaped_node(args, shape, scope),
        Form::Flip { args, axes } => flipped_node(args, axes, scope),
        Form::Roll { args, shifts, axes } => rolled_node(args, shifts, axes, scope),
        Form::BroadcastTo { args, shape, chunk } => stretched_node(args, shape, chunk, scope),
        Form::Rechunk { args, chunk } => rechunked_node(args, chunk, scope),
        Form::Reduce {
            kind,
            args,
            axes,
            keepdims,
        } => reduced_at(*kind, args, axes, *keepdims, scope),
        Form::ArgPlace {
            least,
            args,
            axis,
            keepdims,
        } => arg_place_at(*least, args, *axis, *keepdims, scope),
        Form::Matmul { args } => product_at(args, scope),
        Form::CumulativeSum { args, axis } => cumulative_node(args, *axis, scope),
        Form::GroupBy {
            least,
            args,
            axis,
            groups,
        } => grouped_node(*least, args, *axis, *groups, scope),
    }
}
