//! The pull of a view by its form.
ghost use Rattle.std.specs.Prelude.{◌≡◌};
ghost use Rattle.cu_form.specs.Form.{HasShortIndex};
ghost use Rattle.cu_node.specs.Info.{info_at};
ghost use Rattle.cu_node.specs.Literal.{literal_number};
ghost use Rattle.cu_lower_view.specs.Sources.{sources_of};
ghost use Rattle.cu_lower_view.specs.View.{permute_pull, flip_pull, new_shape_pull, view_of, pull_of};

use crate::axes::{named_axes, named_axis, shifts_along, turned_axes};
use crate::entries::{slice_pull, whole_pull};
use cu_form::{Arg, Form, Items};
use cu_node::{Literal, NewShape, NodeInfo, info_at};
use cu_origin::Pull;
use cu_shape::Dims;

/// The number of a value that is written.
fn literal_number(value: Literal) -> i128
    ensures { result ≡ literal_number value }
{
    match value {
        Literal::Int(x) => x,
        Literal::Truth(true) => 1,
        Literal::Truth(false) => 0,
    }
}

/// The pull of axes in another order; none where they are more than six.
fn permute_pull(axes: &[i64], source: &Dims) -> Option<Pull>
    ensures { result ≡ permute_pull axes.now source.now }
{
    if axes.len() > 6 {
        return None;
    }
    Some(Pull::Permute {
        axes: named_axes(source.rank(), axes),
    })
}

/// The pull of axes turned round; of all axes where there is no list.
fn flip_pull(axes: &Option<Items<i64>>, source: &Dims) -> Pull
    ensures { result ≡ flip_pull axes.now source.now }
{
    let rank = source.rank();
    let turned = match axes {
        Some(numbers) => turned_axes(rank, Some(numbers.as_slice())),
        None => turned_axes(rank, None),
    };
    Pull::Flip { axes: turned }
}

/// The pull of a new shape: of sizes that are written a reshape, of axes of size 1 that are put in or taken out the whole array.
fn new_shape_pull(shape: &NewShape, source: &Dims) -> Pull
    ensures { result ≡ new_shape_pull shape.now source.now }
{
    match shape {
        NewShape::Sizes(_) => Pull::Reshape,
        NewShape::Expanded(_) | NewShape::Squeezed(_) => whole_pull(source),
    }
}

/// The view that a form is, where the first array that it reads has this shape; none where it is no view.
fn view_of(form: &Form, source: &Dims) -> Option<Pull>
    requires { HasShortIndex form.now }
    ensures { result ≡ view_of form.now source.now }
{
    let rank = source.rank();
    match form {
        Form::Full { value, .. } => Some(Pull::Full {
            value: literal_number(*value),
        }),
        Form::Arange { start, step, .. } => Some(Pull::Arange {
            start: *start,
            step: *step,
        }),
        Form::Eye { k, .. } => Some(Pull::Eye { k: *k }),
        Form::Triangle { lower, k, .. } => Some(Pull::Triangle {
            lower: *lower,
            k: *k,
        }),
        Form::Index { items, .. } => slice_pull(items.as_slice(), source),
        Form::Concat { axis, .. } => Some(Pull::Concat {
            axis: named_axis(rank, *axis),
        }),
        Form::Stack { axis, .. } => Some(Pull::Stack {
            axis: named_axis(rank + 1, *axis),
        }),
        Form::PermuteDims { axes, .. } => permute_pull(axes.as_slice(), source),
        Form::Reshape { shape, .. } => Some(new_shape_pull(shape, source)),
        Form::Flip { axes, .. } => Some(flip_pull(axes, source)),
        Form::Roll { shifts, axes, .. } => Some(Pull::Roll {
            shifts: shifts_along(rank, shifts.as_slice(), axes.as_slice()),
        }),
        Form::BroadcastTo { .. } => Some(Pull::Broadcast),
        _ => None,
    }
}

/// What is known of the first array that arguments name; of none a bool of rank 0.
fn first_source(infos: &[NodeInfo], args: &[Arg]) -> NodeInfo
    ensures { result ≡ info_at (sources_of infos.now args.now) 0 }
{
    for arg in args {
        if let Arg::Node(number) = arg {
            return info_at(infos, *number);
        }
    }
    info_at(&[], 0)
}

/// The view that a node is, by its form and what is known of the nodes before it; none where it is no view, that is, for an
/// input, an elementwise function, `rechunk`, a reduction, `matmul`, prefix sums and groups by labels. Its sources are the arrays that its arguments name, in
/// order. An integer entry of an index is a run of one index whose axis is taken out; a new axis, `expand_dims` and `squeeze` change
/// no row-major place. The axis of `concat` and `stack` is counted from the start, of `stack` in the result; `flip` of no list turns
/// each axis; `roll` has a shift for each axis, 0 for one that isn't named.
pub fn pull_of(infos: &[NodeInfo], form: &Form) -> Option<Pull>
    requires { HasShortIndex form.now }
    ensures { result ≡ pull_of infos.now form.now }
{
    view_of(form, &first_source(infos, form.args()).dims)
}
