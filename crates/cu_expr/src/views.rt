//! Views by their forms: of one array, of several that are put together, and of none, which are made from nothing.

ghost use Rattle.std.specs.Prelude.{◌≡◌, true, All, IfOk, length};
ghost use Rattle.cu_form.specs.Form.{in_ranges, takes_args, HasShortIndex};
ghost use Rattle.cu_node.specs.Info.{IsInfo};
ghost use Rattle.cu_expr.specs.Premises.{HasArrays};
ghost use Rattle.cu_expr.specs.Views.{typed_view, typed_any_view};

use crate::told::known;
use cu_form::Form;
use cu_node::{FaultCode, NodeFault, NodeInfo, fault};
use cu_typing_view::{
    type_arange, type_broadcast, type_concat, type_eye, type_flip, type_full, type_index,
    type_new_shape, type_permute, type_rechunk, type_roll, type_stack, type_triangle,
};

/// A view of one array.
fn type_view(form: &Form, array: &NodeInfo) -> Result<NodeInfo, NodeFault>
    requires ranges { in_ranges form.now ≡ true }
    requires short { HasShortIndex form.now }
    requires array { IsInfo array.now }
    ensures value { result ≡ typed_view form.now array.now }
    ensures kept { IfOk result IsInfo }
{
    match form {
        Form::Triangle { .. } => type_triangle(array),
        Form::Index { items, .. } => type_index(array, items.as_slice()),
        Form::PermuteDims { axes, .. } => type_permute(array, axes.as_slice()),
        Form::Reshape { shape, .. } => type_new_shape(array, shape),
        Form::Flip {
            axes: Some(axes),
            ..
        } => type_flip(array, Some(axes.as_slice())),
        Form::Flip { axes: None, .. } => type_flip(array, None),
        Form::Roll { shifts, axes, .. } => type_roll(array, shifts.as_slice(), axes.as_slice()),
        Form::BroadcastTo { shape, chunk, .. } => type_broadcast(
            array,
            shape.as_slice(),
            chunk.as_slice(),
        ),
        Form::Rechunk { chunk, .. } => type_rechunk(array, chunk.as_slice()),
        _ => Err(fault(FaultCode::Kind)),
    }
}

/// A view of one array, or an array that is put together or made from nothing, over what is known of the arrays that it reads.
pub(crate) fn type_any_view(form: &Form, arrays: &[NodeInfo]) -> Result<NodeInfo, NodeFault>
    requires takes { takes_args form.now ≡ true }
    requires ranges { in_ranges form.now ≡ true }
    requires short { HasShortIndex form.now }
    requires count { HasArrays form.now (length arrays.now) }
    requires arrays { All IsInfo arrays.now }
    ensures value { result ≡ typed_any_view form.now arrays.now }
    ensures kept { IfOk result IsInfo }
{
    match form {
        Form::Full {
            shape,
            dtype,
            value,
            chunk,
        } => type_full(shape.as_slice(), *dtype, *value, chunk.as_slice()),
        Form::Arange {
            start,
            stop,
            step,
            dtype,
            chunk,
        } => type_arange(*start, *stop, *step, *dtype, chunk.as_slice()),
        Form::Eye {
            rows,
            cols,
            dtype,
            chunk,
            ..
        } => type_eye(*rows, *cols, *dtype, chunk.as_slice()),
        Form::Concat { axis, .. } => type_concat(arrays, *axis),
        Form::Stack { axis, .. } => type_stack(arrays, *axis),
        view => type_view(view, &known(arrays, 0)),
    }
}
