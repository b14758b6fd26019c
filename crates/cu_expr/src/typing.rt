ghost use Rattle.std.specs.Prelude.{◌≡◌, ◌<◌, ◌^◌, true, All, IfOk, OnOk, ◌++◌, ◌∷◌, [], length};
ghost use Rattle.std.specs.HashMap.{get_by_text};
ghost use Rattle.cu_form.specs.Form.{in_ranges, takes_args, HasShortIndex, IsForm};
ghost use Rattle.cu_node.specs.Info.{IsInfo};
ghost use Rattle.cu_typing.specs.Joined.{arrays_of};
ghost use Rattle.cu_expr.specs.Answer.{IsAnswer};
ghost use Rattle.cu_expr.specs.Inputs.{stored_of};
ghost use Rattle.cu_expr.specs.Premises.{HaveGrids, HasArrays};
ghost use Rattle.cu_expr.specs.Typing.{told_of, typed_reduced, typed_form, at_node, typed};

use crate::inputs::{InputInfo, by_name, stored_info};
use crate::told::{arguments, arrays, known};
use crate::types::{TypeFault, TypeRefused, Types};
use crate::views::type_any_view;
use cu_form::{Expr, Form, group_kind};
use cu_node::{FaultCode, NodeFault, NodeInfo, fault};
use cu_typing::{
    Argument, type_arg_place, type_cumulative, type_elementwise, type_groups, type_matmul,
    type_reduction,
};
use std::alloc::{AllocError, Global};
use std::collections::HashMap;

/// The elements of one array together, or those of two.
fn type_reduced(form: &Form, arrays: &[NodeInfo]) -> Result<NodeInfo, NodeFault>
    requires { All IsInfo arrays.now }
    ensures value { result ≡ typed_reduced form.now arrays.now }
    ensures kept { IfOk result IsInfo }
{
    let first = known(arrays, 0);
    match form {
        Form::Reduce {
            kind,
            axes: Some(axes),
            keepdims,
            ..
        } => type_reduction(*kind, Some(axes.as_slice()), *keepdims, &first),
        Form::Reduce {
            kind,
            axes: None,
            keepdims,
            ..
        } => type_reduction(*kind, None, *keepdims, &first),
        Form::ArgPlace { axis, keepdims, .. } => type_arg_place(*axis, *keepdims, &first),
        Form::Matmul { .. } => type_matmul(&first, &known(arrays, 1)),
        _ => Err(fault(FaultCode::Kind)),
    }
}

/// A node over what is told of its arguments.
fn type_form(
    stored: NodeInfo,
    form: &Form,
    told: &[Argument],
    arrays: &[NodeInfo],
) -> Result<NodeInfo, NodeFault>
    requires takes { takes_args form.now ≡ true }
    requires ranges { in_ranges form.now ≡ true }
    requires short { HasShortIndex form.now }
    requires told { arrays.now ≡ arrays_of told.now }
    requires count { HasArrays form.now (length arrays.now) }
    requires stored { IsInfo stored }
    requires arrays { All IsInfo arrays.now }
    ensures value { result ≡ typed_form stored form.now told.now }
    ensures kept { IfOk result IsInfo }
{
    match form {
        Form::Input { .. } => Ok(stored),
        Form::Elementwise { op, .. } => type_elementwise(*op, told),
        Form::Reduce { .. } | Form::ArgPlace { .. } | Form::Matmul { .. } => type_reduced(
            form, arrays,
        ),
        Form::CumulativeSum { axis, .. } => type_cumulative(*axis, &known(arrays, 0)),
        Form::GroupBy {
            least,
            axis,
            groups,
            ..
        } => type_groups(
            group_kind(*least),
            *axis,
            *groups,
            &known(arrays, 0),
            &known(arrays, 1),
        ),
        view => type_any_view(view, arrays),
    }
}

/// A node over what is known of the inputs and of the nodes before it, or its fault with its number.
fn type_node(
    alloc: Global,
    named: &HashMap<String, NodeInfo>,
    infos: &[NodeInfo],
    form: &Form,
) -> Result<NodeInfo, TypeRefused>
    requires form { IsForm (length infos.now) form.now }
    requires short { HasShortIndex form.now }
    requires few { length infos.now < 2 ^ 32 }
    requires stored { IsInfo (stored_of (get_by_text named.now) form.now) }
    requires infos { All IsInfo infos.now }
    ensures answer { IsAnswer (at_node (length infos.now) (typed_form (stored_of (get_by_text named.now) form.now) form.now (told_of infos.now form.now))) result }
    ensures kept { IfOk result IsInfo }
{
    let told = arguments(alloc, infos, form.args())?;
    let arrays = arrays(alloc, &told)?;
    match type_form(stored_info(named, form), form, &told, &arrays) {
        Ok(info) => Ok(info),
        Err(fault) => Err(TypeRefused::Fault(TypeFault {
            code: fault.code.number(),
            node: infos.len() as u32,
            place: fault.place,
        })),
    }
}

/// Adds what is known of the next node.
fn add_info(infos: &mut Vec<NodeInfo>, info: NodeInfo) -> Result<(), AllocError>
    ensures { OnOk result (infos.new.items ≡ infos.old.items ++ info ∷ []) }
{
    infos.push(info)?;
    Ok(())
}

/// The type, shape and chunk shape of each node's array, each node typed over those before it; or the first fault of the first
/// node that has one. There is to be an input for each name that an input node uses; a name that no input has is told as a bool
/// of rank 0. Each layout is to be one that the reader of metadata accepts.
pub fn type_of(alloc: Global, expr: &Expr, inputs: &[InputInfo]) -> Result<Types, TypeRefused>
    requires { HaveGrids inputs.now }
    ensures answer { IsAnswer (typed inputs.now expr.now) result }
    ensures kept { IfOk result (λ types. All IsInfo types) }
{
    let named = by_name(alloc, inputs)?;
    let mut infos = Vec::new(alloc);
    for node in expr.nodes() {
        match type_node(alloc, &named, &infos, &node.form) {
            Ok(info) => add_info(&mut infos, info)?,
            Err(refused) => return Err(refused),
        }
    }
    Ok(Types::make(infos))
}
