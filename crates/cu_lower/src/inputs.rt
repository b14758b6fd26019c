//! The input arrays of a plan.

ghost use Rattle.std.specs.Prelude.{◌≡◌, ◌≤◌, ◌++◌, ◌∷◌, [], ℕ, true, false, IfOk, OnOk, All, map, slice_index_or, bytes_eq, length, if◌then◌else◌};
ghost use Rattle.std.specs.List.{list_any, position_or_len};
ghost use Rattle.cu_name.specs.Name.{is_name};
ghost use Rattle.cu_need.specs.Live.{is_live};
ghost use Rattle.cu_lower.specs.Inputs.{input_array, with_name, input_names};

use cu_expr::{InputInfo, layout_named};
use cu_form::{Expr, Form};
use cu_name::{IdText, key_of_name};
use cu_op::ArrayInfo;
use std::alloc::{AllocError, Global};

/// The array of the input with this name.
fn input_array(inputs: &[InputInfo], name: &IdText) -> ArrayInfo
    requires { is_name name.now ≡ true }
    ensures { result ≡ input_array inputs.now name.now }
{
    ArrayInfo {
        prefix: key_of_name(name),
        layout: layout_named(inputs, name),
        maker: None,
        inlined: false,
    }
}

/// The place of a name among these, and their count where it isn't there.
pub(crate) fn place_of(names: &[IdText], name: &IdText) -> usize
    ensures place { result ≡ position_or_len (bytes_eq name.now) names.now }
    ensures few { result ≤ length names.now }
{
    for k in 0..names.len() {
        if name.is(&names[k]) {
            return k;
        }
    }
    names.len()
}

/// Whether a name is among these.
fn is_listed(names: &[IdText], name: &IdText) -> bool
    ensures { result ≡ list_any (bytes_eq name.now) names.now }
{
    place_of(names, name) < names.len()
}

/// Adds a name where it isn't there.
fn add_new(names: &mut Vec<IdText>, name: &IdText) -> Result<(), AllocError>
    ensures { OnOk result (names.new.items ≡ (if list_any (bytes_eq name.now) names.old.items then names.old.items else names.old.items ++ name.now ∷ [])) }
{
    if !is_listed(names, name) {
        names.push(*name)?;
    }
    Ok(())
}

/// Adds the name that an input node uses.
fn add_name(names: &mut Vec<IdText>, form: &Form) -> Result<(), AllocError>
    ensures { OnOk result (names.new.items ≡ with_name names.old.items form.now) }
{
    match form {
        Form::Input { name } => add_new(names, name),
        _ => Ok(()),
    }
}

/// The names that live input nodes use, each once, in the order of these nodes; `marks` says which nodes are live.
pub(crate) fn input_names(
    alloc: Global,
    expr: &Expr,
    marks: &[bool; 256],
) -> Result<Vec<IdText>, AllocError>
    requires { (j : ℕ) → slice_index_or marks.now j false ≡ is_live expr.now j }
    ensures { IfOk result (λ names. names.items ≡ input_names expr.now) }
{
    let nodes = expr.nodes();
    let mut names = Vec::new(alloc);
    for k in 0..nodes.len() {
        if marks[k] {
            add_name(&mut names, &nodes[k].form)?;
        }
    }
    Ok(names)
}

/// The arrays of the inputs with these names.
pub(crate) fn input_arrays(
    alloc: Global,
    inputs: &[InputInfo],
    names: &[IdText],
) -> Result<Vec<ArrayInfo>, AllocError>
    requires { All (λ name. is_name name ≡ true) names.now }
    ensures { IfOk result (λ arrays. arrays.items ≡ map (input_array inputs.now) names.now) }
{
    let mut arrays = Vec::new(alloc);
    for name in names {
        arrays.push(input_array(inputs, name))?;
    }
    Ok(arrays)
}
