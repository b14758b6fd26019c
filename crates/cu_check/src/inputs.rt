//! The arrays of an expression's input nodes.
ghost use Rattle.std.specs.Prelude.{◌≡◌, ◌+◌, ◌*◌, ◌++◌, ◌∷◌, [], List, true, All, IfErr, IfOk, OnOk};
ghost use Rattle.cu_form.specs.Expression.{IsExpression};
ghost use Rattle.cu_form.specs.Form.{in_ranges};
ghost use Rattle.cu_expr.specs.declared.inputs.InputInfo.{InputInfo as Input};
ghost use Rattle.cu_store.specs.Steps.{Shown, NoChange, OnceEach};
ghost use Rattle.cu_command.specs.Seen.{Stepped, WithinCalls};
ghost use Rattle.cu_command.specs.Stored.{IsArrayLayout};
ghost use Rattle.cu_check.specs.Arrays.{form_arrays, arrays_of_nodes, chunks_of_all};
ghost use Rattle.cu_check.specs.Chunks.{IsArrayFault};
ghost use Rattle.cu_check.specs.Plains.{AreReadArrays, IsListFault};

use crate::arrays::read_plain;
use cu_command::Status;
use cu_expr::{Expr, Form, InputInfo, layout_named};
use cu_mean::Plain;
use cu_store::PutStore;
use std::alloc::Global;

/// Reads the array of a node and adds it, where the node is an input.
fn read_node<D: PutStore>(
    alloc: Global,
    depot: &mut D,
    inputs: &[InputInfo],
    form: &Form,
    retries: u32,
    arrays: &mut Vec<Plain>,
) -> Result<(), Status>
    requires ranges { in_ranges form.now ≡ true }
    requires layouts { All (λ i. IsArrayLayout i.layout) inputs.now }
    ensures read { OnOk result ((entry : Shown) (before : List Input) → Stepped NoChange entry (D.shown depot.old) → AreReadArrays entry before arrays.old.items
        → AreReadArrays entry (before ++ form_arrays inputs.now form.now) arrays.new.items) }
    ensures step { Stepped NoChange (D.shown depot.old) (D.shown depot.new) }
    ensures cause { IfErr result (λ status. (a : Input) × (form_arrays inputs.now form.now ≡ a ∷ []) × IsArrayFault (retries + 1) (D.shown depot.old) (D.shown depot.new) a status) }
    ensures calls { WithinCalls (chunks_of_all (form_arrays inputs.now form.now) * (retries + 1)) (D.shown depot.old) (D.shown depot.new) }
    ensures once { OnceEach (chunks_of_all (form_arrays inputs.now form.now)) (D.shown depot.old) (D.shown depot.new) }
{
    let Form::Input { name } = form else {
        return Ok(());
    };
    let array = InputInfo {
        name: *name,
        layout: layout_named(inputs, name),
    };
    let plain = match read_plain(alloc, depot, &array, retries) {
        Ok(plain) => plain,
        Err(status) => return Err(status),
    };
    match arrays.push(plain) {
        Ok(()) => {}
        Err(_) => return Err(Status::NoMemory),
    }
    Ok(())
}

/// Reads the arrays of an expression's input nodes, one for each node, in node order.
pub(crate) fn read_nodes<D: PutStore>(
    alloc: Global,
    depot: &mut D,
    expr: &Expr,
    inputs: &[InputInfo],
    retries: u32,
) -> Result<Vec<Plain>, Status>
    requires layouts { All (λ i. IsArrayLayout i.layout) inputs.now }
    ensures read { IfOk result (λ arrays. (entry : Shown) → Stepped NoChange entry (D.shown depot.old) → AreReadArrays entry (arrays_of_nodes inputs.now expr.now.nodes) arrays.items) }
    ensures step { Stepped NoChange (D.shown depot.old) (D.shown depot.new) }
    ensures form { IsExpression expr.now }
    ensures cause { IfErr result (λ status. (entry : Shown) → Stepped NoChange entry (D.shown depot.old)
        → IsListFault (retries + 1) entry (D.shown depot.old) (D.shown depot.new) (arrays_of_nodes inputs.now expr.now.nodes) status) }
    ensures calls { WithinCalls (chunks_of_all (arrays_of_nodes inputs.now expr.now.nodes) * (retries + 1)) (D.shown depot.old) (D.shown depot.new) }
    ensures once { OnceEach (chunks_of_all (arrays_of_nodes inputs.now expr.now.nodes)) (D.shown depot.old) (D.shown depot.new) }
{
    let mut arrays = Vec::new(alloc);
    for node in expr.nodes() {
        match read_node(alloc, depot, inputs, &node.form, retries, &mut arrays) {
            Ok(()) => {}
            Err(status) => return Err(status),
        }
    }
    Ok(arrays)
}
