//! All nodes of an expression, element by element.
ghost use Rattle.std.specs.Prelude.{◌≡◌, ◌≤◌, ◌<◌, ◌^◌, ◌+◌, List, All, length, IfOk, OnOk};
ghost use Rattle.cu_shape.specs.Index.{product, index_at};
ghost use Rattle.cu_node.specs.Info.{IsInfo};
ghost use Rattle.cu_semantics.specs.Argument.{NodeElements};
ghost use Rattle.cu_mean.specs.Going.{HasFirstElements, KeepType, IsEvaluated, AddsComputed, MovesInput, IsGoing, HoldFirst, input_elements};
ghost use Rattle.cu_mean.specs.Node.{IsReadyAt, IsReadyNode};
ghost use Rattle.cu_mean.specs.Plain.{PlainArray};
ghost use Rattle.cu_mean.specs.Whole.{AreTypes, AreInputNodes, HoldInputs, HoldMeaning};

use crate::digits::index_at;
use crate::node::{element_at, is_input};
use crate::plain::{Plain, Plains};
use crate::scope::Scope;
use cu_expr::Types;
use cu_form::{Expr, Form};
use cu_node::NodeInfo;
use cu_store::NoMemory;
use std::alloc::{AllocError, Global};

/// The number of elements of an array that keeps the limits.
fn count_of(info: &NodeInfo) -> u64
    requires { IsInfo info.now }
    ensures value { result ≡ product info.now.dims }
    ensures small { result ≤ 2 ^ 40 }
{
    info.dims.elements().unwrap()
}

/// Appends the element of a node at a place, whose index the scope has.
fn push_element(
    cells: &mut Vec<i128>,
    form: &Form,
    scope: &Scope<'_>,
    place: u64,
) -> Result<(), AllocError>
    requires ready { IsReadyAt form.now scope.now }
    requires index { scope.now.idx.now ≡ index_at scope.now.info.now.dims place }
    requires done { HasFirstElements form.now scope.now.infos.now scope.now.info.now scope.now.plains.now place cells.old.items }
    ensures { OnOk result (HasFirstElements form.now scope.now.infos.now scope.now.info.now scope.now.plains.now (place + 1) cells.new.items) }
{
    let element = element_at(form, scope);
    cells.push(element)?;
    Ok(())
}

/// The elements of a node other than an input, in row-major order.
fn cells_of(
    alloc: Global,
    form: &Form,
    infos: &[NodeInfo],
    info: &NodeInfo,
    plains: &[Plain],
) -> Result<Vec<i128>, AllocError>
    requires { IsReadyNode form.now infos.now info.now plains.now }
    ensures { IfOk result (λ cells. HasFirstElements form.now infos.now info.now plains.now (product info.now.dims) cells.items) }
{
    let count = count_of(info);
    let mut cells = Vec::with_capacity(alloc, count as usize)?;
    for place in 0..count {
        let idx = index_at(&info.dims, place);
        let scope = Scope {
            infos,
            info,
            plains,
            idx: &idx,
        };
        push_element(&mut cells, form, &scope, place)?;
    }
    Ok(cells)
}

/// The array of a node other than an input.
fn computed(
    alloc: Global,
    form: &Form,
    infos: &[NodeInfo],
    info: &NodeInfo,
    plains: &[Plain],
) -> Result<Plain, AllocError>
    requires ready { IsReadyNode form.now infos.now info.now plains.now }
    requires keeps { KeepType form.now infos.now info.now plains.now }
    ensures { IfOk result (IsEvaluated form.now infos.now info.now plains.now) }
{
    let cells = cells_of(alloc, form, infos, info, plains)?;
    Ok(Plain::make(info.dtype, info.dims, cells))
}

/// Appends the array of a node other than an input.
fn push_computed(
    alloc: Global,
    form: &Form,
    infos: &[NodeInfo],
    info: &NodeInfo,
    plains: &mut Vec<Plain>,
) -> Result<(), AllocError>
    requires ready { IsReadyNode form.now infos.now info.now plains.old.items }
    requires keeps { KeepType form.now infos.now info.now plains.old.items }
    ensures { OnOk result (AddsComputed form.now infos.now info.now plains.old.items plains.new.items) }
{
    let plain = computed(alloc, form, infos, info, plains)?;
    plains.push(plain)?;
    Ok(())
}

/// Moves the first of the inputs that are left.
fn push_input(rest: &mut Vec<Plain>, plains: &mut Vec<Plain>) -> Result<(), AllocError>
    requires { 0 < length rest.old.items }
    ensures { OnOk result (MovesInput rest.old.items plains.old.items rest.new.items plains.new.items) }
{
    let plain = rest.remove(0);
    plains.push(plain)?;
    Ok(())
}

/// Appends the array of the next node: that of an input is the first of those that are left.
fn push_node(
    expr: &Expr,
    number: usize,
    infos: &[NodeInfo],
    rest: &mut Vec<Plain>,
    plains: &mut Vec<Plain>,
) -> Result<(), AllocError>
    requires number { number < length expr.now.nodes }
    requires going { (inputs : List PlainArray) × IsGoing expr.now infos.now inputs number rest.old.items plains.old.items }
    ensures { (inputs : List PlainArray) → IsGoing expr.now infos.now inputs number rest.old.items plains.old.items
        → OnOk result (IsGoing expr.now infos.now inputs (number + 1) rest.new.items plains.new.items) }
{
    let form = &expr.nodes()[number].form;
    if is_input(form) {
        return push_input(rest, plains);
    }
    let alloc = *plains.allocator();
    push_computed(alloc, form, infos, &infos[number], plains)
}

/// What is known of each node.
fn known(alloc: Global, expr: &Expr, types: &Types) -> Result<Vec<NodeInfo>, AllocError>
    requires { AreTypes expr.now types.now }
    ensures infos { IfOk result (λ infos. infos.items ≡ types.now) }
    ensures kept { IfOk result (λ infos. All IsInfo infos.items) }
{
    let count = expr.nodes().len() as u32;
    let mut infos = Vec::with_capacity(alloc, count as usize)?;
    for number in 0..count {
        infos.push(*types.at(number))?;
    }
    Ok(infos)
}

/// The arrays of all nodes.
fn arrays(
    alloc: Global,
    expr: &Expr,
    types: &Types,
    inputs: Plains,
) -> Result<Vec<Plain>, AllocError>
    requires types { AreTypes expr.now types.now }
    requires inputs { AreInputNodes expr.now types.now inputs }
    ensures { IfOk result (λ plains. HoldFirst expr.now types.now (input_elements expr.now inputs) (length expr.now.nodes) plains.items) }
{
    let infos = known(alloc, expr, types)?;
    let count = expr.nodes().len();
    let mut rest = inputs.into_list();
    let mut plains = Vec::with_capacity(alloc, count)?;
    for number in 0..count {
        push_node(expr, number, &infos, &mut rest, &mut plains)?;
    }
    Ok(plains)
}

/// The array of each node, element by element by the rules of the meaning. `types` are to be those of the expression, and `inputs` an
/// array for each input node, in the order of the nodes, of the node's type and shape; they become the arrays of these nodes. The time
/// is linear in the elements that are read, and each element takes 16 bytes.
pub fn whole(alloc: Global, expr: &Expr, types: &Types, inputs: Plains) -> Result<Plains, NoMemory>
    requires types { AreTypes expr.now types.now }
    requires inputs { AreInputNodes expr.now types.now inputs }
    ensures { (env : NodeElements) → HoldInputs expr.now types.now env inputs → IfOk result (HoldMeaning expr.now types.now env) }
{
    let _form = expr.nodes();
    match arrays(alloc, expr, types, inputs) {
        Ok(list) => Ok(Plains::make(list)),
        Err(_) => Err(NoMemory),
    }
}
