//! The steps of a node.

ghost use Rattle.std.specs.Prelude.{◌≡◌, ◌<◌, ◌≤◌, ◌+◌, ◌^◌, ◌++◌, ◌∷◌, [], true, All, IfOk, IsOk, length, map, slice_index};
ghost use Rattle.cu_copy.specs.Copies.{in_chunks};
ghost use Rattle.cu_expr.specs.Typing.{argument_of};
ghost use Rattle.cu_form.specs.Form.{element_takes};
ghost use Rattle.cu_lower_reduce.specs.Copies.{aligned_places, aligned_steps, copy_steps, IsCopySetting, IsStaged};
ghost use Rattle.cu_lower_reduce.specs.Grouped.{grouped_steps, IsGrouped};
ghost use Rattle.cu_lower_reduce.specs.Products.{product_steps, IsProduct};
ghost use Rattle.cu_lower_reduce.specs.Steps.{all_made};
ghost use Rattle.cu_need.specs.Operands.{operands_of};
ghost use Rattle.cu_typing.specs.Types.{shared_type};
ghost use Rattle.cu_node.specs.Info.{IsInfo, info_at};
ghost use Rattle.cu_need.specs.Need.{own_need};
ghost use Rattle.cu_need.specs.View.{is_view};
ghost use Rattle.cu_lower.specs.Parts.{AreOptions, CanGrow, copying, only_step, setting, elementwise_op, product_of, grouped_over, view_op, steps_of};

use crate::aligned::{Aligned, align, copy_steps, copying};
use crate::options::Options;
use crate::parts::{elementwise_op, view_op};
use crate::reduced::{
    cumulative_of, cumulative_steps, grouped_of, grouped_over, product_of, push_groups,
    push_product, reduction_of, reduction_steps, search_of, search_steps, setting, source_of,
};
use arrayvec::ArrayVec;
use cu_copy::Rechunk;
use cu_form::{Arg, ElementOp, Form};
use cu_lower_reduce::{CopySetting, Grouped, Step};
use cu_need::{array_of, is_view, operands_of, own_need};
use cu_node::{NodeInfo, info_at};
use cu_op::Op;
use std::alloc::{AllocError, Global};

/// A step of node number `node`, an operation that makes its array and needs so many bytes.
fn only_step(infos: &[NodeInfo], node: u32, op: Op, need: u64) -> Step
    ensures { result ∷ [] ≡ only_step infos.now node op need }
{
    Step {
        op,
        values: None,
        made: info_at(infos, node),
        need,
    }
}

/// The step of node number `node`, which is a view of these arrays.
#[tactic(auto, using(crate::proofs::NodeLaws::view_step))]
fn view_steps(
    alloc: Global,
    infos: &[NodeInfo],
    options: &Options,
    node: u32,
    form: &Form,
    sources: ArrayVec<u32, 8>,
    first: u32,
) -> Result<Vec<Step>, AllocError>
    requires view { is_view form.now ≡ true }
    requires infos { All IsInfo infos.now }
    requires options { AreOptions options.now }
    requires form { CanGrow infos.now options.now node form.now }
    ensures { IfOk result (λ steps. steps.items ≡ steps_of infos.now options.now node form.now sources.items first) }
{
    let pull = view_op(infos, form, sources, first);
    let need = own_need(options.reserved, options.split_every, infos, node, form);
    let mut steps = Vec::new(alloc);
    steps.push(only_step(infos, node, pull, need))?;
    Ok(steps)
}

/// The operands of node number `node`, whose arrays are `ins`, in the chunks that it wants of them.
/// The first array that copies of them make has number `first`.
fn align_operands(
    alloc: Global,
    infos: &[NodeInfo],
    options: &Options,
    node: u32,
    form: &Form,
    ins: &[u32],
    first: u32,
) -> Result<Aligned, AllocError>
    requires options { AreOptions options.now }
    requires first { first < 2 ^ 30 }
    requires form { CanGrow infos.now options.now node form.now }
    ensures steps { IfOk result (λ a. a.steps.items ≡ aligned_steps (copying options.now first) ins.now (operands_of infos.now node form.now)) }
    ensures places { IfOk result (λ a. a.places.items ≡ aligned_places (copying options.now first) ins.now (operands_of infos.now node form.now)) }
    ensures next { IfOk result (λ a. a.next ≡ first + length (all_made (aligned_steps (copying options.now first) ins.now (operands_of infos.now node form.now)))) }
    ensures few { IfOk result (λ a. a.next ≤ first + 6) }
{
    let s = copying(options, first);
    align(alloc, &s, ins, operands_of(infos, node, form).as_slice())
}

/// The steps of node number `node`, a function of arguments whose arrays are aligned.
fn map_steps(
    aligned: Aligned,
    infos: &[NodeInfo],
    node: u32,
    op: ElementOp,
    args: &[Arg],
    need: u64,
) -> Result<Vec<Step>, AllocError>
    requires takes { element_takes op args.now ≡ true }
    requires typed { IsOk (shared_type op (map (argument_of infos.now) args.now)) }
    ensures { IfOk result (λ steps. steps.items ≡ aligned.steps.items ++ only_step infos.now node (elementwise_op infos.now op args.now aligned.places.items aligned.next) need) }
{
    let Aligned {
        mut steps,
        places,
        next,
    } = aligned;
    steps.push(only_step(
        infos,
        node,
        elementwise_op(infos, op, args, places, next),
        need,
    ))?;
    Ok(steps)
}

/// The steps of node number `node`, a product of operands that are aligned.
fn matmul_steps(
    aligned: Aligned,
    infos: &[NodeInfo],
    options: &Options,
    node: u32,
    args: &[Arg],
) -> Result<Vec<Step>, AllocError>
    requires options { AreOptions options.now }
    requires next { aligned.next < 2 ^ 31 }
    requires product { IsProduct (product_of infos.now node args.now aligned.places.items) }
    ensures { IfOk result (λ steps. steps.items ≡ aligned.steps.items ++ product_steps (setting options.now aligned.next) (product_of infos.now node args.now aligned.places.items)) }
{
    let Aligned {
        mut steps,
        places,
        next,
    } = aligned;
    let x = product_of(infos, node, args, places.as_slice());
    push_product(&mut steps, &setting(options, next), &x)?;
    Ok(steps)
}

/// The steps of groups of an array by labels that are aligned.
fn group_steps(aligned: Aligned, options: &Options, x: &Grouped) -> Result<Vec<Step>, AllocError>
    requires options { AreOptions options.now }
    requires next { aligned.next < 2 ^ 31 }
    requires grouped { IsGrouped (grouped_over x.now aligned.places.items) }
    ensures { IfOk result (λ steps. steps.items ≡ aligned.steps.items ++ grouped_steps (setting options.now aligned.next) (grouped_over x.now aligned.places.items)) }
{
    let Aligned {
        mut steps,
        places,
        next,
    } = aligned;
    let over = grouped_over(x, places.as_slice());
    push_groups(&mut steps, &setting(options, next), &over)?;
    Ok(steps)
}

/// The copies of an array, the first of `ins`, into the chunks of node number `node`.
fn rechunk_steps(
    alloc: Global,
    infos: &[NodeInfo],
    s: &CopySetting,
    node: u32,
    array: NodeInfo,
    ins: &[u32],
) -> Result<Vec<Step>, AllocError>
    requires setting { IsCopySetting s.now }
    requires array { IsStaged s.now (in_chunks array (info_at infos.now node).chunk) }
    ensures { IfOk result (λ steps. steps.items ≡ copy_steps s.now (slice_index ins.now 0) (in_chunks array (info_at infos.now node).chunk)) }
{
    let rechunk = Rechunk {
        source: array,
        chunk: info_at(infos, node).chunk,
    };
    copy_steps(alloc, s, source_of(ins, 0), &rechunk)
}

/// The steps of node number `node`, which read these arrays; `first` is the number of the next array.
pub(crate) fn steps_of(
    alloc: Global,
    infos: &[NodeInfo],
    options: &Options,
    node: u32,
    form: &Form,
    sources: ArrayVec<u32, 8>,
    first: u32,
) -> Result<Vec<Step>, AllocError>
    requires infos { All IsInfo infos.now }
    requires options { AreOptions options.now }
    requires first { first < 2 ^ 30 }
    requires form { CanGrow infos.now options.now node form.now }
    ensures { IfOk result (λ steps. steps.items ≡ steps_of infos.now options.now node form.now sources.items first) }
{
    let ins = sources.as_slice();
    match form {
        Form::Elementwise { op, args } => {
            let aligned = align_operands(alloc, infos, options, node, form, ins, first)?;
            let need = own_need(options.reserved, options.split_every, infos, node, form);
            map_steps(aligned, infos, node, *op, args.as_slice(), need)
        }
        Form::Reduce {
            kind,
            args,
            axes,
            ..
        } => {
            let x = reduction_of(infos, node, *kind, args.as_slice(), axes, ins);
            reduction_steps(alloc, &setting(options, first), &x)
        }
        Form::ArgPlace {
            least,
            args,
            axis,
            ..
        } => {
            let x = search_of(infos, node, *least, args.as_slice(), *axis, ins);
            search_steps(alloc, &setting(options, first), &x)
        }
        Form::Matmul { args } => {
            let aligned = align_operands(alloc, infos, options, node, form, ins, first)?;
            matmul_steps(aligned, infos, options, node, args.as_slice())
        }
        Form::CumulativeSum { args, axis } => {
            let x = cumulative_of(infos, node, args.as_slice(), *axis, ins);
            cumulative_steps(alloc, &setting(options, first), &x)
        }
        Form::GroupBy {
            least,
            args,
            axis,
            groups,
        } => {
            let x = grouped_of(infos, node, *least, args.as_slice(), *axis, *groups);
            let aligned = align_operands(alloc, infos, options, node, form, ins, first)?;
            group_steps(aligned, options, &x)
        }
        Form::Rechunk { args, .. } => {
            let array = array_of(infos, args.as_slice(), 0);
            rechunk_steps(alloc, infos, &copying(options, first), node, array, ins)
        }
        Form::Input { .. } => {
            rechunk_steps(
                alloc,
                infos,
                &copying(options, first),
                node,
                info_at(infos, node),
                ins,
            )
        }
        view => view_steps(alloc, infos, options, node, view, sources, first),
    }
}
