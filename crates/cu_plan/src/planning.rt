//! The plan of an expression.

ghost use Rattle.std.specs.Prelude.{◌≡◌, ◌≤◌, ◌<◌, ◌^◌, All, IfErr, IfOk, OnOk, None, Ok, Some};
ghost use Rattle.cu_expr.specs.Typing.{typed};
ghost use Rattle.cu_form.specs.Expression.{IsExpression};
ghost use Rattle.cu_fuse.specs.Close.{HasMadeNames};
ghost use Rattle.cu_lower.specs.Parts.{AreOptions};
ghost use Rattle.cu_lower.specs.Premises.{IsLowerable};
ghost use Rattle.cu_need.specs.Need.{AreWithinLimits};
ghost use Rattle.cu_node.specs.Info.{IsInfo};
ghost use Rattle.cu_op.specs.Arrays.{AllStored};
ghost use Rattle.cu_op.specs.Layout.{IsLayout};
ghost use Rattle.cu_op.specs.Sound.{Sound};
ghost use Rattle.cu_plan.specs.Plan.{inlined_plan_of, merged_plan_of};
ghost use Rattle.cu_plan.specs.Refusal.{refusal_of, IsRefusal};

use crate::fault::PlanFault;
use crate::laws::merged_plan_law;
use cu_expr::{InputInfo, Types, typing_law};
use cu_form::Expr;
use cu_fuse::{
    copies_joined_law, fuse, fuse_loading_once, inline_arrays, inlining_law, join_copies,
    made_names_law,
};
use cu_lower::{Options, array_law, lower};
use cu_need::{first_over, max_mem, plan_counts, typed_law};
use cu_node::NodeInfo;
use cu_op::Plan;
use cu_store::NoMemory;
use std::alloc::Global;

/// What is known of each node of an expression.
fn infos_of(
    alloc: Global,
    expr: &Expr,
    types: &Types,
    inputs: &[InputInfo],
) -> Result<Vec<NodeInfo>, NoMemory>
    requires types { typed inputs.now expr.now ≡ Ok types.now }
    ensures infos { IfOk result (λ infos. infos.items ≡ types.now) }
    ensures kept { OnOk result (All IsInfo types.now) }
    ensures form { IsExpression expr.now }
{
    typing_law();
    let mut infos = Vec::new(alloc);
    for k in 0..expr.nodes().len() {
        let Ok(()) = infos.push(*types.at(k as u32)) else {
            return Err(NoMemory);
        };
    }
    Ok(infos)
}

/// Refuses a plan whose live nodes need more than is allowed, or whose counts exceed their limits.
fn check(options: &Options, expr: &Expr, infos: &[NodeInfo]) -> Result<(), PlanFault>
    requires options { AreOptions options.now }
    requires limits { AreWithinLimits expr.now infos.now }
    ensures accepted { OnOk result (refusal_of options.now expr.now infos.now ≡ None) }
    ensures refused { IfErr result
        (λ fault. refusal_of options.now expr.now infos.now ≡ Some fault) }
{
    let Options {
        allowed,
        reserved,
        split_every,
        ..
    } = *options;
    if let Some(over) = first_over(allowed, reserved, split_every, expr, infos) {
        return Err(PlanFault::OverMemory {
            node: over.node,
            need: over.need,
            allowed,
        });
    }
    let counts = plan_counts(max_mem(allowed, reserved), split_every, expr, infos);
    match counts.over_limit() {
        Some(over) => Err(PlanFault::OverLimit {
            which: over.which,
            count: over.count,
        }),
        None => Ok(()),
    }
}

/// A plan of stored arrays after the merges of its maps, each of which loads an array once, in
/// which copies are joined and arrays are made where they are read.
fn inlined(alloc: Global, plan: Plan) -> Result<Plan, NoMemory>
    requires names { HasMadeNames plan }
    requires stored { AllStored plan.arrays }
    requires sound { Sound plan }
    requires room { plan.allowed < 2 ^ 64 }
    ensures plan { IfOk result (λ q. q ≡ inlined_plan_of plan) }
    ensures sound { IfOk result Sound }
{
    made_names_law();
    copies_joined_law();
    inlining_law();
    let fused = fuse_loading_once(alloc, plan)?;
    let joined = join_copies(alloc, fused)?;
    inline_arrays(alloc, joined)
}

/// The plan of an expression that is accepted, in which maps are merged and arrays may be inlined.
#[tactic(auto, unfolding(crate::specs::Plan::merged_plan_of))]
fn merged(
    alloc: Global,
    expr: &Expr,
    infos: &[NodeInfo],
    inputs: &[InputInfo],
    options: &Options,
) -> Result<Plan, NoMemory>
    requires { IsLowerable expr.now infos.now inputs.now options.now }
    ensures plan { IfOk result
        (λ plan. plan ≡ merged_plan_of expr.now infos.now inputs.now options.now) }
    ensures sound { IfOk result Sound }
    ensures needs { IfOk result (λ plan. All (λ o. o.projected ≤ options.now.allowed) plan.ops) }
{
    merged_plan_law();
    array_law();
    let plan = lower(alloc, expr, infos, inputs, options)?;
    if options.fusion == 2 {
        inlined(alloc, plan)
    } else {
        fuse(alloc, plan)
    }
}

/// The plan of an expression whose nodes have these types over these inputs. It is refused where a
/// live node needs more than is allowed, by the first that does, and else where its tasks or its
/// stored chunks are too many, as they are before maps are merged. Then maps are merged in it where
/// that needs no more than is allowed, so that each of its operations needs at most that. With the
/// option `--fusion 2` each map also loads an array once, copies are joined, and arrays are made
/// where they are read, where that too needs no more.
pub fn plan(
    alloc: Global,
    expr: &Expr,
    types: &Types,
    inputs: &[InputInfo],
    options: &Options,
) -> Result<Plan, PlanFault>
    requires types { typed inputs.now expr.now ≡ Ok types.now }
    requires layouts { All (λ i. IsLayout i.layout) inputs.now }
    requires options { AreOptions options.now }
    ensures plan { IfOk result
        (λ plan. plan ≡ merged_plan_of expr.now types.now inputs.now options.now) }
    ensures sound { IfOk result Sound }
    ensures needs { IfOk result (λ plan. All (λ o. o.projected ≤ options.now.allowed) plan.ops) }
    ensures lowerable { OnOk result (IsLowerable expr.now types.now inputs.now options.now) }
    ensures accepted { OnOk result (refusal_of options.now expr.now types.now ≡ None) }
    ensures refused { IfErr result (IsRefusal options.now expr.now types.now) }
{
    typing_law();
    typed_law();
    let Ok(infos) = infos_of(alloc, expr, types, inputs) else {
        return Err(PlanFault::NoMemory);
    };
    check(options, expr, &infos)?;
    match merged(alloc, expr, &infos, inputs, options) {
        Ok(plan) => Ok(plan),
        Err(_) => Err(PlanFault::NoMemory),
    }
}
