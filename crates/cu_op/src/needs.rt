//! The memory of an operation with those that stand inside its tasks.
ghost use Rattle.std.specs.Prelude.{◌≡◌, ◌^◌, ◌<◌, ◌+◌, ◌∷◌, [], All, length, max, sum_by};
ghost use Rattle.cu_op.specs.Needs.{inner_ops, plan_over, IsCountable, IsNeedOf, IsOrdered};
ghost use Rattle.cu_op.specs.Operation.{reads_of, writes_of, IsReadable};
ghost use Rattle.cu_op.specs.Projection.{input_room, instruction_count, projection};
ghost use Rattle.cu_op.specs.Within.{ops_within};

use crate::kinds::input_room;
use crate::layout::ArrayInfo;
use crate::memory::scratch_room;
use crate::operation::{Op, Planned};
use crate::plan::Plan;

/// What operations need of memory together.
#[derive(Clone, Copy)]
struct Needs {
    /// The bytes of the greatest chunk that one of them reads or writes.
    scratch: u64,
    /// The bytes of the regions that they read.
    inputs: u64,
    /// The steps of their kernels.
    steps: u64,
}

/// The steps of the kernels of an operation and of those inside its tasks.
pub fn steps_within(plan: &Plan, op: u32) -> u64
    requires { op < length plan.now.ops }
    ensures { result ≡ sum_by instruction_count (ops_within plan.now op) }
{
    needs_within(plan.arrays(), plan.ops(), op).steps
}

/// What an operation and those inside its tasks need.
#[cycle(needs)]
fn needs_within(arrays: &[ArrayInfo], ops: &[Planned], op: u32) -> Needs
    requires operation { op < length ops.now }
    requires ordered { IsOrdered arrays.now ops.now }
    requires small { IsCountable arrays.now (ops_within (plan_over arrays.now ops.now 0) op) }
    ensures { IsNeedOf arrays.now (ops_within (plan_over arrays.now ops.now 0) op) result }
{
    let operation = &ops[op as usize].op;
    let mut needs = own_needs(arrays, operation);
    let reads = operation.reads();
    for at in 0..reads.len() {
        let inner = inner_needs(arrays, ops, op, reads[at]);
        needs = together(&needs, &inner);
    }
    needs
}

/// What stands inside for an array that an operation reads.
#[cycle(needs)]
fn inner_needs(arrays: &[ArrayInfo], ops: &[Planned], op: u32, array: u32) -> Needs
    requires operation { op < length ops.now }
    requires ordered { IsOrdered arrays.now ops.now }
    requires array { IsReadable arrays.now op array }
    requires small { IsCountable arrays.now (inner_ops (plan_over arrays.now ops.now 0) array) }
    ensures { IsNeedOf arrays.now (inner_ops (plan_over arrays.now ops.now 0) array) result }
{
    let info = &arrays[array as usize];
    if !info.inlined {
        return no_needs();
    }
    match info.maker {
        Some(maker) => needs_within(arrays, ops, maker),
        None => no_needs(),
    }
}

/// What an operation needs alone.
fn own_needs(arrays: &[ArrayInfo], op: &Op) -> Needs
    requires reads { All (λ a. a < length arrays.now) (reads_of op.now) }
    requires writes { All (λ a. a < length arrays.now) (writes_of op.now) }
    requires small { input_room arrays.now op.now < 2 ^ 64 }
    ensures { IsNeedOf arrays.now (op.now ∷ []) result }
{
    Needs {
        scratch: scratch_room(arrays, op),
        inputs: input_room(arrays, op),
        steps: u64::from(op.steps()),
    }
}

/// What no operation needs.
fn no_needs() -> Needs
    ensures scratch { result.scratch ≡ 0 }
    ensures inputs { result.inputs ≡ 0 }
    ensures steps { result.steps ≡ 0 }
{
    Needs {
        scratch: 0,
        inputs: 0,
        steps: 0,
    }
}

/// What two need together.
fn together(needs: &Needs, other: &Needs) -> Needs
    requires inputs { needs.now.inputs + other.now.inputs < 2 ^ 64 }
    requires steps { needs.now.steps + other.now.steps < 2 ^ 64 }
    ensures scratch { result.scratch ≡ max needs.now.scratch other.now.scratch }
    ensures inputs { result.inputs ≡ needs.now.inputs + other.now.inputs }
    ensures steps { result.steps ≡ needs.now.steps + other.now.steps }
{
    Needs {
        scratch: needs.scratch.max(other.scratch),
        inputs: needs.inputs + other.inputs,
        steps: needs.steps + other.steps,
    }
}
