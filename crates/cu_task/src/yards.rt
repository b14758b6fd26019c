//! Tasks of a plan whose chunks lie in a yard.
ghost use Rattle.std.specs.Prelude.{◌≡◌, ◌+◌, ◌*◌, ◌<◌, length, Some, IfErr, OnOk};
ghost use Rattle.cu_store.specs.Chunks.{Adds};
ghost use Rattle.cu_store.specs.Held.{Contents};
ghost use Rattle.cu_store.specs.Steps.{Steps};
ghost use Rattle.cu_store.specs.Yard.{shown_by};
ghost use Rattle.cu_op.specs.Cells.{tasks_of};
ghost use Rattle.cu_op.specs.Projection.{projection};
ghost use Rattle.cu_op.specs.Schedule.{op_of};
ghost use Rattle.cu_op.specs.Value.{stored_inputs};
ghost use Rattle.cu_region.specs.Calls.{Made};
ghost use Rattle.cu_region.specs.Passes.{IsLaterIn};
ghost use Rattle.cu_task.specs.Calls.{calls_of, tally_of, HasSureCalls};
ghost use Rattle.cu_task.specs.Serving.{ServesPlan, HasSeenInputs, HasSeenOutputs, IsBadOfInput};
ghost use Rattle.cu_task.specs.Task.{steps_within, TaskChange, HoldsCells, IsTaskFault};

use crate::run::run_task_of;
use cu_op::{Plan, range_law};
use cu_store::{InYard, TaskFault, Yard};

/// Runs a task of a plan in a yard that serves the plan's chunks, as `run_task_of`: each chunk that the plan makes has a made key,
/// each chunk of an input a key that is only read, and the yard's promise, where it is told, is of the chunks' values. The pass has
/// seen each chunk of a made array that the task reads; after Ok it has seen each that the task writes.
///
/// `bytes` and `words` are all the memory that it has: the operation's projection less what is reserved, a word counted as
/// eight bytes, with 64 words for each step of the kernel and of those inside.
///
/// `Store`: a call of the yard failed. `BadChunk`: a chunk that the task reads has another number of bytes than a chunk has; where
/// the yard tells its promise it is a chunk of an input. `NoMemory`: the yard lacked memory.
pub fn run_task<Y: Yard>(
    yard: &Y,
    pass: &mut Y::Pass,
    plan: &Plan,
    op: u32,
    task: u32,
    bytes: &mut [u8],
    words: &mut [u64],
) -> Result<(), TaskFault>
    requires own { Y.owns yard.now pass.old }
    requires serves { ServesPlan plan.now (Y.serves yard.now) }
    requires inputs { HasSeenInputs plan.now op task (Y.knows pass.old).seen }
    requires operation { op < length plan.now.ops }
    requires task { task < tasks_of plan.now.arrays (op_of plan.now op) }
    requires words { length words.old ≡ 64 * steps_within plan.now op }
    requires room { plan.now.reserved + length bytes.old + 8 * length words.old ≡ projection plan.now op }
    ensures own { Y.owns yard.now pass.new }
    ensures later { IsLaterIn (Y.serves yard.now).specs (Y.knows pass.old) (Y.knows pass.new) }
    ensures seen { OnOk result (HasSeenOutputs plan.now op task (Y.knows pass.new).seen) }
    ensures stored { (entries : Contents) → (Y.serves yard.now).entries ≡ Some entries
        → OnOk result (HoldsCells plan.now op task (stored_inputs plan.now.arrays entries) (shown_by (Y.knows pass.new))) }
    ensures step { Steps (TaskChange plan.now op task (shown_by (Y.knows pass.old))) 0 (calls_of plan.now op task)
        (shown_by (Y.knows pass.old)) (shown_by (Y.knows pass.new)) }
    ensures all { HasSureCalls plan.now op → OnOk result (Made (calls_of plan.now op task) (Y.knows pass.old).calls (Y.knows pass.new).calls) }
    ensures called { HasSureCalls plan.now op
        → OnOk result (Adds (tally_of (Y.weight yard.now) plan.now op task) (Y.tally pass.old) (Y.tally pass.new)) }
    ensures cause { IfErr result (IsTaskFault (shown_by (Y.knows pass.old)) (shown_by (Y.knows pass.new)) plan.now op task) }
    ensures bad { IfErr result (IsBadOfInput plan.now (Y.serves yard.now).promise (Y.serves yard.now).entries) }
{
    range_law();
    let _ops = plan.ops();
    run_task_of::<InYard<Y>>(yard, pass, plan, op, task, bytes, words)
}
