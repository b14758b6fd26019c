//! Tasks that are run.
ghost use Rattle.std.specs.Prelude.{◌≡◌, ℕ, ◌+◌, ◌*◌, ◌<◌, length, IfErr, OnOk};
ghost use Rattle.cu_store.specs.Chunks.{Adds, Allows, StaysOpen};
ghost use Rattle.cu_store.specs.Steps.{Steps};
ghost use Rattle.cu_op.specs.Cells.{tasks_of};
ghost use Rattle.cu_op.specs.Elements.{Elements};
ghost use Rattle.cu_op.specs.Projection.{projection};
ghost use Rattle.cu_op.specs.Schedule.{op_of};
ghost use Rattle.cu_region.specs.Calls.{Made};
ghost use Rattle.cu_task.specs.Asks.{MayReadTask, MayReadWritten};
ghost use Rattle.cu_task.specs.Calls.{calls_of, tally_of, HasSureCalls};
ghost use Rattle.cu_task.specs.OfTask.{calls_to_read, calls_to_write, kernel_words, tally_of_task};
ghost use Rattle.cu_task.specs.OfTask.{ChangeBy, HoldsMade, IsOwnFault, IsOwnTask, IsReadyFor};
ghost use Rattle.cu_task.specs.OfTask.{IsSure, MayRead, MayReadMade};
ghost use Rattle.cu_task.specs.Task.{steps_within, HoldsCells, IsTaskFault};
ghost use Rattle.cu_task.specs.Task.{IsTaskReady, TaskChange};

use crate::chunk_copies::{copy_by_chunks, is_copied_by_chunks};
use crate::making::make_result;
use crate::results::write_results;
use crate::room::TaskRoom;
use cu_op::{Plan, PlanTask};
use cu_store::{Chunks, TaskFault};

/// Runs a task of a plan: reads what it needs of its inputs, computes the region of its result, and stores the chunks that lie in it.
///
/// `bytes` and `words` are all the memory that it has: the operation's projection less what is
/// reserved, a word counted as eight bytes, with 64 words for each step of the kernel and of those
/// inside. An array that is made where it is read is computed in this memory, by the operation that
/// makes it.
///
/// It puts no key but those of the chunks that it writes. Where it is ready when it begins (its inputs are in place, no late put
/// changes one, and each on a chunk that it writes carries that chunk's value), each of these puts is the chunk's value, and after
/// `Ok` each chunk that it writes holds its value. It makes at most one call of the store for each chunk of each of its inputs
/// that it reads and one for each chunk that it writes, and after `Ok` exactly so many, as far as the count of calls goes. For a chunk
/// that is made where it is read they are the calls by which it is made. Of a view the chunks of its sources are counted from which
/// an element of the task's region comes; of a reshape all of its source, and there it may make fewer calls.
///
/// Each key is called as often as it is counted so (`called`): whatever weight each key has, the calls add to the tally what those
/// of the chunks add that are read and written.
///
/// `Store`: a call of the store failed. `BadChunk`: a chunk that the task reads is held with another number of bytes than a
/// chunk has. `NoMemory`: the store lacked memory.
pub fn run_task_of<C: Chunks>(
    store: &C::Store,
    access: &mut C::Access,
    plan: &Plan,
    op: u32,
    task: u32,
    bytes: &mut [u8],
    words: &mut [u64],
) -> Result<(), TaskFault>
    requires belongs { C.belongs store.now access.old }
    requires may { MayReadTask plan.now op task (C.may_get store.now access.old) }
    requires puts { Allows (TaskChange plan.now op task (C.shown access.old)) (C.may_put store.now) }
    requires operation { op < length plan.now.ops }
    requires task { task < tasks_of plan.now.arrays (op_of plan.now op) }
    requires words { length words.old ≡ 64 * steps_within plan.now op }
    requires room { plan.now.reserved + length bytes.old + 8 * length words.old ≡ projection plan.now op }
    ensures open { StaysOpen (C.belongs store.now access.new) (C.may_get store.now access.old) (C.may_get store.now access.new) }
    ensures got { OnOk result (MayReadWritten plan.now op task (C.may_get store.now access.new)) }
    ensures stored { (env : Elements) → IsTaskReady plan.now op task env (C.shown access.old) → OnOk result (HoldsCells plan.now op task env (C.shown access.new)) }
    ensures step { Steps (TaskChange plan.now op task (C.shown access.old)) 0 (calls_of plan.now op task) (C.shown access.old) (C.shown access.new) }
    ensures all { HasSureCalls plan.now op → OnOk result (Made (calls_of plan.now op task) (C.shown access.old).calls (C.shown access.new).calls) }
    ensures called { HasSureCalls plan.now op
        → OnOk result (Adds (tally_of (C.weight store.now) plan.now op task) (C.tally access.old) (C.tally access.new)) }
    ensures cause { IfErr result (IsTaskFault (C.shown access.old) (C.shown access.new) plan.now op task) }
{
    run_plan_task::<C>(store, access, &PlanTask::make(plan, op, task), bytes, words)
}

/// The same of a task that is at hand: it makes its result in what it is lent, and stores it.
fn run_plan_task<C: Chunks>(
    store: &C::Store,
    access: &mut C::Access,
    task: &PlanTask<'_>,
    bytes: &mut [u8],
    words: &mut [u64],
) -> Result<(), TaskFault>
    requires belongs { C.belongs store.now access.old }
    requires may { MayRead task.now (C.may_get store.now access.old) }
    requires puts { Allows (ChangeBy task.now (C.shown access.old)) (C.may_put store.now) }
    requires own { IsOwnTask task.now }
    requires words { length words.old ≡ kernel_words task.now }
    requires room { task.now.plan.reserved + length bytes.old + 8 * length words.old
        ≡ projection task.now.plan task.now.op }
    ensures open { StaysOpen (C.belongs store.now access.new) (C.may_get store.now access.old)
        (C.may_get store.now access.new) }
    ensures got { OnOk result (MayReadMade task.now (C.may_get store.now access.new)) }
    ensures stored { (env : Elements) → IsReadyFor task.now env (C.shown access.old)
        → OnOk result (HoldsMade task.now env (C.shown access.new)) }
    ensures step { Steps (ChangeBy task.now (C.shown access.old)) 0
        (calls_to_read task.now + calls_to_write task.now) (C.shown access.old) (C.shown access.new) }
    ensures all { IsSure task.now
        → OnOk result (Made (calls_to_read task.now + calls_to_write task.now)
        (C.shown access.old).calls (C.shown access.new).calls) }
    ensures called { IsSure task.now
        → OnOk result (Adds (tally_of_task (C.weight store.now) task.now) (C.tally access.old) (C.tally access.new)) }
    ensures cause { IfErr result (IsOwnFault task.now (C.shown access.old) (C.shown access.new)) }
{
    if is_copied_by_chunks(task) {
        return copy_by_chunks::<C>(store, access, task, bytes);
    }
    make_result::<C>(store, access, task, bytes, words)?;
    let mut room = TaskRoom::split(task, bytes);
    write_results::<C>(store, access, task, &mut room)
}
