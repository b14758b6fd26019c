//! The tasks of a part that were chosen, one after another.
ghost use Rattle.std.specs.Prelude.{◌≡◌, ◌+◌, ◌*◌, ◌<◌, ◌≤◌, IfErr, IfOk, OnOk, length};
ghost use Rattle.cu_store.specs.Steps.{Shown, Steps};
ghost use Rattle.cu_op.specs.Cells.{tasks_of};
ghost use Rattle.cu_op.specs.Schedule.{op_of};
ghost use Rattle.cu_op.specs.Elements.{Elements};
ghost use Rattle.cu_run_law.specs.Left.{IsLeft};
ghost use Rattle.cu_run_law.specs.Pieces.{chunks_alone, HoldsTask};
ghost use Rattle.cu_task.specs.Task.{TaskChange, HoldsCells, IsTaskReady, IsTaskFault};
ghost use Rattle.cu_task.specs.Calls.{calls_of};
ghost use Rattle.cu_work.specs.Asked.{AreChosen};
ghost use Rattle.cu_work.specs.Ended.{count_of_part};
ghost use Rattle.cu_work.specs.Part.{HasInputs, IsPartOf, TaskPut};
ghost use Rattle.cu_work.specs.Tried.{AreTaskStarts, ChosenPut, HaveRun, IsMemoryOf, IsStoppedBy, IsTried, chosen_calls, ends_tries, task_fault, task_id};

use crate::part::{Part, PartCounts, PartFault};
use crate::rooms::{task_bytes, task_words};
use cu_op::{Plan, range_law};
use cu_store::{InDepot, NoMemory, PutStore, TaskFault};
use cu_task::run_task_of;
use std::alloc::Global;

/// The memory that a task of an operation is lent.
#[derive(Drop)]
pub(crate) struct TaskMemory {
    bytes: Vec<u8>,
    words: Vec<u64>,
}

impl TaskMemory {
    /// The memory for the tasks of an operation.
    pub(crate) fn make(alloc: Global, plan: &Plan, op: u32) -> Result<TaskMemory, NoMemory>
        requires { op < length plan.now.ops }
        ensures { IfOk result (IsMemoryOf plan.now op) }
    {
        let Ok(bytes) = vec![in alloc; 0u8; task_bytes(plan, op)] else {
            return Err(NoMemory);
        };
        let Ok(words) = vec![in alloc; 0u64; task_words(plan, op)] else {
            return Err(NoMemory);
        };
        Ok(TaskMemory { bytes, words })
    }
}

/// One try of a task, straight in the depot.
fn try_task<D: PutStore>(
    plan: &Plan,
    depot: &mut D,
    op: u32,
    task: u32,
    memory: &mut TaskMemory,
) -> Result<(), TaskFault>
    requires operation { op < length plan.now.ops }
    requires task { task < tasks_of plan.now.arrays (op_of plan.now op) }
    requires memory { IsMemoryOf plan.now op memory.old }
    ensures memory { IsMemoryOf plan.now op memory.new }
    ensures stored { (env : Elements) → IsTaskReady plan.now op task env (D.shown depot.old)
        → OnOk result (HoldsCells plan.now op task env (D.shown depot.new)) }
    ensures step { Steps (TaskChange plan.now op task (D.shown depot.old)) 0 (calls_of plan.now op task)
        (D.shown depot.old) (D.shown depot.new) }
    ensures cause { IfErr result (IsTaskFault (D.shown depot.old) (D.shown depot.new) plan.now op task) }
{
    run_task_of::<InDepot<D>>(
        &(),
        depot,
        plan,
        op,
        task,
        &mut memory.bytes,
        &mut memory.words,
    )
}

/// Whether a task that ended so isn't tried again: the store didn't fail.
fn ends_tries(fault: &TaskFault) -> bool
    ensures { result ≡ ends_tries fault.now }
{
    match fault {
        TaskFault::Store => false,
        TaskFault::BadChunk { .. } | TaskFault::NoMemory => true,
    }
}

/// Runs a task, and again where the store failed, at most `retries` times. Says how often it failed
/// before it was done.
fn run_tries<D: PutStore>(
    plan: &Plan,
    depot: &mut D,
    op: u32,
    task: u32,
    memory: &mut TaskMemory,
    retries: u32,
) -> Result<u32, TaskFault>
    requires operation { op < length plan.now.ops }
    requires task { task < tasks_of plan.now.arrays (op_of plan.now op) }
    requires memory { IsMemoryOf plan.now op memory.old }
    requires inputs { HasInputs plan.now op task (D.shown depot.old).held }
    ensures memory { IsMemoryOf plan.now op memory.new }
    ensures step { Steps (TaskPut plan.now op task (D.shown depot.old)) 0 ((retries + 1) * calls_of plan.now op task)
        (D.shown depot.old) (D.shown depot.new) }
    ensures done { (env : Elements) → IsLeft (chunks_alone plan.now) env (D.shown depot.old)
        → OnOk result (HoldsTask (chunks_alone plan.now) env op task (D.shown depot.new)) }
    ensures tried { IsTried plan.now (task_id op task) retries (D.shown depot.old, D.shown depot.new) result }
{
    range_law();
    // that the plan is sound is told by the plan alone
    let _ops = plan.ops();
    for failures in 0..retries {
        match try_task(plan, depot, op, task, memory) {
            Ok(()) => return Ok(failures),
            Err(fault) => {
                if ends_tries(&fault) {
                    return Err(fault);
                }
            }
        }
    }
    match try_task(plan, depot, op, task, memory) {
        Ok(()) => Ok(retries),
        Err(fault) => Err(fault),
    }
}

/// Why a part isn't done, where this task of it ended so.
fn task_fault(task: u32, fault: TaskFault) -> PartFault
    ensures { result ≡ task_fault task fault }
{
    match fault {
        TaskFault::Store => PartFault::Broken { task },
        TaskFault::BadChunk { key, got, want } => PartFault::BadChunk { key, got, want },
        TaskFault::NoMemory => PartFault::NoMemory,
    }
}

/// Runs the tasks of a part that are chosen, in their order.
pub(crate) fn run_chosen<D: PutStore>(
    plan: &Plan,
    depot: &mut D,
    part: &Part,
    chosen: &[bool],
    memory: &mut TaskMemory,
    retries: u32,
) -> Result<PartCounts, PartFault>
    requires part { IsPartOf plan.now part.now }
    requires whole { length chosen.now ≡ count_of_part part.now }
    requires few { retries ≤ 8 }
    requires ready { (old : Shown) × AreChosen plan.now part.now (old, D.shown depot.old) chosen.now }
    requires memory { IsMemoryOf plan.now part.now.op memory.old }
    ensures run { OnOk result (HaveRun plan.now part.now chosen.now retries (count_of_part part.now) (D.shown depot.old, D.shown depot.new)) }
    ensures step { Steps (ChosenPut plan.now part.now chosen.now (D.shown depot.old)) 0
        ((retries + 1) * chosen_calls plan.now part.now chosen.now (count_of_part part.now)) (D.shown depot.old) (D.shown depot.new) }
    ensures starts { IfOk result (AreTaskStarts retries chosen.now (count_of_part part.now) ((D.shown depot.old).faults, (D.shown depot.new).faults)) }
    ensures stopped { IfErr result (IsStoppedBy plan.now part.now chosen.now (retries + 1) (D.shown depot.old, D.shown depot.new)) }
{
    range_law();
    let _ops = plan.ops();
    let mut counts = PartCounts {
        starts: 0,
        failures: 0,
    };
    for number in 0..chosen.len() {
        if chosen[number] {
            let task = part.from + number as u32;
            match run_tries(plan, depot, part.op, task, memory, retries) {
                Ok(failures) => {
                    counts.starts += u64::from(failures) + 1;
                    counts.failures += u64::from(failures);
                }
                Err(fault) => return Err(task_fault(task, fault)),
            }
        }
    }
    Ok(counts)
}
