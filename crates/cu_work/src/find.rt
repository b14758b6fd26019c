//! The tasks of a plan that are done already.
ghost use Rattle.std.specs.Prelude.{◌≡◌, ◌+◌, ◌*◌, ◌<◌, ◌∷◌, [], length, Some, IfOk, IfErr, OnOk};
ghost use Rattle.cu_store.specs.Faults.{Rose};
ghost use Rattle.cu_store.specs.Held.{Contents};
ghost use Rattle.cu_store.specs.Steps.{Shown, NoChange, Steps, OnceEach};
ghost use Rattle.cu_op.specs.Cells.{tasks_of};
ghost use Rattle.cu_op.specs.Schedule.{op_of};
ghost use Rattle.cu_table.specs.Numbers.{first_task, task_count};
ghost use Rattle.cu_work.specs.Order.{task_keys, operation_keys, plan_keys};
ghost use Rattle.cu_work.specs.Search.{AreAsked, IsSearched, IsSearchFault, IsSearchEnd, NamesStored};
ghost use Rattle.cu_work.specs.World.{IsFound};

use crate::way::key_of;
use cu_op::{Plan, outputs, tasks};
use cu_store::{DepotFault, Key, PutStore, has_tries};
use std::alloc::Global;

/// Why finding the tasks that are done ended.
#[derive(Clone, Copy, Debug, PartialEq, Eq)]
pub enum FindFault {
    /// All calls for this key failed.
    Failed(Key),
    /// There was no memory for the list, or the depot lacked memory.
    NoMemory,
}

/// Whether a key is held.
fn find_key<D: PutStore>(depot: &mut D, key: &Key, retries: u32) -> Result<bool, FindFault>
    ensures asked { IfOk result (AreAsked (retries + 1) (key.now ∷ []) (D.shown depot.old) (D.shown depot.new)) }
    ensures cause { IfErr result (IsSearchFault (retries + 1) (key.now ∷ []) (D.shown depot.old, D.shown depot.new)) }
{
    match has_tries(depot, key, retries) {
        Ok(held) => Ok(held),
        Err(DepotFault::Failed) => Err(FindFault::Failed(*key)),
        Err(DepotFault::NoMemory) => Err(FindFault::NoMemory),
    }
}

/// Whether all chunks that a task writes are held. Each is asked for, and again where the store failed,
/// at most `retries` times.
///
/// `Failed`: all calls for this key failed. `NoMemory`: the depot lacked memory.
pub fn find_task<D: PutStore>(
    plan: &Plan,
    depot: &mut D,
    op: u32,
    task: u32,
    retries: u32,
) -> Result<bool, FindFault>
    requires operation { op < length plan.now.ops }
    requires task { task < tasks_of plan.now.arrays (op_of plan.now op) }
    ensures asked { IfOk result (AreAsked (retries + 1) (task_keys plan.now op task) (D.shown depot.old) (D.shown depot.new)) }
    ensures cause { IfErr result (IsSearchFault (retries + 1) (task_keys plan.now op task) (D.shown depot.old, D.shown depot.new)) }
{
    let mut all = true;
    for cell in outputs(plan, op, task) {
        match find_key(depot, &key_of(plan, &cell), retries) {
            Ok(held) => all = all && held,
            Err(fault) => return Err(fault),
        }
    }
    Ok(all)
}

/// Writes to the list which tasks of an operation are done, where `first` is the number of its first task.
fn find_operation<D: PutStore>(
    plan: &Plan,
    depot: &mut D,
    op: u32,
    first: usize,
    done: &mut [bool],
    retries: u32,
) -> Result<(), FindFault>
    requires operation { op < length plan.now.ops }
    requires first { first ≡ first_task plan.now op }
    requires tasks { length done.old ≡ task_count plan.now }
    ensures tasks { length done.new ≡ task_count plan.now }
    ensures searched { (start : Shown) → IsSearched (retries + 1) plan.now op 0 (start, D.shown depot.old) done.old
        → OnOk result (IsSearched (retries + 1) plan.now (op + 1) 0 (start, D.shown depot.new) done.new) }
    ensures cause { IfErr result (IsSearchFault (retries + 1) (operation_keys plan.now op (tasks_of plan.now.arrays (op_of plan.now op))) (D.shown depot.old, D.shown depot.new)) }
{
    for task in 0..tasks(plan, op) {
        match find_task(plan, depot, op, task, retries) {
            Ok(held) => done[first + task as usize] = held,
            Err(fault) => return Err(fault),
        }
    }
    Ok(())
}

/// Writes to the list which tasks of the plan are done.
fn find_tasks<D: PutStore>(
    plan: &Plan,
    depot: &mut D,
    done: &mut [bool],
    retries: u32,
) -> Result<(), FindFault>
    requires { length done.old ≡ task_count plan.now }
    ensures searched { OnOk result (IsSearched (retries + 1) plan.now (length plan.now.ops) 0 (D.shown depot.old, D.shown depot.new) done.new) }
    ensures cause { IfErr result (IsSearchFault (retries + 1) (plan_keys plan.now (length plan.now.ops)) (D.shown depot.old, D.shown depot.new)) }
{
    let mut first = 0;
    for op in 0..plan.ops().len() as u32 {
        if let Err(fault) = find_operation(plan, depot, op, first, done, retries) {
            return Err(fault);
        }
        first += tasks(plan, op) as usize;
    }
    Ok(())
}

/// How many tasks the plan has.
fn count_tasks(plan: &Plan) -> usize
    ensures { result ≡ task_count plan.now }
{
    let mut count = 0;
    for op in 0..plan.ops().len() as u32 {
        count += tasks(plan, op) as usize;
    }
    count
}

/// For each task of the plan, in the order of operations and tasks, whether all chunks that it writes are held. It takes the memory
/// of the list first, and then asks for each chunk once, and again where the store failed, at most `retries` times.
///
/// A task is called done only where all its chunks are held at the end, and always where they all were when this was called. Nothing
/// changes but late puts that land.
///
/// `Failed`: all calls for this key failed. `NoMemory`: there was no memory for the list, and nothing was called, or the depot
/// lacked memory.
pub fn find_done<D: PutStore>(
    alloc: Global,
    depot: &mut D,
    plan: &Plan,
    retries: u32,
) -> Result<Vec<bool>, FindFault>
    ensures tasks { IfOk result (λ done. length done.items ≡ task_count plan.now) }
    ensures found { (held : Contents) → (D.shown depot.new).held ≡ Some held → IfOk result (λ done. IsFound plan.now held done.items) }
    ensures all { (held : Contents) → (D.shown depot.old).held ≡ Some held → IfOk result (λ done. NamesStored plan.now held done.items) }
    ensures step { Steps NoChange 0 ((retries + 1) * length (plan_keys plan.now (length plan.now.ops))) (D.shown depot.old) (D.shown depot.new) }
    ensures once { OnceEach (length (plan_keys plan.now (length plan.now.ops))) (D.shown depot.old) (D.shown depot.new) }
    ensures asked { OnOk result (Rose (length (plan_keys plan.now (length plan.now.ops))) (D.shown depot.old).calls (D.shown depot.new).calls) }
    ensures cause { IfErr result (IsSearchEnd (retries + 1) (plan_keys plan.now (length plan.now.ops)) (D.shown depot.old, D.shown depot.new)) }
{
    let count = count_tasks(plan);
    let Ok(mut done) = vec![in alloc; false; count] else {
        return Err(FindFault::NoMemory);
    };
    match find_tasks(plan, depot, &mut done, retries) {
        Ok(()) => Ok(done),
        Err(fault) => Err(fault),
    }
}
