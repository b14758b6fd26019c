//! Removing the keys of a plan.
ghost use Rattle.std.specs.Prelude.{◌+◌, ◌*◌, ◌<◌, ◌∷◌, [], length, OnErr};
ghost use Rattle.cu_store.specs.Steps.{NoChange, Steps};
ghost use Rattle.cu_op.specs.Cells.{tasks_of};
ghost use Rattle.cu_op.specs.Schedule.{op_of};
ghost use Rattle.cu_work.specs.Order.{task_keys, operation_keys, plan_keys};
ghost use Rattle.cu_work.specs.Removal.{AreRemoved, RemovalIn, keys_before_record, removed_keys};

use crate::way::key_of;
use cu_op::{Plan, outputs, tasks};
use cu_store::{Depot, DepotFault, Key, remove_tries};

/// Why removing the keys of a plan ended.
#[derive(Clone, Copy, Debug, PartialEq, Eq)]
pub enum RemoveFault {
    /// All calls for this key failed.
    Failed(Key),
    /// The depot lacked memory.
    NoMemory,
}

/// Removes one key.
fn remove_key<D: Depot>(depot: &mut D, key: &Key, retries: u32) -> Result<(), RemoveFault>
    ensures removed { AreRemoved (retries + 1) (key.now ∷ []) (D.shown depot.old) (D.shown depot.new) result }
    ensures kept { OnErr result (Steps NoChange 0 (retries + 1) (D.shown depot.old) (D.shown depot.new)) }
{
    match remove_tries(depot, key, retries) {
        Ok(()) => Ok(()),
        Err(DepotFault::Failed) => Err(RemoveFault::Failed(*key)),
        Err(DepotFault::NoMemory) => Err(RemoveFault::NoMemory),
    }
}

/// Removes the keys of the chunks that a task writes.
fn remove_task<D: Depot>(
    plan: &Plan,
    depot: &mut D,
    op: u32,
    task: u32,
    retries: u32,
) -> Result<(), RemoveFault>
    requires operation { op < length plan.now.ops }
    requires task { task < tasks_of plan.now.arrays (op_of plan.now op) }
    ensures { AreRemoved (retries + 1) (task_keys plan.now op task) (D.shown depot.old) (D.shown depot.new) result }
{
    for cell in outputs(plan, op, task) {
        if let Err(fault) = remove_key(depot, &key_of(plan, &cell), retries) {
            return Err(fault);
        }
    }
    Ok(())
}

/// Removes the keys of the chunks that the tasks of an operation write, in the order of the tasks.
fn remove_operation<D: Depot>(
    plan: &Plan,
    depot: &mut D,
    op: u32,
    retries: u32,
) -> Result<(), RemoveFault>
    requires { op < length plan.now.ops }
    ensures { AreRemoved (retries + 1) (operation_keys plan.now op (tasks_of plan.now.arrays (op_of plan.now op))) (D.shown depot.old) (D.shown depot.new) result }
{
    for task in 0..tasks(plan, op) {
        if let Err(fault) = remove_task(plan, depot, op, task, retries) {
            return Err(fault);
        }
    }
    Ok(())
}

/// Removes the keys of the chunks that the plan makes, in the order of its operations.
fn remove_chunks<D: Depot>(plan: &Plan, depot: &mut D, retries: u32) -> Result<(), RemoveFault>
    ensures { AreRemoved (retries + 1) (plan_keys plan.now (length plan.now.ops)) (D.shown depot.old) (D.shown depot.new) result }
{
    for op in 0..plan.ops().len() as u32 {
        if let Err(fault) = remove_operation(plan, depot, op, retries) {
            return Err(fault);
        }
    }
    Ok(())
}

/// Removes the metadata and the keys of the chunks.
fn remove_array<D: Depot>(
    plan: &Plan,
    depot: &mut D,
    metadata_key: &Key,
    retries: u32,
) -> Result<(), RemoveFault>
    ensures { AreRemoved (retries + 1) (keys_before_record plan.now metadata_key.now) (D.shown depot.old) (D.shown depot.new) result }
{
    match remove_key(depot, metadata_key, retries) {
        Ok(()) => remove_chunks(plan, depot, retries),
        Err(fault) => Err(fault),
    }
}

/// Removes the keys of a plan: the metadata of the array that it is made for, then those of its chunks by operation, task and chunk,
/// and last the record. Each call is made again where the store failed, at most `retries` times.
///
/// Afterwards each of these keys is absent, or a put that was late at first landed there. Whatever it answers, each of them is as it
/// was or absent, late puts aside, and no other key changes. After a fault the record is as it was, late puts aside.
///
/// `Failed`: all calls for this key failed, and those before it were removed. `NoMemory`: the depot lacked memory.
pub fn remove_plan<D: Depot>(
    plan: &Plan,
    depot: &mut D,
    record_key: &Key,
    metadata_key: &Key,
    retries: u32,
) -> Result<(), RemoveFault>
    ensures removed { AreRemoved (retries + 1) (removed_keys plan.now record_key.now metadata_key.now) (D.shown depot.old) (D.shown depot.new) result }
    ensures record { OnErr result (Steps (RemovalIn (keys_before_record plan.now metadata_key.now)) 0 ((retries + 1) * length (removed_keys plan.now record_key.now metadata_key.now))
        (D.shown depot.old) (D.shown depot.new)) }
{
    match remove_array(plan, depot, metadata_key, retries) {
        Ok(()) => remove_key(depot, record_key, retries),
        Err(fault) => Err(fault),
    }
}
