//! The keys of a plan that would be in the way of a run.
ghost use Rattle.std.specs.Prelude.{◌≡◌, ◌+◌, ◌<◌, ◌++◌, ◌∷◌, [], length};
ghost use Rattle.cu_op.specs.Cells.{tasks_of, IsChunk};
ghost use Rattle.cu_op.specs.Schedule.{op_of, key_of};
ghost use Rattle.cu_work.specs.Order.{task_keys, operation_keys, plan_keys, IsAsked};

use cu_codec::chunk_key;
use cu_op::{Cell, Plan, outputs, tasks};
use cu_store::{DepotFault, Key, PutStore, has_tries};

/// Why asking for the keys of a plan ended.
#[derive(Clone, Copy, Debug, PartialEq, Eq)]
pub enum WayFault {
    /// This key is held.
    Held(Key),
    /// All calls for this key failed.
    Failed(Key),
    /// The depot lacked memory.
    NoMemory,
}

/// Asks for one key.
fn ask_key<D: PutStore>(depot: &mut D, key: &Key, retries: u32) -> Result<(), WayFault>
    ensures { IsAsked (retries + 1) (D.shown depot.old) (D.shown depot.new) (key.now ∷ []) result }
{
    match has_tries(depot, key, retries) {
        Ok(true) => Err(WayFault::Held(*key)),
        Ok(false) => Ok(()),
        Err(DepotFault::Failed) => Err(WayFault::Failed(*key)),
        Err(DepotFault::NoMemory) => Err(WayFault::NoMemory),
    }
}

/// The key of a chunk.
pub fn key_of(plan: &Plan, cell: &Cell) -> Key
    requires { IsChunk plan.now.arrays cell.now }
    ensures { result ≡ key_of plan.now.arrays cell.now }
{
    let info = plan.array(cell.array);
    chunk_key(&info.prefix, info.layout.encoding, &cell.coord)
}

/// Asks for the keys of the chunks that a task writes.
fn ask_task<D: PutStore>(
    plan: &Plan,
    depot: &mut D,
    op: u32,
    task: u32,
    retries: u32,
) -> Result<(), WayFault>
    requires operation { op < length plan.now.ops }
    requires task { task < tasks_of plan.now.arrays (op_of plan.now op) }
    ensures { IsAsked (retries + 1) (D.shown depot.old) (D.shown depot.new) (task_keys plan.now op task) result }
{
    for cell in outputs(plan, op, task) {
        if let Err(fault) = ask_key(depot, &key_of(plan, &cell), retries) {
            return Err(fault);
        }
    }
    Ok(())
}

/// Asks for the keys of the chunks that the tasks of an operation write, in the order of the tasks.
fn ask_operation<D: PutStore>(
    plan: &Plan,
    depot: &mut D,
    op: u32,
    retries: u32,
) -> Result<(), WayFault>
    requires { op < length plan.now.ops }
    ensures { IsAsked (retries + 1) (D.shown depot.old) (D.shown depot.new) (operation_keys plan.now op (tasks_of plan.now.arrays (op_of plan.now op))) result }
{
    for task in 0..tasks(plan, op) {
        if let Err(fault) = ask_task(plan, depot, op, task, retries) {
            return Err(fault);
        }
    }
    Ok(())
}

/// Asks for the keys of the chunks that the plan makes, in the order of its operations.
fn ask_chunks<D: PutStore>(plan: &Plan, depot: &mut D, retries: u32) -> Result<(), WayFault>
    ensures { IsAsked (retries + 1) (D.shown depot.old) (D.shown depot.new) (plan_keys plan.now (length plan.now.ops)) result }
{
    for op in 0..plan.ops().len() as u32 {
        if let Err(fault) = ask_operation(plan, depot, op, retries) {
            return Err(fault);
        }
    }
    Ok(())
}

/// Asks for these keys, in their order.
fn ask_texts<D: PutStore>(depot: &mut D, texts: &[Key], retries: u32) -> Result<(), WayFault>
    ensures { IsAsked (retries + 1) (D.shown depot.old) (D.shown depot.new) texts.now result }
{
    for key in texts {
        if let Err(fault) = ask_key(depot, key, retries) {
            return Err(fault);
        }
    }
    Ok(())
}

/// Asks for the keys of a plan, those of its texts and then those of its chunks by operation, task and chunk, and refuses the first
/// that is held. Each is asked for again where the store failed, at most `retries` times.
///
/// `Held`: the key is held, and those before it were free. `Failed`: all calls for it failed. `NoMemory`: the depot lacked memory.
pub fn ask_keys<D: PutStore>(
    plan: &Plan,
    depot: &mut D,
    texts: &[Key],
    retries: u32,
) -> Result<(), WayFault>
    ensures { IsAsked (retries + 1) (D.shown depot.old) (D.shown depot.new) (texts.now ++ plan_keys plan.now (length plan.now.ops)) result }
{
    match ask_texts(depot, texts, retries) {
        Ok(()) => ask_chunks(plan, depot, retries),
        Err(fault) => Err(fault),
    }
}
