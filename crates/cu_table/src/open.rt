//! What a table begins with.
ghost use Rattle.std.specs.Prelude.{◌≡◌, ◌+◌, ◌≤◌, [], take, drop, None, length, map, All, IfOk};
ghost use Rattle.std.specs.Prelude.{vec_capacity};
ghost use Rattle.cu_table.specs.Numbers.{task_count};
ghost use Rattle.cu_table.specs.Machine.{opened};
ghost use Rattle.cu_table.specs.Queue.{IsQueue, AreUndone, of_tasks, IsFresh, HasRoom};
ghost use Rattle.cu_op.specs.Sound.{Sound};
ghost use Rattle.cu_table.specs.Table.{undone_among};

use crate::line::Undone;
use crate::queue::Queue;
use crate::ready::settle;
use crate::records::Records;
use crate::state::TaskState;
use crate::tasks::Tasks;
use cu_op::tasks as count_tasks;
use cu_store::NoMemory;
use std::alloc::Global;

/// An empty history with room for `2 * (retries + 2)` entries a task, and the tasks, of which these
/// are done.
pub(crate) fn first_records(
    alloc: Global,
    tasks: &Tasks,
    retries: u32,
    done: &[bool],
) -> Result<Records, NoMemory>
    requires { length done.now ≡ task_count tasks.now }
    ensures history { IfOk result (λ r. r.history.items ≡ []) }
    ensures tasks { IfOk result (λ r. r.tasks.items ≡ map opened done.now) }
    ensures copies { IfOk result (λ r. r.copies.items ≡ []) }
    ensures ended { IfOk result (λ r. r.ended ≡ None) }
    ensures room { IfOk result
        (λ r. HasRoom tasks.now retries (vec_capacity r.history) (vec_capacity r.copies)) }
    ensures sound { Sound tasks.now }
{
    let count = tasks.count();
    let Ok(history) = Vec::with_capacity(alloc, 2 * (retries as usize + 2) * count) else {
        return Err(NoMemory);
    };
    let Ok(copies) = Vec::with_capacity(alloc, 2 * count) else {
        return Err(NoMemory);
    };
    Ok(Records {
        history,
        tasks: opened_tasks(alloc, done)?,
        copies,
        ended: None,
    })
}

/// A task that waits or is done.
fn opened(done: bool) -> TaskState
    ensures { result ≡ opened done }
{
    TaskState {
        failures: 0,
        copies: 0,
        done,
    }
}

/// The tasks, of which these are done.
fn opened_tasks(alloc: Global, done: &[bool]) -> Result<Vec<TaskState>, NoMemory>
    ensures { IfOk result (λ v. v.items ≡ map opened done.now) }
{
    let mut states = Vec::new(alloc);
    for is_done in done {
        if states.push(opened(*is_done)).is_err() {
            return Err(NoMemory);
        }
    }
    Ok(states)
}

/// How many of some tasks aren't done.
fn count_undone(states: &[TaskState]) -> usize
    ensures { result ≡ undone_among states.now }
{
    let mut count = 0;
    for state in states {
        if !state.done {
            count += 1;
        }
    }
    count
}

/// How many of so many tasks from one on aren't done.
fn count_part(states: &[TaskState], first: usize, count: usize) -> usize
    requires { first + count ≤ length states.now }
    ensures { result ≡ undone_among (take count (drop first states.now)) }
{
    count_undone(&states[first..first + count])
}

/// How many tasks aren't done, of each operation and of all.
pub(crate) fn first_undone(
    alloc: Global,
    tasks: &Tasks,
    states: &[TaskState],
) -> Result<Undone, NoMemory>
    requires { length states.now ≡ task_count tasks.now }
    ensures { IfOk result (λ u. AreUndone tasks.now states.now u) }
{
    let mut by_op = Vec::new(alloc);
    let mut at = 0;
    for op in 0..tasks.plan().ops().len() as u32 {
        let count = count_tasks(tasks.plan(), op) as usize;
        if by_op.push(count_part(states, at, count)).is_err() {
            return Err(NoMemory);
        }
        at += count;
    }
    Ok(Undone {
        by_op,
        left: count_undone(states),
    })
}

/// The waiting tasks in their lists, so that of the ready ones the first comes first.
pub(crate) fn first_queue(
    alloc: Global,
    tasks: &Tasks,
    states: &[TaskState],
    undone: &Undone,
) -> Result<Queue, NoMemory>
    requires states { length states.now ≡ task_count tasks.now }
    requires fresh { All IsFresh states.now }
    requires counts { AreUndone tasks.now states.now undone.now }
    ensures { IfOk result (λ q. IsQueue tasks.now (of_tasks states.now) q) }
{
    let count = tasks.count();
    let mut queue = Queue::make(alloc, count + tasks.plan().ops().len(), count)?;
    for number in (0..count).rev() {
        if !states[number].done {
            settle(tasks, states, &undone.by_op, &mut queue, number as u32);
        }
    }
    Ok(queue)
}
