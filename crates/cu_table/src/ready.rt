//! What keeps a task waiting.
ghost use Rattle.std.specs.Prelude.{◌≡◌, false, length, MatchOption};
ghost use Rattle.cu_op.specs.Arrays.{is_inlined};
ghost use Rattle.cu_op.specs.Cells.{IsChunk};
ghost use Rattle.cu_table.specs.declared.state.TaskId.{TaskId as Id};
ghost use Rattle.cu_table.specs.Numbers.{IsTask, task_count, task_number};
ghost use Rattle.cu_table.specs.Machine.{AreInputsDone};
ghost use Rattle.cu_table.specs.Queue.{AreCounts, of_tasks, Blocks, WaitsForTask, IsCellDone};
ghost use Rattle.cu_table.specs.Queue.{IsUndoneMaker, HasListPlace, Settles, IsOver, IsLined};
ghost use Rattle.cu_table.specs.Queue.{IsWoken};

use crate::queue::Queue;
use crate::sources::{Sources, sources_of};
use crate::state::{TaskId, TaskState};
use crate::tasks::Tasks;
use cu_op::{Cell, PlanTask, inputs, maker};

/// The last task that isn't done and makes an input cell of a task, by its number; none where all
/// of them are done. The last, since tasks mostly end in their order: the others are then done
/// before it.
fn undone_input(tasks: &Tasks, states: &[TaskState], op: u32, task: u32) -> Option<usize>
    requires task { IsTask tasks.now op task }
    requires states { length states.now ≡ task_count tasks.now }
    ensures { MatchOption result (AreInputsDone tasks.now (of_tasks states.now) op task)
        (λ x. WaitsForTask tasks.now (of_tasks states.now) x op task) }
{
    let mut last = None;
    for cell in inputs(tasks.plan(), op, task) {
        match undone_maker(tasks, states, &cell) {
            None => {}
            Some(number) => last = Some(number),
        }
    }
    last
}

/// The task that makes a stored chunk, by its number, where it isn't done.
fn undone_maker(tasks: &Tasks, states: &[TaskState], cell: &Cell) -> Option<usize>
    requires chunk { IsChunk tasks.now.arrays cell.now }
    requires stored { is_inlined tasks.now.arrays cell.now.array ≡ false }
    requires states { length states.now ≡ task_count tasks.now }
    ensures { MatchOption result (IsCellDone tasks.now (of_tasks states.now) cell.now)
        (λ x. IsUndoneMaker tasks.now (of_tasks states.now) cell.now x) }
{
    match maker(tasks.plan(), cell) {
        None => None,
        Some((op, task)) => {
            let number = tasks.number(op, task);
            if states[number].done {
                None
            } else {
                Some(number)
            }
        }
    }
}

/// What keeps a task waiting: a task by its number or, past those, an operation; none where the
/// task is ready.
fn blocker(tasks: &Tasks, states: &[TaskState], undone: &[usize], id: TaskId) -> Option<usize>
    requires task { IsTask tasks.now id.op id.task }
    requires states { length states.now ≡ task_count tasks.now }
    requires counts { AreCounts tasks.now (of_tasks states.now) undone.now }
    ensures { MatchOption result (AreInputsDone tasks.now (of_tasks states.now) id.op id.task)
        (λ x. Blocks tasks.now (of_tasks states.now) x id.op id.task) }
{
    match sources_of(&PlanTask::make(tasks.plan(), id.op, id.task), undone) {
        Sources::Complete => None,
        Sources::Awaited(source) => Some(tasks.count() + source as usize),
        Sources::Partial => undone_input(tasks, states, id.op, id.task),
    }
}

/// Puts a waiting task into its list.
pub(crate) fn settle(
    tasks: &Tasks,
    states: &[TaskState],
    undone: &[usize],
    queue: &mut Queue,
    number: u32,
)
    requires states { length states.now ≡ task_count tasks.now }
    requires counts { AreCounts tasks.now (of_tasks states.now) undone.now }
    requires place { HasListPlace tasks.now queue.old number }
    ensures { (id : Id) → IsTask tasks.now id.op id.task
        → task_number tasks.now id.op id.task ≡ number
        → Settles tasks.now (of_tasks states.now) id queue.old queue.new }
{
    match blocker(tasks, states, undone, tasks.id(number as usize)) {
        None => queue.push(number),
        Some(thing) => queue.watch(thing, number),
    }
}

/// Puts anew the tasks that watched a thing that is over.
pub(crate) fn wake(
    tasks: &Tasks,
    states: &[TaskState],
    undone: &[usize],
    queue: &mut Queue,
    thing: usize,
)
    requires states { length states.now ≡ task_count tasks.now }
    requires counts { AreCounts tasks.now (of_tasks states.now) undone.now }
    requires over { IsOver tasks.now (of_tasks states.now) thing }
    requires lined { IsLined tasks.now (of_tasks states.now) (λ j. ⊥) queue.old }
    ensures { IsWoken tasks.now (of_tasks states.now) thing queue.old queue.new }
{
    while let Some(number) = queue.unwatch(thing) {
        settle(tasks, states, undone, queue, number);
    }
}
