//! Which task is started next.
ghost use Rattle.std.specs.Prelude.{◌≡◌, ◌<◌, ◌≤◌, ◌↔◌, ◌++◌, ◌∷◌, [], IsTrue, length, set, false};
ghost use Rattle.std.specs.Prelude.{All, MatchOption, slice_index_or, vec_len, vec_capacity};
ghost use Rattle.cu_table.specs.Numbers.{IsTask, task_count, task_number};
ghost use Rattle.cu_table.specs.Machine.{no_task, one_copy_more, IsSingleState};
ghost use Rattle.cu_table.specs.Queue.{IsNextTask, HasNext, HasNoNext, NoneAlone};
ghost use Rattle.cu_table.specs.Table.{start_event};

use crate::queue::Queue;
use crate::records::Records;
use crate::state::{RunningCopy, TaskId, TaskState};
use crate::tasks::Tasks;
use cu_history::{Entry, EventKind};
use cu_op::projected;

/// Whether a task isn't done and runs in exactly one copy.
fn is_single(state: &TaskState) -> bool
    ensures { IsTrue result ↔ IsSingleState state.now }
{
    !state.done && state.copies == 1
}

/// A task that runs in exactly one copy.
fn single_copy(tasks: &Tasks, states: &[TaskState], copies: &[RunningCopy]) -> Option<TaskId>
    requires copies { All (λ c. IsTask tasks.now c.op c.task) copies.now }
    requires states { length states.now ≡ task_count tasks.now }
    ensures { MatchOption result (NoneAlone tasks.now states.now copies.now)
        (λ id. IsTask tasks.now id.op id.task
        × IsSingleState (slice_index_or states.now (task_number tasks.now id.op id.task) no_task)) }
{
    for copy in copies {
        if is_single(&states[tasks.number(copy.op, copy.task)]) {
            return Some(TaskId {
                op: copy.op,
                task: copy.task,
            });
        }
    }
    None
}

/// The task that is started next: a ready waiting one, or where none waits and there are second
/// copies, one that runs in exactly one copy. It looks at the running copies, of which there are at
/// most as many as workers.
pub(crate) fn next_task(
    tasks: &Tasks,
    states: &[TaskState],
    copies: &[RunningCopy],
    backups: bool,
    queue: &mut Queue,
) -> Option<TaskId>
    requires copies { All (λ c. IsTask tasks.now c.op c.task) copies.now }
    requires states { length states.now ≡ task_count tasks.now }
    requires waiting { All (λ j. j < task_count tasks.now) queue.old.waiting }
    ensures { MatchOption result
        (HasNoNext tasks.now backups states.now copies.now queue.old queue.new)
        (λ id. IsNextTask tasks.now backups states.now id queue.old queue.new) }
{
    if let Some(number) = queue.take() {
        return Some(tasks.id(number as usize));
    }
    if backups {
        single_copy(tasks, states, copies)
    } else {
        None
    }
}

/// Whether there is no task that could be started next.
pub(crate) fn none_next(
    tasks: &Tasks,
    states: &[TaskState],
    copies: &[RunningCopy],
    backups: bool,
    queue: &Queue,
) -> bool
    requires copies { All (λ c. IsTask tasks.now c.op c.task) copies.now }
    requires states { length states.now ≡ task_count tasks.now }
    ensures none { IsTrue result
        → HasNoNext tasks.now backups states.now copies.now queue.now queue.now }
    ensures some { result ≡ false → HasNext tasks.now backups states.now queue.now }
{
    if !queue.is_empty() {
        return false;
    }
    !backups || single_copy(tasks, states, copies).is_none()
}

/// Starts a task, and answers how many copies of it ran.
pub(crate) fn start(tasks: &Tasks, records: &mut Records, worker: u32, id: TaskId) -> u32
    requires task { IsTask tasks.now id.op id.task }
    requires states { length records.old.tasks.items ≡ task_count tasks.now }
    requires few { (slice_index_or records.old.tasks.items
        (task_number tasks.now id.op id.task) no_task).copies ≤ 1 }
    requires history { vec_len records.old.history < vec_capacity records.old.history }
    requires copies { vec_len records.old.copies < vec_capacity records.old.copies }
    ensures before { result
        ≡ (slice_index_or records.old.tasks.items
        (task_number tasks.now id.op id.task) no_task).copies }
    ensures history { records.new.history.items
        ≡ records.old.history.items ++ start_event tasks.now worker id.op id.task ∷ [] }
    ensures tasks { records.new.tasks.items
        ≡ set records.old.tasks.items (task_number tasks.now id.op id.task)
        (one_copy_more
        (slice_index_or records.old.tasks.items (task_number tasks.now id.op id.task) no_task)) }
    ensures copies { records.new.copies.items ≡ records.old.copies.items
        ++ (record { worker = worker; op = id.op; task = id.task }) ∷ [] }
    ensures ended { records.new.ended ≡ records.old.ended }
    ensures room { vec_capacity records.old.history ≤ vec_capacity records.new.history }
    ensures copy_room { vec_capacity records.old.copies ≤ vec_capacity records.new.copies }
{
    let number = tasks.number(id.op, id.task);
    let copy = records.tasks[number].copies;
    let room = projected(tasks.plan(), id.op);
    records.begin(
        number,
        Entry {
            kind: EventKind::Start,
            worker,
            op: id.op,
            task: id.task,
            room,
        },
    );
    copy
}
