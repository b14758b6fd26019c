//! What the end of a copy changes in the counts and in the lists of waiting tasks.
ghost use Rattle.std.specs.Prelude.{◌≡◌, ◌≤◌, length, set, slice_index_or, false, true, None};
ghost use Rattle.cu_table.specs.Numbers.{IsTask, task_count, task_number};
ghost use Rattle.cu_table.specs.Queue.{IsQueue, of_tasks, AreUndone, LeavesAs};
ghost use Rattle.cu_table.specs.Machine.{no_task};

use crate::end::End;
use crate::queue::Queue;
use crate::ready::wake;
use crate::state::{TaskId, TaskState};
use crate::tasks::Tasks;
use cu_history::EventKind;

/// How many tasks of each operation aren't done, and how many of all.
#[derive(Drop)]
pub(crate) struct Undone {
    pub(crate) by_op: Vec<usize>,
    pub(crate) left: usize,
}

/// A task is done.
fn finish(
    tasks: &Tasks,
    states: &[TaskState],
    undone: &mut Undone,
    queue: &mut Queue,
    id: TaskId,
    was: TaskState,
)
    requires task { IsTask tasks.now id.op id.task }
    requires states { length states.now ≡ task_count tasks.now }
    requires before { was.done ≡ false }
    requires done { (slice_index_or states.now (task_number tasks.now id.op id.task) no_task).done
        ≡ true }
    requires counts { AreUndone tasks.now
        (set states.now (task_number tasks.now id.op id.task) was) undone.old }
    requires queue { IsQueue tasks.now
        (of_tasks (set states.now (task_number tasks.now id.op id.task) was)) queue.old }
    requires copies { 1 ≤ was.copies }
    ensures counts { AreUndone tasks.now states.now undone.new }
    ensures queue { IsQueue tasks.now (of_tasks states.now) queue.new }
{
    let op = id.op as usize;
    undone.left -= 1;
    undone.by_op[op] -= 1;
    wake(
        tasks,
        states,
        &undone.by_op,
        queue,
        tasks.number(id.op, id.task),
    );
    if undone.by_op[op] == 0 {
        wake(tasks, states, &undone.by_op, queue, tasks.count() + op);
    }
}

/// A copy of a task has ended.
pub(crate) fn line_up(
    tasks: &Tasks,
    states: &[TaskState],
    undone: &mut Undone,
    queue: &mut Queue,
    id: TaskId,
    end: &End,
)
    requires task { IsTask tasks.now id.op id.task }
    requires states { length states.now ≡ task_count tasks.now }
    requires state { slice_index_or states.now (task_number tasks.now id.op id.task) no_task
        ≡ end.now.state }
    requires leaves { LeavesAs end.now }
    requires counts { AreUndone tasks.now
        (set states.now (task_number tasks.now id.op id.task) end.now.was) undone.old }
    requires queue { end.now.ended ≡ None
        → IsQueue tasks.now
        (of_tasks (set states.now (task_number tasks.now id.op id.task) end.now.was)) queue.old }
    ensures counts { AreUndone tasks.now states.now undone.new }
    ensures queue { end.now.ended ≡ None → IsQueue tasks.now (of_tasks states.now) queue.new }
{
    match end.kind {
        EventKind::Done => finish(tasks, states, undone, queue, id, end.was),
        EventKind::Failed => {
            if end.ended.is_none() {
                if end.state.copies == 0 {
                    queue.push(tasks.number(id.op, id.task) as u32);
                }
            }
        }
        _ => {}
    }
}
