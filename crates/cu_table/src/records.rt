//! The history, and the state that it leaves.
ghost use Rattle.std.specs.Prelude.{◌≡◌, ◌<◌, ◌≤◌, ◌∷◌, ◌++◌, [], length, set, slice_index_or};
ghost use Rattle.std.specs.Prelude.{vec_len, vec_capacity};
ghost use Rattle.cu_table.specs.Machine.{no_task, one_copy_more, without, copy_of};

use crate::state::{Ending, RunningCopy, TaskState};
use cu_history::Entry;

/// The history, and the state that it leaves.
#[derive(Drop)]
pub(crate) struct Records {
    pub(crate) history: Vec<Entry>,
    pub(crate) tasks: Vec<TaskState>,
    pub(crate) copies: Vec<RunningCopy>,
    pub(crate) ended: Option<Ending>,
}

/// Appends to a list that has room.
fn append_entry(history: &mut Vec<Entry>, entry: Entry)
    requires { vec_len history.old < vec_capacity history.old }
    ensures items { history.new.items ≡ history.old.items ++ entry ∷ [] }
    ensures capacity { vec_capacity history.old ≤ vec_capacity history.new }
{
    match history.push(entry) {
        Ok(()) => {}
        Err(_) => unreachable!(),
    }
}

/// Appends to a list that has room.
fn append_copy(copies: &mut Vec<RunningCopy>, copy: RunningCopy)
    requires { vec_len copies.old < vec_capacity copies.old }
    ensures items { copies.new.items ≡ copies.old.items ++ copy ∷ [] }
    ensures capacity { vec_capacity copies.old ≤ vec_capacity copies.new }
{
    match copies.push(copy) {
        Ok(()) => {}
        Err(_) => unreachable!(),
    }
}

/// Takes the worker's copy out of the list.
fn take_copy(copies: &mut Vec<RunningCopy>, worker: u32)
    ensures items { copies.new.items ≡ without worker copies.old.items }
    ensures capacity { vec_capacity copies.new ≡ vec_capacity copies.old }
{
    for at in 0..copies.len() {
        if copies[at].worker == worker {
            copies.remove(at);
            return;
        }
    }
}

impl Records {
    /// A copy of a task begins.
    pub(crate) fn begin(&mut self, number: usize, entry: Entry)
        requires number { number < length self.old.tasks.items }
        requires few { (slice_index_or self.old.tasks.items number no_task).copies ≤ 1 }
        requires history { vec_len self.old.history < vec_capacity self.old.history }
        requires copies { vec_len self.old.copies < vec_capacity self.old.copies }
        ensures history { self.new.history.items ≡ self.old.history.items ++ entry ∷ [] }
        ensures tasks { self.new.tasks.items
            ≡ set self.old.tasks.items number
            (one_copy_more (slice_index_or self.old.tasks.items number no_task)) }
        ensures copies { self.new.copies.items ≡ self.old.copies.items ++ copy_of entry ∷ [] }
        ensures ended { self.new.ended ≡ self.old.ended }
        ensures room { vec_capacity self.old.history ≤ vec_capacity self.new.history }
        ensures copy_room { vec_capacity self.old.copies ≤ vec_capacity self.new.copies }
    {
        self.tasks[number].copies += 1;
        append_copy(
            &mut self.copies,
            RunningCopy {
                worker: entry.worker,
                op: entry.op,
                task: entry.task,
            },
        );
        append_entry(&mut self.history, entry);
    }

    /// The worker's copy of a task ends, and leaves the task and the machine so.
    pub(crate) fn end(
        &mut self,
        number: usize,
        state: TaskState,
        ended: Option<Ending>,
        entry: Entry,
    )
        requires number { number < length self.old.tasks.items }
        requires history { vec_len self.old.history < vec_capacity self.old.history }
        ensures history { self.new.history.items ≡ self.old.history.items ++ entry ∷ [] }
        ensures tasks { self.new.tasks.items ≡ set self.old.tasks.items number state }
        ensures copies { self.new.copies.items ≡ without entry.worker self.old.copies.items }
        ensures ended { self.new.ended ≡ ended }
        ensures room { vec_capacity self.old.history ≤ vec_capacity self.new.history }
        ensures copy_room { vec_capacity self.old.copies ≤ vec_capacity self.new.copies }
    {
        self.tasks[number] = state;
        self.ended = ended;
        take_copy(&mut self.copies, entry.worker);
        append_entry(&mut self.history, entry);
    }
}
