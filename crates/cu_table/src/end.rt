//! How a copy of a task ended, and what it leaves.
ghost use Rattle.std.specs.Prelude.{◌≡◌, ◌<◌, ◌≤◌, ◌^◌, ◌||◌, false, None, is_some};
ghost use Rattle.cu_history.specs.declared.entry.EventKind.TheVariants.{Failed};
ghost use Rattle.cu_table.specs.Table.{report_kind, state_after, ending_of};

use crate::state::{Ending, TaskId, TaskState};
use cu_history::EventKind;
use cu_store::TaskFault;

/// The end of a copy: what is recorded, what its task was before and is now, and whether the
/// machine has ended.
#[derive(Clone, Copy)]
pub(crate) struct End {
    pub(crate) kind: EventKind,
    pub(crate) was: TaskState,
    pub(crate) state: TaskState,
    pub(crate) ended: Option<Ending>,
}

/// What is recorded of a copy that ended so.
fn kind_of(late: bool, outcome: &Result<(), TaskFault>) -> EventKind
    ensures { result ≡ report_kind late outcome.now }
{
    if late {
        return EventKind::Late;
    }
    match outcome {
        Ok(()) => EventKind::Done,
        Err(TaskFault::Store) => EventKind::Failed,
        Err(_) => EventKind::Halt,
    }
}

/// What a task is after the end of a copy.
fn state_of(kind: EventKind, was: TaskState) -> TaskState
    requires copies { 1 ≤ was.copies }
    requires failures { kind ≡ Failed → was.failures < 2 ^ 32 }
    ensures { result ≡ state_after kind was }
{
    let mut state = was;
    state.copies -= 1;
    match kind {
        EventKind::Done => state.done = true,
        EventKind::Failed => state.failures += 1,
        _ => {}
    }
    state
}

/// Whether the machine has ended after it, and how: `retries + 1` failures break it, and a fault
/// that isn't tried again halts it.
fn ended_by(
    retries: u32,
    failures: u64,
    id: TaskId,
    ended: Option<Ending>,
    outcome: &Result<(), TaskFault>,
    kind: EventKind,
) -> Option<Ending>
    ensures { result ≡ ending_of retries id failures ended outcome.now kind }
{
    match (kind, outcome) {
        (EventKind::Failed, _) if failures == u64::from(retries) => Some(Ending::Broken {
            op: id.op,
            task: id.task,
        }),
        (EventKind::Failed, _) => None,
        (EventKind::Halt, Err(fault)) => Some(Ending::Halted(*fault)),
        _ => ended,
    }
}

/// The end of a copy of a task.
pub(crate) fn end_copy(
    retries: u32,
    id: TaskId,
    was: TaskState,
    ended: Option<Ending>,
    outcome: Result<(), TaskFault>,
) -> End
    requires copies { 1 ≤ was.copies }
    requires failures { ended ≡ None → was.done ≡ false → was.failures ≤ retries }
    ensures kind { result.kind ≡ report_kind (was.done || is_some ended) outcome }
    ensures was { result.was ≡ was }
    ensures state { result.state ≡ state_after result.kind was }
    ensures ended { result.ended ≡ ending_of retries id was.failures ended outcome result.kind }
{
    let kind = kind_of(was.done || ended.is_some(), &outcome);
    End {
        kind,
        was,
        state: state_of(kind, was),
        ended: ended_by(retries, was.failures, id, ended, &outcome, kind),
    }
}
