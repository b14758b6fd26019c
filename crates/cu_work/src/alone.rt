//! One worker runs the tasks of a plan in a yard, as a table gives them.
ghost use Rattle.std.specs.Prelude.{◌≡◌, ◌+◌, ◌*◌, ◌<◌, ◌≤◌, [], length};
ghost use Rattle.cu_op.specs.Cells.{tasks_of};
ghost use Rattle.cu_op.specs.Schedule.{op_of};
ghost use Rattle.cu_task.specs.Serving.{ServesPlan, HasSeenInputs};
ghost use Rattle.cu_work.specs.Alone.{HasRun, HasSeenDone, IsDecided, Tried, halt_outcome};
ghost use Rattle.cu_work.specs.Calls.{calls_of_tasks};
ghost use Rattle.cu_work.specs.Rooms.{rooms_of};
ghost use Rattle.cu_work.specs.Starts.{IsOfWorkers};

use crate::outcome::Outcome;
use crate::rooms::{Rooms, task_bytes, task_words, write_zeros};
use cu_op::Plan;
use cu_store::{TaskFault, Yard};
use cu_table::{Claim, Table, alone_law, history_law};
use cu_task::run_task;

/// One try of a task, which is lent exactly its own memory of these rooms. Zeros are written first, as far as none was lent so much
/// before.
pub(crate) fn try_in_yard<Y: Yard>(
    plan: &Plan,
    yard: &Y,
    pass: &mut Y::Pass,
    op: u32,
    task: u32,
    rooms: &mut Rooms,
) -> Result<(), TaskFault>
    requires own { Y.owns yard.now pass.old }
    requires serves { ServesPlan plan.now (Y.serves yard.now) }
    requires inputs { HasSeenInputs plan.now op task (Y.knows pass.old).seen }
    requires operation { op < length plan.now.ops }
    requires task { task < tasks_of plan.now.arrays (op_of plan.now op) }
    requires rooms { rooms.old ≡ rooms_of plan.now }
    ensures own { Y.owns yard.now pass.new }
    ensures rooms { rooms.new ≡ rooms.old }
    ensures tried { Tried plan.now op task (Y.serves yard.now) (Y.knows pass.old, Y.knows pass.new) result }
{
    let byte_count = task_bytes(plan, op);
    let word_count = task_words(plan, op);
    write_zeros(&mut rooms.bytes, 0, byte_count);
    write_zeros(&mut rooms.words, 0, word_count);
    run_task(
        yard,
        pass,
        plan,
        op,
        task,
        rooms.bytes.slice_mut(..byte_count),
        rooms.words.slice_mut(..word_count),
    )
}

/// The outcome of a run that a fault ended. One of the store ends none.
pub(crate) fn halt_outcome(fault: TaskFault) -> Outcome
    ensures { result ≡ halt_outcome fault }
{
    match fault {
        TaskFault::BadChunk { key, got, want } => Outcome::BadChunk { key, got, want },
        TaskFault::NoMemory | TaskFault::Store => Outcome::Lacked,
    }
}

/// Runs the tasks of the plan in the yard, one after another, as the table gives them. It waits for nobody.
///
/// The table is that of this plan and has no history yet, and the pass has seen each chunk of each task that the table calls done.
/// At the end no copy runs, the pass has seen each chunk of each task that is done, and its count of faults has risen by each
/// failure of the history at least. Each task is tried at most `retries + 1` times, all by worker 0. The outcome is that of the
/// history's deciding event.
pub fn drive_alone<Y: Yard>(
    plan: &Plan,
    yard: &Y,
    pass: &mut Y::Pass,
    rooms: &mut Rooms,
    table: &mut Table,
) -> Outcome
    requires own { Y.owns yard.now pass.old }
    requires serves { ServesPlan plan.now (Y.serves yard.now) }
    requires rooms { rooms.old ≡ rooms_of plan.now }
    requires plan { table.old.settings.plan ≡ plan.now }
    requires fresh { table.old.history ≡ [] }
    requires seen { HasSeenDone plan.now table.old.state (Y.knows pass.old).seen }
    ensures own { Y.owns yard.now pass.new }
    ensures rooms { rooms.new ≡ rooms.old }
    ensures ran { HasRun (Y.serves yard.now) table.old table.new (Y.knows pass.old) (Y.knows pass.new) }
    ensures decided { IsDecided plan.now table.new.state result }
    ensures tries { (Y.knows pass.new).calls ≤ (Y.knows pass.old).calls + (table.old.settings.retries + 1) * calls_of_tasks plan.now }
    ensures workers { IsOfWorkers 1 table.old.settings table.new.history }
{
    history_law();
    alone_law();
    let _history = table.history();
    loop {
        match table.claim(0) {
            Claim::Run { op, task, copy: _ } => {
                let ended = try_in_yard(plan, yard, pass, op, task, rooms);
                table.report(0, op, task, ended);
            }
            Claim::Idle => unreachable!(),
            Claim::Finished => return Outcome::Complete,
            Claim::Broken { op, task } => return Outcome::Broken { op, task },
            Claim::Halted(fault) => return halt_outcome(fault),
        }
    }
}
