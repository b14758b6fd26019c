//! The tasks of a plan are run in a yard, by one worker or by several.
ghost use Rattle.std.specs.Prelude.{◌≡◌, ◌≢◌, ◌<◌, ◌^◌, [], All, IfOk, IfErr, vec_len};
ghost use Rattle.cu_task.specs.Serving.{ServesPlan};
ghost use Rattle.cu_work.specs.Alone.{HasSeenDone, IsDecided};
ghost use Rattle.cu_work.specs.Rooms.{rooms_of};
ghost use Rattle.cu_work.specs.Starts.{IsOfWorkers};
ghost use Rattle.cu_work.specs.Workers.{HasWorked};

use crate::alone::drive_alone;
use crate::crew::{dismiss, hire};
use crate::ends::outcome_law;
use crate::outcome::RunEnd;
use crate::rooms::Rooms;
use crate::turns::drive;
use cu_board::Board;
use cu_op::Plan;
use cu_store::{Gate, Yard};
use cu_table::{Table, own_law};
use std::alloc::Global;
use std::sync::Wait;
use std::thread::Threads;

/// One worker runs the tasks, with the first of these rooms.
fn work_alone<Y: Yard>(
    plan: &Plan,
    yard: &Y,
    pass: &mut Y::Pass,
    mut rooms: Vec<Rooms>,
    mut table: Table,
) -> RunEnd
    requires own { Y.owns yard.now pass.old }
    requires serves { ServesPlan plan.now (Y.serves yard.now) }
    requires some { 0 < vec_len rooms }
    requires rooms { All (λ r. r ≡ rooms_of plan.now) rooms.items }
    requires plan { table.settings.plan ≡ plan.now }
    requires fresh { table.history ≡ [] }
    requires seen { HasSeenDone plan.now table.state (Y.knows pass.old).seen }
    ensures own { Y.owns yard.now pass.new }
    ensures worked { HasWorked (Y.serves yard.now) table result.table (Y.knows pass.old) (Y.knows pass.new) }
    ensures decided { IsDecided plan.now result.table.state result.outcome }
    ensures workers { IsOfWorkers 1 table.settings result.table.history }
{
    let outcome = drive_alone(plan, yard, pass, &mut rooms[0], &mut table);
    RunEnd { outcome, table }
}

/// A worker for each of these rooms runs the tasks at a board. The Err is want of memory for the board or its workers, before any
/// task was run, and hands the table and the rooms back.
fn work_at_board<H: Threads + Wait + Sync, Y: Yard, G: Gate>(
    rt: &H,
    alloc: Global,
    plan: &Plan,
    yard: &Y,
    pass: &mut Y::Pass,
    rooms: Vec<Rooms>,
    table: Table,
    gate: &G,
) -> Result<RunEnd, (Table, Vec<Rooms>)>
    requires own { Y.owns yard.now pass.old }
    requires serves { ServesPlan plan.now (Y.serves yard.now) }
    requires some { 0 < vec_len rooms }
    requires few { vec_len rooms < 2 ^ 32 }
    requires several { vec_len rooms ≢ 1 }
    requires rooms { All (λ r. r ≡ rooms_of plan.now) rooms.items }
    requires plan { table.settings.plan ≡ plan.now }
    requires fresh { table.history ≡ [] }
    requires seen { HasSeenDone plan.now table.state (Y.knows pass.old).seen }
    ensures own { Y.owns yard.now pass.new }
    ensures worked { IfOk result (λ end. HasWorked (Y.serves yard.now) table end.table (Y.knows pass.old) (Y.knows pass.new)) }
    ensures decided { IfOk result (λ end. IsDecided plan.now end.table.state end.outcome) }
    ensures workers { IfOk result (λ end. IsOfWorkers (vec_len rooms) table.settings end.table.history) }
    ensures refused { IfErr result (λ back. (back.0 ≡ table) × (back.1 ≡ rooms) × (Y.knows pass.new ≡ Y.knows pass.old)) }
{
    outcome_law();
    own_law();
    // that its history is legal is told by the table alone
    let _history = table.history();
    let first = yard.split(pass);
    let (board, mut root) = match Board::make(alloc, table, first) {
        Ok(made) => made,
        Err((table, _)) => return Err((table, rooms)),
    };
    let mut workers = match hire(alloc, &board, &mut root, yard, pass, rooms) {
        Ok(workers) => workers,
        Err(rooms) => {
            let (table, _) = board.close(root);
            return Err((table, rooms));
        }
    };
    let outcome = drive(rt, plan, yard, &board, &mut workers, gate);
    let (table, last) = dismiss(board, root, yard, pass, workers);
    yard.join(pass, last);
    Ok(RunEnd { outcome, table })
}

/// Runs the tasks of the plan in the yard, by a worker for each of these rooms. One worker alone starts no thread and waits for nobody.
/// Where there is no memory for the board of several, one runs all tasks.
///
/// The table is that of this plan and has no history yet, and the pass has seen each chunk of each task that the table calls done.
/// At the end no copy runs, and the pass has seen each chunk of each task that is done. Its count of faults has risen by each
/// failure of the history at least, and its count of calls by those of each start at most. Each entry is of a worker whose number
/// is below theirs. The outcome is that of the history's deciding event.
pub(crate) fn work<H: Threads + Wait + Sync, Y: Yard, G: Gate>(
    rt: &H,
    alloc: Global,
    plan: &Plan,
    yard: &Y,
    pass: &mut Y::Pass,
    rooms: Vec<Rooms>,
    table: Table,
    gate: &G,
) -> RunEnd
    requires own { Y.owns yard.now pass.old }
    requires serves { ServesPlan plan.now (Y.serves yard.now) }
    requires some { 0 < vec_len rooms }
    requires few { vec_len rooms < 2 ^ 32 }
    requires rooms { All (λ r. r ≡ rooms_of plan.now) rooms.items }
    requires plan { table.settings.plan ≡ plan.now }
    requires fresh { table.history ≡ [] }
    requires seen { HasSeenDone plan.now table.state (Y.knows pass.old).seen }
    ensures own { Y.owns yard.now pass.new }
    ensures worked { HasWorked (Y.serves yard.now) table result.table (Y.knows pass.old) (Y.knows pass.new) }
    ensures decided { IsDecided plan.now result.table.state result.outcome }
    ensures workers { IsOfWorkers (vec_len rooms) table.settings result.table.history }
{
    if rooms.len() == 1 {
        return work_alone(plan, yard, pass, rooms, table);
    }
    match work_at_board(rt, alloc, plan, yard, pass, rooms, table, gate) {
        Ok(end) => end,
        Err((table, rooms)) => work_alone(plan, yard, pass, rooms, table),
    }
}
