//! Many workers run the tasks of a plan in a yard, as a board gives them.
ghost use Rattle.std.specs.Prelude.{◌≡◌, ℕ, ◌<◌, length, slice_index_or};
ghost use Rattle.cu_region.specs.Passes.{IsLaterIn};
ghost use Rattle.cu_task.specs.Serving.{ServesPlan, HasSeenInputs};
ghost use Rattle.cu_table.specs.Numbers.{IsTask};
ghost use Rattle.cu_board.specs.Board.{MayReport};
ghost use Rattle.cu_work.specs.Alone.{Tried};
ghost use Rattle.cu_work.specs.Rooms.{rooms_of};
ghost use Rattle.cu_work.specs.Workers.{IsWorkerOf, KnowsEnd, AreWorkersOf, AreNumbered, HasCounted, HaveCounted, HaveRooms};

use crate::alone::{halt_outcome, try_in_yard};
use crate::outcome::Outcome;
use crate::rooms::Rooms;
use crate::worker::Worker;
use cu_board::{Board, BoardSeat};
use cu_op::{Plan, input_cells_law};
use cu_store::{Gate, TaskFault, Yard};
use cu_table::{Claim, ended_law, step_law};
use std::sync::Wait;
use std::thread;
use std::thread::Threads;

// One try of a task in these rooms. How it ended may be reported.
fn try_in_rooms<Y: Yard>(
    plan: &Plan,
    yard: &Y,
    pass: &mut Y::Pass,
    op: u32,
    task: u32,
    rooms: &mut Rooms,
) -> Result<(), TaskFault>
    requires own { Y.owns yard.now pass.old }
    requires serves { ServesPlan plan.now (Y.serves yard.now) }
    requires task { IsTask plan.now op task }
    requires inputs { HasSeenInputs plan.now op task (Y.knows pass.old).seen }
    requires rooms { rooms.old ≡ rooms_of plan.now }
    ensures own { Y.owns yard.now pass.new }
    ensures rooms { rooms.new ≡ rooms.old }
    ensures tried { Tried plan.now op task (Y.serves yard.now) (Y.knows pass.old, Y.knows pass.new) result }
    ensures may { MayReport plan.now op task result (Y.knows pass.new) }
    ensures later { IsLaterIn (Y.serves yard.now).specs (Y.knows pass.old) (Y.knows pass.new) }
{
    try_in_yard(plan, yard, pass, op, task, rooms)
}

// Claims, tries and reports tasks until the machine has ended, and tells how. A worker that is told Idle claims again once it
// has slept.
fn work_to_end<H: Wait, Y: Yard, G: Gate>(
    rt: &H,
    plan: &Plan,
    yard: &Y,
    board: &Board<Y>,
    worker: &mut Worker<Y>,
    gate: &G,
) -> Outcome
    requires plan { board.now.table.settings.plan ≡ plan.now }
    requires serves { ServesPlan plan.now (Y.serves yard.now) }
    requires own { Y.owns yard.now board.now.pass }
    requires worker { IsWorkerOf Y.owns yard.now board.now.board worker.old.number worker.old.seat worker.old.pass }
    requires rooms { worker.old.rooms ≡ rooms_of plan.now }
    requires counted { HasCounted plan.now worker.old.seat.view (Y.knows worker.old.pass) }
    ensures worker { IsWorkerOf Y.owns yard.now board.now.board worker.old.number worker.new.seat worker.new.pass }
    ensures number { worker.new.number ≡ worker.old.number }
    ensures rooms { worker.new.rooms ≡ worker.old.rooms }
    ensures later { IsLaterIn (Y.serves yard.now).specs (Y.knows worker.old.pass) (Y.knows worker.new.pass) }
    ensures counted { HasCounted plan.now worker.new.seat.view (Y.knows worker.new.pass) }
    ensures ended { KnowsEnd board.now.table worker.new.seat.view (Y.knows worker.new.pass) result }
{
    input_cells_law();
    step_law();
    ended_law();
    // that the plan is sound is told by the plan alone
    let _ops = plan.ops();
    for _ in rt.forever() {
        match board.claim(rt, &mut worker.seat, yard, &mut worker.pass) {
            Claim::Run { op, task, copy: _ } => {
                gate.before(worker.number, op, task);
                let ended = try_in_rooms(plan, yard, &mut worker.pass, op, task, &mut worker.rooms);
                board.report(
                    rt,
                    &mut worker.seat,
                    yard,
                    &mut worker.pass,
                    op,
                    task,
                    ended,
                );
            }
            Claim::Idle => board.wait(rt, &worker.seat),
            Claim::Finished => return Outcome::Complete,
            Claim::Broken { op, task } => return Outcome::Broken { op, task },
            Claim::Halted(fault) => return halt_outcome(fault),
        }
    }
    unreachable!()
}

// The same, and the outcome is kept.
fn run_worker<H: Wait, Y: Yard, G: Gate>(
    rt: &H,
    plan: &Plan,
    yard: &Y,
    board: &Board<Y>,
    worker: &mut Worker<Y>,
    gate: &G,
)
    requires plan { board.now.table.settings.plan ≡ plan.now }
    requires serves { ServesPlan plan.now (Y.serves yard.now) }
    requires own { Y.owns yard.now board.now.pass }
    requires worker { IsWorkerOf Y.owns yard.now board.now.board worker.old.number worker.old.seat worker.old.pass }
    requires rooms { worker.old.rooms ≡ rooms_of plan.now }
    requires counted { HasCounted plan.now worker.old.seat.view (Y.knows worker.old.pass) }
    ensures worker { IsWorkerOf Y.owns yard.now board.now.board worker.old.number worker.new.seat worker.new.pass }
    ensures number { worker.new.number ≡ worker.old.number }
    ensures rooms { worker.new.rooms ≡ worker.old.rooms }
    ensures later { IsLaterIn (Y.serves yard.now).specs (Y.knows worker.old.pass) (Y.knows worker.new.pass) }
    ensures counted { HasCounted plan.now worker.new.seat.view (Y.knows worker.new.pass) }
    ensures ended { KnowsEnd board.now.table worker.new.seat.view (Y.knows worker.new.pass) worker.new.outcome }
{
    let outcome = work_to_end(rt, plan, yard, board, worker, gate);
    worker.outcome = outcome;
}

/// Runs the tasks of the plan in the yard by at least one worker, each in a thread of its own where one can be started. A worker
/// for which none can runs in the thread at hand, before or after others.
///
/// The table and the rooms are those of this plan. The workers are numbered from 0, with seats of this board that leave no task
/// running, and passes of this yard, to which the board's pass belongs too. At the end what each worker knows of the history is
/// legal and has ended as its outcome says, and no pass has forgotten what it had seen. Each has counted the failures among its
/// worker's entries, and at most the calls of the starts among them. The outcome is that of worker 0.
pub fn drive<H: Threads + Wait + Sync, Y: Yard, G: Gate>(
    rt: &H,
    plan: &Plan,
    yard: &Y,
    board: &Board<Y>,
    workers: &mut [Worker<Y>],
    gate: &G,
) -> Outcome
    requires some { 0 < length workers.old }
    requires plan { board.now.table.settings.plan ≡ plan.now }
    requires serves { ServesPlan plan.now (Y.serves yard.now) }
    requires own { Y.owns yard.now board.now.pass }
    requires workers { AreWorkersOf Y.owns yard.now board.now.board workers.old }
    requires numbers { AreNumbered workers.old }
    requires rooms { HaveRooms plan.now workers.old }
    requires counted { HaveCounted Y.knows plan.now workers.old }
    ensures count { length workers.new ≡ length workers.old }
    ensures workers { AreWorkersOf Y.owns yard.now board.now.board workers.new }
    ensures numbers { AreNumbered workers.new }
    ensures rooms { HaveRooms plan.now workers.new }
    ensures later { (i : ℕ) (d : _) → i < length workers.old → IsLaterIn (Y.serves yard.now).specs
        (Y.knows (slice_index_or workers.old i d).pass) (Y.knows (slice_index_or workers.new i d).pass) }
    ensures counted { HaveCounted Y.knows plan.now workers.new }
    ensures ended { (i : ℕ) (d : _) → i < length workers.old → KnowsEnd board.now.table (slice_index_or workers.new i d).seat.view
        (Y.knows (slice_index_or workers.new i d).pass) (slice_index_or workers.new i d).outcome }
    ensures answer { (d : _) → result ≡ (slice_index_or workers.new 0 d).outcome }
{
    let count = workers.len();
    let turns = |_: usize, worker: &mut Worker<Y>|
        requires { (board.now.table.settings.plan ≡ plan.now) × ServesPlan plan.now (Y.serves yard.now) × Y.owns yard.now board.now.pass
            × IsWorkerOf Y.owns yard.now board.now.board worker.now.number worker.now.seat worker.now.pass × (worker.now.rooms ≡ rooms_of plan.now)
            × HasCounted plan.now worker.now.seat.view (Y.knows worker.now.pass) }
        ensures { IsWorkerOf Y.owns yard.entry.now board.entry.now.board worker.entry.now.number worker.exit.now.seat worker.exit.now.pass
            × (worker.exit.now.number ≡ worker.entry.now.number) × (worker.exit.now.rooms ≡ worker.entry.now.rooms)
            × IsLaterIn (Y.serves yard.entry.now).specs (Y.knows worker.entry.now.pass) (Y.knows worker.exit.now.pass)
            × KnowsEnd board.entry.now.table worker.exit.now.seat.view (Y.knows worker.exit.now.pass) worker.exit.now.outcome
            × HasCounted plan.entry.now worker.exit.now.seat.view (Y.knows worker.exit.now.pass) }
    { run_worker(rt, plan, yard, board, worker, gate) };
    thread::for_each_mut(rt, workers, count, &turns);
    workers[0].outcome
}
