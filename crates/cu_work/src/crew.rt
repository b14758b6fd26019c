//! The workers of a run, from the root's splits to the table that comes back.
ghost use Rattle.std.specs.Prelude.{◌≡◌, ℕ, ◌<◌, ◌^◌, map, length, vec_len, All, IfOk, IfErr, slice_index_or};
ghost use Rattle.cu_store.specs.Yard.{uncounted};
ghost use Rattle.cu_op.specs.PlanView.{PlanView};
ghost use Rattle.cu_lock.specs.Rule.{IsKnownFront, AllBelow};
ghost use Rattle.cu_lock.specs.Views.{first_root};
ghost use Rattle.cu_board.specs.Board.{IsBoardState, halted_fault};
ghost use Rattle.cu_work.specs.Rooms.{rooms_of};
ghost use Rattle.cu_work.specs.Workers.{AreWorkersOf, AreNumbered, HaveCounted, HaveRooms, IsRootOf, TookIn, front_of};

use crate::outcome::Outcome;
use crate::rooms::Rooms;
use crate::worker::Worker;
use cu_board::{Board, BoardSeat};
use cu_store::Yard;
use cu_table::Table;
use std::alloc::Global;

/// A worker for each of the rooms, numbered from 0, with a seat of its own and a pass that knows as much as this one, with a count
/// of 0. The Err is want of memory, and hands the rooms back.
pub fn hire<Y: Yard>(
    alloc: Global,
    board: &Board<Y>,
    root: &mut BoardSeat,
    yard: &Y,
    pass: &mut Y::Pass,
    rooms: Vec<Rooms>,
) -> Result<Vec<Worker<Y>>, Vec<Rooms>>
    requires few { vec_len rooms < 2 ^ 32 }
    requires root { root.old ≡ record { board = board.now.board; view = first_root } }
    requires own { Y.owns yard.now pass.old }
    ensures own { Y.owns yard.now pass.new }
    ensures same { Y.knows pass.new ≡ Y.knows pass.old }
    ensures workers { IfOk result (λ ws. AreWorkersOf Y.owns yard.now board.now.board ws.items × (length ws.items ≡ vec_len rooms)
        × IsRootOf board.now.board (vec_len rooms) root.new) }
    ensures numbers { IfOk result (λ ws. AreNumbered ws.items) }
    ensures passes { IfOk result (λ ws. All (λ w. Y.knows w.pass ≡ uncounted (Y.knows pass.old)) ws.items) }
    ensures counted { (p : PlanView) → IfOk result (λ ws. HaveCounted Y.knows p ws.items) }
    ensures refused { IfErr result (λ rest. (rest ≡ rooms) × (root.new ≡ root.old)) }
    ensures rooms { (p : PlanView) → All (λ r. r ≡ rooms_of p) rooms.items → IfOk result (λ ws. HaveRooms p ws.items) }
{
    let Ok(mut workers) = Vec::with_capacity(alloc, rooms.len()) else {
        return Err(rooms);
    };
    let mut number = 0;
    for room in rooms {
        let seat = board.split(root, number);
        let pass = yard.split(pass);
        workers.push_reserved(Worker {
            number,
            rooms: room,
            seat,
            pass,
            outcome: Outcome::Lacked,
        });
        number += 1;
    }
    Ok(workers)
}

/// The table, and the board's pass, once the workers are joined. `pass` has then seen what theirs have, and has their counts. What each worker knew
/// begins the history with all entries of its number, and no entry is of another number.
pub fn dismiss<Y: Yard>(
    board: Board<Y>,
    mut root: BoardSeat,
    yard: &Y,
    pass: &mut Y::Pass,
    mut workers: Vec<Worker<Y>>,
) -> (Table, Y::Pass)
    requires root { IsRootOf board.board (vec_len workers) root }
    requires workers { AreWorkersOf Y.owns yard.now board.board workers.items }
    requires own { Y.owns yard.now pass.old }
    ensures own { Y.owns yard.now pass.new }
    ensures took { TookIn (map (λ w. Y.knows w.pass) workers.items) (Y.knows pass.old) (Y.knows pass.new) }
    ensures state { IsBoardState Y.knows Y.owns board.table board.pass result.0 result.1 }
    ensures fronts { (i : ℕ) (d : _) → i < vec_len workers
        → IsKnownFront result.0.history (halted_fault result.0.state.ended) (front_of (slice_index_or workers.items i d).seat) }
    ensures below { AllBelow (vec_len workers) result.0.history }
{
    while let Some(worker) = workers.pop() {
        let Worker {
            number: _,
            rooms: _,
            seat,
            pass: theirs,
            outcome: _,
        } = worker;
        board.join(&mut root, seat);
        yard.join(pass, theirs);
    }
    board.close(root)
}
