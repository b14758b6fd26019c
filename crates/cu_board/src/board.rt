//! The board: a lock over a table and a pass.
ghost use Rattle.std.specs.Prelude.{◌≡◌, ℕ, ◌<◌, ◌≤◌, min, [], true, false, Contains, IfOk, IfErr};
ghost use Rattle.cu_store.specs.Faults.{last_count};
ghost use Rattle.cu_store.specs.Yard.{IsLater};
ghost use Rattle.cu_lock.specs.Rule.{IsPrefix, Each, AllBelow, IsKnownFront};
ghost use Rattle.cu_lock.specs.Views.{first_root, split_root, split_off, root_joined, joined_numbers};
ghost use Rattle.cu_board.specs.Board.{IsBoardState, SeesDone, IsClaimTurn, IsReportTurn, IsResting, IsRunning, UnlessRun, MayReport, halted_fault};
ghost use Rattle.cu_board.specs.Views.{BoardView, IsSeatOf};

use crate::seat::BoardSeat;
use crate::state::{BoardState, Made};
use crate::turns::{claim_in, report_in};
use atomic_table::Badge;
use cu_lock::Turn;
use cu_store::{TaskFault, Yard};
use cu_table::{Claim, Table};
use std::alloc::Global;
use std::marker::{Brand, Model};
use std::mem;
use std::snapshot::Snapshot;
use std::sync::Wait;

/// A table of tasks that several workers claim from and report to, each with a seat of its own and a pass of one yard.
///
/// Between any two steps the table inside is the replay of one history, which is legal, and the pass inside has seen every cell
/// of every task that is done. Contracts see which board it is, and the table and the pass that it was made with.
#[derive(Drop)]
pub struct Board<Y: Yard> {
    turn: Turn<BoardState<Y>, Made<Y>>,
}

impl<Y: Yard> Model for Board<Y> {
    ghost use Rattle.cu_board.specs.Views.{BoardView};

    ghost Value = { BoardView Y.Pass };

    ghost view = { λ b. record {
      board = b.turn.table.shared.table_id;
      table = b.turn.table.shared.key.table.value;
      pass = b.turn.table.shared.key.pass.value;
    } };
}

impl<Y: Yard> Board<Y> {
    /// A board over this table, which has no entry yet, and its root. The pass has seen the cells of each task that is done.
    /// The Err is want of memory, and hands both back.
    pub fn make(
        alloc: Global,
        table: Table,
        pass: Y::Pass,
    ) -> Result<(Board<Y>, BoardSeat), (Table, Y::Pass)>
        requires empty { table.history ≡ [] }
        requires seen { SeesDone table.settings.plan table.state (Y.knows pass) }
        ensures ok { IfOk result (λ b. (b.0.table ≡ table) × (b.0.pass ≡ pass)
            × (b.1 ≡ record { board = b.0.board; view = first_root })) }
        ensures err { IfErr result (λ b. (b.0 ≡ table) × (b.1 ≡ pass)) }
    {
        // that its history is legal is told by the table alone
        let _ = table.history();
        let made = Made {
            table: Snapshot::of(&table),
            pass: Snapshot::of(&pass),
        };
        match Turn::new(alloc, BoardState { table, pass }, &made) {
            Ok((turn, badge)) => Ok((
                Board { turn },
                BoardSeat {
                    badge,
                    number: 0,
                    word: 0,
                },
            )),
            Err(BoardState { table, pass }) => Err((table, pass)),
        }
    }

    /// Asks the table for a task, by the seat of a worker whose own entries leave no task running. Where the answer is Run, the
    /// caller's pass has afterwards seen the cells of each task that is done; any other answer leaves the pass as it was.
    pub fn claim<H: Wait>(
        &self,
        rt: &H,
        seat: &mut BoardSeat,
        yard: &Y,
        pass: &mut Y::Pass,
    ) -> Claim
        requires seat { IsSeatOf self.now.board false seat.old }
        requires own { Y.owns yard.now self.now.pass × Y.owns yard.now pass.old }
        requires resting { IsResting seat.old.view.number seat.old.view.front }
        ensures board { seat.new.board ≡ seat.old.board }
        ensures claimed { IsClaimTurn self.now.table seat.old.view result seat.new.view (Y.knows pass.new) }
        ensures own { Y.owns yard.now pass.new }
        ensures later { IsLater (Y.knows pass.old) (Y.knows pass.new) }
        ensures count { min (Y.knows pass.new).faults last_count ≡ min (Y.knows pass.old).faults last_count }
        ensures calls { (Y.knows pass.new).calls ≤ (Y.knows pass.old).calls }
        ensures unless_run { UnlessRun result (Y.knows pass.new ≡ Y.knows pass.old) }
    {
        let badge = mem::replace(&mut seat.badge, Badge::blank());
        let (mut state, held) = self.turn.take::<Brand, H>(rt, badge);
        let claim = claim_in(&mut state, seat.number, yard, pass);
        let (badge, word) = self.turn.give_back(state, held, false);
        seat.badge = badge;
        seat.word = word;
        claim
    }

    /// Tells how the task ended that the seat's own entries leave running. Ok wants the task's cells among those that the pass
    /// has seen, and tells them the board's pass. BadChunk wants a chunk that a task fetches, and an input's where contents are
    /// told; NoMemory wants a yard that lacks. The caller's pass stays as it is, with its counts.
    pub fn report<H: Wait>(
        &self,
        rt: &H,
        seat: &mut BoardSeat,
        yard: &Y,
        pass: &mut Y::Pass,
        op: u32,
        task: u32,
        ended: Result<(), TaskFault>,
    )
        requires seat { IsSeatOf self.now.board false seat.old }
        requires own { Y.owns yard.now self.now.pass × Y.owns yard.now pass.old }
        requires running { IsRunning seat.old.view.number op task seat.old.view.front }
        requires may { MayReport self.now.table.settings.plan op task ended (Y.knows pass.old) }
        ensures board { seat.new.board ≡ seat.old.board }
        ensures reported { IsReportTurn self.now.table seat.old.view op task ended seat.new.view }
        ensures own { Y.owns yard.now pass.new }
        ensures same { Y.knows pass.new ≡ Y.knows pass.old }
    {
        let badge = mem::replace(&mut seat.badge, Badge::blank());
        let (mut state, held) = self.turn.take::<Brand, H>(rt, badge);
        // No wake is lost. Who sleeps, or is about to, was told Idle at the word that it keeps. While a claim would be told Idle claims
        // change nothing, so a report alone ends that. The one that does stores another word, and then wakes all. Where this one doesn't,
        // a claim would still be told Idle, or it wouldn't have been before, and who slept was woken by the report that ended it.
        let wakes = report_in(&mut state, seat.number, yard, pass, op, task, ended);
        let (badge, word) = self.turn.give_back(state, held, wakes);
        seat.badge = badge;
        seat.word = word;
    }

    /// Sleeps until a report was made since the seat's last claim after which a claim isn't told Idle, or for no reason. A worker
    /// that was told Idle calls it before it claims again. It changes nothing.
    pub fn wait<H: Wait>(&self, rt: &H, seat: &BoardSeat) {
        self.turn.wait(rt, seat.word);
    }

    /// A new seat, for the worker of this number, which is the number of splits so far. It knows what the root knows.
    pub fn split(&self, seat: &mut BoardSeat, worker: u32) -> BoardSeat
        requires seat { IsSeatOf self.now.board true seat.old }
        requires number { seat.old.view.number ≡ worker }
        ensures root { seat.new ≡ record { board = seat.old.board; view = split_root seat.old.view } }
        ensures seat { result ≡ record { board = seat.old.board; view = split_off seat.old.view } }
    {
        let badge = mem::replace(&mut seat.badge, Badge::blank());
        let (root, badge) = self.turn.split(badge);
        seat.badge = root;
        BoardSeat {
            badge,
            number: worker,
            word: 0,
        }
    }

    /// The root takes in a seat. It knows the longer of both fronts then.
    pub fn join(&self, seat: &mut BoardSeat, other: BoardSeat)
        requires seat { IsSeatOf self.now.board true seat.old }
        requires other { IsSeatOf self.now.board false other }
        ensures { seat.new ≡ record { board = seat.old.board; view = root_joined seat.old.view other.view } }
    {
        let badge = mem::replace(&mut seat.badge, Badge::blank());
        let BoardSeat {
            badge: joined,
            number: _,
            word: _,
        } = other;
        seat.badge = self.turn.join(badge, joined);
    }

    /// The table and the pass, once each other seat was joined. What the root and each of these knew begins the table's history.
    /// Each entry is of a number below the count of splits, and each joined seat knew all entries of its own number.
    pub fn close(self, seat: BoardSeat) -> (Table, Y::Pass)
        requires seat { IsSeatOf self.board true seat }
        requires all { (n : ℕ) → n < seat.view.number → Contains (joined_numbers seat.view) n }
        ensures state { IsBoardState Y.knows Y.owns self.table self.pass result.0 result.1 }
        ensures front { IsPrefix seat.view.front result.0.history }
        ensures joined { Each (IsKnownFront result.0.history (halted_fault result.0.state.ended)) seat.view.joined }
        ensures below { AllBelow seat.view.number result.0.history }
    {
        let Board { turn } = self;
        let BoardSeat {
            badge,
            number: _,
            word: _,
        } = seat;
        let BoardState { table, pass } = turn.close(badge);
        (table, pass)
    }
}
