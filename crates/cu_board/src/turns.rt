//! What a seat does while it has the turn.
ghost use Rattle.std.specs.Prelude.{◌≡◌, ◌≤◌, ◌↔◌, IsTrue, min};
ghost use Rattle.cu_store.specs.Faults.{last_count};
ghost use Rattle.cu_store.specs.Yard.{IsLater};
ghost use Rattle.cu_table.specs.Table.{TableView, IsClaim, IsIdle};
ghost use Rattle.cu_board.specs.Board.{IsLegal, IsBoardState, IsResting, IsRunning, IsGrownBy, Reports, TellsClaim, UnlessRun, MayReport, TakesIn};

use crate::state::BoardState;
use cu_store::{TaskFault, Yard};
use cu_table::{Claim, ended_law, own_law, step_law};

/// A claim. The caller's pass takes in what the board's has seen, where there is a task to run.
pub(crate) fn claim_in<Y: Yard>(
    state: &mut BoardState<Y>,
    number: u32,
    yard: &Y,
    pass: &mut Y::Pass,
) -> Claim
    requires own { Y.owns yard.now state.old.pass × Y.owns yard.now pass.old }
    requires legal { IsLegal state.old.table }
    requires resting { IsResting number state.old.table.history }
    ensures claimed { IsClaim state.old.table number result state.new.table }
    ensures grown { IsGrownBy number state.old.table state.new.table }
    ensures own { Y.owns yard.now pass.new }
    ensures later { IsLater (Y.knows pass.old) (Y.knows pass.new) }
    ensures count { min (Y.knows pass.new).faults last_count ≡ min (Y.knows pass.old).faults last_count }
    ensures calls { (Y.knows pass.new).calls ≤ (Y.knows pass.old).calls }
    ensures kept { (made : TableView) (first : _) → Y.owns yard.now first
        → IsBoardState Y.knows Y.owns made first state.old.table state.old.pass
        → IsBoardState Y.knows Y.owns made first state.new.table state.new.pass
        × TellsClaim result state.new.table (Y.knows pass.new) }
    ensures unless_run { UnlessRun result (Y.knows pass.new ≡ Y.knows pass.old) }
{
    own_law();
    ended_law();
    step_law();
    let claim = state.table.claim(number);
    if let Claim::Run { .. } = claim {
        let copy = yard.split(&mut state.pass);
        yard.join(pass, copy);
    }
    claim
}

// What the caller's pass has seen goes to the pass of the board. Its counts stay its own.
fn pass_on<Y: Yard>(yard: &Y, kept: &mut Y::Pass, pass: &mut Y::Pass, ended: &Result<(), TaskFault>)
    requires { Y.owns yard.now kept.old × Y.owns yard.now pass.old }
    ensures own { Y.owns yard.now kept.new × Y.owns yard.now pass.new }
    ensures takes_in { TakesIn ended.now (Y.knows pass.old) (Y.knows kept.old) (Y.knows kept.new) }
    ensures same { Y.knows pass.new ≡ Y.knows pass.old }
{
    match ended {
        Ok(_) => {
            let copy = yard.split(pass);
            yard.join(kept, copy);
        }
        Err(_) => {}
    }
}

// Whether what was so isn't any more.
fn only_before(was: bool, is: bool) -> bool
    ensures { IsTrue result ↔ (IsTrue was × (IsTrue is → ⊥)) }
{
    was && !is
}

/// A report. What is true of a board's state before is true of it afterwards. The answer is whether a claim would have answered
/// Idle before it, and wouldn't now: else nobody sleeps who is to wake.
pub(crate) fn report_in<Y: Yard>(
    state: &mut BoardState<Y>,
    number: u32,
    yard: &Y,
    pass: &mut Y::Pass,
    op: u32,
    task: u32,
    ended: Result<(), TaskFault>,
) -> bool
    requires own { Y.owns yard.now state.old.pass × Y.owns yard.now pass.old }
    requires legal { IsLegal state.old.table }
    requires running { IsRunning number op task state.old.table.history }
    requires may { MayReport state.old.table.settings.plan op task ended (Y.knows pass.old) }
    ensures reported { Reports state.old.table number op task ended state.new.table }
    ensures grown { IsGrownBy number state.old.table state.new.table }
    ensures own { Y.owns yard.now pass.new }
    ensures same { Y.knows pass.new ≡ Y.knows pass.old }
    ensures kept { (made : TableView) (first : _) → Y.owns yard.now first
        → IsBoardState Y.knows Y.owns made first state.old.table state.old.pass
        → IsBoardState Y.knows Y.owns made first state.new.table state.new.pass }
    ensures wakes { IsTrue result ↔ (IsIdle state.old.table × (IsIdle state.new.table → ⊥)) }
{
    own_law();
    ended_law();
    step_law();
    let was_idle = state.table.is_idle();
    pass_on(yard, &mut state.pass, pass, &ended);
    state.table.report(number, op, task, ended);
    let is_idle = state.table.is_idle();
    only_before(was_idle, is_idle)
}
