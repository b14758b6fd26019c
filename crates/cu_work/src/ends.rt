//! What a worker found at its end holds of the whole run.
ghost use Rattle.cu_store.specs.Yard.{Known};
ghost use Rattle.cu_table.specs.Table.{TableView};
ghost use Rattle.cu_lock.specs.Rule.{IsKnownFront};
ghost use Rattle.cu_board.specs.Board.{IsLegal, IsSameJob, halted_fault};
ghost use Rattle.cu_board.specs.Views.{SeatAt};
ghost use Rattle.cu_work.specs.declared.outcome.Outcome.{Outcome};
ghost use Rattle.cu_work.specs.Alone.{IsDecided};
ghost use Rattle.cu_work.specs.Workers.{KnowsEnd, front_of};

use cu_table::{broken_law, done_law, ended_law, history_law, task_law};

/// The outcome of a worker is that of the deciding event of any later table of the job, of whose history the worker knows a
/// beginning: as of the one that comes back when all workers are dismissed.
pub fn outcome_law()
    ensures { (made t : TableView) (seat : SeatAt) (k : Known) (outcome : Outcome) → KnowsEnd made seat.view k outcome
        → IsSameJob made t → IsLegal t → IsKnownFront t.history (halted_fault t.state.ended) (front_of seat)
        → IsDecided t.settings.plan t.state outcome }
{
    history_law();
    task_law();
    done_law();
    broken_law();
    ended_law();
}
