//! What lies inside the board.
use cu_lock::HasHistory;
use cu_store::Yard;
use cu_table::Table;
use std::snapshot::Snapshot;

/// The table, and a pass that has seen the cells of each task that is done.
#[derive(Drop)]
pub struct BoardState<Y: Yard> {
    pub(crate) table: Table,
    pub(crate) pass: Y::Pass,
}

/// The table and the pass that the board was made with.
#[derive(Drop)]
pub struct Made<Y: Yard> {
    pub(crate) table: Snapshot<Table>,
    pub(crate) pass: Snapshot<Y::Pass>,
}

impl<Y: Yard> HasHistory<Made<Y>> for BoardState<Y> {
    ghost use Rattle.cu_board.specs.Board.{IsBoardState, halted_fault};

    ghost invariant = { λ made x. IsBoardState Y.knows Y.owns made.table.value made.pass.value x.table x.pass };

    ghost history = { λ x. x.table.history };

    ghost fault = { λ x. halted_fault x.table.state.ended };
}
