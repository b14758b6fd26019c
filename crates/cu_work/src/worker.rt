//! A worker of a run.
use crate::outcome::Outcome;
use crate::rooms::Rooms;
use cu_board::BoardSeat;
use cu_store::Yard;

/// A worker: its number, the memory of its tasks, its seat at the board, its pass of the yard, and how it found that the run
/// had ended.
#[derive(Drop)]
pub struct Worker<Y: Yard> {
    pub number: u32,
    pub rooms: Rooms,
    pub seat: BoardSeat,
    pub pass: Y::Pass,
    pub outcome: Outcome,
}
