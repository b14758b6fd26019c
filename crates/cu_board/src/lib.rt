//! The table of a run's tasks, which several workers claim from and report to.
#![tactic(auto)]

mod board;
mod seat;
mod state;
mod turns;

pub use board::Board;
pub use seat::BoardSeat;
