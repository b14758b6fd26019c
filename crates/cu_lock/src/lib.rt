//! A lock over one state with a history, of which each seat knows a beginning. It knows nothing else of the state.
#![tactic(auto)]

mod rule;
mod turn;
mod view;

pub use rule::{Fact, HasHistory};
pub use turn::{HeldTurn, Turn};
pub use view::{KnownFront, SeatView};
