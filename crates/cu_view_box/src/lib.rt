//! How views read their sources, over boxes of the result.
#![tactic(auto)]

mod along;
mod block;
mod copy;
mod drawing;
mod gathering;
mod lines;
mod piece;
mod reads;
mod reshape;
mod runs;
mod shared;
mod way;

pub use block::Block;
pub use copy::copy_box;
pub use gathering::reshape_gather;
pub use piece::Piece;
pub use reads::read_hull;
pub use reshape::{reshape_hull, reshape_touches};
pub use shared::shared_box;
pub use way::{Interval, Way};
