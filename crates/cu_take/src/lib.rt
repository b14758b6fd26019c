//! One element, or rows of them, taken into results, and what a result begins with.
#![tactic(auto)]

mod eights;
mod rows;
mod steps;
mod units;

pub use rows::{RowBlock, take_rows};
pub use steps::take_one;
pub use units::fill;
