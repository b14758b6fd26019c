//! Calls over slices of words of 64 bits: what a scalar call does for one number, for each place of a slice; sums, products
//! and first places of the best over a slice; elements in the other byte order.
#![tactic(auto)]

mod best;
mod compared;
mod elements;
mod functions;
mod loops;
mod sums;
mod swaps;

pub use best::lane_least;
pub use elements::{lane_load, lane_save, lane_select};
pub use functions::{lane1, lane2};
pub use sums::{lane_prod, lane_sum};
pub use swaps::lane_swap;
