//! Grouped reductions by labels, and the law of their sums.
#![tactic(auto)]

mod blocks;
mod by_type;
mod laws;
mod regions;
mod rows;
mod types;

pub use laws::group_law;
pub use regions::group_region;
