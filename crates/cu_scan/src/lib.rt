//! Prefix sums of regions.
#![tactic(auto)]

mod blocks;
mod carries;
mod regions;
mod rows;
mod steps;
mod types;

pub use regions::{carry_region, scan_region};
