//! Laws of prefix sums and of groups along an axis.
#![tactic(auto)]

mod laws;

pub use laws::{array_law, group_merge_law, scan_law};
