//! Reductions of regions of little-endian elements, and of partial results of reductions.
#![tactic(auto)]

mod by_type;
mod last;
mod laws;
mod leaves;
mod levels;
mod regions;
mod strips;
mod truths;
mod types;
mod walks;

pub use cu_pairs::{pair_fold, pair_merge};
pub use cu_product::{MulDims, mul_block};
pub use laws::strips_law;
pub use regions::{fold_region, merge_region};
pub use strips::{begin_fold, take_strip};
pub use types::RegionFold;
