//! The rounds in which the partial results of a reduction are merged, the arrays that hold them, and the outlines of nodes: what is made, and the
//! memory of a task; the same of prefix sums.
#![tactic(auto)]

mod laws;
mod marks;
mod needs;
mod outline;
mod partials;
mod round;
mod sums;
mod tree;

pub use laws::merges_law;
pub use marks::{marked_axes, sought_axes};
pub use needs::{fold_bytes, merge_bytes, pair_fold_bytes, pair_merge_bytes, product_bytes};
pub use outline::{
    Outline, Outlined, cumulative_outline, outline_bytes, outline_cells, outline_tasks,
    product_outline, reduction_outline, search_outline,
};
pub use partials::{bytes_of, first_partial, inner_count, merged, product_partial};
pub use round::Round;
pub use sums::{carry_bytes, cumulative_rounds, sums_array, sums_count};
pub use tree::{product_rounds, reduction_rounds, rounds};
