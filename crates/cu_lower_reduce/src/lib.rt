//! The operations that a reduction, a search for places, a product of matrices, prefix sums, a fold by labels and copies into other
//! chunks add to a plan.
#![tactic(auto)]

mod copy;
mod cumulative;
mod grouped;
mod laws;
mod merges;
mod product;
mod reduction;
mod search;
mod step;

pub use copy::{CopySetting, copy_step, copy_step_count};
pub use cumulative::{Cumulative, cumulative_step, cumulative_step_count};
pub use grouped::{Grouped, grouped_step, grouped_step_count};
pub use laws::{
    cumulative_law, grouped_law, operands_law, product_law, rechunk_law, reduction_law, search_law,
};
pub use product::{Product, product_step, product_step_count};
pub use reduction::{Reduction, reduction_step, reduction_step_count};
pub use search::{Search, search_step, search_step_count};
pub use step::{Setting, Step};
