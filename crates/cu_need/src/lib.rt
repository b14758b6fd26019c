//! Which nodes of an expression are live, the memory that a node needs, and the counts of a plan, by the expression and what is known
//! of its nodes alone.
#![tactic(auto)]

mod along;
mod chunks;
mod copies;
mod cost;
mod counts;
mod elementwise;
mod laws;
mod live;
mod need;
mod operands;
mod reduction;
mod view;

pub use along::{group_axis, labels_wanted, sum_axis};
pub use cost::is_view;
pub use counts::{OverLimit, PlanCounts, plan_counts};
pub use cu_copy::{Rechunk, max_mem};
pub use laws::{aligned_law, copies_law, counts_law, live_law, outline_law, over_law, typed_law};
pub use live::live_marks;
pub use need::{NodeNeed, first_over, need_of, own_need};
pub use operands::{copies_of, operands_of};
pub use reduction::{array_of, axes_reduced, left_wanted, reduced_axes, right_wanted, sought_axis};
