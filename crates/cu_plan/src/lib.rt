//! The plan of an expression, or why it has none, and the text that says what a plan does.
#![tactic(auto)]

mod fault;
mod laws;
mod planning;
mod sources;
mod sums;
mod text;

pub use fault::PlanFault;
pub use laws::{merged_arrays_law, merged_plan_law, one_reader_law, refusal_law};
pub use planning::plan;
pub use sums::{cell_count, peak, task_count};
pub use text::{begun_text, plan_text};
