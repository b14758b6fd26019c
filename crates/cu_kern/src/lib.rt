//! Kernels: what a map computes for each element of its result, over regions of elements as bytes.
#![tactic(auto)]

mod arguments;
mod by_rows;
mod by_type;
mod calls;
mod comparisons;
mod division;
mod fills;
mod lays;
mod reciprocals;
mod regions;
mod row_steps;
mod rows;
mod run;
mod steps;
mod strip_functions;
mod strip_loops;
mod strips;

pub use lays::Lay;
pub use rows::PlaceRange;
pub use run::{run_kernel, run_kernel_at};
