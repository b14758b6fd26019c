//! The demonstration: two inputs of any size, made from their indices, and an expression over them.
#![tactic(auto)]

mod input;
mod job;

pub use input::{DemoInput, demo_elements, demo_layout, demo_name};
pub use job::demo_job;
