//! The plan of an expression: its arrays, and the operations that make them.
#![tactic(auto)]

mod aligned;
mod inputs;
mod laws;
mod options;
mod parts;
mod plan;
mod reduced;
mod steps;

pub use laws::{array_law, plan_law, value_law};
pub use options::Options;
pub use plan::lower;
