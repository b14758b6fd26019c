//! The regions and the chunks by which a stored array is copied from one grid to another in little memory.
#![tactic(auto)]

mod axes;
mod consolidation;
mod staging;

pub use staging::{Staging, stages};
