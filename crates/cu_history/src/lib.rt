//! The history of a run: what happened to its tasks, in order.
#![tactic(auto)]

mod entry;

pub use entry::{Entry, EventKind};
