//! The command that compares a stored output with what its expression means.
#![tactic(auto)]

mod arrays;
mod chunks;
mod command;
mod compare;
mod inputs;
mod metadata;
mod report;

pub use command::check;
