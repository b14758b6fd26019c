//! The meaning of an expression: a whole number for each node and each index, by the operators of its nodes alone. It speaks of no
//! chunk, task or buffer. The definitions stand in `specs/`; the functions here are laws of them.
#![tactic(auto)]

mod laws;

pub use laws::{meaning_law, type_law};
