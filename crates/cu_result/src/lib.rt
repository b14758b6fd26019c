//! Steps that may fail: the words of a definition that is a list of checks in a stated order, and what an
//! answer of such a list tells of its steps. The words stand in `specs/`; the functions here are laws of them.
#![tactic(auto)]

mod laws;

pub use laws::{failed_steps, passed_steps};
