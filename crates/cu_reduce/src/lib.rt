//! Reductions: what is made of all elements along the reduced axes, as a fold of exact numbers, and its laws.
#![tactic(auto)]

mod kinds;
mod laws;

pub use kinds::{combine, unit};
pub use laws::{best_law, combination_law, fold_law, rounds_law};
