//! The plain evaluator: each node's elements one after the other, by the rules of the meaning.
#![tactic(auto)]

mod axes;
mod creation;
mod digits;
mod elementwise;
mod expression;
mod grouped;
mod indexing;
mod laws;
mod lines;
mod node;
mod pieces;
mod places;
mod plain;
mod products;
mod reading;
mod reductions;
mod scope;
mod summed;
mod views;

pub use expression::whole;
pub use laws::{keeps_law, range_law};
pub use plain::{Plain, Plains};
