//! Fusion: a map whose result one other map alone reads is computed in that map, copies are joined,
//! and arrays are made where they are read.
#![tactic(auto)]

mod choice;
mod close;
mod copies;
mod copy_laws;
mod inline;
mod inlining_laws;
mod inputs;
mod join;
mod laws;
mod least;
mod merge;
mod once;
mod plan;
mod room;
mod setting;
mod splice;

pub use copies::join_copies;
pub use copy_laws::{copies_joined_law, joining_law, made_names_law};
pub use inline::inline_arrays;
pub use inlining_laws::inlining_law;
pub use laws::{
    closing_law, fused_law, fused_loading_once_law, merge_law, one_load_law, rule_law, splice_law,
};
pub use plan::{fuse, fuse_loading_once};
