//! A depot, a source and a sink in memory, whose calls fail where a script says so.
#![tactic(auto)]

mod depot;
mod entries;
mod late;
mod share;
mod streams;

pub use cu_cells::{CallKind, Rule, Script};
pub use depot::MemDepot;
pub use streams::{MemSink, MemSource};

#[cfg(test)]
mod tests;
