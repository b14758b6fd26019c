//! Chunks in shared memory, which several workers put and get at once, and scripts that say which
//! calls fail.
#![tactic(auto)]

mod cells;
mod fill;
mod late;
mod layout;
mod make;
mod places;
mod rule;
mod script;
mod shared;
mod steps;
mod words;
mod yard;

pub use late::{LateCell, LatePut};
pub use layout::CellLayout;
pub use places::Places;
pub use rule::{CellsRule, View};
pub use script::{CallKind, Counted, Fate, Rule, Running, Script, same_key};
pub use shared::{CellPass, Cells, ReadBytes};
