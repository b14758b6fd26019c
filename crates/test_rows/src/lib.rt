//! Tables of cases: their words, and the kinds of case whose rows ask for one answer of a reader,
//! of typing, or of a call over numbers, shapes, grids and keys. And workers that claim and report
//! the tasks of a task table in turn, for cases and for measuring: no task is carried out.
#![tactic(auto)]

mod bytes;
mod claims;
mod expressions;
mod findings;
mod members;
mod metadata;
mod numbers;
mod regions;
mod shapes;
mod turns;
mod typing;
mod zarrays;

pub use bytes::{NamedTexts, key_of};
pub use claims::Turns;
pub use expressions::run_expressions;
pub use findings::{CasePlace, Findings};
pub use members::{Said, list_of, number_of, pair_of, refuse_others, text_of};
pub use metadata::run_metadata;
pub use numbers::{run_promotions, run_scalars};
pub use regions::{run_keys, run_regions};
pub use shapes::run_shapes;
pub use turns::run_turns;
pub use typing::run_typing;
pub use zarrays::run_zarray;
