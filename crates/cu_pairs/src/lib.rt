//! The least or the greatest element and the first place that has it (Python array API, "Searching Functions": `argmin`, `argmax`), over
//! regions of elements as little-endian bytes, and over partial results with their places.
#![tactic(auto)]

mod blocks;
mod by_type;
mod column_types;
mod columns;
mod few;
mod pairs;
mod run_types;
mod runs;

pub use pairs::{blocks_before, pair_fold, pair_merge, width_behind};
