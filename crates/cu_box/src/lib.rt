//! Boxes of elements that are copied between arrays in memory.
#![tactic(auto)]

mod boxes;
mod copying;
mod normal;
mod order;
mod planes;
mod rows;
mod strides;

pub use boxes::{Placing, copy_box};
pub use copying::copy_strided;
pub use order::{reorder, swap};
pub use rows::{Rows, Spacing, copy_rows, place_on};
pub use strides::{Axis, Start, Stride};
