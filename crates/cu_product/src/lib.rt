//! Products of matrices: blocks of little-endian elements, whose axes before the matrix broadcast.
#![tactic(auto)]

mod block;
mod column;
mod paired;
mod rows;
mod types;

pub use block::{MulDims, mul_block};
