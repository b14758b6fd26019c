//! Type, shape and chunk shape of a node of an expression from those of its arguments, or the node's first fault:
//! elementwise functions, reductions, `argmin` and `argmax`, `matmul`, prefix sums and groups by labels (Python array API 2022.12; the chunk shapes and the
//! faults are this project's rules).
#![tactic(auto)]

mod along;
mod argument;
mod elementwise;
mod joining;
mod laws;
mod matmul;
mod reduction;
mod types;

pub use along::{summed_axis, type_cumulative, type_groups};
pub use argument::Argument;
pub use elementwise::type_elementwise;
pub use joining::chunk_aligned;
pub use laws::{along_law, elementwise_law, matmul_law, reduction_law};
pub use matmul::{left_chunk, right_chunk, type_matmul};
pub use reduction::{type_arg_place, type_reduction};
