//! The reader of expressions: the JSON text of a list of nodes, as an expression or its first fault. Each family of operators
//! has its rows in a file of its own: `creation`, `elementwise`, `view`, `reduction` and `new_shape`.
#![tactic(auto)]

mod args;
mod creation;
mod elementwise;
mod faults;
mod ids;
mod index_item;
mod laws;
mod lists;
mod members;
mod new_shape;
mod node;
mod nodes;
mod read;
mod reduction;
mod rows;
mod view;

pub use elementwise::{binary_named, unary_named};
pub use faults::{ReadFault, ReadRefused};
pub use laws::{form_law, plain_law};
pub use read::{ExprText, read_expr, read_expr_text};
