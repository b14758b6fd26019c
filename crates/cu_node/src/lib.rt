//! What is known of a node of an expression: the type, shape and chunk shape of its array; why a node is refused; the limits
//! of an array; axes as a form names them; elementwise functions, entries of an index, new shapes and values that are written.
#![tactic(auto)]

mod axes;
mod element_op;
mod faults;
mod index_item;
mod info;
mod items;
mod laws;
mod limits;
mod literal;
mod new_shape;
mod types;

pub use axes::{all_axes, axis_of, named_axes};
pub use element_op::ElementOp;
pub use faults::{FaultCode, NodeFault, fault, fault_at};
pub use index_item::IndexItem;
pub use info::{NodeInfo, grown, info_at, size_at};
pub use items::Items;
pub use laws::{info_law, limits_law, types_law};
pub use limits::{is_chunk_within, within_limits, within_limits_list};
pub use literal::Literal;
pub use new_shape::NewShape;
pub use types::{in_range, is_integer};
