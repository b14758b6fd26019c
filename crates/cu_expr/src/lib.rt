//! Expressions and their typing: the type, shape and chunk shape of each node, or the first fault.
#![tactic(auto)]

mod inputs;
mod laws;
mod told;
mod types;
mod typing;
mod views;

pub use cu_form::{Arg, ElementOp, Expr, Form, IndexItem, Items, Literal, Node};
pub use cu_node::NodeInfo;
pub use cu_num::FoldKind;
pub use inputs::{InputInfo, layout_named};
pub use laws::{grid_law, input_law, map_law, typing_law};
pub use types::{TypeFault, TypeRefused, Types};
pub use typing::type_of;
