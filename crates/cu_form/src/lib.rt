//! Expressions: a list of nodes, each of which is an input or a function of earlier nodes.
#![tactic(auto)]

mod args;
mod expr;
mod form;

pub use args::Arg;
pub use cu_node::{ElementOp, IndexItem, Items, Literal, NewShape};
pub use expr::{Expr, Node};
pub use form::{Form, group_kind};
