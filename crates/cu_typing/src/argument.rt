use cu_node::{Literal, NodeInfo};

/// An argument of an elementwise function.
#[derive(Clone, Copy, Debug, PartialEq, Eq)]
pub enum Argument {
    /// an earlier node's array
    Array(NodeInfo),
    /// a number or a truth value, which takes the type of the array that it meets
    Written(Literal),
}
