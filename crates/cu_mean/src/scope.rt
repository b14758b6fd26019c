//! What an element is computed from.
use crate::plain::Plain;
use cu_node::NodeInfo;
use cu_shape::Dims;

/// What an element of a node is computed from, beside the node's form.
#[derive(Clone, Copy)]
pub(crate) struct Scope<'a> {
    /// What is known of each node.
    pub(crate) infos: &'a [NodeInfo],
    /// What is known of this one.
    pub(crate) info: &'a NodeInfo,
    /// The arrays of the nodes before it.
    pub(crate) plains: &'a [Plain],
    /// The index of the element.
    pub(crate) idx: &'a Dims,
}
