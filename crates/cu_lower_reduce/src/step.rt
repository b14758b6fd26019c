use cu_node::NodeInfo;
use cu_op::Op;

/// An operation that a node of an expression adds to a plan, with what is known of the arrays that it makes.
#[derive(Drop)]
pub struct Step {
    /// The operation.
    pub op: Op,
    /// Its array of values, where it makes one beside the places of a search.
    pub values: Option<NodeInfo>,
    /// Its result.
    pub made: NodeInfo,
    /// The bytes of memory that a worker needs for one of its tasks, those that are reserved counted.
    pub need: u64,
}

/// Where the steps of a node stand, and what they may take.
#[derive(Clone, Copy, Debug)]
pub struct Setting {
    /// The number of the first array that they make; the others follow.
    pub first: u32,
    /// How many partial results are merged to one.
    pub split_every: u32,
    /// The bytes of memory that are kept for everything else.
    pub reserved: u64,
}
