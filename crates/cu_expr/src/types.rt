ghost use Rattle.std.specs.Prelude.{◌≡◌, ◌<◌, Some, length, slice_get, All};
ghost use Rattle.cu_node.specs.Info.{IsInfo};

use cu_node::NodeInfo;
use std::alloc::AllocError;
use std::marker::Model;

/// What is known of each node's array, by the nodes' numbers. Contracts see the list.
#[derive(Drop)]
pub struct Types {
    infos: Vec<NodeInfo>,
}

impl Model for Types {
    ghost use Rattle.std.specs.Prelude.{List, All};
    ghost use Rattle.cu_node.specs.Info.{IsInfo};
    ghost use Rattle.cu_node.specs.declared.info.NodeInfo.{NodeInfo};

    ghost Value = { List NodeInfo };

    ghost view = { λ t. t.infos.items };

    ghost invariant = { λ t. All IsInfo t.infos.items };
}

impl Types {
    /// The types of nodes whose arrays keep the limits.
    pub(crate) fn make(infos: Vec<NodeInfo>) -> Types
        requires { All IsInfo infos.items }
        ensures types { result ≡ infos.items }
        ensures kept { All IsInfo result }
    {
        Types { infos }
    }

    /// What is known of the array of the node with this number.
    pub fn at(&self, node: u32) -> &NodeInfo
        requires { node < length self.now }
        ensures value { slice_get self.now node ≡ Some result.now }
        ensures kept { IsInfo result.now }
    {
        &self.infos[node as usize]
    }
}

/// The first fault of an expression's nodes (this project's own codes): 1 Promote, 2 Shape, 3 Axis, 4 EmptyReduce, 5 Scalar,
/// 6 Kind, 7 Limit, 8 ReshapeSize, 9 Index.
#[derive(Clone, Copy, Debug, PartialEq, Eq)]
pub struct TypeFault {
    pub code: u8,
    /// The number of the node.
    pub node: u32,
    /// An axis, an entry of an index, or a limit (1 rank, 2 elements, 3 bytes of a chunk, 4 chunks); else 0.
    pub place: u32,
}

/// Why an expression has no types.
#[derive(Clone, Copy, Debug, PartialEq, Eq)]
pub enum TypeRefused {
    Fault(TypeFault),
    /// There was no memory.
    NoMemory,
}

impl From<AllocError> for TypeRefused {
    ghost use Rattle.std.specs.Prelude.{◌≡◌};
    ghost use Rattle.cu_expr.specs.declared.types.TypeRefused.TheVariants.{NoMemory};

    ghost from_gives = { λ e r. r ≡ NoMemory };

    fn from(_error: AllocError) -> TypeRefused {
        TypeRefused::NoMemory
    }
}
