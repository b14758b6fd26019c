ghost use Rattle.std.specs.Prelude.{◌≡◌};
ghost use Rattle.cu_node.specs.Fault.{code_number, fault, fault_at};

/// Why a node of an expression is refused (this project's own codes). Where several hold, the one that is answered is the
/// first in this order: Kind, Scalar, Promote, Axis, Index, Shape, ReshapeSize, EmptyReduce, Limit.
#[derive(Clone, Copy, Debug, PartialEq, Eq)]
pub enum FaultCode {
    /// The types of the arguments have no common type.
    Promote,
    /// Shapes do not fit one another.
    Shape,
    /// An axis that the argument lacks, or that is named twice.
    Axis,
    /// The least or greatest of no elements.
    EmptyReduce,
    /// A literal of another kind, or outside the range of the type that it meets.
    Scalar,
    /// A type that the operation does not accept.
    Kind,
    /// A limit is exceeded; the place says which: 1 rank, 2 elements, 3 bytes of a chunk, 4 chunks.
    Limit,
    /// The elements do not fill the new shape.
    ReshapeSize,
    /// An index outside its axis, a step of 0, or an index of too many entries.
    Index,
}

/// A node's first fault: why, and where.
#[derive(Clone, Copy, Debug, PartialEq, Eq)]
pub struct NodeFault {
    pub code: FaultCode,
    /// An axis, an entry of an index, or a limit; 0 where the code names no place.
    pub place: u32,
}

impl FaultCode {
    /// The number of the code, from 1 to 9.
    pub fn number(self) -> u8
        ensures { result ≡ code_number self }
    {
        match self {
            FaultCode::Promote => 1,
            FaultCode::Shape => 2,
            FaultCode::Axis => 3,
            FaultCode::EmptyReduce => 4,
            FaultCode::Scalar => 5,
            FaultCode::Kind => 6,
            FaultCode::Limit => 7,
            FaultCode::ReshapeSize => 8,
            FaultCode::Index => 9,
        }
    }
}

/// A fault at no place.
pub fn fault(code: FaultCode) -> NodeFault
    ensures { result ≡ fault code }
{
    NodeFault { code, place: 0 }
}

/// A fault at a place.
pub fn fault_at(code: FaultCode, place: u32) -> NodeFault
    ensures { result ≡ fault_at code place }
{
    NodeFault { code, place }
}
