ghost use Rattle.std.specs.Prelude.{◌≡◌};
ghost use Rattle.cu_read.specs.Faults.{node_code_number};

/// Why a text gives no expression.
#[derive(Clone, Copy, Debug, PartialEq, Eq)]
pub struct ReadFault {
    /// 1 no JSON value, 2 the form of the whole, 3 the form of a node, 4 an unknown operator, 5 arguments, 6 an id, 7 a limit.
    pub code: u8,
    /// The number of the node for 3, 4, 5 and 6, else 0.
    pub node: u32,
}

/// Why no expression was read.
#[derive(Clone, Copy, Debug, PartialEq, Eq)]
pub enum ReadRefused {
    /// The text gives none; the first fault.
    Fault(ReadFault),
    /// Memory was wanted and not had.
    NoMemory,
}

/// What a node is refused for.
#[derive(Clone, Copy)]
pub(crate) enum NodeCode {
    /// The node isn't an object with texts `id` and `op`, or its members or their kinds aren't those of its operator.
    Form,
    /// There is no such operator.
    Unknown,
    /// The arguments are of a wrong number or form, or one is written where the operator wants an array.
    Args,
    /// The id isn't an id or was used before, or an argument names no earlier node.
    Id,
}

/// Why a part of a node was not read.
#[derive(Clone, Copy)]
pub(crate) enum NodeRefused {
    Code(NodeCode),
    /// Memory was wanted and not had.
    NoMemory,
}

impl From<NodeCode> for NodeRefused {
    ghost use Rattle.cu_read.specs.declared.faults.NodeRefused.{NodeRefused};

    ghost from_gives = { λ code refused. refused ≡ NodeRefused.Code code };

    fn from(code: NodeCode) -> NodeRefused {
        NodeRefused::Code(code)
    }
}

impl From<ReadFault> for ReadRefused {
    ghost use Rattle.cu_read.specs.declared.faults.ReadRefused.{ReadRefused};

    ghost from_gives = { λ fault refused. refused ≡ ReadRefused.Fault fault };

    fn from(fault: ReadFault) -> ReadRefused {
        ReadRefused::Fault(fault)
    }
}

impl NodeCode {
    /// The number of the code.
    pub(crate) fn number(self) -> u8
        ensures { result ≡ node_code_number self }
    {
        match self {
            NodeCode::Form => 3,
            NodeCode::Unknown => 4,
            NodeCode::Args => 5,
            NodeCode::Id => 6,
        }
    }
}
