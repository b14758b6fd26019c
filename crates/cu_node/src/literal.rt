ghost use Rattle.std.specs.Prelude.{◌≡◌};
ghost use Rattle.cu_node.specs.Literal.{suits};

use crate::types::{in_range, is_integer};
use cu_num::{Dtype, is_bool};

/// A value that is written in an expression.
#[derive(Clone, Copy, Debug, PartialEq, Eq)]
pub enum Literal {
    /// an integer from -2^63 to 2^64 - 1
    Int(i128),
    Truth(bool),
}

impl Literal {
    /// Whether this is a value of the type: an integer in the range of an integer type, or a truth value of bool.
    pub fn suits(self, t: Dtype) -> bool
        ensures { result ≡ suits t self }
    {
        match self {
            Literal::Int(x) => is_integer(t) && in_range(t, x),
            Literal::Truth(_) => is_bool(t),
        }
    }
}
