ghost use Rattle.std.specs.Prelude.{◌≡◌};
ghost use Rattle.cu_form.specs.Form.{is_earlier, is_array};

/// An argument of a node: an earlier node, or a number or truth value that is written in its place.
#[derive(Clone, Copy, Debug, PartialEq, Eq)]
pub enum Arg {
    /// the node with this number
    Node(u32),
    /// an integer from -2^63 to 2^64 - 1
    Int(i128),
    Truth(bool),
}

impl Arg {
    /// Whether the argument is an array.
    pub fn is_array(&self) -> bool
        ensures { result ≡ is_array self.now }
    {
        match self {
            Arg::Node(_) => true,
            Arg::Int(_) | Arg::Truth(_) => false,
        }
    }

    /// Whether the argument names a node before the one with this number, or none.
    pub fn is_earlier(&self, number: u32) -> bool
        ensures { result ≡ is_earlier number self.now }
    {
        match self {
            Arg::Node(n) => *n < number,
            Arg::Int(_) | Arg::Truth(_) => true,
        }
    }
}
