use cu_num::{Dtype, Fn1, Fn2};

/// An elementwise function (Python array API, "Element-wise Functions"; `where` of "Searching Functions"; `astype`;
/// `maximum`, `minimum` and `clip` of its version 2023.12).
#[derive(Clone, Copy, Debug, PartialEq, Eq)]
pub enum ElementOp {
    /// a function of one argument, other than `Fn1::Astype`
    One(Fn1),
    /// a function of two arguments
    Two(Fn2),
    /// the second argument where the first is true, else the third
    Where,
    /// the argument in this type
    Astype(Dtype),
    /// the lesser of two arguments where this holds, else the greater
    Extreme(bool),
    /// the lesser of the second number and of the greater of the first and the argument; each from -2^63 to 2^64 - 1
    Clip(i128, i128),
}
