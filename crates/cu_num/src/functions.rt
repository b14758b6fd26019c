ghost use Rattle.std.specs.Prelude.{◌≡◌};
ghost use Rattle.cu_num.specs.Functions.{accepts1, accepts2};
ghost use Rattle.cu_num.specs.Scalar.{result_type1, result_type2};

use crate::types::{Dtype, is_bool};

/// An elementwise function of one argument (Python array API, elementwise functions).
#[derive(Clone, Copy, Debug, PartialEq, Eq)]
pub enum Fn1 {
    Negative,
    Positive,
    Abs,
    Square,
    /// -1, 0 or 1
    Sign,
    /// the complement of the two's complement bits; of a bool its negation
    BitwiseInvert,
    LogicalNot,
    /// the number in another type
    Astype,
}

/// An elementwise function of two arguments (Python array API, elementwise functions).
#[derive(Clone, Copy, Debug, PartialEq, Eq)]
pub enum Fn2 {
    Add,
    Subtract,
    Multiply,
    /// the quotient rounded down; 0 where the divisor is 0
    FloorDivide,
    /// what that quotient leaves; 0 where the divisor is 0
    Remainder,
    BitwiseAnd,
    BitwiseOr,
    BitwiseXor,
    /// times a power of two; 0 where the shift is negative or not below the width
    LeftShift,
    /// divided by a power of two and rounded down; the sign alone where the shift is negative or not below the width
    RightShift,
    Equal,
    NotEqual,
    Less,
    LessEqual,
    Greater,
    GreaterEqual,
    LogicalAnd,
    LogicalOr,
    LogicalXor,
}

/// Whether the function accepts the type of its argument; `Astype` takes every type.
#[inline]
pub fn accepts1(f: Fn1, t: Dtype) -> bool
    ensures { result ≡ accepts1 f t }
{
    match f {
        Fn1::BitwiseInvert | Fn1::Astype => true,
        Fn1::LogicalNot => is_bool(t),
        _ => !is_bool(t),
    }
}

/// Whether the function accepts the type to which its arguments are promoted.
#[inline]
pub fn accepts2(f: Fn2, t: Dtype) -> bool
    ensures { result ≡ accepts2 f t }
{
    match f {
        Fn2::BitwiseAnd | Fn2::BitwiseOr | Fn2::BitwiseXor | Fn2::Equal | Fn2::NotEqual => true,
        Fn2::LogicalAnd | Fn2::LogicalOr | Fn2::LogicalXor => is_bool(t),
        _ => !is_bool(t),
    }
}

/// The type of the result at an argument of type `t`; of `Astype`, `t` is the new type.
#[inline]
pub fn result1(f: Fn1, t: Dtype) -> Dtype
    ensures { result ≡ result_type1 f t }
{
    match f {
        Fn1::LogicalNot => Dtype::Bool,
        _ => t,
    }
}

/// The type of the result at arguments of type `t`: of comparisons and logical functions a bool.
#[inline]
pub fn result2(f: Fn2, t: Dtype) -> Dtype
    ensures { result ≡ result_type2 f t }
{
    match f {
        Fn2::Equal | Fn2::NotEqual => Dtype::Bool,
        Fn2::Less | Fn2::LessEqual | Fn2::Greater | Fn2::GreaterEqual => Dtype::Bool,
        Fn2::LogicalAnd | Fn2::LogicalOr | Fn2::LogicalXor => Dtype::Bool,
        _ => t,
    }
}
