//! Steps of a kernel that compute, at single numbers.
ghost use Rattle.std.specs.Prelude.{◌≡◌};
ghost use Rattle.cu_num.specs.Dtype.{InRange};
ghost use Rattle.cu_num.specs.Scalar.{op2};
ghost use Rattle.cu_op.specs.Kernel.{selected};
ghost use Rattle.cu_kern.specs.Strips.{call_type, extreme};

use crate::division::floor_divide;
use cu_num::{Dtype, Fn1, Fn2, result1, result2, scalar2, wrap};

/// A step of a kernel that computes, with the types of its arguments.
#[derive(Clone, Copy)]
pub(crate) enum Call {
    /// A function of one argument of the first type. The second is the function's, the same but for `Astype`.
    One(Fn1, Dtype, Dtype),
    /// A function of two arguments of the type.
    Two(Fn2, Dtype),
    /// Where the first argument is 1 the second, else the third, both of the type.
    Select(Dtype),
    /// The least of two arguments of the type, or else the greatest.
    Extreme(bool, Dtype),
    /// The product of two arguments of the first type, as a number of the second, which has all numbers of the first.
    Product(Dtype, Dtype),
    /// The product of an argument with itself, of the types of `Product`.
    Square(Dtype, Dtype),
}

/// The type of the result.
#[inline]
pub(crate) fn call_type(call: Call) -> Dtype
    ensures { result ≡ call_type call }
{
    match call {
        Call::One(f, _, t) => result1(f, t),
        Call::Two(f, t) => result2(f, t),
        Call::Select(t) => t,
        Call::Extreme(_, t) => t,
        Call::Product(_, t) => t,
        Call::Square(_, t) => t,
    }
}

/// The second where the first is 1, else the third.
#[inline(always)]
pub(crate) fn chosen(c: i128, x: i128, y: i128) -> i128
    ensures { result ≡ selected c x y }
{
    if c == 1 { x } else { y }
}

/// The least, or else the greatest.
#[inline(always)]
pub(crate) fn extreme(least: bool, x: i128, y: i128) -> i128
    ensures { result ≡ extreme least x y }
{
    if least { x.min(y) } else { x.max(y) }
}

/// `scalar2`, which divides by the machine's division of at most 64 bits.
#[inline]
pub(crate) fn value2(f: Fn2, t: Dtype, x: i128, y: i128) -> i128
    requires first { InRange t x }
    requires second { InRange t y }
    ensures { result ≡ op2 f t x y }
{
    match f {
        Fn2::FloorDivide => wrap(t, floor_divide(t, x, y)),
        _ => scalar2(f, t, x, y),
    }
}
