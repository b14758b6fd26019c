ghost use Rattle.std.specs.Prelude.{◌≡◌, ◌≢◌};
ghost use Rattle.cu_num.specs.Dtype.{InRange};
ghost use Rattle.cu_num.specs.Scalar.{op1, op2, result_type1, result_type2};

use crate::division::{floor_divide, floor_remainder_of};
use crate::functions::{Fn1, Fn2};
use crate::shifts::{shift_left, shift_right};
use crate::types::{Dtype, width};
use crate::wrapping::{power, unsigned, wrap};

#[inline]
fn negative(t: Dtype, x: i128) -> i128
    requires { InRange t x }
    ensures { result ≡ op1 Fn1.Negative t x }
{
    wrap(t, -x)
}

#[inline]
fn absolute(t: Dtype, x: i128) -> i128
    requires { InRange t x }
    ensures { result ≡ op1 Fn1.Abs t x }
{
    wrap(t, x.abs())
}

#[inline]
fn invert(t: Dtype, x: i128) -> i128
    ensures { result ≡ op1 Fn1.BitwiseInvert t x }
{
    let width = width(t);
    wrap(t, power(width) - 1 - unsigned(x, width))
}

/// `scalar1`, by the function.
#[inline]
fn value1(f: Fn1, t: Dtype, x: i128) -> i128
    requires { f ≢ Fn1.Astype → InRange t x }
    ensures { result ≡ op1 f t x }
{
    match f {
        Fn1::Negative => negative(t, x),
        Fn1::Positive => wrap(t, x),
        Fn1::Abs => absolute(t, x),
        Fn1::Square => multiply(t, x, x),
        Fn1::Sign => wrap(t, x.signum()),
        Fn1::BitwiseInvert => invert(t, x),
        Fn1::LogicalNot => i128::from(x == 0),
        Fn1::Astype => wrap(t, x),
    }
}

/// The value of an elementwise function of one argument at `x`, which is a number of the type.
/// Of `Astype`, `t` is the new type and `x` any number. Where the function does not accept the type, the value means nothing.
#[inline]
pub fn scalar1(f: Fn1, t: Dtype, x: i128) -> i128
    requires { f ≢ Fn1.Astype → InRange t x }
    ensures value { result ≡ op1 f t x }
    ensures range { InRange (result_type1 f t) result }
{
    value1(f, t, x)
}

#[inline]
fn add(t: Dtype, x: i128, y: i128) -> i128
    requires first { InRange t x }
    requires second { InRange t y }
    ensures { result ≡ op2 Fn2.Add t x y }
{
    wrap(t, x + y)
}

#[inline]
fn subtract(t: Dtype, x: i128, y: i128) -> i128
    requires first { InRange t x }
    requires second { InRange t y }
    ensures { result ≡ op2 Fn2.Subtract t x y }
{
    wrap(t, x - y)
}

#[inline]
fn multiply(t: Dtype, x: i128, y: i128) -> i128
    requires first { InRange t x }
    requires second { InRange t y }
    ensures { result ≡ op2 Fn2.Multiply t x y }
{
    wrap(t, x.wrapping_mul(y))
}

#[inline]
fn quotient(t: Dtype, x: i128, y: i128) -> i128
    requires first { InRange t x }
    requires second { InRange t y }
    ensures { result ≡ op2 Fn2.FloorDivide t x y }
{
    wrap(t, floor_divide(x, y))
}

#[inline]
fn remainder(t: Dtype, x: i128, y: i128) -> i128
    requires first { InRange t x }
    requires second { InRange t y }
    ensures { result ≡ op2 Fn2.Remainder t x y }
{
    wrap(t, floor_remainder_of(x, y))
}

#[inline]
fn bitwise_and(t: Dtype, x: i128, y: i128) -> i128
    ensures { result ≡ op2 Fn2.BitwiseAnd t x y }
{
    let width = width(t);
    wrap(t, unsigned(x, width) & unsigned(y, width))
}

#[inline]
fn bitwise_or(t: Dtype, x: i128, y: i128) -> i128
    ensures { result ≡ op2 Fn2.BitwiseOr t x y }
{
    let width = width(t);
    wrap(t, unsigned(x, width) | unsigned(y, width))
}

#[inline]
fn bitwise_xor(t: Dtype, x: i128, y: i128) -> i128
    ensures { result ≡ op2 Fn2.BitwiseXor t x y }
{
    let width = width(t);
    wrap(t, unsigned(x, width) ^ unsigned(y, width))
}

#[inline]
fn left_shift(t: Dtype, x: i128, y: i128) -> i128
    requires { InRange t x }
    ensures { result ≡ op2 Fn2.LeftShift t x y }
{
    wrap(t, shift_left(x, y, width(t)))
}

#[inline]
fn right_shift(t: Dtype, x: i128, y: i128) -> i128
    ensures { result ≡ op2 Fn2.RightShift t x y }
{
    wrap(t, shift_right(x, y, width(t)))
}

/// `scalar2`, by the function.
#[inline]
fn value2(f: Fn2, t: Dtype, x: i128, y: i128) -> i128
    requires first { InRange t x }
    requires second { InRange t y }
    ensures { result ≡ op2 f t x y }
{
    match f {
        Fn2::Add => add(t, x, y),
        Fn2::Subtract => subtract(t, x, y),
        Fn2::Multiply => multiply(t, x, y),
        Fn2::FloorDivide => quotient(t, x, y),
        Fn2::Remainder => remainder(t, x, y),
        Fn2::BitwiseAnd => bitwise_and(t, x, y),
        Fn2::BitwiseOr => bitwise_or(t, x, y),
        Fn2::BitwiseXor => bitwise_xor(t, x, y),
        Fn2::LeftShift => left_shift(t, x, y),
        Fn2::RightShift => right_shift(t, x, y),
        Fn2::Equal => i128::from(x == y),
        Fn2::NotEqual => i128::from(x != y),
        Fn2::Less => i128::from(x < y),
        Fn2::LessEqual => i128::from(x <= y),
        Fn2::Greater => i128::from(x > y),
        Fn2::GreaterEqual => i128::from(x >= y),
        Fn2::LogicalAnd => i128::from(x != 0 && y != 0),
        Fn2::LogicalOr => i128::from(x != 0 || y != 0),
        Fn2::LogicalXor => i128::from((x != 0) != (y != 0)),
    }
}

/// The value of an elementwise function of two arguments at `x` and `y`, which are numbers of the type.
/// Where the function does not accept the type, the value means nothing.
#[inline]
pub fn scalar2(f: Fn2, t: Dtype, x: i128, y: i128) -> i128
    requires first { InRange t x }
    requires second { InRange t y }
    ensures value { result ≡ op2 f t x y }
    ensures range { InRange (result_type2 f t) result }
{
    value2(f, t, x, y)
}
