//! Calls on words: each does at every place what a scalar call does for one number. There is one a function, so that the loops of
//! each are built apart.
ghost use Rattle.std.specs.Prelude.{◌≡◌, length};
ghost use Rattle.cu_lane.specs.Lanes.{HasResults1, HasResults2};

use crate::compared::{Order, compare};
use crate::loops::{by_type1, by_type2};
use cu_num::{Dtype, Fn1, Fn2};

/// The words of a function of one argument.
pub fn lane1(f: Fn1, t: Dtype, x: &[u64], out: &mut [u64])
    requires { length x.now ≡ length out.old }
    ensures { HasResults1 f t x.now out.new }
{
    match f {
        Fn1::Negative => lane_negative(t, x, out),
        Fn1::Positive => lane_positive(t, x, out),
        Fn1::Abs => lane_abs(t, x, out),
        Fn1::Square => lane_square(t, x, out),
        Fn1::Sign => lane_sign(t, x, out),
        Fn1::BitwiseInvert => lane_bitwise_invert(t, x, out),
        Fn1::LogicalNot => lane_logical_not(t, x, out),
        Fn1::Astype => lane_astype(t, x, out),
    }
}

/// The words of a function of two arguments, which are numbers of the type.
pub fn lane2(f: Fn2, t: Dtype, x: &[u64], y: &[u64], out: &mut [u64])
    requires first { length x.now ≡ length out.old }
    requires second { length y.now ≡ length out.old }
    ensures { HasResults2 f t x.now y.now out.new }
{
    match f {
        Fn2::Add => lane_add(t, x, y, out),
        Fn2::Subtract => lane_subtract(t, x, y, out),
        Fn2::Multiply => lane_multiply(t, x, y, out),
        Fn2::FloorDivide => lane_floor_divide(t, x, y, out),
        Fn2::Remainder => lane_remainder(t, x, y, out),
        Fn2::BitwiseAnd => lane_bitwise_and(t, x, y, out),
        Fn2::BitwiseOr => lane_bitwise_or(t, x, y, out),
        Fn2::BitwiseXor => lane_bitwise_xor(t, x, y, out),
        Fn2::LeftShift => lane_left_shift(t, x, y, out),
        Fn2::RightShift => lane_right_shift(t, x, y, out),
        Fn2::Equal => lane_equal(t, x, y, out),
        Fn2::NotEqual => lane_not_equal(t, x, y, out),
        Fn2::Less => lane_less(t, x, y, out),
        Fn2::LessEqual => lane_less_equal(t, x, y, out),
        Fn2::Greater => lane_greater(t, x, y, out),
        Fn2::GreaterEqual => lane_greater_equal(t, x, y, out),
        Fn2::LogicalAnd => lane_logical_and(t, x, y, out),
        Fn2::LogicalOr => lane_logical_or(t, x, y, out),
        Fn2::LogicalXor => lane_logical_xor(t, x, y, out),
    }
}

#[inline(never)]
fn lane_negative(t: Dtype, x: &[u64], out: &mut [u64])
    requires { length x.now ≡ length out.old }
    ensures { HasResults1 Fn1.Negative t x.now out.new }
{
    by_type1(Fn1::Negative, t, x, out);
}

#[inline(never)]
fn lane_positive(t: Dtype, x: &[u64], out: &mut [u64])
    requires { length x.now ≡ length out.old }
    ensures { HasResults1 Fn1.Positive t x.now out.new }
{
    by_type1(Fn1::Positive, t, x, out);
}

#[inline(never)]
fn lane_abs(t: Dtype, x: &[u64], out: &mut [u64])
    requires { length x.now ≡ length out.old }
    ensures { HasResults1 Fn1.Abs t x.now out.new }
{
    by_type1(Fn1::Abs, t, x, out);
}

#[inline(never)]
fn lane_square(t: Dtype, x: &[u64], out: &mut [u64])
    requires { length x.now ≡ length out.old }
    ensures { HasResults1 Fn1.Square t x.now out.new }
{
    by_type1(Fn1::Square, t, x, out);
}

#[inline(never)]
fn lane_sign(t: Dtype, x: &[u64], out: &mut [u64])
    requires { length x.now ≡ length out.old }
    ensures { HasResults1 Fn1.Sign t x.now out.new }
{
    by_type1(Fn1::Sign, t, x, out);
}

#[inline(never)]
fn lane_bitwise_invert(t: Dtype, x: &[u64], out: &mut [u64])
    requires { length x.now ≡ length out.old }
    ensures { HasResults1 Fn1.BitwiseInvert t x.now out.new }
{
    by_type1(Fn1::BitwiseInvert, t, x, out);
}

#[inline(never)]
fn lane_logical_not(t: Dtype, x: &[u64], out: &mut [u64])
    requires { length x.now ≡ length out.old }
    ensures { HasResults1 Fn1.LogicalNot t x.now out.new }
{
    by_type1(Fn1::LogicalNot, t, x, out);
}

#[inline(never)]
fn lane_astype(t: Dtype, x: &[u64], out: &mut [u64])
    requires { length x.now ≡ length out.old }
    ensures { HasResults1 Fn1.Astype t x.now out.new }
{
    by_type1(Fn1::Astype, t, x, out);
}

#[inline(never)]
fn lane_add(t: Dtype, x: &[u64], y: &[u64], out: &mut [u64])
    requires first { length x.now ≡ length out.old }
    requires second { length y.now ≡ length out.old }
    ensures { HasResults2 Fn2.Add t x.now y.now out.new }
{
    by_type2(Fn2::Add, t, x, y, out);
}

#[inline(never)]
fn lane_subtract(t: Dtype, x: &[u64], y: &[u64], out: &mut [u64])
    requires first { length x.now ≡ length out.old }
    requires second { length y.now ≡ length out.old }
    ensures { HasResults2 Fn2.Subtract t x.now y.now out.new }
{
    by_type2(Fn2::Subtract, t, x, y, out);
}

#[inline(never)]
fn lane_multiply(t: Dtype, x: &[u64], y: &[u64], out: &mut [u64])
    requires first { length x.now ≡ length out.old }
    requires second { length y.now ≡ length out.old }
    ensures { HasResults2 Fn2.Multiply t x.now y.now out.new }
{
    by_type2(Fn2::Multiply, t, x, y, out);
}

#[inline(never)]
fn lane_floor_divide(t: Dtype, x: &[u64], y: &[u64], out: &mut [u64])
    requires first { length x.now ≡ length out.old }
    requires second { length y.now ≡ length out.old }
    ensures { HasResults2 Fn2.FloorDivide t x.now y.now out.new }
{
    by_type2(Fn2::FloorDivide, t, x, y, out);
}

#[inline(never)]
fn lane_remainder(t: Dtype, x: &[u64], y: &[u64], out: &mut [u64])
    requires first { length x.now ≡ length out.old }
    requires second { length y.now ≡ length out.old }
    ensures { HasResults2 Fn2.Remainder t x.now y.now out.new }
{
    by_type2(Fn2::Remainder, t, x, y, out);
}

#[inline(never)]
fn lane_bitwise_and(t: Dtype, x: &[u64], y: &[u64], out: &mut [u64])
    requires first { length x.now ≡ length out.old }
    requires second { length y.now ≡ length out.old }
    ensures { HasResults2 Fn2.BitwiseAnd t x.now y.now out.new }
{
    by_type2(Fn2::BitwiseAnd, t, x, y, out);
}

#[inline(never)]
fn lane_bitwise_or(t: Dtype, x: &[u64], y: &[u64], out: &mut [u64])
    requires first { length x.now ≡ length out.old }
    requires second { length y.now ≡ length out.old }
    ensures { HasResults2 Fn2.BitwiseOr t x.now y.now out.new }
{
    by_type2(Fn2::BitwiseOr, t, x, y, out);
}

#[inline(never)]
fn lane_bitwise_xor(t: Dtype, x: &[u64], y: &[u64], out: &mut [u64])
    requires first { length x.now ≡ length out.old }
    requires second { length y.now ≡ length out.old }
    ensures { HasResults2 Fn2.BitwiseXor t x.now y.now out.new }
{
    by_type2(Fn2::BitwiseXor, t, x, y, out);
}

#[inline(never)]
fn lane_left_shift(t: Dtype, x: &[u64], y: &[u64], out: &mut [u64])
    requires first { length x.now ≡ length out.old }
    requires second { length y.now ≡ length out.old }
    ensures { HasResults2 Fn2.LeftShift t x.now y.now out.new }
{
    by_type2(Fn2::LeftShift, t, x, y, out);
}

#[inline(never)]
fn lane_right_shift(t: Dtype, x: &[u64], y: &[u64], out: &mut [u64])
    requires first { length x.now ≡ length out.old }
    requires second { length y.now ≡ length out.old }
    ensures { HasResults2 Fn2.RightShift t x.now y.now out.new }
{
    by_type2(Fn2::RightShift, t, x, y, out);
}

#[inline(never)]
fn lane_equal(t: Dtype, x: &[u64], y: &[u64], out: &mut [u64])
    requires first { length x.now ≡ length out.old }
    requires second { length y.now ≡ length out.old }
    ensures { HasResults2 Fn2.Equal t x.now y.now out.new }
{
    compare(Order::Equal, t, x, y, out);
}

#[inline(never)]
fn lane_not_equal(t: Dtype, x: &[u64], y: &[u64], out: &mut [u64])
    requires first { length x.now ≡ length out.old }
    requires second { length y.now ≡ length out.old }
    ensures { HasResults2 Fn2.NotEqual t x.now y.now out.new }
{
    compare(Order::NotEqual, t, x, y, out);
}

#[inline(never)]
fn lane_less(t: Dtype, x: &[u64], y: &[u64], out: &mut [u64])
    requires first { length x.now ≡ length out.old }
    requires second { length y.now ≡ length out.old }
    ensures { HasResults2 Fn2.Less t x.now y.now out.new }
{
    compare(Order::Less, t, x, y, out);
}

#[inline(never)]
fn lane_less_equal(t: Dtype, x: &[u64], y: &[u64], out: &mut [u64])
    requires first { length x.now ≡ length out.old }
    requires second { length y.now ≡ length out.old }
    ensures { HasResults2 Fn2.LessEqual t x.now y.now out.new }
{
    compare(Order::LessEqual, t, x, y, out);
}

#[inline(never)]
fn lane_greater(t: Dtype, x: &[u64], y: &[u64], out: &mut [u64])
    requires first { length x.now ≡ length out.old }
    requires second { length y.now ≡ length out.old }
    ensures { HasResults2 Fn2.Greater t x.now y.now out.new }
{
    compare(Order::Less, t, y, x, out);
}

#[inline(never)]
fn lane_greater_equal(t: Dtype, x: &[u64], y: &[u64], out: &mut [u64])
    requires first { length x.now ≡ length out.old }
    requires second { length y.now ≡ length out.old }
    ensures { HasResults2 Fn2.GreaterEqual t x.now y.now out.new }
{
    compare(Order::LessEqual, t, y, x, out);
}

#[inline(never)]
fn lane_logical_and(t: Dtype, x: &[u64], y: &[u64], out: &mut [u64])
    requires first { length x.now ≡ length out.old }
    requires second { length y.now ≡ length out.old }
    ensures { HasResults2 Fn2.LogicalAnd t x.now y.now out.new }
{
    by_type2(Fn2::LogicalAnd, t, x, y, out);
}

#[inline(never)]
fn lane_logical_or(t: Dtype, x: &[u64], y: &[u64], out: &mut [u64])
    requires first { length x.now ≡ length out.old }
    requires second { length y.now ≡ length out.old }
    ensures { HasResults2 Fn2.LogicalOr t x.now y.now out.new }
{
    by_type2(Fn2::LogicalOr, t, x, y, out);
}

#[inline(never)]
fn lane_logical_xor(t: Dtype, x: &[u64], y: &[u64], out: &mut [u64])
    requires first { length x.now ≡ length out.old }
    requires second { length y.now ≡ length out.old }
    ensures { HasResults2 Fn2.LogicalXor t x.now y.now out.new }
{
    by_type2(Fn2::LogicalXor, t, x, y, out);
}
