//! One call a function from bytes to bytes, so that the loops of each are built apart.
ghost use Rattle.std.specs.Prelude.{length, true, false};
ghost use Rattle.cu_kern.specs.Strips.{strip, IsCall, WidensTo, HasArguments, HasResults};

use crate::by_type::call_by_type;
use crate::calls::Call;
use crate::comparisons::{
    pair_equal, pair_greater, pair_greater_equal, pair_less, pair_less_equal, pair_not_equal,
};
use crate::reciprocals::divide_by_type;
use crate::strip_loops::{
    astype_by_types, extreme_by_steps, one_by_type, pair_by_type, product_by_types, select_by_type,
    square_by_types,
};
use crate::strips::Strip;
use cu_num::{Dtype, Fn1, Fn2};

/// The elements of a call along a run.
pub(crate) fn call_strips(call: Call, x: Strip<'_>, y: Strip<'_>, z: Strip<'_>, out: &mut [u8])
    requires call { IsCall call }
    requires arguments { HasArguments call (strip x.bytes.now x.step) (strip y.bytes.now y.step) (strip z.bytes.now z.step) (length out.old) }
    ensures { HasResults call (strip x.entry.bytes.now x.entry.step) (strip y.entry.bytes.now y.entry.step) (strip z.entry.bytes.now z.entry.step) out.new }
{
    match call {
        Call::One(f, from, t) => one(f, from, t, x, out),
        Call::Two(f, t) => pair(f, t, x, y, out),
        Call::Select(t) => select(t, x, y, z, out),
        Call::Extreme(true, t) => minimum(t, x, y, out),
        Call::Extreme(false, t) => maximum(t, x, y, out),
        Call::Product(from, t) => product(from, t, x, y, out),
        Call::Square(from, t) => square(from, t, x, out),
    }
}

/// The elements of a function of one argument.
fn one(f: Fn1, from: Dtype, t: Dtype, x: Strip<'_>, out: &mut [u8])
    requires call { IsCall (Call.One f from t) }
    requires arguments { HasArguments (Call.One f from t) (strip x.bytes.now x.step) (strip x.bytes.now x.step) (strip x.bytes.now x.step) (length out.old) }
    ensures { HasResults (Call.One f from t) (strip x.entry.bytes.now x.entry.step) (strip x.entry.bytes.now x.entry.step) (strip x.entry.bytes.now x.entry.step) out.new }
{
    match f {
        Fn1::Negative => one_negative(t, x, out),
        Fn1::Positive => one_positive(t, x, out),
        Fn1::Abs => one_abs(t, x, out),
        Fn1::Square => one_square(t, x, out),
        Fn1::Sign => one_sign(t, x, out),
        Fn1::BitwiseInvert => one_bitwise_invert(t, x, out),
        Fn1::LogicalNot => one_logical_not(t, x, out),
        Fn1::Astype => one_astype(from, t, x, out),
    }
}

/// The elements of a function of two arguments.
fn pair(f: Fn2, t: Dtype, x: Strip<'_>, y: Strip<'_>, out: &mut [u8])
    requires arguments { HasArguments (Call.Two f t) (strip x.bytes.now x.step) (strip y.bytes.now y.step) (strip y.bytes.now y.step) (length out.old) }
    ensures { HasResults (Call.Two f t) (strip x.entry.bytes.now x.entry.step) (strip y.entry.bytes.now y.entry.step) (strip y.entry.bytes.now y.entry.step) out.new }
{
    match f {
        Fn2::Add => pair_add(t, x.bytes, x.step, y.bytes, y.step, out),
        Fn2::Subtract => pair_subtract(t, x.bytes, x.step, y.bytes, y.step, out),
        Fn2::Multiply => pair_multiply(t, x.bytes, x.step, y.bytes, y.step, out),
        Fn2::FloorDivide => pair_floor_divide(t, x.bytes, x.step, y.bytes, y.step, out),
        Fn2::Remainder => pair_remainder(t, x.bytes, x.step, y.bytes, y.step, out),
        Fn2::BitwiseAnd => pair_bitwise_and(t, x.bytes, x.step, y.bytes, y.step, out),
        Fn2::BitwiseOr => pair_bitwise_or(t, x.bytes, x.step, y.bytes, y.step, out),
        Fn2::BitwiseXor => pair_bitwise_xor(t, x.bytes, x.step, y.bytes, y.step, out),
        Fn2::LeftShift => pair_left_shift(t, x.bytes, x.step, y.bytes, y.step, out),
        Fn2::RightShift => pair_right_shift(t, x.bytes, x.step, y.bytes, y.step, out),
        Fn2::Equal => pair_equal(t, x.bytes, x.step, y.bytes, y.step, out),
        Fn2::NotEqual => pair_not_equal(t, x.bytes, x.step, y.bytes, y.step, out),
        Fn2::Less => pair_less(t, x.bytes, x.step, y.bytes, y.step, out),
        Fn2::LessEqual => pair_less_equal(t, x.bytes, x.step, y.bytes, y.step, out),
        Fn2::Greater => pair_greater(t, x.bytes, x.step, y.bytes, y.step, out),
        Fn2::GreaterEqual => pair_greater_equal(t, x.bytes, x.step, y.bytes, y.step, out),
        Fn2::LogicalAnd => pair_logical_and(t, x.bytes, x.step, y.bytes, y.step, out),
        Fn2::LogicalOr => pair_logical_or(t, x.bytes, x.step, y.bytes, y.step, out),
        Fn2::LogicalXor => pair_logical_xor(t, x.bytes, x.step, y.bytes, y.step, out),
    }
}

#[inline(never)]
fn one_negative(t: Dtype, x: Strip<'_>, out: &mut [u8])
    requires arguments { HasArguments (Call.One Fn1.Negative t t) (strip x.bytes.now x.step) (strip x.bytes.now x.step) (strip x.bytes.now x.step) (length out.old) }
    ensures { HasResults (Call.One Fn1.Negative t t) (strip x.entry.bytes.now x.entry.step) (strip x.entry.bytes.now x.entry.step) (strip x.entry.bytes.now x.entry.step) out.new }
{
    one_by_type(Fn1::Negative, t, x, out);
}

#[inline(never)]
fn one_positive(t: Dtype, x: Strip<'_>, out: &mut [u8])
    requires arguments { HasArguments (Call.One Fn1.Positive t t) (strip x.bytes.now x.step) (strip x.bytes.now x.step) (strip x.bytes.now x.step) (length out.old) }
    ensures { HasResults (Call.One Fn1.Positive t t) (strip x.entry.bytes.now x.entry.step) (strip x.entry.bytes.now x.entry.step) (strip x.entry.bytes.now x.entry.step) out.new }
{
    one_by_type(Fn1::Positive, t, x, out);
}

#[inline(never)]
fn one_abs(t: Dtype, x: Strip<'_>, out: &mut [u8])
    requires arguments { HasArguments (Call.One Fn1.Abs t t) (strip x.bytes.now x.step) (strip x.bytes.now x.step) (strip x.bytes.now x.step) (length out.old) }
    ensures { HasResults (Call.One Fn1.Abs t t) (strip x.entry.bytes.now x.entry.step) (strip x.entry.bytes.now x.entry.step) (strip x.entry.bytes.now x.entry.step) out.new }
{
    one_by_type(Fn1::Abs, t, x, out);
}

#[inline(never)]
fn one_square(t: Dtype, x: Strip<'_>, out: &mut [u8])
    requires arguments { HasArguments (Call.One Fn1.Square t t) (strip x.bytes.now x.step) (strip x.bytes.now x.step) (strip x.bytes.now x.step) (length out.old) }
    ensures { HasResults (Call.One Fn1.Square t t) (strip x.entry.bytes.now x.entry.step) (strip x.entry.bytes.now x.entry.step) (strip x.entry.bytes.now x.entry.step) out.new }
{
    one_by_type(Fn1::Square, t, x, out);
}

#[inline(never)]
fn one_sign(t: Dtype, x: Strip<'_>, out: &mut [u8])
    requires arguments { HasArguments (Call.One Fn1.Sign t t) (strip x.bytes.now x.step) (strip x.bytes.now x.step) (strip x.bytes.now x.step) (length out.old) }
    ensures { HasResults (Call.One Fn1.Sign t t) (strip x.entry.bytes.now x.entry.step) (strip x.entry.bytes.now x.entry.step) (strip x.entry.bytes.now x.entry.step) out.new }
{
    one_by_type(Fn1::Sign, t, x, out);
}

#[inline(never)]
fn one_bitwise_invert(t: Dtype, x: Strip<'_>, out: &mut [u8])
    requires arguments { HasArguments (Call.One Fn1.BitwiseInvert t t) (strip x.bytes.now x.step) (strip x.bytes.now x.step) (strip x.bytes.now x.step) (length out.old) }
    ensures { HasResults (Call.One Fn1.BitwiseInvert t t) (strip x.entry.bytes.now x.entry.step) (strip x.entry.bytes.now x.entry.step) (strip x.entry.bytes.now x.entry.step) out.new }
{
    one_by_type(Fn1::BitwiseInvert, t, x, out);
}

#[inline(never)]
fn one_logical_not(t: Dtype, x: Strip<'_>, out: &mut [u8])
    requires arguments { HasArguments (Call.One Fn1.LogicalNot t t) (strip x.bytes.now x.step) (strip x.bytes.now x.step) (strip x.bytes.now x.step) (length out.old) }
    ensures { HasResults (Call.One Fn1.LogicalNot t t) (strip x.entry.bytes.now x.entry.step) (strip x.entry.bytes.now x.entry.step) (strip x.entry.bytes.now x.entry.step) out.new }
{
    one_by_type(Fn1::LogicalNot, t, x, out);
}

#[inline(never)]
fn one_astype(from: Dtype, t: Dtype, x: Strip<'_>, out: &mut [u8])
    requires arguments { HasArguments (Call.One Fn1.Astype from t) (strip x.bytes.now x.step) (strip x.bytes.now x.step) (strip x.bytes.now x.step) (length out.old) }
    ensures { HasResults (Call.One Fn1.Astype from t) (strip x.entry.bytes.now x.entry.step) (strip x.entry.bytes.now x.entry.step) (strip x.entry.bytes.now x.entry.step) out.new }
{
    astype_by_types(from, t, x, out);
}

#[inline(never)]
fn pair_add(t: Dtype, x: &[u8], x_step: usize, y: &[u8], y_step: usize, out: &mut [u8])
    requires arguments { HasArguments (Call.Two Fn2.Add t) (strip x.now x_step) (strip y.now y_step) (strip y.now y_step) (length out.old) }
    ensures { HasResults (Call.Two Fn2.Add t) (strip x.now x_step) (strip y.now y_step) (strip y.now y_step) out.new }
{
    pair_by_type(Fn2::Add, t, x, x_step, y, y_step, out);
}

#[inline(never)]
fn pair_subtract(t: Dtype, x: &[u8], x_step: usize, y: &[u8], y_step: usize, out: &mut [u8])
    requires arguments { HasArguments (Call.Two Fn2.Subtract t) (strip x.now x_step) (strip y.now y_step) (strip y.now y_step) (length out.old) }
    ensures { HasResults (Call.Two Fn2.Subtract t) (strip x.now x_step) (strip y.now y_step) (strip y.now y_step) out.new }
{
    pair_by_type(Fn2::Subtract, t, x, x_step, y, y_step, out);
}

#[inline(never)]
fn pair_multiply(t: Dtype, x: &[u8], x_step: usize, y: &[u8], y_step: usize, out: &mut [u8])
    requires arguments { HasArguments (Call.Two Fn2.Multiply t) (strip x.now x_step) (strip y.now y_step) (strip y.now y_step) (length out.old) }
    ensures { HasResults (Call.Two Fn2.Multiply t) (strip x.now x_step) (strip y.now y_step) (strip y.now y_step) out.new }
{
    pair_by_type(Fn2::Multiply, t, x, x_step, y, y_step, out);
}

#[inline(never)]
fn pair_floor_divide(t: Dtype, x: &[u8], x_step: usize, y: &[u8], y_step: usize, out: &mut [u8])
    requires arguments { HasArguments (Call.Two Fn2.FloorDivide t) (strip x.now x_step) (strip y.now y_step) (strip y.now y_step) (length out.old) }
    ensures { HasResults (Call.Two Fn2.FloorDivide t) (strip x.now x_step) (strip y.now y_step) (strip y.now y_step) out.new }
{
    if x_step != 0 && y_step == 0 {
        if divide_by_type(Fn2::FloorDivide, t, x, y, out) {
            return;
        }
    }
    pair_by_type(Fn2::FloorDivide, t, x, x_step, y, y_step, out);
}

#[inline(never)]
fn pair_remainder(t: Dtype, x: &[u8], x_step: usize, y: &[u8], y_step: usize, out: &mut [u8])
    requires arguments { HasArguments (Call.Two Fn2.Remainder t) (strip x.now x_step) (strip y.now y_step) (strip y.now y_step) (length out.old) }
    ensures { HasResults (Call.Two Fn2.Remainder t) (strip x.now x_step) (strip y.now y_step) (strip y.now y_step) out.new }
{
    if x_step != 0 && y_step == 0 {
        if divide_by_type(Fn2::Remainder, t, x, y, out) {
            return;
        }
    }
    pair_by_type(Fn2::Remainder, t, x, x_step, y, y_step, out);
}

#[inline(never)]
fn pair_bitwise_and(t: Dtype, x: &[u8], x_step: usize, y: &[u8], y_step: usize, out: &mut [u8])
    requires arguments { HasArguments (Call.Two Fn2.BitwiseAnd t) (strip x.now x_step) (strip y.now y_step) (strip y.now y_step) (length out.old) }
    ensures { HasResults (Call.Two Fn2.BitwiseAnd t) (strip x.now x_step) (strip y.now y_step) (strip y.now y_step) out.new }
{
    pair_by_type(Fn2::BitwiseAnd, t, x, x_step, y, y_step, out);
}

#[inline(never)]
fn pair_bitwise_or(t: Dtype, x: &[u8], x_step: usize, y: &[u8], y_step: usize, out: &mut [u8])
    requires arguments { HasArguments (Call.Two Fn2.BitwiseOr t) (strip x.now x_step) (strip y.now y_step) (strip y.now y_step) (length out.old) }
    ensures { HasResults (Call.Two Fn2.BitwiseOr t) (strip x.now x_step) (strip y.now y_step) (strip y.now y_step) out.new }
{
    pair_by_type(Fn2::BitwiseOr, t, x, x_step, y, y_step, out);
}

#[inline(never)]
fn pair_bitwise_xor(t: Dtype, x: &[u8], x_step: usize, y: &[u8], y_step: usize, out: &mut [u8])
    requires arguments { HasArguments (Call.Two Fn2.BitwiseXor t) (strip x.now x_step) (strip y.now y_step) (strip y.now y_step) (length out.old) }
    ensures { HasResults (Call.Two Fn2.BitwiseXor t) (strip x.now x_step) (strip y.now y_step) (strip y.now y_step) out.new }
{
    pair_by_type(Fn2::BitwiseXor, t, x, x_step, y, y_step, out);
}

#[inline(never)]
fn pair_left_shift(t: Dtype, x: &[u8], x_step: usize, y: &[u8], y_step: usize, out: &mut [u8])
    requires arguments { HasArguments (Call.Two Fn2.LeftShift t) (strip x.now x_step) (strip y.now y_step) (strip y.now y_step) (length out.old) }
    ensures { HasResults (Call.Two Fn2.LeftShift t) (strip x.now x_step) (strip y.now y_step) (strip y.now y_step) out.new }
{
    pair_by_type(Fn2::LeftShift, t, x, x_step, y, y_step, out);
}

#[inline(never)]
fn pair_right_shift(t: Dtype, x: &[u8], x_step: usize, y: &[u8], y_step: usize, out: &mut [u8])
    requires arguments { HasArguments (Call.Two Fn2.RightShift t) (strip x.now x_step) (strip y.now y_step) (strip y.now y_step) (length out.old) }
    ensures { HasResults (Call.Two Fn2.RightShift t) (strip x.now x_step) (strip y.now y_step) (strip y.now y_step) out.new }
{
    pair_by_type(Fn2::RightShift, t, x, x_step, y, y_step, out);
}

#[inline(never)]
fn pair_logical_and(t: Dtype, x: &[u8], x_step: usize, y: &[u8], y_step: usize, out: &mut [u8])
    requires arguments { HasArguments (Call.Two Fn2.LogicalAnd t) (strip x.now x_step) (strip y.now y_step) (strip y.now y_step) (length out.old) }
    ensures { HasResults (Call.Two Fn2.LogicalAnd t) (strip x.now x_step) (strip y.now y_step) (strip y.now y_step) out.new }
{
    pair_by_type(Fn2::LogicalAnd, t, x, x_step, y, y_step, out);
}

#[inline(never)]
fn pair_logical_or(t: Dtype, x: &[u8], x_step: usize, y: &[u8], y_step: usize, out: &mut [u8])
    requires arguments { HasArguments (Call.Two Fn2.LogicalOr t) (strip x.now x_step) (strip y.now y_step) (strip y.now y_step) (length out.old) }
    ensures { HasResults (Call.Two Fn2.LogicalOr t) (strip x.now x_step) (strip y.now y_step) (strip y.now y_step) out.new }
{
    pair_by_type(Fn2::LogicalOr, t, x, x_step, y, y_step, out);
}

#[inline(never)]
fn pair_logical_xor(t: Dtype, x: &[u8], x_step: usize, y: &[u8], y_step: usize, out: &mut [u8])
    requires arguments { HasArguments (Call.Two Fn2.LogicalXor t) (strip x.now x_step) (strip y.now y_step) (strip y.now y_step) (length out.old) }
    ensures { HasResults (Call.Two Fn2.LogicalXor t) (strip x.now x_step) (strip y.now y_step) (strip y.now y_step) out.new }
{
    pair_by_type(Fn2::LogicalXor, t, x, x_step, y, y_step, out);
}

#[inline(never)]
fn select(t: Dtype, x: Strip<'_>, y: Strip<'_>, z: Strip<'_>, out: &mut [u8])
    requires arguments { HasArguments (Call.Select t) (strip x.bytes.now x.step) (strip y.bytes.now y.step) (strip z.bytes.now z.step) (length out.old) }
    ensures { HasResults (Call.Select t) (strip x.entry.bytes.now x.entry.step) (strip y.entry.bytes.now y.entry.step) (strip z.entry.bytes.now z.entry.step) out.new }
{
    select_by_type(t, x, y, z, out);
}

/// Which of both is sought stands in each call of a loop: built with a variable in its place, the loops took
/// ten times as long.
#[inline(never)]
fn minimum(t: Dtype, x: Strip<'_>, y: Strip<'_>, out: &mut [u8])
    requires arguments { HasArguments (Call.Extreme true t) (strip x.bytes.now x.step) (strip y.bytes.now y.step) (strip y.bytes.now y.step) (length out.old) }
    ensures { HasResults (Call.Extreme true t) (strip x.entry.bytes.now x.entry.step) (strip y.entry.bytes.now y.entry.step) (strip y.entry.bytes.now y.entry.step) out.new }
{
    call_by_type!(extreme_by_steps, [true], t, [x, y, out])
}

#[inline(never)]
fn maximum(t: Dtype, x: Strip<'_>, y: Strip<'_>, out: &mut [u8])
    requires arguments { HasArguments (Call.Extreme false t) (strip x.bytes.now x.step) (strip y.bytes.now y.step) (strip y.bytes.now y.step) (length out.old) }
    ensures { HasResults (Call.Extreme false t) (strip x.entry.bytes.now x.entry.step) (strip y.entry.bytes.now y.entry.step) (strip y.entry.bytes.now y.entry.step) out.new }
{
    call_by_type!(extreme_by_steps, [false], t, [x, y, out])
}

#[inline(never)]
fn product(from: Dtype, t: Dtype, x: Strip<'_>, y: Strip<'_>, out: &mut [u8])
    requires within { WidensTo from t }
    requires arguments { HasArguments (Call.Product from t) (strip x.bytes.now x.step) (strip y.bytes.now y.step) (strip y.bytes.now y.step) (length out.old) }
    ensures { HasResults (Call.Product from t) (strip x.entry.bytes.now x.entry.step) (strip y.entry.bytes.now y.entry.step) (strip y.entry.bytes.now y.entry.step) out.new }
{
    product_by_types(from, t, x, y, out);
}

#[inline(never)]
fn square(from: Dtype, t: Dtype, x: Strip<'_>, out: &mut [u8])
    requires within { WidensTo from t }
    requires arguments { HasArguments (Call.Square from t) (strip x.bytes.now x.step) (strip x.bytes.now x.step) (strip x.bytes.now x.step) (length out.old) }
    ensures { HasResults (Call.Square from t) (strip x.entry.bytes.now x.entry.step) (strip x.entry.bytes.now x.entry.step) (strip x.entry.bytes.now x.entry.step) out.new }
{
    square_by_types(from, t, x, out);
}
