//! Division by one number again and again: by a multiplication and a shift to the right in place of the machine's division.
ghost use Rattle.std.specs.Prelude.{◌≡◌, ◌<ℤ◌, ◌≤ℤ◌, ◌-ℤ◌, ◌*ℤ◌, ◌^◌, pos, neg_ℤ, IfSome, IsTrue, FitsSigned, length};
ghost use Rattle.std.specs.Int.{int_div_euclid, w128};
ghost use Rattle.cu_num.specs.Dtype.{InRange};
ghost use Rattle.cu_num.specs.Division.{floor_quotient, floor_remainder};
ghost use Rattle.cu_num.specs.Element.{element_at};
ghost use Rattle.cu_num.specs.Scalar.{op2};
ghost use Rattle.cu_num.specs.declared.layout.Endian.TheVariants.{Little};
ghost use Rattle.cu_kern.specs.Division.{IsReciprocal, HasSmallNumbers};
ghost use Rattle.cu_kern.specs.Strips.{strip, HasArguments, HasResults};

use crate::calls::{Call, value2};
use crate::division::flip;
use cu_num::{Dtype, Fn2, load, result2, save, size, wrap};

/// For fewer elements a reciprocal isn't made.
const FEW: usize = 16;

/// A divisor, and the factor and the shift that divide by it.
#[derive(Clone, Copy)]
pub(crate) struct Reciprocal {
    pub(crate) divisor: u32,
    pub(crate) factor: u32,
    pub(crate) shift: u32,
}

/// The reciprocal of a divisor; none of 0 and 1, and where it would not be exact. The factor is rounded up, and what it is too great
/// by must not matter for numbers below 2^31.
fn reciprocal_of(divisor: u32) -> Option<Reciprocal>
    ensures exact { IfSome result (λ r. IsReciprocal r.divisor r.factor r.shift) }
    ensures own { IfSome result (λ r. r.divisor ≡ divisor) }
{
    if divisor < 2 {
        return None;
    }
    let shift = 31u32.saturating_sub((divisor - 1).leading_zeros());
    let own = u64::from(divisor);
    let power = 1u64 << (32 + shift);
    let factor = power / own + 1;
    let excess = own - power % own;
    if factor > u64::from(u32::MAX) || excess > power >> 31 {
        return None;
    }
    Some(Reciprocal {
        divisor,
        factor: factor as u32,
        shift,
    })
}

/// The quotient of a number that is not negative.
#[inline(always)]
fn divided(r: Reciprocal, x: i128) -> i128
    requires exact { IsReciprocal r.divisor r.factor r.shift }
    requires first { pos 0 ≤ℤ x }
    requires most { x <ℤ pos (2 ^ 31) }
    ensures value { result ≡ int_div_euclid x (pos r.divisor) }
    ensures least { pos 0 ≤ℤ result }
    ensures most { result ≤ℤ x }
{
    let product = u64::from(x as u32) * u64::from(r.factor);
    i128::from((product >> 32) as u32 >> r.shift)
}

/// The quotient rounded down.
#[inline(always)]
#[tactic(auto, unfolding(cu_num::specs::Division::floor_quotient))]
fn quotient(r: Reciprocal, x: i128) -> i128
    requires exact { IsReciprocal r.divisor r.factor r.shift }
    requires least { neg_ℤ (pos (2 ^ 31)) ≤ℤ x }
    requires most { x <ℤ pos (2 ^ 31) }
    ensures value { result ≡ floor_quotient x (pos r.divisor) }
    ensures least { neg_ℤ (pos (2 ^ 31)) ≤ℤ result }
    ensures most { result <ℤ pos (2 ^ 31) }
{
    let below = x < 0;
    flip(below, divided(r, flip(below, x)))
}

/// What a quotient leaves.
#[inline(always)]
fn rest_of(x: i128, divisor: i128, quotient: i128) -> i128
    requires product { FitsSigned w128 (divisor *ℤ quotient) }
    requires difference { FitsSigned w128 (x -ℤ divisor *ℤ quotient) }
    ensures { result ≡ x -ℤ divisor *ℤ quotient }
{
    x - divisor * quotient
}

/// What the quotient rounded down leaves.
#[inline(always)]
#[tactic(auto, using(crate::proofs::SameQuotient::remainder_above))]
fn remainder(r: Reciprocal, x: i128) -> i128
    requires exact { IsReciprocal r.divisor r.factor r.shift }
    requires least { neg_ℤ (pos (2 ^ 31)) ≤ℤ x }
    requires most { x <ℤ pos (2 ^ 31) }
    ensures { result ≡ floor_remainder x (pos r.divisor) }
{
    rest_of(x, i128::from(r.divisor), quotient(r, x))
}

/// `value2` of the divisor, which doesn't divide.
#[inline(always)]
fn value_by(f: Fn2, t: Dtype, x: i128, r: Reciprocal) -> i128
    requires exact { IsReciprocal r.divisor r.factor r.shift }
    requires first { InRange t x }
    requires second { InRange t (pos r.divisor) }
    requires small { HasSmallNumbers t }
    ensures { result ≡ op2 f t x (pos r.divisor) }
{
    match f {
        Fn2::FloorDivide => wrap(t, quotient(r, x)),
        Fn2::Remainder => wrap(t, remainder(r, x)),
        _ => value2(f, t, x, i128::from(r.divisor)),
    }
}

/// A function of two arguments of which the second is the divisor at each place.
#[inline(always)]
fn divide_each(f: Fn2, t: Dtype, x: &[u8], y: &[u8], by: Reciprocal, out: &mut [u8])
    requires arguments { HasArguments (Call.Two f t) (strip x.now 1) (strip y.now 0) (strip y.now 0) (length out.old) }
    requires exact { IsReciprocal by.divisor by.factor by.shift }
    requires divisor { pos by.divisor ≡ element_at Little t y.now 0 }
    requires own { InRange t (pos by.divisor) }
    requires small { HasSmallNumbers t }
    ensures { HasResults (Call.Two f t) (strip x.now 1) (strip y.now 0) (strip y.now 0) out.new }
{
    let r = result2(f, t);
    let count = out.len() / size(r) as usize;
    for at in 0..count {
        let value = value_by(f, t, load(t, x, at), by);
        save(r, value, out, at);
    }
}

/// The reciprocal of a number, where it has one. It is never inlined: a compiler that sees how the factor is made forgets that it has
/// 32 bits, and multiplies by 64.
#[inline(never)]
fn reciprocal_at(y: i128) -> Option<Reciprocal>
    ensures exact { IfSome result (λ r. IsReciprocal r.divisor r.factor r.shift) }
    ensures own { IfSome result (λ r. pos r.divisor ≡ y) }
{
    if y < 0 || y > i128::from(u32::MAX) {
        return None;
    }
    reciprocal_of(y as u32)
}

/// `divide_each` by the element at which `y` rests; `false` where it has no reciprocal, and where one wouldn't pay.
#[inline(always)]
fn divide_run(f: Fn2, t: Dtype, x: &[u8], y: &[u8], out: &mut [u8]) -> bool
    requires arguments { HasArguments (Call.Two f t) (strip x.now 1) (strip y.now 0) (strip y.now 0) (length out.old) }
    requires small { HasSmallNumbers t }
    ensures { IsTrue result → HasResults (Call.Two f t) (strip x.now 1) (strip y.now 0) (strip y.now 0) out.new }
{
    let count = out.len() / size(result2(f, t)) as usize;
    if count < FEW {
        return false;
    }
    let Some(by) = reciprocal_at(load(t, y, 0)) else {
        return false;
    };
    divide_each(f, t, x, y, by, out);
    true
}

/// `divide_run`, with loops for each type; `false` where the type's numbers are too great.
#[inline(always)]
pub(crate) fn divide_by_type(f: Fn2, t: Dtype, x: &[u8], y: &[u8], out: &mut [u8]) -> bool
    requires arguments { HasArguments (Call.Two f t) (strip x.now 1) (strip y.now 0) (strip y.now 0) (length out.old) }
    ensures { IsTrue result → HasResults (Call.Two f t) (strip x.now 1) (strip y.now 0) (strip y.now 0) out.new }
{
    match t {
        Dtype::Int8 => divide_run(f, Dtype::Int8, x, y, out),
        Dtype::Int16 => divide_run(f, Dtype::Int16, x, y, out),
        Dtype::Int32 => divide_run(f, Dtype::Int32, x, y, out),
        Dtype::Uint8 => divide_run(f, Dtype::Uint8, x, y, out),
        Dtype::Uint16 => divide_run(f, Dtype::Uint16, x, y, out),
        _ => false,
    }
}
