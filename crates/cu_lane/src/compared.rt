//! Comparisons of words, eight lanes at a time and the rest one by one.
ghost use Rattle.std.specs.Prelude.{◌≡◌, ◌<◌, ℕ, length, slice_index};
ghost use Rattle.std.specs.Simd.Lanes.{zip2};
ghost use Rattle.cu_lane.specs.Compared.{bias_of, compared};
ghost use Rattle.cu_lane.specs.Lanes.{HasOrder};

use cu_num::Dtype;
use std::simd::prelude::*;

/// Lanes of a block.
pub(crate) const WIDE: usize = 8;

/// How two words are compared.
#[derive(Clone, Copy)]
pub(crate) enum Order {
    Equal,
    NotEqual,
    Less,
    LessEqual,
}

/// Of eight words each: 1 where they are in this order, else 0. `bias` is added to each word before.
#[inline(always)]
fn compared_lanes(order: Order, bias: u64, a: u64x8, b: u64x8) -> u64x8
    requires first { length a ≡ 8 }
    requires second { length b ≡ 8 }
    ensures { result ≡ zip2 (compared order bias) a b }
{
    let x = a + u64x8::splat(bias);
    let y = b + u64x8::splat(bias);
    let test = match order {
        Order::Equal => x.simd_eq(y),
        Order::NotEqual => x.simd_ne(y),
        Order::Less => x.simd_lt(y),
        Order::LessEqual => x.simd_le(y),
    };
    test.select(u64x8::splat(1), u64x8::splat(0))
}

/// The same of one word each.
#[inline(always)]
fn compared_words(order: Order, bias: u64, a: u64, b: u64) -> u64
    ensures { result ≡ compared order bias a b }
{
    let x = a.wrapping_add(bias);
    let y = b.wrapping_add(bias);
    let test = match order {
        Order::Equal => x == y,
        Order::NotEqual => x != y,
        Order::Less => x < y,
        Order::LessEqual => x <= y,
    };
    u64::from(test)
}

/// The same of the words at each place.
#[inline(always)]
pub(crate) fn each_compared(order: Order, bias: u64, x: &[u64], y: &[u64], out: &mut [u64])
    requires first { length x.now ≡ length out.old }
    requires second { length y.now ≡ length out.old }
    ensures { (k : ℕ) → k < length out.new → slice_index out.new k ≡ compared order bias (slice_index x.now k) (slice_index y.now k) }
{
    let whole = out.len() / WIDE;
    for at in 0..whole {
        let from = at * WIDE;
        let a = u64x8::from_slice(&x[from..from + WIDE]);
        let b = u64x8::from_slice(&y[from..from + WIDE]);
        compared_lanes(order, bias, a, b).copy_to_slice(&mut out[from..from + WIDE]);
    }
    for k in whole * WIDE..out.len() {
        out[k] = compared_words(order, bias, x[k], y[k]);
    }
}

/// What is added to a word of the type so that words are in the order of their numbers.
#[inline(always)]
pub(crate) fn bias(t: Dtype) -> u64
    ensures { result ≡ bias_of t }
{
    match t {
        Dtype::Uint64 => 0,
        _ => 1 << 63,
    }
}

/// Comparisons of numbers of the type, with a loop for each bias.
#[inline(always)]
pub(crate) fn compare(order: Order, t: Dtype, x: &[u64], y: &[u64], out: &mut [u64])
    requires first { length x.now ≡ length out.old }
    requires second { length y.now ≡ length out.old }
    ensures { HasOrder order t x.now y.now out.new }
{
    match t {
        Dtype::Uint64 => each_compared(order, bias(Dtype::Uint64), x, y, out),
        _ => each_compared(order, bias(Dtype::Int64), x, y, out),
    }
}
