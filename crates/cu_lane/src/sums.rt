//! Sums and products of words.
ghost use Rattle.std.specs.Prelude.{◌≡◌, ◌%◌, ◌^◌};
ghost use Rattle.std.specs.List.{sum};
ghost use Rattle.cu_lane.specs.Folds.{product_of_words};

use crate::compared::WIDE;
use std::simd::prelude::*;

/// The sum modulo 2^64.
pub fn lane_sum(x: &[u64]) -> u64
    ensures { result ≡ sum x.now % 2 ^ 64 }
{
    let whole = x.len() / WIDE;
    let mut all = u64x8::splat(0);
    for at in 0..whole {
        let from = at * WIDE;
        all += u64x8::from_slice(&x[from..from + WIDE]);
    }
    let mut total = all.reduce_sum();
    for k in whole * WIDE..x.len() {
        total = total.wrapping_add(x[k]);
    }
    total
}

/// The product modulo 2^64.
pub fn lane_prod(x: &[u64]) -> u64
    ensures { result ≡ product_of_words x.now % 2 ^ 64 }
{
    let mut total = 1u64;
    for k in 0..x.len() {
        total = total.wrapping_mul(x[k]);
    }
    total
}
