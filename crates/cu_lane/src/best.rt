//! The first place of the least or the greatest number: first the best of each block, then where the first block that has it has it.
ghost use Rattle.std.specs.Prelude.{◌≡◌, ◌≢◌, ◌↔◌, ◌<◌, ◌≤◌, ℕ, ℤ, IsNone, IfSome, length, slice_index};
ghost use Rattle.cu_num.specs.Word.{IsWord};
ghost use Rattle.cu_lane.specs.Compared.{bias_of, rank};
ghost use Rattle.cu_lane.specs.Folds.{IsFirstPlace, IsLowest, IsFirstLowest};

use crate::compared::bias;
use cu_num::Dtype;

/// How many words a block has.
const BLOCK: usize = 256;

/// The first place of the least number, or of the greatest; `None` exactly for an empty slice. The words are numbers of `t`.
pub fn lane_least(t: Dtype, least: bool, x: &[u64]) -> Option<usize>
    ensures none { IsNone result ↔ (length x.now ≡ 0) }
    ensures some { IfSome result (λ p. (xs : ℕ → ℤ) → ((k : ℕ) → k < length x.now → IsWord t (slice_index x.now k) (xs k)) → IsFirstPlace least xs (length x.now) p) }
{
    if x.is_empty() {
        return None;
    }
    Some(by_bias(t, least, x))
}

/// With loops for each order and bias.
fn by_bias(t: Dtype, least: bool, x: &[u64]) -> usize
    requires some { 0 < length x.now }
    ensures { IsFirstLowest (λ k. rank least (bias_of t) (slice_index x.now k)) (length x.now) result }
{
    match (t, least) {
        (Dtype::Uint64, true) => first_lowest(true, bias(Dtype::Uint64), x),
        (Dtype::Uint64, false) => first_lowest(false, bias(Dtype::Uint64), x),
        (_, true) => first_lowest(true, bias(Dtype::Int64), x),
        (_, false) => first_lowest(false, bias(Dtype::Int64), x),
    }
}

/// The rank of a word, of which the least is the best.
#[inline(always)]
fn rank(least: bool, bias: u64, w: u64) -> u64
    ensures { result ≡ rank least bias w }
{
    let key = w.wrapping_add(bias);
    if least { key } else { u64::MAX - key }
}

/// The lowest rank of at least one word.
#[inline(always)]
fn lowest(least: bool, bias: u64, x: &[u64]) -> u64
    requires some { 0 < length x.now }
    ensures { IsLowest (λ k. rank least bias (slice_index x.now k)) (length x.now) result }
{
    let mut best = rank(least, bias, x[0]);
    for at in 0..x.len() {
        best = best.min(rank(least, bias, x[at]));
    }
    best
}

/// The first place that has this rank, or how many words there are where none has.
#[inline(always)]
fn position(least: bool, bias: u64, x: &[u64], sought: u64) -> usize
    ensures within { result ≤ length x.now }
    ensures before { (k : ℕ) → k < result → rank least bias (slice_index x.now k) ≢ sought }
    ensures found { result < length x.now → rank least bias (slice_index x.now result) ≡ sought }
{
    for at in 0..x.len() {
        if rank(least, bias, x[at]) == sought {
            return at;
        }
    }
    x.len()
}

/// The first place of the lowest rank of at least one word.
#[inline(always)]
fn first_lowest(least: bool, bias: u64, x: &[u64]) -> usize
    requires some { 0 < length x.now }
    ensures { IsFirstLowest (λ k. rank least bias (slice_index x.now k)) (length x.now) result }
{
    let mut start = 0;
    let mut best = rank(least, bias, x[0]);
    for block in 0..x.len().div_ceil(BLOCK) {
        let from = block * BLOCK;
        let value = lowest(least, bias, &x[from..(from + BLOCK).min(x.len())]);
        if value < best {
            start = from;
            best = value;
        }
    }
    start + position(least, bias, &x[start..], best)
}
