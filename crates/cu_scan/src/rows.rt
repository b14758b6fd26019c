//! Sums along rows.
ghost use Rattle.std.specs.Prelude.{◌≡◌, ◌+◌, ◌*◌, ◌≤◌, ◌<◌, ◌+ℤ◌, ℕ, pos, suc, length};
ghost use Rattle.cu_num.specs.Dtype.{size_of, InRange, IsInteger};
ghost use Rattle.cu_num.specs.Element.{element_at};
ghost use Rattle.cu_num.specs.declared.layout.Endian.TheVariants.{Little};
ghost use Rattle.cu_reduce.specs.Numbers.{HasNumber};
ghost use Rattle.cu_reduce.specs.Prefix.{sum_below};

use crate::steps::put_sum;
use cu_num::{Dtype, load, save, size};

/// Writes the sums of the row before and of a row of elements.
#[inline(always)]
pub(crate) fn add_row(
    t: Dtype,
    acc: Dtype,
    count: usize,
    input: &[u8],
    before: &[u8],
    out: &mut [u8],
)
    requires acc { IsInteger acc }
    requires input { count * size_of t ≤ length input.now }
    requires before { count * size_of acc ≤ length before.now }
    requires out { count * size_of acc ≤ length out.old }
    ensures sums { (q : ℕ) → q < count
        → HasNumber acc out.new q (element_at Little acc before.now q
        +ℤ element_at Little t input.now q) }
    ensures same_length { length out.new ≡ length out.old }
{
    for at in 0..count {
        put_sum(t, acc, load(acc, before, at), input, at, out, at);
    }
}

/// Adds a row of elements to the sums that stand in `out`.
#[inline(always)]
pub(crate) fn take_row(t: Dtype, acc: Dtype, count: usize, input: &[u8], out: &mut [u8])
    requires acc { IsInteger acc }
    requires input { count * size_of t ≤ length input.now }
    requires out { count * size_of acc ≤ length out.old }
    ensures sums { (q : ℕ) → q < count
        → HasNumber acc out.new q (element_at Little acc out.old q
        +ℤ element_at Little t input.now q) }
    ensures same_length { length out.new ≡ length out.old }
{
    for at in 0..count {
        let own = load(acc, out, at);
        put_sum(t, acc, own, input, at, out, at);
    }
}

/// Writes the sums from a first number on of elements that stand together.
#[inline(always)]
pub(crate) fn scan_run(
    t: Dtype,
    acc: Dtype,
    count: usize,
    first: i128,
    input: &[u8],
    out: &mut [u8],
)
    requires acc { IsInteger acc }
    requires first { InRange acc first }
    requires input { count * size_of t ≤ length input.now }
    requires out { count * size_of acc ≤ length out.old }
    ensures sums { (j : ℕ) → j < count
        → HasNumber acc out.new j (first
        +ℤ sum_below (λ k. element_at Little t input.now k) (suc j)) }
    ensures same_length { length out.new ≡ length out.old }
{
    let mut sum = first;
    for at in 0..count {
        sum = put_sum(t, acc, sum, input, at, out, at);
    }
}

/// Writes zeros.
#[inline(always)]
pub(crate) fn zero_row(acc: Dtype, count: usize, out: &mut [u8])
    requires out { count * size_of acc ≤ length out.old }
    ensures zeros { (q : ℕ) → q < count → HasNumber acc out.new q (pos 0) }
    ensures same_length { length out.new ≡ length out.old }
{
    for at in 0..count {
        save(acc, 0, out, at);
    }
}
