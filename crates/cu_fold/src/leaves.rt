//! Elements along the last levels taken into their results.
ghost use Rattle.std.specs.Prelude.{◌≡◌, ◌≢◌, ◌+◌, ◌*◌, ◌≤◌, ◌<◌, ℕ, [], ◌∷◌, length, drop};
ghost use Rattle.std.specs.List.{range_with_len};
ghost use Rattle.cu_num.specs.Dtype.{size_of, IsInteger};
ghost use Rattle.cu_num.specs.Element.{bytes_at};
ghost use Rattle.cu_reduce.specs.Kinds.{Accumulates};
ghost use Rattle.cu_take.specs.Taken.{HasTaken, elements_at_places};

use crate::types::Places;
use cu_num::{Dtype, FoldKind, load, save, size, wrap};
use cu_reduce::combine;
use cu_take::take_one;

/// Takes the first elements of `input` into as many results, each into its own.
#[inline(always)]
pub(crate) fn take_row(
    kind: FoldKind,
    from: Dtype,
    acc: Dtype,
    count: usize,
    input: &[u8],
    out: &mut [u8],
)
    requires types { Accumulates kind from acc }
    requires input { count * size_of from ≤ length input.now }
    requires out { count * size_of acc ≤ length out.old }
    ensures { (q : ℕ) → q < count → HasTaken kind acc out.old out.new q (elements_at_places from input.now (q ∷ [])) }
{
    for at in 0..count {
        take_one(kind, from, acc, input, at, out, at);
    }
}

/// Takes the first elements of `input` into one result.
#[inline(always)]
pub(crate) fn take_run(
    kind: FoldKind,
    from: Dtype,
    acc: Dtype,
    count: usize,
    input: &[u8],
    out: &mut [u8],
)
    requires types { Accumulates kind from acc }
    requires input { count * size_of from ≤ length input.now }
    requires out { size_of acc ≤ length out.old }
    ensures { HasTaken kind acc out.old out.new 0 (elements_at_places from input.now (range_with_len 0 count)) }
{
    let size = size(acc) as usize;
    let mut own = [0u8; 8];
    own[..size].copy_from_slice(&out[..size]);
    for place in 0..count {
        take_one(kind, from, acc, input, place, &mut own, 0);
    }
    out[..size].copy_from_slice(&own[..size]);
}

/// The bytes after so many elements of this size.
#[inline(always)]
pub(crate) fn later(input: &[u8], elements: usize, size: usize) -> &[u8]
    requires { elements * size ≤ length input.now }
    ensures { result.now ≡ drop (elements * size) input.now }
{
    &input[elements * size..]
}

/// Takes consecutive elements into result `q`.
#[inline(always)]
fn take_run_at(
    kind: FoldKind,
    from: Dtype,
    acc: Dtype,
    run: Places,
    input: &[u8],
    out: &mut [u8],
    q: usize,
)
    requires types { Accumulates kind from acc }
    requires input { (run.start + run.count) * size_of from ≤ length input.now }
    requires out { q * size_of acc + size_of acc ≤ length out.old }
    ensures takes { HasTaken kind acc out.old out.new q (elements_at_places from input.now (range_with_len run.start run.count)) }
    ensures others { (p : ℕ) → p ≢ q → bytes_at acc out.new p ≡ bytes_at acc out.old p }
{
    let after = later(input, run.start, size(from) as usize);
    let size = size(acc) as usize;
    let start = q * size;
    take_run(
        kind,
        from,
        acc,
        run.count,
        after,
        &mut out[start..start + size],
    );
}

/// Runs of at most so many elements are added in 32 bits, and those of at most so many are taken many at once.
pub(crate) const SHORT: usize = 16;

/// Adds a short run of elements of at most 16 bits to result `q`. Their sum has 32 bits, so that a compiler adds narrow numbers.
#[inline(always)]
fn add_run(from: Dtype, acc: Dtype, run: Places, input: &[u8], out: &mut [u8], q: usize)
    requires acc { IsInteger acc }
    requires narrow { size_of from ≤ 2 }
    requires short { run.count ≤ 16 }
    requires input { (run.start + run.count) * size_of from ≤ length input.now }
    requires out { q * size_of acc + size_of acc ≤ length out.old }
    ensures takes { HasTaken FoldKind.Sum acc out.old out.new q (elements_at_places from input.now (range_with_len run.start run.count)) }
    ensures others { (p : ℕ) → p ≢ q → bytes_at acc out.new p ≡ bytes_at acc out.old p }
{
    let mut sum = 0i32;
    for at in 0..run.count {
        sum += load(from, input, run.start + at) as i32;
    }
    let own = load(acc, out, q);
    let next = wrap(acc, i128::from(sum));
    save(acc, combine(FoldKind::Sum, acc, own, next), out, q);
}

/// Takes consecutive elements into result `q`, narrow ones of a short run by their sum.
#[inline(always)]
fn take_short(
    kind: FoldKind,
    from: Dtype,
    acc: Dtype,
    run: Places,
    input: &[u8],
    out: &mut [u8],
    q: usize,
)
    requires types { Accumulates kind from acc }
    requires input { (run.start + run.count) * size_of from ≤ length input.now }
    requires out { q * size_of acc + size_of acc ≤ length out.old }
    ensures takes { HasTaken kind acc out.old out.new q (elements_at_places from input.now (range_with_len run.start run.count)) }
    ensures others { (p : ℕ) → p ≢ q → bytes_at acc out.new p ≡ bytes_at acc out.old p }
{
    if kind == FoldKind::Sum && size(from) <= 2 && run.count <= SHORT {
        add_run(from, acc, run, input, out, q);
    } else {
        take_run_at(kind, from, acc, run, input, out, q);
    }
}

/// Takes runs of `width` elements, the first of `input`, into as many results, each into its own.
#[inline(always)]
fn take_each(
    kind: FoldKind,
    from: Dtype,
    acc: Dtype,
    count: usize,
    width: usize,
    input: &[u8],
    out: &mut [u8],
)
    requires types { Accumulates kind from acc }
    requires input { count * width * size_of from ≤ length input.now }
    requires out { count * size_of acc ≤ length out.old }
    ensures { (q : ℕ) → q < count → HasTaken kind acc out.old out.new q (elements_at_places from input.now (range_with_len (q * width) width)) }
{
    for q in 0..count {
        let run = Places {
            start: q * width,
            count: width,
        };
        take_short(kind, from, acc, run, input, out, q);
    }
}

/// The same, with the shortest width as a literal, so that a compiler writes out the runs.
#[inline(always)]
pub(crate) fn take_runs(
    kind: FoldKind,
    from: Dtype,
    acc: Dtype,
    count: usize,
    width: usize,
    input: &[u8],
    out: &mut [u8],
)
    requires types { Accumulates kind from acc }
    requires input { count * width * size_of from ≤ length input.now }
    requires out { count * size_of acc ≤ length out.old }
    ensures { (q : ℕ) → q < count → HasTaken kind acc out.old out.new q (elements_at_places from input.now (range_with_len (q * width) width)) }
{
    match width {
        2 => take_each(kind, from, acc, count, 2, input, out),
        _ => take_each(kind, from, acc, count, width, input, out),
    }
}
