//! Rows of elements taken into one row of results.
ghost use Rattle.std.specs.Prelude.{◌≡◌, ◌≢◌, ◌+◌, ◌*◌, ◌≤◌, ◌<◌, ◌^◌, ℕ, [], ◌∷◌, length};
ghost use Rattle.std.specs.Prelude.{◌+ℤ◌, ◌≤ℤ◌, neg_ℤ, pos};
ghost use Rattle.cu_num.specs.Dtype.{size_of, InRange};
ghost use Rattle.cu_num.specs.Element.{bytes_at};
ghost use Rattle.cu_reduce.specs.Kinds.{Accumulates};
ghost use Rattle.cu_reduce.specs.Running.{running};
ghost use Rattle.cu_take.specs.Taken.{HasTaken, IsOutside, elements_at_places, column_places};

use crate::eights::add_eights;
use crate::steps::{joined, take_one};
use cu_num::{Dtype, FoldKind, load, save, size, wrap};

/// Rows of elements, one behind another.
#[derive(Clone, Copy)]
pub struct RowBlock {
    /// How many rows there are.
    pub count: usize,
    /// How many elements each of them has.
    pub width: usize,
}

/// What a result is once it has taken a number.
#[inline(always)]
fn with_one(kind: FoldKind, from: Dtype, acc: Dtype, own: i128, x: i128) -> i128
    requires types { Accumulates kind from acc }
    requires own { InRange acc own }
    requires number { InRange from x }
    ensures value { result ≡ running kind acc own (x ∷ []) }
    ensures range { InRange acc result }
{
    joined(kind, from, acc, own, wrap(acc, x))
}

/// What a result is once it has taken four numbers, one after another.
#[inline(always)]
fn with_each(
    kind: FoldKind,
    from: Dtype,
    acc: Dtype,
    own: i128,
    w: i128,
    x: i128,
    y: i128,
    z: i128,
) -> i128
    requires types { Accumulates kind from acc }
    requires own { InRange acc own }
    requires first { InRange from w }
    requires second { InRange from x }
    requires third { InRange from y }
    requires fourth { InRange from z }
    ensures { result ≡ running kind acc own (w ∷ x ∷ y ∷ z ∷ []) }
{
    let one = with_one(kind, from, acc, own, w);
    let two = with_one(kind, from, acc, one, x);
    let three = with_one(kind, from, acc, two, y);
    with_one(kind, from, acc, three, z)
}

/// A number of a type of at most 16 bits.
#[inline(always)]
fn short(t: Dtype, x: i128) -> i32
    requires size { size_of t ≤ 2 }
    requires range { InRange t x }
    ensures value { result ≡ x }
    ensures low { neg_ℤ (pos (2 ^ 16)) ≤ℤ result }
    ensures high { result ≤ℤ pos (2 ^ 16) }
{
    x as i32
}

/// The sum of four numbers of a type of at most 16 bits, made in 32 bits: so a compiler adds
/// vectors of them before it widens them to the results.
#[inline(always)]
fn short_sum(t: Dtype, w: i128, x: i128, y: i128, z: i128) -> i128
    requires size { size_of t ≤ 2 }
    requires first { InRange t w }
    requires second { InRange t x }
    requires third { InRange t y }
    requires fourth { InRange t z }
    ensures { result ≡ w +ℤ x +ℤ y +ℤ z }
{
    i128::from(short(t, w) + short(t, x) + short(t, y) + short(t, z))
}

/// What a result is once it has taken four numbers, one after another or their sum at once.
#[inline(always)]
fn with_four(
    kind: FoldKind,
    from: Dtype,
    acc: Dtype,
    own: i128,
    w: i128,
    x: i128,
    y: i128,
    z: i128,
) -> i128
    requires types { Accumulates kind from acc }
    requires own { InRange acc own }
    requires first { InRange from w }
    requires second { InRange from x }
    requires third { InRange from y }
    requires fourth { InRange from z }
    ensures { result ≡ running kind acc own (w ∷ x ∷ y ∷ z ∷ []) }
{
    match kind {
        FoldKind::Sum if size(from) <= 2 => {
            joined(kind, from, acc, own, wrap(acc, short_sum(from, w, x, y, z)))
        }
        _ => with_each(kind, from, acc, own, w, x, y, z),
    }
}

/// Takes four elements of `input`, `step` places apart, into result `q` of `out`.
#[inline(always)]
fn take_four_elements(
    kind: FoldKind,
    from: Dtype,
    acc: Dtype,
    input: &[u8],
    place: usize,
    step: usize,
    out: &mut [u8],
    q: usize,
)
    requires types { Accumulates kind from acc }
    requires input { (place + 3 * step + 1) * size_of from ≤ length input.now }
    requires out { q * size_of acc + size_of acc ≤ length out.old }
    ensures takes { HasTaken kind acc out.old out.new q (elements_at_places from input.now
        (place ∷ (place + step) ∷ (place + 2 * step) ∷ (place + 3 * step) ∷ [])) }
    ensures others { (p : ℕ) → p ≢ q → bytes_at acc out.new p ≡ bytes_at acc out.old p }
{
    let own = load(acc, out, q);
    let w = load(from, input, place);
    let x = load(from, input, place + step);
    let y = load(from, input, place + 2 * step);
    let z = load(from, input, place + 3 * step);
    save(acc, with_four(kind, from, acc, own, w, x, y, z), out, q);
}

/// Takes one row into the row of results.
#[inline(always)]
pub(crate) fn take_row(
    kind: FoldKind,
    from: Dtype,
    acc: Dtype,
    width: usize,
    input: &[u8],
    place: usize,
    out: &mut [u8],
    q: usize,
)
    requires types { Accumulates kind from acc }
    requires input { (place + width) * size_of from ≤ length input.now }
    requires out { (q + width) * size_of acc ≤ length out.old }
    ensures takes { (j : ℕ) → j < width → HasTaken kind acc out.old out.new (q + j)
        (elements_at_places from input.now (column_places place width 1 j)) }
    ensures others { (p : ℕ) → IsOutside q (q + width) p
        → bytes_at acc out.new p ≡ bytes_at acc out.old p }
{
    for j in 0..width {
        take_one(kind, from, acc, input, place + j, out, q + j);
    }
}

/// Takes four rows into the row of results: each result is read and written once for all four.
#[inline(always)]
fn take_four_rows(
    kind: FoldKind,
    from: Dtype,
    acc: Dtype,
    width: usize,
    input: &[u8],
    place: usize,
    out: &mut [u8],
    q: usize,
)
    requires types { Accumulates kind from acc }
    requires input { (place + 4 * width) * size_of from ≤ length input.now }
    requires out { (q + width) * size_of acc ≤ length out.old }
    ensures takes { (j : ℕ) → j < width → HasTaken kind acc out.old out.new (q + j)
        (elements_at_places from input.now (column_places place width 4 j)) }
    ensures others { (p : ℕ) → IsOutside q (q + width) p
        → bytes_at acc out.new p ≡ bytes_at acc out.old p }
{
    for j in 0..width {
        take_four_elements(kind, from, acc, input, place + j, width, out, q + j);
    }
}

/// Takes the first row, or the first four, and returns how many it took.
#[inline(always)]
fn take_first_rows(
    kind: FoldKind,
    from: Dtype,
    acc: Dtype,
    rows: RowBlock,
    input: &[u8],
    place: usize,
    out: &mut [u8],
    q: usize,
) -> usize
    requires types { Accumulates kind from acc }
    requires some { 0 < rows.count }
    requires input { (place + rows.count * rows.width) * size_of from ≤ length input.now }
    requires out { (q + rows.width) * size_of acc ≤ length out.old }
    ensures some { 0 < result }
    ensures within { result ≤ rows.count }
    ensures takes { (j : ℕ) → j < rows.width → HasTaken kind acc out.old out.new (q + j)
        (elements_at_places from input.now (column_places place rows.width result j)) }
    ensures others { (p : ℕ) → IsOutside q (q + rows.width) p
        → bytes_at acc out.new p ≡ bytes_at acc out.old p }
{
    if rows.count >= 4 {
        take_four_rows(kind, from, acc, rows.width, input, place, out, q);
        return 4;
    }
    take_row(kind, from, acc, rows.width, input, place, out, q);
    1
}

/// Takes the first rows into the row of results, eight at a time, where that is quicker: in sums of
/// elements of at most 16 bits, of rows that have enough elements. Returns how many rows it took.
#[inline(always)]
#[tactic(auto, using(crate::proofs::RowSteps::no_rows))]
fn take_eights(
    kind: FoldKind,
    from: Dtype,
    acc: Dtype,
    rows: RowBlock,
    input: &[u8],
    place: usize,
    out: &mut [u8],
    q: usize,
) -> usize
    requires input { (place + rows.count * rows.width) * size_of from ≤ length input.now }
    requires out { (q + rows.width) * size_of acc ≤ length out.old }
    ensures within { result ≤ rows.count }
    ensures takes { (j : ℕ) → j < rows.width → HasTaken kind acc out.old out.new (q + j)
        (elements_at_places from input.now (column_places place rows.width result j)) }
    ensures others { (p : ℕ) → IsOutside q (q + rows.width) p
        → bytes_at acc out.new p ≡ bytes_at acc out.old p }
{
    if kind == FoldKind::Sum
        && size(from) <= 2
        && rows.width >= 32 * size(from) as usize
        && rows.count >= 8
    {
        return add_eights(from, acc, rows, input, place, out, q);
    }
    0
}

/// Takes rows of elements of type `from`, which begin at element `place` of `input`, into one row
/// of results of type `acc`, which begins at result `q` of `out`: each element into the result that
/// has its place in the row.
#[inline(always)]
pub fn take_rows(
    kind: FoldKind,
    from: Dtype,
    acc: Dtype,
    rows: RowBlock,
    input: &[u8],
    place: usize,
    out: &mut [u8],
    q: usize,
)
    requires types { Accumulates kind from acc }
    requires input { (place + rows.count * rows.width) * size_of from ≤ length input.now }
    requires out { (q + rows.width) * size_of acc ≤ length out.old }
    ensures takes { (j : ℕ) → j < rows.width → HasTaken kind acc out.old out.new (q + j)
        (elements_at_places from input.now (column_places place rows.width rows.count j)) }
    ensures others { (p : ℕ) → IsOutside q (q + rows.width) p
        → bytes_at acc out.new p ≡ bytes_at acc out.old p }
{
    let mut k = take_eights(kind, from, acc, rows, input, place, out, q);
    while k < rows.count {
        let left = RowBlock {
            count: rows.count - k,
            width: rows.width,
        };
        k += take_first_rows(kind, from, acc, left, input, place + k * rows.width, out, q);
    }
}
