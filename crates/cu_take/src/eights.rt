//! Sums of elements of at most 16 bits, made of eight rows at a time.
ghost use Rattle.std.specs.Prelude.{◌≡◌, ◌≢◌, ◌+◌, ◌*◌, ◌≤◌, ◌<◌, ℕ, ℤ, List, All, length};
ghost use Rattle.cu_num.specs.Dtype.{size_of, InRange, IsInteger};
ghost use Rattle.cu_num.specs.Element.{bytes_at};
ghost use Rattle.cu_reduce.specs.Folds.{exact_sum};
ghost use Rattle.cu_take.specs.Taken.{HasTaken, IsOutside, elements_at_places, column_places};

use crate::rows::{RowBlock, take_row};
use cu_num::{Dtype, FoldKind, load, save, size, wrap};
use cu_reduce::combine;

/// Parts of rows: `width` elements of each, which begin `step` elements apart.
#[derive(Clone, Copy)]
struct RowParts {
    step: usize,
    width: usize,
}

/// Adds the elements at place `j` of eight rows, which begin `step` elements apart and are of a
/// type of at most 16 bits, to result `q` of `out`, by their sum in 32 bits.
#[inline(always)]
fn add_column(
    from: Dtype,
    acc: Dtype,
    step: usize,
    input: &[u8],
    place: usize,
    j: usize,
    out: &mut [u8],
    q: usize,
)
    requires acc { IsInteger acc }
    requires size { size_of from ≤ 2 }
    requires input { (place + 7 * step + j + 1) * size_of from ≤ length input.now }
    requires out { q * size_of acc + size_of acc ≤ length out.old }
    ensures takes { HasTaken FoldKind.Sum acc out.old out.new q
        (elements_at_places from input.now (column_places place step 8 j)) }
    ensures others { (p : ℕ) → p ≢ q → bytes_at acc out.new p ≡ bytes_at acc out.old p }
{
    let mut sum = 0i32;
    for k in 0..8 {
        sum += load(from, input, place + k * step + j) as i32;
    }
    let own = load(acc, out, q);
    let next = wrap(acc, i128::from(sum));
    save(acc, combine(FoldKind::Sum, acc, own, next), out, q);
}

/// Adds the first `width` elements of each of eight rows, which begin `step` elements apart, to as
/// many results.
#[inline(always)]
fn add_columns(
    from: Dtype,
    acc: Dtype,
    rows: RowParts,
    input: &[u8],
    place: usize,
    out: &mut [u8],
    q: usize,
)
    requires acc { IsInteger acc }
    requires size { size_of from ≤ 2 }
    requires input { (place + 7 * rows.step + rows.width) * size_of from ≤ length input.now }
    requires out { (q + rows.width) * size_of acc ≤ length out.old }
    ensures takes { (j : ℕ) → j < rows.width → HasTaken FoldKind.Sum acc out.old out.new (q + j)
        (elements_at_places from input.now (column_places place rows.step 8 j)) }
    ensures others { (p : ℕ) → IsOutside q (q + rows.width) p
        → bytes_at acc out.new p ≡ bytes_at acc out.old p }
{
    for j in 0..rows.width {
        add_column(from, acc, rows.step, input, place, j, out, q + j);
    }
}

/// Adds the first 32 elements of each of eight rows to as many results, by their sums in the type
/// `narrow`: so a compiler adds vectors of many numbers, and widens only the sums.
#[inline(always)]
fn add_part(
    from: Dtype,
    narrow: Dtype,
    acc: Dtype,
    step: usize,
    input: &[u8],
    place: usize,
    out: &mut [u8],
    q: usize,
)
    requires acc { IsInteger acc }
    requires size { size_of from ≤ 2 }
    requires narrow { IsInteger narrow }
    requires few_bytes { size_of narrow ≤ 4 }
    requires sums { (xs : List ℤ) → length xs ≤ 8 → All (InRange from) xs
        → InRange narrow (exact_sum xs) }
    requires input { (place + 7 * step + 32) * size_of from ≤ length input.now }
    requires out { (q + 32) * size_of acc ≤ length out.old }
    ensures takes { (j : ℕ) → j < 32 → HasTaken FoldKind.Sum acc out.old out.new (q + j)
        (elements_at_places from input.now (column_places place step 8 j)) }
    ensures others { (p : ℕ) → IsOutside q (q + 32) p
        → bytes_at acc out.new p ≡ bytes_at acc out.old p }
{
    let mut sums = [0u8; 128];
    add_columns(
        from,
        narrow,
        RowParts { step, width: 32 },
        input,
        place,
        &mut sums,
        0,
    );
    take_row(FoldKind::Sum, narrow, acc, 32, &sums, 0, out, q);
}

/// Adds the first 32 elements of each of eight rows to as many results, by sums of twice the width.
#[inline(always)]
fn add_narrow_part(
    from: Dtype,
    acc: Dtype,
    step: usize,
    input: &[u8],
    place: usize,
    out: &mut [u8],
    q: usize,
)
    requires acc { IsInteger acc }
    requires size { size_of from ≤ 2 }
    requires input { (place + 7 * step + 32) * size_of from ≤ length input.now }
    requires out { (q + 32) * size_of acc ≤ length out.old }
    ensures takes { (j : ℕ) → j < 32 → HasTaken FoldKind.Sum acc out.old out.new (q + j)
        (elements_at_places from input.now (column_places place step 8 j)) }
    ensures others { (p : ℕ) → IsOutside q (q + 32) p
        → bytes_at acc out.new p ≡ bytes_at acc out.old p }
{
    if size(from) == 1 {
        add_part(from, Dtype::Int16, acc, step, input, place, out, q);
    } else {
        add_part(from, Dtype::Int32, acc, step, input, place, out, q);
    }
}

/// Adds the first 32 elements of each of eight rows, or all where they have fewer, to as many
/// results, and returns how many these are.
#[inline(always)]
fn add_first_columns(
    from: Dtype,
    acc: Dtype,
    rows: RowParts,
    input: &[u8],
    place: usize,
    out: &mut [u8],
    q: usize,
) -> usize
    requires acc { IsInteger acc }
    requires size { size_of from ≤ 2 }
    requires some { 0 < rows.width }
    requires input { (place + 7 * rows.step + rows.width) * size_of from ≤ length input.now }
    requires out { (q + rows.width) * size_of acc ≤ length out.old }
    ensures some { 0 < result }
    ensures within { result ≤ rows.width }
    ensures takes { (j : ℕ) → j < result → HasTaken FoldKind.Sum acc out.old out.new (q + j)
        (elements_at_places from input.now (column_places place rows.step 8 j)) }
    ensures others { (p : ℕ) → IsOutside q (q + result) p
        → bytes_at acc out.new p ≡ bytes_at acc out.old p }
{
    if rows.width >= 32 {
        add_narrow_part(from, acc, rows.step, input, place, out, q);
        return 32;
    }
    add_columns(from, acc, rows, input, place, out, q);
    rows.width
}

/// Adds eight rows of elements of at most 16 bits to the row of results.
#[inline(always)]
fn add_eight_rows(
    from: Dtype,
    acc: Dtype,
    width: usize,
    input: &[u8],
    place: usize,
    out: &mut [u8],
    q: usize,
)
    requires acc { IsInteger acc }
    requires size { size_of from ≤ 2 }
    requires input { (place + 8 * width) * size_of from ≤ length input.now }
    requires out { (q + width) * size_of acc ≤ length out.old }
    ensures takes { (j : ℕ) → j < width → HasTaken FoldKind.Sum acc out.old out.new (q + j)
        (elements_at_places from input.now (column_places place width 8 j)) }
    ensures others { (p : ℕ) → IsOutside q (q + width) p
        → bytes_at acc out.new p ≡ bytes_at acc out.old p }
{
    let mut j = 0;
    while j < width {
        let rows = RowParts {
            step: width,
            width: width - j,
        };
        j += add_first_columns(from, acc, rows, input, place + j, out, q + j);
    }
}

/// Adds rows of elements of at most 16 bits to the row of results, eight at a time while so many
/// are left, and returns how many these are.
#[inline(always)]
fn add_groups_of_eight(
    from: Dtype,
    acc: Dtype,
    rows: RowBlock,
    input: &[u8],
    place: usize,
    out: &mut [u8],
    q: usize,
) -> usize
    requires acc { IsInteger acc }
    requires size { size_of from ≤ 2 }
    requires input { (place + rows.count * rows.width) * size_of from ≤ length input.now }
    requires out { (q + rows.width) * size_of acc ≤ length out.old }
    ensures within { result ≤ rows.count }
    ensures takes { (j : ℕ) → j < rows.width → HasTaken FoldKind.Sum acc out.old out.new (q + j)
        (elements_at_places from input.now (column_places place rows.width result j)) }
    ensures others { (p : ℕ) → IsOutside q (q + rows.width) p
        → bytes_at acc out.new p ≡ bytes_at acc out.old p }
{
    let mut k = 0;
    while rows.count - k >= 8 {
        add_eight_rows(from, acc, rows.width, input, place + k * rows.width, out, q);
        k += 8;
    }
    k
}

/// Calls `add_groups_of_eight` with both types written out, so that a compiler makes its loops for
/// each type of at most 16 bits; of other elements it adds no row.
macro_rules! add_by_type {
    ($from:expr, $acc:expr, [$($behind:expr),*]) => {
        match $from {
            Dtype::Bool => add_groups_of_eight(Dtype::Bool, $acc, $($behind),*),
            Dtype::Int8 => add_groups_of_eight(Dtype::Int8, $acc, $($behind),*),
            Dtype::Int16 => add_groups_of_eight(Dtype::Int16, $acc, $($behind),*),
            Dtype::Uint8 => add_groups_of_eight(Dtype::Uint8, $acc, $($behind),*),
            Dtype::Uint16 => add_groups_of_eight(Dtype::Uint16, $acc, $($behind),*),
            _ => 0,
        }
    };
}

/// `add_eights` to results of type int64. It is a function of its own, so that where `take_rows` is
/// inlined its other loops are compiled without these between them.
#[inline(never)]
#[tactic(auto, using(crate::proofs::RowSteps::no_rows))]
fn add_signed(
    from: Dtype,
    rows: RowBlock,
    input: &[u8],
    place: usize,
    out: &mut [u8],
    q: usize,
) -> usize
    requires input { (place + rows.count * rows.width) * size_of from ≤ length input.now }
    requires out { (q + rows.width) * size_of Dtype.Int64 ≤ length out.old }
    ensures within { result ≤ rows.count }
    ensures takes { (j : ℕ) → j < rows.width
        → HasTaken FoldKind.Sum Dtype.Int64 out.old out.new (q + j)
        (elements_at_places from input.now (column_places place rows.width result j)) }
    ensures others { (p : ℕ) → IsOutside q (q + rows.width) p
        → bytes_at Dtype.Int64 out.new p ≡ bytes_at Dtype.Int64 out.old p }
{
    add_by_type!(from, Dtype::Int64, [rows, input, place, out, q])
}

/// `add_eights` to results of type uint64.
#[inline(never)]
#[tactic(auto, using(crate::proofs::RowSteps::no_rows))]
fn add_unsigned(
    from: Dtype,
    rows: RowBlock,
    input: &[u8],
    place: usize,
    out: &mut [u8],
    q: usize,
) -> usize
    requires input { (place + rows.count * rows.width) * size_of from ≤ length input.now }
    requires out { (q + rows.width) * size_of Dtype.Uint64 ≤ length out.old }
    ensures within { result ≤ rows.count }
    ensures takes { (j : ℕ) → j < rows.width
        → HasTaken FoldKind.Sum Dtype.Uint64 out.old out.new (q + j)
        (elements_at_places from input.now (column_places place rows.width result j)) }
    ensures others { (p : ℕ) → IsOutside q (q + rows.width) p
        → bytes_at Dtype.Uint64 out.new p ≡ bytes_at Dtype.Uint64 out.old p }
{
    add_by_type!(from, Dtype::Uint64, [rows, input, place, out, q])
}

/// Adds rows of elements to the row of results, eight at a time, and returns how many rows it
/// added: none of elements of more than 16 bits or to results of fewer than 64, else all but fewer
/// than eight.
#[inline(always)]
#[tactic(auto, using(crate::proofs::RowSteps::no_rows))]
pub(crate) fn add_eights(
    from: Dtype,
    acc: Dtype,
    rows: RowBlock,
    input: &[u8],
    place: usize,
    out: &mut [u8],
    q: usize,
) -> usize
    requires input { (place + rows.count * rows.width) * size_of from ≤ length input.now }
    requires out { (q + rows.width) * size_of acc ≤ length out.old }
    ensures within { result ≤ rows.count }
    ensures takes { (j : ℕ) → j < rows.width → HasTaken FoldKind.Sum acc out.old out.new (q + j)
        (elements_at_places from input.now (column_places place rows.width result j)) }
    ensures others { (p : ℕ) → IsOutside q (q + rows.width) p
        → bytes_at acc out.new p ≡ bytes_at acc out.old p }
{
    match acc {
        Dtype::Int64 => add_signed(from, rows, input, place, out, q),
        Dtype::Uint64 => add_unsigned(from, rows, input, place, out, q),
        _ => 0,
    }
}
