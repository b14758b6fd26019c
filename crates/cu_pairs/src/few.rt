//! The best of each column of rows of few bytes: the elements of a column are put side by side, a block at a time, so that a block is
//! searched as one run.
ghost use Rattle.std.specs.Prelude.{◌≡◌, ◌+◌, ◌-◌, ◌*◌, ◌<◌, ◌≤◌, ◌≢◌, ℕ, length, Some};
ghost use Rattle.cu_num.specs.Dtype.{size_of};
ghost use Rattle.cu_pairs.specs.Columns.{table, column_of, HasRows, HasBests};
ghost use Rattle.cu_pairs.specs.Runs.{elements, IsBestValue, IsFirstBest};

use crate::columns::PlacedRows;
use crate::runs::{best_value, is_beyond};
use cu_num::{Dtype, load, save, size};

/// Rows have at most so many bytes, and at least so many follow one another: else going row by row is faster.
pub(crate) const BYTES: usize = 8;

pub(crate) const ROWS: usize = 64;

/// How many elements of a column are put side by side at once.
const BLOCK: usize = 256;

/// Puts side by side so many elements of a column, from row `from` on.
#[inline(always)]
fn gather(t: Dtype, rows: PlacedRows<'_>, column: usize, from: usize, count: usize, own: &mut [u8])
    requires column { column < rows.width }
    requires rows { (from + count) * rows.width * size_of t ≤ length rows.bytes.now }
    requires room { length own.old ≡ count * size_of t }
    ensures same_length { length own.new ≡ count * size_of t }
    ensures own { (j : ℕ) → j < count → elements t own.new j ≡ column_of t rows.entry.width rows.entry.bytes.now column (from + j) }
{
    for j in 0..count {
        save(
            t,
            load(t, rows.bytes, (from + j) * rows.width + column),
            own,
            j,
        );
    }
}

/// The best of a column from row `from` to below `end`.
#[inline(always)]
fn best_of_part(
    least: bool,
    t: Dtype,
    rows: PlacedRows<'_>,
    column: usize,
    from: usize,
    end: usize,
) -> i128
    requires column { column < rows.width }
    requires some { from < end }
    requires few { end ≤ from + 256 }
    requires rows { end * rows.width * size_of t ≤ length rows.bytes.now }
    ensures { IsBestValue least (λ j. column_of t rows.entry.width rows.entry.bytes.now column (from + j)) (end - from) result }
{
    let mut own = [0; BLOCK * 8];
    let part = &mut own[..(end - from) * size(t) as usize];
    gather(t, rows, column, from, end - from, part);
    best_value(least, t, part)
}

/// The number of the first row from `start` on whose element in a column is `x`, or `count` where none is.
#[inline(always)]
fn row_of(
    t: Dtype,
    rows: PlacedRows<'_>,
    column: usize,
    start: usize,
    count: usize,
    x: i128,
) -> usize
    requires column { column < rows.width }
    requires rows { count * rows.width * size_of t ≤ length rows.bytes.now }
    requires order { start ≤ count }
    ensures after { start ≤ result }
    ensures within { result ≤ count }
    ensures before { (k : ℕ) → start ≤ k → k < result → column_of t rows.entry.width rows.entry.bytes.now column k ≢ x }
    ensures found { result < count → column_of t rows.entry.width rows.entry.bytes.now column result ≡ x }
{
    for row in start..count {
        if load(t, rows.bytes, row * rows.width + column) == x {
            return row;
        }
    }
    count
}

/// The number of the first row that has the best of a column.
#[inline(always)]
fn first_best_of_column(
    least: bool,
    t: Dtype,
    rows: PlacedRows<'_>,
    column: usize,
    count: usize,
) -> usize
    requires column { column < rows.width }
    requires some { 0 < count }
    requires rows { count * rows.width * size_of t ≤ length rows.bytes.now }
    ensures { IsFirstBest least (column_of t rows.entry.width rows.entry.bytes.now column) count result }
{
    let mut start = 0;
    let mut best = best_of_part(least, t, rows, column, 0, count.min(BLOCK));
    for block in 1..count.div_ceil(BLOCK) {
        let from = block * BLOCK;
        let value = best_of_part(least, t, rows, column, from, (from + BLOCK).min(count));
        if is_beyond(least, value, best) {
            start = from;
            best = value;
        }
    }
    row_of(t, rows, column, start, count, best)
}

/// The best of each column of so many rows, where places are counted.
#[inline(always)]
pub(crate) fn best_of_few_columns(
    least: bool,
    t: Dtype,
    first: u64,
    rows: PlacedRows<'_>,
    count: usize,
    values: &mut [u8],
    places: &mut [u8],
)
    requires counted { rows.first ≡ Some first }
    requires some { 0 < count }
    requires rows { HasRows (table t rows.width rows.bytes.now rows.first rows.places.now) count }
    requires values { length values.old ≡ rows.width * size_of t }
    requires places { length places.old ≡ rows.width * 8 }
    ensures { HasBests least (table t rows.entry.width rows.entry.bytes.now rows.entry.first rows.entry.places.now) count values.new places.new }
{
    for column in 0..rows.width {
        let at = first_best_of_column(least, t, rows, column, count);
        save(
            t,
            load(t, rows.bytes, at * rows.width + column),
            values,
            column,
        );
        save(Dtype::Int64, i128::from(first) + at as i128, places, column);
    }
}
