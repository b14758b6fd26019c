//! Rows of elements that are copied from evenly spaced places to evenly spaced places.
ghost use Rattle.std.specs.Prelude.{◌≡◌, IsTrue, ℕ, ◌+◌, ◌*◌, ◌%◌, ◌<◌, ◌≤◌, ◌^◌, ◌++◌, List, length, take, drop};
ghost use Rattle.cu_num.specs.Element.{IsSize};
ghost use Rattle.cu_box.specs.Order.{IsReordered};
ghost use Rattle.cu_box.specs.Rows.{spaced, FitRows, AreApart, AreRowsCopied};

use crate::order::reorder;
use cu_num::Endian;

/// Evenly spaced places in a buffer, counted in elements.
#[derive(Clone, Copy, Debug)]
pub struct Spacing {
    /// The first place.
    pub first: u64,
    /// The second, which may lie before it.
    pub next: u64,
}

/// Rows of elements that stand together, each row at a place that is read and one that is written.
#[derive(Clone, Copy, Debug)]
pub struct Rows {
    /// How many elements a row has.
    pub run: u64,
    /// How many rows there are.
    pub count: u64,
    /// Where the rows that are read begin.
    pub from: Spacing,
    /// Where those that are written begin.
    pub to: Spacing,
}

/// Copies rows of elements of `size` bytes. Where the order is big-endian, the bytes of each element are reversed.
pub fn copy_rows(size: u64, order: Endian, rows: &Rows, source: &[u8], target: &mut [u8])
    requires size { IsSize size }
    requires source_fits { FitRows size rows.now rows.now.from source.now }
    requires target_fits { FitRows size rows.now rows.now.to target.old }
    requires apart { AreApart rows.now }
    ensures { AreRowsCopied size order rows.now source.now target.old target.new }
{
    if rows.count == 0 {
        return;
    }
    match order {
        Endian::Big if size > 1 => copy_turned(size, rows.run * size, *rows, source, target),
        _ if stand_together(rows) => copy_joined(size, *rows, source, target),
        _ => copy_straight(size, rows.run * size, *rows, source, target),
    }
}

/// Whether each row begins where the one before it ends, in both buffers.
fn stand_together(rows: &Rows) -> bool
    ensures from { IsTrue result → rows.now.from.next ≡ rows.now.from.first + rows.now.run }
    ensures to { IsTrue result → rows.now.to.next ≡ rows.now.to.first + rows.now.run }
{
    follows(rows.from, rows.run) && follows(rows.to, rows.run)
}

/// Whether the second place is so many elements behind the first.
fn follows(spacing: Spacing, run: u64) -> bool
    ensures { IsTrue result → spacing.next ≡ spacing.first + run }
{
    spacing.next >= spacing.first && spacing.next - spacing.first == run
}

/// The same of rows that stand together, as one row: a copy of many bytes at once can go past the caches.
fn copy_joined(size: u64, rows: Rows, source: &[u8], target: &mut [u8])
    requires size { IsSize size }
    requires some { 0 < rows.count }
    requires together { (rows.from.next ≡ rows.from.first + rows.run) × (rows.to.next ≡ rows.to.first + rows.run) }
    requires source_fits { FitRows size rows rows.from source.now }
    requires target_fits { FitRows size rows rows.to target.old }
    ensures { AreRowsCopied size Endian.Little rows source.now target.old target.new }
{
    let joined = Rows {
        run: rows.run * rows.count,
        count: 1,
        from: rows.from,
        to: rows.to,
    };
    let bytes = joined.run * size;
    copy_each(size, Endian::Little, bytes, joined, source, target);
}

/// The same where the bytes of each element keep their order. How many bytes a short row has is known in its loop.
#[inline(always)]
fn copy_straight(size: u64, bytes: u64, rows: Rows, source: &[u8], target: &mut [u8])
    requires size { IsSize size }
    requires bytes { bytes ≡ rows.run * size }
    requires source_fits { FitRows size rows rows.from source.now }
    requires target_fits { FitRows size rows rows.to target.old }
    requires apart { AreApart rows }
    ensures { AreRowsCopied size Endian.Little rows source.now target.old target.new }
{
    match bytes {
        1 => copy_each(size, Endian::Little, 1, rows, source, target),
        2 => copy_each(size, Endian::Little, 2, rows, source, target),
        4 => copy_each(size, Endian::Little, 4, rows, source, target),
        8 => copy_each(size, Endian::Little, 8, rows, source, target),
        16 => copy_each(size, Endian::Little, 16, rows, source, target),
        32 => copy_each(size, Endian::Little, 32, rows, source, target),
        64 => copy_each(size, Endian::Little, 64, rows, source, target),
        _ => copy_each(size, Endian::Little, bytes, rows, source, target),
    }
}

/// The same where the bytes of each element are reversed. In the loop of a short row the size of an element is known too.
#[inline(always)]
fn copy_turned(size: u64, bytes: u64, rows: Rows, source: &[u8], target: &mut [u8])
    requires size { IsSize size }
    requires bytes { bytes ≡ rows.run * size }
    requires source_fits { FitRows size rows rows.from source.now }
    requires target_fits { FitRows size rows rows.to target.old }
    requires apart { AreApart rows }
    ensures { AreRowsCopied size Endian.Big rows source.now target.old target.new }
{
    match (size, bytes) {
        (2, 2) => copy_each(2, Endian::Big, 2, rows, source, target),
        (2, 4) => copy_each(2, Endian::Big, 4, rows, source, target),
        (2, 8) => copy_each(2, Endian::Big, 8, rows, source, target),
        (4, 4) => copy_each(4, Endian::Big, 4, rows, source, target),
        (4, 8) => copy_each(4, Endian::Big, 8, rows, source, target),
        (4, 16) => copy_each(4, Endian::Big, 16, rows, source, target),
        (8, 8) => copy_each(8, Endian::Big, 8, rows, source, target),
        (8, 16) => copy_each(8, Endian::Big, 16, rows, source, target),
        _ => copy_each(size, Endian::Big, bytes, rows, source, target),
    }
}

/// Copies each row, which has so many bytes. The rows are given by value: no byte that is written can then be one of their
/// numbers, and the compiler steps from place to place without a multiplication.
#[inline(always)]
fn copy_each(size: u64, order: Endian, bytes: u64, rows: Rows, source: &[u8], target: &mut [u8])
    requires size { IsSize size }
    requires bytes { bytes ≡ rows.run * size }
    requires source_fits { FitRows size rows rows.from source.now }
    requires target_fits { FitRows size rows rows.to target.old }
    requires apart { AreApart rows }
    ensures { AreRowsCopied size order rows source.now target.old target.new }
{
    for row in 0..rows.count {
        let first = place_on(&rows.from, row);
        let at = place_on(&rows.to, row);
        copy_run(
            size,
            order,
            source,
            (first * size) as usize,
            target,
            (at * size) as usize,
            bytes as usize,
        );
    }
}

/// Place number `row` of a spacing, which goes up or down, in elements.
#[inline(always)]
pub fn place_on(spacing: &Spacing, row: u64) -> u64
    requires natural { row * spacing.now.first ≤ spacing.now.first + row * spacing.now.next }
    requires small { spaced spacing.now row < 2 ^ 64 }
    ensures { result ≡ spaced spacing.now row }
{
    if spacing.next >= spacing.first {
        spacing.first + row * (spacing.next - spacing.first)
    } else {
        spacing.first - row * (spacing.first - spacing.next)
    }
}

/// Copies `count` bytes, which are whole elements of `size` bytes, each with its bytes reversed where the order is big-endian.
#[inline(always)]
pub(crate) fn copy_run(
    size: u64,
    order: Endian,
    source: &[u8],
    first: usize,
    target: &mut [u8],
    at: usize,
    count: usize,
)
    requires size { IsSize size }
    requires whole { count % size ≡ 0 }
    requires source_fits { first + count ≤ length source.now }
    requires target_fits { at + count ≤ length target.old }
    ensures { (run : List ℕ) × IsReordered order size (take count (drop first source.now)) run
        × (target.new ≡ take at target.old ++ (run ++ drop (at + count) target.old)) }
{
    match count {
        1 => copy_array::<1>(size, order, source, first, target, at),
        2 => copy_array::<2>(size, order, source, first, target, at),
        4 => copy_array::<4>(size, order, source, first, target, at),
        8 => copy_array::<8>(size, order, source, first, target, at),
        16 => copy_array::<16>(size, order, source, first, target, at),
        32 => copy_array::<32>(size, order, source, first, target, at),
        64 => copy_array::<64>(size, order, source, first, target, at),
        _ => copy_bytes(size, order, source, first, target, at, count),
    }
}

/// The same for so few bytes that they are held as one number between the two buffers, and turned there.
#[inline(always)]
pub(crate) fn copy_array<const N: usize>(
    size: u64,
    order: Endian,
    source: &[u8],
    first: usize,
    target: &mut [u8],
    at: usize,
)
    requires size { IsSize size }
    requires whole { N % size ≡ 0 }
    requires source_fits { first + N ≤ length source.now }
    requires target_fits { at + N ≤ length target.old }
    ensures { (run : List ℕ) × IsReordered order size (take N (drop first source.now)) run
        × (target.new ≡ take at target.old ++ (run ++ drop (at + N) target.old)) }
{
    let Some(read) = source[first..first + N].as_array::<N>() else {
        unreachable!()
    };
    let mut row = *read;
    reorder(order, size, &mut row);
    put_array(row, &mut target[at..at + N]);
}

/// Writes an array over as many bytes.
#[inline(always)]
fn put_array<const N: usize>(row: [u8; N], target: &mut [u8])
    requires { length target.old ≡ N }
    ensures { target.new ≡ row.entry }
{
    let Some(slot) = target.as_mut_array::<N>() else {
        unreachable!()
    };
    *slot = row;
}

/// The same for any number of bytes, which are turned where they are written.
#[inline(always)]
fn copy_bytes(
    size: u64,
    order: Endian,
    source: &[u8],
    first: usize,
    target: &mut [u8],
    at: usize,
    count: usize,
)
    requires size { IsSize size }
    requires whole { count % size ≡ 0 }
    requires source_fits { first + count ≤ length source.now }
    requires target_fits { at + count ≤ length target.old }
    ensures { (run : List ℕ) × IsReordered order size (take count (drop first source.now)) run
        × (target.new ≡ take at target.old ++ (run ++ drop (at + count) target.old)) }
{
    let row = &mut target[at..at + count];
    row.copy_from_slice(&source[first..first + count]);
    reorder(order, size, row);
}
