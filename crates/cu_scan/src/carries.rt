//! What is carried into a place: sums of partial sums.
ghost use Rattle.std.specs.Prelude.{◌≡◌, ◌+◌, ◌*◌, ◌≤◌, ◌<◌, length};
ghost use Rattle.cu_num.specs.Dtype.{size_of, IsInteger};
ghost use Rattle.cu_scan.specs.Scanned.{row_element, IsCarriedInto, AddsRow, KeepsRows, StartsRow, HasTotal, HasTotals};

use crate::blocks::{Parts, row_of, start_row};
use crate::rows::take_row;
use cu_num::{Dtype, size};

/// Writes what is carried in, or zeros, as row `at`.
#[inline(always)]
fn start_at(acc: Dtype, inner: usize, at: usize, above: &[u8], out: &mut [u8])
    requires above { IsCarriedInto acc (at * inner + inner) above.now }
    requires out { (at * inner + inner) * size_of acc ≤ length out.old }
    ensures starts { StartsRow acc inner at above.now out.new }
    ensures keeps { KeepsRows acc inner at out.old out.new }
    ensures same_length { length out.new ≡ length out.old }
{
    let from = at * inner;
    let end = from + inner;
    let size = size(acc) as usize;
    let own = &mut out[from * size..end * size];
    start_row(acc, inner, from, above, own);
}

/// Adds row `row` of some sums to row `at`.
#[inline(always)]
fn take_into(acc: Dtype, inner: usize, at: usize, row: usize, sums: &[u8], out: &mut [u8])
    requires acc { IsInteger acc }
    requires sums { (row * inner + inner) * size_of acc ≤ length sums.now }
    requires out { (at * inner + inner) * size_of acc ≤ length out.old }
    ensures adds { AddsRow acc acc inner (row_element acc inner out.old at)
        (row_element acc inner sums.now row) at out.new }
    ensures keeps { KeepsRows acc inner at out.old out.new }
    ensures same_length { length out.new ≡ length out.old }
{
    let from = at * inner;
    let end = from + inner;
    let size = size(acc) as usize;
    let own = &mut out[from * size..end * size];
    take_row(acc, acc, inner, row_of(sums, acc, inner, row), own);
}

/// What is carried in and all rows of block `at`, as row `at`.
#[inline(always)]
fn carry_block(
    acc: Dtype,
    rows: usize,
    inner: usize,
    at: usize,
    sums: &[u8],
    above: &[u8],
    out: &mut [u8],
)
    requires acc { IsInteger acc }
    requires inner { 0 < inner }
    requires sums { (at * rows + rows) * inner * size_of acc ≤ length sums.now }
    requires above { IsCarriedInto acc (at * inner + inner) above.now }
    requires out { (at * inner + inner) * size_of acc ≤ length out.old }
    ensures total { HasTotal acc rows inner at rows sums.now above.now out.new }
    ensures keeps { KeepsRows acc inner at out.old out.new }
    ensures same_length { length out.new ≡ length out.old }
{
    start_at(acc, inner, at, above, out);
    for done in 0..rows {
        take_into(acc, inner, at, at * rows + done, sums, out);
    }
}

/// The same of all blocks.
#[inline(always)]
fn carry_blocks(acc: Dtype, parts: Parts, sums: &[u8], above: &[u8], out: &mut [u8])
    requires acc { IsInteger acc }
    requires inner { 0 < parts.inner }
    requires sums { parts.blocks * parts.rows * parts.inner * size_of acc ≤ length sums.now }
    requires above { IsCarriedInto acc (parts.blocks * parts.inner) above.now }
    requires out { parts.blocks * parts.inner * size_of acc ≤ length out.old }
    ensures { HasTotals acc parts.rows parts.inner parts.blocks sums.now above.now out.new }
{
    for at in 0..parts.blocks {
        carry_block(acc, parts.rows, parts.inner, at, sums, above, out);
    }
}

/// The same with loops for each type of sums.
pub(crate) fn carry_by_type(acc: Dtype, parts: Parts, sums: &[u8], above: &[u8], out: &mut [u8])
    requires acc { IsInteger acc }
    requires inner { 0 < parts.inner }
    requires sums { parts.blocks * parts.rows * parts.inner * size_of acc ≤ length sums.now }
    requires above { IsCarriedInto acc (parts.blocks * parts.inner) above.now }
    requires out { parts.blocks * parts.inner * size_of acc ≤ length out.old }
    ensures { HasTotals acc parts.rows parts.inner parts.blocks sums.now above.now out.new }
{
    match acc {
        Dtype::Int64 => carry_blocks(Dtype::Int64, parts, sums, above, out),
        Dtype::Uint64 => carry_blocks(Dtype::Uint64, parts, sums, above, out),
        _ => carry_blocks(acc, parts, sums, above, out),
    }
}
