//! Rows and blocks of a region.
ghost use Rattle.std.specs.Prelude.{◌≡◌, ◌+◌, ◌*◌, ◌≤◌, ◌<◌, ℕ, suc, length};
ghost use Rattle.cu_num.specs.Dtype.{size_of, InRange, IsInteger};
ghost use Rattle.cu_num.specs.Element.{element_at};
ghost use Rattle.cu_num.specs.declared.layout.Endian.TheVariants.{Little};
ghost use Rattle.cu_scan.specs.Scanned.{carried_at, row_element, IsCarriedInto, AddsRow, KeepsRows, HasSummedRows, HasBlocks};

use crate::rows::{add_row, scan_run, take_row, zero_row};
use cu_num::{Dtype, load, size};

/// The elements from row `row` on.
#[inline(always)]
pub(crate) fn row_of(input: &[u8], t: Dtype, inner: usize, row: usize) -> &[u8]
    requires { (row * inner + inner) * size_of t ≤ length input.now }
    ensures elements { (q : ℕ) → q < inner
        → element_at Little t result.now q ≡ row_element t inner input.now row q }
    ensures room { inner * size_of t ≤ length result.now }
{
    let from = row * inner;
    let end = from + inner;
    let size = size(t) as usize;
    &input[from * size..end * size]
}

/// Writes what is carried in from element `from` on, or zeros.
#[inline(always)]
pub(crate) fn start_row(acc: Dtype, count: usize, from: usize, carry: &[u8], out: &mut [u8])
    requires carry { IsCarriedInto acc (from + count) carry.now }
    requires out { length out.old ≡ count * size_of acc }
    ensures { (q : ℕ) → q < count → element_at Little acc out.new q
        ≡ carried_at acc carry.now (from + q) }
{
    if carry.is_empty() {
        zero_row(acc, count, out);
    } else {
        let size = size(acc) as usize;
        out.copy_from_slice(&carry[from * size..(from + count) * size]);
    }
}

/// Writes the first row of block `at`, which is row `row`.
#[inline(always)]
fn first_row(
    t: Dtype,
    acc: Dtype,
    inner: usize,
    at: usize,
    row: usize,
    input: &[u8],
    carry: &[u8],
    out: &mut [u8],
)
    requires acc { IsInteger acc }
    requires at { at ≤ row }
    requires input { (row * inner + inner) * size_of t ≤ length input.now }
    requires carry { IsCarriedInto acc (at * inner + inner) carry.now }
    requires out { (row * inner + inner) * size_of acc ≤ length out.old }
    ensures adds { AddsRow t acc inner (λ q. carried_at acc carry.now (at * inner + q))
        (row_element t inner input.now row) row out.new }
    ensures keeps { KeepsRows acc inner row out.old out.new }
    ensures same_length { length out.new ≡ length out.old }
{
    let from = row * inner;
    let end = from + inner;
    let size = size(acc) as usize;
    let own = &mut out[from * size..end * size];
    start_row(acc, inner, at * inner, carry, own);
    take_row(t, acc, inner, row_of(input, t, inner, row), own);
}

/// Writes the row behind row `row`.
#[inline(always)]
fn next_row(t: Dtype, acc: Dtype, inner: usize, row: usize, input: &[u8], out: &mut [u8])
    requires acc { IsInteger acc }
    requires inner { 0 < inner }
    requires input { (suc row * inner + inner) * size_of t ≤ length input.now }
    requires out { (suc row * inner + inner) * size_of acc ≤ length out.old }
    ensures adds { AddsRow t acc inner (row_element acc inner out.old row)
        (row_element t inner input.now (suc row)) (suc row) out.new }
    ensures keeps { KeepsRows acc inner (suc row) out.old out.new }
    ensures same_length { length out.new ≡ length out.old }
{
    let from = (row + 1) * inner;
    let size = size(acc) as usize;
    let (done, rest) = out.split_at_mut(from * size);
    add_row(
        t,
        acc,
        inner,
        row_of(input, t, inner, row + 1),
        row_of(done, acc, inner, row),
        rest,
    );
}

/// The prefix sums of block `at`.
#[inline(always)]
fn scan_block(
    t: Dtype,
    acc: Dtype,
    rows: usize,
    inner: usize,
    at: usize,
    input: &[u8],
    carry: &[u8],
    out: &mut [u8],
)
    requires acc { IsInteger acc }
    requires rows { 0 < rows }
    requires inner { 0 < inner }
    requires input { (at * rows + rows) * inner * size_of t ≤ length input.now }
    requires carry { IsCarriedInto acc (at * inner + inner) carry.now }
    requires out { (at * rows + rows) * inner * size_of acc ≤ length out.old }
    ensures rows { HasSummedRows t acc rows inner at rows input.now carry.now out.new }
    ensures keeps { KeepsRows acc inner (at * rows) out.old out.new }
    ensures same_length { length out.new ≡ length out.old }
{
    let start = at * rows;
    first_row(t, acc, inner, at, start, input, carry, out);
    for done in 0..rows - 1 {
        next_row(t, acc, inner, start + done, input, out);
    }
}

/// What is carried in at a place, 0 where nothing is.
#[inline(always)]
fn given_number(acc: Dtype, carry: &[u8], at: usize) -> i128
    requires carry { IsCarriedInto acc (at + 1) carry.now }
    ensures value { result ≡ carried_at acc carry.now at }
    ensures range { InRange acc result }
{
    if carry.is_empty() {
        0
    } else {
        load(acc, carry, at)
    }
}

/// The prefix sums of block `at`, the rows of which have one element.
#[inline(always)]
fn scan_line(
    t: Dtype,
    acc: Dtype,
    rows: usize,
    at: usize,
    input: &[u8],
    carry: &[u8],
    out: &mut [u8],
)
    requires acc { IsInteger acc }
    requires input { (at * rows + rows) * size_of t ≤ length input.now }
    requires carry { IsCarriedInto acc (at + 1) carry.now }
    requires out { (at * rows + rows) * size_of acc ≤ length out.old }
    ensures rows { HasSummedRows t acc rows 1 at rows input.now carry.now out.new }
    ensures keeps { KeepsRows acc 1 (at * rows) out.old out.new }
    ensures same_length { length out.new ≡ length out.old }
{
    let from = at * rows;
    let end = from + rows;
    let size = size(acc) as usize;
    let first = given_number(acc, carry, at);
    let own = &mut out[from * size..end * size];
    scan_run(t, acc, rows, first, row_of(input, t, rows, at), own);
}

/// The prefix sums of block `at`, by the width of its rows.
#[inline(always)]
fn scan_part(
    t: Dtype,
    acc: Dtype,
    rows: usize,
    inner: usize,
    at: usize,
    input: &[u8],
    carry: &[u8],
    out: &mut [u8],
)
    requires acc { IsInteger acc }
    requires rows { 0 < rows }
    requires inner { 0 < inner }
    requires input { (at * rows + rows) * inner * size_of t ≤ length input.now }
    requires carry { IsCarriedInto acc (at * inner + inner) carry.now }
    requires out { (at * rows + rows) * inner * size_of acc ≤ length out.old }
    ensures rows { HasSummedRows t acc rows inner at rows input.now carry.now out.new }
    ensures keeps { KeepsRows acc inner (at * rows) out.old out.new }
    ensures same_length { length out.new ≡ length out.old }
{
    if inner == 1 {
        scan_line(t, acc, rows, at, input, carry, out);
    } else {
        scan_block(t, acc, rows, inner, at, input, carry, out);
    }
}

/// How many blocks a region has, how many rows each block has, and how many elements each row.
#[derive(Clone, Copy)]
pub(crate) struct Parts {
    pub(crate) blocks: usize,
    pub(crate) rows: usize,
    pub(crate) inner: usize,
}

/// The prefix sums of all blocks.
#[inline(always)]
pub(crate) fn scan_blocks(
    t: Dtype,
    acc: Dtype,
    parts: Parts,
    input: &[u8],
    carry: &[u8],
    out: &mut [u8],
)
    requires acc { IsInteger acc }
    requires rows { 0 < parts.rows }
    requires inner { 0 < parts.inner }
    requires input { parts.blocks * parts.rows * parts.inner * size_of t ≤ length input.now }
    requires carry { IsCarriedInto acc (parts.blocks * parts.inner) carry.now }
    requires out { parts.blocks * parts.rows * parts.inner * size_of acc ≤ length out.old }
    ensures { HasBlocks t acc parts.rows parts.inner parts.blocks input.now carry.now out.new }
{
    for at in 0..parts.blocks {
        scan_part(t, acc, parts.rows, parts.inner, at, input, carry, out);
    }
}
