//! The elements of a triangle, row by row.
ghost use Rattle.std.specs.Prelude.{◌≡◌, ◌<◌, ◌≤◌, ◌↔◌, ◌<ℤ◌, ◌+ℤ◌, ◌-◌, pos, ℕ, List, IsTrue, length, slice_index, if◌then◌else◌};
ghost use Rattle.cu_grid.specs.Counts.{IsWithin};
ghost use Rattle.cu_origin.specs.Pull.{is_in_triangle};
ghost use Rattle.cu_view_box.specs.Block.{IsBlock, IsMove, AreSpelled};
ghost use Rattle.cu_view.specs.Gathered.{HasMoved, IsElementKept, is_cell};

use cu_grid::Region;
use cu_view_box::{Block, Piece, copy_box};

/// What is copied: a piece's elements, out of the bytes of a block of its source, into a block of the result.
#[derive(Clone, Copy)]
pub(crate) struct TriangleCopying<'a> {
    pub piece: &'a Piece,
    pub from: &'a Block,
    pub bytes: &'a [u8],
    pub to: &'a Block,
}

/// Copies the elements of a part of a piece that lie in a triangle of the last two axes, one row of it after another.
pub(crate) fn copy_triangle(
    lower: bool,
    k: i64,
    copying: &TriangleCopying<'_>,
    part: &Region,
    output: &mut [u8],
)
    requires moves { IsMove copying.now.piece.now part.now copying.now.from.now copying.now.to.now }
    requires axes { 2 ≤ length part.now.lo }
    requires from_block { IsBlock copying.now.from.now copying.now.bytes.now }
    requires to_block { IsBlock copying.now.to.now output.old }
    requires spelled { copying.now.from.now.dtype ≡ copying.now.to.now.dtype → AreSpelled copying.now.from.now.dtype copying.now.bytes.now }
    ensures moved { (idx : List ℕ) → IsWithin part.now.lo part.now.hi idx → IsTrue (is_in_triangle lower k idx) → HasMoved copying.now.piece.now copying.now.from.now copying.now.bytes.now copying.now.to.now output.new idx }
    ensures others { (idx : List ℕ) → IsWithin copying.now.to.now.region.lo copying.now.to.now.region.hi idx → (IsWithin part.now.lo part.now.hi idx → ¬ IsTrue (is_in_triangle lower k idx))
        → IsElementKept copying.now.to.now output.old output.new idx }
{
    let axis = part.lo.rank() - 2;
    for row in part.lo.at(axis)..part.hi.at(axis) {
        let one = cut(part, axis, row, row + 1);
        copy_row(lower, k, row, copying, &one, output);
    }
}

/// The same of a part that has one row.
fn copy_row(
    lower: bool,
    k: i64,
    row: u64,
    copying: &TriangleCopying<'_>,
    part: &Region,
    output: &mut [u8],
)
    requires moves { IsMove copying.now.piece.now part.now copying.now.from.now copying.now.to.now }
    requires axes { 2 ≤ length part.now.lo }
    requires row { (idx : List ℕ) → IsWithin part.now.lo part.now.hi idx → slice_index idx (length part.now.lo - 2) ≡ row }
    requires from_block { IsBlock copying.now.from.now copying.now.bytes.now }
    requires to_block { IsBlock copying.now.to.now output.old }
    requires spelled { copying.now.from.now.dtype ≡ copying.now.to.now.dtype → AreSpelled copying.now.from.now.dtype copying.now.bytes.now }
    ensures moved { (idx : List ℕ) → IsWithin part.now.lo part.now.hi idx → IsTrue (is_in_triangle lower k idx) → HasMoved copying.now.piece.now copying.now.from.now copying.now.bytes.now copying.now.to.now output.new idx }
    ensures others { (idx : List ℕ) → IsWithin copying.now.to.now.region.lo copying.now.to.now.region.hi idx → (IsWithin part.now.lo part.now.hi idx → ¬ IsTrue (is_in_triangle lower k idx))
        → IsElementKept copying.now.to.now output.old output.new idx }
{
    let last = part.lo.rank() - 1;
    let (lo, hi) = columns(lower, k, row, part.lo.at(last), part.hi.at(last));
    if lo < hi {
        let shown = cut(part, last, lo, hi);
        copy_box(
            copying.piece,
            &shown,
            copying.from,
            copying.bytes,
            copying.to,
            output,
        );
    }
}

/// The indices of a region that have a number from `lo` to below `hi` on an axis.
fn cut(part: &Region, axis: u32, lo: u64, hi: u64) -> Region
    requires some { IsWithin part.now.lo part.now.hi part.now.lo }
    requires axis { axis < length part.now.lo }
    requires low { slice_index part.now.lo axis ≤ lo }
    requires high { hi ≤ slice_index part.now.hi axis }
    requires range { lo < hi }
    ensures exactly { (idx : List ℕ) → IsWithin result.lo result.hi idx ↔ (IsWithin part.now.lo part.now.hi idx × (lo ≤ slice_index idx axis) × (slice_index idx axis < hi)) }
    ensures some { IsWithin result.lo result.hi result.lo }
    ensures rank { length result.lo ≡ length part.now.lo }
{
    Region {
        lo: part.lo.changed(axis, lo),
        hi: part.hi.changed(axis, hi),
    }
}

/// The columns of a row that lie in a triangle, of those from `first` to below `end`: from which one on, and to below which.
fn columns(lower: bool, k: i64, row: u64, first: u64, end: u64) -> (u64, u64)
    requires range { first ≤ end }
    ensures low { first ≤ result.0 }
    ensures high { result.1 ≤ end }
    ensures exactly { (column : ℕ) → first ≤ column → column < end → ((result.0 ≤ column) × (column < result.1)) ↔ IsTrue (is_cell lower k row column) }
{
    if lower {
        (first, held(row, k, true, first, end))
    } else {
        (held(row, k, false, first, end), end)
    }
}

/// The column at which a row meets the k-th diagonal, or the one past it, held between two others.
fn held(row: u64, k: i64, past: bool, first: u64, end: u64) -> u64
    requires range { first ≤ end }
    ensures low { first ≤ result }
    ensures high { result ≤ end }
    ensures below { (n : ℕ) → first ≤ n → n < end → n < result ↔ (pos n <ℤ ((pos row +ℤ k) +ℤ pos (if past then 1 else 0))) }
{
    let x = crossing(row, k, past);
    if x < first as i128 {
        first
    } else if x > end as i128 {
        end
    } else {
        x as u64
    }
}

/// Where a row meets the k-th diagonal, or the one past it.
fn crossing(row: u64, k: i64, past: bool) -> i128
    ensures { result ≡ ((pos row +ℤ k) +ℤ pos (if past then 1 else 0)) }
{
    let x = row as i128 + k as i128;
    if past { x + 1 } else { x }
}
