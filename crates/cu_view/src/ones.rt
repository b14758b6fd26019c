//! The elements of a matrix that has 1 on a diagonal.
ghost use Rattle.std.specs.Prelude.{◌≡◌, ◌≢◌, ◌<◌, ◌≤◌, ◌+ℤ◌, ℕ, pos, List, IfSome, length, slice_index, slice_set, if◌then◌else◌};
ghost use Rattle.std.specs.Option.{IfNone};
ghost use Rattle.std.specs.Ordering.{int_eq};
ghost use Rattle.cu_num.specs.Element.{bytes_at, element_bytes};
ghost use Rattle.cu_grid.specs.Counts.{IsWithin};
ghost use Rattle.cu_origin.specs.Pull.{diagonal_of};
ghost use Rattle.cu_view_box.specs.Block.{buffer_place, IsBlock};

use crate::elements::put;
use crate::fills::fill;
use cu_num::Endian;
use cu_view_box::Block;

/// Makes the elements of a block 1 on a diagonal, and 0 elsewhere.
pub(crate) fn lay_eye(k: i64, to: &Block, output: &mut [u8])
    requires axes { length to.now.region.lo ≡ 2 }
    requires same_rank { length to.now.region.hi ≡ 2 }
    requires to_block { IsBlock to.now output.old }
    ensures laid { (idx : List ℕ) → IsWithin to.now.region.lo to.now.region.hi idx
        → bytes_at to.now.dtype output.new (buffer_place to.now idx) ≡ element_bytes Endian.Little to.now.dtype (if int_eq (diagonal_of idx) k then pos 1 else pos 0) }
    ensures same_length { length output.new ≡ length output.old }
{
    fill(to.dtype, 0, output);
    for row in to.region.lo.at(0)..to.region.hi.at(0) {
        lay_one(k, row, to, output);
    }
}

/// Makes the element of a row that lies on the diagonal 1, where the block has one.
fn lay_one(k: i64, row: u64, to: &Block, output: &mut [u8])
    requires axes { length to.now.region.lo ≡ 2 }
    requires same_rank { length to.now.region.hi ≡ 2 }
    requires first { slice_index to.now.region.lo 0 ≤ row }
    requires end { row < slice_index to.now.region.hi 0 }
    requires to_block { IsBlock to.now output.old }
    ensures here { (idx : List ℕ) → IsWithin to.now.region.lo to.now.region.hi idx → slice_index idx 0 ≡ row → diagonal_of idx ≡ k
        → bytes_at to.now.dtype output.new (buffer_place to.now idx) ≡ element_bytes Endian.Little to.now.dtype (pos 1) }
    ensures others { (idx : List ℕ) → IsWithin to.now.region.lo to.now.region.hi idx → (slice_index idx 0 ≡ row → diagonal_of idx ≢ k)
        → bytes_at to.now.dtype output.new (buffer_place to.now idx) ≡ bytes_at to.now.dtype output.old (buffer_place to.now idx) }
    ensures same_length { length output.new ≡ length output.old }
{
    match column_of(k, row, to.region.lo.at(1), to.region.hi.at(1)) {
        Some(column) => put_one(row, column, to, output),
        None => {}
    }
}

/// The column of a row that lies on a diagonal, if it is one of those from `first` to below `end`.
fn column_of(k: i64, row: u64, first: u64, end: u64) -> Option<u64>
    ensures some { IfSome result (λ column. (pos column ≡ pos row +ℤ k) × (first ≤ column) × (column < end)) }
    ensures none { IfNone result ((column : ℕ) → first ≤ column → column < end → pos column ≢ pos row +ℤ k) }
{
    let column = row as i128 + k as i128;
    if column < first as i128 || end as i128 <= column {
        return None;
    }
    Some(column as u64)
}

/// Makes the element of a row and column 1.
fn put_one(row: u64, column: u64, to: &Block, output: &mut [u8])
    requires axes { length to.now.region.lo ≡ 2 }
    requires within { IsWithin to.now.region.lo to.now.region.hi (slice_set (slice_set to.now.region.lo 0 row) 1 column) }
    requires to_block { IsBlock to.now output.old }
    ensures here { bytes_at to.now.dtype output.new (buffer_place to.now (slice_set (slice_set to.now.region.lo 0 row) 1 column)) ≡ element_bytes Endian.Little to.now.dtype (pos 1) }
    ensures others { (other : List ℕ) → IsWithin to.now.region.lo to.now.region.hi other → other ≢ slice_set (slice_set to.now.region.lo 0 row) 1 column
        → bytes_at to.now.dtype output.new (buffer_place to.now other) ≡ bytes_at to.now.dtype output.old (buffer_place to.now other) }
    ensures same_length { length output.new ≡ length output.old }
{
    let first = to.region.lo.changed(0, row);
    let idx = first.changed(1, column);
    put(to, &idx, 1, output);
}
