//! Boxes of a piece that are copied from a block of its source into a block of the result.
ghost use Rattle.std.specs.Prelude.{◌≡◌, ◌<◌, ◌≤◌, ◌+◌, ◌-◌, All, length, slice_index, slice_set, min};
ghost use Rattle.cu_grid.specs.Counts.{IsWithin};
ghost use Rattle.cu_view_box.specs.Block.{IsBlock, IsMove, IsMoved, IsKept, AreSpelled, buffer_place};
ghost use Rattle.cu_view_box.specs.Piece.{read_at, IsWayOver};
ghost use Rattle.cu_view_box.specs.Row.{IsRowAlong, IsSingle, row_index, row_count};

use crate::along::copy_along;
use crate::block::Block;
use crate::lines::{Line, convert_line};
use crate::piece::Piece;
use crate::reads::read_from;
use cu_box::Spacing;
use cu_grid::Region;
use cu_shape::{Dims, difference, place};

/// A row of so many elements is copied as such; shorter ones cost more by row than by element.
const LONG_ROW: u64 = 32;

/// Copies what a piece reads over a part of its box from a block of its source into a block of the result, each element as a
/// number of the result's type. The block's other elements stay as they are.
pub fn copy_box(
    piece: &Piece,
    part: &Region,
    from: &Block,
    bytes: &[u8],
    to: &Block,
    output: &mut [u8],
)
    requires moves { IsMove piece.now part.now from.now to.now }
    requires from_block { IsBlock from.now bytes.now }
    requires to_block { IsBlock to.now output.old }
    requires spelled { from.now.dtype ≡ to.now.dtype → AreSpelled from.now.dtype bytes.now }
    ensures moved { IsMoved piece.now part.now from.now bytes.now to.now output.new }
    ensures others { IsKept part.now to.now output.old output.new }
{
    let copying = Copying {
        piece,
        from,
        bytes,
        to,
    };
    if from.dtype == to.dtype {
        copy_along(&copying, part, output);
    } else {
        copy_rows(&copying, part, 0, row_axis(part), output);
    }
}

/// The axis along which a part is copied in rows: the last one on which it has many indices, else the one on which it has most;
/// for a part of one index, the number of axes.
fn row_axis(part: &Region) -> u32
    requires { length part.now.hi ≡ length part.now.lo }
{
    let rank = part.lo.rank();
    let mut longest = rank;
    let mut most = 1;
    for axis in (0..rank).rev() {
        let count = part.hi.at(axis).saturating_sub(part.lo.at(axis));
        if count >= LONG_ROW {
            return axis;
        }
        if count > most {
            longest = axis;
            most = count;
        }
    }
    longest
}

/// What is copied: a piece's elements, out of the bytes of a block of its source, into a block of the result.
#[derive(Clone, Copy)]
pub(crate) struct Copying<'a> {
    pub(crate) piece: &'a Piece,
    pub(crate) from: &'a Block,
    pub(crate) bytes: &'a [u8],
    pub(crate) to: &'a Block,
}

/// The same, number by number, for a part that has one index on each axis below `level` but the rows' axis.
fn copy_rows(copying: &Copying<'_>, part: &Region, level: u32, axis: u32, output: &mut [u8])
    requires level { level ≤ length part.now.lo }
    requires single { IsSingle part.now axis level }
    requires moves { IsMove copying.now.piece.now part.now copying.now.from.now copying.now.to.now }
    requires from_block { IsBlock copying.now.from.now copying.now.bytes.now }
    requires to_block { IsBlock copying.now.to.now output.old }
    ensures moved { IsMoved copying.now.piece.now part.now copying.now.from.now copying.now.bytes.now copying.now.to.now output.new }
    ensures others { IsKept part.now copying.now.to.now output.old output.new }
{
    if level == part.lo.rank() {
        copy_row(
            copying.piece,
            part,
            axis,
            copying.from,
            copying.bytes,
            copying.to,
            output,
        );
    } else if level == axis {
        copy_rows(copying, part, level + 1, axis, output);
    } else {
        for index in part.lo.at(level)..part.hi.at(level) {
            let slice = slice_at(part, level, index);
            copy_rows(copying, &slice, level + 1, axis, output);
        }
    }
}

/// The indices of a region that have this number on an axis.
pub(crate) fn slice_at(part: &Region, axis: u32, index: u64) -> Region
    requires some { IsWithin part.now.lo part.now.hi part.now.lo }
    requires axis { axis < length part.now.lo }
    requires index { index < slice_index part.now.hi axis }
    ensures lo { result.lo ≡ slice_set part.now.lo axis index }
    ensures hi { result.hi ≡ slice_set part.now.hi axis (index + 1) }
{
    let end = part.hi.at(axis);
    Region {
        lo: part.lo.changed(axis, index),
        hi: part.hi.changed(axis, end.min(index + 1)),
    }
}

/// The same for a row.
fn copy_row(
    piece: &Piece,
    part: &Region,
    axis: u32,
    from: &Block,
    bytes: &[u8],
    to: &Block,
    output: &mut [u8],
)
    requires row { IsRowAlong part.now axis }
    requires moves { IsMove piece.now part.now from.now to.now }
    requires from_block { IsBlock from.now bytes.now }
    requires to_block { IsBlock to.now output.old }
    ensures moved { IsMoved piece.now part.now from.now bytes.now to.now output.new }
    ensures others { IsKept part.now to.now output.old output.new }
{
    let count = length_of_row(part, axis);
    let next = second_of_row(part, axis, count);
    let source = Line {
        dtype: from.dtype,
        places: Spacing {
            first: source_place(piece, from, bytes, &part.lo),
            next: source_place(piece, from, bytes, &next),
        },
    };
    let target = Line {
        dtype: to.dtype,
        places: Spacing {
            first: block_place(to, output, &part.lo),
            next: block_place(to, output, &next),
        },
    };
    convert_line(&source, bytes, &target, output, count);
}

/// The indices of a row.
pub(crate) fn length_of_row(part: &Region, axis: u32) -> u64
    requires some { IsWithin part.now.lo part.now.hi part.now.lo }
    ensures { result ≡ row_count part.now axis }
{
    if axis < part.lo.rank() {
        part.hi.at(axis) - part.lo.at(axis)
    } else {
        1
    }
}

/// The second index of a row, or its only one.
pub(crate) fn second_of_row(part: &Region, axis: u32, count: u64) -> Dims
    requires some { IsWithin part.now.lo part.now.hi part.now.lo }
    requires count { count ≡ row_count part.now axis }
    ensures { result ≡ row_index part.now.lo axis (min 1 (count - 1)) }
{
    if count < 2 {
        return part.lo;
    }
    let end = part.hi.at(axis);
    part.lo.changed(axis, end.min(part.lo.at(axis) + 1))
}

/// The place in a block of a source of what a piece reads at an index.
pub(crate) fn source_place(piece: &Piece, from: &Block, bytes: &[u8], idx: &Dims) -> u64
    requires ways { All (IsWayOver piece.now.region.lo piece.now.region.hi) piece.now.ways.items }
    requires of_piece { IsWithin piece.now.region.lo piece.now.region.hi idx.now }
    requires of_source { IsWithin from.now.region.lo from.now.region.hi (read_at piece.now idx.now) }
    requires block { IsBlock from.now bytes.now }
    ensures { result ≡ buffer_place from.now (read_at piece.now idx.now) }
{
    place(&from.dims, &read_from(piece, &from.region, idx))
}

/// The place in a block of an index.
pub(crate) fn block_place(block: &Block, bytes: &[u8], idx: &Dims) -> u64
    requires within { IsWithin block.now.region.lo block.now.region.hi idx.now }
    requires block { IsBlock block.now bytes.now }
    ensures { result ≡ buffer_place block.now idx.now }
{
    place(&block.dims, &difference(idx, &block.region.lo))
}
