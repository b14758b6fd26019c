//! Parts of a box that are copied along strides.
ghost use Rattle.std.specs.Prelude.{◌≡◌, length};
ghost use Rattle.cu_view_box.specs.Along.{AreAxesOf, IsStrideTo};
ghost use Rattle.cu_view_box.specs.Block.{IsBlock, IsMove, IsMoved, IsKept, AreSpelled, buffer_place};
ghost use Rattle.cu_view_box.specs.Piece.{read_at};

use crate::copy::{Copying, block_place, length_of_row, second_of_row, source_place};
use cu_box::{Axis, Start, Stride, copy_strided};
use cu_grid::Region;
use cu_num::{Endian, size};

/// An axis of one index.
pub(crate) const ONE: Axis = Axis {
    count: 1,
    from: Stride::Up(0),
    to: Stride::Up(0),
};

/// Copies what a piece reads over a part of its box between blocks of one type.
pub(crate) fn copy_along(copying: &Copying<'_>, part: &Region, output: &mut [u8])
    requires moves { IsMove copying.now.piece.now part.now copying.now.from.now copying.now.to.now }
    requires from_block { IsBlock copying.now.from.now copying.now.bytes.now }
    requires to_block { IsBlock copying.now.to.now output.old }
    requires same { copying.now.from.now.dtype ≡ copying.now.to.now.dtype }
    requires spelled { AreSpelled copying.now.from.now.dtype copying.now.bytes.now }
    ensures moved { IsMoved copying.now.piece.now part.now copying.now.from.now copying.now.bytes.now copying.now.to.now output.new }
    ensures others { IsKept part.now copying.now.to.now output.old output.new }
{
    let start = Start {
        from: source_place(copying.piece, copying.from, copying.bytes, &part.lo),
        to: block_place(copying.to, output, &part.lo),
    };
    let mut held = [ONE; 6];
    let axes = &mut held[..part.lo.rank() as usize];
    write_axes(copying, part, start, output, axes);
    let size = size(copying.to.dtype);
    copy_strided(size, Endian::Little, axes, start, copying.bytes, output);
}

/// Writes the axes of a part, with the strides from its first index to the next one along each.
fn write_axes(copying: &Copying<'_>, part: &Region, start: Start, output: &[u8], axes: &mut [Axis])
    requires rank { length axes.old ≡ length part.now.lo }
    requires moves { IsMove copying.now.piece.now part.now copying.now.from.now copying.now.to.now }
    requires from_block { IsBlock copying.now.from.now copying.now.bytes.now }
    requires to_block { IsBlock copying.now.to.now output.now }
    requires start_from { start.from ≡ buffer_place copying.now.from.now (read_at copying.now.piece.now part.now.lo) }
    requires start_to { start.to ≡ buffer_place copying.now.to.now part.now.lo }
    ensures rank { length axes.new ≡ length part.now.lo }
    ensures axes { AreAxesOf (λ idx. buffer_place copying.now.from.now (read_at copying.now.piece.now idx)) (λ idx. buffer_place copying.now.to.now idx) part.now axes.new (length part.now.lo) }
{
    for axis in 0..part.lo.rank() {
        let count = length_of_row(part, axis);
        let next = second_of_row(part, axis, count);
        let read = source_place(copying.piece, copying.from, copying.bytes, &next);
        let written = block_place(copying.to, output, &next);
        axes[axis as usize] = Axis {
            count,
            from: stride_to(start.from, read),
            to: stride_to(start.to, written),
        };
    }
}

/// The stride from one place to another.
pub(crate) fn stride_to(first: u64, next: u64) -> Stride
    ensures { IsStrideTo result first next }
{
    if next >= first {
        Stride::Up(next - first)
    } else {
        Stride::Down(first - next)
    }
}
