//! The elements of a reshape that come from a block of its source.
ghost use Rattle.std.specs.Prelude.{◌≡◌, ◌<◌, ◌≤◌, ◌^◌, ℕ, List, length};
ghost use Rattle.cu_num.specs.Element.{bytes_at, element_at, element_bytes};
ghost use Rattle.cu_num.specs.declared.layout.Endian.TheVariants.{Little};
ghost use Rattle.cu_shape.specs.Index.{product};
ghost use Rattle.cu_grid.specs.Counts.{IsRegion, IsWithin};
ghost use Rattle.cu_view_box.specs.Block.{IsBlock, AreSpelled, buffer_place};
ghost use Rattle.cu_view_box.specs.Drawn.{IsWholeBehind, IsTogether, IsRunOf};
ghost use Rattle.cu_view_box.specs.Reshape.{reshaped, IsReshape, IsDrawn, AreOthersLeft, IsPart};
ghost use Rattle.cu_view_box.specs.Row.{IsSingle};

use crate::block::Block;
use crate::copy::{block_place, slice_at};
use crate::drawing::{Drawing, draw_run};
use crate::reads::last_index;
use crate::reshape::meets_hull;
use crate::runs::Run;
use crate::shared::is_empty;
use cu_grid::Region;
use cu_shape::{Dims, place};

/// Moves the elements of a block of a reshape's result that come from a block of its source, each as the number that it is, and
/// leaves the others as they are.
pub fn reshape_gather(
    source: &Dims,
    shape: &Dims,
    from: &Block,
    bytes: &[u8],
    to: &Block,
    output: &mut [u8],
)
    requires reshape { IsReshape source.now shape.now }
    requires from_region { IsRegion source.now from.now.region.lo from.now.region.hi }
    requires to_region { IsRegion shape.now to.now.region.lo to.now.region.hi }
    requires from_block { IsBlock from.now bytes.now }
    requires to_block { IsBlock to.now output.old }
    requires spelled { from.now.dtype ≡ to.now.dtype → AreSpelled from.now.dtype bytes.now }
    ensures moved { (idx : List ℕ) → IsWithin to.now.region.lo to.now.region.hi idx → IsWithin from.now.region.lo from.now.region.hi (reshaped source.now shape.now idx)
        → bytes_at to.now.dtype output.new (buffer_place to.now idx)
        ≡ element_bytes Little to.now.dtype (element_at Little from.now.dtype bytes.now (buffer_place from.now (reshaped source.now shape.now idx))) }
    ensures others { (idx : List ℕ) → IsWithin to.now.region.lo to.now.region.hi idx → ¬ IsWithin from.now.region.lo from.now.region.hi (reshaped source.now shape.now idx)
        → bytes_at to.now.dtype output.new (buffer_place to.now idx) ≡ bytes_at to.now.dtype output.old (buffer_place to.now idx) }
{
    if !is_empty(&to.region) {
        let drawing = Drawing {
            source,
            from,
            bytes,
            to,
        };
        gather_part(&drawing, shape, &to.region, 0, run_axis(shape, to), output);
    }
}

/// The first axis behind which a block has each index of an array, both in its region and in its buffer.
fn run_axis(shape: &Dims, block: &Block) -> u32
    requires lo_rank { length block.now.region.lo ≡ length shape.now }
    requires hi_rank { length block.now.region.hi ≡ length shape.now }
    requires dims_rank { length block.now.dims ≡ length shape.now }
    ensures below { result ≤ length shape.now }
    ensures whole { IsWholeBehind shape.now block.now.region block.now.dims result }
{
    for axis in (0..shape.rank()).rev() {
        let size = shape.at(axis);
        if block.region.lo.at(axis) != 0
            || block.region.hi.at(axis) != size
            || block.dims.at(axis) != size
        {
            return axis;
        }
    }
    0
}

/// The same for a part that has one index on each axis before `level`, run by run: behind `end` it has each index of the array.
fn gather_part(
    drawing: &Drawing<'_>,
    shape: &Dims,
    part: &Region,
    level: u32,
    end: u32,
    output: &mut [u8],
)
    requires reshape { IsReshape drawing.now.source.now shape.now }
    requires from_region { IsRegion drawing.now.source.now drawing.now.from.now.region.lo drawing.now.from.now.region.hi }
    requires part { IsPart shape.now part.now drawing.now.to.now }
    requires end { end ≤ length part.now.lo }
    requires single { IsSingle part.now end level }
    requires whole { IsWholeBehind shape.now part.now drawing.now.to.now.dims end }
    requires from_block { IsBlock drawing.now.from.now drawing.now.bytes.now }
    requires to_block { IsBlock drawing.now.to.now output.old }
    requires spelled { drawing.now.from.now.dtype ≡ drawing.now.to.now.dtype → AreSpelled drawing.now.from.now.dtype drawing.now.bytes.now }
    ensures drawn { IsDrawn (reshaped drawing.now.source.now shape.now) part.now drawing.now.from.now drawing.now.bytes.now drawing.now.to.now output.new }
    ensures others { AreOthersLeft (reshaped drawing.now.source.now shape.now) part.now drawing.now.from.now drawing.now.to.now output.old output.new }
{
    if !meets_hull(drawing.source, shape, part, &drawing.from.region) {
        return;
    }
    if level >= end {
        gather_run(drawing, shape, part, output);
        return;
    }
    for index in part.lo.at(level)..part.hi.at(level) {
        let slice = slice_at(part, level, index);
        gather_part(drawing, shape, &slice, level + 1, end, output);
    }
}

/// The same for a part whose elements stand together.
fn gather_run(drawing: &Drawing<'_>, shape: &Dims, part: &Region, output: &mut [u8])
    requires reshape { IsReshape drawing.now.source.now shape.now }
    requires from_region { IsRegion drawing.now.source.now drawing.now.from.now.region.lo drawing.now.from.now.region.hi }
    requires part { IsPart shape.now part.now drawing.now.to.now }
    requires together { IsTogether shape.now part.now drawing.now.to.now.dims }
    requires from_block { IsBlock drawing.now.from.now drawing.now.bytes.now }
    requires to_block { IsBlock drawing.now.to.now output.old }
    requires spelled { drawing.now.from.now.dtype ≡ drawing.now.to.now.dtype → AreSpelled drawing.now.from.now.dtype drawing.now.bytes.now }
    ensures drawn { IsDrawn (reshaped drawing.now.source.now shape.now) part.now drawing.now.from.now drawing.now.bytes.now drawing.now.to.now output.new }
    ensures others { AreOthersLeft (reshaped drawing.now.source.now shape.now) part.now drawing.now.from.now drawing.now.to.now output.old output.new }
{
    let run = run_of(shape, part, drawing.to, output);
    draw_run(drawing, run, output);
}

/// A part of a block whose elements stand together, as a run.
fn run_of(shape: &Dims, part: &Region, to: &Block, output: &[u8]) -> Run
    requires small { product shape.now < 2 ^ 64 }
    requires part { IsPart shape.now part.now to.now }
    requires together { IsTogether shape.now part.now to.now.dims }
    requires to_block { IsBlock to.now output.now }
    ensures { IsRunOf shape.now part.now to.now result }
{
    // The places of the buffer lie below it, and so fit.
    let _bytes = output.len();
    Run {
        first: place(shape, &part.lo),
        end: place(shape, &last_index(part)) + 1,
        at: block_place(to, output, &part.lo),
    }
}
