//! Elements of a run of places that come from a block of an array.
ghost use Rattle.std.specs.Prelude.{◌≡◌, ◌↔◌, ◌+◌, ◌-◌, ◌<◌, ◌≤◌, ◌^◌, IsTrue, false, ℕ, List, length};
ghost use Rattle.cu_shape.specs.Index.{product, place_of, IsInside};
ghost use Rattle.cu_grid.specs.Counts.{IsRegion, IsWithin};
ghost use Rattle.cu_view_box.specs.Along.{AreAxesOf};
ghost use Rattle.cu_view_box.specs.Block.{IsBlock, AreSpelled, buffer_place};
ghost use Rattle.cu_view_box.specs.Drawn.{place_in_run, AreDrawn, AreOthersUndrawn, IsPartDrawn, IsPartKept, IsOfRun, IsRunIn};

use crate::along::{ONE, stride_to};
use crate::block::Block;
use crate::copy::{block_place, length_of_row, second_of_row};
use crate::runs::{Run, Stretch, stretch_at};
use crate::shared::{common, is_empty};
use cu_box::{Axis, Start, copy_strided};
use cu_grid::Region;
use cu_num::{Endian, load, save, size};
use cu_shape::{Dims, place};

/// What is drawn: elements of an array of this shape, out of the bytes of a block of it, into a block.
#[derive(Clone, Copy)]
pub(crate) struct Drawing<'a> {
    pub(crate) source: &'a Dims,
    pub(crate) from: &'a Block,
    pub(crate) bytes: &'a [u8],
    pub(crate) to: &'a Block,
}

/// Draws the elements of a run that come from the block, box by box.
pub(crate) fn draw_run(drawing: &Drawing<'_>, run: Run, output: &mut [u8])
    requires small { product drawing.now.source.now < 2 ^ 64 }
    requires from_region { IsRegion drawing.now.source.now drawing.now.from.now.region.lo drawing.now.from.now.region.hi }
    requires from_block { IsBlock drawing.now.from.now drawing.now.bytes.now }
    requires run { IsRunIn drawing.now.source.now drawing.now.to.now run (length output.old) }
    requires spelled { drawing.now.from.now.dtype ≡ drawing.now.to.now.dtype → AreSpelled drawing.now.from.now.dtype drawing.now.bytes.now }
    ensures drawn { AreDrawn drawing.now.source.now drawing.now.from.now drawing.now.bytes.now drawing.now.to.now run run.first run.end output.new }
    ensures others { AreOthersUndrawn drawing.now.source.now drawing.now.from.now drawing.now.to.now run run.first run.end output.old output.new }
{
    let same = drawing.from.dtype == drawing.to.dtype;
    let mut first = run.first;
    while first < run.end {
        let stretch = stretch_at(drawing.source, first, limit(same, first, run.end));
        draw_stretch(drawing, run, same, first, &stretch, output);
        first = stretch.end;
    }
}

/// Where the next box ends at the latest: elements of another type are drawn one by one.
fn limit(same: bool, first: u64, end: u64) -> u64
    requires { first < end }
    ensures later { first < result }
    ensures within { result ≤ end }
    ensures one { same ≡ false → result ≡ first + 1 }
{
    if same { end } else { first + 1 }
}

/// Draws the elements of a box of a run that come from the block.
fn draw_stretch(
    drawing: &Drawing<'_>,
    run: Run,
    same: bool,
    first: u64,
    stretch: &Stretch,
    output: &mut [u8],
)
    requires small { product drawing.now.source.now < 2 ^ 64 }
    requires from_region { IsRegion drawing.now.source.now drawing.now.from.now.region.lo drawing.now.from.now.region.hi }
    requires from_block { IsBlock drawing.now.from.now drawing.now.bytes.now }
    requires run { IsRunIn drawing.now.source.now drawing.now.to.now run (length output.old) }
    requires same { IsTrue same → drawing.now.from.now.dtype ≡ drawing.now.to.now.dtype }
    requires spelled { drawing.now.from.now.dtype ≡ drawing.now.to.now.dtype → AreSpelled drawing.now.from.now.dtype drawing.now.bytes.now }
    requires low { run.first ≤ first }
    requires high { stretch.now.end ≤ run.end }
    requires one { same ≡ false → stretch.now.end ≡ first + 1 }
    requires exactly { (idx : List ℕ) → IsWithin stretch.now.region.lo stretch.now.region.hi idx
        ↔ (IsInside drawing.now.source.now idx × (first ≤ place_of drawing.now.source.now idx) × (place_of drawing.now.source.now idx < stretch.now.end)) }
    requires lo_rank { length stretch.now.region.lo ≡ length drawing.now.source.now }
    requires hi_rank { length stretch.now.region.hi ≡ length drawing.now.source.now }
    ensures drawn { AreDrawn drawing.now.source.now drawing.now.from.now drawing.now.bytes.now drawing.now.to.now run first stretch.now.end output.new }
    ensures others { AreOthersUndrawn drawing.now.source.now drawing.now.from.now drawing.now.to.now run first stretch.now.end output.old output.new }
{
    let part = common(&stretch.region, &drawing.from.region);
    if is_empty(&part) {
        return;
    }
    if same {
        draw_box(drawing, run, &part, output);
    } else {
        draw_number(drawing, run, &part, output);
    }
}

/// Draws the elements of a box that lies in the block, both being of one type.
fn draw_box(drawing: &Drawing<'_>, run: Run, part: &Region, output: &mut [u8])
    requires small { product drawing.now.source.now < 2 ^ 64 }
    requires from_block { IsBlock drawing.now.from.now drawing.now.bytes.now }
    requires run { IsRunIn drawing.now.source.now drawing.now.to.now run (length output.old) }
    requires same { drawing.now.from.now.dtype ≡ drawing.now.to.now.dtype }
    requires spelled { AreSpelled drawing.now.from.now.dtype drawing.now.bytes.now }
    requires some { IsWithin part.now.lo part.now.hi part.now.lo }
    requires part { IsOfRun drawing.now.source.now drawing.now.from.now run part.now }
    ensures drawn { IsPartDrawn drawing.now.source.now drawing.now.from.now drawing.now.bytes.now drawing.now.to.now run part.now output.new }
    ensures others { IsPartKept drawing.now.source.now drawing.now.to.now run part.now output.old output.new }
{
    let start = Start {
        from: block_place(drawing.from, drawing.bytes, &part.lo),
        to: run_place(drawing.source, run, &part.lo),
    };
    let mut held = [ONE; 6];
    let axes = &mut held[..part.lo.rank() as usize];
    write_box_axes(drawing, run, part, start, axes);
    let size = size(drawing.to.dtype);
    copy_strided(size, Endian::Little, axes, start, drawing.bytes, output);
}

/// Writes the axes of a box, with the strides from its first index to the next one along each.
fn write_box_axes(drawing: &Drawing<'_>, run: Run, part: &Region, start: Start, axes: &mut [Axis])
    requires rank { length axes.old ≡ length part.now.lo }
    requires small { product drawing.now.source.now < 2 ^ 64 }
    requires from_block { IsBlock drawing.now.from.now drawing.now.bytes.now }
    requires run { run.at + (run.end - run.first) < 2 ^ 64 }
    requires some { IsWithin part.now.lo part.now.hi part.now.lo }
    requires part { IsOfRun drawing.now.source.now drawing.now.from.now run part.now }
    requires start_from { start.from ≡ buffer_place drawing.now.from.now part.now.lo }
    requires start_to { start.to ≡ place_in_run run (place_of drawing.now.source.now part.now.lo) }
    ensures rank { length axes.new ≡ length part.now.lo }
    ensures axes { AreAxesOf (λ idx. buffer_place drawing.now.from.now idx) (λ idx. place_in_run run (place_of drawing.now.source.now idx)) part.now axes.new (length part.now.lo) }
{
    for axis in 0..part.lo.rank() {
        let count = length_of_row(part, axis);
        let next = second_of_row(part, axis, count);
        let read = block_place(drawing.from, drawing.bytes, &next);
        let written = run_place(drawing.source, run, &next);
        axes[axis as usize] = Axis {
            count,
            from: stride_to(start.from, read),
            to: stride_to(start.to, written),
        };
    }
}

/// Draws the one element of a box that lies in the block, as the number that it is.
fn draw_number(drawing: &Drawing<'_>, run: Run, part: &Region, output: &mut [u8])
    requires small { product drawing.now.source.now < 2 ^ 64 }
    requires from_block { IsBlock drawing.now.from.now drawing.now.bytes.now }
    requires run { IsRunIn drawing.now.source.now drawing.now.to.now run (length output.old) }
    requires some { IsWithin part.now.lo part.now.hi part.now.lo }
    requires one { (idx : List ℕ) → IsWithin part.now.lo part.now.hi idx → idx ≡ part.now.lo }
    requires part { IsOfRun drawing.now.source.now drawing.now.from.now run part.now }
    ensures drawn { IsPartDrawn drawing.now.source.now drawing.now.from.now drawing.now.bytes.now drawing.now.to.now run part.now output.new }
    ensures others { IsPartKept drawing.now.source.now drawing.now.to.now run part.now output.old output.new }
{
    let read = block_place(drawing.from, drawing.bytes, &part.lo);
    let number = load(drawing.from.dtype, drawing.bytes, read as usize);
    let at = run_place(drawing.source, run, &part.lo);
    save(drawing.to.dtype, number, output, at as usize);
}

/// The place in the buffer of a run of an index.
fn run_place(source: &Dims, run: Run, idx: &Dims) -> u64
    requires small { product source.now < 2 ^ 64 }
    requires run { run.at + (run.end - run.first) < 2 ^ 64 }
    requires inside { IsInside source.now idx.now }
    requires low { run.first ≤ place_of source.now idx.now }
    requires high { place_of source.now idx.now < run.end }
    ensures { result ≡ place_in_run run (place_of source.now idx.now) }
{
    run.at + (place(source, idx) - run.first)
}
