//! How the axes of a view's source are read.
ghost use Rattle.std.specs.Prelude.{◌≡◌, ◌≢◌, ◌+◌, ◌-◌, ◌<◌, ◌≤◌, ◌==◌, [], nat_lt, ℕ, List, length, slice_index, slice_index_or, if◌then◌else◌};
ghost use Rattle.cu_shape.specs.Index.{product, index_at, IsInside};
ghost use Rattle.cu_grid.specs.Counts.{IsRegion};
ghost use Rattle.cu_origin.specs.Fits.{without_ones};
ghost use Rattle.cu_origin.specs.Pull.{counts_of_runs, has_axis};
ghost use Rattle.cu_view_box.specs.Piece.{count_along, IsWayOver};
ghost use Rattle.cu_view_box.specs.Way.{read_by};
ghost use Rattle.cu_view_box.specs.declared.way.Way.TheVariants.{Fixed, Up, Down};
ghost use Rattle.cu_view.specs.Boxes.{first_on, source_of, index_read, no_run, run_way, longer_before, IsAlong};
ghost use Rattle.cu_view.specs.Pieces.{turn_on, ranges_of, pieces_of, number_at};
ghost use Rattle.cu_view.specs.View.{IsView};

use crate::boxes::{ranges, turn};
use crate::origins::{axis_of, counts_of_runs, has_axis};
use cu_grid::Region;
use cu_origin::{Axes, Pull};
use cu_shape::{Dims, Run, index_of};
use cu_view_box::Way;

/// How a piece reads an axis of its source, by the piece's number and its box.
pub(crate) fn way_on(
    pull: &Pull,
    sources: &[Dims],
    shape: &Dims,
    number: u64,
    region: &Region,
    axis: u32,
) -> Way
    requires view { IsView pull.now sources.now shape.now }
    requires number { number < pieces_of pull.now sources.now shape.now }
    requires region { IsRegion shape.now region.now.lo region.now.hi }
    requires first { (d : ℕ) → d < length shape.now → slice_index region.now.lo d ≡ first_on pull.now sources.now shape.now number d }
    requires axis { axis < length (slice_index_or sources.now (source_of pull.now number) []) }
    requires few { axis < 6 }
    ensures over { IsWayOver region.now.lo region.now.hi result }
    ensures reads { (idx : List ℕ) → IsInside shape.now idx → number_at pull.now sources.now shape.now idx ≡ number
        → read_by result (count_along region.now.lo idx result) ≡ slice_index (index_read pull.now sources.now shape.now idx) axis }
{
    match pull {
        Pull::Slice { runs, .. } => sliced_way(runs.as_slice(), shape, axis),
        Pull::Permute { axes } => along(axis_of(axes.as_slice(), axis)),
        Pull::Stack { axis: new } => along(beside(axis, *new)),
        Pull::Flip { axes } => flipped_way(*axes, shape, axis),
        Pull::Roll { shifts } => rolled_way(shifts.as_slice(), shape, number, axis),
        Pull::Broadcast => broadcast_way(&sources[0], shape, axis),
        Pull::Concat { .. } => along(axis),
        Pull::Triangle { .. } => along(axis),
        _ => Way::Fixed(0),
    }
}

/// The index of the source moves with that of the result.
fn along(axis: u32) -> Way
    ensures { result ≡ Up axis 0 1 }
{
    Way::Up {
        axis,
        first: 0,
        step: 1,
    }
}

/// The axis of the result that an axis of a source is, beside a new one.
fn beside(axis: u32, new: u32) -> u32
    requires { axis < 6 }
    ensures { result ≡ (if nat_lt axis new then axis else axis + 1) }
{
    if axis < new { axis } else { axis + 1 }
}

/// An axis of an array that is turned round along some axes.
fn flipped_way(axes: Axes, shape: &Dims, axis: u32) -> Way
    requires { axis < length shape.now }
    ensures { result ≡ (if has_axis axes axis then Down axis (slice_index shape.now axis - 1) 1 else Up axis 0 1) }
{
    let _short = shape.rank();
    if has_axis(axes, axis) {
        Way::Down {
            axis,
            first: shape.at(axis).saturating_sub(1),
            step: 1,
        }
    } else {
        along(axis)
    }
}

/// An axis of an array that is broadcast: one of size 1 is read at 0.
fn broadcast_way(source: &Dims, shape: &Dims, axis: u32) -> Way
    requires axis { axis < length source.now }
    requires ranks { length source.now ≤ length shape.now }
    ensures { result ≡ (if slice_index source.now axis == 1 then Fixed 0 else Up (length shape.now - length source.now + axis) 0 1) }
{
    if source.at(axis) == 1 {
        Way::Fixed(0)
    } else {
        along(shape.rank() - source.rank() + axis)
    }
}

/// An axis of an array that is rolled, in the piece with this number: what came round is read from the axis' end.
fn rolled_way(shifts: &[i64], shape: &Dims, number: u64, axis: u32) -> Way
    requires ranks { length shifts.now ≡ length shape.now }
    requires number { number < product (ranges_of shifts.now shape.now) }
    requires axis { axis < length shape.now }
    ensures { result ≡ Up axis (if slice_index (index_at (ranges_of shifts.now shape.now) number) axis == 0 then 0 else slice_index shape.now axis - turn_on shifts.now shape.now axis) 1 }
{
    let chosen = index_of(&ranges(shifts, shape), number);
    let size = shape.at(axis);
    let first = if chosen.at(axis) == 0 {
        0
    } else {
        size - turn(shifts[axis as usize], size)
    };
    Way::Up {
        axis,
        first,
        step: 1,
    }
}

/// An axis of an array that is sliced: it moves along the axis of the result that has the run's indices.
fn sliced_way(runs: &[Run], shape: &Dims, axis: u32) -> Way
    requires short { length runs.now ≤ 6 }
    requires axis { axis < length runs.now }
    requires sizes { without_ones shape.now ≡ without_ones (counts_of_runs runs.now) }
    ensures one { (slice_index_or runs.now axis no_run).count ≡ 1 → result ≡ Fixed (slice_index_or runs.now axis no_run).first }
    ensures longer { (slice_index_or runs.now axis no_run).count ≢ 1 → (a : ℕ) × IsAlong shape.now (counts_of_runs runs.now) axis a
        × (result ≡ run_way (slice_index_or runs.now axis no_run) a) }
{
    let run = runs[axis as usize];
    let (first, step, count) = (run.first, run.step, run.count);
    if count == 1 {
        return Way::Fixed(first);
    }
    let along = longer_axis(shape, longer_before(&counts_of_runs(runs), axis));
    run_way(first, step, count, along)
}

/// How a run of any count but 1 is read along an axis of the result; one of no indices isn't read.
fn run_way(first: u64, step: i64, count: u64, axis: u32) -> Way
    ensures { result ≡ run_way (record { first = first; step = step; count = count }) axis }
{
    if count == 0 {
        return along(axis);
    }
    if step == 0 {
        return Way::Fixed(first);
    }
    let distance = step.unsigned_abs();
    if step > 0 {
        Way::Up {
            axis,
            first,
            step: distance,
        }
    } else {
        downward(axis, first, distance)
    }
}

/// The indices from `first` on downward.
fn downward(axis: u32, first: u64, step: u64) -> Way
    ensures { result ≡ Down axis first step }
{
    Way::Down { axis, first, step }
}

/// How many axes before this one have another size than 1.
fn longer_before(sizes: &Dims, axis: u32) -> u32
    requires { axis ≤ length sizes.now }
    ensures value { result ≡ longer_before sizes.now axis }
    ensures within { result ≤ axis }
{
    let mut longer = 0;
    for before in 0..axis {
        if sizes.at(before) != 1 {
            longer += 1;
        }
    }
    longer
}

/// The axis of another size than 1 that has `place` such axes before it.
fn longer_axis(sizes: &Dims, place: u32) -> u32
    requires { place < longer_before sizes.now (length sizes.now) }
    ensures below { result < length sizes.now }
    ensures longer { slice_index sizes.now result ≢ 1 }
    ensures same { longer_before sizes.now result ≡ place }
{
    let mut left = place;
    for axis in 0..sizes.rank() {
        if sizes.at(axis) != 1 {
            if left == 0 {
                return axis;
            }
            left -= 1;
        }
    }
    0
}
