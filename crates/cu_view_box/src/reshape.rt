//! What a reshape reads of its source over regions of its result.
ghost use Rattle.std.specs.Prelude.{◌≡◌, ◌≢◌, ◌<◌, ◌≤◌, ◌+◌, ℕ, List, IsTrue, IfSome, length, slice_index};
ghost use Rattle.std.specs.Bool.{OnTrue, OnFalse};
ghost use Rattle.std.specs.Option.{IfNone};
ghost use Rattle.cu_shape.specs.Index.{IsInside};
ghost use Rattle.cu_grid.specs.Counts.{IsRegion, IsWithin};
ghost use Rattle.cu_view_box.specs.Reshape.{reshaped, IsReshape, IsBetweenUpToDifference, IsMet, MeetsRun};

use crate::copy::slice_at;
use crate::reads::last_index;
use crate::shared::{common, is_empty};
use crate::way::Interval;
use cu_grid::Region;
use cu_shape::{Dims, index_of, place};

/// A region of a reshape's source that holds each index from which an element of the region `out` of the result comes; none
/// where that has no element. Up to the first axis on which the first and the last of these indices differ it is no larger than
/// these two tell, and behind it whole.
pub fn reshape_hull(source: &Dims, shape: &Dims, out: &Region) -> Option<Region>
    requires reshape { IsReshape source.now shape.now }
    requires out { IsRegion shape.now out.now.lo out.now.hi }
    ensures region { IfSome result (λ r. IsRegion source.now r.lo r.hi) }
    ensures holds { IfSome result (λ r. (idx : List ℕ) → IsWithin out.now.lo out.now.hi idx → IsWithin r.lo r.hi (reshaped source.now shape.now idx)) }
    ensures none { IfNone result ((idx : List ℕ) → ¬ IsWithin out.now.lo out.now.hi idx) }
{
    if is_empty(out) {
        return None;
    }
    Some(hull_of_some(source, shape, out))
}

/// The same for a region that isn't empty.
fn hull_of_some(source: &Dims, shape: &Dims, out: &Region) -> Region
    requires reshape { IsReshape source.now shape.now }
    requires some { IsWithin out.now.lo out.now.hi out.now.lo }
    requires inside { (idx : List ℕ) → IsWithin out.now.lo out.now.hi idx → IsInside shape.now idx }
    ensures region { IsRegion source.now result.lo result.hi }
    ensures holds { (idx : List ℕ) → IsWithin out.now.lo out.now.hi idx → IsWithin result.lo result.hi (reshaped source.now shape.now idx) }
    ensures between { (i : List ℕ) → IsWithin result.lo result.hi i
        → (last : List ℕ) × IsWithin out.now.lo out.now.hi last × IsBetweenUpToDifference (reshaped source.now shape.now out.now.lo) (reshaped source.now shape.now last) i }
{
    let first = index_of(source, place(shape, &out.lo));
    let last = index_of(source, place(shape, &last_index(out)));
    let apart = first_apart(&first, &last);
    let mut hull = Region {
        lo: *source,
        hi: *source,
    };
    for axis in 0..source.rank() {
        let size = source.at(axis);
        let ends = ends_on(axis, apart, first.at(axis), last.at(axis), size);
        hull.lo.put(axis, ends.from);
        hull.hi.put(axis, ends.to);
    }
    hull
}

/// The indices on an axis of this size between two that agree on the axes before `apart`: all of them on an axis behind it.
fn ends_on(axis: u32, apart: u32, first: u64, last: u64, size: u64) -> Interval
    requires { last < size }
    ensures before { axis ≤ apart → (result.from ≡ first) × (result.to ≡ last + 1) }
    ensures behind { apart < axis → (result.from ≡ 0) × (result.to ≡ size) }
{
    if axis <= apart {
        Interval {
            from: first,
            to: last + 1,
        }
    } else {
        Interval { from: 0, to: size }
    }
}

/// The first axis on which two indices differ; where they don't, the number of axes.
fn first_apart(a: &Dims, b: &Dims) -> u32
    requires { length b.now ≡ length a.now }
    ensures agree { (k : ℕ) → k < result → slice_index a.now k ≡ slice_index b.now k }
    ensures differ { result < length a.now → slice_index a.now result ≢ slice_index b.now result }
{
    let rank = a.rank();
    for axis in 0..rank {
        if a.at(axis) != b.at(axis) {
            return axis;
        }
    }
    rank
}

/// Whether an element of the region `out` of a reshape's result may come from the region `part` of its source: true wherever one
/// does. It is true only where the part has an index between those from which two elements of a run come, a part of `out` whose elements
/// stand together in row-major order.
pub fn reshape_touches(source: &Dims, shape: &Dims, out: &Region, part: &Region) -> bool
    requires reshape { IsReshape source.now shape.now }
    requires out { IsRegion shape.now out.now.lo out.now.hi }
    requires part { IsRegion source.now part.now.lo part.now.hi }
    ensures some { (idx : List ℕ) → IsWithin out.now.lo out.now.hi idx → IsWithin part.now.lo part.now.hi (reshaped source.now shape.now idx) → IsTrue result }
    ensures only { IsTrue result → MeetsRun source.now shape.now out.now part.now }
{
    if is_empty(out) {
        return false;
    }
    touches_below(source, shape, out, 0, whole_behind(shape, out), part)
}

/// The first axis behind which a region has each index of an array.
fn whole_behind(shape: &Dims, out: &Region) -> u32
    requires lo_rank { length out.now.lo ≡ length shape.now }
    requires hi_rank { length out.now.hi ≡ length shape.now }
    ensures below { result ≤ length shape.now }
    ensures whole { (k : ℕ) → result < k → k < length shape.now → (slice_index out.now.lo k ≡ 0) × (slice_index out.now.hi k ≡ slice_index shape.now k) }
{
    for axis in (0..shape.rank()).rev() {
        if out.lo.at(axis) != 0 || out.hi.at(axis) != shape.at(axis) {
            return axis;
        }
    }
    0
}

/// The same for a region that isn't empty, part by part along the axes from `level` to below `end`. It has one index on each axis
/// before `level`, and behind `end` each index of the array.
fn touches_below(
    source: &Dims,
    shape: &Dims,
    out: &Region,
    level: u32,
    end: u32,
    part: &Region,
) -> bool
    requires reshape { IsReshape source.now shape.now }
    requires some { IsWithin out.now.lo out.now.hi out.now.lo }
    requires inside { (idx : List ℕ) → IsWithin out.now.lo out.now.hi idx → IsInside shape.now idx }
    requires part { IsRegion source.now part.now.lo part.now.hi }
    requires end { end ≤ length out.now.lo }
    requires single { (k : ℕ) → k < level → slice_index out.now.hi k ≡ slice_index out.now.lo k + 1 }
    requires whole { (k : ℕ) → end < k → k < length shape.now → (slice_index out.now.lo k ≡ 0) × (slice_index out.now.hi k ≡ slice_index shape.now k) }
    ensures some { (idx : List ℕ) → IsWithin out.now.lo out.now.hi idx → IsWithin part.now.lo part.now.hi (reshaped source.now shape.now idx) → IsTrue result }
    ensures only { IsTrue result → MeetsRun source.now shape.now out.now part.now }
{
    if !meets_hull(source, shape, out, part) {
        return false;
    }
    if level >= end {
        return true;
    }
    for index in out.lo.at(level)..out.hi.at(level) {
        let slice = slice_at(out, level, index);
        if touches_below(source, shape, &slice, level + 1, end, part) {
            return true;
        }
    }
    false
}

/// Whether the hull of what a region of the result reads shares an index with a region of the source.
pub(crate) fn meets_hull(source: &Dims, shape: &Dims, out: &Region, part: &Region) -> bool
    requires reshape { IsReshape source.now shape.now }
    requires some { IsWithin out.now.lo out.now.hi out.now.lo }
    requires inside { (idx : List ℕ) → IsWithin out.now.lo out.now.hi idx → IsInside shape.now idx }
    requires part { IsRegion source.now part.now.lo part.now.hi }
    ensures none { OnFalse result ((idx : List ℕ) → IsWithin out.now.lo out.now.hi idx → ¬ IsWithin part.now.lo part.now.hi (reshaped source.now shape.now idx)) }
    ensures some { OnTrue result (IsMet source.now shape.now out.now part.now) }
{
    let hull = hull_of_some(source, shape, out);
    !is_empty(&common(&hull, part))
}
