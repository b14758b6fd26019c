//! The regions from which partial results are made.
ghost use Rattle.std.specs.Prelude.{◌≡◌, ◌<◌, ◌≤◌, ◌^◌, ◌*◌, ◌+◌, length, map, pred, suc, true};
ghost use Rattle.cu_shape.specs.Index.{IsInside, product};
ghost use Rattle.cu_shape.specs.Counts.{at_least_one};
ghost use Rattle.cu_reduce.specs.Groups.{groups_of, group_counts, group_lo, group_hi, group_of};
ghost use Rattle.cu_op.specs.Arrays.{grid_at};
ghost use Rattle.cu_op.specs.Partial.{is_reduced, AreGroupSizes, count_on, start_on, end_on, merge_groups, partial_grid, IsSqueezed};
ghost use Rattle.cu_op.specs.Reductions.{partial_walk};

use crate::layout::{ArrayInfo, grid_of};
use crate::walks::Walk;
use cu_grid::Region;
use cu_origin::Axes;
use cu_shape::{Dims, index_of, place};

/// The axes that a reduction goes over.
#[derive(Clone, Copy)]
pub(crate) enum GroupedAxes {
    /// Those of a set.
    Named(Axes),
    /// One axis, or all where none is named.
    Sought(Option<u32>),
}

/// Whether a reduction goes over an axis.
fn is_reduced(reduced: GroupedAxes, axis: u32) -> bool
    requires { axis < 8 }
    ensures { result ≡ is_reduced reduced axis }
{
    match reduced {
        GroupedAxes::Named(axes) => (axes.0 >> axis) & 1 == 1,
        GroupedAxes::Sought(Some(only)) => axis == only,
        GroupedAxes::Sought(None) => true,
    }
}

/// Of a source that is reduced a chunk at a time the region from which a region of the result is made.
pub(crate) fn chunk_walk(
    arrays: &[ArrayInfo],
    reduced: GroupedAxes,
    source: u32,
    out: u32,
    region: &Region,
) -> Walk
    requires source { source < length arrays.now }
    requires out { out < length arrays.now }
    requires result { IsSqueezed (partial_grid (groups_of (is_reduced reduced) (grid_at arrays.now source).chunk) (grid_at arrays.now source)) (grid_at arrays.now out) }
    requires first { IsInside (grid_at arrays.now out).shape region.now.lo }
    requires last { IsInside (grid_at arrays.now out).shape (map pred region.now.hi) }
    ensures { result ≡ partial_walk arrays.now (groups_of (is_reduced reduced) (grid_at arrays.now source).chunk) source out region.now.lo region.now.hi }
{
    let grid = grid_of(arrays, source);
    let result = grid_of(arrays, out);
    Walk {
        array: source,
        region: group_region(reduced, grid.chunk(), grid.shape(), result.shape(), region),
    }
}

/// Of partial results that are reduced in groups along an axis the region from which a region of the result is made.
pub(crate) fn merge_walk(
    arrays: &[ArrayInfo],
    axis: u32,
    group: u32,
    source: u32,
    out: u32,
    region: &Region,
) -> Walk
    requires source { source < length arrays.now }
    requires out { out < length arrays.now }
    requires some { 0 < group }
    requires few { group ≤ 65536 }
    requires result { IsSqueezed (partial_grid (merge_groups axis group (grid_at arrays.now source)) (grid_at arrays.now source)) (grid_at arrays.now out) }
    requires first { IsInside (grid_at arrays.now out).shape region.now.lo }
    requires last { IsInside (grid_at arrays.now out).shape (map pred region.now.hi) }
    ensures { result ≡ partial_walk arrays.now (merge_groups axis group (grid_at arrays.now source)) source out region.now.lo region.now.hi }
{
    let grid = grid_of(arrays, source);
    let result = grid_of(arrays, out);
    let sizes = grid.shape().filled(u64::from(group));
    Walk {
        array: source,
        region: group_region(
            GroupedAxes::Sought(Some(axis)),
            &sizes,
            grid.shape(),
            result.shape(),
            region,
        ),
    }
}

/// The region of a source from which a region of the result is made.
fn group_region(
    reduced: GroupedAxes,
    sizes: &Dims,
    shape: &Dims,
    made: &Dims,
    region: &Region,
) -> Region
    requires sizes { AreGroupSizes sizes.now shape.now }
    requires elements { product (at_least_one shape.now) ≤ 2 ^ 56 }
    requires same { product (group_counts (groups_of (is_reduced reduced) sizes.now) shape.now) ≡ product made.now }
    requires few { product made.now < 2 ^ 64 }
    requires first { IsInside made.now region.now.lo }
    requires last { IsInside made.now (map pred region.now.hi) }
    ensures lo { result.lo ≡ group_lo (groups_of (is_reduced reduced) sizes.now) (group_of (groups_of (is_reduced reduced) sizes.now) shape.now made.now region.now.lo) }
    ensures hi { result.hi ≡ group_hi (groups_of (is_reduced reduced) sizes.now) shape.now (map suc (group_of (groups_of (is_reduced reduced) sizes.now) shape.now made.now (map pred region.now.hi))) }
{
    let counts = group_counts(reduced, sizes, shape);
    let first = index_of(&counts, place(made, &region.lo));
    let last = index_of(&counts, place(made, &region.last()));
    Region {
        lo: group_start(reduced, sizes, shape, &first),
        hi: group_end(reduced, sizes, shape, &last),
    }
}

/// How many groups each axis has.
fn group_counts(reduced: GroupedAxes, sizes: &Dims, shape: &Dims) -> Dims
    requires { AreGroupSizes sizes.now shape.now }
    ensures { result ≡ group_counts (groups_of (is_reduced reduced) sizes.now) shape.now }
{
    let mut counts = *shape;
    for axis in 0..shape.rank() {
        counts.put(
            axis,
            count_on(is_reduced(reduced, axis), sizes.at(axis), shape.at(axis)),
        );
    }
    counts
}

/// How many groups an axis of size `n` has: where it is reduced at least one.
fn count_on(is_reduced: bool, size: u64, n: u64) -> u64
    requires { 0 < size }
    ensures { result ≡ count_on is_reduced size n }
{
    if is_reduced {
        n.div_ceil(size).max(1)
    } else {
        n
    }
}

/// The first index of a group.
fn group_start(reduced: GroupedAxes, sizes: &Dims, shape: &Dims, idx: &Dims) -> Dims
    requires sizes { AreGroupSizes sizes.now shape.now }
    requires elements { product (at_least_one shape.now) ≤ 2 ^ 56 }
    requires inside { IsInside (group_counts (groups_of (is_reduced reduced) sizes.now) shape.now) idx.now }
    ensures { result ≡ group_lo (groups_of (is_reduced reduced) sizes.now) idx.now }
{
    let mut lo = *shape;
    for axis in 0..shape.rank() {
        let group = idx.at(axis);
        lo.put(
            axis,
            start_on(is_reduced(reduced, axis), sizes.at(axis), group),
        );
    }
    lo
}

/// The first index on an axis of a group.
fn start_on(is_reduced: bool, size: u64, group: u64) -> u64
    requires { is_reduced ≡ true → group * size < 2 ^ 64 }
    ensures { result ≡ start_on is_reduced size group }
{
    if is_reduced { group * size } else { group }
}

/// One past the last index of a group.
fn group_end(reduced: GroupedAxes, sizes: &Dims, shape: &Dims, idx: &Dims) -> Dims
    requires sizes { AreGroupSizes sizes.now shape.now }
    requires elements { product (at_least_one shape.now) ≤ 2 ^ 56 }
    requires inside { IsInside (group_counts (groups_of (is_reduced reduced) sizes.now) shape.now) idx.now }
    ensures { result ≡ group_hi (groups_of (is_reduced reduced) sizes.now) shape.now (map suc idx.now) }
{
    let mut hi = *shape;
    for axis in 0..shape.rank() {
        let group = idx.at(axis);
        hi.put(
            axis,
            end_on(
                is_reduced(reduced, axis),
                sizes.at(axis),
                shape.at(axis),
                group,
            ),
        );
    }
    hi
}

/// One past the last index of a group on an axis of size `n`, with which the last group ends.
fn end_on(is_reduced: bool, size: u64, n: u64, group: u64) -> u64
    requires next { group + 1 < 2 ^ 64 }
    requires small { is_reduced ≡ true → (group + 1) * size < 2 ^ 64 }
    ensures { result ≡ end_on is_reduced size n (group + 1) }
{
    if is_reduced {
        n.min((group + 1) * size)
    } else {
        group + 1
    }
}
