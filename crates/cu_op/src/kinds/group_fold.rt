//! The regions that a fold by labels reads.
ghost use Rattle.std.specs.Prelude.{◌≡◌, ◌^◌, ◌*◌, ◌<◌, ◌∷◌, [], length, slice_index};
ghost use Rattle.cu_op.specs.Arrays.{grid_at};
ghost use Rattle.cu_op.specs.Grouping.{end_place_of, first_place_of, first_place, grouped_walk, labels_walk, IsPartRegion};

use crate::layout::{ArrayInfo, grid_of};
use crate::walks::Walk;
use cu_grid::{Grid, Region};
use cu_shape::Dims;

/// The region of the source.
pub(crate) fn grouped_walk(arrays: &[ArrayInfo], axis: u32, source: u32, region: &Region) -> Walk
    requires source { source < length arrays.now }
    requires region { IsPartRegion (grid_at arrays.now source) axis region.now.lo region.now.hi }
    ensures { result ≡ grouped_walk (grid_at arrays.now source) axis source region.now.lo region.now.hi }
{
    let grid = grid_of(arrays, source);
    let (first, end) = part_bounds(&grid, axis, region);
    let rank = grid.shape().rank();
    Walk {
        array: source,
        region: Region {
            lo: region.lo.first(rank).changed(axis, first),
            hi: region.hi.first(rank).changed(axis, end),
        },
    }
}

/// The region of the labels.
pub(crate) fn labels_walk(
    arrays: &[ArrayInfo],
    axis: u32,
    source: u32,
    labels: u32,
    region: &Region,
) -> Walk
    requires source { source < length arrays.now }
    requires region { IsPartRegion (grid_at arrays.now source) axis region.now.lo region.now.hi }
    ensures { result ≡ labels_walk (grid_at arrays.now source) axis labels region.now.lo region.now.hi }
{
    let grid = grid_of(arrays, source);
    let (first, end) = part_bounds(&grid, axis, region);
    Walk {
        array: labels,
        region: Region {
            lo: single(first),
            hi: single(end),
        },
    }
}

/// The places on the axis that the parts of a region of the result have: the first, and one past the last.
fn part_bounds(grid: &Grid, axis: u32, region: &Region) -> (u64, u64)
    requires { IsPartRegion grid.now axis region.now.lo region.now.hi }
    ensures first { result.0 ≡ first_place_of grid.now axis region.now.lo }
    ensures end { result.1 ≡ end_place_of grid.now axis region.now.hi }
{
    let rank = grid.shape().rank();
    let first = first_place(grid, axis, region.lo.at_or(rank, 0));
    let end = first_place(grid, axis, region.hi.at_or(rank, 1));
    (first, end)
}

/// The first place on the axis of a part, and the axis' size behind the last.
fn first_place(grid: &Grid, axis: u32, part: u64) -> u64
    requires along { axis < length grid.now.shape }
    requires small { part * slice_index grid.now.chunk axis < 2 ^ 64 }
    ensures { result ≡ first_place grid.now axis part }
{
    grid.shape().at(axis).min(part * grid.chunk().at(axis))
}

/// A list of one number.
fn single(number: u64) -> Dims
    ensures { result ≡ number ∷ [] }
{
    let mut numbers = Dims::default();
    numbers.push(number);
    numbers
}
