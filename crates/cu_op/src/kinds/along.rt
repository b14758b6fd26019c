//! The regions that carries and scans read, which go along one axis.
ghost use Rattle.std.specs.Prelude.{◌≡◌, ℕ, ◌<◌, ◌∷◌, Some, length, pred, slice_index};
ghost use Rattle.cu_op.specs.Along.{carried_room, carried_walks, chunk_on, group_walk};
ghost use Rattle.cu_op.specs.Arrays.{grid_at};

use super::{one_walk, two_walks};
use crate::layout::{ArrayInfo, grid_of};
use crate::memory::chunk_room;
use crate::walks::Walk;
use arrayvec::ArrayVec;
use cu_grid::Region;

/// The regions that a carry reads: of each group in the region the sums before its last place there, and what is carried into the groups.
pub(crate) fn carry_walks(
    axis: u32,
    group: u32,
    sums: u32,
    above: Option<u32>,
    region: &Region,
) -> ArrayVec<Walk, 8>
    requires some { 0 < group }
    requires first { axis < length region.now.lo }
    requires last { axis < length region.now.hi }
    ensures { result.items ≡ group_walk sums axis group (pred (slice_index region.now.hi axis)) region.now.lo region.now.hi ∷ carried_walks above axis group region.now.lo region.now.hi }
{
    let size = u64::from(group);
    let before = region.hi.at(axis).saturating_sub(1);
    with_carried(
        group_walk(sums, axis, size, before, region),
        above,
        axis,
        size,
        region,
    )
}

/// The regions that a scan reads: the source from the first place of a chunk on, and what is carried into the chunks.
pub(crate) fn scan_walks(
    arrays: &[ArrayInfo],
    axis: u32,
    source: u32,
    carry: Option<u32>,
    region: &Region,
) -> ArrayVec<Walk, 8>
    requires source { source < length arrays.now }
    requires along { axis < length (grid_at arrays.now source).shape }
    requires first { axis < length region.now.lo }
    requires last { axis < length region.now.hi }
    ensures { result.items ≡ group_walk source axis (chunk_on (grid_at arrays.now source) axis) (slice_index region.now.hi axis) region.now.lo region.now.hi ∷ carried_walks carry axis (chunk_on (grid_at arrays.now source) axis) region.now.lo region.now.hi }
{
    let grid = grid_of(arrays, source);
    let size = grid.chunk().at(axis);
    let end = region.hi.at(axis);
    with_carried(
        group_walk(source, axis, size, end, region),
        carry,
        axis,
        size,
        region,
    )
}

/// The region from the first place of the group in which a region begins to below `end`.
fn group_walk(array: u32, axis: u32, size: u64, end: u64, region: &Region) -> Walk
    requires some { 0 < size }
    requires first { axis < length region.now.lo }
    requires last { axis < length region.now.hi }
    ensures { result ≡ group_walk array axis size end region.now.lo region.now.hi }
{
    let first = region.lo.at(axis) / size * size;
    Walk {
        array,
        region: Region {
            lo: region.lo.changed(axis, first),
            hi: region.hi.changed(axis, end),
        },
    }
}

/// A region, and that of what is carried into its groups where something is.
fn with_carried(
    walk: Walk,
    carry: Option<u32>,
    axis: u32,
    size: u64,
    region: &Region,
) -> ArrayVec<Walk, 8>
    requires some { 0 < size }
    requires first { axis < length region.now.lo }
    requires last { axis < length region.now.hi }
    ensures { result.items ≡ walk ∷ carried_walks carry axis size region.now.lo region.now.hi }
{
    let Some(array) = carry else {
        return one_walk(walk);
    };
    let first = region.lo.at(axis) / size;
    let last = region.hi.at(axis).saturating_sub(1) / size;
    let carried = Walk {
        array,
        region: Region {
            lo: region.lo.changed(axis, first),
            hi: region.hi.changed(axis, last + 1),
        },
    };
    two_walks(walk, carried)
}

/// The bytes of a chunk of what is carried in, 0 where nothing is.
pub(crate) fn carried_room(arrays: &[ArrayInfo], carry: Option<u32>) -> u64
    requires { (a : ℕ) → carry ≡ Some a → a < length arrays.now }
    ensures room { result ≡ carried_room arrays.now carry }
{
    match carry {
        None => 0,
        Some(array) => chunk_room(arrays, array),
    }
}
