//! Runs of elements.
ghost use Rattle.std.specs.Prelude.{◌≡◌, ◌^◌, ◌<◌, ◌≤◌, ◌&&◌, ◌==◌, nat_le, length};
ghost use Rattle.cu_shape.specs.Index.{IsInside, differences};
ghost use Rattle.cu_print.specs.Runs.{run_end_on, ends, IsChunkRun};

use cu_grid::{Grid, Region};
use cu_shape::Dims;

/// The longest run that begins at this index: along the last axis to the chunk's edge, and along an axis before it where the
/// run takes all of each later axis.
pub(crate) fn run_from(grid: &Grid, first: &Dims) -> Region
    requires { IsInside grid.now.shape first.now }
    ensures lo { result.lo ≡ first.now }
    ensures hi { result.hi ≡ ends grid.now.shape grid.now.chunk first.now }
    ensures run { IsChunkRun grid.now result.lo result.hi }
{
    let shape = grid.shape();
    let chunk = grid.chunk();
    let mut hi = *shape;
    let mut are_whole = true;
    for axis in (0..shape.rank()).rev() {
        let end = end_on(are_whole, shape.at(axis), chunk.at(axis), first.at(axis));
        hi.put(axis, end);
        are_whole = is_whole(are_whole, shape.at(axis), chunk.at(axis), first.at(axis));
    }
    Region { lo: *first, hi }
}

/// The end of a run on an axis of this size: the chunk's edge where all later axes are whole, and else the next index.
fn end_on(are_whole: bool, size: u64, chunk: u64, first: u64) -> u64
    requires chunk { 0 < chunk }
    requires small { chunk ≤ 2 ^ 40 }
    requires size { size ≤ 2 ^ 56 }
    requires inside { first < size }
    ensures { result ≡ run_end_on are_whole size chunk first }
{
    if are_whole {
        (first - first % chunk + chunk).min(size)
    } else {
        first + 1
    }
}

/// Whether this axis and all later ones are whole: the index is the first, and one chunk has all of the axis.
fn is_whole(are_whole: bool, size: u64, chunk: u64, first: u64) -> bool
    ensures { result ≡ (are_whole && (first == 0) && nat_le size chunk) }
{
    are_whole && first == 0 && size <= chunk
}

/// The sizes of a region.
pub(crate) fn extents(region: &Region) -> Dims
    requires { length region.now.hi ≡ length region.now.lo }
    ensures { result ≡ differences region.now.hi region.now.lo }
{
    let mut sizes = region.hi;
    for axis in 0..region.lo.rank() {
        sizes.put(axis, region.hi.at(axis).saturating_sub(region.lo.at(axis)));
    }
    sizes
}
