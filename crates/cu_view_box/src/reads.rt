//! The indices of a source that a piece reads.
ghost use Rattle.std.specs.Prelude.{◌≡◌, ◌<◌, ◌^◌, ◌-◌, ℕ, List, All, length, slice_index};
ghost use Rattle.cu_shape.specs.Index.{differences, IsInside};
ghost use Rattle.cu_grid.specs.Counts.{IsRegion, IsWithin};
ghost use Rattle.cu_view_box.specs.Piece.{read_at, IsWayOver, count_along};
ghost use Rattle.cu_view_box.specs.Way.{read_by};

use crate::piece::Piece;
use crate::way::Way;
use cu_grid::Region;
use cu_shape::Dims;

/// The index that a way reads at an index of its box.
fn read_on(way: &Way, base: &Region, idx: &Dims) -> u64
    requires way { IsWayOver base.now.lo base.now.hi way.now }
    requires of_base { IsWithin base.now.lo base.now.hi idx.now }
    requires small { read_by way.now (count_along base.now.lo idx.now way.now) < 2 ^ 64 }
    ensures { result ≡ read_by way.now (count_along base.now.lo idx.now way.now) }
{
    match *way {
        Way::Fixed(index) => index,
        Way::Up { axis, first, step } => first + (idx.at(axis) - base.lo.at(axis)) * step,
        Way::Down { axis, first, step } => first - (idx.at(axis) - base.lo.at(axis)) * step,
    }
}

/// The index of its source that a piece reads at an index of its box, counted from the first index of a region that holds it.
pub(crate) fn read_from(piece: &Piece, region: &Region, idx: &Dims) -> Dims
    requires ways { All (IsWayOver piece.now.region.lo piece.now.region.hi) piece.now.ways.items }
    requires of_piece { IsWithin piece.now.region.lo piece.now.region.hi idx.now }
    requires of_region { IsWithin region.now.lo region.now.hi (read_at piece.now idx.now) }
    ensures { result ≡ differences (read_at piece.now idx.now) region.now.lo }
{
    let mut read = region.lo;
    for axis in 0..region.lo.rank() {
        // What is read lies below it, and so fits.
        let _end = region.hi.at(axis);
        let index = read_on(&piece.ways[axis as usize], &piece.region, idx);
        read.put(axis, index - region.lo.at(axis));
    }
    read
}

/// A region of a piece's source, of this shape, that holds all that the piece reads over a part of its box that isn't empty: on
/// each axis from the lesser to the greater of what is read at the part's two ends.
pub fn read_hull(piece: &Piece, part: &Region, source: &Dims) -> Region
    requires ways { All (IsWayOver piece.now.region.lo piece.now.region.hi) piece.now.ways.items }
    requires some { IsWithin part.now.lo part.now.hi part.now.lo }
    requires of_piece { (idx : List ℕ) → IsWithin part.now.lo part.now.hi idx → IsWithin piece.now.region.lo piece.now.region.hi idx }
    requires inside { (idx : List ℕ) → IsWithin part.now.lo part.now.hi idx → IsInside source.now (read_at piece.now idx) }
    ensures holds { (idx : List ℕ) → IsWithin part.now.lo part.now.hi idx → IsWithin result.lo result.hi (read_at piece.now idx) }
    ensures region { IsRegion source.now result.lo result.hi }
{
    let last = last_index(part);
    let mut hull = Region {
        lo: *source,
        hi: *source,
    };
    for axis in 0..source.rank() {
        let size = source.at(axis);
        let way = &piece.ways[axis as usize];
        let first = read_on(way, &piece.region, &part.lo);
        let end = read_on(way, &piece.region, &last);
        hull.lo.put(axis, first.min(end));
        hull.hi.put(axis, size.min(first.max(end) + 1));
    }
    hull
}

/// The last index of a region that isn't empty.
pub(crate) fn last_index(region: &Region) -> Dims
    requires some { IsWithin region.now.lo region.now.hi region.now.lo }
    ensures last { (k : ℕ) → k < length region.now.lo → slice_index result k ≡ slice_index region.now.hi k - 1 }
    ensures within { IsWithin region.now.lo region.now.hi result }
{
    let mut last = region.hi;
    for axis in 0..region.hi.rank() {
        last.put(axis, region.hi.at(axis) - 1);
    }
    last
}
