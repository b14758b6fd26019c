ghost use Rattle.std.specs.Prelude.{◌≡◌, ◌↔◌, ℕ, List, length, map, max, min, pred};
ghost use Rattle.cu_shape.specs.Index.{IsInside, axis_by_axis, differences};
ghost use Rattle.cu_grid.specs.Counts.{chunk_lo, chunk_hi, IsRegion, IsWithin};
ghost use Rattle.cu_grid.specs.Grid.{IsGrid, IsCoordinate};

use cu_shape::{Dims, difference, greater, smaller};

/// A box of indices: on each axis from `lo` to below `hi`.
#[derive(Clone, Copy, PartialEq, Eq, Debug)]
pub struct Region {
    /// The first index on each axis.
    pub lo: Dims,
    /// One past the last index on each axis.
    pub hi: Dims,
}

impl Region {
    /// All indices of an array of this shape.
    pub fn whole(shape: &Dims) -> Region
        ensures lo { result.lo ≡ map (λ n. 0) shape.now }
        ensures hi { result.hi ≡ shape.now }
        ensures inside { IsRegion shape.now result.lo result.hi }
        ensures exactly { (idx : List ℕ) → IsWithin result.lo result.hi idx ↔ IsInside shape.now idx }
    {
        Region {
            lo: shape.filled(0),
            hi: *shape,
        }
    }

    /// How many indices it has on each axis, 0 where it ends before it begins.
    pub fn sizes(&self) -> Dims
        requires { length self.now.lo ≡ length self.now.hi }
        ensures { result ≡ differences self.now.hi self.now.lo }
    {
        difference(&self.hi, &self.lo)
    }

    /// The last index, where it has an index; 0 on an axis that ends at 0.
    pub fn last(&self) -> Dims
        ensures { result ≡ map pred self.now.hi }
    {
        let mut last = self.hi;
        for axis in 0..self.hi.rank() {
            last.put(axis, self.hi.at(axis).saturating_sub(1));
        }
        last
    }

    /// The indices that another region has too.
    pub fn meet(&self, other: &Region) -> Region
        requires ranks { length self.now.hi ≡ length self.now.lo }
        requires other_lo { length other.now.lo ≡ length self.now.lo }
        requires other_hi { length other.now.hi ≡ length self.now.lo }
        ensures lo { result.lo ≡ axis_by_axis max self.now.lo other.now.lo }
        ensures hi { result.hi ≡ axis_by_axis min self.now.hi other.now.hi }
        ensures exactly { (idx : List ℕ) → IsWithin result.lo result.hi idx
            ↔ (IsWithin self.now.lo self.now.hi idx × IsWithin other.now.lo other.now.hi idx) }
    {
        Region {
            lo: greater(&self.lo, &other.lo),
            hi: smaller(&self.hi, &other.hi),
        }
    }
}

/// The indices of a chunk; at the edge it ends with the array.
pub(crate) fn region_of_chunk(shape: &Dims, chunk: &Dims, coord: &Dims) -> Region
    requires grid { IsGrid (record { shape = shape.now; chunk = chunk.now }) }
    requires coordinate { IsCoordinate (record { shape = shape.now; chunk = chunk.now }) coord.now }
    ensures lo { result.lo ≡ chunk_lo chunk.now coord.now }
    ensures hi { result.hi ≡ chunk_hi shape.now chunk.now coord.now }
    ensures inside { IsRegion shape.now result.lo result.hi }
{
    let mut lo = *coord;
    let mut hi = *coord;
    for axis in 0..shape.rank() {
        let size = chunk.at(axis);
        let first = coord.at(axis) * size;
        lo.put(axis, first);
        hi.put(axis, (first + size).min(shape.at(axis)));
    }
    Region { lo, hi }
}
