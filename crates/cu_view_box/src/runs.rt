//! Runs of places of an array in row-major order, and the boxes of indices that are such runs.
ghost use Rattle.std.specs.Prelude.{◌≡◌, ◌↔◌, ◌+◌, ◌<◌, ◌≤◌, ◌^◌, ℕ, List, drop, length, slice_index};
ghost use Rattle.cu_shape.specs.Index.{product, place_of, IsInside};
ghost use Rattle.cu_grid.specs.Counts.{IsWithin};

use cu_grid::Region;
use cu_shape::{Dims, index_of};

/// Elements at places one after another in an array, which stand together in a buffer too.
#[derive(Clone, Copy, Debug)]
pub(crate) struct Run {
    /// The first place in the array.
    pub(crate) first: u64,
    /// One past the last place.
    pub(crate) end: u64,
    /// The place of the first of them in the buffer.
    pub(crate) at: u64,
}

/// A box of indices that stand at places one after another.
#[derive(Clone, Copy, Debug)]
pub(crate) struct Stretch {
    /// The box.
    pub(crate) region: Region,
    /// One past its last place.
    pub(crate) end: u64,
}

/// The largest box whose indices stand at the places from `first` on, up to some place that is at most `end`.
pub(crate) fn stretch_at(dims: &Dims, first: u64, end: u64) -> Stretch
    requires small { product dims.now < 2 ^ 64 }
    requires order { first < end }
    requires inside { end ≤ product dims.now }
    ensures later { first < result.end }
    ensures within { result.end ≤ end }
    ensures exactly { (idx : List ℕ) → IsWithin result.region.lo result.region.hi idx ↔ (IsInside dims.now idx × (first ≤ place_of dims.now idx) × (place_of dims.now idx < result.end)) }
    ensures lo_rank { length result.region.lo ≡ length dims.now }
    ensures hi_rank { length result.region.hi ≡ length dims.now }
{
    let index = index_of(dims, first);
    if dims.rank() == 0 {
        return Stretch {
            region: Region {
                lo: index,
                hi: index,
            },
            end: first + 1,
        };
    }
    let last = axis_of_run(dims, &index, end - first);
    let left = dims.at(last.axis) - index.at(last.axis);
    let count = left.min((end - first) / last.behind);
    Stretch {
        region: Region {
            lo: index,
            hi: box_end(dims, &index, last.axis, count),
        },
        end: first + count * last.behind,
    }
}

/// An axis, and how many elements stand behind one of its indices.
#[derive(Clone, Copy, Debug)]
struct Behind {
    axis: u32,
    behind: u64,
}

/// The first axis behind which an index is 0, and behind one of whose indices are at most so many elements.
fn axis_of_run(dims: &Dims, index: &Dims, most: u64) -> Behind
    requires some { 0 < length dims.now }
    requires inside { IsInside dims.now index.now }
    requires most { 0 < most }
    ensures axis { result.axis < length dims.now }
    ensures behind { result.behind ≡ product (drop (result.axis + 1) dims.now) }
    ensures positive { 0 < result.behind }
    ensures few { result.behind ≤ most }
    ensures zeros { (k : ℕ) → result.axis < k → k < length dims.now → slice_index index.now k ≡ 0 }
{
    let mut behind = 1;
    for axis in (1..dims.rank()).rev() {
        let size = dims.at(axis);
        if index.at(axis) != 0 || behind > most / size {
            return Behind { axis, behind };
        }
        behind *= size;
    }
    Behind { axis: 0, behind }
}

/// The end of a box that begins at an index: one index further on each axis before `axis`, `count` further on it, and the array's
/// end on those behind it.
fn box_end(dims: &Dims, index: &Dims, axis: u32, count: u64) -> Dims
    requires inside { IsInside dims.now index.now }
    requires axis { axis < length dims.now }
    requires count { slice_index index.now axis + count ≤ slice_index dims.now axis }
    ensures rank { length result ≡ length dims.now }
    ensures single { (k : ℕ) → k < axis → slice_index result k ≡ slice_index index.now k + 1 }
    ensures own { slice_index result axis ≡ slice_index index.now axis + count }
    ensures behind { (k : ℕ) → axis < k → k < length dims.now → slice_index result k ≡ slice_index dims.now k }
{
    let mut end = *dims;
    for before in 0..axis {
        // The index lies below it, and so fits.
        let _size = dims.at(before);
        end.put(before, index.at(before) + 1);
    }
    let _size = dims.at(axis);
    end.put(axis, index.at(axis) + count);
    end
}
