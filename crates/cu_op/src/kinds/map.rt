//! The regions that a map reads.
ghost use Rattle.std.specs.Prelude.{◌≡◌, ◌≤◌, All, length, map};
ghost use Rattle.cu_op.specs.Broadcast.{back_as};
ghost use Rattle.cu_op.specs.Kind.Map.{read_walk};
ghost use Rattle.cu_op.specs.Operation.{IsNoLonger};

use crate::layout::ArrayInfo;
use crate::regions::back_as;
use crate::walks::Walk;
use arrayvec::ArrayVec;
use cu_grid::Region;
use cu_shape::Dims;

/// Of each of the arrays that a map reads the region from which a region of the result is read through broadcasting.
pub(crate) fn map_walks(arrays: &[ArrayInfo], ins: &[u32], region: &Region) -> ArrayVec<Walk, 8>
    requires few { length ins.now ≤ 8 }
    requires lo { All (IsNoLonger arrays.now region.now.lo) ins.now }
    requires hi { All (IsNoLonger arrays.now region.now.hi) ins.now }
    ensures { result.items ≡ map (read_walk arrays.now region.now.lo region.now.hi) ins.now }
{
    let mut walks = ArrayVec::new();
    for array in ins {
        let shape = arrays[*array as usize].layout.grid.shape();
        walks.push(Walk {
            array: *array,
            region: read_back(shape, region),
        });
    }
    walks
}

/// The region of an array of this shape from which a region of a result is read through broadcasting.
fn read_back(shape: &Dims, region: &Region) -> Region
    requires lo { length shape.now ≤ length region.now.lo }
    requires hi { length shape.now ≤ length region.now.hi }
    ensures lo { result.lo ≡ back_as 0 shape.now region.now.lo }
    ensures hi { result.hi ≡ back_as 1 shape.now region.now.hi }
{
    Region {
        lo: back_as(0, shape, &region.lo),
        hi: back_as(1, shape, &region.hi),
    }
}
