//! The regions of arrays that a task writes, and numbers of axes that are read through broadcasting.
ghost use Rattle.std.specs.Prelude.{◌≡◌, ◌≤◌, length, map};
ghost use Rattle.cu_op.specs.Operation.{writes_of};
ghost use Rattle.cu_op.specs.Chunks.{walk};
ghost use Rattle.cu_op.specs.Walks.{back_as};

use crate::operation::Op;
use crate::walks::Walk;
use arrayvec::ArrayVec;
use cu_grid::{Grid, Region};
use cu_shape::Dims;

/// A region of each array that the operation writes.
pub(crate) fn output_walks(op: &Op, region: &Region) -> ArrayVec<Walk, 8>
    ensures { result.items ≡ map (λ a. walk a region.now.lo region.now.hi) (writes_of op.now) }
{
    let mut walks = ArrayVec::new();
    let writes = op.writes();
    for array in writes.as_slice() {
        walks.push(Walk {
            array: *array,
            region: *region,
        });
    }
    walks
}

/// The numbers of a result's axes that an array of this shape has as well; an axis of size 1 gets `one`.
pub(crate) fn back_as(one: u64, shape: &Dims, numbers: &Dims) -> Dims
    requires { length shape.now ≤ length numbers.now }
    ensures { result ≡ back_as one shape.now numbers.now }
{
    let first = numbers.rank() - shape.rank();
    let mut read = *shape;
    for axis in 0..shape.rank() {
        let at = if shape.at(axis) == 1 {
            one
        } else {
            numbers.at(first + axis)
        };
        read.put(axis, at);
    }
    read
}
