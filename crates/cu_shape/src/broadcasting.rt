ghost use Rattle.std.specs.Prelude.{◌≡◌, ◌<◌, ◌≤◌, ◌↔◌, IsOk, IfOk, IfErr, length, slice_index};
ghost use Rattle.cu_shape.specs.Broadcast.{aligned, broadcast_of, mismatch_of, IsMismatch, are_apart, broadcast_size};

use crate::dims::Dims;
use crate::fault::ShapeFault;

/// The shape to which two shapes broadcast: they are aligned at their last axes, and on each axis
/// the result has the size that is not 1. Refused with the last axis of the result on which the
/// sizes differ and neither is 1.
pub fn broadcast(a: &Dims, b: &Dims) -> Result<Dims, ShapeFault>
    ensures fits { IsOk result ↔ (mismatch_of a.now b.now ≡ None) }
    ensures shape { IfOk result (λ d. d ≡ broadcast_of a.now b.now) }
    ensures mismatch { IfErr result (λ e. IsMismatch a.now b.now e) }
{
    let rank = a.rank().max(b.rank());
    let mut result = if a.rank() < b.rank() { *b } else { *a };
    for axis in (0..rank).rev() {
        let n = size_on(a, rank, axis);
        let m = size_on(b, rank, axis);
        if apart(n, m) {
            return Err(ShapeFault::Mismatch(axis));
        }
        result.put(axis, joined(n, m));
    }
    Ok(result)
}

/// The size of a shape on an axis of a result of at least its rank: 1 on an axis that it lacks.
fn size_on(shape: &Dims, rank: u32, axis: u32) -> u64
    requires wide { length shape.now ≤ rank }
    requires inside { axis < rank }
    ensures { result ≡ slice_index (aligned rank shape.now) axis }
{
    let lead = rank - shape.rank();
    if axis < lead {
        1
    } else {
        shape.at(axis - lead)
    }
}

/// Whether two sizes on an axis differ and neither is 1.
fn apart(n: u64, m: u64) -> bool
    ensures { result ≡ are_apart n m }
{
    n != m && n != 1 && m != 1
}

/// The size of the result on an axis.
fn joined(n: u64, m: u64) -> u64
    ensures { result ≡ broadcast_size n m }
{
    if n == 1 { m } else { n }
}
