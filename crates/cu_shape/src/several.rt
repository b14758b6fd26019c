//! Broadcasting of several shapes.
ghost use Rattle.std.specs.Prelude.{◌≡◌, ◌≤◌};
ghost use Rattle.cu_shape.specs.Several.{rank_of_all, broadcast_in, broadcast_of_all};

use crate::broadcasting::broadcast;
use crate::dims::Dims;
use crate::fault::ShapeFault;

/// The shape to which several shapes broadcast, taken from the left; of no shapes the shape of a single number. Refused at
/// the first shape that does not broadcast with those before it, with the last such axis, counted in the result of all.
pub fn broadcast_all(shapes: &[Dims]) -> Result<Dims, ShapeFault>
    ensures { result ≡ broadcast_of_all shapes.now }
{
    let rank = rank_of_all(shapes);
    let mut shape = Dims::default();
    for next in shapes {
        shape = broadcast_in(rank, &shape, next)?;
    }
    Ok(shape)
}

/// The shape to which two shapes broadcast, as `broadcast` has it, where a mismatch is named by its axis in a result of
/// `rank` axes.
pub fn broadcast_in(rank: u32, a: &Dims, b: &Dims) -> Result<Dims, ShapeFault>
    requires { rank ≤ 6 }
    ensures { result ≡ broadcast_in rank a.now b.now }
{
    match broadcast(a, b) {
        Ok(shape) => Ok(shape),
        Err(ShapeFault::Mismatch(axis)) => {
            let lead = rank.saturating_sub(a.rank().max(b.rank()));
            Err(ShapeFault::Mismatch(axis + lead))
        }
        Err(_) => unreachable!(),
    }
}

/// The greatest rank, 0 of no shapes.
fn rank_of_all(shapes: &[Dims]) -> u32
    ensures value { result ≡ rank_of_all shapes.now }
    ensures short { result ≤ 6 }
{
    let mut rank = 0;
    for shape in shapes {
        rank = rank.max(shape.rank());
    }
    rank
}
