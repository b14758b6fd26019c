//! The index at a place in row-major order, without a division where an axis has one place or where all that is left of the place fits.
ghost use Rattle.std.specs.Prelude.{◌≡◌, ◌<◌, ◌/◌, ◌%◌};
ghost use Rattle.cu_shape.specs.Index.{product, index_at, IsInside};

use cu_shape::Dims;

/// The remainder and the quotient of what is left of a place by an axis' size.
fn digit(rest: u64, size: u64) -> (u64, u64)
    requires { 0 < size }
    ensures digit { result.0 ≡ rest % size }
    ensures left { result.1 ≡ rest / size }
{
    if rest < size {
        return (rest, 0);
    }
    if size == 1 {
        return (0, rest);
    }
    (rest % size, rest / size)
}

/// The index at a place.
pub(crate) fn index_at(dims: &Dims, place: u64) -> Dims
    requires { place < product dims.now }
    ensures index { result ≡ index_at dims.now place }
    ensures inside { IsInside dims.now result }
{
    let mut index = *dims;
    let mut rest = place;
    for axis in (0..dims.rank()).rev() {
        let (at, left) = digit(rest, dims.at(axis));
        index.put(axis, at);
        rest = left;
    }
    index
}
