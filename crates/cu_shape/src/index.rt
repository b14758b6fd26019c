ghost use Rattle.std.specs.Prelude.{◌≡◌, ◌<◌, ◌≤◌, ◌^◌, ◌↔◌, IsTrue, length, max, min};
ghost use Rattle.cu_shape.specs.Index.{product, place_of, index_at, is_inside, back, differences, axis_by_axis, IsInside};

use crate::dims::Dims;

/// The place of an index in row-major order.
pub fn place(dims: &Dims, idx: &Dims) -> u64
    requires counted { product dims.now < 2 ^ 64 }
    requires inside { IsInside dims.now idx.now }
    ensures place { result ≡ place_of dims.now idx.now }
    ensures below { result < product dims.now }
{
    let mut place = 0;
    for axis in 0..dims.rank() {
        place = place * dims.at(axis) + idx.at(axis);
    }
    place
}

/// The index at a place in row-major order.
pub fn index_of(dims: &Dims, place: u64) -> Dims
    requires { place < product dims.now }
    ensures index { result ≡ index_at dims.now place }
    ensures inside { IsInside dims.now result }
{
    let mut index = *dims;
    let mut rest = place;
    for axis in (0..dims.rank()).rev() {
        let size = dims.at(axis);
        index.put(axis, rest % size);
        rest /= size;
    }
    index
}

/// Whether an index lies inside an array: one number for each axis, below the axis' size.
pub fn is_inside(dims: &Dims, idx: &Dims) -> bool
    ensures test { result ≡ is_inside dims.now idx.now }
    ensures inside { IsTrue result ↔ IsInside dims.now idx.now }
{
    if idx.rank() != dims.rank() {
        return false;
    }
    are_below(dims, idx)
}

/// Whether each number of an index is below the axis' size.
fn are_below(dims: &Dims, idx: &Dims) -> bool
    requires { length idx.now ≡ length dims.now }
    ensures { result ≡ is_inside dims.now idx.now }
{
    for axis in 0..idx.rank() {
        if idx.at(axis) >= dims.at(axis) {
            return false;
        }
    }
    true
}

/// The index of an array of this shape that a result's index reads through broadcasting: the leading axes that the array
/// lacks are dropped, and an axis of size 1 is read at 0 (Python array API, "Broadcasting").
pub fn back(shape: &Dims, idx: &Dims) -> Dims
    requires { length shape.now ≤ length idx.now }
    ensures { result ≡ back shape.now idx.now }
{
    let first = idx.rank() - shape.rank();
    let mut read = *shape;
    for axis in 0..shape.rank() {
        let at = if shape.at(axis) == 1 {
            0
        } else {
            idx.at(first + axis)
        };
        read.put(axis, at);
    }
    read
}

/// How far `from` is above `to` on each axis, 0 where it isn't.
pub fn difference(from: &Dims, to: &Dims) -> Dims
    requires { length to.now ≡ length from.now }
    ensures { result ≡ differences from.now to.now }
{
    let mut sizes = *from;
    for axis in 0..from.rank() {
        sizes.put(axis, from.at(axis).saturating_sub(to.at(axis)));
    }
    sizes
}

/// The greater number on each axis.
pub fn greater(a: &Dims, b: &Dims) -> Dims
    requires { length b.now ≡ length a.now }
    ensures numbers { result ≡ axis_by_axis max a.now b.now }
    ensures ranks { length result ≡ length a.now }
{
    let mut most = *a;
    for axis in 0..a.rank() {
        most.put(axis, a.at(axis).max(b.at(axis)));
    }
    most
}

/// The smaller number on each axis.
pub fn smaller(a: &Dims, b: &Dims) -> Dims
    requires { length b.now ≡ length a.now }
    ensures numbers { result ≡ axis_by_axis min a.now b.now }
    ensures ranks { length result ≡ length a.now }
{
    let mut least = *a;
    for axis in 0..a.rank() {
        least.put(axis, a.at(axis).min(b.at(axis)));
    }
    least
}
