//! Chunks made larger, as far as an array and a memory allow, from the last axis on.

ghost use Rattle.std.specs.Prelude.{◌≡◌, ◌<◌, ◌≤◌, ◌^◌, All, length};
ghost use Rattle.cu_shape.specs.Index.{product};
ghost use Rattle.cu_rechunk.specs.Stages.{consolidated, grown, lowered_size, lowered_along};

use cu_shape::Dims;

/// A chunk made larger from the last axis on, on each axis up to the array's size and to `limit`, as far as at most `room`
/// elements are in it.
pub(crate) fn consolidate(shape: &Dims, chunk: &Dims, limit: &Dims, room: u64) -> Dims
    requires shape_rank { length shape.now ≡ length chunk.now }
    requires limit_rank { length limit.now ≡ length chunk.now }
    requires positive { All (λ c. 0 < c) chunk.now }
    requires fits { product chunk.now ≤ room }
    requires counted { product chunk.now ≤ 2 ^ 40 }
    ensures sizes { result ≡ consolidated room 1 shape.now chunk.now limit.now }
    ensures ranks { length result ≡ length chunk.now }
    ensures positive { All (λ c. 0 < c) result }
{
    let mut sizes = *chunk;
    let mut elements = chunk.product();
    for axis in (0..chunk.rank()).rev() {
        let size = chunk.at(axis);
        let others = elements / size;
        let wider = grown(room / others, shape.at(axis), size, limit.at(axis));
        sizes.put(axis, wider);
        elements = others * wider;
    }
    sizes
}

/// The size of a chunk on an axis, made larger up to the array's size `all` and to `limit`, where at most `most` fit.
fn grown(most: u64, all: u64, size: u64, limit: u64) -> u64
    requires { 0 < size }
    ensures { result ≡ grown most all size limit }
{
    if size >= all.min(limit) {
        return size;
    }
    let bound = limit.min(most);
    if all <= bound {
        all
    } else {
        bound / size * size
    }
}

/// Regions cut down to multiples of the regions that are written, on each axis where they are greater and less than the array.
pub(crate) fn lower_to(shape: &Dims, read: &Dims, write: &Dims) -> Dims
    requires shape_rank { length shape.now ≡ length read.now }
    requires write_rank { length write.now ≡ length read.now }
    requires positive { All (λ c. 0 < c) write.now }
    ensures sizes { result ≡ lowered_along shape.now read.now write.now }
    ensures ranks { length result ≡ length read.now }
{
    let mut sizes = *read;
    for axis in 0..read.rank() {
        sizes.put(axis, lowered(shape.at(axis), read.at(axis), write.at(axis)));
    }
    sizes
}

/// The size of a region on an axis, cut down to a multiple of `part` where it is greater than that and less than the array.
fn lowered(all: u64, size: u64, part: u64) -> u64
    requires { 0 < part }
    ensures { result ≡ lowered_size all size part }
{
    if size < all && part < size {
        size / part * part
    } else {
        size
    }
}
