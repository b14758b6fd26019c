//! How many chunks cover an array, and limits on a product of sizes.

ghost use Rattle.std.specs.Prelude.{◌≡◌, ◌<◌, ◌≤◌, All, length, nat_lt};
ghost use Rattle.std.specs.Bool.{OnFalse};
ghost use Rattle.cu_shape.specs.Counts.{counts_of, at_least_one};
ghost use Rattle.cu_shape.specs.Index.{product};

use crate::dims::Dims;

/// Whether the product of the sizes is above `limit`, a size of 0 counting as one.
pub fn is_above(sizes: &Dims, limit: u64) -> bool
    ensures value { result ≡ nat_lt limit (product (at_least_one sizes.now)) }
    ensures within { OnFalse result (product (at_least_one sizes.now) ≤ limit) }
{
    if limit == 0 {
        return true;
    }
    let mut count = 1;
    for axis in 0..sizes.rank() {
        let size = sizes.at(axis).max(1);
        if size > limit / count {
            return true;
        }
        count *= size;
    }
    false
}

/// How many chunks of the shape `chunk` each axis of an array has: its size over the chunk size, rounded up (Zarr v3 core
/// specification, "Chunk grids").
pub fn chunk_counts(shape: &Dims, chunk: &Dims) -> Dims
    requires ranks { length chunk.now ≡ length shape.now }
    requires positive { All (λ c. 0 < c) chunk.now }
    ensures { result ≡ counts_of shape.now chunk.now }
{
    let mut counts = *shape;
    for axis in 0..shape.rank() {
        counts.put(axis, shape.at(axis).div_ceil(chunk.at(axis)));
    }
    counts
}
