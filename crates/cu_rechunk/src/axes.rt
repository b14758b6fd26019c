//! Sizes axis by axis.

ghost use Rattle.std.specs.Prelude.{◌≡◌, ◌<◌, ◌≤◌, All, length};
ghost use Rattle.cu_shape.specs.Index.{product};
ghost use Rattle.cu_rechunk.specs.Stages.{cut};

use cu_shape::Dims;

/// A chunk's sizes, on each axis at most the array's size; an array's size of 0 counts as 1.
pub(crate) fn cut(shape: &Dims, chunk: &Dims) -> Dims
    requires ranks { length chunk.now ≡ length shape.now }
    requires positive { All (λ c. 0 < c) chunk.now }
    ensures sizes { result ≡ cut shape.now chunk.now }
    ensures ranks { length result ≡ length shape.now }
    ensures positive { All (λ c. 0 < c) result }
    ensures fewer { product result ≤ product chunk.now }
{
    let mut sizes = *chunk;
    for axis in 0..chunk.rank() {
        sizes.put(axis, chunk.at(axis).min(shape.at(axis).max(1)));
    }
    sizes
}
