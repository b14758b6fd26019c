//! The least region that is whole chunks of two sizes.

ghost use Rattle.std.specs.Prelude.{◌≡◌, ◌<◌, ◌≤◌, All, length};
ghost use Rattle.cu_shape.specs.Counts.{at_least_one};
ghost use Rattle.cu_shape.specs.Index.{product};
ghost use Rattle.cu_fuse.specs.Least.{least_region, least_size};

use cu_shape::Dims;

/// On an axis of this size, at least 1, the least common multiple of two sizes, or the axis if that
/// is less.
fn least_size(all: u64, first: u64, second: u64) -> u64
    requires axis { 0 < all }
    requires first { 0 < first }
    requires second { 0 < second }
    ensures { result ≡ least_size all first second }
{
    for more in 0..all / first {
        let size = first * (more + 1);
        if size % second == 0 {
            return size;
        }
    }
    all
}

/// The least region of an array that is whole chunks of both sizes.
pub(crate) fn least_region(shape: &Dims, source: &Dims, target: &Dims) -> Dims
    requires source_rank { length source.now ≡ length shape.now }
    requires target_rank { length target.now ≡ length shape.now }
    requires source_positive { All (λ c. 0 < c) source.now }
    requires target_positive { All (λ c. 0 < c) target.now }
    ensures sizes { result ≡ least_region shape.now source.now target.now }
    ensures ranks { length result ≡ length shape.now }
    ensures positive { All (λ c. 0 < c) result }
    ensures fewer { product result ≤ product (at_least_one shape.now) }
{
    let mut sizes = *shape;
    for axis in 0..shape.rank() {
        let all = shape.at(axis).max(1);
        let first = source.at(axis).min(all);
        let second = target.at(axis).min(all);
        sizes.put(axis, least_size(all, first, second));
    }
    sizes
}
