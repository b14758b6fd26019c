//! What is told by all sizes together.

ghost use Rattle.std.specs.Prelude.{◌≡◌, ◌==◌, ◌<◌, ◌^◌, All, slice_index_or};
ghost use Rattle.std.specs.Bool.{OnFalse};
ghost use Rattle.std.specs.List.{list_any};
ghost use Rattle.cu_shape.specs.Index.{product};

use crate::dims::Dims;

impl Dims {
    /// The number on an axis, and another one where there is no such axis.
    pub fn at_or(&self, axis: u32, other: u64) -> u64
        ensures { result ≡ slice_index_or self.now axis other }
    {
        if axis < self.rank() {
            self.at(axis)
        } else {
            other
        }
    }

    /// Whether a size is 0.
    pub fn has_zero(&self) -> bool
        ensures value { result ≡ list_any (λ n. n == 0) self.now }
        ensures positive { OnFalse result (All (λ n. 0 < n) self.now) }
    {
        for axis in 0..self.rank() {
            if self.at(axis) == 0 {
                return true;
            }
        }
        false
    }

    /// The product of the sizes, 1 at rank 0, where it is known to fit 64 bits.
    pub fn product(&self) -> u64
        requires { product self.now < 2 ^ 64 }
        ensures { result ≡ product self.now }
    {
        let mut count: u64 = 1;
        for axis in 0..self.rank() {
            count = count.saturating_mul(self.at(axis));
        }
        count
    }
}
