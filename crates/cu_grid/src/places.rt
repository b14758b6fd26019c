//! Chunks by their numbers, and elements by their places in a chunk.
ghost use Rattle.std.specs.Prelude.{◌≡◌, ◌+◌, ◌*◌, ◌<◌, ◌^◌, ℕ, length, slice_index};
ghost use Rattle.cu_shape.specs.Index.{product, sums, products};
ghost use Rattle.cu_grid.specs.Counts.{counts_of};
ghost use Rattle.cu_grid.specs.Grid.{IsGrid, IsCoordinate, coordinate_of, index_at_place};

use crate::grid::Grid;
use cu_shape::{Dims, index_of};

impl Grid {
    /// The coordinate of a chunk by its number, in row-major order from 0.
    pub fn coordinate(&self, number: u64) -> Dims
        requires { number < product (counts_of self.now.shape self.now.chunk) }
        ensures value { result ≡ coordinate_of self.now number }
        ensures coordinate { IsCoordinate self.now result }
        ensures kept { IsGrid self.now }
    {
        index_of(&self.counts(), number)
    }

    /// The index of the array at a place of the chunk at this coordinate, in row-major order. Of a chunk at the edge it may
    /// lie past the array's end.
    pub fn index_in_chunk(&self, coord: &Dims, place: u64) -> Dims
        requires coordinate { IsCoordinate self.now coord.now }
        requires place { place < product self.now.chunk }
        ensures index { result ≡ index_at_place self.now.chunk coord.now place }
        ensures kept { IsGrid self.now }
    {
        index_from(self.chunk(), coord, &index_of(self.chunk(), place))
    }
}

/// The index of an array at an index of the chunk at this coordinate.
fn index_from(chunk: &Dims, coord: &Dims, inner: &Dims) -> Dims
    requires coord_rank { length coord.now ≡ length chunk.now }
    requires inner_rank { length inner.now ≡ length chunk.now }
    requires small { (k : ℕ) → k < length chunk.now → slice_index coord.now k * slice_index chunk.now k + slice_index inner.now k < 2 ^ 64 }
    ensures { result ≡ sums (products coord.now chunk.now) inner.now }
{
    let mut index = *coord;
    for axis in 0..chunk.rank() {
        index.put(axis, coord.at(axis) * chunk.at(axis) + inner.at(axis));
    }
    index
}
