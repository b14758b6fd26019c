ghost use Rattle.std.specs.Prelude.{◌≡◌, ◌<◌, ◌≤◌, ◌^◌, ◌↔◌, IsOk, IfOk, IfErr, Some, None, All, Contains, List, ℕ, map, length};
ghost use Rattle.std.specs.List.Sorted.{IsStrictlyIncreasing};
ghost use Rattle.cu_shape.specs.Index.{product, place_of};
ghost use Rattle.cu_grid.specs.Counts.{counts_of, chunk_lo, chunk_hi, at_least_one, IsRegion};
ghost use Rattle.cu_grid.specs.Cover.{covering, Meets};
ghost use Rattle.cu_grid.specs.Grid.{IsGrid, IsCoordinate};
ghost use Rattle.cu_grid.specs.Limits.{first_fault, IsWithinLimits};

use crate::cover::{Cover, cover_of};
use crate::fault::GridFault;
use crate::region::{Region, region_of_chunk};
use crate::sizes::is_chunk_above;
use cu_shape::{Dims, chunk_counts, is_above};
use std::marker::Model;

/// The most elements of a stored array, an axis of size 0 counting as one.
const MOST_ELEMENTS: u64 = 0x100_0000_0000;

/// The most chunks of a stored array, an axis of size 0 counting as one.
const MOST_CHUNKS: u64 = 65_536;

/// The most bytes of a stored chunk.
const MOST_BYTES: u64 = 0x1000_0000;

/// A regular grid of chunks: the shape of an array and the shape of its chunks.
#[derive(Clone, Copy, PartialEq, Eq, Debug)]
pub struct Grid {
    shape: Dims,
    chunk: Dims,
}

impl Model for Grid {
    ghost use Rattle.cu_grid.specs.Grid.{RegularGrid, IsGrid};

    ghost Value = { RegularGrid };

    ghost view = { λ g. record { shape = g.shape; chunk = g.chunk } };

    ghost invariant = { λ g. IsGrid (record { shape = g.shape; chunk = g.chunk }) };

    ghost inverse = { λ g. record { shape = g.shape; chunk = g.chunk } };
}

impl Grid {
    /// The grid of a stored array whose elements have `size` bytes, or the first fault.
    pub fn make(shape: Dims, chunk: Dims, size: u64) -> Result<Grid, GridFault>
        requires { 0 < size }
        ensures fits { IsOk result ↔ (first_fault shape chunk size ≡ None) }
        ensures grid { IfOk result (λ g. g ≡ record { shape = shape; chunk = chunk }) }
        ensures fault { IfErr result (λ e. first_fault shape chunk size ≡ Some e) }
        ensures kept { IfOk result IsGrid }
        ensures limits { IfOk result (λ g. IsWithinLimits g size) }
    {
        if chunk.has_zero() {
            return Err(GridFault::ZeroChunk);
        }
        if shape.rank() != chunk.rank() {
            return Err(GridFault::Rank);
        }
        if is_above(&shape, MOST_ELEMENTS) {
            return Err(GridFault::TooManyElements);
        }
        if is_above(&chunk_counts(&shape, &chunk), MOST_CHUNKS) {
            return Err(GridFault::TooManyChunks);
        }
        if is_chunk_above(&chunk, size, MOST_BYTES) {
            return Err(GridFault::ChunkTooLarge);
        }
        Ok(Grid { shape, chunk })
    }

    /// The grid of an array inside a plan, whose limits the caller has seen to.
    pub fn make_middle(shape: Dims, chunk: Dims) -> Grid
        requires ranks { length chunk ≡ length shape }
        requires positive { All (λ c. 0 < c) chunk }
        requires elements { product (at_least_one shape) ≤ 2 ^ 56 }
        requires chunk_elements { product chunk ≤ 2 ^ 40 }
        ensures grid { result ≡ record { shape = shape; chunk = chunk } }
        ensures kept { IsGrid result }
    {
        let _short = shape.rank();
        Grid { shape, chunk }
    }

    /// The array's shape.
    pub fn shape(&self) -> &Dims
        ensures value { result.now ≡ self.now.shape }
        ensures kept { IsGrid self.now }
    {
        &self.shape
    }

    /// The chunks' shape.
    pub fn chunk(&self) -> &Dims
        ensures value { result.now ≡ self.now.chunk }
        ensures kept { IsGrid self.now }
    {
        &self.chunk
    }

    /// The number of chunks on each axis, 0 where the size is 0.
    pub fn counts(&self) -> Dims
        ensures counts { result ≡ counts_of self.now.shape self.now.chunk }
        ensures kept { IsGrid self.now }
    {
        chunk_counts(&self.shape, &self.chunk)
    }

    /// The number of chunks.
    pub fn count(&self) -> u64
        ensures count { result ≡ product (counts_of self.now.shape self.now.chunk) }
        ensures small { result ≤ 2 ^ 56 }
        ensures kept { IsGrid self.now }
    {
        chunk_counts(&self.shape, &self.chunk).product()
    }

    /// The indices of a chunk; at the edge it ends with the array.
    pub fn chunk_region(&self, coord: &Dims) -> Region
        requires { IsCoordinate self.now coord.now }
        ensures lo { result.lo ≡ chunk_lo self.now.chunk coord.now }
        ensures hi { result.hi ≡ chunk_hi self.now.shape self.now.chunk coord.now }
        ensures inside { IsRegion self.now.shape result.lo result.hi }
        ensures kept { IsGrid self.now }
    {
        region_of_chunk(&self.shape, &self.chunk, coord)
    }

    /// The chunks that share an element with a region of the array, each once, in row-major order.
    pub fn cover(&self, region: &Region) -> Cover
        requires { IsRegion self.now.shape region.now.lo region.now.hi }
        ensures chunks { result ≡ covering self.now.chunk region.now.lo region.now.hi }
        ensures exactly { (coord : List ℕ) → (Contains result coord) ↔ (Meets self.now region.now.lo region.now.hi coord) }
        ensures order { IsStrictlyIncreasing (map (place_of (counts_of self.now.shape self.now.chunk)) result) }
        ensures kept { IsGrid self.now }
    {
        cover_of(&self.shape, &self.chunk, &region.lo, &region.hi)
    }
}
