ghost use Rattle.std.specs.Prelude.{◌≡◌, ◌<◌, length};
ghost use Rattle.cu_grid.specs.Grid.{IsGrid};
ghost use Rattle.cu_op.specs.Arrays.{grid_at, same_grid};

use cu_grid::Grid;
use cu_num::{Dtype, Encoding, Endian};
use cu_store::Key;

/// How an array is laid out in a store (Zarr v3 core; the codec "bytes").
#[derive(Clone, Copy)]
pub struct Layout {
    /// The type of the elements.
    pub dtype: Dtype,
    /// The shape of the array and of its chunks.
    pub grid: Grid,
    /// How the keys of its chunks are written.
    pub encoding: Encoding,
    /// The order of an element's bytes.
    pub endian: Endian,
    /// The element of a chunk that is absent, and of the places past the edge.
    pub fill: i128,
}

/// An array of a plan.
#[derive(Clone, Copy)]
pub struct ArrayInfo {
    /// The name under which the array is stored.
    pub prefix: Key,
    /// How it is laid out.
    pub layout: Layout,
    /// The number of the operation that writes it, and none for an input.
    pub maker: Option<u32>,
    /// Its chunks are made where they are read, and never stored; its prefix then names nothing.
    pub inlined: bool,
}

/// The grid of an array by its number.
pub(crate) fn grid_of(arrays: &[ArrayInfo], array: u32) -> Grid
    requires { array < length arrays.now }
    ensures grid { result ≡ grid_at arrays.now array }
    ensures kept { IsGrid result }
{
    let grid = arrays[array as usize].layout.grid;
    let _kept = grid.shape();
    grid
}

/// Whether two arrays have the same shape and the same chunk shape.
pub fn same_grid(arrays: &[ArrayInfo], a: u32, b: u32) -> bool
    requires first { a < length arrays.now }
    requires second { b < length arrays.now }
    ensures { result ≡ same_grid (grid_at arrays.now a) (grid_at arrays.now b) }
{
    let one = &arrays[a as usize].layout.grid;
    let other = &arrays[b as usize].layout.grid;
    one.shape().is(other.shape()) && one.chunk().is(other.chunk())
}
