//! Regions of arrays in memory.
use cu_grid::Region;
use cu_num::Dtype;
use cu_shape::Dims;

/// The elements of a region of an array in a buffer: little-endian, in row-major order by the sizes `dims`, which may go past the
/// region's end.
#[derive(Clone, Copy, Debug)]
pub struct Block {
    /// The region.
    pub region: Region,
    /// The sizes of the buffer, from the region's first index on.
    pub dims: Dims,
    /// The type of the elements.
    pub dtype: Dtype,
}
