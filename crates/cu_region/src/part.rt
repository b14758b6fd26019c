//! The part of a region that lies in one chunk.

use cu_grid::Region;
use cu_op::ArrayInfo;
use cu_shape::Dims;

/// The part of a region of a stored array that lies in one of the array's chunks.
#[derive(Drop)]
pub(crate) struct RegionPart<'a> {
    /// The array.
    pub(crate) info: &'a ArrayInfo,
    /// The region.
    pub(crate) region: &'a Region,
    /// The chunk's coordinate.
    pub(crate) coord: Dims,
}
