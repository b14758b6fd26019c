//! Boxes of a view's result that are read in one way.
use crate::way::Way;
use arrayvec::ArrayVec;
use cu_grid::Region;

/// A box of a view's result, each element of which is an element of one source: on each axis of the source the index is fixed,
/// or moves evenly along an axis of the result.
#[derive(Drop)]
pub struct Piece {
    /// The box of the result.
    pub region: Region,
    /// The number of the source.
    pub source: u32,
    /// How each axis of the source is read.
    pub ways: ArrayVec<Way, 6>,
}
