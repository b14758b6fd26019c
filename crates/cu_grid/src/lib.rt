//! Regular grids of chunks: an array's shape, its chunks, and the chunks that a region meets.
#![tactic(auto)]

mod cover;
mod fault;
mod grid;
mod laws;
mod places;
mod region;
mod sizes;

pub use cover::Cover;
pub use fault::GridFault;
pub use grid::Grid;
pub use laws::one_chunk_each;
pub use region::Region;
