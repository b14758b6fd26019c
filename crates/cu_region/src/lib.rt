//! Regions of stored arrays, read and written by whole chunks.
#![tactic(auto)]

mod laws;
mod part;
mod read;
mod settle;
mod write;
mod yards;

pub use laws::{chunks_make_regions, integers_are_elements, stored_regions_read_back};
pub use read::{read_chunk, read_front, read_region_of};
pub use write::write_region_of;
pub use yards::{read_region, write_region};
