//! The keys of stored arrays, and the parts of chunks that lie in a region.
#![tactic(auto)]

mod keys;
mod laws;
mod parts;

pub use cu_box::{reorder, swap};
pub use keys::{chunk_key, metadata_key, zarray_key};
pub use laws::{keys_differ, swap_law};
pub use parts::{chunk_bytes, fill_with, is_one_chunk, lay_part, take_part};
