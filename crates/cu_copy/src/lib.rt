//! Copies of an array into other chunks: their regions, their memory and their counts.
#![tactic(auto)]

mod chunks;
mod copies;
mod laws;

pub use chunks::{bytes_of, chunk_bytes, chunk_count};
pub use copies::{
    CopyCounts, Rechunk, max_mem, rechunk_counts, rechunk_need, rechunked, staging_within,
    wanted_bytes,
};
pub use cu_rechunk::Staging;
pub use laws::copy_law;
