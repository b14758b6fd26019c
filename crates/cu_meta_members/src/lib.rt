//! The members that the metadata of an array has in both versions of Zarr: sizes, the fill value, the separator of keys.
#![tactic(auto)]

mod members;

pub use members::{fill_in, separator_in, sizes_in, whole_in};
