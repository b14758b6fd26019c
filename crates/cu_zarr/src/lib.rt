//! What a stored Zarr array means: the texts of its keys, its elements, the bytes of a chunk, and its metadata.
//! The definitions stand in `specs/`, over plain lists of numbers; the functions here are laws of them.
#![tactic(auto)]

mod laws;

pub use laws::spelling_law;
