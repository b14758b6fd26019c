//! The metadata of a stored array: the file `zarr.json` of Zarr version 3, read and written.
#![tactic(auto)]

mod fault;
mod laws;
mod members;
mod part;
mod read;
mod write;

pub use fault::{MetaFault, MetaRefused};
pub use laws::meta_law;
pub use read::read_meta;
pub use write::write_meta;
