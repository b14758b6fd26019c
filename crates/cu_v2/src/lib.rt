//! The metadata of an array of Zarr version 2: the file `.zarray`, read.
#![tactic(auto)]

mod fault;
mod laws;
mod members;
mod read;

pub use fault::{V2Fault, V2Refused, fault_code};
pub use laws::v2_law;
pub use read::read_zarray;
