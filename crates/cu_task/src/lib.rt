//! The tasks of a plan.
#![tactic(auto)]

mod chunk_copies;
mod compute;
mod conversions;
mod copies;
mod groups;
mod inner;
mod inputs;
mod laws;
mod making;
mod maps;
mod merges;
mod products;
mod pulls;
mod reductions;
mod reshapes;
mod results;
mod room;
mod routes;
mod rows;
mod run;
mod scans;
mod searches;
mod slab_jobs;
mod slabs;
mod straight;
mod strips;
mod views;
mod yards;

pub use laws::{needed_chunks_law, region_law};
pub use run::run_task_of;
pub use yards::run_task;
