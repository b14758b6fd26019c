//! Running the tasks of a plan: the keys in the way, the memory that a run takes, its workers over a yard that a depot shares, the law
//! of every schedule, and a part of a plan, which a process runs beside others.
#![tactic(auto)]

mod alone;
mod choosing;
mod commands;
mod counts;
mod crew;
mod ends;
mod find;
mod memory;
mod options;
mod outcome;
mod part;
mod removal;
mod rooms;
mod run;
mod shared;
mod together;
mod trying;
mod turns;
mod way;
mod worker;
mod world;

pub use alone::drive_alone;
pub use commands::{commands_law, resume_law};
pub use counts::{failures, starts};
pub use crew::{dismiss, hire};
pub use ends::outcome_law;
pub use find::{FindFault, find_done};
pub use memory::{RunMemory, none_done};
pub use options::RunOptions;
pub use outcome::{Outcome, RunEnd};
pub use part::{Part, PartCounts, PartFault, run_part};
pub use removal::{RemoveFault, remove_plan};
pub use rooms::Rooms;
pub use run::{HeldTexts, RunFault, Texts, run_plan, store_texts};
pub use shared::run_tasks;
pub use turns::drive;
pub use way::{WayFault, ask_keys, key_of};
pub use worker::Worker;
pub use world::world_law;
