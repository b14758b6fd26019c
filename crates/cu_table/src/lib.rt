//! The task table: which tasks of a plan wait, run and are done, and the history of what happened.
#![tactic(auto)]

mod claim;
mod end;
mod laws;
mod line;
mod next;
mod open;
mod queue;
mod ready;
mod records;
mod sources;
mod state;
mod table;
mod tasks;
mod watch;

pub use claim::Claim;
pub use cu_history::{Entry, EventKind};
pub use laws::{
    alone_law, broken_law, claim_law, count_law, done_law, ended_law, history_law, own_law,
    step_law, task_law,
};
pub use state::{Ending, RunningCopy, TaskId, TaskState};
pub use table::Table;
