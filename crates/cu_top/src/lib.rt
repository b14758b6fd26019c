//! The program's one call, from its words to its answer: a run, which computes an expression over stored arrays, from its text to the
//! stored chunks and the report; the command that prints its plan; and the commands that load, compare and print an array, which have
//! crates of their own.
#![tactic(auto)]

mod ask;
mod begin;
mod call;
mod demo;
mod drive;
mod drop;
mod held;
mod laws;
mod parts;
mod planned;
mod prepare;
mod record;
mod report;
mod result;
mod resume;
mod run;
mod versions;
mod words;

pub use call::top;
pub use cu_command::{LineText, Status, number, status_line};
pub use laws::{list_law, numbers_law, premises_law, record_law};
pub use result::{inputs_law, plan_of_law, result_law};
pub use versions::versions_law;
