//! What a run of a plan stores, finds, keeps and leaves, over any sound plan, the texts that are stored before its chunks, and the
//! elements of its inputs. The definitions stand in `specs/`; the functions here do nothing, and their clauses are the laws.
#![tactic(auto)]

mod laws;

pub use laws::{alike_law, begun_law, complete_law, left_law, names_law, task_law};
