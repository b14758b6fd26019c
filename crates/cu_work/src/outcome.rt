use cu_store::Key;
use cu_table::Table;

/// How a run of a plan's tasks ended.
#[derive(Clone, Copy, Debug, PartialEq, Eq)]
pub enum Outcome {
    /// All tasks are done.
    Complete,
    /// All tries of this task failed.
    Broken {
        /// The number of the operation.
        op: u32,
        /// The number of its task.
        task: u32,
    },
    /// A chunk that a task reads is held with another number of bytes than a chunk of its array has.
    BadChunk {
        /// The chunk's key.
        key: Key,
        /// The bytes that it holds.
        got: u64,
        /// The bytes of a chunk.
        want: u64,
    },
    /// The store lacked memory.
    Lacked,
}

/// A run of a plan's tasks that has ended: how, and its table, which has the history.
#[derive(Drop)]
pub struct RunEnd {
    /// The outcome, which is that of the history's deciding event.
    pub outcome: Outcome,
    /// The table.
    pub table: Table,
}
