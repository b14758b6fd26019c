/// What happened to a copy of a task.
#[derive(Clone, Copy, Debug, PartialEq, Eq)]
pub enum EventKind {
    /// A worker began to run it.
    Start,
    /// It ended well, and its task is done.
    Done,
    /// The store failed.
    Failed,
    /// It ended the run with a fault that isn't tried again.
    Halt,
    /// It ended after its task was done or the run had ended.
    Late,
}

/// An event of the history.
#[derive(Clone, Copy, Debug, PartialEq, Eq)]
pub struct Entry {
    /// What happened.
    pub kind: EventKind,
    /// The number of the worker.
    pub worker: u32,
    /// The number of the operation.
    pub op: u32,
    /// The number of its task.
    pub task: u32,
    /// The bytes of memory that a worker needs for the task, those that are reserved counted; 0 but for a start.
    pub room: u64,
}
