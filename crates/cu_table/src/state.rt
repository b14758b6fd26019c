//! The parts of the table's state.
use cu_store::TaskFault;

/// What is known of a task. It waits where it isn't done and no copy of it runs.
#[derive(Clone, Copy, Debug, PartialEq, Eq)]
pub struct TaskState {
    /// How often it failed.
    pub failures: u64,
    /// How many copies of it run.
    pub copies: u32,
    /// Whether it is done.
    pub done: bool,
}

/// A copy of a task that a worker runs.
#[derive(Clone, Copy, Debug, PartialEq, Eq)]
pub struct RunningCopy {
    /// The number of the worker.
    pub worker: u32,
    /// The number of the operation.
    pub op: u32,
    /// The number of its task.
    pub task: u32,
}

/// Why the run ended before all tasks were done.
#[derive(Clone, Copy, Debug, PartialEq, Eq)]
pub enum Ending {
    /// All tries of this task failed.
    Broken {
        /// The number of the operation.
        op: u32,
        /// The number of its task.
        task: u32,
    },
    /// A task met this fault.
    Halted(TaskFault),
}

/// A task by its operation and its number in it.
#[derive(Clone, Copy, Debug, PartialEq, Eq)]
pub struct TaskId {
    /// The number of the operation.
    pub op: u32,
    /// The number of its task.
    pub task: u32,
}
