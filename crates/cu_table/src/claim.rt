use cu_store::TaskFault;

/// What a worker that asks for a task is told.
#[derive(Clone, Copy, Debug, PartialEq, Eq)]
pub enum Claim {
    /// It is to run this task, of which so many copies ran just before.
    Run {
        /// The number of the operation.
        op: u32,
        /// The number of its task.
        task: u32,
        /// How many copies of it ran just before: 0 or 1.
        copy: u32,
    },
    /// No task can be started now.
    Idle,
    /// All tasks are done.
    Finished,
    /// All tries of this task failed.
    Broken {
        /// The number of the operation.
        op: u32,
        /// The number of its task.
        task: u32,
    },
    /// A task met this fault, which isn't tried again.
    Halted(TaskFault),
}
