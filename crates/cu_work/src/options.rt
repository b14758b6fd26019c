//! How a run of a plan goes.

/// How a run of a plan goes.
#[derive(Clone, Copy, Debug, PartialEq, Eq)]
pub struct RunOptions {
    /// How many workers run its tasks, at least one, and fewer where fewer copies of tasks can run at the same time. One alone starts no
    /// thread and waits for nobody.
    pub workers: u32,
    /// How often a text, the sharing of the keys and a task are tried again where the store failed.
    pub retries: u32,
    /// Whether an idle worker may run a second copy of a task that runs.
    pub backups: bool,
}
