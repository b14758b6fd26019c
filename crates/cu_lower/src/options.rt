/// The options of a run; memory is in bytes.
#[derive(Clone, Copy, Debug)]
pub struct Options {
    /// The memory that a task may take, the reserved memory among it.
    pub allowed: u64,
    /// The memory that is set aside for what isn't counted.
    pub reserved: u64,
    /// How many neighbouring partial results of a reduction a task merges: 2 to 64.
    pub split_every: u32,
    /// How often a call for a key, or a task, is tried again.
    pub retries: u32,
    /// How many workers run tasks: 1 to 64.
    pub workers: u32,
    /// Whether an idle worker may run a second copy of a task that runs.
    pub backups: bool,
    /// What is computed in one task. With 1 maps that follow one another are. With 2 each map also
    /// loads an array once, copies that follow one another are joined, and an array that can be made
    /// where it is read isn't stored.
    pub fusion: u32,
}
