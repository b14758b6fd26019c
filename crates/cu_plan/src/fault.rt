/// Why an expression has no plan.
#[derive(Clone, Copy, Debug, PartialEq, Eq)]
pub enum PlanFault {
    /// This node, the first of those that do, needs `need` bytes, and `allowed` are allowed.
    OverMemory { node: u32, need: u64, allowed: u64 },
    /// There are too many tasks (which 1, more than 65,536), or else stored chunks (which 2, more
    /// than 262,144).
    OverLimit { which: u8, count: u64 },
    /// There was no memory.
    NoMemory,
}
