//! What a seat knows. No value of these types is made: proofs alone see them.
use cu_history::Entry;
use cu_store::TaskFault;
use std::collections::LinkedList;

/// What a seat knows of the state behind the lock.
pub struct SeatView {
    /// Whether the seat is still there: one that was joined isn't.
    pub live: bool,
    /// Whether it is the root, which alone splits and joins.
    pub root: bool,
    /// Whether it has the turn.
    pub turn: bool,
    /// The number of its worker; of the root the count of its splits.
    pub number: u64,
    /// A beginning of the history.
    pub front: LinkedList<Entry>,
    /// The fault of a Halt in it.
    pub fault: Option<TaskFault>,
    /// What the seats knew that the root has joined, the last one first.
    pub joined: LinkedList<KnownFront>,
}

/// What a seat knew that was joined.
pub struct KnownFront {
    /// The number of its worker.
    pub number: u64,
    /// A beginning of the history.
    pub front: LinkedList<Entry>,
    /// The fault of a Halt in it.
    pub fault: Option<TaskFault>,
}
