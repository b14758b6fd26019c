//! Tasks that are held until others have come.
ghost use Rattle.std.specs.Prelude.{◌≡◌, ◌==◌, ◌&&◌};
ghost use Rattle.test_depots.specs.Meeting.{is_one_of};

use cu_store::Gate;
use std::sync::atomic::{AtomicU64, Ordering};
use std::thread;

/// How often a held task looks whether the others have come, before it gives up.
const TURNS: u32 = 10_000_000;

/// A task that is held.
#[derive(Clone, Copy)]
pub struct Held {
    pub op: u32,
    pub task: u32,
}

/// A task that is waited for until it has come so often.
#[derive(Drop)]
pub struct Awaited {
    op: u32,
    task: u32,
    times: u64,
    came: AtomicU64,
}

impl Awaited {
    /// A task that hasn't come yet.
    pub fn new(op: u32, task: u32, times: u64) -> Awaited {
        Awaited {
            op,
            task,
            times,
            came: AtomicU64::new(0),
        }
    }

    /// Whether it is this task.
    fn is(&self, op: u32, task: u32) -> bool
        ensures { result ≡ (self.now.op == op && self.now.task == task) }
    {
        self.op == op && self.task == task
    }

    /// Whether it has come so often.
    fn has_come(&self) -> bool {
        self.came.load(Ordering::SeqCst) >= self.times
    }
}

/// A gate that holds these tasks until all that are awaited have come. A task that was held for too long gives up and goes on.
#[derive(Drop)]
pub struct Meeting {
    held: Vec<Held>,
    awaited: Vec<Awaited>,
    given_up: AtomicU64,
}

impl Meeting {
    /// A gate at which none has come.
    pub fn new(held: Vec<Held>, awaited: Vec<Awaited>) -> Meeting {
        Meeting {
            held,
            awaited,
            given_up: AtomicU64::new(0),
        }
    }

    /// How many tasks gave up.
    pub fn given_up(&self) -> u64 {
        self.given_up.load(Ordering::SeqCst)
    }

    /// How many of the awaited tasks have come as often as is wanted.
    pub fn come(&self) -> usize {
        self.awaited
            .iter()
            .filter(|awaited| awaited.has_come())
            .count()
    }

    /// Whether it holds this task.
    fn holds(&self, op: u32, task: u32) -> bool
        ensures { result ≡ is_one_of self.now.held.items op task }
    {
        self.held
            .iter()
            .any(|held| held.op == op && held.task == task)
    }

    /// Whether all have come, within so many looks.
    fn have_all_come(&self) -> bool {
        for turn in 0..TURNS {
            let _turn = turn;
            if self.awaited.iter().all(|awaited| awaited.has_come()) {
                return true;
            }
            thread::yield_now();
        }
        false
    }
}

impl Gate for Meeting {
    /// Notes that the task has come, and holds it if it is to be held.
    fn before(&self, _worker: u32, op: u32, task: u32) {
        for awaited in &self.awaited {
            if awaited.is(op, task) {
                awaited.came.fetch_add(1, Ordering::SeqCst);
            }
        }
        if self.holds(op, task) && !self.have_all_come() {
            self.given_up.fetch_add(1, Ordering::SeqCst);
        }
    }
}
