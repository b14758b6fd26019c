//! A part of a plan, and what comes of it.
ghost use Rattle.std.specs.Prelude.{◌≤◌, ◌+◌};
ghost use Rattle.cu_store.specs.Faults.{last_count};
ghost use Rattle.cu_store.specs.Steps.{Steps};
ghost use Rattle.cu_work.specs.Asked.{asking_of};
ghost use Rattle.cu_work.specs.Ended.{HasCalled, IsPartEnd};
ghost use Rattle.cu_work.specs.Part.{IsPartOf, PartPut};

use crate::choosing::choose_tasks;
use crate::trying::{TaskMemory, run_chosen};
use cu_op::{Plan, range_law};
use cu_store::{Key, PutStore};
use std::alloc::Global;

/// Some tasks of one operation of a plan.
#[derive(Clone, Copy, Debug, PartialEq, Eq)]
pub struct Part {
    /// The number of the operation.
    pub op: u32,
    /// The number of the first task.
    pub from: u32,
    /// The number of the task behind the last one. Where it is that of the first, there is none.
    pub to: u32,
}

/// How often tasks were started, and how often one failed.
#[derive(Clone, Copy, Debug, PartialEq, Eq)]
pub struct PartCounts {
    pub starts: u64,
    pub failures: u64,
}

/// Why not all tasks of a part are done.
#[derive(Clone, Copy, Debug, PartialEq, Eq)]
pub enum PartFault {
    /// All calls for this key failed, before a task was started.
    Failed(Key),
    /// This task was to be started, and a chunk that it reads, and an operation makes, is absent. No
    /// task was started.
    NotReady {
        task: u32,
    },
    /// All tries of this task failed.
    Broken {
        task: u32,
    },
    /// A chunk that a task reads is held with another number of bytes than a chunk of its array has.
    BadChunk {
        /// The chunk's key.
        key: Key,
        /// The bytes that it holds.
        got: u64,
        /// The bytes of a chunk.
        want: u64,
    },
    /// There was no memory, or the depot lacked it.
    NoMemory,
}

/// Runs those tasks of a part of which not all chunks are held, one after another, straight in the
/// depot: nothing is shared, and nobody is waited for. Another process may run the same part, or any
/// other, at the same time.
///
/// First all is asked for, task by task: the chunks that it writes, and, if one of them is absent, the
/// chunks that it reads and an operation makes, each key once. Each call is made again where the store
/// failed, at most `retries` times, and so is each task.
///
/// Nothing is put but chunks of tasks that lacked one. Where the contents are told and were left so by
/// the plan at first, each of these is put with its value, and after `Ok` all chunks of the part's
/// tasks hold theirs.
pub fn run_part<D: PutStore>(
    alloc: Global,
    plan: &Plan,
    depot: &mut D,
    part: &Part,
    retries: u32,
) -> Result<PartCounts, PartFault>
    requires part { IsPartOf plan.now part.now }
    requires few { retries ≤ 8 }
    ensures end { IsPartEnd (asking_of plan.now part.now (retries + 1) (D.shown depot.old)) (D.shown depot.new) result }
    ensures step { Steps (PartPut plan.now part.now (D.shown depot.old)) 0 last_count (D.shown depot.old) (D.shown depot.new) }
    ensures calls { HasCalled (asking_of plan.now part.now (retries + 1) (D.shown depot.old)) (D.shown depot.new) }
{
    range_law();
    // that the plan is sound is told by the plan alone
    let _ops = plan.ops();
    let chosen = choose_tasks(alloc, plan, depot, part, retries)?;
    let Ok(mut memory) = TaskMemory::make(alloc, plan, part.op) else {
        return Err(PartFault::NoMemory);
    };
    run_chosen(plan, depot, part, &chosen, &mut memory, retries)
}
