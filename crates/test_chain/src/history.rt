//! A run by one worker that meets a chunk of another length.
ghost use Rattle.std.specs.Prelude.{◌≡◌, None};

use crate::plan::{addition, key};
use anyhow::{Result, bail};
use cu_store::{Depot, NoGate, Share};
use cu_work::{RunEnd, RunMemory, RunOptions, none_done, run_tasks};
use std::alloc::Global;
use std::sync::Wait;
use std::thread::Threads;

/// The chunks of `a` = 1, 2, 3, 4, 5, 6, of which the first lacks its last byte, and those of
/// `b` = 10, 20, 30, 40, 50, 60.
const CHUNKS: [(&str, &[u8]); 4] = [
    ("a/c/0", &[1, 0, 0, 0, 2, 0, 0, 0, 3, 0, 0, 0, 4, 0, 0]),
    ("a/c/1", &[5, 0, 0, 0, 6, 0, 0, 0, 0, 0, 0, 0, 0, 0, 0, 0]),
    (
        "b/c/0",
        &[10, 0, 0, 0, 20, 0, 0, 0, 30, 0, 0, 0, 40, 0, 0, 0],
    ),
    ("b/c/1", &[50, 0, 0, 0, 60, 0, 0, 0, 0, 0, 0, 0, 0, 0, 0, 0]),
];

/// Stores the chunks.
pub(crate) fn fill<D: Depot>(depot: &mut D) -> Result<()> {
    for (name, bytes) in CHUNKS {
        if depot.put(&key(name)?, bytes).is_err() {
            bail!("{name} can't be stored");
        }
    }
    Ok(())
}

/// Runs the tasks of the addition by one worker, each tried three times at most.
#[tactic(auto, using(crate::proofs::Additions::open_untold))]
pub(crate) fn run_addition<D: Share>(
    threads: &(impl Threads + Wait + Sync),
    alloc: Global,
    depot: &mut D,
) -> Result<RunEnd>
    requires untold { (D.shown depot.old).held ≡ None }
{
    let plan = addition(alloc)?;
    let options = RunOptions {
        workers: 1,
        retries: 2,
        backups: false,
    };
    let Ok(done) = none_done(alloc, &plan) else {
        bail!("no memory");
    };
    let Ok(memory) = RunMemory::make(alloc, &plan, &options, &done) else {
        bail!("no memory");
    };
    match run_tasks(threads, alloc, &plan, depot, memory, &options, &NoGate) {
        Ok(end) => Ok(end),
        Err(_) => bail!("the keys can't be shared"),
    }
}
