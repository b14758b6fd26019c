//! Makes a plan of two sums, and the memory for its run: a line says how many operations, arrays and shared keys there are. The proofs
//! show of this plan what each condition of a schedule is for. Then one worker runs a plan of one sum over a chunk of another length: a
//! line says how it ended, and one each what happened to a task.
#![tactic(auto)]

mod history;
mod plan;

use anyhow::{Result, bail};
use cu_dir::DirDepot;
use cu_work::{Outcome, RunEnd, RunMemory, RunOptions, none_done};
use history::{fill, run_addition};
use plan::chain;
use std::fs;
use std::sync::Wait;
use std::thread::Threads;

/// The folder of the chunks, which is made and removed.
const FOLDER: &str = "folder_of_a_run";

/// Makes the plan of two sums.
fn make_chain(rt: &HostRuntime) -> Result<()> {
    let alloc = rt.alloc();
    let plan = chain(alloc)?;
    let options = RunOptions {
        workers: 2,
        retries: 1,
        backups: false,
    };
    let Ok(done) = none_done(alloc, &plan) else {
        bail!("no memory");
    };
    let Ok(memory) = RunMemory::make(alloc, &plan, &options, &done) else {
        bail!("no memory");
    };
    println!(rt;
        "operations {}, arrays {}, keys {}",
        plan.ops().len(),
        plan.arrays().len(),
        memory.specs.len()
    )?;
    Ok(())
}

/// Prints which chunk was of another length.
fn print_outcome(rt: &HostRuntime, outcome: &Outcome) -> Result<()> {
    match outcome {
        Outcome::BadChunk { key, got, want } => {
            println!(rt; "{} has {got} bytes, not {want}", key.text())?;
            Ok(())
        }
        _ => bail!("no chunk was bad"),
    }
}

/// Prints how a run ended, and what happened.
fn print_end(rt: &HostRuntime, end: &RunEnd) -> Result<()> {
    print_outcome(rt, &end.outcome)?;
    for entry in end.table.history() {
        println!(rt; "{:?} of task {}", entry.kind, entry.task)?;
    }
    Ok(())
}

/// Runs the plan of one sum.
fn run_over_short_chunk(rt: &HostRuntime, threads: &(impl Threads + Wait + Sync)) -> Result<()> {
    let alloc = rt.alloc();
    let Ok(mut depot) = DirDepot::make(rt, alloc, FOLDER) else {
        bail!("no memory");
    };
    fill(&mut depot)?;
    let end = run_addition(threads, alloc, &mut depot)?;
    fs::remove_dir_all(rt, FOLDER)?;
    print_end(rt, &end)
}

fn main(rt: HostRuntime) -> Result<()> {
    make_chain(&rt)?;
    run_over_short_chunk(&rt, &rt)
}
