//! A run: what is stored, once the job was accepted and nothing is in the way.
ghost use Rattle.std.specs.Prelude.{ℕ, ◌+◌, ◌*◌, List, IfErr, IfOk};
ghost use Rattle.cu_store.specs.Steps.{OnceEach, Shown};
ghost use Rattle.cu_command.specs.Seen.{Stream, stream};
ghost use Rattle.cu_command.specs.declared.status.Status.TheVariants.{Done};
ghost use Rattle.cu_work.specs.declared.run.HeldTexts.TheVariants.{Neither};
ghost use Rattle.cu_top.specs.Calls.{DriveWithin, RunWithin};
ghost use Rattle.cu_top.specs.Driven.{HasPlanAndTexts};
ghost use Rattle.cu_top.specs.Limits.{WithinStarts};
ghost use Rattle.cu_top.specs.Prepare.{job_plan, HasPlan};
ghost use Rattle.cu_top.specs.Quiet.{IsCalm};
ghost use Rattle.cu_top.specs.Run.{scene, case, Ran, PrintsOnly, IsCleared, IsStop, Ended};
ghost use Rattle.cu_top.specs.Words.{IsInRange};

use crate::drive::{Ready, drive_plan, make_ready, run_options};
use crate::prepare::prepare;
use crate::report::{RunCounts, report};
use cu_command::Status;
use cu_lower::Options;
use cu_plan::merged_plan_law;
use cu_run_law::{complete_law, left_law};
use cu_store::{Gate, SharedStore, Sink};
use cu_table::{broken_law, count_law};
use cu_work::{HeldTexts, RunMemory, none_done};
use std::alloc::Global;
use std::sync::Wait;
use std::thread::Threads;

/// Takes the memory of the tasks, and stores what the plan makes. Says how often tasks were started and
/// failed.
pub fn store_plan<H: Threads + Wait + Sync, D: SharedStore, G: Gate>(
    rt: &H,
    alloc: Global,
    options: &Options,
    ready: &Ready,
    depot: &mut D,
    gate: &G,
) -> Result<RunCounts, Status>
    requires options { IsInRange options.now }
    requires planned { HasPlan options.now ready.now.job }
    requires ready { HasPlanAndTexts options.now ready.now }
    requires quiet { (text : List ℕ) × (old : Shown)
        × IsCleared options.now text old (D.shown depot.old) ready.now.job × IsCalm options.now text old }
    ensures ended { (text : List ℕ) (old : Shown) (source next sink after : Stream) (before : ℕ)
        → IsCleared options.now text old (D.shown depot.old) ready.now.job
        → OnceEach before old (D.shown depot.old)
        → Ended (D.yards_lack depot.new) (case options.now text (scene source sink old)
        (scene next after (D.shown depot.new))) ready.now.job (before + 3) result }
    ensures stopped { IfErr result IsStop }
    ensures calls { IfOk result (λ counts. DriveWithin options.now ready.now.job Neither
        (D.shown depot.old) (D.shown depot.new) Done) }
    ensures starts { IfOk result (λ counts. WithinStarts (3 * (options.now.retries + 1))
        (job_plan options.now ready.now.job) counts (D.shown depot.old) (D.shown depot.new)) }
    ensures stopped_calls { IfErr result (DriveWithin options.now ready.now.job Neither
        (D.shown depot.old) (D.shown depot.new)) }
{
    left_law();
    complete_law();
    merged_plan_law();
    count_law();
    broken_law();
    let Ok(done) = none_done(alloc, &ready.plan) else {
        return Err(Status::NoMemory);
    };
    let Ok(memory) = RunMemory::make(alloc, &ready.plan, &run_options(options), &done) else {
        return Err(Status::NoMemory);
    };
    drive_plan(
        rt,
        alloc,
        options,
        ready,
        HeldTexts::Neither,
        memory,
        depot,
        gate,
    )
}

/// Computes the expression of a text over the stored arrays, stores the array that it makes, and writes the report.
pub fn run<H: Threads + Wait + Sync, W: Sink, D: SharedStore, G: Gate>(
    rt: &H,
    alloc: Global,
    options: &Options,
    text: &[u8],
    out: &mut W,
    depot: &mut D,
    gate: &G,
) -> Status
    requires options { IsInRange options.now }
    requires quiet { IsCalm options.now text.now (D.shown depot.old) }
    ensures answer { (source next : Stream) → Ran (D.yards_lack depot.new) (case options.now text.now (scene source (stream (W.written out.old) (W.faults out.old)) (D.shown depot.old))
        (scene next (stream (W.written out.new) (W.faults out.new)) (D.shown depot.new))) result }
    ensures prints { PrintsOnly result (W.written out.old) (W.written out.new) }
    ensures calls { (source next sink after : Stream) → RunWithin (case options.now text.now
        (scene source sink (D.shown depot.old)) (scene next after (D.shown depot.new))) result }
{
    let prepared = match prepare(alloc, options, text, depot) {
        Ok(prepared) => prepared,
        Err(status) => return status,
    };
    let Ok(ready) = make_ready(alloc, options, prepared) else {
        return Status::NoMemory;
    };
    match store_plan(rt, alloc, options, &ready, depot, gate) {
        Ok(counts) => match report(out, &ready.plan, &counts) {
            Ok(()) => Status::Done,
            Err(_) => Status::WriteFault,
        },
        Err(status) => status,
    }
}
