//! A run that goes on from what one that was stopped has left.
ghost use Rattle.std.specs.Prelude.{◌≡◌, ℕ, ◌+◌, ◌*◌, List, IfErr, IfOk, Some, length};
ghost use Rattle.cu_name.specs.Keys.{record_key_of};
ghost use Rattle.cu_store.specs.Held.{Contents, IsHeldIn};
ghost use Rattle.cu_work.specs.Order.{plan_keys};
ghost use Rattle.cu_work.specs.Search.{NamesStored};
ghost use Rattle.cu_work.specs.Shared.{IsMemoryFor};
ghost use Rattle.cu_work.specs.World.{IsFound};
ghost use Rattle.cu_command.specs.Seen.{Stepped, Stream, WithinCalls, stream};
ghost use Rattle.cu_command.specs.declared.status.Status.TheVariants.{Done};
ghost use Rattle.cu_store.specs.Steps.{NoChange, OnceEach, Shown};
ghost use Rattle.cu_top.specs.Calls.{GoneOnWithin, ResumeWithin};
ghost use Rattle.cu_top.specs.Driven.{AreHeld, HasPlanAndTexts, run_options};
ghost use Rattle.cu_top.specs.Held.{IsFoundAgain, IsLeftEntry};
ghost use Rattle.cu_top.specs.Limits.{WithinStarts};
ghost use Rattle.cu_top.specs.Prepare.{job_plan, keys_of};
ghost use Rattle.cu_top.specs.Quiet.{run_of_job};
ghost use Rattle.cu_top.specs.Resume.{HasRecord, IsRestFault, ResumeEnded, WasResumed, find_answer};
ghost use Rattle.cu_top.specs.Run.{scene, case, PrintsOnly};
ghost use Rattle.cu_top.specs.Words.{IsInRange};

use crate::ask::text_keys;
use crate::drive::{Ready, drive_plan, run_options};
use crate::held::reopen;
use crate::report::{RunCounts, report};
use cu_command::{Status, ask_key};
use cu_lower::Options;
use cu_plan::merged_plan_law;
use cu_run_law::{complete_law, left_law};
use cu_store::{Gate, PutStore, SharedStore, Sink};
use cu_table::{broken_law, done_law};
use cu_work::{FindFault, HeldTexts, RunMemory, find_done, resume_law};
use std::alloc::Global;
use std::sync::Wait;
use std::thread::Threads;

/// What a run that goes on begins with.
#[derive(Drop)]
struct Rest {
    /// Which texts are held.
    held: HeldTexts,
    /// The memory, whose table has the tasks that are done.
    memory: RunMemory,
}

/// What is answered where finding the tasks that are done ended so.
fn find_answer(fault: FindFault) -> Status
    ensures { result ≡ find_answer fault }
{
    match fault {
        FindFault::Failed(key) => Status::DepotFailed { key },
        FindFault::NoMemory => Status::NoMemory,
    }
}

/// Which of the texts of a plan are held whose record is, and which tasks are done; and all memory of
/// the tasks. Nothing is changed.
fn find_rest<D: PutStore>(
    alloc: Global,
    options: &Options,
    ready: &Ready,
    depot: &mut D,
) -> Result<Rest, Status>
    requires ready { HasPlanAndTexts options.now ready.now }
    requires known { IsHeldIn (D.shown depot.old).held (record_key_of ready.now.job.expr.store_as) }
    ensures has { IfOk result (λ r. HasRecord r.held) }
    ensures texts { IfOk result (λ r. AreHeld r.held (run_of_job options.now ready.now.job)
        (D.shown depot.new).held) }
    ensures memory { IfOk result (λ r. IsMemoryFor (job_plan options.now ready.now.job)
        (run_options options.now) r.memory.table.done r.memory) }
    ensures found { (held : Contents) → (D.shown depot.new).held ≡ Some held → IfOk result (λ r.
        IsFound (job_plan options.now ready.now.job) held r.memory.table.done) }
    ensures named { (held : Contents) → (D.shown depot.old).held ≡ Some held → IfOk result (λ r.
        NamesStored (job_plan options.now ready.now.job) held r.memory.table.done) }
    ensures step { Stepped NoChange (D.shown depot.old) (D.shown depot.new) }
    ensures fault { IfErr result (IsRestFault (options.now.retries + 1)
        (keys_of options.now ready.now.job) (D.shown depot.old, D.shown depot.new)) }
    // The metadata and each chunk are asked for.
    ensures calls { WithinCalls ((1 + length (plan_keys ready.now.plan (length ready.now.plan.ops)))
        * (options.now.retries + 1)) (D.shown depot.old) (D.shown depot.new) }
    ensures once { OnceEach (1 + length (plan_keys ready.now.plan (length ready.now.plan.ops)))
        (D.shown depot.old) (D.shown depot.new) }
{
    let key = text_keys(&ready.job.expr).metadata;
    let held = match ask_key(depot, &key, options.retries) {
        Ok(true) => HeldTexts::Both,
        Ok(false) => HeldTexts::Record,
        Err(status) => return Err(status),
    };
    let done = match find_done(alloc, depot, &ready.plan, options.retries) {
        Ok(done) => done,
        Err(fault) => return Err(find_answer(fault)),
    };
    match RunMemory::make(alloc, &ready.plan, &run_options(options), &done) {
        Ok(memory) => Ok(Rest { held, memory }),
        Err(_) => Err(Status::NoMemory),
    }
}

/// Runs the tasks of a plan that was found again and whose chunks aren't all held. Says how often tasks
/// were started and failed.
fn go_on<H: Threads + Wait + Sync, D: SharedStore, G: Gate>(
    rt: &H,
    alloc: Global,
    options: &Options,
    ready: &Ready,
    depot: &mut D,
    gate: &G,
) -> Result<RunCounts, Status>
    requires options { IsInRange options.now }
    requires ready { HasPlanAndTexts options.now ready.now }
    requires left { (text : List ℕ) × (old : Shown)
        × IsFoundAgain options.now text old (D.shown depot.old) ready.now.job × IsLeftEntry options.now text old }
    ensures ended { (text : List ℕ) (old : Shown) (source next sink after : Stream) (before : ℕ)
        → IsFoundAgain options.now text old (D.shown depot.old) ready.now.job → IsLeftEntry options.now text old
        → OnceEach before old (D.shown depot.old)
        → ResumeEnded (D.yards_lack depot.new) (case options.now text (scene source sink old)
        (scene next after (D.shown depot.new))) ready.now.job
        (before + length (keys_of options.now ready.now.job) + 1) result }
    ensures calls { IfOk result (λ counts. GoneOnWithin options.now ready.now.job
        (D.shown depot.old) (D.shown depot.new) Done) }
    ensures starts { IfOk result (λ counts. WithinStarts ((length (keys_of options.now ready.now.job) + 1) * (options.now.retries + 1))
        (job_plan options.now ready.now.job) counts (D.shown depot.old) (D.shown depot.new)) }
    ensures stopped_calls { IfErr result (GoneOnWithin options.now ready.now.job
        (D.shown depot.old) (D.shown depot.new)) }
{
    left_law();
    complete_law();
    merged_plan_law();
    broken_law();
    done_law();
    resume_law();
    let rest = match find_rest(alloc, options, ready, depot) {
        Ok(rest) => rest,
        Err(status) => return Err(status),
    };
    let Rest { held, memory } = rest;
    drive_plan(rt, alloc, options, ready, held, memory, depot, gate)
}

/// Goes on with a run of the expression of a text: finds its plan again and the tasks whose chunks are
/// all held, runs the others, and writes the report.
pub fn resume<H: Threads + Wait + Sync, W: Sink, D: SharedStore, G: Gate>(
    rt: &H,
    alloc: Global,
    options: &Options,
    text: &[u8],
    out: &mut W,
    depot: &mut D,
    gate: &G,
) -> Status
    requires options { IsInRange options.now }
    requires left { IsLeftEntry options.now text.now (D.shown depot.old) }
    ensures answer { (source next : Stream) → WasResumed (D.yards_lack depot.new)
        (case options.now text.now
        (scene source (stream (W.written out.old) (W.faults out.old)) (D.shown depot.old))
        (scene next (stream (W.written out.new) (W.faults out.new)) (D.shown depot.new))) result }
    ensures prints { PrintsOnly result (W.written out.old) (W.written out.new) }
    ensures calls { (source next sink after : Stream) → ResumeWithin (case options.now text.now
        (scene source sink (D.shown depot.old)) (scene next after (D.shown depot.new))) result }
{
    let ready = match reopen(alloc, options, text, depot) {
        Ok(ready) => ready,
        Err(status) => return status,
    };
    match go_on(rt, alloc, options, &ready, depot, gate) {
        Ok(counts) => match report(out, &ready.plan, &counts) {
            Ok(()) => Status::Done,
            Err(_) => Status::WriteFault,
        },
        Err(status) => status,
    }
}
