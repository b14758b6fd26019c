//! The tasks of an accepted plan: the texts in front of its chunks, their run, and what it answers.
ghost use Rattle.std.specs.Prelude.{◌≡◌, ◌+◌, ◌*◌, ◌<◌, IfErr, IfOk, Some};
ghost use Rattle.cu_store.specs.Held.{Contents};
ghost use Rattle.cu_run_law.specs.Pieces.{KeysApart, InputsApart};
ghost use Rattle.cu_work.specs.Calls.{missing_texts};
ghost use Rattle.cu_work.specs.Shared.{IsOpen, IsMemoryFor};
ghost use Rattle.cu_work.specs.World.{IsFound};
ghost use Rattle.cu_command.specs.declared.status.Status.TheVariants.{Done};
ghost use Rattle.cu_top.specs.Calls.{DriveWithin};
ghost use Rattle.cu_top.specs.Driven.{AreHeld, HasPlanAndTexts, IsOfOps, WasDriven, drive_answer};
ghost use Rattle.cu_top.specs.Driven.{drive_case, fault_answer, outcome_answer, run_options};
ghost use Rattle.cu_top.specs.Limits.{WithinStarts};
ghost use Rattle.cu_top.specs.Prepare.{job_plan, HasPlan};
ghost use Rattle.cu_top.specs.Quiet.{run_of_job};

use crate::ask::text_keys;
use crate::prepare::Prepared;
use crate::record::record_text;
use crate::report::{RunCounts, counts_of};
use cu_command::{Job, Status};
use cu_lower::Options;
use cu_meta::write_meta;
use cu_op::{Plan, listed_number};
use cu_plan::merged_plan_law;
use cu_store::{Gate, Key, NoMemory, SharedStore};
use cu_table::broken_law;
use cu_work::{HeldTexts, Outcome, RunEnd, RunFault, RunMemory, RunOptions, Texts, run_plan};
use std::alloc::Global;
use std::sync::Wait;
use std::thread::Threads;

/// A job with its plan, and the texts that are stored in front of its chunks.
pub struct Ready {
    pub job: Job,
    pub plan: Plan,
    /// The record of the plan.
    pub record_text: Vec<u8>,
    /// The metadata of the output.
    pub metadata_text: Vec<u8>,
}

// By hand, as that of `Prepared`.
impl Drop for Ready {
    fn drop(self) {
        let Ready {
            job: _,
            plan: _,
            record_text: _,
            metadata_text: _,
        } = self;
    }
}

/// The texts of an accepted plan.
pub fn make_ready(alloc: Global, options: &Options, prepared: Prepared) -> Result<Ready, NoMemory>
    requires planned { HasPlan options.now prepared.job }
    requires plan { prepared.plan ≡ job_plan options.now prepared.job }
    ensures job { IfOk result (λ r. r.job ≡ prepared.job) }
    ensures ready { IfOk result (HasPlanAndTexts options.now) }
{
    merged_plan_law();
    let (job, plan) = prepared.parts();
    let record_text = record_text(alloc, options, &job)?;
    let metadata_text = write_meta(alloc, &plan.array(plan.out()).layout)?;
    Ok(Ready {
        job,
        plan,
        record_text,
        metadata_text,
    })
}

/// How the tasks are run.
pub fn run_options(options: &Options) -> RunOptions
    ensures { result ≡ run_options options.now }
{
    RunOptions {
        workers: options.workers,
        retries: options.retries,
        backups: options.backups,
    }
}

/// The counts, where all tasks are done; else what is answered, which calls an operation by its number
/// among those whose results are stored.
fn outcome_answer(plan: &Plan, outcome: Outcome, counts: RunCounts) -> Result<RunCounts, Status>
    requires { IsOfOps plan.now outcome }
    ensures { result ≡ outcome_answer plan.now outcome counts }
{
    match outcome {
        Outcome::Complete => Ok(counts),
        Outcome::Broken { op, task } => Err(Status::TaskFailed {
            op: listed_number(plan, op),
            task,
        }),
        Outcome::BadChunk { key, got, want } => Err(Status::BadChunk { key, got, want }),
        Outcome::Lacked => Err(Status::NoMemory),
    }
}

/// What is answered where no task was run and the record has this key.
fn fault_answer(of_record: &Key, fault: RunFault) -> Status
    ensures { result ≡ fault_answer of_record.now fault }
{
    match fault {
        RunFault::TextFailed(key) => Status::DepotFailed { key },
        RunFault::ShareFailed => Status::DepotFailed { key: *of_record },
        RunFault::NoMemory => Status::NoMemory,
    }
}

/// What is answered where the run of the tasks ended so.
fn drive_answer(
    of_record: &Key,
    plan: &Plan,
    ended: Result<RunEnd, RunFault>,
) -> Result<RunCounts, Status>
    requires { IfOk ended (λ e. IsOfOps plan.now e.outcome) }
    ensures { result ≡ drive_answer of_record.now plan.now ended }
{
    match ended {
        Ok(end) => outcome_answer(plan, end.outcome, counts_of(end.table.history())),
        Err(fault) => Err(fault_answer(of_record, fault)),
    }
}

/// Stores the texts that aren't held, runs the tasks that aren't done, and says how often tasks were
/// started and failed.
pub fn drive_plan<H: Threads + Wait + Sync, D: SharedStore, G: Gate>(
    rt: &H,
    alloc: Global,
    options: &Options,
    ready: &Ready,
    held: HeldTexts,
    memory: RunMemory,
    depot: &mut D,
    gate: &G,
) -> Result<RunCounts, Status>
    requires ready { HasPlanAndTexts options.now ready.now }
    requires workers { 0 < options.now.workers }
    requires apart { KeysApart (run_of_job options.now ready.now.job) }
    requires inputs { InputsApart (run_of_job options.now ready.now.job) }
    requires open { IsOpen (run_of_job options.now ready.now.job) (D.shown depot.old) }
    requires held { AreHeld held (run_of_job options.now ready.now.job) (D.shown depot.old).held }
    requires memory { IsMemoryFor (job_plan options.now ready.now.job) (run_options options.now)
        memory.table.done memory }
    requires found { (held : Contents) → (D.shown depot.old).held ≡ Some held
        → IsFound (job_plan options.now ready.now.job) held memory.table.done }
    ensures driven { WasDriven (drive_case options.now (run_of_job options.now ready.now.job) held
        memory.table.done (D.yards_lack depot.new) (D.shown depot.old, D.shown depot.new)) result }
    ensures calls { IfOk result (λ counts. DriveWithin options.now ready.now.job held
        (D.shown depot.old) (D.shown depot.new) Done) }
    ensures starts { IfOk result (λ counts. WithinStarts ((missing_texts held + 1) * (options.now.retries + 1))
        (job_plan options.now ready.now.job) counts (D.shown depot.old) (D.shown depot.new)) }
    ensures stopped_calls { IfErr result (DriveWithin options.now ready.now.job held
        (D.shown depot.old) (D.shown depot.new)) }
{
    broken_law();
    let keys = text_keys(&ready.job.expr);
    let texts = Texts {
        record_key: keys.record,
        record: &ready.record_text,
        metadata_key: keys.metadata,
        metadata: &ready.metadata_text,
    };
    let how = run_options(options);
    let ended = run_plan(
        rt,
        alloc,
        &ready.plan,
        depot,
        &texts,
        held,
        memory,
        &how,
        gate,
    );
    drive_answer(&keys.record, &ready.plan, ended)
}
