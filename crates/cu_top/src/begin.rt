//! The command that begins a run, whose tasks other processes run.
ghost use Rattle.std.specs.Prelude.{◌≡◌, ◌+◌, ◌*◌, ℕ, List, IfErr};
ghost use Rattle.cu_store.specs.Steps.{Shown};
ghost use Rattle.cu_command.specs.Seen.{Stream, WithinCalls, stream};
ghost use Rattle.cu_top.specs.Begin.{BeginWithin, IsTextsAnswer, TextsEnded, WasBegun, text_answer};
ghost use Rattle.cu_top.specs.Driven.{HasPlanAndTexts};
ghost use Rattle.cu_top.specs.Prepare.{HasPlan};
ghost use Rattle.cu_top.specs.Run.{scene, case, IsCleared, PrintsOnly};
ghost use Rattle.cu_top.specs.Words.{IsInRange};

use crate::ask::text_keys;
use crate::drive::{Ready, make_ready};
use crate::prepare::prepare;
use cu_command::{Status, write_all};
use cu_lower::Options;
use cu_plan::{begun_text, merged_plan_law};
use cu_run_law::{complete_law, left_law};
use cu_store::{PutStore, Sink};
use cu_work::{RunFault, Texts, store_texts};
use std::alloc::Global;

/// What is answered where storing a text ended so.
fn text_answer(fault: RunFault) -> Status
    ensures { result ≡ text_answer fault }
{
    match fault {
        RunFault::TextFailed(key) => Status::DepotFailed { key },
        RunFault::ShareFailed | RunFault::NoMemory => Status::NoMemory,
    }
}

/// Stores the record of an accepted plan and the metadata of its output.
fn store_ready<D: PutStore>(options: &Options, ready: &Ready, depot: &mut D) -> Result<(), Status>
    requires options { IsInRange options.now }
    requires planned { HasPlan options.now ready.now.job }
    requires ready { HasPlanAndTexts options.now ready.now }
    ensures ended { (text : List ℕ) (old : Shown) (source next sink after : Stream)
        → IsCleared options.now text old (D.shown depot.old) ready.now.job
        → TextsEnded (case options.now text (scene source sink old) (scene next after (D.shown depot.new)))
        ready.now.job result }
    ensures stopped { IfErr result IsTextsAnswer }
    ensures calls { WithinCalls (2 * (options.now.retries + 1)) (D.shown depot.old) (D.shown depot.new) }
{
    left_law();
    complete_law();
    merged_plan_law();
    let keys = text_keys(&ready.job.expr);
    let texts = Texts {
        record_key: keys.record,
        record: &ready.record_text,
        metadata_key: keys.metadata,
        metadata: &ready.metadata_text,
    };
    match store_texts(&ready.plan, depot, &texts, options.retries) {
        Ok(()) => Ok(()),
        Err(fault) => Err(text_answer(fault)),
    }
}

/// Begins a run of the expression of a text: refuses what a run refuses, stores the record and the
/// output's metadata, and writes what the plan does. No task is started.
pub fn begin<W: Sink, D: PutStore>(
    alloc: Global,
    options: &Options,
    text: &[u8],
    out: &mut W,
    depot: &mut D,
) -> Status
    requires options { IsInRange options.now }
    ensures answer { (source next : Stream) → WasBegun (case options.now text.now
        (scene source (stream (W.written out.old) (W.faults out.old)) (D.shown depot.old))
        (scene next (stream (W.written out.new) (W.faults out.new)) (D.shown depot.new))) result }
    ensures prints { PrintsOnly result (W.written out.old) (W.written out.new) }
    ensures calls { (source next sink after : Stream) → BeginWithin (case options.now text.now
        (scene source sink (D.shown depot.old)) (scene next after (D.shown depot.new))) result }
{
    let prepared = match prepare(alloc, options, text, depot) {
        Ok(prepared) => prepared,
        Err(status) => return status,
    };
    let Ok(ready) = make_ready(alloc, options, prepared) else {
        return Status::NoMemory;
    };
    let Ok(lines) = begun_text(alloc, &ready.plan) else {
        return Status::NoMemory;
    };
    match store_ready(options, &ready, depot) {
        Ok(()) => {}
        Err(status) => return status,
    }
    match write_all(out, &lines) {
        Ok(()) => Status::Done,
        Err(_) => Status::WriteFault,
    }
}
