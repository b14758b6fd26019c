//! The removal of a plan's keys.
ghost use Rattle.std.specs.Prelude.{◌≡◌, ℕ, ◌≤◌, length, OnErr, OnOk};
ghost use Rattle.cu_store.specs.Faults.{Rose};
ghost use Rattle.cu_command.specs.Seen.{Stream, stream};
ghost use Rattle.cu_command.specs.Streams.{WroteFront};
ghost use Rattle.cu_top.specs.Calls.{DropWithin};
ghost use Rattle.cu_top.specs.Drop.{Dropped, removal_line, remove_answer};
ghost use Rattle.cu_top.specs.Run.{scene, case, PrintsOnly};
ghost use Rattle.cu_top.specs.Words.{IsInRange};

use crate::ask::text_keys;
use crate::held::reopen;
use cu_command::{LineText, Status, push_field, write_all};
use cu_lower::Options;
use cu_op::Plan;
use cu_plan::{cell_count, merged_plan_law};
use cu_run_law::{complete_law, left_law};
use cu_store::{Depot, Failed, Sink};
use cu_work::{RemoveFault, commands_law, remove_plan};
use std::alloc::Global;

/// The line that reports the removal of a plan's keys.
#[tactic(auto, unfolding(crate::specs::Drop::removal_line))]
fn removal_text(plan: &Plan) -> LineText
    ensures { result.bytes ≡ removal_line plan.now }
{
    let mut line = LineText::new();
    push_field(&mut line, "ok keys=", cell_count(plan) + 2);
    line.push_str("\n");
    line
}

/// Writes that line.
fn report_removal<W: Sink>(out: &mut W, plan: &Plan) -> Result<(), Failed>
    ensures all { OnOk result (WroteFront (W.written out.old) (W.written out.new)
        (removal_line plan.now) (length (removal_line plan.now))) }
    ensures front { OnErr result ((n : ℕ) × (n ≤ length (removal_line plan.now))
        × WroteFront (W.written out.old) (W.written out.new) (removal_line plan.now) n) }
    ensures cause { OnErr result (Rose 1 (W.faults out.old) (W.faults out.new)) }
{
    let line = removal_text(plan);
    write_all(out, line.as_bytes())
}

/// What is answered where removing the keys ended so.
fn remove_answer(fault: RemoveFault) -> Status
    ensures { result ≡ remove_answer fault }
{
    match fault {
        RemoveFault::Failed(key) => Status::DepotFailed { key },
        RemoveFault::NoMemory => Status::NoMemory,
    }
}

/// Removes all keys of the plan of a text's expression, the record's last, and says how many they are.
/// The text is refused as that of a run, and then the record where it isn't held or another is.
pub fn drop_plan<W: Sink, D: Depot>(
    alloc: Global,
    options: &Options,
    text: &[u8],
    out: &mut W,
    depot: &mut D,
) -> Status
    requires options { IsInRange options.now }
    ensures answer { (source next : Stream) → Dropped (case options.now text.now
        (scene source (stream (W.written out.old) (W.faults out.old)) (D.shown depot.old))
        (scene next (stream (W.written out.new) (W.faults out.new)) (D.shown depot.new))) result }
    ensures prints { PrintsOnly result (W.written out.old) (W.written out.new) }
    ensures calls { (source next sink after : Stream) → DropWithin (case options.now text.now
        (scene source sink (D.shown depot.old)) (scene next after (D.shown depot.new))) result }
{
    left_law();
    complete_law();
    merged_plan_law();
    commands_law();
    let ready = match reopen(alloc, options, text, depot) {
        Ok(ready) => ready,
        Err(status) => return status,
    };
    let keys = text_keys(&ready.job.expr);
    match remove_plan(
        &ready.plan,
        depot,
        &keys.record,
        &keys.metadata,
        options.retries,
    ) {
        Ok(()) => match report_removal(out, &ready.plan) {
            Ok(()) => Status::Done,
            Err(_) => Status::WriteFault,
        },
        Err(fault) => remove_answer(fault),
    }
}
