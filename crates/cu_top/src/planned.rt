//! The command that says what a plan does.
ghost use Rattle.std.specs.Prelude.{◌+◌};
ghost use Rattle.cu_store.specs.Steps.{OnceEach};
ghost use Rattle.cu_command.specs.Seen.{Stream, WithinCalls, stream};
ghost use Rattle.cu_top.specs.Planned.{Plans, plan_calls};
ghost use Rattle.cu_top.specs.Run.{scene, case, PrintsOnly};
ghost use Rattle.cu_top.specs.Words.{IsInRange};

use crate::prepare::plan_job;
use cu_command::{Status, write_all};
use cu_lower::Options;
use cu_plan::plan_text;
use cu_store::{PutStore, Sink};
use std::alloc::Global;

/// Makes the plan of a text's expression, and writes what it does: a line for each operation whose result is stored, and one for
/// the whole plan. Nothing is stored.
pub fn print_plan<W: Sink, D: PutStore>(
    alloc: Global,
    options: &Options,
    text: &[u8],
    out: &mut W,
    depot: &mut D,
) -> Status
    requires options { IsInRange options.now }
    ensures answer { (source next : Stream) → Plans (case options.now text.now (scene source (stream (W.written out.old) (W.faults out.old)) (D.shown depot.old))
        (scene next (stream (W.written out.new) (W.faults out.new)) (D.shown depot.new))) result }
    ensures prints { PrintsOnly result (W.written out.old) (W.written out.new) }
    ensures calls { WithinCalls (plan_calls (options.now.retries + 1) text.now) (D.shown depot.old) (D.shown depot.new) }
    ensures once { OnceEach (plan_calls 1 text.now) (D.shown depot.old) (D.shown depot.new) }
{
    let prepared = match plan_job(alloc, options, text, depot) {
        Ok(prepared) => prepared,
        Err(status) => return status,
    };
    let Ok(lines) = plan_text(alloc, &prepared.plan) else {
        return Status::NoMemory;
    };
    match write_all(out, &lines) {
        Ok(()) => Status::Done,
        Err(_) => Status::WriteFault,
    }
}
