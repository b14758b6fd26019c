//! The command that runs some tasks of one operation of a plan that was begun.
ghost use Rattle.std.specs.Prelude.{◌≡◌, ℕ, ◌≤◌, length, MatchOption, OnErr, OnOk};
ghost use Rattle.cu_store.specs.Faults.{Rose};
ghost use Rattle.cu_command.specs.Seen.{Stream, stream};
ghost use Rattle.cu_command.specs.Streams.{WroteFront};
ghost use Rattle.cu_work.specs.Part.{IsPartOf};
ghost use Rattle.cu_top.specs.Held.{IsLeftEntry};
ghost use Rattle.cu_top.specs.Parts.{PartWithin, WasParted, inner_number, inner_part};
ghost use Rattle.cu_top.specs.Parts.{part_fault_answer, part_line, tasks_at};
ghost use Rattle.cu_top.specs.Run.{scene, case, PrintsOnly};
ghost use Rattle.cu_top.specs.Words.{IsInRange, part_numbers};

use crate::held::reopen;
use crate::words::PartNumbers;
use cu_command::{LineText, Status, push_field, write_all};
use cu_lower::Options;
use cu_op::{Plan, is_listed, listed_number, tasks};
use cu_plan::merged_plan_law;
use cu_run_law::{complete_law, left_law};
use cu_store::{Failed, PutStore, Sink};
use cu_work::{Part, PartCounts, PartFault, run_part};
use std::alloc::Global;

/// The number, among all operations, of the one with this number among those whose results are stored:
/// how many operations there are where there is no such operation.
fn inner_number(plan: &Plan, number: u64) -> u64
    ensures { result ≡ inner_number plan.now number }
{
    let mut before: u64 = 0;
    for op in 0..plan.ops().len() as u32 {
        if is_listed(plan, op) {
            if before == number {
                return u64::from(op);
            }
            before += 1;
        }
    }
    plan.ops().len() as u64
}

/// The same tasks, with the number that their operation has among all.
fn inner_numbers(plan: &Plan, numbers: &PartNumbers) -> PartNumbers
    ensures { part_numbers result ≡ inner_part plan.now (part_numbers numbers.now) }
{
    PartNumbers {
        op: inner_number(plan, numbers.op),
        from: numbers.from,
        to: numbers.to,
    }
}

/// How many tasks the operation of this number has: none where there is no such operation.
fn tasks_at(plan: &Plan, op: u64) -> u64
    ensures { result ≡ tasks_at plan.now op }
{
    if op < plan.ops().len() as u64 {
        u64::from(tasks(plan, op as u32))
    } else {
        0
    }
}

/// The part of the plan that the numbers give, where the plan has these tasks.
fn part_of(plan: &Plan, numbers: &PartNumbers) -> Option<Part>
    ensures { MatchOption result (IsPartOf plan.now (part_numbers numbers.now) → ⊥)
        (λ part. (part ≡ part_numbers numbers.now) × IsPartOf plan.now part) }
{
    if numbers.op >= plan.ops().len() as u64 || numbers.from > numbers.to {
        return None;
    }
    if numbers.to > u64::from(tasks(plan, numbers.op as u32)) {
        return None;
    }
    Some(Part {
        op: numbers.op as u32,
        from: numbers.from as u32,
        to: numbers.to as u32,
    })
}

/// The line that reports a part of a plan.
#[tactic(auto, unfolding(crate::specs::Parts::part_line))]
fn part_text(plan: &Plan, part: &Part, counts: &PartCounts) -> LineText
    requires { IsPartOf plan.now part.now }
    ensures { result.bytes ≡ part_line plan.now part.now counts.now }
{
    let mut line = LineText::new();
    push_field(&mut line, "ok ops=1 tasks=", u64::from(part.to - part.from));
    push_field(&mut line, " starts=", counts.starts);
    push_field(&mut line, " failed=", counts.failures);
    push_field(&mut line, " peak=", plan.operation(part.op).projected);
    line.push_str("\n");
    line
}

/// Writes that line.
fn report_part<W: Sink>(
    out: &mut W,
    plan: &Plan,
    part: &Part,
    counts: &PartCounts,
) -> Result<(), Failed>
    requires { IsPartOf plan.now part.now }
    ensures all { OnOk result (WroteFront (W.written out.old) (W.written out.new)
        (part_line plan.now part.now counts.now) (length (part_line plan.now part.now counts.now))) }
    ensures front { OnErr result ((n : ℕ) × (n ≤ length (part_line plan.now part.now counts.now))
        × WroteFront (W.written out.old) (W.written out.new) (part_line plan.now part.now counts.now) n) }
    ensures cause { OnErr result (Rose 1 (W.faults out.old) (W.faults out.new)) }
{
    let line = part_text(plan, part, counts);
    write_all(out, line.as_bytes())
}

/// What is answered where a part of this operation ended so.
fn part_fault_answer(op: u32, fault: PartFault) -> Status
    ensures { result ≡ part_fault_answer op fault }
{
    match fault {
        PartFault::Failed(key) => Status::DepotFailed { key },
        PartFault::NotReady { task } => Status::NotReady { op, task },
        PartFault::Broken { task } => Status::TaskFailed { op, task },
        PartFault::BadChunk { key, got, want } => Status::BadChunk { key, got, want },
        PartFault::NoMemory => Status::NoMemory,
    }
}

/// Runs those tasks of an operation whose numbers are given and whose chunks aren't all held, and writes
/// the report. The operation is called by its number among those whose results are stored. The text is
/// refused as that of a run that goes on, up to the record.
pub fn store_part<W: Sink, D: PutStore>(
    alloc: Global,
    options: &Options,
    numbers: &PartNumbers,
    text: &[u8],
    out: &mut W,
    depot: &mut D,
) -> Status
    requires options { IsInRange options.now }
    requires left { IsLeftEntry options.now text.now (D.shown depot.old) }
    ensures answer { (source next : Stream) → WasParted (case options.now text.now
        (scene source (stream (W.written out.old) (W.faults out.old)) (D.shown depot.old))
        (scene next (stream (W.written out.new) (W.faults out.new)) (D.shown depot.new)))
        (part_numbers numbers.now) result }
    ensures prints { PrintsOnly result (W.written out.old) (W.written out.new) }
    ensures calls { (source next sink after : Stream) → PartWithin (case options.now text.now
        (scene source sink (D.shown depot.old)) (scene next after (D.shown depot.new)))
        (part_numbers numbers.now) result }
{
    left_law();
    complete_law();
    merged_plan_law();
    let ready = match reopen(alloc, options, text, depot) {
        Ok(ready) => ready,
        Err(status) => return status,
    };
    let inner = inner_numbers(&ready.plan, numbers);
    let Some(part) = part_of(&ready.plan, &inner) else {
        let tasks = tasks_at(&ready.plan, inner.op);
        return Status::NoTasks {
            op: numbers.op,
            tasks,
        };
    };
    match run_part(alloc, &ready.plan, depot, &part, options.retries) {
        Ok(counts) => match report_part(out, &ready.plan, &part, &counts) {
            Ok(()) => Status::Done,
            Err(_) => Status::WriteFault,
        },
        Err(fault) => part_fault_answer(listed_number(&ready.plan, part.op), fault),
    }
}
