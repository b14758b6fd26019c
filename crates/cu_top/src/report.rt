//! The report of a run.
ghost use Rattle.std.specs.Prelude.{◌≡◌, ℕ, ◌≤◌, length, OnOk, OnErr};
ghost use Rattle.cu_store.specs.Faults.{Rose};
ghost use Rattle.cu_history.specs.History.{is_start, is_failed, count_kind};
ghost use Rattle.cu_plan.specs.Listed.{listed};
ghost use Rattle.cu_command.specs.Streams.{WroteFront};
ghost use Rattle.cu_top.specs.Report.{report_line};

use cu_command::{LineText, push_field, write_all};
use cu_history::Entry;
use cu_op::{Plan, listed_number};
use cu_plan::{peak, task_count};
use cu_store::{Failed, Sink};
use cu_work::{failures, starts};

/// How often tasks were started, and how often one failed.
#[derive(Clone, Copy)]
pub struct RunCounts {
    pub starts: u64,
    pub failures: u64,
}

/// Those of a history.
pub fn counts_of(history: &[Entry]) -> RunCounts
    ensures starts { result.starts ≡ count_kind is_start history.now }
    ensures failures { result.failures ≡ count_kind is_failed history.now }
{
    RunCounts {
        starts: starts(history) as u64,
        failures: failures(history) as u64,
    }
}

/// How many operations of a plan have a stored result.
fn listed_count(plan: &Plan) -> u64
    ensures { result ≡ length (listed plan.now) }
{
    u64::from(listed_number(plan, plan.ops().len() as u32))
}

/// The line that reports a run of the plan whose tasks were started and failed so often.
#[tactic(auto, unfolding(crate::specs::Report::report_line))]
pub fn report_text(plan: &Plan, counts: &RunCounts) -> LineText
    ensures { result.bytes ≡ report_line plan.now counts.now }
{
    let mut line = LineText::new();
    push_field(&mut line, "ok ops=", listed_count(plan));
    push_field(&mut line, " tasks=", task_count(plan));
    push_field(&mut line, " starts=", counts.starts);
    push_field(&mut line, " failed=", counts.failures);
    push_field(&mut line, " peak=", peak(plan));
    line.push_str("\n");
    line
}

/// Writes the line that reports a run of the plan whose tasks were started and failed so often.
pub fn report<W: Sink>(out: &mut W, plan: &Plan, counts: &RunCounts) -> Result<(), Failed>
    ensures all { OnOk result (WroteFront (W.written out.old) (W.written out.new) (report_line plan.now counts.now) (length (report_line plan.now counts.now))) }
    ensures front { OnErr result ((n : ℕ) × (n ≤ length (report_line plan.now counts.now)) × WroteFront (W.written out.old) (W.written out.new) (report_line plan.now counts.now) n) }
    ensures cause { OnErr result (Rose 1 (W.faults out.old) (W.faults out.new)) }
{
    let line = report_text(plan, counts);
    write_all(out, line.as_bytes())
}
