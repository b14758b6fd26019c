//! The kind of case in which workers take turns at a task table.
ghost use Rattle.std.specs.Prelude.{◌≡◌, IfOk, length};
ghost use Rattle.cu_lower.specs.Parts.{AreOptions};
ghost use Rattle.cu_table.specs.Numbers.{task_count};

use crate::bytes::{NamedTexts, key_of};
use crate::claims::Turns;
use crate::findings::{CasePlace, Findings};
use crate::members::{Said, list_of, number_of, refuse_others, text_of};
use crate::typing::inputs_of;
use anyhow::{Result, bail};
use cu_expr::type_of;
use cu_lower::Options;
use cu_op::Plan;
use cu_plan::{plan, task_count};
use cu_read::read_expr;
use cu_store::TaskFault;
use cu_table::{Claim, Entry, EventKind, TaskId};
use serde_json::Value;
use std::alloc::Global;
use std::fmt::Write;

/// Lets `workers` workers claim and report the tasks of the plan of `expr` over its `inputs`, with
/// `allowed` bytes and `split` partial results a merge. The table has `retries` and `backups`, and
/// the tasks of the list `done` are done at first.
///
/// Each of `turns` has what is done and then each answer that may come: `claim WORKER`, or `ok`,
/// `store`, `bad` or `memory` with the operation and the task that ends so and, of its copies, the
/// place among their workers. An answer has the words of the claim, and each entry that the turn
/// adds to the history, without its worker, which must be the one whose turn it is.
pub fn run_turns(
    texts: &NamedTexts<'_>,
    said: &Said<'_>,
    name: &str,
    findings: &mut Findings,
) -> Result<()> {
    refuse_others(
        said.case,
        &[
            "name", "expr", "inputs", "allowed", "split", "retries", "backups", "done", "workers",
            "turns",
        ],
    )?;
    let plan = plan_of(texts, said)?;
    let mut turns = turns_of(texts.alloc, said, &plan)?;
    for (at, turn) in said.list("turns")?.iter().enumerate() {
        let [what, may @ ..] = list_of(turn)? else {
            bail!("a turn has what is done");
        };
        let is = take_turn(texts.alloc, &mut turns, list_of(what)?)?;
        findings.made();
        expect_among(&CasePlace::row(name, at), &is, may, findings)?;
    }
    Ok(())
}

/// Compares an answer with those that may come.
fn expect_among(
    place: &CasePlace<'_>,
    is: &str,
    may: &[Value],
    findings: &mut Findings,
) -> Result<()> {
    for one in may {
        if text_of(one)? == is {
            return Ok(());
        }
    }
    findings.differ(place, "the answer", is, "one of the row's")
}

/// The number of this name, or another where there is none.
fn number_or(said: &Said<'_>, name: &str, other: u32) -> Result<u32> {
    match said.number(name)? {
        None => Ok(other),
        Some(number) => small_of(number),
    }
}

/// A number of 32 bits.
fn small_of(number: u64) -> Result<u32> {
    match u32::try_from(number) {
        Ok(small) => Ok(small),
        Err(_) => bail!("{number} is too large"),
    }
}

/// The options that a case names.
fn options_of(said: &Said<'_>) -> Result<Options>
    ensures { IfOk result AreOptions }
{
    let allowed = said.number("allowed")?.unwrap_or(200_000_000);
    let split_every = number_or(said, "split", 4)?;
    if allowed > 1 << 40 || split_every < 2 || split_every > 64 {
        bail!("no such options");
    }
    Ok(Options {
        allowed,
        reserved: 0,
        split_every,
        retries: 0,
        workers: 1,
        backups: false,
        fusion: 1,
    })
}

/// The plan of a case.
fn plan_of(texts: &NamedTexts<'_>, said: &Said<'_>) -> Result<Plan> {
    let alloc = texts.alloc;
    let Some(text) = said.member("expr") else {
        bail!("an expression is wanted");
    };
    let options = options_of(said)?;
    let inputs = inputs_of(alloc, said.list("inputs")?)?;
    let Ok(expr) = read_expr(alloc, &texts.bytes(text)?) else {
        bail!("no expression");
    };
    let Ok(types) = type_of(alloc, &expr, &inputs) else {
        bail!("no types");
    };
    match plan(alloc, &expr, &types, &inputs, &options) {
        Ok(plan) => Ok(plan),
        Err(_) => bail!("no plan"),
    }
}

/// The workers of a case at its table.
fn turns_of(alloc: Global, said: &Said<'_>, plan: &Plan) -> Result<Turns> {
    let retries = number_or(said, "retries", 2)?;
    let workers = number_or(said, "workers", 1)?;
    let done = done_of(alloc, said.list("done")?, plan)?;
    Turns::make(
        alloc,
        plan,
        retries,
        said.is_set("backups")?,
        &done,
        workers,
    )
}

/// Of each task whether it is done, from a list of the tasks that are, by their numbers among all.
fn done_of(alloc: Global, list: &[Value], plan: &Plan) -> Result<Vec<bool>>
    ensures { IfOk result (λ done. length done.items ≡ task_count plan.now) }
{
    let mut done = vec![in alloc; false; task_count(plan) as usize]?;
    for value in list {
        let at = number_of(value)? as usize;
        if at >= done.len() {
            bail!("there is no task {at}");
        }
        done[at] = true;
    }
    Ok(done)
}

/// What a turn answers.
fn take_turn(alloc: Global, turns: &mut Turns, what: &[Value]) -> Result<String> {
    let before = turns.history().len();
    let [word, numbers @ ..] = what else {
        bail!("a turn has a word");
    };
    let word = text_of(word)?;
    let mut text = String::new(alloc);
    let worker = match numbers {
        [worker] => {
            let worker = small_of(number_of(worker)?)?;
            if word != "claim" {
                bail!("{word} is no turn of a worker");
            }
            write_claim(&mut text, turns.claim(worker))?;
            worker
        }
        [op, task, copy] => {
            let id = TaskId {
                op: small_of(number_of(op)?)?,
                task: small_of(number_of(task)?)?,
            };
            let worker = worker_of(turns, id, number_of(copy)?)?;
            turns.report(worker, outcome_of(word)?);
            worker
        }
        _ => bail!("a turn has one number or three"),
    };
    let history = turns.history();
    if before < history.len() {
        write_entries(&mut text, &history[before..], worker)?;
    }
    Ok(text)
}

/// The worker that runs the copy of a task at this place, by the numbers of the workers.
fn worker_of(turns: &Turns, id: TaskId, copy: u64) -> Result<u32> {
    let mut others = copy;
    for (worker, runs) in turns.running().iter().enumerate() {
        if *runs == Some(id) {
            if others == 0 {
                return small_of(worker as u64);
            }
            others -= 1;
        }
    }
    bail!("nobody runs task {} of operation {}", id.task, id.op)
}

/// How a task ended, by its word.
fn outcome_of(word: &str) -> Result<Result<(), TaskFault>> {
    match word {
        "ok" => Ok(Ok(())),
        "store" => Ok(Err(TaskFault::Store)),
        "memory" => Ok(Err(TaskFault::NoMemory)),
        "bad" => {
            let key = key_of("x/c/0")?;
            Ok(Err(TaskFault::BadChunk {
                key,
                got: 3,
                want: 4,
            }))
        }
        _ => bail!("{word} is no outcome"),
    }
}

/// Writes what a claim answers.
fn write_claim(text: &mut String, claim: Option<Claim>) -> Result<()> {
    match claim {
        None => write!(text, "none")?,
        Some(Claim::Run { op, task, copy }) => write!(text, "run {op} {task} {copy}")?,
        Some(Claim::Idle) => write!(text, "idle")?,
        Some(Claim::Finished) => write!(text, "finished")?,
        Some(Claim::Broken { op, task }) => write!(text, "broken {op} {task}")?,
        Some(Claim::Halted(fault)) => write_fault(text, fault)?,
    }
    Ok(())
}

/// Writes the fault that halted the run.
fn write_fault(text: &mut String, fault: TaskFault) -> Result<()> {
    match fault {
        TaskFault::Store => write!(text, "halted store")?,
        TaskFault::NoMemory => write!(text, "halted memory")?,
        TaskFault::BadChunk { key, got, want } => {
            write!(text, "halted {} {got} {want}", key.text())?
        }
    }
    Ok(())
}

/// Writes entries of this worker.
fn write_entries(text: &mut String, entries: &[Entry], worker: u32) -> Result<()> {
    for entry in entries {
        let word = match entry.kind {
            EventKind::Start => "start",
            EventKind::Done => "done",
            EventKind::Failed => "failed",
            EventKind::Halt => "halt",
            EventKind::Late => "late",
        };
        let before = if text.is_empty() { "" } else { " " };
        let other = if entry.worker == worker { "" } else { " other" };
        let Entry { op, task, room, .. } = *entry;
        write!(text, "{before}{word} {op} {task} {room}{other}")?;
    }
    Ok(())
}
