//! The kind of case that calls the program: one call, rows of it over depots of their own, or steps over one depot.

use crate::case::{Case, Content, add_contents};
use crate::loops::{Trial, run_loops};
use crate::script::script_of;
use anyhow::{Result, bail};
use cu_mem::MemDepot;
use serde_json::Value;
use std::sync::Wait;
use std::thread::Threads;
use test_depots::Watched;
use test_rows::{CasePlace, Findings, NamedTexts, Said, refuse_others};

/// What a call may say. Only a case has rows.
const MEMBERS: [&str; 22] = [
    "name",
    "words",
    "input",
    "source_fails_at",
    "sink_room",
    "sink_fails_at",
    "holds",
    "faults",
    "stop_after",
    "line",
    "output",
    "or_lines",
    "or_outputs",
    "front",
    "leaves",
    "may_leave",
    "hold",
    "until",
    "calls",
    "loops",
    "steps",
    "rows",
];

/// Runs a case: each of its rows over a depot of its own, or the one row that it is.
pub(crate) fn run_calls(
    threads: &(impl Threads + Wait + Sync),
    texts: &NamedTexts<'_>,
    said: &Said<'_>,
    name: &str,
    findings: &mut Findings,
) -> Result<()> {
    refuse_others(said.case, &MEMBERS)?;
    if !said.shared.is_null() {
        refuse_others(said.shared, &MEMBERS)?;
    }
    let rows = said.list("rows")?;
    if rows.is_empty() {
        return run_row(threads, texts, said, name, 0, findings);
    }
    for (at, row) in rows.iter().enumerate() {
        refuse_others(row, &MEMBERS)?;
        let said = Said { row, ..*said };
        run_row(threads, texts, &said, name, at as u64, findings)?;
    }
    Ok(())
}

/// Runs a row: its steps, one after another over one depot, or the one call that it is and its loops.
fn run_row(
    threads: &(impl Threads + Wait + Sync),
    texts: &NamedTexts<'_>,
    said: &Said<'_>,
    name: &str,
    row: u64,
    findings: &mut Findings,
) -> Result<()> {
    let contents = contents_in(texts, said)?;
    let steps = said.list("steps")?;
    if !steps.is_empty() {
        return run_steps(threads, texts, said, contents, steps, name, findings);
    }
    let case = Case::read(texts, said, contents)?;
    let mut depot = case.depot()?;
    run_call(threads, &case, said, &mut depot, name, row, findings)?;
    let Some(loops) = said.member("loops") else {
        return Ok(());
    };
    let Some(calls) = depot.calls() else {
        bail!("no memory");
    };
    let trial = Trial {
        case: &case,
        calls,
        name,
        row,
    };
    let changes = loops.get("again").unwrap_or(said.row);
    let second = Said {
        row: changes,
        ..*said
    };
    let again = Case::read(texts, &second, contents_in(texts, said)?)?;
    run_loops(threads, &trial, &again, texts, loops, findings)
}

/// Runs steps, each of which finds what the ones before have left.
fn run_steps(
    threads: &(impl Threads + Wait + Sync),
    texts: &NamedTexts<'_>,
    said: &Said<'_>,
    contents: Vec<Content>,
    steps: &[Value],
    name: &str,
    findings: &mut Findings,
) -> Result<()> {
    let mut contents = contents;
    let mut depot = Case::read(texts, said, contents_in(texts, said)?)?.depot()?;
    for (at, row) in steps.iter().enumerate() {
        refuse_others(row, &MEMBERS)?;
        let said = Said { row, ..*said };
        let case = Case::read(texts, &said, contents)?;
        run_call(threads, &case, &said, &mut depot, name, at as u64, findings)?;
        contents = case.into_contents();
    }
    Ok(())
}

/// Makes a call over a depot, under the script that the table says.
fn run_call(
    threads: &(impl Threads + Wait + Sync),
    case: &Case<'_>,
    said: &Said<'_>,
    depot: &mut Watched<MemDepot>,
    name: &str,
    row: u64,
    findings: &mut Findings,
) -> Result<()> {
    let script = script_of(said.list("faults")?, said.number("stop_after")?)?;
    depot.depot.set_script(script);
    let place = CasePlace {
        case: name,
        row,
        what: "call",
        number: 0,
    };
    case.run(threads, depot, case.room, &case.wanted(), &place, findings)?;
    let Some(calls) = depot.calls() else {
        bail!("no memory");
    };
    match said.number("calls")? {
        Some(count) if count != calls.len() as u64 => {
            let is = format!(in case.alloc; "{}", calls.len())?;
            let must = format!(in case.alloc; "{count}")?;
            findings.differ(&place, "the count of calls", is.as_str(), must.as_str())
        }
        _ => Ok(()),
    }
}

/// What the depot holds before the first call.
fn contents_in(texts: &NamedTexts<'_>, said: &Said<'_>) -> Result<Vec<Content>> {
    let mut contents = Vec::new(texts.alloc);
    add_contents(&mut contents, texts, said.list("holds")?, false)?;
    Ok(contents)
}
