//! The kind of case that calls the program over a folder of the system.

use crate::case::{Case, add_contents};
use crate::script::small;
use anyhow::{Result, bail};
use cu_dir::DirDepot;
use std::fs;
use std::rt::Files;
use std::sync::Wait;
use std::thread::Threads;
use test_depots::{Failing, FailingCalls};
use test_rows::{CasePlace, Findings, NamedTexts, Said, refuse_others};

/// The folder, which is made beside the tables and removed behind the case.
const FOLDER: &str = "folder_of_a_case";

/// What a step may say, and a case of all its steps.
const MEMBERS: [&str; 19] = [
    "name",
    "steps",
    "holds",
    "words",
    "input",
    "source_fails_at",
    "sink_room",
    "sink_fails_at",
    "line",
    "or_lines",
    "output",
    "or_outputs",
    "leaves",
    "may_leave",
    "hold",
    "until",
    "fail_from",
    "fail_times",
    "land",
];

/// Makes the calls of a case one after another over an empty folder, and reads back by `get` what each has left. What a step holds is put
/// or removed first, as if a run had been stopped there. Of the calls of the folder that a step makes, whichever worker makes them,
/// those fail whose number lies from `fail_from` to below `fail_times` more, or all from there on. The first put among them lands after
/// `land` further calls, of this step or of later ones.
pub(crate) fn run_folder(
    rt: &HostRuntime,
    threads: &(impl Threads + Wait + Sync),
    texts: &NamedTexts<'_>,
    said: &Said<'_>,
    name: &str,
    findings: &mut Findings,
) -> Result<()> {
    refuse_others(said.case, &MEMBERS)?;
    let _ = fs::remove_dir_all(rt, FOLDER);
    let Ok(depot) = DirDepot::make(rt, texts.alloc, FOLDER) else {
        bail!("no memory");
    };
    let mut depot = Failing::new(texts.alloc, depot);
    for (at, row) in said.list("steps")?.iter().enumerate() {
        refuse_others(row, &MEMBERS)?;
        let said = Said { row, ..*said };
        let place = CasePlace {
            case: name,
            row: at as u64,
            what: "call",
            number: 0,
        };
        run_step(threads, texts, &said, &mut depot, &place, findings)?;
    }
    fs::remove_dir_all(rt, FOLDER)?;
    Ok(())
}

/// Makes a call over what a folder holds, of which some calls fail, and reads back what it has left.
fn run_step(
    threads: &(impl Threads + Wait + Sync),
    texts: &NamedTexts<'_>,
    said: &Said<'_>,
    depot: &mut Failing<DirDepot<HostRuntime>>,
    place: &CasePlace<'_>,
    findings: &mut Findings,
) -> Result<()> {
    let mut held = Vec::new(texts.alloc);
    add_contents(&mut held, texts, said.list("holds")?, false)?;
    let case = Case::read(texts, said, held)?;
    // What is late waits while the folder is filled and read.
    case.fill(&mut depot.depot)?;
    depot.set_span(span_of(said)?);
    case.answer(threads, depot, case.room, &case.wanted(), place, findings)?;
    case.read_back(&mut depot.depot, place, findings)
}

/// The calls that fail.
fn span_of(said: &Said<'_>) -> Result<FailingCalls> {
    let times = said.number("fail_times")?.unwrap_or(u64::MAX);
    let land = match said.number("land")? {
        None => None,
        Some(wait) => Some(small(wait)?),
    };
    Ok(match said.number("fail_from")? {
        Some(first) => FailingCalls { first, times, land },
        None if land.is_some() => bail!("no put fails that is to land"),
        None => FailingCalls::none(),
    })
}
