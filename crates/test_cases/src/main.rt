//! Runs tables of cases: what the program and the readers of texts must answer, written as data. Each word names a file with a
//! table. A line for each case comes on standard output; what isn't as it must be comes on standard error, with status 1.
#![tactic(auto)]

mod calls;
mod case;
mod depots;
mod folder;
mod loops;
mod script;

use anyhow::{Context, Result, bail};
use calls::run_calls;
use depots::run_depot;
use folder::run_folder;
use serde_json::Value;
use std::fmt::Write;
use std::process::ExitCode;
use std::rt::{Env, Files};
use std::sync::Wait;
use std::thread::Threads;
use std::{env, fs};
use test_rows::{
    Findings, NamedTexts, Said, list_of, refuse_others, run_expressions, run_keys, run_metadata,
    run_promotions, run_regions, run_scalars, run_shapes, run_turns, run_typing, run_zarray,
    text_of,
};

/// Runs a case of this kind.
fn run_case(
    rt: &HostRuntime,
    threads: &(impl Threads + Wait + Sync),
    kind: &str,
    texts: &NamedTexts<'_>,
    said: &Said<'_>,
    name: &str,
    findings: &mut Findings,
) -> Result<()> {
    match kind {
        "calls" => run_calls(threads, texts, said, name, findings),
        "folder" => run_folder(rt, threads, texts, said, name, findings),
        "depot" => run_depot(rt, texts, said, name, findings),
        "metadata" => run_metadata(texts, said, name, findings),
        "zarray" => run_zarray(texts, said, name, findings),
        "expressions" => run_expressions(texts, said, name, findings),
        "typing" => run_typing(texts, said, name, findings),
        "turns" => run_turns(texts, said, name, findings),
        "scalars" => run_scalars(texts.alloc, said, name, findings),
        "regions" => run_regions(texts.alloc, said, name, findings),
        "keys" => run_keys(texts.alloc, said, name, findings),
        "promotions" => run_promotions(said, name, findings),
        "slices" | "broadcasts" | "places" | "grids" => run_shapes(kind, said, name, findings),
        _ => bail!("{kind} is no kind of case"),
    }
}

/// Runs the cases of a table, and writes a line for each.
fn run_table(
    rt: &HostRuntime,
    threads: &(impl Threads + Wait + Sync),
    table: &Value,
    printed: &mut String,
    findings: &mut Findings,
) -> Result<()> {
    refuse_others(table, &["kind", "texts", "shared", "cases"])?;
    let nothing = Value::Null;
    let texts = NamedTexts {
        alloc: rt.alloc(),
        named: table.get("texts").unwrap_or(&nothing),
    };
    let shared = table.get("shared").unwrap_or(&nothing);
    let kind = text_of(table.get("kind").unwrap_or(&nothing))?;
    for case in list_of(table.get("cases").unwrap_or(&nothing))? {
        let said = Said {
            row: case,
            case,
            shared,
        };
        let name = said.text("name")?;
        let before = findings.runs();
        if let Err(error) = run_case(rt, threads, kind, &texts, &said, name, findings) {
            findings.fail(name, &error)?;
        }
        let runs = findings.runs().saturating_sub(before);
        write!(printed, "  {name}: {runs}\n")?;
    }
    Ok(())
}

/// Runs the table of a file.
fn run_file(
    rt: &HostRuntime,
    threads: &(impl Threads + Wait + Sync),
    file: &str,
    printed: &mut String,
    findings: &mut Findings,
) -> Result<()> {
    let text = fs::read_to_string(rt, file)?;
    let table = Value::from_str(rt.alloc(), text.as_str())?;
    let before = findings.runs();
    write!(printed, "{file}\n")?;
    run_table(rt, threads, &table, printed, findings)?;
    let runs = findings.runs().saturating_sub(before);
    write!(printed, "{file}: {runs}\n")?;
    Ok(())
}

/// Runs the tables that the words name.
fn run_all(
    rt: &HostRuntime,
    threads: &(impl Threads + Wait + Sync),
    printed: &mut String,
    findings: &mut Findings,
) -> Result<()> {
    for word in env::args(rt)?.skip(1) {
        run_file(rt, threads, word.as_str(), printed, findings).context(format_args!("{word}"))?;
    }
    Ok(())
}

fn main(rt: HostRuntime) -> Result<ExitCode> {
    let mut printed = String::new(rt.alloc());
    let mut findings = Findings::new(rt.alloc());
    run_all(&rt, &rt, &mut printed, &mut findings)?;
    print!(rt; "{printed}")?;
    if findings.count() == 0 {
        return Ok(ExitCode::SUCCESS);
    }
    eprint!(rt; "{}", findings.text())?;
    Ok(ExitCode::FAILURE)
}
