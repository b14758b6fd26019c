//! `cubed DIR COMMAND OPTIONS`: arrays in a folder, computed by plans of small tasks.
#![tactic(auto)]

ghost use Rattle.std.specs.Prelude.{◌≡◌, ◌↔◌, IfOk, IsTrue, OnErr};

mod adapters;

use adapters::{StdSink, StdSource};
use cu_dir::DirDepot;
use cu_store::NoGate;
use cu_top::{Status, number, status_line, top};
use cu_words::{CommandLine, LineFault, read_line};
use std::alloc::Global;
use std::io::ErrorKind;
use std::process::ExitCode;
use std::rt::Env;
use std::{env, io, process};

/// The words after the program's path: the folder first, and then the command and its options.
fn words_of(rt: &(impl Env + AllocGlobal), alloc: Global) -> io::Result<Vec<String>> {
    let mut words = Vec::new(alloc);
    for word in env::args(rt)?.skip(1) {
        words.push(word)?;
    }
    Ok(words)
}

/// Prints the line of a refusal, and gives its number as the exit status.
fn ended(rt: &impl Eprint, status: &Status) -> ExitCode {
    let line = status_line(status);
    if !line.is_empty() {
        let _ = rt.eprintln(line.as_str());
    }
    ExitCode::from(number(status))
}

/// Whether puts are synced, as they are unless the words give `--sync 0`. Words that can't be read are
/// refused by `top`, and then nothing is put.
fn is_synced(line: &Result<CommandLine, LineFault>) -> bool
    ensures asked { IfOk line.now (λ l. IsTrue result ↔ l.numbers.sync ≡ 1) }
    ensures unread { OnErr line.now (IsTrue result) }
{
    match line {
        Ok(line) => line.numbers.sync == 1,
        Err(_) => true,
    }
}

fn main(rt: HostRuntime) -> ExitCode {
    let alloc = rt.alloc();
    let words = match words_of(&rt, alloc) {
        Ok(words) => words,
        Err(error) if error.kind() == ErrorKind::OutOfMemory => {
            return ended(&rt, &Status::NoMemory);
        }
        // A word that is no text.
        Err(_) => return ended(&rt, &Status::BadWords { code: 2 }),
    };
    let [folder, command @ ..] = words.as_slice() else {
        return ended(&rt, &Status::BadWords { code: 1 });
    };
    let Ok(mut depot) = DirDepot::make(&rt, alloc, folder.as_str()) else {
        return ended(&rt, &Status::NoMemory);
    };
    depot.name_after(process::id(rt.process()));
    depot.set_synced(is_synced(&read_line(alloc, command)));
    let mut source = StdSource::make(&rt);
    let mut sink = StdSink::make(&rt);
    let status = top(
        &rt,
        alloc,
        command,
        &mut source,
        &mut sink,
        &mut depot,
        &NoGate,
    );
    ended(&rt, &status)
}
