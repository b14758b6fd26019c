//! The program's one call.
ghost use Rattle.std.specs.Prelude.{◌≡◌, ◌⊎◌, ℕ, List, Option, Some, Ok, Err};
ghost use Rattle.cu_command.specs.Streams.{ReadsAll};
ghost use Rattle.cu_lower.specs.declared.options.Options.{Options};
ghost use Rattle.cu_store.specs.Held.{Contents};
ghost use Rattle.cu_top.specs.Answered.{RunAnswered, ResumeAnswered, DropAnswered, PlanAnswered};
ghost use Rattle.cu_top.specs.Answered.{LoadAnswered, CheckAnswered, PrintAnswered, DemoAnswered};
ghost use Rattle.cu_top.specs.Answered.{BeginAnswered, PartAnswered, moment};
ghost use Rattle.cu_top.specs.Call.{DidNothing, IsWordsRefused};
ghost use Rattle.cu_top.specs.Demo.{IsDemoCalm, WhereTold};
ghost use Rattle.cu_top.specs.Held.{IsLeftEntry};
ghost use Rattle.cu_top.specs.Quiet.{IsCalm};
ghost use Rattle.cu_top.specs.Result.{HoldsResult, StartsFrom};
ghost use Rattle.cu_work.specs.declared.part.Part.{Part};
ghost use Rattle.cu_top.specs.Told.{BeginTold, PartTold, CallTold, RunTold, ResumeTold, DropTold, PlanTold};
ghost use Rattle.cu_top.specs.Words.{run, resume, drop, plan, load, check, print, demo, asked_by};
ghost use Rattle.cu_top.specs.Words.{IsInRange, begin, part, part_numbers};

use crate::begin::begin;
use crate::demo::demo;
use crate::drop::drop_plan;
use crate::parts::store_part;
use crate::planned::print_plan;
use crate::result::result_law;
use crate::resume::resume;
use crate::run::run;
use crate::words::{Asked, PartNumbers, Reading, read_words};
use cu_check::check;
use cu_command::{Status, StreamRefused, read_all};
use cu_load::load;
use cu_lower::Options;
use cu_name::key_of_name;
use cu_print::print;
use cu_store::{Depot, Gate, PutStore, Share, SharedStore, Sink, Source};
use std::alloc::Global;
use std::sync::Wait;
use std::thread::Threads;

/// Carries out the command that the words give. `run` reads an expression from the source, stores
/// the array that it makes in the depot, and writes the report to the sink. `resume` goes on with a
/// run that was stopped, and `drop` removes all keys of a plan. `begin` does what `run` does before
/// its first task, and `part` runs some tasks of a plan that was begun. `plan` reads an expression and
/// prints the operations of its plan whose results are stored; it stores nothing. `load` reads an
/// array and stores it.
/// `check` reads an expression from the source and compares its stored output with what it means.
/// `print` writes a stored array to the sink. `demo` stores two inputs that it makes, computes an
/// expression over them, and writes its one element and the report.
///
/// What 0 means stands in `specs/Result.antt`, and what each command answers in `specs/Answered.antt`,
/// whose tables have a line for each answer. 10 names a task and 16 a key that may be at fault: so
/// many calls failed as it is tried, by the count of the depot's faults.
pub fn top<H: Threads + Wait + Sync, R: Source, W: Sink, D: Share, G: Gate>(
    rt: &H,
    alloc: Global,
    words: &[String],
    src: &mut R,
    out: &mut W,
    depot: &mut D,
    gate: &G,
) -> Status
    // Where the depot tells its contents, no put that is late when a run begins carries another
    // value of its plan, or another content of an input; for a demonstration, whose inputs are
    // made, another value of an input.
    requires quiet { (o : Options) (text : List ℕ) (next : Option (List ℕ))
        → asked_by words.now ≡ Ok (run o) → ReadsAll (R.left src.old) next text
        → IsCalm o text (D.shown depot.old) }
    requires demo_quiet { (size : ℕ) (o : Options) → asked_by words.now ≡ Ok (demo size o)
        → WhereTold (D.shown depot.old).held (IsDemoCalm o size (D.shown depot.old)) }
    // Where the depot tells its contents and the record of the plan is held, or a put of it is
    // late, when a run goes on, the contents are what the plan left.
    requires left { (o : Options) (text : List ℕ) (next : Option (List ℕ))
        → asked_by words.now ≡ Ok (resume o) → ReadsAll (R.left src.old) next text
        → IsLeftEntry o text (D.shown depot.old) }
    requires part_left { (o : Options) (tasks : Part) (text : List ℕ) (next : Option (List ℕ))
        → asked_by words.now ≡ Ok (part o tasks) → ReadsAll (R.left src.old) next text
        → IsLeftEntry o text (D.shown depot.old) }
    // The words that are refused, and by no other answer's cause; where the command is missing or
    // unknown no memory is wanted.
    ensures unknown { asked_by words.now ≡ Err 1 → result ≡ Status.BadWords 1 }
    ensures words { (code : ℕ) → asked_by words.now ≡ Err code → IsWordsRefused code result
        × DidNothing
        (moment (R.left src.old) (R.faults src.old) (W.written out.old) (W.faults out.old)
        (D.shown depot.old))
        (moment (R.left src.new) (R.faults src.new) (W.written out.new) (W.faults out.new)
        (D.shown depot.new)) }
    // What 0 means, without a word of how it was computed. Of the premises above, `quiet` holds by
    // itself where no put is late. `left`, of `resume`, doesn't, and speaks of the plan. `inputs_law`
    // says what 0 of a `resume` means where other commands went before.
    ensures computed { (o : Options) (text : List ℕ) (entry now : Contents)
        → (asked_by words.now ≡ Ok (run o)) ⊎ (asked_by words.now ≡ Ok (resume o))
        → StartsFrom (R.left src.old) (D.shown depot.old) text entry
        → (D.shown depot.new).held ≡ Some now → result ≡ Status.Done
        → HoldsResult text entry now }
    ensures checked { (retries : ℕ) (text : List ℕ) (entry : Contents)
        → asked_by words.now ≡ Ok (check retries)
        → StartsFrom (R.left src.old) (D.shown depot.old) text entry → result ≡ Status.Done
        → HoldsResult text entry entry }
    // What each command answers, and what it leaves.
    ensures run { (o : Options) → asked_by words.now ≡ Ok (run o)
        → RunAnswered (D.yards_lack depot.new) o
        (moment (R.left src.old) (R.faults src.old) (W.written out.old) (W.faults out.old)
        (D.shown depot.old))
        (moment (R.left src.new) (R.faults src.new) (W.written out.new) (W.faults out.new)
        (D.shown depot.new))
        result }
    ensures resume { (o : Options) → asked_by words.now ≡ Ok (resume o)
        → ResumeAnswered (D.yards_lack depot.new) o
        (moment (R.left src.old) (R.faults src.old) (W.written out.old) (W.faults out.old)
        (D.shown depot.old))
        (moment (R.left src.new) (R.faults src.new) (W.written out.new) (W.faults out.new)
        (D.shown depot.new))
        result }
    ensures drop { (o : Options) → asked_by words.now ≡ Ok (drop o)
        → DropAnswered o
        (moment (R.left src.old) (R.faults src.old) (W.written out.old) (W.faults out.old)
        (D.shown depot.old))
        (moment (R.left src.new) (R.faults src.new) (W.written out.new) (W.faults out.new)
        (D.shown depot.new))
        result }
    ensures plan { (o : Options) → asked_by words.now ≡ Ok (plan o)
        → PlanAnswered o
        (moment (R.left src.old) (R.faults src.old) (W.written out.old) (W.faults out.old)
        (D.shown depot.old))
        (moment (R.left src.new) (R.faults src.new) (W.written out.new) (W.faults out.new)
        (D.shown depot.new))
        result }
    ensures load { (retries : ℕ) → asked_by words.now ≡ Ok (load retries)
        → LoadAnswered retries
        (moment (R.left src.old) (R.faults src.old) (W.written out.old) (W.faults out.old)
        (D.shown depot.old))
        (moment (R.left src.new) (R.faults src.new) (W.written out.new) (W.faults out.new)
        (D.shown depot.new))
        result }
    ensures check { (retries : ℕ) → asked_by words.now ≡ Ok (check retries)
        → CheckAnswered retries
        (moment (R.left src.old) (R.faults src.old) (W.written out.old) (W.faults out.old)
        (D.shown depot.old))
        (moment (R.left src.new) (R.faults src.new) (W.written out.new) (W.faults out.new)
        (D.shown depot.new))
        result }
    ensures print { (name : List ℕ) (retries : ℕ) → asked_by words.now ≡ Ok (print name retries)
        → PrintAnswered name retries
        (moment (R.left src.old) (R.faults src.old) (W.written out.old) (W.faults out.old)
        (D.shown depot.old))
        (moment (R.left src.new) (R.faults src.new) (W.written out.new) (W.faults out.new)
        (D.shown depot.new))
        result }
    ensures begin { (o : Options) → asked_by words.now ≡ Ok (begin o)
        → BeginAnswered o
        (moment (R.left src.old) (R.faults src.old) (W.written out.old) (W.faults out.old)
        (D.shown depot.old))
        (moment (R.left src.new) (R.faults src.new) (W.written out.new) (W.faults out.new)
        (D.shown depot.new))
        result }
    ensures part { (o : Options) (tasks : Part) → asked_by words.now ≡ Ok (part o tasks)
        → PartAnswered o tasks
        (moment (R.left src.old) (R.faults src.old) (W.written out.old) (W.faults out.old)
        (D.shown depot.old))
        (moment (R.left src.new) (R.faults src.new) (W.written out.new) (W.faults out.new)
        (D.shown depot.new))
        result }
    ensures demo { (size : ℕ) (o : Options) → asked_by words.now ≡ Ok (demo size o)
        → DemoAnswered (D.yards_lack depot.new) size o
        (moment (R.left src.old) (R.faults src.old) (W.written out.old) (W.faults out.old)
        (D.shown depot.old))
        (moment (R.left src.new) (R.faults src.new) (W.written out.new) (W.faults out.new)
        (D.shown depot.new))
        result }
{
    result_law();
    carry(rt, alloc, words, src, out, depot, gate)
}

/// Carries out the command.
fn carry<H: Threads + Wait + Sync, R: Source, W: Sink, D: Share, G: Gate>(
    rt: &H,
    alloc: Global,
    words: &[String],
    src: &mut R,
    out: &mut W,
    depot: &mut D,
    gate: &G,
) -> Status
    requires quiet { (o : Options) (text : List ℕ) (next : Option (List ℕ))
        → asked_by words.now ≡ Ok (run o) → ReadsAll (R.left src.old) next text
        → IsCalm o text (D.shown depot.old) }
    requires demo_quiet { (size : ℕ) (o : Options) → asked_by words.now ≡ Ok (demo size o)
        → WhereTold (D.shown depot.old).held (IsDemoCalm o size (D.shown depot.old)) }
    requires left { (o : Options) (text : List ℕ) (next : Option (List ℕ))
        → asked_by words.now ≡ Ok (resume o) → ReadsAll (R.left src.old) next text
        → IsLeftEntry o text (D.shown depot.old) }
    requires part_left { (o : Options) (tasks : Part) (text : List ℕ) (next : Option (List ℕ))
        → asked_by words.now ≡ Ok (part o tasks) → ReadsAll (R.left src.old) next text
        → IsLeftEntry o text (D.shown depot.old) }
    ensures { CallTold (D.yards_lack depot.new) (asked_by words.now)
        (moment (R.left src.old) (R.faults src.old) (W.written out.old) (W.faults out.old)
        (D.shown depot.old))
        (moment (R.left src.new) (R.faults src.new) (W.written out.new) (W.faults out.new)
        (D.shown depot.new))
        result }
{
    let asked = match read_words(alloc, words) {
        Reading::Asked(asked) => asked,
        Reading::Refused { code } => return Status::BadWords { code },
        Reading::NoMemory => return Status::NoMemory,
    };
    match &asked {
        Asked::Run(options) => run_command(rt, alloc, options, src, out, depot, gate),
        Asked::Resume(options) => resume_command(rt, alloc, options, src, out, depot, gate),
        Asked::Drop(options) => drop_command(alloc, options, src, out, depot),
        Asked::Plan(options) => plan_command(alloc, options, src, out, depot),
        Asked::Load { retries } => load(alloc, *retries, src, out, depot),
        Asked::Check { retries } => check(alloc, *retries, src, out, depot),
        Asked::Print { name, retries } => { print(alloc, *retries, &key_of_name(name), out, depot) }
        Asked::Demo { size, options } => demo(rt, alloc, options, *size, out, depot, gate),
        Asked::Begin(options) => begin_command(alloc, options, src, out, depot),
        Asked::Part { options, numbers } => {
            part_command(alloc, options, numbers, src, out, depot)
        }
    }
}

/// Computes the expression that the source has.
fn run_command<H: Threads + Wait + Sync, R: Source, W: Sink, D: SharedStore, G: Gate>(
    rt: &H,
    alloc: Global,
    options: &Options,
    src: &mut R,
    out: &mut W,
    depot: &mut D,
    gate: &G,
) -> Status
    requires options { IsInRange options.now }
    requires quiet { (text : List ℕ) (next : Option (List ℕ)) → ReadsAll (R.left src.old) next text
        → IsCalm options.now text (D.shown depot.old) }
    ensures { RunTold (D.yards_lack depot.new) options.now
        (moment (R.left src.old) (R.faults src.old) (W.written out.old) (W.faults out.old)
        (D.shown depot.old))
        (moment (R.left src.new) (R.faults src.new) (W.written out.new) (W.faults out.new)
        (D.shown depot.new))
        result }
{
    match read_all(alloc, src) {
        Ok(text) => run(rt, alloc, options, &text, out, depot, gate),
        Err(StreamRefused::Fault) => Status::ReadFault,
        Err(StreamRefused::NoMemory) => Status::NoMemory,
    }
}

/// Goes on with a run of the expression that the source has.
fn resume_command<H: Threads + Wait + Sync, R: Source, W: Sink, D: SharedStore, G: Gate>(
    rt: &H,
    alloc: Global,
    options: &Options,
    src: &mut R,
    out: &mut W,
    depot: &mut D,
    gate: &G,
) -> Status
    requires options { IsInRange options.now }
    requires left { (text : List ℕ) (next : Option (List ℕ)) → ReadsAll (R.left src.old) next text
        → IsLeftEntry options.now text (D.shown depot.old) }
    ensures { ResumeTold (D.yards_lack depot.new) options.now
        (moment (R.left src.old) (R.faults src.old) (W.written out.old) (W.faults out.old)
        (D.shown depot.old))
        (moment (R.left src.new) (R.faults src.new) (W.written out.new) (W.faults out.new)
        (D.shown depot.new))
        result }
{
    match read_all(alloc, src) {
        Ok(text) => resume(rt, alloc, options, &text, out, depot, gate),
        Err(StreamRefused::Fault) => Status::ReadFault,
        Err(StreamRefused::NoMemory) => Status::NoMemory,
    }
}

/// Removes the keys of the plan of the expression that the source has.
fn drop_command<R: Source, W: Sink, D: Depot>(
    alloc: Global,
    options: &Options,
    src: &mut R,
    out: &mut W,
    depot: &mut D,
) -> Status
    requires options { IsInRange options.now }
    ensures { DropTold options.now
        (moment (R.left src.old) (R.faults src.old) (W.written out.old) (W.faults out.old)
        (D.shown depot.old))
        (moment (R.left src.new) (R.faults src.new) (W.written out.new) (W.faults out.new)
        (D.shown depot.new))
        result }
{
    match read_all(alloc, src) {
        Ok(text) => drop_plan(alloc, options, &text, out, depot),
        Err(StreamRefused::Fault) => Status::ReadFault,
        Err(StreamRefused::NoMemory) => Status::NoMemory,
    }
}

/// Prints the plan of the expression that the source has.
fn plan_command<R: Source, W: Sink, D: PutStore>(
    alloc: Global,
    options: &Options,
    src: &mut R,
    out: &mut W,
    depot: &mut D,
) -> Status
    requires options { IsInRange options.now }
    ensures { PlanTold options.now
        (moment (R.left src.old) (R.faults src.old) (W.written out.old) (W.faults out.old)
        (D.shown depot.old))
        (moment (R.left src.new) (R.faults src.new) (W.written out.new) (W.faults out.new)
        (D.shown depot.new))
        result }
{
    match read_all(alloc, src) {
        Ok(text) => print_plan(alloc, options, &text, out, depot),
        Err(StreamRefused::Fault) => Status::ReadFault,
        Err(StreamRefused::NoMemory) => Status::NoMemory,
    }
}

/// Begins a run of the expression that the source has.
fn begin_command<R: Source, W: Sink, D: PutStore>(
    alloc: Global,
    options: &Options,
    src: &mut R,
    out: &mut W,
    depot: &mut D,
) -> Status
    requires options { IsInRange options.now }
    ensures { BeginTold options.now
        (moment (R.left src.old) (R.faults src.old) (W.written out.old) (W.faults out.old)
        (D.shown depot.old))
        (moment (R.left src.new) (R.faults src.new) (W.written out.new) (W.faults out.new)
        (D.shown depot.new))
        result }
{
    match read_all(alloc, src) {
        Ok(text) => begin(alloc, options, &text, out, depot),
        Err(StreamRefused::Fault) => Status::ReadFault,
        Err(StreamRefused::NoMemory) => Status::NoMemory,
    }
}

/// Runs some tasks of the plan of the expression that the source has.
fn part_command<R: Source, W: Sink, D: PutStore>(
    alloc: Global,
    options: &Options,
    numbers: &PartNumbers,
    src: &mut R,
    out: &mut W,
    depot: &mut D,
) -> Status
    requires options { IsInRange options.now }
    requires left { (text : List ℕ) (next : Option (List ℕ)) → ReadsAll (R.left src.old) next text
        → IsLeftEntry options.now text (D.shown depot.old) }
    ensures { PartTold options.now (part_numbers numbers.now)
        (moment (R.left src.old) (R.faults src.old) (W.written out.old) (W.faults out.old)
        (D.shown depot.old))
        (moment (R.left src.new) (R.faults src.new) (W.written out.new) (W.faults out.new)
        (D.shown depot.new))
        result }
{
    match read_all(alloc, src) {
        Ok(text) => store_part(alloc, options, numbers, &text, out, depot),
        Err(StreamRefused::Fault) => Status::ReadFault,
        Err(StreamRefused::NoMemory) => Status::NoMemory,
    }
}
