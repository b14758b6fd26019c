//! What the words of the command line ask for.
ghost use Rattle.std.specs.Prelude.{◌≡◌, Err, IfOk, map, string_bytes};
ghost use Rattle.cu_top.specs.Call.{AreWordsRead, IsReading, AreSoundWords};
ghost use Rattle.cu_top.specs.Words.{command_by, command_of, demo_of, options_among, print_of};
ghost use Rattle.cu_top.specs.Words.{IsInRange, part_numbers, tasks_among};
ghost use Rattle.cu_words.specs.Words.{AreInRange, line_view, positionals_held};

use cu_lower::Options;
use cu_name::{IdText, is_name};
use cu_words::{CommandLine, CommandName, LineFault, Numbers, demo_size, read_line};
use std::alloc::Global;

/// The tasks that the words name, which the plan may not have.
#[derive(Clone, Copy)]
pub struct PartNumbers {
    /// The number of the operation.
    pub op: u64,
    /// The number of the first task.
    pub from: u64,
    /// The number of the task behind the last one.
    pub to: u64,
}

/// What the words ask for.
#[derive(Clone, Copy)]
pub enum Asked {
    /// `run`: an expression is computed.
    Run(Options),
    /// `resume`: a run goes on.
    Resume(Options),
    /// `drop`: the keys of a plan are removed.
    Drop(Options),
    /// `plan`: what the plan of an expression does is printed.
    Plan(Options),
    /// `load`: an array that a text gives is stored.
    Load {
        retries: u32,
    },
    /// `check`: the stored output of an expression is compared with what it means.
    Check {
        retries: u32,
    },
    /// `print`: the array with this name is printed.
    Print {
        name: IdText,
        retries: u32,
    },
    /// `demo`: an expression is computed over inputs of this size that are made first.
    Demo {
        size: u64,
        options: Options,
    },
    /// `begin`: a run is begun, and no task is started.
    Begin(Options),
    /// `part`: some tasks of a plan that was begun are run.
    Part {
        options: Options,
        numbers: PartNumbers,
    },
}

/// What came of reading the words.
#[derive(Clone, Copy)]
pub enum Reading {
    /// They ask for this.
    Asked(Asked),
    /// They are refused with this code.
    Refused { code: u8 },
    /// Memory was wanted.
    NoMemory,
}

/// The command, which is the first word, with its options and, for `print`, a name or, for `demo`, a
/// size. A refusal is 1 where the command is missing or unknown; 2 where an option is unknown, has no
/// value or is given twice, where a value is no number of its option's range or the size none from 1
/// to 2,048, and where there are too few or too many words; and 3 where the name isn't one and all else is accepted.
pub fn read_words(alloc: Global, words: &[String]) -> Reading
    ensures answer { IsReading (command_of (map string_bytes words.now)) result }
    // Memory isn't wanted where the command is missing or unknown.
    ensures unknown { command_of (map string_bytes words.now) ≡ Err 1
        → result ≡ Reading.Refused 1 }
{
    match read_asked(alloc, words) {
        Ok(asked) => Reading::Asked(asked),
        Err(LineFault::Refused { code }) => Reading::Refused { code },
        Err(LineFault::NoMemory) => Reading::NoMemory,
    }
}

/// The same, as the line tells it.
#[tactic(auto, unfolding(crate::specs::Words::command_of))]
fn read_asked(alloc: Global, words: &[String]) -> Result<Asked, LineFault>
    ensures answer { AreWordsRead (command_of (map string_bytes words.now)) result }
    // Memory isn't wanted where the command is missing or unknown.
    ensures unknown { command_of (map string_bytes words.now) ≡ Err 1
        → result ≡ Err (LineFault.Refused 1) }
    ensures sound { IfOk result AreSoundWords }
{
    match read_line(alloc, words) {
        Ok(line) => asked_by(&line),
        Err(fault) => Err(fault),
    }
}

/// What a line asks for.
fn asked_by(line: &CommandLine) -> Result<Asked, LineFault>
    requires ranges { AreInRange line.now.numbers }
    ensures answer { AreWordsRead (command_by (Ok (line_view line.now))) result }
    ensures sound { IfOk result AreSoundWords }
{
    let options = options_among(&line.numbers);
    match line.command {
        CommandName::Run => Ok(Asked::Run(options)),
        CommandName::Resume => Ok(Asked::Resume(options)),
        CommandName::Drop => Ok(Asked::Drop(options)),
        CommandName::Plan => Ok(Asked::Plan(options)),
        CommandName::Load => Ok(Asked::Load {
            retries: options.retries,
        }),
        CommandName::Check => Ok(Asked::Check {
            retries: options.retries,
        }),
        CommandName::Print => print_asked(line.name, options.retries),
        CommandName::Demo => demo_asked(line.name, options),
        CommandName::Begin => Ok(Asked::Begin(options)),
        CommandName::Part => Ok(Asked::Part {
            options,
            numbers: numbers_among(&line.numbers),
        }),
    }
}

/// The options among the numbers of a line.
fn options_among(numbers: &Numbers) -> Options
    requires ranges { AreInRange numbers.now }
    ensures options { result ≡ options_among numbers.now }
    ensures ranges { IsInRange result }
{
    Options {
        allowed: numbers.allowed_mem,
        reserved: numbers.reserved_mem,
        split_every: numbers.split_every as u32,
        retries: numbers.retries as u32,
        workers: numbers.workers as u32,
        backups: numbers.backups == 1,
        fusion: numbers.fusion as u32,
    }
}

/// The tasks that the numbers of a line name.
fn numbers_among(numbers: &Numbers) -> PartNumbers
    ensures { part_numbers result ≡ tasks_among numbers.now }
{
    PartNumbers {
        op: numbers.op,
        from: numbers.from,
        to: numbers.to,
    }
}

/// The print of the array that the positional names.
fn print_asked(name: Option<&str>, retries: u32) -> Result<Asked, LineFault>
    ensures answer { AreWordsRead (print_of (positionals_held name.entry) retries) result }
    ensures sound { IfOk result AreSoundWords }
{
    let Some(word) = name else {
        return Err(LineFault::Refused { code: 2 });
    };
    if !is_name(word) {
        return Err(LineFault::Refused { code: 3 });
    }
    match IdText::make(word) {
        Some(name) => Ok(Asked::Print { name, retries }),
        None => unreachable!(),
    }
}

/// The demonstration whose size the positional gives.
fn demo_asked(size: Option<&str>, options: Options) -> Result<Asked, LineFault>
    requires options { IsInRange options }
    ensures answer { AreWordsRead (demo_of (positionals_held size.entry) options) result }
    ensures sound { IfOk result AreSoundWords }
{
    let Some(word) = size else {
        return Err(LineFault::Refused { code: 2 });
    };
    match demo_size(word) {
        Some(size) => Ok(Asked::Demo { size, options }),
        None => Err(LineFault::Refused { code: 2 }),
    }
}
