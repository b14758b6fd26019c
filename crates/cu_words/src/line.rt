//! The reader of the words, which stands on `clap`.
ghost use Rattle.std.specs.Prelude.{◌≡◌, ◌≤◌, None, Err, IfOk, IfSome, map, string_bytes};
ghost use Rattle.clap.specs.Words.{app_of};
ghost use Rattle.cu_words.specs.Line.{has_stray, is_stray, line_parts};
ghost use Rattle.cu_words.specs.Options.{option_names, option_row};
ghost use Rattle.cu_words.specs.Reader.{IsFaultOf, IsParted, options_found, positional_name, told, values_found};
ghost use Rattle.cu_words.specs.Words.{AreInRange, IsInRow, IsLineRead, line_given, line_with};
ghost use Rattle.cu_words.specs.Words.{demo_size, has_required, has_setting, number_between};
ghost use Rattle.cu_words.specs.Words.{number_by, numbers_given, numbers_for};

use crate::options::{CommandName, OptionName};
use clap::error::ErrorKind;
use clap::{Arg, ArgAction, ArgMatches, Command};
use std::alloc::{AllocError, Global};

/// The name under which `clap` finds the positionals.
const POSITIONAL: &str = "NAME";

/// The numbers of all options, each from its range; those that a command doesn't take have the
/// table's.
#[derive(Clone, Copy)]
pub struct Numbers {
    /// In bytes.
    pub allowed_mem: u64,
    /// In bytes.
    pub reserved_mem: u64,
    pub split_every: u64,
    pub fusion: u64,
    pub workers: u64,
    pub retries: u64,
    pub backups: u64,
    pub sync: u64,
    pub op: u64,
    pub from: u64,
    pub to: u64,
}

/// The words of the command line, read.
#[derive(Clone, Copy)]
pub struct CommandLine<'a> {
    pub command: CommandName,
    pub numbers: Numbers,
    /// The positional, where the command takes one.
    pub name: Option<&'a str>,
}

/// Why the words weren't read.
#[derive(Clone, Copy, Debug, Drop)]
pub enum LineFault {
    /// With code 1 the command is missing or unknown. With code 2 an option is unknown, has no
    /// value, is given twice or is missing that must be given, a value is no number of its
    /// option's range, or there are too few or too many positionals.
    Refused { code: u8 },
    /// Memory was wanted.
    NoMemory,
}

/// Reads the command, its options and its positionals. An option is `--name value` or
/// `--name=value`, before or behind a positional, and the first `--` ends the options.
pub fn read_line<'a>(alloc: Global, words: &'a [String]) -> Result<CommandLine<'a>, LineFault>
    ensures answer { IsLineRead (line_given (map string_bytes words.now)) result }
    // Memory isn't wanted where the command is missing or unknown.
    ensures unknown { line_given (map string_bytes words.now) ≡ Err 1
        → result ≡ Err (LineFault.Refused 1) }
    ensures ranges { IfOk result (λ l. AreInRange l.numbers) }
{
    let [word, rest @ ..] = words else {
        return Err(LineFault::Refused { code: 1 });
    };
    let Some(command) = CommandName::of(word.as_str()) else {
        return Err(LineFault::Refused { code: 1 });
    };
    match matches_of(alloc, command, rest) {
        Ok(matches) => line_found(command, &matches),
        Err(fault) => Err(fault),
    }
}

/// The line that `clap` found.
fn line_found<'a>(
    command: CommandName,
    matches: &ArgMatches<'a>,
) -> Result<CommandLine<'a>, LineFault>
    ensures line { IsLineRead (line_with command (values_found matches.now positional_name)
        (numbers_for command (options_found matches.now))) result }
    ensures ranges { IfOk result (λ l. AreInRange l.numbers) }
{
    let Some(numbers) = numbers_of(command, matches) else {
        return Err(LineFault::Refused { code: 2 });
    };
    let positionals = matches.get_strs(POSITIONAL).unwrap_or(&[]);
    if positionals.len() != command.positionals() {
        return Err(LineFault::Refused { code: 2 });
    }
    Ok(CommandLine {
        command,
        numbers,
        name: positionals.first().copied(),
    })
}

/// The numbers of all options, where those are given that the command must have.
fn numbers_of(command: CommandName, matches: &ArgMatches) -> Option<Numbers>
    ensures numbers { result ≡ numbers_for command (options_found matches.now) }
    ensures ranges { IfSome result AreInRange }
{
    if has_required(command, matches) {
        numbers_found(matches)
    } else {
        None
    }
}

/// Whether the options are given that the command must have.
fn has_required(command: CommandName, matches: &ArgMatches) -> bool
    ensures { result ≡ has_required command (options_found matches.now) }
{
    let required = command.required();
    for option in required {
        if !is_given(matches, *option) {
            return false;
        }
    }
    true
}

/// Whether the option is given.
fn is_given(matches: &ArgMatches, option: OptionName) -> bool
    ensures { result ≡ has_setting (options_found matches.now option) }
{
    let row = option.row();
    match matches.get_strs(row.name) {
        None => false,
        Some([]) => false,
        Some([_, ..]) => true,
    }
}

/// The numbers of all options.
fn numbers_found(matches: &ArgMatches) -> Option<Numbers>
    ensures numbers { result ≡ numbers_given (options_found matches.now) }
    ensures ranges { IfSome result AreInRange }
{
    Some(Numbers {
        allowed_mem: number_found(matches, OptionName::AllowedMem)?,
        reserved_mem: number_found(matches, OptionName::ReservedMem)?,
        split_every: number_found(matches, OptionName::SplitEvery)?,
        fusion: number_found(matches, OptionName::Fusion)?,
        workers: number_found(matches, OptionName::Workers)?,
        retries: number_found(matches, OptionName::Retries)?,
        backups: number_found(matches, OptionName::Backups)?,
        sync: number_found(matches, OptionName::Sync)?,
        op: number_found(matches, OptionName::Op)?,
        from: number_found(matches, OptionName::From)?,
        to: number_found(matches, OptionName::To)?,
    })
}

/// The number of one option.
fn number_found(matches: &ArgMatches, option: OptionName) -> Option<u64>
    ensures number { result ≡ number_by (option_row option) (options_found matches.now option) }
    ensures range { IfSome result (IsInRow option) }
{
    let row = option.row();
    match matches.get_strs(row.name) {
        None => Some(row.default),
        Some([]) => Some(row.default),
        Some([text]) => number_between(row.least, row.most, text),
        Some([_, _, ..]) => None,
    }
}

/// The size that the positional of `demo` gives: from 1 to 2,048.
pub fn demo_size(text: &str) -> Option<u64>
    ensures size { result ≡ demo_size text.now }
    ensures range { IfSome result (λ n. (1 ≤ n) × (n ≤ 2048)) }
{
    number_between(1, 2048, text)
}

/// The number of a text, where it is one from `least` to `most`.
fn number_between(least: u64, most: u64, text: &str) -> Option<u64>
    ensures number { result ≡ number_between least most text.now }
    ensures range { IfSome result (λ n. (least ≤ n) × (n ≤ most)) }
{
    let Ok(number) = text.parse::<u64>() else {
        return None;
    };
    if number < least {
        return None;
    }
    if number > most {
        return None;
    }
    Some(number)
}

/// What `clap` finds in the words behind a command.
fn matches_of<'a>(
    alloc: Global,
    command: CommandName,
    words: &'a [String],
) -> Result<ArgMatches<'a>, LineFault>
    ensures { IsParted (line_parts (option_names command) None (map string_bytes words.now))
        result }
{
    if has_stray(words) {
        return Err(LineFault::Refused { code: 2 });
    }
    let Ok(told) = told_command(alloc, command) else {
        return Err(LineFault::NoMemory);
    };
    match told.try_get_matches_from(words) {
        Ok(matches) => Ok(matches),
        Err(error) => Err(fault_of(error.kind())),
    }
}

/// The fault that an error of `clap` stands for.
fn fault_of(kind: ErrorKind) -> LineFault
    ensures { IsFaultOf kind result }
{
    match kind {
        ErrorKind::OutOfMemory => LineFault::NoMemory,
        _ => LineFault::Refused { code: 2 },
    }
}

/// Whether a word before the first `--` begins with one `-`, which no option does here. (`clap`
/// would look in such a word for short options.)
fn has_stray(words: &[String]) -> bool
    ensures { result ≡ has_stray (map string_bytes words.now) }
{
    for word in words {
        if word.as_str() == "--" {
            return false;
        }
        if is_stray(word.as_str()) {
            return true;
        }
    }
    false
}

/// Whether the word begins with one `-`, and isn't that alone.
fn is_stray(word: &str) -> bool
    ensures { result ≡ is_stray word.now }
{
    match word.as_bytes() {
        [first, second, ..] => *first == b'-' && *second != b'-',
        _ => false,
    }
}

/// The command as `clap` is told of it. Values of an option and positionals are gathered, however
/// many there are: the table says how many there may be.
fn told_command<'a>(alloc: Global, command: CommandName) -> Result<Command<'a>, AllocError>
    ensures { IfOk result (λ c. app_of c ≡ told (option_names command)) }
{
    let mut told = Command::new(alloc, "cubed")
        .no_binary_name(true)
        .disable_help_flag(true)
        .disable_version_flag(true);
    let options = command.options();
    for option in options {
        let row = option.row();
        told = told.arg(
            Arg::new(alloc, row.name)
                .long(row.name)
                .action(ArgAction::Append),
        )?;
    }
    told.arg(Arg::new(alloc, POSITIONAL).action(ArgAction::Append))
}
