//! The table of the options.
ghost use Rattle.std.specs.Prelude.{◌≡◌, ◌≤◌};
ghost use Rattle.cu_words.specs.Options.{command_named, option_row, options_of, positional_count};
ghost use Rattle.cu_words.specs.Options.{required_of, row_view};

/// A command, which the first word names.
#[derive(Clone, Copy)]
pub enum CommandName {
    Run,
    Resume,
    Drop,
    Plan,
    Load,
    Check,
    Print,
    Demo,
    Begin,
    Part,
}

/// An option of the command line.
#[derive(Clone, Copy)]
pub enum OptionName {
    /// The bytes that a task may need.
    AllowedMem,
    /// How many of these are set aside.
    ReservedMem,
    /// How many partial results a task of a reduction merges.
    SplitEvery,
    /// The version of the plan: 2 leaves arrays out that can be made where they are read.
    Fusion,
    /// How many threads run tasks.
    Workers,
    /// How often a call or a task is tried again.
    Retries,
    /// Whether a task that runs is started a second time where nothing else is left to start.
    Backups,
    /// Whether a file's data is synced before the file is put in place.
    Sync,
    /// The number of the operation whose tasks are a part.
    Op,
    /// The number of the first task of the part.
    From,
    /// The number of the task behind its last one.
    To,
}

/// A row of the table of the options: the name, without its `--`; the least and the most number
/// that the option takes; and its number where it isn't given. Memory is in bytes.
#[derive(Clone, Copy)]
pub struct TableRow<'a> {
    pub name: &'a str,
    pub least: u64,
    pub most: u64,
    pub default: u64,
}

impl OptionName {
    /// The option's row of the table.
    pub fn row<'a>(self) -> TableRow<'a>
        ensures row { row_view result ≡ option_row self }
        ensures default { (result.least ≤ result.default) × (result.default ≤ result.most) }
    {
        let (name, least, most, default) = match self {
            OptionName::AllowedMem => ("allowed-mem", 0, 1 << 40, 200_000_000),
            OptionName::ReservedMem => ("reserved-mem", 0, 1 << 40, 0),
            OptionName::SplitEvery => ("split-every", 2, 64, 4),
            OptionName::Fusion => ("fusion", 1, 2, 1),
            OptionName::Workers => ("workers", 1, 64, 1),
            OptionName::Retries => ("retries", 0, 8, 2),
            OptionName::Backups => ("backups", 0, 1, 0),
            OptionName::Sync => ("sync", 0, 1, 1),
            OptionName::Op => ("op", 0, u64::MAX, 0),
            OptionName::From => ("from", 0, u64::MAX, 0),
            OptionName::To => ("to", 0, u64::MAX, 0),
        };
        TableRow {
            name,
            least,
            most,
            default,
        }
    }
}

static RUN: [OptionName; 8] = [
    OptionName::AllowedMem,
    OptionName::ReservedMem,
    OptionName::SplitEvery,
    OptionName::Fusion,
    OptionName::Workers,
    OptionName::Retries,
    OptionName::Backups,
    OptionName::Sync,
];

static PLAN: [OptionName; 4] = [
    OptionName::AllowedMem,
    OptionName::ReservedMem,
    OptionName::SplitEvery,
    OptionName::Fusion,
];

static DROP: [OptionName; 5] = [
    OptionName::AllowedMem,
    OptionName::ReservedMem,
    OptionName::SplitEvery,
    OptionName::Fusion,
    OptionName::Retries,
];

static BEGIN: [OptionName; 6] = [
    OptionName::AllowedMem,
    OptionName::ReservedMem,
    OptionName::SplitEvery,
    OptionName::Fusion,
    OptionName::Retries,
    OptionName::Sync,
];

static LOAD: [OptionName; 2] = [OptionName::Retries, OptionName::Sync];

static PART: [OptionName; 9] = [
    OptionName::AllowedMem,
    OptionName::ReservedMem,
    OptionName::SplitEvery,
    OptionName::Fusion,
    OptionName::Retries,
    OptionName::Sync,
    OptionName::Op,
    OptionName::From,
    OptionName::To,
];

static PART_REQUIRED: [OptionName; 3] = [OptionName::Op, OptionName::From, OptionName::To];

static OTHERS: [OptionName; 1] = [OptionName::Retries];

impl CommandName {
    /// The command that this word names.
    pub fn of(word: &str) -> Option<CommandName>
        ensures { result ≡ command_named word.now }
    {
        match word {
            "run" => Some(CommandName::Run),
            "resume" => Some(CommandName::Resume),
            "drop" => Some(CommandName::Drop),
            "plan" => Some(CommandName::Plan),
            "load" => Some(CommandName::Load),
            "check" => Some(CommandName::Check),
            "print" => Some(CommandName::Print),
            "demo" => Some(CommandName::Demo),
            "begin" => Some(CommandName::Begin),
            "part" => Some(CommandName::Part),
            _ => None,
        }
    }

    /// How many positionals the command takes.
    pub fn positionals(self) -> usize
        ensures { result ≡ positional_count self }
    {
        match self {
            CommandName::Print | CommandName::Demo => 1,
            _ => 0,
        }
    }

    /// The options that the command takes.
    pub fn options(self) -> &'static [OptionName]
        ensures { result.now ≡ options_of self }
    {
        match self {
            CommandName::Run | CommandName::Resume | CommandName::Demo => RUN.as_slice(),
            CommandName::Drop => DROP.as_slice(),
            CommandName::Begin => BEGIN.as_slice(),
            CommandName::Part => PART.as_slice(),
            CommandName::Plan => PLAN.as_slice(),
            CommandName::Load => LOAD.as_slice(),
            CommandName::Check | CommandName::Print => OTHERS.as_slice(),
        }
    }

    /// The options without which the command is refused.
    pub fn required(self) -> &'static [OptionName]
        ensures { result.now ≡ required_of self }
    {
        match self {
            CommandName::Part => PART_REQUIRED.as_slice(),
            _ => &[],
        }
    }
}
