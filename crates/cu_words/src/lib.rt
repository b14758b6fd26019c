//! The words of the command line: the table of the options, and the reader of the words, which
//! stands on `clap`.
#![tactic(auto)]

mod line;
mod options;

pub use line::{CommandLine, LineFault, Numbers, demo_size, read_line};
pub use options::{CommandName, OptionName, TableRow};
