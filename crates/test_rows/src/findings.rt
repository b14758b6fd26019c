//! What isn't as it must be.

use anyhow::{Error, Result};
use std::alloc::Global;
use std::fmt::Write;
use std::str;

/// Where a call stands: the case, its row or step, and what was done to the call, with a number.
#[derive(Clone, Copy)]
pub struct CasePlace<'a> {
    /// The name of the case.
    pub case: &'a str,
    /// The number of the row or step.
    pub row: u64,
    /// What was done to the call.
    pub what: &'a str,
    /// With this number.
    pub number: u64,
}

impl<'a> CasePlace<'a> {
    /// A row that asks one thing.
    pub fn row(case: &'a str, row: usize) -> CasePlace<'a> {
        CasePlace {
            case,
            row: row as u64,
            what: "call",
            number: 0,
        }
    }
}

/// The differences that were found, as text.
#[derive(Drop)]
pub struct Findings {
    alloc: Global,
    text: String,
    count: u64,
    runs: u64,
}

impl Findings {
    /// Nothing found yet.
    pub fn new(alloc: Global) -> Findings {
        Findings {
            alloc,
            text: String::new(alloc),
            count: 0,
            runs: 0,
        }
    }

    /// The differences.
    pub fn text(&self) -> &str {
        self.text.as_str()
    }

    /// How many there are.
    pub fn count(&self) -> u64 {
        self.count
    }

    /// How many calls were made.
    pub fn runs(&self) -> u64 {
        self.runs
    }

    /// Counts a call.
    pub fn made(&mut self) {
        self.runs = self.runs.saturating_add(1);
    }

    /// Compares the bytes of something with those that it must have.
    pub fn expect(
        &mut self,
        place: &CasePlace<'_>,
        subject: &str,
        is: &[u8],
        must: &[u8],
    ) -> Result<()> {
        if is == must {
            return Ok(());
        }
        let is = shown(self.alloc, is)?;
        let must = shown(self.alloc, must)?;
        self.differ(place, subject, is.as_str(), must.as_str())
    }

    /// Notes a case that can't be run, as one with a member that isn't known.
    pub fn fail(&mut self, case: &str, error: &Error) -> Result<()> {
        self.count = self.count.saturating_add(1);
        write!(self.text, "{case}: {error}\n")?;
        Ok(())
    }

    /// Notes a row that isn't so.
    pub fn expect_so(&mut self, place: &CasePlace<'_>, is_so: bool) -> Result<()> {
        if is_so {
            return Ok(());
        }
        self.differ(place, "the answer", "another", "the row's")
    }

    /// Notes a difference.
    pub fn differ(
        &mut self,
        place: &CasePlace<'_>,
        subject: &str,
        is: &str,
        must: &str,
    ) -> Result<()> {
        self.count = self.count.saturating_add(1);
        let CasePlace {
            case,
            row,
            what,
            number,
        } = *place;
        write!(
            self.text,
            "{case}, row {row}, {what} {number}: {subject} is {is} and must be {must}\n"
        )?;
        Ok(())
    }
}

/// Bytes for a reader: a text in quotes, or hexadecimal digits.
fn shown(alloc: Global, bytes: &[u8]) -> Result<String> {
    if let Ok(text) = str::from_utf8(bytes) {
        return Ok(format!(in alloc; "{text:?}")?);
    }
    let mut digits = String::new(alloc);
    for byte in bytes {
        write!(digits, "{byte:02x}")?;
    }
    Ok(digits)
}
