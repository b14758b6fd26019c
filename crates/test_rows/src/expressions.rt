//! The kind of case that reads the text of an expression.

use crate::bytes::NamedTexts;
use crate::findings::{CasePlace, Findings};
use crate::members::{Said, pair_of, refuse_others, text_of};
use anyhow::{Result, bail};
use cu_read::{ReadRefused, read_expr};
use std::alloc::Global;

/// Runs rows of a text and the answer: `ok`, or the code of the first fault and, behind it, the number of its node.
pub fn run_expressions(
    texts: &NamedTexts<'_>,
    said: &Said<'_>,
    name: &str,
    findings: &mut Findings,
) -> Result<()> {
    refuse_others(said.case, &["name", "rows"])?;
    for (at, row) in said.list("rows")?.iter().enumerate() {
        let (text, must) = pair_of(row)?;
        let is = answer_to(texts.alloc, &texts.bytes(text)?)?;
        findings.made();
        let place = CasePlace::row(name, at);
        findings.expect(
            &place,
            "the answer",
            is.as_bytes(),
            text_of(must)?.as_bytes(),
        )?;
    }
    Ok(())
}

/// What the reader answers.
fn answer_to(alloc: Global, text: &[u8]) -> Result<String> {
    match read_expr(alloc, text) {
        Ok(_) => Ok(String::from_str(alloc, "ok")?),
        Err(ReadRefused::Fault(fault)) => Ok(format!(in alloc; "{} {}", fault.code, fault.node)?),
        Err(ReadRefused::NoMemory) => bail!("no memory"),
    }
}
