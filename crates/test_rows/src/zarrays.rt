//! The kind of case that reads a `.zarray`.

use crate::bytes::NamedTexts;
use crate::findings::{CasePlace, Findings};
use crate::members::{Said, refuse_others};
use anyhow::{Result, bail};
use cu_meta::write_meta;
use cu_v2::{V2Fault, V2Refused, fault_code, read_zarray};
use std::alloc::Global;

/// Reads the text of a case: the layout must be written as `written`, which is text of version 3, or the text be refused with
/// `refused`, the code of the fault and, behind it, the name of a member.
pub fn run_zarray(
    texts: &NamedTexts<'_>,
    said: &Said<'_>,
    name: &str,
    findings: &mut Findings,
) -> Result<()> {
    refuse_others(said.case, &["name", "text", "written", "refused"])?;
    let Some(text) = said.member("text") else {
        bail!("a text is wanted");
    };
    let text = texts.bytes(text)?;
    let must = match said.member("written") {
        Some(written) => texts.bytes(written)?,
        None => said.text("refused")?.as_bytes().to_vec(texts.alloc)?,
    };
    findings.made();
    let place = CasePlace {
        case: name,
        row: 0,
        what: "text",
        number: 0,
    };
    let is = read_and_written(texts.alloc, &text)?;
    findings.expect(&place, "the answer", &is, &must)
}

/// The text that is written for the layout that was read, or the fault.
fn read_and_written(alloc: Global, text: &[u8]) -> Result<Vec<u8>> {
    match read_zarray(alloc, text) {
        Ok(layout) => match write_meta(alloc, &layout) {
            Ok(written) => Ok(written),
            Err(_) => bail!("no memory"),
        },
        Err(V2Refused::Fault(fault)) => Ok(fault_text(alloc, &fault)?.into_bytes()),
        Err(V2Refused::NoMemory) => bail!("no memory"),
    }
}

/// The code of a fault, and the name of the member that is missing.
fn fault_text(alloc: Global, fault: &V2Fault) -> Result<String> {
    let code = fault_code(fault);
    match fault {
        V2Fault::Field(name) => Ok(format!(in alloc; "{code} {}", name.as_str())?),
        _ => Ok(format!(in alloc; "{code}")?),
    }
}
