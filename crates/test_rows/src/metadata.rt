//! The kind of case that reads the metadata of an array.

use crate::bytes::NamedTexts;
use crate::findings::{CasePlace, Findings};
use crate::members::{Said, refuse_others};
use anyhow::{Result, bail};
use cu_meta::{MetaFault, MetaRefused, read_meta, write_meta};
use std::alloc::Global;

/// Reads the text of a case: the layout must be written as `written`, or the text be refused with `refused`, the number of the
/// fault and, behind it, the name of a member.
pub fn run_metadata(
    texts: &NamedTexts<'_>,
    said: &Said<'_>,
    name: &str,
    findings: &mut Findings,
) -> Result<()> {
    refuse_others(said.case, &["name", "text", "written", "refused"])?;
    let Some(text) = said.member("text") else {
        bail!("a text is wanted");
    };
    let text = texts.bytes(text)?;
    let must = match said.member("written") {
        Some(written) => texts.bytes(written)?,
        None => said.text("refused")?.as_bytes().to_vec(texts.alloc)?,
    };
    findings.made();
    let place = CasePlace {
        case: name,
        row: 0,
        what: "text",
        number: 0,
    };
    let is = read_and_written(texts.alloc, &text)?;
    findings.expect(&place, "the answer", &is, &must)
}

/// The text that is written for the layout that was read, or the fault.
fn read_and_written(alloc: Global, text: &[u8]) -> Result<Vec<u8>> {
    match read_meta(alloc, text) {
        Ok(layout) => match write_meta(alloc, &layout) {
            Ok(written) => Ok(written),
            Err(_) => bail!("no memory"),
        },
        Err(MetaRefused::Fault(fault)) => Ok(fault_text(alloc, &fault)?.into_bytes()),
        Err(MetaRefused::NoMemory) => bail!("no memory"),
    }
}

/// The number of a fault, and the name of the member that is wrong or missing.
fn fault_text(alloc: Global, fault: &MetaFault) -> Result<String> {
    let number = match fault {
        MetaFault::Json => "1",
        MetaFault::Format => "2",
        MetaFault::Field(name) => return Ok(format!(in alloc; "3 {}", name.as_str())?),
        MetaFault::BadDtype => "4",
        MetaFault::BadGrid => "5",
        MetaFault::KeyEncoding => "6",
        MetaFault::Fill => "7",
        MetaFault::Codec => "8",
        MetaFault::Unknown => "9",
        MetaFault::TooLong => "10",
        MetaFault::Other => "11",
    };
    Ok(String::from_str(alloc, number)?)
}
