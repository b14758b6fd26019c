//! The kind of case that makes single calls of a folder of the system as a depot.

use anyhow::{Result, bail};
use cu_dir::DirDepot;
use cu_store::{Depot, DepotFault, Got, Key};
use std::alloc::Global;
use std::fs;
use std::rt::Files;
use test_rows::{CasePlace, Findings, NamedTexts, Said, key_of, refuse_others};

/// The folder, which is made beside the tables and removed behind the case.
const FOLDER: &str = "folder_of_calls";

/// Makes the calls of a case one after another over an empty folder, each as `{"call":"put","key":K,"bytes":V,"answer":"ok"}`.
/// `get` and `has` answer `absent`, or `held` behind which `get` says the length; the bytes of `get` are those that its buffer
/// of this length must have then. Each may answer `failed`.
pub(crate) fn run_depot<R: Files + AllocGlobal + Clone + Drop>(
    rt: &R,
    texts: &NamedTexts<'_>,
    said: &Said<'_>,
    name: &str,
    findings: &mut Findings,
) -> Result<()> {
    refuse_others(said.case, &["name", "calls"])?;
    let _ = fs::remove_dir_all(rt, FOLDER);
    let Ok(mut depot) = DirDepot::make(rt, texts.alloc, FOLDER) else {
        bail!("no memory");
    };
    for (at, row) in said.list("calls")?.iter().enumerate() {
        refuse_others(row, &["call", "key", "bytes", "answer"])?;
        let said = Said { row, ..*said };
        let bytes = match said.member("bytes") {
            None => Vec::new(texts.alloc),
            Some(bytes) => texts.bytes(bytes)?,
        };
        let key = key_of(said.text("key")?)?;
        let is = answer_of(texts.alloc, &mut depot, said.text("call")?, &key, &bytes)?;
        let must = said.text("answer")?.as_bytes();
        findings.made();
        findings.expect(
            &CasePlace::row(name, at),
            key.text(),
            is.as_str().as_bytes(),
            must,
        )?;
    }
    let _ = fs::remove_dir_all(rt, FOLDER);
    Ok(())
}

/// Makes a call, and says what it answers.
fn answer_of<D: Depot>(
    alloc: Global,
    depot: &mut D,
    call: &str,
    key: &Key,
    bytes: &[u8],
) -> Result<String> {
    let answer = match call {
        "get" => {
            let mut buf = vec![in alloc; 0u8; bytes.len()]?;
            match depot.get(key, &mut buf) {
                Ok(Got::Held(_)) if buf.as_slice() != bytes => Ok("held, but other bytes"),
                Ok(Got::Held(length)) => return Ok(format!(in alloc; "held {length}")?),
                Ok(Got::Absent) => Ok("absent"),
                Err(fault) => Err(fault),
            }
        }
        "has" => depot
            .has(key)
            .map(|is_held| if is_held { "held" } else { "absent" }),
        "put" => depot.put(key, bytes).map(|()| "ok"),
        "remove" => depot.remove(key).map(|()| "ok"),
        _ => bail!("{call} is no call of a depot"),
    };
    match answer {
        Ok(text) => Ok(String::from_str(alloc, text)?),
        Err(DepotFault::Failed) => Ok(String::from_str(alloc, "failed")?),
        Err(DepotFault::NoMemory) => bail!("no memory"),
    }
}
