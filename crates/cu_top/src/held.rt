//! The plan of a text whose record is held: what the commands that go on from it begin with.
ghost use Rattle.std.specs.Prelude.{◌≡◌, ◌+◌, None, IfErr, IfOk, IfSome, OnOk, length};
ghost use Rattle.cu_store.specs.Held.{Holds};
ghost use Rattle.cu_store.specs.Steps.{NoChange, OnceEach, Steps};
ghost use Rattle.cu_command.specs.Seen.{Stream, WithinCalls};
ghost use Rattle.cu_top.specs.Calls.{ReopenWithin};
ghost use Rattle.cu_top.specs.Driven.{HasPlanAndTexts};
ghost use Rattle.cu_top.specs.Held.{IsCompared, TextsDifferAt, IsFoundAgain};
ghost use Rattle.cu_top.specs.Held.{IsNotReopened, IsRecordFault, record_answer};
ghost use Rattle.cu_top.specs.Planned.{plan_calls};
ghost use Rattle.cu_top.specs.Run.{scene, case};
ghost use Rattle.cu_top.specs.Words.{IsInRange};

use crate::ask::{is_own_input, text_keys};
use crate::drive::{Ready, make_ready};
use crate::prepare::plan_job;
use cu_command::{Status, zeros};
use cu_lower::Options;
use cu_store::{DepotFault, Got, Key, PutStore, get_tries};
use std::alloc::Global;

/// Why a key doesn't hold the record of a plan.
#[derive(Clone, Copy)]
pub enum RecordFault {
    /// The key is absent.
    Absent,
    /// It holds another text, which differs first at this byte.
    Other { place: u64 },
    /// All calls for it failed.
    Failed,
    /// Memory was wanting.
    NoMemory,
}

/// The first byte at which two texts differ, or one of them ends.
fn first_difference(a: &[u8], b: &[u8]) -> Option<usize>
    ensures some { IfSome result (TextsDifferAt a.now b.now) }
    ensures none { result ≡ None → a.now ≡ b.now }
{
    let shorter = a.len().min(b.len());
    for place in 0..shorter {
        if a[place] != b[place] {
            return Some(place);
        }
    }
    if a.len() == b.len() {
        None
    } else {
        Some(shorter)
    }
}

/// What the bytes that were found tell beside the text of this plan.
fn compare_record(found: &[u8], text: &[u8]) -> Result<(), RecordFault>
    ensures { IsCompared found.now text.now result }
{
    match first_difference(found, text) {
        Some(place) => Err(RecordFault::Other {
            place: place as u64,
        }),
        None => Ok(()),
    }
}

/// Asks whether a key holds the record of a plan, by a buffer that has room for one byte more than the
/// record: so a longer one is told.
fn ask_front<D: PutStore>(
    depot: &mut D,
    key: &Key,
    text: &[u8],
    front: &mut [u8],
    retries: u32,
) -> Result<(), RecordFault>
    requires room { length front.old ≡ length text.now + 1 }
    ensures equal { OnOk result (Holds (D.shown depot.new).held key.now text.now) }
    ensures step { Steps NoChange 0 (retries + 1) (D.shown depot.old) (D.shown depot.new) }
    ensures once { OnceEach 1 (D.shown depot.old) (D.shown depot.new) }
    ensures fault { IfErr result (IsRecordFault (retries + 1) key.now text.now
        (D.shown depot.old, D.shown depot.new)) }
{
    match get_tries(depot, key, front, retries) {
        Ok(Got::Absent) => Err(RecordFault::Absent),
        Ok(Got::Held(count)) => {
            let known = front.len().min(count as usize);
            compare_record(&front[..known], text)
        }
        Err(DepotFault::Failed) => Err(RecordFault::Failed),
        Err(DepotFault::NoMemory) => Err(RecordFault::NoMemory),
    }
}

/// Asks whether a key holds the record of a plan.
fn ask_record<D: PutStore>(
    alloc: Global,
    depot: &mut D,
    key: &Key,
    text: &[u8],
    retries: u32,
) -> Result<(), RecordFault>
    ensures equal { OnOk result (Holds (D.shown depot.new).held key.now text.now) }
    ensures step { Steps NoChange 0 (retries + 1) (D.shown depot.old) (D.shown depot.new) }
    ensures once { OnceEach 1 (D.shown depot.old) (D.shown depot.new) }
    ensures fault { IfErr result (IsRecordFault (retries + 1) key.now text.now
        (D.shown depot.old, D.shown depot.new)) }
{
    let Ok(mut front) = zeros(alloc, text.len() + 1) else {
        return Err(RecordFault::NoMemory);
    };
    ask_front(depot, key, text, &mut front, retries)
}

/// What is answered where the record isn't held.
fn record_answer(key: &Key, fault: RecordFault) -> Status
    ensures { result ≡ record_answer key.now fault }
{
    match fault {
        RecordFault::Absent => Status::NoPlan,
        RecordFault::Other { place } => Status::OtherPlan { place },
        RecordFault::Failed => Status::DepotFailed { key: *key },
        RecordFault::NoMemory => Status::NoMemory,
    }
}

/// Finds the plan of a text again: the text, the inputs' metadata, the types and the plan are refused in
/// this order, as for a run, and then the record where it isn't held or another is. Nothing is changed.
///
/// Where the output is one of the inputs there is no such plan.
pub fn reopen<D: PutStore>(
    alloc: Global,
    options: &Options,
    text: &[u8],
    depot: &mut D,
) -> Result<Ready, Status>
    requires options { IsInRange options.now }
    ensures found { IfOk result (λ r. IsFoundAgain options.now text.now (D.shown depot.old)
        (D.shown depot.new) r.job) }
    ensures ready { IfOk result (HasPlanAndTexts options.now) }
    ensures refused { (source next sink after : Stream)
        → IfErr result (IsNotReopened (case options.now text.now
        (scene source sink (D.shown depot.old)) (scene next after (D.shown depot.new)))) }
    ensures calls { WithinCalls (plan_calls (options.now.retries + 1) text.now + (options.now.retries + 1))
        (D.shown depot.old) (D.shown depot.new) }
    ensures once { OnceEach (plan_calls 1 text.now + 1) (D.shown depot.old) (D.shown depot.new) }
    ensures refused_calls { (source next sink after : Stream)
        → IfErr result (ReopenWithin (case options.now text.now
        (scene source sink (D.shown depot.old)) (scene next after (D.shown depot.new)))) }
{
    let prepared = match plan_job(alloc, options, text, depot) {
        Ok(prepared) => prepared,
        Err(status) => return Err(status),
    };
    let Ok(ready) = make_ready(alloc, options, prepared) else {
        return Err(Status::NoMemory);
    };
    let key = text_keys(&ready.job.expr).record;
    if let Err(fault) = ask_record(alloc, depot, &key, &ready.record_text, options.retries) {
        return Err(record_answer(&key, fault));
    }
    if is_own_input(&ready.job.expr) {
        return Err(Status::NoPlan);
    }
    Ok(ready)
}
