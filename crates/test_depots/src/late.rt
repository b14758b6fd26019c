//! Puts that failed and land later.
ghost use Rattle.std.specs.Prelude.{◌≡◌, ◌≤◌, IfOk, IfSome};
ghost use Rattle.cu_store.specs.Steps.{MadeCalls};
ghost use Rattle.test_depots.specs.Late.{due_put, still_late, shown_with, KeepsAtMost, LandsOnly};

use cu_store::{Depot, Key};
use std::alloc::{AllocError, Global};

/// A put that failed and may still land.
#[derive(Drop)]
pub(crate) struct FailedPut {
    pub(crate) key: Key,
    pub(crate) bytes: Vec<u8>,
    /// How many further calls come before the one at which it lands.
    pub(crate) wait: u32,
}

/// What becomes of a late put at a call: it lands, if it has waited for so many calls, and else waits for one call less.
pub(crate) fn due(late: &mut Option<FailedPut>) -> Option<FailedPut>
    ensures lands { result ≡ due_put late.old }
    ensures waits { late.new ≡ still_late late.old }
{
    match late.take() {
        None => None,
        Some(put) => {
            if put.wait == 0 {
                return Some(put);
            }
            let FailedPut { key, bytes, wait } = put;
            *late = Some(FailedPut {
                key,
                bytes,
                wait: wait - 1,
            });
            None
        }
    }
}

/// The late put of a depot lands in it, if it is due.
pub(crate) fn land<D: Depot>(depot: &mut D, late: &mut Option<FailedPut>)
    ensures waits { late.new ≡ still_late late.old }
    ensures landed { LandsOnly (shown_with (D.shown depot.old) late.old 0 0) (shown_with (D.shown depot.new) late.new 0 0) }
    ensures made { IfSome (due_put late.old) (λ put. MadeCalls 1 1 (D.shown depot.old).calls (D.shown depot.new).calls) }
    ensures count { (D.shown depot.old).faults ≤ (D.shown depot.new).faults }
{
    if let Some(put) = due(late) {
        // Nobody waits for its answer.
        let _ = depot.put(&put.key, &put.bytes);
    }
}

/// A copy of the bytes.
fn copied(alloc: Global, bytes: &[u8]) -> Result<Vec<u8>, AllocError>
    ensures { IfOk result (λ copy. copy.items ≡ bytes.now) }
{
    let mut copy = Vec::new(alloc);
    copy.extend_from_slice(bytes)?;
    Ok(copy)
}

/// Keeps a put that failed, to land after so many further calls, if it is to land. One that was kept before stays, and where there is
/// no memory the put never lands.
pub(crate) fn keep(
    alloc: Global,
    late: &mut Option<FailedPut>,
    land: Option<u32>,
    key: &Key,
    bytes: &[u8],
)
    ensures { KeepsAtMost land key.now bytes.now late.old late.new }
{
    if late.is_some() {
        return;
    }
    let Some(wait) = land else {
        return;
    };
    if let Ok(bytes) = copied(alloc, bytes) {
        *late = Some(FailedPut {
            key: *key,
            bytes,
            wait,
        });
    }
}
