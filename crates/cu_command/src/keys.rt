//! Calls of the depot for one key, each tried again at most `retries` times where it fails.
ghost use Rattle.std.specs.Prelude.{◌≡◌, ◌+◌, IfErr, IfOk, OnOk, true, false};
ghost use Rattle.cu_store.specs.Held.{Holds, IsGone, IsHeldIn};
ghost use Rattle.cu_store.specs.Steps.{NoChange, PutOf, Steps, OnceEach};
ghost use Rattle.cu_command.specs.Keys.{IsKeyFault, IsValueUnput};

use crate::Status;
use cu_store::{DepotFault, Key, PutStore, has_tries, put_tries};

/// Whether a key is held.
pub fn ask_key<D: PutStore>(depot: &mut D, key: &Key, retries: u32) -> Result<bool, Status>
    ensures absent { IfOk result (λ held. held ≡ false → IsGone (D.shown depot.new).held key.now) }
    ensures held { IfOk result (λ held. held ≡ true → IsHeldIn (D.shown depot.new).held key.now) }
    ensures step { Steps NoChange 1 (retries + 1) (D.shown depot.old) (D.shown depot.new) }
    ensures once { OnceEach 1 (D.shown depot.old) (D.shown depot.new) }
    ensures cause { IfErr result (IsKeyFault (retries + 1) (D.shown depot.old).faults (D.shown depot.new).faults (D.shown depot.new).lacks key.now) }
{
    match has_tries(depot, key, retries) {
        Ok(held) => Ok(held),
        Err(DepotFault::Failed) => Err(Status::DepotFailed { key: *key }),
        Err(DepotFault::NoMemory) => Err(Status::NoMemory),
    }
}

/// Stores the value of a key. Where memory is wanted and no call failed, nothing is stored.
pub fn put_value<D: PutStore>(
    depot: &mut D,
    key: &Key,
    bytes: &[u8],
    retries: u32,
) -> Result<(), Status>
    ensures stored { OnOk result (Holds (D.shown depot.new).held key.now bytes.now) }
    ensures step { Steps (PutOf key.now bytes.now) 1 (retries + 1) (D.shown depot.old) (D.shown depot.new) }
    ensures once { OnceEach 1 (D.shown depot.old) (D.shown depot.new) }
    ensures cause { IfErr result (IsKeyFault (retries + 1) (D.shown depot.old).faults (D.shown depot.new).faults (D.shown depot.new).lacks key.now) }
    ensures unput { IfErr result (IsValueUnput (D.shown depot.old) (D.shown depot.new)) }
{
    match put_tries(depot, key, bytes, retries) {
        Ok(()) => Ok(()),
        Err(DepotFault::Failed) => Err(Status::DepotFailed { key: *key }),
        Err(DepotFault::NoMemory) => Err(Status::NoMemory),
    }
}
