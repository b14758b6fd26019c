//! The keys that would be in the way of an array that is loaded.
ghost use Rattle.std.specs.Prelude.{◌≡◌, ◌+◌, ◌*◌, IfErr, OnOk};
ghost use Rattle.cu_store.specs.Held.{IsGone};
ghost use Rattle.cu_store.specs.Steps.{NoChange, Steps, OnceEach};
ghost use Rattle.cu_command.specs.Stored.{HasNoMetadata, IsMetadataAsked};
ghost use Rattle.cu_name.specs.Name.{IsArrayName};
ghost use Rattle.cu_load.specs.Keys.{IsAskedFor, AreFree, IsAskFault};

use cu_codec::{metadata_key, zarray_key};
use cu_command::{Status, ask_key};
use cu_name::record_key;
use cu_store::{Key, PutStore};

/// Refuses a key that is held.
fn refuse_held<D: PutStore>(depot: &mut D, key: &Key, retries: u32) -> Result<(), Status>
    ensures gone { OnOk result (IsGone (D.shown depot.new).held key.now) }
    ensures refused { IfErr result (IsAskFault (retries + 1) (λ asked. asked ≡ key.now) (D.shown depot.old).faults (D.shown depot.new).faults (D.shown depot.new).held) }
    ensures step { Steps NoChange 1 (retries + 1) (D.shown depot.old) (D.shown depot.new) }
    ensures once { OnceEach 1 (D.shown depot.old) (D.shown depot.new) }
{
    match ask_key(depot, key, retries) {
        Ok(held) => {
            if held {
                Err(Status::Exists { key: *key })
            } else {
                Ok(())
            }
        }
        Err(status) => Err(status),
    }
}

/// Asks for the two keys of metadata of the array with this name, first that of version 3, and refuses the first that is held.
fn ask_metadata<D: PutStore>(depot: &mut D, name: &Key, retries: u32) -> Result<(), Status>
    requires { IsArrayName name.now }
    ensures free { OnOk result (HasNoMetadata (D.shown depot.old).held name.now) }
    ensures refused { IfErr result (IsAskFault (retries + 1) (IsMetadataAsked (D.shown depot.old).held name.now) (D.shown depot.old).faults (D.shown depot.new).faults (D.shown depot.new).held) }
    ensures step { Steps NoChange 1 (2 * (retries + 1)) (D.shown depot.old) (D.shown depot.new) }
    ensures once { OnceEach 2 (D.shown depot.old) (D.shown depot.new) }
{
    let metadata = metadata_key(name);
    if let Err(status) = refuse_held(depot, &metadata, retries) {
        return Err(status);
    }
    let zarray = zarray_key(name);
    refuse_held(depot, &zarray, retries)
}

/// Asks for the key of the record of the plan that stores the array with this name, and then for those of its metadata, and
/// refuses the first that is held.
pub fn ask_keys<D: PutStore>(depot: &mut D, name: &Key, retries: u32) -> Result<(), Status>
    requires { IsArrayName name.now }
    ensures free { OnOk result (AreFree name.now (D.shown depot.old).held) }
    ensures refused { IfErr result (IsAskFault (retries + 1) (IsAskedFor name.now (D.shown depot.old).held) (D.shown depot.old).faults (D.shown depot.new).faults (D.shown depot.new).held) }
    ensures step { Steps NoChange 1 (3 * (retries + 1)) (D.shown depot.old) (D.shown depot.new) }
    ensures once { OnceEach 3 (D.shown depot.old) (D.shown depot.new) }
{
    let record = record_key(name);
    if let Err(status) = refuse_held(depot, &record, retries) {
        return Err(status);
    }
    ask_metadata(depot, name, retries)
}
