//! The keys of the plan that would be in the way of a run.
ghost use Rattle.std.specs.Prelude.{◌≡◌, ◌+◌, ◌*◌, [], ◌∷◌, IfErr, OnOk, All, Some, length, true};
ghost use Rattle.cu_store.specs.Held.{Contents};
ghost use Rattle.cu_store.specs.Steps.{NoChange, OnceEach, Steps};
ghost use Rattle.cu_command.specs.Seen.{Stepped, WithinCalls};
ghost use Rattle.cu_lower.specs.declared.options.Options.{Options};
ghost use Rattle.cu_name.specs.Keys.{record_key_of};
ghost use Rattle.cu_work.specs.Order.{IsFree, IsAsked};
ghost use Rattle.cu_zarr.specs.Key.{metadata_key_of, zarray_key_of};
ghost use Rattle.cu_top.specs.Ask.{IsAskEnd, answer_of};
ghost use Rattle.cu_top.specs.Prepare.{reads_array, is_own_input, HasNoOwnInput, asked_keys, job_plan};

use cu_codec::{metadata_key, zarray_key};
use cu_command::{Job, Status};
use cu_form::{Expr, Form};
use cu_name::{IdText, key_of_name, record_key};
use cu_op::Plan;
use cu_store::{DepotFault, Key, PutStore, has_tries};
use cu_work::{WayFault, ask_keys};

/// The keys of the two texts that a run stores.
#[derive(Clone, Copy)]
pub struct TextKeys {
    /// The key of the plan's record.
    pub record: Key,
    /// The key of the output's metadata.
    pub metadata: Key,
}

/// The keys of the texts of an expression's plan.
pub fn text_keys(expr: &Expr) -> TextKeys
    ensures record { result.«record» ≡ record_key_of expr.now.store_as }
    ensures metadata { result.metadata ≡ metadata_key_of expr.now.store_as }
{
    let name = key_of_name(expr.store_as());
    TextKeys {
        record: record_key(&name),
        metadata: metadata_key(&name),
    }
}

/// Whether a node of this form reads the array with this name.
fn reads_array(name: &IdText, form: &Form) -> bool
    ensures { result ≡ reads_array name.now form.now }
{
    match form {
        Form::Input { name: used } => used.text().as_bytes() == name.text().as_bytes(),
        _ => false,
    }
}

/// Whether the output is one of the inputs.
pub fn is_own_input(expr: &Expr) -> bool
    ensures { result ≡ is_own_input expr.now }
{
    let nodes = expr.nodes();
    for k in 0..nodes.len() {
        if reads_array(expr.store_as(), &nodes[k].form) {
            return true;
        }
    }
    false
}

/// Asks for one key.
fn ask_text<D: PutStore>(depot: &mut D, key: &Key, retries: u32) -> Result<(), WayFault>
    ensures { IsAsked (retries + 1) (D.shown depot.old) (D.shown depot.new) (key.now ∷ []) result }
{
    match has_tries(depot, key, retries) {
        Ok(true) => Err(WayFault::Held(*key)),
        Ok(false) => Ok(()),
        Err(DepotFault::Failed) => Err(WayFault::Failed(*key)),
        Err(DepotFault::NoMemory) => Err(WayFault::NoMemory),
    }
}

/// Asks for the keys of the texts, the record's first.
fn ask_texts<D: PutStore>(depot: &mut D, keys: &TextKeys, retries: u32) -> Result<(), WayFault>
    ensures { IsAsked (retries + 1) (D.shown depot.old) (D.shown depot.new) (keys.now.«record» ∷ keys.now.metadata ∷ []) result }
{
    if let Err(fault) = ask_text(depot, &keys.record, retries) {
        return Err(fault);
    }
    ask_text(depot, &keys.metadata, retries)
}

/// The key of metadata of version 2 of the output. It isn't stored, but no array of version 2 is to be hidden.
fn zarray_of(expr: &Expr) -> Key
    ensures { result ≡ zarray_key_of expr.now.store_as }
{
    zarray_key(&key_of_name(expr.store_as()))
}

/// Asks for the keys of a plan whose output is one of its inputs. The input's metadata was read, and counts as held: so this ends
/// at the output's metadata of version 2, where it didn't end at the record or at the metadata of version 3.
fn ask_own<D: PutStore>(depot: &mut D, job: &Job, retries: u32) -> WayFault
    requires own { is_own_input job.now.expr ≡ true }
    ensures step { Steps NoChange 0 ((retries + 1) * 2) (D.shown depot.old) (D.shown depot.new) }
    ensures once { OnceEach 2 (D.shown depot.old) (D.shown depot.new) }
    ensures refused { (options : Options) → IsAskEnd (retries + 1) job.now.expr (asked_keys options job.now) (D.shown depot.old) (D.shown depot.new) result }
{
    match ask_texts(depot, &text_keys(&job.expr), retries) {
        Ok(()) => WayFault::Held(zarray_of(&job.expr)),
        Err(fault) => fault,
    }
}

/// Asks for the keys of the plan, the record's first, then the output's metadata's, of version 3 and of version 2, and then those of
/// its chunks, and refuses the first that is held.
pub fn ask_plan<D: PutStore>(
    depot: &mut D,
    job: &Job,
    plan: &Plan,
    retries: u32,
) -> Result<(), WayFault>
    ensures free { (options : Options) (entry : Contents) → plan.now ≡ job_plan options job.now → (D.shown depot.old).held ≡ Some entry
        → OnOk result (All (IsFree entry) (asked_keys options job.now)) }
    ensures apart { OnOk result (HasNoOwnInput job.now.expr) }
    ensures step { Stepped NoChange (D.shown depot.old) (D.shown depot.new) }
    ensures refused { (options : Options) → plan.now ≡ job_plan options job.now
        → IfErr result (IsAskEnd (retries + 1) job.now.expr (asked_keys options job.now) (D.shown depot.old) (D.shown depot.new)) }
    ensures calls { (options : Options) → plan.now ≡ job_plan options job.now
        → WithinCalls (length (asked_keys options job.now) * (retries + 1)) (D.shown depot.old) (D.shown depot.new) }
    ensures once { (options : Options) → plan.now ≡ job_plan options job.now
        → OnceEach (length (asked_keys options job.now)) (D.shown depot.old) (D.shown depot.new) }
{
    if is_own_input(&job.expr) {
        return Err(ask_own(depot, job, retries));
    }
    let keys = text_keys(&job.expr);
    let zarray = zarray_of(&job.expr);
    ask_keys(plan, depot, &[keys.record, keys.metadata, zarray], retries)
}

/// What a run answers where asking for its keys ended so.
pub fn answer_of(fault: WayFault) -> Status
    ensures { result ≡ answer_of fault }
{
    match fault {
        WayFault::Held(key) => Status::Exists { key },
        WayFault::Failed(key) => Status::DepotFailed { key },
        WayFault::NoMemory => Status::NoMemory,
    }
}
