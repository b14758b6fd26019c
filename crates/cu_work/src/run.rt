//! Storing what a plan makes: its texts, and then its chunks.
ghost use Rattle.std.specs.Prelude.{◌≡◌, ℕ, ◌+◌, ◌*◌, ◌<◌, ◌≤◌, IsTrue, Some, OnOk, OnErr, IfOk, IfErr};
ghost use Rattle.cu_store.specs.Faults.{last_count};
ghost use Rattle.cu_store.specs.Held.{Contents, Holds};
ghost use Rattle.cu_store.specs.Steps.{PutOf, Steps, OnceEach};
ghost use Rattle.cu_history.specs.History.{is_start, count_kind};
ghost use Rattle.cu_op.specs.Elements.{Elements};
ghost use Rattle.cu_run_law.specs.Left.{IsLeft, RunChange};
ghost use Rattle.cu_run_law.specs.Pieces.{KeysApart, InputsApart, IsComplete};
ghost use Rattle.cu_work.specs.Drive.{IsBadChunk, IsInputKey, IsTaskMost};
ghost use Rattle.cu_work.specs.Calls.{missing_texts};
ghost use Rattle.cu_work.specs.declared.run.HeldTexts.TheVariants.{Neither};
ghost use Rattle.cu_work.specs.Run.{run_of, share_fault, PutOfText, PutOfMissing, AreTextsHeld, IsRecordFirst, HoldsTexts, IsRunFault, IsTextPutFault, IsUnstored};
ghost use Rattle.cu_work.specs.Shared.{IsOpen, IsMemoryFor, HasDriven, HoldsDone, AreCounted, IfBadChunk, IfComplete, IfLacked};
ghost use Rattle.cu_work.specs.Starts.{IsOfWorkers, WithinHistory, most_calls};
ghost use Rattle.cu_work.specs.World.{IsFound};

use crate::memory::RunMemory;
use crate::options::RunOptions;
use crate::outcome::RunEnd;
use crate::shared::run_tasks;
use cu_op::Plan;
use cu_store::{DepotFault, Gate, Key, PutStore, SharedStore, put_tries};
use std::alloc::Global;
use std::sync::Wait;
use std::thread::Threads;

/// The texts that are stored before the first chunk of a plan.
#[derive(Clone, Copy)]
pub struct Texts<'a> {
    /// The key of the plan's record.
    pub record_key: Key,
    /// The record.
    pub record: &'a [u8],
    /// The key of the metadata of the array that the plan is made for.
    pub metadata_key: Key,
    /// The metadata.
    pub metadata: &'a [u8],
}

/// Which of the texts are held already, so that they aren't stored.
#[derive(Clone, Copy, Debug, PartialEq, Eq)]
pub enum HeldTexts {
    /// None: the run begins.
    Neither,
    /// The record: the run goes on.
    Record,
    /// The record and the metadata: the run goes on.
    Both,
}

/// Why no task was run.
#[derive(Clone, Copy, Debug, PartialEq, Eq)]
pub enum RunFault {
    /// All calls for the key of this text failed.
    TextFailed(Key),
    /// All calls to share the keys failed.
    ShareFailed,
    /// The depot lacked memory.
    NoMemory,
}

/// Stores one text.
fn put_text<D: PutStore>(
    depot: &mut D,
    key: &Key,
    text: &[u8],
    retries: u32,
) -> Result<(), RunFault>
    ensures stored { OnOk result (Holds (D.shown depot.new).held key.now text.now) }
    ensures step { Steps (PutOf key.now text.now) 1 (retries + 1) (D.shown depot.old) (D.shown depot.new) }
    ensures once { OnceEach 1 (D.shown depot.old) (D.shown depot.new) }
    ensures cause { IfErr result (IsTextPutFault (retries + 1) key.now (D.shown depot.old) (D.shown depot.new)) }
{
    match put_tries(depot, key, text, retries) {
        Ok(()) => Ok(()),
        Err(DepotFault::Failed) => Err(RunFault::TextFailed(*key)),
        Err(DepotFault::NoMemory) => Err(RunFault::NoMemory),
    }
}

/// Stores the texts of the plan, the record first. Each call is made again where the store failed, at
/// most `retries` times.
///
/// `TextFailed`: all calls for this text failed. `NoMemory`: the depot lacked memory.
pub fn store_texts<D: PutStore>(
    plan: &Plan,
    depot: &mut D,
    texts: &Texts<'_>,
    retries: u32,
) -> Result<(), RunFault>
    ensures step { Steps (RunChange (run_of plan.now texts.now) (D.shown depot.old)) 0 (2 * (retries + 1)) (D.shown depot.old) (D.shown depot.new) }
    ensures own { Steps (PutOfText texts.now) 0 (2 * (retries + 1)) (D.shown depot.old) (D.shown depot.new) }
    ensures once { OnceEach 2 (D.shown depot.old) (D.shown depot.new) }
    ensures stored { (env : Elements) → IsLeft (run_of plan.now texts.now) env (D.shown depot.old) → OnOk result (HoldsTexts (run_of plan.now texts.now) env (D.shown depot.new)) }
    ensures unstored { (env : Elements) → IsLeft (run_of plan.now texts.now) env (D.shown depot.old)
        → IfErr result (IsUnstored (run_of plan.now texts.now) env (retries + 1) (D.shown depot.old) (D.shown depot.new)) }
    ensures cause { IfErr result (IsRunFault Neither (retries + 1) texts.now (D.shown depot.old) (D.shown depot.new)) }
{
    if let Err(fault) = put_text(depot, &texts.record_key, texts.record, retries) {
        return Err(fault);
    }
    put_text(depot, &texts.metadata_key, texts.metadata, retries)
}

/// Stores the texts of the plan that aren't held, the record first.
fn put_texts<D: PutStore>(
    plan: &Plan,
    depot: &mut D,
    texts: &Texts<'_>,
    held: HeldTexts,
    retries: u32,
) -> Result<(), RunFault>
    requires { AreTextsHeld held texts.now (D.shown depot.old).held }
    ensures step { Steps (RunChange (run_of plan.now texts.now) (D.shown depot.old)) 0 (2 * (retries + 1)) (D.shown depot.old) (D.shown depot.new) }
    ensures own { Steps (PutOfMissing held texts.now) 0 (2 * (retries + 1)) (D.shown depot.old) (D.shown depot.new) }
    ensures calls { (D.shown depot.new).calls ≤ (D.shown depot.old).calls + missing_texts held * (retries + 1) }
    ensures once { OnceEach (missing_texts held) (D.shown depot.old) (D.shown depot.new) }
    ensures stored { (env : Elements) → IsLeft (run_of plan.now texts.now) env (D.shown depot.old) → OnOk result (HoldsTexts (run_of plan.now texts.now) env (D.shown depot.new)) }
    ensures unstored { (env : Elements) → IsLeft (run_of plan.now texts.now) env (D.shown depot.old)
        → IfErr result (IsUnstored (run_of plan.now texts.now) env (retries + 1) (D.shown depot.old) (D.shown depot.new)) }
    ensures cause { IfErr result (IsRunFault held (retries + 1) texts.now (D.shown depot.old) (D.shown depot.new)) }
{
    match held {
        HeldTexts::Neither => store_texts(plan, depot, texts, retries),
        HeldTexts::Record => put_text(depot, &texts.metadata_key, texts.metadata, retries),
        HeldTexts::Both => Ok(()),
    }
}

/// Why no task was run, where sharing ended so.
fn fault_of(fault: DepotFault) -> RunFault
    ensures { result ≡ share_fault fault }
{
    match fault {
        DepotFault::Failed => RunFault::ShareFailed,
        DepotFault::NoMemory => RunFault::NoMemory,
    }
}

/// Stores the texts of the plan that aren't held, the record first, shares the keys of its chunks and of its inputs, runs its tasks in
/// the yard, and gives the keys back. Each call for a text, sharing and each task is tried again where the store failed, at most
/// `retries` times. One worker alone starts no thread and waits for nobody.
///
/// Where contents are told, the texts are held that are said to be, and all chunks of the tasks that the table calls done.
///
/// Where the contents are told and were left so at first, each text and each chunk of the plan is absent or holds its value at any
/// end, and each holds it after `Complete`. Nothing is stored before the record is, and no chunk before both texts are. The table
/// has the history, and each chunk of a task that is done there is held.
///
/// `TextFailed`: all calls for this text failed. `ShareFailed`: all calls to share failed; the texts are held. The answers of `Ok` are
/// those of `run_tasks`.
pub fn run_plan<H: Threads + Wait + Sync, D: SharedStore, G: Gate>(
    rt: &H,
    alloc: Global,
    plan: &Plan,
    depot: &mut D,
    texts: &Texts<'_>,
    held: HeldTexts,
    memory: RunMemory,
    options: &RunOptions,
    gate: &G,
) -> Result<RunEnd, RunFault>
    requires apart { KeysApart (run_of plan.now texts.now) }
    requires inputs { InputsApart (run_of plan.now texts.now) }
    requires open { IsOpen (run_of plan.now texts.now) (D.shown depot.old) }
    requires held { AreTextsHeld held texts.now (D.shown depot.old).held }
    requires workers { 0 < options.now.workers }
    requires memory { IsMemoryFor plan.now options.now memory.table.done memory }
    requires found { (held : Contents) → (D.shown depot.old).held ≡ Some held → IsFound plan.now held memory.table.done }
    ensures step { Steps (RunChange (run_of plan.now texts.now) (D.shown depot.old)) 0 last_count (D.shown depot.old) (D.shown depot.new) }
    ensures texts { (env : Elements) → IsLeft (run_of plan.now texts.now) env (D.shown depot.old) → OnOk result (HoldsTexts (run_of plan.now texts.now) env (D.shown depot.new)) }
    ensures record { (env : Elements) → IsLeft (run_of plan.now texts.now) env (D.shown depot.old)
        → IsRecordFirst (run_of plan.now texts.now) env last_count (D.shown depot.old) (D.shown depot.new) }
    ensures unstored { (env : Elements) → IsLeft (run_of plan.now texts.now) env (D.shown depot.old)
        → IfErr result (IsUnstored (run_of plan.now texts.now) env (options.now.retries + 1) (D.shown depot.old) (D.shown depot.new)) }
    ensures refused { OnErr result (Steps (PutOfMissing held texts.now) 0 (3 * (options.now.retries + 1)) (D.shown depot.old) (D.shown depot.new)) }
    ensures cause { IfErr result (IsRunFault held (options.now.retries + 1) texts.now (D.shown depot.old) (D.shown depot.new)) }
    ensures driven { IfOk result (λ end. HasDriven memory.table end.table (D.shown depot.old) (D.shown depot.new) end.outcome) }
    ensures counts { IfOk result (λ end. IfComplete end.outcome (AreCounted memory.table end.table)) }
    ensures done { (env : Elements) → IsLeft (run_of plan.now texts.now) env (D.shown depot.old)
        → IfOk result (λ end. HoldsDone (run_of plan.now texts.now) env end.table.state (D.shown depot.new)) }
    ensures complete { (env : Elements) → IsLeft (run_of plan.now texts.now) env (D.shown depot.old)
        → IfOk result (λ end. IfComplete end.outcome (IsComplete (run_of plan.now texts.now) env (D.shown depot.new))) }
    ensures bad { IfOk result (λ end. IfBadChunk end.outcome (IsBadChunk plan.now (D.shown depot.new))) }
    ensures input { (env : Elements) → IsLeft (run_of plan.now texts.now) env (D.shown depot.old)
        → IfOk result (λ end. IfBadChunk end.outcome (λ key got want. IsInputKey plan.now key)) }
    ensures lacked { IfOk result (λ end. IfLacked end.outcome (IsTrue (D.yards_lack depot.new))) }
    ensures workers { IfOk result (λ end. IsOfWorkers options.now.workers memory.table.settings end.table.history) }
    ensures tries { (m : ℕ) → IsTaskMost plan.now m → IfOk result (λ end. (D.shown depot.new).calls
        ≤ (D.shown depot.old).calls + (missing_texts held + 1) * (options.now.retries + 1) + count_kind is_start end.table.history * m) }
    ensures once { IfOk result (λ end. WithinHistory (missing_texts held + 1) plan.now
        end.table.history (D.shown depot.old) (D.shown depot.new)) }
    ensures begun_once { OnErr result (OnceEach (missing_texts held + 1) (D.shown depot.old) (D.shown depot.new)) }
    ensures begun { OnErr result ((D.shown depot.new).calls ≤ (D.shown depot.old).calls + (missing_texts held + 1) * (options.now.retries + 1)) }
    ensures calls { (D.shown depot.new).calls
        ≤ (D.shown depot.old).calls + (missing_texts held + 1) * (options.now.retries + 1) + most_calls options.now plan.now }
{
    if let Err(fault) = put_texts(plan, depot, texts, held, options.retries) {
        return Err(fault);
    }
    match run_tasks(rt, alloc, plan, depot, memory, options, gate) {
        Ok(end) => Ok(end),
        Err(fault) => Err(fault_of(fault)),
    }
}
