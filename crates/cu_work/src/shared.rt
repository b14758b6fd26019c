//! Runs the tasks of a plan in a yard that a depot shares for them.
ghost use Rattle.std.specs.Prelude.{◌≡◌, ℕ, ◌+◌, ◌*◌, ◌<◌, ◌≤◌, IsTrue, Some, IfOk, IfErr, OnErr};
ghost use Rattle.cu_store.specs.Faults.{last_count};
ghost use Rattle.cu_store.specs.Held.{Contents};
ghost use Rattle.cu_store.specs.Share.{IsShareFault};
ghost use Rattle.cu_store.specs.Steps.{NoChange, Steps, OnceEach};
ghost use Rattle.cu_history.specs.History.{is_start, count_kind};
ghost use Rattle.cu_op.specs.Elements.{Elements};
ghost use Rattle.cu_run_law.specs.Left.{IsLeft, RunChange};
ghost use Rattle.cu_run_law.specs.Pieces.{chunks_alone, KeysApart, InputsApart};
ghost use Rattle.cu_work.specs.Drive.{IsBadChunk, IsInputKey, IsTaskMost};
ghost use Rattle.cu_work.specs.Shared.{promised_writes, IsOpen, IsMemoryFor, HasDriven, HoldsDone, AreCounted, IfBadChunk, IfComplete, IfLacked};
ghost use Rattle.cu_work.specs.Starts.{IsOfWorkers, WithinHistory, most_calls};
ghost use Rattle.cu_work.specs.World.{IsFound};

use crate::memory::RunMemory;
use crate::options::RunOptions;
use crate::outcome::RunEnd;
use crate::together::work;
use cu_op::Plan;
use cu_store::{DepotFault, Gate, Promise, Promised, SharedStore, share_tries};
use cu_table::count_law;
use std::alloc::Global;
use std::marker::Brand;
use std::sync::Wait;
use std::thread::Threads;

/// The same, where K's map is what is promised.
fn run_promised<K: Promised, H: Threads + Wait + Sync, D: SharedStore, G: Gate>(
    rt: &H,
    alloc: Global,
    plan: &Plan,
    depot: &mut D,
    memory: RunMemory,
    options: &RunOptions,
    gate: &G,
) -> Result<RunEnd, DepotFault>
    requires names { K.map ≡ promised_writes plan.now (D.shown depot.old).held }
    requires apart { KeysApart (chunks_alone plan.now) }
    requires inputs { InputsApart (chunks_alone plan.now) }
    requires open { IsOpen (chunks_alone plan.now) (D.shown depot.old) }
    requires workers { 0 < options.now.workers }
    requires memory { IsMemoryFor plan.now options.now memory.table.done memory }
    requires found { (held : Contents) → (D.shown depot.old).held ≡ Some held → IsFound plan.now held memory.table.done }
    ensures lack { D.yards_lack depot.new ≡ D.yards_lack depot.old }
    ensures step { Steps (RunChange (chunks_alone plan.now) (D.shown depot.old)) 0 last_count (D.shown depot.old) (D.shown depot.new) }
    ensures driven { IfOk result (λ end. HasDriven memory.table end.table (D.shown depot.old) (D.shown depot.new) end.outcome) }
    ensures done { (env : Elements) → IsLeft (chunks_alone plan.now) env (D.shown depot.old)
        → IfOk result (λ end. HoldsDone (chunks_alone plan.now) env end.table.state (D.shown depot.new)) }
    ensures bad { IfOk result (λ end. IfBadChunk end.outcome (IsBadChunk plan.now (D.shown depot.new))) }
    ensures input { (env : Elements) → IsLeft (chunks_alone plan.now) env (D.shown depot.old)
        → IfOk result (λ end. IfBadChunk end.outcome (λ key got want. IsInputKey plan.now key)) }
    ensures lacked { IfOk result (λ end. IfLacked end.outcome (IsTrue (D.yards_lack depot.new))) }
    ensures workers { IfOk result (λ end. IsOfWorkers options.now.workers memory.table.settings end.table.history) }
    ensures tries { (m : ℕ) → IsTaskMost plan.now m → IfOk result (λ end. (D.shown depot.new).calls
        ≤ (D.shown depot.old).calls + (options.now.retries + 1) + count_kind is_start end.table.history * m) }
    ensures once { IfOk result (λ end. WithinHistory 1 plan.now end.table.history
        (D.shown depot.old) (D.shown depot.new)) }
    ensures begun_once { OnErr result (OnceEach 1 (D.shown depot.old) (D.shown depot.new)) }
    ensures calls { (D.shown depot.new).calls
        ≤ (D.shown depot.old).calls + (options.now.retries + 1) + most_calls options.now plan.now }
    ensures refused { OnErr result (Steps NoChange 0 (options.now.retries + 1) (D.shown depot.old) (D.shown depot.new)) }
    ensures cause { IfErr result (IsShareFault (options.now.retries + 1) (D.shown depot.old) (D.shown depot.new)) }
{
    let _sound = plan.ops();
    // that there are fewer than 2^32 rooms is told by the type of this number
    let _wanted = options.workers;
    let RunMemory {
        rooms,
        table,
        specs,
    } = memory;
    let promise = Promise::make::<K>();
    match share_tries(depot, alloc, &specs, &promise, options.retries) {
        Ok((yard, mut pass)) => {
            let end = work(rt, alloc, plan, &yard, &mut pass, rooms, table, gate);
            depot.unshare(yard, pass);
            Ok(end)
        }
        Err(fault) => Err(fault),
    }
}

/// Shares the keys of the plan and of its inputs, runs the tasks in the yard, and gives the keys back. Sharing is tried at most
/// `retries + 1` times, and each task as often. One worker alone runs one task after another, starts no thread and waits for nobody.
/// Several run them in threads, as a board gives them; where there is no memory for the board, one runs them all.
///
/// The tasks that the table calls done aren't run. Where the contents are told, all their chunks are held.
///
/// Where the contents are told and were left so at first, each chunk of the plan is absent or holds its value at any end; each chunk of
/// a task that is done in the table holds it. The outcome is that of the history's deciding event.
///
/// `Failed`: all calls to share failed. `NoMemory`: the depot lacked memory. No task was run then. The `Lacked` of an outcome comes only
/// where the depot's yards lack memory.
pub fn run_tasks<H: Threads + Wait + Sync, D: SharedStore, G: Gate>(
    rt: &H,
    alloc: Global,
    plan: &Plan,
    depot: &mut D,
    memory: RunMemory,
    options: &RunOptions,
    gate: &G,
) -> Result<RunEnd, DepotFault>
    requires apart { KeysApart (chunks_alone plan.now) }
    requires inputs { InputsApart (chunks_alone plan.now) }
    requires open { IsOpen (chunks_alone plan.now) (D.shown depot.old) }
    requires workers { 0 < options.now.workers }
    requires memory { IsMemoryFor plan.now options.now memory.table.done memory }
    requires found { (held : Contents) → (D.shown depot.old).held ≡ Some held → IsFound plan.now held memory.table.done }
    ensures lack { D.yards_lack depot.new ≡ D.yards_lack depot.old }
    ensures step { Steps (RunChange (chunks_alone plan.now) (D.shown depot.old)) 0 last_count (D.shown depot.old) (D.shown depot.new) }
    ensures driven { IfOk result (λ end. HasDriven memory.table end.table (D.shown depot.old) (D.shown depot.new) end.outcome) }
    ensures counts { IfOk result (λ end. IfComplete end.outcome (AreCounted memory.table end.table)) }
    ensures done { (env : Elements) → IsLeft (chunks_alone plan.now) env (D.shown depot.old)
        → IfOk result (λ end. HoldsDone (chunks_alone plan.now) env end.table.state (D.shown depot.new)) }
    ensures bad { IfOk result (λ end. IfBadChunk end.outcome (IsBadChunk plan.now (D.shown depot.new))) }
    ensures input { (env : Elements) → IsLeft (chunks_alone plan.now) env (D.shown depot.old)
        → IfOk result (λ end. IfBadChunk end.outcome (λ key got want. IsInputKey plan.now key)) }
    ensures lacked { IfOk result (λ end. IfLacked end.outcome (IsTrue (D.yards_lack depot.new))) }
    ensures workers { IfOk result (λ end. IsOfWorkers options.now.workers memory.table.settings end.table.history) }
    ensures tries { (m : ℕ) → IsTaskMost plan.now m → IfOk result (λ end. (D.shown depot.new).calls
        ≤ (D.shown depot.old).calls + (options.now.retries + 1) + count_kind is_start end.table.history * m) }
    ensures once { IfOk result (λ end. WithinHistory 1 plan.now end.table.history
        (D.shown depot.old) (D.shown depot.new)) }
    ensures begun_once { OnErr result (OnceEach 1 (D.shown depot.old) (D.shown depot.new)) }
    ensures calls { (D.shown depot.new).calls
        ≤ (D.shown depot.old).calls + (options.now.retries + 1) + most_calls options.now plan.now }
    ensures refused { OnErr result (Steps NoChange 0 (options.now.retries + 1) (D.shown depot.old) (D.shown depot.new)) }
    ensures cause { IfErr result (IsShareFault (options.now.retries + 1) (D.shown depot.old) (D.shown depot.new)) }
{
    count_law();
    run_promised::<Brand, H, D, G>(rt, alloc, plan, depot, memory, options, gate)
}
