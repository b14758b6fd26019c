//! What is asked for before the first task of a part is started: which of its tasks lack a chunk, and
//! whether these have what they read.
ghost use Rattle.std.specs.Prelude.{◌≡◌, ◌≢◌, ◌+◌, ◌||◌, ℕ, IsTrue, false, None, List, length, Contains, IfOk, IfErr, OnOk, bytes_eq};
ghost use Rattle.std.specs.HashSet.{contains_text};
ghost use Rattle.cu_store.specs.Faults.{last_count};
ghost use Rattle.cu_store.specs.Held.{IsHeldIn};
ghost use Rattle.cu_store.specs.Steps.{NoChange, Shown, Steps};
ghost use Rattle.cu_op.specs.Arrays.{maker_at};
ghost use Rattle.cu_op.specs.Cells.{IsChunk};
ghost use Rattle.cu_op.specs.Schedule.{op_of, key_of};
ghost use Rattle.cu_op.specs.Walks.{written_chunks};
ghost use Rattle.cu_op.specs.Within.{fetched_chunks};
ghost use Rattle.cu_work.specs.Asked.{AreChosen, HasAsked, IsAsking, IsLookUpFault, IsUnstarted, AskedOn, KeptOn, IsAbsent, IsChoice, IsChoiceFault, look_up_fault, own_chunks, asking_of};
ghost use Rattle.cu_work.specs.Ended.{count_of_part};
ghost use Rattle.cu_work.specs.Part.{IsInPart, IsPartOf, IsMadeInput, HasInputs, LacksChunk, LacksInput};

use crate::find::{FindFault, find_task};
use crate::part::{Part, PartFault};
use crate::way::key_of;
use cu_op::{Cell, Plan, inputs};
use cu_store::{DepotFault, Key, PutStore, has_tries};
use std::alloc::{AllocError, Global};
use std::collections::HashSet;

/// Adds a key to those that were asked for.
fn add_key(alloc: Global, known: &mut HashSet<String>, key: &Key) -> Result<(), AllocError>
    ensures { OnOk result ((other : List ℕ) → contains_text known.new other
        ≡ (contains_text known.old other || bytes_eq key.now other)) }
{
    let text = String::from_str(alloc, key.text())?;
    match known.insert(text) {
        Ok(_) => Ok(()),
        Err(_) => Err(AllocError),
    }
}

/// Whether the chunk with this key, which the task reads and an operation makes, is held. It is asked
/// for unless it is known to be held.
fn ask_input<D: PutStore>(
    alloc: Global,
    plan: &Plan,
    depot: &mut D,
    part: &Part,
    task: u32,
    key: &Key,
    known: &mut HashSet<String>,
    retries: u32,
) -> Result<bool, FindFault>
    requires within { IsInPart part.now task }
    requires made { IsMadeInput plan.now part.now.op task key.now }
    ensures asked { (start : Shown) (own : ℕ) → LacksChunk plan.now part.now.op task start
        → IsAsking (asking_of plan.now part.now (retries + 1) start) own (contains_text known.old) (D.shown depot.old)
        → AskedOn (asking_of plan.now part.now (retries + 1) start) own (contains_text known.new) (D.shown depot.new) result
        × IfOk result (λ held. IsTrue held → IsHeldIn (D.shown depot.new).held key.now) }
    ensures absent { IfOk result (λ held. held ≡ false → IsAbsent key.now (D.shown depot.old)) }
    ensures step { Steps NoChange 0 last_count (D.shown depot.old) (D.shown depot.new) }
    ensures fault { IfErr result (IsLookUpFault (retries + 1) (D.shown depot.old, D.shown depot.new) (λ k. k ≡ key.now)) }
{
    if known.contains(key.text()) {
        return Ok(true);
    }
    match add_key(alloc, known, key) {
        Ok(()) => {}
        Err(_) => return Err(FindFault::NoMemory),
    }
    match has_tries(depot, key, retries) {
        Ok(held) => Ok(held),
        Err(DepotFault::Failed) => Err(FindFault::Failed(*key)),
        Err(DepotFault::NoMemory) => Err(FindFault::NoMemory),
    }
}

/// Whether a chunk that the task reads is held, or is one of an input of the plan.
fn ask_cell<D: PutStore>(
    alloc: Global,
    plan: &Plan,
    depot: &mut D,
    part: &Part,
    task: u32,
    cell: &Cell,
    known: &mut HashSet<String>,
    retries: u32,
) -> Result<bool, FindFault>
    requires within { IsInPart part.now task }
    requires chunk { IsChunk plan.now.arrays cell.now }
    requires read { Contains (fetched_chunks plan.now part.now.op task) cell.now }
    ensures asked { (start : Shown) (own : ℕ) → LacksChunk plan.now part.now.op task start
        → IsAsking (asking_of plan.now part.now (retries + 1) start) own (contains_text known.old) (D.shown depot.old)
        → AskedOn (asking_of plan.now part.now (retries + 1) start) own (contains_text known.new) (D.shown depot.new) result
        × IfOk result (λ held. IsTrue held → maker_at plan.now.arrays cell.now.array ≢ None
        → IsHeldIn (D.shown depot.new).held (key_of plan.now.arrays cell.now)) }
    ensures lacking { IfOk result (λ held. held ≡ false → LacksInput plan.now part.now.op task (D.shown depot.old)) }
    ensures step { Steps NoChange 0 last_count (D.shown depot.old) (D.shown depot.new) }
    ensures fault { IfErr result (IsLookUpFault (retries + 1) (D.shown depot.old, D.shown depot.new) (IsMadeInput plan.now part.now.op task)) }
{
    if plan.array(cell.array).maker.is_none() {
        return Ok(true);
    }
    ask_input(
        alloc,
        plan,
        depot,
        part,
        task,
        &key_of(plan, cell),
        known,
        retries,
    )
}

/// Whether each chunk that the task reads and an operation makes is held. Those that aren't known to be
/// are asked for, up to the first that is absent.
fn ask_inputs<D: PutStore>(
    alloc: Global,
    plan: &Plan,
    depot: &mut D,
    part: &Part,
    task: u32,
    known: &mut HashSet<String>,
    retries: u32,
) -> Result<bool, FindFault>
    requires part { IsPartOf plan.now part.now }
    requires within { IsInPart part.now task }
    ensures asked { (start : Shown) (own : ℕ) → LacksChunk plan.now part.now.op task start
        → IsAsking (asking_of plan.now part.now (retries + 1) start) own (contains_text known.old) (D.shown depot.old)
        → AskedOn (asking_of plan.now part.now (retries + 1) start) own (contains_text known.new) (D.shown depot.new) result
        × IfOk result (λ all. IsTrue all → HasInputs plan.now part.now.op task (D.shown depot.new).held) }
    ensures lacking { IfOk result (λ all. all ≡ false → LacksInput plan.now part.now.op task (D.shown depot.old)) }
    ensures step { Steps NoChange 0 last_count (D.shown depot.old) (D.shown depot.new) }
    ensures fault { IfErr result (IsLookUpFault (retries + 1) (D.shown depot.old, D.shown depot.new) (IsMadeInput plan.now part.now.op task)) }
{
    for cell in inputs(plan, part.op, task) {
        match ask_cell(alloc, plan, depot, part, task, &cell, known, retries) {
            Ok(true) => {}
            Ok(false) => return Ok(false),
            Err(fault) => return Err(fault),
        }
    }
    Ok(true)
}

/// Whether the task is to be started: not all chunks that it writes are held, and all that it reads and
/// an operation makes are.
fn choose_task<D: PutStore>(
    alloc: Global,
    plan: &Plan,
    depot: &mut D,
    part: &Part,
    task: u32,
    known: &mut HashSet<String>,
    retries: u32,
) -> Result<bool, PartFault>
    requires part { IsPartOf plan.now part.now }
    requires within { IsInPart part.now task }
    ensures asked { (start : Shown) (own : ℕ)
        → IsAsking (asking_of plan.now part.now (retries + 1) start) own (contains_text known.old) (D.shown depot.old)
        → KeptOn (asking_of plan.now part.now (retries + 1) start)
        (own + length (written_chunks plan.now.arrays (op_of plan.now part.now.op) task))
        (contains_text known.new) (D.shown depot.new) result
        × IfOk result (IsChoice plan.now part.now.op task start (D.shown depot.new))
        × IfErr result (IsChoiceFault (asking_of plan.now part.now (retries + 1) start) task (D.shown depot.new)) }
    ensures step { Steps NoChange 0 last_count (D.shown depot.old) (D.shown depot.new) }
{
    match find_task(plan, depot, part.op, task, retries) {
        Ok(true) => return Ok(false),
        Ok(false) => {}
        Err(fault) => return Err(fault_of(fault)),
    }
    match ask_inputs(alloc, plan, depot, part, task, known, retries) {
        Ok(true) => Ok(true),
        Ok(false) => Err(PartFault::NotReady { task }),
        Err(fault) => Err(fault_of(fault)),
    }
}

/// Why no task was started, where asking ended so.
fn fault_of(fault: FindFault) -> PartFault
    ensures { result ≡ look_up_fault fault }
{
    match fault {
        FindFault::Failed(key) => PartFault::Failed(key),
        FindFault::NoMemory => PartFault::NoMemory,
    }
}

/// For each task of the part whether it is to be started: it lacks a chunk, and what it reads is there.
pub(crate) fn choose_tasks<D: PutStore>(
    alloc: Global,
    plan: &Plan,
    depot: &mut D,
    part: &Part,
    retries: u32,
) -> Result<Vec<bool>, PartFault>
    requires part { IsPartOf plan.now part.now }
    ensures whole { IfOk result (λ chosen. length chosen.items ≡ count_of_part part.now) }
    ensures chosen { IfOk result (λ chosen. AreChosen plan.now part.now (D.shown depot.old, D.shown depot.new) chosen.items) }
    ensures asked { HasAsked (asking_of plan.now part.now (retries + 1) (D.shown depot.old)) (own_chunks plan.now part.now (count_of_part part.now)) (D.shown depot.new) }
    ensures each { IfOk result (λ chosen. Steps NoChange (own_chunks plan.now part.now (count_of_part part.now)) last_count (D.shown depot.old) (D.shown depot.new)) }
    ensures fault { IfErr result (IsUnstarted (asking_of plan.now part.now (retries + 1) (D.shown depot.old)) (D.shown depot.new)) }
{
    let mut known = HashSet::new(alloc);
    let Ok(mut chosen) = Vec::with_capacity(alloc, (part.to - part.from) as usize) else {
        return Err(PartFault::NoMemory);
    };
    for task in part.from..part.to {
        match choose_task(alloc, plan, depot, part, task, &mut known, retries) {
            Ok(starts) => chosen.push_reserved(starts),
            Err(fault) => return Err(fault),
        }
    }
    Ok(chosen)
}
