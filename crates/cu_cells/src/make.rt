//! Cells that are made.
ghost use Rattle.std.specs.Prelude.{◌≡◌, ◌+◌, ◌<◌, ◌^◌, ℕ, List, [], None, false, length, map, replicate, IfOk};
ghost use Rattle.cu_store.specs.Held.{Write};
ghost use Rattle.cu_store.specs.Yard.{bytes_under};
ghost use Rattle.cu_store.specs.Share.{KeysDiffer, IsPromiseOf};
ghost use Rattle.cu_cells.specs.Layout.{words_in, data_words};
ghost use Rattle.cu_cells.specs.Script.{empty_script};
ghost use Rattle.cu_cells.specs.Starts.{starts_from};
ghost use Rattle.cu_cells.specs.Yard.{served_by, known_of, known_entries, script_of, waits_of, landed_of, room_size, IsOwnPass};

use crate::layout::CellLayout;
use crate::places::places_of;
use crate::script::{Running, Script};
use crate::shared::{CellPass, Cells, ReadBytes};
use arrayvec::ArrayVec;
use atomic_table::Table;
use cu_store::{NoMemory, Promise, Spec};
use std::alloc::Global;
use std::snapshot::Snapshot;

/// The most words that cells have.
const MOST: usize = 1 << 60;

/// How many words a key takes.
fn word_count(spec: &Spec) -> usize
    ensures { (promise : List Write) → result ≡ length (words_in promise spec.now) }
{
    if spec.made {
        (spec.len as usize).div_ceil(8)
    } else {
        0
    }
}

/// Where the words of each key start, and how many words there are, flags among them.
fn starts_of(alloc: Global, specs: &[Spec]) -> Result<(Vec<usize>, usize), NoMemory>
    ensures starts { (promise : List Write) → IfOk result (λ r. r.0.items ≡ starts_from promise (length specs.now) specs.now) }
    ensures total { (promise : List Write) → IfOk result (λ r. r.1 ≡ length specs.now + length (data_words promise specs.now)) }
    ensures small { IfOk result (λ r. r.1 < 2 ^ 60) }
{
    let mut starts = Vec::new(alloc);
    let mut next = specs.len();
    for at in 0..specs.len() {
        if starts.push(next).is_err() {
            return Err(NoMemory);
        }
        next = match next.checked_add(word_count(&specs[at])) {
            Some(sum) => sum,
            None => return Err(NoMemory),
        };
    }
    if next >= MOST {
        return Err(NoMemory);
    }
    Ok((starts, next))
}

/// As many entries of which none is filled.
fn no_entries(alloc: Global, count: usize) -> Result<Vec<ReadBytes>, NoMemory>
    ensures { IfOk result (λ v. v.items ≡ replicate count None) }
{
    let mut entries = Vec::new(alloc);
    for at in 0..count {
        let _at = at;
        if entries.push(ReadBytes { bytes: None }).is_err() {
            return Err(NoMemory);
        }
    }
    Ok(entries)
}

/// A room for the value of each made key.
fn rooms_of(alloc: Global, specs: &[Spec]) -> Result<Vec<Vec<u8>>, NoMemory>
    ensures { IfOk result (λ v. map (λ r. length r.items) v.items ≡ map room_size specs.now) }
{
    let mut rooms = Vec::new(alloc);
    for at in 0..specs.len() {
        let size = if specs[at].made {
            specs[at].len as usize
        } else {
            0
        };
        let Ok(room) = vec![in alloc; 0u8; size] else {
            return Err(NoMemory);
        };
        if rooms.push(room).is_err() {
            return Err(NoMemory);
        }
    }
    Ok(rooms)
}

/// A copy of the keys.
fn copied(alloc: Global, specs: &[Spec]) -> Result<Vec<Spec>, NoMemory>
    ensures { IfOk result (λ copy. copy.items ≡ specs.now) }
{
    let mut copy = Vec::new(alloc);
    match copy.extend_from_slice(specs) {
        Ok(()) => Ok(copy),
        Err(_) => Err(NoMemory),
    }
}

impl Cells {
    /// Cells of which none is filled, and their first pass. Keys differ, and a made key that the
    /// promise names has bytes of its length there.
    pub fn make(
        alloc: Global,
        specs: &[Spec],
        promise: &Promise,
    ) -> Result<(Cells, CellPass), NoMemory>
        requires apart { KeysDiffer specs.now }
        requires promise { IsPromiseOf specs.now (bytes_under promise.now.map) }
        ensures own { IfOk result (λ r. IsOwnPass r.0 r.1) }
        ensures specs { IfOk result (λ r. (served_by r.0).specs ≡ specs.now) }
        ensures promise { IfOk result (λ r. (known_of r.1).promise ≡ bytes_under promise.now.map) }
        ensures unseen { IfOk result (λ r. (key : List ℕ) → (known_of r.1).seen key ≡ false) }
        ensures unfilled { IfOk result (λ r. (key : List ℕ) → known_entries r.1 key ≡ None) }
        ensures script { IfOk result (λ r. script_of r.1 ≡ empty_script) }
        ensures waits { IfOk result (λ r. waits_of r.1 ≡ []) }
        ensures landed { IfOk result (λ r. (key : List ℕ) → landed_of r.1 key ≡ false) }
        ensures counts { IfOk result (λ r. ((known_of r.1).faults ≡ 0) × ((known_of r.1).calls ≡ 0)) }
    {
        let (starts, total) = starts_of(alloc, specs)?;
        let places = places_of(alloc, specs)?;
        let entries = no_entries(alloc, specs.len())?;
        let rooms = rooms_of(alloc, specs)?;
        let Ok(words) = vec![in alloc; 0u64; total + 1] else {
            return Err(NoMemory);
        };
        let layout = CellLayout {
            specs: copied(alloc, specs)?,
            promise: Snapshot::of(promise),
        };
        let Ok((table, seat)) = Table::of_words(alloc, &words, &layout) else {
            return Err(NoMemory);
        };
        let pass = CellPass {
            seat,
            entries: Snapshot::of(&entries),
            script: Running::start(Script::none()),
            late: ArrayVec::new(),
            faults: 0,
            calls: 0,
        };
        let cells = Cells {
            layout,
            places,
            starts,
            entries,
            rooms,
            table,
        };
        Ok((cells, pass))
    }
}
