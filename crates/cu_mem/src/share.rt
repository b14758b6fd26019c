//! A depot in memory whose keys are shared for a while.
ghost use Rattle.std.specs.Prelude.{◌≡◌, ◌+◌, ◌-◌, ◌++◌, ◌<◌, ◌≤◌, ◌⊎◌, ◌&&◌, ◌||◌, not, min, if◌then◌else◌, List, ℕ, IsTrue, All, false, [], Some, IfOk, OnOk, OnErr, length, map, vec_len};
ghost use Rattle.std.specs.Option.{is_some};
ghost use Rattle.std.specs.Str.{bytes_eq};
ghost use Rattle.std.specs.Vec.{vec_capacity};
ghost use Rattle.cu_store.specs.Faults.{last_count};
ghost use Rattle.cu_store.specs.Yard.{bytes_under, is_made, IsLater};
ghost use Rattle.cu_store.specs.Share.{KeysDiffer, IsPromiseOf, PutPromised};
ghost use Rattle.cu_cells.specs.Cells.{spec_key, FitIn};
ghost use Rattle.cu_cells.specs.Yard.{served_by, known_of, known_entries, script_of, waits_of, landed_of, room_size, IsHandOf, IsOwnPass};
ghost use Rattle.cu_mem.specs.Entries.{held_in, has_place};
ghost use Rattle.cu_mem.specs.Memory.{contents, lent_by};
ghost use Rattle.cu_mem.specs.Sharing.{lent_in, there_by, late_puts, room_at, IsFilled, GivesBack, HoldsFrom, PromisedIn};

use crate::depot::MemDepot;
use crate::entries::{Slot, StoredKey, bytes_of, fill_place, keep_place};
use crate::late::Waiting;
use cu_cells::{CellPass, Cells, LatePut, Running, Script};
use cu_store::{DepotFault, NoMemory, Promise, Share, Spec};
use std::alloc::Global;
use std::mem;
use std::snapshot::Snapshot;

/// How many puts are late in a pass at once, at most.
const LATE_MOST: usize = 8;

/// Gives each made key a place, and keeps room for so many more.
fn keep_places(slots: &mut Vec<Slot>, specs: &[Spec], more: usize) -> Result<(), NoMemory>
    requires { vec_len slots.old + more ≤ vec_capacity slots.old }
    ensures held { (key : List ℕ) → held_in slots.new.items key ≡ held_in slots.old.items key }
    ensures places { (key : List ℕ) → IsTrue (has_place slots.old.items key) → IsTrue (has_place slots.new.items key) }
    ensures kept { OnOk result ((key : List ℕ) → IsTrue (is_made specs.now key) → IsTrue (has_place slots.new.items key)) }
    ensures room { vec_len slots.new + more ≤ vec_capacity slots.new }
{
    for at in 0..specs.len() {
        keep_one(slots, &specs[at], more)?;
    }
    Ok(())
}

/// Gives a made key a place.
fn keep_one(slots: &mut Vec<Slot>, spec: &Spec, more: usize) -> Result<(), NoMemory>
    requires { vec_len slots.old + more ≤ vec_capacity slots.old }
    ensures held { (key : List ℕ) → held_in slots.new.items key ≡ held_in slots.old.items key }
    ensures places { (key : List ℕ) → IsTrue (has_place slots.old.items key) → IsTrue (has_place slots.new.items key) }
    ensures kept { OnOk result (IsTrue spec.now.made → IsTrue (has_place slots.new.items spec.now.key)) }
    ensures room { vec_len slots.new + more ≤ vec_capacity slots.new }
{
    if spec.made {
        keep_place(slots, &spec.key, more)
    } else {
        Ok(())
    }
}

/// Gives each made key a place, and keeps room for the late puts of the depot, and for so many or,
/// in the end, all of a pass.
fn keep_room(
    slots: &mut Vec<Slot>,
    late: &mut Vec<Waiting>,
    specs: &[Spec],
    spare: usize,
) -> Result<(), NoMemory>
    requires few { spare ≤ 8 }
    requires room { vec_len slots.old + (vec_len late.old + spare) ≤ vec_capacity slots.old }
    ensures held { (key : List ℕ) → held_in slots.new.items key ≡ held_in slots.old.items key }
    ensures places { (key : List ℕ) → IsTrue (has_place slots.old.items key) → IsTrue (has_place slots.new.items key) }
    ensures kept { OnOk result ((key : List ℕ) → IsTrue (is_made specs.now key) → IsTrue (has_place slots.new.items key)) }
    ensures late { (late.new.items ≡ late.old.items) × (vec_len late.new ≡ vec_len late.old) × (vec_capacity late.old ≤ vec_capacity late.new) }
    ensures room { vec_len slots.new + (vec_len late.new + spare) ≤ vec_capacity slots.new }
    ensures more { OnOk result ((vec_len slots.new + (vec_len late.new + 8) ≤ vec_capacity slots.new) × (vec_len late.new + 8 ≤ vec_capacity late.new)) }
{
    let more = late.len() + LATE_MOST;
    match slots.reserve(more) {
        Ok(()) => {}
        Err(_) => return Err(NoMemory),
    }
    match late.reserve(LATE_MOST) {
        Ok(()) => {}
        Err(_) => return Err(NoMemory),
    }
    keep_places(slots, specs, more)
}

/// Fills the key at a place with what it holds.
fn fill_one(
    alloc: Global,
    slots: &[Slot],
    spec: &Spec,
    at: usize,
    yard: &mut Cells,
    pass: &mut CellPass,
) -> Result<(), NoMemory>
    requires own { IsOwnPass yard.old pass.old }
    requires at { at < length (served_by yard.old).specs }
    requires key { spec_key (served_by yard.old).specs at ≡ spec.now.key }
    requires promised { PromisedIn (served_by yard.old).specs (known_of pass.old).promise (held_in slots.now) }
    ensures own { OnOk result (IsOwnPass yard.new pass.new) }
    ensures specs { (served_by yard.new).specs ≡ (served_by yard.old).specs }
    ensures promise { (known_of pass.new).promise ≡ (known_of pass.old).promise }
    ensures seen { OnOk result ((key : List ℕ) → (known_of pass.new).seen key ≡ ((known_of pass.old).seen key || (is_made (served_by yard.old).specs key && (is_some (held_in slots.now key) && bytes_eq spec.now.key key)))) }
    ensures entries { OnOk result ((key : List ℕ) → known_entries pass.new key ≡ (if not (is_made (served_by yard.old).specs key) && (is_some (held_in slots.now key) && bytes_eq spec.now.key key) then held_in slots.now key else known_entries pass.old key)) }
    ensures counts { ((known_of pass.new).faults ≡ (known_of pass.old).faults) × ((known_of pass.new).calls ≡ (known_of pass.old).calls) }
    ensures kept { (waits_of pass.new ≡ waits_of pass.old) × (landed_of pass.new ≡ landed_of pass.old) }
{
    match bytes_of(slots, &spec.key) {
        None => Ok(()),
        Some(bytes) => fill_bytes(alloc, bytes, at, yard, pass),
    }
}

/// Fills the key at a place with a copy of these bytes.
fn fill_bytes(
    alloc: Global,
    bytes: &[u8],
    at: usize,
    yard: &mut Cells,
    pass: &mut CellPass,
) -> Result<(), NoMemory>
    requires own { IsOwnPass yard.old pass.old }
    requires at { at < length (served_by yard.old).specs }
    requires promised { IsTrue (is_made (served_by yard.old).specs (spec_key (served_by yard.old).specs at)) → (known_of pass.old).promise (spec_key (served_by yard.old).specs at) ≡ Some bytes.now }
    ensures own { OnOk result (IsOwnPass yard.new pass.new) }
    ensures specs { (served_by yard.new).specs ≡ (served_by yard.old).specs }
    ensures promise { (known_of pass.new).promise ≡ (known_of pass.old).promise }
    ensures seen { OnOk result ((key : List ℕ) → (known_of pass.new).seen key ≡ ((known_of pass.old).seen key || (is_made (served_by yard.old).specs key && bytes_eq (spec_key (served_by yard.old).specs at) key))) }
    ensures entries { OnOk result ((key : List ℕ) → known_entries pass.new key ≡ (if not (is_made (served_by yard.old).specs key) && bytes_eq (spec_key (served_by yard.old).specs at) key then Some bytes.now else known_entries pass.old key)) }
    ensures counts { ((known_of pass.new).faults ≡ (known_of pass.old).faults) × ((known_of pass.new).calls ≡ (known_of pass.old).calls) }
    ensures kept { (waits_of pass.new ≡ waits_of pass.old) × (landed_of pass.new ≡ landed_of pass.old) }
{
    match Vec::from_slice(alloc, bytes) {
        Err(_) => Err(NoMemory),
        Ok(copy) => {
            yard.fill(pass, at, copy);
            Ok(())
        }
    }
}

/// Fills each key with what it holds.
fn fill_all(
    alloc: Global,
    slots: &[Slot],
    specs: &[Spec],
    yard: &mut Cells,
    pass: &mut CellPass,
) -> Result<(), NoMemory>
    requires own { IsOwnPass yard.old pass.old }
    requires specs { (served_by yard.old).specs ≡ specs.now }
    requires promised { PromisedIn specs.now (known_of pass.old).promise (held_in slots.now) }
    requires none { IsFilled specs.now 0 (held_in slots.now) (known_of pass.old).seen (known_entries pass.old) }
    ensures own { OnOk result (IsOwnPass yard.new pass.new) }
    ensures specs { (served_by yard.new).specs ≡ specs.now }
    ensures promise { (known_of pass.new).promise ≡ (known_of pass.old).promise }
    ensures filled { OnOk result (IsFilled specs.now (length specs.now) (held_in slots.now) (known_of pass.new).seen (known_entries pass.new)) }
    ensures counts { ((known_of pass.new).faults ≡ (known_of pass.old).faults) × ((known_of pass.new).calls ≡ (known_of pass.old).calls) }
    ensures kept { (waits_of pass.new ≡ waits_of pass.old) × (landed_of pass.new ≡ landed_of pass.old) }
{
    for at in 0..specs.len() {
        fill_one(alloc, slots, &specs[at], at, yard, pass)?;
    }
    Ok(())
}

/// A yard over these keys, with what they hold, and its first pass.
fn open(
    alloc: Global,
    slots: &[Slot],
    specs: &[Spec],
    promise: &Promise,
) -> Result<(Cells, CellPass), NoMemory>
    requires apart { KeysDiffer specs.now }
    requires promise { IsPromiseOf specs.now (bytes_under promise.now.map) }
    requires held { PromisedIn specs.now (bytes_under promise.now.map) (held_in slots.now) }
    ensures own { IfOk result (λ r. IsOwnPass r.0 r.1) }
    ensures specs { IfOk result (λ r. (served_by r.0).specs ≡ specs.now) }
    ensures promise { IfOk result (λ r. (known_of r.1).promise ≡ bytes_under promise.now.map) }
    ensures filled { IfOk result (λ r. IsFilled specs.now (length specs.now) (held_in slots.now) (known_of r.1).seen (known_entries r.1)) }
    ensures counts { IfOk result (λ r. ((known_of r.1).faults ≡ 0) × ((known_of r.1).calls ≡ 0)) }
    ensures fresh { IfOk result (λ r. (waits_of r.1 ≡ []) × ((key : List ℕ) → landed_of r.1 key ≡ false)) }
{
    let (mut yard, mut pass) = Cells::make(alloc, specs, promise)?;
    fill_all(alloc, slots, specs, &mut yard, &mut pass)?;
    Ok((yard, pass))
}

/// Takes the key at a place back, where it is a made one and there.
fn give_one(slots: &mut Vec<Slot>, yard: &mut Cells, pass: &mut CellPass, at: usize, room: Vec<u8>)
    requires own { IsHandOf yard.old pass.old }
    requires at { at < length (served_by yard.old).specs }
    requires places { (key : List ℕ) → IsTrue (is_made (served_by yard.old).specs key) → IsTrue (has_place slots.old.items key) }
    requires room { length room.items ≡ room_at (served_by yard.old).specs at }
    ensures own { IsHandOf yard.new pass.new }
    ensures same { yard.new ≡ yard.old }
    ensures later { IsLater (known_of pass.old) (known_of pass.new) }
    ensures back { GivesBack (lent_in yard.old pass.old) (held_in slots.old.items) (held_in slots.new.items) }
    ensures held { IsTrue (is_made (served_by yard.old).specs (spec_key (served_by yard.old).specs at)) → IsTrue (there_by pass.old (spec_key (served_by yard.old).specs at)) → held_in slots.new.items (spec_key (served_by yard.old).specs at) ≡ (known_of pass.old).promise (spec_key (served_by yard.old).specs at) }
    ensures counts { ((known_of pass.new).faults ≡ (known_of pass.old).faults) × ((known_of pass.new).calls ≡ (known_of pass.old).calls) }
    ensures kept { (waits_of pass.new ≡ waits_of pass.old) × (landed_of pass.new ≡ landed_of pass.old) }
    ensures script { script_of pass.new ≡ script_of pass.old }
    ensures places { (key : List ℕ) → has_place slots.new.items key ≡ has_place slots.old.items key }
    ensures len { vec_len slots.new ≡ vec_len slots.old }
    ensures capacity { vec_capacity slots.new ≡ vec_capacity slots.old }
{
    let spec = yard.layout().specs()[at];
    if !spec.made {
        return;
    }
    if let Some(bytes) = yard.hand_out(pass, at, room) {
        fill_place(slots, &spec.key, bytes);
    }
}

/// Takes the made keys back that are there.
fn give_back(slots: &mut Vec<Slot>, yard: &mut Cells, pass: &mut CellPass, mut rooms: Vec<Vec<u8>>)
    requires own { IsHandOf yard.old pass.old }
    requires places { (key : List ℕ) → IsTrue (is_made (served_by yard.old).specs key) → IsTrue (has_place slots.old.items key) }
    requires rooms { map (λ v. length v.items) rooms.items ≡ map room_size (served_by yard.old).specs }
    ensures back { GivesBack (lent_in yard.old pass.old) (held_in slots.old.items) (held_in slots.new.items) }
    ensures own { IsHandOf yard.new pass.new }
    ensures same { yard.new ≡ yard.old }
    ensures promise { (known_of pass.new).promise ≡ (known_of pass.old).promise }
    ensures held { HoldsFrom 0 (lent_in yard.old pass.old) (there_by pass.old) (held_in slots.new.items) }
    ensures counts { ((known_of pass.new).faults ≡ (known_of pass.old).faults) × ((known_of pass.new).calls ≡ (known_of pass.old).calls) }
    ensures kept { (waits_of pass.new ≡ waits_of pass.old) × (landed_of pass.new ≡ landed_of pass.old) }
    ensures script { script_of pass.new ≡ script_of pass.old }
    ensures places { (key : List ℕ) → has_place slots.new.items key ≡ has_place slots.old.items key }
    ensures len { vec_len slots.new ≡ vec_len slots.old }
    ensures capacity { vec_capacity slots.new ≡ vec_capacity slots.old }
{
    while let Some(room) = rooms.pop() {
        give_one(slots, yard, pass, rooms.len(), room);
    }
}

/// Takes over the put that has been late longest in a pass, where one is, with its bytes in this
/// room.
fn take_over_one(late: &mut Vec<Waiting>, yard: &Cells, pass: &mut CellPass, room: Vec<u8>)
    requires own { IsHandOf yard.now pass.old }
    requires room { FitIn (served_by yard.now).specs (length room.items) }
    requires place { vec_len late.old < vec_capacity late.old }
    ensures own { IsHandOf yard.now pass.new }
    ensures late { late.new.items ++ late_puts (served_by yard.now).specs (known_of pass.old).promise (waits_of pass.new) ≡ late.old.items ++ late_puts (served_by yard.now).specs (known_of pass.old).promise (waits_of pass.old) }
    ensures fewer { length (waits_of pass.new) ≤ length (waits_of pass.old) - 1 }
    ensures known { known_of pass.new ≡ known_of pass.old }
    ensures script { script_of pass.new ≡ script_of pass.old }
    ensures len { vec_len late.new ≤ vec_len late.old + 1 }
    ensures capacity { vec_capacity late.old ≤ vec_capacity late.new }
{
    if let Some(put) = yard.hand_late(pass, room) {
        let LatePut { key, wait, bytes } = put;
        let entry = StoredKey::of(key, bytes);
        match late.push(Waiting { entry, wait }) {
            Ok(()) => {}
            Err(_) => unreachable!(),
        }
    }
}

/// Takes over the puts that are late in a pass, each in a room of its own.
fn take_over(late: &mut Vec<Waiting>, yard: &Cells, pass: &mut CellPass, mut rooms: Vec<Vec<u8>>)
    requires own { IsHandOf yard.now pass.old }
    requires rooms { All (λ v. FitIn (served_by yard.now).specs (length v.items)) rooms.items }
    requires few { length (waits_of pass.old) ≤ vec_len rooms }
    requires place { vec_len late.old + vec_len rooms ≤ vec_capacity late.old }
    ensures late { late.new.items ≡ late.old.items ++ late_puts (served_by yard.now).specs (known_of pass.old).promise (waits_of pass.old) }
    ensures known { known_of pass.new ≡ known_of pass.old }
    ensures script { script_of pass.new ≡ script_of pass.old }
    ensures len { vec_len late.new ≤ vec_len late.old + vec_len rooms }
    ensures capacity { vec_capacity late.old ≤ vec_capacity late.new }
{
    while let Some(room) = rooms.pop() {
        take_over_one(late, yard, pass, room);
    }
}

/// Takes over the puts that are late in a pass, where there is a room for each.
fn take_late(late: &mut Vec<Waiting>, yard: &Cells, pass: &mut CellPass, rooms: Vec<Vec<u8>>)
    requires own { IsHandOf yard.now pass.old }
    requires rooms { All (λ v. FitIn (served_by yard.now).specs (length v.items)) rooms.items }
    requires place { vec_len late.old + vec_len rooms ≤ vec_capacity late.old }
    ensures all { vec_len rooms ≡ 8 → late.new.items ≡ late.old.items ++ late_puts (served_by yard.now).specs (known_of pass.old).promise (waits_of pass.old) }
    ensures either { (late.new.items ≡ late.old.items ++ late_puts (served_by yard.now).specs (known_of pass.old).promise (waits_of pass.old)) ⊎ (late.new.items ≡ late.old.items) }
    ensures known { known_of pass.new ≡ known_of pass.old }
    ensures script { script_of pass.new ≡ script_of pass.old }
    ensures len { vec_len late.new ≤ vec_len late.old + vec_len rooms }
    ensures capacity { vec_capacity late.old ≤ vec_capacity late.new }
{
    if pass.late_count() <= rooms.len() {
        take_over(late, yard, pass, rooms);
    }
}

/// How many bytes the longest value of a made key has.
fn longest(specs: &[Spec]) -> u64
    ensures { FitIn specs.now result }
{
    let mut most = 0;
    for at in 0..specs.len() {
        most = longer(most, &specs[at]);
    }
    most
}

/// The greater of a length and that of the key's value, where it is a made one.
fn longer(most: u64, spec: &Spec) -> u64
    ensures grows { most ≤ result }
    ensures fits { IsTrue spec.now.made → spec.now.len ≤ result }
{
    if spec.made { most.max(spec.len) } else { most }
}

/// Rooms for the late puts of a pass, each for the longest value.
fn rooms_for_late(alloc: Global, specs: &[Spec]) -> Result<Vec<Vec<u8>>, NoMemory>
    ensures fit { IfOk result (λ v. All (λ r. FitIn specs.now (length r.items)) v.items) }
    ensures count { IfOk result (λ v. vec_len v ≡ 8) }
{
    let size = longest(specs) as usize;
    let mut rooms = Vec::new(alloc);
    for at in 0..LATE_MOST {
        let _at = at;
        let Ok(room) = vec![in alloc; 0u8; size] else {
            return Err(NoMemory);
        };
        if rooms.push(room).is_err() {
            return Err(NoMemory);
        }
    }
    Ok(rooms)
}

/// The sum of two counts, which stops at the last value of a `u64`.
fn added(count: u64, more: u64) -> u64
    ensures sum { result ≡ min (count + more) last_count }
    ensures grows { count ≤ result }
{
    count.saturating_add(more)
}

impl Share for MemDepot {
    type Yard = Cells;

    ghost use Rattle.std.specs.Prelude.{false, IfErr};
    ghost use Rattle.cu_store.specs.Steps.{NoChange, Steps};
    ghost use Rattle.cu_store.specs.Share.{IsShared, IsShareFault, MayShare, MayGiveBack, HoldsSeen, AddsCounts};
    ghost use Rattle.cu_store.specs.Yard.{bytes_under};
    ghost use Rattle.cu_cells.specs.Script.{empty_script};
    ghost use Rattle.cu_mem.specs.Memory.{contents, lent_by, shown_of};

    ghost lent = { lent_by };

    ghost yards_lack = { λ _. false };

    /// Shares these keys, and hands the script with its counts to the first pass; the depot's own
    /// calls don't fail meanwhile. It isn't counted as a call, and no script lets it fail. What is
    /// late in the depot waits for its next call. All the memory that `unshare` needs is taken
    /// here.
    fn share(
        &mut self,
        alloc: Global,
        specs: &[Spec],
        promise: &Promise,
    ) -> Result<(Cells, CellPass), DepotFault>
        requires apart { KeysDiffer specs.now }
        requires may { MayShare (record { specs = specs.now; promise = bytes_under promise.now.map }) (shown_of self.old) }
        ensures own { IfOk result (λ r. IsOwnPass r.0 r.1) }
        ensures shared { IfOk result (λ r. IsShared (record { specs = specs.now; promise = bytes_under promise.now.map }) false (shown_of self.new) (served_by r.0) (known_of r.1)) }
        ensures lent { IfOk result (λ r. lent_by self.new ≡ record { specs = specs.now; promise = bytes_under promise.now.map }) }
        ensures refused { OnErr result (lent_by self.new ≡ lent_by self.old) }
        ensures step { Steps NoChange 0 1 (shown_of self.old) (shown_of self.new) }
        ensures cause { IfErr result (IsShareFault 1 (shown_of self.old) (shown_of self.new)) }

        ensures memory { IfErr result (λ e. e ≡ DepotFault.NoMemory) }
        ensures handed { IfOk result (λ r. script_of r.1 ≡ self.old.script) }
        ensures fresh { IfOk result (λ r. (waits_of r.1 ≡ []) × ((key : List ℕ) → landed_of r.1 key ≡ false)) }
        ensures script { OnOk result (self.new.script ≡ empty_script) }
        ensures kept { OnErr result (self.new.script ≡ self.old.script) }
        ensures held { (key : List ℕ) → contents self.new key ≡ contents self.old key }
        ensures late { self.new.late ≡ self.old.late }
        ensures counts { (self.new.faults ≡ self.old.faults) × (self.new.calls ≡ self.old.calls) }
        ensures spare { OnOk result (self.new.spare ≡ 8) }
    {
        let Ok(rooms) = rooms_for_late(alloc, specs) else {
            return Err(DepotFault::NoMemory);
        };
        match keep_room(&mut self.slots, &mut self.late, specs, self.rooms.len()) {
            Ok(()) => {}
            Err(NoMemory) => return Err(DepotFault::NoMemory),
        }
        let Ok((yard, mut pass)) = open(alloc, &self.slots, specs, promise) else {
            return Err(DepotFault::NoMemory);
        };
        self.loan = Some(Snapshot::of(yard.layout()));
        self.rooms = rooms;
        let script = mem::replace(&mut self.script, Running::start(Script::none()));
        pass.run_script(script);
        Ok((yard, pass))
    }

    /// Takes the chunks back, and the script of the pass with its counts. Each key of a failed put
    /// that has landed is held with the promised bytes. What is late in the pass is late in the
    /// depot from now on. It isn't counted as a call, takes no memory, and no script lets it fail.
    fn unshare(&mut self, mut yard: Cells, mut pass: CellPass)
        requires own { IsOwnPass yard pass }
        requires may { MayGiveBack (lent_by self.old) (shown_of self.old) (served_by yard) (known_of pass) }
        ensures held { HoldsSeen (lent_by self.old) (known_of pass).seen (shown_of self.new).held }
        ensures step { Steps (PutPromised (lent_by self.old)) 0 (known_of pass).calls (shown_of self.old) (shown_of self.new) }
        ensures counts { AddsCounts (known_of pass) (shown_of self.old) (shown_of self.new) }
        ensures lent { lent_by self.new ≡ lent_by self.old }

        ensures script { self.new.script ≡ script_of pass }
        ensures landed { (key : List ℕ) → IsTrue (landed_of pass key) → contents self.new key ≡ (known_of pass).promise key }
        ensures late { self.old.spare ≡ 8 → self.new.late ≡ self.old.late ++ late_puts (lent_by self.old).specs (lent_by self.old).promise (waits_of pass) }
        ensures spare { self.new.spare ≡ 0 }
    {
        let rooms = yard.take_rooms(self.alloc);
        give_back(&mut self.slots, &mut yard, &mut pass, rooms);
        let spare = mem::replace(&mut self.rooms, Vec::new(self.alloc));
        take_late(&mut self.late, &yard, &mut pass, spare);
        self.faults = added(self.faults, pass.faults());
        self.calls = added(self.calls, pass.calls());
        self.script = pass.into_script();
    }
}
