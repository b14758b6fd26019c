//! A depot in memory.
ghost use Rattle.std.specs.Prelude.{◌≡◌, ◌≢◌, ◌≤◌, ◌↔◌, ◌++◌, ◌∷◌, [], ℕ, List, Some, None, IsTrue, IsErr, OnOk, OnErr, length, take};
ghost use Rattle.std.specs.Option.{option_copied};
ghost use Rattle.cu_store.specs.Held.{Gets, Answers, Holds, IsGone};
ghost use Rattle.cu_store.specs.Steps.{NoChange, PutOf, RemovalOf, Steps, LandsLate, AddsOnlyFailed, Caused};

use crate::entries::{Slot, StoredKey, bytes_of, store, take_away};
use crate::late::{Waiting, land_due};
use cu_cells::{CallKind, CellLayout, Fate, Running, Script};
use cu_store::{Depot, DepotFault, Got, Key, NoMemory};
use std::alloc::Global;
use std::marker::Model;
use std::snapshot::Snapshot;

/// A depot that keeps all that it holds in memory. It tells what it holds, and its calls fail where
/// its script says so.
#[derive(Drop)]
pub struct MemDepot {
    pub(crate) alloc: Global,
    pub(crate) slots: Vec<Slot>,
    pub(crate) late: Vec<Waiting>,
    pub(crate) script: Running,
    pub(crate) faults: u64,
    pub(crate) calls: u64,
    pub(crate) loan: Option<Snapshot<CellLayout>>,
    pub(crate) rooms: Vec<Vec<u8>>,
}

impl Model for MemDepot {
    ghost use Rattle.std.specs.Prelude.{◌+◌, ◌≤◌, List, ℕ, IsTrue, All, length, option_map, vec_len};
    ghost use Rattle.std.specs.Vec.{vec_capacity};
    ghost use Rattle.cu_store.specs.Yard.{is_made};
    ghost use Rattle.cu_cells.specs.Cells.{FitIn};
    ghost use Rattle.cu_mem.specs.Entries.{has_place};
    ghost use Rattle.cu_mem.specs.Memory.{Memory, loan_of};
    ghost use Rattle.cu_mem.specs.Script.{progress};

    ghost Value = { Memory };

    ghost view = { λ d. record { slots = d.slots.items; late = d.late.items; script = progress d.script; faults = d.faults; calls = d.calls; loan = loan_of (option_map (λ s. s.value) d.loan); spare = vec_len d.rooms } };

    // There is room to land each late put, and a place for each made key of the last yard. Each
    // room has room for a value of that yard, and what is put off in it has a place among the late
    // puts.
    ghost invariant = { λ d. (vec_len d.slots + (vec_len d.late + vec_len d.rooms) ≤ vec_capacity d.slots) × (vec_len d.late + vec_len d.rooms ≤ vec_capacity d.late) × (vec_len d.rooms ≤ 8) × All (λ v. FitIn (loan_of (option_map (λ s. s.value) d.loan)).specs (length v.items)) d.rooms.items × ((key : List ℕ) → IsTrue (is_made (loan_of (option_map (λ s. s.value) d.loan)).specs key) → IsTrue (has_place d.slots.items key)) };
}

impl MemDepot {
    ghost use Rattle.cu_mem.specs.Memory.{contents, shown_of, loan_of, Begins};
    ghost use Rattle.cu_mem.specs.Script.{LandsOnce, started, fate};
    ghost use Rattle.cu_store.specs.Faults.{last_count};
    ghost use Rattle.std.specs.Prelude.{◌+◌, min};

    /// An empty depot, whose calls fail where the script says so. A rule with a `land` has `times`
    /// 1.
    pub fn make(alloc: Global, script: Script) -> MemDepot
        requires { LandsOnce script.rules.items }
        ensures empty { (key : List ℕ) → contents result key ≡ None }
        ensures late { result.late ≡ [] }
        ensures loan { (result.loan ≡ loan_of None) × (result.spare ≡ 0) }
        ensures script { result.script ≡ started script }
        ensures faults { result.faults ≡ 0 }
        ensures calls { result.calls ≡ 0 }
    {
        MemDepot {
            alloc,
            slots: Vec::new(alloc),
            late: Vec::new(alloc),
            script: Running::start(script),
            faults: 0,
            calls: 0,
            loan: None,
            rooms: Vec::new(alloc),
        }
    }

    /// Stores these bytes under the key, in place of what was there. It isn't counted as a call,
    /// and no script lets it fail.
    pub fn insert(&mut self, key: &Key, bytes: &[u8]) -> Result<(), NoMemory>
        ensures stored { OnOk result (contents self.new key.now ≡ Some bytes.now) }
        ensures others { (other : List ℕ) → other ≢ key.now → contents self.new other ≡ contents self.old other }
        ensures refused { OnErr result (self.new ≡ self.old) }
        ensures late { self.new.late ≡ self.old.late }
        ensures script { self.new.script ≡ self.old.script }
        ensures faults { self.new.faults ≡ self.old.faults }
        ensures calls { self.new.calls ≡ self.old.calls }
        ensures loan { (self.new.loan ≡ self.old.loan) × (self.new.spare ≡ self.old.spare) }
    {
        let entry = StoredKey::copy(self.alloc, key, bytes)?;
        match self.slots.reserve(self.late.len() + self.rooms.len() + 1) {
            Ok(()) => {}
            Err(_) => return Err(NoMemory),
        }
        store(&mut self.slots, entry);
        Ok(())
    }

    /// The bytes under a key, or `None` where it isn't held. It isn't counted as a call.
    pub fn lookup(&self, key: &Key) -> Option<&[u8]>
        ensures { option_copied result ≡ contents self.now key.now }
    {
        bytes_of(&self.slots, key)
    }

    /// How many calls of `Depot` were made. The count stops at the last value of a `u64`.
    pub fn calls(&self) -> u64
        ensures { result ≡ self.now.calls }
    {
        self.calls
    }

    /// Whether no put is late. It isn't counted as a call.
    pub fn none_late(&self) -> bool
        ensures { IsTrue result ↔ (self.now.late ≡ []) }
    {
        self.late.is_empty()
    }

    /// From now on this script says which calls fail. Its counts begin at 0, and what is late stays
    /// late. A rule with a `land` has `times` 1.
    pub fn set_script(&mut self, script: Script)
        requires { LandsOnce script.rules.items }
        ensures { self.new ≡ record self.old { script = started script } }
    {
        self.script = Running::start(script);
    }

    /// What each call does first: it is counted, due late puts land, and the script says what
    /// becomes of it.
    fn begin(&mut self, kind: CallKind, key: &Key) -> Fate
        ensures fate { result ≡ fate self.old.script kind key.now }
        ensures begun { Begins kind key.now self.old self.new }
        ensures step { Steps NoChange 1 1 (shown_of self.old) (shown_of self.new) }
        ensures loan { (self.new.loan ≡ self.old.loan) × (self.new.spare ≡ self.old.spare) }
    {
        self.calls = self.calls.saturating_add(1);
        land_due(&mut self.slots, &mut self.late);
        self.script.next(kind, key)
    }

    /// A fault, which is counted.
    fn fault(&mut self) -> DepotFault
        ensures fault { result ≡ DepotFault.Failed }
        ensures raised { self.new ≡ record self.old { faults = min (self.old.faults + 1) last_count } }
        ensures count { self.old.faults ≤ self.new.faults }
    {
        self.faults = self.faults.saturating_add(1);
        DepotFault::Failed
    }

    /// Keeps a put that fails, so that it lands after so many further calls.
    fn put_off(&mut self, key: &Key, bytes: &[u8], wait: u32) -> Result<(), NoMemory>
        ensures kept { OnOk result (self.new ≡ record self.old { late = self.old.late ++ record { entry = (key.now, bytes.now); wait = wait } ∷ [] }) }
        ensures refused { OnErr result (self.new ≡ self.old) }
    {
        let entry = StoredKey::copy(self.alloc, key, bytes)?;
        match self.slots.reserve(self.late.len() + self.rooms.len() + 1) {
            Ok(()) => {}
            Err(_) => return Err(NoMemory),
        }
        match self.late.reserve(self.rooms.len() + 1) {
            Ok(()) => {}
            Err(_) => return Err(NoMemory),
        }
        match self.late.push(Waiting { entry, wait }) {
            Ok(()) => Ok(()),
            Err(_) => Err(NoMemory),
        }
    }
}

/// Copies as many bytes as there is room for, and says how many there are.
fn copy_front(bytes: &[u8], buf: &mut [u8]) -> u64
    ensures all { result ≡ length bytes.now }
    ensures copied { take (length bytes.now) buf.new ≡ take (length buf.new) bytes.now }
{
    let n = bytes.len().min(buf.len());
    buf[..n].copy_from_slice(&bytes[..n]);
    bytes.len() as u64
}

impl Depot for MemDepot {
    ghost use Rattle.cu_mem.specs.Memory.{contents, shown_of, OnlyLands, LandsAndSets, put_late};
    ghost use Rattle.cu_mem.specs.Late.{waiting, late_writes};
    ghost use Rattle.cu_mem.specs.Script.{fails, land, next, Raises};

    ghost shown = { shown_of };

    /// Copies as many bytes of the key's value as `buf` has room for, and says how long the value
    /// is. It fails exactly where the script says so, and takes no memory.
    fn get(&mut self, key: &Key, buf: &mut [u8]) -> Result<Got, DepotFault>
        ensures got { Gets (Some (contents self.new)) key.now buf.new result }
        ensures step { Steps NoChange 1 1 (shown_of self.old) (shown_of self.new) }
        ensures cause { Caused 1 (shown_of self.old) (shown_of self.new) result }

        ensures failed { (result ≡ Err DepotFault.Failed) ↔ IsTrue (fails self.old.script CallKind.Get key.now) }
        ensures memory { result ≢ Err DepotFault.NoMemory }
        ensures raised { Raises result self.old.faults self.new.faults }
        ensures lands { OnlyLands self.old self.new }
        ensures waits { self.new.late ≡ waiting self.old.late }
        ensures script { self.new.script ≡ next self.old.script CallKind.Get key.now }
        ensures loan { (self.new.loan ≡ self.old.loan) × (self.new.spare ≡ self.old.spare) }
    {
        if let Fate::Fails(_) = self.begin(CallKind::Get, key) {
            return Err(self.fault());
        }
        match bytes_of(&self.slots, key) {
            None => Ok(Got::Absent),
            Some(bytes) => Ok(Got::Held(copy_front(bytes, buf))),
        }
    }

    /// Whether the key is held. It fails exactly where the script says so, and takes no memory.
    fn has(&mut self, key: &Key) -> Result<bool, DepotFault>
        ensures answer { Answers (Some (contents self.new)) key.now result }
        ensures step { Steps NoChange 1 1 (shown_of self.old) (shown_of self.new) }
        ensures cause { Caused 1 (shown_of self.old) (shown_of self.new) result }

        ensures failed { (result ≡ Err DepotFault.Failed) ↔ IsTrue (fails self.old.script CallKind.Has key.now) }
        ensures memory { result ≢ Err DepotFault.NoMemory }
        ensures raised { Raises result self.old.faults self.new.faults }
        ensures lands { OnlyLands self.old self.new }
        ensures waits { self.new.late ≡ waiting self.old.late }
        ensures script { self.new.script ≡ next self.old.script CallKind.Has key.now }
        ensures loan { (self.new.loan ≡ self.old.loan) × (self.new.spare ≡ self.old.spare) }
    {
        if let Fate::Fails(_) = self.begin(CallKind::Has, key) {
            return Err(self.fault());
        }
        Ok(bytes_of(&self.slots, key).is_some())
    }

    /// Stores these bytes under the key, in place of what was there. Failed comes only where the
    /// script says so; there a put that is to land later may want memory for its bytes, and nothing
    /// is late or counted as a fault where it has none.
    fn put(&mut self, key: &Key, bytes: &[u8]) -> Result<(), DepotFault>
        ensures stored { OnOk result (Holds (Some (contents self.new)) key.now bytes.now) }
        ensures step { Steps (PutOf key.now bytes.now) 1 1 (shown_of self.old) (shown_of self.new) }
        ensures refused { OnErr result (LandsLate (shown_of self.old) (shown_of self.new)) }
        ensures late_unless_failed { AddsOnlyFailed result (late_writes self.old.late) (late_writes self.new.late) }
        ensures cause { Caused 1 (shown_of self.old) (shown_of self.new) result }

        ensures failed { result ≡ Err DepotFault.Failed → IsTrue (fails self.old.script CallKind.Put key.now) }
        ensures fails { IsTrue (fails self.old.script CallKind.Put key.now) → IsErr result }
        ensures fails_for_good { IsTrue (fails self.old.script CallKind.Put key.now) → land self.old.script CallKind.Put key.now ≡ None → result ≡ Err DepotFault.Failed }
        ensures raised { Raises result self.old.faults self.new.faults }
        ensures lands { OnOk result (LandsAndSets key.now (Some bytes.now) self.old self.new) }
        ensures lands_err { OnErr result (OnlyLands self.old self.new) }
        ensures waits { self.new.late ≡ waiting self.old.late ++ put_late result (land self.old.script CallKind.Put key.now) key.now bytes.now }
        ensures script { self.new.script ≡ next self.old.script CallKind.Put key.now }
        ensures loan { (self.new.loan ≡ self.old.loan) × (self.new.spare ≡ self.old.spare) }
    {
        match self.begin(CallKind::Put, key) {
            Fate::Works => match self.insert(key, bytes) {
                Ok(()) => Ok(()),
                Err(NoMemory) => Err(DepotFault::NoMemory),
            },
            Fate::Fails(None) => Err(self.fault()),
            Fate::Fails(Some(wait)) => match self.put_off(key, bytes, wait) {
                Ok(()) => Err(self.fault()),
                Err(NoMemory) => Err(DepotFault::NoMemory),
            },
        }
    }

    /// Makes the key absent. It fails exactly where the script says so, and takes no memory.
    fn remove(&mut self, key: &Key) -> Result<(), DepotFault>
        ensures gone { OnOk result (IsGone (Some (contents self.new)) key.now) }
        ensures step { Steps (RemovalOf key.now) 1 1 (shown_of self.old) (shown_of self.new) }
        ensures refused { OnErr result (LandsLate (shown_of self.old) (shown_of self.new)) }
        ensures cause { Caused 1 (shown_of self.old) (shown_of self.new) result }

        ensures failed { (result ≡ Err DepotFault.Failed) ↔ IsTrue (fails self.old.script CallKind.Remove key.now) }
        ensures memory { result ≢ Err DepotFault.NoMemory }
        ensures raised { Raises result self.old.faults self.new.faults }
        ensures lands { OnOk result (LandsAndSets key.now None self.old self.new) }
        ensures lands_err { OnErr result (OnlyLands self.old self.new) }
        ensures waits { self.new.late ≡ waiting self.old.late }
        ensures script { self.new.script ≡ next self.old.script CallKind.Remove key.now }
        ensures loan { (self.new.loan ≡ self.old.loan) × (self.new.spare ≡ self.old.spare) }
    {
        if let Fate::Fails(_) = self.begin(CallKind::Remove, key) {
            return Err(self.fault());
        }
        take_away(&mut self.slots, key);
        Ok(())
    }
}
