//! Cells as a yard.
ghost use Rattle.std.specs.Prelude.{◌≡◌, ◌≢◌, ◌↔◌, ◌+◌, ◌<◌, ◌≤◌, ◌||◌, [], ℕ, List, min, map, true, false, IsTrue, OnOk, OnErr, Some, Ok, Err, length};
ghost use Rattle.std.specs.Str.{bytes_eq};
ghost use Rattle.cu_store.specs.Faults.{last_count};
ghost use Rattle.cu_store.specs.Held.{Gets, Holds};
ghost use Rattle.cu_store.specs.Steps.{NoChange, PutOf, Steps, Caused};
ghost use Rattle.cu_store.specs.Yard.{bytes_under, is_served, is_made, shown_by, uncounted, MayGet, MayPut, IsPresent, IsLater, IsJoined};
ghost use Rattle.cu_cells.specs.Cells.{place_in, spec_key, IsEntryCopied};
ghost use Rattle.cu_cells.specs.Late.{cells_waiting, with_late, lands_now};
ghost use Rattle.cu_cells.specs.Script.{Raises, empty_script, fails, fate, land, next};
ghost use Rattle.cu_cells.specs.Yard.{served_by, known_of, script_of, waits_of, landed_of, IsHandOf, IsOwnPass, AreOfOneTable};
ghost use Rattle.cu_cells.specs.YardLaws.{cell_laws};

use crate::cells::{get_cell, put_cell, store_cell};
use crate::late::{land_due, put_off};
use crate::script::{CallKind, Fate, Running, Script};
use crate::shared::{CellPass, Cells, ReadBytes};
use crate::steps::{join, look, split};
use arrayvec::ArrayVec;
use cu_store::{DepotFault, Got, Key, Yard};
use std::snapshot::Snapshot;

/// Copies an entry, as far as the buffer has room.
fn copy_entry(entry: &ReadBytes, buf: &mut [u8]) -> Got
    ensures { IsEntryCopied entry.now buf.old buf.new result }
{
    match &entry.bytes {
        None => Got::Absent,
        Some(bytes) => {
            let n = buf.len().min(bytes.len());
            buf[..n].copy_from_slice(&bytes[..n]);
            Got::Held(bytes.len() as u64)
        }
    }
}

impl Cells {
    /// The place of a key that is served.
    fn find(&self, key: &Key) -> usize
        requires places { self.now.places ≡ map (λ s. s.key) self.now.layout.specs }
        requires served { IsTrue (is_served self.now.layout.specs key.now) }
        ensures place { place_in self.now.layout.specs key.now ≡ Some result }
        ensures bound { result < length self.now.layout.specs }
        ensures key { spec_key self.now.layout.specs result ≡ key.now }
    {
        match self.places.find(key) {
            Some(at) => at,
            None => unreachable!(),
        }
    }

    /// What each call of a pass does first: it is counted, what is due lands, and the script says
    /// what becomes of it.
    fn begin(&self, pass: &mut CellPass, kind: CallKind, key: &Key) -> Fate
        requires { IsHandOf self.now pass.old }
        ensures own { IsHandOf self.now pass.new }
        ensures known { known_of pass.new ≡ record (known_of pass.old) { calls = min ((known_of pass.old).calls + 1) last_count } }
        ensures fate { result ≡ fate (script_of pass.old) kind key.now }
        ensures script { script_of pass.new ≡ next (script_of pass.old) kind key.now }
        ensures waits { waits_of pass.new ≡ cells_waiting (waits_of pass.old) }
        ensures landed { (key : List ℕ) → landed_of pass.new key ≡ (landed_of pass.old key || lands_now (served_by self.now).specs (waits_of pass.old) key) }
    {
        pass.calls = pass.calls.saturating_add(1);
        land_due(&self.table.shared, &mut pass.seat, &mut pass.late);
        pass.script.next(kind, key)
    }

    /// Copies the value of the key at a place, which was seen where it is a made one.
    pub(crate) fn read(&self, pass: &mut CellPass, at: usize, buf: &mut [u8]) -> Got
        requires own { IsHandOf self.now pass.old }
        requires at { at < length self.now.layout.specs }
        requires known { IsTrue (is_made self.now.layout.specs (spec_key self.now.layout.specs at)) → IsTrue ((known_of pass.old).seen (spec_key self.now.layout.specs at)) }
        ensures own { IsHandOf self.now pass.new }
        ensures known { known_of pass.new ≡ known_of pass.old }
        ensures script { script_of pass.new ≡ script_of pass.old }
        ensures waits { waits_of pass.new ≡ waits_of pass.old }
        ensures landed { landed_of pass.new ≡ landed_of pass.old }
        ensures got { Gets (shown_by (known_of pass.old)).held (spec_key self.now.layout.specs at) buf.new (Ok result) }
        ensures present { IsTrue (is_made self.now.layout.specs (spec_key self.now.layout.specs at)) → IsPresent (Ok result) }
    {
        let spec = &self.layout.specs()[at];
        if spec.made {
            let n = buf.len().min(spec.len as usize);
            get_cell(
                &self.table.shared,
                &mut pass.seat,
                at,
                self.starts[at],
                &mut buf[..n],
            );
            return Got::Held(spec.len);
        }
        copy_entry(&self.entries[at], buf)
    }

    /// Whether the made key at a place is there. Then it was seen.
    pub(crate) fn look_at(&self, pass: &mut CellPass, at: usize) -> bool
        requires own { IsHandOf self.now pass.old }
        requires at { at < length self.now.layout.specs }
        requires made { IsTrue (is_made self.now.layout.specs (spec_key self.now.layout.specs at)) }
        ensures own { IsHandOf self.now pass.new }
        ensures known { known_of pass.new ≡ record (known_of pass.old) { seen = (known_of pass.new).seen } }
        ensures there { result ≡ true → (key : List ℕ) → (known_of pass.new).seen key ≡ ((known_of pass.old).seen key || bytes_eq (spec_key self.now.layout.specs at) key) }
        ensures unset { result ≡ false → (known_of pass.new ≡ known_of pass.old) × ((known_of pass.old).seen (spec_key self.now.layout.specs at) ≡ false) }
        ensures found { IsTrue (landed_of pass.old (spec_key self.now.layout.specs at)) → result ≡ true }
        ensures script { script_of pass.new ≡ script_of pass.old }
        ensures waits { waits_of pass.new ≡ waits_of pass.old }
        ensures landed { landed_of pass.new ≡ landed_of pass.old }
    {
        look(&self.table.shared, &mut pass.seat, at)
    }

    /// Puts the promised bytes of the made key at a place, which was then seen.
    pub(crate) fn put_at(&self, pass: &mut CellPass, at: usize, bytes: &[u8])
        requires own { IsHandOf self.now pass.old }
        requires at { at < length self.now.layout.specs }
        requires made { IsTrue (is_made self.now.layout.specs (spec_key self.now.layout.specs at)) }
        requires promised { bytes_under self.now.layout.promise (spec_key self.now.layout.specs at) ≡ Some bytes.now }
        ensures own { IsHandOf self.now pass.new }
        ensures known { known_of pass.new ≡ record (known_of pass.old) { seen = (known_of pass.new).seen } }
        ensures seen { (key : List ℕ) → (known_of pass.new).seen key ≡ ((known_of pass.old).seen key || bytes_eq (spec_key self.now.layout.specs at) key) }
        ensures script { script_of pass.new ≡ script_of pass.old }
        ensures waits { waits_of pass.new ≡ waits_of pass.old }
        ensures landed { landed_of pass.new ≡ landed_of pass.old }
    {
        put_cell(
            &self.table.shared,
            &mut pass.seat,
            at,
            self.starts[at],
            bytes,
        );
    }

    /// A put of the promised bytes of the made key at a place fails, and lands after so many
    /// further calls, or never.
    fn put_late(&self, pass: &mut CellPass, at: usize, bytes: &[u8], land: Option<u32>)
        requires own { IsHandOf self.now pass.old }
        requires at { at < length self.now.layout.specs }
        requires made { IsTrue (is_made self.now.layout.specs (spec_key self.now.layout.specs at)) }
        requires promised { bytes_under self.now.layout.promise (spec_key self.now.layout.specs at) ≡ Some bytes.now }
        ensures own { IsHandOf self.now pass.new }
        ensures known { known_of pass.new ≡ record (known_of pass.old) { faults = min ((known_of pass.old).faults + 1) last_count } }
        ensures script { script_of pass.new ≡ script_of pass.old }
        ensures count { (known_of pass.old).faults ≤ (known_of pass.new).faults }
        ensures waits { waits_of pass.new ≡ with_late (waits_of pass.old) land at }
        ensures landed { landed_of pass.new ≡ landed_of pass.old }
    {
        pass.faults = pass.faults.saturating_add(1);
        if let Some(wait) = land {
            store_cell(
                &self.table.shared,
                &mut pass.seat,
                at,
                self.starts[at],
                bytes,
            );
            put_off(&mut pass.late, at, wait);
        }
    }
}

impl Yard for Cells {
    type Pass = CellPass;

    ghost serves = { served_by };

    ghost knows = { known_of };

    ghost owns = { IsOwnPass };

    ghost together = { AreOfOneTable };

    ghost laws = { cell_laws };

    /// Copies as many bytes of the key's value as `buf` has room for, and says how long the value
    /// is. It fails exactly where the script of the pass says so, and takes no memory.
    fn get(&self, pass: &mut CellPass, key: &Key, buf: &mut [u8]) -> Result<Got, DepotFault>
        requires own { IsOwnPass self.now pass.old }
        requires may { MayGet (served_by self.now).specs (known_of pass.old).seen key.now }
        ensures own { IsOwnPass self.now pass.new }
        ensures got { Gets (shown_by (known_of pass.new)).held key.now buf.new result }
        ensures present { IsTrue (is_made (served_by self.now).specs key.now) → IsPresent result }
        ensures step { Steps NoChange 1 1 (shown_by (known_of pass.old)) (shown_by (known_of pass.new)) }
        ensures later { IsLater (known_of pass.old) (known_of pass.new) }
        ensures cause { Caused 1 (shown_by (known_of pass.old)) (shown_by (known_of pass.new)) result }

        ensures failed { (result ≡ Err DepotFault.Failed) ↔ IsTrue (fails (script_of pass.old) CallKind.Get key.now) }
        ensures memory { result ≢ Err DepotFault.NoMemory }
        ensures raised { Raises result (known_of pass.old).faults (known_of pass.new).faults }
        ensures script { script_of pass.new ≡ next (script_of pass.old) CallKind.Get key.now }
        ensures waits { waits_of pass.new ≡ cells_waiting (waits_of pass.old) }
        ensures landed { (key : List ℕ) → landed_of pass.new key ≡ (landed_of pass.old key || lands_now (served_by self.now).specs (waits_of pass.old) key) }
    {
        if let Fate::Fails(_) = self.begin(pass, CallKind::Get, key) {
            pass.faults = pass.faults.saturating_add(1);
            return Err(DepotFault::Failed);
        }
        let at = self.find(key);
        Ok(self.read(pass, at, buf))
    }

    /// Stores the promised bytes under a made key, which the pass has then seen. It fails exactly
    /// where the script of the pass says so, and takes no memory: a put that is to land later
    /// stores its words at once, and sets the flag when it lands.
    fn put(&self, pass: &mut CellPass, key: &Key, bytes: &[u8]) -> Result<(), DepotFault>
        requires own { IsOwnPass self.now pass.old }
        requires may { MayPut (served_by self.now) key.now bytes.now }
        ensures own { IsOwnPass self.now pass.new }
        ensures stored { OnOk result (Holds (shown_by (known_of pass.new)).held key.now bytes.now) }
        ensures seen { OnOk result (IsTrue ((known_of pass.new).seen key.now)) }
        ensures step { Steps (PutOf key.now bytes.now) 1 1 (shown_by (known_of pass.old)) (shown_by (known_of pass.new)) }
        ensures later { IsLater (known_of pass.old) (known_of pass.new) }
        ensures cause { Caused 1 (shown_by (known_of pass.old)) (shown_by (known_of pass.new)) result }

        ensures failed { (result ≡ Err DepotFault.Failed) ↔ IsTrue (fails (script_of pass.old) CallKind.Put key.now) }
        ensures memory { result ≢ Err DepotFault.NoMemory }
        ensures raised { Raises result (known_of pass.old).faults (known_of pass.new).faults }
        ensures script { script_of pass.new ≡ next (script_of pass.old) CallKind.Put key.now }
        ensures waits { OnOk result (waits_of pass.new ≡ cells_waiting (waits_of pass.old)) }
        ensures late { OnErr result ((at : ℕ) → place_in (served_by self.now).specs key.now ≡ Some at → waits_of pass.new ≡ with_late (cells_waiting (waits_of pass.old)) (land (script_of pass.old) CallKind.Put key.now) at) }
        ensures landed { (key : List ℕ) → landed_of pass.new key ≡ (landed_of pass.old key || lands_now (served_by self.now).specs (waits_of pass.old) key) }
    {
        let fate = self.begin(pass, CallKind::Put, key);
        let at = self.find(key);
        match fate {
            Fate::Works => {
                self.put_at(pass, at, bytes);
                Ok(())
            }
            Fate::Fails(land) => {
                self.put_late(pass, at, bytes, land);
                Err(DepotFault::Failed)
            }
        }
    }

    /// A second pass that knows the same, with a count of 0 and a script by which no call fails.
    /// Nothing is late in it.
    fn split(&self, pass: &mut CellPass) -> CellPass
        requires { IsOwnPass self.now pass.old }
        ensures own { IsOwnPass self.now pass.new × IsOwnPass self.now result }
        ensures first { known_of pass.new ≡ known_of pass.old }
        ensures second { known_of result ≡ uncounted (known_of pass.old) }

        ensures kept { (script_of pass.new ≡ script_of pass.old) × (waits_of pass.new ≡ waits_of pass.old) }
        ensures begun { (script_of result ≡ empty_script) × (waits_of result ≡ []) }
        ensures landed { (landed_of pass.new ≡ landed_of pass.old) × (landed_of result ≡ landed_of pass.old) }
    {
        CellPass {
            seat: split(&self.table.shared, &mut pass.seat),
            entries: Snapshot::of(&self.entries),
            script: Running::start(Script::none()),
            late: ArrayVec::new(),
            faults: 0,
            calls: 0,
        }
    }

    /// A second pass that knows the same and has the count, so that the first has a count of 0. The
    /// first keeps its script and what is late in it; the second has a script by which no call
    /// fails.
    fn hand(&self, pass: &mut CellPass) -> CellPass
        requires { IsOwnPass self.now pass.old }
        ensures own { IsOwnPass self.now pass.new × IsOwnPass self.now result }
        ensures first { known_of pass.new ≡ uncounted (known_of pass.old) }
        ensures second { known_of result ≡ known_of pass.old }

        ensures kept { (script_of pass.new ≡ script_of pass.old) × (waits_of pass.new ≡ waits_of pass.old) }
        ensures begun { (script_of result ≡ empty_script) × (waits_of result ≡ []) }
        ensures landed { (landed_of pass.new ≡ landed_of pass.old) × (landed_of result ≡ landed_of pass.old) }
    {
        let mut handed = self.split(pass);
        handed.faults = pass.faults;
        handed.calls = pass.calls;
        pass.faults = 0;
        pass.calls = 0;
        handed
    }

    /// Takes in what another pass has seen, and its count. The script of that one ends, and what is
    /// late in it never lands, since there are no further calls of it.
    fn join(&self, pass: &mut CellPass, other: CellPass)
        requires { IsOwnPass self.now pass.old × IsOwnPass self.now other }
        ensures own { IsOwnPass self.now pass.new }
        ensures joined { IsJoined (known_of pass.old) (known_of other) (known_of pass.new) }

        ensures kept { (script_of pass.new ≡ script_of pass.old) × (waits_of pass.new ≡ waits_of pass.old) }
        ensures landed { (key : List ℕ) → landed_of pass.new key ≡ (landed_of pass.old key || landed_of other key) }
    {
        let CellPass {
            seat,
            entries: _,
            script: _,
            late: _,
            faults,
            calls,
        } = other;
        join(&self.table.shared, &mut pass.seat, seat);
        pass.faults = pass.faults.saturating_add(faults);
        pass.calls = pass.calls.saturating_add(calls);
    }
}
