//! Cells that are filled before they are shared, and taken out afterwards.
ghost use Rattle.std.specs.Prelude.{◌≡◌, ◌<◌, ◌&&◌, ◌||◌, if◌then◌else◌, IfSome, IfNone, Some, Ok, IsTrue, not, false, length, List, [], ℕ, slice_set};
ghost use Rattle.std.specs.Str.{bytes_eq};
ghost use Rattle.cu_store.specs.Held.{Gets};
ghost use Rattle.cu_store.specs.Yard.{is_made, shown_by, IsPresent, IsLater};
ghost use Rattle.cu_cells.specs.Cells.{spec_key, length_at, FitIn};
ghost use Rattle.cu_cells.specs.Late.{IsFirstLate};
ghost use Rattle.cu_cells.specs.Yard.{served_by, known_of, known_entries, script_of, waits_of, landed_of, IsHandOf, IsOwnPass};

use crate::cells::get_cell;
use crate::late::{LateCell, LatePut};
use crate::shared::{CellPass, Cells, ReadBytes};
use cu_store::Got;
use std::snapshot::Snapshot;

/// Gives an entry its content.
fn set_entry(entries: &mut Vec<ReadBytes>, at: usize, bytes: Vec<u8>)
    requires { at < length entries.old.items }
    ensures { entries.new.items ≡ slice_set entries.old.items at (Some bytes.items) }
{
    entries[at] = ReadBytes { bytes: Some(bytes) };
}

impl Cells {
    /// Gives the key at a place its first content, which is the promise's where it is a made one,
    /// and that one was then seen by the pass. After an entry that is only read no other pass is
    /// one of the cells' own.
    pub fn fill(&mut self, pass: &mut CellPass, at: usize, bytes: Vec<u8>)
        requires own { IsOwnPass self.old pass.old }
        requires at { at < length (served_by self.old).specs }
        requires promised { IsTrue (is_made (served_by self.old).specs (spec_key (served_by self.old).specs at)) → (known_of pass.old).promise (spec_key (served_by self.old).specs at) ≡ Some bytes.items }
        ensures own { IsOwnPass self.new pass.new }
        ensures specs { (served_by self.new).specs ≡ (served_by self.old).specs }
        ensures promise { (known_of pass.new).promise ≡ (known_of pass.old).promise }
        ensures seen { (key : List ℕ) → (known_of pass.new).seen key ≡ ((known_of pass.old).seen key || (is_made (served_by self.old).specs key && bytes_eq (spec_key (served_by self.old).specs at) key)) }
        ensures entries { (key : List ℕ) → known_entries pass.new key ≡ (if not (is_made (served_by self.old).specs key) && bytes_eq (spec_key (served_by self.old).specs at) key then Some bytes.items else known_entries pass.old key) }
        ensures counts { ((known_of pass.new).faults ≡ (known_of pass.old).faults) × ((known_of pass.new).calls ≡ (known_of pass.old).calls) }
        ensures script { script_of pass.new ≡ script_of pass.old }
        ensures waits { waits_of pass.new ≡ waits_of pass.old }
        ensures landed { landed_of pass.new ≡ landed_of pass.old }
    {
        if self.layout.specs()[at].made {
            self.put_at(pass, at, bytes.as_slice());
        } else {
            set_entry(&mut self.entries, at, bytes);
            pass.entries = Snapshot::of(&self.entries);
        }
    }

    /// Copies the value of the key at a place, as far as `out` has room. It is absent where it is a
    /// made one that wasn't put, or one that is only read and wasn't filled. What is there was then
    /// seen. A key of a failed put that has landed is there.
    pub fn take(&mut self, pass: &mut CellPass, at: usize, out: &mut [u8]) -> Got
        requires own { IsHandOf self.old pass.old }
        requires at { at < length (served_by self.old).specs }
        ensures own { IsHandOf self.new pass.new }
        ensures same { self.new ≡ self.old }
        ensures found { IsTrue (landed_of pass.old (spec_key (served_by self.old).specs at)) → IsPresent (Ok result) }
        ensures absent { let key = spec_key (served_by self.old).specs at in
            result ≡ Got.Absent → ((known_of pass.old).seen key ≡ false) × (landed_of pass.old key ≡ false) }
        ensures got { Gets (shown_by (known_of pass.new)).held (spec_key (served_by self.old).specs at) out.new (Ok result) }
        ensures later { IsLater (known_of pass.old) (known_of pass.new) }
        ensures others { (key : List ℕ) → bytes_eq (spec_key (served_by self.old).specs at) key ≡ false → (known_of pass.new).seen key ≡ (known_of pass.old).seen key }
        ensures counts { ((known_of pass.new).faults ≡ (known_of pass.old).faults) × ((known_of pass.new).calls ≡ (known_of pass.old).calls) }
        ensures script { script_of pass.new ≡ script_of pass.old }
        ensures waits { waits_of pass.new ≡ waits_of pass.old }
        ensures landed { landed_of pass.new ≡ landed_of pass.old }
    {
        if !self.layout.specs()[at].made {
            return self.read(pass, at, out);
        }
        if self.look_at(pass, at) {
            self.read(pass, at, out)
        } else {
            Got::Absent
        }
    }

    /// Hands the value of the made key at a place out in this room, which is as long. None where
    /// the key isn't there.
    pub fn hand_out(&mut self, pass: &mut CellPass, at: usize, mut room: Vec<u8>) -> Option<Vec<u8>>
        requires own { IsHandOf self.old pass.old }
        requires at { at < length (served_by self.old).specs }
        requires made { IsTrue (is_made (served_by self.old).specs (spec_key (served_by self.old).specs at)) }
        requires room { length room.items ≡ length_at (served_by self.old).specs at }
        ensures own { IsHandOf self.new pass.new }
        ensures same { self.new ≡ self.old }
        ensures given { IfSome result (λ v. (known_of pass.old).promise (spec_key (served_by self.old).specs at) ≡ Some v.items) }
        ensures left { IfNone result ((known_of pass.old).seen (spec_key (served_by self.old).specs at) ≡ false) }
        ensures unlanded { IfNone result (landed_of pass.old (spec_key (served_by self.old).specs at) ≡ false) }
        ensures later { IsLater (known_of pass.old) (known_of pass.new) }
        ensures counts { ((known_of pass.new).faults ≡ (known_of pass.old).faults) × ((known_of pass.new).calls ≡ (known_of pass.old).calls) }
        ensures script { script_of pass.new ≡ script_of pass.old }
        ensures waits { waits_of pass.new ≡ waits_of pass.old }
        ensures landed { landed_of pass.new ≡ landed_of pass.old }
    {
        match self.take(pass, at, room.as_mut_slice()) {
            Got::Held(_) => Some(room),
            Got::Absent => None,
        }
    }

    /// Hands the put out that has been late longest in the pass, with its bytes in this room, which
    /// is as long at least. It is late in the pass no more. None where nothing is late.
    pub fn hand_late(&self, pass: &mut CellPass, mut room: Vec<u8>) -> Option<LatePut>
        requires own { IsHandOf self.now pass.old }
        requires room { FitIn (served_by self.now).specs (length room.items) }
        ensures own { IsHandOf self.now pass.new }
        ensures late { IfSome result (λ p. IsFirstLate (served_by self.now).specs (known_of pass.old).promise (waits_of pass.old) (waits_of pass.new) p) }
        ensures none { IfNone result ((waits_of pass.old ≡ []) × (waits_of pass.new ≡ [])) }
        ensures known { known_of pass.new ≡ known_of pass.old }
        ensures script { script_of pass.new ≡ script_of pass.old }
        ensures landed { landed_of pass.new ≡ landed_of pass.old }
    {
        if pass.late.is_empty() {
            return None;
        }
        let LateCell { cell, wait } = pass.late.remove(0);
        let spec = &self.layout.specs()[cell];
        room.truncate(spec.len as usize);
        get_cell(
            &self.table.shared,
            &mut pass.seat,
            cell,
            self.starts[cell],
            room.as_mut_slice(),
        );
        Some(LatePut {
            key: spec.key,
            wait,
            bytes: room,
        })
    }
}
