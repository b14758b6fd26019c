//! Cells, and the passes by which they are reached.
ghost use Rattle.std.specs.Prelude.{◌≡◌, ◌≤◌, Some, map, length};
ghost use Rattle.cu_store.specs.Yard.{bytes_under};
ghost use Rattle.cu_cells.specs.Script.{LandsOnce, progress, started};
ghost use Rattle.cu_cells.specs.Yard.{served_by, known_of, script_of, waits_of, landed_of, room_size, IsHandOf, IsOwnPass};

use crate::late::LateCells;
use crate::layout::CellLayout;
use crate::places::Places;
use crate::rule::{CellsRule, View};
use crate::script::{Running, Script};
use atomic_table::{Seat, Table};
use std::alloc::Global;
use std::marker::Model;
use std::mem;
use std::snapshot::Snapshot;

/// The bytes of a key that is only read, or None where nothing is held.
#[derive(Drop)]
pub struct ReadBytes {
    pub(crate) bytes: Option<Vec<u8>>,
}

impl Model for ReadBytes {
    ghost use Rattle.std.specs.Prelude.{List, ℕ, Option, option_map};

    ghost Value = { Option (List ℕ) };

    ghost view = { λ e. option_map (λ v. v.items) e.bytes };
}

/// Chunks in shared memory. A made key has a flag, and words for its bytes: whoever finds the flag
/// set finds the words. It has a room of as many bytes too, in which its value is handed out at the
/// end without taking memory.
#[derive(Drop)]
pub struct Cells {
    pub(crate) layout: CellLayout,
    pub(crate) places: Places,
    pub(crate) starts: Vec<usize>,
    pub(crate) entries: Vec<ReadBytes>,
    pub(crate) rooms: Vec<Vec<u8>>,
    pub(crate) table: Table<u8, View, CellLayout, CellsRule, Global>,
}

/// What a worker knows of cells, its counts, the script that says which of its calls fail, and what
/// lands later.
#[derive(Drop)]
pub struct CellPass {
    pub(crate) seat: Seat<u8, View>,
    pub(crate) entries: Snapshot<Vec<ReadBytes>>,
    pub(crate) script: Running,
    pub(crate) late: LateCells,
    pub(crate) faults: u64,
    pub(crate) calls: u64,
}

impl Cells {
    /// The keys and their promise.
    pub fn layout(&self) -> &CellLayout
        ensures specs { result.now.specs ≡ (served_by self.now).specs }
        ensures promise { (served_by self.now).promise ≡ Some (bytes_under result.now.promise) }
    {
        &self.layout
    }

    /// The rooms in which the values of the keys are handed out, one for each key, in order. They
    /// are taken once.
    pub fn take_rooms(&mut self, alloc: Global) -> Vec<Vec<u8>>
        ensures rooms { (p : CellPass) → IsOwnPass self.old p → map (λ v. length v.items) result.items ≡ map room_size (served_by self.old).specs }
        ensures own { (p : CellPass) → IsOwnPass self.old p → IsHandOf self.new p }
        ensures served { served_by self.new ≡ served_by self.old }
    {
        mem::replace(&mut self.rooms, Vec::new(alloc))
    }
}

impl CellPass {
    /// How often a call with it has failed.
    pub fn faults(&self) -> u64
        ensures { result ≡ (known_of self.now).faults }
    {
        self.faults
    }

    /// How many puts are late in it: those that failed and land at a later call.
    pub fn late_count(&self) -> usize
        ensures count { result ≡ length (waits_of self.now) }
        ensures few { result ≤ 8 }
    {
        self.late.len()
    }

    /// How many calls were made with it.
    pub fn calls(&self) -> u64
        ensures { result ≡ (known_of self.now).calls }
    {
        self.calls
    }

    /// From now on this script says which calls of the pass fail. Its counts begin at 0, and what
    /// is late stays late. A rule with a `land` has `times` 1.
    pub fn set_script(&mut self, script: Script)
        requires { LandsOnce script.rules.items }
        ensures own { (y : Cells) → IsOwnPass y self.old → IsOwnPass y self.new }
        ensures known { known_of self.new ≡ known_of self.old }
        ensures script { script_of self.new ≡ started script }
        ensures waits { waits_of self.new ≡ waits_of self.old }
        ensures landed { landed_of self.new ≡ landed_of self.old }
    {
        self.script = Running::start(script);
    }

    /// From now on this script, which has counted calls elsewhere, says which calls of the pass
    /// fail.
    pub fn run_script(&mut self, script: Running)
        ensures own { (y : Cells) → IsOwnPass y self.old → IsOwnPass y self.new }
        ensures known { known_of self.new ≡ known_of self.old }
        ensures script { script_of self.new ≡ progress script }
        ensures waits { waits_of self.new ≡ waits_of self.old }
        ensures landed { landed_of self.new ≡ landed_of self.old }
    {
        self.script = script;
    }

    /// The script, with what it has counted.
    pub fn into_script(self) -> Running
        ensures { progress result ≡ script_of self }
    {
        let CellPass { script, .. } = self;
        script
    }
}
