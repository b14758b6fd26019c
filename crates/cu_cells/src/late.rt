//! Puts that failed and land at a later call of their pass.
ghost use Rattle.std.specs.Prelude.{◌≡◌, ◌<◌, ◌≤◌, ◌++◌, ◌∷◌, ◌==◌, if◌then◌else◌, [], Some, true, length};
ghost use Rattle.cu_cells.specs.Layout.{word_total};
ghost use Rattle.cu_cells.specs.Late.{AreStored, IsPutOff, behind, cells_waiting, landed_by, with_late};

use crate::steps::{CellSeat, Words, land_flag};
use arrayvec::ArrayVec;
use cu_store::Key;

/// A cell whose words a failed put has stored, and after how many further calls of the pass its
/// flag is set.
#[derive(Clone, Copy, Default)]
pub struct LateCell {
    pub(crate) cell: usize,
    pub(crate) wait: u32,
}

/// A put that failed and lands after so many further calls: its key and its bytes.
#[derive(Drop)]
pub struct LatePut {
    pub key: Key,
    pub wait: u32,
    pub bytes: Vec<u8>,
}

/// The cells whose flags a pass sets at later calls: a rule that lets a put land fails one call,
/// and a script has 8 rules.
pub(crate) type LateCells = ArrayVec<LateCell, 8>;

/// A call begins: the flags are set that wait for no further call, and the others wait for one call
/// less.
pub(crate) fn land_due(words: &Words, seat: &mut CellSeat, late: &mut LateCells)
    requires seat { (seat.old.table_id ≡ words.now.table_id) × (seat.old.me.1 ≡ []) × (seat.old.me.0.live ≡ true) }
    requires laid { seat.old.me.0.laid ≡ words.now.key }
    requires sized { words.now.table_id.words ≡ word_total words.now.key }
    requires stored { AreStored seat.old.me.0 late.old.items }
    ensures same { (seat.new.table_id ≡ seat.old.table_id) × (seat.new.id ≡ seat.old.id) × (seat.new.me.1 ≡ seat.old.me.1) }
    ensures knows { (seat.new.me.0.live ≡ seat.old.me.0.live) × (seat.new.me.0.laid ≡ seat.old.me.0.laid) × (seat.new.me.0.seen ≡ seat.old.me.0.seen) × (seat.new.me.0.stored ≡ seat.old.me.0.stored) }
    ensures landed { seat.new.me.0.landed ≡ landed_by late.old.items seat.old.me.0.landed }
    ensures waits { late.new.items ≡ cells_waiting late.old.items }
{
    for at in 0..late.len() {
        land_one(words, seat, &late.as_slice()[at]);
    }
    *late = still_waiting(late.as_slice());
}

/// Sets the flag of a cell that is due. It has landed then.
fn land_one(words: &Words, seat: &mut CellSeat, late: &LateCell)
    requires seat { (seat.old.table_id ≡ words.now.table_id) × (seat.old.me.1 ≡ []) × (seat.old.me.0.live ≡ true) }
    requires laid { seat.old.me.0.laid ≡ words.now.key }
    requires sized { words.now.table_id.words ≡ word_total words.now.key }
    requires stored { IsPutOff seat.old.me.0 late.now }
    ensures same { (seat.new.table_id ≡ seat.old.table_id) × (seat.new.id ≡ seat.old.id) × (seat.new.me.1 ≡ seat.old.me.1) }
    ensures knows { (seat.new.me.0.live ≡ seat.old.me.0.live) × (seat.new.me.0.laid ≡ seat.old.me.0.laid) × (seat.new.me.0.seen ≡ seat.old.me.0.seen) × (seat.new.me.0.stored ≡ seat.old.me.0.stored) }
    ensures landed { seat.new.me.0.landed ≡ (if late.now.wait == 0 then late.now.cell ∷ seat.old.me.0.landed else seat.old.me.0.landed) }
{
    if late.wait == 0 {
        land_flag(words, seat, late.cell);
    }
}

/// Those that weren't due, which wait for one call less.
fn still_waiting(late: &[LateCell]) -> LateCells
    requires { length late.now ≤ 8 }
    ensures { result.items ≡ cells_waiting late.now }
{
    let mut rest = ArrayVec::new();
    for at in 0..late.len() {
        wait_on(&mut rest, &late[at]);
    }
    rest
}

/// Keeps a cell that isn't due, which waits for one call less.
fn wait_on(rest: &mut LateCells, l: &LateCell)
    requires { length rest.old.items < 8 }
    ensures { rest.new.items ≡ rest.old.items ++ behind l.now l.now.wait [] }
{
    if l.wait > 0 {
        rest.push(LateCell {
            cell: l.cell,
            wait: l.wait - 1,
        });
    }
}

/// Adds a cell, where fewer than 8 wait.
pub(crate) fn put_off(late: &mut LateCells, cell: usize, wait: u32)
    ensures { late.new.items ≡ with_late late.old.items (Some wait) cell }
{
    if late.len() < 8 {
        late.push(LateCell { cell, wait });
    }
}
