//! The six kinds of step: a data word is stored, a flag is set, a flag is loaded, a data word is
//! loaded, seats are split and joined.
ghost use Rattle.std.specs.Prelude.{◌≡◌, ◌<◌, ◌≤◌, IsTrue, [], true, false};
ghost use Rattle.cu_cells.specs.Layout.{flag_count, value_at, word_total, is_named_cell};
ghost use Rattle.cu_cells.specs.Rule.{HasStored, IsIn, both_views, StoresWord, SeesCell, LandsCell, ReadsWord};
ghost use Rattle.atomic_table.specs.Table.{step};
ghost use mathlib.Core.Option.{none};

use crate::layout::CellLayout;
use crate::rule::{CellsRule, Lands, Looks, Reads, Same, Sets, Stores, View};
use atomic_table::{Seat, Shared};

/// The words of cells as threads see them.
pub(crate) type Words = Shared<u8, View, CellLayout, CellsRule>;

/// A seat at these words.
pub(crate) type CellSeat = Seat<u8, View>;

/// Stores a data word with its promised value.
pub(crate) fn store_word(words: &Words, seat: &mut CellSeat, word: usize, value: u64)
    requires seat { (seat.old.table_id ≡ words.now.table_id) × (seat.old.me.1 ≡ []) × (seat.old.me.0.live ≡ true) }
    requires sized { words.now.table_id.words ≡ word_total words.now.key }
    requires data_word { (flag_count words.now.key ≤ word) × (word < word_total words.now.key) }
    requires promised { value ≡ value_at words.now.key word }
    ensures same { (seat.new.table_id ≡ seat.old.table_id) × (seat.new.id ≡ seat.old.id) }
    ensures stored { StoresWord (step words.now.table_id.slots word value 0 none) seat.old.me value seat.new.me }
{
    words.store::<Stores>(seat, word, value);
}

/// Sets the flag of a cell, each word of which the seat has stored.
pub(crate) fn set_flag(words: &Words, seat: &mut CellSeat, cell: usize)
    requires seat { (seat.old.table_id ≡ words.now.table_id) × (seat.old.me.1 ≡ []) × (seat.old.me.0.live ≡ true) }
    requires sized { words.now.table_id.words ≡ word_total words.now.key }
    requires cell { cell < flag_count words.now.key }
    requires stored { HasStored seat.old.me.0 cell }
    requires named { IsTrue (is_named_cell words.now.key cell) }
    ensures same { (seat.new.table_id ≡ seat.old.table_id) × (seat.new.id ≡ seat.old.id) }
    ensures seen { SeesCell (step words.now.table_id.slots cell 1 0 none) seat.old.me 1 seat.new.me }
{
    words.store::<Sets>(seat, cell, 1);
}

/// Sets the flag of the cell of a failed put, each word of which the seat has stored. It has landed
/// then.
pub(crate) fn land_flag(words: &Words, seat: &mut CellSeat, cell: usize)
    requires seat { (seat.old.table_id ≡ words.now.table_id) × (seat.old.me.1 ≡ []) × (seat.old.me.0.live ≡ true) }
    requires sized { words.now.table_id.words ≡ word_total words.now.key }
    requires cell { cell < flag_count words.now.key }
    requires stored { HasStored seat.old.me.0 cell }
    requires named { IsTrue (is_named_cell words.now.key cell) }
    ensures same { (seat.new.table_id ≡ seat.old.table_id) × (seat.new.id ≡ seat.old.id) }
    ensures landed { LandsCell (step words.now.table_id.slots cell 1 0 none) seat.old.me 1 seat.new.me }
{
    words.store::<Lands>(seat, cell, 1);
}

/// Whether the flag of a cell is set. Then it was seen.
pub(crate) fn look(words: &Words, seat: &mut CellSeat, cell: usize) -> bool
    requires seat { (seat.old.table_id ≡ words.now.table_id) × (seat.old.me.1 ≡ []) × (seat.old.me.0.live ≡ true) }
    requires laid { seat.old.me.0.laid ≡ words.now.key }
    requires sized { words.now.table_id.words ≡ word_total words.now.key }
    requires cell { cell < flag_count words.now.key }
    ensures same { (seat.new.table_id ≡ seat.old.table_id) × (seat.new.id ≡ seat.old.id) }
    ensures knows { (seat.new.me.1 ≡ seat.old.me.1) × (seat.new.me.0.live ≡ seat.old.me.0.live) × (seat.new.me.0.laid ≡ seat.old.me.0.laid) × (seat.new.me.0.stored ≡ seat.old.me.0.stored) × (seat.new.me.0.landed ≡ seat.old.me.0.landed) }
    ensures unset { result ≡ false → seat.new.me ≡ seat.old.me }
    ensures set { result ≡ true → SeesCell (step words.now.table_id.slots cell 0 0 none) seat.old.me 0 seat.new.me × IsTrue (is_named_cell words.now.key cell) }
    ensures seen { IsIn seat.old.me.0.seen cell → result ≡ true }
    ensures landed { IsIn seat.old.me.0.landed cell → result ≡ true }
{
    words.load::<Looks>(seat, cell) != 0
}

/// The value of a data word, which is the promised one where the word is of a cell that was seen,
/// or the seat has stored it.
pub(crate) fn load_word(words: &Words, seat: &mut CellSeat, word: usize) -> u64
    requires seat { (seat.old.table_id ≡ words.now.table_id) × (seat.old.me.1 ≡ []) × (seat.old.me.0.live ≡ true) }
    requires sized { words.now.table_id.words ≡ word_total words.now.key }
    requires word { word < word_total words.now.key }
    ensures same { (seat.new.table_id ≡ seat.old.table_id) × (seat.new.id ≡ seat.old.id) }
    ensures read { ReadsWord (step words.now.table_id.slots word 0 0 none) seat.old.me result seat.new.me }
{
    words.load::<Reads>(seat, word)
}

/// A second seat that knows the same.
pub(crate) fn split(words: &Words, seat: &mut CellSeat) -> CellSeat
    requires seat { (seat.old.table_id ≡ words.now.table_id) × (seat.old.me.1 ≡ []) }
    requires sized { words.now.table_id.words ≡ word_total words.now.key }
    ensures same { (seat.new.table_id ≡ seat.old.table_id) × (seat.new.id ≡ seat.old.id) × (seat.new.me ≡ seat.old.me) }
    ensures second { (result.table_id ≡ seat.old.table_id) × (result.me ≡ seat.old.me) }
{
    words.split_seat::<Same>(seat)
}

/// Takes in what another seat knows.
pub(crate) fn join(words: &Words, seat: &mut CellSeat, other: CellSeat)
    requires seat { (seat.old.table_id ≡ words.now.table_id) × (seat.old.me.1 ≡ []) × (seat.old.me.0.live ≡ true) }
    requires other { (other.table_id ≡ words.now.table_id) × (other.me.1 ≡ []) × (other.me.0.live ≡ true) }
    requires sized { words.now.table_id.words ≡ word_total words.now.key }
    ensures same { (seat.new.table_id ≡ seat.old.table_id) × (seat.new.id ≡ seat.old.id) }
    ensures both { seat.new.me ≡ (both_views seat.old.me.0 other.me.0, []) }
{
    words.join_seat::<Same>(seat, other);
}
