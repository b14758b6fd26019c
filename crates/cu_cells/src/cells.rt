//! The words of one cell, stored and loaded.
ghost use Rattle.std.specs.Prelude.{◌≡◌, ◌+◌, ◌<◌, ◌≤◌, ◌^◌, ◌/◌, ◌%◌, ℕ, [], ◌∷◌, true, length, slice_index};
ghost use Rattle.std.specs.Int.{w64, to_le_bytes};
ghost use Rattle.cu_cells.specs.Layout.{flag_count, first_word, cell_size, value_at, word_total, word_count};
ghost use Rattle.cu_cells.specs.Cells.{IsLaidCell};
ghost use Rattle.cu_cells.specs.Rule.{IsIn, HasStored, KnowsCell};

use crate::steps::{CellSeat, Words, load_word, look, set_flag, store_word};
use crate::words::{lay_last, lay_word, word_at};

/// Stores the words of a cell.
pub(crate) fn store_cell(
    words: &Words,
    seat: &mut CellSeat,
    cell: usize,
    first: usize,
    bytes: &[u8],
)
    requires seat { (seat.old.table_id ≡ words.now.table_id) × (seat.old.me.1 ≡ []) × (seat.old.me.0.live ≡ true) }
    requires laid { seat.old.me.0.laid ≡ words.now.key }
    requires sized { words.now.table_id.words ≡ word_total words.now.key }
    requires small { word_total words.now.key < 2 ^ 63 }
    requires cell { IsLaidCell words.now.key cell first bytes.now }
    ensures same { (seat.new.table_id ≡ seat.old.table_id) × (seat.new.me.1 ≡ []) × (seat.new.me.0.live ≡ true) × (seat.new.me.0.laid ≡ words.now.key) }
    ensures seen { (seat.new.me.0.seen ≡ seat.old.me.0.seen) × (seat.new.me.0.landed ≡ seat.old.me.0.landed) }
    ensures more { (n : ℕ) → IsIn seat.old.me.0.stored n → IsIn seat.new.me.0.stored n }
    ensures stored { HasStored seat.new.me.0 cell }
{
    for k in 0..bytes.len().div_ceil(8) {
        store_word(words, seat, first + k, word_at(bytes, 8 * k));
    }
}

/// Puts a cell: where its flag isn't set, stores its words and then sets it, so that whoever finds
/// the flag set finds the words.
pub(crate) fn put_cell(words: &Words, seat: &mut CellSeat, cell: usize, first: usize, bytes: &[u8])
    requires seat { (seat.old.table_id ≡ words.now.table_id) × (seat.old.me.1 ≡ []) × (seat.old.me.0.live ≡ true) }
    requires laid { seat.old.me.0.laid ≡ words.now.key }
    requires sized { words.now.table_id.words ≡ word_total words.now.key }
    requires small { word_total words.now.key < 2 ^ 63 }
    requires cell { IsLaidCell words.now.key cell first bytes.now }
    ensures same { (seat.new.table_id ≡ seat.old.table_id) × (seat.new.me.1 ≡ []) × (seat.new.me.0.live ≡ true) × (seat.new.me.0.laid ≡ words.now.key) }
    ensures seen { seat.new.me.0.seen ≡ cell ∷ seat.old.me.0.seen }
    ensures landed { seat.new.me.0.landed ≡ seat.old.me.0.landed }
    ensures more { (n : ℕ) → IsIn seat.old.me.0.stored n → IsIn seat.new.me.0.stored n }
{
    if look(words, seat, cell) {
        return;
    }
    store_cell(words, seat, cell, first, bytes);
    set_flag(words, seat, cell);
}

/// The word of this number of a cell that was seen, or whose words the seat has stored.
fn cell_word(words: &Words, seat: &mut CellSeat, cell: usize, first: usize, k: usize) -> u64
    requires seat { (seat.old.table_id ≡ words.now.table_id) × (seat.old.me.1 ≡ []) × (seat.old.me.0.live ≡ true) }
    requires laid { seat.old.me.0.laid ≡ words.now.key }
    requires known { KnowsCell seat.old.me.0 cell }
    requires sized { words.now.table_id.words ≡ word_total words.now.key }
    requires small { word_total words.now.key < 2 ^ 63 }
    requires first { first ≡ first_word words.now.key cell }
    requires word { k < cell_size words.now.key cell }
    requires room { first + cell_size words.now.key cell < word_total words.now.key }
    ensures same { (seat.new.table_id ≡ seat.old.table_id) × (seat.new.me ≡ seat.old.me) }
    ensures value { result ≡ value_at words.now.key (first + k) }
{
    load_word(words, seat, first + k)
}

/// Copies the bytes of a cell that was seen, or whose words the seat has stored, as many as `buf`
/// has: each eight from one word.
pub(crate) fn get_cell(
    words: &Words,
    seat: &mut CellSeat,
    cell: usize,
    first: usize,
    buf: &mut [u8],
)
    requires seat { (seat.old.table_id ≡ words.now.table_id) × (seat.old.me.1 ≡ []) × (seat.old.me.0.live ≡ true) }
    requires laid { seat.old.me.0.laid ≡ words.now.key }
    requires known { KnowsCell seat.old.me.0 cell }
    requires sized { words.now.table_id.words ≡ word_total words.now.key }
    requires cell { cell < flag_count words.now.key }
    requires small { word_total words.now.key < 2 ^ 63 }
    requires first { first ≡ first_word words.now.key cell }
    requires short { word_count (length buf.old) ≤ cell_size words.now.key cell }
    requires room { first + cell_size words.now.key cell < word_total words.now.key }
    ensures same { (seat.new.table_id ≡ seat.old.table_id) × (seat.new.me ≡ seat.old.me) }
    ensures length { length buf.new ≡ length buf.old }
    ensures read { (i : ℕ) → i < length buf.old → slice_index buf.new i ≡ slice_index (to_le_bytes w64 (value_at words.now.key (first + i / 8))) (i % 8) }
{
    let whole = buf.len() / 8;
    for k in 0..whole {
        let word = cell_word(words, seat, cell, first, k);
        lay_word(buf, 8 * k, word);
    }
    let at = 8 * whole;
    if at < buf.len() {
        let word = cell_word(words, seat, cell, first, whole);
        lay_last(buf, at, word);
    }
}
