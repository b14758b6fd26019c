//! The best of each column of rows that follow one another, row after row.
ghost use Rattle.std.specs.Prelude.{◌≡◌, ◌+◌, ◌*◌, length};
ghost use Rattle.cu_num.specs.Dtype.{size_of};
ghost use Rattle.cu_pairs.specs.Elements.{found};
ghost use Rattle.cu_pairs.specs.Columns.{table, sought_place, is_taken, HasRows, HasBests, HasPlacesBeside};

use crate::runs::{chosen, is_beyond};
use cu_num::{Dtype, load, save, size};

/// Rows of elements of one type, one behind another, and the places of their elements: counted by rows from the first one's, or as
/// elements beside them.
#[derive(Clone, Copy)]
pub(crate) struct PlacedRows<'a> {
    pub(crate) width: usize,
    pub(crate) bytes: &'a [u8],
    pub(crate) first: Option<u64>,
    pub(crate) places: &'a [u8],
}

/// A number and its place.
#[derive(Clone, Copy)]
struct NumberAtPlace {
    value: i128,
    place: i128,
}

/// The place of element `at`, which stands in row `row`.
#[inline(always)]
fn place_of(first: Option<u64>, places: &[u8], row: usize, at: usize) -> i128
    requires { HasPlacesBeside first places.now (at + 1) }
    ensures { result ≡ sought_place first places.now row at }
{
    match first {
        Some(first) => i128::from(first) + row as i128,
        None => load(Dtype::Int64, places, at),
    }
}

/// Whether an element takes the place of the best of the rows before: one that is as good does where its place is lesser, which a place
/// that is counted never is.
#[inline(always)]
fn is_taken(least: bool, first: Option<u64>, y: NumberAtPlace, x: NumberAtPlace) -> bool
    ensures { result ≡ is_taken least first (found y.value y.place) (found x.value x.place) }
{
    let beyond = is_beyond(least, y.value, x.value);
    match first {
        Some(_) => beyond,
        None => beyond || (!is_beyond(least, x.value, y.value) && y.place < x.place),
    }
}

/// Takes one more row into the best of each column.
#[inline(always)]
fn take_row(
    least: bool,
    t: Dtype,
    rows: PlacedRows<'_>,
    row: usize,
    values: &mut [u8],
    places: &mut [u8],
)
    requires rows { HasRows (table t rows.width rows.bytes.now rows.first rows.places.now) (row + 1) }
    requires values { length values.old ≡ rows.width * size_of t }
    requires places { length places.old ≡ rows.width * 8 }
    requires before { HasBests least (table t rows.width rows.bytes.now rows.first rows.places.now) row values.old places.old }
    ensures { HasBests least (table t rows.entry.width rows.entry.bytes.now rows.entry.first rows.entry.places.now) (row + 1) values.new places.new }
{
    for k in 0..rows.width {
        let at = row * rows.width + k;
        let own = NumberAtPlace {
            value: load(t, rows.bytes, at),
            place: place_of(rows.first, rows.places, row, at),
        };
        let best = NumberAtPlace {
            value: load(t, values, k),
            place: load(Dtype::Int64, places, k),
        };
        let choice = row == 0 || is_taken(least, rows.first, own, best);
        save(t, chosen(choice, own.value, best.value), values, k);
        save(
            Dtype::Int64,
            chosen(choice, own.place, best.place),
            places,
            k,
        );
    }
}

/// The best of each column of so many rows.
#[inline(always)]
pub(crate) fn best_of_columns(
    least: bool,
    t: Dtype,
    rows: PlacedRows<'_>,
    count: usize,
    values: &mut [u8],
    places: &mut [u8],
)
    requires rows { HasRows (table t rows.width rows.bytes.now rows.first rows.places.now) count }
    requires values { length values.old ≡ rows.width * size_of t }
    requires places { length places.old ≡ rows.width * 8 }
    ensures { HasBests least (table t rows.entry.width rows.entry.bytes.now rows.entry.first rows.entry.places.now) count values.new places.new }
{
    for row in 0..count {
        take_row(least, t, rows, row, values, places);
    }
}
