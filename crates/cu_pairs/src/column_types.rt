//! The best of each column, with loops for each type and order, and for places that are counted and places that are read.
ghost use Rattle.std.specs.Prelude.{◌≡◌, ◌*◌, ◌<◌, length, Some, None};
ghost use Rattle.cu_num.specs.Dtype.{size_of};
ghost use Rattle.cu_pairs.specs.Columns.{table, HasRows, HasBests};

use crate::by_type::call_by_type;
use crate::columns::{PlacedRows, best_of_columns};
use crate::few::{BYTES, ROWS, best_of_few_columns};
use cu_num::Dtype;

/// The best of each column of so many rows.
pub(crate) fn columns_of_type(
    least: bool,
    t: Dtype,
    rows: PlacedRows<'_>,
    count: usize,
    values: &mut [u8],
    places: &mut [u8],
)
    requires rows { HasRows (table t rows.width rows.bytes.now rows.first rows.places.now) count }
    requires values { length values.old ≡ rows.width * size_of t }
    requires places { length places.old ≡ rows.width * 8 }
    ensures { HasBests least (table t rows.entry.width rows.entry.bytes.now rows.entry.first rows.entry.places.now) count values.new places.new }
{
    match rows.first {
        Some(first) => counted(least, t, first, rows, count, values, places),
        None => beside(least, t, rows, count, values, places),
    }
}

/// The same where places are counted.
fn counted(
    least: bool,
    t: Dtype,
    first: u64,
    rows: PlacedRows<'_>,
    count: usize,
    values: &mut [u8],
    places: &mut [u8],
)
    requires counted { rows.first ≡ Some first }
    requires rows { HasRows (table t rows.width rows.bytes.now rows.first rows.places.now) count }
    requires values { length values.old ≡ rows.width * size_of t }
    requires places { length places.old ≡ rows.width * 8 }
    ensures { HasBests least (table t rows.entry.width rows.entry.bytes.now rows.entry.first rows.entry.places.now) count values.new places.new }
{
    let rows = PlacedRows {
        width: rows.width,
        bytes: rows.bytes,
        first: Some(first),
        places: rows.places,
    };
    if values.len() <= BYTES && count >= ROWS {
        few(least, t, first, rows, count, values, places);
    } else if least {
        by_type(true, t, rows, count, values, places);
    } else {
        by_type(false, t, rows, count, values, places);
    }
}

/// The same of rows of few bytes.
fn few(
    least: bool,
    t: Dtype,
    first: u64,
    rows: PlacedRows<'_>,
    count: usize,
    values: &mut [u8],
    places: &mut [u8],
)
    requires counted { rows.first ≡ Some first }
    requires some { 0 < count }
    requires rows { HasRows (table t rows.width rows.bytes.now rows.first rows.places.now) count }
    requires values { length values.old ≡ rows.width * size_of t }
    requires places { length places.old ≡ rows.width * 8 }
    ensures { HasBests least (table t rows.entry.width rows.entry.bytes.now rows.entry.first rows.entry.places.now) count values.new places.new }
{
    if least {
        few_by_type(true, t, first, rows, count, values, places);
    } else {
        few_by_type(false, t, first, rows, count, values, places);
    }
}

#[inline(always)]
fn few_by_type(
    least: bool,
    t: Dtype,
    first: u64,
    rows: PlacedRows<'_>,
    count: usize,
    values: &mut [u8],
    places: &mut [u8],
)
    requires counted { rows.first ≡ Some first }
    requires some { 0 < count }
    requires rows { HasRows (table t rows.width rows.bytes.now rows.first rows.places.now) count }
    requires values { length values.old ≡ rows.width * size_of t }
    requires places { length places.old ≡ rows.width * 8 }
    ensures { HasBests least (table t rows.entry.width rows.entry.bytes.now rows.entry.first rows.entry.places.now) count values.new places.new }
{
    call_by_type!(
        best_of_few_columns,
        least,
        t,
        first,
        rows,
        count,
        values,
        places
    )
}

/// The same where places are read.
fn beside(
    least: bool,
    t: Dtype,
    rows: PlacedRows<'_>,
    count: usize,
    values: &mut [u8],
    places: &mut [u8],
)
    requires read { rows.first ≡ None }
    requires rows { HasRows (table t rows.width rows.bytes.now rows.first rows.places.now) count }
    requires values { length values.old ≡ rows.width * size_of t }
    requires places { length places.old ≡ rows.width * 8 }
    ensures { HasBests least (table t rows.entry.width rows.entry.bytes.now rows.entry.first rows.entry.places.now) count values.new places.new }
{
    let rows = PlacedRows {
        width: rows.width,
        bytes: rows.bytes,
        first: None,
        places: rows.places,
    };
    if least {
        by_type(true, t, rows, count, values, places);
    } else {
        by_type(false, t, rows, count, values, places);
    }
}

#[inline(always)]
fn by_type(
    least: bool,
    t: Dtype,
    rows: PlacedRows<'_>,
    count: usize,
    values: &mut [u8],
    places: &mut [u8],
)
    requires rows { HasRows (table t rows.width rows.bytes.now rows.first rows.places.now) count }
    requires values { length values.old ≡ rows.width * size_of t }
    requires places { length places.old ≡ rows.width * 8 }
    ensures { HasBests least (table t rows.entry.width rows.entry.bytes.now rows.entry.first rows.entry.places.now) count values.new places.new }
{
    call_by_type!(best_of_columns, least, t, rows, count, values, places)
}
