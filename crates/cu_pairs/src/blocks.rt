//! The best along an axis: the axes before it number blocks, the axis numbers the rows of each, and the axes behind it their columns.
ghost use Rattle.std.specs.Prelude.{◌≡◌, ◌+◌, ◌*◌, ◌<◌, ◌≤◌, length, Some};
ghost use Rattle.cu_num.specs.Dtype.{size_of};
ghost use Rattle.cu_pairs.specs.Columns.{table, HasRows, HasPlacesBeside};
ghost use Rattle.cu_pairs.specs.Blocks.{sizes, HasBestsAlong, IsTablePart};

use crate::column_types::columns_of_type;
use crate::columns::PlacedRows;
use crate::run_types::first_best_of_type;
use cu_num::{Dtype, load, save, size};

/// So many elements from number `from` on, with their places.
fn part_of<'a>(t: Dtype, rows: PlacedRows<'a>, from: usize, count: usize) -> PlacedRows<'a>
    requires bytes { (from + count) * size_of t ≤ length rows.bytes.now }
    requires places { HasPlacesBeside rows.first rows.places.now (from + count) }
    ensures width { result.width ≡ rows.entry.width }
    ensures first { result.first ≡ rows.entry.first }
    ensures part { IsTablePart (table t rows.entry.width rows.entry.bytes.now rows.entry.first rows.entry.places.now) (table t result.width result.bytes.now result.first result.places.now) from count }
{
    let size = size(t) as usize;
    let bytes = &rows.bytes[from * size..(from + count) * size];
    match rows.first {
        Some(first) => PlacedRows {
            width: rows.width,
            bytes,
            first: Some(first),
            places: rows.places,
        },
        None => PlacedRows {
            width: rows.width,
            bytes,
            first: None,
            places: &rows.places[from * 8..(from + count) * 8],
        },
    }
}

/// How many blocks there are, and how many rows each has.
#[derive(Clone, Copy)]
pub(crate) struct Blocks {
    pub number: usize,
    pub rows: usize,
}

/// The best of each column of each block.
pub(crate) fn best_of_blocks(
    least: bool,
    t: Dtype,
    rows: PlacedRows<'_>,
    blocks: Blocks,
    values: &mut [u8],
    places: &mut [u8],
)
    requires width { 0 < rows.width }
    requires count { 0 < blocks.rows }
    requires rows { HasRows (table t rows.width rows.bytes.now rows.first rows.places.now) (blocks.number * blocks.rows) }
    requires values { length values.old ≡ blocks.number * rows.width * size_of t }
    requires places { length places.old ≡ blocks.number * rows.width * 8 }
    ensures { HasBestsAlong least (table t rows.entry.width rows.entry.bytes.now rows.entry.first rows.entry.places.now) (sizes blocks.number blocks.rows) values.new places.new }
{
    let size = size(t) as usize;
    let count = blocks.rows;
    for block in 0..blocks.number {
        let part = part_of(t, rows, block * count * rows.width, count * rows.width);
        let from = block * rows.width;
        let end = from + rows.width;
        let own_values = &mut values[from * size..end * size];
        let own_places = &mut places[from * 8..end * 8];
        columns_of_type(least, t, part, count, own_values, own_places);
    }
}

/// The same of blocks of one column, the rows of which are runs of elements; their places are counted from `first`.
pub(crate) fn best_of_runs(
    least: bool,
    t: Dtype,
    first: u64,
    rows: PlacedRows<'_>,
    blocks: Blocks,
    values: &mut [u8],
    places: &mut [u8],
)
    requires width { rows.width ≡ 1 }
    requires first { rows.first ≡ Some first }
    requires count { 0 < blocks.rows }
    requires rows { HasRows (table t rows.width rows.bytes.now rows.first rows.places.now) (blocks.number * blocks.rows) }
    requires values { length values.old ≡ blocks.number * size_of t }
    requires places { length places.old ≡ blocks.number * 8 }
    ensures { HasBestsAlong least (table t rows.entry.width rows.entry.bytes.now rows.entry.first rows.entry.places.now) (sizes blocks.number blocks.rows) values.new places.new }
{
    let size = size(t) as usize;
    let count = blocks.rows;
    for block in 0..blocks.number {
        let from = block * count;
        let run = &rows.bytes[from * size..(from + count) * size];
        let at = first_best_of_type(least, t, run);
        save(t, load(t, run, at), values, block);
        save(Dtype::Int64, i128::from(first) + at as i128, places, block);
    }
}
