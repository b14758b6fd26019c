ghost use Rattle.std.specs.Prelude.{◌≡◌, ◌+◌, ◌*◌, ◌^◌, ◌<◌, ◌≤◌, ℕ, List, map, suc, length, slice_index, take, drop, Some, None};
ghost use Rattle.cu_num.specs.Dtype.{size_of};
ghost use Rattle.cu_shape.specs.Index.{product, place_of, index_at, sums, IsInside};
ghost use Rattle.cu_grid.specs.Counts.{IsRegion};
ghost use Rattle.cu_reduce.specs.Groups.{group_counts, group_indices, HasElements};
ghost use Rattle.cu_reduce.specs.Places.{Found, best_of};
ghost use Rattle.cu_pairs.specs.Elements.{sought_groups, area, found_in_area, found_beside, HasFound, IsAxis};
ghost use Rattle.cu_pairs.specs.Columns.{table, HasRows, IsBestOf};
ghost use Rattle.cu_pairs.specs.Blocks.{sizes, HasBestsAlong};

use crate::blocks::{Blocks, best_of_blocks, best_of_runs};
use crate::columns::PlacedRows;
use crate::run_types::first_best_of_type;
use cu_num::{Dtype, load, save, size};
use cu_shape::{Dims, index_of, place};

/// A part of an array: the array's sizes, where the part begins, and the part's sizes.
#[derive(Clone, Copy)]
struct Part<'a> {
    shape: &'a Dims,
    lo: &'a Dims,
    dims: &'a Dims,
}

/// How many elements the axes behind one have.
pub fn width_behind(dims: &Dims, axis: u32) -> usize
    requires axis { axis < length dims.now }
    requires some { 0 < product dims.now }
    requires small { product dims.now < 2 ^ 64 }
    ensures { result ≡ product (drop (suc axis) dims.now) }
{
    let rank = dims.rank();
    let mut width = 1;
    for behind in axis + 1..rank {
        width *= dims.at(behind) as usize;
    }
    width
}

/// How many elements the axes before one have.
pub fn blocks_before(dims: &Dims, axis: u32) -> usize
    requires axis { axis < length dims.now }
    requires some { 0 < product dims.now }
    requires small { product dims.now < 2 ^ 64 }
    ensures { result ≡ product (take axis dims.now) }
{
    let mut blocks = 1;
    for before in 0..axis {
        blocks *= dims.at(before) as usize;
    }
    blocks
}

/// The index of the array for an index of a part.
fn moved(lo: &Dims, idx: &Dims) -> Dims
    requires ranks { length lo.now ≡ length idx.now }
    requires small { (k : ℕ) → k < length idx.now → slice_index lo.now k + slice_index idx.now k < 2 ^ 64 }
    ensures { result ≡ sums lo.now idx.now }
{
    let mut index = *idx;
    for axis in 0..idx.rank() {
        index.put(axis, lo.at(axis) + idx.at(axis));
    }
    index
}

/// The best along an axis of each column of each block, where places are counted from `first`.
fn best_along(
    least: bool,
    t: Dtype,
    first: u64,
    rows: PlacedRows<'_>,
    blocks: Blocks,
    values: &mut [u8],
    places: &mut [u8],
)
    requires width { 0 < rows.width }
    requires first { rows.first ≡ Some first }
    requires count { 0 < blocks.rows }
    requires rows { HasRows (table t rows.width rows.bytes.now rows.first rows.places.now) (blocks.number * blocks.rows) }
    requires values { length values.old ≡ blocks.number * rows.width * size_of t }
    requires places { length places.old ≡ blocks.number * rows.width * 8 }
    ensures { HasBestsAlong least (table t rows.entry.width rows.entry.bytes.now rows.entry.first rows.entry.places.now) (sizes blocks.number blocks.rows) values.new places.new }
{
    if rows.width == 1 {
        best_of_runs(least, t, first, rows, blocks, values, places);
    } else {
        best_of_blocks(least, t, rows, blocks, values, places);
    }
}

/// The best of all elements of a part, whose place is the row-major one in the array.
fn best_of_all(
    least: bool,
    t: Dtype,
    part: Part<'_>,
    input: &[u8],
    values: &mut [u8],
    places: &mut [u8],
)
    requires region { IsRegion part.shape.now part.lo.now (sums part.lo.now part.dims.now) }
    requires ranks { length part.dims.now ≡ length part.lo.now }
    requires small { product part.shape.now ≤ 2 ^ 56 }
    requires some { 0 < product part.dims.now }
    requires input { length input.now ≡ product part.dims.now * size_of t }
    requires values { length values.old ≡ size_of t }
    requires places { length places.old ≡ 8 }
    ensures { (best : Found) × IsBestOf least (λ p. found_in_area t input.now (area part.entry.shape.now part.entry.lo.now part.entry.dims.now None) (index_at part.entry.dims.now p)) (product part.entry.dims.now) best
        × HasFound t values.new places.new 0 best }
{
    let at = first_best_of_type(least, t, input);
    let index = moved(part.lo, &index_of(part.dims, at as u64));
    save(t, load(t, input, at), values, 0);
    save(
        Dtype::Int64,
        i128::from(place(part.shape, &index)),
        places,
        0,
    );
}

/// The least or the greatest element of a region along an axis, or where `axis` is none of all its elements, and the first place that
/// has it (Python array API, "Searching Functions"). The region begins at `lo` of an array of the sizes `shape`; `input` has its
/// elements, of type `t`, as little-endian bytes in row-major order, at least one along what is searched. There is a result for each
/// index of the other axes, in row-major order: in `values` the element, and in `places` its place in the whole array as `Int64`,
/// counted from 0 along the axis, or where `axis` is none in row-major order.
pub fn pair_fold(
    least: bool,
    t: Dtype,
    shape: &Dims,
    lo: &Dims,
    dims: &Dims,
    axis: Option<u32>,
    input: &[u8],
    values: &mut [u8],
    places: &mut [u8],
)
    requires region { IsRegion shape.now lo.now (sums lo.now dims.now) }
    requires ranks { length dims.now ≡ length lo.now }
    requires small { product shape.now ≤ 2 ^ 56 }
    requires axis { IsAxis axis dims.now }
    requires elements { HasElements (sought_groups axis dims.now) dims.now }
    requires input { length input.now ≡ product dims.now * size_of t }
    requires values { length values.old ≡ product (group_counts (sought_groups axis dims.now) dims.now) * size_of t }
    requires places { length places.old ≡ product (group_counts (sought_groups axis dims.now) dims.now) * 8 }
    ensures { (idx : List ℕ) (best : Found) → IsInside (group_counts (sought_groups axis dims.now) dims.now) idx
        → best_of least (map (found_in_area t input.now (area shape.now lo.now dims.now axis)) (group_indices (sought_groups axis dims.now) dims.now idx)) ≡ Some best
        → HasFound t values.new places.new (place_of (group_counts (sought_groups axis dims.now) dims.now) idx) best }
{
    if values.is_empty() {
        return;
    }
    match axis {
        None => best_of_all(least, t, Part { shape, lo, dims }, input, values, places),
        Some(axis) => {
            let first = lo.at(axis);
            let rows = PlacedRows {
                width: width_behind(dims, axis),
                bytes: input,
                first: Some(first),
                places: input,
            };
            let number = blocks_before(dims, axis);
            let blocks = Blocks {
                number,
                rows: dims.at(axis) as usize,
            };
            best_along(least, t, first, rows, blocks, values, places);
        }
    }
}

/// The least or the greatest of partial results along an axis, and its place; among equal numbers the one with the least place, whatever
/// the order of the partial results. `values_from` has the numbers, of type `t`, and `places_from` their places, as `Int64`, for an array
/// of the sizes `dims` with at least one element along the axis, as little-endian bytes in row-major order. For each index of the other
/// axes, in row-major order, `values` gets the number and `places` its place.
pub fn pair_merge(
    least: bool,
    t: Dtype,
    dims: &Dims,
    axis: u32,
    values_from: &[u8],
    places_from: &[u8],
    values: &mut [u8],
    places: &mut [u8],
)
    requires axis { axis < length dims.now }
    requires elements { HasElements (sought_groups (Some axis) dims.now) dims.now }
    requires values_from { length values_from.now ≡ product dims.now * size_of t }
    requires places_from { length places_from.now ≡ product dims.now * 8 }
    requires values { length values.old ≡ product (group_counts (sought_groups (Some axis) dims.now) dims.now) * size_of t }
    requires places { length places.old ≡ product (group_counts (sought_groups (Some axis) dims.now) dims.now) * 8 }
    ensures { (idx : List ℕ) (best : Found) → IsInside (group_counts (sought_groups (Some axis) dims.now) dims.now) idx
        → best_of least (map (found_beside t values_from.now places_from.now dims.now) (group_indices (sought_groups (Some axis) dims.now) dims.now idx)) ≡ Some best
        → HasFound t values.new places.new (place_of (group_counts (sought_groups (Some axis) dims.now) dims.now) idx) best }
{
    if values.is_empty() {
        return;
    }
    let rows = PlacedRows {
        width: width_behind(dims, axis),
        bytes: values_from,
        first: None,
        places: places_from,
    };
    let number = blocks_before(dims, axis);
    let blocks = Blocks {
        number,
        rows: dims.at(axis) as usize,
    };
    best_of_blocks(least, t, rows, blocks, values, places);
}
