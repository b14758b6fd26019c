//! The pieces of a view's result.
ghost use Rattle.std.specs.Prelude.{◌≡◌, ◌<◌, [], ℕ, List, All, length, slice_index, slice_index_or};
ghost use Rattle.cu_shape.specs.Index.{product, IsInside};
ghost use Rattle.cu_grid.specs.Counts.{IsRegion};
ghost use Rattle.cu_view_box.specs.Piece.{read_by_ways, IsWayOver};
ghost use Rattle.cu_view.specs.Boxes.{first_on, source_of, index_read};
ghost use Rattle.cu_view.specs.Pieces.{ranges_of, pieces_of, number_at, IsNumbered};
ghost use Rattle.cu_view.specs.View.{IsView};

use crate::boxes::{box_at, ranges, source_at};
use crate::ways::way_on;
use arrayvec::ArrayVec;
use cu_grid::Region;
use cu_origin::Pull;
use cu_shape::Dims;
use cu_view_box::{Piece, Way};

/// How many pieces the result of a view has, each a box over which one source is read in one way an axis: of a concatenation and
/// a stack one a source, of a roll one for each choice of a range on each axis, of other views of one array one. A reshape and
/// what is made from nothing have none.
pub fn piece_count(pull: &Pull, sources: &[Dims], shape: &Dims) -> u64
    requires view { IsView pull.now sources.now shape.now }
    ensures { result ≡ pieces_of pull.now sources.now shape.now }
{
    match pull {
        Pull::Concat { .. } | Pull::Stack { .. } => sources.len() as u64,
        Pull::Roll { shifts } => range_count(shifts.as_slice(), shape),
        Pull::Reshape | Pull::Full { .. } | Pull::Arange { .. } | Pull::Eye { .. } => 0,
        _ => 1,
    }
}

/// In how many boxes a roll parts an array.
fn range_count(shifts: &[i64], shape: &Dims) -> u64
    requires { length shifts.now ≡ length shape.now }
    ensures { result ≡ product (ranges_of shifts.now shape.now) }
{
    let _short = shape.rank();
    match ranges(shifts, shape).elements() {
        Some(count) => count,
        None => 0,
    }
}

/// A piece of a view's result, by its number. Each index inside lies in the box of exactly one.
pub fn piece_at(pull: &Pull, sources: &[Dims], shape: &Dims, number: u64) -> Piece
    requires view { IsView pull.now sources.now shape.now }
    requires number { number < pieces_of pull.now sources.now shape.now }
    ensures { IsNumbered pull.now sources.now shape.now number result }
{
    let region = box_at(pull, sources, shape, number);
    let source = source_at(pull, sources, shape, number);
    let ways = ways_of(
        pull,
        sources,
        shape,
        number,
        &region,
        &sources[source as usize],
    );
    Piece {
        region,
        source,
        ways,
    }
}

/// How a piece reads each axis of its source.
fn ways_of(
    pull: &Pull,
    sources: &[Dims],
    shape: &Dims,
    number: u64,
    region: &Region,
    source: &Dims,
) -> ArrayVec<Way, 6>
    requires view { IsView pull.now sources.now shape.now }
    requires number { number < pieces_of pull.now sources.now shape.now }
    requires region { IsRegion shape.now region.now.lo region.now.hi }
    requires first { (d : ℕ) → d < length shape.now → slice_index region.now.lo d ≡ first_on pull.now sources.now shape.now number d }
    requires source { source.now ≡ slice_index_or sources.now (source_of pull.now number) [] }
    ensures count { length result.items ≡ length source.now }
    ensures over { All (IsWayOver region.now.lo region.now.hi) result.items }
    ensures reads { (idx : List ℕ) → IsInside shape.now idx → number_at pull.now sources.now shape.now idx ≡ number
        → IsInside source.now (index_read pull.now sources.now shape.now idx)
        → read_by_ways region.now.lo result.items idx ≡ index_read pull.now sources.now shape.now idx }
{
    let mut ways = ArrayVec::new();
    for axis in 0..source.rank() {
        ways.push(way_on(pull, sources, shape, number, region, axis));
    }
    ways
}
