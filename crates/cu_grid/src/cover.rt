ghost use Rattle.std.specs.Prelude.{◌≡◌, ◌+◌, ◌<◌, ◌^◌, ℕ, List, All, length, slice_index};
ghost use Rattle.std.specs.Iterator.{YieldsFirst, item_count};
ghost use Rattle.cu_shape.specs.Index.{quotients, sums};
ghost use Rattle.cu_grid.specs.Counts.{IsRegion};
ghost use Rattle.cu_grid.specs.Cover.{covering, spans_of, span_on};
ghost use Rattle.cu_grid.specs.Grid.{IsGrid};

use cu_shape::{Dims, index_of};
use std::marker::Model;

/// The coordinates of the chunks that share an element with a region, in row-major order, seen as the
/// list of those that are left.
#[derive(Debug, Drop)]
pub struct Cover {
    corner: Dims,
    spans: Dims,
    place: u64,
    left: u64,
}

impl Model for Cover {
    ghost use Rattle.std.specs.Prelude.{List, ℕ};
    ghost use Rattle.cu_grid.specs.Cover.{coordinates_from, IsWalk};

    ghost Value = { List (List ℕ) };

    ghost view = { λ w. coordinates_from w.corner w.spans w.place w.left };

    ghost invariant = { λ w. IsWalk w.corner w.spans w.place w.left };
}

impl Iterator for Cover {
    type Item = Dims;

    ghost next_gives = { YieldsFirst (λ rest. rest) };

    ghost remaining = { item_count (λ rest. rest) };

    fn next(&mut self) -> Option<Dims> {
        if self.left == 0 {
            return None;
        }
        let coord = shifted(&self.corner, &index_of(&self.spans, self.place));
        self.place += 1;
        self.left -= 1;
        Some(coord)
    }
}

/// The chunks of a grid that a region meets.
pub(crate) fn cover_of(shape: &Dims, chunk: &Dims, lo: &Dims, hi: &Dims) -> Cover
    requires grid { IsGrid (record { shape = shape.now; chunk = chunk.now }) }
    requires region { IsRegion shape.now lo.now hi.now }
    ensures { result ≡ covering chunk.now lo.now hi.now }
{
    let spans = spans(chunk, lo, hi);
    Cover {
        corner: corner(chunk, lo),
        spans,
        place: 0,
        left: spans.product(),
    }
}

/// The chunk of an index.
fn corner(chunk: &Dims, index: &Dims) -> Dims
    requires ranks { length chunk.now ≡ length index.now }
    requires positive { All (λ c. 0 < c) chunk.now }
    ensures { result ≡ quotients index.now chunk.now }
{
    let mut corner = *index;
    for axis in 0..index.rank() {
        corner.put(axis, index.at(axis) / chunk.at(axis));
    }
    corner
}

/// How many chunks a region meets on each axis.
fn spans(chunk: &Dims, lo: &Dims, hi: &Dims) -> Dims
    requires lo_rank { length lo.now ≡ length chunk.now }
    requires hi_rank { length hi.now ≡ length chunk.now }
    requires positive { All (λ c. 0 < c) chunk.now }
    ensures { result ≡ spans_of lo.now hi.now chunk.now }
{
    let mut spans = *chunk;
    for axis in 0..chunk.rank() {
        spans.put(axis, span(chunk.at(axis), lo.at(axis), hi.at(axis)));
    }
    spans
}

/// How many chunks of a size an interval of an axis meets.
fn span(size: u64, lo: u64, hi: u64) -> u64
    requires { 0 < size }
    ensures { result ≡ span_on lo hi size }
{
    if lo < hi {
        hi.div_ceil(size) - lo / size
    } else {
        0
    }
}

/// An index moved by a corner.
fn shifted(corner: &Dims, index: &Dims) -> Dims
    requires ranks { length corner.now ≡ length index.now }
    requires small { (k : ℕ) → k < length index.now → slice_index corner.now k + slice_index index.now k < 2 ^ 64 }
    ensures { result ≡ sums corner.now index.now }
{
    let mut coord = *corner;
    for axis in 0..corner.rank() {
        coord.put(axis, corner.at(axis) + index.at(axis));
    }
    coord
}
