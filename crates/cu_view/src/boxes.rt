//! The boxes of a view's pieces.
ghost use Rattle.std.specs.Prelude.{◌≡◌, ◌<◌, ◌≤◌, ◌↔◌, ◌==◌, [], ℕ, List, length, slice_index, slice_index_or, if◌then◌else◌};
ghost use Rattle.cu_shape.specs.Index.{product, place_of, IsInside};
ghost use Rattle.cu_grid.specs.Counts.{IsRegion, IsWithin};
ghost use Rattle.cu_origin.specs.Fits.{FitsConcat};
ghost use Rattle.cu_origin.specs.Pull.{concat_from};
ghost use Rattle.cu_view.specs.Boxes.{first_on, offset_of, range_begin, source_of};
ghost use Rattle.cu_view.specs.Pieces.{turn_of, ranges_of, range_at, source_number, pieces_of, number_at};
ghost use Rattle.cu_view.specs.View.{IsView};

use cu_grid::Region;
use cu_origin::Pull;
use cu_shape::{Dims, index_of};

/// The box of a piece, by the piece's number.
pub(crate) fn box_at(pull: &Pull, sources: &[Dims], shape: &Dims, number: u64) -> Region
    requires view { IsView pull.now sources.now shape.now }
    requires number { number < pieces_of pull.now sources.now shape.now }
    ensures region { IsRegion shape.now result.lo result.hi }
    ensures first { (d : ℕ) → d < length shape.now → slice_index result.lo d ≡ first_on pull.now sources.now shape.now number d }
    ensures exactly { (idx : List ℕ) → IsInside shape.now idx → IsWithin result.lo result.hi idx ↔ (number_at pull.now sources.now shape.now idx ≡ number) }
{
    match pull {
        Pull::Concat { axis } => concat_box(*axis, sources, shape, number),
        Pull::Stack { axis } => range(shape, *axis, number, number + 1),
        Pull::Roll { shifts } => rolled_box(shifts.as_slice(), shape, number),
        _ => whole(shape),
    }
}

/// The source that a piece reads, by the piece's number.
pub(crate) fn source_at(pull: &Pull, sources: &[Dims], shape: &Dims, number: u64) -> u32
    requires view { IsView pull.now sources.now shape.now }
    requires number { number < pieces_of pull.now sources.now shape.now }
    ensures value { result ≡ source_of pull.now number }
    ensures below { result < length sources.now }
{
    match pull {
        Pull::Concat { .. } | Pull::Stack { .. } => number as u32,
        _ => 0,
    }
}

/// The indices of an array.
pub(crate) fn whole(shape: &Dims) -> Region
    ensures rank { length result.lo ≡ length shape.now }
    ensures first { (d : ℕ) → slice_index result.lo d ≡ 0 }
    ensures end { result.hi ≡ shape.now }
    ensures region { IsRegion shape.now result.lo result.hi }
    ensures exactly { (idx : List ℕ) → IsWithin result.lo result.hi idx ↔ IsInside shape.now idx }
{
    let mut lo = *shape;
    for axis in 0..shape.rank() {
        lo.put(axis, 0);
    }
    Region { lo, hi: *shape }
}

/// The indices of an array that are from `from` to below `to` on an axis.
fn range(shape: &Dims, axis: u32, from: u64, to: u64) -> Region
    requires axis { axis < length shape.now }
    requires order { from ≤ to }
    requires inside { to ≤ slice_index shape.now axis }
    ensures first { (d : ℕ) → slice_index result.lo d ≡ (if d == axis then from else 0) }
    ensures region { IsRegion shape.now result.lo result.hi }
    ensures exactly { (idx : List ℕ) → IsInside shape.now idx → IsWithin result.lo result.hi idx ↔ ((from ≤ slice_index idx axis) × (slice_index idx axis < to)) }
{
    let mut region = whole(shape);
    region.lo.put(axis, from);
    region.hi.put(axis, to);
    region
}

/// The indices of a concatenation that come from a source.
fn concat_box(axis: u32, sources: &[Dims], shape: &Dims, number: u64) -> Region
    requires fits { FitsConcat axis sources.now shape.now }
    requires number { number < length sources.now }
    ensures first { (d : ℕ) → slice_index result.lo d ≡ (if d == axis then offset_of axis sources.now number else 0) }
    ensures region { IsRegion shape.now result.lo result.hi }
    ensures exactly { (idx : List ℕ) → IsInside shape.now idx → IsWithin result.lo result.hi idx ↔ (source_number (concat_from axis 0 sources.now idx) ≡ number) }
{
    let from = offset(axis, sources, number as usize, shape.at(axis));
    range(shape, axis, from, from + sources[number as usize].at(axis))
}

/// Where a source begins along the axis of a concatenation of size `size` there.
fn offset(axis: u32, sources: &[Dims], number: usize, size: u64) -> u64
    requires number { number ≤ length sources.now }
    requires ranks { (k : ℕ) → k < number → axis < length (slice_index_or sources.now k []) }
    requires within { (k : ℕ) → k ≤ number → offset_of axis sources.now k ≤ size }
    ensures { result ≡ offset_of axis sources.now number }
{
    let mut from = 0;
    for before in 0..number {
        from += sources[before].at(axis);
    }
    from
}

/// The indices of a roll that lie in one range on each axis: those that came round, or the others.
fn rolled_box(shifts: &[i64], shape: &Dims, number: u64) -> Region
    requires ranks { length shifts.now ≡ length shape.now }
    requires number { number < product (ranges_of shifts.now shape.now) }
    ensures first { (d : ℕ) → d < length shape.now → slice_index result.lo d ≡ range_begin shifts.now shape.now number d }
    ensures region { IsRegion shape.now result.lo result.hi }
    ensures exactly { (idx : List ℕ) → IsInside shape.now idx → IsWithin result.lo result.hi idx
        ↔ (place_of (ranges_of shifts.now shape.now) (range_at shifts.now shape.now idx) ≡ number) }
{
    let chosen = index_of(&ranges(shifts, shape), number);
    let mut region = Region {
        lo: *shape,
        hi: *shape,
    };
    for axis in 0..shape.rank() {
        let size = shape.at(axis);
        let turn = turn(shifts[axis as usize], size);
        let stays = chosen.at(axis) == 0;
        region.lo.put(axis, if stays { turn } else { 0 });
        region.hi.put(axis, if stays { size } else { turn });
    }
    region
}

/// In how many ranges a roll parts each axis.
pub(crate) fn ranges(shifts: &[i64], shape: &Dims) -> Dims
    requires { length shifts.now ≡ length shape.now }
    ensures { result ≡ ranges_of shifts.now shape.now }
{
    let mut ranges = *shape;
    for axis in 0..shape.rank() {
        let turned = turn(shifts[axis as usize], shape.at(axis)) != 0;
        ranges.put(axis, if turned { 2 } else { 1 });
    }
    ranges
}

/// How far an axis of size `n` is rolled towards its end, below its size.
pub(crate) fn turn(shift: i64, n: u64) -> u64
    ensures value { result ≡ turn_of shift n }
    ensures within { result ≤ n }
{
    if n == 0 {
        0
    } else {
        (shift as i128).rem_euclid(n as i128) as u64
    }
}
