//! What a piece shares with a region of the result and a region of its source.
ghost use Rattle.std.specs.Prelude.{◌≡◌, ◌<◌, ◌≤◌, ◌↔◌, ◌-◌, ℕ, List, All, IfSome, length, slice_index};
ghost use Rattle.std.specs.Bool.{OnTrue, OnFalse};
ghost use Rattle.std.specs.Option.{IfNone};
ghost use Rattle.cu_grid.specs.Counts.{IsWithin};
ghost use Rattle.cu_view_box.specs.Piece.{IsSharedIndex, IsWayOver, HaveRanks, count_along};
ghost use Rattle.cu_view_box.specs.Way.{IsWay, read_by};

use crate::piece::Piece;
use crate::way::Way;
use cu_grid::Region;

/// The indices of a piece's box that lie in the region `out` of the result and at which the piece reads the region `part` of its
/// source: a box, which isn't empty, or none.
pub fn shared_box(piece: &Piece, out: &Region, part: &Region) -> Option<Region>
    requires ranks { HaveRanks piece.now out.now part.now }
    requires ways { All (IsWayOver piece.now.region.lo piece.now.region.hi) piece.now.ways.items }
    ensures exact { IfSome result (λ b. (idx : List ℕ) → IsWithin b.lo b.hi idx ↔ IsSharedIndex piece.now out.now.lo out.now.hi part.now.lo part.now.hi idx) }
    ensures some { IfSome result (λ b. IsWithin b.lo b.hi b.lo) }
    ensures none { IfNone result ((idx : List ℕ) → ¬ IsSharedIndex piece.now out.now.lo out.now.hi part.now.lo part.now.hi idx) }
{
    let mut shared = common(&piece.region, out);
    for axis in 0..part.lo.rank() {
        let way = piece.ways[axis as usize];
        match narrowed(
            &shared,
            &piece.region,
            &way,
            part.lo.at(axis),
            part.hi.at(axis),
        ) {
            Some(less) => shared = less,
            None => return None,
        }
    }
    if is_empty(&shared) {
        None
    } else {
        Some(shared)
    }
}

/// The indices of both regions.
pub(crate) fn common(a: &Region, b: &Region) -> Region
    requires a_rank { length a.now.hi ≡ length a.now.lo }
    requires lo_rank { length b.now.lo ≡ length a.now.lo }
    requires hi_rank { length b.now.hi ≡ length a.now.lo }
    ensures exact { (idx : List ℕ) → IsWithin result.lo result.hi idx ↔ (IsWithin a.now.lo a.now.hi idx × IsWithin b.now.lo b.now.hi idx) }
    ensures lo_rank { length result.lo ≡ length a.now.lo }
    ensures hi_rank { length result.hi ≡ length a.now.lo }
{
    let mut shared = *a;
    for axis in 0..a.lo.rank() {
        shared = cut(&shared, axis, b.lo.at(axis), b.hi.at(axis));
    }
    shared
}

/// The indices of a region that are from `from` to below `to` on an axis.
fn cut(region: &Region, axis: u32, from: u64, to: u64) -> Region
    requires rank { length region.now.hi ≡ length region.now.lo }
    requires axis { axis < length region.now.lo }
    ensures exact { (idx : List ℕ) → IsWithin result.lo result.hi idx ↔ (IsWithin region.now.lo region.now.hi idx × (from ≤ slice_index idx axis) × (slice_index idx axis < to)) }
    ensures lo_rank { length result.lo ≡ length region.now.lo }
    ensures hi_rank { length result.hi ≡ length region.now.lo }
{
    let mut less = *region;
    less.lo.put(axis, region.lo.at(axis).max(from));
    less.hi.put(axis, region.hi.at(axis).min(to));
    less
}

/// The indices of a region in the box of a way at which the way reads an index from `low` to below `high`; none where it reads
/// none such anywhere.
fn narrowed(region: &Region, base: &Region, way: &Way, low: u64, high: u64) -> Option<Region>
    requires rank { length region.now.hi ≡ length region.now.lo }
    requires base_rank { length base.now.hi ≡ length base.now.lo }
    requires same_rank { length region.now.lo ≡ length base.now.lo }
    requires way { IsWayOver base.now.lo base.now.hi way.now }
    requires inside { (idx : List ℕ) → IsWithin region.now.lo region.now.hi idx → IsWithin base.now.lo base.now.hi idx }
    ensures exact { IfSome result (λ b. (idx : List ℕ) → IsWithin b.lo b.hi idx
        ↔ (IsWithin region.now.lo region.now.hi idx × (low ≤ read_by way.now (count_along base.now.lo idx way.now)) × (read_by way.now (count_along base.now.lo idx way.now) < high))) }
    ensures lo_rank { IfSome result (λ b. length b.lo ≡ length region.now.lo) }
    ensures hi_rank { IfSome result (λ b. length b.hi ≡ length region.now.lo) }
    ensures none { IfNone result ((idx : List ℕ) → low ≤ read_by way.now (count_along base.now.lo idx way.now) → ¬ (read_by way.now (count_along base.now.lo idx way.now) < high)) }
{
    match *way {
        Way::Fixed(index) => {
            if low <= index && index < high {
                Some(*region)
            } else {
                None
            }
        }
        Way::Up { axis, .. } => Some(narrowed_on(region, base, way, axis, low, high)),
        Way::Down { axis, .. } => Some(narrowed_on(region, base, way, axis, low, high)),
    }
}

/// The same of a way that goes along an axis.
fn narrowed_on(region: &Region, base: &Region, way: &Way, axis: u32, low: u64, high: u64) -> Region
    requires rank { length region.now.hi ≡ length region.now.lo }
    requires base_rank { length base.now.hi ≡ length base.now.lo }
    requires same_rank { length region.now.lo ≡ length base.now.lo }
    requires axis { axis < length base.now.lo }
    requires way { IsWay (slice_index base.now.hi axis - slice_index base.now.lo axis) way.now }
    requires inside { (idx : List ℕ) → IsWithin region.now.lo region.now.hi idx → IsWithin base.now.lo base.now.hi idx }
    ensures exact { (idx : List ℕ) → IsWithin result.lo result.hi idx
        ↔ (IsWithin region.now.lo region.now.hi idx × (low ≤ read_by way.now (slice_index idx axis - slice_index base.now.lo axis)) × (read_by way.now (slice_index idx axis - slice_index base.now.lo axis) < high)) }
    ensures lo_rank { length result.lo ≡ length region.now.lo }
    ensures hi_rank { length result.hi ≡ length region.now.lo }
{
    let first = base.lo.at(axis);
    let extent = base.hi.at(axis).saturating_sub(first);
    let interval = way.read_within(extent, low, high);
    cut(region, axis, first + interval.from, first + interval.to)
}

/// Whether a region has no index.
pub(crate) fn is_empty(region: &Region) -> bool
    requires rank { length region.now.hi ≡ length region.now.lo }
    ensures none { OnTrue result ((idx : List ℕ) → ¬ IsWithin region.now.lo region.now.hi idx) }
    ensures some { OnFalse result (IsWithin region.now.lo region.now.hi region.now.lo) }
{
    for axis in 0..region.lo.rank() {
        if region.hi.at(axis) <= region.lo.at(axis) {
            return true;
        }
    }
    false
}
