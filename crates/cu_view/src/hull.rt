//! The part of a source that a region of the result may read.
ghost use Rattle.std.specs.Prelude.{◌≡◌, ◌<◌, [], ℕ, List, All, IfSome, length, slice_index_or};
ghost use Rattle.std.specs.Option.{IfNone};
ghost use Rattle.cu_grid.specs.Counts.{IsRegion, IsWithin};
ghost use Rattle.cu_origin.specs.Pull.{origin_of};
ghost use Rattle.cu_origin.specs.declared.provenance.Provenance.TheVariants.{From};
ghost use Rattle.cu_shape.specs.Index.{IsInside};
ghost use Rattle.cu_view_box.specs.Piece.{read_at, HaveRanks, IsWayOver};
ghost use Rattle.cu_view.specs.Hull.{HoldsIndex};
ghost use Rattle.cu_view.specs.View.{IsView};

use crate::boxes::whole;
use crate::pieces::{piece_at, piece_count};
use cu_grid::Region;
use cu_origin::Pull;
use cu_shape::Dims;
use cu_view_box::{Piece, read_hull, reshape_hull, shared_box};

/// A region of a source with each index from which an element of the region `out` of the result comes, or none where no
/// element of it comes from that source.
pub fn hull_of(
    pull: &Pull,
    sources: &[Dims],
    shape: &Dims,
    source: u32,
    out: &Region,
) -> Option<Region>
    requires view { IsView pull.now sources.now shape.now }
    requires source { source < length sources.now }
    requires out { IsRegion shape.now out.now.lo out.now.hi }
    ensures region { IfSome result (λ r. IsRegion (slice_index_or sources.now source []) r.lo r.hi) }
    ensures holds { IfSome result (λ r. (idx i : List ℕ) → IsWithin out.now.lo out.now.hi idx → origin_of pull.now sources.now shape.now idx ≡ From source i
        → IsWithin r.lo r.hi i) }
    ensures none { IfNone result ((idx i : List ℕ) → IsWithin out.now.lo out.now.hi idx → ¬ (origin_of pull.now sources.now shape.now idx ≡ From source i)) }
{
    if let Pull::Reshape = pull {
        return reshape_hull(&sources[0], shape, out);
    }
    let mut hull = None;
    for number in 0..piece_count(pull, sources, shape) {
        let piece = piece_at(pull, sources, shape, number);
        hull = joined(
            hull,
            piece_hull(&piece, source, out, &sources[source as usize]),
            &sources[source as usize],
        );
    }
    hull
}

/// The same of one piece.
fn piece_hull(piece: &Piece, source: u32, out: &Region, shape: &Dims) -> Option<Region>
    requires ranks { piece.now.source ≡ source → HaveRanks piece.now out.now (record { lo = shape.now; hi = shape.now }) }
    requires ways { All (IsWayOver piece.now.region.lo piece.now.region.hi) piece.now.ways.items }
    requires inside { (idx : List ℕ) → piece.now.source ≡ source → IsWithin piece.now.region.lo piece.now.region.hi idx → IsInside shape.now (read_at piece.now idx) }
    ensures region { IfSome result (λ r. IsRegion shape.now r.lo r.hi) }
    ensures covers { (idx : List ℕ) → piece.now.source ≡ source → IsWithin piece.now.region.lo piece.now.region.hi idx → IsWithin out.now.lo out.now.hi idx → HoldsIndex result (read_at piece.now idx) }
{
    if piece.source != source {
        return None;
    }
    match shared_box(piece, out, &whole(shape)) {
        Some(shared) => Some(read_hull(piece, &shared, shape)),
        None => None,
    }
}

/// A region that holds what each of two does.
fn joined(a: Option<Region>, b: Option<Region>, shape: &Dims) -> Option<Region>
    requires a { IfSome a (λ r. IsRegion shape.now r.lo r.hi) }
    requires b { IfSome b (λ r. IsRegion shape.now r.lo r.hi) }
    ensures region { IfSome result (λ r. IsRegion shape.now r.lo r.hi) }
    ensures first { (idx : List ℕ) → HoldsIndex a idx → HoldsIndex result idx }
    ensures second { (idx : List ℕ) → HoldsIndex b idx → HoldsIndex result idx }
{
    match a {
        None => b,
        Some(first) => match b {
            None => Some(first),
            Some(second) => Some(hull_of_two(&first, &second, shape)),
        },
    }
}

/// The least region that holds two regions of an array.
fn hull_of_two(a: &Region, b: &Region, shape: &Dims) -> Region
    requires a { IsRegion shape.now a.now.lo a.now.hi }
    requires b { IsRegion shape.now b.now.lo b.now.hi }
    ensures region { IsRegion shape.now result.lo result.hi }
    ensures first { (idx : List ℕ) → IsWithin a.now.lo a.now.hi idx → IsWithin result.lo result.hi idx }
    ensures second { (idx : List ℕ) → IsWithin b.now.lo b.now.hi idx → IsWithin result.lo result.hi idx }
{
    let mut hull = *a;
    for axis in 0..shape.rank() {
        hull.lo.put(axis, a.lo.at(axis).min(b.lo.at(axis)));
        hull.hi.put(axis, a.hi.at(axis).max(b.hi.at(axis)));
    }
    hull
}
