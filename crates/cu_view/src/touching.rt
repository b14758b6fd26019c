//! Whether a part of a source matters for a region of the result.
ghost use Rattle.std.specs.Prelude.{◌≡◌, ◌≢◌, ◌<◌, ◌≤◌, ◌-◌, [], ℕ, List, All, IsTrue, length, slice_index, slice_index_or, slice_set, if◌then◌else◌};
ghost use Rattle.cu_grid.specs.Counts.{IsRegion, IsWithin};
ghost use Rattle.cu_origin.specs.Pull.{origin_of};
ghost use Rattle.cu_origin.specs.declared.provenance.Provenance.TheVariants.{From};
ghost use Rattle.cu_origin.specs.declared.pull.Pull.TheVariants.{Reshape};
ghost use Rattle.cu_view_box.specs.Reshape.{MeetsRun};
ghost use Rattle.cu_view_box.specs.Piece.{HaveRanks, IsSharedIndex, IsWayOver};
ghost use Rattle.cu_view.specs.Pieces.{HasAxes, IsShown};
ghost use Rattle.cu_view.specs.View.{IsView};

use crate::origins::is_in_triangle;
use crate::pieces::{piece_at, piece_count};
use cu_grid::Region;
use cu_origin::Pull;
use cu_shape::Dims;
use cu_view_box::{Piece, reshape_touches, shared_box};

/// Whether an element of the region `out` of the result comes from the region `part` of a source. Of a reshape it may be true
/// where none does: only where the part has an index between those from which two elements of a run of `out` come, whose elements stand
/// together in row-major order.
pub fn touches_of(
    pull: &Pull,
    sources: &[Dims],
    shape: &Dims,
    source: u32,
    out: &Region,
    part: &Region,
) -> bool
    requires view { IsView pull.now sources.now shape.now }
    requires source { source < length sources.now }
    requires out { IsRegion shape.now out.now.lo out.now.hi }
    requires part { IsRegion (slice_index_or sources.now source []) part.now.lo part.now.hi }
    ensures some { (idx i : List ℕ) → IsWithin out.now.lo out.now.hi idx → origin_of pull.now sources.now shape.now idx ≡ From source i
        → IsWithin part.now.lo part.now.hi i → IsTrue result }
    ensures only { pull.now ≢ Reshape → IsTrue result → (idx : List ℕ) × (i : List ℕ) × IsWithin out.now.lo out.now.hi idx
        × (origin_of pull.now sources.now shape.now idx ≡ From source i) × IsWithin part.now.lo part.now.hi i }
    ensures rows { pull.now ≡ Reshape → IsTrue result → MeetsRun (slice_index_or sources.now source []) shape.now out.now part.now }
{
    if let Pull::Reshape = pull {
        return reshape_touches(&sources[0], shape, out, part);
    }
    for number in 0..piece_count(pull, sources, shape) {
        let piece = piece_at(pull, sources, shape, number);
        if piece_touches(pull, &piece, source, out, part) {
            return true;
        }
    }
    false
}

/// The same of one piece.
fn piece_touches(pull: &Pull, piece: &Piece, source: u32, out: &Region, part: &Region) -> bool
    requires ranks { piece.now.source ≡ source → HaveRanks piece.now out.now part.now }
    requires ways { All (IsWayOver piece.now.region.lo piece.now.region.hi) piece.now.ways.items }
    requires axes { HasAxes pull.now (length piece.now.region.lo) }
    ensures some { (idx : List ℕ) → piece.now.source ≡ source → IsSharedIndex piece.now out.now.lo out.now.hi part.now.lo part.now.hi idx → IsShown pull.now idx → IsTrue result }
    ensures only { IsTrue result → (piece.now.source ≡ source) × ((idx : List ℕ) × IsSharedIndex piece.now out.now.lo out.now.hi part.now.lo part.now.hi idx × IsShown pull.now idx) }
{
    if piece.source != source {
        return false;
    }
    match shared_box(piece, out, part) {
        Some(shared) => is_shown_in(pull, &shared),
        None => false,
    }
}

/// Whether an element of a box that isn't empty is a source's, and not the 0 outside a triangle. The box has one where its corner
/// has that lies furthest to the triangle's side.
fn is_shown_in(pull: &Pull, shared: &Region) -> bool
    requires some { IsWithin shared.now.lo shared.now.hi shared.now.lo }
    requires axes { HasAxes pull.now (length shared.now.lo) }
    ensures some { (idx : List ℕ) → IsWithin shared.now.lo shared.now.hi idx → IsShown pull.now idx → IsTrue result }
    ensures only { IsTrue result → (idx : List ℕ) × IsWithin shared.now.lo shared.now.hi idx × IsShown pull.now idx }
{
    match pull {
        Pull::Triangle { lower, k } => {
            let axis = furthest_axis(*lower, shared.lo.rank());
            is_in_triangle(*lower, *k, &corner_of(axis, shared))
        }
        _ => true,
    }
}

/// The axis along which a box's last index lies furthest to the triangle's side.
fn furthest_axis(lower: bool, rank: u32) -> u32
    requires { 2 ≤ rank }
    ensures { result ≡ (if lower then rank - 2 else rank - 1) }
{
    if lower { rank - 2 } else { rank - 1 }
}

/// The corner of a box that has its last index on one axis and its first on the others.
fn corner_of(axis: u32, shared: &Region) -> Dims
    requires some { IsWithin shared.now.lo shared.now.hi shared.now.lo }
    requires axis { axis < length shared.now.lo }
    ensures value { result ≡ slice_set shared.now.lo axis (slice_index shared.now.hi axis - 1) }
    ensures within { IsWithin shared.now.lo shared.now.hi result }
{
    let mut corner = shared.lo;
    corner.put(axis, shared.hi.at(axis) - 1);
    corner
}
