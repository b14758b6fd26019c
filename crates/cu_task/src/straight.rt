//! Regions of a view's result that are a chunk of a source as it stands, or a region of one.
ghost use Rattle.std.specs.Prelude.{◌<◌, ℕ, List, IfSome, length};
ghost use Rattle.std.specs.Bool.{OnTrue};
ghost use Rattle.cu_view.specs.Pieces.{IsShown};
ghost use Rattle.cu_view_box.specs.Piece.{HaveRanks};
ghost use Rattle.cu_task.specs.Straight.{IsShift, IsShifted, IsStraight};
ghost use Rattle.cu_task.specs.Straight.{ReadsFrom, ReadsFromOn};
ghost use Rattle.cu_grid.specs.Counts.{IsRegion};
ghost use Rattle.cu_task.specs.ViewJobs.{source_of_chunk, IsSourceChunk};

use crate::reshapes::is_reshaped_chunk;
use crate::views::{SourceChunk, made_array, source_array};
use cu_grid::Region;
use cu_origin::Pull;
use cu_view::{piece_at, piece_count};
use cu_view_box::{Piece, Way};

/// Whether the region of a reshape's task is a chunk of its source as it stands there, so that the
/// chunk can be read into the region's buffer. It may be false where it is so, as the array's edge
/// cuts the chunk.
pub(crate) fn is_straight(chunk: &SourceChunk<'_>) -> bool
    requires { IsSourceChunk chunk.now }
    ensures { OnTrue result (IsStraight chunk.now) }
{
    let from = source_array(chunk.job, chunk.source);
    let made = made_array(chunk.job);
    if from.layout.dtype != made.layout.dtype {
        return false;
    }
    match chunk.job.pull {
        Pull::Reshape => is_reshaped_chunk(chunk),
        _ => false,
    }
}

/// Whether the elements of the region are those of the chunk's source from the first index of a
/// region of that on. It may be false where it is so: of a view with more axes than its source or
/// fewer, and of a reshape.
pub(crate) fn is_shifted(chunk: &SourceChunk<'_>, part: &Region) -> bool
    requires chunk { IsSourceChunk chunk.now }
    requires part { IsRegion (source_of_chunk chunk.now).layout.grid.shape part.now.lo part.now.hi }
    ensures { OnTrue result (IsShifted chunk.now part.now.lo) }
{
    let job = chunk.job;
    let made = made_array(job);
    let shape = made.layout.grid.shape();
    let number = match own_piece(job.pull, chunk.source) {
        Some(number) => number,
        None => return false,
    };
    if piece_count(job.pull, job.shapes, shape) <= number {
        return false;
    }
    let piece = piece_at(job.pull, job.shapes, shape, number);
    if piece.source != chunk.source {
        return false;
    }
    reads_from(&piece, job.task.region(), part)
}

/// The number of the first piece of a source, if it has any. A triangle's has other elements too.
fn own_piece(pull: &Pull, source: u32) -> Option<u64>
    ensures { IfSome result (λ number. (idx : List ℕ) → IsShown pull.now idx) }
{
    match pull {
        Pull::Triangle { .. } => None,
        Pull::Concat { .. } | Pull::Stack { .. } => Some(u64::from(source)),
        _ => Some(0),
    }
}

/// Whether a piece reads over the region `out` one index after another along each axis, from the
/// first index of `part` on.
fn reads_from(piece: &Piece, out: &Region, part: &Region) -> bool
    requires { HaveRanks piece.now out.now part.now }
    ensures { OnTrue result (ReadsFrom piece.now out.now part.now.lo) }
{
    let rank = out.lo.rank();
    if piece.ways.len() != rank as usize {
        return false;
    }
    for axis in 0..rank {
        if !reads_from_on(piece, out, part.lo.at(axis), axis) {
            return false;
        }
    }
    true
}

/// The same of one axis.
fn reads_from_on(piece: &Piece, out: &Region, first: u64, axis: u32) -> bool
    requires lo { axis < length out.now.lo }
    requires hi { axis < length out.now.hi }
    requires piece_lo { axis < length piece.now.region.lo }
    requires piece_hi { axis < length piece.now.region.hi }
    requires ways { axis < length piece.now.ways.items }
    ensures { OnTrue result (ReadsFromOn piece.now out.now first axis) }
{
    let lo = out.lo.at(axis);
    let hi = out.hi.at(axis);
    let base = piece.region.lo.at(axis);
    let end = piece.region.hi.at(axis);
    if lo < base || end < hi {
        return false;
    }
    let way = piece.ways[axis as usize];
    is_shift(&way, axis, lo - base, hi.saturating_sub(lo), first)
}

/// Whether a way reads one index after another along an axis of the result, for so many counts from
/// `from` on, the first being `first`.
fn is_shift(way: &Way, axis: u32, from: u64, count: u64, first: u64) -> bool
    ensures { OnTrue result (IsShift way.now axis from count first) }
{
    match *way {
        Way::Fixed(index) => count <= 1 && index == first,
        Way::Up {
            axis: along,
            first: start,
            step,
        } => along == axis && step == 1 && from <= first && start == first - from,
        Way::Down { .. } => false,
    }
}
