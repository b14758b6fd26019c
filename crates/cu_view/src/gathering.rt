//! The elements of a result that come from a block of a source.
ghost use Rattle.std.specs.Prelude.{◌≡◌, ◌<◌, [], ℕ, List, All, length, slice_index_or};
ghost use Rattle.cu_num.specs.Element.{bytes_at, element_at, element_bytes};
ghost use Rattle.cu_grid.specs.Counts.{IsRegion, IsWithin};
ghost use Rattle.cu_origin.specs.Pull.{origin_of};
ghost use Rattle.cu_origin.specs.declared.provenance.Provenance.TheVariants.{From};
ghost use Rattle.cu_view_box.specs.Block.{buffer_place, IsBlock, IsMove, AreSpelled};
ghost use Rattle.cu_view_box.specs.Piece.{HaveRanks, IsSharedIndex, IsWayOver};
ghost use Rattle.cu_view.specs.Gathered.{HasMoved, IsElementKept};
ghost use Rattle.cu_view.specs.Pieces.{HasAxes, IsShown};
ghost use Rattle.cu_view.specs.View.{IsView};

use crate::pieces::{piece_at, piece_count};
use crate::triangles::{TriangleCopying, copy_triangle};
use cu_grid::Region;
use cu_num::Endian;
use cu_origin::Pull;
use cu_shape::Dims;
use cu_view_box::{Block, Piece, copy_box, reshape_gather, shared_box};

/// Moves the elements of a block of the result that come from a block of a source, each as the number that it is, and leaves the
/// others as they are.
pub fn gather(
    pull: &Pull,
    sources: &[Dims],
    shape: &Dims,
    source: u32,
    from: &Block,
    bytes: &[u8],
    to: &Block,
    output: &mut [u8],
)
    requires view { IsView pull.now sources.now shape.now }
    requires source { source < length sources.now }
    requires from_region { IsRegion (slice_index_or sources.now source []) from.now.region.lo from.now.region.hi }
    requires to_region { IsRegion shape.now to.now.region.lo to.now.region.hi }
    requires from_block { IsBlock from.now bytes.now }
    requires to_block { IsBlock to.now output.old }
    requires spelled { from.now.dtype ≡ to.now.dtype → AreSpelled from.now.dtype bytes.now }
    ensures moved { (idx i : List ℕ) → IsWithin to.now.region.lo to.now.region.hi idx → origin_of pull.now sources.now shape.now idx ≡ From source i
        → IsWithin from.now.region.lo from.now.region.hi i
        → bytes_at to.now.dtype output.new (buffer_place to.now idx) ≡ element_bytes Endian.Little to.now.dtype (element_at Endian.Little from.now.dtype bytes.now (buffer_place from.now i)) }
    ensures others { (idx : List ℕ) → IsWithin to.now.region.lo to.now.region.hi idx
        → ((i : List ℕ) → origin_of pull.now sources.now shape.now idx ≡ From source i → ¬ IsWithin from.now.region.lo from.now.region.hi i)
        → bytes_at to.now.dtype output.new (buffer_place to.now idx) ≡ bytes_at to.now.dtype output.old (buffer_place to.now idx) }
    ensures same_length { length output.new ≡ length output.old }
{
    match pull {
        Pull::Reshape => reshape_gather(&sources[0], shape, from, bytes, to, output),
        _ => {
            for number in 0..piece_count(pull, sources, shape) {
                let piece = piece_at(pull, sources, shape, number);
                gather_piece(pull, &piece, source, from, bytes, to, output);
            }
        }
    }
}

/// The same of one piece of a view that is parted into pieces.
fn gather_piece(
    pull: &Pull,
    piece: &Piece,
    source: u32,
    from: &Block,
    bytes: &[u8],
    to: &Block,
    output: &mut [u8],
)
    requires ranks { piece.now.source ≡ source → HaveRanks piece.now to.now.region from.now.region }
    requires ways { All (IsWayOver piece.now.region.lo piece.now.region.hi) piece.now.ways.items }
    requires axes { HasAxes pull.now (length piece.now.region.lo) }
    requires from_block { IsBlock from.now bytes.now }
    requires to_block { IsBlock to.now output.old }
    requires spelled { from.now.dtype ≡ to.now.dtype → AreSpelled from.now.dtype bytes.now }
    ensures moved { (idx : List ℕ) → piece.now.source ≡ source → IsSharedIndex piece.now to.now.region.lo to.now.region.hi from.now.region.lo from.now.region.hi idx → IsShown pull.now idx
        → HasMoved piece.now from.now bytes.now to.now output.new idx }
    ensures others { (idx : List ℕ) → IsWithin to.now.region.lo to.now.region.hi idx
        → (piece.now.source ≡ source → IsSharedIndex piece.now to.now.region.lo to.now.region.hi from.now.region.lo from.now.region.hi idx → ¬ IsShown pull.now idx)
        → IsElementKept to.now output.old output.new idx }
{
    if piece.source != source {
        return;
    }
    match shared_box(piece, &to.region, &from.region) {
        Some(shared) => copy_shown(pull, piece, &shared, from, bytes, to, output),
        None => {}
    }
}

/// Copies the elements of a part of a piece, but for those outside a triangle.
fn copy_shown(
    pull: &Pull,
    piece: &Piece,
    shared: &Region,
    from: &Block,
    bytes: &[u8],
    to: &Block,
    output: &mut [u8],
)
    requires moves { IsMove piece.now shared.now from.now to.now }
    requires axes { HasAxes pull.now (length shared.now.lo) }
    requires from_block { IsBlock from.now bytes.now }
    requires to_block { IsBlock to.now output.old }
    requires spelled { from.now.dtype ≡ to.now.dtype → AreSpelled from.now.dtype bytes.now }
    ensures moved { (idx : List ℕ) → IsWithin shared.now.lo shared.now.hi idx → IsShown pull.now idx → HasMoved piece.now from.now bytes.now to.now output.new idx }
    ensures others { (idx : List ℕ) → IsWithin to.now.region.lo to.now.region.hi idx → (IsWithin shared.now.lo shared.now.hi idx → ¬ IsShown pull.now idx)
        → IsElementKept to.now output.old output.new idx }
{
    match pull {
        Pull::Triangle { lower, k } => {
            let copying = TriangleCopying {
                piece,
                from,
                bytes,
                to,
            };
            copy_triangle(*lower, *k, &copying, shared, output)
        }
        _ => copy_box(piece, shared, from, bytes, to, output),
    }
}
