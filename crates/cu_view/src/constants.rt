//! The elements of a result that come from no source.
ghost use Rattle.std.specs.Prelude.{◌≡◌, ℕ, ℤ, List, length};
ghost use Rattle.cu_num.specs.Element.{bytes_at, element_bytes};
ghost use Rattle.cu_grid.specs.Counts.{IsRegion, IsWithin};
ghost use Rattle.cu_origin.specs.Pull.{origin_of};
ghost use Rattle.cu_origin.specs.declared.provenance.Provenance.TheVariants.{Const};
ghost use Rattle.cu_view_box.specs.Block.{buffer_place, IsBlock};
ghost use Rattle.cu_view.specs.View.{IsView};

use crate::fills::{fill, fill_with_terms};
use crate::ones::lay_eye;
use cu_num::Endian;
use cu_origin::Pull;
use cu_shape::Dims;
use cu_view_box::Block;

/// Writes the elements of a block of the result that are numbers of the view itself. The other elements may be anything
/// afterwards, so it comes before any `gather`.
pub fn lay_constants(pull: &Pull, sources: &[Dims], shape: &Dims, to: &Block, output: &mut [u8])
    requires view { IsView pull.now sources.now shape.now }
    requires to_region { IsRegion shape.now to.now.region.lo to.now.region.hi }
    requires to_block { IsBlock to.now output.old }
    ensures laid { (idx : List ℕ) (x : ℤ) → IsWithin to.now.region.lo to.now.region.hi idx → origin_of pull.now sources.now shape.now idx ≡ Const x
        → bytes_at to.now.dtype output.new (buffer_place to.now idx) ≡ element_bytes Endian.Little to.now.dtype x }
    ensures same_length { length output.new ≡ length output.old }
{
    match pull {
        Pull::Full { value } => fill(to.dtype, *value, output),
        Pull::Arange { start, step } => fill_with_terms(
            to.dtype,
            *start,
            *step,
            to.region.lo.at(0),
            output,
        ),
        Pull::Eye { k } => lay_eye(*k, to, output),
        Pull::Triangle { .. } => fill(to.dtype, 0, output),
        // Each element comes from one of the sources.
        Pull::Concat { .. } => {}
        Pull::Slice { .. }
        | Pull::Permute { .. }
        | Pull::Reshape
        | Pull::Stack { .. }
        | Pull::Flip { .. }
        | Pull::Roll { .. }
        | Pull::Broadcast => {}
    }
}
