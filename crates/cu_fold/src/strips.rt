//! Reductions of regions that come in strips: consecutive places in row-major order.
ghost use Rattle.std.specs.Prelude.{◌≡◌, ◌+◌, ◌*◌, ◌^◌, ◌<◌, ◌≤◌, ℕ, ℤ, length};
ghost use Rattle.cu_num.specs.Dtype.{size_of};
ghost use Rattle.cu_num.specs.Element.{element_at};
ghost use Rattle.cu_num.specs.declared.layout.Endian.TheVariants.{Little};
ghost use Rattle.cu_shape.specs.Index.{product};
ghost use Rattle.cu_reduce.specs.Kinds.{Accumulates};
ghost use Rattle.cu_fold.specs.Strips.{result_sizes, HasFoldedTo};

use crate::levels::{Reduced, levels_of};
use crate::types::{Fold, Places, RegionFold};
use crate::walks::take_part;
use cu_take::fill;

/// Writes the results as they are before an element is taken. `out` has the results in row-major order, as that of `fold_region` has.
pub fn begin_fold(fold: &RegionFold, out: &mut [u8])
    requires out { length out.old ≡ product (result_sizes fold.now) * size_of fold.now.acc }
    ensures { (at : ℕ → ℤ) → HasFoldedTo fold.now at 0 out.new }
{
    fill(fold.kind, fold.acc, out);
}

/// Takes a strip of a region into the results in `out`, which have taken the elements of all earlier places: `count` elements, those of
/// the places from `start` on in row-major order. They are the first of `input`, little-endian. A strip begins and ends at any place.
/// Strips one behind the other, from place 0 on to the region's end, make the results of `fold_region` (`strips_law`).
pub fn take_strip(fold: &RegionFold, start: usize, count: usize, input: &[u8], out: &mut [u8])
    requires types { Accumulates fold.now.kind fold.now.from fold.now.acc }
    requires size { product fold.now.dims < 2 ^ 64 }
    requires places { start + count ≤ product fold.now.dims }
    requires input { count * size_of fold.now.from ≤ length input.now }
    requires out { length out.old ≡ product (result_sizes fold.now) * size_of fold.now.acc }
    ensures { (at : ℕ → ℤ) → ((k : ℕ) → k < count → at (start + k) ≡ element_at Little fold.now.from input.now k)
        → HasFoldedTo fold.now at start out.old → HasFoldedTo fold.now at (start + count) out.new }
{
    let own = Fold {
        kind: fold.kind,
        from: fold.from,
        acc: fold.acc,
    };
    let levels = levels_of(Reduced::Set(fold.axes), &fold.dims);
    let whole = fold.dims.product() as usize;
    let places = Places { start, count };
    take_part(own, &levels.list[..levels.count], whole, places, input, out);
}
