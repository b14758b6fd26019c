ghost use Rattle.std.specs.Prelude.{◌≡◌, ◌==◌, ◌*◌, ◌<◌, ℕ, List, length, map};
ghost use Rattle.cu_num.specs.Dtype.{size_of};
ghost use Rattle.cu_num.specs.Element.{element_at};
ghost use Rattle.cu_num.specs.declared.layout.Endian.TheVariants.{Little};
ghost use Rattle.cu_shape.specs.Index.{product, place_of, IsInside};
ghost use Rattle.cu_origin.specs.Pull.{has_axis};
ghost use Rattle.cu_reduce.specs.Folds.{fold_of};
ghost use Rattle.cu_reduce.specs.Groups.{groups_of, group_counts, group_indices};
ghost use Rattle.cu_reduce.specs.Kinds.{Accumulates, HasEnough};
ghost use Rattle.cu_reduce.specs.Numbers.{HasNumber};
ghost use Rattle.cu_fold.specs.Reduced.{is_folded};

use crate::levels::{Reduced, levels_of};
use crate::types::{Fold, Places};
use crate::walks::take_part;
use cu_num::{Dtype, FoldKind, size};
use cu_origin::Axes;
use cu_shape::Dims;
use cu_take::fill;

/// The reduction of a region along these axes.
fn reduce(fold: Fold, reduced: Reduced, dims: &Dims, input: &[u8], out: &mut [u8])
    requires types { Accumulates fold.kind fold.from fold.acc }
    requires enough { HasEnough fold.kind (groups_of (is_folded reduced) dims.now) dims.now }
    requires input { length input.now ≡ product dims.now * size_of fold.from }
    requires out { length out.old ≡ product (group_counts (groups_of (is_folded reduced) dims.now) dims.now) * size_of fold.acc }
    ensures { (idx : List ℕ) → IsInside (group_counts (groups_of (is_folded reduced) dims.now) dims.now) idx
        → HasNumber fold.acc out.new (place_of (group_counts (groups_of (is_folded reduced) dims.now) dims.now) idx)
        (fold_of fold.kind (map (λ i. element_at Little fold.from input.now (place_of dims.now i)) (group_indices (groups_of (is_folded reduced) dims.now) dims.now idx))) }
{
    fill(fold.kind, fold.acc, out);
    let levels = levels_of(reduced, dims);
    let count = input.len() / size(fold.from) as usize;
    let places = Places { start: 0, count };
    take_part(
        fold,
        &levels.list[..levels.count],
        count,
        places,
        input,
        out,
    );
}

/// The reduction of a region with these sizes along a set of its axes (Python array API, "Statistical Functions", "Utility Functions").
/// `input` has the region's elements of type `t` in row-major order. `out` gets the results of type `acc` in row-major order of the
/// region with size 1 on each axis that is reduced: an integer type for sums and products, `t` for least and greatest numbers, bool for
/// `Any` and `All`. Each is the exact result, wrapped once. Elements are little-endian. Least and greatest numbers want an element on
/// each axis that is reduced.
pub fn fold_region(
    kind: FoldKind,
    t: Dtype,
    acc: Dtype,
    dims: &Dims,
    axes: Axes,
    input: &[u8],
    out: &mut [u8],
)
    requires types { Accumulates kind t acc }
    requires enough { HasEnough kind (groups_of (has_axis axes) dims.now) dims.now }
    requires input { length input.now ≡ product dims.now * size_of t }
    requires out { length out.old ≡ product (group_counts (groups_of (has_axis axes) dims.now) dims.now) * size_of acc }
    ensures { (idx : List ℕ) → IsInside (group_counts (groups_of (has_axis axes) dims.now) dims.now) idx
        → HasNumber acc out.new (place_of (group_counts (groups_of (has_axis axes) dims.now) dims.now) idx)
        (fold_of kind (map (λ i. element_at Little t input.now (place_of dims.now i)) (group_indices (groups_of (has_axis axes) dims.now) dims.now idx))) }
{
    let fold = Fold { kind, from: t, acc };
    reduce(fold, Reduced::Set(axes), dims, input, out);
}

/// The reduction of partial results along one axis: `input` has the results of parts of an array, of type `acc`, in row-major order,
/// and `out` gets the results of the whole, with size 1 on that axis. Elements are little-endian. Least and greatest numbers want an
/// element on the axis.
pub fn merge_region(
    kind: FoldKind,
    acc: Dtype,
    dims: &Dims,
    axis: u32,
    input: &[u8],
    out: &mut [u8],
)
    requires types { Accumulates kind acc acc }
    requires axis { axis < length dims.now }
    requires enough { HasEnough kind (groups_of (λ d. d == axis) dims.now) dims.now }
    requires input { length input.now ≡ product dims.now * size_of acc }
    requires out { length out.old ≡ product (group_counts (groups_of (λ d. d == axis) dims.now) dims.now) * size_of acc }
    ensures { (idx : List ℕ) → IsInside (group_counts (groups_of (λ d. d == axis) dims.now) dims.now) idx
        → HasNumber acc out.new (place_of (group_counts (groups_of (λ d. d == axis) dims.now) dims.now) idx)
        (fold_of kind (map (λ i. element_at Little acc input.now (place_of dims.now i)) (group_indices (groups_of (λ d. d == axis) dims.now) dims.now idx))) }
{
    let fold = Fold {
        kind,
        from: acc,
        acc,
    };
    reduce(fold, Reduced::One(axis), dims, input, out);
}
