//! Blocks of rows taken into the rows of their groups.
ghost use Rattle.std.specs.Prelude.{◌+◌, ◌*◌, ◌≤◌, ◌<◌, ℕ, length};
ghost use Rattle.cu_num.specs.Dtype.{size_of};
ghost use Rattle.cu_num.specs.Element.{element_at};
ghost use Rattle.cu_num.specs.declared.layout.Endian.TheVariants.{Little};
ghost use Rattle.cu_reduce.specs.Kinds.{Accumulates};
ghost use Rattle.cu_take.specs.Taken.{HasTaken, elements_at_places};
ghost use Rattle.cu_group.specs.Regions.{label_in, row_sources, HasGroups};

use crate::rows::{Sizes, take_block};
use cu_num::{Dtype, FoldKind};
use cu_take::fill;

/// Takes the rows of all blocks into the rows of their groups.
#[inline(always)]
fn take_blocks(
    kind: FoldKind,
    from: Dtype,
    acc: Dtype,
    label_t: Dtype,
    sizes: Sizes,
    input: &[u8],
    labels: &[u8],
    out: &mut [u8],
)
    requires types { Accumulates kind from acc }
    requires inner { 0 < sizes.inner }
    requires input { sizes.outer * sizes.count * sizes.inner * size_of from ≤ length input.now }
    requires labels { sizes.count * size_of label_t ≤ length labels.now }
    requires out { sizes.outer * sizes.groups * sizes.inner * size_of acc ≤ length out.old }
    ensures { (o q j : ℕ) → o < sizes.outer → q < sizes.groups → j < sizes.inner
        → HasTaken kind acc out.old out.new ((o * sizes.groups + q) * sizes.inner + j)
        (elements_at_places from input.now (row_sources (label_in label_t labels.now) sizes.inner
        (o * sizes.count) sizes.count q j)) }
{
    for o in 0..sizes.outer {
        take_block(
            kind,
            from,
            acc,
            label_t,
            sizes,
            input,
            o * sizes.count,
            labels,
            out,
            o * sizes.groups,
        );
    }
}

/// The grouped reduction of blocks of rows: of each block, row q of the result is made of the rows
/// whose label is q.
#[inline(always)]
pub(crate) fn group_blocks(
    kind: FoldKind,
    t: Dtype,
    acc: Dtype,
    label_t: Dtype,
    sizes: Sizes,
    input: &[u8],
    labels: &[u8],
    out: &mut [u8],
)
    requires types { Accumulates kind t acc }
    requires inner { 0 < sizes.inner }
    requires input { sizes.outer * sizes.count * sizes.inner * size_of t ≤ length input.now }
    requires labels { sizes.count * size_of label_t ≤ length labels.now }
    requires out { sizes.outer * sizes.groups * sizes.inner * size_of acc ≤ length out.old }
    ensures { HasGroups kind acc sizes (label_in label_t labels.now)
        (λ p. element_at Little t input.now p) out.new }
{
    fill(kind, acc, out);
    take_blocks(kind, t, acc, label_t, sizes, input, labels, out);
}
