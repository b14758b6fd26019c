//! Grouped reductions with loops for each pair of types.
ghost use Rattle.std.specs.Prelude.{◌*◌, ◌≤◌, ◌<◌, length};
ghost use Rattle.cu_num.specs.Dtype.{size_of};
ghost use Rattle.cu_num.specs.Element.{element_at};
ghost use Rattle.cu_num.specs.declared.layout.Endian.TheVariants.{Little};
ghost use Rattle.cu_reduce.specs.Kinds.{Accumulates};
ghost use Rattle.cu_group.specs.Regions.{label_in, HasGroups};

use crate::blocks::group_blocks;
use crate::by_type::call_by_type;
use crate::rows::Sizes;
use cu_num::{Dtype, FoldKind};

/// With loops for each type of the elements. The types stand in this function itself: where they
/// stood in one that it inlines, that became too large, was built apart, and its loops with it.
#[inline(never)]
fn sum_signed(t: Dtype, label_t: Dtype, sizes: Sizes, input: &[u8], labels: &[u8], out: &mut [u8])
    requires types { Accumulates FoldKind.Sum t Dtype.Int64 }
    requires inner { 0 < sizes.inner }
    requires input { sizes.outer * sizes.count * sizes.inner * size_of t ≤ length input.now }
    requires labels { sizes.count * size_of label_t ≤ length labels.now }
    requires out { sizes.outer * sizes.groups * sizes.inner * size_of Dtype.Int64 ≤ length out.old }
    ensures { HasGroups FoldKind.Sum Dtype.Int64 sizes (label_in label_t labels.now)
        (λ p. element_at Little t input.now p) out.new }
{
    call_by_type!(
        group_blocks,
        [FoldKind::Sum],
        t,
        [Dtype::Int64, label_t, sizes, input, labels, out]
    );
}

/// `sum_signed`, of results of the other type.
#[inline(never)]
fn sum_unsigned(t: Dtype, label_t: Dtype, sizes: Sizes, input: &[u8], labels: &[u8], out: &mut [u8])
    requires types { Accumulates FoldKind.Sum t Dtype.Uint64 }
    requires inner { 0 < sizes.inner }
    requires input { sizes.outer * sizes.count * sizes.inner * size_of t ≤ length input.now }
    requires labels { sizes.count * size_of label_t ≤ length labels.now }
    requires out { sizes.outer * sizes.groups * sizes.inner * size_of Dtype.Uint64
        ≤ length out.old }
    ensures { HasGroups FoldKind.Sum Dtype.Uint64 sizes (label_in label_t labels.now)
        (λ p. element_at Little t input.now p) out.new }
{
    call_by_type!(
        group_blocks,
        [FoldKind::Sum],
        t,
        [Dtype::Uint64, label_t, sizes, input, labels, out]
    );
}

/// Least numbers, whose results have the type of the elements.
#[inline(always)]
fn least_of_type(
    t: Dtype,
    label_t: Dtype,
    sizes: Sizes,
    input: &[u8],
    labels: &[u8],
    out: &mut [u8],
)
    requires types { Accumulates FoldKind.Min t t }
    requires inner { 0 < sizes.inner }
    requires input { sizes.outer * sizes.count * sizes.inner * size_of t ≤ length input.now }
    requires labels { sizes.count * size_of label_t ≤ length labels.now }
    requires out { sizes.outer * sizes.groups * sizes.inner * size_of t ≤ length out.old }
    ensures { HasGroups FoldKind.Min t sizes (label_in label_t labels.now)
        (λ p. element_at Little t input.now p) out.new }
{
    group_blocks(FoldKind::Min, t, t, label_t, sizes, input, labels, out);
}

/// Least numbers, with loops for each type.
#[inline(never)]
fn least(t: Dtype, label_t: Dtype, sizes: Sizes, input: &[u8], labels: &[u8], out: &mut [u8])
    requires types { Accumulates FoldKind.Min t t }
    requires inner { 0 < sizes.inner }
    requires input { sizes.outer * sizes.count * sizes.inner * size_of t ≤ length input.now }
    requires labels { sizes.count * size_of label_t ≤ length labels.now }
    requires out { sizes.outer * sizes.groups * sizes.inner * size_of t ≤ length out.old }
    ensures { HasGroups FoldKind.Min t sizes (label_in label_t labels.now)
        (λ p. element_at Little t input.now p) out.new }
{
    call_by_type!(least_of_type, [], t, [label_t, sizes, input, labels, out]);
}

/// The grouped reduction of blocks of rows, with loops for each pair of types that sums and least
/// numbers have.
pub(crate) fn group_rows(
    kind: FoldKind,
    t: Dtype,
    acc: Dtype,
    label_t: Dtype,
    sizes: Sizes,
    input: &[u8],
    labels: &[u8],
    out: &mut [u8],
)
    requires types { Accumulates kind t acc }
    requires inner { 0 < sizes.inner }
    requires input { sizes.outer * sizes.count * sizes.inner * size_of t ≤ length input.now }
    requires labels { sizes.count * size_of label_t ≤ length labels.now }
    requires out { sizes.outer * sizes.groups * sizes.inner * size_of acc ≤ length out.old }
    ensures { HasGroups kind acc sizes (label_in label_t labels.now)
        (λ p. element_at Little t input.now p) out.new }
{
    match (kind, acc) {
        (FoldKind::Sum, Dtype::Int64) => sum_signed(t, label_t, sizes, input, labels, out),
        (FoldKind::Sum, Dtype::Uint64) => sum_unsigned(t, label_t, sizes, input, labels, out),
        (FoldKind::Min, _) => least(t, label_t, sizes, input, labels, out),
        _ => group_blocks(kind, t, acc, label_t, sizes, input, labels, out),
    }
}
