//! Rows of elements taken into the rows of their groups.
ghost use Rattle.std.specs.Prelude.{◌≡◌, ◌==◌, ◌+◌, ◌*◌, ◌≤◌, ◌<◌, ℕ, length};
ghost use Rattle.cu_num.specs.Dtype.{size_of};
ghost use Rattle.cu_num.specs.Element.{bytes_at};
ghost use Rattle.cu_reduce.specs.Kinds.{Accumulates};
ghost use Rattle.cu_reduce.specs.Labels.{is_label};
ghost use Rattle.cu_take.specs.Taken.{HasTaken, IsOutside, elements_at_places};
ghost use Rattle.cu_group.specs.Regions.{label_in, row_sources};

use cu_num::{Dtype, FoldKind, load};
use cu_take::{RowBlock, take_rows};

/// How many blocks of rows a region has, how many rows a block has in the region and in the result,
/// and how many elements each row has.
#[derive(Clone, Copy)]
pub(crate) struct Sizes {
    pub(crate) outer: usize,
    pub(crate) count: usize,
    pub(crate) groups: usize,
    pub(crate) inner: usize,
}

/// The number of the group that has this label, or the number of groups where none has it.
#[inline(always)]
fn group_of(label: i128, groups: usize) -> usize
    ensures inside { result ≤ groups }
    ensures own { (q : ℕ) → q < groups → is_label q label ≡ (q == result) }
{
    if label >= 0 && label < groups as i128 {
        label as usize
    } else {
        groups
    }
}

/// The end of the rows from row `k` on that have its label, one behind another, of `count` rows;
/// where runs aren't asked for, it is that of row `k` alone.
#[inline(always)]
fn end_of_run(runs: bool, label_t: Dtype, labels: &[u8], k: usize, count: usize) -> usize
    requires row { k < count }
    requires labels { count * size_of label_t ≤ length labels.now }
    ensures some { k < result }
    ensures within { result ≤ count }
    ensures same { (i : ℕ) → k ≤ i → i < result
        → label_in label_t labels.now i ≡ label_in label_t labels.now k }
{
    if !runs {
        return k + 1;
    }
    let own = load(label_t, labels, k);
    for next in k + 1..count {
        if load(label_t, labels, next) != own {
            return next;
        }
    }
    count
}

/// Takes the rows of a block, a run of equal labels at a time, or row by row.
#[inline(always)]
fn take_by_runs(
    runs: bool,
    kind: FoldKind,
    from: Dtype,
    acc: Dtype,
    label_t: Dtype,
    sizes: Sizes,
    input: &[u8],
    first: usize,
    labels: &[u8],
    out: &mut [u8],
    base: usize,
)
    requires types { Accumulates kind from acc }
    requires inner { 0 < sizes.inner }
    requires input { (first + sizes.count) * sizes.inner * size_of from ≤ length input.now }
    requires labels { sizes.count * size_of label_t ≤ length labels.now }
    requires out { (base + sizes.groups) * sizes.inner * size_of acc ≤ length out.old }
    ensures takes { (q j : ℕ) → q < sizes.groups → j < sizes.inner
        → HasTaken kind acc out.old out.new ((base + q) * sizes.inner + j)
        (elements_at_places from input.now (row_sources
        (label_in label_t labels.now) sizes.inner first sizes.count q j)) }
    ensures others { (p : ℕ) → IsOutside (base * sizes.inner)
        ((base + sizes.groups) * sizes.inner) p
        → bytes_at acc out.new p ≡ bytes_at acc out.old p }
{
    let mut k = 0;
    while k < sizes.count {
        let row = group_of(load(label_t, labels, k), sizes.groups);
        let end = end_of_run(runs, label_t, labels, k, sizes.count);
        if row < sizes.groups {
            let rows = RowBlock {
                count: end - k,
                width: sizes.inner,
            };
            take_rows(
                kind,
                from,
                acc,
                rows,
                input,
                (first + k) * sizes.inner,
                out,
                (base + row) * sizes.inner,
            );
        }
        k = end;
    }
}

/// Takes the rows of a block, from row `first` on, each into the row of its group: the groups' rows
/// are those from row `base` of `out` on. Rows of few elements go one by one, since a look for
/// equal labels costs more there than it saves.
#[inline(always)]
pub(crate) fn take_block(
    kind: FoldKind,
    from: Dtype,
    acc: Dtype,
    label_t: Dtype,
    sizes: Sizes,
    input: &[u8],
    first: usize,
    labels: &[u8],
    out: &mut [u8],
    base: usize,
)
    requires types { Accumulates kind from acc }
    requires inner { 0 < sizes.inner }
    requires input { (first + sizes.count) * sizes.inner * size_of from ≤ length input.now }
    requires labels { sizes.count * size_of label_t ≤ length labels.now }
    requires out { (base + sizes.groups) * sizes.inner * size_of acc ≤ length out.old }
    ensures takes { (q j : ℕ) → q < sizes.groups → j < sizes.inner
        → HasTaken kind acc out.old out.new ((base + q) * sizes.inner + j)
        (elements_at_places from input.now (row_sources
        (label_in label_t labels.now) sizes.inner first sizes.count q j)) }
    ensures others { (p : ℕ) → IsOutside (base * sizes.inner)
        ((base + sizes.groups) * sizes.inner) p
        → bytes_at acc out.new p ≡ bytes_at acc out.old p }
{
    if sizes.inner < 16 {
        take_by_runs(
            false, kind, from, acc, label_t, sizes, input, first, labels, out, base,
        );
    } else {
        take_by_runs(
            true, kind, from, acc, label_t, sizes, input, first, labels, out, base,
        );
    }
}
