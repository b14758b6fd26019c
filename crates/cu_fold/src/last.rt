//! The last level of a region, or its last two, with loops for each kind and pair of types.
ghost use Rattle.std.specs.Prelude.{◌≡◌, ◌*◌, ◌≤◌, length};
ghost use Rattle.cu_num.specs.Dtype.{size_of};
ghost use Rattle.cu_reduce.specs.Kinds.{Accumulates};
ghost use Rattle.cu_fold.specs.Levels.{extent, results, leaf_levels};
ghost use Rattle.cu_fold.specs.Taken.{TakesAll};

use crate::by_type::{call_by_type, call_of_one_type};
use crate::leaves::{take_row, take_run, take_runs};
use crate::levels::Leaf;
use crate::truths::take_any;
use crate::types::Fold;
use cu_num::{Dtype, FoldKind};
use cu_take::{RowBlock, take_rows};

/// Takes the elements of a region of these levels into its results.
pub(crate) fn take_last(fold: Fold, leaf: Leaf, input: &[u8], out: &mut [u8])
    requires types { Accumulates fold.kind fold.from fold.acc }
    requires input { extent (leaf_levels leaf) * size_of fold.from ≤ length input.now }
    requires out { length out.old ≡ results (leaf_levels leaf) * size_of fold.acc }
    ensures { TakesAll fold (leaf_levels leaf) input.now out.old out.new }
{
    match fold.kind {
        FoldKind::Sum => sum(fold.from, fold.acc, leaf, input, out),
        FoldKind::Prod => prod(fold.from, fold.acc, leaf, input, out),
        FoldKind::Min => min(fold.from, fold.acc, leaf, input, out),
        FoldKind::Max => max(fold.from, fold.acc, leaf, input, out),
        FoldKind::Any => any(fold.from, leaf, input, out),
        FoldKind::All => all(fold.from, leaf, input, out),
    }
}

fn sum(from: Dtype, acc: Dtype, leaf: Leaf, input: &[u8], out: &mut [u8])
    requires types { Accumulates FoldKind.Sum from acc }
    requires input { extent (leaf_levels leaf) * size_of from ≤ length input.now }
    requires out { length out.old ≡ results (leaf_levels leaf) * size_of acc }
    ensures { TakesAll (record { kind = FoldKind.Sum; from = from; acc = acc }) (leaf_levels leaf) input.now out.old out.new }
{
    match acc {
        Dtype::Int64 => sum_signed(from, leaf, input, out),
        Dtype::Uint64 => sum_unsigned(from, leaf, input, out),
        _ => sum_narrow(from, acc, leaf, input, out),
    }
}

#[inline(never)]
fn sum_signed(from: Dtype, leaf: Leaf, input: &[u8], out: &mut [u8])
    requires input { extent (leaf_levels leaf) * size_of from ≤ length input.now }
    requires out { length out.old ≡ results (leaf_levels leaf) * size_of Dtype.Int64 }
    ensures { TakesAll (record { kind = FoldKind.Sum; from = from; acc = Dtype.Int64 }) (leaf_levels leaf) input.now out.old out.new }
{
    call_by_type!(
        by_leaf,
        [FoldKind::Sum],
        from,
        [Dtype::Int64, leaf, input, out]
    );
}

#[inline(never)]
fn sum_unsigned(from: Dtype, leaf: Leaf, input: &[u8], out: &mut [u8])
    requires input { extent (leaf_levels leaf) * size_of from ≤ length input.now }
    requires out { length out.old ≡ results (leaf_levels leaf) * size_of Dtype.Uint64 }
    ensures { TakesAll (record { kind = FoldKind.Sum; from = from; acc = Dtype.Uint64 }) (leaf_levels leaf) input.now out.old out.new }
{
    call_by_type!(
        by_leaf,
        [FoldKind::Sum],
        from,
        [Dtype::Uint64, leaf, input, out]
    );
}

#[inline(never)]
fn sum_narrow(from: Dtype, acc: Dtype, leaf: Leaf, input: &[u8], out: &mut [u8])
    requires types { Accumulates FoldKind.Sum from acc }
    requires input { extent (leaf_levels leaf) * size_of from ≤ length input.now }
    requires out { length out.old ≡ results (leaf_levels leaf) * size_of acc }
    ensures { TakesAll (record { kind = FoldKind.Sum; from = from; acc = acc }) (leaf_levels leaf) input.now out.old out.new }
{
    call_of_one_type!(by_leaf, FoldKind::Sum, from, acc, [leaf, input, out]);
}

fn prod(from: Dtype, acc: Dtype, leaf: Leaf, input: &[u8], out: &mut [u8])
    requires types { Accumulates FoldKind.Prod from acc }
    requires input { extent (leaf_levels leaf) * size_of from ≤ length input.now }
    requires out { length out.old ≡ results (leaf_levels leaf) * size_of acc }
    ensures { TakesAll (record { kind = FoldKind.Prod; from = from; acc = acc }) (leaf_levels leaf) input.now out.old out.new }
{
    match acc {
        Dtype::Int64 => prod_signed(from, leaf, input, out),
        Dtype::Uint64 => prod_unsigned(from, leaf, input, out),
        _ => prod_narrow(from, acc, leaf, input, out),
    }
}

#[inline(never)]
fn prod_signed(from: Dtype, leaf: Leaf, input: &[u8], out: &mut [u8])
    requires input { extent (leaf_levels leaf) * size_of from ≤ length input.now }
    requires out { length out.old ≡ results (leaf_levels leaf) * size_of Dtype.Int64 }
    ensures { TakesAll (record { kind = FoldKind.Prod; from = from; acc = Dtype.Int64 }) (leaf_levels leaf) input.now out.old out.new }
{
    call_by_type!(
        by_leaf,
        [FoldKind::Prod],
        from,
        [Dtype::Int64, leaf, input, out]
    );
}

#[inline(never)]
fn prod_unsigned(from: Dtype, leaf: Leaf, input: &[u8], out: &mut [u8])
    requires input { extent (leaf_levels leaf) * size_of from ≤ length input.now }
    requires out { length out.old ≡ results (leaf_levels leaf) * size_of Dtype.Uint64 }
    ensures { TakesAll (record { kind = FoldKind.Prod; from = from; acc = Dtype.Uint64 }) (leaf_levels leaf) input.now out.old out.new }
{
    call_by_type!(
        by_leaf,
        [FoldKind::Prod],
        from,
        [Dtype::Uint64, leaf, input, out]
    );
}

#[inline(never)]
fn prod_narrow(from: Dtype, acc: Dtype, leaf: Leaf, input: &[u8], out: &mut [u8])
    requires types { Accumulates FoldKind.Prod from acc }
    requires input { extent (leaf_levels leaf) * size_of from ≤ length input.now }
    requires out { length out.old ≡ results (leaf_levels leaf) * size_of acc }
    ensures { TakesAll (record { kind = FoldKind.Prod; from = from; acc = acc }) (leaf_levels leaf) input.now out.old out.new }
{
    call_of_one_type!(by_leaf, FoldKind::Prod, from, acc, [leaf, input, out]);
}

#[inline(never)]
fn min(from: Dtype, acc: Dtype, leaf: Leaf, input: &[u8], out: &mut [u8])
    requires types { Accumulates FoldKind.Min from acc }
    requires input { extent (leaf_levels leaf) * size_of from ≤ length input.now }
    requires out { length out.old ≡ results (leaf_levels leaf) * size_of acc }
    ensures { TakesAll (record { kind = FoldKind.Min; from = from; acc = acc }) (leaf_levels leaf) input.now out.old out.new }
{
    call_of_one_type!(by_leaf, FoldKind::Min, from, acc, [leaf, input, out]);
}

#[inline(never)]
fn max(from: Dtype, acc: Dtype, leaf: Leaf, input: &[u8], out: &mut [u8])
    requires types { Accumulates FoldKind.Max from acc }
    requires input { extent (leaf_levels leaf) * size_of from ≤ length input.now }
    requires out { length out.old ≡ results (leaf_levels leaf) * size_of acc }
    ensures { TakesAll (record { kind = FoldKind.Max; from = from; acc = acc }) (leaf_levels leaf) input.now out.old out.new }
{
    call_of_one_type!(by_leaf, FoldKind::Max, from, acc, [leaf, input, out]);
}

fn any(from: Dtype, leaf: Leaf, input: &[u8], out: &mut [u8])
    requires input { extent (leaf_levels leaf) * size_of from ≤ length input.now }
    requires out { length out.old ≡ results (leaf_levels leaf) * size_of Dtype.Bool }
    ensures { TakesAll (record { kind = FoldKind.Any; from = from; acc = Dtype.Bool }) (leaf_levels leaf) input.now out.old out.new }
{
    match leaf {
        Leaf::Run(count) => take_any(from, count, input, out),
        _ => any_each(from, leaf, input, out),
    }
}

#[inline(never)]
fn any_each(from: Dtype, leaf: Leaf, input: &[u8], out: &mut [u8])
    requires input { extent (leaf_levels leaf) * size_of from ≤ length input.now }
    requires out { length out.old ≡ results (leaf_levels leaf) * size_of Dtype.Bool }
    ensures { TakesAll (record { kind = FoldKind.Any; from = from; acc = Dtype.Bool }) (leaf_levels leaf) input.now out.old out.new }
{
    call_by_type!(
        by_leaf,
        [FoldKind::Any],
        from,
        [Dtype::Bool, leaf, input, out]
    );
}

#[inline(never)]
fn all(from: Dtype, leaf: Leaf, input: &[u8], out: &mut [u8])
    requires input { extent (leaf_levels leaf) * size_of from ≤ length input.now }
    requires out { length out.old ≡ results (leaf_levels leaf) * size_of Dtype.Bool }
    ensures { TakesAll (record { kind = FoldKind.All; from = from; acc = Dtype.Bool }) (leaf_levels leaf) input.now out.old out.new }
{
    call_by_type!(
        by_leaf,
        [FoldKind::All],
        from,
        [Dtype::Bool, leaf, input, out]
    );
}

#[inline(always)]
fn by_leaf(kind: FoldKind, from: Dtype, acc: Dtype, leaf: Leaf, input: &[u8], out: &mut [u8])
    requires types { Accumulates kind from acc }
    requires input { extent (leaf_levels leaf) * size_of from ≤ length input.now }
    requires out { length out.old ≡ results (leaf_levels leaf) * size_of acc }
    ensures { TakesAll (record { kind = kind; from = from; acc = acc }) (leaf_levels leaf) input.now out.old out.new }
{
    match leaf {
        Leaf::Run(count) => take_run(kind, from, acc, count, input, out),
        Leaf::Row(count) => take_row(kind, from, acc, count, input, out),
        Leaf::Runs(count, width) => take_runs(kind, from, acc, count, width, input, out),
        Leaf::Rows(count, width) => {
            let rows = RowBlock { count, width };
            take_rows(kind, from, acc, rows, input, 0, out, 0)
        }
    }
}
