ghost use Rattle.std.specs.Prelude.{◌≡◌};
ghost use Rattle.cu_num.specs.Dtype.{InRange};
ghost use Rattle.cu_num.specs.Wrap.{wrapped};
ghost use Rattle.cu_reduce.specs.Kinds.{unit_of, combined};

use cu_num::{Dtype, Fn2, FoldKind, greatest, least, scalar2, wrap};

/// What a reduction makes of no elements, with `acc` the type of its result: 0 for a sum, 1 for a product, false for `Any`, true
/// for `All` (Python array API); for the least element the greatest number of the type, for the greatest the least, so that
/// combining with it changes nothing.
#[inline]
pub fn unit(kind: FoldKind, acc: Dtype) -> i128
    ensures value { result ≡ unit_of kind acc }
    ensures range { InRange acc result }
{
    match kind {
        FoldKind::Sum | FoldKind::Any => 0,
        FoldKind::Prod | FoldKind::All => 1,
        FoldKind::Min => greatest(acc),
        FoldKind::Max => least(acc),
    }
}

/// What a reduction makes of two of its results, wrapped to their type `acc`.
#[inline]
pub fn combine(kind: FoldKind, acc: Dtype, x: i128, y: i128) -> i128
    requires first { InRange acc x }
    requires second { InRange acc y }
    ensures value { result ≡ wrapped acc (combined kind x y) }
    ensures range { InRange acc result }
{
    match kind {
        FoldKind::Sum => scalar2(Fn2::Add, acc, x, y),
        FoldKind::Prod => scalar2(Fn2::Multiply, acc, x, y),
        FoldKind::Min => wrap(acc, x.min(y)),
        FoldKind::Max => wrap(acc, x.max(y)),
        FoldKind::Any => wrap(acc, scalar2(Fn2::LogicalOr, acc, x, y)),
        FoldKind::All => wrap(acc, scalar2(Fn2::LogicalAnd, acc, x, y)),
    }
}
