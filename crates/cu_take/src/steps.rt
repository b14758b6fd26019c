//! One element taken into one result.
ghost use Rattle.std.specs.Prelude.{◌≡◌, ◌≢◌, ◌+◌, ◌*◌, ◌≤◌, ℕ, [], ◌∷◌, length};
ghost use Rattle.cu_num.specs.Dtype.{size_of, InRange};
ghost use Rattle.cu_num.specs.Wrap.{wrapped};
ghost use Rattle.cu_num.specs.Element.{bytes_at};
ghost use Rattle.cu_reduce.specs.Kinds.{Accumulates, combined};
ghost use Rattle.cu_take.specs.Taken.{HasTaken, elements_at_places};

use cu_num::{Dtype, FoldKind, load, save, wrap};
use cu_reduce::combine;

/// 1 where a number isn't 0, else 0.
#[inline(always)]
fn either(x: i128, y: i128) -> i128
    ensures { result ≡ combined FoldKind.Any x y }
{
    i128::from((x != 0) | (y != 0))
}

/// 1 where neither number is 0, else 0.
#[inline(always)]
fn both(x: i128, y: i128) -> i128
    ensures { result ≡ combined FoldKind.All x y }
{
    i128::from((x != 0) & (y != 0))
}

/// What a reduction of elements of type `from` makes of two of its results, without branches.
#[inline(always)]
pub(crate) fn joined(kind: FoldKind, from: Dtype, acc: Dtype, x: i128, y: i128) -> i128
    requires types { Accumulates kind from acc }
    requires first { InRange acc x }
    requires second { InRange acc y }
    ensures { result ≡ wrapped acc (combined kind x y) }
{
    match kind {
        FoldKind::Any => either(x, y),
        FoldKind::All => both(x, y),
        _ => combine(kind, acc, x, y),
    }
}

/// Takes element `place` of `input`, of type `from`, into result `q` of `out`, of type `acc`.
#[inline(always)]
pub fn take_one(
    kind: FoldKind,
    from: Dtype,
    acc: Dtype,
    input: &[u8],
    place: usize,
    out: &mut [u8],
    q: usize,
)
    requires types { Accumulates kind from acc }
    requires input { place * size_of from + size_of from ≤ length input.now }
    requires out { q * size_of acc + size_of acc ≤ length out.old }
    ensures takes { HasTaken kind acc out.old out.new q (elements_at_places from input.now (place ∷ [])) }
    ensures others { (p : ℕ) → p ≢ q → bytes_at acc out.new p ≡ bytes_at acc out.old p }
{
    let own = load(acc, out, q);
    let next = wrap(acc, load(from, input, place));
    save(acc, joined(kind, from, acc, own, next), out, q);
}
