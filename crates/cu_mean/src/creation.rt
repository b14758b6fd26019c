//! Arrays that are made from nothing, at an index of the result.
ghost use Rattle.std.specs.Prelude.{◌≡◌, ◌+ℤ◌, ◌*ℤ◌, pos};
ghost use Rattle.cu_node.specs.Literal.{literal_number};
ghost use Rattle.cu_semantics.specs.View.{arange_at, eye_at};

use cu_node::{Literal, size_at};
use cu_shape::Dims;

/// A written value as a number.
pub(crate) fn literal_number(value: Literal) -> i128
    ensures { result ≡ literal_number value }
{
    match value {
        Literal::Int(number) => number,
        Literal::Truth(truth) => i128::from(truth),
    }
}

/// `start + i * step` at the index `i`.
pub(crate) fn arange_at(start: i64, step: i64, idx: &Dims) -> i128
    ensures { result ≡ arange_at start step idx.now }
{
    number_at(start, step, size_at(idx, 0))
}

/// `start + k * step`.
fn number_at(start: i64, step: i64, k: u64) -> i128
    ensures { result ≡ start +ℤ pos k *ℤ step }
{
    start as i128 + k as i128 * step as i128
}

/// 1 on the k-th diagonal, else 0.
pub(crate) fn eye_at(k: i64, idx: &Dims) -> i128
    ensures { result ≡ eye_at k idx.now }
{
    let diagonal = i128::from(size_at(idx, 1)) - i128::from(size_at(idx, 0));
    if diagonal == i128::from(k) { 1 } else { 0 }
}
