//! Matrix products at an index of the result.
ghost use Rattle.std.specs.Prelude.{◌≡◌, ◌<◌, ◌≤◌, ℕ, List, ◌++◌, ◌∷◌, [], take, length, ◌*ℤ◌};
ghost use Rattle.cu_num.specs.Dtype.{IsInteger};
ghost use Rattle.cu_num.specs.Wrap.{wrapped};
ghost use Rattle.cu_shape.specs.Index.{back};
ghost use Rattle.cu_semantics.specs.Matmul.{matmul_at};
ghost use Rattle.cu_reduce.specs.Products.{batch_of, outer_axes, batch_axes, left_index, right_index};
ghost use Rattle.cu_mean.specs.Reading.{named_element};

use crate::reading::{NamedArrays, source};
use crate::reductions::sum_with;
use cu_node::size_at;
use cu_num::{Dtype, Fn2, scalar2, wrap};
use cu_shape::{Dims, back};

/// The numbers of the first axes.
fn front(sizes: &Dims, axes: u32) -> Dims
    requires { axes ≤ length sizes.now }
    ensures { result ≡ take axes sizes.now }
{
    let _short = sizes.rank();
    let mut front = Dims::default();
    front.push_range(sizes, 0, axes);
    front
}

/// The axes before the last two.
fn batch_of(shape: &Dims) -> Dims
    ensures { result ≡ batch_of shape.now }
{
    front(shape, shape.rank().saturating_sub(2))
}

/// 1 where the operand has an axis besides the inner one, else 0.
fn outer_axes(shape: &Dims) -> u32
    ensures value { result ≡ outer_axes shape.now }
    ensures few { result ≤ 1 }
{
    if shape.rank() >= 2 { 1 } else { 0 }
}

/// How many axes of the result come before its matrix.
fn batch_axes(a: &Dims, b: &Dims, idx: &Dims) -> u32
    ensures value { result ≡ batch_axes a.now b.now idx.now }
    ensures few { result ≤ length idx.now }
{
    idx.rank().saturating_sub(outer_axes(a) + outer_axes(b))
}

/// The index of an operand's matrix: the leading axes by broadcasting, then a row and a column.
fn matrix_index(shape: &Dims, lead: &Dims, row: u64, column: u64) -> Dims
    requires rank { 2 ≤ length shape.now }
    requires lead { length (batch_of shape.now) ≤ length lead.now }
    ensures { result ≡ back (batch_of shape.now) lead.now ++ row ∷ column ∷ [] }
{
    let _short = shape.rank();
    let mut read = back(&batch_of(shape), lead);
    read.push(row);
    read.push(column);
    read
}

/// The index of an operand of one axis.
fn single(inner: u64) -> Dims
    ensures { result ≡ inner ∷ [] }
{
    let mut read = Dims::default();
    read.push(inner);
    read
}

/// The index of the left operand at an inner place, for an index of the result.
fn left_index(a: &Dims, b: &Dims, idx: &Dims, inner: u64) -> Dims
    requires { length (batch_of a.now) ≤ batch_axes a.now b.now idx.now }
    ensures { result ≡ left_index a.now b.now idx.now inner }
{
    if a.rank() < 2 {
        return single(inner);
    }
    let axes = batch_axes(a, b, idx);
    matrix_index(a, &front(idx, axes), size_at(idx, axes), inner)
}

/// The index of the right operand at an inner place, for an index of the result.
fn right_index(a: &Dims, b: &Dims, idx: &Dims, inner: u64) -> Dims
    requires { length (batch_of b.now) ≤ batch_axes a.now b.now idx.now }
    ensures { result ≡ right_index a.now b.now idx.now inner }
{
    if b.rank() < 2 {
        return single(inner);
    }
    let axes = batch_axes(a, b, idx);
    matrix_index(
        b,
        &front(idx, axes),
        inner,
        size_at(idx, axes + outer_axes(a)),
    )
}

/// The product of two numbers, wrapped.
fn product_of(t: Dtype, x: i128, y: i128) -> i128
    ensures { result ≡ wrapped t (x *ℤ y) }
{
    let first = wrap(t, x);
    let second = wrap(t, y);
    scalar2(Fn2::Multiply, t, first, second)
}

/// The index of the left operand at an inner place, made of that at the inner place 0.
fn left_on(left: &Dims, inner: u64) -> Dims
    requires { 0 < length left.now }
    ensures { (a b idx : List ℕ) → left.now ≡ left_index a b idx 0 → result ≡ left_index a b idx inner }
{
    left.changed(left.rank() - 1, inner)
}

/// The index of the right operand at an inner place, made of that at the inner place 0.
fn right_on(right: &Dims, inner: u64) -> Dims
    requires { 0 < length right.now }
    ensures { (a b idx : List ℕ) → right.now ≡ right_index a b idx 0 → result ≡ right_index a b idx inner }
{
    right.changed(right.rank().saturating_sub(2), inner)
}

/// The product of the operands' elements at an inner place, wrapped; `left` and `right` are their indices at the inner place 0.
fn product_at(t: Dtype, arrays: &NamedArrays<'_>, left: &Dims, right: &Dims, inner: u64) -> i128
    requires left { 0 < length left.now }
    requires right { 0 < length right.now }
    ensures { (a b idx : List ℕ) → left.now ≡ left_index a b idx 0 → right.now ≡ right_index a b idx 0
        → result ≡ wrapped t (named_element arrays.now 0 (left_index a b idx inner)
        *ℤ named_element arrays.now 1 (right_index a b idx inner)) }
{
    let x = source(arrays.plains, arrays.args, 0, &left_on(left, inner));
    let y = source(arrays.plains, arrays.args, 1, &right_on(right, inner));
    product_of(t, x, y)
}

/// The sum of the products over the inner axis of operands with the shapes `a` and `b`, wrapped to the type.
pub(crate) fn matmul_at(t: Dtype, arrays: &NamedArrays<'_>, a: &Dims, b: &Dims, idx: &Dims) -> i128
    requires integer { IsInteger t }
    requires left { length (batch_of a.now) ≤ batch_axes a.now b.now idx.now }
    requires right { length (batch_of b.now) ≤ batch_axes a.now b.now idx.now }
    ensures { result ≡ wrapped t (matmul_at (named_element arrays.now 0) a.now (named_element arrays.now 1) b.now idx.now) }
{
    let count = size_at(a, a.rank().saturating_sub(1));
    let left = left_index(a, b, idx, 0);
    let right = right_index(a, b, idx, 0);
    let mut total = 0;
    for inner in (0..count).rev() {
        let product = product_at(t, arrays, &left, &right, inner);
        total = sum_with(t, product, total);
    }
    wrap(t, total)
}
