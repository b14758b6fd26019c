//! Reductions at an index of the result: each element over the reduced indices once, from the last to the first.
ghost use Rattle.std.specs.Prelude.{◌≡◌, ◌⊎◌, ◌<◌, ◌≤◌, ◌^◌, ◌+ℤ◌, ◌*ℤ◌, ℕ, ℤ, List, [], ◌∷◌, IfSome, length, slice_index, not, if◌then◌else◌};
ghost use Rattle.cu_num.specs.Dtype.{IsInteger};
ghost use Rattle.cu_num.specs.Wrap.{wrapped};
ghost use Rattle.cu_num.specs.declared.folds.FoldKind.{FoldKind};
ghost use Rattle.cu_shape.specs.Index.{product, sums, index_at, indices_of};
ghost use Rattle.cu_semantics.specs.Index.{is_named};
ghost use Rattle.cu_semantics.specs.Reduction.{reduced_box, reduced_start, kept_before};
ghost use Rattle.cu_reduce.specs.Folds.{fold_of};
ghost use Rattle.cu_mean.specs.Axes.{axes_in};
ghost use Rattle.cu_mean.specs.Evenly.{LieEvenly};
ghost use Rattle.cu_mean.specs.Reading.{named_element};
ghost use Rattle.cu_mean.specs.Reductions.{kept_of, IsNone, IsFirstOrSingle, elements_along};

use crate::axes::{NamedAxes, is_named_in};
use crate::digits::index_at;
use crate::lines::{EvenLine, line_of, on_line};
use crate::reading::{NamedArrays, source};
use cu_node::size_at;
use cu_num::{Dtype, Fn2, FoldKind, scalar2, wrap};
use cu_shape::Dims;

/// 1 for an axis that is kept, else 0.
fn kept_here(rank: u32, axes: &NamedAxes<'_>, axis: u32) -> u32
    ensures value { result ≡ if not (is_named rank (axes_in axes.now) axis) then 1 else 0 }
    ensures few { result ≤ 1 }
{
    if is_named_in(rank, axes, axis) { 0 } else { 1 }
}

/// How many axes before this one are kept.
#[tactic(auto, using(crate::proofs::Steps::kept_more))]
fn kept_before(rank: u32, axes: &NamedAxes<'_>, axis: u32) -> u32
    ensures value { result ≡ kept_before rank (axes_in axes.now) axis }
    ensures few { result ≤ axis }
{
    let mut kept = 0;
    for earlier in 0..axis {
        kept += kept_here(rank, axes, earlier);
    }
    kept
}

/// The size of an axis that is reduced, and 1 on one that is kept.
fn size_on(axes: &NamedAxes<'_>, shape: &Dims, axis: u32) -> u64
    requires { axis < length shape.now }
    ensures { result ≡ if is_named (length shape.now) (axes_in axes.now) axis then slice_index shape.now axis else 1 }
{
    if is_named_in(shape.rank(), axes, axis) {
        shape.at(axis)
    } else {
        1
    }
}

/// The sizes of the reduced axes, and 1 on those that are kept.
pub(crate) fn reduced_box(axes: &NamedAxes<'_>, shape: &Dims) -> Dims
    ensures { result ≡ reduced_box (axes_in axes.now) shape.now }
{
    let mut sizes = Dims::default();
    for axis in 0..shape.rank() {
        sizes.push(size_on(axes, shape, axis));
    }
    sizes
}

/// The number of the first index over which is reduced on an axis.
fn first_on(axes: &NamedAxes<'_>, keepdims: bool, rank: u32, idx: &Dims, axis: u32) -> u64
    ensures { result ≡ if is_named rank (axes_in axes.now) axis then 0 else slice_index idx.now (if keepdims then axis else kept_before rank (axes_in axes.now) axis) }
{
    if is_named_in(rank, axes, axis) {
        return 0;
    }
    let place = if keepdims {
        axis
    } else {
        kept_before(rank, axes, axis)
    };
    size_at(idx, place)
}

/// The first index over which is reduced, for an index of the result.
pub(crate) fn reduced_start(axes: &NamedAxes<'_>, keepdims: bool, rank: u32, idx: &Dims) -> Dims
    requires { rank ≤ 6 }
    ensures { result ≡ reduced_start (axes_in axes.now) keepdims rank idx.now }
{
    let mut start = Dims::default();
    for axis in 0..rank {
        start.push(first_on(axes, keepdims, rank, idx, axis));
    }
    start
}

/// The sums of two indices axis by axis, of which one is 0 on each axis.
fn sum_of(start: &Dims, step: &Dims) -> Dims
    requires ranks { length step.now ≡ length start.now }
    requires apart { (k : ℕ) → k < length start.now → (slice_index start.now k ≡ 0) ⊎ (slice_index step.now k ≡ 0) }
    ensures { result ≡ sums start.now step.now }
{
    let mut read = *start;
    for axis in 0..start.rank() {
        read.put(axis, start.at(axis) + step.at(axis));
    }
    read
}

/// What is kept of no elements.
pub(crate) fn kept_of_none(kind: FoldKind, t: Dtype) -> i128
    ensures { result ≡ kept_of kind t [] }
{
    match kind {
        FoldKind::Sum => wrap(t, 0),
        FoldKind::Prod => wrap(t, 1),
        FoldKind::Min | FoldKind::Max | FoldKind::Any => 0,
        FoldKind::All => 1,
    }
}

/// A wrapped sum with one number more.
pub(crate) fn sum_with(t: Dtype, x: i128, kept: i128) -> i128
    requires { IsInteger t }
    ensures { (s : ℤ) → kept ≡ wrapped t s → result ≡ wrapped t (x +ℤ s) }
{
    let x = wrap(t, x);
    let rest = wrap(t, kept);
    scalar2(Fn2::Add, t, x, rest)
}

/// A wrapped product with one number more.
fn product_with(t: Dtype, x: i128, kept: i128) -> i128
    ensures { (s : ℤ) → kept ≡ wrapped t s → result ≡ wrapped t (x *ℤ s) }
{
    let x = wrap(t, x);
    let rest = wrap(t, kept);
    scalar2(Fn2::Multiply, t, x, rest)
}

/// What is kept with one element more in front of those of which `kept` is kept; `last` says that there are none.
pub(crate) fn kept_with(kind: FoldKind, t: Dtype, x: i128, kept: i128, last: bool) -> i128
    requires { kind ≡ FoldKind.Sum → IsInteger t }
    ensures { (xs : List ℤ) → kept ≡ kept_of kind t xs → IsNone xs last → result ≡ kept_of kind t (x ∷ xs) }
{
    match kind {
        FoldKind::Sum => sum_with(t, x, kept),
        FoldKind::Prod => product_with(t, x, kept),
        FoldKind::Min => if last { x } else { x.min(kept) },
        FoldKind::Max => if last { x } else { x.max(kept) },
        FoldKind::Any => if x != 0 { 1 } else { kept },
        FoldKind::All => if x != 0 { kept } else { 0 },
    }
}

/// The element at a place among those over which is reduced, by its index.
fn element_by_index(arrays: &NamedArrays<'_>, start: &Dims, sizes: &Dims, place: u64) -> i128
    requires place { place < product sizes.now }
    requires ranks { length sizes.now ≡ length start.now }
    requires apart { IsFirstOrSingle start.now sizes.now }
    ensures { result ≡ named_element arrays.now 0 (sums start.now (index_at sizes.now place)) }
{
    let step = index_at(sizes, place);
    source(arrays.plains, arrays.args, 0, &sum_of(start, &step))
}

/// The element at a place among those over which is reduced, in row-major order; `line` has them where they lie evenly apart.
#[inline]
pub(crate) fn element_along(
    line: Option<EvenLine<'_>>,
    arrays: &NamedArrays<'_>,
    start: &Dims,
    sizes: &Dims,
    place: u64,
) -> i128
    requires line { IfSome line (λ l. LieEvenly (named_element arrays.now 0) start.now sizes.now l.cells.now l.first l.stride) }
    requires place { place < product sizes.now }
    requires ranks { length sizes.now ≡ length start.now }
    requires apart { IsFirstOrSingle start.now sizes.now }
    ensures { result ≡ named_element arrays.now 0 (sums start.now (index_at sizes.now place)) }
{
    match line {
        Some(line) => on_line(line, place),
        None => element_by_index(arrays, start, sizes, place),
    }
}

/// The reduction of the elements from a first index on, wrapped to the type.
pub(crate) fn reduced(
    kind: FoldKind,
    t: Dtype,
    arrays: &NamedArrays<'_>,
    start: &Dims,
    sizes: &Dims,
) -> i128
    requires count { product sizes.now ≤ 2 ^ 40 }
    requires ranks { length sizes.now ≡ length start.now }
    requires apart { IsFirstOrSingle start.now sizes.now }
    requires integer { kind ≡ FoldKind.Sum → IsInteger t }
    ensures { result ≡ wrapped t (fold_of kind (elements_along (named_element arrays.now 0) start.now (indices_of sizes.now))) }
{
    let count = sizes.elements().unwrap();
    let line = line_of(arrays, start, sizes);
    let mut kept = kept_of_none(kind, t);
    for place in (0..count).rev() {
        let x = element_along(line, arrays, start, sizes, place);
        kept = kept_with(kind, t, x, kept, place + 1 == count);
    }
    wrap(t, kept)
}
