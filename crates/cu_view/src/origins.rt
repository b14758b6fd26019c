//! The origin of one element of a view.
ghost use Rattle.std.specs.Prelude.{◌≡◌, ◌<◌, ◌≤◌, ◌^◌, ℕ, ◌==◌, pos, negsuc, ◌-◌, ◌+ℤ◌, ◌-ℤ◌, ◌*ℤ◌, ◌≤ℤ◌, ◌<ℤ◌, All, Contains, length, if◌then◌else◌};
ghost use Rattle.std.specs.Int.{int_rem_euclid};
ghost use Rattle.std.specs.List.{position_or_len};
ghost use Rattle.cu_shape.specs.Index.{product, IsInside};
ghost use Rattle.cu_shape.specs.Slice.{at_least_zero, IsIndex};
ghost use Rattle.cu_origin.specs.Fits.{AreRuns};
ghost use Rattle.cu_origin.specs.Pull.{origin_of, counts_of_runs, taken_by, sliced, permuted, flipped, rolled, concat_from, diagonal_of, is_in_triangle, has_axis};
ghost use Rattle.cu_origin.specs.declared.provenance.Provenance.TheVariants.{From, Const};
ghost use Rattle.cu_view.specs.View.{IsView};

use cu_origin::{Axes, Provenance, Pull};
use cu_shape::{Dims, Run, back, index_of, place};

/// From where the element of a view's result at an index comes: a source and the index in it, or a number (Python array API
/// 2022.12, "Manipulation Functions", "Indexing", "Creation Functions").
pub fn origin_of(pull: &Pull, sources: &[Dims], shape: &Dims, idx: &Dims) -> Provenance
    requires view { IsView pull.now sources.now shape.now }
    requires inside { IsInside shape.now idx.now }
    ensures { result ≡ origin_of pull.now sources.now shape.now idx.now }
{
    match pull {
        Pull::Slice { runs, .. } => from_first(sliced(runs.as_slice(), &sources[0], shape, idx)),
        Pull::Permute { axes } => from_first(permuted(axes.as_slice(), idx)),
        Pull::Reshape => from_first(index_of(&sources[0], place(shape, idx))),
        Pull::Concat { axis } => concat_origin(*axis, sources, idx),
        Pull::Stack { axis } => Provenance::From {
            source: idx.at(*axis) as u32,
            idx: idx.removed(*axis),
        },
        Pull::Flip { axes } => from_first(flipped(*axes, shape, idx)),
        Pull::Roll { shifts } => from_first(rolled(shifts.as_slice(), shape, idx)),
        Pull::Broadcast => from_first(back(&sources[0], idx)),
        Pull::Triangle { lower, k } => triangle_origin(*lower, *k, idx),
        Pull::Full { value } => Provenance::Const(*value),
        Pull::Arange { start, step } => Provenance::Const(term(
            i128::from(*start),
            *step,
            idx.at(0),
        )),
        Pull::Eye { k } => Provenance::Const(if diagonal(idx) == i128::from(*k) {
            1
        } else {
            0
        }),
    }
}

/// The element of the first source at an index.
fn from_first(idx: Dims) -> Provenance
    ensures { result ≡ From 0 idx }
{
    Provenance::From { source: 0, idx }
}

/// What the runs of a slice take at an index of its result, which has the same row-major place.
fn sliced(runs: &[Run], source: &Dims, shape: &Dims, idx: &Dims) -> Dims
    requires runs { AreRuns runs.now source.now }
    requires same { product shape.now ≡ product (counts_of_runs runs.now) }
    requires counted { product shape.now < 2 ^ 64 }
    requires inside { IsInside shape.now idx.now }
    ensures { result ≡ sliced runs.now shape.now idx.now }
{
    let _short = source.rank();
    let at = index_of(&counts_of_runs(runs), place(shape, idx));
    taken_by(runs, source, &at)
}

/// How many indices each run takes.
pub(crate) fn counts_of_runs(runs: &[Run]) -> Dims
    requires { length runs.now ≤ 6 }
    ensures { result ≡ counts_of_runs runs.now }
{
    let mut counts = Dims::default();
    for run in runs {
        counts.push(run.count);
    }
    counts
}

/// The index that each run takes.
fn taken_by(runs: &[Run], source: &Dims, at: &Dims) -> Dims
    requires runs { AreRuns runs.now source.now }
    requires inside { IsInside (counts_of_runs runs.now) at.now }
    ensures { result ≡ taken_by runs.now at.now }
{
    let mut read = *at;
    for axis in 0..at.rank() {
        let run = &runs[axis as usize];
        read.put(
            axis,
            taken(run.first, run.step, at.at(axis), source.at(axis)),
        );
    }
    read
}

/// The index that a run takes at `k`, which is one of an axis of size `n`.
fn taken(first: u64, step: i64, k: u64, n: u64) -> u64
    requires { IsIndex (pos first +ℤ pos k *ℤ step) n }
    ensures { result ≡ at_least_zero (pos first +ℤ pos k *ℤ step) }
{
    term(first as i128, step, k) as u64
}

/// The number `start + k * step`.
pub(crate) fn term(start: i128, step: i64, k: u64) -> i128
    requires low { negsuc 9223372036854775807 ≤ℤ start }
    requires high { start <ℤ pos 18446744073709551616 }
    ensures { result ≡ start +ℤ pos k *ℤ step }
{
    start + moved(step, k)
}

/// How far `k` steps lead.
fn moved(step: i64, k: u64) -> i128
    ensures value { result ≡ pos k *ℤ step }
    ensures low { negsuc 170141183460469231722463931679029329919 ≤ℤ result }
    ensures high { result <ℤ pos 170141183460469231713240559642174554112 }
{
    k as i128 * step as i128
}

/// The index of a permuted array: axis `axes[j]` of the source is axis `j` of the result.
fn permuted(axes: &[u32], idx: &Dims) -> Dims
    requires rank { length idx.now ≡ length axes.now }
    requires each { (d : ℕ) → d < length axes.now → Contains axes.now d }
    ensures { result ≡ permuted axes.now idx.now }
{
    let mut read = *idx;
    for axis in 0..idx.rank() {
        read.put(axis, idx.at(axis_of(axes, axis)));
    }
    read
}

/// The axis of the result that an axis of a permuted source is.
pub(crate) fn axis_of(axes: &[u32], axis: u32) -> u32
    requires few { length axes.now ≤ 6 }
    requires has { Contains axes.now axis }
    ensures place { result ≡ position_or_len (λ a. a == axis) axes.now }
    ensures below { result < length axes.now }
{
    for at in 0..axes.len() as u32 {
        if axes[at as usize] == axis {
            return at;
        }
    }
    0
}

/// The index counted from the other end on the axes of a set.
fn flipped(axes: Axes, shape: &Dims, idx: &Dims) -> Dims
    requires { IsInside shape.now idx.now }
    ensures { result ≡ flipped axes shape.now idx.now }
{
    let mut read = *idx;
    for axis in 0..idx.rank() {
        let at = from_end(has_axis(axes, axis), shape.at(axis), idx.at(axis));
        read.put(axis, at);
    }
    read
}

/// An index of an axis of size `n`, counted from the other end where the axis is turned round.
fn from_end(turned: bool, n: u64, i: u64) -> u64
    requires { i < n }
    ensures { result ≡ (if turned then n - 1 - i else i) }
{
    if turned { n - 1 - i } else { i }
}

/// Whether a set has an axis.
pub(crate) fn has_axis(axes: Axes, axis: u32) -> bool
    requires { axis < 8 }
    ensures { result ≡ has_axis axes axis }
{
    (axes.0 >> axis) & 1 == 1
}

/// The index before a roll.
fn rolled(shifts: &[i64], shape: &Dims, idx: &Dims) -> Dims
    requires ranks { length shifts.now ≡ length shape.now }
    requires inside { IsInside shape.now idx.now }
    ensures { result ≡ rolled shifts.now shape.now idx.now }
{
    let mut read = *idx;
    for axis in 0..idx.rank() {
        read.put(
            axis,
            before_roll(shifts[axis as usize], shape.at(axis), idx.at(axis)),
        );
    }
    read
}

/// The index of an axis of size `n` before it is rolled.
fn before_roll(shift: i64, n: u64, i: u64) -> u64
    requires { 0 < n }
    ensures { result ≡ at_least_zero (int_rem_euclid (pos i -ℤ shift) (pos n)) }
{
    (i as i128 - shift as i128).rem_euclid(n as i128) as u64
}

/// The source of a concatenation whose range along the axis has the index, and the index in it.
fn concat_origin(axis: u32, sources: &[Dims], idx: &Dims) -> Provenance
    requires axis { axis < length idx.now }
    requires few { length sources.now < 2 ^ 32 }
    requires ranks { All (λ source. axis < length source) sources.now }
    ensures { result ≡ concat_from axis 0 sources.now idx.now }
{
    let mut rest = *idx;
    for number in 0..sources.len() {
        let size = sources[number].at(axis);
        if rest.at(axis) < size {
            return Provenance::From {
                source: number as u32,
                idx: rest,
            };
        }
        rest.put(axis, rest.at(axis) - size);
    }
    Provenance::Const(0)
}

/// An index of a triangle, and the number 0 outside it.
fn triangle_origin(lower: bool, k: i64, idx: &Dims) -> Provenance
    requires { 2 ≤ length idx.now }
    ensures { result ≡ (if is_in_triangle lower k idx.now then From 0 idx.now else Const (pos 0)) }
{
    if is_in_triangle(lower, k, idx) {
        from_first(*idx)
    } else {
        Provenance::Const(0)
    }
}

/// Whether an index lies in a triangle.
pub(crate) fn is_in_triangle(lower: bool, k: i64, idx: &Dims) -> bool
    requires { 2 ≤ length idx.now }
    ensures { result ≡ is_in_triangle lower k idx.now }
{
    let distance = diagonal(idx);
    let k = k as i128;
    if lower { distance <= k } else { k <= distance }
}

/// How far the last two numbers of an index lie from the main diagonal, upward.
fn diagonal(idx: &Dims) -> i128
    requires { 2 ≤ length idx.now }
    ensures { result ≡ diagonal_of idx.now }
{
    let last = idx.rank() - 1;
    idx.at(last) as i128 - idx.at(last - 1) as i128
}
