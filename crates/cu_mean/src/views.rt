//! Views of one array: the index of the array at which an index of the result is read.
ghost use Rattle.std.specs.Prelude.{◌≡◌, ◌==◌, ◌≤◌, ◌<◌, ◌-◌, ◌-ℤ◌, ◌^◌, pos, length, slice_index, if◌then◌else◌};
ghost use Rattle.cu_shape.specs.Index.{IsInside, product};
ghost use Rattle.std.specs.Int.{int_rem_euclid};
ghost use Rattle.std.specs.List.{position_or_len};
ghost use Rattle.std.specs.Ordering.{int_eq};
ghost use Rattle.cu_semantics.specs.Index.{axis_in, is_named, natural};
ghost use Rattle.cu_semantics.specs.View.{flipped_index, permuted_index, shift_on, rolled_index, same_place};
ghost use Rattle.cu_origin.specs.Pull.{diagonal_of, is_in_triangle};

use crate::axes::{is_named, names, natural};
use crate::digits::index_at;
use cu_form::Items;
use cu_node::size_at;
use cu_shape::{Dims, place};

/// How far the last two numbers of an index lie from the diagonal.
fn diagonal_of(idx: &Dims) -> i128
    ensures { result ≡ diagonal_of idx.now }
{
    let rank = idx.rank();
    let column = size_at(idx, rank.saturating_sub(1));
    let row = size_at(idx, rank.saturating_sub(2));
    column as i128 - row as i128
}

/// Whether an index lies on or below the k-th diagonal where `lower` holds, else on or above it.
pub(crate) fn is_in_triangle(lower: bool, k: i64, idx: &Dims) -> bool
    ensures { result ≡ is_in_triangle lower k idx.now }
{
    let diagonal = diagonal_of(idx);
    if lower {
        diagonal <= k as i128
    } else {
        k as i128 <= diagonal
    }
}

/// The number on an axis of an index that is counted from the other end on the axes that are named.
fn flipped_on(axes: &Option<Items<i64>>, shape: &Dims, idx: &Dims, axis: u32) -> u64
    ensures { result ≡ if is_named (length shape.now) axes.now axis then slice_index shape.now axis - 1 - slice_index idx.now axis else slice_index idx.now axis }
{
    let at = size_at(idx, axis);
    if is_named(shape.rank(), axes, axis) {
        size_at(shape, axis).saturating_sub(1).saturating_sub(at)
    } else {
        at
    }
}

/// The index counted from the other end on the axes that are named.
pub(crate) fn flipped(axes: &Option<Items<i64>>, shape: &Dims, idx: &Dims) -> Dims
    ensures { result ≡ flipped_index axes.now shape.now idx.now }
{
    let mut read = Dims::default();
    for axis in 0..shape.rank() {
        read.push(flipped_on(axes, shape, idx, axis));
    }
    read
}

/// Whether a number is that of an axis.
fn is_axis(number: i64, axis: u32) -> bool
    ensures { result ≡ int_eq number (pos axis) }
{
    number == i64::from(axis)
}

/// The place of an axis in a list of axes; the list's length where it isn't there.
fn place_of_axis(axes: &[i64], axis: u32) -> usize
    ensures place { result ≡ position_or_len (λ number. int_eq number (pos axis)) axes.now }
    ensures within { result ≤ length axes.now }
{
    for place in 0..axes.len() {
        if is_axis(axes[place], axis) {
            return place;
        }
    }
    axes.len()
}

/// The number on an axis of the array whose axis `axes[j]` is axis j of the result.
fn permuted_on(axes: &[i64], idx: &Dims, axis: u32) -> u64
    requires { length axes.now ≤ 6 }
    ensures { result ≡ slice_index idx.now (position_or_len (λ number. int_eq number (pos axis)) axes.now) }
{
    size_at(idx, place_of_axis(axes, axis) as u32)
}

/// The index of the array whose axis `axes[j]` is axis j of the result.
pub(crate) fn permuted(axes: &[i64], idx: &Dims) -> Dims
    requires { length axes.now ≤ 6 }
    ensures { result ≡ permuted_index axes.now idx.now }
{
    let mut read = Dims::default();
    for axis in 0..axes.len() as u32 {
        read.push(permuted_on(axes, idx, axis));
    }
    read
}

/// The first place at which a number names the axis; the list's length where none does.
fn place_of_name(rank: u32, axes: &[i64], axis: u32) -> usize
    ensures { result ≡ position_or_len (λ number. axis_in rank number == axis) axes.now }
{
    for place in 0..axes.len() {
        if names(rank, axes[place], axis) {
            return place;
        }
    }
    axes.len()
}

/// The shift of an axis; 0 where it isn't named.
fn shift_on(rank: u32, shifts: &[i64], axes: &[i64], axis: u32) -> i64
    ensures { result ≡ shift_on rank shifts.now axes.now axis }
{
    let place = place_of_name(rank, axes, axis);
    if place < shifts.len() {
        shifts[place]
    } else {
        0
    }
}

/// The number on an axis that comes to `at` by a shift on an axis of a size above 0.
fn rolled_on(at: u64, shift: i64, size: u64) -> u64
    requires { 0 < size }
    ensures { result ≡ natural (int_rem_euclid (pos at -ℤ shift) (pos size)) }
{
    natural((at as i128 - shift as i128).rem_euclid(size as i128))
}

/// The number on an axis that comes to that of an index by the axis' shift.
fn rolled_at(shifts: &[i64], axes: &[i64], shape: &Dims, idx: &Dims, axis: u32) -> u64
    requires axis { axis < length shape.now }
    requires inside { IsInside shape.now idx.now }
    ensures { result ≡ natural (int_rem_euclid (pos (slice_index idx.now axis) -ℤ shift_on (length shape.now) shifts.now axes.now axis) (pos (slice_index shape.now axis))) }
{
    let at = size_at(idx, axis);
    let shift = shift_on(shape.rank(), shifts, axes, axis);
    rolled_on(at, shift, shape.at(axis))
}

/// The index that comes to this one by the shifts.
pub(crate) fn rolled(shifts: &[i64], axes: &[i64], shape: &Dims, idx: &Dims) -> Dims
    requires { IsInside shape.now idx.now }
    ensures { result ≡ rolled_index shifts.now axes.now shape.now idx.now }
{
    let mut read = Dims::default();
    for axis in 0..shape.rank() {
        read.push(rolled_at(shifts, axes, shape, idx, axis));
    }
    read
}

/// The index of an array of shape `source` at the same place in row-major order.
pub(crate) fn same_place(source: &Dims, shape: &Dims, idx: &Dims) -> Dims
    requires inside { IsInside shape.now idx.now }
    requires counted { product shape.now < 2 ^ 64 }
    requires same { product source.now ≡ product shape.now }
    ensures { result ≡ same_place source.now shape.now idx.now }
{
    index_at(source, place(shape, idx))
}
