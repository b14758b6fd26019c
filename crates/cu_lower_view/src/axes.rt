//! Axes and shifts as a view names them, and as its pull has them.
ghost use Rattle.std.specs.Prelude.{◌≡◌, ◌==◌, ◌+◌, ◌*◌, ◌≤◌, option_map, length, map, if◌then◌else◌};
ghost use Rattle.std.specs.List.{list_any, position_or_len};
ghost use Rattle.cu_lower_view.specs.Axes.{named_axis, is_turned, axes_that, shift_along, shifts_along};

use arrayvec::ArrayVec;
use cu_node::axis_of;
use cu_origin::Axes;

/// The axis that a number names, a negative one counted from the end; 0 where it names none.
pub(crate) fn named_axis(rank: u32, number: i64) -> u32
    ensures { result ≡ named_axis rank number }
{
    axis_of(number, rank).unwrap_or(0)
}

/// The axes that numbers name, in their order.
pub(crate) fn named_axes(rank: u32, numbers: &[i64]) -> ArrayVec<u32, 6>
    requires { length numbers.now ≤ 6 }
    ensures { result.items ≡ map (named_axis rank) numbers.now }
{
    let mut axes = ArrayVec::new();
    for number in numbers {
        axes.push(named_axis(rank, *number));
    }
    axes
}

/// Whether an axis is one of those that numbers name.
fn is_named(rank: u32, numbers: &[i64], axis: u32) -> bool
    ensures { result ≡ list_any (λ number. named_axis rank number == axis) numbers.now }
{
    numbers
        .iter()
        .any(|number| named_axis(rank, *number) == axis)
}

/// Whether an axis is one of those that are named; each one is where there is no list.
fn is_turned(rank: u32, axes: Option<&[i64]>, axis: u32) -> bool
    ensures { result ≡ is_turned rank (option_map (λ a. a.now) axes.entry) axis }
{
    match axes {
        Some(numbers) => is_named(rank, numbers, axis),
        None => true,
    }
}

/// A byte with one more bit below its others.
fn with_bit(byte: u8, bit: bool) -> u8
    requires { byte ≤ 127 }
    ensures { result ≡ (if bit then 1 else 0) + 2 * byte }
{
    2 * byte + if bit { 1 } else { 0 }
}

/// The set of the axes that are named, of all axes where there is no list.
pub(crate) fn turned_axes(rank: u32, axes: Option<&[i64]>) -> Axes
    requires { rank ≤ 6 }
    ensures { result ≡ axes_that rank (is_turned rank (option_map (λ a. a.now) axes.entry)) }
{
    let mut byte = 0;
    for axis in (0..rank).rev() {
        byte = with_bit(byte, is_turned(rank, axes, axis));
    }
    Axes(byte)
}

/// The place of the entry that names an axis, and the count of entries where none does.
fn place_of(rank: u32, numbers: &[i64], axis: u32) -> usize
    ensures { result ≡ position_or_len (λ number. named_axis rank number == axis) numbers.now }
{
    for (place, number) in numbers.iter().enumerate() {
        if named_axis(rank, *number) == axis {
            return place;
        }
    }
    numbers.len()
}

/// The shift of an axis, 0 where no entry names it.
fn shift_along(rank: u32, shifts: &[i64], numbers: &[i64], axis: u32) -> i64
    ensures { result ≡ shift_along rank shifts.now numbers.now axis }
{
    let place = place_of(rank, numbers, axis);
    if place < shifts.len() {
        shifts[place]
    } else {
        0
    }
}

/// The shift of each axis.
pub(crate) fn shifts_along(rank: u32, shifts: &[i64], numbers: &[i64]) -> ArrayVec<i64, 6>
    requires { rank ≤ 6 }
    ensures { result.items ≡ shifts_along rank shifts.now numbers.now }
{
    let mut each = ArrayVec::new();
    for axis in 0..rank {
        each.push(shift_along(rank, shifts, numbers, axis));
    }
    each
}
