//! Axes that a form names, and indices by their axes.
ghost use Rattle.std.specs.Prelude.{◌≡◌, ◌==◌, ◌<◌, ◌≤ℤ◌, ◌-◌, ◌^◌, pos};
ghost use Rattle.std.specs.List.{list_any};
ghost use Rattle.cu_semantics.specs.Index.{axis_in, is_named, natural};
ghost use Rattle.cu_mean.specs.Axes.{axes_in};

use cu_form::Items;
use cu_node::axis_of;

/// The axis that a number names in an array of this rank, a negative one counted from the end; 0 where it names none.
pub(crate) fn axis_in(rank: u32, number: i64) -> u32
    ensures axis { result ≡ axis_in rank number }
    ensures below { 0 < rank → result < rank }
{
    axis_of(number, rank).unwrap_or(0)
}

/// Whether a number names the axis.
pub(crate) fn names(rank: u32, number: i64, axis: u32) -> bool
    ensures { result ≡ axis_in rank number == axis }
{
    axis_in(rank, number) == axis
}

/// Whether one of these numbers names the axis.
fn is_among(rank: u32, numbers: &[i64], axis: u32) -> bool
    ensures { result ≡ list_any (λ number. axis_in rank number == axis) numbers.now }
{
    numbers.iter().any(|number| names(rank, *number, axis))
}

/// Whether the axis is one of those that are named; all are where none are.
pub(crate) fn is_named(rank: u32, axes: &Option<Items<i64>>, axis: u32) -> bool
    ensures { result ≡ is_named rank axes.now axis }
{
    match axes {
        Some(numbers) => is_among(rank, numbers.as_slice(), axis),
        None => true,
    }
}

/// Axes of an array: all of them, or those of these numbers.
#[derive(Clone, Copy)]
pub(crate) struct NamedAxes<'a> {
    /// Whether they are all.
    pub(crate) all: bool,
    /// The numbers if they aren't.
    pub(crate) numbers: &'a [i64],
}

/// Whether the axis is one of these.
pub(crate) fn is_named_in(rank: u32, axes: &NamedAxes<'_>, axis: u32) -> bool
    ensures { result ≡ is_named rank (axes_in axes.now) axis }
{
    axes.all || is_among(rank, axes.numbers, axis)
}

/// The axes that are named; all where none are.
pub(crate) fn axes_listed(axes: &Option<Items<i64>>) -> NamedAxes<'_>
    ensures { axes_in result ≡ axes.now }
{
    match axes {
        Some(numbers) => NamedAxes {
            all: false,
            numbers: numbers.as_slice(),
        },
        None => NamedAxes {
            all: true,
            numbers: &[],
        },
    }
}

/// A whole number as a natural one; 0 for those below 0.
pub(crate) fn natural(number: i128) -> u64
    requires { number ≤ℤ pos (2 ^ 64 - 1) }
    ensures { result ≡ natural number }
{
    if number < 0 { 0 } else { number as u64 }
}
