//! The axes of reductions and of searches for places, and the operands of products of matrices.

ghost use Rattle.std.specs.Prelude.{◌≡◌, ◌≤◌, take, option_map};
ghost use Rattle.cu_need.specs.Reduction.{array_of, reduced_axes, sought_axis, axes_reduced, axes_sought, leading_count, left_wanted, right_wanted};

use cu_copy::Rechunk;
use cu_form::{Arg, Items};
use cu_node::{NodeInfo, all_axes, axis_of, grown, info_at, named_axes, size_at};
use cu_origin::Axes;
use cu_shape::Dims;
use cu_tree::{marked_axes, sought_axes};
use cu_typing::{left_chunk, right_chunk};

/// The array of an argument by its place; where there is none, a bool of rank 0.
pub fn array_of(infos: &[NodeInfo], args: &[Arg], at: u32) -> NodeInfo
    ensures { result ≡ array_of infos.now args.now at }
{
    match args.get(at as usize) {
        Some(Arg::Node(number)) => info_at(infos, *number),
        _ => info_at(&[], 0),
    }
}

/// The axes that a reduction of an array of this rank reduces; none where the list doesn't name axes of it.
pub fn reduced_axes(rank: u32, axes: Option<&[i64]>) -> Axes
    requires { rank ≤ 6 }
    ensures { result ≡ reduced_axes rank (option_map (λ a. a.now) axes.entry) }
{
    let marks = match axes {
        Some(numbers) => named_axes(numbers, rank).unwrap_or([false; 6]),
        None => all_axes(),
    };
    marked_axes(&marks)
}

/// The axis along which a place is sought in an array of this rank, none where it is sought in the whole array.
pub fn sought_axis(rank: u32, axis: Option<i64>) -> Option<u32>
    ensures axis { result ≡ sought_axis rank axis }
{
    match axis {
        Some(number) => axis_of(number, rank),
        None => None,
    }
}

/// The axes that a reduction of this source reduces.
pub fn axes_reduced(source: &NodeInfo, axes: &Option<Items<i64>>) -> Axes
    ensures { result ≡ axes_reduced source.now axes.now }
{
    let rank = source.dims.rank();
    match axes {
        Some(numbers) => reduced_axes(rank, Some(numbers.as_slice())),
        None => reduced_axes(rank, None),
    }
}

/// The axes along which a place is sought in this source.
pub(crate) fn axes_sought(source: &NodeInfo, axis: Option<i64>) -> Axes
    ensures { result ≡ axes_sought source.now axis }
{
    sought_axes(sought_axis(source.dims.rank(), axis))
}

/// The first sizes of a list.
fn front(sizes: &Dims, count: u32) -> Dims
    ensures { result ≡ take count sizes.now }
{
    let mut front = Dims::make(&[]).unwrap();
    for axis in 0..sizes.rank().min(count) {
        front = grown(&front, sizes.at(axis));
    }
    front
}

/// How many axes of a product come before its matrix.
fn leading_count(made: &NodeInfo, left: &NodeInfo, right: &NodeInfo) -> u32
    ensures { result ≡ leading_count made.now left.now right.now }
{
    let outer = match (left.dims.rank() >= 2, right.dims.rank() >= 2) {
        (true, true) => 2,
        (false, false) => 0,
        _ => 1,
    };
    made.dims.rank().saturating_sub(outer)
}

/// The left operand in the chunks that the product wants.
pub fn left_wanted(made: &NodeInfo, left: &NodeInfo, right: &NodeInfo) -> Rechunk
    ensures { result ≡ left_wanted made.now left.now right.now }
{
    let count = leading_count(made, left, right);
    Rechunk {
        source: *left,
        chunk: left_chunk(&front(&made.dims, count), &front(&made.chunk, count), left),
    }
}

/// The right operand in the chunks that the product wants, whose inner size is the left operand's.
pub fn right_wanted(made: &NodeInfo, left: &NodeInfo, right: &NodeInfo) -> Rechunk
    ensures { result ≡ right_wanted made.now left.now right.now }
{
    let count = leading_count(made, left, right);
    let inner = size_at(&left.chunk, left.chunk.rank().saturating_sub(1));
    Rechunk {
        source: *right,
        chunk: right_chunk(
            &front(&made.dims, count),
            &front(&made.chunk, count),
            inner,
            right,
        ),
    }
}
