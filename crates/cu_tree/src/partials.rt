//! The arrays of partial results.

ghost use Rattle.std.specs.Prelude.{◌≡◌, ◌≤◌, ◌<◌, ◌^◌, ◌*◌, length, slice_index, max, if◌then◌else◌};
ghost use Rattle.std.specs.Int.{div_ceil};
ghost use Rattle.cu_num.specs.Dtype.{size_of};
ghost use Rattle.cu_shape.specs.Index.{product};
ghost use Rattle.cu_reduce.specs.Groups.{groups_of, group_counts};
ghost use Rattle.cu_origin.specs.Pull.{has_axis};
ghost use Rattle.cu_node.specs.Info.{IsInfo};
ghost use Rattle.cu_tree.specs.Partials.{first_partial, partial_size, partial_chunk_from, inner_count, product_partial, merged, chunks_of, IsMiddle};

use crate::round::Round;
use crate::tree::has_axis;
use cu_grid::Grid;
use cu_node::{NodeInfo, grown};
use cu_num::{Dtype, size};
use cu_origin::Axes;
use cu_shape::Dims;

/// The first array of partial results, of this type, of a reduction along some axes: along each of them as many elements as the source
/// has chunks, at least one, in chunks of one; along any other axis the source's size and chunk size.
pub fn first_partial(dtype: Dtype, axes: Axes, source: &NodeInfo) -> NodeInfo
    requires source { IsInfo source.now }
    requires bytes { product (partial_chunk_from axes 0 source.now.chunk) * size_of dtype ≤ 2 ^ 28 }
    ensures partial { result ≡ first_partial dtype axes source.now }
    ensures kept { IsMiddle result }
{
    NodeInfo {
        dtype,
        dims: partial_dims(axes, source),
        chunk: partial_chunk(axes, &source.chunk),
    }
}

/// The shape of the first array of partial results.
fn partial_dims(axes: Axes, source: &NodeInfo) -> Dims
    requires { IsInfo source.now }
    ensures { result ≡ group_counts (groups_of (has_axis axes) source.now.chunk) source.now.dims }
{
    let mut dims = source.dims;
    for axis in 0..source.dims.rank() {
        dims.put(axis, partial_size(axes, source, axis));
    }
    dims
}

/// How many partial results there are on an axis.
fn partial_size(axes: Axes, source: &NodeInfo, axis: u32) -> u64
    requires source { IsInfo source.now }
    requires axis { axis < length source.now.dims }
    ensures { result ≡ partial_size axes axis (slice_index source.now.dims axis) (slice_index source.now.chunk axis) }
{
    let _short = source.dims.rank();
    if has_axis(axes, axis) {
        count_on(source, axis).max(1)
    } else {
        source.dims.at(axis)
    }
}

/// The shape of its chunks.
fn partial_chunk(axes: Axes, chunk: &Dims) -> Dims
    ensures { result ≡ partial_chunk_from axes 0 chunk.now }
{
    let mut sizes = *chunk;
    for axis in 0..chunk.rank() {
        sizes.put(axis, chunk_on(axes, axis, chunk.at(axis)));
    }
    sizes
}

/// The chunk size of partial results on an axis, where the source's is `size`.
fn chunk_on(axes: Axes, axis: u32, size: u64) -> u64
    requires { axis < 8 }
    ensures { result ≡ (if has_axis axes axis then 1 else size) }
{
    if has_axis(axes, axis) { 1 } else { size }
}

/// How many chunks the inner axis of a product of matrices has: the last of the left operand.
pub fn inner_count(left: &NodeInfo) -> u64
    requires left { IsInfo left.now }
    requires rank { 1 ≤ length left.now.dims }
    ensures count { result ≡ inner_count left.now }
    ensures few { result ≤ 65536 }
{
    count_on(left, left.dims.rank() - 1)
}

/// How many chunks an array has on an axis.
fn count_on(info: &NodeInfo, axis: u32) -> u64
    requires info { IsInfo info.now }
    requires axis { axis < length info.now.dims }
    ensures count { result ≡ div_ceil (slice_index info.now.dims axis) (slice_index info.now.chunk axis) }
    ensures few { result ≤ 65536 }
{
    info.dims.at(axis).div_ceil(info.chunk.at(axis))
}

/// How many parts a product is made in: one for each chunk of the inner axis, at least one.
fn part_count(left: &NodeInfo) -> u64
    requires left { IsInfo left.now }
    requires rank { 1 ≤ length left.now.dims }
    ensures { result ≡ max 1 (inner_count left.now) }
{
    inner_count(left).max(1)
}

/// The first array of partial results of a product of matrices, of which `made` tells: one more, last axis numbers the chunks of the
/// inner axis, of which there is at least one.
pub fn product_partial(left: &NodeInfo, made: &NodeInfo) -> NodeInfo
    requires left { IsInfo left.now }
    requires rank { 1 ≤ length left.now.dims }
    requires made { IsInfo made.now }
    requires room { length made.now.dims < 6 }
    ensures partial { result ≡ product_partial left.now made.now }
    ensures kept { IsMiddle result }
{
    NodeInfo {
        dtype: made.dtype,
        dims: grown(&made.dims, part_count(left)),
        chunk: grown(&made.chunk, 1),
    }
}

/// The array of partial results after a round.
pub fn merged(round: &Round, partial: &NodeInfo) -> NodeInfo
    requires axis { round.now.axis < length partial.now.dims }
    ensures partial { result ≡ merged round.now partial.now }
    ensures kept { round.now.to ≤ slice_index partial.now.dims round.now.axis → IsMiddle partial.now → IsMiddle result }
{
    let mut after = *partial;
    after.dims.put(round.axis, round.to);
    after
}

/// How many chunks an array has.
pub(crate) fn chunks_of(info: &NodeInfo) -> u64
    requires { IsMiddle info.now }
    ensures count { result ≡ chunks_of info.now }
    ensures few { result ≤ 2 ^ 32 }
{
    Grid::make_middle(info.dims, info.chunk).count()
}

/// The bytes of a chunk of this shape and type.
pub fn bytes_of(chunk: &Dims, dtype: Dtype) -> u64
    requires { product chunk.now * size_of dtype ≤ 2 ^ 28 }
    ensures bytes { result ≡ product chunk.now * size_of dtype }
    ensures few { result ≤ 2 ^ 28 }
{
    match chunk.elements() {
        Some(elements) => elements * size(dtype),
        None => unreachable!(),
    }
}
