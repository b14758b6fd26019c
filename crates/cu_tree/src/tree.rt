ghost use Rattle.std.specs.Prelude.{◌≡◌, ◌+◌, ◌<◌, ◌≤◌, ◌++◌, length};
ghost use Rattle.arrayvec.specs.ArrayVec.{array_vec_len};
ghost use Rattle.cu_shape.specs.Index.{product};
ghost use Rattle.cu_shape.specs.Counts.{at_least_one};
ghost use Rattle.cu_origin.specs.Pull.{has_axis};
ghost use Rattle.cu_node.specs.Info.{IsInfo};
ghost use Rattle.cu_tree.specs.Partials.{reduction_rounds, product_rounds};
ghost use Rattle.cu_tree.specs.Rounds.{axis_rounds, merged_on, rounds_of, AreRounds};

use crate::partials::inner_count;
use crate::round::Round;
use arrayvec::ArrayVec;
use cu_node::NodeInfo;
use cu_origin::Axes;
use cu_shape::{Dims, chunk_counts};

/// The rounds that merge the partial results of a reduction over `axes`, of which there are so many on each axis, until none
/// of the axes of the reduction has more than one. A round takes the lowest of these axes that has more than one and merges groups of
/// `split_every` neighbours.
pub fn rounds(counts: &Dims, axes: Axes, split_every: u32) -> ArrayVec<Round, 24>
    requires partials { product (at_least_one counts.now) ≤ 65536 }
    requires groups { 2 ≤ split_every }
    ensures rounds { result.items ≡ rounds_of axes split_every counts.now }
    ensures merges { AreRounds axes split_every counts.now result.items }
    ensures few { array_vec_len result ≤ 24 }
{
    let mut rounds = ArrayVec::new();
    for axis in 0..counts.rank() {
        let count = merged_on(axes, axis, counts.at(axis));
        push_rounds(&mut rounds, axis, count, split_every);
    }
    rounds
}

/// The rounds of a reduction of the source along some axes: there is a partial result for each of its chunks.
pub fn reduction_rounds(axes: Axes, split_every: u32, source: &NodeInfo) -> ArrayVec<Round, 24>
    requires source { IsInfo source.now }
    requires groups { 2 ≤ split_every }
    ensures rounds { result.items ≡ reduction_rounds axes split_every source.now }
    ensures few { array_vec_len result ≤ 24 }
{
    rounds(
        &chunk_counts(&source.dims, &source.chunk),
        axes,
        split_every,
    )
}

/// The rounds of a product of matrices, of which `made` tells: there is a partial result for each chunk of the inner axis, and they are
/// numbered by the axis behind the product's.
pub fn product_rounds(split_every: u32, left: &NodeInfo, made: &NodeInfo) -> ArrayVec<Round, 24>
    requires left { IsInfo left.now }
    requires rank { 1 ≤ length left.now.dims }
    requires groups { 2 ≤ split_every }
    ensures rounds { result.items ≡ product_rounds split_every left.now made.now }
    ensures few { array_vec_len result ≤ 24 }
{
    let mut rounds = ArrayVec::new();
    push_rounds(
        &mut rounds,
        made.dims.rank(),
        inner_count(left),
        split_every,
    );
    rounds
}

/// Appends the rounds of one axis that has `count` partial results.
fn push_rounds(rounds: &mut ArrayVec<Round, 24>, axis: u32, count: u64, split_every: u32)
    requires groups { 2 ≤ split_every }
    requires room { length rounds.old.items + length (axis_rounds split_every axis count count) ≤ 24 }
    ensures { rounds.new.items ≡ rounds.old.items ++ axis_rounds split_every axis count count }
{
    let mut from = count;
    while from > 1 {
        let to = from.div_ceil(u64::from(split_every));
        rounds.push(Round { axis, from, to });
        from = to;
    }
}

/// The number of partial results on an axis that are to be merged, of `count`: one where the axis isn't reduced.
fn merged_on(axes: Axes, axis: u32, count: u64) -> u64
    requires { axis < 8 }
    ensures { result ≡ merged_on axes axis count }
{
    if has_axis(axes, axis) { count } else { 1 }
}

/// Whether an axis is in a set.
pub(crate) fn has_axis(axes: Axes, axis: u32) -> bool
    requires { axis < 8 }
    ensures { result ≡ has_axis axes axis }
{
    (axes.0 >> axis) & 1 == 1
}
