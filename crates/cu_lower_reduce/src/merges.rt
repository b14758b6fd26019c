//! The steps that merge partial results.

ghost use Rattle.std.specs.Prelude.{◌≡◌, ◌≤◌, ◌<◌, ◌^◌, ◌*◌, Some, slice_get, length};
ghost use Rattle.cu_num.specs.Dtype.{size_of};
ghost use Rattle.cu_shape.specs.Index.{product};
ghost use Rattle.cu_tree.specs.Partials.{written_before, AreMerges};
ghost use Rattle.cu_lower_reduce.specs.Partials.{partial_after, IsSetting};
ghost use Rattle.cu_lower_reduce.specs.Reductions.{merges};
ghost use Rattle.cu_node.specs.Info.{chunk_bytes};

use crate::step::{Setting, Step};
use cu_node::NodeInfo;
use cu_num::{Dtype, FoldKind, size};
use cu_op::Op;
use cu_shape::Dims;
use cu_tree::{Round, merge_bytes, merged};

/// The bytes of a chunk of this shape and type.
pub(crate) fn bytes_of(chunk: &Dims, dtype: Dtype) -> u64
    requires { product chunk.now * size_of dtype ≤ 2 ^ 28 }
    ensures bytes { result ≡ product chunk.now * size_of dtype }
    ensures few { result ≤ 2 ^ 28 }
{
    match chunk.elements() {
        Some(elements) => elements * size(dtype),
        None => unreachable!(),
    }
}

/// What is known of the array that is written before these rounds: the node's own where none follows.
pub(crate) fn written_before(rounds: &[Round], partial: &NodeInfo, made: &NodeInfo) -> NodeInfo
    ensures { result ≡ written_before rounds.now partial.now made.now }
{
    if rounds.is_empty() { *made } else { *partial }
}

/// The array of partial results after so many of the rounds.
pub(crate) fn partial_after(partial: &NodeInfo, rounds: &[Round], count: u32) -> NodeInfo
    requires count { count ≤ length rounds.now }
    requires rounds { AreMerges partial.now rounds.now }
    ensures { result ≡ partial_after partial.now rounds.now count }
{
    let mut after = *partial;
    for at in 0..count {
        after = merged(&rounds[at as usize], &after);
    }
    after
}

/// A merge of partial results by its number among those of a node, `made` being what is known of the node's own array, and `partial` of
/// the first array of partial results.
pub(crate) fn merge_step(
    s: &Setting,
    kind: FoldKind,
    made: &NodeInfo,
    partial: &NodeInfo,
    rounds: &[Round],
    at: u32,
) -> Step
    requires setting { IsSetting s.now }
    requires bytes { chunk_bytes made.now ≤ 2 ^ 28 }
    requires rounds { AreMerges partial.now rounds.now }
    requires few { length rounds.now ≤ 24 }
    requires within { at < length rounds.now }
    ensures { slice_get (merges s.now kind made.now s.now.first partial.now rounds.now) at ≡ Some result }
{
    let after = partial_after(partial, rounds, at + 1);
    Step {
        op: Op::Merge {
            kind,
            axis: rounds[at as usize].axis,
            group: s.split_every,
            source: s.first + at,
            out: s.first + at + 1,
        },
        values: None,
        made: written_before(&rounds[at as usize + 1..], &after, made),
        need: s.reserved + merge_bytes(s.split_every, bytes_of(&made.chunk, made.dtype)),
    }
}
