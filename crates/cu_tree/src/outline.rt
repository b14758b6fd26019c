//! The outlines of nodes: what is told of their operations before their arrays have numbers.

ghost use Rattle.std.specs.Prelude.{◌≡◌, ◌≤◌, ◌<◌, ◌+◌, ◌*◌, ◌^◌, ◌++◌, All, length, None, Some};
ghost use Rattle.cu_num.specs.Dtype.{size_of};
ghost use Rattle.cu_num.specs.declared.types.Dtype.TheVariants.{Int64};
ghost use Rattle.cu_shape.specs.Index.{product};
ghost use Rattle.cu_node.specs.Info.{IsInfo, chunk_bytes};
ghost use Rattle.cu_tree.specs.Outlines.{stored, values_before, merges_outline, chain_outline, reduction_outline, value_bytes, search_outline, product_outline, sum_merges_outline, carries_outline, cumulative_outline, outline_arrays, outline_tasks, outline_cells, outline_bytes, plain, IsOutline};
ghost use Rattle.cu_tree.specs.Partials.{partial_chunk_from, written_before, AreMerges, IsMiddle};
ghost use Rattle.cu_tree.specs.Sums.{AreSumRounds, IsSummed};

use crate::needs::{fold_bytes, merge_bytes, pair_fold_bytes, pair_merge_bytes, product_bytes};
use crate::partials::{bytes_of, chunks_of, first_partial, merged, product_partial};
use crate::round::Round;
use crate::sums::{carry_bytes, cumulative_rounds, sums_array, sums_count};
use crate::tree::{product_rounds, reduction_rounds};
use arrayvec::ArrayVec;
use cu_node::{NodeInfo, info_at};
use cu_num::Dtype;
use cu_origin::Axes;

/// What is told of an operation before its arrays have numbers. It has a task for each chunk of its result.
#[derive(Clone, Copy, Debug)]
pub struct Outlined {
    /// Its array of values, where it makes one beside the places of a search.
    pub values: Option<NodeInfo>,
    /// Its result.
    pub made: NodeInfo,
    /// The bytes of memory that a worker needs for one of its tasks, besides those that are reserved.
    pub bytes: u64,
}

impl Default for Outlined {
    ghost use Rattle.std.specs.Prelude.{◌≡◌};
    ghost use Rattle.cu_node.specs.Info.{no_info};

    ghost is_default = { λ r. r ≡ plain no_info 0 };

    fn default() -> Outlined {
        Outlined {
            values: None,
            made: info_at(&[], 0),
            bytes: 0,
        }
    }
}

/// What is told of the operations of a node, in order.
pub type Outline = ArrayVec<Outlined, 33>;

/// What is stored beside partial results, behind which these rounds follow.
fn values_before(values: Option<Dtype>, rounds: &[Round], partial: &NodeInfo) -> Option<NodeInfo>
    ensures { result ≡ values_before values rounds.now partial.now }
{
    match values {
        Some(dtype) if !rounds.is_empty() => Some(NodeInfo {
            dtype,
            dims: partial.dims,
            chunk: partial.chunk,
        }),
        _ => None,
    }
}

/// What is known of the array that is written before these rounds: the node's own where none follows.
fn written_before(rounds: &[Round], partial: &NodeInfo, made: &NodeInfo) -> NodeInfo
    ensures { result ≡ written_before rounds.now partial.now made.now }
{
    if rounds.is_empty() { *made } else { *partial }
}

/// Appends a merge for each round, behind these partial results.
fn push_merges(
    outline: &mut Outline,
    values: Option<Dtype>,
    bytes: u64,
    partial: &NodeInfo,
    rounds: &[Round],
    made: &NodeInfo,
)
    requires rounds { AreMerges partial.now rounds.now }
    requires room { length outline.old.items + length rounds.now ≤ 33 }
    ensures { outline.new.items ≡ outline.old.items ++ merges_outline values bytes partial.now rounds.now made.now }
{
    let mut before = *partial;
    for at in 0..rounds.len() {
        before = merged(&rounds[at], &before);
        let rest = &rounds[at + 1..];
        outline.push(Outlined {
            values: values_before(values, rest, &before),
            made: written_before(rest, &before, made),
            bytes,
        });
    }
}

/// An operation of so many bytes, and merges of so many behind it.
fn chain(
    values: Option<Dtype>,
    first: u64,
    merge: u64,
    partial: &NodeInfo,
    rounds: &[Round],
    made: &NodeInfo,
) -> Outline
    requires rounds { AreMerges partial.now rounds.now }
    requires few { length rounds.now ≤ 24 }
    ensures { result.items ≡ chain_outline values first merge partial.now rounds.now made.now }
{
    let mut outline = ArrayVec::new();
    outline.push(Outlined {
        values: values_before(values, rounds, partial),
        made: written_before(rounds, partial, made),
        bytes: first,
    });
    push_merges(&mut outline, values, merge, partial, rounds, made);
    outline
}

/// The outline of a reduction of the source over these axes.
pub fn reduction_outline(
    split_every: u32,
    made: &NodeInfo,
    source: &NodeInfo,
    axes: Axes,
) -> Outline
    requires several { 2 ≤ split_every }
    requires made { IsInfo made.now }
    requires source { IsInfo source.now }
    requires partial { product (partial_chunk_from axes 0 source.now.chunk) * size_of made.now.dtype ≤ 2 ^ 28 }
    ensures outline { result.items ≡ reduction_outline split_every made.now source.now axes }
    ensures kept { IsOutline made.now result.items }
    ensures light { outline_bytes result.items ≤ 2 ^ 62 }
{
    let rounds = reduction_rounds(axes, split_every, source);
    let partial = first_partial(made.dtype, axes, source);
    let to = bytes_of(&made.chunk, made.dtype);
    let first = fold_bytes(bytes_of(&source.chunk, source.dtype), to);
    chain(
        None,
        first,
        merge_bytes(split_every, to),
        &partial,
        rounds.as_slice(),
        made,
    )
}

/// The outline of a search for places in the source along these axes.
pub fn search_outline(split_every: u32, made: &NodeInfo, source: &NodeInfo, axes: Axes) -> Outline
    requires several { 2 ≤ split_every }
    requires made { IsInfo made.now }
    requires places { made.now.dtype ≡ Int64 }
    requires source { IsInfo source.now }
    requires partial { product (partial_chunk_from axes 0 source.now.chunk) * 8 ≤ 2 ^ 28 }
    ensures outline { result.items ≡ search_outline split_every made.now source.now axes }
    ensures kept { IsOutline made.now result.items }
    ensures light { outline_bytes result.items ≤ 2 ^ 62 }
{
    let rounds = reduction_rounds(axes, split_every, source);
    let partial = first_partial(Dtype::Int64, axes, source);
    let values = bytes_of(&made.chunk, source.dtype);
    let places = bytes_of(&made.chunk, made.dtype);
    let first = pair_fold_bytes(bytes_of(&source.chunk, source.dtype), values, places);
    chain(
        Some(source.dtype),
        first,
        pair_merge_bytes(split_every, values, places),
        &partial,
        rounds.as_slice(),
        made,
    )
}

/// The outline of a product of chunks of so many bytes, and of groups by labels: there is a part for each chunk of the inner axis of
/// `left`.
pub fn product_outline(
    split_every: u32,
    made: &NodeInfo,
    left: &NodeInfo,
    left_bytes: u64,
    right_bytes: u64,
) -> Outline
    requires several { 2 ≤ split_every }
    requires made { IsInfo made.now }
    requires room { length made.now.dims < 6 }
    requires left { IsInfo left.now }
    requires rank { 1 ≤ length left.now.dims }
    requires left_bytes { left_bytes ≤ 2 ^ 28 }
    requires right_bytes { right_bytes ≤ 2 ^ 28 }
    ensures outline { result.items ≡ product_outline split_every made.now left.now left_bytes right_bytes }
    ensures kept { IsOutline made.now result.items }
    ensures light { outline_bytes result.items ≤ 2 ^ 62 }
{
    let rounds = product_rounds(split_every, left, made);
    let partial = product_partial(left, made);
    let to = bytes_of(&made.chunk, made.dtype);
    chain(
        None,
        product_bytes(left_bytes, right_bytes, to),
        merge_bytes(split_every, to),
        &partial,
        rounds.as_slice(),
        made,
    )
}

/// Appends a merge of sums for each round.
fn push_sum_merges(
    outline: &mut Outline,
    split_every: u32,
    axis: u32,
    bytes: u64,
    sums: &NodeInfo,
    rounds: &[Round],
)
    requires rounds { AreSumRounds split_every axis sums.now.dims rounds.now }
    requires room { length outline.old.items + length rounds.now ≤ 33 }
    ensures merges { outline.new.items ≡ outline.old.items ++ sum_merges_outline bytes sums.now rounds.now }
    ensures long { length outline.new.items ≡ length outline.old.items + length rounds.now }
{
    let mut before = *sums;
    for round in rounds {
        before = merged(round, &before);
        outline.push(Outlined {
            values: None,
            made: before,
            bytes,
        });
    }
}

/// Appends a carry for each array of sums, the last first.
fn push_carries(
    outline: &mut Outline,
    split_every: u32,
    axis: u32,
    bytes: u64,
    sums: &NodeInfo,
    rounds: &[Round],
)
    requires rounds { AreSumRounds split_every axis sums.now.dims rounds.now }
    requires room { length outline.old.items + length rounds.now + 1 ≤ 33 }
    ensures carries { outline.new.items ≡ outline.old.items ++ carries_outline bytes sums.now rounds.now }
    ensures long { length outline.new.items ≡ length outline.old.items + length rounds.now + 1 }
{
    if !rounds.is_empty() {
        let after = merged(&rounds[0], sums);
        push_carries(outline, split_every, axis, bytes, &after, &rounds[1..]);
    }
    outline.push(Outlined {
        values: None,
        made: *sums,
        bytes,
    });
}

/// The operations of prefix sums of the source along an axis.
fn summed(split_every: u32, made: &NodeInfo, source: &NodeInfo, axis: u32) -> Outline
    requires several { 2 ≤ split_every }
    requires summed { IsSummed made.now source.now axis }
    ensures { result.items ≡ cumulative_outline split_every made.now source.now axis }
{
    let mut outline = ArrayVec::new();
    let from = bytes_of(&source.chunk, source.dtype);
    let to = bytes_of(&made.chunk, made.dtype);
    if sums_count(made, source, axis) <= 1 {
        outline.push(Outlined {
            values: None,
            made: *made,
            bytes: fold_bytes(from, to),
        });
        return outline;
    }
    let sums = sums_array(made, source, axis);
    let rounds = cumulative_rounds(split_every, made, source, axis);
    let each = bytes_of(&sums.chunk, sums.dtype);
    let merge = merge_bytes(split_every, each);
    let carry = carry_bytes(split_every, each);
    outline.push(Outlined {
        values: None,
        made: sums,
        bytes: fold_bytes(from, each),
    });
    push_sum_merges(
        &mut outline,
        split_every,
        axis,
        merge,
        &sums,
        rounds.as_slice(),
    );
    push_carries(
        &mut outline,
        split_every,
        axis,
        carry,
        &sums,
        rounds.as_slice(),
    );
    outline.push(Outlined {
        values: None,
        made: *made,
        bytes: product_bytes(from, each, to),
    });
    outline
}

/// The outline of prefix sums of the source along an axis.
pub fn cumulative_outline(
    split_every: u32,
    made: &NodeInfo,
    source: &NodeInfo,
    axis: u32,
) -> Outline
    requires several { 2 ≤ split_every }
    requires summed { IsSummed made.now source.now axis }
    ensures outline { result.items ≡ cumulative_outline split_every made.now source.now axis }
    ensures kept { IsOutline made.now result.items }
    ensures light { outline_bytes result.items ≤ 2 ^ 62 }
{
    summed(split_every, made, source, axis)
}

/// The tasks of the operations.
pub fn outline_tasks(outline: &[Outlined]) -> u64
    requires kept { All IsMiddle (outline_arrays outline.now) }
    requires few { length outline.now ≤ 33 }
    ensures tasks { result ≡ outline_tasks outline.now }
    ensures small { result ≤ 2 ^ 38 }
{
    let mut tasks = 0;
    for one in outline {
        tasks += chunks_of(&one.made);
    }
    tasks
}

/// The chunks that they store.
pub fn outline_cells(outline: &[Outlined]) -> u64
    requires kept { All IsMiddle (outline_arrays outline.now) }
    requires few { length outline.now ≤ 33 }
    ensures cells { result ≡ outline_cells outline.now }
    ensures small { result ≤ 2 ^ 39 }
{
    let mut cells = 0;
    for one in outline {
        if let Some(values) = one.values {
            cells += chunks_of(&values);
        }
        cells += chunks_of(&one.made);
    }
    cells
}

/// The most bytes that one of their tasks needs besides those that are reserved; 0 where there is none.
pub fn outline_bytes(outline: &[Outlined]) -> u64
    ensures { result ≡ outline_bytes outline.now }
{
    let mut most = 0;
    for one in outline {
        most = one.bytes.max(most);
    }
    most
}
