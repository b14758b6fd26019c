//! The steps of prefix sums along an axis.

ghost use Rattle.std.specs.Prelude.{◌≡◌, ◌≤◌, ◌<◌, ◌+◌, ◌^◌, Some, None, slice_get, length};
ghost use Rattle.cu_tree.specs.Needs.{fold_need, product_need};
ghost use Rattle.cu_tree.specs.Sums.{AreSumRounds};
ghost use Rattle.cu_tree.specs.Partials.{IsMiddle};
ghost use Rattle.cu_lower_reduce.specs.Cumulative.{cumulative_steps, sum_carries, sum_merges, summed_step, scanned_step, carry_before, first_carry, IsCumulative};
ghost use Rattle.cu_lower_reduce.specs.Partials.{partial_after, IsSetting};
ghost use Rattle.cu_node.specs.Info.{chunk_bytes};

use crate::merges::bytes_of;
use crate::step::{Setting, Step};
use cu_node::NodeInfo;
use cu_num::FoldKind;
use cu_op::Op;
use cu_tree::{
    Round, carry_bytes, cumulative_rounds, fold_bytes, merge_bytes, merged, product_bytes,
    sought_axes, sums_array, sums_count,
};

/// Prefix sums along an axis of an array.
#[derive(Clone, Copy)]
pub struct Cumulative {
    /// The number of the array.
    pub source: u32,
    /// What is known of it.
    pub from: NodeInfo,
    /// What is known of the result.
    pub made: NodeInfo,
    /// The axis along which is summed.
    pub axis: u32,
}

/// The number of steps of prefix sums.
pub fn cumulative_step_count(s: &Setting, x: &Cumulative) -> u32
    requires setting { IsSetting s.now }
    requires cumulative { IsCumulative x.now }
    ensures count { result ≡ length (cumulative_steps s.now x.now) }
    ensures few { result ≤ 33 }
{
    if sums_count(&x.made, &x.from, x.axis) <= 1 {
        return 1;
    }
    let rounds = cumulative_rounds(s.split_every, &x.made, &x.from, x.axis);
    2 * rounds.len() as u32 + 3
}

/// A step of prefix sums by its number: a scan where the axis has one chunk; otherwise first a fold of each chunk, then a merge of sums for
/// each round, then a carry for each array of sums from the last to the first, and at last a scan.
pub fn cumulative_step(s: &Setting, x: &Cumulative, at: u32) -> Step
    requires setting { IsSetting s.now }
    requires cumulative { IsCumulative x.now }
    requires within { at < length (cumulative_steps s.now x.now) }
    ensures { slice_get (cumulative_steps s.now x.now) at ≡ Some result }
{
    if sums_count(&x.made, &x.from, x.axis) <= 1 {
        return lone_scan(s, x);
    }
    let rounds = cumulative_rounds(s.split_every, &x.made, &x.from, x.axis);
    let sums = sums_array(&x.made, &x.from, x.axis);
    let count = rounds.len() as u32;
    if at == 0 {
        summed_step(s, x, &sums)
    } else if at <= count {
        regrouped_step(s, x.axis, &sums, rounds.as_slice(), at - 1)
    } else if at <= 2 * count + 1 {
        carried_step(s, x.axis, &sums, rounds.as_slice(), at - count - 1)
    } else {
        scanned_step(s, x, &sums, count)
    }
}

/// The only step, where the axis has one chunk.
fn lone_scan(s: &Setting, x: &Cumulative) -> Step
    requires setting { IsSetting s.now }
    requires cumulative { IsCumulative x.now }
    ensures { result ≡ scanned_step x.now None s.now.first (fold_need s.now.reserved (chunk_bytes x.now.from) (chunk_bytes x.now.made)) }
{
    let from = bytes_of(&x.from.chunk, x.from.dtype);
    let made = bytes_of(&x.made.chunk, x.made.dtype);
    Step {
        op: Op::Scan {
            axis: x.axis,
            source: x.source,
            carry: None,
            out: s.first,
        },
        values: None,
        made: x.made,
        need: s.reserved + fold_bytes(from, made),
    }
}

/// The first of several steps.
fn summed_step(s: &Setting, x: &Cumulative, sums: &NodeInfo) -> Step
    requires setting { IsSetting s.now }
    requires cumulative { IsCumulative x.now }
    requires sums { IsMiddle sums.now }
    ensures { result ≡ summed_step s.now x.now sums.now }
{
    let from = bytes_of(&x.from.chunk, x.from.dtype);
    let made = bytes_of(&sums.chunk, sums.dtype);
    Step {
        op: Op::Fold {
            kind: FoldKind::Sum,
            axes: sought_axes(Some(x.axis)),
            source: x.source,
            out: s.first,
        },
        values: None,
        made: *sums,
        need: s.reserved + fold_bytes(from, made),
    }
}

/// The array of sums after so many of the rounds.
fn sums_after(
    split_every: u32,
    axis: u32,
    sums: &NodeInfo,
    rounds: &[Round],
    count: u32,
) -> NodeInfo
    requires count { count ≤ length rounds.now }
    requires rounds { AreSumRounds split_every axis sums.now.dims rounds.now }
    ensures { result ≡ partial_after sums.now rounds.now count }
{
    let mut after = *sums;
    for at in 0..count {
        after = merged(&rounds[at as usize], &after);
    }
    after
}

/// A merge of sums by its number, `sums` being what is known of the first array of sums.
fn regrouped_step(s: &Setting, axis: u32, sums: &NodeInfo, rounds: &[Round], at: u32) -> Step
    requires setting { IsSetting s.now }
    requires sums { IsMiddle sums.now }
    requires rounds { AreSumRounds s.now.split_every axis sums.now.dims rounds.now }
    requires few { length rounds.now ≤ 15 }
    requires within { at < length rounds.now }
    ensures { slice_get (sum_merges s.now s.now.first sums.now rounds.now) at ≡ Some result }
{
    let bytes = bytes_of(&sums.chunk, sums.dtype);
    Step {
        op: Op::Merge {
            kind: FoldKind::Sum,
            axis: rounds[at as usize].axis,
            group: s.split_every,
            source: s.first + at,
            out: s.first + at + 1,
        },
        values: None,
        made: sums_after(s.split_every, axis, sums, rounds, at + 1),
        need: s.reserved + merge_bytes(s.split_every, bytes),
    }
}

/// The number of the carried array before the one of this place, where there is one.
fn carry_before(next: u32, at: u32) -> Option<u32>
    requires { next + at < 2 ^ 32 }
    ensures { result ≡ carry_before next at }
{
    if at == 0 { None } else { Some(next + at - 1) }
}

/// A carry by its number: the first is that of the last array of sums.
fn carried_step(s: &Setting, axis: u32, sums: &NodeInfo, rounds: &[Round], at: u32) -> Step
    requires setting { IsSetting s.now }
    requires sums { IsMiddle sums.now }
    requires rounds { AreSumRounds s.now.split_every axis sums.now.dims rounds.now }
    requires few { length rounds.now ≤ 15 }
    requires within { at ≤ length rounds.now }
    ensures { slice_get (sum_carries s.now axis s.now.first sums.now rounds.now (first_carry s.now rounds.now)) at ≡ Some result }
{
    let count = rounds.len() as u32;
    let next = s.first + count + 1;
    let bytes = bytes_of(&sums.chunk, sums.dtype);
    Step {
        op: Op::Carry {
            axis,
            group: s.split_every,
            sums: s.first + (count - at),
            above: carry_before(next, at),
            out: next + at,
        },
        values: None,
        made: sums_after(s.split_every, axis, sums, rounds, count - at),
        need: s.reserved + carry_bytes(s.split_every, bytes),
    }
}

/// The last step, behind so many rounds.
fn scanned_step(s: &Setting, x: &Cumulative, sums: &NodeInfo, count: u32) -> Step
    requires setting { IsSetting s.now }
    requires cumulative { IsCumulative x.now }
    requires sums { IsMiddle sums.now }
    requires few { count ≤ 15 }
    ensures { result ≡ scanned_step x.now (Some (s.now.first + count + 1 + count)) (s.now.first + count + 1 + count + 1) (product_need s.now.reserved (chunk_bytes x.now.from) (chunk_bytes sums.now) (chunk_bytes x.now.made)) }
{
    let from = bytes_of(&x.from.chunk, x.from.dtype);
    let carried = bytes_of(&sums.chunk, sums.dtype);
    let made = bytes_of(&x.made.chunk, x.made.dtype);
    let carry = s.first + 2 * count + 1;
    Step {
        op: Op::Scan {
            axis: x.axis,
            source: x.source,
            carry: Some(carry),
            out: carry + 1,
        },
        values: None,
        made: x.made,
        need: s.reserved + product_bytes(from, carried, made),
    }
}
