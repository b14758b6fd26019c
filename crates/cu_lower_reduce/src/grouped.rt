//! The steps of a fold by labels.

ghost use Rattle.std.specs.Prelude.{◌≡◌, ◌≤◌, ◌<◌, Some, slice_get, length};
ghost use Rattle.cu_lower_reduce.specs.Partials.{IsSetting};
ghost use Rattle.cu_lower_reduce.specs.Grouped.{labels_folded, grouped_steps, IsGrouped};

use crate::merges::{bytes_of, merge_step, written_before};
use crate::step::{Setting, Step};
use cu_node::NodeInfo;
use cu_num::FoldKind;
use cu_op::Op;
use cu_tree::{Round, product_bytes, product_partial, product_rounds};

/// A fold of an array by labels, which have the array's chunks along the axis.
#[derive(Clone, Copy)]
pub struct Grouped {
    /// What is made of the elements of a label.
    pub kind: FoldKind,
    /// The axis along which the labels go.
    pub axis: u32,
    /// How many groups there are.
    pub groups: u32,
    /// The number of the array.
    pub source: u32,
    /// The number of the labels.
    pub labels: u32,
    /// What is known of the array.
    pub source_info: NodeInfo,
    /// What is known of the labels.
    pub labels_info: NodeInfo,
    /// What is known of the result.
    pub made: NodeInfo,
}

/// The number of steps of a fold by labels.
pub fn grouped_step_count(s: &Setting, x: &Grouped) -> u32
    requires setting { IsSetting s.now }
    requires grouped { IsGrouped x.now }
    ensures count { result ≡ length (grouped_steps s.now x.now) }
    ensures few { result ≤ 25 }
{
    product_rounds(s.split_every, &x.labels_info, &x.made).len() as u32 + 1
}

/// A step of a fold by labels by its number: first the groups of each chunk of the axis, and then a merge of them for each round.
pub fn grouped_step(s: &Setting, x: &Grouped, at: u32) -> Step
    requires setting { IsSetting s.now }
    requires grouped { IsGrouped x.now }
    requires within { at < length (grouped_steps s.now x.now) }
    ensures { slice_get (grouped_steps s.now x.now) at ≡ Some result }
{
    let rounds = product_rounds(s.split_every, &x.labels_info, &x.made);
    let partial = product_partial(&x.labels_info, &x.made);
    if at == 0 {
        group_step(s, x, &partial, rounds.as_slice())
    } else {
        merge_step(s, x.kind, &x.made, &partial, rounds.as_slice(), at - 1)
    }
}

/// The first step.
fn group_step(s: &Setting, x: &Grouped, partial: &NodeInfo, rounds: &[Round]) -> Step
    requires setting { IsSetting s.now }
    requires grouped { IsGrouped x.now }
    ensures { slice_get (labels_folded s.now x.now partial.now rounds.now) 0 ≡ Some result }
{
    let source = bytes_of(&x.source_info.chunk, x.source_info.dtype);
    let labels = bytes_of(&x.labels_info.chunk, x.labels_info.dtype);
    let made = bytes_of(&x.made.chunk, x.made.dtype);
    Step {
        op: Op::GroupFold {
            kind: x.kind,
            axis: x.axis,
            groups: x.groups,
            source: x.source,
            labels: x.labels,
            out: s.first,
        },
        values: None,
        made: written_before(rounds, partial, &x.made),
        need: s.reserved + product_bytes(source, labels, made),
    }
}
