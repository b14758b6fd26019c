//! The steps of a reduction.

ghost use Rattle.std.specs.Prelude.{◌≡◌, ◌≤◌, ◌<◌, Some, slice_get, length};
ghost use Rattle.cu_lower_reduce.specs.Partials.{IsSetting};
ghost use Rattle.cu_lower_reduce.specs.Reductions.{folded, reduction_steps, IsReduction};

use crate::merges::{bytes_of, merge_step, written_before};
use crate::step::{Setting, Step};
use cu_node::NodeInfo;
use cu_num::FoldKind;
use cu_op::Op;
use cu_origin::Axes;
use cu_tree::{Round, first_partial, fold_bytes, reduction_rounds};

/// A reduction of an array.
#[derive(Clone, Copy)]
pub struct Reduction {
    /// What is made of the elements.
    pub kind: FoldKind,
    /// The axes that are reduced.
    pub axes: Axes,
    /// The number of the array.
    pub source: u32,
    /// What is known of it.
    pub from: NodeInfo,
    /// What is known of the result.
    pub made: NodeInfo,
}

/// The number of steps of a reduction.
pub fn reduction_step_count(s: &Setting, x: &Reduction) -> u32
    requires setting { IsSetting s.now }
    requires reduction { IsReduction x.now }
    ensures count { result ≡ length (reduction_steps s.now x.now) }
    ensures few { result ≤ 25 }
{
    reduction_rounds(x.axes, s.split_every, &x.from).len() as u32 + 1
}

/// A step of a reduction by its number: first a fold of each chunk of the array, and then a merge of its partial results for each round.
pub fn reduction_step(s: &Setting, x: &Reduction, at: u32) -> Step
    requires setting { IsSetting s.now }
    requires reduction { IsReduction x.now }
    requires within { at < length (reduction_steps s.now x.now) }
    ensures { slice_get (reduction_steps s.now x.now) at ≡ Some result }
{
    let rounds = reduction_rounds(x.axes, s.split_every, &x.from);
    let partial = first_partial(x.made.dtype, x.axes, &x.from);
    if at == 0 {
        fold_step(s, x, &partial, rounds.as_slice())
    } else {
        merge_step(s, x.kind, &x.made, &partial, rounds.as_slice(), at - 1)
    }
}

/// The first step.
fn fold_step(s: &Setting, x: &Reduction, partial: &NodeInfo, rounds: &[Round]) -> Step
    requires setting { IsSetting s.now }
    requires reduction { IsReduction x.now }
    ensures { slice_get (folded s.now x.now partial.now rounds.now) 0 ≡ Some result }
{
    let source = bytes_of(&x.from.chunk, x.from.dtype);
    let made = bytes_of(&x.made.chunk, x.made.dtype);
    Step {
        op: Op::Fold {
            kind: x.kind,
            axes: x.axes,
            source: x.source,
            out: s.first,
        },
        values: None,
        made: written_before(rounds, partial, &x.made),
        need: s.reserved + fold_bytes(source, made),
    }
}
