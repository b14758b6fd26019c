ghost use Rattle.std.specs.Prelude.{◌≡◌};
ghost use Rattle.std.specs.List.{list_all};
ghost use Rattle.cu_form.specs.Form.{args_of, names_earlier, is_array, are_arrays, element_takes, takes_args, group_kind};

use crate::args::Arg;
use cu_name::IdText;
use cu_node::{ElementOp, IndexItem, Items, Literal, NewShape};
use cu_num::{Dtype, FoldKind};

/// What a node of an expression is: its operator with the members of its row. Lists may have any length. Axes and shifts
/// that are negative count from the end or go the other way, as the operator says. Sizes are counts of elements.
#[derive(Drop)]
pub enum Form {
    /// the stored array with this name
    Input {
        name: IdText,
    },
    Elementwise {
        op: ElementOp,
        args: Items<Arg>,
    },
    /// one value everywhere
    Full {
        shape: Items<u64>,
        dtype: Dtype,
        value: Literal,
        chunk: Items<u64>,
    },
    /// start, start + step, and so on before stop
    Arange {
        start: i64,
        stop: i64,
        step: i64,
        dtype: Dtype,
        chunk: Items<u64>,
    },
    /// 1 on the k-th diagonal, else 0
    Eye {
        rows: u64,
        cols: u64,
        k: i64,
        dtype: Dtype,
        chunk: Items<u64>,
    },
    /// `tril` where `lower` holds, else `triu`
    Triangle {
        lower: bool,
        args: Items<Arg>,
        k: i64,
    },
    /// an index with integers, slices, new axes and an ellipsis
    Index {
        args: Items<Arg>,
        items: Items<IndexItem>,
    },
    Concat {
        args: Items<Arg>,
        axis: i64,
    },
    Stack {
        args: Items<Arg>,
        axis: i64,
    },
    PermuteDims {
        args: Items<Arg>,
        axes: Items<i64>,
    },
    /// `reshape`, `expand_dims` and `squeeze`
    Reshape {
        args: Items<Arg>,
        shape: NewShape,
    },
    /// along these axes, or along all
    Flip {
        args: Items<Arg>,
        axes: Option<Items<i64>>,
    },
    Roll {
        args: Items<Arg>,
        shifts: Items<i64>,
        axes: Items<i64>,
    },
    BroadcastTo {
        args: Items<Arg>,
        shape: Items<u64>,
        chunk: Items<u64>,
    },
    /// the same elements in chunks of this shape
    Rechunk {
        args: Items<Arg>,
        chunk: Items<u64>,
    },
    /// over these axes, or over all
    Reduce {
        kind: FoldKind,
        args: Items<Arg>,
        axes: Option<Items<i64>>,
        keepdims: bool,
    },
    /// `argmin` where `least` holds, else `argmax`; along the axis, or over the whole array
    ArgPlace {
        least: bool,
        args: Items<Arg>,
        axis: Option<i64>,
        keepdims: bool,
    },
    Matmul {
        args: Items<Arg>,
    },
    /// the sums up to each place along the axis, or along the one axis there is
    CumulativeSum {
        args: Items<Arg>,
        axis: Option<i64>,
    },
    /// `groupby_min` where `least` holds, else `groupby_sum`: along the axis, by labels below `groups`
    GroupBy {
        least: bool,
        args: Items<Arg>,
        axis: i64,
        groups: u32,
    },
}

/// What is made of a group: the least of its elements or their sum.
pub fn group_kind(least: bool) -> FoldKind
    ensures { result ≡ group_kind least }
{
    if least { FoldKind::Min } else { FoldKind::Sum }
}

/// The most arguments of `concat` and `stack`.
const MOST_JOINED: usize = 8;

/// Whether an elementwise function takes these arguments: as many, with an array where it wants one.
fn element_takes(op: &ElementOp, args: &[Arg]) -> bool
    ensures { result ≡ element_takes op.now args.now }
{
    match (op, args) {
        (ElementOp::Two(_) | ElementOp::Extreme(_), [x, y]) => x.is_array() || y.is_array(),
        (ElementOp::Where, [c, x, y]) => c.is_array() && (x.is_array() || y.is_array()),
        (ElementOp::Two(_) | ElementOp::Extreme(_) | ElementOp::Where, _) => false,
        (ElementOp::One(_) | ElementOp::Astype(_) | ElementOp::Clip(..), _) => {
            are_arrays(1, 1, args)
        }
    }
}

impl Form {
    /// The arguments, in order; none where the operator has no arguments.
    pub fn args(&self) -> &[Arg]
        ensures { result.now ≡ args_of self.now }
    {
        match self {
            Form::Input { .. } | Form::Full { .. } | Form::Arange { .. } | Form::Eye { .. } => &[],
            Form::Elementwise { args, .. }
            | Form::Triangle { args, .. }
            | Form::Index { args, .. }
            | Form::Concat { args, .. }
            | Form::Stack { args, .. }
            | Form::PermuteDims { args, .. }
            | Form::Reshape { args, .. }
            | Form::Flip { args, .. }
            | Form::Roll { args, .. }
            | Form::BroadcastTo { args, .. }
            | Form::Rechunk { args, .. }
            | Form::Reduce { args, .. }
            | Form::ArgPlace { args, .. }
            | Form::Matmul { args }
            | Form::CumulativeSum { args, .. }
            | Form::GroupBy { args, .. } => args.as_slice(),
        }
    }

    /// Whether the form has as many arguments as its operator takes, and no number or truth value where that wants an array.
    pub fn takes_args(&self) -> bool
        ensures { result ≡ takes_args self.now }
    {
        match self {
            Form::Input { .. } | Form::Full { .. } | Form::Arange { .. } | Form::Eye { .. } => true,
            Form::Elementwise { op, args } => element_takes(op, args.as_slice()),
            Form::Concat { args, .. } | Form::Stack { args, .. } => {
                are_arrays(1, MOST_JOINED, args.as_slice())
            }
            Form::Matmul { args } => are_arrays(2, 2, args.as_slice()),
            Form::GroupBy { args, .. } => are_arrays(2, 2, args.as_slice()),
            other => are_arrays(1, 1, other.args()),
        }
    }

    /// Whether each argument names a node before the one with this number, or is written in its place.
    pub fn names_earlier(&self, number: u32) -> bool
        ensures { result ≡ names_earlier number self.now }
    {
        self.args().iter().all(|arg| arg.is_earlier(number))
    }
}

/// Whether these are from `least` to `most` arrays.
fn are_arrays(least: usize, most: usize, args: &[Arg]) -> bool
    ensures { result ≡ are_arrays least most args.now }
{
    if args.len() < least {
        return false;
    }
    if args.len() > most {
        return false;
    }
    all_arrays(args)
}

fn all_arrays(args: &[Arg]) -> bool
    ensures { result ≡ list_all is_array args.now }
{
    args.iter().all(|arg| arg.is_array())
}
