use crate::kernel::Kernel;
use arrayvec::ArrayVec;
use cu_num::FoldKind;
use cu_origin::{Axes, Pull};
use cu_shape::Dims;

/// An operation of a plan. It names arrays by their numbers in the plan.
#[derive(Drop)]
pub enum Op {
    /// Computes each element of `out` from the elements of `ins` that it reads through broadcasting.
    Map {
        /// What is computed.
        kernel: Kernel,
        /// The arrays that the kernel loads from, in the order in which it names them.
        ins: ArrayVec<u32, 8>,
        /// The array that is made.
        out: u32,
    },
    /// Takes each element of `out` from one of `ins`, or makes it from its index alone.
    Pull {
        /// From where each element comes.
        pull: Pull,
        /// The sources, in the order in which the view numbers them.
        ins: ArrayVec<u32, 8>,
        /// The array that is made.
        out: u32,
    },
    /// Copies an array into other chunks, a region at a time.
    Copy {
        /// The sizes of a region, each of whose chunks a task writes.
        region: Dims,
        /// The array that is copied.
        source: u32,
        /// The array that is made.
        out: u32,
    },
    /// Reduces each chunk of its source along some axes to one partial result.
    Fold {
        /// What is made of the elements.
        kind: FoldKind,
        /// The axes that are reduced.
        axes: Axes,
        /// The array that is reduced.
        source: u32,
        /// The array that is made.
        out: u32,
    },
    /// Reduces groups of neighbouring partial results along one axis.
    Merge {
        /// What is made of them.
        kind: FoldKind,
        /// The axis.
        axis: u32,
        /// How many are in a group; the last may be shorter.
        group: u32,
        /// The array of partial results.
        source: u32,
        /// The array that is made.
        out: u32,
    },
    /// Finds in each chunk of its source the least or the greatest elements and their first places.
    PairFold {
        /// The least elements are sought, else the greatest.
        least: bool,
        /// The axis along which places are counted; none where they are counted in the whole array.
        axis: Option<u32>,
        /// The array that is searched.
        source: u32,
        /// The array of the values, where they are stored.
        values: Option<u32>,
        /// The array of the places.
        out: u32,
    },
    /// Finds in groups of neighbouring partial results along one axis the least or the greatest and its place.
    PairMerge {
        /// The least values are sought, else the greatest.
        least: bool,
        /// The axis.
        axis: u32,
        /// How many are in a group; the last may be shorter.
        group: u32,
        /// The array of the partial results' values.
        value_source: u32,
        /// The array of their places.
        place_source: u32,
        /// The array of the values, where they are stored.
        values: Option<u32>,
        /// The array of the places.
        out: u32,
    },
    /// Multiplies matrices, a chunk of the inner axis at a time: the result has a last axis that numbers these parts, where there are several.
    Mul {
        /// The left operand.
        left: u32,
        /// The right operand.
        right: u32,
        /// The array that is made.
        out: u32,
    },
    /// Gives each of some sums that stand along an axis what comes before it.
    Carry {
        /// The axis.
        axis: u32,
        /// How many sums are in a group; the last may be shorter.
        group: u32,
        /// The array of the sums.
        sums: u32,
        /// The array of what is carried into each group, where something is.
        above: Option<u32>,
        /// The array that is made.
        out: u32,
    },
    /// Sums along an axis up to each place, a chunk at a time.
    Scan {
        /// The axis.
        axis: u32,
        /// The array that is summed.
        source: u32,
        /// The array of what is carried into each chunk, where something is.
        carry: Option<u32>,
        /// The array that is made.
        out: u32,
    },
    /// Reduces along an axis, in each chunk of its source, the elements of each label: the result has a last axis that numbers the chunks,
    /// where there are several.
    GroupFold {
        /// What is made of the elements.
        kind: FoldKind,
        /// The axis.
        axis: u32,
        /// How many groups there are; an element whose label is no group's number is in none.
        groups: u32,
        /// The array that is reduced.
        source: u32,
        /// The array of the labels along the axis.
        labels: u32,
        /// The array that is made.
        out: u32,
    },
}

/// An operation as it stands in a plan.
#[derive(Drop)]
pub struct Planned {
    /// The operation.
    pub op: Op,
    /// The number of the expression's node that it belongs to.
    pub node: u32,
    /// The bytes of memory that a worker needs for one of its tasks, those that are reserved counted.
    pub projected: u64,
}
