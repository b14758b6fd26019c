//! Which reduction, of elements of which type, along which axes.

use cu_num::{Dtype, FoldKind};
use cu_origin::Axes;
use cu_shape::Dims;

/// A reduction of elements of type `from`, with results of type `acc`.
#[derive(Clone, Copy)]
pub(crate) struct Fold {
    pub(crate) kind: FoldKind,
    pub(crate) from: Dtype,
    pub(crate) acc: Dtype,
}

/// The reduction of a region along a set of its axes.
#[derive(Clone, Copy)]
pub struct RegionFold {
    /// Which reduction.
    pub kind: FoldKind,
    /// The type of the region's elements.
    pub from: Dtype,
    /// The type of the results.
    pub acc: Dtype,
    /// The sizes of the region.
    pub dims: Dims,
    /// The axes that are reduced.
    pub axes: Axes,
}

/// Consecutive places of a region in row-major order.
#[derive(Clone, Copy)]
pub(crate) struct Places {
    pub(crate) start: usize,
    pub(crate) count: usize,
}
