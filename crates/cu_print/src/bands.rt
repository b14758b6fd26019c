//! Bands: consecutive elements of an array that are read together.
ghost use Rattle.std.specs.Prelude.{◌*◌, ◌^◌, ◌<◌, ◌≤◌};
ghost use Rattle.std.specs.Bool.{OnTrue, OnFalse};
ghost use Rattle.cu_num.specs.Dtype.{size_of};
ghost use Rattle.cu_shape.specs.Index.{product};
ghost use Rattle.cu_command.specs.Stored.{IsArrayLayout};
ghost use Rattle.cu_print.specs.Bands.{IsBanding};
ghost use Rattle.cu_print.specs.Reads.{IsFirstBanding};

use cu_grid::Grid;
use cu_num::{Dtype, size};
use cu_op::Layout;
use cu_shape::Dims;

/// The most bytes of a band of several chunks.
const MOST_BYTES: u64 = 67_108_864;

/// A grid over the array whose chunks are its bands: up to some axis the chunks are as long as the array's own, and behind it as
/// long as the array. It is the first axis on which a chunk has more than one index and for which a band has at most
/// `MOST_BYTES`; where there is none before the last, the bands are the chunks.
pub(crate) fn bands_of(layout: &Layout) -> Grid
    requires { IsArrayLayout layout.now }
    ensures banding { IsBanding result layout.now }
    ensures first { IsFirstBanding result layout.now }
{
    let shape = layout.grid.shape();
    let chunk = layout.grid.chunk();
    let mut band = *chunk;
    let mut wide = *chunk;
    for axis in (1..shape.rank()).rev() {
        wide.put(axis, shape.at(axis).max(1));
        if chunk.at(axis - 1) > 1 && is_small(&wide, layout.dtype) {
            band = wide;
        }
    }
    Grid::make_middle(*shape, band)
}

/// Whether as many elements have at most `MOST_BYTES`.
fn is_small(sizes: &Dims, dtype: Dtype) -> bool
    ensures small { OnTrue result (product sizes.now * size_of dtype ≤ 2 ^ 26) }
    ensures large { OnFalse result (2 ^ 26 < product sizes.now * size_of dtype) }
{
    match sizes.elements() {
        Some(count) => count * size(dtype) <= MOST_BYTES,
        None => false,
    }
}
