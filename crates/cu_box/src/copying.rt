//! Elements that are copied between two buffers, in each of which an index stands at a first place
//! and, for each axis, its number times a signed stride behind it.
ghost use Rattle.std.specs.Prelude.{◌≡◌, ◌<◌, ◌≤◌, false, IsTrue, length};
ghost use Rattle.cu_num.specs.Element.{IsSize};
ghost use Rattle.cu_shape.specs.Index.{product};
ghost use Rattle.cu_box.specs.Strided.{counts, HavePlaces, IsEachFromOne, IsStridedCopy};
ghost use Rattle.cu_box.specs.StridedSteps.{CanCopy};

use crate::normal::{ONE, axis_at, join, sort};
use crate::planes::{Held, Plane, copy_plane};
use crate::strides::{Axis, Start, later};
use cu_num::Endian;

/// Copies the elements of all indices of at most twelve axes, the outer ones first, each of `size` bytes. If the order is
/// big-endian, the bytes of each element are reversed. The other elements of the target stay as they are.
pub fn copy_strided(
    size: u64,
    order: Endian,
    axes: &[Axis],
    start: Start,
    source: &[u8],
    target: &mut [u8],
)
    requires size { IsSize size }
    requires few { length axes.now ≤ 12 }
    requires places { HavePlaces size axes.now start (length source.now) (length target.old) }
    requires each { IsEachFromOne size axes.now start source.now }
    ensures { IsStridedCopy size order axes.now start source.now target.old target.new }
{
    if is_empty(axes) {
        return;
    }
    let mut held = [ONE; 14];
    let first = join(axes, &mut held);
    let normal = &mut held[first..];
    sort(normal);
    let mut tile: Option<Held> = None;
    copy_axes(size, order, normal, start, source, target, &mut tile);
}

/// Whether an axis has no index.
fn is_empty(axes: &[Axis]) -> bool
    ensures none { IsTrue result → product (counts axes.now) ≡ 0 }
    ensures some { result ≡ false → 0 < product (counts axes.now) }
{
    for number in 0..axes.len() {
        let axis = axis_at(axes, number);
        if axis.count == 0 {
            return true;
        }
    }
    false
}

/// Copies the elements of at least two axes, each of which has an index: the last two at once.
fn copy_axes(
    size: u64,
    order: Endian,
    axes: &[Axis],
    start: Start,
    source: &[u8],
    target: &mut [u8],
    tile: &mut Option<Held>,
)
    requires two { 2 ≤ length axes.now }
    requires can { CanCopy size axes.now start source.now (length target.old) }
    requires some { 0 < product (counts axes.now) }
    ensures { IsStridedCopy size order axes.now start source.now target.old target.new }
{
    let Some((outer, rest)) = axes.split_first() else {
        unreachable!()
    };
    if rest.len() == 1 {
        let plane = Plane {
            outer: *outer,
            inner: axis_at(rest, 0),
            start,
        };
        copy_plane(size, order, &plane, source, target, tile);
    } else {
        for number in 0..outer.count {
            let place = later(start, *outer, number);
            copy_axes(size, order, rest, place, source, target, tile);
        }
    }
}
