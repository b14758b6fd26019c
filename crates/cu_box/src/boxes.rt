//! Boxes of elements that are copied between arrays, each array being row-major bytes.
ghost use Rattle.std.specs.Prelude.{◌≡◌, ◌*◌, ◌<◌, ◌≤◌, ◌^◌, length};
ghost use Rattle.cu_num.specs.Element.{IsSize};
ghost use Rattle.cu_shape.specs.Index.{product};
ghost use Rattle.cu_box.specs.Box.{IsBox, IsCopied};
ghost use Rattle.cu_box.specs.StridedSteps.{box_axes};

use crate::copying::copy_strided;
use crate::normal::ONE;
use crate::strides::{Axis, Start, Stride};
use cu_num::Endian;
use cu_shape::{Dims, place};

/// Where a box of elements stands in the array that is read and in the one that is written.
#[derive(Clone, Copy)]
pub struct Placing {
    /// The sizes of the box.
    pub sizes: Dims,
    /// The shape of the array that is read.
    pub from: Dims,
    /// The box's first index in that array.
    pub start: Dims,
    /// The shape of the array that is written.
    pub to: Dims,
    /// The box's first index in that array.
    pub corner: Dims,
}

/// Copies a box of elements of `size` bytes from one array into another. Where the order is big-endian, the bytes of each element
/// that is copied are reversed.
pub fn copy_box(size: u64, order: Endian, placing: &Placing, source: &[u8], target: &mut [u8])
    requires size { IsSize size }
    requires box_from { IsBox placing.now.sizes placing.now.from placing.now.start }
    requires box_to { IsBox placing.now.sizes placing.now.to placing.now.corner }
    requires counted { product placing.now.sizes ≤ 2 ^ 40 }
    requires from_small { product placing.now.from ≤ 2 ^ 56 }
    requires to_small { product placing.now.to ≤ 2 ^ 56 }
    requires source_length { length source.now ≡ product placing.now.from * size }
    requires target_length { length target.old ≡ product placing.now.to * size }
    ensures copied { IsCopied size order placing.now source.now target.old target.new }
{
    let count = match placing.sizes.elements() {
        Some(count) => count,
        None => unreachable!(),
    };
    if count == 0 {
        return;
    }
    let mut held = [ONE; 6];
    let axes = &mut held[..placing.sizes.rank() as usize];
    write_axes(placing, axes);
    let from = place(&placing.from, &placing.start);
    let to = place(&placing.to, &placing.corner);
    let start = Start { from, to };
    copy_strided(size, order, axes, start, source, target);
}

/// Writes the axes of a box with its strides in both arrays.
fn write_axes(placing: &Placing, axes: &mut [Axis])
    requires ranks { length axes.old ≡ length placing.now.sizes }
    requires some { 0 < product placing.now.sizes }
    requires box_from { IsBox placing.now.sizes placing.now.from placing.now.start }
    requires box_to { IsBox placing.now.sizes placing.now.to placing.now.corner }
    requires from_small { product placing.now.from ≤ 2 ^ 56 }
    requires to_small { product placing.now.to ≤ 2 ^ 56 }
    ensures { axes.new ≡ box_axes placing.now.sizes placing.now.from placing.now.to }
{
    let mut from = 1;
    let mut to = 1;
    let rank = placing.sizes.rank();
    for axis in (0..rank).rev() {
        let count = placing.sizes.at(axis);
        let read = placing.from.at(axis);
        let written = placing.to.at(axis);
        axes[axis as usize] = Axis {
            count,
            from: Stride::Up(from),
            to: Stride::Up(to),
        };
        from *= read;
        to *= written;
    }
}
