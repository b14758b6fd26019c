//! Arrays put together, at an index of the result.
ghost use Rattle.std.specs.Prelude.{◌≡◌, ◌<◌, length};
ghost use Rattle.cu_semantics.specs.View.{concat_at, stack_at};
ghost use Rattle.cu_mean.specs.Reading.{elements_in};

use crate::plain::Plain;
use crate::reading::{source, source_dims};
use cu_form::Arg;
use cu_node::{NodeInfo, size_at};
use cu_shape::Dims;

/// The element of arrays one behind the other along an axis: that of the array whose range on the axis holds the index.
pub(crate) fn concat_at(
    infos: &[NodeInfo],
    plains: &[Plain],
    args: &[Arg],
    axis: u32,
    idx: &Dims,
) -> i128
    requires { axis < length idx.now }
    ensures { result ≡ concat_at infos.now (elements_in plains.now) axis args.now idx.now }
{
    let mut read = *idx;
    for number in 0..args.len() {
        let size = size_at(&source_dims(infos, args, number), axis);
        let at = read.at(axis);
        if at < size {
            return source(plains, args, number, &read);
        }
        read.put(axis, at - size);
    }
    0
}

/// The element of arrays one behind the other along a new axis.
pub(crate) fn stack_at(plains: &[Plain], args: &[Arg], axis: u32, idx: &Dims) -> i128
    requires { axis < length idx.now }
    ensures { result ≡ stack_at (elements_in plains.now) axis args.now idx.now }
{
    source(plains, args, idx.at(axis) as usize, &idx.removed(axis))
}
