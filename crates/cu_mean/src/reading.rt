//! Reads of arrays that are held element by element.
ghost use Rattle.std.specs.Prelude.{◌≡◌, ◌≤◌, List, length};
ghost use Rattle.cu_shape.specs.Index.{back};
ghost use Rattle.cu_num.specs.Dtype.{InRange};
ghost use Rattle.cu_node.specs.declared.info.NodeInfo.{NodeInfo};
ghost use Rattle.cu_semantics.specs.Argument.{source_at, source_shape};
ghost use Rattle.cu_semantics.specs.Typed.{type_of_node};
ghost use Rattle.cu_mean.specs.Reading.{plain_at, elements_in, HaveTypesAndShapes};

use crate::plain::Plain;
use cu_form::Arg;
use cu_node::{NodeInfo, info_at};
use cu_shape::{Dims, back, is_inside, place};

/// Arrays by their numbers, and the arguments of a node, which name some of them.
#[derive(Clone, Copy)]
pub(crate) struct NamedArrays<'a> {
    pub(crate) plains: &'a [Plain],
    pub(crate) args: &'a [Arg],
}

/// The element of an array at an index; 0 at an index outside.
pub(crate) fn plain_at(plain: &Plain, idx: &Dims) -> i128
    ensures value { result ≡ plain_at plain.now idx.now }
    ensures range { InRange plain.now.dtype result }
{
    let cells = plain.cells();
    let _count = cells.len();
    if is_inside(plain.dims(), idx) {
        cells[place(plain.dims(), idx) as usize]
    } else {
        0
    }
}

/// The element of the array of a number at an index; 0 where there is none.
pub(crate) fn element(plains: &[Plain], node: u32, idx: &Dims) -> i128
    ensures value { result ≡ elements_in plains.now node idx.now }
    ensures range { (infos : List NodeInfo) → HaveTypesAndShapes infos plains.now → InRange (type_of_node infos node) result }
{
    if (node as usize) < plains.len() {
        plain_at(&plains[node as usize], idx)
    } else {
        0
    }
}

/// The element that an argument of a number names, at an index of its array; 0 where it names no array.
pub(crate) fn source(plains: &[Plain], args: &[Arg], number: usize, idx: &Dims) -> i128
    ensures { result ≡ source_at (elements_in plains.now) args.now number idx.now }
{
    if number >= args.len() {
        return 0;
    }
    match args[number] {
        Arg::Node(node) => element(plains, node, idx),
        Arg::Int(_) | Arg::Truth(_) => 0,
    }
}

/// The shape of the array that an argument of a number names; of none that of a single number.
pub(crate) fn source_dims(infos: &[NodeInfo], args: &[Arg], number: usize) -> Dims
    ensures { result ≡ source_shape infos.now args.now number }
{
    if number >= args.len() {
        return Dims::default();
    }
    match args[number] {
        Arg::Node(node) => info_at(infos, node).dims,
        Arg::Int(_) | Arg::Truth(_) => Dims::default(),
    }
}

/// The element of an array of a number and this shape that an index of a result reads through broadcasting.
pub(crate) fn stretched(plains: &[Plain], shape: &Dims, node: u32, idx: &Dims) -> i128
    requires { length shape.now ≤ length idx.now }
    ensures value { result ≡ elements_in plains.now node (back shape.now idx.now) }
    ensures range { (infos : List NodeInfo) → HaveTypesAndShapes infos plains.now → InRange (type_of_node infos node) result }
{
    element(plains, node, &back(shape, idx))
}
