//! The operation of an elementwise node and of a view, and the arrays that operations make.

ghost use Rattle.std.specs.Prelude.{◌≡◌, ◌≤◌, List, [], ◌∷◌, ◌++◌, IsOk, map, true, length};
ghost use Rattle.std.specs.List.{list_all};
ghost use Rattle.cu_form.specs.Expression.{Expression};
ghost use Rattle.cu_form.specs.Form.{args_of, is_earlier, names_earlier, element_takes, HasShortIndex};
ghost use Rattle.cu_grid.specs.Grid.{IsGrid};
ghost use Rattle.cu_lower_reduce.specs.Steps.{grid_of};
ghost use Rattle.cu_node.specs.declared.info.NodeInfo.{NodeInfo as Known};
ghost use Rattle.cu_expr.specs.Kernel.{first_is, loads_from, function_of};
ghost use Rattle.cu_typing.specs.Types.{array_type, pair_type, shared_type};
ghost use Rattle.cu_expr.specs.Typing.{argument_of};
ghost use Rattle.cu_lower.specs.Inputs.{input_names};
ghost use Rattle.cu_lower.specs.Parts.{type_or_bool, made_layout, made_array, array_places, source_places, elementwise_op, view_op};

use crate::inputs::place_of;
use arrayvec::ArrayVec;
use cu_form::{Arg, ElementOp, Expr, Form};
use cu_grid::Grid;
use cu_lower_view::pull_of;
use cu_name::{IdText, key_of_name, made_prefix};
use cu_node::{NodeInfo, info_at};
use cu_num::{Dtype, Encoding, Endian, Fn1, Fn2, Sep, promote};
use cu_op::{ArrayInfo, Instr, Kernel, Layout, Op, Pull};

/// The type of an argument that is an array.
fn array_type(infos: &[NodeInfo], x: &Arg) -> Dtype
    ensures { result ≡ type_or_bool (array_type (argument_of infos.now x.now)) }
{
    match x {
        Arg::Node(n) => info_at(infos, *n).dtype,
        Arg::Int(_) | Arg::Truth(_) => Dtype::Bool,
    }
}

/// The type of two arguments together, of which a number or a truth value has that of the array.
fn pair_type(infos: &[NodeInfo], x: &Arg, y: &Arg) -> Dtype
    requires { IsOk (pair_type (argument_of infos.now x.now) (argument_of infos.now y.now)) }
    ensures { result ≡ type_or_bool (pair_type (argument_of infos.now x.now) (argument_of infos.now y.now)) }
{
    match (x, y) {
        (Arg::Node(m), Arg::Node(n)) => {
            promote(info_at(infos, *m).dtype, info_at(infos, *n).dtype).unwrap_or(Dtype::Bool)
        }
        (Arg::Node(m), Arg::Int(_) | Arg::Truth(_)) => info_at(infos, *m).dtype,
        (Arg::Int(_) | Arg::Truth(_), Arg::Node(n)) => info_at(infos, *n).dtype,
        (Arg::Int(_) | Arg::Truth(_), Arg::Int(_) | Arg::Truth(_)) => Dtype::Bool,
    }
}

/// The type of the arguments of a function together.
fn shared_type(op: ElementOp, infos: &[NodeInfo], args: &[Arg]) -> Dtype
    requires { IsOk (shared_type op (map (argument_of infos.now) args.now)) }
    ensures { result ≡ type_or_bool (shared_type op (map (argument_of infos.now) args.now)) }
{
    match (op, args) {
        (ElementOp::One(_) | ElementOp::Astype(_), [x]) => array_type(infos, x),
        (ElementOp::Two(_) | ElementOp::Extreme(_), [x, y]) => pair_type(infos, x, y),
        (ElementOp::Where, [_, x, y]) => pair_type(infos, x, y),
        (ElementOp::Clip(..), [x]) => array_type(infos, x),
        _ => Dtype::Bool,
    }
}

/// The test by which the first of two numbers is the lesser, or the greater.
fn first_is(least: bool) -> Fn2
    ensures { result ≡ first_is least }
{
    if least {
        Fn2::LessEqual
    } else {
        Fn2::GreaterEqual
    }
}

/// Appends a function of the first results, which have this type together.
fn push_function(code: &mut ArrayVec<Instr, 32>, op: ElementOp, t: Dtype)
    requires room { length code.old.items ≤ 3 }
    ensures code { code.new.items ≡ code.old.items ++ function_of op t }
{
    match op {
        ElementOp::One(f) => code.push(Instr::One(f, t, 0)),
        ElementOp::Two(f) => code.push(Instr::Two(f, t, 0, 1)),
        ElementOp::Where => code.push(Instr::Select(0, 1, 2)),
        ElementOp::Astype(d) => code.push(Instr::One(Fn1::Astype, d, 0)),
        ElementOp::Extreme(least) => {
            code.push(Instr::Two(first_is(least), t, 0, 1));
            code.push(Instr::Select(2, 0, 1));
        }
        ElementOp::Clip(min, max) => {
            code.push(Instr::Const(min));
            code.push(Instr::Two(Fn2::GreaterEqual, t, 0, 1));
            code.push(Instr::Select(2, 0, 1));
            code.push(Instr::Const(max));
            code.push(Instr::Two(Fn2::LessEqual, t, 3, 4));
            code.push(Instr::Select(5, 3, 4));
        }
    }
}

/// The instruction of an argument, where `arrays` arrays come before it.
fn load_of(arg: &Arg, arrays: u32) -> Instr
    ensures { (infos : List Known) → loads_from arrays (argument_of infos arg.now ∷ []) ≡ result ∷ [] }
{
    match arg {
        Arg::Node(_) => Instr::Load(arrays),
        Arg::Int(x) => Instr::Const(*x),
        Arg::Truth(true) => Instr::Const(1),
        Arg::Truth(false) => Instr::Const(0),
    }
}

/// A load or a literal for each argument, in order.
fn loads(args: &[Arg]) -> ArrayVec<Instr, 32>
    requires { length args.now ≤ 3 }
    ensures few { length result.items ≤ 3 }
    ensures code { (infos : List Known) → result.items ≡ loads_from 0 (map (argument_of infos) args.now) }
{
    let mut code = ArrayVec::new();
    let mut arrays = 0;
    for arg in args {
        code.push(load_of(arg, arrays));
        if arg.is_array() {
            arrays += 1;
        }
    }
    code
}

/// The arrays of the arguments that are arrays, in order, where nodes have these arrays.
fn array_places(places: &[u32], args: &[Arg]) -> ArrayVec<u32, 8>
    requires few { length args.now ≤ 8 }
    requires earlier { list_all (is_earlier (length places.now)) args.now ≡ true }
    ensures { result.items ≡ array_places places.now args.now }
{
    let mut ins = ArrayVec::new();
    for arg in args {
        if let Arg::Node(n) = arg {
            ins.push(places[*n as usize]);
        }
    }
    ins
}

/// The arrays that the steps of the next node read, where nodes have these arrays: those of its arguments, or that with an input's name.
pub(crate) fn source_places(names: &[IdText], places: &[u32], form: &Form) -> ArrayVec<u32, 8>
    requires inputs { length names.now ≤ 256 }
    requires few { length (args_of form.now) ≤ 8 }
    requires earlier { names_earlier (length places.now) form.now ≡ true }
    ensures { (e : Expression) → names.now ≡ input_names e → result.items ≡ source_places e places.now form.now }
{
    match form {
        Form::Input { name } => {
            let mut ins = ArrayVec::new();
            ins.push(place_of(names, name) as u32);
            ins
        }
        _ => array_places(places, form.args()),
    }
}

/// The map that makes array `out` of the arguments, whose arrays are `ins`.
pub(crate) fn elementwise_op(
    infos: &[NodeInfo],
    op: ElementOp,
    args: &[Arg],
    ins: ArrayVec<u32, 8>,
    out: u32,
) -> Op
    requires takes { element_takes op args.now ≡ true }
    requires typed { IsOk (shared_type op (map (argument_of infos.now) args.now)) }
    ensures { result ≡ elementwise_op infos.now op args.now ins.items out }
{
    let mut code = loads(args);
    push_function(&mut code, op, shared_type(op, infos, args));
    Op::map_of(Kernel { code }, ins, out)
}

/// The operation that makes array `out` of a view of these arrays.
pub(crate) fn view_op(infos: &[NodeInfo], form: &Form, ins: ArrayVec<u32, 8>, out: u32) -> Op
    requires short { HasShortIndex form.now }
    ensures { result ≡ view_op infos.now form.now ins.items out }
{
    Op::Pull {
        pull: pull_of(infos, form).unwrap_or(Pull::Reshape),
        ins,
        out,
    }
}

/// The layout of a made array.
fn made_layout(info: &NodeInfo) -> Layout
    requires { IsGrid (grid_of info.now) }
    ensures { result ≡ made_layout info.now }
{
    Layout {
        dtype: info.dtype,
        grid: Grid::make_middle(info.dims, info.chunk),
        encoding: Encoding::Plain(Sep::Slash),
        endian: Endian::Little,
        fill: 0,
    }
}

/// The array that the operation `maker` makes, where `others` made arrays come before it; `stored` says that it's the stored node's own.
pub(crate) fn made_array(
    expr: &Expr,
    info: &NodeInfo,
    stored: bool,
    others: u32,
    maker: u32,
) -> ArrayInfo
    requires { IsGrid (grid_of info.now) }
    ensures { result ≡ made_array expr.now info.now stored others maker }
{
    let name = key_of_name(expr.store_as());
    let prefix = if stored {
        name
    } else {
        made_prefix(&name, others)
    };
    ArrayInfo {
        prefix,
        layout: made_layout(info),
        maker: Some(maker),
        inlined: false,
    }
}
