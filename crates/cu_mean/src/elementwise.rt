//! Elementwise functions at an index of the result.
ghost use Rattle.std.specs.Prelude.{◌≡◌, ◌∷◌, [], map, All, Ok, if◌then◌else◌};
ghost use Rattle.std.specs.Int.{int_min, int_max};
ghost use Rattle.cu_num.specs.Scalar.{op1, op2, is_nonzero};
ghost use Rattle.cu_semantics.specs.Rule.{function_value};
ghost use Rattle.cu_typing.specs.Types.{pair_type, typed_elements};
ghost use Rattle.cu_expr.specs.Typing.{argument_of};
ghost use Rattle.cu_mean.specs.Elementwise.{argument_in, GoesBack, MayBe};
ghost use Rattle.cu_mean.specs.Reading.{HaveTypesAndShapes};

use crate::reading::stretched;
use crate::scope::Scope;
use cu_form::{Arg, ElementOp};
use cu_node::{NodeInfo, info_at};
use cu_num::{Dtype, Fn1, Fn2, promote, scalar1, scalar2};

/// An argument's element at an index of the result.
fn argument(arg: Arg, scope: &Scope<'_>) -> i128
    requires rank { GoesBack scope.now.infos.now scope.now.idx.now arg }
    requires arrays { HaveTypesAndShapes scope.now.infos.now scope.now.plains.now }
    ensures value { result ≡ argument_in scope.now arg }
    ensures range { MayBe scope.now.infos.now arg result }
{
    match arg {
        Arg::Node(node) => stretched(
            scope.plains,
            &info_at(scope.infos, node).dims,
            node,
            scope.idx,
        ),
        Arg::Int(number) => number,
        Arg::Truth(truth) => i128::from(truth),
    }
}

/// The type to which two arguments are promoted.
fn pair_type(infos: &[NodeInfo], x: Arg, y: Arg) -> Dtype
    ensures { (t : Dtype) → pair_type (argument_of infos.now x) (argument_of infos.now y) ≡ Ok t → result ≡ t }
{
    match x {
        Arg::Node(a) => match y {
            Arg::Node(b) => {
                promote(info_at(infos, a).dtype, info_at(infos, b).dtype).unwrap_or(Dtype::Bool)
            }
            _ => info_at(infos, a).dtype,
        },
        _ => match y {
            Arg::Node(b) => info_at(infos, b).dtype,
            _ => Dtype::Bool,
        },
    }
}

/// A function of one argument, whose result has the type `t`.
fn one(f: Fn1, t: Dtype, x: Arg, scope: &Scope<'_>) -> i128
    requires typed { typed_elements (ElementOp.One f) (argument_of scope.now.infos.now x ∷ []) ≡ Ok t }
    requires rank { GoesBack scope.now.infos.now scope.now.idx.now x }
    requires arrays { HaveTypesAndShapes scope.now.infos.now scope.now.plains.now }
    ensures { result ≡ op1 f t (argument_in scope.now x) }
{
    let value = argument(x, scope);
    match x {
        Arg::Node(node) => scalar1(f, info_at(scope.infos, node).dtype, value),
        _ => 0,
    }
}

/// A function of two arguments, whose result has the type `t`.
fn two(f: Fn2, t: Dtype, a: Arg, b: Arg, scope: &Scope<'_>) -> i128
    requires typed { typed_elements (ElementOp.Two f) (argument_of scope.now.infos.now a ∷ argument_of scope.now.infos.now b ∷ []) ≡ Ok t }
    requires first { GoesBack scope.now.infos.now scope.now.idx.now a }
    requires second { GoesBack scope.now.infos.now scope.now.idx.now b }
    requires arrays { HaveTypesAndShapes scope.now.infos.now scope.now.plains.now }
    ensures { result ≡ op2 f t (argument_in scope.now a) (argument_in scope.now b) }
{
    let x = argument(a, scope);
    let y = argument(b, scope);
    scalar2(f, pair_type(scope.infos, a, b), x, y)
}

/// The second of three arguments where the first is true, else the third.
fn selected(condition: Arg, a: Arg, b: Arg, scope: &Scope<'_>) -> i128
    requires condition { GoesBack scope.now.infos.now scope.now.idx.now condition }
    requires first { GoesBack scope.now.infos.now scope.now.idx.now a }
    requires second { GoesBack scope.now.infos.now scope.now.idx.now b }
    requires arrays { HaveTypesAndShapes scope.now.infos.now scope.now.plains.now }
    ensures { result ≡ if is_nonzero (argument_in scope.now condition) then argument_in scope.now a else argument_in scope.now b }
{
    if argument(condition, scope) == 0 {
        return argument(b, scope);
    }
    argument(a, scope)
}

/// The lesser or the greater of two arguments.
fn extreme(least: bool, a: Arg, b: Arg, scope: &Scope<'_>) -> i128
    requires first { GoesBack scope.now.infos.now scope.now.idx.now a }
    requires second { GoesBack scope.now.infos.now scope.now.idx.now b }
    requires arrays { HaveTypesAndShapes scope.now.infos.now scope.now.plains.now }
    ensures { result ≡ if least then int_min (argument_in scope.now a) (argument_in scope.now b)
        else int_max (argument_in scope.now a) (argument_in scope.now b) }
{
    let x = argument(a, scope);
    let y = argument(b, scope);
    if least { x.min(y) } else { x.max(y) }
}

/// An argument between two bounds; the upper one where they are exchanged.
fn clipped(min: i128, max: i128, arg: Arg, scope: &Scope<'_>) -> i128
    requires rank { GoesBack scope.now.infos.now scope.now.idx.now arg }
    requires arrays { HaveTypesAndShapes scope.now.infos.now scope.now.plains.now }
    ensures { result ≡ int_min max (int_max min (argument_in scope.now arg)) }
{
    max.min(min.max(argument(arg, scope)))
}

/// The element of an elementwise function at an index of the result, which has the type `t`.
pub(crate) fn function_at(op: ElementOp, t: Dtype, args: &[Arg], scope: &Scope<'_>) -> i128
    requires typed { typed_elements op (map (argument_of scope.now.infos.now) args.now) ≡ Ok t }
    requires ranks { All (GoesBack scope.now.infos.now scope.now.idx.now) args.now }
    requires arrays { HaveTypesAndShapes scope.now.infos.now scope.now.plains.now }
    ensures { result ≡ function_value op t (map (argument_in scope.now) args.now) }
{
    match (op, args) {
        (ElementOp::One(f), [x]) => one(f, t, *x, scope),
        (ElementOp::Two(f), [x, y]) => two(f, t, *x, *y, scope),
        (ElementOp::Where, [condition, x, y]) => { selected(*condition, *x, *y, scope) }
        (ElementOp::Astype(d), [x]) => scalar1(Fn1::Astype, d, argument(*x, scope)),
        (ElementOp::Extreme(least), [x, y]) => extreme(least, *x, *y, scope),
        (ElementOp::Clip(min, max), [x]) => clipped(min, max, *x, scope),
        _ => 0,
    }
}
