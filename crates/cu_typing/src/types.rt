//! The types of elementwise functions.

ghost use Rattle.std.specs.Prelude.{◌≡◌};
ghost use Rattle.cu_result.specs.Results.{need};
ghost use Rattle.cu_num.specs.Dtype.{is_integer};
ghost use Rattle.cu_num.specs.Functions.{accepts2};
ghost use Rattle.cu_num.specs.Promotion.{promotion};
ghost use Rattle.cu_node.specs.Fault.{fault};
ghost use Rattle.cu_node.specs.declared.faults.FaultCode.TheVariants.{Promote};
ghost use Rattle.cu_typing.specs.Types.{may_be, accepts_arguments, typed_elements, met_type, pair_type, array_type, bounded_type, shared_type, result_type};

use crate::argument::Argument;
use cu_node::{ElementOp, FaultCode, Literal, NodeFault, fault, is_integer};
use cu_num::{Dtype, Fn2, accepts1, accepts2, is_bool, promote, result1, result2};

/// Whether each array has a type that the function accepts.
pub(crate) fn accepts_all(op: ElementOp, args: &[Argument]) -> bool
    ensures { result ≡ accepts_arguments op args.now }
{
    match (op, args) {
        (ElementOp::One(f), [Argument::Array(x)]) => accepts1(f, x.dtype),
        (ElementOp::Two(f), [x, y]) => accepts_either(f, x) && accepts_either(f, y),
        (ElementOp::Where, [Argument::Array(c), _, _]) => is_bool(c.dtype),
        (ElementOp::Astype(_), [Argument::Array(_)]) => true,
        (ElementOp::Extreme(_), [x, y]) => may_be_integer(x) && may_be_integer(y),
        (ElementOp::Clip(..), [Argument::Array(x)]) => is_integer(x.dtype),
        _ => false,
    }
}

/// Whether a function of two arguments accepts the argument's type; a written value has none yet.
fn accepts_either(f: Fn2, arg: &Argument) -> bool
    ensures { result ≡ may_be (accepts2 f) arg.now }
{
    match arg {
        Argument::Array(i) => accepts2(f, i.dtype),
        Argument::Written(_) => true,
    }
}

/// Whether the argument has an integer type; a written value has none yet.
fn may_be_integer(arg: &Argument) -> bool
    ensures { result ≡ may_be is_integer arg.now }
{
    match arg {
        Argument::Array(i) => is_integer(i.dtype),
        Argument::Written(_) => true,
    }
}

/// The type of a written value that meets an array of type `t`.
fn type_met(t: Dtype, v: Literal) -> Result<Dtype, NodeFault>
    ensures { result ≡ met_type t v }
{
    if v.suits(t) {
        Ok(t)
    } else {
        Err(fault(FaultCode::Scalar))
    }
}

/// The type to which two arguments are promoted.
fn type_of_pair(x: &Argument, y: &Argument) -> Result<Dtype, NodeFault>
    ensures { result ≡ pair_type x.now y.now }
{
    match (x, y) {
        (Argument::Array(a), Argument::Array(b)) => type_promoted(a.dtype, b.dtype),
        (Argument::Array(a), Argument::Written(v)) => type_met(a.dtype, *v),
        (Argument::Written(v), Argument::Array(b)) => type_met(b.dtype, *v),
        (Argument::Written(_), Argument::Written(_)) => Err(fault(FaultCode::Scalar)),
    }
}

/// The type to which two types are promoted.
pub(crate) fn type_promoted(a: Dtype, b: Dtype) -> Result<Dtype, NodeFault>
    ensures { result ≡ need (promotion a b) (fault Promote) }
{
    promote(a, b).ok_or(fault(FaultCode::Promote))
}

/// The type of an argument that is an array.
fn type_of_array(x: &Argument) -> Result<Dtype, NodeFault>
    ensures { result ≡ array_type x.now }
{
    match x {
        Argument::Array(i) => Ok(i.dtype),
        Argument::Written(_) => Err(fault(FaultCode::Kind)),
    }
}

/// The type of an array between two bounds, which take its type.
fn type_bounded(min: i128, max: i128, x: &Argument) -> Result<Dtype, NodeFault>
    ensures { result ≡ bounded_type min max x.now }
{
    let t = type_of_array(x)?;
    type_met(t, Literal::Int(min))?;
    type_met(t, Literal::Int(max))
}

/// The type to which the arguments are promoted; of `where` to which the last two are.
fn type_shared(op: ElementOp, args: &[Argument]) -> Result<Dtype, NodeFault>
    ensures { result ≡ shared_type op args.now }
{
    match (op, args) {
        (ElementOp::One(_) | ElementOp::Astype(_), [x]) => type_of_array(x),
        (ElementOp::Two(_) | ElementOp::Extreme(_), [x, y]) => type_of_pair(x, y),
        (ElementOp::Where, [_, x, y]) => type_of_pair(x, y),
        (ElementOp::Clip(min, max), [x]) => type_bounded(min, max, x),
        _ => Err(fault(FaultCode::Kind)),
    }
}

/// The type of the result, of arguments that have the type `t` together.
fn type_given(op: ElementOp, t: Dtype) -> Dtype
    ensures { result ≡ result_type op t }
{
    match op {
        ElementOp::One(f) => result1(f, t),
        ElementOp::Two(f) => result2(f, t),
        ElementOp::Where | ElementOp::Extreme(_) | ElementOp::Clip(..) => t,
        ElementOp::Astype(d) => d,
    }
}

/// The type of the result, or the first fault of the arguments' types.
pub(crate) fn element_type(op: ElementOp, args: &[Argument]) -> Result<Dtype, NodeFault>
    ensures { result ≡ typed_elements op args.now }
{
    if !accepts_all(op, args) {
        return Err(fault(FaultCode::Kind));
    }
    let shared = type_shared(op, args)?;
    Ok(type_given(op, shared))
}
