//! The rows of elementwise functions.
ghost use Rattle.std.specs.Prelude.{◌≡◌};
ghost use Rattle.serde_json.specs.View.{view};
ghost use Rattle.cu_read.specs.Elementwise.{unary_named, arithmetic_named, comparison_named, binary_named, extreme_named, function_named, function_in, astype_in, clip_in, elementwise_row};
ghost use Rattle.cu_read.specs.Faults.{Gives};

use crate::args::args_in;
use crate::faults::{NodeCode, NodeRefused};
use crate::ids::Ids;
use crate::rows::{dtype, has_members, written};
use cu_form::{ElementOp, Form};
use cu_num::{Fn1, Fn2};
use serde_json::Value;
use std::alloc::Global;

/// The function of one argument that has this name (Python array API, elementwise functions). `astype`, which names a type too, is
/// none of them.
pub fn unary_named(op: &str) -> Option<Fn1>
    ensures { result ≡ unary_named op.now }
{
    match op {
        "negative" => Some(Fn1::Negative),
        "positive" => Some(Fn1::Positive),
        "abs" => Some(Fn1::Abs),
        "square" => Some(Fn1::Square),
        "sign" => Some(Fn1::Sign),
        "bitwise_invert" => Some(Fn1::BitwiseInvert),
        "logical_not" => Some(Fn1::LogicalNot),
        _ => None,
    }
}

/// The functions of two arguments whose result has the arguments' type.
fn arithmetic_named(op: &str) -> Option<Fn2>
    ensures { result ≡ arithmetic_named op.now }
{
    match op {
        "add" => Some(Fn2::Add),
        "subtract" => Some(Fn2::Subtract),
        "multiply" => Some(Fn2::Multiply),
        "floor_divide" => Some(Fn2::FloorDivide),
        "remainder" => Some(Fn2::Remainder),
        "bitwise_and" => Some(Fn2::BitwiseAnd),
        "bitwise_or" => Some(Fn2::BitwiseOr),
        "bitwise_xor" => Some(Fn2::BitwiseXor),
        "bitwise_left_shift" => Some(Fn2::LeftShift),
        "bitwise_right_shift" => Some(Fn2::RightShift),
        _ => None,
    }
}

/// The functions of two arguments whose result is a truth value.
fn comparison_named(op: &str) -> Option<Fn2>
    ensures { result ≡ comparison_named op.now }
{
    match op {
        "equal" => Some(Fn2::Equal),
        "not_equal" => Some(Fn2::NotEqual),
        "less" => Some(Fn2::Less),
        "less_equal" => Some(Fn2::LessEqual),
        "greater" => Some(Fn2::Greater),
        "greater_equal" => Some(Fn2::GreaterEqual),
        "logical_and" => Some(Fn2::LogicalAnd),
        "logical_or" => Some(Fn2::LogicalOr),
        "logical_xor" => Some(Fn2::LogicalXor),
        _ => None,
    }
}

/// The function of two arguments that has this name (Python array API, elementwise functions).
pub fn binary_named(op: &str) -> Option<Fn2>
    ensures { result ≡ binary_named op.now }
{
    if let Some(function) = arithmetic_named(op) {
        return Some(function);
    }
    comparison_named(op)
}

/// The functions that give one of two arguments: true for the lesser.
fn extreme_named(op: &str) -> Option<bool>
    ensures { result ≡ extreme_named op.now }
{
    match op {
        "minimum" => Some(true),
        "maximum" => Some(false),
        _ => None,
    }
}

/// The functions that have no member of their own.
fn function_named(op: &str) -> Option<ElementOp>
    ensures { result ≡ function_named op.now }
{
    if op == "where" {
        return Some(ElementOp::Where);
    }
    if let Some(function) = unary_named(op) {
        return Some(ElementOp::One(function));
    }
    if let Some(function) = binary_named(op) {
        return Some(ElementOp::Two(function));
    }
    Some(ElementOp::Extreme(extreme_named(op)?))
}

fn function_in(alloc: Global, op: ElementOp, ids: &Ids, value: &Value) -> Result<Form, NodeRefused>
    ensures { Gives result (function_in op ids.now (view value.now)) }
{
    has_members(value, 3)?;
    let args = args_in(alloc, ids, value)?;
    Ok(Form::Elementwise { op, args })
}

fn astype_in(alloc: Global, ids: &Ids, value: &Value) -> Result<Form, NodeRefused>
    ensures { Gives result (astype_in ids.now (view value.now)) }
{
    has_members(value, 4)?;
    let dtype = dtype(value, "dtype")?;
    let args = args_in(alloc, ids, value)?;
    Ok(Form::Elementwise {
        op: ElementOp::Astype(dtype),
        args,
    })
}

fn clip_in(alloc: Global, ids: &Ids, value: &Value) -> Result<Form, NodeRefused>
    ensures { Gives result (clip_in ids.now (view value.now)) }
{
    has_members(value, 5)?;
    let min = written(value, "min")?;
    let max = written(value, "max")?;
    let args = args_in(alloc, ids, value)?;
    Ok(Form::Elementwise {
        op: ElementOp::Clip(min, max),
        args,
    })
}

/// The row of an operator of this family.
pub(crate) fn elementwise_row(
    alloc: Global,
    op: &str,
    ids: &Ids,
    value: &Value,
) -> Result<Form, NodeRefused>
    ensures { Gives result (elementwise_row op.now ids.now (view value.now)) }
{
    if op == "astype" {
        return astype_in(alloc, ids, value);
    }
    if op == "clip" {
        return clip_in(alloc, ids, value);
    }
    match function_named(op) {
        Some(function) => function_in(alloc, function, ids, value),
        None => Err(NodeRefused::Code(NodeCode::Unknown)),
    }
}
