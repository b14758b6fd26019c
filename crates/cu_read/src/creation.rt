//! The rows of inputs and of arrays that are made from nothing.
ghost use Rattle.serde_json.specs.View.{view};
ghost use Rattle.cu_read.specs.Creation.{input_in, full_in, arange_in, eye_in, creation_row};
ghost use Rattle.cu_read.specs.Faults.{Gives};

use crate::faults::{NodeCode, NodeRefused};
use crate::lists::{chunk_sizes, sizes};
use crate::rows::{array_name, dtype, has_members, integer, literal, size};
use cu_form::Form;
use serde_json::Value;
use std::alloc::Global;

fn input_in(value: &Value) -> Result<Form, NodeRefused>
    ensures { Gives result (input_in (view value.now)) }
{
    has_members(value, 3)?;
    let name = array_name(value, "name")?;
    Ok(Form::Input { name })
}

fn full_in(alloc: Global, value: &Value) -> Result<Form, NodeRefused>
    ensures { Gives result (full_in (view value.now)) }
{
    has_members(value, 6)?;
    let shape = sizes(alloc, value, "shape")?;
    let dtype = dtype(value, "dtype")?;
    let literal = literal(value, "value")?;
    let chunk = chunk_sizes(alloc, value, "chunk")?;
    Ok(Form::Full {
        shape,
        dtype,
        value: literal,
        chunk,
    })
}

fn arange_in(alloc: Global, value: &Value) -> Result<Form, NodeRefused>
    ensures { Gives result (arange_in (view value.now)) }
{
    has_members(value, 7)?;
    let start = integer(value, "start")?;
    let stop = integer(value, "stop")?;
    let step = integer(value, "step")?;
    let dtype = dtype(value, "dtype")?;
    let chunk = chunk_sizes(alloc, value, "chunk")?;
    Ok(Form::Arange {
        start,
        stop,
        step,
        dtype,
        chunk,
    })
}

fn eye_in(alloc: Global, value: &Value) -> Result<Form, NodeRefused>
    ensures { Gives result (eye_in (view value.now)) }
{
    has_members(value, 7)?;
    let rows = size(value, "rows")?;
    let cols = size(value, "cols")?;
    let k = integer(value, "k")?;
    let dtype = dtype(value, "dtype")?;
    let chunk = chunk_sizes(alloc, value, "chunk")?;
    Ok(Form::Eye {
        rows,
        cols,
        k,
        dtype,
        chunk,
    })
}

/// The row of an operator of this family.
pub(crate) fn creation_row(alloc: Global, op: &str, value: &Value) -> Result<Form, NodeRefused>
    ensures { Gives result (creation_row op.now (view value.now)) }
{
    match op {
        "input" => input_in(value),
        "full" => full_in(alloc, value),
        "arange" => arange_in(alloc, value),
        "eye" => eye_in(alloc, value),
        _ => Err(NodeRefused::Code(NodeCode::Unknown)),
    }
}
