//! The rows of views that have as many elements in another shape.
ghost use Rattle.serde_json.specs.View.{view};
ghost use Rattle.cu_read.specs.Faults.{Gives};
ghost use Rattle.cu_read.specs.NewShape.{reshape_in, expand_dims_in, squeeze_in, new_shape_in, new_shape_row};

use crate::args::args_in;
use crate::faults::{NodeCode, NodeRefused};
use crate::ids::Ids;
use crate::lists::{integers, new_sizes};
use crate::rows::{has_members, integer};
use cu_form::{Form, NewShape};
use serde_json::Value;
use std::alloc::Global;

fn reshape_in(alloc: Global, value: &Value) -> Result<NewShape, NodeRefused>
    ensures { Gives result (reshape_in (view value.now)) }
{
    has_members(value, 4)?;
    let sizes = new_sizes(alloc, value, "shape")?;
    Ok(NewShape::Sizes(sizes))
}

fn expand_dims_in(value: &Value) -> Result<NewShape, NodeRefused>
    ensures { Gives result (expand_dims_in (view value.now)) }
{
    has_members(value, 4)?;
    let axis = integer(value, "axis")?;
    Ok(NewShape::Expanded(axis))
}

fn squeeze_in(alloc: Global, value: &Value) -> Result<NewShape, NodeRefused>
    ensures { Gives result (squeeze_in (view value.now)) }
{
    has_members(value, 4)?;
    let axes = integers(alloc, value, "axes")?;
    Ok(NewShape::Squeezed(axes))
}

/// The shape that an operator of this family says.
fn new_shape_in(alloc: Global, op: &str, value: &Value) -> Result<NewShape, NodeRefused>
    ensures { Gives result (new_shape_in op.now (view value.now)) }
{
    match op {
        "reshape" => reshape_in(alloc, value),
        "expand_dims" => expand_dims_in(value),
        "squeeze" => squeeze_in(alloc, value),
        _ => Err(NodeRefused::Code(NodeCode::Unknown)),
    }
}

/// The row of an operator of this family.
pub(crate) fn new_shape_row(
    alloc: Global,
    op: &str,
    ids: &Ids,
    value: &Value,
) -> Result<Form, NodeRefused>
    ensures { Gives result (new_shape_row op.now ids.now (view value.now)) }
{
    let shape = new_shape_in(alloc, op, value)?;
    let args = args_in(alloc, ids, value)?;
    Ok(Form::Reshape { args, shape })
}
