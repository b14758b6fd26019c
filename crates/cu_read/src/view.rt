//! The rows of operators that move elements.
ghost use Rattle.serde_json.specs.View.{view};
ghost use Rattle.cu_read.specs.Faults.{Gives};
ghost use Rattle.cu_read.specs.View.{triangle_in, index_in, concat_in, stack_in, permute_dims_in, flip_in, roll_in, broadcast_to_in, rechunk_in, view_row};

use crate::args::args_in;
use crate::faults::{NodeCode, NodeRefused};
use crate::ids::Ids;
use crate::index_item::index_items;
use crate::lists::{chunk_sizes, integers, integers_or_null, sizes};
use crate::members::present;
use crate::rows::{has_members, integer};
use cu_form::Form;
use serde_json::Value;
use std::alloc::Global;

fn triangle_in(alloc: Global, lower: bool, ids: &Ids, value: &Value) -> Result<Form, NodeRefused>
    ensures { Gives result (triangle_in lower ids.now (view value.now)) }
{
    has_members(value, 4)?;
    let k = integer(value, "k")?;
    let args = args_in(alloc, ids, value)?;
    Ok(Form::Triangle { lower, args, k })
}

fn index_in(alloc: Global, ids: &Ids, value: &Value) -> Result<Form, NodeRefused>
    ensures { Gives result (index_in ids.now (view value.now)) }
{
    has_members(value, 4)?;
    let items = index_items(alloc, value, "index")?;
    let args = args_in(alloc, ids, value)?;
    Ok(Form::Index { args, items })
}

fn concat_in(alloc: Global, ids: &Ids, value: &Value) -> Result<Form, NodeRefused>
    ensures { Gives result (concat_in ids.now (view value.now)) }
{
    has_members(value, 4)?;
    let axis = integer(value, "axis")?;
    let args = args_in(alloc, ids, value)?;
    Ok(Form::Concat { args, axis })
}

fn stack_in(alloc: Global, ids: &Ids, value: &Value) -> Result<Form, NodeRefused>
    ensures { Gives result (stack_in ids.now (view value.now)) }
{
    has_members(value, 4)?;
    let axis = integer(value, "axis")?;
    let args = args_in(alloc, ids, value)?;
    Ok(Form::Stack { args, axis })
}

fn permute_dims_in(alloc: Global, ids: &Ids, value: &Value) -> Result<Form, NodeRefused>
    ensures { Gives result (permute_dims_in ids.now (view value.now)) }
{
    has_members(value, 4)?;
    let axes = integers(alloc, value, "axes")?;
    let args = args_in(alloc, ids, value)?;
    Ok(Form::PermuteDims { args, axes })
}

fn flip_in(alloc: Global, ids: &Ids, value: &Value) -> Result<Form, NodeRefused>
    ensures { Gives result (flip_in ids.now (view value.now)) }
{
    has_members(value, 3 + present(value, "axes"))?;
    let axes = integers_or_null(alloc, value, "axes")?;
    let args = args_in(alloc, ids, value)?;
    Ok(Form::Flip { args, axes })
}

fn roll_in(alloc: Global, ids: &Ids, value: &Value) -> Result<Form, NodeRefused>
    ensures { Gives result (roll_in ids.now (view value.now)) }
{
    has_members(value, 5)?;
    let shifts = integers(alloc, value, "shifts")?;
    let axes = integers(alloc, value, "axes")?;
    let args = args_in(alloc, ids, value)?;
    Ok(Form::Roll { args, shifts, axes })
}

fn broadcast_to_in(alloc: Global, ids: &Ids, value: &Value) -> Result<Form, NodeRefused>
    ensures { Gives result (broadcast_to_in ids.now (view value.now)) }
{
    has_members(value, 5)?;
    let shape = sizes(alloc, value, "shape")?;
    let chunk = chunk_sizes(alloc, value, "chunk")?;
    let args = args_in(alloc, ids, value)?;
    Ok(Form::BroadcastTo { args, shape, chunk })
}

fn rechunk_in(alloc: Global, ids: &Ids, value: &Value) -> Result<Form, NodeRefused>
    ensures { Gives result (rechunk_in ids.now (view value.now)) }
{
    has_members(value, 4)?;
    let chunk = chunk_sizes(alloc, value, "chunk")?;
    let args = args_in(alloc, ids, value)?;
    Ok(Form::Rechunk { args, chunk })
}

/// The row of an operator of this family.
pub(crate) fn view_row(
    alloc: Global,
    op: &str,
    ids: &Ids,
    value: &Value,
) -> Result<Form, NodeRefused>
    ensures { Gives result (view_row op.now ids.now (view value.now)) }
{
    match op {
        "tril" => triangle_in(alloc, true, ids, value),
        "triu" => triangle_in(alloc, false, ids, value),
        "index" => index_in(alloc, ids, value),
        "concat" => concat_in(alloc, ids, value),
        "stack" => stack_in(alloc, ids, value),
        "permute_dims" => permute_dims_in(alloc, ids, value),
        "flip" => flip_in(alloc, ids, value),
        "roll" => roll_in(alloc, ids, value),
        "broadcast_to" => broadcast_to_in(alloc, ids, value),
        "rechunk" => rechunk_in(alloc, ids, value),
        _ => Err(NodeRefused::Code(NodeCode::Unknown)),
    }
}
