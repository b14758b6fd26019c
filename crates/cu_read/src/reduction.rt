//! The rows of reductions, of places, of products, of prefix sums and of groups by labels.
ghost use Rattle.std.specs.Prelude.{◌≡◌};
ghost use Rattle.serde_json.specs.View.{view};
ghost use Rattle.cu_read.specs.Faults.{Gives};
ghost use Rattle.cu_read.specs.Reduction.{fold_named, reduce_in, search_in, matmul_in, cumulative_in, group_in, reduction_row};

use crate::args::args_in;
use crate::faults::{NodeCode, NodeRefused};
use crate::ids::Ids;
use crate::lists::integers_or_null;
use crate::members::present;
use crate::rows::{group_count, has_members, integer, integer_or_null, truth_or_false};
use cu_form::Form;
use cu_num::FoldKind;
use serde_json::Value;
use std::alloc::Global;

fn fold_named(op: &str) -> Option<FoldKind>
    ensures { result ≡ fold_named op.now }
{
    match op {
        "sum" => Some(FoldKind::Sum),
        "prod" => Some(FoldKind::Prod),
        "min" => Some(FoldKind::Min),
        "max" => Some(FoldKind::Max),
        "any" => Some(FoldKind::Any),
        "all" => Some(FoldKind::All),
        _ => None,
    }
}

fn reduce_in(alloc: Global, kind: FoldKind, ids: &Ids, value: &Value) -> Result<Form, NodeRefused>
    ensures { Gives result (reduce_in kind ids.now (view value.now)) }
{
    has_members(
        value,
        3 + present(value, "axes") + present(value, "keepdims"),
    )?;
    let axes = integers_or_null(alloc, value, "axes")?;
    let keepdims = truth_or_false(value, "keepdims")?;
    let args = args_in(alloc, ids, value)?;
    Ok(Form::Reduce {
        kind,
        args,
        axes,
        keepdims,
    })
}

fn place_in(alloc: Global, least: bool, ids: &Ids, value: &Value) -> Result<Form, NodeRefused>
    ensures { Gives result (search_in least ids.now (view value.now)) }
{
    has_members(
        value,
        3 + present(value, "axis") + present(value, "keepdims"),
    )?;
    let axis = integer_or_null(value, "axis")?;
    let keepdims = truth_or_false(value, "keepdims")?;
    let args = args_in(alloc, ids, value)?;
    Ok(Form::ArgPlace {
        least,
        args,
        axis,
        keepdims,
    })
}

fn matmul_in(alloc: Global, ids: &Ids, value: &Value) -> Result<Form, NodeRefused>
    ensures { Gives result (matmul_in ids.now (view value.now)) }
{
    has_members(value, 3)?;
    let args = args_in(alloc, ids, value)?;
    Ok(Form::Matmul { args })
}

fn cumulative_in(alloc: Global, ids: &Ids, value: &Value) -> Result<Form, NodeRefused>
    ensures { Gives result (cumulative_in ids.now (view value.now)) }
{
    has_members(value, 3 + present(value, "axis"))?;
    let axis = integer_or_null(value, "axis")?;
    let args = args_in(alloc, ids, value)?;
    Ok(Form::CumulativeSum { args, axis })
}

fn group_in(alloc: Global, least: bool, ids: &Ids, value: &Value) -> Result<Form, NodeRefused>
    ensures { Gives result (group_in least ids.now (view value.now)) }
{
    has_members(value, 5)?;
    let axis = integer(value, "axis")?;
    let groups = group_count(value, "groups")?;
    let args = args_in(alloc, ids, value)?;
    Ok(Form::GroupBy {
        least,
        args,
        axis,
        groups,
    })
}

/// The row of an operator of this family.
pub(crate) fn reduction_row(
    alloc: Global,
    op: &str,
    ids: &Ids,
    value: &Value,
) -> Result<Form, NodeRefused>
    ensures { Gives result (reduction_row op.now ids.now (view value.now)) }
{
    match op {
        "argmin" => return place_in(alloc, true, ids, value),
        "argmax" => return place_in(alloc, false, ids, value),
        "matmul" => return matmul_in(alloc, ids, value),
        "cumulative_sum" => return cumulative_in(alloc, ids, value),
        "groupby_sum" => return group_in(alloc, false, ids, value),
        "groupby_min" => return group_in(alloc, true, ids, value),
        _ => {}
    }
    match fold_named(op) {
        Some(kind) => reduce_in(alloc, kind, ids, value),
        None => Err(NodeRefused::Code(NodeCode::Unknown)),
    }
}
