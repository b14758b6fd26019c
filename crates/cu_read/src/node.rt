//! A node of an expression's text.
ghost use Rattle.std.specs.Prelude.{◌≡◌};
ghost use Rattle.serde_json.specs.View.{view};
ghost use Rattle.cu_read.specs.Faults.{Gives};
ghost use Rattle.cu_read.specs.Node.{if_known, row_of, is_new_id, name_for, node_in};

use crate::creation::creation_row;
use crate::elementwise::elementwise_row;
use crate::faults::{NodeCode, NodeRefused};
use crate::ids::Ids;
use crate::new_shape::new_shape_row;
use crate::reduction::reduction_row;
use crate::rows::text;
use crate::view::view_row;
use cu_form::{Form, Node};
use cu_name::{IdText, is_name};
use serde_json::Value;
use std::alloc::Global;

/// The row, where its family has the operator.
fn if_known(row: Result<Form, NodeRefused>) -> Option<Result<Form, NodeRefused>>
    ensures { result ≡ if_known row }
{
    match row {
        Err(NodeRefused::Code(NodeCode::Unknown)) => None,
        known => Some(known),
    }
}

/// The row of an operator, which one of the families has.
fn row_of(alloc: Global, op: &str, ids: &Ids, value: &Value) -> Result<Form, NodeRefused>
    ensures { Gives result (row_of op.now ids.now (view value.now)) }
{
    if let Some(row) = if_known(creation_row(alloc, op, value)) {
        return row;
    }
    if let Some(row) = if_known(elementwise_row(alloc, op, ids, value)) {
        return row;
    }
    if let Some(row) = if_known(view_row(alloc, op, ids, value)) {
        return row;
    }
    if let Some(row) = if_known(reduction_row(alloc, op, ids, value)) {
        return row;
    }
    new_shape_row(alloc, op, ids, value)
}

/// Whether the text is an id that no node so far has.
fn is_new_id(ids: &Ids, id: &str) -> bool
    ensures { result ≡ is_new_id ids.now id.now }
{
    is_name(id) && !ids.has(id)
}

/// The name of the node that comes after those with these ids, where its form and its id are a node's.
fn name_for(ids: &Ids, id: &str, form: &Form) -> Result<IdText, NodeCode>
    ensures { result ≡ name_for ids.now id.now form.now }
{
    if !form.takes_args() {
        return Err(NodeCode::Args);
    }
    if !is_new_id(ids, id) {
        return Err(NodeCode::Id);
    }
    if !form.names_earlier(ids.len()) {
        return Err(NodeCode::Id);
    }
    match IdText::make(id) {
        Some(name) => Ok(name),
        None => Err(NodeCode::Id),
    }
}

/// The node that comes after those with these ids.
pub(crate) fn node_in(alloc: Global, ids: &Ids, value: &Value) -> Result<Node, NodeRefused>
    ensures { Gives result (node_in ids.now (view value.now)) }
{
    let id = text(value, "id")?;
    let op = text(value, "op")?;
    let form = row_of(alloc, op, ids, value)?;
    match name_for(ids, id, &form) {
        Ok(name) => Ok(Node { name, form }),
        Err(code) => {
            drop(form);
            Err(NodeRefused::Code(code))
        }
    }
}
