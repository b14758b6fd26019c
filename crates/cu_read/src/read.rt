//! The text of an expression.
ghost use Rattle.std.specs.Prelude.{◌≡◌, ◌<◌, ◌^◌, Ok, Err, Some, None, IfOk, IfErr, string_bytes};
ghost use Rattle.std.specs.Result.{result_map_both};
ghost use Rattle.serde_json.specs.Find.{as_array, as_str};
ghost use Rattle.serde_json.specs.Read.{read};
ghost use Rattle.serde_json.specs.View.{view, items_view};
ghost use Rattle.cu_form.specs.Expression.{HaveShortIndices};
ghost use Rattle.cu_read.specs.Faults.{IfReadFault, GivesAs};
ghost use Rattle.cu_read.specs.Form.{HasForm};
ghost use Rattle.cu_read.specs.Read.{compact_of, whole_fault, ids_of, top_member, expression_with, listed_in, AreNodes, expression_in, expression_of};
ghost use Rattle.cu_read.specs.Size.{item_count, items_count};

use crate::faults::{ReadFault, ReadRefused};
use crate::laws::plain_law;
use crate::members::named;
use crate::nodes::{Nodes, nodes_in};
use cu_form::Expr;
use cu_json::is_object_of;
use serde_json::Value;
use std::alloc::Global;
use std::str;

/// The most bytes of the text.
const TEXT_BYTES: usize = 1_048_576;

/// The most nodes.
const MOST_NODES: usize = 256;

/// The code of a text that is no JSON value.
const NO_VALUE: u8 = 1;

/// The code of a value that isn't of the form of the whole.
const NO_FORM: u8 = 2;

/// The code of a text or a list of nodes that is too long.
const TOO_LONG: u8 = 7;

/// The expression that a text says, or its first fault. The text is a JSON object with exactly the members `nodes`, a list of
/// at most 256 objects, `out`, the id of the node that is stored, and `store_as`, the name under which it is stored. A node has
/// exactly the members `id`, `op` and those of its operator's row; an argument is the id of an earlier node, or a number or
/// truth value in an elementwise function. The faults come in this order: 7 where the text has more than 1,048,576 bytes;
/// 1 where it is no JSON value; 2 where the whole isn't of its form; 7 where there are more than 256 nodes; then node by node,
/// with its number, 3 where it has no texts `id` and `op`, 4 where there is no such operator, 3 where the members or their kinds
/// aren't the row's, 5 where the arguments are of a wrong number or form or one is written where an array is wanted, 6 where
/// the id isn't an id or was used before, or an argument names no earlier node; last 2 where `out` names no node or `store_as`
/// isn't a name.
pub fn read_expr(alloc: Global, bytes: &[u8]) -> Result<Expr, ReadRefused>
    ensures ok { IfOk result (λ e. expression_of bytes.now ≡ Ok e) }
    ensures fault { IfErr result (λ e. IfReadFault e (λ f. expression_of bytes.now ≡ Err f)) }
    ensures form { IfOk result (λ e. HasForm bytes.now e) }
{
    match read_with_value(alloc, bytes) {
        Ok(ExprValue { expr, value: _ }) => Ok(expr),
        Err(refused) => Err(refused),
    }
}

/// An expression, and its text as a record keeps it.
#[derive(Drop)]
pub struct ExprText {
    pub expr: Expr,
    /// The JSON value of the text, written compactly: with no space, and with the members of each object in byte order.
    pub compact: String,
}

/// The expression that a text says and its text written compactly, or the first fault, as `read_expr` has it.
pub fn read_expr_text(alloc: Global, bytes: &[u8]) -> Result<ExprText, ReadRefused>
    ensures ok { IfOk result (λ r. expression_of bytes.now ≡ Ok r.expr) }
    ensures compact { IfOk result (λ r. compact_of bytes.now ≡ Some (string_bytes r.compact)) }
    ensures fault { IfErr result (λ e. IfReadFault e (λ f. expression_of bytes.now ≡ Err f)) }
    ensures form { IfOk result (λ r. HasForm bytes.now r.expr) }
{
    let read = read_with_value(alloc, bytes)?;
    plain_law();
    match read.value.to_string(alloc) {
        Ok(compact) => Ok(ExprText {
            expr: read.expr,
            compact,
        }),
        Err(_) => Err(ReadRefused::NoMemory),
    }
}

/// An expression, and the JSON value of its text.
#[derive(Drop)]
struct ExprValue {
    expr: Expr,
    value: Value,
}

/// The expression that a text says and the value as which the text is read, or the first fault, as `read_expr` has it.
fn read_with_value(alloc: Global, bytes: &[u8]) -> Result<ExprValue, ReadRefused>
    ensures ok { IfOk result (λ r. expression_of bytes.now ≡ Ok r.expr) }
    ensures value { IfOk result (λ r. read bytes.now ≡ Some (view r.value)) }
    ensures fault { IfErr result (λ e. IfReadFault e (λ f. expression_of bytes.now ≡ Err f)) }
    ensures form { IfOk result (λ r. HasForm bytes.now r.expr) }
{
    if bytes.len() > TEXT_BYTES {
        return Err(ReadRefused::Fault(whole_fault(TOO_LONG)));
    }
    let Ok(text) = str::from_utf8(bytes) else {
        return Err(ReadRefused::Fault(whole_fault(NO_VALUE)));
    };
    let value = value_in(alloc, text)?;
    match expression_in(alloc, &value) {
        Ok(expr) => Ok(ExprValue { expr, value }),
        Err(refused) => Err(refused),
    }
}

/// A fault of the whole text.
fn whole_fault(code: u8) -> ReadFault
    ensures { result ≡ whole_fault code }
{
    ReadFault { code, node: 0 }
}

fn value_in(alloc: Global, text: &str) -> Result<Value, ReadRefused>
    ensures ok { IfOk result (λ v. read text.now ≡ Some (view v)) }
    ensures fault { IfErr result (λ e. IfReadFault e (λ f. (f ≡ whole_fault 1) × (read text.now ≡ None))) }
{
    match Value::from_str(alloc, text) {
        Ok(value) => Ok(value),
        Err(e) if e.is_memory() => Err(ReadRefused::NoMemory),
        Err(_) => Err(ReadRefused::Fault(whole_fault(NO_VALUE))),
    }
}

/// The list at a member of the whole.
fn top_list<'v>(value: &'v Value, name: &str) -> Result<&'v Vec<Value>, ReadFault>
    ensures { result_map_both (λ v. items_view v.now.items) (λ f. f) result ≡ top_member as_array name.now (view value.now) }
{
    match value.get(name) {
        Some(found) => found.as_array().ok_or(whole_fault(NO_FORM)),
        None => Err(whole_fault(NO_FORM)),
    }
}

/// The text at a member of the whole.
fn top_text<'v>(value: &'v Value, name: &str) -> Result<&'v str, ReadFault>
    ensures { result_map_both (λ s. s.now) (λ f. f) result ≡ top_member as_str name.now (view value.now) }
{
    match value.get(name) {
        Some(found) => found.as_str().ok_or(whole_fault(NO_FORM)),
        None => Err(whole_fault(NO_FORM)),
    }
}

fn expression_in(alloc: Global, value: &Value) -> Result<Expr, ReadRefused>
    requires { item_count (view value.now) < 2 ^ 32 }
    ensures { GivesAs (λ e. e) result (expression_in (view value.now)) }
{
    if !is_object_of(value, 3) {
        return Err(ReadRefused::Fault(whole_fault(NO_FORM)));
    }
    let items = top_list(value, "nodes")?;
    let out = top_text(value, "out")?;
    let store_as = top_text(value, "store_as")?;
    listed_in(alloc, items, out, store_as)
}

fn listed_in(
    alloc: Global,
    items: &Vec<Value>,
    out: &str,
    store_as: &str,
) -> Result<Expr, ReadRefused>
    requires { items_count (items_view items.now.items) < 2 ^ 32 }
    ensures { GivesAs (λ e. e) result (listed_in (items_view items.now.items) out.now store_as.now) }
{
    if items.len() > MOST_NODES {
        return Err(ReadRefused::Fault(whole_fault(TOO_LONG)));
    }
    match nodes_in(alloc, items) {
        Ok(nodes) => expression_with(nodes, out, store_as),
        Err(refused) => Err(refused),
    }
}

/// The expression of these nodes, of which `out` is stored under the name `store_as`.
fn expression_with(nodes: Nodes, out: &str, store_as: &str) -> Result<Expr, ReadRefused>
    requires nodes { AreNodes nodes.list.items }
    requires ids { nodes.ids ≡ ids_of nodes.list.items }
    requires indices { HaveShortIndices nodes.list.items }
    ensures { GivesAs (λ e. e) result (expression_with nodes.list.items nodes.ids out.now store_as.now) }
{
    let Some(number) = nodes.ids.find(out) else {
        return Err(ReadRefused::Fault(whole_fault(NO_FORM)));
    };
    match named(store_as) {
        Some(name) => Ok(Expr::make(nodes.list, number, name)),
        None => Err(ReadRefused::Fault(whole_fault(NO_FORM))),
    }
}
